//! Histories that contracts see, and that take no memory but that of their count.
#![tactic(auto)]

mod history;
mod step;

pub use history::History;
