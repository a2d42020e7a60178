//! Whole states: all changes that make a state anew.
#![tactic(auto)]

mod heading;
pub mod laws;
mod listing;
mod live;
mod put;

pub use listing::all_changes;
