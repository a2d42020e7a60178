//! The bounds of a state and of a table, judged on changes and on rows.
#![tactic(auto)]

mod bounds;

pub use bounds::{table_within, within_bounds};
