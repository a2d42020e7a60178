//! Laws of lists of updates.
#![tactic(auto)]

pub mod laws;
