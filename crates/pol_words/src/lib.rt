//! The words of a command line: what they mean, and the reading of them.
#![tactic(auto)]

pub mod laws;
pub mod names;
mod options;
mod plan;

pub use plan::{Plan, Words, plan_of};
