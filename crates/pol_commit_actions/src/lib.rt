//! Commits to tables, and the renaming of tables.
#![tactic(auto)]

mod bounds;
pub mod commits;
mod finding;
mod locations;
mod outcome;
mod puts;
pub mod renaming;
mod target;
