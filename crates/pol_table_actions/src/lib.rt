//! Actions on tables.
#![tactic(auto)]

pub mod copying;
pub mod creation;
pub mod loading;
pub mod tables;
