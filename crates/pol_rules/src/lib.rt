//! Rules: each is what refuses a command, and a function that judges it.
#![tactic(auto)]

pub mod access_rules;
pub mod callers;
pub mod catalog_rules;
pub mod changes;
pub mod drops;
pub mod laws;
pub mod namespace_rules;
pub mod needs;
pub mod prologues;
pub mod rules;
pub mod table_rules;
pub mod view_rules;
