//! Rules on sessions and storage tokens: how many a principal may have, and what a token opens.
#![tactic(auto)]

pub mod access;
pub mod counts;
pub mod data;
