//! Actions that issue storage tokens, and what these open.
#![tactic(auto)]

pub mod access;
pub mod creation;
pub mod vending;
