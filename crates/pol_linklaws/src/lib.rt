//! Laws of served links.
#![tactic(auto)]

pub mod laws;
