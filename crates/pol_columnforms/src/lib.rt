//! The form of the columns of a schema: its definition, and which columns have one.
#![tactic(auto)]

pub mod laws;
