//! The keys and words of the JSON of tables' metadata, which its readers and its print share.
#![tactic(auto)]

pub mod keys;
pub mod laws;
