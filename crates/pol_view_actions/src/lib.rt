//! Actions on views.
#![tactic(auto)]

pub mod creation;
pub mod renaming;
pub mod replacing;
pub mod views;
