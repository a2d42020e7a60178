//! The actions on sessions, catalogues and namespaces.
#![tactic(auto)]

pub mod catalogs;
pub mod namespaces;
mod scopes;
pub mod sessions;
