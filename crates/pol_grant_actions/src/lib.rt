//! The actions on catalogue roles, joins and grants.
#![tactic(auto)]

pub mod catalog_roles;
pub mod grants;
pub mod joins;
