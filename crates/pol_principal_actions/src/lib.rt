//! The actions on principals, principal roles and memberships.
#![tactic(auto)]

mod drawn;
pub mod members;
pub mod principal_roles;
pub mod principals;
