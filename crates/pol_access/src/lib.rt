//! Principals, roles, members, joins and grants, what privileges imply, and what a caller may do.
#![tactic(auto)]

mod access;
mod implication;
pub mod laws;
mod listing;
mod names;
mod order;
mod principals;
mod privilege;
mod referent;
mod rows;
mod search;
mod securable;

pub use access::{Access, AccessRoom, beside};
pub use implication::implies;
pub use pol_names::{RoleIds, Scope};
pub use privilege::{Privilege, grantable};
pub use referent::Referent;
pub use rows::{CatalogRoleRow, GrantRow, JoinRow, MemberRow, PrincipalRoleRow, PrincipalRow};
pub use securable::{Securable, SecurableKind};
