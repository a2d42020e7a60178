//! Whether principals, roles, members, joins and grants are sound, and what judges rows of any kind.
#![tactic(auto)]

mod access;
mod differ;
mod keys;
mod known;
mod rising;

pub use access::{is_grant_there, is_join_there, is_member_there, is_sound_access, service_admin};
pub use differ::{Told, keys_differ};
pub use keys::text;
pub use known::{knows_catalog_role, knows_principal, knows_principal_role};
pub use rising::{is_given, rises};
