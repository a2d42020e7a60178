//! The names of the catalogue: plain names, names, namespaces and identifiers, and the scope of a session.
#![tactic(auto)]

mod identifier;
mod joined;
pub mod laws;
mod name;
mod namespace;
mod plain;
mod scope;

pub use identifier::Identifier;
pub use name::{Name, NameRefused};
pub use namespace::{Namespace, NamespaceRefused};
pub use plain::Plain;
pub use scope::{RoleIds, Scope};
