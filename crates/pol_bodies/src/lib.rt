//! The bodies of requests, each as a form.
#![tactic(auto)]

mod bodies;
mod body;
mod commit_bodies;
mod held;
pub mod keys;
pub mod laws;
mod management_bodies;
mod renaming;
mod table_body;
mod view_bodies;

pub use bodies::{CatalogBody, NewCatalog, NewNamespace, PropertyUpdates};
pub use body::body_of;
pub use commit_bodies::{commit_of, commits_of};
pub use management_bodies::{CatalogRoleBody, GrantBody, PrincipalBody, PrincipalRoleBody};
pub use renaming::RenameBody;
pub use table_body::create_table_of;
pub use view_bodies::{create_view_of, view_commit_of};
