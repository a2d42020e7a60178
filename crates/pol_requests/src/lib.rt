//! The table of requests, why a message has no plan, and the keys that requests and answers share.
#![tactic(auto)]

mod endpoint;
mod keys;
pub mod laws;
mod refused;
mod table;

pub use endpoint::{
    CatalogRequest, CatalogRoleRequest, ContentRequest, Endpoint, NamespaceRequest, ObjectRequest,
    PrincipalRequest, PrincipalRoleRequest, TableRequest, ViewRequest,
};
pub use keys::BASE_KEY;
pub use refused::{RouteRefused, Unplanned, unreadable};
pub use table::{ROW_COUNT, Row, Service, TABLE, table_rows};
