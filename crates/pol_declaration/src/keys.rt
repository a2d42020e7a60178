//! The keys of a declaration.

pub const ALLOWED: &str = "allowed";

pub const BASE: &str = "base";

pub const CATALOG: &str = "catalog";

pub const CATALOG_ROLE: &str = "catalog-role";

pub const CLIENT_ID: &str = "client-id";

pub const GRANT: &str = "grant";

pub const NAME: &str = "name";

pub const PRINCIPAL: &str = "principal";

pub const PRINCIPAL_ROLE: &str = "principal-role";

pub const PRINCIPAL_ROLES: &str = "principal-roles";

pub const PRIVILEGE: &str = "privilege";

pub const ROLES: &str = "roles";

pub const ROOT_SECRET: &str = "root-secret";

pub const SECRET: &str = "secret";
