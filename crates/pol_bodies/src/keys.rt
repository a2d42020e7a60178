//! The keys of objects and the words of texts in the bodies of requests, as the Iceberg REST OpenAPI and the Apache
//! Polaris Management Service have them.

pub const ALLOWED_LOCATIONS: &str = "allowedLocations";

pub const CATALOG: &str = "catalog";

pub const CATALOG_ROLE: &str = "catalogRole";

pub const DESTINATION: &str = "destination";

pub const GRANT: &str = "grant";

pub const INTERNAL: &str = "INTERNAL";

pub const NAME: &str = "name";

pub const NAMESPACE: &str = "namespace";

pub const PRINCIPAL: &str = "principal";

pub const PRINCIPAL_ROLE: &str = "principalRole";

pub const PRIVILEGE: &str = "privilege";

pub const PROPERTIES: &str = "properties";

pub const REMOVALS: &str = "removals";

pub const SOURCE: &str = "source";

pub const STORAGE_CONFIG_INFO: &str = "storageConfigInfo";

pub const TABLE: &str = "table";

pub const TABLE_NAME: &str = "tableName";

pub const TYPE: &str = "type";

pub const UPDATES: &str = "updates";

pub const VIEW: &str = "view";

pub const VIEW_NAME: &str = "viewName";
