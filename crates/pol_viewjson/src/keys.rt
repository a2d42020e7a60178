//! The keys and words of views, as the Iceberg view spec and the Iceberg REST OpenAPI have them. Those that views share
//! with tables are in `pol_metakeys` and `pol_commitjson`.

pub const CURRENT_VERSION_ID: &str = "current-version-id";

pub const DEFAULT_CATALOG: &str = "default-catalog";

pub const DEFAULT_NAMESPACE: &str = "default-namespace";

pub const DIALECT: &str = "dialect";

pub const REPRESENTATIONS: &str = "representations";

/// The key of a query, and the type of its representation.
pub const SQL: &str = "sql";

pub const VERSIONS: &str = "versions";

pub const VERSION_ID: &str = "version-id";

pub const VERSION_LOG: &str = "version-log";

pub const VIEW_UUID: &str = "view-uuid";

pub const VIEW_VERSION: &str = "view-version";

pub const VIEW_VERSION_ID: &str = "view-version-id";

pub const ADD_VIEW_VERSION: &str = "add-view-version";

pub const ASSERT_VIEW_UUID: &str = "assert-view-uuid";

pub const SET_CURRENT_VIEW_VERSION: &str = "set-current-view-version";
