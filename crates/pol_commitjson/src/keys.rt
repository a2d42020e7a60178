//! The keys and words of commits, as the Iceberg REST OpenAPI has them. Those of metadata are in `pol_metakeys`.

pub const ACTION: &str = "action";

pub const IDENTIFIER: &str = "identifier";

pub const LAST_ASSIGNED_FIELD_ID: &str = "last-assigned-field-id";

pub const LAST_ASSIGNED_PARTITION_ID: &str = "last-assigned-partition-id";

pub const NAMESPACE: &str = "namespace";

pub const REF: &str = "ref";

pub const REF_NAME: &str = "ref-name";

pub const REMOVALS: &str = "removals";

pub const REQUIREMENTS: &str = "requirements";

pub const SCHEMA_IDS: &str = "schema-ids";

pub const SNAPSHOT: &str = "snapshot";

pub const SNAPSHOT_IDS: &str = "snapshot-ids";

pub const SORT_ORDER: &str = "sort-order";

pub const SORT_ORDER_ID: &str = "sort-order-id";

pub const SPEC: &str = "spec";

pub const SPEC_IDS: &str = "spec-ids";

pub const TABLE_CHANGES: &str = "table-changes";

pub const UPDATES: &str = "updates";

pub const UUID: &str = "uuid";

pub const ASSERT_CREATE: &str = "assert-create";

pub const ASSERT_TABLE_UUID: &str = "assert-table-uuid";

pub const ASSERT_REF_SNAPSHOT_ID: &str = "assert-ref-snapshot-id";

pub const ASSERT_LAST_ASSIGNED_FIELD_ID: &str = "assert-last-assigned-field-id";

pub const ASSERT_CURRENT_SCHEMA_ID: &str = "assert-current-schema-id";

pub const ASSERT_LAST_ASSIGNED_PARTITION_ID: &str = "assert-last-assigned-partition-id";

pub const ASSERT_DEFAULT_SPEC_ID: &str = "assert-default-spec-id";

pub const ASSERT_DEFAULT_SORT_ORDER_ID: &str = "assert-default-sort-order-id";

pub const ASSIGN_UUID: &str = "assign-uuid";

pub const UPGRADE_FORMAT_VERSION: &str = "upgrade-format-version";

pub const ADD_SCHEMA: &str = "add-schema";

pub const SET_CURRENT_SCHEMA: &str = "set-current-schema";

pub const ADD_SPEC: &str = "add-spec";

pub const SET_DEFAULT_SPEC: &str = "set-default-spec";

pub const ADD_SORT_ORDER: &str = "add-sort-order";

pub const SET_DEFAULT_SORT_ORDER: &str = "set-default-sort-order";

pub const ADD_SNAPSHOT: &str = "add-snapshot";

pub const SET_SNAPSHOT_REF: &str = "set-snapshot-ref";

pub const REMOVE_SNAPSHOTS: &str = "remove-snapshots";

pub const REMOVE_SNAPSHOT_REF: &str = "remove-snapshot-ref";

pub const SET_LOCATION: &str = "set-location";

pub const SET_PROPERTIES: &str = "set-properties";

pub const REMOVE_PROPERTIES: &str = "remove-properties";

pub const REMOVE_PARTITION_SPECS: &str = "remove-partition-specs";

pub const REMOVE_SCHEMAS: &str = "remove-schemas";

pub const SET_STATISTICS: &str = "set-statistics";

pub const REMOVE_STATISTICS: &str = "remove-statistics";

pub const SET_PARTITION_STATISTICS: &str = "set-partition-statistics";

pub const REMOVE_PARTITION_STATISTICS: &str = "remove-partition-statistics";

pub const ADD_ENCRYPTION_KEY: &str = "add-encryption-key";

pub const REMOVE_ENCRYPTION_KEY: &str = "remove-encryption-key";
