//! The keys of objects and the words of texts, as the Iceberg table spec has them.

pub const CURRENT_SCHEMA_ID: &str = "current-schema-id";

pub const CURRENT_SNAPSHOT_ID: &str = "current-snapshot-id";

pub const DEFAULT_SORT_ORDER_ID: &str = "default-sort-order-id";

pub const DEFAULT_SPEC_ID: &str = "default-spec-id";

pub const DIRECTION: &str = "direction";

pub const DOC: &str = "doc";

pub const ELEMENT: &str = "element";

pub const ELEMENT_ID: &str = "element-id";

pub const ELEMENT_REQUIRED: &str = "element-required";

pub const FIELDS: &str = "fields";

pub const FIELD_ID: &str = "field-id";

pub const FORMAT_VERSION: &str = "format-version";

pub const ID: &str = "id";

pub const IDENTIFIER_FIELD_IDS: &str = "identifier-field-ids";

pub const KEY: &str = "key";

pub const KEY_ID: &str = "key-id";

pub const LAST_COLUMN_ID: &str = "last-column-id";

pub const LAST_PARTITION_ID: &str = "last-partition-id";

pub const LAST_SEQUENCE_NUMBER: &str = "last-sequence-number";

pub const LAST_UPDATED_MS: &str = "last-updated-ms";

pub const LOCATION: &str = "location";

pub const MANIFEST_LIST: &str = "manifest-list";

pub const MAX_REF_AGE_MS: &str = "max-ref-age-ms";

pub const MAX_SNAPSHOT_AGE_MS: &str = "max-snapshot-age-ms";

pub const METADATA_FILE: &str = "metadata-file";

pub const METADATA_LOG: &str = "metadata-log";

pub const MIN_SNAPSHOTS_TO_KEEP: &str = "min-snapshots-to-keep";

pub const NAME: &str = "name";

pub const NULL_ORDER: &str = "null-order";

pub const OPERATION: &str = "operation";

pub const ORDER_ID: &str = "order-id";

pub const PARENT_SNAPSHOT_ID: &str = "parent-snapshot-id";

pub const PARTITION_SPEC: &str = "partition-spec";

pub const PARTITION_SPECS: &str = "partition-specs";

pub const PROPERTIES: &str = "properties";

pub const REFS: &str = "refs";

pub const REQUIRED: &str = "required";

pub const SCHEMA: &str = "schema";

pub const SCHEMAS: &str = "schemas";

pub const SCHEMA_ID: &str = "schema-id";

pub const SEQUENCE_NUMBER: &str = "sequence-number";

pub const SNAPSHOTS: &str = "snapshots";

pub const SNAPSHOT_ID: &str = "snapshot-id";

pub const SNAPSHOT_LOG: &str = "snapshot-log";

pub const SORT_ORDERS: &str = "sort-orders";

pub const SOURCE_ID: &str = "source-id";

pub const SPEC_ID: &str = "spec-id";

pub const STAGE_CREATE: &str = "stage-create";

pub const SUMMARY: &str = "summary";

pub const TABLE_UUID: &str = "table-uuid";

pub const TIMESTAMP_MS: &str = "timestamp-ms";

pub const TRANSFORM: &str = "transform";

pub const TYPE: &str = "type";

pub const VALUE: &str = "value";

pub const VALUE_ID: &str = "value-id";

pub const VALUE_REQUIRED: &str = "value-required";

pub const WRITE_ORDER: &str = "write-order";

pub const APPEND: &str = "append";

pub const ASC: &str = "asc";

pub const BRANCH: &str = "branch";

pub const DELETE: &str = "delete";

pub const DESC: &str = "desc";

pub const LIST: &str = "list";

pub const MAP: &str = "map";

pub const NULLS_FIRST: &str = "nulls-first";

pub const NULLS_LAST: &str = "nulls-last";

pub const OVERWRITE: &str = "overwrite";

pub const REPLACE: &str = "replace";

pub const STRUCT: &str = "struct";

pub const TAG: &str = "tag";
