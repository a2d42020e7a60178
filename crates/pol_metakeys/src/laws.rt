//! Laws of the keys and words: each is a function without a body, whose clauses are the law.
ghost use Rattle.std.specs.Prelude.{◌≡◌, codes};

use crate::keys::{
    APPEND, ASC, BRANCH, CURRENT_SCHEMA_ID, CURRENT_SNAPSHOT_ID, DEFAULT_SORT_ORDER_ID,
    DEFAULT_SPEC_ID, DELETE, DESC, DIRECTION, DOC, ELEMENT, ELEMENT_ID, ELEMENT_REQUIRED, FIELD_ID,
    FIELDS, FORMAT_VERSION, ID, IDENTIFIER_FIELD_IDS, KEY, KEY_ID, LAST_COLUMN_ID,
    LAST_PARTITION_ID, LAST_SEQUENCE_NUMBER, LAST_UPDATED_MS, LIST, LOCATION, MANIFEST_LIST, MAP,
    MAX_REF_AGE_MS, MAX_SNAPSHOT_AGE_MS, METADATA_FILE, METADATA_LOG, MIN_SNAPSHOTS_TO_KEEP, NAME,
    NULL_ORDER, NULLS_FIRST, NULLS_LAST, OPERATION, ORDER_ID, OVERWRITE, PARENT_SNAPSHOT_ID,
    PARTITION_SPEC, PARTITION_SPECS, PROPERTIES, REFS, REPLACE, REQUIRED, SCHEMA, SCHEMA_ID,
    SCHEMAS, SEQUENCE_NUMBER, SNAPSHOT_ID, SNAPSHOT_LOG, SNAPSHOTS, SORT_ORDERS, SOURCE_ID,
    SPEC_ID, STAGE_CREATE, STRUCT, SUMMARY, TABLE_UUID, TAG, TIMESTAMP_MS, TRANSFORM, TYPE, VALUE,
    VALUE_ID, VALUE_REQUIRED, WRITE_ORDER,
};

/// The keys of objects are those of the Iceberg table spec, Appendix C, and of the Iceberg REST OpenAPI.
pub fn keys_are_those()
    ensures current_schema_id { CURRENT_SCHEMA_ID.now ≡ codes "current-schema-id" }
    ensures current_snapshot_id { CURRENT_SNAPSHOT_ID.now ≡ codes "current-snapshot-id" }
    ensures default_sort_order_id { DEFAULT_SORT_ORDER_ID.now ≡ codes "default-sort-order-id" }
    ensures default_spec_id { DEFAULT_SPEC_ID.now ≡ codes "default-spec-id" }
    ensures direction { DIRECTION.now ≡ codes "direction" }
    ensures doc { DOC.now ≡ codes "doc" }
    ensures element { ELEMENT.now ≡ codes "element" }
    ensures element_id { ELEMENT_ID.now ≡ codes "element-id" }
    ensures element_required { ELEMENT_REQUIRED.now ≡ codes "element-required" }
    ensures fields { FIELDS.now ≡ codes "fields" }
    ensures field_id { FIELD_ID.now ≡ codes "field-id" }
    ensures format_version { FORMAT_VERSION.now ≡ codes "format-version" }
    ensures id { ID.now ≡ codes "id" }
    ensures identifier_field_ids { IDENTIFIER_FIELD_IDS.now ≡ codes "identifier-field-ids" }
    ensures key { KEY.now ≡ codes "key" }
    ensures key_id { KEY_ID.now ≡ codes "key-id" }
    ensures last_column_id { LAST_COLUMN_ID.now ≡ codes "last-column-id" }
    ensures last_partition_id { LAST_PARTITION_ID.now ≡ codes "last-partition-id" }
    ensures last_sequence_number { LAST_SEQUENCE_NUMBER.now ≡ codes "last-sequence-number" }
    ensures last_updated_ms { LAST_UPDATED_MS.now ≡ codes "last-updated-ms" }
    ensures location { LOCATION.now ≡ codes "location" }
    ensures manifest_list { MANIFEST_LIST.now ≡ codes "manifest-list" }
    ensures max_ref_age_ms { MAX_REF_AGE_MS.now ≡ codes "max-ref-age-ms" }
    ensures max_snapshot_age_ms { MAX_SNAPSHOT_AGE_MS.now ≡ codes "max-snapshot-age-ms" }
    ensures metadata_file { METADATA_FILE.now ≡ codes "metadata-file" }
    ensures metadata_log { METADATA_LOG.now ≡ codes "metadata-log" }
    ensures min_snapshots_to_keep { MIN_SNAPSHOTS_TO_KEEP.now ≡ codes "min-snapshots-to-keep" }
    ensures name { NAME.now ≡ codes "name" }
    ensures null_order { NULL_ORDER.now ≡ codes "null-order" }
    ensures operation { OPERATION.now ≡ codes "operation" }
    ensures order_id { ORDER_ID.now ≡ codes "order-id" }
    ensures parent_snapshot_id { PARENT_SNAPSHOT_ID.now ≡ codes "parent-snapshot-id" }
    ensures partition_spec { PARTITION_SPEC.now ≡ codes "partition-spec" }
    ensures partition_specs { PARTITION_SPECS.now ≡ codes "partition-specs" }
    ensures properties { PROPERTIES.now ≡ codes "properties" }
    ensures refs { REFS.now ≡ codes "refs" }
    ensures required { REQUIRED.now ≡ codes "required" }
    ensures schema { SCHEMA.now ≡ codes "schema" }
    ensures schemas { SCHEMAS.now ≡ codes "schemas" }
    ensures schema_id { SCHEMA_ID.now ≡ codes "schema-id" }
    ensures sequence_number { SEQUENCE_NUMBER.now ≡ codes "sequence-number" }
    ensures snapshots { SNAPSHOTS.now ≡ codes "snapshots" }
    ensures snapshot_id { SNAPSHOT_ID.now ≡ codes "snapshot-id" }
    ensures snapshot_log { SNAPSHOT_LOG.now ≡ codes "snapshot-log" }
    ensures sort_orders { SORT_ORDERS.now ≡ codes "sort-orders" }
    ensures source_id { SOURCE_ID.now ≡ codes "source-id" }
    ensures spec_id { SPEC_ID.now ≡ codes "spec-id" }
    ensures stage_create { STAGE_CREATE.now ≡ codes "stage-create" }
    ensures summary { SUMMARY.now ≡ codes "summary" }
    ensures table_uuid { TABLE_UUID.now ≡ codes "table-uuid" }
    ensures timestamp_ms { TIMESTAMP_MS.now ≡ codes "timestamp-ms" }
    ensures transform { TRANSFORM.now ≡ codes "transform" }
    ensures kind { TYPE.now ≡ codes "type" }
    ensures value { VALUE.now ≡ codes "value" }
    ensures value_id { VALUE_ID.now ≡ codes "value-id" }
    ensures value_required { VALUE_REQUIRED.now ≡ codes "value-required" }
    ensures write_order { WRITE_ORDER.now ≡ codes "write-order" }
{}

/// So are the words of texts.
pub fn words_are_those()
    ensures append { APPEND.now ≡ codes "append" }
    ensures asc { ASC.now ≡ codes "asc" }
    ensures branch { BRANCH.now ≡ codes "branch" }
    ensures delete { DELETE.now ≡ codes "delete" }
    ensures desc { DESC.now ≡ codes "desc" }
    ensures list { LIST.now ≡ codes "list" }
    ensures map { MAP.now ≡ codes "map" }
    ensures nulls_first { NULLS_FIRST.now ≡ codes "nulls-first" }
    ensures nulls_last { NULLS_LAST.now ≡ codes "nulls-last" }
    ensures overwrite { OVERWRITE.now ≡ codes "overwrite" }
    ensures replace { REPLACE.now ≡ codes "replace" }
    ensures structure { STRUCT.now ≡ codes "struct" }
    ensures tag { TAG.now ≡ codes "tag" }
{}
