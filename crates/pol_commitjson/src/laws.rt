//! Laws of commits: each is a function without a body, whose clauses are the law.
ghost use Rattle.std.specs.Prelude.{◌≡◌, codes};

use crate::keys::{
    ACTION, ADD_ENCRYPTION_KEY, ADD_SCHEMA, ADD_SNAPSHOT, ADD_SORT_ORDER, ADD_SPEC, ASSERT_CREATE,
    ASSERT_CURRENT_SCHEMA_ID, ASSERT_DEFAULT_SORT_ORDER_ID, ASSERT_DEFAULT_SPEC_ID,
    ASSERT_LAST_ASSIGNED_FIELD_ID, ASSERT_LAST_ASSIGNED_PARTITION_ID, ASSERT_REF_SNAPSHOT_ID,
    ASSERT_TABLE_UUID, ASSIGN_UUID, IDENTIFIER, LAST_ASSIGNED_FIELD_ID, LAST_ASSIGNED_PARTITION_ID,
    NAMESPACE, REF, REF_NAME, REMOVALS, REMOVE_ENCRYPTION_KEY, REMOVE_PARTITION_SPECS,
    REMOVE_PARTITION_STATISTICS, REMOVE_PROPERTIES, REMOVE_SCHEMAS, REMOVE_SNAPSHOT_REF,
    REMOVE_SNAPSHOTS, REMOVE_STATISTICS, REQUIREMENTS, SCHEMA_IDS, SET_CURRENT_SCHEMA,
    SET_DEFAULT_SORT_ORDER, SET_DEFAULT_SPEC, SET_LOCATION, SET_PARTITION_STATISTICS,
    SET_PROPERTIES, SET_SNAPSHOT_REF, SET_STATISTICS, SNAPSHOT, SNAPSHOT_IDS, SORT_ORDER,
    SORT_ORDER_ID, SPEC, SPEC_IDS, TABLE_CHANGES, UPDATES, UPGRADE_FORMAT_VERSION, UUID,
};

/// The keys of objects are those of the Iceberg REST OpenAPI.
pub fn keys_are_those()
    ensures action { ACTION.now ≡ codes "action" }
    ensures identifier { IDENTIFIER.now ≡ codes "identifier" }
    ensures last_assigned_field_id { LAST_ASSIGNED_FIELD_ID.now ≡ codes "last-assigned-field-id" }
    ensures last_assigned_partition_id { LAST_ASSIGNED_PARTITION_ID.now ≡ codes "last-assigned-partition-id" }
    ensures namespace { NAMESPACE.now ≡ codes "namespace" }
    ensures reference { REF.now ≡ codes "ref" }
    ensures ref_name { REF_NAME.now ≡ codes "ref-name" }
    ensures removals { REMOVALS.now ≡ codes "removals" }
    ensures requirements { REQUIREMENTS.now ≡ codes "requirements" }
    ensures schema_ids { SCHEMA_IDS.now ≡ codes "schema-ids" }
    ensures snapshot { SNAPSHOT.now ≡ codes "snapshot" }
    ensures snapshot_ids { SNAPSHOT_IDS.now ≡ codes "snapshot-ids" }
    ensures sort_order { SORT_ORDER.now ≡ codes "sort-order" }
    ensures sort_order_id { SORT_ORDER_ID.now ≡ codes "sort-order-id" }
    ensures spec { SPEC.now ≡ codes "spec" }
    ensures spec_ids { SPEC_IDS.now ≡ codes "spec-ids" }
    ensures table_changes { TABLE_CHANGES.now ≡ codes "table-changes" }
    ensures updates { UPDATES.now ≡ codes "updates" }
    ensures uuid { UUID.now ≡ codes "uuid" }
{}

/// The words for requirements and updates are those of the Iceberg REST OpenAPI.
pub fn words_are_those()
    ensures assert_create { ASSERT_CREATE.now ≡ codes "assert-create" }
    ensures assert_table_uuid { ASSERT_TABLE_UUID.now ≡ codes "assert-table-uuid" }
    ensures assert_ref_snapshot_id { ASSERT_REF_SNAPSHOT_ID.now ≡ codes "assert-ref-snapshot-id" }
    ensures assert_last_assigned_field_id { ASSERT_LAST_ASSIGNED_FIELD_ID.now ≡ codes "assert-last-assigned-field-id" }
    ensures assert_current_schema_id { ASSERT_CURRENT_SCHEMA_ID.now ≡ codes "assert-current-schema-id" }
    ensures assert_last_assigned_partition_id { ASSERT_LAST_ASSIGNED_PARTITION_ID.now
        ≡ codes "assert-last-assigned-partition-id" }
    ensures assert_default_spec_id { ASSERT_DEFAULT_SPEC_ID.now ≡ codes "assert-default-spec-id" }
    ensures assert_default_sort_order_id { ASSERT_DEFAULT_SORT_ORDER_ID.now ≡ codes "assert-default-sort-order-id" }
    ensures assign_uuid { ASSIGN_UUID.now ≡ codes "assign-uuid" }
    ensures upgrade_format_version { UPGRADE_FORMAT_VERSION.now ≡ codes "upgrade-format-version" }
    ensures add_schema { ADD_SCHEMA.now ≡ codes "add-schema" }
    ensures set_current_schema { SET_CURRENT_SCHEMA.now ≡ codes "set-current-schema" }
    ensures add_spec { ADD_SPEC.now ≡ codes "add-spec" }
    ensures set_default_spec { SET_DEFAULT_SPEC.now ≡ codes "set-default-spec" }
    ensures add_sort_order { ADD_SORT_ORDER.now ≡ codes "add-sort-order" }
    ensures set_default_sort_order { SET_DEFAULT_SORT_ORDER.now ≡ codes "set-default-sort-order" }
    ensures add_snapshot { ADD_SNAPSHOT.now ≡ codes "add-snapshot" }
    ensures set_snapshot_ref { SET_SNAPSHOT_REF.now ≡ codes "set-snapshot-ref" }
    ensures remove_snapshots { REMOVE_SNAPSHOTS.now ≡ codes "remove-snapshots" }
    ensures remove_snapshot_ref { REMOVE_SNAPSHOT_REF.now ≡ codes "remove-snapshot-ref" }
    ensures set_location { SET_LOCATION.now ≡ codes "set-location" }
    ensures set_properties { SET_PROPERTIES.now ≡ codes "set-properties" }
    ensures remove_properties { REMOVE_PROPERTIES.now ≡ codes "remove-properties" }
    ensures remove_partition_specs { REMOVE_PARTITION_SPECS.now ≡ codes "remove-partition-specs" }
    ensures remove_schemas { REMOVE_SCHEMAS.now ≡ codes "remove-schemas" }
    ensures set_statistics { SET_STATISTICS.now ≡ codes "set-statistics" }
    ensures remove_statistics { REMOVE_STATISTICS.now ≡ codes "remove-statistics" }
    ensures set_partition_statistics { SET_PARTITION_STATISTICS.now ≡ codes "set-partition-statistics" }
    ensures remove_partition_statistics { REMOVE_PARTITION_STATISTICS.now ≡ codes "remove-partition-statistics" }
    ensures add_encryption_key { ADD_ENCRYPTION_KEY.now ≡ codes "add-encryption-key" }
    ensures remove_encryption_key { REMOVE_ENCRYPTION_KEY.now ≡ codes "remove-encryption-key" }
{}
