use pol_drafts::MemberId;
use pol_meta::{Ids, Schema, Snapshot, SnapshotRef, UnboundOrder, UnboundSpec};
use pol_properties::Properties;
use pol_types::{Listed, Text};
use uuid::Uuid;

/// One change of a table's metadata (Iceberg REST OpenAPI, TableUpdate).
#[derive(Drop)]
pub enum Update {
    /// The table has this uuid already.
    AssignUuid {
        uuid: Uuid,
    },
    /// The table has this format version already.
    UpgradeFormatVersion {
        format_version: u32,
    },
    /// The schema gets its id by the table, whatever id it has.
    AddSchema {
        schema: Schema,
    },
    SetCurrentSchema {
        schema_id: MemberId,
    },
    AddSpec {
        spec: UnboundSpec,
    },
    SetDefaultSpec {
        spec_id: MemberId,
    },
    AddSortOrder {
        sort_order: UnboundOrder,
    },
    SetDefaultSortOrder {
        sort_order_id: MemberId,
    },
    AddSnapshot {
        snapshot: Snapshot,
    },
    SetSnapshotRef {
        ref_name: Text,
        reference: SnapshotRef,
    },
    RemoveSnapshots {
        snapshot_ids: Listed<u64>,
    },
    RemoveSnapshotRef {
        ref_name: Text,
    },
    SetLocation {
        location: Text,
    },
    SetProperties {
        updates: Properties,
    },
    RemoveProperties {
        removals: Listed<Text>,
    },
    RemovePartitionSpecs {
        spec_ids: Ids,
    },
    RemoveSchemas {
        schema_ids: Ids,
    },
    /// It changes nothing here.
    Unsupported {
        action: LeftOut,
    },
}

/// The updates of the standard that aren't served.
#[derive(Clone, Copy, PartialEq, Eq)]
pub enum LeftOut {
    SetStatistics,
    RemoveStatistics,
    SetPartitionStatistics,
    RemovePartitionStatistics,
    AddEncryptionKey,
    RemoveEncryptionKey,
}
