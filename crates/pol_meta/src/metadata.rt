ghost use Rattle.std.specs.Prelude.{◌≡◌, IfOk};
ghost use Rattle.std.proofs.Common.{rules};

use crate::{
    MetadataLogEntry, NamedRef, PartitionSpec, Schema, Snapshot, SnapshotLogEntry, SortOrder,
};
use pol_properties::Properties;
use pol_types::{Exact, Listed, OutOfMemory, Text};
use uuid::Uuid;

/// The metadata of a table, with the fields of the Iceberg table spec. Times are in milliseconds since the Unix
/// epoch, and references stand in byte order of their names.
#[derive(Clone, Drop, PartialEq, Eq)]
pub struct TableMetadata {
    pub current_schema_id: u32,
    pub current_snapshot_id: Option<u64>,
    pub default_sort_order_id: u32,
    pub default_spec_id: u32,
    pub format_version: u32,
    pub last_column_id: u32,
    pub last_partition_id: u32,
    pub last_sequence_number: u64,
    pub last_updated_ms: u64,
    pub location: Text,
    pub metadata_log: Listed<MetadataLogEntry>,
    pub partition_specs: Listed<PartitionSpec>,
    pub properties: Properties,
    pub refs: Listed<NamedRef>,
    pub schemas: Listed<Schema>,
    pub snapshot_log: Listed<SnapshotLogEntry>,
    pub snapshots: Listed<Snapshot>,
    pub sort_orders: Listed<SortOrder>,
    pub table_uuid: Uuid,
}

impl TableMetadata {
    /// An equal metadata.
    pub fn copy(&self) -> Result<Self, OutOfMemory>
        ensures { IfOk result (λ copy. copy ≡ self.now) }
    {
        Ok(self.clone()?)
    }
}

impl Exact for TableMetadata {
    ghost use Rattle.pol_meta.specs.Exactness.{table_metadata_exact};

    ghost clones_exactly = { Prim.search rules };

    ghost compares_exactly = { table_metadata_exact };
}
