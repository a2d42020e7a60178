//! Whole metadata.
ghost use Rattle.std.specs.Prelude.{◌≡◌, IfOk};
ghost use Rattle.uuid.specs.Text.{parsed};
ghost use Rattle.pol_meta.specs.Valid.{HasForms};
ghost use Rattle.pol_readers.specs.Reading.{Gives};
ghost use Rattle.pol_readers.specs.Forms as form;
ghost use Rattle.pol_metaread.specs.Metadata as spec;

use crate::ids::{LastFieldId, Long, Version};
use crate::snapshot::long_of;
use crate::stored::{Stored, parts};
use pol_meta::{
    MetadataLogEntry, NamedRef, PartitionSpec, Schema, Snapshot, SnapshotLogEntry, SortOrder,
    TableMetadata,
};
use pol_metajson::{Body, ColumnId, Id};
use pol_metakeys::keys;
use pol_properties::Properties;
use pol_readers::{Form, ReadError, field, object, optional, read_body};
use pol_types::{Listed, Text};
use serde_json::Value;
use std::alloc::Global;
use uuid::Uuid;

/// Reads the metadata of a table as it is printed (Iceberg table spec, Table Metadata Fields). Its fields are tested in
/// byte order of their keys.
#[tactic(auto, using(crate::proofs::FormLemmas::body_holds))]
pub fn read_table(alloc: Global, text: &[u8]) -> Result<TableMetadata, ReadError>
    ensures reading { Gives result (form.body spec.table_metadata.read text.now) }
    ensures formed { IfOk result HasForms }
{
    let stored: Stored<TableMetadata> = read_body(alloc, text)?;
    Ok(stored.into_value())
}

/// Which members are current.
#[derive(Drop)]
pub(crate) struct Current {
    pub schema: u32,
    pub snapshot: Option<u64>,
    pub order: u32,
    pub spec: u32,
}

#[tactic(auto, unfolding(crate::specs::Metadata::current))]
impl Form for Current {
    ghost shape = { spec.current };

    fn read(alloc: Global, value: &Value) -> Result<Self, ReadError> {
        let schema: Id = field(alloc, value, keys::CURRENT_SCHEMA_ID)?;
        let snapshot: Option<Long> = optional(alloc, value, keys::CURRENT_SNAPSHOT_ID)?;
        let order: Id = field(alloc, value, keys::DEFAULT_SORT_ORDER_ID)?;
        let spec: Id = field(alloc, value, keys::DEFAULT_SPEC_ID)?;
        Ok(Current {
            schema: schema.get() as u32,
            snapshot: long_of(snapshot),
            order: order.get() as u32,
            spec: spec.get() as u32,
        })
    }
}

/// The format version and the last numbers.
#[derive(Drop)]
pub(crate) struct Numbers {
    pub version: u32,
    pub column: u32,
    pub partition: u32,
    pub sequence: u64,
    pub updated: u64,
}

#[tactic(auto, unfolding(crate::specs::Metadata::numbers))]
impl Form for Numbers {
    ghost shape = { spec.numbers };

    fn read(alloc: Global, value: &Value) -> Result<Self, ReadError> {
        let version: Version = field(alloc, value, keys::FORMAT_VERSION)?;
        let column: ColumnId = field(alloc, value, keys::LAST_COLUMN_ID)?;
        let partition: LastFieldId = field(alloc, value, keys::LAST_PARTITION_ID)?;
        let sequence: Long = field(alloc, value, keys::LAST_SEQUENCE_NUMBER)?;
        let updated: Long = field(alloc, value, keys::LAST_UPDATED_MS)?;
        Ok(Numbers {
            version: version.get() as u32,
            column: column.get() as u32,
            partition: partition.get() as u32,
            sequence: sequence.get(),
            updated: updated.get(),
        })
    }
}

/// Where a table lies, how it came to be, how it is partitioned, and its properties.
#[derive(Drop)]
pub(crate) struct Described {
    pub location: Text,
    pub metadata_log: Listed<MetadataLogEntry>,
    pub partition_specs: Listed<PartitionSpec>,
    pub properties: Properties,
}

#[tactic(auto, unfolding(crate::specs::Metadata::described))]
impl Form for Described {
    ghost shape = { spec.described };

    fn read(alloc: Global, value: &Value) -> Result<Self, ReadError> {
        let location: Text = field(alloc, value, keys::LOCATION)?;
        let log: Listed<Stored<MetadataLogEntry>> = field(alloc, value, keys::METADATA_LOG)?;
        let specs: Listed<Stored<PartitionSpec>> = field(alloc, value, keys::PARTITION_SPECS)?;
        let properties: Body<Properties> = field(alloc, value, keys::PROPERTIES)?;
        let metadata_log = parts(alloc, log)?;
        let partition_specs = parts(alloc, specs)?;
        Ok(Described {
            location,
            metadata_log,
            partition_specs,
            properties: properties.into_value(),
        })
    }
}

/// The references of a table, its schemas and its snapshots.
#[derive(Drop)]
pub(crate) struct Listing {
    pub refs: Listed<NamedRef>,
    pub schemas: Listed<Schema>,
    pub snapshot_log: Listed<SnapshotLogEntry>,
    pub snapshots: Listed<Snapshot>,
}

#[tactic(auto, unfolding(crate::specs::Metadata::listing))]
impl Form for Listing {
    ghost shape = { spec.listing };

    fn read(alloc: Global, value: &Value) -> Result<Self, ReadError> {
        let refs: Stored<Listed<NamedRef>> = field(alloc, value, keys::REFS)?;
        let schemas: Listed<Stored<Schema>> = field(alloc, value, keys::SCHEMAS)?;
        let log: Listed<Stored<SnapshotLogEntry>> = field(alloc, value, keys::SNAPSHOT_LOG)?;
        let snapshots: Listed<Stored<Snapshot>> = field(alloc, value, keys::SNAPSHOTS)?;
        let schemas = parts(alloc, schemas)?;
        let snapshot_log = parts(alloc, log)?;
        let snapshots = parts(alloc, snapshots)?;
        Ok(Listing {
            refs: refs.into_value(),
            schemas,
            snapshot_log,
            snapshots,
        })
    }
}

#[tactic(auto, unfolding(crate::specs::Metadata::uuid, pol_readers::specs::Forms::text))]
impl Form for Stored<Uuid> {
    ghost shape = { spec.uuid };

    fn read(alloc: Global, value: &Value) -> Result<Self, ReadError> {
        match value.as_str().and_then(|text| uuid_of(text)) {
            Some(uuid) => Ok(Stored::new(uuid)),
            None => Err(ReadError::here(alloc)),
        }
    }
}

/// The uuid that a text is.
fn uuid_of(text: &str) -> Option<Uuid>
    ensures { result ≡ parsed text.now }
{
    match Uuid::parse_str(text) {
        Ok(uuid) => Some(uuid),
        Err(_) => None,
    }
}

#[tactic(auto, unfolding(crate::specs::Metadata::table_metadata))]
impl Form for Stored<TableMetadata> {
    ghost shape = { spec.table_metadata };

    fn read(alloc: Global, value: &Value) -> Result<Self, ReadError> {
        object(alloc, value)?;
        let current = Current::read(alloc, value)?;
        let numbers = Numbers::read(alloc, value)?;
        let described = Described::read(alloc, value)?;
        let listing = Listing::read(alloc, value)?;
        let orders: Listed<Stored<SortOrder>> = field(alloc, value, keys::SORT_ORDERS)?;
        let uuid: Stored<Uuid> = field(alloc, value, keys::TABLE_UUID)?;
        let sort_orders = parts(alloc, orders)?;
        Ok(Stored::new(TableMetadata {
            current_schema_id: current.schema,
            current_snapshot_id: current.snapshot,
            default_sort_order_id: current.order,
            default_spec_id: current.spec,
            format_version: numbers.version,
            last_column_id: numbers.column,
            last_partition_id: numbers.partition,
            last_sequence_number: numbers.sequence,
            last_updated_ms: numbers.updated,
            location: described.location,
            metadata_log: described.metadata_log,
            partition_specs: described.partition_specs,
            properties: described.properties,
            refs: listing.refs,
            schemas: listing.schemas,
            snapshot_log: listing.snapshot_log,
            snapshots: listing.snapshots,
            sort_orders,
            table_uuid: uuid.into_value(),
        }))
    }
}
