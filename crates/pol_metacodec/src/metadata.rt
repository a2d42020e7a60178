//! The form of a whole metadata: its fields, in the order in which its JSON is printed, in four groups.
ghost use Rattle.std.specs.Prelude.{◌≡◌, ◌++◌, OnOk, ⊤};
ghost use Rattle.pol_forms.specs.Forms.{bytes_of};
ghost use Rattle.pol_forms.specs.Reading.{Gives};
ghost use Rattle.pol_meta.specs.Valid.{HasForms, IsValid};
ghost use Rattle.pol_metacodec.specs.Metadata as spec;

use crate::Metadata;
use crate::whole::is_whole;
use pol_forms::{CodecRefused, Coder, Common, ListOf, Optional, Unread};
use pol_meta::{
    MetadataLogEntry, NamedRef, PartitionSpec, Schema, Snapshot, SnapshotLogEntry, SortOrder,
    TableMetadata,
};
use pol_partcodec::{ColumnId, Id, LastFieldId, Long, Parts, Version};
use pol_properties::Properties;
use pol_types::{Listed, OutOfMemory, Text};
use std::alloc::Global;
use uuid::Uuid;

/// What is current or the default, and the version of the format.
type Chosen = (u32, (Option<u64>, (u32, (u32, u32))));

/// The last ids and times, and the location.
type Lasts = (u32, (u32, (u64, (u64, Text))));

/// The logs and lists up to the schemas.
type Listings = (
    Listed<MetadataLogEntry>,
    (
        Listed<PartitionSpec>,
        (Properties, (Listed<NamedRef>, Listed<Schema>)),
    ),
);

/// The lists behind them, and the uuid.
type Others = (
    Listed<SnapshotLogEntry>,
    (Listed<Snapshot>, (Listed<SortOrder>, Uuid)),
);

/// The bytes of a uuid, as they are.
#[tactic(auto, unfolding(pol_forms::specs::Forms::bytes_of))]
impl Coder<Uuid> for Metadata {
    ghost form = { bytes_of 16 };

    ghost rule = { λ uuid. ⊤ };

    fn write(uuid: &Uuid, written: &mut Vec<u8>) -> Result<(), OutOfMemory> {
        Ok(written.extend_from_slice(uuid.as_bytes())?)
    }

    fn read(_alloc: Global, unread: &mut Unread<'_>) -> Result<Uuid, CodecRefused> {
        Ok(Uuid::from_bytes(unread.array::<16>()?))
    }
}

/// The fields of a metadata.
#[tactic(auto, using(crate::proofs::HeldLemmas::metadata_held), unfolding(crate::specs::Metadata::metadata, crate::specs::Metadata::metadata_fields))]
impl Coder<TableMetadata> for Metadata {
    ghost form = { spec.metadata };

    ghost rule = { IsValid };

    fn write(meta: &TableMetadata, written: &mut Vec<u8>) -> Result<(), OutOfMemory> {
        write_chosen(meta, written)?;
        write_lasts(meta, written)?;
        write_listings(meta, written)?;
        write_others(meta, written)
    }

    fn read(alloc: Global, unread: &mut Unread<'_>) -> Result<TableMetadata, CodecRefused> {
        let meta = read_fields(alloc, unread)?;
        if !is_whole(alloc, &meta)? {
            return Err(CodecRefused::NoForm);
        }
        Ok(meta)
    }
}

#[tactic(auto, using(crate::proofs::HeldLemmas::chosen_held), unfolding(crate::specs::Metadata::chosen))]
fn write_chosen(meta: &TableMetadata, written: &mut Vec<u8>) -> Result<(), OutOfMemory>
    ensures bytes { OnOk result (written.new.items ≡ written.old.items ++ spec.chosen.write (spec.chosen_in meta.now)) }
    ensures holds { OnOk result (HasForms meta.now → spec.chosen.holds (spec.chosen_in meta.now)) }
{
    Id::write(&meta.current_schema_id, written)?;
    Optional::<Long>::write(&meta.current_snapshot_id, written)?;
    Id::write(&meta.default_sort_order_id, written)?;
    Id::write(&meta.default_spec_id, written)?;
    Version::write(&meta.format_version, written)
}

#[tactic(auto, using(crate::proofs::HeldLemmas::lasts_held), unfolding(crate::specs::Metadata::lasts))]
fn write_lasts(meta: &TableMetadata, written: &mut Vec<u8>) -> Result<(), OutOfMemory>
    ensures bytes { OnOk result (written.new.items ≡ written.old.items ++ spec.lasts.write (spec.lasts_in meta.now)) }
    ensures holds { OnOk result (HasForms meta.now → spec.lasts.holds (spec.lasts_in meta.now)) }
{
    ColumnId::write(&meta.last_column_id, written)?;
    LastFieldId::write(&meta.last_partition_id, written)?;
    Long::write(&meta.last_sequence_number, written)?;
    Long::write(&meta.last_updated_ms, written)?;
    Common::write(&meta.location, written)
}

#[tactic(auto, using(crate::proofs::HeldLemmas::listings_held), unfolding(crate::specs::Metadata::listings))]
fn write_listings(meta: &TableMetadata, written: &mut Vec<u8>) -> Result<(), OutOfMemory>
    ensures bytes { OnOk result (written.new.items
        ≡ written.old.items ++ spec.listings.write (spec.listings_in meta.now)) }
    ensures holds { OnOk result (HasForms meta.now → spec.listings.holds (spec.listings_in meta.now)) }
{
    ListOf::<Parts>::write(&meta.metadata_log, written)?;
    ListOf::<Parts>::write(&meta.partition_specs, written)?;
    Common::write(&meta.properties, written)?;
    ListOf::<Parts>::write(&meta.refs, written)?;
    ListOf::<Metadata>::write(&meta.schemas, written)
}

#[tactic(auto, using(crate::proofs::HeldLemmas::others_held), unfolding(crate::specs::Metadata::others))]
fn write_others(meta: &TableMetadata, written: &mut Vec<u8>) -> Result<(), OutOfMemory>
    ensures bytes { OnOk result (written.new.items ≡ written.old.items ++ spec.others.write (spec.others_in meta.now)) }
    ensures holds { OnOk result (HasForms meta.now → spec.others.holds (spec.others_in meta.now)) }
{
    ListOf::<Parts>::write(&meta.snapshot_log, written)?;
    ListOf::<Parts>::write(&meta.snapshots, written)?;
    ListOf::<Parts>::write(&meta.sort_orders, written)?;
    Metadata::write(&meta.table_uuid, written)
}

/// Reads the fields of a metadata without a look at what ties them.
#[tactic(auto, unfolding(crate::specs::Metadata::metadata_fields))]
fn read_fields(alloc: Global, unread: &mut Unread<'_>) -> Result<TableMetadata, CodecRefused>
    ensures { Gives result unread.new (spec.metadata_fields.read unread.old) }
{
    let chosen = read_chosen(alloc, unread)?;
    let lasts = read_lasts(alloc, unread)?;
    let listings = read_listings(alloc, unread)?;
    let others = read_others(alloc, unread)?;
    Ok(metadata_of(chosen, lasts, listings, others))
}

#[tactic(auto, unfolding(crate::specs::Metadata::chosen))]
fn read_chosen(alloc: Global, unread: &mut Unread<'_>) -> Result<Chosen, CodecRefused>
    ensures { Gives result unread.new (spec.chosen.read unread.old) }
{
    let schema = Id::read(alloc, unread)?;
    let snapshot: Option<u64> = Optional::<Long>::read(alloc, unread)?;
    let order = Id::read(alloc, unread)?;
    let partition_spec = Id::read(alloc, unread)?;
    let version = Version::read(alloc, unread)?;
    Ok((schema, (snapshot, (order, (partition_spec, version)))))
}

#[tactic(auto, unfolding(crate::specs::Metadata::lasts))]
fn read_lasts(alloc: Global, unread: &mut Unread<'_>) -> Result<Lasts, CodecRefused>
    ensures { Gives result unread.new (spec.lasts.read unread.old) }
{
    let column = ColumnId::read(alloc, unread)?;
    let partition = LastFieldId::read(alloc, unread)?;
    let sequence_number = Long::read(alloc, unread)?;
    let updated_ms = Long::read(alloc, unread)?;
    let location: Text = Common::read(alloc, unread)?;
    Ok((
        column,
        (partition, (sequence_number, (updated_ms, location))),
    ))
}

#[tactic(auto, unfolding(crate::specs::Metadata::listings))]
fn read_listings(alloc: Global, unread: &mut Unread<'_>) -> Result<Listings, CodecRefused>
    ensures { Gives result unread.new (spec.listings.read unread.old) }
{
    let log: Listed<MetadataLogEntry> = ListOf::<Parts>::read(alloc, unread)?;
    let specs: Listed<PartitionSpec> = ListOf::<Parts>::read(alloc, unread)?;
    let properties: Properties = Common::read(alloc, unread)?;
    let refs: Listed<NamedRef> = ListOf::<Parts>::read(alloc, unread)?;
    let schemas: Listed<Schema> = ListOf::<Metadata>::read(alloc, unread)?;
    Ok((log, (specs, (properties, (refs, schemas)))))
}

#[tactic(auto, unfolding(crate::specs::Metadata::others))]
fn read_others(alloc: Global, unread: &mut Unread<'_>) -> Result<Others, CodecRefused>
    ensures { Gives result unread.new (spec.others.read unread.old) }
{
    let log: Listed<SnapshotLogEntry> = ListOf::<Parts>::read(alloc, unread)?;
    let snapshots: Listed<Snapshot> = ListOf::<Parts>::read(alloc, unread)?;
    let orders: Listed<SortOrder> = ListOf::<Parts>::read(alloc, unread)?;
    let uuid: Uuid = Metadata::read(alloc, unread)?;
    Ok((log, (snapshots, (orders, uuid))))
}

/// The metadata that has these fields.
fn metadata_of(chosen: Chosen, lasts: Lasts, listings: Listings, others: Others) -> TableMetadata
    ensures { result ≡ spec.metadata_of chosen lasts listings others }
{
    let (current_schema_id, (current_snapshot_id, (default_sort_order_id, chosen))) = chosen;
    let (default_spec_id, format_version) = chosen;
    let (last_column_id, (last_partition_id, (last_sequence_number, lasts))) = lasts;
    let (last_updated_ms, location) = lasts;
    let (metadata_log, (partition_specs, (properties, (refs, schemas)))) = listings;
    let (snapshot_log, (snapshots, (sort_orders, table_uuid))) = others;
    TableMetadata {
        current_schema_id,
        current_snapshot_id,
        default_sort_order_id,
        default_spec_id,
        format_version,
        last_column_id,
        last_partition_id,
        last_sequence_number,
        last_updated_ms,
        location,
        metadata_log,
        partition_specs,
        properties,
        refs,
        schemas,
        snapshot_log,
        snapshots,
        sort_orders,
        table_uuid,
    }
}
