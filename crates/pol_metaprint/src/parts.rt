//! The parts of a metadata that aren't schemas.
ghost use Rattle.std.specs.Prelude.{◌≡◌, IfOk};
ghost use Rattle.std.specs.List.{fold};
ghost use Rattle.serde_json.specs.Data.{no_members};
ghost use Rattle.serde_json.specs.View.{members_view, view};
ghost use Rattle.pol_metaprint.specs.Json as spec;

use crate::members::{Members, none, pairs, with, with_number, with_optional, with_text};
use crate::printed::{Printed, list};
use crate::texts::{direction_text, null_order_text, ref_kind_text, transform_text};
use pol_meta::{
    MetadataLogEntry, NamedRef, PartitionField, PartitionSpec, Snapshot, SnapshotLogEntry,
    SnapshotRef, SortField, SortOrder,
};
use pol_metakeys::keys;
use pol_types::OutOfMemory;
use serde_json::Value;
use std::alloc::Global;

#[tactic(auto, unfolding(crate::specs::Json::sort_field_json))]
impl Printed for SortField {
    ghost json = { spec.sort_field_json };

    fn printed(&self, alloc: Global) -> Result<Value, OutOfMemory> {
        let transform = transform_text(alloc, self.transform)?;
        let members = none(alloc);
        let members = with_text(
            alloc,
            members,
            keys::DIRECTION,
            direction_text(self.direction),
        )?;
        let members = with_text(
            alloc,
            members,
            keys::NULL_ORDER,
            null_order_text(self.null_order),
        )?;
        let members = with_number(alloc, members, keys::SOURCE_ID, self.source_id as u64)?;
        let members = with_text(alloc, members, keys::TRANSFORM, transform.as_str())?;
        Ok(Value::from(members))
    }
}

#[tactic(auto, unfolding(crate::specs::Json::sort_order_json))]
impl Printed for SortOrder {
    ghost json = { spec.sort_order_json };

    fn printed(&self, alloc: Global) -> Result<Value, OutOfMemory> {
        let fields = list(alloc, self.fields.as_slice())?;
        let members = with(alloc, none(alloc), keys::FIELDS, fields)?;
        let members = with_number(alloc, members, keys::ORDER_ID, self.order_id as u64)?;
        Ok(Value::from(members))
    }
}

#[tactic(auto, unfolding(crate::specs::Json::partition_field_json))]
impl Printed for PartitionField {
    ghost json = { spec.partition_field_json };

    fn printed(&self, alloc: Global) -> Result<Value, OutOfMemory> {
        let transform = transform_text(alloc, self.transform)?;
        let members = with_number(alloc, none(alloc), keys::FIELD_ID, self.field_id as u64)?;
        let members = with_text(alloc, members, keys::NAME, self.name.as_str())?;
        let members = with_number(alloc, members, keys::SOURCE_ID, self.source_id as u64)?;
        let members = with_text(alloc, members, keys::TRANSFORM, transform.as_str())?;
        Ok(Value::from(members))
    }
}

#[tactic(auto, unfolding(crate::specs::Json::partition_spec_json))]
impl Printed for PartitionSpec {
    ghost json = { spec.partition_spec_json };

    fn printed(&self, alloc: Global) -> Result<Value, OutOfMemory> {
        let fields = list(alloc, self.fields.as_slice())?;
        let members = with(alloc, none(alloc), keys::FIELDS, fields)?;
        let members = with_number(alloc, members, keys::SPEC_ID, self.spec_id as u64)?;
        Ok(Value::from(members))
    }
}

#[tactic(auto, unfolding(crate::specs::Json::snapshot_json))]
impl Printed for Snapshot {
    ghost json = { spec.snapshot_json };

    fn printed(&self, alloc: Global) -> Result<Value, OutOfMemory> {
        let summary = pairs(alloc, &self.summary)?;
        let members = with_text(
            alloc,
            none(alloc),
            keys::MANIFEST_LIST,
            self.manifest_list.as_str(),
        )?;
        let members = with_optional(
            alloc,
            members,
            keys::PARENT_SNAPSHOT_ID,
            self.parent_snapshot_id,
        )?;
        let members = with_optional(alloc, members, keys::SCHEMA_ID, long_of(self.schema_id))?;
        let members = with_number(alloc, members, keys::SEQUENCE_NUMBER, self.sequence_number)?;
        let members = with_number(alloc, members, keys::SNAPSHOT_ID, self.snapshot_id)?;
        let members = with(alloc, members, keys::SUMMARY, summary)?;
        let members = with_number(alloc, members, keys::TIMESTAMP_MS, self.timestamp_ms)?;
        Ok(Value::from(members))
    }
}

fn long_of(number: Option<u32>) -> Option<u64>
    ensures { result ≡ number }
{
    match number {
        Some(number) => Some(number as u64),
        None => None,
    }
}

#[tactic(auto, unfolding(crate::specs::Json::reference_json))]
impl Printed for SnapshotRef {
    ghost json = { spec.reference_json };

    fn printed(&self, alloc: Global) -> Result<Value, OutOfMemory> {
        let members = with_optional(
            alloc,
            none(alloc),
            keys::MAX_REF_AGE_MS,
            self.max_ref_age_ms,
        )?;
        let members = with_optional(
            alloc,
            members,
            keys::MAX_SNAPSHOT_AGE_MS,
            self.max_snapshot_age_ms,
        )?;
        let members = with_optional(
            alloc,
            members,
            keys::MIN_SNAPSHOTS_TO_KEEP,
            self.min_snapshots_to_keep,
        )?;
        let members = with_number(alloc, members, keys::SNAPSHOT_ID, self.snapshot_id)?;
        let members = with_text(alloc, members, keys::TYPE, ref_kind_text(self.kind))?;
        Ok(Value::from(members))
    }
}

/// References under their names.
#[tactic(auto, unfolding(crate::specs::Json::refs_json))]
pub(crate) fn refs(alloc: Global, refs: &[NamedRef]) -> Result<Value, OutOfMemory>
    ensures { IfOk result (λ value. view value ≡ spec.refs_json refs.now) }
{
    let members = ref_members(alloc, refs)?;
    Ok(Value::from(members))
}

fn ref_members(alloc: Global, refs: &[NamedRef]) -> Result<Members, OutOfMemory>
    ensures { IfOk result (λ all. members_view all.entries ≡ fold spec.put_ref no_members refs.now) }
{
    let mut members = none(alloc);
    for named in refs {
        let reference = named.reference.printed(alloc)?;
        members = with(alloc, members, named.name.as_str(), reference)?;
    }
    Ok(members)
}

#[tactic(auto, unfolding(crate::specs::Json::metadata_log_entry_json))]
impl Printed for MetadataLogEntry {
    ghost json = { spec.metadata_log_entry_json };

    fn printed(&self, alloc: Global) -> Result<Value, OutOfMemory> {
        let members = with_text(
            alloc,
            none(alloc),
            keys::METADATA_FILE,
            self.metadata_file.as_str(),
        )?;
        let members = with_number(alloc, members, keys::TIMESTAMP_MS, self.timestamp_ms)?;
        Ok(Value::from(members))
    }
}

#[tactic(auto, unfolding(crate::specs::Json::snapshot_log_entry_json))]
impl Printed for SnapshotLogEntry {
    ghost json = { spec.snapshot_log_entry_json };

    fn printed(&self, alloc: Global) -> Result<Value, OutOfMemory> {
        let members = with_number(alloc, none(alloc), keys::SNAPSHOT_ID, self.snapshot_id)?;
        let members = with_number(alloc, members, keys::TIMESTAMP_MS, self.timestamp_ms)?;
        Ok(Value::from(members))
    }
}
