//! Schemas and whole metadata.
ghost use Rattle.std.specs.Prelude.{◌≡◌, ◌≤◌, ◌++◌, false, IfOk};
ghost use Rattle.serde_json.specs.Data.{depth, object};
ghost use Rattle.serde_json.specs.Read.{max_depth};
ghost use Rattle.serde_json.specs.View.{members_view, view};
ghost use Rattle.serde_json.specs.Written.{compact_text, has_float};
ghost use Rattle.pol_meta.specs.Valid.{HasForms};
ghost use Rattle.pol_metaprint.specs.Json as json;
ghost use Rattle.pol_metaprint.specs.Metadata as spec;
ghost use Rattle.uuid.specs.Text.{hyphenated_text, lower};

use crate::columns::{fields, trees};
use crate::log::write_log;
use crate::members::{Members, none, pairs, with, with_number, with_optional, with_text};
use crate::parts::refs;
use crate::printed::{Printed, list};
use pol_json_texts::{close_object, name_member, open_object};
use pol_meta::{Ids, Schema, TableMetadata};
use pol_metakeys::keys;
use pol_types::{OutOfMemory, Text};
use serde_json::Value;
use std::alloc::Global;
use uuid::Uuid;

/// The JSON of a metadata, in which no number is a float. Where the metadata's parts have their forms, it nests no
/// deeper than JSON that is read may.
#[tactic(auto, using(crate::proofs::WholeLemmas::table_whole, crate::proofs::DepthLemmas::table_nests))]
pub fn table_value(alloc: Global, meta: &TableMetadata) -> Result<Value, OutOfMemory>
    ensures json { IfOk result (λ value. view value ≡ spec.table_json meta.now) }
    ensures whole { IfOk result (λ value. has_float (view value) ≡ false) }
    ensures nests { HasForms meta.now → IfOk result (λ value. depth (view value) ≤ max_depth) }
{
    let members = all_members(alloc, meta)?;
    Ok(Value::from(members))
}

/// The members of a metadata.
#[tactic(auto, unfolding(crate::specs::Metadata::table_json))]
fn all_members(alloc: Global, meta: &TableMetadata) -> Result<Members, OutOfMemory>
    ensures { IfOk result (λ all. object (members_view all.entries) ≡ spec.table_json meta.now) }
{
    let metadata_log = list(alloc, meta.metadata_log.as_slice())?;
    let members = with_front(alloc, none(alloc), meta)?;
    let members = with(alloc, members, keys::METADATA_LOG, metadata_log)?;
    with_back(alloc, members, meta)
}

/// Writes the text of a metadata's JSON, without spaces. The metadata log, which grows with each commit, is written
/// straight.
#[tactic(auto, using(crate::proofs::TextLemmas::table_text, crate::proofs::WholeLemmas::front_whole, crate::proofs::WholeLemmas::back_whole))]
pub fn write_table(
    alloc: Global,
    text: Vec<u8>,
    meta: &TableMetadata,
) -> Result<Vec<u8>, OutOfMemory>
    ensures { IfOk result (λ all. all.items ≡ text.items ++ compact_text (spec.table_json meta.now)) }
{
    let front = with_front(alloc, none(alloc), meta)?;
    let back = with_back(alloc, none(alloc), meta)?;
    let text = open_object(alloc, text, front)?;
    let text = name_member(text, true, keys::METADATA_LOG)?;
    let text = write_log(text, meta.metadata_log.as_slice())?;
    close_object(alloc, text, back)
}

/// The members, and those of a metadata that stand in front of its metadata log.
fn with_front(alloc: Global, members: Members, meta: &TableMetadata) -> Result<Members, OutOfMemory>
    ensures { IfOk result (λ all. members_view all.entries ≡ spec.put_front meta.now (members_view members.entries)) }
{
    let members = with_text(alloc, members, keys::LOCATION, meta.location.as_str())?;
    let members = with_current(alloc, members, meta)?;
    with_numbers(alloc, members, meta)
}

/// The members, and those of a metadata that stand behind its metadata log.
fn with_back(alloc: Global, members: Members, meta: &TableMetadata) -> Result<Members, OutOfMemory>
    ensures { IfOk result (λ all. members_view all.entries ≡ spec.put_back meta.now (members_view members.entries)) }
{
    let members = with_table(alloc, members, meta)?;
    let members = with_snapshots(alloc, members, meta)?;
    with_shapes(alloc, members, meta)
}

/// The members, and what a metadata is of.
#[tactic(auto, unfolding(crate::specs::Metadata::put_table))]
fn with_table(alloc: Global, members: Members, meta: &TableMetadata) -> Result<Members, OutOfMemory>
    ensures { IfOk result (λ all. members_view all.entries ≡ spec.put_table meta.now (members_view members.entries)) }
{
    let properties = pairs(alloc, &meta.properties)?;
    let uuid = uuid_text(alloc, meta.table_uuid)?;
    let members = with(alloc, members, keys::PROPERTIES, properties)?;
    with_text(alloc, members, keys::TABLE_UUID, uuid.as_str())
}

/// The text of a uuid, in small letters with hyphens.
pub fn uuid_text(alloc: Global, uuid: Uuid) -> Result<Text, OutOfMemory>
    ensures { IfOk result (λ text. text ≡ hyphenated_text lower uuid) }
{
    let mut buffer = Uuid::encode_buffer();
    let text = uuid.hyphenated().encode_lower(&mut buffer);
    Ok(Text::from(String::from_str(alloc, text)?))
}

/// The members, and the snapshots of a metadata and what is told of them.
#[tactic(auto, unfolding(crate::specs::Metadata::put_snapshots))]
fn with_snapshots(
    alloc: Global,
    members: Members,
    meta: &TableMetadata,
) -> Result<Members, OutOfMemory>
    ensures { IfOk result (λ all. members_view all.entries
        ≡ spec.put_snapshots meta.now (members_view members.entries)) }
{
    let refs = refs(alloc, meta.refs.as_slice())?;
    let snapshot_log = list(alloc, meta.snapshot_log.as_slice())?;
    let snapshots = list(alloc, meta.snapshots.as_slice())?;
    let members = with(alloc, members, keys::REFS, refs)?;
    let members = with(alloc, members, keys::SNAPSHOT_LOG, snapshot_log)?;
    with(alloc, members, keys::SNAPSHOTS, snapshots)
}

/// The members, and the schemas, specs and orders of a metadata.
#[tactic(auto, unfolding(crate::specs::Metadata::put_shapes))]
fn with_shapes(
    alloc: Global,
    members: Members,
    meta: &TableMetadata,
) -> Result<Members, OutOfMemory>
    ensures { IfOk result (λ all. members_view all.entries ≡ spec.put_shapes meta.now (members_view members.entries)) }
{
    let partition_specs = list(alloc, meta.partition_specs.as_slice())?;
    let schemas = list(alloc, meta.schemas.as_slice())?;
    let sort_orders = list(alloc, meta.sort_orders.as_slice())?;
    let members = with(alloc, members, keys::PARTITION_SPECS, partition_specs)?;
    let members = with(alloc, members, keys::SCHEMAS, schemas)?;
    with(alloc, members, keys::SORT_ORDERS, sort_orders)
}

/// The members, and which members of a metadata are current.
#[tactic(auto, unfolding(crate::specs::Metadata::put_current))]
fn with_current(
    alloc: Global,
    members: Members,
    meta: &TableMetadata,
) -> Result<Members, OutOfMemory>
    ensures { IfOk result (λ all. members_view all.entries ≡ spec.put_current meta.now (members_view members.entries)) }
{
    let schema = meta.current_schema_id as u64;
    let order = meta.default_sort_order_id as u64;
    let spec = meta.default_spec_id as u64;
    let members = with_number(alloc, members, keys::CURRENT_SCHEMA_ID, schema)?;
    let members = with_optional(
        alloc,
        members,
        keys::CURRENT_SNAPSHOT_ID,
        meta.current_snapshot_id,
    )?;
    let members = with_number(alloc, members, keys::DEFAULT_SORT_ORDER_ID, order)?;
    with_number(alloc, members, keys::DEFAULT_SPEC_ID, spec)
}

/// The members, and the numbers of a metadata.
#[tactic(auto, unfolding(crate::specs::Metadata::put_numbers))]
fn with_numbers(
    alloc: Global,
    members: Members,
    meta: &TableMetadata,
) -> Result<Members, OutOfMemory>
    ensures { IfOk result (λ all. members_view all.entries ≡ spec.put_numbers meta.now (members_view members.entries)) }
{
    let version = meta.format_version as u64;
    let column = meta.last_column_id as u64;
    let partition = meta.last_partition_id as u64;
    let members = with_number(alloc, members, keys::FORMAT_VERSION, version)?;
    let members = with_number(alloc, members, keys::LAST_COLUMN_ID, column)?;
    let members = with_number(alloc, members, keys::LAST_PARTITION_ID, partition)?;
    let members = with_number(
        alloc,
        members,
        keys::LAST_SEQUENCE_NUMBER,
        meta.last_sequence_number,
    )?;
    with_number(alloc, members, keys::LAST_UPDATED_MS, meta.last_updated_ms)
}

#[tactic(auto, unfolding(crate::specs::Metadata::schema_json))]
impl Printed for Schema {
    ghost json = { spec.schema_json };

    fn printed(&self, alloc: Global) -> Result<Value, OutOfMemory> {
        let fields = fields(alloc, trees(alloc, self.fields.as_slice())?)?;
        let members = with(alloc, none(alloc), keys::FIELDS, fields)?;
        let members = with_ids(alloc, members, &self.identifier_field_ids)?;
        let members = with_number(alloc, members, keys::SCHEMA_ID, self.schema_id as u64)?;
        let members = with_text(alloc, members, keys::TYPE, keys::STRUCT)?;
        Ok(Value::from(members))
    }
}

/// The members, and the ids of the fields that tell rows apart, if there are any.
fn with_ids(alloc: Global, members: Members, ids: &Ids) -> Result<Members, OutOfMemory>
    ensures { IfOk result (λ all. members_view all.entries ≡ spec.put_ids ids.now (members_view members.entries)) }
{
    let count = ids.len();
    if count == 0 {
        return Ok(members);
    }
    let ids = numbers(alloc, ids.as_slice())?;
    with(alloc, members, keys::IDENTIFIER_FIELD_IDS, ids)
}

fn numbers(alloc: Global, ids: &[u32]) -> Result<Value, OutOfMemory>
    ensures { IfOk result (λ value. view value ≡ json.list_json json.number_json ids.now) }
{
    let mut values = Vec::with_capacity(alloc, ids.len())?;
    for id in ids {
        values.push(Value::from(*id))?;
    }
    Ok(Value::from(values))
}
