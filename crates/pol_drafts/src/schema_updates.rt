ghost use Rattle.std.specs.Prelude.{◌≡◌, IfOk, not, filter, option_copied};
ghost use Rattle.std.specs.List.{find};
ghost use Rattle.pol_meta.specs.Columns.{column_ids};
ghost use Rattle.pol_meta.specs.Creation.{highest};
ghost use Rattle.pol_meta.specs.Valid.{schema_ids};
ghost use Rattle.pol_drafts.specs.Drafts.{Becomes};
ghost use Rattle.pol_drafts.specs.Ids.{chosen, given, has_id, next_id};
ghost use Rattle.pol_drafts.specs.Schemas.{add_schema, is_same_schema, noted_schema, remove_schemas, same_schema_id};
ghost use Rattle.pol_drafts.specs.Schemas.{set_current_schema};

use crate::draft::Draft;
use crate::ids::{has_id, next_after, still_last};
use crate::lists::{push, taken};
use crate::member::MemberId;
use crate::stop::Stop;
use pol_meta::{Column, Schema, Why};
use pol_types::Listed;
use std::alloc::{AllocError, Global};

/// Adds a schema, or finds the first that has the same columns and identifier ids.
#[tactic(auto, unfolding(crate::specs::Schemas::add_schema))]
pub fn add_schema(alloc: Global, draft: &mut Draft, schema: &Schema) -> Result<(), Stop>
    ensures { Becomes (add_schema schema.now draft.old) result draft.new }
{
    if let Some(id) = same_schema_id(schema, draft.meta.schemas.as_slice()) {
        note_schema(draft, id, schema);
        return Ok(());
    }
    let id = next_schema_id(draft.meta.schemas.as_slice())?;
    let added = numbered_schema(schema, id)?;
    push(alloc, &mut draft.meta.schemas, added)?;
    note_schema(draft, id, schema);
    Ok(())
}

/// Makes the schema that is named the current one.
#[tactic(auto, unfolding(crate::specs::Schemas::set_current_schema))]
pub fn set_current_schema(draft: &mut Draft, member: MemberId) -> Result<(), Stop>
    ensures { Becomes (set_current_schema member draft.old) result draft.new }
{
    let id = chosen_schema(member, draft.last_schema, draft.meta.schemas.as_slice())?;
    draft.meta.current_schema_id = id;
    Ok(())
}

/// Removes the schemas of these ids.
#[tactic(auto, unfolding(crate::specs::Schemas::remove_schemas))]
pub fn remove_schemas(alloc: Global, draft: &mut Draft, ids: &[u32]) -> Result<(), Stop>
    ensures { Becomes (remove_schemas ids.now draft.old) result draft.new }
{
    if has_id(ids, draft.meta.current_schema_id) {
        return Err(Stop::Refused(Why::InUse));
    }
    let schemas = taken(alloc, &mut draft.meta.schemas);
    draft.meta.schemas = Listed::from(schemas_left(schemas, ids));
    draft.last_schema = still_last(ids, draft.last_schema);
    Ok(())
}

fn schemas_left(schemas: Vec<Schema>, gone: &[u32]) -> Vec<Schema>
    ensures { result.items ≡ filter (λ schema. not (has_id schema.schema_id gone.now)) schemas.items }
{
    let mut left = schemas;
    left.retain(|schema| !has_id(gone, schema.schema_id));
    left
}

/// The id of the schema that is named, among these.
#[tactic(auto, unfolding(crate::specs::Ids::chosen))]
pub fn chosen_schema(member: MemberId, last: Option<u32>, schemas: &[Schema]) -> Result<u32, Why>
    ensures { result ≡ chosen member last (schema_ids schemas.now) }
{
    match member {
        MemberId::LastAdded => last.ok_or(Why::NoneAdded),
        MemberId::Id { id } => {
            if has_schema(schemas, id) {
                Ok(id)
            } else {
                Err(Why::NoSuchId)
            }
        }
    }
}

fn has_schema(schemas: &[Schema], id: u32) -> bool
    ensures { result ≡ has_id id (schema_ids schemas.now) }
{
    schemas
        .iter()
        .map(|schema| schema.schema_id)
        .any(|other| other == id)
}

/// The id of the first schema that has the same columns and identifier ids.
pub fn same_schema_id(schema: &Schema, schemas: &[Schema]) -> Option<u32>
    ensures { result ≡ same_schema_id schema.now schemas.now }
{
    let same = same_schema(schema, schemas)?;
    Some(same.schema_id)
}

/// The first schema that has the same columns and identifier ids.
fn same_schema<'a>(schema: &Schema, schemas: &'a [Schema]) -> Option<&'a Schema>
    ensures { option_copied result ≡ find (λ other. is_same_schema other schema.now) schemas.now }
{
    schemas.iter().find(|other| is_same_schema(other, schema))
}

/// Whether two schemas have the same columns and identifier ids.
fn is_same_schema(left: &Schema, right: &Schema) -> bool
    ensures { result ≡ is_same_schema left.now right.now }
{
    left.fields == right.fields && left.identifier_field_ids == right.identifier_field_ids
}

/// The id after those of these schemas.
pub fn next_schema_id(schemas: &[Schema]) -> Result<u32, Why>
    ensures { result ≡ given (next_id (schema_ids schemas.now)) }
{
    next_after(
        schemas
            .iter()
            .map(|schema| schema.schema_id)
            .fold(0, |highest, id| highest.max(id)),
    )
}

/// A copy of a schema under an id.
pub fn numbered_schema(schema: &Schema, id: u32) -> Result<Schema, AllocError>
    ensures { IfOk result (λ made. made ≡ record schema.now { schema_id = id }) }
{
    Ok(Schema {
        schema_id: id,
        identifier_field_ids: schema.identifier_field_ids.clone()?,
        fields: schema.fields.clone()?,
    })
}

/// Notes a schema of this id as the last added.
fn note_schema(draft: &mut Draft, id: u32, schema: &Schema)
    ensures { draft.new ≡ noted_schema id schema.now draft.old }
{
    let last = draft.meta.last_column_id;
    draft.meta.last_column_id = last_column_id(last, schema.fields.as_slice());
    draft.last_schema = Some(id);
}

/// The highest column id, no less than the last one.
fn last_column_id(last: u32, columns: &[Column]) -> u32
    ensures { result ≡ highest last (column_ids columns.now) }
{
    columns
        .iter()
        .map(|column| column.id)
        .fold(last, |highest, id| highest.max(id))
}
