//! The form of a schema.
ghost use Rattle.std.specs.Prelude.{◌≡◌, ℕ, IfOk, nat_eq};
ghost use Rattle.std.specs.List.{list_all};
ghost use Rattle.indexmap.specs.IndexSet.{contains};
ghost use Rattle.pol_forms.specs.Reading.{Gives};
ghost use Rattle.pol_meta.specs.Columns.{has_field, is_field};
ghost use Rattle.pol_meta.specs.Valid.{IsSchema};
ghost use Rattle.pol_metacodec.specs.Metadata as spec;
ghost use Rattle.pol_metacodec.specs.Whole as whole;

use crate::Metadata;
use crate::ids::column_ids;
use indexmap::IndexSet;
use pol_columncodec::{Columns, differ};
use pol_forms::{CodecRefused, Coder, Common, Unread, read_list, write_list};
use pol_meta::{Column, Ids, Part, Schema};
use pol_partcodec::Id;
use pol_types::OutOfMemory;
use std::alloc::Global;

#[tactic(auto, using(crate::proofs::HeldLemmas::schema_held), unfolding(crate::specs::Metadata::schema, crate::specs::Metadata::schema_fields))]
impl Coder<Schema> for Metadata {
    ghost form = { spec.schema };

    ghost rule = { IsSchema };

    fn write(schema: &Schema, written: &mut Vec<u8>) -> Result<(), OutOfMemory> {
        Id::write(&schema.schema_id, written)?;
        write_list::<u32, Common>(schema.identifier_field_ids.as_slice(), written)?;
        Columns::write(&schema.fields, written)
    }

    fn read(alloc: Global, unread: &mut Unread<'_>) -> Result<Schema, CodecRefused> {
        let schema = read_schema(alloc, unread)?;
        if !has_own_columns(alloc, &schema)? {
            return Err(CodecRefused::NoForm);
        }
        Ok(schema)
    }
}

/// Reads a schema without a look at ids that stand twice, or that name no field.
#[tactic(auto, unfolding(crate::specs::Metadata::schema_fields))]
fn read_schema(alloc: Global, unread: &mut Unread<'_>) -> Result<Schema, CodecRefused>
    ensures { Gives result unread.new (spec.schema_fields.read unread.old) }
{
    let schema_id = Id::read(alloc, unread)?;
    let identifiers = read_list::<u32, Common>(alloc, unread)?;
    let fields = Columns::read(alloc, unread)?;
    Ok(Schema {
        schema_id,
        identifier_field_ids: Ids::from(identifiers),
        fields,
    })
}

/// Whether the ids of its columns differ, and those that tell rows apart are ids of fields.
fn has_own_columns(alloc: Global, schema: &Schema) -> Result<bool, OutOfMemory>
    ensures { IfOk result (λ own. own ≡ whole.has_own_columns schema.now) }
{
    let ids = column_ids(alloc, schema.fields.as_slice())?;
    if !differ(alloc, ids)? {
        return Ok(false);
    }
    names_fields(alloc, schema)
}

/// Whether the ids that tell rows apart are ids of fields.
fn names_fields(alloc: Global, schema: &Schema) -> Result<bool, OutOfMemory>
    ensures { IfOk result (λ names. names
        ≡ list_all (has_field schema.now.fields) schema.now.identifier_field_ids) }
{
    let ids = field_ids(alloc, schema.fields.as_slice())?;
    Ok(are_among(&ids, schema))
}

/// The ids of the columns that are fields.
fn field_ids(alloc: Global, columns: &[Column]) -> Result<IndexSet<u32>, OutOfMemory>
    ensures { IfOk result (λ ids. (id : ℕ) → contains nat_eq ids id ≡ has_field columns.now id) }
{
    let mut ids = IndexSet::new(alloc);
    for column in columns {
        if is_field(&column.part) {
            ids.insert(column.id)?;
        }
    }
    Ok(ids)
}

fn is_field(part: &Part) -> bool
    ensures { result ≡ is_field part.now }
{
    matches!(part, Part::Field { .. })
}

fn are_among(ids: &IndexSet<u32>, schema: &Schema) -> bool
    ensures { result ≡ list_all (λ id. contains nat_eq ids.now id) schema.now.identifier_field_ids }
{
    let these = schema.identifier_field_ids.as_slice();
    these.iter().all(|id| ids.contains(id))
}
