ghost use Rattle.std.specs.Prelude.{◌≡◌, [], ℕ, nat_eq, IfOk, unwrap_or};
ghost use Rattle.indexmap.specs.IndexSet.{contains};
ghost use Rattle.pol_meta.specs.Columns.{has_field, is_field};
ghost use Rattle.pol_readers.specs.Reading.{Gives};
ghost use Rattle.pol_metajson.specs.Known.{all_known, known_from};
ghost use Rattle.pol_metajson.specs.Schema as spec;

use crate::Body;
use crate::failed::failed_at;
use crate::ids::{ColumnId, Id};
use crate::kinds::read_fields;
use crate::seen::Seen;
use indexmap::IndexSet;
use pol_meta::{Column, Ids, Part, Schema};
use pol_metakeys::keys;
use pol_readers::{Form, ReadError, field, fixed, object, optional, under_key};
use pol_types::{Listed, OutOfMemory};
use serde_json::Value;
use std::alloc::Global;

/// The most types that stand in one another.
const NESTING: u32 = 32;

#[tactic(auto, unfolding(crate::specs::Schema::columns_form))]
impl Form for Body<Listed<Column>> {
    ghost shape = { spec.columns_form };

    fn read(alloc: Global, value: &Value) -> Result<Self, ReadError> {
        let mut seen = Seen::new(alloc);
        let columns = read_fields(alloc, value, NESTING, 0, &mut seen)?;
        Ok(Body::new(columns))
    }
}

#[tactic(auto, unfolding(crate::specs::Schema::schema))]
impl Form for Body<Schema> {
    ghost shape = { spec.schema };

    fn read(alloc: Global, value: &Value) -> Result<Self, ReadError> {
        object(alloc, value)?;
        fixed(alloc, value, keys::TYPE, keys::STRUCT)?;
        let _given: Option<Id> = optional(alloc, value, keys::SCHEMA_ID)?;
        let given: Option<Listed<ColumnId>> = optional(alloc, value, keys::IDENTIFIER_FIELD_IDS)?;
        let columns: Body<Listed<Column>> = field(alloc, value, keys::FIELDS)?;
        let fields = columns.into_value();
        let ids = ids_of(alloc, given)?;
        known_at(
            alloc,
            keys::IDENTIFIER_FIELD_IDS,
            fields.as_slice(),
            ids.as_slice(),
        )?;
        Ok(Body::new(Schema {
            schema_id: 0,
            identifier_field_ids: ids,
            fields,
        }))
    }
}

/// The ids that are given, if any are.
fn ids_of(alloc: Global, given: Option<Listed<ColumnId>>) -> Result<Ids, OutOfMemory>
    ensures { IfOk result (λ ids. ids ≡ unwrap_or given []) }
{
    match given {
        Some(given) => plain_ids(alloc, given),
        None => Ok(Ids::from(Vec::new(alloc))),
    }
}

fn plain_ids(alloc: Global, given: Listed<ColumnId>) -> Result<Ids, OutOfMemory>
    ensures { IfOk result (λ ids. ids ≡ given) }
{
    let given: Vec<ColumnId> = given.into();
    let mut ids = Vec::with_capacity(alloc, given.len())?;
    for id in given {
        ids.push(id.get() as u32)?;
    }
    Ok(Ids::from(ids))
}

/// The ids at a key must be those of fields: the first that isn't is bad.
fn known_at(alloc: Global, key: &str, columns: &[Column], ids: &[u32]) -> Result<(), ReadError>
    ensures { Gives result (all_known key.now (has_field columns.now) ids.now) }
{
    under_key(alloc, key, known(alloc, columns, ids))
}

#[tactic(auto, unfolding(pol_readers::specs::Forms::holds))]
fn known(alloc: Global, columns: &[Column], ids: &[u32]) -> Result<(), ReadError>
    ensures { Gives result (known_from (has_field columns.now) 0 ids.now) }
{
    if ids.is_empty() {
        return Ok(());
    }
    let fields = field_ids(alloc, columns)?;
    for (place, id) in ids.iter().enumerate() {
        if !fields.contains(id) {
            return failed_at(place, ReadError::here(alloc));
        }
    }
    Ok(())
}

/// The ids of the columns that are fields.
fn field_ids(alloc: Global, columns: &[Column]) -> Result<IndexSet<u32>, OutOfMemory>
    ensures { IfOk result (λ ids. (id : ℕ) → contains nat_eq ids id ≡ has_field columns.now id) }
{
    let mut ids = IndexSet::new(alloc);
    for column in columns {
        if is_field(&column.part) {
            ids.insert(column.id)?;
        }
    }
    Ok(ids)
}

fn is_field(part: &Part) -> bool
    ensures { result ≡ is_field part.now }
{
    matches!(part, Part::Field { .. })
}
