//! Columns of schemas, in preorder.
ghost use Rattle.std.specs.Prelude.{◌≡◌, ◌≤◌, ◌+◌, ◌∷◌, ◌++◌, [], IfOk};
ghost use Rattle.serde_json.specs.View.{items_view, view};
ghost use Rattle.pol_meta.specs.Columns.{column_ids};
ghost use Rattle.pol_readers.specs.Reading.{Gives, under};
ghost use Rattle.pol_readers.specs.Forms as form;
ghost use Rattle.pol_readers.specs.declared.path.Step.TheVariants.{Key};
ghost use Rattle.pol_metajson.specs.Chain.{chained_items};
ghost use Rattle.pol_metajson.specs.Schema as spec;

use crate::failed::{failed_at, failed_under};
use crate::ids::ColumnId;
use crate::kind::kind_of;
use crate::seen::Seen;
use pol_meta::{Column, Kind, Part};
use pol_metakeys::keys;
use pol_readers::{Form, ReadError, Word, field, holds, object, one_of, optional, under_key};
use pol_types::{Listed, OutOfMemory, Text};
use serde_json::Value;
use std::alloc::Global;

/// A type that has columns in it.
#[derive(Clone, Copy, PartialEq, Eq)]
pub(crate) enum Nested {
    Struct,
    List,
    Map,
}

impl Word for Nested {
    ghost words = { spec.nested_kinds };

    fn of_word(word: &str) -> Option<Self> {
        match word {
            keys::STRUCT => Some(Nested::Struct),
            keys::LIST => Some(Nested::List),
            keys::MAP => Some(Nested::Map),
            _ => None,
        }
    }
}

#[tactic(auto, unfolding(crate::specs::Schema::nested_kind))]
impl Form for Nested {
    ghost shape = { spec.nested_kind };

    fn read(alloc: Global, value: &Value) -> Result<Self, ReadError> {
        one_of(alloc, value)
    }
}

/// A type with the columns in it.
#[derive(Drop)]
pub(crate) struct Typed {
    pub kind: Kind,
    pub columns: Listed<Column>,
}

/// The one column at a key, and the columns in it.
#[derive(Drop)]
pub(crate) struct Inner {
    pub id: u32,
    pub kind: Kind,
    pub columns: Listed<Column>,
}

/// A type in whose word no columns are.
#[tactic(auto, unfolding(crate::specs::Schema::plain_form, pol_readers::specs::Forms::text))]
pub(crate) fn read_plain(alloc: Global, value: &Value) -> Result<Typed, ReadError>
    ensures reading { Gives result (spec.plain_form.read (view value.now)) }
    ensures bare { IfOk result (λ typed. typed.columns ≡ []) }
{
    match value.as_str().and_then(|word| kind_of(word)) {
        Some(kind) => Ok(Typed {
            kind,
            columns: Listed::from(Vec::new(alloc)),
        }),
        None => Err(ReadError::here(alloc)),
    }
}

/// A rule that the member of this key must meet.
pub(crate) fn holds_at(alloc: Global, key: &str, rule: bool) -> Result<(), ReadError>
    ensures { Gives result (under (Key key.now) (form.holds rule)) }
{
    under_key(alloc, key, holds(alloc, rule))
}

/// The id at this key, which no column before has. It is seen from then on.
#[tactic(auto, unfolding(crate::specs::Schema::fresh_id), using(crate::proofs::SeenLemmas::rule_holds))]
pub(crate) fn read_id(
    alloc: Global,
    value: &Value,
    key: &str,
    seen: &mut Seen,
) -> Result<u32, ReadError>
    ensures reading { Gives result ((spec.fresh_id key.now seen.old).read (view value.now)) }
    ensures seen { IfOk result (λ id. seen.new ≡ seen.old ++ id ∷ []) }
{
    let id: ColumnId = field(alloc, value, key)?;
    let id = id.get() as u32;
    let is_new = seen.insert(id)?;
    holds_at(alloc, key, is_new)?;
    Ok(id)
}

/// A column, and those in it.
pub(crate) fn with_inner(
    alloc: Global,
    column: Column,
    inner: Listed<Column>,
) -> Result<Listed<Column>, OutOfMemory>
    ensures { IfOk result (λ columns. columns ≡ column ∷ inner) }
{
    let mut columns = Vec::with_capacity(alloc, 1)?;
    columns.push_reserved(column);
    joined(Listed::from(columns), inner)
}

/// Columns, and others after them.
pub(crate) fn joined(
    first: Listed<Column>,
    second: Listed<Column>,
) -> Result<Listed<Column>, OutOfMemory>
    ensures { IfOk result (λ columns. columns ≡ first ++ second) }
{
    let mut columns: Vec<Column> = first.into();
    let second: Vec<Column> = second.into();
    for column in second {
        columns.push(column)?;
    }
    Ok(Listed::from(columns))
}
