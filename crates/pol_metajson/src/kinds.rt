//! Types of columns that stand in one another.
ghost use Rattle.std.specs.Prelude.{◌≡◌, ◌≤◌, ◌+◌, ◌∷◌, ◌++◌, IfOk};
ghost use Rattle.serde_json.specs.View.{items_view, view};
ghost use Rattle.pol_meta.specs.Columns.{column_ids};
ghost use Rattle.pol_readers.specs.Forms as form;
ghost use Rattle.pol_readers.specs.Reading.{Gives};
ghost use Rattle.pol_metajson.specs.Schema as spec;

use crate::columns::{Inner, Nested, Typed, holds_at, joined, read_id, read_plain, with_inner};
use crate::failed::{failed_at, failed_under};
use crate::seen::Seen;
use crate::siblings::Siblings;
use pol_meta::{Column, Kind, Part};
use pol_metakeys::keys;
use pol_readers::{ReadError, field, object, optional};
use pol_types::{Listed, OutOfMemory, Text};
use serde_json::Value;
use std::alloc::Global;

/// The type that a value is: `left` bounds how many types stand in one another in it, and its columns stand in `depth`
/// others. Ids that were seen are refused, and the ids of its columns are seen from then on.
#[cycle(kinds)]
#[tactic(auto, using(crate::proofs::KindLemmas::kinds))]
pub(crate) fn read_kind(
    alloc: Global,
    value: &Value,
    left: u32,
    depth: u32,
    seen: &mut Seen,
) -> Result<Typed, ReadError>
    requires { depth + left ≤ 33 }
    ensures reading { Gives result ((spec.kind_form left depth seen.old).read (view value.now)) }
    ensures seen { IfOk result (λ typed. seen.new ≡ seen.old ++ column_ids typed.columns) }
{
    if left == 0 {
        return read_plain(alloc, value);
    }
    if value.is_string() {
        return read_plain(alloc, value);
    }
    read_nested(alloc, value, left - 1, depth, seen)
}

/// A type that has columns in it.
#[cycle(kinds)]
#[tactic(auto, unfolding(crate::specs::Schema::nested_form))]
fn read_nested(
    alloc: Global,
    value: &Value,
    left: u32,
    depth: u32,
    seen: &mut Seen,
) -> Result<Typed, ReadError>
    requires { depth + left ≤ 32 }
    ensures reading { Gives result ((spec.nested_form (spec.kind_form left) depth seen.old).read (view value.now)) }
    ensures seen { IfOk result (λ typed. seen.new ≡ seen.old ++ column_ids typed.columns) }
{
    object(alloc, value)?;
    let nested: Nested = field(alloc, value, keys::TYPE)?;
    match nested {
        Nested::Struct => read_struct(alloc, value, left, depth, seen),
        Nested::List => read_list(alloc, value, left, depth, seen),
        Nested::Map => read_map(alloc, value, left, depth, seen),
    }
}

/// The type at a key.
#[cycle(kinds)]
#[tactic(auto, unfolding(pol_readers::specs::Forms::field))]
fn read_kind_at(
    alloc: Global,
    value: &Value,
    key: &str,
    left: u32,
    depth: u32,
    seen: &mut Seen,
) -> Result<Typed, ReadError>
    requires { depth + left ≤ 33 }
    ensures reading { Gives result (form.field key.now (spec.kind_form left depth seen.old).read (view value.now)) }
    ensures seen { IfOk result (λ typed. seen.new ≡ seen.old ++ column_ids typed.columns) }
{
    let Some(member) = value.get(key) else {
        return failed_under(alloc, key, ReadError::here(alloc));
    };
    match read_kind(alloc, member, left, depth, seen) {
        Ok(typed) => Ok(typed),
        Err(error) => failed_under(alloc, key, error),
    }
}

/// The one column at a key, its id at another, and the columns in it.
#[cycle(kinds)]
#[tactic(auto, unfolding(crate::specs::Schema::inner_form))]
fn read_inner(
    alloc: Global,
    value: &Value,
    id_key: &str,
    key: &str,
    left: u32,
    depth: u32,
    seen: &mut Seen,
) -> Result<Inner, ReadError>
    requires { depth + left ≤ 32 }
    ensures reading { Gives result ((spec.inner_form (spec.kind_form left) id_key.now key.now depth seen.old).read
        (view value.now)) }
    ensures seen { IfOk result (λ inner. seen.new ≡ seen.old ++ inner.id ∷ column_ids inner.columns) }
{
    let id = read_id(alloc, value, id_key, seen)?;
    let typed = read_kind_at(alloc, value, key, left, depth + 1, seen)?;
    Ok(Inner {
        id,
        kind: typed.kind,
        columns: typed.columns,
    })
}

/// A list with the columns in it.
#[cycle(kinds)]
#[tactic(auto, unfolding(crate::specs::Schema::list_form))]
fn read_list(
    alloc: Global,
    value: &Value,
    left: u32,
    depth: u32,
    seen: &mut Seen,
) -> Result<Typed, ReadError>
    requires { depth + left ≤ 32 }
    ensures reading { Gives result ((spec.list_form (spec.kind_form left) depth seen.old).read (view value.now)) }
    ensures seen { IfOk result (λ typed. seen.new ≡ seen.old ++ column_ids typed.columns) }
{
    let inner = read_inner(
        alloc,
        value,
        keys::ELEMENT_ID,
        keys::ELEMENT,
        left,
        depth,
        seen,
    )?;
    let required = field(alloc, value, keys::ELEMENT_REQUIRED)?;
    let columns = inner_columns(alloc, depth, Part::Element { required }, inner)?;
    Ok(Typed {
        kind: Kind::List,
        columns,
    })
}

/// A map with the columns in it.
#[cycle(kinds)]
#[tactic(auto, unfolding(crate::specs::Schema::map_form))]
fn read_map(
    alloc: Global,
    value: &Value,
    left: u32,
    depth: u32,
    seen: &mut Seen,
) -> Result<Typed, ReadError>
    requires { depth + left ≤ 32 }
    ensures reading { Gives result ((spec.map_form (spec.kind_form left) depth seen.old).read (view value.now)) }
    ensures seen { IfOk result (λ typed. seen.new ≡ seen.old ++ column_ids typed.columns) }
{
    let keyed = read_inner(alloc, value, keys::KEY_ID, keys::KEY, left, depth, seen)?;
    let valued = read_inner(alloc, value, keys::VALUE_ID, keys::VALUE, left, depth, seen)?;
    let required = field(alloc, value, keys::VALUE_REQUIRED)?;
    let columns = map_columns(alloc, depth, required, keyed, valued)?;
    Ok(Typed {
        kind: Kind::Map,
        columns,
    })
}

/// A struct with the columns in it.
#[cycle(kinds)]
#[tactic(auto, unfolding(crate::specs::Schema::struct_form))]
fn read_struct(
    alloc: Global,
    value: &Value,
    left: u32,
    depth: u32,
    seen: &mut Seen,
) -> Result<Typed, ReadError>
    requires { depth + left ≤ 32 }
    ensures reading { Gives result ((spec.struct_form (spec.kind_form left) depth seen.old).read (view value.now)) }
    ensures seen { IfOk result (λ typed. seen.new ≡ seen.old ++ column_ids typed.columns) }
{
    let columns = read_fields_at(alloc, value, keys::FIELDS, left, depth, seen)?;
    Ok(Typed {
        kind: Kind::Struct,
        columns,
    })
}

/// The fields of a struct at a key.
#[cycle(kinds)]
#[tactic(auto, unfolding(pol_readers::specs::Forms::field))]
fn read_fields_at(
    alloc: Global,
    value: &Value,
    key: &str,
    left: u32,
    depth: u32,
    seen: &mut Seen,
) -> Result<Listed<Column>, ReadError>
    requires { depth + left ≤ 32 }
    ensures reading { Gives result (form.field key.now (spec.struct_fields (spec.kind_form left) depth seen.old).read
        (view value.now)) }
    ensures seen { IfOk result (λ columns. seen.new ≡ seen.old ++ column_ids columns) }
{
    let Some(member) = value.get(key) else {
        return failed_under(alloc, key, ReadError::here(alloc));
    };
    match read_fields(alloc, member, left, depth, seen) {
        Ok(columns) => Ok(columns),
        Err(error) => failed_under(alloc, key, error),
    }
}

/// The fields of a struct.
#[cycle(kinds)]
#[tactic(auto, unfolding(crate::specs::Schema::struct_fields, crate::specs::Chain::chained))]
pub(crate) fn read_fields(
    alloc: Global,
    value: &Value,
    left: u32,
    depth: u32,
    seen: &mut Seen,
) -> Result<Listed<Column>, ReadError>
    requires { depth + left ≤ 32 }
    ensures reading { Gives result ((spec.struct_fields (spec.kind_form left) depth seen.old).read (view value.now)) }
    ensures seen { IfOk result (λ columns. seen.new ≡ seen.old ++ column_ids columns) }
{
    let Some(items) = value.as_array() else {
        return Err(ReadError::here(alloc));
    };
    let mut siblings = Siblings::new(alloc, depth);
    for (place, item) in items.iter().enumerate() {
        let more = match read_field(alloc, item, left, seen, &siblings) {
            Ok(more) => more,
            Err(error) => return failed_at(place, error),
        };
        siblings = siblings.with(more)?;
    }
    Ok(siblings.into_columns())
}

/// A field of a struct, and the columns in it, after those beside it.
#[cycle(kinds)]
#[tactic(auto, unfolding(crate::specs::Schema::struct_field))]
fn read_field(
    alloc: Global,
    value: &Value,
    left: u32,
    seen: &mut Seen,
    beside: &Siblings,
) -> Result<Listed<Column>, ReadError>
    requires { beside.now.depth + left ≤ 32 }
    ensures reading { Gives result ((spec.struct_field (spec.kind_form left) beside.now.depth seen.old
        beside.now.columns).read (view value.now)) }
    ensures seen { IfOk result (λ columns. seen.new ≡ seen.old ++ column_ids columns) }
{
    object(alloc, value)?;
    let depth = beside.depth();
    let id = read_id(alloc, value, keys::ID, seen)?;
    let name: Text = field(alloc, value, keys::NAME)?;
    holds_at(alloc, keys::NAME, beside.is_new_name(&name))?;
    let required = field(alloc, value, keys::REQUIRED)?;
    let typed = read_kind_at(alloc, value, keys::TYPE, left, depth + 1, seen)?;
    let doc = optional(alloc, value, keys::DOC)?;
    let column = Column {
        depth,
        id,
        part: Part::Field {
            name,
            required,
            doc,
        },
        kind: typed.kind,
    };
    Ok(with_inner(alloc, column, typed.columns)?)
}

/// The columns that an inner one makes, as that part of the type it stands in.
fn inner_columns(
    alloc: Global,
    depth: u32,
    part: Part,
    inner: Inner,
) -> Result<Listed<Column>, OutOfMemory>
    ensures { IfOk result (λ columns. columns ≡ spec.inner_columns depth part inner) }
{
    let column = Column {
        depth,
        id: inner.id,
        part,
        kind: inner.kind,
    };
    with_inner(alloc, column, inner.columns)
}

/// The columns of a map's key and value.
fn map_columns(
    alloc: Global,
    depth: u32,
    required: bool,
    keyed: Inner,
    valued: Inner,
) -> Result<Listed<Column>, OutOfMemory>
    ensures { IfOk result (λ columns. columns ≡ spec.map_columns depth required keyed valued) }
{
    let keys = inner_columns(alloc, depth, Part::Key, keyed)?;
    let values = inner_columns(alloc, depth, Part::Value { required }, valued)?;
    joined(keys, values)
}
