//! The columns of a schema are read. Types stand in one another at most 32 deep, so that reading goes as deep and
//! no deeper.
ghost use Rattle.std.specs.Prelude.{◌≡◌, ◌≤◌, ◌+◌};
ghost use Rattle.pol_forms.specs.Reading.{Gives, and_then, done, times};
ghost use Rattle.pol_columnforms.specs.Columns as spec;

use crate::inner::{joined, with_inner};
use crate::names::have_names;
use crate::types::read_decimal;
use pol_forms::{CodecRefused, Coder, Common, Optional, Unread};
use pol_meta::{Column, Kind, Part};
use pol_partcodec::{ColumnId, Size};
use pol_types::{Listed, Text};
use std::alloc::Global;

/// Reads a type: `left` bounds how many types stand in one another in it, and its columns stand in `depth` others.
#[cycle(columns)]
#[tactic(auto, unfolding(pol_columnforms::specs::Columns::types))]
fn read_type(
    alloc: Global,
    left: u32,
    depth: u32,
    unread: &mut Unread<'_>,
) -> Result<(Kind, Listed<Column>), CodecRefused>
    requires { depth + left ≤ 33 }
    ensures { Gives result unread.new ((spec.type_form left depth).form.read unread.old) }
{
    let none = Listed::from(Vec::new(alloc));
    match unread.byte()? {
        0 => Ok((Kind::Boolean, none)),
        1 => Ok((Kind::Int, none)),
        2 => Ok((Kind::Long, none)),
        3 => Ok((Kind::Float, none)),
        4 => Ok((Kind::Double, none)),
        5 => Ok((Kind::Date, none)),
        6 => Ok((Kind::Time, none)),
        7 => Ok((Kind::Timestamp, none)),
        8 => Ok((Kind::Timestamptz, none)),
        9 => Ok((Kind::String, none)),
        10 => Ok((Kind::Uuid, none)),
        11 => Ok((Kind::Binary, none)),
        12 => {
            let (precision, scale) = read_decimal(alloc, unread)?;
            Ok((Kind::Decimal { precision, scale }, none))
        }
        13 => {
            let length = Size::read(alloc, unread)?;
            Ok((Kind::Fixed { length }, none))
        }
        14 => Ok((Kind::Struct, read_struct(alloc, left, depth, unread)?)),
        15 => Ok((Kind::List, read_list(alloc, left, depth, unread)?)),
        16 => Ok((Kind::Map, read_map(alloc, left, depth, unread)?)),
        _ => Err(CodecRefused::NoForm),
    }
}

/// Reads the columns in a struct.
#[cycle(columns)]
#[tactic(auto, using(pol_columnforms::proofs::DepthLemmas::inner))]
fn read_struct(
    alloc: Global,
    left: u32,
    depth: u32,
    unread: &mut Unread<'_>,
) -> Result<Listed<Column>, CodecRefused>
    requires { depth + left ≤ 33 }
    ensures { Gives result unread.new ((spec.inner_forms left depth).struct.read unread.old) }
{
    if left == 0 {
        return Err(CodecRefused::NoForm);
    }
    read_fields(alloc, left - 1, depth, unread)
}

/// Reads the column in a list.
#[cycle(columns)]
#[tactic(auto, using(pol_columnforms::proofs::DepthLemmas::inner))]
fn read_list(
    alloc: Global,
    left: u32,
    depth: u32,
    unread: &mut Unread<'_>,
) -> Result<Listed<Column>, CodecRefused>
    requires { depth + left ≤ 33 }
    ensures { Gives result unread.new ((spec.inner_forms left depth).element.read unread.old) }
{
    if left == 0 {
        return Err(CodecRefused::NoForm);
    }
    read_element(alloc, left - 1, depth, unread)
}

/// Reads the columns in a map.
#[cycle(columns)]
#[tactic(auto, using(pol_columnforms::proofs::DepthLemmas::inner))]
fn read_map(
    alloc: Global,
    left: u32,
    depth: u32,
    unread: &mut Unread<'_>,
) -> Result<Listed<Column>, CodecRefused>
    requires { depth + left ≤ 33 }
    ensures { Gives result unread.new ((spec.inner_forms left depth).pair.read unread.old) }
{
    if left == 0 {
        return Err(CodecRefused::NoForm);
    }
    read_pair(alloc, left - 1, depth, unread)
}

/// Reads the fields of a struct: their number, and they.
#[cycle(columns)]
#[tactic(auto, unfolding(pol_columnforms::specs::Columns::fields))]
pub(crate) fn read_fields(
    alloc: Global,
    left: u32,
    depth: u32,
    unread: &mut Unread<'_>,
) -> Result<Listed<Column>, CodecRefused>
    requires { depth + left ≤ 32 }
    ensures { Gives result unread.new ((spec.fields depth (spec.type_form left (depth + 1))).read unread.old) }
{
    let columns = read_listed(alloc, left, depth, unread)?;
    if !have_names(alloc, depth, columns.as_slice())? {
        return Err(CodecRefused::NoForm);
    }
    Ok(columns)
}

/// Reads fields without a look at their names.
#[cycle(columns)]
#[tactic(auto, unfolding(pol_columnforms::specs::Columns::listed_fields, pol_forms::specs::Forms::list, pol_forms::specs::Forms::number))]
fn read_listed(
    alloc: Global,
    left: u32,
    depth: u32,
    unread: &mut Unread<'_>,
) -> Result<Listed<Column>, CodecRefused>
    requires { depth + left ≤ 32 }
    ensures { Gives result unread.new ((spec.listed_fields depth (spec.type_form left (depth + 1))).read unread.old) }
{
    let count: u64 = Common::read(alloc, unread)?;
    read_each(alloc, left, depth, count, unread)
}

/// Reads so many fields, each with the columns in it.
#[cycle(columns)]
fn read_each(
    alloc: Global,
    left: u32,
    depth: u32,
    count: u64,
    unread: &mut Unread<'_>,
) -> Result<Listed<Column>, CodecRefused>
    requires { depth + left ≤ 32 }
    ensures { Gives result unread.new (and_then
        (times (spec.field depth (spec.type_form left (depth + 1))).read count unread.old)
        (λ chunks. done (spec.joined chunks))) }
{
    let mut columns = Listed::from(Vec::new(alloc));
    for _ in 0..count {
        let field = read_field(alloc, left, depth, unread)?;
        columns = joined(columns, field)?;
    }
    Ok(columns)
}

/// Reads a field: its column, and those in it.
#[cycle(columns)]
#[tactic(auto, unfolding(pol_columnforms::specs::Columns::field))]
fn read_field(
    alloc: Global,
    left: u32,
    depth: u32,
    unread: &mut Unread<'_>,
) -> Result<Listed<Column>, CodecRefused>
    requires { depth + left ≤ 32 }
    ensures { Gives result unread.new ((spec.field depth (spec.type_form left (depth + 1))).read unread.old) }
{
    let id = ColumnId::read(alloc, unread)?;
    let name: Text = Common::read(alloc, unread)?;
    let required: bool = Common::read(alloc, unread)?;
    let (kind, inner) = read_type(alloc, left, depth + 1, unread)?;
    let doc: Option<Text> = Optional::<Common>::read(alloc, unread)?;
    let part = Part::Field {
        name,
        required,
        doc,
    };
    let column = Column {
        depth,
        id,
        part,
        kind,
    };
    Ok(with_inner(alloc, column, inner)?)
}

/// Reads the element of a list.
#[cycle(columns)]
#[tactic(auto, unfolding(pol_columnforms::specs::Columns::element))]
fn read_element(
    alloc: Global,
    left: u32,
    depth: u32,
    unread: &mut Unread<'_>,
) -> Result<Listed<Column>, CodecRefused>
    requires { depth + left ≤ 32 }
    ensures { Gives result unread.new ((spec.element depth (spec.type_form left (depth + 1))).read unread.old) }
{
    let id = ColumnId::read(alloc, unread)?;
    let (kind, inner) = read_type(alloc, left, depth + 1, unread)?;
    let required: bool = Common::read(alloc, unread)?;
    let column = Column {
        depth,
        id,
        part: Part::Element { required },
        kind,
    };
    Ok(with_inner(alloc, column, inner)?)
}

/// Reads the key and the value of a map.
#[cycle(columns)]
#[tactic(auto, unfolding(pol_columnforms::specs::Columns::pair))]
fn read_pair(
    alloc: Global,
    left: u32,
    depth: u32,
    unread: &mut Unread<'_>,
) -> Result<Listed<Column>, CodecRefused>
    requires { depth + left ≤ 32 }
    ensures { Gives result unread.new ((spec.pair depth (spec.type_form left (depth + 1))).read unread.old) }
{
    let key_id = ColumnId::read(alloc, unread)?;
    let (key_kind, in_key) = read_type(alloc, left, depth + 1, unread)?;
    let value_id = ColumnId::read(alloc, unread)?;
    let (value_kind, in_value) = read_type(alloc, left, depth + 1, unread)?;
    let required: bool = Common::read(alloc, unread)?;
    let key = Column {
        depth,
        id: key_id,
        part: Part::Key,
        kind: key_kind,
    };
    let value = Column {
        depth,
        id: value_id,
        part: Part::Value { required },
        kind: value_kind,
    };
    let keyed = with_inner(alloc, key, in_key)?;
    let valued = with_inner(alloc, value, in_value)?;
    Ok(joined(keyed, valued)?)
}
