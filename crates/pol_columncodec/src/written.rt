//! The columns of a schema are written, from a list of them in which those in a column stand behind it.
ghost use Rattle.std.specs.Prelude.{◌≡◌, ◌≤◌, ◌+◌, ◌++◌, ◌∷◌, OnOk, flat_map};
ghost use Rattle.pol_forms.specs.Enums as enums;
ghost use Rattle.pol_forms.specs.Forms as forms;
ghost use Rattle.pol_columnforms.specs.Columns as spec;
ghost use Rattle.pol_partcodec.specs.Numbers.{column_id};

use crate::inner::{fields_among, is_required, parted};
use crate::types::write_decimal;
use pol_forms::{Coder, Common, Optional};
use pol_meta::{Column, Kind, Part};
use pol_partcodec::{ColumnId, Size};
use pol_types::{OutOfMemory, Text};

/// Writes a type and the columns in it: `left` bounds how many types stand in one another in it, and its columns stand
/// in `depth` others.
#[cycle(written)]
#[tactic(auto, unfolding(pol_columnforms::specs::Columns::types))]
fn write_type(
    left: u32,
    depth: u32,
    kind: Kind,
    columns: &[Column],
    written: &mut Vec<u8>,
) -> Result<(), OutOfMemory>
    requires { depth + left ≤ 33 }
    ensures bytes { OnOk result (written.new.items
        ≡ written.old.items ++ (spec.type_form left depth).form.write (kind, columns.now)) }
{
    match kind {
        Kind::Boolean => Ok(written.push(0)?),
        Kind::Int => Ok(written.push(1)?),
        Kind::Long => Ok(written.push(2)?),
        Kind::Float => Ok(written.push(3)?),
        Kind::Double => Ok(written.push(4)?),
        Kind::Date => Ok(written.push(5)?),
        Kind::Time => Ok(written.push(6)?),
        Kind::Timestamp => Ok(written.push(7)?),
        Kind::Timestamptz => Ok(written.push(8)?),
        Kind::String => Ok(written.push(9)?),
        Kind::Uuid => Ok(written.push(10)?),
        Kind::Binary => Ok(written.push(11)?),
        Kind::Decimal { precision, scale } => {
            written.push(12)?;
            write_decimal(precision, scale, written)
        }
        Kind::Fixed { length } => {
            written.push(13)?;
            Size::write(&length, written)
        }
        Kind::Struct => {
            written.push(14)?;
            write_struct(left, depth, columns, written)
        }
        Kind::List => {
            written.push(15)?;
            write_list(left, depth, columns, written)
        }
        Kind::Map => {
            written.push(16)?;
            write_map(left, depth, columns, written)
        }
    }
}

/// Writes the columns in a struct. Where no more types may stand in one another, nothing is written: no such schema has
/// a form.
#[cycle(written)]
#[tactic(auto, using(pol_columnforms::proofs::DepthLemmas::inner_written))]
fn write_struct(
    left: u32,
    depth: u32,
    columns: &[Column],
    written: &mut Vec<u8>,
) -> Result<(), OutOfMemory>
    requires { depth + left ≤ 33 }
    ensures bytes { OnOk result (written.new.items
        ≡ written.old.items ++ (spec.inner_forms left depth).struct.write columns.now) }
{
    if left == 0 {
        return Ok(());
    }
    write_fields(left - 1, depth, columns, written)
}

/// Writes the column in a list, as `write_struct` does.
#[cycle(written)]
#[tactic(auto, using(pol_columnforms::proofs::DepthLemmas::inner_written))]
fn write_list(
    left: u32,
    depth: u32,
    columns: &[Column],
    written: &mut Vec<u8>,
) -> Result<(), OutOfMemory>
    requires { depth + left ≤ 33 }
    ensures bytes { OnOk result (written.new.items
        ≡ written.old.items ++ (spec.inner_forms left depth).element.write columns.now) }
{
    if left == 0 {
        return Ok(());
    }
    write_element(left - 1, depth, columns, written)
}

/// Writes the columns in a map, as `write_struct` does.
#[cycle(written)]
#[tactic(auto, using(pol_columnforms::proofs::DepthLemmas::inner_written))]
fn write_map(
    left: u32,
    depth: u32,
    columns: &[Column],
    written: &mut Vec<u8>,
) -> Result<(), OutOfMemory>
    requires { depth + left ≤ 33 }
    ensures bytes { OnOk result (written.new.items
        ≡ written.old.items ++ (spec.inner_forms left depth).pair.write columns.now) }
{
    if left == 0 {
        return Ok(());
    }
    write_pair(left - 1, depth, columns, written)
}

/// Writes the fields of a struct: their number, and they.
#[cycle(written)]
#[tactic(auto, unfolding(pol_columnforms::specs::Columns::fields, pol_columnforms::specs::Columns::listed_fields, pol_forms::specs::Forms::list, pol_forms::specs::Forms::number))]
pub(crate) fn write_fields(
    left: u32,
    depth: u32,
    columns: &[Column],
    written: &mut Vec<u8>,
) -> Result<(), OutOfMemory>
    requires { depth + left ≤ 32 }
    ensures bytes { OnOk result (written.new.items
        ≡ written.old.items ++ (spec.fields depth (spec.type_form left (depth + 1))).write columns.now) }
{
    let count = fields_among(depth, columns) as u64;
    Common::write(&count, written)?;
    write_each(left, depth, columns, written)
}

/// Writes each column that isn't deeper, with the deeper ones behind it.
#[cycle(written)]
fn write_each(
    left: u32,
    depth: u32,
    columns: &[Column],
    written: &mut Vec<u8>,
) -> Result<(), OutOfMemory>
    requires { depth + left ≤ 32 }
    ensures bytes { OnOk result (written.new.items
        ≡ written.old.items
        ++ flat_map (spec.field depth (spec.type_form left (depth + 1))).write (spec.chunks depth columns.now)) }
{
    let mut rest = columns;
    while let Some((column, others)) = rest.split_first() {
        write_next(left, depth, column, others, written)?;
        rest = others;
    }
    Ok(())
}

/// Writes a column that isn't deeper, with the deeper ones at the head of the others. Of a deeper one it writes
/// nothing.
#[cycle(written)]
#[tactic(auto, using(crate::proofs::WrittenLemmas::next_written))]
fn write_next(
    left: u32,
    depth: u32,
    column: &Column,
    others: &[Column],
    written: &mut Vec<u8>,
) -> Result<(), OutOfMemory>
    requires { depth + left ≤ 32 }
    ensures bytes { OnOk result (written.new.items
        ++ flat_map (spec.field depth (spec.type_form left (depth + 1))).write (spec.chunks depth others.now)
        ≡ written.old.items
        ++ flat_map (spec.field depth (spec.type_form left (depth + 1))).write
        (spec.chunks depth (column.now ∷ others.now))) }
{
    if column.depth > depth {
        return Ok(());
    }
    let (inner, _) = parted(depth, others);
    write_field(left, depth, column, inner, written)
}

/// Writes a field and the columns in it.
#[cycle(written)]
#[tactic(auto, unfolding(pol_columnforms::specs::Columns::field))]
fn write_field(
    left: u32,
    depth: u32,
    column: &Column,
    inner: &[Column],
    written: &mut Vec<u8>,
) -> Result<(), OutOfMemory>
    requires { depth + left ≤ 32 }
    ensures bytes { OnOk result (written.new.items
        ≡ written.old.items ++ (spec.field depth (spec.type_form left (depth + 1))).write (column.now ∷ inner.now)) }
{
    ColumnId::write(&column.id, written)?;
    write_name(&column.part, written)?;
    Common::write(&is_required(&column.part), written)?;
    write_type(left, depth + 1, column.kind, inner, written)?;
    write_doc(&column.part, written)
}

/// Writes the name of a part, or that of no name where it is no field.
#[tactic(auto, unfolding(pol_forms::specs::Forms::text, pol_forms::specs::Forms::byte_string, pol_forms::specs::Forms::number))]
fn write_name(part: &Part, written: &mut Vec<u8>) -> Result<(), OutOfMemory>
    ensures bytes { OnOk result (written.new.items ≡ written.old.items ++ forms.text.write (spec.name_in part.now)) }
{
    match part {
        Part::Field { name, .. } => Common::write(name, written),
        Part::Element { .. } | Part::Key | Part::Value { .. } => Common::write(&0_u64, written),
    }
}

/// Writes the text of a part, or none where it is no field.
fn write_doc(part: &Part, written: &mut Vec<u8>) -> Result<(), OutOfMemory>
    ensures bytes { OnOk result (written.new.items
        ≡ written.old.items ++ (enums.optional forms.text).write (spec.doc_in part.now)) }
{
    match part {
        Part::Field { doc, .. } => Optional::<Common>::write(doc, written),
        Part::Element { .. } | Part::Key | Part::Value { .. } => {
            let none: Option<Text> = None;
            Optional::<Common>::write(&none, written)
        }
    }
}

/// Writes the element of a list: its id, its type, and whether it is required. Of no column it writes what stands for
/// none.
#[cycle(written)]
#[tactic(auto, unfolding(pol_columnforms::specs::Columns::element))]
fn write_element(
    left: u32,
    depth: u32,
    columns: &[Column],
    written: &mut Vec<u8>,
) -> Result<(), OutOfMemory>
    requires { depth + left ≤ 32 }
    ensures bytes { OnOk result (written.new.items
        ≡ written.old.items ++ (spec.element depth (spec.type_form left (depth + 1))).write columns.now) }
{
    let Some((element, inner)) = columns.split_first() else {
        write_typed(left, depth, 0, Kind::Boolean, columns, written)?;
        return Common::write(&true, written);
    };
    write_typed(left, depth, element.id, element.kind, inner, written)?;
    Common::write(&is_required(&element.part), written)
}

/// Writes the key and the value of a map.
#[cycle(written)]
fn write_pair(
    left: u32,
    depth: u32,
    columns: &[Column],
    written: &mut Vec<u8>,
) -> Result<(), OutOfMemory>
    requires { depth + left ≤ 32 }
    ensures bytes { OnOk result (written.new.items
        ≡ written.old.items ++ (spec.pair depth (spec.type_form left (depth + 1))).write columns.now) }
{
    let Some((key, others)) = columns.split_first() else {
        write_typed(left, depth, 0, Kind::Boolean, columns, written)?;
        return write_element(left, depth, columns, written);
    };
    let (inner, beside) = parted(depth, others);
    write_typed(left, depth, key.id, key.kind, inner, written)?;
    write_element(left, depth, beside, written)
}

/// Writes the id of a column, its type, and the columns in it.
#[cycle(written)]
fn write_typed(
    left: u32,
    depth: u32,
    id: u32,
    kind: Kind,
    inner: &[Column],
    written: &mut Vec<u8>,
) -> Result<(), OutOfMemory>
    requires { depth + left ≤ 32 }
    ensures bytes { OnOk result (written.new.items
        ≡ written.old.items ++ (column_id.write id ++ (spec.type_form left (depth + 1)).form.write (kind, inner.now))) }
{
    ColumnId::write(&id, written)?;
    write_type(left, depth + 1, kind, inner, written)
}
