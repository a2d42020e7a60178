//! The forms of ids and other numbers within bounds.
ghost use Rattle.std.specs.Prelude.{◌≡◌};
ghost use Rattle.pol_forms.specs.Reading.{Gives};
ghost use Rattle.pol_partcodec.specs.Numbers as spec;

use pol_forms::{CodecRefused, Coder, Common, Unread};
use pol_types::OutOfMemory;
use std::alloc::Global;

/// The greatest id of a schema, a partition spec, a sort order or a partition field, and the greatest size.
const HIGHEST_ID: u32 = 2_147_483_647;

/// The greatest id of a column: those above are the spec's own.
const HIGHEST_COLUMN_ID: u32 = 2_147_483_447;

/// The most digits of a decimal.
const HIGHEST_PRECISION: u32 = 38;

/// The greatest number of 63 bits.
const HIGHEST_LONG: u64 = 9_223_372_036_854_775_807;

/// What stands for the form of the id of a schema, a partition spec or a sort order.
pub struct Id;

/// What stands for the form of the id of a column.
pub struct ColumnId;

/// What stands for the form of the id of a partition field.
pub struct FieldId;

/// What stands for the form of the last id of a partition field that was given.
pub struct LastFieldId;

/// What stands for the form of a number of buckets, a width or a length.
pub struct Size;

/// What stands for the form of the number of digits of a decimal, those behind the point with them.
pub struct Precision;

/// What stands for the form of the version of the format that a metadata has: there is one.
pub struct Version;

/// What stands for the form of the id of a snapshot, a sequence number or a time.
pub struct Long;

/// What stands for the form of an age or a number that is to be kept of a reference.
pub struct Kept;

fn is_between(least: u32, most: u32, number: u32) -> bool
    ensures { result ≡ spec.is_between least most number }
{
    least <= number && number <= most
}

fn is_long_between(least: u64, most: u64, number: u64) -> bool
    ensures { result ≡ spec.is_between least most number }
{
    least <= number && number <= most
}

/// Reads a number of 32 bits, and asks that it is within these bounds.
#[tactic(auto, unfolding(crate::specs::Numbers::short_between))]
fn read_between(
    alloc: Global,
    least: u32,
    most: u32,
    unread: &mut Unread<'_>,
) -> Result<u32, CodecRefused>
    ensures { Gives result unread.new ((spec.short_between least most).read unread.old) }
{
    let number: u32 = Common::read(alloc, unread)?;
    if !is_between(least, most, number) {
        return Err(CodecRefused::NoForm);
    }
    Ok(number)
}

/// Reads a number of 64 bits, and asks that it is within these bounds.
#[tactic(auto, unfolding(crate::specs::Numbers::between))]
fn read_long_between(
    alloc: Global,
    least: u64,
    most: u64,
    unread: &mut Unread<'_>,
) -> Result<u64, CodecRefused>
    ensures { Gives result unread.new ((spec.between least most).read unread.old) }
{
    let number: u64 = Common::read(alloc, unread)?;
    if !is_long_between(least, most, number) {
        return Err(CodecRefused::NoForm);
    }
    Ok(number)
}

#[tactic(auto, unfolding(crate::specs::Numbers::short_between))]
impl Coder<u32> for Id {
    ghost form = { spec.id };

    ghost rule = { spec.IsBetween 0 2147483647 };

    fn write(value: &u32, written: &mut Vec<u8>) -> Result<(), OutOfMemory> {
        Common::write(value, written)
    }

    fn read(alloc: Global, unread: &mut Unread<'_>) -> Result<u32, CodecRefused> {
        read_between(alloc, 0, HIGHEST_ID, unread)
    }
}

#[tactic(auto, unfolding(crate::specs::Numbers::short_between))]
impl Coder<u32> for ColumnId {
    ghost form = { spec.column_id };

    ghost rule = { spec.IsBetween 0 2147483447 };

    fn write(value: &u32, written: &mut Vec<u8>) -> Result<(), OutOfMemory> {
        Common::write(value, written)
    }

    fn read(alloc: Global, unread: &mut Unread<'_>) -> Result<u32, CodecRefused> {
        read_between(alloc, 0, HIGHEST_COLUMN_ID, unread)
    }
}

#[tactic(auto, unfolding(crate::specs::Numbers::short_between))]
impl Coder<u32> for FieldId {
    ghost form = { spec.field_id };

    ghost rule = { spec.IsBetween 1000 2147483647 };

    fn write(value: &u32, written: &mut Vec<u8>) -> Result<(), OutOfMemory> {
        Common::write(value, written)
    }

    fn read(alloc: Global, unread: &mut Unread<'_>) -> Result<u32, CodecRefused> {
        read_between(alloc, 1_000, HIGHEST_ID, unread)
    }
}

#[tactic(auto, unfolding(crate::specs::Numbers::short_between))]
impl Coder<u32> for LastFieldId {
    ghost form = { spec.last_field_id };

    ghost rule = { spec.IsBetween 999 2147483647 };

    fn write(value: &u32, written: &mut Vec<u8>) -> Result<(), OutOfMemory> {
        Common::write(value, written)
    }

    fn read(alloc: Global, unread: &mut Unread<'_>) -> Result<u32, CodecRefused> {
        read_between(alloc, 999, HIGHEST_ID, unread)
    }
}

#[tactic(auto, unfolding(crate::specs::Numbers::short_between))]
impl Coder<u32> for Size {
    ghost form = { spec.size };

    ghost rule = { spec.IsBetween 1 2147483647 };

    fn write(value: &u32, written: &mut Vec<u8>) -> Result<(), OutOfMemory> {
        Common::write(value, written)
    }

    fn read(alloc: Global, unread: &mut Unread<'_>) -> Result<u32, CodecRefused> {
        read_between(alloc, 1, HIGHEST_ID, unread)
    }
}

#[tactic(auto, unfolding(crate::specs::Numbers::short_between))]
impl Coder<u32> for Precision {
    ghost form = { spec.precision };

    ghost rule = { spec.IsBetween 1 38 };

    fn write(value: &u32, written: &mut Vec<u8>) -> Result<(), OutOfMemory> {
        Common::write(value, written)
    }

    fn read(alloc: Global, unread: &mut Unread<'_>) -> Result<u32, CodecRefused> {
        read_between(alloc, 1, HIGHEST_PRECISION, unread)
    }
}

#[tactic(auto, unfolding(crate::specs::Numbers::short_between))]
impl Coder<u32> for Version {
    ghost form = { spec.version };

    ghost rule = { spec.IsBetween 2 2 };

    fn write(value: &u32, written: &mut Vec<u8>) -> Result<(), OutOfMemory> {
        Common::write(value, written)
    }

    fn read(alloc: Global, unread: &mut Unread<'_>) -> Result<u32, CodecRefused> {
        read_between(alloc, 2, 2, unread)
    }
}

#[tactic(auto, unfolding(crate::specs::Numbers::between))]
impl Coder<u64> for Long {
    ghost form = { spec.long };

    ghost rule = { spec.IsBetween 0 9223372036854775807 };

    fn write(value: &u64, written: &mut Vec<u8>) -> Result<(), OutOfMemory> {
        Common::write(value, written)
    }

    fn read(alloc: Global, unread: &mut Unread<'_>) -> Result<u64, CodecRefused> {
        read_long_between(alloc, 0, HIGHEST_LONG, unread)
    }
}

#[tactic(auto, unfolding(crate::specs::Numbers::between))]
impl Coder<u64> for Kept {
    ghost form = { spec.kept };

    ghost rule = { spec.IsBetween 1 9223372036854775807 };

    fn write(value: &u64, written: &mut Vec<u8>) -> Result<(), OutOfMemory> {
        Common::write(value, written)
    }

    fn read(alloc: Global, unread: &mut Unread<'_>) -> Result<u64, CodecRefused> {
        read_long_between(alloc, 1, HIGHEST_LONG, unread)
    }
}
