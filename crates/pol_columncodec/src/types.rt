//! The form of the digits of a decimal.
ghost use Rattle.std.specs.Prelude.{◌≡◌, ◌++◌, OnOk, nat_le};
ghost use Rattle.pol_forms.specs.Reading.{Gives};
ghost use Rattle.pol_columnforms.specs.Columns as spec;

use pol_forms::{CodecRefused, Coder, Common, Unread};
use pol_partcodec::Precision;
use pol_types::OutOfMemory;
use std::alloc::Global;

/// Writes how many digits a decimal has, and how many of them stand behind the point.
#[tactic(auto, unfolding(pol_columnforms::specs::Columns::decimal))]
pub(crate) fn write_decimal(
    precision: u32,
    scale: u32,
    written: &mut Vec<u8>,
) -> Result<(), OutOfMemory>
    ensures bytes { OnOk result (written.new.items ≡ written.old.items ++ spec.decimal.write (precision, scale)) }
{
    Precision::write(&precision, written)?;
    Common::write(&scale, written)
}

/// Reads how many digits a decimal has, and how many of them stand behind the point.
#[tactic(auto, unfolding(pol_columnforms::specs::Columns::decimal))]
pub(crate) fn read_decimal(
    alloc: Global,
    unread: &mut Unread<'_>,
) -> Result<(u32, u32), CodecRefused>
    ensures { Gives result unread.new (spec.decimal.read unread.old) }
{
    let precision = Precision::read(alloc, unread)?;
    let scale: u32 = Common::read(alloc, unread)?;
    if !is_within(scale, precision) {
        return Err(CodecRefused::NoForm);
    }
    Ok((precision, scale))
}

fn is_within(scale: u32, precision: u32) -> bool
    ensures { result ≡ nat_le scale precision }
{
    scale <= precision
}
