//! What a form is, and whole texts of bytes.
ghost use Rattle.std.specs.Prelude.{◌≡◌, ◌++◌, IfOk, IfErr, OnOk};
ghost use Rattle.pol_forms.specs.Form.{IsFormOf, whole};
ghost use Rattle.pol_forms.specs.Reading.{Gives};
ghost use Rattle.pol_forms.specs.Refused.{GivesAll, IsCodecRefusal};

use crate::{CodecRefused, Unread};
use pol_types::OutOfMemory;
use std::alloc::Global;

/// A form of the values of a type as bytes: what is written of a value and what bytes are read as, with the two laws
/// that tie them. The type that has the trait only stands for the form, so that it may be of another crate than the
/// values.
///
/// A struct is its fields in their order, each by its own form; its code is the chain of their calls, each with `?`.
pub trait Coder<T> {
    ghost use Rattle.pol_forms.specs.Form.{Form};

    /// What is written of a value, and what bytes are read as.
    ghost form: { Form T };

    /// What a value keeps that its type doesn't, where it has a form.
    ghost rule: { T → Type 0 };

    /// Writes the value behind what was written. On an error some of it may be there.
    fn write(value: &T, written: &mut Vec<u8>) -> Result<(), OutOfMemory>
        ensures bytes { OnOk result (written.new.items ≡ written.old.items ++ form.write value.now) }
        ensures holds { OnOk result (rule value.now → form.holds value.now) };

    /// Reads a value from the front. It answers `NoForm` exactly where the bytes begin with the form of no value.
    fn read(alloc: Global, unread: &mut Unread<'_>) -> Result<T, CodecRefused>
        ensures { Gives result unread.new (form.read unread.old) };
}

/// What is written of a value, which is its form where it keeps the rule.
pub fn write_whole<T, C: Coder<T>>(alloc: Global, value: &T) -> Result<Vec<u8>, OutOfMemory>
    ensures bytes { IfOk result (λ bytes. bytes.items ≡ C.form.write value.now) }
    ensures form { IfOk result (λ bytes. C.rule value.now → IsFormOf C.form value.now bytes.items) }
{
    let mut written = Vec::new(alloc);
    C::write(value, &mut written)?;
    Ok(written)
}

/// The value whose form the bytes are, all of them. It answers `NoForm` exactly where they are the form of none.
pub fn read_whole<T: Drop, C: Coder<T>>(alloc: Global, bytes: &[u8]) -> Result<T, CodecRefused>
    ensures value { IfOk result (λ value. IsFormOf C.form value bytes.now) }
    ensures refused { IfErr result (IsCodecRefusal C.form bytes.now) }
{
    read_all::<T, C>(alloc, bytes)
}

/// Reads a value and asks that nothing is left.
fn read_all<T: Drop, C: Coder<T>>(alloc: Global, bytes: &[u8]) -> Result<T, CodecRefused>
    ensures { GivesAll result (whole C.form bytes.now) }
{
    let mut unread = Unread::of(bytes);
    let value = C::read(alloc, &mut unread)?;
    if !unread.is_empty() {
        return Err(CodecRefused::NoForm);
    }
    Ok(value)
}
