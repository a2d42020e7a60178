//! The forms of lists, of values that may be absent, and of the variants of enums.
ghost use Rattle.std.specs.Prelude.{◌≡◌, ◌++◌, ◌∷◌, OnOk, flat_map};
ghost use Rattle.std.specs.List.{AllByRecursion};
ghost use Rattle.pol_forms.specs.Enums as enums;
ghost use Rattle.pol_forms.specs.Forms as forms;
ghost use Rattle.pol_forms.specs.Reading.{GivesBy, times};

use crate::{CodecRefused, Coder, Common, Unread};
use pol_types::{Listed, OutOfMemory};
use std::alloc::Global;
use std::marker::PhantomData;

/// What stands for the form of a list whose members have the form that `C` stands for.
pub struct ListOf<C> {
    member: PhantomData<C>,
}

/// What stands for the form of a value that may be absent.
pub struct Optional<C> {
    value: PhantomData<C>,
}

/// The number of members, and they.
impl<T: Drop, C: Coder<T>> Coder<Listed<T>> for ListOf<C> {
    ghost form = { forms.list C.form };

    ghost rule = { AllByRecursion C.rule };

    fn write(value: &Listed<T>, written: &mut Vec<u8>) -> Result<(), OutOfMemory> {
        write_list::<T, C>(value.as_slice(), written)
    }

    fn read(alloc: Global, unread: &mut Unread<'_>) -> Result<Listed<T>, CodecRefused> {
        Ok(Listed::from(read_list::<T, C>(alloc, unread)?))
    }
}

/// 0 where it is absent, else 1 and the value.
#[tactic(auto, unfolding(crate::specs::Enums::optional))]
impl<T: Drop, C: Coder<T>> Coder<Option<T>> for Optional<C> {
    ghost form = { enums.optional C.form };

    ghost rule = { enums.IfPresent C.rule };

    fn write(value: &Option<T>, written: &mut Vec<u8>) -> Result<(), OutOfMemory> {
        match value {
            None => Ok(written.push(0)?),
            Some(value) => write_variant::<T, C>(1, value, written),
        }
    }

    fn read(alloc: Global, unread: &mut Unread<'_>) -> Result<Option<T>, CodecRefused> {
        match unread.byte()? {
            0 => Ok(None),
            1 => Ok(Some(C::read(alloc, unread)?)),
            _ => Err(CodecRefused::NoForm),
        }
    }
}

/// Writes the form of a list.
#[tactic(auto, unfolding(crate::specs::Forms::list, crate::specs::Forms::number))]
pub fn write_list<T, C: Coder<T>>(members: &[T], written: &mut Vec<u8>) -> Result<(), OutOfMemory>
    ensures bytes { OnOk result (written.new.items
        ≡ written.old.items ++ (forms.list C.form).write members.now) }
    ensures holds { OnOk result (AllByRecursion C.rule members.now → (forms.list C.form).holds members.now) }
{
    let count = members.len() as u64;
    Common::write(&count, written)?;
    write_members::<T, C>(members, written)
}

/// Writes the members of a list.
fn write_members<T, C: Coder<T>>(members: &[T], written: &mut Vec<u8>) -> Result<(), OutOfMemory>
    ensures bytes { OnOk result (written.new.items
        ≡ written.old.items ++ flat_map C.form.write members.now) }
    ensures holds { OnOk result (AllByRecursion C.rule members.now → AllByRecursion C.form.holds members.now) }
{
    for member in members {
        C::write(member, written)?;
    }
    Ok(())
}

/// Reads the form of a list. Its members are read one after another, and no memory is taken for a number of them that
/// isn't there.
#[tactic(auto, unfolding(crate::specs::Forms::list, crate::specs::Forms::number))]
pub fn read_list<T: Drop, C: Coder<T>>(
    alloc: Global,
    unread: &mut Unread<'_>,
) -> Result<Vec<T>, CodecRefused>
    ensures { GivesBy (λ members. members.items) result unread.new ((forms.list C.form).read unread.old) }
{
    let count: u64 = Common::read(alloc, unread)?;
    read_members::<T, C>(alloc, count, unread)
}

/// Reads so many members.
fn read_members<T: Drop, C: Coder<T>>(
    alloc: Global,
    count: u64,
    unread: &mut Unread<'_>,
) -> Result<Vec<T>, CodecRefused>
    ensures { GivesBy (λ members. members.items) result unread.new
        (times C.form.read count unread.old) }
{
    let mut members = Vec::new(alloc);
    for _ in 0..count {
        let member = C::read(alloc, unread)?;
        members.push(member)?;
    }
    Ok(members)
}

/// Writes a variant of an enum: its place, and its fields.
pub fn write_variant<T, C: Coder<T>>(
    place: u8,
    fields: &T,
    written: &mut Vec<u8>,
) -> Result<(), OutOfMemory>
    ensures bytes { OnOk result (written.new.items
        ≡ written.old.items ++ place ∷ C.form.write fields.now) }
    ensures holds { OnOk result (C.rule fields.now → C.form.holds fields.now) }
{
    written.push(place)?;
    C::write(fields, written)
}
