//! The forms of numbers, truth values, digests and texts.
ghost use Rattle.std.specs.Prelude.{◌≡◌, ◌++◌, OnOk, ⊤};
ghost use Rattle.pol_forms.specs.Enums as enums;
ghost use Rattle.pol_forms.specs.Forms as forms;
ghost use Rattle.pol_forms.specs.Reading.{GivesBy};

use crate::{CodecRefused, Coder, Unread};
use pol_types::{Bytes, OutOfMemory, Text};
use std::alloc::Global;
use std::str;

/// What stands for the forms of numbers, texts, names, locations and properties.
pub struct Common;

/// Eight bytes, most significant first.
#[tactic(auto, unfolding(crate::specs::Forms::number))]
impl Coder<u64> for Common {
    ghost form = { forms.number };

    ghost rule = { λ value. ⊤ };

    fn write(value: &u64, written: &mut Vec<u8>) -> Result<(), OutOfMemory> {
        let number = *value;
        Ok(written.extend_from_slice(&number.to_be_bytes())?)
    }

    fn read(_alloc: Global, unread: &mut Unread<'_>) -> Result<u64, CodecRefused> {
        Ok(u64::from_be_bytes(unread.array::<8>()?))
    }
}

/// Four bytes, most significant first.
#[tactic(auto, unfolding(crate::specs::Forms::short_number))]
impl Coder<u32> for Common {
    ghost form = { forms.short_number };

    ghost rule = { λ value. ⊤ };

    fn write(value: &u32, written: &mut Vec<u8>) -> Result<(), OutOfMemory> {
        let number = *value;
        Ok(written.extend_from_slice(&number.to_be_bytes())?)
    }

    fn read(_alloc: Global, unread: &mut Unread<'_>) -> Result<u32, CodecRefused> {
        Ok(u32::from_be_bytes(unread.array::<4>()?))
    }
}

/// One byte, 0 or 1.
#[tactic(auto, unfolding(crate::specs::Enums::truth))]
impl Coder<bool> for Common {
    ghost form = { enums.truth };

    ghost rule = { λ value. ⊤ };

    fn write(value: &bool, written: &mut Vec<u8>) -> Result<(), OutOfMemory> {
        let byte = if *value { 1 } else { 0 };
        Ok(written.push(byte)?)
    }

    fn read(_alloc: Global, unread: &mut Unread<'_>) -> Result<bool, CodecRefused> {
        match unread.byte()? {
            0 => Ok(false),
            1 => Ok(true),
            _ => Err(CodecRefused::NoForm),
        }
    }
}

/// The bytes of a digest, as they are.
#[tactic(auto, unfolding(crate::specs::Forms::bytes_of))]
impl Coder<[u8; 32]> for Common {
    ghost form = { forms.bytes_of 32 };

    ghost rule = { λ value. ⊤ };

    fn write(value: &[u8; 32], written: &mut Vec<u8>) -> Result<(), OutOfMemory> {
        Ok(written.extend_from_slice(value.as_slice())?)
    }

    fn read(_alloc: Global, unread: &mut Unread<'_>) -> Result<[u8; 32], CodecRefused> {
        unread.array::<32>()
    }
}

/// The number of bytes, and they.
#[tactic(auto, unfolding(crate::specs::Forms::byte_string, crate::specs::Forms::number))]
impl Coder<Bytes> for Common {
    ghost form = { forms.byte_string };

    ghost rule = { λ value. ⊤ };

    fn write(value: &Bytes, written: &mut Vec<u8>) -> Result<(), OutOfMemory> {
        let length = value.len() as u64;
        Common::write(&length, written)?;
        Ok(written.extend_from_slice(value.as_slice())?)
    }

    fn read(alloc: Global, unread: &mut Unread<'_>) -> Result<Bytes, CodecRefused> {
        let bytes = read_bytes(alloc, unread)?;
        Ok(Bytes::from(bytes.to_vec(alloc)?))
    }
}

/// The number of bytes, and they, which are UTF-8.
impl Coder<Text> for Common {
    ghost form = { forms.text };

    ghost rule = { λ value. ⊤ };

    fn write(value: &Text, written: &mut Vec<u8>) -> Result<(), OutOfMemory> {
        write_text(value.as_str(), written)
    }

    fn read(alloc: Global, unread: &mut Unread<'_>) -> Result<Text, CodecRefused> {
        let text = read_text(alloc, unread)?;
        Ok(Text::from(String::from_str(alloc, text)?))
    }
}

/// Writes the form of a text.
#[tactic(auto, unfolding(crate::specs::Forms::text, crate::specs::Forms::byte_string, crate::specs::Forms::number))]
pub(crate) fn write_text(text: &str, written: &mut Vec<u8>) -> Result<(), OutOfMemory>
    ensures bytes { OnOk result (written.new.items ≡ written.old.items ++ forms.text.write text.now) }
    ensures holds { OnOk result (forms.text.holds text.now) }
{
    let length = text.len() as u64;
    Common::write(&length, written)?;
    Ok(written.extend_from_slice(text.as_bytes())?)
}

/// Reads the form of bytes, which are lent.
#[tactic(auto, unfolding(crate::specs::Forms::byte_string, crate::specs::Forms::number))]
fn read_bytes<'a>(alloc: Global, unread: &mut Unread<'a>) -> Result<&'a [u8], CodecRefused>
    ensures { GivesBy (λ bytes. bytes.now) result unread.new (forms.byte_string.read unread.old) }
{
    let length: u64 = Common::read(alloc, unread)?;
    unread.front(length)
}

/// Reads the form of a text, which is lent.
#[tactic(auto, unfolding(crate::specs::Forms::text, crate::specs::Forms::byte_string, crate::specs::Forms::number))]
pub(crate) fn read_text<'a>(alloc: Global, unread: &mut Unread<'a>) -> Result<&'a str, CodecRefused>
    ensures { GivesBy (λ text. text.now) result unread.new (forms.text.read unread.old) }
{
    let length: u64 = Common::read(alloc, unread)?;
    let bytes = unread.front(length)?;
    match str::from_utf8(bytes) {
        Ok(text) => Ok(text),
        Err(_) => Err(CodecRefused::NoForm),
    }
}
