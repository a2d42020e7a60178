ghost use Rattle.std.specs.Prelude.{◌≡◌, ◌↔◌, IsTrue, []};
ghost use Rattle.pol_forms.specs.Reading.{Gives, GivesBy, front_of, one_byte};

use crate::CodecRefused;
use std::marker::Model;

/// The bytes that are not read yet, which contracts see as the list of them. After an error nothing is said of what is
/// left.
#[derive(Drop)]
pub struct Unread<'a> {
    bytes: &'a [u8],
}

impl<'a> Model for Unread<'a> {
    ghost use Rattle.std.specs.Prelude.{List, ℕ};

    ghost Value = { List ℕ };

    ghost view = { λ unread. unread.bytes.now };
}

impl<'a> Unread<'a> {
    pub fn of(bytes: &'a [u8]) -> Self
        ensures { result ≡ bytes.now }
    {
        Unread { bytes }
    }

    pub fn is_empty(&self) -> bool
        ensures { IsTrue result ↔ (self.now ≡ []) }
    {
        self.bytes.is_empty()
    }

    /// The next byte.
    pub fn byte(&mut self) -> Result<u8, CodecRefused>
        ensures { Gives result self.new (one_byte self.old) }
    {
        let bytes = self.bytes;
        let Some((byte, rest)) = bytes.split_first() else {
            return Err(CodecRefused::NoForm);
        };
        self.bytes = rest;
        Ok(*byte)
    }

    /// The next bytes, as many as the array has.
    pub fn array<const N: usize>(&mut self) -> Result<[u8; N], CodecRefused>
        ensures { Gives result self.new (front_of N self.old) }
    {
        let bytes = self.bytes;
        let Some((front, rest)) = bytes.split_first_chunk::<N>() else {
            return Err(CodecRefused::NoForm);
        };
        self.bytes = rest;
        Ok(*front)
    }

    /// The next so many bytes. A number that is past the end takes no memory.
    pub fn front(&mut self, count: u64) -> Result<&'a [u8], CodecRefused>
        ensures { GivesBy (λ front. front.now) result self.new (front_of count self.old) }
    {
        let bytes = self.bytes;
        if (bytes.len() as u64) < count {
            return Err(CodecRefused::NoForm);
        }
        let (front, rest) = bytes.split_at(count as usize);
        self.bytes = rest;
        Ok(front)
    }
}
