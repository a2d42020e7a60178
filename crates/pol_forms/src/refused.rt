ghost use Rattle.std.specs.Prelude.{◌≡◌, Some};
ghost use Rattle.pol_forms.specs.declared.refused.CodecRefused.{CodecRefused};

use pol_types::OutOfMemory;
use std::alloc::{AllocError, AllocFailed};
use std::error::Error;
use std::fmt;

/// Why bytes weren't read: no value has them as its form, or memory was wanting.
#[derive(Clone, Copy, Debug, PartialEq, Eq)]
pub enum CodecRefused {
    NoForm,
    OutOfMemory,
}

impl fmt::Display for CodecRefused {
    ghost use Rattle.pol_forms.specs.Refused.{refusal_text};

    ghost output = { λ why. Some (refusal_text why) };

    fn fmt<W: fmt::Write>(&self, f: &mut fmt::Formatter<W>) -> fmt::Result {
        f.write_str(match self {
            CodecRefused::NoForm => "no value has these bytes as its form",
            CodecRefused::OutOfMemory => "out of memory",
        })
    }
}

impl Error for CodecRefused {}

impl From<OutOfMemory> for CodecRefused {
    ghost from_gives = { λ _ why. why ≡ CodecRefused.OutOfMemory };

    fn from(_error: OutOfMemory) -> Self {
        CodecRefused::OutOfMemory
    }
}

impl From<AllocError> for CodecRefused {
    ghost from_gives = { λ _ why. why ≡ CodecRefused.OutOfMemory };

    fn from(_error: AllocError) -> Self {
        CodecRefused::OutOfMemory
    }
}

impl<T: Drop> From<AllocFailed<T>> for CodecRefused {
    ghost from_gives = { λ _ why. why ≡ CodecRefused.OutOfMemory };

    fn from(_error: AllocFailed<T>) -> Self {
        CodecRefused::OutOfMemory
    }
}
