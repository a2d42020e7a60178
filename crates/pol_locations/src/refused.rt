ghost use Rattle.std.specs.Prelude.{◌≡◌, Some};
ghost use Rattle.pol_locations.specs.declared.refused.LocationRefused.TheVariants.{OutOfMemory};

use std::alloc::{AllocError, AllocFailed};
use std::error::Error;
use std::fmt;

/// Why a text or a list of segments is no location. `TooLong` comes before `BadScheme`, and that before the refusal
/// of the first bad segment. A list without segments is `EmptySegment`, and a `/` in a segment is `ControlByte`. Each
/// prints as its name.
#[derive(Clone, Copy, Debug, PartialEq, Eq)]
pub enum LocationRefused {
    BadScheme,
    EmptySegment,
    DotSegment,
    ControlByte,
    TooLong,
    OutOfMemory,
}

impl fmt::Display for LocationRefused {
    ghost use Rattle.pol_locations.specs.LocationRefused.{word_of};

    ghost output = { λ why. Some (word_of why) };

    fn fmt<W: fmt::Write>(&self, f: &mut fmt::Formatter<W>) -> fmt::Result {
        f.write_str(match self {
            LocationRefused::BadScheme => "BadScheme",
            LocationRefused::EmptySegment => "EmptySegment",
            LocationRefused::DotSegment => "DotSegment",
            LocationRefused::ControlByte => "ControlByte",
            LocationRefused::TooLong => "TooLong",
            LocationRefused::OutOfMemory => "OutOfMemory",
        })
    }
}

impl Error for LocationRefused {}

impl From<AllocError> for LocationRefused {
    ghost from_gives = { λ _ why. why ≡ OutOfMemory };

    fn from(_error: AllocError) -> Self {
        LocationRefused::OutOfMemory
    }
}

impl<T: Drop> From<AllocFailed<T>> for LocationRefused {
    ghost from_gives = { λ _ why. why ≡ OutOfMemory };

    fn from(_error: AllocFailed<T>) -> Self {
        LocationRefused::OutOfMemory
    }
}
