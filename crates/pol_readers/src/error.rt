ghost use Rattle.std.specs.Prelude.{◌≡◌, []};

use crate::path::Path;
use pol_types::OutOfMemory;
use std::alloc::{AllocError, AllocFailed, Global};
use std::error::Error;
use std::fmt;

/// Why a value wasn't read: the first field of it that is bad, or want of memory.
#[derive(Debug, Drop)]
pub enum ReadError {
    /// The path to the first bad field; the empty one is the value itself.
    Field(Path),
    /// Memory was wanting.
    OutOfMemory,
}

impl ReadError {
    /// The value itself is bad. It takes no memory.
    pub fn here(alloc: Global) -> Self
        ensures { result ≡ ReadError.Field [] }
    {
        ReadError::Field(Path::here(alloc))
    }
}

impl From<OutOfMemory> for ReadError {
    ghost use Rattle.pol_readers.specs.declared.error.ReadError.{ReadError};

    ghost from_gives = { λ _ error. error ≡ ReadError.OutOfMemory };

    fn from(_error: OutOfMemory) -> Self {
        ReadError::OutOfMemory
    }
}

impl From<AllocError> for ReadError {
    ghost use Rattle.pol_readers.specs.declared.error.ReadError.{ReadError};

    ghost from_gives = { λ _ error. error ≡ ReadError.OutOfMemory };

    fn from(_error: AllocError) -> Self {
        ReadError::OutOfMemory
    }
}

impl<T: Drop> From<AllocFailed<T>> for ReadError {
    ghost use Rattle.pol_readers.specs.declared.error.ReadError.{ReadError};

    ghost from_gives = { λ _ error. error ≡ ReadError.OutOfMemory };

    fn from(_error: AllocFailed<T>) -> Self {
        ReadError::OutOfMemory
    }
}

impl fmt::Display for ReadError {
    ghost use Rattle.std.specs.Prelude.{Some};
    ghost use Rattle.pol_readers.specs.Path.{error_text};

    ghost output = { λ error. Some (error_text error) };

    fn fmt<W: fmt::Write>(&self, f: &mut fmt::Formatter<W>) -> fmt::Result {
        match self {
            ReadError::Field(path) => write!(f, "Unreadable: {path}"),
            ReadError::OutOfMemory => write!(f, "{OutOfMemory}"),
        }
    }
}

impl Error for ReadError {}
