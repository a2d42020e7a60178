ghost use Rattle.std.specs.Prelude.{◌≡◌, Some};
ghost use Rattle.pol_journal.specs.declared.refused.JournalRefused.TheVariants.{DiskFault, OutOfMemory};

use pol_wire::Failed;
use std::alloc::{AllocError, AllocFailed};
use std::error::Error;
use std::fmt;

/// Why a call of a journal was refused. `at` is the place of a gate in the file.
#[derive(Clone, Copy, Debug, PartialEq, Eq)]
pub enum JournalRefused {
    /// The file has fewer than 65 bytes, or another header.
    NotAJournal,
    /// The file isn't empty.
    JournalThere,
    /// The gate is missing, or its record runs past the file.
    BadRecord { at: u64 },
    /// With this record the journal, whose end is at `length`, would reach to `wanted`.
    JournalFull { length: u64, wanted: u64 },
    /// The disk failed in an append: the record may be there or not, until a repair.
    Unknown,
    /// The disk failed in another call.
    DiskFault,
    OutOfMemory,
}

impl fmt::Display for JournalRefused {
    ghost use Rattle.pol_journal.specs.Refused.{refusal_text};

    ghost output = { λ why. Some (refusal_text why) };

    fn fmt<W: fmt::Write>(&self, f: &mut fmt::Formatter<W>) -> fmt::Result {
        match self {
            JournalRefused::NotAJournal => f.write_str("not a journal"),
            JournalRefused::JournalThere => f.write_str("a journal is there"),
            JournalRefused::BadRecord { at } => write!(f, "bad record at {at}"),
            JournalRefused::JournalFull { length, wanted } => {
                write!(f, "journal of {length} bytes is full for {wanted}")
            }
            JournalRefused::Unknown => f.write_str("the record may be there or not"),
            JournalRefused::DiskFault => f.write_str("the disk failed"),
            JournalRefused::OutOfMemory => f.write_str("out of memory"),
        }
    }
}

impl Error for JournalRefused {}

impl From<Failed> for JournalRefused {
    ghost from_gives = { λ _ why. why ≡ DiskFault };

    fn from(_error: Failed) -> Self {
        JournalRefused::DiskFault
    }
}

impl From<AllocError> for JournalRefused {
    ghost from_gives = { λ _ why. why ≡ OutOfMemory };

    fn from(_error: AllocError) -> Self {
        JournalRefused::OutOfMemory
    }
}

impl<T: Drop> From<AllocFailed<T>> for JournalRefused {
    ghost from_gives = { λ _ why. why ≡ OutOfMemory };

    fn from(_error: AllocFailed<T>) -> Self {
        JournalRefused::OutOfMemory
    }
}
