ghost use Rattle.std.specs.Prelude.{◌≡◌};
ghost use Rattle.pol_kept.specs.Stages.{stepped_by};

use crate::Stepped;

/// Why a command wasn't carried out.
#[derive(Clone, Copy, PartialEq, Eq)]
pub(crate) enum Undone {
    /// The journal would reach too far with its changes.
    JournalFull { length: u64, wanted: u64 },
    /// The disk failed while its changes were written.
    Unknown,
    /// The disk failed while an earlier write that had failed was taken back.
    DiskFault,
    /// Nothing has changed.
    OutOfMemory,
}

impl Undone {
    /// What came of the command.
    pub(crate) fn stepped<T>(self) -> Stepped<T>
        ensures { result ≡ stepped_by self }
    {
        match self {
            Undone::JournalFull { length, wanted } => Stepped::JournalFull { length, wanted },
            Undone::Unknown => Stepped::Unknown,
            Undone::DiskFault => Stepped::DiskFault,
            Undone::OutOfMemory => Stepped::OutOfMemory,
        }
    }
}
