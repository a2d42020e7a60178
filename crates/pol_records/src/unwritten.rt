ghost use Rattle.std.specs.Prelude.{◌≡◌};
ghost use Rattle.pol_records.specs.Unwritten.{unwritten_of};

use pol_journal::JournalRefused;

/// Why a body wasn't written.
#[derive(Clone, Copy, PartialEq, Eq)]
pub enum Unwritten {
    /// With this body the journal, whose end is at `length`, would reach to `wanted`.
    JournalFull { length: u64, wanted: u64 },
    /// The disk failed while the body was appended: its record may be there or not, until the next write.
    Unknown,
    /// The disk failed while the body of an earlier write was taken back. This one isn't there.
    DiskFault,
}

/// Why a body wasn't written whose append was refused so.
pub(crate) fn why_unwritten(refused: JournalRefused) -> Unwritten
    ensures { result ≡ unwritten_of refused }
{
    match refused {
        JournalRefused::JournalFull { length, wanted } => Unwritten::JournalFull { length, wanted },
        _ => Unwritten::Unknown,
    }
}
