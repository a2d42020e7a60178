ghost use Rattle.std.specs.Prelude.{◌≡◌};
ghost use Rattle.pol_journal.specs.Format.{header_of};

use crate::Kind;

/// The length of the header, which is the place of the first gate.
pub(crate) const HEADER: u64 = 64;

/// The length of a journal without records: the header and a closed gate.
pub(crate) const SHORTEST: u64 = 65;

/// What a record takes beside its body: a gate and eight bytes of length.
pub(crate) const RECORD: u64 = 9;

/// The longest journal.
pub(crate) const LONGEST: u64 = 1 << 40;

pub(crate) const OPEN: u8 = 1;

pub(crate) const CLOSED: u8 = 0;

/// The header of a journal of this kind.
#[tactic(auto, unfolding(crate::specs::Format::header_of))]
pub(crate) fn header(kind: Kind) -> [u8; 64]
    ensures { result ≡ header_of kind }
{
    let mut header = [0; 64];
    header[..8].copy_from_slice(&kind.name());
    header
}
