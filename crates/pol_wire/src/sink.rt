ghost use Rattle.std.specs.Prelude.{ℕ, ◌<◌, List, Option, None, IfOk, length};
ghost use Rattle.std.specs.Io.{WritesAtMost};
ghost use Rattle.std.specs.Io.KnownBytes.{WriteAppends};
ghost use Rattle.pol_wire.specs.Faults.{CountsFaults};

use crate::Failed;

pub(crate) mod memory;
pub(crate) mod writer;

/// Where bytes go, as to a connection.
pub trait Sink {
    // The bytes that it was given, where the object tells.
    ghost given: { Self → Option (List ℕ) } = { λ _. None };

    // The count of faults.
    ghost faults: { Self → ℕ };

    /// Takes bytes from the front of `piece` and tells how many: at least one, where `piece` isn't
    /// empty. Where it fails it has taken none, and the count of faults has risen.
    fn give(&mut self, piece: &[u8]) -> Result<usize, Failed>
        ensures bound { WritesAtMost result piece.now }
        ensures progress { IfOk result (λ count. 0 < length piece.now → 0 < count) }
        ensures bytes { WriteAppends (given self.old) (given self.new) result piece.now }
        ensures count { CountsFaults (faults self.old) (faults self.new) result };
}
