ghost use Rattle.std.specs.Prelude.{ℕ, List, Option, None};
ghost use Rattle.std.specs.Io.{ReadsAtMost};
ghost use Rattle.std.specs.Io.KnownBytes.{ReadConsumes};
ghost use Rattle.pol_wire.specs.Faults.{CountsFaults};

use crate::Failed;

pub(crate) mod memory;
pub(crate) mod reader;

/// Bytes that come in, as from a connection.
pub trait Source {
    // The bytes that are left to take, where the object tells.
    ghost left: { Self → Option (List ℕ) } = { λ _. None };

    // The count of faults.
    ghost faults: { Self → ℕ };

    /// Gives the next bytes into the front of `buf` and tells how many: at least one, or 0 at the
    /// end of input or for an empty buffer. After the end it gives 0. Where it fails, no byte is
    /// lost and the count of faults has risen.
    fn take(&mut self, buf: &mut [u8]) -> Result<usize, Failed>
        ensures bound { ReadsAtMost result buf.new }
        ensures bytes { ReadConsumes (left self.old) (left self.new) result buf.new }
        ensures count { CountsFaults (faults self.old) (faults self.new) result };
}
