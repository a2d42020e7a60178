ghost use Rattle.std.specs.Prelude.{ℕ, Option, None};
ghost use Rattle.pol_wire.specs.Faults.{CountsFaults};
ghost use Rattle.pol_wire.specs.Streams.{GivesNext};

use crate::Failed;

mod counter;
pub(crate) mod counting;
pub(crate) mod file;
pub(crate) mod memory;

/// Where words come from, as from a generator of random numbers.
pub trait Draw {
    // The words that it will give from now on, where the object tells.
    ghost words: { Self → Option (ℕ → ℕ) } = { λ _. None };

    // The count of faults.
    ghost faults: { Self → ℕ };

    /// Draws the next word. Where it fails, no word is lost and the count of faults has risen.
    fn word(&mut self) -> Result<u64, Failed>
        ensures word { GivesNext (words self.old) (words self.new) result }
        ensures count { CountsFaults (faults self.old) (faults self.new) result };
}
