ghost use Rattle.std.specs.Prelude.{◌≡◌};
ghost use Rattle.pol_object_store.specs.declared.undone.Undone.TheVariants.{OutOfMemory};

use pol_records::Unwritten;
use pol_types::OutOfMemory;

/// Why an action wasn't done.
#[derive(Clone, Copy)]
pub(crate) enum Undone {
    /// Its change wasn't written.
    Unwritten(Unwritten),
    OutOfMemory,
}

impl From<OutOfMemory> for Undone {
    ghost from_gives = { λ _ why. why ≡ OutOfMemory };

    fn from(_error: OutOfMemory) -> Self {
        Undone::OutOfMemory
    }
}
