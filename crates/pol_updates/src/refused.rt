ghost use Rattle.std.specs.Prelude.{◌≡◌};
ghost use Rattle.pol_updates.specs.declared.refused.ApplyRefused.TheVariants.{OutOfMemory};

use pol_meta::Why;
use std::alloc::AllocError;

/// Why a list of updates makes no metadata: the first update that is refused, by its place from 0, and its first
/// reason.
#[derive(Clone, Copy, PartialEq, Eq)]
pub enum ApplyRefused {
    Refused { index: usize, why: Why },
    OutOfMemory,
}

impl From<AllocError> for ApplyRefused {
    ghost from_gives = { λ _ refused. refused ≡ OutOfMemory };

    fn from(_error: AllocError) -> Self {
        ApplyRefused::OutOfMemory
    }
}

impl From<pol_types::OutOfMemory> for ApplyRefused {
    ghost from_gives = { λ _ refused. refused ≡ OutOfMemory };

    fn from(_error: pol_types::OutOfMemory) -> Self {
        ApplyRefused::OutOfMemory
    }
}
