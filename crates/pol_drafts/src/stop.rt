ghost use Rattle.std.specs.Prelude.{◌≡◌};
ghost use Rattle.pol_drafts.specs.declared.stop.Stop.TheVariants.{OutOfMemory, Refused};

use pol_meta::Why;
use std::alloc::{AllocError, AllocFailed};

/// Why one update changes nothing.
#[derive(Clone, Copy, PartialEq, Eq)]
pub enum Stop {
    Refused(Why),
    OutOfMemory,
}

impl From<AllocError> for Stop {
    ghost from_gives = { λ _ stop. stop ≡ OutOfMemory };

    fn from(_error: AllocError) -> Self {
        Stop::OutOfMemory
    }
}

impl<T: Drop> From<AllocFailed<T>> for Stop {
    ghost from_gives = { λ _ stop. stop ≡ OutOfMemory };

    fn from(_error: AllocFailed<T>) -> Self {
        Stop::OutOfMemory
    }
}

impl From<pol_types::OutOfMemory> for Stop {
    ghost from_gives = { λ _ stop. stop ≡ OutOfMemory };

    fn from(_error: pol_types::OutOfMemory) -> Self {
        Stop::OutOfMemory
    }
}

impl From<Why> for Stop {
    ghost from_gives = { λ why stop. stop ≡ Refused why };

    fn from(why: Why) -> Self {
        Stop::Refused(why)
    }
}
