ghost use Rattle.std.specs.Prelude.{◌≡◌, ◌≤◌, ℕ, [], ◌∷◌, Some};
ghost use Rattle.pol_wire.specs.MemoryClock.{first_clock, moment_at, moments_of, clock_after};
ghost use Rattle.pol_wire.specs.Streams.{IsShifted};

use crate::{Clock, LAST_MOMENT};
use std::marker::Model;

/// A clock whose moments are listed. The last one stays, an empty list stands for moment 0, and a
/// moment past [`LAST_MOMENT`] is cut to it.
#[derive(Drop)]
pub struct MemoryClock {
    moments: Vec<u64>,
    read: usize,
}

impl Model for MemoryClock {
    ghost use Rattle.pol_wire.specs.MemoryClock.{ClockState};

    ghost Value = { ClockState };

    ghost view = { λ c. record { moments = c.moments.items; read = c.read } };
}

impl MemoryClock {
    /// A clock that answers these moments, one a call.
    pub fn new(moments: Vec<u64>) -> Self
        ensures { result ≡ first_clock moments.items }
    {
        MemoryClock { moments, read: 0 }
    }
}

impl Clock for MemoryClock {
    ghost moments = { λ c. Some (moments_of c) };

    fn now(&mut self) -> u64
        ensures bound { result ≤ LAST_MOMENT }
        ensures moment { IsShifted
            (Some (moments_of self.old)) (Some (moments_of self.new)) (result ∷ []) }

        ensures answer { result ≡ moment_at self.old.moments self.old.read }
        ensures after { self.new ≡ clock_after self.old }
    {
        let place = self.read.min(self.moments.len().saturating_sub(1));
        self.read = self.read.saturating_add(1);
        self.moments
            .get(place)
            .copied()
            .unwrap_or(0)
            .min(LAST_MOMENT)
    }
}
