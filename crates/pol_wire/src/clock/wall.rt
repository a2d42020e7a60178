ghost use Rattle.std.specs.Prelude.{◌≡◌, ◌≤◌, ◌/◌, MatchResult, min};
ghost use Rattle.std.specs.Duration.{as_nanos};

use crate::{Clock, LAST_MOMENT};
use std::marker::Model;
use std::time::Duration;
use std::{io, rt};

/// The clock of the runtime `R`, cut at [`LAST_MOMENT`]. Where it can't be read or stands before
/// the Unix epoch, the last moment that it gave is answered again, and 0 before the first.
#[derive(Drop)]
pub struct WallClock<R> {
    runtime: R,
    last: u64,
}

impl<R> Model for WallClock<R> {
    ghost use Rattle.std.specs.Prelude.{ℕ, ◌≤◌};
    ghost use Rattle.pol_wire.specs.declared.clock.TheConstants.{LAST_MOMENT};

    ghost Value = { ℕ };

    ghost view = { λ c. c.last };

    ghost invariant = { λ c. c.last ≤ LAST_MOMENT };
}

impl<R> WallClock<R> {
    /// The clock of `runtime`.
    pub fn new(runtime: R) -> Self
        ensures { result ≡ 0 }
    {
        WallClock { runtime, last: 0 }
    }
}

impl<R: rt::Clock> Clock for WallClock<R> {
    // A clock's value is the moment that it gave last.
    fn now(&mut self) -> u64
        ensures bound { result ≤ LAST_MOMENT }
        ensures last { self.new ≡ result }
    {
        self.last = moment_of(self.runtime.since_1970(), self.last);
        self.last
    }
}

// The moment that was read, or `last` where none was.
fn moment_of(reading: io::Result<Duration>, last: u64) -> u64
    ensures { MatchResult reading
        (λ time. result ≡ min (as_nanos time / 1_000_000) LAST_MOMENT)
        (λ _. result ≡ last) }
{
    match reading {
        Ok(time) => time.as_millis().min(u128::from(LAST_MOMENT)) as u64,
        Err(_) => last,
    }
}
