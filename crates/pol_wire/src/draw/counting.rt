ghost use Rattle.std.specs.Prelude.{◌≡◌, ℕ, Some};
ghost use Rattle.std.specs.Result.{result_ok};
ghost use Rattle.pol_wire.specs.CountingDraw.{first_count, next_counted, counted_words, draw_after};
ghost use Rattle.pol_wire.specs.Faults.{CountsFaults};
ghost use Rattle.pol_wire.specs.Streams.{GivesNext};

use crate::calls::Calls;
use crate::draw::counter::Counter;
use crate::{Draw, Failed};
use rand_core::Rng;
use std::marker::Model;

/// A draw that counts: 0, 1, 2 and so on, and 0 again after `u64::MAX`. The calls whose numbers are
/// listed fail.
#[derive(Drop)]
pub struct CountingDraw {
    counter: Counter,
    calls: Calls,
}

impl Model for CountingDraw {
    ghost use Rattle.pol_wire.specs.CountingDraw.{CountingState};

    ghost Value = { CountingState };

    ghost view = { λ d. record { next = d.counter; calls = d.calls } };
}

impl CountingDraw {
    /// A draw whose first word is 0. The calls whose numbers are in `failing`, counted from 1, are
    /// to fail.
    pub fn new(failing: Vec<u64>) -> Self
        ensures { result ≡ first_count failing.items }
    {
        CountingDraw {
            counter: Counter::new(),
            calls: Calls::new(failing),
        }
    }

    /// The count of faults.
    pub fn faults(&self) -> u64
        ensures { result ≡ self.now.calls.faults }
    {
        self.calls.faults()
    }
}

impl Draw for CountingDraw {
    ghost words = { λ d. Some (counted_words d) };

    ghost faults = { λ d. d.calls.faults };

    fn word(&mut self) -> Result<u64, Failed>
        ensures word { GivesNext
            (Some (counted_words self.old)) (Some (counted_words self.new)) result }
        ensures count { CountsFaults self.old.calls.faults self.new.calls.faults result }

        ensures answer { result_ok result ≡ next_counted self.old }
        ensures after { self.new ≡ draw_after self.old result }
    {
        self.calls.begin()?;
        Ok(self.counter.next_u64())
    }
}
