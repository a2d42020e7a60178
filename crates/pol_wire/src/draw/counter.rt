ghost use Rattle.std.specs.Prelude.{◌≡◌, ◌+◌, ◌%◌, ◌^◌};
ghost use Rattle.rand_core.specs.Stream.{next_u64};
ghost use Rattle.rand_core.specs.Steps.{stream_of, steps_u64_low};
ghost use Rattle.pol_wire.specs.Counter.{counting_step};

use rand_core::utils::NextWord;
use rand_core::{Rng, utils};
use std::marker::Model;

/// A generator that counts: 0, 1, 2 and so on, and 0 again after `u64::MAX`.
#[derive(Drop)]
pub(crate) struct Counter {
    next: u64,
}

impl Model for Counter {
    ghost use Rattle.std.specs.Prelude.{ℕ};

    ghost Value = { ℕ };

    ghost view = { λ c. c.next };
}

impl Counter {
    /// A counter whose first word is 0.
    pub(crate) fn new() -> Self
        ensures { result ≡ 0 }
    {
        Counter { next: 0 }
    }
}

impl NextWord<u64> for Counter {
    ghost step = { counting_step };

    fn next_word(&mut self) -> u64 {
        let word = self.next;
        self.next = self.next.wrapping_add(1);
        word
    }
}

impl Rng for Counter {
    ghost stream = { stream_of (steps_u64_low counting_step) };

    fn next_u32(&mut self) -> u32 {
        (self.next_word() % (1 << 32)) as u32
    }

    fn next_u64(&mut self) -> u64
        ensures stream { (result, stream_of (steps_u64_low counting_step) self.new)
            ≡ next_u64 (stream_of (steps_u64_low counting_step) self.old) }
        ensures word { result ≡ self.old }
        ensures after { self.new ≡ (self.old + 1) % 2 ^ 64 }
    {
        self.next_word()
    }

    fn fill_bytes(&mut self, dst: &mut [u8]) {
        utils::fill_bytes_via_u64(self, dst)
    }
}

#[cfg(test)]
mod tests {
    use super::*;

    #[test]
    fn counter_begins_again_after_the_last_number(rt: HostRuntime) {
        let mut counter = Counter { next: u64::MAX };
        assert_eq!(rt; counter.next_u32(), u32::MAX);
        let mut bytes = [9; 9];
        counter.fill_bytes(&mut bytes);
        assert_eq!(rt; bytes, [0, 0, 0, 0, 0, 0, 0, 0, 1]);
        assert_eq!(rt; counter.next_u64(), 2);
    }
}
