ghost use Rattle.std.specs.Prelude.{◌≡◌, ◌<◌, ◌≤◌, ◌+◌, ◌-◌, ◌^◌, ℕ, nat_eq, if◌then◌else◌, IsOk, OnOk};
ghost use Rattle.pol_tallies.specs.Tally.{count_of};

use pol_types::OutOfMemory;
use std::alloc::{AllocError, Global};
use std::collections::HashMap;
use std::marker::Model;

/// How often each number was noted, less how often it was forgotten. Contracts see the counts, and the room: how many
/// more times a number can be noted without taking memory.
#[derive(Drop)]
pub struct Tally {
    counts: HashMap<u64, u128>,
}

impl Model for Tally {
    ghost use Rattle.std.specs.HashMap.{spare};
    ghost use Rattle.pol_tallies.specs.Tally.{TallyValue};

    ghost Value = { TallyValue };

    ghost view = { λ tally. record { counts = tally.counts.entries; room = spare tally.counts } };
}

impl Tally {
    /// Nothing is noted, and no memory taken.
    pub fn new(alloc: Global) -> Self
        ensures { (number : ℕ) → count_of number result ≡ 0 }
    {
        Tally {
            counts: HashMap::new(alloc),
        }
    }

    /// How often the number is noted.
    pub fn count(&self, number: u64) -> u128
        ensures { result ≡ count_of number self.now }
    {
        match self.counts.get(&number) {
            Some(count) => *count,
            None => 0,
        }
    }

    /// Makes room for noting a number `more` times, so that it takes no memory. On an error the counts stay, and the
    /// room does not shrink.
    pub fn reserve(&mut self, more: usize) -> Result<(), OutOfMemory>
        ensures counts { (number : ℕ) → count_of number self.new ≡ count_of number self.old }
        ensures reserved { OnOk result (more ≤ self.new.room) }
        ensures succeeds { more ≤ self.old.room → IsOk result }
        ensures room { self.old.room ≤ self.new.room }
    {
        Ok(self.counts.reserve(more)?)
    }

    /// Notes a number once more, and takes no memory.
    pub fn note(&mut self, number: u64)
        requires place { 0 < self.old.room }
        requires fits { count_of number self.old + 1 < 2 ^ 128 }
        ensures counts { (other : ℕ) → count_of other self.new
            ≡ count_of other self.old + (if nat_eq other number then 1 else 0) }
        ensures room { self.old.room ≤ self.new.room + 1 }
    {
        let count = self.count(number);
        let put: Result<_, _> = self.counts.insert(number, count + 1);
        put.unwrap();
    }

    /// Forgets a number once, where it is noted.
    pub fn forget(&mut self, number: u64)
        ensures counts { (other : ℕ) → count_of other self.new
            ≡ count_of other self.old - (if nat_eq other number then 1 else 0) }
        ensures room { self.old.room ≤ self.new.room }
    {
        if self.count(number) <= 1 {
            self.counts.remove(&number);
        } else if let Some(count) = self.counts.get_mut(&number) {
            *count -= 1;
        }
    }
}

impl Clone for Tally {
    ghost is_clone = { λ source clone. clone.counts ≡ source.counts };

    fn clone(&self) -> Result<Self, AllocError> {
        let counts = self.counts.clone()?;
        Ok(Tally { counts })
    }
}
