ghost use Rattle.std.specs.Prelude.{◌≡◌, ◌<◌, ◌≤◌, ◌^◌, ◌+◌, ◌++◌, ◌∷◌, [], length, OnErr, OnOk};

use crate::step::Step;
use pol_types::OutOfMemory;
use std::marker::Model;
use std::mem;
use std::snapshot::Snapshot;

/// A list of entries that only contracts see. It takes the memory of their count.
#[derive(Drop)]
pub struct History<E> {
    count: u64,
    steps: Snapshot<Step<E>>,
}

impl<E> Model for History<E> {
    ghost use Rattle.std.specs.Prelude.{◌≡◌, length, List};
    ghost use Rattle.pol_histories.specs.Steps.{entries_of};

    ghost Value = { List E };

    ghost view = { λ history. entries_of history.steps.value };

    ghost invariant = { λ history. history.count ≡ length (entries_of history.steps.value) };
}

impl<E> History<E> {
    /// No entries.
    pub fn new() -> Self
        ensures { result ≡ [] }
    {
        History {
            count: 0,
            steps: Snapshot::of(&Step::Start),
        }
    }

    /// How many entries there are.
    pub fn len(&self) -> u64
        ensures { result ≡ length self.now }
    {
        self.count
    }

    /// Makes sure of the room for an entry more. There is none where a number of 64 bits counts no more.
    pub fn reserve(&self) -> Result<(), OutOfMemory>
        ensures room { OnOk result (length self.now + 1 < 2 ^ 64) }
        ensures error { OnErr result (2 ^ 64 ≤ length self.now + 1) }
    {
        if self.count == u64::MAX {
            return Err(OutOfMemory);
        }
        Ok(())
    }

    /// Adds an entry.
    pub fn push(&mut self, entry: &E)
        requires { length self.old + 1 < 2 ^ 64 }
        ensures { self.new ≡ self.old ++ entry.now ∷ [] }
    {
        let before = mem::replace(&mut self.steps, Snapshot::of(&Step::Start));
        self.steps = Snapshot::of(&Step::Also(before, Snapshot::of(entry)));
        self.count += 1;
    }
}
