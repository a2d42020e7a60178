ghost use Rattle.std.specs.Prelude.{◌≡◌, ◌↔◌, ◌<◌, ◌≤◌, ◌+◌, [], length, true, false, IsTrue, IsOk, OnOk};
ghost use Rattle.std.specs.List.{IsDistinct};
ghost use Rattle.pol_tables.specs.Same.{same};
ghost use Rattle.pol_tables.specs.Facts.{holds, facts_with, facts_without};
ghost use Rattle.pol_tallies.specs.Grouped.{times_in};

use crate::numbered_fact::{NumberedFact, SoughtFact};
use crate::{FactRows, Grouped, GroupedTable};
use pol_tables::Fact;
use pol_types::OutOfMemory;
use std::alloc::{AllocError, Global};
use std::marker::Model;

/// Facts, each of which stands once, in the order in which they were put, and a tally of the groups to which they
/// belong. Each is a row under a number of its own, found by its hash, and to take it moves no other. Contracts see
/// them, and the room: how many more facts can be put without taking memory.
#[derive(Drop)]
pub struct GroupedFacts<T: Fact + Grouped> {
    table: GroupedTable<NumberedFact<T>>,
    /// The number of the next new fact.
    next: u64,
}

impl<T: Fact + Grouped> Model for GroupedFacts<T> {
    ghost use Rattle.std.specs.Prelude.{◌-◌, ◌^◌, map, min};
    ghost use Rattle.pol_tables.specs.Facts.{FactsValue};
    ghost use Rattle.pol_tallies.specs.NumberedFacts.{AreNumberedFacts};

    ghost Value = { FactsValue T };

    ghost view = { λ grouped. record {
      facts = map (λ row. row.fact) grouped.table.rows;
      room = min grouped.table.room (2 ^ 64 - 1 - grouped.next);
    } };

    ghost invariant = { λ grouped.
        AreNumberedFacts (λ row. row.number) (λ row. row.fact) T.coded grouped.next grouped.table.rows };
}

impl<T: Fact + Grouped> GroupedFacts<T> {
    /// No facts, and no memory taken.
    pub fn new(alloc: Global) -> Self
        ensures { result.facts ≡ [] }
    {
        GroupedFacts {
            table: GroupedTable::new(alloc),
            next: 0,
        }
    }

    pub fn len(&self) -> usize
        ensures { result ≡ length self.now.facts }
    {
        self.table.len()
    }

    pub fn is_empty(&self) -> bool
        ensures { IsTrue result ↔ (self.now.facts ≡ []) }
    {
        self.len() == 0
    }

    /// The facts, in the order in which they were put.
    pub fn facts(&self) -> FactRows<'_, T>
        ensures facts { result ≡ self.now.facts }
        ensures differ { IsDistinct (same T.coded) self.now.facts }
    {
        FactRows::new(self.table.rows())
    }

    /// Whether the fact is one of these. It scans no facts.
    pub fn contains(&self, fact: &T) -> bool
        ensures { result ≡ holds T.coded fact.now self.now.facts }
    {
        self.table.named(&SoughtFact { fact }).is_some()
    }

    /// How often the group is among those of the facts. It scans no facts.
    pub fn count(&self, group: u64) -> u128
        ensures { result ≡ times_in T.groups group self.now.facts }
    {
        self.table.count(group)
    }

    /// Makes room for `more` facts, so that putting as many takes no memory. On an error the facts stay, and the room
    /// does not shrink. Once numbers run out it tells want of memory.
    pub fn reserve(&mut self, more: usize) -> Result<(), OutOfMemory>
        ensures facts { self.new.facts ≡ self.old.facts }
        ensures reserved { OnOk result (more ≤ self.new.room) }
        ensures succeeds { more ≤ self.old.room → IsOk result }
        ensures room { self.old.room ≤ self.new.room }
    {
        if more as u64 > u64::MAX - self.next {
            return Err(OutOfMemory);
        }
        self.table.reserve(more)
    }

    /// Puts a fact, and takes no memory: a new one goes last, and one that is known changes nothing.
    pub fn put(&mut self, fact: T)
        requires { holds T.coded fact self.old.facts ≡ false → 0 < self.old.room }
        ensures facts { self.new.facts ≡ facts_with T.coded fact self.old.facts }
        ensures room { self.old.room ≤ self.new.room + 1 }
        ensures known { holds T.coded fact self.old.facts ≡ true → self.new ≡ self.old }
    {
        if self.contains(&fact) {
            return;
        }
        let number = self.next;
        self.next += 1;
        self.table.put(NumberedFact { number, fact });
    }

    /// Takes the fact away, and answers whether it was there. The others keep their order.
    pub fn take(&mut self, fact: &T) -> bool
        ensures taken { result ≡ holds T.coded fact.now self.old.facts }
        ensures facts { self.new.facts ≡ facts_without T.coded fact.now self.old.facts }
        ensures room { self.old.room ≤ self.new.room }
    {
        let Some(row) = self.table.named(&SoughtFact { fact }) else {
            return false;
        };
        let number = row.number;
        self.table.take(number);
        true
    }
}

impl<T: Fact + Grouped> Clone for GroupedFacts<T> {
    ghost is_clone = { λ source clone. clone.facts ≡ source.facts };

    fn clone(&self) -> Result<Self, AllocError> {
        let table = self.table.clone()?;
        Ok(GroupedFacts {
            table,
            next: self.next,
        })
    }
}
