ghost use Rattle.std.specs.Prelude.{◌≡◌, ◌<◌, ◌≤◌, ◌+◌, ◌&&◌, ◌||◌, [], not, IsOk, OnOk, option_copied};
ghost use Rattle.std.proofs.Common.{rules};
ghost use Rattle.pol_types.specs.Exact.{exactness};
ghost use Rattle.pol_tables.specs.Index.{IndexValue, is_first, is_noted, entry_number, same_entry};
ghost use Rattle.pol_tables.specs.Table.{row_of, IdsDiffer};
ghost use Rattle.pol_tables.specs.declared.index.IndexEntry.{IndexEntry};

use crate::Fact;
use pol_types::{Exact, OutOfMemory};
use std::alloc::{AllocError, Global};
use std::collections::HashMap;
use std::marker::Model;

/// An id under the number of a name.
#[derive(Clone, Drop, PartialEq, Eq, Hash)]
pub struct IndexEntry {
    pub number: u64,
    pub id: u64,
}

impl Exact for IndexEntry {
    ghost clones_exactly = { Prim.search rules };

    ghost compares_exactly = { Prim.grind exactness };
}

impl Fact for IndexEntry {
    ghost use Rattle.pol_tables.specs.contracts.index.IndexEntry.{the_row};

    ghost coded = { the_row.coded };
}

/// Which ids may stand under the number of a name. Names with one number are told apart by whoever looks one up.
/// The first id of each number is found by it, and the order of these means nothing. The others, of which numbers of
/// hashed names leave few, are listed. Contracts see both, and the room: how many more ids can be noted without taking
/// memory.
#[derive(Drop)]
pub struct Index {
    firsts: HashMap<u64, IndexEntry>,
    others: Vec<IndexEntry>,
}

impl Model for Index {
    ghost use Rattle.std.specs.Prelude.{◌-◌, min, nat_eq, vec_capacity, vec_len};
    ghost use Rattle.std.specs.HashMap.{values, spare, IsUnique};
    ghost use Rattle.pol_tables.specs.Index.{IndexValue, StandByNumber};

    ghost Value = { IndexValue };

    ghost view = { λ index. record {
      firsts = values index.firsts;
      others = index.others.items;
      room = min (spare index.firsts) (vec_capacity index.others - vec_len index.others);
    } };

    ghost invariant = { λ index. StandByNumber index.firsts.entries × IsUnique nat_eq index.firsts };
}

impl Index {
    /// No ids, and no memory taken.
    pub fn new(alloc: Global) -> Self
        ensures firsts { result.firsts ≡ [] }
        ensures others { result.others ≡ [] }
    {
        Index {
            firsts: HashMap::new(alloc),
            others: Vec::new(alloc),
        }
    }

    /// An id that is noted under this number: the first, until that one is forgotten, and then the next to be noted.
    pub fn first(&self, number: u64) -> Option<&IndexEntry>
        ensures value { option_copied result ≡ row_of entry_number number self.now.firsts }
        ensures differ { IdsDiffer entry_number self.now.firsts }
    {
        self.firsts.get(&number)
    }

    /// The ids that are noted beside a first one, under any number.
    pub fn others(&self) -> &[IndexEntry]
        ensures { result.now ≡ self.now.others }
    {
        self.others.as_slice()
    }

    /// Makes room for `more` ids, so that noting as many takes no memory. On an error the ids stay, and the room does
    /// not shrink.
    pub fn reserve(&mut self, more: usize) -> Result<(), OutOfMemory>
        ensures noted { (other : IndexEntry) → is_noted other self.new ≡ is_noted other self.old }
        ensures reserved { OnOk result (more ≤ self.new.room) }
        ensures succeeds { more ≤ self.old.room → IsOk result }
        ensures room { self.old.room ≤ self.new.room }
    {
        self.firsts.reserve(more)?;
        Ok(self.others.reserve(more)?)
    }

    /// Notes an id under a number, and takes no memory.
    pub fn note(&mut self, noted: IndexEntry)
        requires { 0 < self.old.room }
        ensures noted { (other : IndexEntry) → is_noted other self.new
            ≡ (same_entry other noted || is_noted other self.old) }
        ensures room { self.old.room ≤ self.new.room + 1 }
    {
        if self.firsts.contains_key(&noted.number) {
            self.others.push(noted).unwrap();
        } else {
            let put: Result<_, _> = self.firsts.insert(noted.number, noted);
            put.unwrap();
        }
    }

    /// Forgets an id under a number, and takes no memory.
    pub fn forget(&mut self, noted: &IndexEntry)
        ensures noted { (other : IndexEntry) → is_noted other self.new
            ≡ (not (same_entry other noted.now) && is_noted other self.old) }
        ensures room { self.old.room ≤ self.new.room }
    {
        self.others.retain(|other| noted != other);
        if self.has_first(noted) {
            self.firsts.remove(&noted.number);
        }
    }

    /// Whether this id is the first that is noted under its number.
    fn has_first(&self, noted: &IndexEntry) -> bool
        ensures first { result ≡ is_first noted.now self.now }
        ensures differ { IdsDiffer entry_number self.now.firsts }
    {
        match self.first(noted.number) {
            Some(first) => first == noted,
            None => false,
        }
    }
}

impl Clone for Index {
    ghost is_clone = { λ source clone. (clone.firsts ≡ source.firsts) × (clone.others ≡ source.others) };

    fn clone(&self) -> Result<Self, AllocError> {
        let firsts = self.firsts.clone()?;
        let others = self.others.clone()?;
        Ok(Index { firsts, others })
    }
}
