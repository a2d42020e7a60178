ghost use Rattle.std.specs.Prelude.{◌≡◌, ◌<◌, ◌≤◌, ◌+◌, [], ◌∷◌, ◌++◌, IsOk, OnOk};
ghost use Rattle.std.proofs.Common.{rules};
ghost use Rattle.pol_types.specs.Exact.{exactness};
ghost use Rattle.pol_tokens.specs.Chains.{AreLinked, last_place, link_of};

use pol_tables::{Keyed, Table};
use pol_types::{Exact, OutOfMemory};
use std::alloc::{AllocError, Global};
use std::marker::Model;

/// The place after a holder's last row, counted from 0.
#[derive(Clone, Drop, PartialEq, Eq)]
pub(crate) struct Latest {
    pub holder: u64,
    pub place: u64,
}

impl Exact for Latest {
    ghost clones_exactly = { Prim.search rules };

    ghost compares_exactly = { Prim.grind exactness };
}

impl Keyed for Latest {
    ghost key = { λ latest. latest.holder };

    fn key(&self) -> u64 {
        self.holder
    }
}

/// The chains in which the rows of each holder stand, the last one first: for each row the place after the one of its
/// holder before it, and for each holder that of its last row. It is 0 where there is none. Contracts see both, and the
/// room: how many more rows can be linked without taking memory.
#[derive(Drop)]
pub(crate) struct Chains {
    links: Vec<u64>,
    latest: Table<Latest>,
}

impl Model for Chains {
    ghost use Rattle.std.specs.Prelude.{◌-◌, min, vec_capacity, vec_len};
    ghost use Rattle.pol_tokens.specs.Chains.{ChainsValue};

    ghost Value = { ChainsValue };

    ghost view = { λ chains. record {
      links = chains.links.items;
      latest = chains.latest.rows;
      room = min (vec_capacity chains.links - vec_len chains.links) chains.latest.room;
    } };
}

impl Chains {
    /// No rows are linked, and no memory is taken.
    pub fn new(alloc: Global) -> Self
        ensures links { result.links ≡ [] }
        ensures latest { result.latest ≡ [] }
    {
        Chains {
            links: Vec::new(alloc),
            latest: Table::new(alloc),
        }
    }

    /// The place after the last row of a holder, 0 where it has none.
    pub fn last(&self, holder: u64) -> u64
        ensures { result ≡ last_place holder self.now.latest }
    {
        match self.latest.find(holder) {
            Some(latest) => latest.place,
            None => 0,
        }
    }

    /// The place after the row of its holder that stands before the row at a place, 0 where none does or where there is
    /// no row at this place.
    pub fn before(&self, place: usize) -> u64
        ensures { result ≡ link_of place self.now.links }
    {
        match self.links.get(place) {
            Some(link) => *link,
            None => 0,
        }
    }

    /// Makes room for `more` rows, so that linking as many takes no memory. On an error the chains stay, and the room
    /// does not shrink.
    pub fn reserve(&mut self, more: usize) -> Result<(), OutOfMemory>
        ensures links { self.new.links ≡ self.old.links }
        ensures latest { self.new.latest ≡ self.old.latest }
        ensures reserved { OnOk result (more ≤ self.new.room) }
        ensures succeeds { more ≤ self.old.room → IsOk result }
        ensures room { self.old.room ≤ self.new.room }
    {
        self.links.reserve(more)?;
        self.latest.reserve(more)
    }

    /// Links one more row, which is the last of its holder from now on, and takes no memory.
    pub fn link(&mut self, holder: u64)
        requires { 0 < self.old.room }
        ensures linked { AreLinked holder self.old self.new }
        ensures room { self.old.room ≤ self.new.room + 1 }
    {
        let before = self.last(holder);
        self.links.push_reserved(before);
        self.latest.put(Latest {
            holder,
            place: self.links.len() as u64,
        });
    }
}

impl Clone for Chains {
    ghost is_clone = { λ source clone. (clone.links ≡ source.links) × (clone.latest ≡ source.latest) };

    fn clone(&self) -> Result<Self, AllocError> {
        let links = self.links.clone()?;
        let latest = self.latest.clone()?;
        Ok(Chains { links, latest })
    }
}
