ghost use Rattle.std.specs.Prelude.{◌≡◌, ◌<◌, ◌≤◌, ◌+◌, ◌-◌, [], false, IsOk, OnOk, vec_capacity, vec_len};
ghost use Rattle.std.specs.List.{list_any};
ghost use Rattle.pol_locations.specs.LocationSet.{clash_of};
ghost use Rattle.pol_table_rows.specs.Places.{IsPut, IsTaken, is_owner, least};

use pol_locations::{Location, LocationSet, Member, least_clash};
use pol_types::OutOfMemory;
use std::alloc::{AllocError, Global};
use std::marker::Model;

/// Locations with their owners, of which each has one. Those of a sound state don't overlap, and stand in a set. In the
/// middle of a list of changes two may, and then the later one stands beside the set. Contracts see all of them, in no
/// promised order, and the room: how many more can be put without taking memory.
#[derive(Drop)]
pub struct Places {
    set: LocationSet,
    beside: Vec<Member>,
}

impl Model for Places {
    ghost use Rattle.std.specs.Prelude.{◌-◌, ◌++◌, min, vec_capacity, vec_len};
    ghost use Rattle.pol_table_rows.specs.Places.{PlacesValue};

    ghost Value = { PlacesValue };

    ghost view = { λ places. record {
      members = places.set.members ++ places.beside.items;
      room = min places.set.spare (vec_capacity places.beside - vec_len places.beside);
    } };
}

impl Places {
    /// No locations, and no memory taken.
    pub fn new(alloc: Global) -> Self
        ensures { result.members ≡ [] }
    {
        Places {
            set: LocationSet::new(alloc),
            beside: Vec::new(alloc),
        }
    }

    /// The least owner outside `except` whose location overlaps the wanted one. It looks at those near it alone, and at
    /// those beside the set.
    pub fn clash(&self, wanted: &Location, except: &[u64]) -> Option<u64>
        ensures { result ≡ clash_of self.now.members wanted.now except.now }
    {
        least(
            self.set.clash(wanted, except),
            least_clash(self.beside.as_slice(), wanted, except),
        )
    }

    /// Makes room for `more` locations, so that putting as many takes no memory. On an error the locations stay, and
    /// the room does not shrink.
    pub fn reserve(&mut self, more: usize) -> Result<(), OutOfMemory>
        ensures members { self.new.members ≡ self.old.members }
        ensures reserved { OnOk result (more ≤ self.new.room) }
        ensures succeeds { more ≤ self.old.room → IsOk result }
        ensures room { self.old.room ≤ self.new.room }
    {
        self.set.reserve(more)?;
        Ok(self.beside.reserve(more)?)
    }

    /// Puts the location of an owner that has none, and takes no memory.
    pub fn add(&mut self, owner: u64, location: Location)
        requires place { 0 < self.old.room }
        requires new_owner { list_any (is_owner owner) self.old.members ≡ false }
        ensures put { IsPut (record { owner = owner; location = location }) self.old.members self.new.members }
        ensures room { self.old.room ≤ self.new.room + 1 }
    {
        if self.set.is_free(&location) {
            self.set.insert(owner, location);
        } else {
            self.beside.push_reserved(Member { owner, location });
        }
    }

    /// Puts the location of an owner in the place of that which it had, and takes no memory. It goes over all owners.
    pub fn put(&mut self, owner: u64, location: Location)
        requires { 0 < self.old.room }
        ensures put { IsPut (record { owner = owner; location = location }) self.old.members self.new.members }
        ensures room { self.old.room ≤ self.new.room + 1 }
    {
        forget(&mut self.set, &mut self.beside, owner);
        self.add(owner, location);
    }

    /// Takes the location of an owner away, where it has one. It goes over all owners.
    pub fn take(&mut self, owner: u64)
        ensures taken { IsTaken owner self.old.members self.new.members }
        ensures room { self.old.room ≤ self.new.room }
    {
        forget(&mut self.set, &mut self.beside, owner);
    }
}

impl Clone for Places {
    ghost is_clone = { λ source clone. clone.members ≡ source.members };

    fn clone(&self) -> Result<Self, AllocError> {
        let set = self.set.clone()?;
        let beside = self.beside.clone()?;
        Ok(Places { set, beside })
    }
}

/// Takes the location of an owner away, in the set or beside it.
fn forget(set: &mut LocationSet, beside: &mut Vec<Member>, owner: u64)
    ensures set { IsTaken owner set.old.members set.new.members }
    ensures beside { IsTaken owner beside.old.items beside.new.items }
    ensures spare { set.old.spare ≤ set.new.spare }
    ensures room { vec_capacity beside.old - vec_len beside.old ≤ vec_capacity beside.new - vec_len beside.new }
{
    let _apart = set.members();
    set.remove(owner);
    beside.retain(|member| !is_owner(member, owner));
}

/// The lesser of two owners that were found.
fn least(one: Option<u64>, other: Option<u64>) -> Option<u64>
    ensures { result ≡ least one other }
{
    match (one, other) {
        (Some(one), Some(other)) => Some(one.min(other)),
        (Some(one), None) => Some(one),
        (None, other) => other,
    }
}

/// Whether the member is the owner's.
fn is_owner(member: &Member, owner: u64) -> bool
    ensures { result ≡ is_owner owner member.now }
{
    member.owner == owner
}
