ghost use Rattle.std.specs.Prelude.{◌≡◌, ◌≢◌, ◌≤◌, ◌<◌, ◌+◌, ◌↔◌, [], false, length, not, true, All, Any, IsOk, IsTrue, MatchOption, OnErr, OnOk};
ghost use Rattle.std.specs.List.{list_any};
ghost use Rattle.std.proofs.Common.{rules};
ghost use Rattle.pol_types.specs.Exact.{exactness};
ghost use Rattle.pol_locations.specs.Location.{Overlaps, is_overlap};
ghost use Rattle.pol_locations.specs.declared.location_set.Member.{Member};
ghost use Rattle.std.specs.List.Sorted.{IsPartitionPoint};
ghost use Rattle.pol_locations.specs.LocationSet.{AreApart, Gains, IsNear, LocationsAscend, clash_of, is_before, is_clash};

use crate::{Location, covers, overlaps};
use pol_types::{Exact, OutOfMemory};
use std::alloc::{AllocError, Global};
use std::marker::Model;

/// A member of a set: a location and the id of its owner.
#[derive(Clone, Drop, PartialEq, Eq)]
pub struct Member {
    pub owner: u64,
    pub location: Location,
}

impl Exact for Member {
    ghost clones_exactly = { Prim.search rules };

    ghost compares_exactly = { Prim.grind exactness };
}

/// Locations with their owners. No two members have one owner, and no two locations overlap. They stand by location, so
/// that those near a location are found by a binary search. Contracts see the members, in no promised order, and for how
/// many more there is a place.
#[derive(Drop)]
pub struct LocationSet {
    members: Vec<Member>,
}

impl Model for LocationSet {
    ghost use Rattle.std.specs.Prelude.{◌-◌, vec_capacity, vec_len};
    ghost use Rattle.pol_locations.specs.LocationSet.{AreApart, Held, LocationsAscend};

    ghost Value = { Held };

    ghost view = { λ set.
        record { members = set.members.items; spare = vec_capacity set.members - vec_len set.members } };

    ghost invariant = { λ set. AreApart set.members.items × LocationsAscend set.members.items };
}

impl LocationSet {
    pub fn new(alloc: Global) -> Self
        ensures { result.members ≡ [] }
    {
        LocationSet {
            members: Vec::new(alloc),
        }
    }

    /// The members, in no promised order.
    pub fn members(&self) -> &[Member]
        ensures value { result.now ≡ self.now.members }
        ensures apart { AreApart self.now.members }
    {
        self.members.as_slice()
    }

    /// The least owner outside `except` whose location overlaps the wanted one. It looks at those near it alone.
    pub fn clash(&self, wanted: &Location, except: &[u64]) -> Option<u64>
        ensures { result ≡ clash_of self.now.members wanted.now except.now }
    {
        least_clash(near(self.members.as_slice(), wanted), wanted, except)
    }

    /// Whether no member overlaps the wanted location. It looks at those near it alone.
    pub fn is_free(&self, wanted: &Location) -> bool
        ensures test { result ≡ not (list_any (λ member. is_overlap member.location wanted.now) self.now.members) }
        ensures free { IsTrue result ↔ All (λ member. ¬ (Overlaps member.location wanted.now)) self.now.members }
    {
        !overlaps_any(near(self.members.as_slice(), wanted), wanted)
    }

    /// Makes at least so many places. Where there are as many already, it takes no memory and succeeds.
    pub fn reserve(&mut self, more: usize) -> Result<(), OutOfMemory>
        ensures members { self.new.members ≡ self.old.members }
        ensures places { OnOk result (more ≤ self.new.spare) }
        ensures succeeds { more ≤ self.old.spare → IsOk result }
        ensures kept { self.old.spare ≤ self.new.spare }
    {
        self.members.reserve(more)?;
        Ok(())
    }

    /// Adds a member in a spare place, without memory.
    pub fn insert(&mut self, owner: u64, location: Location)
        requires place { 0 < self.old.spare }
        requires new_owner { All (λ member. member.owner ≢ owner) self.old.members }
        requires free { All (λ member. is_overlap member.location location ≡ false) self.old.members }
        ensures member { Gains self.old.members self.new.members (record { owner = owner; location = location }) }
        ensures spare { self.new.spare + 1 ≡ self.old.spare }
    {
        let place = place_of(self.members.as_slice(), &location);
        // There is a spare place, so this takes no memory and never fails.
        let _inserted = self.members.insert(place, Member { owner, location });
    }

    /// Takes the member of this owner, and tells whether there was one. Its place is spare then.
    pub fn remove(&mut self, owner: u64) -> bool
        ensures there { IsTrue result ↔ Any (λ member. member.owner ≡ owner) self.old.members }
        ensures taken { result ≡ true → (member : Member) × (member.owner ≡ owner)
            × Gains self.new.members self.old.members member × (self.new.spare ≡ self.old.spare + 1) }
        ensures absent { result ≡ false → self.new ≡ self.old }
    {
        let Some(place) = self.members.iter().position(|member| member.owner == owner) else {
            return false;
        };
        self.members.remove(place);
        true
    }
}

impl Clone for LocationSet {
    ghost is_clone = { λ source clone. clone.members ≡ source.members };

    fn clone(&self) -> Result<Self, AllocError> {
        Ok(LocationSet {
            members: self.members.clone()?,
        })
    }
}

/// How many members have lesser locations.
fn place_of(members: &[Member], location: &Location) -> usize
    requires { LocationsAscend members.now }
    ensures split { IsPartitionPoint (λ member. is_before location.now member ≡ true)
        (λ member. is_before location.now member ≡ false) members.now result }
    ensures bound { result ≤ length members.now }
{
    members.partition_point(|member| is_before(member, location))
}

fn is_before(member: &Member, location: &Location) -> bool
    ensures { result ≡ is_before location.now member.now }
{
    member.location < *location
}

/// The members that may overlap a wanted location. Those that do stand side by side: the last before it may cover it, and
/// it may cover some from there on.
fn near<'a>(members: &'a [Member], wanted: &Location) -> &'a [Member]
    requires apart { AreApart members.now }
    requires ascend { LocationsAscend members.now }
    ensures { IsNear wanted.now members.now result.now }
{
    let place = place_of(members, wanted);
    let covered = members[place..].partition_point(|member| covers(wanted, &member.location));
    &members[place.saturating_sub(1)..place + covered]
}

/// The least owner outside `except` of those whose location overlaps the wanted one. It goes over all members.
pub fn least_clash(members: &[Member], wanted: &Location, except: &[u64]) -> Option<u64>
    ensures { result ≡ clash_of members.now wanted.now except.now }
{
    members
        .iter()
        .filter(|member| is_clash(member, wanted, except))
        .map(|member| member.owner)
        .min()
}

fn is_clash(member: &Member, wanted: &Location, except: &[u64]) -> bool
    ensures { result ≡ is_clash wanted.now except.now member.now }
{
    overlaps(&member.location, wanted) && !except.contains(&member.owner)
}

fn overlaps_any(members: &[Member], wanted: &Location) -> bool
    ensures { result ≡ list_any (λ member. is_overlap member.location wanted.now) members.now }
{
    members
        .iter()
        .any(|member| overlaps(&member.location, wanted))
}
