//! Locations of segments, sets of locations, and the counter of steps, which no request reaches.
ghost use Rattle.std.specs.Prelude.{◌≡◌, ◌<◌};

use pol_locations::{Location, LocationRefused, LocationSet, Steps};
use std::alloc::Global;
use std::marker::Brand;
use std::mem;
use std::sync::ledger::{Blank, Ledger};

/// Whether the location of a text is that of its segments.
fn is_made_again(alloc: Global, text: &str) -> Result<bool, LocationRefused> {
    let location = Location::parse(alloc, text)?;
    let again = Location::of_segments(alloc, location.segments())?;
    Ok(again == location)
}

#[test]
fn location_is_made_of_its_segments(rt: HostRuntime) {
    assert!(rt; is_made_again(rt.alloc(), "lake://b/t1") == Ok(true));
    let refused = Location::of_segments(rt.alloc(), &[]).err();
    assert!(rt; refused == Some(LocationRefused::EmptySegment));
}

/// Adds a member where its location is free and its owner has none, and tells whether it did.
fn add(set: &mut LocationSet, alloc: Global, owner: u64, text: &str) -> bool {
    let Ok(()) = set.reserve(1) else {
        return false;
    };
    let Ok(location) = Location::parse(alloc, text) else {
        return false;
    };
    let is_new = set.members().iter().all(|member| member.owner != owner);
    let is_added = is_new && set.is_free(&location);
    if is_added {
        set.insert(owner, location);
    }
    is_added
}

/// The owners that clash at a location but for none, for 4, and for both.
fn clashes(set: &LocationSet, alloc: Global, text: &str) -> Option<[Option<u64>; 3]> {
    let wanted = Location::parse(alloc, text).ok()?;
    Some([
        set.clash(&wanted, &[]),
        set.clash(&wanted, &[4]),
        set.clash(&wanted, &[9, 4]),
    ])
}

#[test]
fn least_owner_outside_the_exceptions_clashes(rt: HostRuntime) {
    let alloc = rt.alloc();
    let mut set = LocationSet::new(alloc);
    let added = add(&mut set, alloc, 9, "lake://b/t1") && add(&mut set, alloc, 4, "lake://b/t2");
    let again = add(&mut set, alloc, 5, "lake://b/t2/x");
    let found = clashes(&set, alloc, "lake://b");
    let removed = set.remove(4) && !set.remove(4);
    let left = set.members().len();
    drop(set);
    assert!(rt; added && !again && removed && left == 1);
    assert!(rt; found == Some([Some(4), Some(9), None]));
}

fn count_two<L: Ledger>(blank: Blank)
    requires name { blank.name ≡ L.name }
    requires parts { blank.parts ≡ L.parts }
    requires some { 0 < blank.parts }
{
    let mut steps = Steps::<L>::new(blank);
    steps.tick();
    steps.tick();
}

#[test]
fn counter_takes_no_bytes(rt: HostRuntime) {
    let blank = Blank::new(1);
    count_two::<Brand>(blank);
    assert_eq!(rt; mem::size_of::<Steps<Brand>>(), 0);
}
