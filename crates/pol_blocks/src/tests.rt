//! Items that come at both ends, until blocks split, and go again.
use crate::{Blocks, Front};
use std::alloc::Global;

/// A test that passes all items, or none: it leads to the end of a list, or to its beginning.
#[derive(Drop)]
struct Ends(bool);

impl Front<u64> for Ends {
    ghost passes = { λ ends item. ends.0 };

    fn passes(&self, _item: &u64) -> bool {
        self.0
    }
}

/// Adds a number at the end, or at the beginning. Whether there was memory for it.
fn add(alloc: Global, list: &mut Blocks<u64>, number: u64, last: bool) -> bool {
    let place = list.place_of(&Ends(last));
    list.insert(alloc, place, number).is_ok()
}

/// Takes the first number away.
fn take_first(list: &mut Blocks<u64>) -> Option<u64> {
    let place = list.place_of(&Ends(false));
    list.remove(place)
}

/// The numbers from 0 to 199, of which 100 came in front and 100 behind.
fn numbers(alloc: Global) -> Option<Blocks<u64>> {
    let mut list = Blocks::new(alloc);
    for more in 0..100 {
        let first = add(alloc, &mut list, 99 - more, false);
        let last = add(alloc, &mut list, 100 + more, true);
        if !first || !last {
            return None;
        }
    }
    Some(list)
}

/// Whether a list has the numbers from 0 to 199.
fn is_counting(list: &Blocks<u64>) -> bool {
    let mut next = 0u64;
    for item in list.iter() {
        if *item != next {
            return false;
        }
        next = next.wrapping_add(1);
    }
    next == 200
}

/// The first number that isn't the next one, if there is one, and the numbers are taken away.
fn first_other(list: &mut Blocks<u64>) -> Option<u64> {
    for number in 0..200 {
        if take_first(list) != Some(number) {
            return Some(number);
        }
    }
    None
}

/// Whether the numbers are there in order, and go one by one. It is `None` where there was no memory.
fn come_and_go(alloc: Global) -> Option<bool> {
    let mut list = numbers(alloc)?;
    let counting = is_counting(&list);
    let other = first_other(&mut list);
    let more = take_first(&mut list);
    Some(counting && other.is_none() && more.is_none())
}

#[test]
fn items_come_at_both_ends_and_go(rt: HostRuntime) {
    assert!(rt; come_and_go(rt.alloc()) == Some(true));
}
