ghost use Rattle.std.specs.Prelude.{◌≡◌, ◌↔◌, ◌+◌, ◌<◌, [], drop, length, true, false, insert, remove, option_copied, slice_get, slice_set, IfErr, IsTrue, OnErr, OnOk, Some};
ghost use Rattle.std.specs.List.Sorted.{IsPartitionPoint, IsPartitionedBy};
ghost use Rattle.pol_blocks.specs.Blocks.{IsPlace, IsSpot, block_at, flat, number_of};

use crate::edits::{self, FULL};
use crate::{Front, Items, Place, search};
use std::alloc::{AllocFailed, Global};
use std::marker::Model;

/// A list in order, in blocks of at most 32 items. Contracts see the blocks, and `flat` tells the items of all.
#[derive(Drop)]
pub struct Blocks<T> {
    parts: Vec<Vec<T>>,
}

impl<T> Model for Blocks<T> {
    ghost use Rattle.std.specs.Prelude.{List, All};
    ghost use Rattle.pol_blocks.specs.Blocks.{IsBlock, contents};

    ghost Value = { List (List T) };

    ghost view = { λ list. contents list.parts.items };

    ghost invariant = { λ list. All IsBlock (contents list.parts.items) };
}

impl<T: Drop> Blocks<T> {
    /// No items.
    pub fn new(alloc: Global) -> Self
        ensures { result ≡ [] }
    {
        Blocks {
            parts: Vec::new(alloc),
        }
    }

    /// The item at this place. There is none at the end.
    pub fn get(&self, place: Place) -> Option<&T>
        requires { IsPlace self.now place }
        ensures { option_copied result ≡ slice_get (flat self.now) (number_of self.now place) }
    {
        let block = self.parts.get(place.block)?;
        block.get(place.offset)
    }

    /// The place of the first item that doesn't pass. Those that pass stand in front of all others, and few are asked.
    pub fn place_of<F: Front<T>>(&self, front: &F) -> Place
        requires { IsPartitionedBy (F.passes front.now) (flat self.now) }
        ensures place { IsPlace self.now result }
        ensures split { IsPartitionPoint (λ item. F.passes front.now item ≡ true)
            (λ item. F.passes front.now item ≡ false) (flat self.now) (number_of self.now result) }
    {
        let block = search::block_of(self.parts.as_slice(), front);
        if block == self.parts.len() {
            return Place { block, offset: 0 };
        }
        let offset = search::offset_in(self.parts[block].as_slice(), front);
        Place { block, offset }
    }

    /// Puts an item in front of the one at this place. Where memory is wanting, the list stays and the item comes back.
    pub fn insert(&mut self, alloc: Global, place: Place, item: T) -> Result<(), AllocFailed<T>>
        requires { IsPlace self.old place }
        ensures inserted { OnOk result (flat self.new ≡ insert (flat self.old) (number_of self.old place) item) }
        ensures error { OnErr result (self.new ≡ self.old) }
        ensures back { IfErr result (λ failed. failed.value ≡ item) }
    {
        let spot = self.spot(place);
        if self.has_room(spot) {
            return edits::put_in(&mut self.parts, spot, item);
        }
        let Ok(more) = edits::new_block(&mut self.parts, alloc) else {
            return Err(AllocFailed { value: item });
        };
        edits::put_and_split(&mut self.parts, spot, item, more);
        Ok(())
    }

    /// Puts an item in place of the one at this place, and gives that one. The place is good after it. It takes no
    /// memory.
    pub fn replace(&mut self, place: Place, item: T) -> T
        requires place { IsPlace self.old place }
        requires inside { number_of self.old place < length (flat self.old) }
        ensures taken { Some result ≡ slice_get (flat self.old) (number_of self.old place) }
        ensures put { flat self.new ≡ slice_set (flat self.old) (number_of self.old place) item }
        ensures place { IsPlace self.new place }
        ensures number { number_of self.new place ≡ number_of self.old place }
    {
        edits::exchange(&mut self.parts, place, item)
    }

    /// Takes the item at this place away, if there is one. It takes no memory.
    pub fn remove(&mut self, place: Place) -> Option<T>
        requires { IsPlace self.old place }
        ensures taken { result ≡ slice_get (flat self.old) (number_of self.old place) }
        ensures without { flat self.new ≡ remove (flat self.old) (number_of self.old place) }
    {
        if place.block == self.parts.len() {
            return None;
        }
        Some(edits::take(&mut self.parts, place))
    }

    /// All items, in order.
    pub fn iter(&self) -> Items<'_, T>
        ensures { result ≡ flat self.now }
    {
        self.iter_from(self.first())
    }

    /// The items from a place on, in order.
    pub fn iter_from(&self, place: Place) -> Items<'_, T>
        requires { IsPlace self.now place }
        ensures { result ≡ drop (number_of self.now place) (flat self.now) }
    {
        Items::new(self, place)
    }

    /// The place of the first item.
    fn first(&self) -> Place
        ensures place { IsPlace self.now result }
        ensures number { number_of self.now result ≡ 0 }
    {
        self.parts.len();
        Place {
            block: 0,
            offset: 0,
        }
    }

    /// The place behind that of an item.
    pub(crate) fn next(&self, place: Place) -> Place
        requires place { IsPlace self.now place }
        requires item { place.block < length self.now }
        ensures place { IsPlace self.now result }
        ensures number { number_of self.now result ≡ number_of self.now place + 1 }
    {
        let length = self.parts[place.block].len();
        let offset = place.offset + 1;
        if offset < length {
            return Place {
                block: place.block,
                offset,
            };
        }
        Place {
            block: place.block + 1,
            offset: 0,
        }
    }

    /// A place of the same number, at the end of a block where there is one in front.
    fn spot(&self, place: Place) -> Place
        requires { IsPlace self.now place }
        ensures { IsSpot self.now place result }
    {
        if place.offset > 0 || place.block == 0 {
            return place;
        }
        let block = place.block - 1;
        let offset = self.parts[block].len();
        Place { block, offset }
    }

    /// Whether the block of a place has room for an item more.
    fn has_room(&self, spot: Place) -> bool
        ensures { IsTrue result ↔ ((spot.block < length self.now) × (length (block_at self.now spot.block) < 32)) }
    {
        spot.block < self.parts.len() && self.parts[spot.block].len() < FULL
    }
}
