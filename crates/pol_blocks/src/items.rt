ghost use Rattle.std.specs.Prelude.{◌≡◌, drop};
ghost use Rattle.std.specs.Iterator.{YieldsFirstRef, item_count};
ghost use Rattle.pol_blocks.specs.Blocks.{IsPlace, flat, number_of};

use crate::{Blocks, Place};
use std::marker::Model;

/// The items of a list from a place on, in order. It is seen as those that are left.
#[derive(Drop)]
pub struct Items<'a, T> {
    list: &'a Blocks<T>,
    place: Place,
}

impl<'a, T> Model for Items<'a, T> {
    ghost use Rattle.std.specs.Prelude.{List, drop};
    ghost use Rattle.pol_blocks.specs.Blocks.{IsPlace, flat, number_of};

    ghost Value = { List T };

    ghost view = { λ items. drop (number_of items.list.now items.place) (flat items.list.now) };

    ghost invariant = { λ items. IsPlace items.list.now items.place };
}

impl<'a, T> Items<'a, T> {
    pub(crate) fn new(list: &'a Blocks<T>, place: Place) -> Self
        requires { IsPlace list.now place }
        ensures { result ≡ drop (number_of list.now place) (flat list.now) }
    {
        Items { list, place }
    }
}

impl<'a, T: Drop> Iterator for Items<'a, T> {
    type Item = &'a T;

    ghost next_gives = { YieldsFirstRef (λ rest. rest) };

    ghost remaining = { item_count (λ rest. rest) };

    fn next(&mut self) -> Option<&'a T> {
        let item = self.list.get(self.place)?;
        self.place = self.list.next(self.place);
        Some(item)
    }
}
