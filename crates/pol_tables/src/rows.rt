ghost use Rattle.std.specs.Prelude.{◌≡◌, length};
ghost use Rattle.std.specs.Iterator.{YieldsFirstRef, item_count};
ghost use Rattle.std.specs.Slice.Iter.{iter_rest};
ghost use Rattle.pol_tables.specs.Slots.{kept};

use crate::slot::Slot;
use std::marker::Model;
use std::slice;

/// The rows of a table from one on, in their order. Contracts see those that are left.
#[derive(Drop)]
pub struct Rows<'a, R> {
    slots: slice::Iter<'a, Slot<R>>,
    left: usize,
}

impl<'a, R> Model for Rows<'a, R> {
    ghost use Rattle.std.specs.Prelude.{◌≡◌, List, length};
    ghost use Rattle.std.specs.Slice.Iter.{iter_rest};
    ghost use Rattle.pol_tables.specs.Slots.{kept};

    ghost Value = { List R };

    ghost view = { λ rows. kept (iter_rest rows.slots) };

    ghost invariant = { λ rows. rows.left ≡ length (kept (iter_rest rows.slots)) };
}

impl<'a, R> Rows<'a, R> {
    pub(crate) fn new(slots: &'a [Slot<R>], left: usize) -> Self
        requires { left ≡ length (kept slots.now) }
        ensures { result ≡ kept slots.now }
    {
        Rows {
            slots: slots.iter(),
            left,
        }
    }

    /// Those that are left, once more.
    pub fn rest(&self) -> Rows<'a, R>
        ensures { result ≡ self.now }
    {
        Rows {
            slots: self.slots.as_slice().iter(),
            left: self.left,
        }
    }
}

impl<'a, R> Iterator for Rows<'a, R> {
    type Item = &'a R;

    ghost next_gives = { YieldsFirstRef (λ rest. rest) };

    ghost remaining = { item_count (λ rest. rest) };

    fn next(&mut self) -> Option<&'a R> {
        let row = next_kept(&mut self.slots)?;
        self.left -= 1;
        Some(row)
    }

    fn size_hint(&self) -> (usize, Option<usize>) {
        (self.left, Some(self.left))
    }
}

impl<'a, R> ExactSizeIterator for Rows<'a, R> {
    fn len(&self) -> usize {
        self.left
    }
}

/// The row of the first place that has one.
#[tactic(auto, using(crate::proofs::SlotLemmas::kept_row, crate::proofs::SlotLemmas::kept_none))]
fn next_kept<'a, R>(slots: &mut slice::Iter<'a, Slot<R>>) -> Option<&'a R>
    ensures { YieldsFirstRef (λ slots. kept (iter_rest slots)) slots.old result slots.new }
{
    while let Some(slot) = slots.next() {
        if let Some(row) = slot.row() {
            return Some(row);
        }
    }
    None
}
