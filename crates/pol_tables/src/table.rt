ghost use Rattle.std.specs.Prelude.{◌≡◌, ◌↔◌, ◌<◌, ◌≤◌, ◌+◌, [], length, true, false, IsTrue, IsOk, OnOk, option_copied, slice_get};
ghost use Rattle.std.specs.Cmp.Lexicographic.{pointwise, lists_per};
ghost use Rattle.pol_tables.specs.Rising.{KeysBelow, KeysRise};
ghost use Rattle.pol_tables.specs.Slots.{slot_key, IsSlot};
ghost use Rattle.pol_tables.specs.Table.{knows, row_of, rows_with, rows_without, IdsDiffer, IsPlace};

use crate::slot::Slot;
use crate::{Keyed, Rows};
use pol_types::OutOfMemory;
use std::alloc::{AllocError, Global};
use std::marker::Model;
use std::mem;

/// A table sweeps out the places of taken rows only once there are more than these.
const FEW: usize = 32;

/// Rows in the order in which their ids came, each found by its id: by halves as long as ids rise, as those do that a
/// counter gives out, and else by a scan. To take a row away moves no other, for its place stays until more than half
/// of all places are such: then these are swept out. Contracts see the rows, and the room: how many more rows can be
/// put without taking memory.
#[derive(Drop)]
pub struct Table<R: Keyed> {
    slots: Vec<Slot<R>>,
    gone: usize,
    rise: bool,
}

impl<R: Keyed> Model for Table<R> {
    ghost use Rattle.std.specs.Prelude.{◌-◌, vec_capacity, vec_len};
    ghost use Rattle.pol_tables.specs.Slots.{kept, AreSlots};
    ghost use Rattle.pol_tables.specs.Table.{TableValue};

    ghost Value = { TableValue R };

    ghost view = { λ table. record {
      rows = kept table.slots.items;
      room = vec_capacity table.slots - vec_len table.slots;
    } };

    ghost invariant = { λ table. AreSlots R.key table.slots.items table.rise table.gone };
}

impl<R: Keyed> Table<R> {
    pub fn new(alloc: Global) -> Self
        ensures { result.rows ≡ [] }
    {
        Table {
            slots: Vec::new(alloc),
            gone: 0,
            rise: true,
        }
    }

    pub fn len(&self) -> usize
        ensures { result ≡ length self.now.rows }
    {
        self.slots.len() - self.gone
    }

    pub fn is_empty(&self) -> bool
        ensures { IsTrue result ↔ (self.now.rows ≡ []) }
    {
        self.len() == 0
    }

    /// The rows, in their order.
    pub fn rows(&self) -> Rows<'_, R>
        ensures rows { result ≡ self.now.rows }
        ensures differ { IdsDiffer R.key self.now.rows }
    {
        Rows::new(self.slots.as_slice(), self.slots.len() - self.gone)
    }

    /// The row of this id.
    pub fn find(&self, id: u64) -> Option<&R>
        ensures { option_copied result ≡ row_of R.key id self.now.rows }
    {
        let slots = self.slots.as_slice();
        match place_of(slots, self.rise, id) {
            Some(place) => slots[place].row(),
            None => None,
        }
    }

    /// The row at a place of their order, counted from 0. Where none was taken it looks at no other.
    pub fn at(&self, place: usize) -> Option<&R>
        ensures { option_copied result ≡ slice_get self.now.rows place }
    {
        if self.gone > 0 {
            return self.rows().nth(place);
        }
        match self.slots.get(place) {
            Some(slot) => slot.row(),
            None => None,
        }
    }

    /// Makes room for `more` rows, so that putting as many takes no memory. On an error the rows stay, and the room
    /// does not shrink.
    pub fn reserve(&mut self, more: usize) -> Result<(), OutOfMemory>
        ensures rows { self.new.rows ≡ self.old.rows }
        ensures reserved { OnOk result (more ≤ self.new.room) }
        ensures succeeds { more ≤ self.old.room → IsOk result }
        ensures room { self.old.room ≤ self.new.room }
    {
        Ok(self.slots.reserve(more)?)
    }

    /// Puts a row, and takes no memory: a new id goes last, and a known id's row is replaced in its place.
    pub fn put(&mut self, row: R)
        requires { knows R.key (R.key row) self.old.rows ≡ false → 0 < self.old.room }
        ensures rows { self.new.rows ≡ rows_with R.key row self.old.rows }
        ensures room { self.old.room ≤ self.new.room + 1 }
        ensures known { knows R.key (R.key row) self.old.rows ≡ true → self.old.room ≤ self.new.room }
    {
        let id = row.key();
        if let Some(place) = place_of(self.slots.as_slice(), self.rise, id) {
            self.slots[place] = Slot::Kept(row);
            return;
        }
        self.rise = rise_with(self.slots.as_slice(), self.rise, id);
        self.slots.push(Slot::Kept(row)).unwrap();
    }

    /// Takes the row of this id away. The others keep their order.
    pub fn take(&mut self, id: u64) -> Option<R>
        ensures taken { result ≡ row_of R.key id self.old.rows }
        ensures rows { self.new.rows ≡ rows_without R.key id self.old.rows }
        ensures room { self.old.room ≤ self.new.room }
    {
        let place = place_of(self.slots.as_slice(), self.rise, id)?;
        let taken = mem::replace(&mut self.slots[place], Slot::Gone(id));
        self.gone += 1;
        self.sweep();
        taken.into_row()
    }

    /// Leaves out the places of taken rows, once these are more than half of all.
    fn sweep(&mut self)
        ensures rows { self.new.rows ≡ self.old.rows }
        ensures room { self.old.room ≤ self.new.room }
    {
        if self.gone > FEW && self.gone > self.slots.len() / 2 {
            self.slots.retain(|slot| slot.row().is_some());
            self.gone = 0;
        }
    }
}

/// The place of the row of this id.
fn place_of<R: Keyed>(slots: &[Slot<R>], rise: bool, id: u64) -> Option<usize>
    requires { rise ≡ true → KeysRise (slot_key R.key) slots.now }
    ensures { IsSlot R.key id slots.now result }
{
    if rise {
        let place = place_by_halves(slots, id)?;
        return slots[place].has(id).then_some(place);
    }
    slots.iter().position(|slot| slot.has(id))
}

/// The place of this id, also where the row was taken.
fn place_by_halves<R: Keyed>(slots: &[Slot<R>], id: u64) -> Option<usize>
    requires { KeysRise (slot_key R.key) slots.now }
    ensures { IsPlace (slot_key R.key) id slots.now result }
{
    slots.binary_search_by_key(&id, |slot| slot.id()).ok()
}

/// Whether ids still rise once this one is put last.
fn rise_with<R: Keyed>(slots: &[Slot<R>], rise: bool, id: u64) -> bool
    requires { rise ≡ true → KeysRise (slot_key R.key) slots.now }
    ensures { result ≡ true → KeysRise (slot_key R.key) slots.now × KeysBelow (slot_key R.key) id slots.now }
{
    match slots.last() {
        Some(last) => rise && last.id() < id,
        None => true,
    }
}

impl<R: Keyed> Clone for Table<R> {
    ghost is_clone = { λ source clone. clone.rows ≡ source.rows };

    fn clone(&self) -> Result<Self, AllocError> {
        let slots = self.slots.clone()?;
        Ok(Table {
            slots,
            gone: self.gone,
            rise: self.rise,
        })
    }
}

impl<R: Keyed> PartialEq for Table<R> {
    ghost eq = { λ left right. pointwise R.eq left.rows right.rows };

    ghost laws = { let items = lists_per R.PartialEq.laws in
        record {
          symm = λ left right. items.symm left.rows right.rows;
          trans = λ left middle right. items.trans left.rows middle.rows right.rows;
        } };

    fn eq(&self, other: &Self) -> bool {
        are_equal(self.rows(), other.rows())
    }
}

/// Whether there are as many rows, and equal ones.
fn are_equal<R: Keyed>(left: Rows<'_, R>, right: Rows<'_, R>) -> bool
    ensures { result ≡ pointwise R.eq left.entry right.entry }
{
    let mut others = right;
    for row in left {
        let Some(other) = others.next() else {
            return false;
        };
        if row != other {
            return false;
        }
    }
    others.next().is_none()
}
