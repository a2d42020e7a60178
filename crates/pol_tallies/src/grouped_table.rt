ghost use Rattle.std.specs.Prelude.{◌≡◌, ◌↔◌, ◌<◌, ◌≤◌, ◌+◌, ◌-◌, ◌*◌, ◌^◌, ℕ, [], length};
ghost use Rattle.std.specs.Prelude.{IsOk, IsTrue, OnOk, option_copied};
ghost use Rattle.std.specs.List.{list_any};
ghost use Rattle.pol_tables.specs.Named.{Finds};
ghost use Rattle.pol_tables.specs.Table.{row_of, rows_with, rows_without, IdsDiffer};
ghost use Rattle.pol_tallies.specs.Grouped.{is_of, times, times_in, times_of};
ghost use Rattle.pol_tallies.specs.Tally.{count_of};

use crate::{Grouped, Tally};
use pol_tables::{NameOf, Named, NamedTable, Rows};
use pol_types::OutOfMemory;
use std::alloc::{AllocError, Global};
use std::marker::Model;

/// Rows that are found by their ids and by their names, and a tally of the groups to which they belong, so that whether
/// a group has a row is known without a scan. Contracts see the rows, and the room: how many more rows can be put
/// without taking memory.
#[derive(Drop)]
pub struct GroupedTable<R: Named + Grouped> {
    table: NamedTable<R>,
    tally: Tally,
    /// How many more rows the tally has room for.
    spare: usize,
}

impl<R: Named + Grouped> Model for GroupedTable<R> {
    ghost use Rattle.std.specs.Prelude.{◌≤◌, ◌*◌, min};
    ghost use Rattle.pol_tables.specs.Table.{TableValue};
    ghost use Rattle.pol_tallies.specs.Grouped.{AreTallied};

    ghost Value = { TableValue R };

    ghost view = { λ grouped. record { rows = grouped.table.rows; room = min grouped.table.room grouped.spare } };

    ghost invariant = { λ grouped.
        AreTallied R.groups R.MOST grouped.tally grouped.table.rows × (grouped.spare * R.MOST ≤ grouped.tally.room) };
}

impl<R: Named + Grouped> GroupedTable<R> {
    /// No rows, and no memory taken.
    pub fn new(alloc: Global) -> Self
        ensures { result.rows ≡ [] }
    {
        GroupedTable {
            table: NamedTable::new(alloc),
            tally: Tally::new(alloc),
            spare: 0,
        }
    }

    pub fn len(&self) -> usize
        ensures { result ≡ length self.now.rows }
    {
        self.table.len()
    }

    pub fn is_empty(&self) -> bool
        ensures { IsTrue result ↔ (self.now.rows ≡ []) }
    {
        self.table.is_empty()
    }

    /// The rows, in their order.
    pub fn rows(&self) -> Rows<'_, R>
        ensures rows { result ≡ self.now.rows }
        ensures differ { IdsDiffer R.key self.now.rows }
    {
        self.table.rows()
    }

    /// The row of this id.
    pub fn find(&self, id: u64) -> Option<&R>
        ensures { option_copied result ≡ row_of R.key id self.now.rows }
    {
        self.table.find(id)
    }

    /// A row of this name, which is the only one where rows of one name stand once. It scans no rows.
    pub fn named<N: NameOf<R>>(&self, name: &N) -> Option<&R>
        ensures { Finds R.key (N.names name.now) self.now.rows (option_copied result) }
    {
        self.table.named(name)
    }

    /// Whether a row belongs to the group. It scans no rows.
    pub fn any_of(&self, group: u64) -> bool
        ensures { result ≡ list_any (is_of R.groups group) self.now.rows }
    {
        self.tally.count(group) > 0
    }

    /// How often the group is among those of the rows. It scans no rows.
    pub fn count(&self, group: u64) -> u128
        ensures { result ≡ times_in R.groups group self.now.rows }
    {
        self.tally.count(group)
    }

    /// Makes room for `more` rows, so that putting as many takes no memory. On an error the rows stay, and the room
    /// does not shrink.
    pub fn reserve(&mut self, more: usize) -> Result<(), OutOfMemory>
        ensures rows { self.new.rows ≡ self.old.rows }
        ensures reserved { OnOk result (more ≤ self.new.room) }
        ensures succeeds { more ≤ self.old.room → IsOk result }
        ensures room { self.old.room ≤ self.new.room }
    {
        self.table.reserve(more)?;
        if more > self.spare {
            reserve_groups::<R>(&mut self.tally, more)?;
            self.spare = more;
        }
        Ok(())
    }

    /// Puts a row, and takes no memory: a new id goes last, and a known id's row is replaced in its place.
    pub fn put(&mut self, row: R)
        requires { 0 < self.old.room }
        ensures rows { self.new.rows ≡ rows_with R.key row self.old.rows }
        ensures room { self.old.room ≤ self.new.room + 1 }
    {
        // A count stays below 2^128, since fewer than 2^64 rows have fewer than 2^64 groups each.
        let _length = self.table.len();
        let _most = R::MOST;
        forget_known(&self.table, &mut self.tally, row.key());
        note(&row, &mut self.tally);
        self.spare -= 1;
        self.table.put(row);
    }

    /// Takes the row of this id away. The others keep their order.
    pub fn take(&mut self, id: u64) -> Option<R>
        ensures taken { result ≡ row_of R.key id self.old.rows }
        ensures rows { self.new.rows ≡ rows_without R.key id self.old.rows }
        ensures room { self.old.room ≤ self.new.room }
    {
        forget_known(&self.table, &mut self.tally, id);
        self.table.take(id)
    }
}

impl<R: Named + Grouped> Clone for GroupedTable<R> {
    ghost is_clone = { λ source clone. clone.rows ≡ source.rows };

    fn clone(&self) -> Result<Self, AllocError> {
        let table = self.table.clone()?;
        let tally = self.tally.clone()?;
        Ok(GroupedTable {
            table,
            tally,
            spare: 0,
        })
    }
}

/// Makes room for the groups of `more` rows.
fn reserve_groups<R: Grouped>(tally: &mut Tally, more: usize) -> Result<(), OutOfMemory>
    ensures counts { (group : ℕ) → count_of group tally.new ≡ count_of group tally.old }
    ensures reserved { OnOk result (more * R.MOST ≤ tally.new.room) }
    ensures room { tally.old.room ≤ tally.new.room }
{
    match more.checked_mul(R::MOST) {
        Some(groups) => tally.reserve(groups),
        None => Err(OutOfMemory),
    }
}

/// Notes the groups of a row.
fn note<R: Grouped>(row: &R, tally: &mut Tally)
    requires place { R.MOST ≤ tally.old.room }
    requires fits { (group : ℕ) → count_of group tally.old + R.MOST < 2 ^ 128 }
    ensures counts { (group : ℕ) → count_of group tally.new
        ≡ count_of group tally.old + times group (R.groups row.now) }
    ensures few { length (R.groups row.now) ≤ R.MOST }
    ensures room { tally.old.room ≤ tally.new.room + R.MOST }
{
    for place in 0..row.group_count() {
        tally.note(row.group(place));
    }
}

/// Forgets the groups of a row.
fn forget<R: Grouped>(row: &R, tally: &mut Tally)
    ensures counts { (group : ℕ) → count_of group tally.new
        ≡ count_of group tally.old - times group (R.groups row.now) }
    ensures room { tally.old.room ≤ tally.new.room }
{
    for place in 0..row.group_count() {
        tally.forget(row.group(place));
    }
}

/// Forgets the groups of the row of this id, where there is one.
fn forget_known<R: Named + Grouped>(table: &NamedTable<R>, tally: &mut Tally, id: u64)
    ensures counts { (group : ℕ) → count_of group tally.new
        ≡ count_of group tally.old - times_of R.groups group (row_of R.key id table.now.rows) }
    ensures differ { IdsDiffer R.key table.now.rows }
    ensures room { tally.old.room ≤ tally.new.room }
{
    let _rows = table.rows();
    if let Some(row) = table.find(id) {
        forget(row, tally);
    }
}
