ghost use Rattle.std.specs.Prelude.{◌≡◌, ◌↔◌, ◌<◌, ◌≤◌, ◌+◌, ◌≢◌, [], length, None, IsTrue, IsOk, OnOk, option_copied};
ghost use Rattle.std.specs.List.{AllByRecursion};
ghost use Rattle.pol_tables.specs.Index.{is_noted, entry_number};
ghost use Rattle.pol_tables.specs.Named.{Finds, FindsOr, IsMissed, IsMissedFirst, named_row};
ghost use Rattle.pol_tables.specs.Table.{row_of, rows_with, rows_without, IdsDiffer};
ghost use Rattle.pol_tables.specs.declared.index.IndexEntry.{IndexEntry};

use crate::{Index, IndexEntry, NameOf, Named, Rows, Table};
use pol_types::OutOfMemory;
use std::alloc::{AllocError, Global};
use std::marker::Model;

/// Rows in the order in which their ids came, each found by its id and by its name without a scan. Contracts see the
/// rows, and the room: how many more rows can be put without taking memory.
#[derive(Drop)]
pub struct NamedTable<R: Named> {
    table: Table<R>,
    index: Index,
}

impl<R: Named> Model for NamedTable<R> {
    ghost use Rattle.std.specs.Prelude.{min};
    ghost use Rattle.pol_tables.specs.Named.{AreNoted};
    ghost use Rattle.pol_tables.specs.Table.{TableValue};

    ghost Value = { TableValue R };

    ghost view = { λ named. record { rows = named.table.rows; room = min named.table.room named.index.room } };

    ghost invariant = { λ named. AreNoted R.key R.number named.index named.table.rows };
}

impl<R: Named> NamedTable<R> {
    /// No rows, and no memory taken.
    pub fn new(alloc: Global) -> Self
        ensures { result.rows ≡ [] }
    {
        NamedTable {
            table: Table::new(alloc),
            index: Index::new(alloc),
        }
    }

    pub fn len(&self) -> usize
        ensures { result ≡ length self.now.rows }
    {
        self.table.len()
    }

    pub fn is_empty(&self) -> bool
        ensures { IsTrue result ↔ (self.now.rows ≡ []) }
    {
        self.table.is_empty()
    }

    /// The rows, in their order.
    pub fn rows(&self) -> Rows<'_, R>
        ensures rows { result ≡ self.now.rows }
        ensures differ { IdsDiffer R.key self.now.rows }
    {
        self.table.rows()
    }

    /// The row of this id.
    pub fn find(&self, id: u64) -> Option<&R>
        ensures { option_copied result ≡ row_of R.key id self.now.rows }
    {
        self.table.find(id)
    }

    /// A row of this name, which is the only one where rows of one name stand once. It scans no rows.
    pub fn named<N: NameOf<R>>(&self, name: &N) -> Option<&R>
        ensures { Finds R.key (N.names name.now) self.now.rows (option_copied result) }
    {
        let _rows = self.table.rows();
        match first_named(&self.table, &self.index, name) {
            Some(row) => Some(row),
            None => other_named(&self.table, self.index.others(), name),
        }
    }

    /// Makes room for `more` rows, so that putting as many takes no memory. On an error the rows stay, and the room
    /// does not shrink.
    pub fn reserve(&mut self, more: usize) -> Result<(), OutOfMemory>
        ensures rows { self.new.rows ≡ self.old.rows }
        ensures reserved { OnOk result (more ≤ self.new.room) }
        ensures succeeds { more ≤ self.old.room → IsOk result }
        ensures room { self.old.room ≤ self.new.room }
    {
        self.table.reserve(more)?;
        self.index.reserve(more)
    }

    /// Puts a row, and takes no memory: a new id goes last, and a known id's row is replaced in its place.
    pub fn put(&mut self, row: R)
        requires { 0 < self.old.room }
        ensures rows { self.new.rows ≡ rows_with R.key row self.old.rows }
        ensures room { self.old.room ≤ self.new.room + 1 }
    {
        let id = row.key();
        forget(&self.table, &mut self.index, id);
        self.index.note(IndexEntry {
            number: row.number(),
            id,
        });
        self.table.put(row);
    }

    /// Takes the row of this id away. The others keep their order.
    pub fn take(&mut self, id: u64) -> Option<R>
        ensures taken { result ≡ row_of R.key id self.old.rows }
        ensures rows { self.new.rows ≡ rows_without R.key id self.old.rows }
        ensures room { self.old.room ≤ self.new.room }
    {
        forget(&self.table, &mut self.index, id);
        self.table.take(id)
    }
}

impl<R: Named> Clone for NamedTable<R> {
    ghost is_clone = { λ source clone. clone.rows ≡ source.rows };

    fn clone(&self) -> Result<Self, AllocError> {
        let table = self.table.clone()?;
        let index = self.index.clone()?;
        Ok(NamedTable { table, index })
    }
}

/// The row of the first id under the name's number, where it has the name.
fn first_named<'a, R: Named, N: NameOf<R>>(
    table: &'a Table<R>,
    index: &Index,
    name: &N,
) -> Option<&'a R>
    ensures found { FindsOr R.key (N.names name.now)
        (IsMissedFirst R.key (N.names name.now) table.now.rows
        (row_of entry_number (N.numbered name.now) index.now.firsts)) table.now.rows (option_copied result) }
    ensures differ { IdsDiffer entry_number index.now.firsts }
{
    match index.first(name.number()) {
        Some(noted) => named_by(table, name, noted.id),
        None => None,
    }
}

/// The row of one of the other ids, where it has the name.
fn other_named<'a, R: Named, N: NameOf<R>>(
    table: &'a Table<R>,
    others: &[IndexEntry],
    name: &N,
) -> Option<&'a R>
    ensures { FindsOr R.key (N.names name.now)
        (AllByRecursion (IsMissed R.key (N.names name.now) table.now.rows) others.now) table.now.rows
        (option_copied result) }
{
    for noted in others {
        if let Some(row) = named_by(table, name, noted.id) {
            return Some(row);
        }
    }
    None
}

/// The row of this id, where it has the name.
fn named_by<'a, R: Named, N: NameOf<R>>(table: &'a Table<R>, name: &N, id: u64) -> Option<&'a R>
    ensures { FindsOr R.key (N.names name.now)
        (named_row R.key (N.names name.now) table.now.rows id ≡ None) table.now.rows (option_copied result) }
{
    let row = table.find(id)?;
    if name.names(row) {
        return Some(row);
    }
    None
}

/// Forgets the name of the row of this id.
fn forget<R: Named>(table: &Table<R>, index: &mut Index, id: u64)
    ensures others { (noted : IndexEntry) → noted.id ≢ id → is_noted noted index.new ≡ is_noted noted index.old }
    ensures room { index.old.room ≤ index.new.room }
{
    if let Some(row) = table.find(id) {
        index.forget(&IndexEntry {
            number: row.number(),
            id,
        });
    }
}
