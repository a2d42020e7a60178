ghost use Rattle.std.specs.Prelude.{◌≡◌, ◌<◌, ◌≤◌, ◌+◌, ◌≢◌, [], None, IsOk, OnOk, option_copied};
ghost use Rattle.std.specs.List.{AllByRecursion};
ghost use Rattle.pol_access.specs.Access.{principal_id};
ghost use Rattle.pol_access.specs.Names.{client_number, has_client_id, has_name, text_number};
ghost use Rattle.pol_tables.specs.Index.{is_noted, entry_number};
ghost use Rattle.pol_tables.specs.Named.{Finds, FindsOr, IsMissed, IsMissedFirst, named_row};
ghost use Rattle.pol_tables.specs.Table.{row_of, rows_with, rows_without, IdsDiffer};
ghost use Rattle.pol_tables.specs.declared.index.IndexEntry.{IndexEntry};

use crate::PrincipalRow;
use crate::names::{PrincipalName, text_number};
use pol_tables::{Index, IndexEntry, NamedTable, Rows};
use pol_types::OutOfMemory;
use std::alloc::{AllocError, Global};
use std::marker::Model;

/// Principals in the order in which their ids came, each found by its id, by its name and by its client id without a
/// scan. Contracts see the rows, and the room: how many more rows can be put without taking memory.
#[derive(Drop)]
pub(crate) struct Principals {
    table: NamedTable<PrincipalRow>,
    clients: Index,
}

impl Model for Principals {
    ghost use Rattle.std.specs.Prelude.{min};
    ghost use Rattle.pol_access.specs.Access.{principal_id};
    ghost use Rattle.pol_access.specs.Names.{client_number};
    ghost use Rattle.pol_access.specs.declared.rows.PrincipalRow.{PrincipalRow};
    ghost use Rattle.pol_tables.specs.Named.{AreNoted};
    ghost use Rattle.pol_tables.specs.Table.{TableValue};

    ghost Value = { TableValue PrincipalRow };

    ghost view = { λ principals. record {
      rows = principals.table.rows;
      room = min principals.table.room principals.clients.room;
    } };

    ghost invariant = { λ principals. AreNoted principal_id client_number principals.clients principals.table.rows };
}

impl Principals {
    /// No rows, and no memory taken.
    pub fn new(alloc: Global) -> Self
        ensures { result.rows ≡ [] }
    {
        Principals {
            table: NamedTable::new(alloc),
            clients: Index::new(alloc),
        }
    }

    /// The rows, in their order.
    pub fn rows(&self) -> Rows<'_, PrincipalRow>
        ensures { result ≡ self.now.rows }
    {
        self.table.rows()
    }

    /// The row of this id.
    pub fn find(&self, id: u64) -> Option<&PrincipalRow>
        ensures { option_copied result ≡ row_of principal_id id self.now.rows }
    {
        self.table.find(id)
    }

    /// A row of this name, which is the only one where rows of one name stand once.
    pub fn named(&self, name: &str) -> Option<&PrincipalRow>
        ensures { Finds principal_id (has_name name.now) self.now.rows (option_copied result) }
    {
        self.table.named(&PrincipalName(name))
    }

    /// A row of this client id, which is the only one where rows of one client id stand once.
    pub fn of_client(&self, client_id: &str) -> Option<&PrincipalRow>
        ensures { Finds principal_id (has_client_id client_id.now) self.now.rows (option_copied result) }
    {
        let _rows = self.table.rows();
        match first_client(&self.table, &self.clients, client_id) {
            Some(row) => Some(row),
            None => other_client(&self.table, self.clients.others(), client_id),
        }
    }

    /// Makes room for `more` rows, so that putting as many takes no memory. On an error the rows stay, and the room
    /// does not shrink.
    pub fn reserve(&mut self, more: usize) -> Result<(), OutOfMemory>
        ensures rows { self.new.rows ≡ self.old.rows }
        ensures reserved { OnOk result (more ≤ self.new.room) }
        ensures succeeds { more ≤ self.old.room → IsOk result }
        ensures room { self.old.room ≤ self.new.room }
    {
        self.table.reserve(more)?;
        self.clients.reserve(more)
    }

    /// Puts a row, and takes no memory: a new id goes last, and a known id's row is replaced in its place.
    pub fn put(&mut self, row: PrincipalRow)
        requires { 0 < self.old.room }
        ensures rows { self.new.rows ≡ rows_with principal_id row self.old.rows }
        ensures room { self.old.room ≤ self.new.room + 1 }
    {
        forget_client(&self.table, &mut self.clients, row.id);
        self.clients.note(IndexEntry {
            number: text_number(row.client_id.as_str()),
            id: row.id,
        });
        self.table.put(row);
    }

    /// Takes the row of this id away. The others keep their order.
    pub fn take(&mut self, id: u64)
        ensures rows { self.new.rows ≡ rows_without principal_id id self.old.rows }
        ensures room { self.old.room ≤ self.new.room }
    {
        forget_client(&self.table, &mut self.clients, id);
        self.table.take(id);
    }
}

impl Clone for Principals {
    ghost is_clone = { λ source clone. clone.rows ≡ source.rows };

    fn clone(&self) -> Result<Self, AllocError> {
        let table = self.table.clone()?;
        let clients = self.clients.clone()?;
        Ok(Principals { table, clients })
    }
}

/// The row of the first id under the client id's number, where it has the client id.
fn first_client<'a>(
    table: &'a NamedTable<PrincipalRow>,
    clients: &Index,
    client_id: &str,
) -> Option<&'a PrincipalRow>
    ensures found { FindsOr principal_id (has_client_id client_id.now)
        (IsMissedFirst principal_id (has_client_id client_id.now) table.now.rows
        (row_of entry_number (text_number client_id.now) clients.now.firsts)) table.now.rows (option_copied result) }
    ensures differ { IdsDiffer entry_number clients.now.firsts }
{
    match clients.first(text_number(client_id)) {
        Some(noted) => client_by(table, client_id, noted.id),
        None => None,
    }
}

/// The row of one of the other ids, where it has the client id.
fn other_client<'a>(
    table: &'a NamedTable<PrincipalRow>,
    others: &[IndexEntry],
    client_id: &str,
) -> Option<&'a PrincipalRow>
    ensures { FindsOr principal_id (has_client_id client_id.now)
        (AllByRecursion
        (IsMissed principal_id (has_client_id client_id.now) table.now.rows) others.now) table.now.rows
        (option_copied result) }
{
    for noted in others {
        if let Some(row) = client_by(table, client_id, noted.id) {
            return Some(row);
        }
    }
    None
}

/// The row of this id, where it has the client id.
fn client_by<'a>(
    table: &'a NamedTable<PrincipalRow>,
    client_id: &str,
    id: u64,
) -> Option<&'a PrincipalRow>
    ensures { FindsOr principal_id (has_client_id client_id.now)
        (named_row principal_id (has_client_id client_id.now) table.now.rows id ≡ None) table.now.rows
        (option_copied result) }
{
    let row = table.find(id)?;
    if client_id == row.client_id.as_str() {
        return Some(row);
    }
    None
}

/// Forgets the client id of the row of this id.
fn forget_client(table: &NamedTable<PrincipalRow>, clients: &mut Index, id: u64)
    ensures others { (noted : IndexEntry) → noted.id ≢ id → is_noted noted clients.new ≡ is_noted noted clients.old }
    ensures room { clients.old.room ≤ clients.new.room }
{
    if let Some(row) = table.find(id) {
        clients.forget(&IndexEntry {
            number: text_number(row.client_id.as_str()),
            id,
        });
    }
}
