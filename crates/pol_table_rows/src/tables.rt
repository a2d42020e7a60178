ghost use Rattle.std.specs.Prelude.{◌≡◌, ◌<◌, ◌≤◌, ◌+◌, [], filter, map, nat_eq, IfOk, IsOk, OnOk, option_copied};
ghost use Rattle.pol_tables.specs.Named.{Finds};
ghost use Rattle.pol_tables.specs.Rising.{KeysRise};
ghost use Rattle.pol_tables.specs.Table.{row_of, rows_with, rows_without};
ghost use Rattle.pol_table_rows.specs.Tables.{TableNamesDiffer, holds_table, is_table_named, overlapping, stays_at, table_id, table_named, tables_in};

use crate::{Places, TableName, TablePut, TableRow};
use pol_locations::Location;
use pol_names::Name;
use pol_tables::{Rows, sorted_rows};
use pol_tallies::GroupedTable;
use pol_types::OutOfMemory;
use std::alloc::{AllocError, Global};
use std::marker::Model;

/// Tables, each found by its id and by its namespace and name, with the locations of all of them. Contracts see the
/// rows, and the room: how many more can be put without taking memory.
#[derive(Drop)]
pub struct Tables {
    rows: GroupedTable<TableRow>,
    places: Places,
}

impl Model for Tables {
    ghost use Rattle.std.specs.Prelude.{min};
    ghost use Rattle.pol_table_rows.specs.Tables.{ArePlaced, TablesValue};

    ghost Value = { TablesValue };

    ghost view = { λ tables. record { rows = tables.rows.rows; room = min tables.rows.room tables.places.room } };

    ghost invariant = { λ tables. ArePlaced tables.places.members tables.rows.rows };
}

impl Tables {
    /// No rows, and no memory taken.
    pub fn new(alloc: Global) -> Self
        ensures { result.rows ≡ [] }
    {
        Tables {
            rows: GroupedTable::new(alloc),
            places: Places::new(alloc),
        }
    }

    /// The rows, in the order in which they were put.
    pub fn rows(&self) -> Rows<'_, TableRow>
        ensures { result ≡ self.now.rows }
    {
        self.rows.rows()
    }

    /// The table of this id.
    pub fn find(&self, id: u64) -> Option<&TableRow>
        ensures { option_copied result ≡ row_of table_id id self.now.rows }
    {
        self.rows.find(id)
    }

    /// The table of this namespace and name. It scans no rows.
    pub fn named(&self, namespace: u64, name: &Name) -> Option<&TableRow>
        ensures found { Finds table_id (is_table_named namespace name.now) self.now.rows (option_copied result) }
        ensures first { TableNamesDiffer self.now.rows
            → option_copied result ≡ table_named namespace name.now self.now.rows }
    {
        self.rows.named(&TableName { namespace, name })
    }

    /// The tables of a namespace, in byte order of their names.
    pub fn in_namespace(&self, alloc: Global, namespace: u64) -> Result<Vec<&TableRow>, OutOfMemory>
        ensures { IfOk result (λ found. map (λ row. row.now) found.items ≡ tables_in namespace self.now.rows) }
    {
        sorted_rows(rows_in(alloc, self.rows.rows(), namespace)?)
    }

    /// Whether a namespace has a table. It scans no rows.
    #[tactic(auto, using(pol_tallies::proofs::GroupedLemmas::any_of_one))]
    pub fn any_in(&self, namespace: u64) -> bool
        ensures { result ≡ holds_table namespace self.now.rows }
    {
        self.rows.any_of(namespace)
    }

    /// The table of the least id outside `except` whose location overlaps the wanted one. It looks at the locations near
    /// it alone.
    pub fn overlapping(&self, wanted: &Location, except: &[u64]) -> Option<&TableRow>
        ensures { KeysRise table_id self.now.rows
            → option_copied result ≡ overlapping wanted.now except.now self.now.rows }
    {
        let id = self.places.clash(wanted, except)?;
        self.rows.find(id)
    }

    /// Makes room for `more` tables, so that putting as many takes no memory. On an error the rows stay, and the room
    /// does not shrink.
    pub fn reserve(&mut self, more: usize) -> Result<(), OutOfMemory>
        ensures rows { self.new.rows ≡ self.old.rows }
        ensures reserved { OnOk result (more ≤ self.new.room) }
        ensures succeeds { more ≤ self.old.room → IsOk result }
        ensures room { self.old.room ≤ self.new.room }
    {
        self.rows.reserve(more)?;
        self.places.reserve(more)
    }

    /// Puts a table, and takes no memory: a new id goes last, and a known id's row is replaced in its place. Only where a
    /// known table moves, it goes over all locations.
    pub fn put(&mut self, table: TablePut)
        requires { 0 < self.old.room }
        ensures rows { self.new.rows ≡ rows_with table_id table self.old.rows }
        ensures room { self.old.room ≤ self.new.room + 1 }
    {
        let (row, place) = table.into_parts();
        let _differ = self.rows.rows();
        let known = self.rows.find(row.id);
        if known.is_none() {
            self.places.add(row.id, place);
        } else if !stays_at(known, &place) {
            self.places.put(row.id, place);
        }
        self.rows.put(row);
    }

    /// Takes the table of this id away, and takes no memory.
    pub fn take(&mut self, id: u64)
        ensures rows { self.new.rows ≡ rows_without table_id id self.old.rows }
        ensures room { self.old.room ≤ self.new.room }
    {
        self.places.take(id);
        self.rows.take(id);
    }
}

impl Clone for Tables {
    ghost is_clone = { λ source clone. clone.rows ≡ source.rows };

    fn clone(&self) -> Result<Self, AllocError> {
        let rows = self.rows.clone()?;
        let places = self.places.clone()?;
        Ok(Tables { rows, places })
    }
}

/// Whether there is a table, and it lies at the location.
fn stays_at(known: Option<&TableRow>, place: &Location) -> bool
    ensures { result ≡ stays_at place.now (option_copied known.entry) }
{
    known.is_some_and(|known| known.location == *place)
}

/// Those of the tables that are in the namespace.
fn rows_in<'a>(
    alloc: Global,
    rows: Rows<'a, TableRow>,
    namespace: u64,
) -> Result<Vec<&'a TableRow>, AllocError>
    ensures { IfOk result (λ found.
        map (λ row. row.now) found.items ≡ filter (λ row. nat_eq row.namespace namespace) rows.entry) }
{
    rows.filter(|row| row.namespace == namespace).collect(alloc)
}
