ghost use Rattle.std.specs.Prelude.{◌≡◌, ◌<◌, ◌≤◌, ◌+◌, [], filter, is_some, map, nat_eq, IfOk, IsOk, OnOk, option_copied};
ghost use Rattle.std.specs.List.{list_any};
ghost use Rattle.pol_tables.specs.Named.{Finds};
ghost use Rattle.pol_tables.specs.Table.{row_of, rows_with, rows_without};
ghost use Rattle.pol_content.specs.Order.{by_levels, by_name};
ghost use Rattle.pol_content.specs.Content.{CatalogNamesDiffer, NamespaceNamesDiffer, catalog_id, catalog_is_empty, catalog_named, children, first_missing, is_catalog_named, is_child, is_child_of, is_empty, is_missing, is_namespace_named, lies_below, namespace_id, namespace_named, none_below, part_named};
ghost use Rattle.pol_table_rows.specs.Tables.{TableNamesDiffer, is_table_named, overlapping, table_id, table_named, tables_in};
ghost use Rattle.pol_tables.specs.Rising.{KeysRise};
ghost use Rattle.pol_view_rows.specs.Views.{ViewNamesDiffer, holds_view, is_view_named, view_id, view_named, views_in};

use crate::{CatalogRow, NamespaceName, NamespaceRow};
use pol_locations::Location;
use pol_names::{Name, Namespace, Plain};
use pol_table_rows::{TablePut, TableRow, Tables};
use pol_tables::{Named, NamedTable, Rows, rows_in_order, sorted_rows};
use pol_tallies::GroupedTable;
use pol_types::OutOfMemory;
use pol_view_rows::{ViewName, ViewRow, views_in};
use std::alloc::{AllocError, Global};
use std::marker::Model;

/// Catalogues, their namespaces, and the tables and views in these, each found by its id and by its name. Contracts see
/// the rows, and the room: how many more can be put without taking memory.
#[derive(Drop)]
pub struct Content {
    catalogs: NamedTable<CatalogRow>,
    namespaces: GroupedTable<NamespaceRow>,
    tables: Tables,
    views: GroupedTable<ViewRow>,
}

impl Model for Content {
    ghost use Rattle.pol_content.specs.Content.{ContentValue};

    ghost Value = { ContentValue };

    ghost view = { λ content. record {
      rows = record {
        catalogs = content.catalogs.rows;
        namespaces = content.namespaces.rows;
        tables = content.tables.rows;
        views = content.views.rows;
      };
      room = record {
        catalogs = content.catalogs.room;
        namespaces = content.namespaces.room;
        tables = content.tables.room;
        views = content.views.room;
      };
    } };
}

impl Content {
    /// No rows, and no memory taken.
    pub fn new(alloc: Global) -> Self
        ensures { result.rows ≡ record { catalogs = []; namespaces = []; tables = []; views = [] } }
    {
        Content {
            catalogs: NamedTable::new(alloc),
            namespaces: GroupedTable::new(alloc),
            tables: Tables::new(alloc),
            views: GroupedTable::new(alloc),
        }
    }

    /// The catalogue of this name. It scans no rows.
    pub fn catalogue(&self, name: &Plain) -> Option<&CatalogRow>
        ensures found { Finds catalog_id (is_catalog_named name.now) self.now.rows.catalogs (option_copied result) }
        ensures first { CatalogNamesDiffer self.now.rows.catalogs
            → option_copied result ≡ catalog_named name.now self.now.rows }
    {
        self.catalogs.named(name)
    }

    /// The catalogue of this id.
    pub fn catalog_of(&self, id: u64) -> Option<&CatalogRow>
        ensures { option_copied result ≡ row_of catalog_id id self.now.rows.catalogs }
    {
        self.catalogs.find(id)
    }

    /// The catalogues, in the order in which they were put.
    pub fn catalogs(&self) -> Rows<'_, CatalogRow>
        ensures { result ≡ self.now.rows.catalogs }
    {
        self.catalogs.rows()
    }

    /// The catalogues in byte order of their names.
    pub fn catalogs_by_name(&self, alloc: Global) -> Result<Vec<&CatalogRow>, OutOfMemory>
        ensures { IfOk result (λ listed. map (λ row. row.now) listed.items ≡ by_name self.now.rows.catalogs) }
    {
        rows_in_order(alloc, self.catalogs.rows())
    }

    /// The namespace of this catalogue with these levels. It scans no rows.
    pub fn namespace(&self, catalog: u64, levels: &Namespace) -> Option<&NamespaceRow>
        ensures found { Finds namespace_id (is_namespace_named catalog levels.now) self.now.rows.namespaces
            (option_copied result) }
        ensures first { NamespaceNamesDiffer self.now.rows.namespaces
            → option_copied result ≡ namespace_named catalog levels.now self.now.rows }
    {
        self.namespaces.named(&NamespaceName { catalog, levels })
    }

    /// The namespace of this id.
    pub fn namespace_of(&self, id: u64) -> Option<&NamespaceRow>
        ensures { option_copied result ≡ row_of namespace_id id self.now.rows.namespaces }
    {
        self.namespaces.find(id)
    }

    /// The namespaces, in the order in which they were put.
    pub fn namespaces(&self) -> Rows<'_, NamespaceRow>
        ensures { result ≡ self.now.rows.namespaces }
    {
        self.namespaces.rows()
    }

    /// The first namespace that the catalogue doesn't have of those in which this one stands, by rising length, and
    /// then itself; `None` where all are there. It scans no rows.
    pub fn first_missing(
        &self,
        alloc: Global,
        catalog: u64,
        levels: &Namespace,
    ) -> Result<Option<Namespace>, OutOfMemory>
        ensures { IfOk result (λ missing. missing ≡ first_missing catalog levels.now self.now.rows) }
    {
        for depth in 0..levels.levels().len() {
            let path = levels.ancestor(alloc, depth + 1)?;
            if self.is_missing(catalog, &path) {
                return Ok(Some(path));
            }
        }
        Ok(None)
    }

    /// Whether no namespace of this catalogue has these levels. It scans no rows.
    fn is_missing(&self, catalog: u64, levels: &Namespace) -> bool
        ensures { result ≡ is_missing catalog self.now.rows levels.now }
    {
        self.namespace(catalog, levels).is_none()
    }

    /// The namespaces of a catalogue that stand directly below the parent, or that have one level where there is
    /// none, in the order of their levels.
    pub fn children(
        &self,
        alloc: Global,
        catalog: u64,
        parent: Option<&Namespace>,
    ) -> Result<Vec<&NamespaceRow>, OutOfMemory>
        ensures { IfOk result (λ found.
            map (λ row. row.now) found.items ≡ children catalog (option_copied parent.entry) self.now.rows) }
    {
        sorted_rows(children_of(alloc, self.namespaces.rows(), catalog, parent)?)
    }

    /// Whether a namespace holds nothing: no namespace stands below it, directly or deeper, and no table and no view is
    /// in it. An id that isn't there has no namespace below it.
    pub fn is_empty(&self, namespace: u64) -> bool
        ensures { result ≡ is_empty namespace self.now.rows }
    {
        self.none_below(namespace) && !self.tables.any_in(namespace) && !self.any_view_in(namespace)
    }

    /// Whether no namespace stands below this one, directly or deeper.
    fn none_below(&self, namespace: u64) -> bool
        ensures { let rows = self.now.rows.namespaces in
            result ≡ none_below (row_of namespace_id namespace rows) rows }
    {
        match self.namespaces.find(namespace) {
            Some(upper) => !self.any_below(upper),
            None => true,
        }
    }

    /// Whether a namespace stands below this one, directly or deeper. It goes over the namespaces only where one stands
    /// in a namespace of this one's number.
    fn any_below(&self, upper: &NamespaceRow) -> bool
        ensures { result ≡ list_any (lies_below upper.now) self.now.rows.namespaces }
    {
        let _named = upper.levels.levels();
        self.namespaces.any_of(upper.number()) && any_below(upper, self.namespaces.rows())
    }

    /// Whether a view is in the namespace. It scans no rows.
    #[tactic(auto, using(pol_tallies::proofs::GroupedLemmas::any_of_one))]
    fn any_view_in(&self, namespace: u64) -> bool
        ensures { result ≡ holds_view namespace self.now.rows.views }
    {
        self.views.any_of(namespace)
    }

    /// Whether no namespace has this catalogue.
    pub fn catalog_is_empty(&self, catalog: u64) -> bool
        ensures { result ≡ catalog_is_empty catalog self.now.rows }
    {
        !any_of_catalog(catalog, self.namespaces.rows())
    }

    /// The table of this namespace with this name. It scans no rows.
    pub fn table(&self, namespace: u64, name: &Name) -> Option<&TableRow>
        ensures found { Finds table_id (is_table_named namespace name.now) self.now.rows.tables
            (option_copied result) }
        ensures first { TableNamesDiffer self.now.rows.tables
            → option_copied result ≡ table_named namespace name.now self.now.rows.tables }
    {
        self.tables.named(namespace, name)
    }

    /// The table of this id.
    pub fn table_of(&self, id: u64) -> Option<&TableRow>
        ensures { option_copied result ≡ row_of table_id id self.now.rows.tables }
    {
        self.tables.find(id)
    }

    /// The tables, in the order in which they were put.
    pub fn tables(&self) -> Rows<'_, TableRow>
        ensures { result ≡ self.now.rows.tables }
    {
        self.tables.rows()
    }

    /// The tables of a namespace, in byte order of their names.
    pub fn tables_in(&self, alloc: Global, namespace: u64) -> Result<Vec<&TableRow>, OutOfMemory>
        ensures { IfOk result (λ found.
            map (λ row. row.now) found.items ≡ tables_in namespace self.now.rows.tables) }
    {
        self.tables.in_namespace(alloc, namespace)
    }

    /// The table of the least id outside `except` whose location overlaps the wanted one, in whatever catalogue it is.
    pub fn overlapping(&self, wanted: &Location, except: &[u64]) -> Option<&TableRow>
        ensures { KeysRise table_id self.now.rows.tables
            → option_copied result ≡ overlapping wanted.now except.now self.now.rows.tables }
    {
        self.tables.overlapping(wanted, except)
    }

    /// The view of this namespace with this name. It scans no rows.
    pub fn view(&self, namespace: u64, name: &Name) -> Option<&ViewRow>
        ensures found { Finds view_id (is_view_named namespace name.now) self.now.rows.views (option_copied result) }
        ensures first { ViewNamesDiffer self.now.rows.views
            → option_copied result ≡ view_named namespace name.now self.now.rows.views }
    {
        self.views.named(&ViewName { namespace, name })
    }

    /// The view of this id.
    pub fn view_of(&self, id: u64) -> Option<&ViewRow>
        ensures { option_copied result ≡ row_of view_id id self.now.rows.views }
    {
        self.views.find(id)
    }

    /// The views, in the order in which they were put.
    pub fn views(&self) -> Rows<'_, ViewRow>
        ensures { result ≡ self.now.rows.views }
    {
        self.views.rows()
    }

    /// The views of a namespace, in byte order of their names.
    pub fn views_in(&self, alloc: Global, namespace: u64) -> Result<Vec<&ViewRow>, OutOfMemory>
        ensures { IfOk result (λ found.
            map (λ row. row.now) found.items ≡ views_in namespace self.now.rows.views) }
    {
        views_in(alloc, self.views.rows(), namespace)
    }

    /// Whether a table or a view of the namespace has the name. It scans no rows.
    #[tactic(auto, using(crate::proofs::NamesLemmas::mapped_some))]
    pub fn has_part(&self, namespace: u64, name: &Name) -> bool
        ensures { TableNamesDiffer self.now.rows.tables → ViewNamesDiffer self.now.rows.views
            → result ≡ is_some (part_named namespace name.now self.now.rows) }
    {
        match self.table(namespace, name) {
            Some(_) => true,
            None => self.view(namespace, name).is_some(),
        }
    }

    /// Makes room for `more` catalogues, so that putting as many takes no memory. On an error the rows stay, and the
    /// room does not shrink.
    pub fn reserve_catalogs(&mut self, more: usize) -> Result<(), OutOfMemory>
        ensures rows { self.new.rows ≡ self.old.rows }
        ensures reserved { OnOk result (more ≤ self.new.room.catalogs) }
        ensures succeeds { more ≤ self.old.room.catalogs → IsOk result }
        ensures room { self.old.room.catalogs ≤ self.new.room.catalogs }
        ensures namespaces { self.new.room.namespaces ≡ self.old.room.namespaces }
        ensures tables { self.new.room.tables ≡ self.old.room.tables }
        ensures views { self.new.room.views ≡ self.old.room.views }
    {
        self.catalogs.reserve(more)
    }

    /// Makes room for `more` namespaces, so that putting as many takes no memory. On an error the rows stay, and the
    /// room does not shrink.
    pub fn reserve_namespaces(&mut self, more: usize) -> Result<(), OutOfMemory>
        ensures rows { self.new.rows ≡ self.old.rows }
        ensures reserved { OnOk result (more ≤ self.new.room.namespaces) }
        ensures succeeds { more ≤ self.old.room.namespaces → IsOk result }
        ensures room { self.old.room.namespaces ≤ self.new.room.namespaces }
        ensures catalogs { self.new.room.catalogs ≡ self.old.room.catalogs }
        ensures tables { self.new.room.tables ≡ self.old.room.tables }
        ensures views { self.new.room.views ≡ self.old.room.views }
    {
        self.namespaces.reserve(more)
    }

    /// Makes room for `more` tables, so that putting as many takes no memory. On an error the rows stay, and the room
    /// does not shrink.
    pub fn reserve_tables(&mut self, more: usize) -> Result<(), OutOfMemory>
        ensures rows { self.new.rows ≡ self.old.rows }
        ensures reserved { OnOk result (more ≤ self.new.room.tables) }
        ensures succeeds { more ≤ self.old.room.tables → IsOk result }
        ensures room { self.old.room.tables ≤ self.new.room.tables }
        ensures catalogs { self.new.room.catalogs ≡ self.old.room.catalogs }
        ensures namespaces { self.new.room.namespaces ≡ self.old.room.namespaces }
        ensures views { self.new.room.views ≡ self.old.room.views }
    {
        self.tables.reserve(more)
    }

    /// Puts a catalogue, and takes no memory: a new id goes last, and a known id's row is replaced in its place.
    pub fn put_catalog(&mut self, row: CatalogRow)
        requires { 0 < self.old.room.catalogs }
        ensures rows { self.new.rows
            ≡ record self.old.rows { catalogs = rows_with catalog_id row self.old.rows.catalogs } }
        ensures room { self.old.room.catalogs ≤ self.new.room.catalogs + 1 }
        ensures namespaces { self.new.room.namespaces ≡ self.old.room.namespaces }
        ensures tables { self.new.room.tables ≡ self.old.room.tables }
        ensures views { self.new.room.views ≡ self.old.room.views }
    {
        self.catalogs.put(row)
    }

    /// Takes the catalogue of this id away, and takes no memory. Its namespaces stay.
    pub fn drop_catalog(&mut self, id: u64)
        ensures rows { self.new.rows
            ≡ record self.old.rows { catalogs = rows_without catalog_id id self.old.rows.catalogs } }
        ensures room { self.old.room.catalogs ≤ self.new.room.catalogs }
        ensures namespaces { self.new.room.namespaces ≡ self.old.room.namespaces }
        ensures tables { self.new.room.tables ≡ self.old.room.tables }
        ensures views { self.new.room.views ≡ self.old.room.views }
    {
        self.catalogs.take(id);
    }

    /// Puts a namespace, and takes no memory: a new id goes last, and a known id's row is replaced in its place.
    pub fn put_namespace(&mut self, row: NamespaceRow)
        requires { 0 < self.old.room.namespaces }
        ensures rows { self.new.rows
            ≡ record self.old.rows { namespaces = rows_with namespace_id row self.old.rows.namespaces } }
        ensures room { self.old.room.namespaces ≤ self.new.room.namespaces + 1 }
        ensures catalogs { self.new.room.catalogs ≡ self.old.room.catalogs }
        ensures tables { self.new.room.tables ≡ self.old.room.tables }
        ensures views { self.new.room.views ≡ self.old.room.views }
    {
        self.namespaces.put(row)
    }

    /// Takes the namespace of this id away, and takes no memory. Those below it, its tables and its views stay.
    pub fn drop_namespace(&mut self, id: u64)
        ensures rows { self.new.rows
            ≡ record self.old.rows { namespaces = rows_without namespace_id id self.old.rows.namespaces } }
        ensures room { self.old.room.namespaces ≤ self.new.room.namespaces }
        ensures catalogs { self.new.room.catalogs ≡ self.old.room.catalogs }
        ensures tables { self.new.room.tables ≡ self.old.room.tables }
        ensures views { self.new.room.views ≡ self.old.room.views }
    {
        self.namespaces.take(id);
    }

    /// Puts a table, and takes no memory: a new id goes last, and a known id's row is replaced in its place.
    pub fn put_table(&mut self, table: TablePut)
        requires { 0 < self.old.room.tables }
        ensures rows { self.new.rows
            ≡ record self.old.rows { tables = rows_with table_id table self.old.rows.tables } }
        ensures room { self.old.room.tables ≤ self.new.room.tables + 1 }
        ensures catalogs { self.new.room.catalogs ≡ self.old.room.catalogs }
        ensures namespaces { self.new.room.namespaces ≡ self.old.room.namespaces }
        ensures views { self.new.room.views ≡ self.old.room.views }
    {
        self.tables.put(table);
    }

    /// Takes the table of this id away, and takes no memory.
    pub fn drop_table(&mut self, id: u64)
        ensures rows { self.new.rows
            ≡ record self.old.rows { tables = rows_without table_id id self.old.rows.tables } }
        ensures room { self.old.room.tables ≤ self.new.room.tables }
        ensures catalogs { self.new.room.catalogs ≡ self.old.room.catalogs }
        ensures namespaces { self.new.room.namespaces ≡ self.old.room.namespaces }
        ensures views { self.new.room.views ≡ self.old.room.views }
    {
        self.tables.take(id);
    }

    /// Makes room for `more` views, so that putting as many takes no memory. On an error the rows stay, and the room
    /// does not shrink.
    pub fn reserve_views(&mut self, more: usize) -> Result<(), OutOfMemory>
        ensures rows { self.new.rows ≡ self.old.rows }
        ensures reserved { OnOk result (more ≤ self.new.room.views) }
        ensures succeeds { more ≤ self.old.room.views → IsOk result }
        ensures room { self.old.room.views ≤ self.new.room.views }
        ensures catalogs { self.new.room.catalogs ≡ self.old.room.catalogs }
        ensures namespaces { self.new.room.namespaces ≡ self.old.room.namespaces }
        ensures tables { self.new.room.tables ≡ self.old.room.tables }
    {
        self.views.reserve(more)
    }

    /// Puts a view, and takes no memory: a new id goes last, and a known id's row is replaced in its place.
    pub fn put_view(&mut self, row: ViewRow)
        requires { 0 < self.old.room.views }
        ensures rows { self.new.rows
            ≡ record self.old.rows { views = rows_with view_id row self.old.rows.views } }
        ensures room { self.old.room.views ≤ self.new.room.views + 1 }
        ensures catalogs { self.new.room.catalogs ≡ self.old.room.catalogs }
        ensures namespaces { self.new.room.namespaces ≡ self.old.room.namespaces }
        ensures tables { self.new.room.tables ≡ self.old.room.tables }
    {
        self.views.put(row)
    }

    /// Takes the view of this id away, and takes no memory.
    pub fn drop_view(&mut self, id: u64)
        ensures rows { self.new.rows
            ≡ record self.old.rows { views = rows_without view_id id self.old.rows.views } }
        ensures room { self.old.room.views ≤ self.new.room.views }
        ensures catalogs { self.new.room.catalogs ≡ self.old.room.catalogs }
        ensures namespaces { self.new.room.namespaces ≡ self.old.room.namespaces }
        ensures tables { self.new.room.tables ≡ self.old.room.tables }
    {
        self.views.take(id);
    }
}

impl Clone for Content {
    ghost is_clone = { λ source clone. clone.rows ≡ source.rows };

    fn clone(&self) -> Result<Self, AllocError> {
        let catalogs = self.catalogs.clone()?;
        let namespaces = self.namespaces.clone()?;
        let tables = self.tables.clone()?;
        let views = self.views.clone()?;
        Ok(Content {
            catalogs,
            namespaces,
            tables,
            views,
        })
    }
}

/// Those of the namespaces that have the catalogue and stand directly below the parent.
fn children_of<'a>(
    alloc: Global,
    rows: Rows<'a, NamespaceRow>,
    catalog: u64,
    parent: Option<&Namespace>,
) -> Result<Vec<&'a NamespaceRow>, AllocError>
    ensures { IfOk result (λ found.
        map (λ row. row.now) found.items ≡ filter (is_child_of catalog (option_copied parent.entry)) rows.entry) }
{
    rows.filter(|row| is_child_of(catalog, parent, row))
        .collect(alloc)
}

/// Whether the namespace has the catalogue and stands directly below the parent.
fn is_child_of(catalog: u64, parent: Option<&Namespace>, row: &NamespaceRow) -> bool
    ensures { result ≡ is_child_of catalog (option_copied parent.entry) row.now }
{
    row.catalog == catalog && is_child(parent, &row.levels)
}

/// Whether the levels are one more than the parent's; where there is no parent, whether they are one.
fn is_child(parent: Option<&Namespace>, levels: &Namespace) -> bool
    ensures { result ≡ is_child (option_copied parent.entry) levels.now }
{
    match parent {
        Some(parent) => parent.is_parent_of(levels),
        None => levels.levels().len() == 1,
    }
}

/// Whether one of the namespaces stands below another one, directly or deeper.
fn any_below(upper: &NamespaceRow, mut rows: Rows<'_, NamespaceRow>) -> bool
    ensures { result ≡ list_any (lies_below upper.now) rows.entry }
{
    rows.any(|row| lies_below(upper, row))
}

/// Whether one of the namespaces has the catalogue.
fn any_of_catalog(catalog: u64, mut rows: Rows<'_, NamespaceRow>) -> bool
    ensures { result ≡ list_any (λ row. nat_eq row.catalog catalog) rows.entry }
{
    rows.any(|row| row.catalog == catalog)
}

/// Whether a namespace stands below another one, directly or deeper.
fn lies_below(upper: &NamespaceRow, row: &NamespaceRow) -> bool
    ensures { result ≡ lies_below upper.now row.now }
{
    row.catalog == upper.catalog
        && upper.levels.levels().len() < row.levels.levels().len()
        && row.levels.levels().starts_with(upper.levels.levels())
}
