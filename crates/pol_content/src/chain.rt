ghost use Rattle.std.specs.Prelude.{◌≡◌, ◌++◌, ◌<◌, ◌≤◌, IfOk, IfSome, OnOk, Some, length, option_copied, option_to_list, take};
ghost use Rattle.pol_content.specs.Chain.{chain_of, deepest, deepest_of_table, deepest_of_view, namespace_at, namespace_chain, namespaces_out, table_at, table_chain, uppers_of, view_at, view_chain};
ghost use Rattle.pol_content.specs.Content.{NamespaceNamesDiffer};
ghost use Rattle.pol_table_rows.specs.Tables.{TableNamesDiffer, table_id};
ghost use Rattle.pol_tables.specs.Table.{row_of};
ghost use Rattle.pol_view_rows.specs.Views.{ViewNamesDiffer, view_id};

use crate::{Content, NamespaceRow};
use pol_access::Securable;
use pol_names::{Identifier, Namespace};
use pol_table_rows::TableRow;
use pol_types::OutOfMemory;
use pol_view_rows::ViewRow;
use std::alloc::Global;

impl Content {
    /// The securable and all that contain it, itself first and then outwards: after a table or a view comes its
    /// namespace, and after a namespace come those in which it stands, from the nearest out, and its catalogue. Nothing
    /// contains a catalogue, the realm, or what isn't there. It scans no rows.
    pub fn chain(&self, alloc: Global, of: Securable) -> Result<Vec<Securable>, OutOfMemory>
        ensures { NamespaceNamesDiffer self.now.rows.namespaces
            → IfOk result (λ chain. chain.items ≡ chain_of of self.now.rows) }
    {
        let mut chain = Vec::new(alloc);
        match of {
            Securable::Namespace(id) => self.push_namespace(alloc, id, &mut chain)?,
            Securable::Table(id) => self.push_table(alloc, id, &mut chain)?,
            Securable::View(id) => self.push_view(alloc, id, &mut chain)?,
            Securable::Realm | Securable::Catalog(_) => chain.push(of)?,
        }
        Ok(chain)
    }

    /// Pushes a table and what contains it, from its namespace out.
    fn push_table(
        &self,
        alloc: Global,
        id: u64,
        chain: &mut Vec<Securable>,
    ) -> Result<(), OutOfMemory>
        ensures { NamespaceNamesDiffer self.now.rows.namespaces
            → OnOk result (chain.new.items ≡ chain.old.items ++ table_chain id self.now.rows) }
    {
        chain.push(Securable::Table(id))?;
        if let Some(row) = self.table_of(id) {
            self.push_namespace(alloc, row.namespace, chain)?;
        }
        Ok(())
    }

    /// Pushes a view and what contains it, from its namespace out.
    fn push_view(
        &self,
        alloc: Global,
        id: u64,
        chain: &mut Vec<Securable>,
    ) -> Result<(), OutOfMemory>
        ensures { NamespaceNamesDiffer self.now.rows.namespaces
            → OnOk result (chain.new.items ≡ chain.old.items ++ view_chain id self.now.rows) }
    {
        chain.push(Securable::View(id))?;
        if let Some(row) = self.view_of(id) {
            self.push_namespace(alloc, row.namespace, chain)?;
        }
        Ok(())
    }

    /// Pushes a namespace and what contains it, from the nearest out.
    fn push_namespace(
        &self,
        alloc: Global,
        id: u64,
        chain: &mut Vec<Securable>,
    ) -> Result<(), OutOfMemory>
        ensures { NamespaceNamesDiffer self.now.rows.namespaces
            → OnOk result (chain.new.items ≡ chain.old.items ++ namespace_chain id self.now.rows) }
    {
        chain.push(Securable::Namespace(id))?;
        if let Some(row) = self.namespace_of(id) {
            self.push_uppers(alloc, row, chain)?;
        }
        Ok(())
    }

    /// The deepest part of a path that is there: the namespace of the most of the first levels that the catalogue has,
    /// else the catalogue. It scans no rows.
    pub fn deepest(
        &self,
        alloc: Global,
        catalog: u64,
        levels: &Namespace,
    ) -> Result<Securable, OutOfMemory>
        ensures { NamespaceNamesDiffer self.now.rows.namespaces
            → IfOk result (λ part. part ≡ deepest catalog levels.now self.now.rows) }
    {
        let depth = levels.levels().len();
        for fewer in 0..depth {
            if let Some(namespace) = self.ancestor_at(alloc, catalog, levels, depth - fewer)? {
                return Ok(namespace);
            }
        }
        Ok(Securable::Catalog(catalog))
    }

    /// The table of this name in the namespace of its levels. It scans no rows.
    pub fn table_at(&self, catalog: u64, identifier: &Identifier) -> Option<&TableRow>
        ensures first { NamespaceNamesDiffer self.now.rows.namespaces → TableNamesDiffer self.now.rows.tables
            → option_copied result ≡ table_at catalog identifier.now.namespace identifier.now.name self.now.rows }
        ensures own { IfSome result (λ row. row_of table_id row.now.id self.now.rows.tables ≡ Some row.now) }
    {
        let namespace = self.namespace(catalog, &identifier.namespace)?;
        self.table(namespace.id, &identifier.name)
    }

    /// The deepest part of a table's path that is there: the table, or else that of its namespace's path. It scans no
    /// rows.
    pub fn deepest_of_table(
        &self,
        alloc: Global,
        catalog: u64,
        identifier: &Identifier,
    ) -> Result<Securable, OutOfMemory>
        ensures { let content = self.now.rows in NamespaceNamesDiffer content.namespaces
            → TableNamesDiffer content.tables → IfOk result (λ part.
            part ≡ deepest_of_table catalog identifier.now.namespace identifier.now.name content) }
    {
        if let Some(row) = self.table_at(catalog, identifier) {
            return Ok(Securable::Table(row.id));
        }
        self.deepest(alloc, catalog, &identifier.namespace)
    }

    /// The view of this name in the namespace of its levels. It scans no rows.
    pub fn view_at(&self, catalog: u64, identifier: &Identifier) -> Option<&ViewRow>
        ensures first { NamespaceNamesDiffer self.now.rows.namespaces → ViewNamesDiffer self.now.rows.views
            → option_copied result ≡ view_at catalog identifier.now.namespace identifier.now.name self.now.rows }
        ensures own { IfSome result (λ row. row_of view_id row.now.id self.now.rows.views ≡ Some row.now) }
    {
        let namespace = self.namespace(catalog, &identifier.namespace)?;
        self.view(namespace.id, &identifier.name)
    }

    /// The deepest part of a view's path that is there: the view, or else that of its namespace's path. It scans no
    /// rows.
    pub fn deepest_of_view(
        &self,
        alloc: Global,
        catalog: u64,
        identifier: &Identifier,
    ) -> Result<Securable, OutOfMemory>
        ensures { let content = self.now.rows in NamespaceNamesDiffer content.namespaces
            → ViewNamesDiffer content.views → IfOk result (λ part.
            part ≡ deepest_of_view catalog identifier.now.namespace identifier.now.name content) }
    {
        if let Some(row) = self.view_at(catalog, identifier) {
            return Ok(Securable::View(row.id));
        }
        self.deepest(alloc, catalog, &identifier.namespace)
    }

    /// Pushes what contains a namespace, from the nearest out.
    fn push_uppers(
        &self,
        alloc: Global,
        row: &NamespaceRow,
        chain: &mut Vec<Securable>,
    ) -> Result<(), OutOfMemory>
        ensures { NamespaceNamesDiffer self.now.rows.namespaces
            → OnOk result (chain.new.items ≡ chain.old.items ++ uppers_of row.now self.now.rows) }
    {
        if let Some(parent) = row.levels.parent(alloc)? {
            self.push_namespaces(alloc, row.catalog, &parent, chain)?;
        }
        chain.push(Securable::Catalog(row.catalog))?;
        Ok(())
    }

    /// Pushes the namespace of these levels and those in which it stands, where they are there, from the deepest out.
    fn push_namespaces(
        &self,
        alloc: Global,
        catalog: u64,
        levels: &Namespace,
        chain: &mut Vec<Securable>,
    ) -> Result<(), OutOfMemory>
        ensures { NamespaceNamesDiffer self.now.rows.namespaces
            → OnOk result (chain.new.items ≡ chain.old.items ++ namespaces_out catalog levels.now self.now.rows) }
    {
        let depth = levels.levels().len();
        for fewer in 0..depth {
            let found = self.ancestor_at(alloc, catalog, levels, depth - fewer)?;
            push_found(found, chain)?;
        }
        Ok(())
    }

    /// The namespace of this catalogue with the first of these levels, as a securable.
    fn ancestor_at(
        &self,
        alloc: Global,
        catalog: u64,
        levels: &Namespace,
        depth: usize,
    ) -> Result<Option<Securable>, OutOfMemory>
        requires { (0 < depth) × (depth ≤ length levels.now) }
        ensures { NamespaceNamesDiffer self.now.rows.namespaces
            → IfOk result (λ found. found ≡ namespace_at catalog self.now.rows (take depth levels.now)) }
    {
        let path = levels.ancestor(alloc, depth)?;
        let found = self.namespace(catalog, &path);
        Ok(found.map(|row| Securable::Namespace(row.id)))
    }
}

/// Pushes what was found, where there is something.
fn push_found(found: Option<Securable>, chain: &mut Vec<Securable>) -> Result<(), OutOfMemory>
    ensures { OnOk result (chain.new.items ≡ chain.old.items ++ option_to_list found) }
{
    if let Some(securable) = found {
        chain.push(securable)?;
    }
    Ok(())
}
