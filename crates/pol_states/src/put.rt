//! The puts of rows.
ghost use Rattle.std.specs.Prelude.{◌≡◌, ◌++◌, map, IfOk, OnOk};
ghost use Rattle.pol_content.specs.declared.change.Change.{Change};

use pol_access::{CatalogRoleRow, GrantRow, JoinRow, MemberRow, PrincipalRoleRow, PrincipalRow};
use pol_content::{CatalogRow, Change, NamespaceRow, PutRow, TablePut, TableRow, ViewRow};
use pol_tables::Rows;
use pol_tokens::{SessionRow, TokenRow};
use pol_types::OutOfMemory;
use std::alloc::Global;

/// A row that a change puts.
pub(crate) trait Put {
    ghost change: { Self → Change };

    /// The change that puts an equal row.
    fn put(&self, alloc: Global) -> Result<Change, OutOfMemory>
        ensures { IfOk result (λ put. put ≡ change self.now) };
}

/// Pushes the puts of a table's rows, in their order.
pub(crate) fn push_puts<R: Put>(
    alloc: Global,
    rows: Rows<'_, R>,
    changes: &mut Vec<Change>,
) -> Result<(), OutOfMemory>
    ensures { OnOk result (changes.new.items ≡ changes.old.items ++ map R.change rows.entry) }
{
    for row in rows {
        changes.push(row.put(alloc)?)?;
    }
    Ok(())
}

/// Pushes the puts of the facts, in their order.
pub(crate) fn push_facts<R: Put>(
    alloc: Global,
    facts: &[R],
    changes: &mut Vec<Change>,
) -> Result<(), OutOfMemory>
    ensures { OnOk result (changes.new.items ≡ changes.old.items ++ map R.change facts.now) }
{
    for fact in facts {
        changes.push(fact.put(alloc)?)?;
    }
    Ok(())
}

impl Put for PrincipalRow {
    ghost use Rattle.pol_content.specs.declared.change.Change.TheVariants.{PutPrincipal};

    ghost change = { PutPrincipal };

    fn put(&self, alloc: Global) -> Result<Change, OutOfMemory> {
        Ok(Change::PutPrincipal(PutRow::new(alloc, self.clone()?)?))
    }
}

impl Put for PrincipalRoleRow {
    ghost use Rattle.pol_content.specs.declared.change.Change.TheVariants.{PutPrincipalRole};

    ghost change = { PutPrincipalRole };

    fn put(&self, alloc: Global) -> Result<Change, OutOfMemory> {
        Ok(Change::PutPrincipalRole(self.clone()?))
    }
}

impl Put for CatalogRow {
    ghost use Rattle.pol_content.specs.declared.change.Change.TheVariants.{PutCatalog};

    ghost change = { PutCatalog };

    fn put(&self, alloc: Global) -> Result<Change, OutOfMemory> {
        Ok(Change::PutCatalog(PutRow::new(alloc, self.clone()?)?))
    }
}

impl Put for CatalogRoleRow {
    ghost use Rattle.pol_content.specs.declared.change.Change.TheVariants.{PutCatalogRole};

    ghost change = { PutCatalogRole };

    fn put(&self, alloc: Global) -> Result<Change, OutOfMemory> {
        Ok(Change::PutCatalogRole(self.clone()?))
    }
}

impl Put for NamespaceRow {
    ghost use Rattle.pol_content.specs.declared.change.Change.TheVariants.{PutNamespace};

    ghost change = { PutNamespace };

    fn put(&self, alloc: Global) -> Result<Change, OutOfMemory> {
        Ok(Change::PutNamespace(PutRow::new(alloc, self.clone()?)?))
    }
}

impl Put for TableRow {
    ghost use Rattle.pol_content.specs.declared.change.Change.TheVariants.{PutTable};

    ghost change = { PutTable };

    fn put(&self, alloc: Global) -> Result<Change, OutOfMemory> {
        let put = TablePut::new(self.clone()?)?;
        Ok(Change::PutTable(PutRow::new(alloc, put)?))
    }
}

impl Put for ViewRow {
    ghost use Rattle.pol_content.specs.declared.change.Change.TheVariants.{PutView};

    ghost change = { PutView };

    fn put(&self, alloc: Global) -> Result<Change, OutOfMemory> {
        Ok(Change::PutView(PutRow::new(alloc, self.clone()?)?))
    }
}

impl Put for MemberRow {
    ghost use Rattle.pol_content.specs.declared.change.Change.TheVariants.{PutMember};

    ghost change = { PutMember };

    fn put(&self, alloc: Global) -> Result<Change, OutOfMemory> {
        Ok(Change::PutMember(*self))
    }
}

impl Put for JoinRow {
    ghost use Rattle.pol_content.specs.declared.change.Change.TheVariants.{PutJoin};

    ghost change = { PutJoin };

    fn put(&self, alloc: Global) -> Result<Change, OutOfMemory> {
        Ok(Change::PutJoin(*self))
    }
}

impl Put for GrantRow {
    ghost use Rattle.pol_content.specs.declared.change.Change.TheVariants.{PutGrant};

    ghost change = { PutGrant };

    fn put(&self, alloc: Global) -> Result<Change, OutOfMemory> {
        Ok(Change::PutGrant(*self))
    }
}

impl Put for SessionRow {
    ghost use Rattle.pol_content.specs.declared.change.Change.TheVariants.{PutSession};

    ghost change = { PutSession };

    fn put(&self, alloc: Global) -> Result<Change, OutOfMemory> {
        Ok(Change::PutSession(PutRow::new(alloc, self.clone()?)?))
    }
}

impl Put for TokenRow {
    ghost use Rattle.pol_content.specs.declared.change.Change.TheVariants.{PutToken};

    ghost change = { PutToken };

    fn put(&self, alloc: Global) -> Result<Change, OutOfMemory> {
        Ok(Change::PutToken(PutRow::new(alloc, self.clone()?)?))
    }
}
