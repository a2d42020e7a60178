//! The changes that put rows.
#![tactic(auto)]

ghost use Rattle.std.specs.Prelude.{◌≡◌, IfOk};
ghost use Rattle.pol_content.specs.declared.change.Change.TheVariants.{PutCatalog, PutNamespace, PutPrincipal, PutSession, PutTable, PutToken, PutView};

use pol_access::PrincipalRow;
use pol_content::{CatalogRow, Change, NamespaceRow, PutRow, TablePut, TableRow, ViewRow};
use pol_tokens::{SessionRow, TokenRow};
use pol_types::OutOfMemory;
use std::alloc::Global;

/// The change that puts a principal.
pub fn put_principal(alloc: Global, row: PrincipalRow) -> Result<Change, OutOfMemory>
    ensures { IfOk result (λ change. change ≡ PutPrincipal row) }
{
    Ok(Change::PutPrincipal(PutRow::new(alloc, row)?))
}

/// The change that puts a catalogue.
pub fn put_catalog(alloc: Global, row: CatalogRow) -> Result<Change, OutOfMemory>
    ensures { IfOk result (λ change. change ≡ PutCatalog row) }
{
    Ok(Change::PutCatalog(PutRow::new(alloc, row)?))
}

/// The change that puts a namespace.
pub fn put_namespace(alloc: Global, row: NamespaceRow) -> Result<Change, OutOfMemory>
    ensures { IfOk result (λ change. change ≡ PutNamespace row) }
{
    Ok(Change::PutNamespace(PutRow::new(alloc, row)?))
}

/// The change that puts a table.
pub fn put_table(alloc: Global, row: TableRow) -> Result<Change, OutOfMemory>
    ensures { IfOk result (λ change. change ≡ PutTable row) }
{
    let put = TablePut::new(row)?;
    Ok(Change::PutTable(PutRow::new(alloc, put)?))
}

/// The change that puts a view.
pub fn put_view(alloc: Global, row: ViewRow) -> Result<Change, OutOfMemory>
    ensures { IfOk result (λ change. change ≡ PutView row) }
{
    Ok(Change::PutView(PutRow::new(alloc, row)?))
}

/// The change that puts a session.
pub fn put_session(alloc: Global, row: SessionRow) -> Result<Change, OutOfMemory>
    ensures { IfOk result (λ change. change ≡ PutSession row) }
{
    Ok(Change::PutSession(PutRow::new(alloc, row)?))
}

/// The change that puts a storage token.
pub fn put_token(alloc: Global, row: TokenRow) -> Result<Change, OutOfMemory>
    ensures { IfOk result (λ change. change ≡ PutToken row) }
{
    Ok(Change::PutToken(PutRow::new(alloc, row)?))
}
