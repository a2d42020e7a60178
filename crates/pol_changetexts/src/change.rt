//! What is told of changes.
ghost use Rattle.pol_changetexts.specs.Change as spec;

use crate::told::{Told, named};
use pol_content::Change;
use pol_types::OutOfMemory;
use std::alloc::Global;

/// The name of its variant, and its row, id or number.
impl Told for Change {
    ghost text = { spec.change_text };

    fn told(&self, alloc: Global) -> Result<String, OutOfMemory> {
        match self {
            Change::Time(time) => named(alloc, "Time", time),
            Change::NextId(id) => named(alloc, "NextId", id),
            Change::NextSerial(serial) => named(alloc, "NextSerial", serial),
            Change::PutPrincipal(row) => named(alloc, "PutPrincipal", row.row()),
            Change::DropPrincipal(id) => named(alloc, "DropPrincipal", id),
            Change::PutPrincipalRole(row) => named(alloc, "PutPrincipalRole", row),
            Change::DropPrincipalRole(id) => named(alloc, "DropPrincipalRole", id),
            Change::PutCatalog(row) => named(alloc, "PutCatalog", row.row()),
            Change::DropCatalog(id) => named(alloc, "DropCatalog", id),
            Change::PutCatalogRole(row) => named(alloc, "PutCatalogRole", row),
            Change::DropCatalogRole(id) => named(alloc, "DropCatalogRole", id),
            Change::PutNamespace(row) => named(alloc, "PutNamespace", row.row()),
            Change::DropNamespace(id) => named(alloc, "DropNamespace", id),
            Change::PutTable(put) => named(alloc, "PutTable", put.row().row()),
            Change::DropTable(id) => named(alloc, "DropTable", id),
            Change::PutView(row) => named(alloc, "PutView", row.row()),
            Change::DropView(id) => named(alloc, "DropView", id),
            Change::PutMember(row) => named(alloc, "PutMember", row),
            Change::DropMember(row) => named(alloc, "DropMember", row),
            Change::PutJoin(row) => named(alloc, "PutJoin", row),
            Change::DropJoin(row) => named(alloc, "DropJoin", row),
            Change::PutGrant(row) => named(alloc, "PutGrant", row),
            Change::DropGrant(row) => named(alloc, "DropGrant", row),
            Change::PutSession(row) => named(alloc, "PutSession", row.row()),
            Change::PutToken(row) => named(alloc, "PutToken", row.row()),
        }
    }
}
