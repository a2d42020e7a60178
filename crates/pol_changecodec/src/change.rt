//! The form of a change.
ghost use Rattle.pol_changecodec.specs.Change as spec;
ghost use Rattle.pol_forms.specs.Reading.{Gives};

use crate::Changes;
use pol_access::{CatalogRoleRow, GrantRow, JoinRow, MemberRow, PrincipalRoleRow, PrincipalRow};
use pol_codec::Rows;
use pol_content::{CatalogRow, Change, NamespaceRow, PutRow};
use pol_forms::{CodecRefused, Coder, Common, Unread, write_variant};
use pol_table_rows::{TablePut, TableRow};
use pol_tokens::{SessionRow, TokenRow};
use pol_types::OutOfMemory;
use pol_view_rows::ViewRow;
use std::alloc::Global;

/// The place of its variant, and the row, the id or the number.
#[tactic(auto, unfolding(crate::specs::Change::change))]
impl Coder<Change> for Changes {
    ghost form = { spec.change };

    ghost rule = { spec.IsSoundChange };

    fn write(value: &Change, written: &mut Vec<u8>) -> Result<(), OutOfMemory> {
        match value {
            Change::Time(time) => write_variant::<u64, Common>(0, time, written),
            Change::NextId(id) => write_variant::<u64, Common>(1, id, written),
            Change::NextSerial(serial) => write_variant::<u64, Common>(2, serial, written),
            Change::PutPrincipal(row) => write_variant::<PrincipalRow, Rows>(3, row.row(), written),
            Change::DropPrincipal(id) => write_variant::<u64, Common>(4, id, written),
            Change::PutPrincipalRole(row) => write_variant::<PrincipalRoleRow, Rows>(
                5, row, written,
            ),
            Change::DropPrincipalRole(id) => write_variant::<u64, Common>(6, id, written),
            Change::PutCatalog(row) => write_variant::<CatalogRow, Rows>(7, row.row(), written),
            Change::DropCatalog(id) => write_variant::<u64, Common>(8, id, written),
            Change::PutCatalogRole(row) => write_variant::<CatalogRoleRow, Rows>(9, row, written),
            Change::DropCatalogRole(id) => write_variant::<u64, Common>(10, id, written),
            Change::PutNamespace(row) => write_variant::<NamespaceRow, Rows>(
                11,
                row.row(),
                written,
            ),
            Change::DropNamespace(id) => write_variant::<u64, Common>(12, id, written),
            Change::PutTable(row) => write_variant::<TableRow, Changes>(
                13,
                row.row().row(),
                written,
            ),
            Change::DropTable(id) => write_variant::<u64, Common>(14, id, written),
            Change::PutView(row) => write_variant::<ViewRow, Changes>(15, row.row(), written),
            Change::DropView(id) => write_variant::<u64, Common>(16, id, written),
            Change::PutMember(row) => write_variant::<MemberRow, Rows>(17, row, written),
            Change::DropMember(row) => write_variant::<MemberRow, Rows>(18, row, written),
            Change::PutJoin(row) => write_variant::<JoinRow, Rows>(19, row, written),
            Change::DropJoin(row) => write_variant::<JoinRow, Rows>(20, row, written),
            Change::PutGrant(row) => write_variant::<GrantRow, Rows>(21, row, written),
            Change::DropGrant(row) => write_variant::<GrantRow, Rows>(22, row, written),
            Change::PutSession(row) => write_variant::<SessionRow, Rows>(23, row.row(), written),
            Change::PutToken(row) => write_variant::<TokenRow, Rows>(24, row.row(), written),
        }
    }

    fn read(alloc: Global, unread: &mut Unread<'_>) -> Result<Change, CodecRefused> {
        match unread.byte()? {
            0 => Ok(Change::Time(Common::read(alloc, unread)?)),
            1 => Ok(Change::NextId(Common::read(alloc, unread)?)),
            2 => Ok(Change::NextSerial(Common::read(alloc, unread)?)),
            3 => Ok(Change::PutPrincipal(read_put::<PrincipalRow, Rows>(alloc, unread)?)),
            4 => Ok(Change::DropPrincipal(Common::read(alloc, unread)?)),
            5 => Ok(Change::PutPrincipalRole(Rows::read(alloc, unread)?)),
            6 => Ok(Change::DropPrincipalRole(Common::read(alloc, unread)?)),
            7 => Ok(Change::PutCatalog(read_put::<CatalogRow, Rows>(alloc, unread)?)),
            8 => Ok(Change::DropCatalog(Common::read(alloc, unread)?)),
            9 => Ok(Change::PutCatalogRole(Rows::read(alloc, unread)?)),
            10 => Ok(Change::DropCatalogRole(Common::read(alloc, unread)?)),
            11 => Ok(Change::PutNamespace(read_put::<NamespaceRow, Rows>(alloc, unread)?)),
            12 => Ok(Change::DropNamespace(Common::read(alloc, unread)?)),
            13 => {
                let row: TableRow = Changes::read(alloc, unread)?;
                Ok(Change::PutTable(PutRow::new(alloc, TablePut::new(row)?)?))
            }
            14 => Ok(Change::DropTable(Common::read(alloc, unread)?)),
            15 => Ok(Change::PutView(read_put::<ViewRow, Changes>(alloc, unread)?)),
            16 => Ok(Change::DropView(Common::read(alloc, unread)?)),
            17 => Ok(Change::PutMember(Rows::read(alloc, unread)?)),
            18 => Ok(Change::DropMember(Rows::read(alloc, unread)?)),
            19 => Ok(Change::PutJoin(Rows::read(alloc, unread)?)),
            20 => Ok(Change::DropJoin(Rows::read(alloc, unread)?)),
            21 => Ok(Change::PutGrant(Rows::read(alloc, unread)?)),
            22 => Ok(Change::DropGrant(Rows::read(alloc, unread)?)),
            23 => Ok(Change::PutSession(read_put::<SessionRow, Rows>(alloc, unread)?)),
            24 => Ok(Change::PutToken(read_put::<TokenRow, Rows>(alloc, unread)?)),
            _ => Err(CodecRefused::NoForm),
        }
    }
}

/// Reads the form of a row that is put.
fn read_put<T: Drop, C: Coder<T>>(
    alloc: Global,
    unread: &mut Unread<'_>,
) -> Result<PutRow<T>, CodecRefused>
    ensures { Gives result unread.new (C.form.read unread.old) }
{
    let row = C::read(alloc, unread)?;
    Ok(PutRow::new(alloc, row)?)
}
