//! The forms of principals, roles, members, joins and grants.
ghost use Rattle.std.specs.Prelude.{⊤};
ghost use Rattle.pol_codec.specs.Rows as rows;

use crate::Rows;
use pol_access::{
    CatalogRoleRow, GrantRow, JoinRow, MemberRow, PrincipalRoleRow, PrincipalRow, Privilege,
    Securable,
};
use pol_forms::{CodecRefused, Coder, Common, Unread, write_variant};
use pol_names::Plain;
use pol_types::{OutOfMemory, Text};
use std::alloc::Global;

/// The place of its kind, and its id where it has one.
#[tactic(auto, unfolding(crate::specs::Rows::securable))]
impl Coder<Securable> for Rows {
    ghost form = { rows.securable };

    ghost rule = { λ row. ⊤ };

    fn write(row: &Securable, written: &mut Vec<u8>) -> Result<(), OutOfMemory> {
        match row {
            Securable::Realm => Ok(written.push(0)?),
            Securable::Catalog(id) => write_variant::<u64, Common>(1, id, written),
            Securable::Namespace(id) => write_variant::<u64, Common>(2, id, written),
            Securable::Table(id) => write_variant::<u64, Common>(3, id, written),
            Securable::View(id) => write_variant::<u64, Common>(4, id, written),
        }
    }

    fn read(alloc: Global, unread: &mut Unread<'_>) -> Result<Securable, CodecRefused> {
        match unread.byte()? {
            0 => Ok(Securable::Realm),
            1 => Ok(Securable::Catalog(Common::read(alloc, unread)?)),
            2 => Ok(Securable::Namespace(Common::read(alloc, unread)?)),
            3 => Ok(Securable::Table(Common::read(alloc, unread)?)),
            4 => Ok(Securable::View(Common::read(alloc, unread)?)),
            _ => Err(CodecRefused::NoForm),
        }
    }
}

#[tactic(auto, unfolding(crate::specs::Rows::principal, pol_forms::specs::Forms::bytes_of))]
impl Coder<PrincipalRow> for Rows {
    ghost form = { rows.principal };

    ghost rule = { λ row. ⊤ };

    fn write(row: &PrincipalRow, written: &mut Vec<u8>) -> Result<(), OutOfMemory> {
        Common::write(&row.id, written)?;
        Common::write(&row.name, written)?;
        Common::write(&row.client_id, written)?;
        Common::write(&row.digest, written)
    }

    fn read(alloc: Global, unread: &mut Unread<'_>) -> Result<PrincipalRow, CodecRefused> {
        let id: u64 = Common::read(alloc, unread)?;
        let name: Plain = Common::read(alloc, unread)?;
        let client_id: Text = Common::read(alloc, unread)?;
        let digest = unread.array::<32>()?;
        Ok(PrincipalRow {
            id,
            name,
            client_id,
            digest,
        })
    }
}

#[tactic(auto, unfolding(crate::specs::Rows::principal_role))]
impl Coder<PrincipalRoleRow> for Rows {
    ghost form = { rows.principal_role };

    ghost rule = { λ row. ⊤ };

    fn write(row: &PrincipalRoleRow, written: &mut Vec<u8>) -> Result<(), OutOfMemory> {
        Common::write(&row.id, written)?;
        Common::write(&row.name, written)
    }

    fn read(alloc: Global, unread: &mut Unread<'_>) -> Result<PrincipalRoleRow, CodecRefused> {
        let id: u64 = Common::read(alloc, unread)?;
        let name: Plain = Common::read(alloc, unread)?;
        Ok(PrincipalRoleRow { id, name })
    }
}

#[tactic(auto, unfolding(crate::specs::Rows::catalog_role))]
impl Coder<CatalogRoleRow> for Rows {
    ghost form = { rows.catalog_role };

    ghost rule = { λ row. ⊤ };

    fn write(row: &CatalogRoleRow, written: &mut Vec<u8>) -> Result<(), OutOfMemory> {
        Common::write(&row.id, written)?;
        Common::write(&row.catalog, written)?;
        Common::write(&row.name, written)
    }

    fn read(alloc: Global, unread: &mut Unread<'_>) -> Result<CatalogRoleRow, CodecRefused> {
        let id: u64 = Common::read(alloc, unread)?;
        let catalog: u64 = Common::read(alloc, unread)?;
        let name: Plain = Common::read(alloc, unread)?;
        Ok(CatalogRoleRow { id, catalog, name })
    }
}

#[tactic(auto, unfolding(crate::specs::Rows::member))]
impl Coder<MemberRow> for Rows {
    ghost form = { rows.member };

    ghost rule = { λ row. ⊤ };

    fn write(row: &MemberRow, written: &mut Vec<u8>) -> Result<(), OutOfMemory> {
        Common::write(&row.principal, written)?;
        Common::write(&row.role, written)
    }

    fn read(alloc: Global, unread: &mut Unread<'_>) -> Result<MemberRow, CodecRefused> {
        let principal: u64 = Common::read(alloc, unread)?;
        let role: u64 = Common::read(alloc, unread)?;
        Ok(MemberRow { principal, role })
    }
}

#[tactic(auto, unfolding(crate::specs::Rows::join))]
impl Coder<JoinRow> for Rows {
    ghost form = { rows.join };

    ghost rule = { λ row. ⊤ };

    fn write(row: &JoinRow, written: &mut Vec<u8>) -> Result<(), OutOfMemory> {
        Common::write(&row.principal_role, written)?;
        Common::write(&row.catalog_role, written)
    }

    fn read(alloc: Global, unread: &mut Unread<'_>) -> Result<JoinRow, CodecRefused> {
        let principal_role: u64 = Common::read(alloc, unread)?;
        let catalog_role: u64 = Common::read(alloc, unread)?;
        Ok(JoinRow {
            principal_role,
            catalog_role,
        })
    }
}

#[tactic(auto, unfolding(crate::specs::Rows::grant))]
impl Coder<GrantRow> for Rows {
    ghost form = { rows.grant };

    ghost rule = { λ row. ⊤ };

    fn write(row: &GrantRow, written: &mut Vec<u8>) -> Result<(), OutOfMemory> {
        Common::write(&row.catalog_role, written)?;
        Rows::write(&row.privilege, written)?;
        Rows::write(&row.securable, written)
    }

    fn read(alloc: Global, unread: &mut Unread<'_>) -> Result<GrantRow, CodecRefused> {
        let catalog_role: u64 = Common::read(alloc, unread)?;
        let privilege: Privilege = Rows::read(alloc, unread)?;
        let securable: Securable = Rows::read(alloc, unread)?;
        Ok(GrantRow {
            catalog_role,
            privilege,
            securable,
        })
    }
}
