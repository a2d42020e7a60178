//! The form of a privilege: one byte, its number.
ghost use Rattle.std.specs.Prelude.{◌≡◌, ⊤};
ghost use Rattle.pol_access.specs.Privilege.{privilege_number};
ghost use Rattle.pol_codec.specs.Rows as rows;

use crate::Rows;
use pol_access::Privilege;
use pol_forms::{CodecRefused, Coder, Unread};
use pol_types::OutOfMemory;
use std::alloc::Global;

/// All privileges, in the order of their numbers.
const PRIVILEGES: [Privilege; 26] = [
    Privilege::NamespaceCreate,
    Privilege::NamespaceDrop,
    Privilege::NamespaceList,
    Privilege::NamespaceReadProperties,
    Privilege::NamespaceWriteProperties,
    Privilege::NamespaceFullMetadata,
    Privilege::TableCreate,
    Privilege::TableDrop,
    Privilege::TableList,
    Privilege::TableReadProperties,
    Privilege::TableWriteProperties,
    Privilege::TableFullMetadata,
    Privilege::ViewCreate,
    Privilege::ViewDrop,
    Privilege::ViewList,
    Privilege::ViewReadProperties,
    Privilege::ViewWriteProperties,
    Privilege::ViewFullMetadata,
    Privilege::TableReadData,
    Privilege::TableWriteData,
    Privilege::CatalogManageAccess,
    Privilege::CatalogManageContent,
    Privilege::CatalogManageMetadata,
    Privilege::CatalogReadProperties,
    Privilege::CatalogWriteProperties,
    Privilege::ServiceManageAccess,
];

#[tactic(auto, unfolding(crate::specs::Rows::privilege))]
impl Coder<Privilege> for Rows {
    ghost form = { rows.privilege };

    ghost rule = { λ row. ⊤ };

    fn write(row: &Privilege, written: &mut Vec<u8>) -> Result<(), OutOfMemory> {
        Ok(written.push(number_of(*row))?)
    }

    fn read(_alloc: Global, unread: &mut Unread<'_>) -> Result<Privilege, CodecRefused> {
        let place = unread.byte()?;
        match privilege_at(place) {
            Some(privilege) => Ok(privilege),
            None => Err(CodecRefused::NoForm),
        }
    }
}

fn number_of(privilege: Privilege) -> u8
    ensures { result ≡ privilege_number privilege }
{
    privilege as u8
}

/// The privilege of this number.
fn privilege_at(place: u8) -> Option<Privilege>
    ensures { result ≡ rows.privilege_at place }
{
    PRIVILEGES
        .iter()
        .copied()
        .find(|privilege| number_of(*privilege) == place)
}
