//! The forms of catalogues and namespaces.
ghost use Rattle.std.specs.Prelude.{⊤};
ghost use Rattle.pol_codec.specs.Rows as rows;

use crate::Rows;
use pol_content::{CatalogRow, NamespaceRow};
use pol_forms::{CodecRefused, Coder, Common, ListOf, Unread};
use pol_locations::Location;
use pol_names::{Namespace, Plain};
use pol_properties::Properties;
use pol_types::{Listed, OutOfMemory};
use std::alloc::Global;

#[tactic(auto, unfolding(crate::specs::Rows::catalog))]
impl Coder<CatalogRow> for Rows {
    ghost form = { rows.catalog };

    ghost rule = { λ row. ⊤ };

    fn write(row: &CatalogRow, written: &mut Vec<u8>) -> Result<(), OutOfMemory> {
        Common::write(&row.id, written)?;
        Common::write(&row.name, written)?;
        Common::write(&row.base, written)?;
        ListOf::<Common>::write(&row.allowed, written)?;
        Common::write(&row.properties, written)
    }

    fn read(alloc: Global, unread: &mut Unread<'_>) -> Result<CatalogRow, CodecRefused> {
        let id: u64 = Common::read(alloc, unread)?;
        let name: Plain = Common::read(alloc, unread)?;
        let base: Location = Common::read(alloc, unread)?;
        let allowed: Listed<Location> = ListOf::<Common>::read(alloc, unread)?;
        let properties: Properties = Common::read(alloc, unread)?;
        Ok(CatalogRow {
            id,
            name,
            base,
            allowed,
            properties,
        })
    }
}

#[tactic(auto, unfolding(crate::specs::Rows::namespace_row))]
impl Coder<NamespaceRow> for Rows {
    ghost form = { rows.namespace_row };

    ghost rule = { λ row. ⊤ };

    fn write(row: &NamespaceRow, written: &mut Vec<u8>) -> Result<(), OutOfMemory> {
        Common::write(&row.id, written)?;
        Common::write(&row.catalog, written)?;
        Common::write(&row.levels, written)?;
        Common::write(&row.properties, written)
    }

    fn read(alloc: Global, unread: &mut Unread<'_>) -> Result<NamespaceRow, CodecRefused> {
        let id: u64 = Common::read(alloc, unread)?;
        let catalog: u64 = Common::read(alloc, unread)?;
        let levels: Namespace = Common::read(alloc, unread)?;
        let properties: Properties = Common::read(alloc, unread)?;
        Ok(NamespaceRow {
            id,
            catalog,
            levels,
            properties,
        })
    }
}
