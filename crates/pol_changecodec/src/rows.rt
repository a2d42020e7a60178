//! The forms of names, and of the rows of tables and views.
ghost use Rattle.pol_changecodec.specs.Tables as tables;
ghost use Rattle.std.specs.Prelude.{◌≡◌, ◌++◌, OnOk, ⊤};
ghost use Rattle.pol_forms.specs.Forms as forms;
ghost use Rattle.pol_meta.specs.Valid.{IsValid};
ghost use Rattle.pol_views.specs.Valid.{IsValidView};

use crate::Changes;
use pol_forms::{CodecRefused, Coder, Common, Unread};
use pol_locations::Location;
use pol_meta::TableMetadata;
use pol_metacodec::Metadata;
use pol_names::{Name, NameRefused};
use pol_table_rows::{Handle, TableRow};
use pol_types::{OutOfMemory, Text};
use pol_view_rows::ViewRow;
use pol_viewcodec::Views;
use pol_views::ViewMetadata;
use std::alloc::Global;

/// Its text.
#[tactic(auto, using(crate::proofs::NameRules::name_rules), unfolding(crate::specs::Tables::name))]
impl Coder<Name> for Changes {
    ghost form = { tables.name };

    ghost rule = { λ name. ⊤ };

    fn write(name: &Name, written: &mut Vec<u8>) -> Result<(), OutOfMemory> {
        write_text(name.as_str(), written)
    }

    fn read(alloc: Global, unread: &mut Unread<'_>) -> Result<Name, CodecRefused> {
        let text: Text = Common::read(alloc, unread)?;
        match Name::new(alloc, text.as_str()) {
            Ok(name) => Ok(name),
            Err(NameRefused::OutOfMemory) => Err(CodecRefused::OutOfMemory),
            Err(
                NameRefused::Empty
                | NameRefused::Long
                | NameRefused::ControlByte
                | NameRefused::NotPlain,
            ) => Err(CodecRefused::NoForm),
        }
    }
}

#[tactic(auto, unfolding(crate::specs::Tables::table_row))]
impl Coder<TableRow> for Changes {
    ghost form = { tables.table_row };

    ghost rule = { λ row. IsValid row.metadata };

    fn write(row: &TableRow, written: &mut Vec<u8>) -> Result<(), OutOfMemory> {
        Common::write(&row.id, written)?;
        Common::write(&row.namespace, written)?;
        Changes::write(&row.name, written)?;
        Common::write(&row.version, written)?;
        Common::write(&row.moves, written)?;
        Common::write(&row.location, written)?;
        Metadata::write(row.metadata.get(), written)
    }

    fn read(alloc: Global, unread: &mut Unread<'_>) -> Result<TableRow, CodecRefused> {
        let id: u64 = Common::read(alloc, unread)?;
        let namespace: u64 = Common::read(alloc, unread)?;
        let name: Name = Changes::read(alloc, unread)?;
        let version: u64 = Common::read(alloc, unread)?;
        let moves: u64 = Common::read(alloc, unread)?;
        let location: Location = Common::read(alloc, unread)?;
        let metadata: TableMetadata = Metadata::read(alloc, unread)?;
        Ok(TableRow {
            id,
            namespace,
            name,
            version,
            moves,
            location,
            metadata: Handle::new(alloc, metadata)?,
        })
    }
}

#[tactic(auto, unfolding(crate::specs::Tables::view_row))]
impl Coder<ViewRow> for Changes {
    ghost form = { tables.view_row };

    ghost rule = { λ row. IsValidView row.metadata };

    fn write(row: &ViewRow, written: &mut Vec<u8>) -> Result<(), OutOfMemory> {
        Common::write(&row.id, written)?;
        Common::write(&row.namespace, written)?;
        Changes::write(&row.name, written)?;
        Common::write(&row.version, written)?;
        Views::write(row.metadata.get(), written)
    }

    fn read(alloc: Global, unread: &mut Unread<'_>) -> Result<ViewRow, CodecRefused> {
        let id: u64 = Common::read(alloc, unread)?;
        let namespace: u64 = Common::read(alloc, unread)?;
        let name: Name = Changes::read(alloc, unread)?;
        let version: u64 = Common::read(alloc, unread)?;
        let metadata: ViewMetadata = Views::read(alloc, unread)?;
        Ok(ViewRow {
            id,
            namespace,
            name,
            version,
            metadata: Handle::new(alloc, metadata)?,
        })
    }
}

/// Writes the form of a text.
#[tactic(auto, unfolding(pol_forms::specs::Forms::text, pol_forms::specs::Forms::byte_string, pol_forms::specs::Forms::number))]
fn write_text(text: &str, written: &mut Vec<u8>) -> Result<(), OutOfMemory>
    ensures bytes { OnOk result (written.new.items ≡ written.old.items ++ forms.text.write text.now) }
    ensures holds { OnOk result (forms.text.holds text.now) }
{
    let length = text.len() as u64;
    Common::write(&length, written)?;
    Ok(written.extend_from_slice(text.as_bytes())?)
}
