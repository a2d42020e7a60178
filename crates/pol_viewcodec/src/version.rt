//! The forms of versions of a view, of their queries, and of entries of the log.
ghost use Rattle.std.specs.Prelude.{⊤};
ghost use Rattle.pol_views.specs.Valid.{IsVersionLogEntry, IsViewVersion};
ghost use Rattle.pol_viewcodec.specs.Views as spec;

use crate::Views;
use pol_forms::{CodecRefused, Coder, Common, ListOf, Optional, Unread};
use pol_names::Namespace;
use pol_partcodec::{Id, Long};
use pol_properties::Properties;
use pol_types::{Listed, OutOfMemory, Text};
use pol_views::{Representation, VersionLogEntry, ViewVersion};
use std::alloc::Global;

#[tactic(auto, unfolding(crate::specs::Views::representation))]
impl Coder<Representation> for Views {
    ghost form = { spec.representation };

    ghost rule = { λ one. ⊤ };

    fn write(one: &Representation, written: &mut Vec<u8>) -> Result<(), OutOfMemory> {
        Common::write(&one.sql, written)?;
        Common::write(&one.dialect, written)
    }

    fn read(alloc: Global, unread: &mut Unread<'_>) -> Result<Representation, CodecRefused> {
        let sql: Text = Common::read(alloc, unread)?;
        let dialect: Text = Common::read(alloc, unread)?;
        Ok(Representation { sql, dialect })
    }
}

#[tactic(auto, using(crate::proofs::HeldLemmas::version_log_entry_held), unfolding(crate::specs::Views::version_log_entry))]
impl Coder<VersionLogEntry> for Views {
    ghost form = { spec.version_log_entry };

    ghost rule = { IsVersionLogEntry };

    fn write(entry: &VersionLogEntry, written: &mut Vec<u8>) -> Result<(), OutOfMemory> {
        Long::write(&entry.timestamp_ms, written)?;
        Id::write(&entry.version_id, written)
    }

    fn read(alloc: Global, unread: &mut Unread<'_>) -> Result<VersionLogEntry, CodecRefused> {
        let timestamp_ms = Long::read(alloc, unread)?;
        let version_id = Id::read(alloc, unread)?;
        Ok(VersionLogEntry {
            timestamp_ms,
            version_id,
        })
    }
}

#[tactic(auto, using(crate::proofs::HeldLemmas::view_version_held), unfolding(crate::specs::Views::view_version))]
impl Coder<ViewVersion> for Views {
    ghost form = { spec.view_version };

    ghost rule = { IsViewVersion };

    fn write(one: &ViewVersion, written: &mut Vec<u8>) -> Result<(), OutOfMemory> {
        Id::write(&one.version_id, written)?;
        Long::write(&one.timestamp_ms, written)?;
        Id::write(&one.schema_id, written)?;
        Common::write(&one.summary, written)?;
        ListOf::<Views>::write(&one.representations, written)?;
        Optional::<Common>::write(&one.default_catalog, written)?;
        Common::write(&one.default_namespace, written)
    }

    fn read(alloc: Global, unread: &mut Unread<'_>) -> Result<ViewVersion, CodecRefused> {
        let version_id = Id::read(alloc, unread)?;
        let timestamp_ms = Long::read(alloc, unread)?;
        let schema_id = Id::read(alloc, unread)?;
        let summary: Properties = Common::read(alloc, unread)?;
        let representations: Listed<Representation> = ListOf::<Views>::read(alloc, unread)?;
        let default_catalog: Option<Text> = Optional::<Common>::read(alloc, unread)?;
        let default_namespace: Namespace = Common::read(alloc, unread)?;
        Ok(ViewVersion {
            version_id,
            timestamp_ms,
            schema_id,
            summary,
            representations,
            default_catalog,
            default_namespace,
        })
    }
}
