//! The forms of the entries of both logs.
ghost use Rattle.pol_meta.specs.Valid.{IsMetadataLogEntry, IsSnapshotLogEntry};
ghost use Rattle.pol_partcodec.specs.Parts as parts;

use crate::Parts;
use crate::numbers::Long;
use pol_forms::{CodecRefused, Coder, Common, Unread};
use pol_meta::{MetadataLogEntry, SnapshotLogEntry};
use pol_types::{OutOfMemory, Text};
use std::alloc::Global;

#[tactic(auto, using(crate::proofs::HeldLemmas::metadata_log_entry_held), unfolding(crate::specs::Parts::metadata_log_entry))]
impl Coder<MetadataLogEntry> for Parts {
    ghost form = { parts.metadata_log_entry };

    ghost rule = { IsMetadataLogEntry };

    fn write(entry: &MetadataLogEntry, written: &mut Vec<u8>) -> Result<(), OutOfMemory> {
        Common::write(&entry.metadata_file, written)?;
        Long::write(&entry.timestamp_ms, written)
    }

    fn read(alloc: Global, unread: &mut Unread<'_>) -> Result<MetadataLogEntry, CodecRefused> {
        let metadata_file: Text = Common::read(alloc, unread)?;
        let timestamp_ms = Long::read(alloc, unread)?;
        Ok(MetadataLogEntry {
            metadata_file,
            timestamp_ms,
        })
    }
}

#[tactic(auto, using(crate::proofs::HeldLemmas::snapshot_log_entry_held), unfolding(crate::specs::Parts::snapshot_log_entry))]
impl Coder<SnapshotLogEntry> for Parts {
    ghost form = { parts.snapshot_log_entry };

    ghost rule = { IsSnapshotLogEntry };

    fn write(entry: &SnapshotLogEntry, written: &mut Vec<u8>) -> Result<(), OutOfMemory> {
        Long::write(&entry.snapshot_id, written)?;
        Long::write(&entry.timestamp_ms, written)
    }

    fn read(alloc: Global, unread: &mut Unread<'_>) -> Result<SnapshotLogEntry, CodecRefused> {
        let snapshot_id = Long::read(alloc, unread)?;
        let timestamp_ms = Long::read(alloc, unread)?;
        Ok(SnapshotLogEntry {
            snapshot_id,
            timestamp_ms,
        })
    }
}
