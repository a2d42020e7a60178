//! The forms of snapshots and of references to them.
ghost use Rattle.std.specs.Prelude.{◌≡◌, ⊤, option_copied};
ghost use Rattle.pol_forms.specs.Reading.{Gives};
ghost use Rattle.pol_meta.specs.Valid.{IsNamedRef, IsSnapshot};
ghost use Rattle.pol_partcodec.specs.Parts as parts;

use crate::Parts;
use crate::numbers::{Id, Kept, Long};
use pol_forms::{CodecRefused, Coder, Common, Optional, Unread};
use pol_meta::{NamedRef, RefKind, Snapshot, SnapshotRef};
use pol_properties::Properties;
use pol_types::{OutOfMemory, Text};
use std::alloc::Global;

#[tactic(auto, using(crate::proofs::HeldLemmas::snapshot_held), unfolding(crate::specs::Parts::snapshot, crate::specs::Parts::snapshot_fields))]
impl Coder<Snapshot> for Parts {
    ghost form = { parts.snapshot };

    ghost rule = { IsSnapshot };

    fn write(one: &Snapshot, written: &mut Vec<u8>) -> Result<(), OutOfMemory> {
        Long::write(&one.snapshot_id, written)?;
        Optional::<Long>::write(&one.parent_snapshot_id, written)?;
        Long::write(&one.sequence_number, written)?;
        Long::write(&one.timestamp_ms, written)?;
        Common::write(&one.manifest_list, written)?;
        Common::write(&one.summary, written)?;
        Optional::<Id>::write(&one.schema_id, written)
    }

    fn read(alloc: Global, unread: &mut Unread<'_>) -> Result<Snapshot, CodecRefused> {
        let snapshot = read_fields(alloc, unread)?;
        if !has_operation(&snapshot) {
            return Err(CodecRefused::NoForm);
        }
        Ok(snapshot)
    }
}

/// The fields of a snapshot.
#[tactic(auto, unfolding(crate::specs::Parts::snapshot_fields))]
fn read_fields(alloc: Global, unread: &mut Unread<'_>) -> Result<Snapshot, CodecRefused>
    ensures { Gives result unread.new (parts.snapshot_fields.read unread.old) }
{
    let snapshot_id = Long::read(alloc, unread)?;
    let parent_snapshot_id: Option<u64> = Optional::<Long>::read(alloc, unread)?;
    let sequence_number = Long::read(alloc, unread)?;
    let timestamp_ms = Long::read(alloc, unread)?;
    let manifest_list: Text = Common::read(alloc, unread)?;
    let summary: Properties = Common::read(alloc, unread)?;
    let schema_id: Option<u32> = Optional::<Id>::read(alloc, unread)?;
    Ok(Snapshot {
        snapshot_id,
        parent_snapshot_id,
        sequence_number,
        timestamp_ms,
        manifest_list,
        summary,
        schema_id,
    })
}

/// Whether the summary tells the operation that made the snapshot.
fn has_operation(snapshot: &Snapshot) -> bool
    ensures { result ≡ parts.has_operation snapshot.now }
{
    match snapshot.summary.get("operation") {
        Some(word) => is_operation(word.as_str()),
        None => false,
    }
}

fn is_operation(word: &str) -> bool
    ensures { result ≡ parts.is_operation word.now }
{
    word == "append" || (word == "replace" || (word == "overwrite" || word == "delete"))
}

#[tactic(auto, unfolding(crate::specs::Parts::ref_kind))]
impl Coder<RefKind> for Parts {
    ghost form = { parts.ref_kind };

    ghost rule = { λ kind. ⊤ };

    fn write(value: &RefKind, written: &mut Vec<u8>) -> Result<(), OutOfMemory> {
        match value {
            RefKind::Branch => Ok(written.push(0)?),
            RefKind::Tag => Ok(written.push(1)?),
        }
    }

    fn read(_alloc: Global, unread: &mut Unread<'_>) -> Result<RefKind, CodecRefused> {
        match unread.byte()? {
            0 => Ok(RefKind::Branch),
            1 => Ok(RefKind::Tag),
            _ => Err(CodecRefused::NoForm),
        }
    }
}

#[tactic(auto, using(crate::proofs::HeldLemmas::snapshot_ref_held), unfolding(crate::specs::Parts::snapshot_ref))]
impl Coder<SnapshotRef> for Parts {
    ghost form = { parts.snapshot_ref };

    ghost rule = { parts.IsRef };

    fn write(one: &SnapshotRef, written: &mut Vec<u8>) -> Result<(), OutOfMemory> {
        Parts::write(&one.kind, written)?;
        Long::write(&one.snapshot_id, written)?;
        Optional::<Kept>::write(&one.max_ref_age_ms, written)?;
        Optional::<Kept>::write(&one.max_snapshot_age_ms, written)?;
        Optional::<Kept>::write(&one.min_snapshots_to_keep, written)
    }

    fn read(alloc: Global, unread: &mut Unread<'_>) -> Result<SnapshotRef, CodecRefused> {
        let kind: RefKind = Parts::read(alloc, unread)?;
        let snapshot_id = Long::read(alloc, unread)?;
        let max_ref_age_ms: Option<u64> = Optional::<Kept>::read(alloc, unread)?;
        let max_snapshot_age_ms: Option<u64> = Optional::<Kept>::read(alloc, unread)?;
        let min_snapshots_to_keep: Option<u64> = Optional::<Kept>::read(alloc, unread)?;
        Ok(SnapshotRef {
            kind,
            snapshot_id,
            max_ref_age_ms,
            max_snapshot_age_ms,
            min_snapshots_to_keep,
        })
    }
}

#[tactic(auto, using(crate::proofs::HeldLemmas::named_ref_held), unfolding(crate::specs::Parts::named_ref))]
impl Coder<NamedRef> for Parts {
    ghost form = { parts.named_ref };

    ghost rule = { IsNamedRef };

    fn write(named: &NamedRef, written: &mut Vec<u8>) -> Result<(), OutOfMemory> {
        Common::write(&named.name, written)?;
        Parts::write(&named.reference, written)
    }

    fn read(alloc: Global, unread: &mut Unread<'_>) -> Result<NamedRef, CodecRefused> {
        let name: Text = Common::read(alloc, unread)?;
        let reference: SnapshotRef = Parts::read(alloc, unread)?;
        Ok(NamedRef { name, reference })
    }
}
