ghost use Rattle.std.specs.Prelude.{◌≡◌, not, filter, IfOk, OnOk};
ghost use Rattle.std.specs.Ordering.{is_gt, is_lt};
ghost use Rattle.std.specs.Str.{bytes_eq};
ghost use Rattle.pol_drafts.specs.Drafts.{Becomes};
ghost use Rattle.pol_drafts.specs.Ids.{has_id};
ghost use Rattle.pol_updates.specs.Snapshots.{add_snapshot, compared, has_branch_numbers, has_snapshot, is_branch, is_main_tag, main};
ghost use Rattle.pol_updates.specs.Snapshots.{refs_to_others, set_snapshot_ref, with_current_snapshot, with_named_ref};
ghost use Rattle.pol_updates.specs.Snapshots.{with_ref, with_refs_left, with_snapshot_ref, without_ref};
ghost use Rattle.pol_updates.specs.Snapshots.{without_snapshots};

use pol_drafts::{Draft, Stop, copied, push, taken};
use pol_meta::{NamedRef, RefKind, Snapshot, SnapshotLogEntry, SnapshotRef, Why};
use pol_requirements::snapshot_named;
use pol_types::{Listed, OutOfMemory, Text};
use std::alloc::Global;

/// The reference whose snapshot is the current one.
const MAIN: &str = "main";

/// Adds a snapshot. Its sequence number becomes the last one.
#[tactic(auto, unfolding(crate::specs::Snapshots::add_snapshot))]
pub fn add_snapshot(alloc: Global, draft: &mut Draft, snapshot: &Snapshot) -> Result<(), Stop>
    ensures { Becomes (add_snapshot snapshot.now draft.old) result draft.new }
{
    if has_snapshot(draft.meta.snapshots.as_slice(), snapshot.snapshot_id) {
        return Err(Stop::Refused(Why::SnapshotThere));
    }
    if snapshot.sequence_number <= draft.meta.last_sequence_number {
        return Err(Stop::Refused(Why::SequenceNotAbove));
    }
    let added = copied(snapshot)?;
    push(alloc, &mut draft.meta.snapshots, added)?;
    draft.meta.last_sequence_number = snapshot.sequence_number;
    Ok(())
}

/// Sets a reference. `main` sets the current snapshot at a moment, too.
#[tactic(auto, unfolding(crate::specs::Snapshots::set_snapshot_ref))]
pub fn set_snapshot_ref(
    alloc: Global,
    draft: &mut Draft,
    moment: u64,
    name: &Text,
    reference: &SnapshotRef,
) -> Result<(), Stop>
    ensures { Becomes (set_snapshot_ref moment name.now reference.now draft.old) result draft.new }
{
    if !has_snapshot(draft.meta.snapshots.as_slice(), reference.snapshot_id) {
        return Err(Stop::Refused(Why::NoSuchSnapshot));
    }
    if is_main_tag(name, reference) {
        return Err(Stop::Refused(Why::MainNotBranch));
    }
    if has_branch_numbers(reference) {
        return Err(Stop::Refused(Why::BranchOnly));
    }
    Ok(set_ref(alloc, draft, moment, name, reference)?)
}

/// Removes the snapshots of these ids, and all references to them.
#[tactic(auto, unfolding(crate::specs::Snapshots::without_snapshots))]
pub fn remove_snapshots(alloc: Global, draft: &mut Draft, ids: &[u64])
    ensures { draft.new ≡ without_snapshots ids.now draft.old }
{
    let snapshots = taken(alloc, &mut draft.meta.snapshots);
    draft.meta.snapshots = Listed::from(snapshots_left(snapshots, ids));
    let refs = taken(alloc, &mut draft.meta.refs);
    leave_refs(draft, refs_to_others(refs, ids));
}

/// Removes the reference of a name.
#[tactic(auto, unfolding(crate::specs::Snapshots::without_ref))]
pub fn remove_ref(alloc: Global, draft: &mut Draft, name: &Text)
    ensures { draft.new ≡ without_ref name.now draft.old }
{
    let refs = taken(alloc, &mut draft.meta.refs);
    leave_refs(draft, refs_of_others(refs, name));
}

fn has_snapshot(snapshots: &[Snapshot], id: u64) -> bool
    ensures { result ≡ has_snapshot snapshots.now id }
{
    snapshots.iter().any(|snapshot| snapshot.snapshot_id == id)
}

fn is_main(name: &Text) -> bool
    ensures { result ≡ bytes_eq name.now main }
{
    name.as_str() == MAIN
}

fn is_branch(reference: &SnapshotRef) -> bool
    ensures { result ≡ is_branch reference.now.kind }
{
    match reference.kind {
        RefKind::Branch => true,
        RefKind::Tag => false,
    }
}

/// Whether `main` is to be a tag.
fn is_main_tag(name: &Text, reference: &SnapshotRef) -> bool
    ensures { result ≡ is_main_tag name.now reference.now }
{
    is_main(name) && !is_branch(reference)
}

/// Whether a tag has a number that only branches have.
fn has_branch_numbers(reference: &SnapshotRef) -> bool
    ensures { result ≡ has_branch_numbers reference.now }
{
    !is_branch(reference)
        && (reference.max_snapshot_age_ms.is_some() || reference.min_snapshots_to_keep.is_some())
}

fn set_ref(
    alloc: Global,
    draft: &mut Draft,
    moment: u64,
    name: &Text,
    reference: &SnapshotRef,
) -> Result<(), OutOfMemory>
    ensures { OnOk result (draft.new ≡ with_snapshot_ref moment name.now reference.now draft.old) }
{
    set_named_ref(alloc, draft, name, reference)?;
    if is_main(name) {
        set_current(alloc, draft, moment, reference.snapshot_id)?;
    }
    Ok(())
}

fn set_named_ref(
    alloc: Global,
    draft: &mut Draft,
    name: &Text,
    reference: &SnapshotRef,
) -> Result<(), OutOfMemory>
    ensures { OnOk result (draft.new ≡ with_named_ref name.now reference.now draft.old) }
{
    let named = NamedRef {
        name: name.clone()?,
        reference: *reference,
    };
    let refs = taken(alloc, &mut draft.meta.refs);
    draft.meta.refs = Listed::from(with_ref(refs, named)?);
    Ok(())
}

/// References in byte order of their names, once one is set.
#[tactic(auto, using(crate::proofs::RefLemmas::item_between))]
fn with_ref(refs: Vec<NamedRef>, set: NamedRef) -> Result<Vec<NamedRef>, OutOfMemory>
    ensures { IfOk result (λ made. made.items ≡ with_ref set.name set.reference refs.items) }
{
    let refs = Listed::from(refs);
    let mut made = refs_below(refs.clone()?.into(), &set.name);
    let mut above = refs_above(refs.into(), &set.name);
    made.push(set)?;
    made.append(&mut above)?;
    Ok(made)
}

/// The references of lower names.
fn refs_below(refs: Vec<NamedRef>, name: &Text) -> Vec<NamedRef>
    ensures { result.items ≡ filter (λ named. is_lt (compared name.now named)) refs.items }
{
    let mut left = refs;
    left.retain(|named| named.name < *name);
    left
}

/// The references of higher names.
fn refs_above(refs: Vec<NamedRef>, name: &Text) -> Vec<NamedRef>
    ensures { result.items ≡ filter (λ named. is_gt (compared name.now named)) refs.items }
{
    let mut left = refs;
    left.retain(|named| named.name > *name);
    left
}

fn set_current(
    alloc: Global,
    draft: &mut Draft,
    moment: u64,
    snapshot_id: u64,
) -> Result<(), OutOfMemory>
    ensures { OnOk result (draft.new ≡ with_current_snapshot moment snapshot_id draft.old) }
{
    draft.meta.current_snapshot_id = Some(snapshot_id);
    let entry = SnapshotLogEntry {
        snapshot_id,
        timestamp_ms: moment,
    };
    push(alloc, &mut draft.meta.snapshot_log, entry)?;
    Ok(())
}

/// Leaves these references. The current snapshot is that of `main` among them.
fn leave_refs(draft: &mut Draft, refs: Vec<NamedRef>)
    ensures { draft.new ≡ with_refs_left refs.items draft.old }
{
    draft.meta.current_snapshot_id = snapshot_named(MAIN, refs.as_slice());
    draft.meta.refs = Listed::from(refs);
}

fn snapshots_left(snapshots: Vec<Snapshot>, gone: &[u64]) -> Vec<Snapshot>
    ensures { result.items ≡ filter (λ snapshot. not (has_id snapshot.snapshot_id gone.now)) snapshots.items }
{
    let mut left = snapshots;
    left.retain(|snapshot| !gone.contains(&snapshot.snapshot_id));
    left
}

/// The references to other snapshots than these.
fn refs_to_others(refs: Vec<NamedRef>, gone: &[u64]) -> Vec<NamedRef>
    ensures { result.items ≡ refs_to_others gone.now refs.items }
{
    let mut left = refs;
    left.retain(|named| !gone.contains(&named.reference.snapshot_id));
    left
}

/// The references of other names.
fn refs_of_others(refs: Vec<NamedRef>, name: &Text) -> Vec<NamedRef>
    ensures { result.items ≡ filter (λ named. not (bytes_eq named.name name.now)) refs.items }
{
    let mut left = refs;
    left.retain(|named| named.name != *name);
    left
}
