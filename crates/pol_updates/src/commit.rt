ghost use Rattle.std.specs.List.{suffix_len};
ghost use Rattle.std.specs.Prelude.{◌≡◌, ◌+◌, ◌≤◌, ℕ, Ok, IfOk, IfErr, OnOk, length, nat_eq};
ghost use Rattle.indexmap.specs.IndexSet.{contains};
ghost use Rattle.pol_drafts.specs.Drafts.{Becomes, begun};
ghost use Rattle.pol_locations.specs.Location.{IsParseRefusal};
ghost use Rattle.pol_updates.specs.Snapshots.{has_snapshot};
ghost use Rattle.pol_updates.specs.Updates.{IsRefusal, after_each, after_one, finished, last_items};
ghost use Rattle.pol_updates.specs.Updates.{log_left, logged, metadata_after, refused_at, settled};

use crate::refused::ApplyRefused;
use crate::snapshot_updates::{add_snapshot, remove_ref, remove_snapshots, set_snapshot_ref};
use crate::text_updates::{
    assign_uuid, remove_properties, set_location, set_properties, upgrade_format_version,
};
use crate::update::Update;
use indexmap::IndexSet;
use pol_drafts::{
    Draft, Stop, add_order, add_schema, add_spec, remove_schemas, remove_specs, set_current_schema,
    set_default_order, set_default_spec, taken,
};
use pol_locations::{Location, LocationRefused, Steps};
use pol_meta::{MetadataLogEntry, Snapshot, SnapshotLogEntry, TableMetadata, metadata_file};
use pol_types::{Listed, OutOfMemory, Text};
use std::alloc::{AllocError, Global};
use std::sync::ledger::Ledger;

/// The most entries of a metadata log.
const MOST_METADATA: usize = 100;

/// The most entries of a snapshot log.
const MOST_SNAPSHOTS: usize = 10_000;

/// The metadata of a table after a list of updates (Iceberg REST OpenAPI, CommitTableRequest) at a moment, in
/// milliseconds since the Unix epoch. The metadata is that of a version of the table, which its log tells. Each update
/// that is applied is a step.
#[tactic(auto, using(crate::proofs::CommitLemmas::refused_after), unfolding(crate::specs::Updates::metadata_after))]
pub fn apply<L: Ledger>(
    alloc: Global,
    meta: &TableMetadata,
    version: u64,
    updates: &[Update],
    moment: u64,
    steps: &mut Steps<L>,
) -> Result<TableMetadata, ApplyRefused>
    ensures value { IfOk result (λ made. metadata_after meta.now version updates.now moment ≡ Ok made) }
    ensures refused { IfErr result (IsRefusal (metadata_after meta.now version updates.now moment)) }
    ensures counted { OnOk result (steps.new ≡ steps.old + length updates.now) }
    ensures bounded { steps.new ≤ steps.old + length updates.now }
{
    if updates.is_empty() {
        return Ok(meta.copy()?);
    }
    let mut draft = begun(meta)?;
    apply_each(alloc, &mut draft, moment, updates, steps)?;
    Ok(finish(alloc, meta, version, moment, draft.meta)?)
}

/// A metadata before a list of updates.
fn begun(meta: &TableMetadata) -> Result<Draft, OutOfMemory>
    ensures { IfOk result (λ draft. draft ≡ begun meta.now) }
{
    Ok(Draft {
        meta: meta.copy()?,
        last_schema: None,
        last_spec: None,
        last_order: None,
    })
}

/// Applies updates in turn.
#[tactic(auto, using(crate::proofs::CommitLemmas::turns))]
fn apply_each<L: Ledger>(
    alloc: Global,
    draft: &mut Draft,
    moment: u64,
    updates: &[Update],
    steps: &mut Steps<L>,
) -> Result<(), ApplyRefused>
    ensures made { OnOk result (after_each moment 0 updates.now draft.old ≡ Ok draft.new) }
    ensures refused { IfErr result (IsRefusal (after_each moment 0 updates.now draft.old)) }
    ensures counted { OnOk result (steps.new ≡ steps.old + length updates.now) }
    ensures bounded { steps.new ≤ steps.old + length updates.now }
{
    for (index, update) in updates.iter().enumerate() {
        if let Err(stop) = apply_one(alloc, draft, moment, update) {
            return Err(refused_at(index, stop));
        }
        steps.tick();
    }
    Ok(())
}

/// The refusal of an update at a place.
pub fn refused_at(index: usize, stop: Stop) -> ApplyRefused
    ensures { result ≡ refused_at index stop }
{
    match stop {
        Stop::Refused(why) => ApplyRefused::Refused { index, why },
        Stop::OutOfMemory => ApplyRefused::OutOfMemory,
    }
}

fn apply_one(alloc: Global, draft: &mut Draft, moment: u64, update: &Update) -> Result<(), Stop>
    ensures { Becomes (after_one moment update.now draft.old) result draft.new }
{
    match update {
        Update::AssignUuid { uuid } => assign_uuid(draft, uuid),
        Update::UpgradeFormatVersion { format_version } => {
            upgrade_format_version(draft, *format_version)
        }
        Update::AddSchema { schema } => add_schema(alloc, draft, schema),
        Update::SetCurrentSchema { schema_id } => set_current_schema(draft, *schema_id),
        Update::AddSpec { spec } => add_spec(alloc, draft, spec),
        Update::SetDefaultSpec { spec_id } => set_default_spec(draft, *spec_id),
        Update::AddSortOrder { sort_order } => add_order(alloc, draft, sort_order),
        Update::SetDefaultSortOrder { sort_order_id } => set_default_order(draft, *sort_order_id),
        Update::AddSnapshot { snapshot } => add_snapshot(alloc, draft, snapshot),
        Update::SetSnapshotRef {
            ref_name,
            reference,
        } => set_snapshot_ref(alloc, draft, moment, ref_name, reference),
        Update::RemoveSnapshots { snapshot_ids } => {
            remove_snapshots(alloc, draft, snapshot_ids.as_slice());
            Ok(())
        }
        Update::RemoveSnapshotRef { ref_name } => {
            remove_ref(alloc, draft, ref_name);
            Ok(())
        }
        Update::SetLocation { location } => set_location(draft, location),
        Update::SetProperties { updates } => set_properties(draft, updates),
        Update::RemoveProperties { removals } => {
            remove_properties(draft, removals.as_slice());
            Ok(())
        }
        Update::RemovePartitionSpecs { spec_ids } => {
            remove_specs(alloc, draft, spec_ids.as_slice())
        }
        Update::RemoveSchemas { schema_ids } => {
            remove_schemas(alloc, draft, schema_ids.as_slice())
        }
        Update::Unsupported { .. } => Ok(()),
    }
}

/// Does what is done after the whole of a list.
#[tactic(auto, unfolding(crate::specs::Updates::finished))]
fn finish(
    alloc: Global,
    former: &TableMetadata,
    version: u64,
    moment: u64,
    changed: TableMetadata,
) -> Result<TableMetadata, OutOfMemory>
    ensures { IfOk result (λ made. made ≡ finished former.now version moment changed) }
{
    let mut meta = changed;
    log_former(alloc, &mut meta.metadata_log, former, version)?;
    let log = taken(alloc, &mut meta.snapshot_log);
    let log = log_left(alloc, meta.snapshots.as_slice(), log)?;
    meta.snapshot_log = Listed::from(log);
    meta.location = settled(alloc, meta.location.as_str())?;
    meta.last_updated_ms = moment;
    Ok(meta)
}

/// Puts an entry of the former metadata at the end of the metadata log.
fn log_former(
    alloc: Global,
    log: &mut Listed<MetadataLogEntry>,
    former: &TableMetadata,
    version: u64,
) -> Result<(), OutOfMemory>
    ensures { OnOk result (log.new ≡ logged former.now version log.old) }
{
    let metadata_file = metadata_file(
        alloc,
        former.location.as_str(),
        version,
        &former.table_uuid,
    )?;
    let mut entries = taken(alloc, log);
    entries.push(MetadataLogEntry {
        metadata_file,
        timestamp_ms: former.last_updated_ms,
    })?;
    *log = Listed::from(last_items(alloc, entries, MOST_METADATA)?);
    Ok(())
}

/// The longest end of a snapshot log whose snapshots are all there, and its last 10,000 entries at most.
#[tactic(auto, using(crate::proofs::CommitLemmas::same_end))]
fn log_left(
    alloc: Global,
    snapshots: &[Snapshot],
    log: Vec<SnapshotLogEntry>,
) -> Result<Vec<SnapshotLogEntry>, OutOfMemory>
    ensures { IfOk result (λ left. left.items ≡ log_left snapshots.now log.items) }
{
    let ids = ids_of(alloc, snapshots)?;
    let there = there_at_end(&ids, log.as_slice());
    last_items(alloc, log, there.min(MOST_SNAPSHOTS))
}

/// The ids of snapshots.
fn ids_of(alloc: Global, snapshots: &[Snapshot]) -> Result<IndexSet<u64>, AllocError>
    ensures { IfOk result (λ ids. (id : ℕ) → contains nat_eq ids id ≡ has_snapshot snapshots.now id) }
{
    let mut ids = IndexSet::new(alloc);
    for snapshot in snapshots {
        ids.insert(snapshot.snapshot_id)?;
    }
    Ok(ids)
}

/// Whether the snapshot of an entry has one of these ids.
fn is_of(ids: &IndexSet<u64>, entry: &SnapshotLogEntry) -> bool
    ensures { result ≡ contains nat_eq ids.now entry.now.snapshot_id }
{
    ids.contains(&entry.snapshot_id)
}

/// How many entries at the end of a snapshot log have snapshots of these ids.
#[tactic(auto, using(crate::proofs::CommitLemmas::ends))]
fn there_at_end(ids: &IndexSet<u64>, log: &[SnapshotLogEntry]) -> usize
    ensures { result ≡ suffix_len (λ entry. contains nat_eq ids.now entry.snapshot_id) log.now }
{
    let mut start = log.len();
    while start > 0 {
        if !is_of(ids, &log[start - 1]) {
            return log.len() - start;
        }
        start -= 1;
    }
    log.len()
}

/// The last so many items, or all where there are fewer.
pub fn last_items<T: Drop>(
    alloc: Global,
    items: Vec<T>,
    count: usize,
) -> Result<Vec<T>, OutOfMemory>
    ensures { IfOk result (λ last. last.items ≡ last_items count items.items) }
{
    let mut items = items;
    Ok(items.split_off(items.len().saturating_sub(count))?)
}

/// The text of a location as it is printed. A text that is no location stays.
pub fn settled(alloc: Global, text: &str) -> Result<Text, OutOfMemory>
    ensures { IfOk result (λ made. made ≡ settled text.now) }
{
    match Location::parse(alloc, text) {
        Ok(location) => Ok(Text::from(location.text(alloc)?)),
        Err(why) => unsettled(alloc, text, why),
    }
}

/// A text that is no location, which stays, unless memory is wanting.
#[tactic(auto, using(crate::proofs::CommitLemmas::text_stays))]
fn unsettled(alloc: Global, text: &str, why: LocationRefused) -> Result<Text, OutOfMemory>
    requires { IsParseRefusal text.now why }
    ensures { IfOk result (λ made. made ≡ settled text.now) }
{
    if let LocationRefused::OutOfMemory = why {
        return Err(OutOfMemory);
    }
    Ok(Text::from(String::from_str(alloc, text)?))
}
