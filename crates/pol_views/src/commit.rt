ghost use Rattle.std.specs.Prelude.{◌≡◌, Ok, IfOk, IfErr, OnOk};
ghost use Rattle.pol_drafts.specs.Drafts.{Becomes};
ghost use Rattle.pol_updates.specs.Updates.{IsRefusal};
ghost use Rattle.pol_views.specs.Updates.{after_each, after_one, begun, finished, view_after};

use crate::draft::ViewDraft;
use crate::left::{log_left, versions_left};
use crate::refused::ApplyViewRefused;
use crate::schema_updates::add_schema;
use crate::text_updates::{
    assign_uuid, remove_properties, set_location, set_properties, upgrade_format_version,
};
use crate::version_updates::{add_version, set_current_version};
use crate::{ViewMetadata, ViewUpdate};
use pol_drafts::{Stop, taken};
use pol_types::{Listed, OutOfMemory};
use pol_updates::{refused_at, settled};
use std::alloc::Global;

/// The metadata of a view after a list of updates (Iceberg REST OpenAPI, CommitViewRequest) at a moment, in
/// milliseconds since the Unix epoch.
#[tactic(auto, using(crate::proofs::CommitLemmas::refused_after), unfolding(crate::specs::Updates::view_after))]
pub fn apply_view(
    alloc: Global,
    meta: &ViewMetadata,
    updates: &[ViewUpdate],
    moment: u64,
) -> Result<ViewMetadata, ApplyViewRefused>
    ensures value { IfOk result (λ made. view_after meta.now updates.now moment ≡ Ok made) }
    ensures refused { IfErr result (IsRefusal (view_after meta.now updates.now moment)) }
{
    if updates.is_empty() {
        return Ok(meta.copy()?);
    }
    let mut draft = begun(meta)?;
    apply_each(alloc, &mut draft, moment, updates)?;
    Ok(finish(alloc, draft.meta)?)
}

/// A metadata before a list of updates.
fn begun(meta: &ViewMetadata) -> Result<ViewDraft, OutOfMemory>
    ensures { IfOk result (λ draft. draft ≡ begun meta.now) }
{
    Ok(ViewDraft {
        meta: meta.copy()?,
        last_schema: None,
        last_version: None,
    })
}

/// Applies updates in turn.
#[tactic(auto, using(crate::proofs::CommitLemmas::turns))]
fn apply_each(
    alloc: Global,
    draft: &mut ViewDraft,
    moment: u64,
    updates: &[ViewUpdate],
) -> Result<(), ApplyViewRefused>
    ensures made { OnOk result (after_each moment 0 updates.now draft.old ≡ Ok draft.new) }
    ensures refused { IfErr result (IsRefusal (after_each moment 0 updates.now draft.old)) }
{
    for (index, update) in updates.iter().enumerate() {
        if let Err(stop) = apply_one(alloc, draft, moment, update) {
            return Err(refused_at(index, stop));
        }
    }
    Ok(())
}

fn apply_one(
    alloc: Global,
    draft: &mut ViewDraft,
    moment: u64,
    update: &ViewUpdate,
) -> Result<(), Stop>
    ensures { Becomes (after_one moment update.now draft.old) result draft.new }
{
    match update {
        ViewUpdate::AssignUuid { uuid } => assign_uuid(draft, uuid),
        ViewUpdate::UpgradeFormatVersion { format_version } => {
            upgrade_format_version(draft, *format_version)
        }
        ViewUpdate::AddSchema { schema } => add_schema(alloc, draft, schema),
        ViewUpdate::SetLocation { location } => set_location(draft, location),
        ViewUpdate::SetProperties { updates } => set_properties(draft, updates),
        ViewUpdate::RemoveProperties { removals } => {
            remove_properties(draft, removals.as_slice());
            Ok(())
        }
        ViewUpdate::AddViewVersion { view_version } => add_version(alloc, draft, view_version),
        ViewUpdate::SetCurrentViewVersion { view_version_id } => {
            set_current_version(alloc, draft, moment, *view_version_id)
        }
        ViewUpdate::Unsupported { .. } => Ok(()),
    }
}

/// Does what is done after the whole of a list.
#[tactic(auto, unfolding(crate::specs::Updates::finished))]
fn finish(alloc: Global, changed: ViewMetadata) -> Result<ViewMetadata, OutOfMemory>
    ensures { IfOk result (λ made. made ≡ finished changed) }
{
    let mut meta = changed;
    let versions = taken(alloc, &mut meta.versions);
    let versions = versions_left(alloc, meta.current_version_id, versions)?;
    let log = taken(alloc, &mut meta.version_log);
    let log = log_left(alloc, versions.as_slice(), log)?;
    meta.versions = Listed::from(versions);
    meta.version_log = Listed::from(log);
    meta.location = settled(alloc, meta.location.as_str())?;
    Ok(meta)
}
