//! Commits to a view.
ghost use Rattle.std.specs.Prelude.{◌≡◌, ◌≤◌, ◌^◌, Ok, Some, IfOk};
ghost use Rattle.std.specs.Bool.{⊤};
ghost use Rattle.pol_rules.specs.Judged.{Acts, Judges, Sees, changes_to};
ghost use Rattle.pol_rules.specs.Rules.{time_of};
ghost use Rattle.pol_state.specs.Sound.{IsSound};
ghost use Rattle.pol_tables.specs.Table.{row_of};
ghost use Rattle.pol_view_rows.specs.Views.{view_id};
ghost use Rattle.pol_views.specs.Updates.{view_after};
ghost use Rattle.pol_view_actions.specs.Altered.{with_altered};
ghost use Rattle.pol_view_actions.specs.Replacing.{any_unserved, bad_update, committed, grown_if, lies_elsewhere, misplaced, moved_to, outside, replace_view, unmet, unserved};
ghost use Rattle.pol_view_actions.specs.Views.{loaded};

use crate::views::loaded;
use pol_access::Privilege;
use pol_commands::{OptionName, Refusal, ViewCommit};
use pol_content::{CatalogRow, Change, Handle, ViewRow};
use pol_locations::Location;
use pol_names::Plain;
use pol_puts::put_view;
use pol_rules::callers::signed_in;
use pol_rules::catalog_rules::{catalog_there, located};
use pol_rules::changes::{no_changes, one_change};
use pol_rules::namespace_rules::namespace_there;
use pol_rules::needs::allowed_on_view;
use pol_rules::rules::{Acted, Asked, Undone, time_of};
use pol_rules::table_rules::inside_catalog;
use pol_rules::view_rules::view_there;
use pol_types::{Listed, OutOfMemory};
use pol_views::{ApplyViewRefused, ViewMetadata, ViewUpdate, apply_view, first_unmet_view};
use std::alloc::Global;

/// Commits to a view (Iceberg REST OpenAPI, replaceView).
#[tactic(auto, unfolding(crate::specs::Replacing::replaced_view, crate::specs::Replacing::made_at, pol_rules::specs::Prologues::view_row_at))]
pub fn replace_view(asked: &Asked<'_>, name: &Plain, commit: &ViewCommit) -> Result<Acted, Undone>
    requires { IsSound asked.now.state.now.rows }
    ensures { Acts asked.now (λ s command. replace_view s command name.now commit.now) result }
{
    signed_in(asked)?;
    let catalog = catalog_there(asked, name)?;
    allowed_on_view(
        asked,
        Privilege::ViewWriteProperties,
        &commit.identifier,
        catalog,
    )?;
    namespace_there(asked, catalog.id, &commit.identifier.namespace)?;
    let row = view_there(asked, catalog, &commit.identifier)?;
    requirements_met(row, commit)?;
    let made = made_of(asked, row, commit)?;
    let moved = moved_to(asked.alloc, row, made.get())?;
    inside(catalog, &moved)?;
    all_served(commit.updates.as_slice())?;
    Ok(replaced(asked, row, commit, made)?)
}

/// Each requirement holds of the view.
#[tactic(auto, unfolding(crate::specs::Replacing::unmet))]
fn requirements_met(row: &ViewRow, commit: &ViewCommit) -> Result<(), Refusal>
    ensures { Sees (unmet commit.now row.now) (λ _. ⊤) result }
{
    let requirements = commit.requirements.as_slice();
    match first_unmet_view(row.metadata.get(), requirements) {
        Some(requirement) => Err(Refusal::RequirementFailed {
            table: 0,
            requirement: requirement as u64,
        }),
        None => Ok(()),
    }
}

/// The metadata of the view after its updates, in the handle by which its row is to have it.
#[tactic(auto, unfolding(crate::specs::Replacing::bad_update))]
fn made_of(
    asked: &Asked<'_>,
    row: &ViewRow,
    commit: &ViewCommit,
) -> Result<Handle<ViewMetadata>, Undone>
    ensures { let time = time_of asked.now.state.now.rows asked.now.command.now in
        Judges (bad_update time commit.now row.now)
        (λ made. view_after row.now.metadata commit.now.updates time ≡ Ok made) result }
{
    let updates = commit.updates.as_slice();
    match apply_view(asked.alloc, row.metadata.get(), updates, time_of(asked)) {
        Ok(made) => Ok(Handle::new(asked.alloc, made)?),
        Err(ApplyViewRefused::Refused { index, why }) => {
            Err(Undone::Refused(Refusal::UpdateRefused {
                table: 0,
                update: index as u64,
                why,
            }))
        }
        Err(ApplyViewRefused::OutOfMemory) => Err(Undone::OutOfMemory),
    }
}

/// Where the view lies from now on, where it is moved.
#[tactic(auto, unfolding(crate::specs::Replacing::misplaced))]
fn moved_to(alloc: Global, row: &ViewRow, made: &ViewMetadata) -> Result<Option<Location>, Undone>
    ensures { Judges (misplaced row.now made.now) (λ moved. moved ≡ moved_to row.now made.now) result }
{
    if !lies_elsewhere(row, made) {
        return Ok(None);
    }
    let location = located(alloc, &made.location)?;
    Ok(Some(location))
}

/// Whether a metadata has its view lie elsewhere than before.
fn lies_elsewhere(row: &ViewRow, made: &ViewMetadata) -> bool
    ensures { result ≡ lies_elsewhere row.now made.now }
{
    made.location.as_str() != row.metadata.get().location.as_str()
}

/// A view that is moved lies where the catalogue may have views.
fn inside(catalog: &CatalogRow, moved: &Option<Location>) -> Result<(), Undone>
    ensures { Judges (outside moved.now catalog.now) (λ _. ⊤) result }
{
    match moved {
        Some(location) => inside_catalog(catalog, location),
        None => Ok(()),
    }
}

/// Each update is served.
#[tactic(auto, unfolding(crate::specs::Replacing::any_unserved))]
fn all_served(updates: &[ViewUpdate]) -> Result<(), Refusal>
    ensures { Sees (any_unserved updates.now) (λ _. ⊤) result }
{
    for update in updates {
        served(update)?;
    }
    Ok(())
}

fn served(update: &ViewUpdate) -> Result<(), Refusal>
    ensures { Sees (unserved update.now) (λ _. ⊤) result }
{
    if let ViewUpdate::Unsupported { action } = update {
        return Err(Refusal::Unsupported {
            name: OptionName::Update(*action),
        });
    }
    Ok(())
}

/// The view is put as its commit leaves it.
#[tactic(auto, using(crate::proofs::AlteredLemmas::version_within))]
fn replaced(
    asked: &Asked<'_>,
    row: &ViewRow,
    commit: &ViewCommit,
    made: Handle<ViewMetadata>,
) -> Result<Acted, OutOfMemory>
    requires sound { IsSound asked.now.state.now.rows }
    requires there { row_of view_id row.now.id asked.now.state.now.rows.content.views ≡ Some row.now }
    requires made { let time = time_of asked.now.state.now.rows asked.now.command.now in
        view_after row.now.metadata commit.now.updates time ≡ Ok made }
    ensures answer { IfOk result (λ acted. acted.answer ≡ loaded (committed commit.now row.now made)) }
    ensures changes { IfOk result (λ acted. acted.changes
        ≡ changes_to asked.now (λ s. with_altered s (committed commit.now row.now made))) }
{
    let after = committed(row, commit, made)?;
    Acted::of(
        loaded(asked.alloc, &after),
        replaced_changes(asked, row, commit, after),
    )
}

/// A view after a commit to it.
fn committed(
    row: &ViewRow,
    commit: &ViewCommit,
    made: Handle<ViewMetadata>,
) -> Result<ViewRow, OutOfMemory>
    requires { row.now.version ≤ 2 ^ 62 }
    ensures { IfOk result (λ after. after ≡ committed commit.now row.now made) }
{
    Ok(ViewRow {
        id: row.id,
        namespace: row.namespace,
        name: row.name.clone()?,
        version: grown_if(!commit.updates.is_empty(), row.version),
        metadata: made,
    })
}

/// A number that grows by one where something is so.
fn grown_if(test: bool, number: u64) -> u64
    requires { number ≤ 2 ^ 63 }
    ensures { result ≡ grown_if test number }
{
    if test { number + 1 } else { number }
}

/// The change by which a view is put as its commit leaves it: none where the commit has no updates.
#[tactic(auto, using(crate::proofs::ChangesLemmas::replaced_changes, crate::proofs::ChangesLemmas::kept_changes))]
fn replaced_changes(
    asked: &Asked<'_>,
    row: &ViewRow,
    commit: &ViewCommit,
    after: ViewRow,
) -> Result<Listed<Change>, OutOfMemory>
    requires sound { IsSound asked.now.state.now.rows }
    requires there { row_of view_id row.now.id asked.now.state.now.rows.content.views ≡ Some row.now }
    requires made { let time = time_of asked.now.state.now.rows asked.now.command.now in
        view_after row.now.metadata commit.now.updates time ≡ Ok after.metadata }
    requires after { after ≡ committed commit.now row.now after.metadata }
    ensures { IfOk result (λ changes. changes ≡ changes_to asked.now (λ s. with_altered s after)) }
{
    if commit.updates.is_empty() {
        return Ok(no_changes(asked.alloc));
    }
    let put = put_view(asked.alloc, after)?;
    one_change(asked, put)
}
