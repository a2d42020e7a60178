//! What commits make of their tables' metadata.
ghost use Rattle.std.specs.Prelude.{◌≡◌, ◌<◌, IfErr, IfOk, Ok, option_map};
ghost use Rattle.std.specs.Bool.{⊤};
ghost use Rattle.pol_commands.specs.declared.reply.Refusal.TheVariants.{RequirementFailed};
ghost use Rattle.pol_rules.specs.Judged.{Judges, Sees};
ghost use Rattle.pol_rules.specs.Rules.{time_of};
ghost use Rattle.pol_updates.specs.Updates.{IsRefusal};
ghost use Rattle.pol_commit_actions.specs.Outcome.{commit_outcome, made_from, made_in, refused_by, told_at, unmet_from, unmet_in};
ghost use Rattle.pol_commit_actions.specs.Seen.{commit_to, commits_to};

use crate::target::Target;
use pol_commands::Refusal;
use pol_meta::TableMetadata;
use pol_rules::rules::{Asked, Undone, time_of};
use pol_updates::{ApplyRefused, Steps, apply, first_unmet};
use std::alloc::Global;
use std::marker::Brand;
use std::sync::ledger::{Blank, Ledger};

/// The new metadata of all tables: each requirement of each table holds, and no update is refused.
#[tactic(auto, unfolding(crate::specs::Outcome::commit_outcome))]
pub(crate) fn outcome(
    asked: &Asked<'_>,
    targets: &[Target<'_>],
) -> Result<Vec<TableMetadata>, Undone>
    ensures { let time = time_of asked.now.state.now.rows asked.now.command.now in
        let outcome = commit_outcome time (commits_to targets.now) in
        Judges (refused_by outcome) (λ made. outcome ≡ Ok made.items) result }
{
    requirements_met(targets)?;
    all_made(asked, targets)
}

/// Each requirement of each table holds.
fn requirements_met(targets: &[Target<'_>]) -> Result<(), Refusal>
    ensures { Sees (unmet_from 0 (commits_to targets.now)) (λ _. ⊤) result }
{
    for (table, target) in targets.iter().enumerate() {
        requirements_hold(table, target)?;
    }
    Ok(())
}

/// Each requirement of one table holds. The table has this place.
fn requirements_hold(table: usize, target: &Target<'_>) -> Result<(), Refusal>
    ensures { Sees (option_map (RequirementFailed table) (unmet_in (commit_to target.now))) (λ _. ⊤) result }
{
    let requirements = target.commit.requirements.as_slice();
    match first_unmet(target.row.metadata.get(), requirements) {
        Some(requirement) => Err(Refusal::RequirementFailed {
            table: table as u64,
            requirement: requirement as u64,
        }),
        None => Ok(()),
    }
}

/// The metadata of all tables after their updates.
fn all_made(asked: &Asked<'_>, targets: &[Target<'_>]) -> Result<Vec<TableMetadata>, Undone>
    ensures { let all = made_from (time_of asked.now.state.now.rows asked.now.command.now) 0 (commits_to targets.now) in
        Judges (refused_by all) (λ made. all ≡ Ok made.items) result }
{
    let mut made = Vec::with_capacity(asked.alloc, targets.len())?;
    for (table, target) in targets.iter().enumerate() {
        made.push(made_in(asked, table, target)?)?;
    }
    Ok(made)
}

/// The metadata of a table after its updates. The table has this place.
fn made_in(asked: &Asked<'_>, table: usize, target: &Target<'_>) -> Result<TableMetadata, Undone>
    ensures { let time = time_of asked.now.state.now.rows asked.now.command.now in
        let made = told_at table (made_in time (commit_to target.now)) in
        Judges (refused_by made) (λ meta. made ≡ Ok meta) result }
{
    match updated::<Brand>(asked.alloc, Blank::new(1), target, time_of(asked)) {
        Ok(made) => Ok(made),
        Err(ApplyRefused::Refused { index, why }) => {
            Err(Undone::Refused(Refusal::UpdateRefused {
                table: table as u64,
                update: index as u64,
                why,
            }))
        }
        Err(ApplyRefused::OutOfMemory) => Err(Undone::OutOfMemory),
    }
}

/// The metadata of a table after its updates at a moment, counting the steps that this takes.
fn updated<L: Ledger>(
    alloc: Global,
    blank: Blank,
    target: &Target<'_>,
    moment: u64,
) -> Result<TableMetadata, ApplyRefused>
    requires name { blank.name ≡ L.name }
    requires parts { blank.parts ≡ L.parts }
    requires some { 0 < blank.parts }
    ensures made { IfOk result (λ made. made_in moment (commit_to target.now) ≡ Ok made) }
    ensures refused { IfErr result (IsRefusal (made_in moment (commit_to target.now))) }
{
    let mut steps = Steps::<L>::new(blank);
    let updates = target.commit.updates.as_slice();
    apply(
        alloc,
        target.row.metadata.get(),
        target.row.version,
        updates,
        moment,
        &mut steps,
    )
}
