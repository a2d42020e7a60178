//! The tables that commits name, and what stands against naming them.
ghost use Rattle.std.specs.Prelude.{◌≡◌, length, map, nat_eq, IfOk};
ghost use Rattle.std.specs.Bool.{⊤};
ghost use Rattle.std.specs.List.{IsDistinct};
ghost use Rattle.pol_rules.specs.Judged.{Judges, Sees};
ghost use Rattle.pol_rules.specs.Needs.{forbidden};
ghost use Rattle.pol_state.specs.Bounds.{first_refusal};
ghost use Rattle.pol_state.specs.Sound.{IsSound};
ghost use Rattle.pol_commit_actions.specs.Outcome.{CommitTo};
ghost use Rattle.pol_commit_actions.specs.Replaced.{AreThere};
ghost use Rattle.pol_commit_actions.specs.Rules.{any_unserved, commits_at, no_namespaces, no_tables, table_twice, unserved, write_needs};
ghost use Rattle.pol_commit_actions.specs.Seen.{commits_to};

use crate::target::Target;
use indexmap::IndexSet;
use pol_access::Privilege;
use pol_commands::{Commit, OptionName, Refusal};
use pol_content::CatalogRow;
use pol_rules::namespace_rules::namespace_there;
use pol_rules::needs::{Need, allowed};
use pol_rules::rules::{Asked, Undone};
use pol_rules::table_rules::table_there;
use pol_types::OutOfMemory;
use pol_updates::Update;
use std::alloc::Global;

/// The caller may write the properties of each of the tables.
pub(crate) fn allowed_on_each(
    asked: &Asked<'_>,
    commits: &[Commit],
    catalog: &CatalogRow,
) -> Result<(), Undone>
    requires { IsSound asked.now.state.now.rows }
    ensures { let s = asked.now.state.now.rows in
        Judges (forbidden s asked.now.command.now (write_needs s commits.now catalog.now)) (λ _. ⊤) result }
{
    let needs = write_needs(asked, commits, catalog)?;
    allowed(asked, needs.as_slice())
}

/// What commits need, on the deepest part of each table's path that is there.
fn write_needs(
    asked: &Asked<'_>,
    commits: &[Commit],
    catalog: &CatalogRow,
) -> Result<Vec<Need>, OutOfMemory>
    requires { IsSound asked.now.state.now.rows }
    ensures { IfOk result (λ needs. needs.items ≡ write_needs asked.now.state.now.rows commits.now catalog.now) }
{
    let content = asked.state.content();
    let mut needs = Vec::with_capacity(asked.alloc, commits.len())?;
    for commit in commits {
        let on = content.deepest_of_table(asked.alloc, catalog.id, &commit.identifier)?;
        needs.push(Need {
            privilege: Privilege::TableWriteProperties,
            on,
        })?;
    }
    Ok(needs)
}

/// The namespaces of all tables are there.
#[tactic(auto, unfolding(crate::specs::Rules::no_namespaces))]
pub(crate) fn namespaces_there(
    asked: &Asked<'_>,
    commits: &[Commit],
    catalog: &CatalogRow,
) -> Result<(), Undone>
    requires { IsSound asked.now.state.now.rows }
    ensures { Judges (no_namespaces asked.now.state.now.rows commits.now catalog.now) (λ _. ⊤) result }
{
    for commit in commits {
        namespace_there(asked, catalog.id, &commit.identifier.namespace)?;
    }
    Ok(())
}

/// The commits with their tables, which are all there. Their namespaces are.
#[tactic(auto, unfolding(crate::specs::Rules::no_tables, crate::specs::Rules::commits_at))]
pub(crate) fn tables_there<'a>(
    asked: &Asked<'a>,
    commits: &'a [Commit],
    catalog: &CatalogRow,
) -> Result<Vec<Target<'a>>, Undone>
    requires { IsSound asked.now.state.now.rows }
    ensures { let s = asked.now.state.now.rows in
        Judges (no_tables s commits.now catalog.now)
        (λ targets. (commits_to targets.items ≡ commits_at s commits.now catalog.now)
        × AreThere s (commits_to targets.items)
        × (length targets.items ≡ length commits.now)) result }
{
    let mut targets = Vec::with_capacity(asked.alloc, commits.len())?;
    for commit in commits {
        let row = table_there(asked, catalog, &commit.identifier)?;
        targets.push(Target { row, commit })?;
    }
    Ok(targets)
}

/// No table is named twice.
#[tactic(auto, unfolding(crate::specs::Rules::table_twice))]
pub(crate) fn named_once(alloc: Global, targets: &[Target<'_>]) -> Result<(), Undone>
    ensures { let commits = commits_to targets.now in
        Judges (table_twice commits)
        (λ _. IsDistinct nat_eq (map (λ (one : CommitTo). one.row.id) commits)) result }
{
    let mut ids = IndexSet::new(alloc);
    for (second, target) in targets.iter().enumerate() {
        let (first, is_new) = ids.insert_full(target.row.id)?;
        if !is_new {
            return Err(Undone::Refused(Refusal::TableTwice {
                first: first as u64,
                second: second as u64,
            }));
        }
    }
    Ok(())
}

/// Each update is served.
#[tactic(auto, unfolding(crate::specs::Rules::any_unserved))]
pub(crate) fn all_served(commits: &[Commit]) -> Result<(), Refusal>
    ensures { Sees (any_unserved commits.now) (λ _. ⊤) result }
{
    for commit in commits {
        each_served(commit.updates.as_slice())?;
    }
    Ok(())
}

/// Each update of one commit is served.
fn each_served(updates: &[Update]) -> Result<(), Refusal>
    ensures { Sees (first_refusal (map unserved updates.now)) (λ _. ⊤) result }
{
    for update in updates {
        served(update)?;
    }
    Ok(())
}

fn served(update: &Update) -> Result<(), Refusal>
    ensures { Sees (unserved update.now) (λ _. ⊤) result }
{
    if let Update::Unsupported { action } = update {
        return Err(Refusal::Unsupported {
            name: OptionName::Update(*action),
        });
    }
    Ok(())
}
