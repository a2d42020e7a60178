//! The changes that commits make.
ghost use Rattle.std.specs.Prelude.{◌≡◌, [], IfOk, filter, map};
ghost use Rattle.pol_content.specs.declared.change.Change.TheVariants.{PutTable};
ghost use Rattle.pol_rules.specs.Judged.{changes_to};
ghost use Rattle.pol_rules.specs.Rules.{time_of};
ghost use Rattle.pol_state.specs.Changes.{headed};
ghost use Rattle.pol_state.specs.Sound.{IsSound};
ghost use Rattle.pol_commit_actions.specs.Commits.{rows_committed};
ghost use Rattle.pol_commit_actions.specs.Outcome.{CommittedTable};
ghost use Rattle.pol_commit_actions.specs.Replaced.{AreReplaced, changed_rows, is_changed};
ghost use Rattle.pol_commit_actions.specs.Seen.{committed_tables};

use crate::target::Committed;
use pol_content::{Change, TableRow};
use pol_puts::put_table;
use pol_rules::changes::no_changes;
use pol_rules::rules::{Asked, time_of};
use pol_types::{Listed, OutOfMemory};
use std::alloc::Global;

/// The puts of the tables that their commits change, by rising ids.
#[tactic(auto, using(crate::proofs::ChangesLemmas::committed_changes))]
pub(crate) fn puts(
    asked: &Asked<'_>,
    tables: Vec<Committed<'_>>,
) -> Result<Listed<Change>, OutOfMemory>
    requires sound { IsSound asked.now.state.now.rows }
    requires replaced { AreReplaced asked.now.state.now.rows (committed_tables tables.items) }
    ensures { IfOk result (λ changes. changes
        ≡ changes_to asked.now (λ s. rows_committed s (committed_tables tables.entry.items))) }
{
    let rows = changed_rows(asked.alloc, tables)?;
    puts_of(asked, rows)
}

/// The puts of these rows, at the command's time.
fn puts_of(asked: &Asked<'_>, rows: Vec<TableRow>) -> Result<Listed<Change>, OutOfMemory>
    ensures { IfOk result (λ changes. changes
        ≡ headed (time_of asked.now.state.now.rows asked.now.command.now) [] (map PutTable rows.items)) }
{
    if rows.is_empty() {
        return Ok(no_changes(asked.alloc));
    }
    let mut changes = vec![in asked.alloc; Change::Time(time_of(asked))]?;
    for row in rows {
        changes.push(put_table(asked.alloc, row)?)?;
    }
    Ok(Listed::from(changes))
}

/// The rows after of those tables whose commits have an update, by rising ids.
fn changed_rows(alloc: Global, tables: Vec<Committed<'_>>) -> Result<Vec<TableRow>, OutOfMemory>
    ensures { IfOk result (λ rows. rows.items ≡ changed_rows (committed_tables tables.entry.items)) }
{
    let mut rows = rows_after(alloc, tables)?;
    rows.sort_by(|left, right| left.id.cmp(&right.id))?;
    Ok(rows)
}

/// The same in the order of the commits.
fn rows_after(alloc: Global, tables: Vec<Committed<'_>>) -> Result<Vec<TableRow>, OutOfMemory>
    ensures { IfOk result (λ rows. rows.items
        ≡ map (λ (one : CommittedTable). one.after) (filter is_changed (committed_tables tables.entry.items))) }
{
    let mut rows = Vec::new(alloc);
    for table in tables {
        if table.after.version != table.before.version {
            rows.push(table.after)?;
        }
    }
    Ok(rows)
}
