//! Commits to one table and to several.
ghost use Rattle.std.specs.Prelude.{◌≡◌, IfOk, length};
ghost use Rattle.pol_rules.specs.Judged.{Acts, Enters};
ghost use Rattle.pol_state.specs.Sound.{IsSound};
ghost use Rattle.pol_commit_actions.specs.Commits.{commit_table, commit_transaction, committed_answer, committing, tables_committed};
ghost use Rattle.pol_commit_actions.specs.Replaced.{AreReplaced};
ghost use Rattle.pol_commit_actions.specs.Seen.{committed_tables};

use crate::bounds::all_within;
use crate::finding::{all_served, allowed_on_each, named_once, namespaces_there, tables_there};
use crate::locations::{all_apart, all_committed, all_inside};
use crate::outcome::outcome;
use crate::puts::puts;
use crate::target::Committed;
use pol_commands::{Answer, Commit, Quantity};
use pol_content::TableRow;
use pol_names::Plain;
use pol_rules::callers::signed_in;
use pol_rules::catalog_rules::catalog_there;
use pol_rules::rules::{Acted, Asked, Undone, within};
use pol_table_actions::loading::metadata_location;
use pol_types::OutOfMemory;
use std::alloc::Global;
use std::slice;

/// Commits to one table (Iceberg REST OpenAPI, updateTable).
#[tactic(auto, using(crate::proofs::CommitLemmas::committing_stops))]
pub fn commit_table(asked: &Asked<'_>, name: &Plain, commit: &Commit) -> Result<Acted, Undone>
    requires { IsSound asked.now.state.now.rows }
    ensures { Acts asked.now (λ s command. commit_table s command name.now commit.now) result }
{
    let tables = all_judged(asked, name, slice::from_ref(commit))?;
    let answer = committed_answer(asked.alloc, &tables[0].after);
    Ok(Acted::of(answer, puts(asked, tables))?)
}

/// Commits to several tables at once (Iceberg REST OpenAPI, commitTransaction): to all of them, or to none.
#[tactic(auto, using(crate::proofs::CommitLemmas::committing_stops))]
pub fn commit_transaction(
    asked: &Asked<'_>,
    name: &Plain,
    commits: &[Commit],
) -> Result<Acted, Undone>
    requires { IsSound asked.now.state.now.rows }
    ensures { Acts asked.now (λ s command. commit_transaction s command name.now commits.now) result }
{
    let tables = all_judged(asked, name, commits)?;
    let changes = puts(asked, tables)?;
    Ok(Acted {
        answer: Answer::TransactionCommitted,
        changes,
    })
}

/// The tables after their commits, against which no rule stands.
#[tactic(auto, using(crate::proofs::ReplacedLemmas::replaced), unfolding(crate::specs::Commits::tables_committed, crate::specs::Commits::commits_in))]
fn all_judged<'a>(
    asked: &Asked<'a>,
    name: &Plain,
    commits: &'a [Commit],
) -> Result<Vec<Committed<'a>>, Undone>
    requires { IsSound asked.now.state.now.rows }
    ensures { let s = asked.now.state.now.rows in
        Enters (committing s asked.now.command.now name.now commits.now)
        (λ tables. (committed_tables tables.items ≡ tables_committed s asked.now.command.now name.now commits.now)
        × (length tables.items ≡ length commits.now)
        × AreReplaced s (committed_tables tables.items)) result }
{
    signed_in(asked)?;
    let catalog = catalog_there(asked, name)?;
    allowed_on_each(asked, commits, catalog)?;
    namespaces_there(asked, commits, catalog)?;
    let targets = tables_there(asked, commits, catalog)?;
    named_once(asked.alloc, targets.as_slice())?;
    let made = outcome(asked, targets.as_slice())?;
    let tables = all_committed(asked, targets.as_slice(), made)?;
    all_inside(catalog, tables.as_slice())?;
    all_apart(asked, tables.as_slice())?;
    all_served(commits)?;
    within(Quantity::TransactionTables, commits.len() as u64)?;
    all_within(tables.as_slice())?;
    Ok(tables)
}

/// The answer to a commit to one table. It shares the metadata with the row.
fn committed_answer(alloc: Global, row: &TableRow) -> Result<Answer, OutOfMemory>
    ensures { IfOk result (λ answer. answer ≡ committed_answer row.now) }
{
    Ok(Answer::TableCommitted {
        metadata_location: metadata_location(alloc, row)?,
        metadata: row.metadata.clone()?,
    })
}
