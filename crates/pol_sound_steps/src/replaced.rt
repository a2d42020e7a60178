//! Tables that are put in the places of their own rows: commits.
ghost use Rattle.std.specs.Prelude.{◌≡◌, true, IfOk, IfSome};
ghost use Rattle.std.specs.List.{AllByRecursion};
ghost use Rattle.pol_sound_steps.specs.Commits.{IsCommit};
ghost use Rattle.pol_access_steps.specs.Counters.{counted, may_follow};
ghost use Rattle.pol_sound_steps.specs.Steps.{has_left, is_commit, is_move, is_rename, keeps_name, stays};
ghost use Rattle.pol_soundness.specs.Base.{rows_after, PutsValid};
ghost use Rattle.pol_state.specs.Sound.{IsSound};

use crate::tables::{is_apart, is_row};
use pol_access_steps::Counters;
use pol_content::{Change, TableRow};
use pol_content_steps::may_take_name;
use pol_sound_content::is_placed;
use pol_state::State;
use pol_types::OutOfMemory;
use std::alloc::Global;

/// Whether each of the changes commits to a table that is there and doesn't move it, by rising ids.
pub(crate) fn are_commits(state: &State, counters: Counters, puts: &[Change]) -> bool
    requires sound { IsSound state.now.rows }
    requires follows { may_follow state.now.rows counters ≡ true }
    requires changes { AllByRecursion PutsValid puts.now }
    ensures { result ≡ true → IsSound (rows_after puts.now (counted state.now.rows counters)) }
{
    let mut least = 0;
    let mut left = puts;
    while let Some((first, rest)) = left.split_first() {
        let Some(id) = committed(state, least, first) else {
            return false;
        };
        least = id + 1;
        left = rest;
    }
    true
}

/// The id of the table to which the change commits, where that is there and its id is at least the least.
fn committed(state: &State, least: u64, change: &Change) -> Option<u64>
    ensures { IfSome result (λ id. IsCommit state.now.rows least change.now id) }
{
    let Change::PutTable(table) = change else {
        return None;
    };
    let row = table.row().row();
    let old = state.content().table_of(row.id)?;
    if row.id < least {
        return None;
    }
    if !is_commit(old, row) {
        return None;
    }
    Some(row.id)
}

/// Whether the table may be put in the place of this one and lies where this lay, so that no other is looked at.
pub(crate) fn is_commit(old: &TableRow, row: &TableRow) -> bool
    ensures { result ≡ is_commit old.now row.now }
{
    keeps_name(old, row) && is_row(row) && stays(old, row)
}

/// Whether the table may be put in the place of this one and has moved from there.
pub(crate) fn is_move(
    alloc: Global,
    state: &State,
    old: &TableRow,
    row: &TableRow,
) -> Result<bool, OutOfMemory>
    requires { IsSound state.now.rows }
    ensures { IfOk result (λ moves. moves ≡ is_move state.now.rows old.now row.now) }
{
    if !keeps_name(old, row) {
        return Ok(false);
    }
    if !is_row(row) {
        return Ok(false);
    }
    if !has_left(state, old, row) {
        return Ok(false);
    }
    is_placed(alloc, row)
}

fn keeps_name(old: &TableRow, row: &TableRow) -> bool
    ensures { result ≡ keeps_name old.now row.now }
{
    row.namespace == old.namespace && row.name == old.name
}

fn stays(old: &TableRow, row: &TableRow) -> bool
    ensures { result ≡ stays old.now row.now }
{
    row.location == old.location
        && row.metadata.get().location == old.metadata.get().location
        && old.moves <= row.moves
}

fn has_left(state: &State, old: &TableRow, row: &TableRow) -> bool
    requires { IsSound state.now.rows }
    ensures { result ≡ has_left state.now.rows old.now row.now }
{
    old.moves < row.moves && is_apart(state, row, &[row.id])
}

/// Whether the table may be put in the place of this one, of another name, and lies where this lay. It scans no rows.
pub(crate) fn is_rename(state: &State, old: &TableRow, row: &TableRow) -> bool
    requires { IsSound state.now.rows }
    ensures { result ≡ is_rename state.now.rows old.now row.now }
{
    may_take_name(state, old.namespace, row.namespace, &row.name) && is_row(row) && stays(old, row)
}
