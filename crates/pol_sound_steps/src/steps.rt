//! Whether changes lead from a sound state to a sound one.
ghost use Rattle.std.specs.Prelude.{◌≡◌, true, Decides, IfOk};
ghost use Rattle.std.specs.List.{AllByRecursion};
ghost use Rattle.pol_content.specs.declared.change.Change.TheVariants.{PutTable};
ghost use Rattle.pol_sound_content.specs.Valid.{HasValidMetadata};
ghost use Rattle.pol_access_steps.specs.Counters.{counted, may_follow};
ghost use Rattle.pol_soundness.specs.Base.{rows_after, PutsValid};
ghost use Rattle.pol_state.specs.Applied.{changed};
ghost use Rattle.pol_state.specs.Sound.{IsSound};

use crate::replaced::{are_commits, is_commit, is_move, is_rename};
use crate::tables::may_place_table;
use crate::tokens::{may_issue, may_issue_of, may_open};
use pol_access_steps::{Counters, counters_of, is_sound_fact, is_sound_holder, may_follow};
use pol_content::{Change, TableRow};
use pol_content_steps::{is_sound_catalog, is_sound_drop, may_put_namespace, may_put_view};
use pol_soundness::sound_after;
use pol_state::State;
use pol_types::OutOfMemory;
use std::alloc::Global;

/// Whether the state after these changes of a sound one is sound. Where they are of a known shape, it looks at the rows
/// that they touch alone; else it takes memory for a copy of all rows, and judges them anew. The metadata that the
/// changes put are valid, as those that were read are.
pub fn sound_next(alloc: Global, state: &State, changes: &[Change]) -> Result<bool, OutOfMemory>
    requires sound { IsSound state.now.rows }
    requires changes { AllByRecursion PutsValid changes.now }
    ensures { IfOk result (λ sound. Decides sound (IsSound (rows_after changes.now state.now.rows))) }
{
    if is_sound_step(alloc, state, changes)? {
        return Ok(true);
    }
    sound_after(alloc, state, changes)
}

/// Whether the changes are of a known shape whose conditions hold.
fn is_sound_step(alloc: Global, state: &State, changes: &[Change]) -> Result<bool, OutOfMemory>
    requires sound { IsSound state.now.rows }
    requires changes { AllByRecursion PutsValid changes.now }
    ensures { IfOk result (λ sound. sound ≡ true → IsSound (rows_after changes.now state.now.rows)) }
{
    let (counters, puts) = counters_of(state, changes);
    if !may_follow(state, counters) {
        return Ok(false);
    }
    are_sound_puts(alloc, state, counters, puts)
}

/// Whether changes of rows are of a known shape: a drop with what it takes along, a new catalogue with its role, one
/// put, a new table with its storage token, or commits.
fn are_sound_puts(
    alloc: Global,
    state: &State,
    counters: Counters,
    puts: &[Change],
) -> Result<bool, OutOfMemory>
    requires sound { IsSound state.now.rows }
    requires follows { may_follow state.now.rows counters ≡ true }
    requires changes { AllByRecursion PutsValid puts.now }
    ensures { IfOk result (λ sound. sound ≡ true
        → IsSound (rows_after puts.now (counted state.now.rows counters))) }
{
    if is_sound_drop(state, counters, puts) {
        return Ok(true);
    }
    if is_sound_catalog(state, counters, puts) {
        return Ok(true);
    }
    match puts {
        [only] => is_sound_put(alloc, state, counters, only),
        [first, second] => {
            if is_sound_pair(alloc, state, counters, first, second)? {
                return Ok(true);
            }
            Ok(are_commits(state, counters, puts))
        }
        _ => Ok(are_commits(state, counters, puts)),
    }
}

/// Whether one row may be put, or a member, a join or a grant taken away.
fn is_sound_put(
    alloc: Global,
    state: &State,
    counters: Counters,
    put: &Change,
) -> Result<bool, OutOfMemory>
    requires sound { IsSound state.now.rows }
    requires follows { may_follow state.now.rows counters ≡ true }
    requires change { PutsValid put.now }
    ensures { IfOk result (λ sound. sound ≡ true
        → IsSound (changed (counted state.now.rows counters) put.now)) }
{
    match put {
        Change::PutSession(row) => Ok(may_open(state, counters, row.row())),
        Change::PutToken(row) => Ok(may_issue(state, counters, row.row())),
        Change::PutNamespace(row) => may_put_namespace(alloc, state, counters, row.row()),
        Change::PutTable(table) => may_put_table(alloc, state, counters, table.row().row()),
        Change::PutView(row) => may_put_view(alloc, state, counters, row.row()),
        _ => Ok(is_sound_holder(state, counters, put) || is_sound_fact(state, counters, put)),
    }
}

/// Whether the table may be put, beside the others or in the place of its own row.
fn may_put_table(
    alloc: Global,
    state: &State,
    counters: Counters,
    row: &TableRow,
) -> Result<bool, OutOfMemory>
    requires sound { IsSound state.now.rows }
    requires follows { may_follow state.now.rows counters ≡ true }
    requires valid { HasValidMetadata row.now }
    ensures { IfOk result (λ sound. sound ≡ true
        → IsSound (changed (counted state.now.rows counters) (PutTable row.now))) }
{
    let Some(old) = state.content().table_of(row.id) else {
        return may_place_table(alloc, state, counters, row);
    };
    if is_commit(old, row) {
        return Ok(true);
    }
    if is_rename(state, old, row) {
        return Ok(true);
    }
    is_move(alloc, state, old, row)
}

/// Whether a new table may be put, and then a storage token of it.
fn is_sound_pair(
    alloc: Global,
    state: &State,
    counters: Counters,
    first: &Change,
    second: &Change,
) -> Result<bool, OutOfMemory>
    requires sound { IsSound state.now.rows }
    requires follows { may_follow state.now.rows counters ≡ true }
    requires change { PutsValid first.now }
    ensures { IfOk result (λ sound. sound ≡ true
        → IsSound (changed (changed (counted state.now.rows counters) first.now) second.now)) }
{
    let (Change::PutTable(table), Change::PutToken(token)) = (first, second) else {
        return Ok(false);
    };
    let row = table.row().row();
    if !may_issue_of(state, counters, row, token.row()) {
        return Ok(false);
    }
    may_place_table(alloc, state, counters, row)
}
