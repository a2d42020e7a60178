//! The time and the counters, with which the changes of a state begin.
ghost use Rattle.std.specs.Prelude.{◌≡◌, ◌++◌, [], ◌∷◌, IfOk, OnOk};
ghost use Rattle.pol_content.specs.declared.change.Change.TheVariants.{Time};
ghost use Rattle.pol_state.specs.Changes.{id_change, serial_change};
ghost use Rattle.pol_state.specs.Rows.{empty_state};

use pol_content::Change;
use pol_state::State;
use pol_types::OutOfMemory;
use std::alloc::Global;

/// The state's time, and then the counters that differ from those of the empty state.
pub(crate) fn heading(alloc: Global, state: &State) -> Result<Vec<Change>, OutOfMemory>
    ensures { let s = state.now.rows in
        IfOk result (λ changes.
        changes.items ≡ ((Time s.time ∷ []) ++ id_change empty_state s) ++ serial_change empty_state s) }
{
    let mut changes = vec![in alloc; Change::Time(state.time())]?;
    push_id(state, &mut changes)?;
    push_serial(state, &mut changes)?;
    Ok(changes)
}

/// Pushes the next id, where it isn't that of the empty state.
#[tactic(auto, unfolding(pol_state::specs::Rows::empty_state))]
fn push_id(state: &State, changes: &mut Vec<Change>) -> Result<(), OutOfMemory>
    ensures { OnOk result (changes.new.items ≡ changes.old.items ++ id_change empty_state state.now.rows) }
{
    let next = state.next_id();
    if 0 == next {
        return Ok(());
    }
    Ok(changes.push(Change::NextId(next))?)
}

/// Pushes the next serial, where it isn't that of the empty state.
#[tactic(auto, unfolding(pol_state::specs::Rows::empty_state))]
fn push_serial(state: &State, changes: &mut Vec<Change>) -> Result<(), OutOfMemory>
    ensures { OnOk result (changes.new.items ≡ changes.old.items ++ serial_change empty_state state.now.rows) }
{
    let next = state.next_serial();
    if 0 == next {
        return Ok(());
    }
    Ok(changes.push(Change::NextSerial(next))?)
}
