//! The first record of a catalogue's journal.
ghost use Rattle.std.specs.Prelude.{◌≡◌, ◌++◌, ◌∷◌, [], IfOk, OnOk};
ghost use Rattle.pol_changecodec.specs.Change.{changes};
ghost use Rattle.pol_forms.specs.Form.{IsFormOf};
ghost use Rattle.pol_journal.specs.Format.{area_of, framed};
ghost use Rattle.pol_state.specs.Sound.{IsSound};
ghost use Rattle.pol_init.specs.FirstRecord.{IsFormWhereValid, body_of, whole_changes};

use pol_changecodec::write_changes;
use pol_state::State;
use pol_states::all_changes;
use pol_types::OutOfMemory;
use std::alloc::Global;

/// The gate of a record.
const OPEN: u8 = 1;

/// The gate behind the last record.
const CLOSED: u8 = 0;

/// What follows the header of a catalogue's journal that begins with this state: one record behind an open gate, and a
/// closed gate. The record's body is what is written of all changes that make the state anew. They leave out charges.
pub fn first_record(alloc: Global, state: &State) -> Result<Vec<u8>, OutOfMemory>
    requires { IsSound state.now.rows }
    ensures bytes { IfOk result (λ first. first.items ≡ area_of (body_of state.now.rows ∷ [])) }
    // That is the form of these changes, since each metadata is valid.
    ensures form { OnOk result (∥ IsFormOf changes (whole_changes state.now.rows) (body_of state.now.rows) ∥₁) }
    ensures form_where_valid { OnOk result (IsFormWhereValid state.now.rows) }
{
    let body = first_body(alloc, state)?;
    let first = area(alloc, body.as_slice())?;
    Ok(first)
}

/// The body of that record.
#[tactic(auto, unfolding(crate::specs::FirstRecord::body_of, crate::specs::FirstRecord::whole_changes))]
fn first_body(alloc: Global, state: &State) -> Result<Vec<u8>, OutOfMemory>
    requires { IsSound state.now.rows }
    ensures bytes { IfOk result (λ body. body.items ≡ body_of state.now.rows) }
    ensures form { OnOk result (IsFormWhereValid state.now.rows) }
{
    let changes = all_changes(alloc, state)?;
    let body = write_changes(alloc, changes.as_slice())?;
    Ok(body)
}

/// A record of this body behind an open gate, and a closed gate.
fn area(alloc: Global, body: &[u8]) -> Result<Vec<u8>, OutOfMemory>
    ensures { IfOk result (λ area. area.items ≡ area_of (body.now ∷ [])) }
{
    let mut area = vec![in alloc; OPEN]?;
    push_framed(&mut area, body)?;
    area.push(CLOSED)?;
    Ok(area)
}

/// Pushes the length of a body as eight bytes, most significant first, and the body.
#[tactic(auto, unfolding(pol_journal::specs::Format::framed))]
fn push_framed(area: &mut Vec<u8>, body: &[u8]) -> Result<(), OutOfMemory>
    ensures { OnOk result (area.new.items ≡ area.old.items ++ framed body.now) }
{
    area.extend_from_slice(&(body.len() as u64).to_be_bytes())?;
    area.extend_from_slice(body)?;
    Ok(())
}
