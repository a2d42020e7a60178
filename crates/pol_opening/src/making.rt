//! The changes of a record are made, where they lead to a sound state.
ghost use Rattle.std.specs.Prelude.{◌≡◌, Decides, IfErr, IfOk, OnOk};
ghost use Rattle.std.specs.List.{AllByRecursion};
ghost use Rattle.pol_opening.specs.Opening.{LeadsBy};
ghost use Rattle.pol_opening.specs.Reading.{IsKnown, MakingRefused};
ghost use Rattle.pol_soundness.specs.Base.{PutsValid, rows_after};
ghost use Rattle.pol_state.specs.Applied.{changed};
ghost use Rattle.pol_state.specs.Rows.{Rows};
ghost use Rattle.pol_state.specs.Sound.{IsSound};

use pol_changecodec::read_changes;
use pol_content::Change;
use pol_forms::CodecRefused;
use pol_journal::JournalRefused;
use pol_sound_steps::sound_next;
use pol_soundness::sound_after;
use pol_state::State;
use pol_types::OutOfMemory;
use std::alloc::Global;

/// What is known of the state before a record.
#[derive(Clone, Copy)]
pub(crate) enum Known {
    /// Its metadata are valid. So are those of the empty state, which isn't sound.
    Valid,
    /// It is sound, as the state behind each record is.
    Sound,
}

/// Makes the changes whose form a body is. `at` is the place of its record's gate: the record is bad where the body is
/// no form, or its changes lead to no sound state.
pub(crate) fn make(
    alloc: Global,
    body: &[u8],
    at: u64,
    known: Known,
    state: &mut State,
) -> Result<(), JournalRefused>
    requires { IsKnown known state.old.rows }
    ensures made { OnOk result (LeadsBy body.now state.old.rows state.new.rows) }
    ensures charged { OnOk result (state.new.rows.charged ≡ state.old.rows.charged) }
    ensures refused { IfErr result (MakingRefused at ((t : Rows) → LeadsBy body.now state.old.rows t → ⊥)) }
{
    match read_changes(alloc, body) {
        Ok(changes) => make_all(alloc, changes, at, known, state),
        Err(CodecRefused::NoForm) => Err(JournalRefused::BadRecord { at }),
        Err(CodecRefused::OutOfMemory) => Err(JournalRefused::OutOfMemory),
    }
}

/// Makes changes, where they lead to a sound state.
fn make_all(
    alloc: Global,
    changes: Vec<Change>,
    at: u64,
    known: Known,
    state: &mut State,
) -> Result<(), JournalRefused>
    requires state { IsKnown known state.old.rows }
    requires changes { AllByRecursion PutsValid changes.items }
    ensures made { OnOk result (state.new.rows ≡ rows_after changes.items state.old.rows) }
    ensures sound { OnOk result (IsSound state.new.rows) }
    ensures refused { IfErr result (MakingRefused at (IsSound (rows_after changes.items state.old.rows) → ⊥)) }
{
    match is_sound_after(alloc, known, state, changes.as_slice()) {
        Ok(true) => apply(state, changes),
        Ok(false) => Err(JournalRefused::BadRecord { at }),
        Err(OutOfMemory) => Err(JournalRefused::OutOfMemory),
    }
}

/// Whether changes lead to a sound state. Where the state before them is sound and they are of a known shape, it looks
/// at the rows that they touch alone.
fn is_sound_after(
    alloc: Global,
    known: Known,
    state: &State,
    changes: &[Change],
) -> Result<bool, OutOfMemory>
    requires state { IsKnown known state.now.rows }
    requires changes { AllByRecursion PutsValid changes.now }
    ensures { IfOk result (λ sound. Decides sound (IsSound (rows_after changes.now state.now.rows))) }
{
    match known {
        Known::Valid => sound_after(alloc, state, changes),
        Known::Sound => sound_next(alloc, state, changes),
    }
}

/// Makes changes that lead to a sound state.
fn apply(state: &mut State, changes: Vec<Change>) -> Result<(), JournalRefused>
    requires { IsSound (rows_after changes.items state.old.rows) }
    ensures made { OnOk result (state.new.rows ≡ rows_after changes.items state.old.rows) }
    ensures sound { OnOk result (IsSound state.new.rows) }
    ensures refused { IfErr result (λ why. why ≡ JournalRefused.OutOfMemory) }
{
    let Ok(()) = state.reserve(changes.as_slice()) else {
        drop(changes);
        return Err(JournalRefused::OutOfMemory);
    };
    let time = time_after(state.time(), changes.as_slice());
    state.apply(changes, time, 0);
    Ok(())
}

/// The time to which changes lead: the last that they set, or the one before them.
#[tactic(auto, unfolding(pol_soundness::specs::Base::rows_after))]
fn time_after(time: u64, changes: &[Change]) -> u64
    ensures { (s : Rows) → s.time ≡ time → result ≡ (rows_after changes.now s).time }
{
    let mut time = time;
    for change in changes {
        time = time_by(time, change);
    }
    time
}

/// The time after one change.
fn time_by(time: u64, change: &Change) -> u64
    ensures { (s : Rows) → s.time ≡ time → result ≡ (changed s change.now).time }
{
    match change {
        Change::Time(later) => *later,
        _ => time,
    }
}
