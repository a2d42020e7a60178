//! A journal is opened: its records are read, and their changes made, one after another.
ghost use Rattle.std.specs.Prelude.{◌≡◌, ◌≢◌, ◌≤◌, ◌<◌, ◌^◌, ℕ, List, [], Some, true, IfErr, IfOk, OnOk};
ghost use Rattle.pol_journal.specs.Crash.{IsUntouched};
ghost use Rattle.pol_journal.specs.Journal.{IsReading, IsReady};
ghost use Rattle.pol_opening.specs.Opening.{Opens, OpeningRefused, disk_left};
ghost use Rattle.pol_opening.specs.Reading.{GoesOn, IsKnown, IsReadSoFar, IsReadSome, IsToldBy, ReadingRefused, ReadsOn};
ghost use Rattle.pol_sound_content.specs.Valid.{HasValidParts};
ghost use Rattle.pol_state.specs.Rows.{empty_state};
ghost use Rattle.pol_state.specs.Sound.{IsSound};

use crate::Opened;
use crate::making::{Known, make};
use pol_disk::Disk;
use pol_journal::{Journal, JournalRefused, Kind};
use pol_state::State;
use std::alloc::Global;

/// Opens the journal of a catalogue, and makes the changes of its records, from the empty state on. Each body must be
/// the form of changes that lead to a sound state, and there must be a record: `BadRecord` tells the first gate behind
/// which none leads on. The disk is handed back with a refusal, and its bytes stay.
pub fn open<D: Disk>(alloc: Global, disk: D) -> Result<Opened<D>, (D, JournalRefused)>
    ensures opened { IfOk result (λ opened. (file : List ℕ) → D.seen disk ≡ Some file
        → Opens D.seen D.may_leave D.clock D.left_since D.fault_count file opened.journal opened.state.rows) }
    ensures sound { IfOk result (λ opened. IsSound opened.state.rows) }
    ensures charged { IfOk result (λ opened. opened.state.rows.charged ≡ 0) }
    ensures ready { IfOk result (λ opened. IsReady opened.journal × (opened.journal.kind ≡ Kind.Catalogue)
        × (D.fault_count disk ≤ opened.journal.opening.faults)) }
    ensures counted { IfOk result (λ opened. opened.journal.opening.faults ≤ D.fault_count opened.journal.disk) }
    ensures refused { IfErr result (λ refused.
        OpeningRefused (D.seen disk) (D.fault_count disk) (D.fault_count refused.0) refused.1) }
    ensures untouched { IsUntouched D.clock D.left_since D.may_leave D.seen D.size disk (disk_left result) }
    ensures kept { D.fault_count disk ≤ D.fault_count (disk_left result) }
{
    let mut journal = Journal::open(disk, Kind::Catalogue)?;
    match read_state(alloc, &mut journal) {
        Ok(state) => Ok(Opened { journal, state }),
        Err(refused) => Err((journal.close(), refused)),
    }
}

/// The state to which all records lead, of which there must be one.
fn read_state<D: Disk>(alloc: Global, journal: &mut Journal<D>) -> Result<State, JournalRefused>
    requires reading { IsReading journal.old }
    requires first { journal.old.last ≡ journal.old.gate }
    ensures opened { IfOk result (λ state. (file : List ℕ)
        → IsReadSoFar D.seen D.may_leave D.clock D.left_since D.fault_count file [] journal.old empty_state
        → Opens D.seen D.may_leave D.clock D.left_since D.fault_count file journal.new state.rows) }
    ensures sound { IfOk result (λ state. IsSound state.rows) }
    ensures charged { IfOk result (λ state. state.rows.charged ≡ 0) }
    ensures ready { OnOk result (IsReady journal.new) }
    ensures told { IfErr result (λ why. (file : List ℕ)
        → IsReadSoFar D.seen D.may_leave D.clock D.left_since D.fault_count file [] journal.old empty_state
        → IsToldBy file why) }
    ensures refused { IfErr result (ReadingRefused
        (D.fault_count journal.old.disk) (D.fault_count journal.new.disk)) }
    ensures reads { ReadsOn D.clock D.left_since D.may_leave D.seen D.size D.fault_count journal.old journal.new }
{
    let mut state = State::empty(alloc);
    match read_all(alloc, journal, &mut state) {
        Ok(()) => Ok(state),
        Err(refused) => {
            drop(state);
            Err(refused)
        }
    }
}

/// Reads all records, of which there must be one, and makes their changes.
fn read_all<D: Disk>(
    alloc: Global,
    journal: &mut Journal<D>,
    state: &mut State,
) -> Result<(), JournalRefused>
    requires reading { IsReading journal.old }
    requires first { journal.old.last ≡ journal.old.gate }
    requires valid { HasValidParts state.old.rows.content }
    ensures opened { OnOk result ((file : List ℕ)
        → IsReadSoFar D.seen D.may_leave D.clock D.left_since D.fault_count file [] journal.old state.old.rows
        → Opens D.seen D.may_leave D.clock D.left_since D.fault_count file journal.new state.new.rows) }
    ensures sound { OnOk result (IsSound state.new.rows) }
    ensures charged { OnOk result (state.new.rows.charged ≡ state.old.rows.charged) }
    ensures ready { OnOk result (IsReady journal.new) }
    ensures told { IfErr result (λ why. (file : List ℕ)
        → IsReadSoFar D.seen D.may_leave D.clock D.left_since D.fault_count file [] journal.old state.old.rows
        → IsToldBy file why) }
    ensures refused { IfErr result (ReadingRefused
        (D.fault_count journal.old.disk) (D.fault_count journal.new.disk)) }
    ensures reads { ReadsOn D.clock D.left_since D.may_leave D.seen D.size D.fault_count journal.old journal.new }
{
    if !read_one(alloc, journal, Known::Valid, state)? {
        return Err(JournalRefused::BadRecord {
            at: journal.last_gate(),
        });
    }
    read_on(alloc, journal, state)
}

/// Reads the records that are left, and makes their changes.
fn read_on<D: Disk>(
    alloc: Global,
    journal: &mut Journal<D>,
    state: &mut State,
) -> Result<(), JournalRefused>
    requires reading { IsReading journal.old }
    requires sound { IsSound state.old.rows }
    ensures opened { OnOk result ((file : List ℕ)
        → IsReadSome D.seen D.may_leave D.clock D.left_since D.fault_count file journal.old state.old.rows
        → Opens D.seen D.may_leave D.clock D.left_since D.fault_count file journal.new state.new.rows) }
    ensures sound { OnOk result (IsSound state.new.rows) }
    ensures charged { OnOk result (state.new.rows.charged ≡ state.old.rows.charged) }
    ensures ready { OnOk result (IsReady journal.new) }
    ensures told { IfErr result (λ why. (file : List ℕ)
        → IsReadSome D.seen D.may_leave D.clock D.left_since D.fault_count file journal.old state.old.rows
        → IsToldBy file why) }
    ensures refused { IfErr result (ReadingRefused
        (D.fault_count journal.old.disk) (D.fault_count journal.new.disk)) }
    ensures reads { ReadsOn D.clock D.left_since D.may_leave D.seen D.size D.fault_count journal.old journal.new }
{
    while read_one(alloc, journal, Known::Sound, state)? {}
    Ok(())
}

/// Reads the next record, and makes its changes. Tells whether there was one.
fn read_one<D: Disk>(
    alloc: Global,
    journal: &mut Journal<D>,
    known: Known,
    state: &mut State,
) -> Result<bool, JournalRefused>
    requires reading { IsReading journal.old }
    requires known { IsKnown known state.old.rows }
    ensures read { IfOk result (λ more. (file : List ℕ) (bodies : List (List ℕ))
        → IsReadSoFar D.seen D.may_leave D.clock D.left_since D.fault_count file bodies journal.old state.old.rows
        → GoesOn D.seen D.may_leave D.clock D.left_since D.fault_count file bodies journal.new state.new.rows more) }
    ensures more { IfOk result (λ more. more ≡ true → IsReading journal.new × IsSound state.new.rows) }
    // The gate of a record is a number of 64 bits, so there is an end.
    ensures further { IfOk result (λ more. more ≡ true
        → (journal.old.gate < 2 ^ 64) × (journal.old.gate < journal.new.gate)) }
    ensures none { IfOk result (λ more. more ≢ true → IsReady journal.new × (journal.new.last ≡ journal.old.last)
        × (state.new.rows ≡ state.old.rows)) }
    ensures charged { OnOk result (state.new.rows.charged ≡ state.old.rows.charged) }
    ensures told { IfErr result (λ why. (file : List ℕ) (bodies : List (List ℕ))
        → IsReadSoFar D.seen D.may_leave D.clock D.left_since D.fault_count file bodies journal.old state.old.rows
        → IsToldBy file why) }
    ensures refused { IfErr result (ReadingRefused
        (D.fault_count journal.old.disk) (D.fault_count journal.new.disk)) }
    ensures reads { ReadsOn D.clock D.left_since D.may_leave D.seen D.size D.fault_count journal.old journal.new }
{
    let Some(body) = journal.next_record(alloc)? else {
        return Ok(false);
    };
    make(alloc, body.as_slice(), journal.last_gate(), known, state)?;
    Ok(true)
}
