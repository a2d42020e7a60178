//! The stages of a step, over the state, the history, the marks and the journal themselves.
ghost use Rattle.std.specs.Prelude.{ℕ, ◌≡◌, ◌≢◌, ◌<◌, ◌≤◌, ◌+◌, ◌^◌, [], ◌∷◌, ◌++◌, length, option_map, vec_len, vec_capacity, IfErr, IfOk, MatchOption, OnOk};
ghost use Rattle.std.specs.List.{AllByRecursion};
ghost use Rattle.pol_changecodec.specs.Change.{IsSoundChange, changes as changes_form};
ghost use Rattle.pol_state.specs.Applied.{HasRoom};
ghost use Rattle.pol_state.specs.Changes.{changes_between};
ghost use Rattle.pol_machine.specs.Machine.{next_state, reply_of};
ghost use Rattle.pol_state.specs.Sound.{IsSound};
ghost use Rattle.pol_kept.specs.History.{bodies_of};
ghost use Rattle.pol_kept.specs.Stages.{IsLeftOut, IsWritten, bodies_in, marks_by, undone_by};

use crate::undone::Undone;
use crate::{Entry, Render};
use pol_changecodec::write_changes;
use pol_disk::Disk;
use pol_histories::History;
use pol_machine::{Change, Command, Decision, Refusal, Reply, State, decide};
use pol_records::{Records, Unwritten};
use pol_types::OutOfMemory;
use std::alloc::Global;

/// Decides a command and renders its reply.
pub(crate) fn answer<R: Render>(
    alloc: Global,
    state: &State,
    command: &Command,
    render: &R,
) -> Result<(Decision, R::Out), OutOfMemory>
    requires sound { IsSound state.now.rows }
    requires moment { command.now.moment ≤ 2 ^ 62 }
    ensures reply { IfOk result (λ answer. answer.0.reply ≡ reply_of state.now.rows command.now) }
    ensures changes { IfOk result (λ answer. answer.0.changes
        ≡ changes_between state.now.rows (next_state state.now.rows command.now)) }
    ensures rendered { IfOk result (λ answer. R.renders render.now (reply_of state.now.rows command.now) answer.1) }
{
    let decision = decide(alloc, state, command)?;
    let Ok(out) = render.render(alloc, &decision.reply) else {
        drop(decision);
        return Err(OutOfMemory);
    };
    Ok((decision, out))
}

/// The charges of the run and the charge of the command, where a reply tells that the run is full.
pub(crate) fn full_run(reply: &Reply) -> Option<(u64, u64)>
    ensures { MatchOption result ((charged charge : ℕ) → reply.now ≢ Reply.Refused (Refusal.RunFull charged charge))
        (λ numbers. reply.now ≡ Reply.Refused (Refusal.RunFull numbers.0 numbers.1)) }
{
    match reply {
        Reply::Refused(Refusal::RunFull { charged, charge }) => Some((*charged, *charge)),
        _ => None,
    }
}

/// Makes room for the changes and for a mark more, and makes sure of the room for an entry.
pub(crate) fn reserve(
    state: &mut State,
    history: &History<Entry>,
    marks: &mut Vec<u64>,
    changes: &[Change],
) -> Result<(), OutOfMemory>
    ensures rows { state.new.rows ≡ state.old.rows }
    ensures marks { marks.new.items ≡ marks.old.items }
    ensures room { OnOk result (HasRoom changes.now state.new.room) }
    ensures place { OnOk result (length history.now + 1 < 2 ^ 64) }
    ensures mark { OnOk result (vec_len marks.new < vec_capacity marks.new) }
{
    state.reserve(changes)?;
    history.reserve()?;
    Ok(marks.reserve(1)?)
}

/// The body of the record of the changes, where there are any.
pub(crate) fn body_of(alloc: Global, changes: &[Change]) -> Result<Option<Vec<u8>>, OutOfMemory>
    ensures body { IfOk result (λ body. bodies_in (option_map (λ body. body.items) body) ≡ bodies_of changes.now) }
    // What is written is their form, where each metadata is valid.
    ensures form { OnOk result (changes.now ≢ [] → AllByRecursion IsSoundChange changes.now
        → changes_form.holds changes.now) }
{
    if changes.is_empty() {
        return Ok(None);
    }
    Ok(Some(write_changes(alloc, changes)?))
}

/// `reserve`, and then the body of the record.
pub(crate) fn make_ready(
    alloc: Global,
    state: &mut State,
    history: &History<Entry>,
    marks: &mut Vec<u64>,
    changes: &[Change],
) -> Result<Option<Vec<u8>>, OutOfMemory>
    ensures rows { state.new.rows ≡ state.old.rows }
    ensures marks { marks.new.items ≡ marks.old.items }
    ensures room { OnOk result (HasRoom changes.now state.new.room) }
    ensures place { OnOk result (length history.now + 1 < 2 ^ 64) }
    ensures mark { OnOk result (vec_len marks.new < vec_capacity marks.new) }
    ensures body { IfOk result (λ body. bodies_in (option_map (λ body. body.items) body) ≡ bodies_of changes.now) }
    ensures form { OnOk result (changes.now ≢ [] → AllByRecursion IsSoundChange changes.now
        → changes_form.holds changes.now) }
{
    reserve(state, history, marks, changes)?;
    body_of(alloc, changes)
}

/// Writes the record of a body, where there is one. An append that failed before is taken back first.
pub(crate) fn write<D: Disk>(
    records: &mut Records<D>,
    body: Option<Vec<u8>>,
) -> Result<(), Unwritten>
    ensures written { OnOk result (IsWritten D.seen D.may_leave D.clock D.left_since D.fault_count
        (bodies_in (option_map (λ body. body.items) body)) records.old records.new) }
    ensures left_out { IfErr result (IsLeftOut D.seen D.may_leave D.clock D.left_since D.fault_count
        (bodies_in (option_map (λ body. body.items) body)) records.old records.new) }
    ensures kept { D.fault_count records.old.disk ≤ D.fault_count records.new.disk }
{
    let Some(body) = body else {
        return Ok(());
    };
    let written = records.write(body.as_slice());
    drop(body);
    written
}

/// Marks the pass of a call whose record wasn't written, where the disk failed, and tells why it isn't carried out.
pub(crate) fn mark(marks: &mut Vec<u64>, number: u64, why: Unwritten) -> Undone
    requires place { vec_len marks.old < vec_capacity marks.old }
    ensures marks { marks.new.items ≡ marks_by why number marks.old.items }
    ensures undone { result ≡ undone_by why }
{
    match why {
        Unwritten::JournalFull { length, wanted } => Undone::JournalFull { length, wanted },
        Unwritten::Unknown => {
            marks.push_reserved(number);
            Undone::Unknown
        }
        Unwritten::DiskFault => {
            marks.push_reserved(number);
            Undone::DiskFault
        }
    }
}

/// Makes the changes of a command, and enters it, and tells its place. Takes no memory.
pub(crate) fn enter(
    state: &mut State,
    history: &mut History<Entry>,
    entry: Entry,
    changes: Vec<Change>,
) -> u64
    requires sound { IsSound state.old.rows }
    requires moment { entry.command.moment ≤ 2 ^ 62 }
    requires open { state.old.rows.charged + entry.command.charge ≤ 2 ^ 30 }
    requires changes { changes.items ≡ changes_between state.old.rows (next_state state.old.rows entry.command) }
    requires room { HasRoom changes.items state.old.room }
    requires place { length history.old + 1 < 2 ^ 64 }
    ensures rows { state.new.rows ≡ next_state state.old.rows entry.command }
    ensures sound { IsSound state.new.rows }
    ensures items { history.new ≡ history.old ++ entry ∷ [] }
    ensures place { result ≡ length history.old }
{
    let place = history.len();
    let time = state.time().max(entry.command.moment);
    state.apply(changes, time, entry.command.charge);
    history.push(&entry);
    drop(entry);
    place
}
