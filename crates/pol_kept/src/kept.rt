ghost use Rattle.std.specs.Prelude.{◌≡◌, ◌≤◌, ◌+◌, ◌^◌, ℕ, List, [], length, IfErr, IfOk, OnOk};
ghost use Rattle.pol_journal.specs.Format.{StandsFor};
ghost use Rattle.pol_journal.specs.Journal.{IsAtRest, SinceOpening};
ghost use Rattle.pol_kept.specs.History.{changes_of, opened_of, records, state_of};
ghost use Rattle.pol_kept.specs.Images.{KeepsImages};
ghost use Rattle.pol_kept.specs.Stages.{GoesOn, IsEntered, IsUndone, lost_undone};
ghost use Rattle.pol_kept.specs.Stepped.{Steps, lost_after};
ghost use Rattle.pol_records.specs.Holding.{Holds, IsPastReading, Lost, RisesBy};
ghost use Rattle.pol_state.specs.Sound.{IsSound};

use crate::stages::{answer, enter, full_run, make_ready, mark, write};
use crate::undone::Undone;
use crate::{Closed, Entry, Render, Stepped};
use pol_disk::Disk;
use pol_histories::History;
use pol_journal::Journal;
use pol_machine::{Change, Command, Decision, State};
use pol_records::Records;
use std::alloc::Global;
use std::marker::Model;
use std::snapshot::Snapshot;

/// A catalogue with its history, in a journal: the state at the opening, the commands that were done since, the number
/// of the pass of each call that the disk failed, and the state that the commands led to. Contracts see all but the
/// last, which the first two determine; and the first two are for contracts alone.
#[derive(Drop)]
pub struct Kept<D: Disk> {
    base: Snapshot<State>,
    history: History<Entry>,
    marks: Vec<u64>,
    state: State,
    records: Records<D>,
}

impl<D: Disk> Model for Kept<D> {
    ghost use Rattle.std.specs.Prelude.{◌≡◌, ◌≤◌, ◌+◌, length};
    ghost use Rattle.pol_kept.specs.History.{Log, records as records_of, size_of, state_at};
    ghost use Rattle.pol_records.specs.Holding.{RisesBy};
    ghost use Rattle.pol_state.specs.Sound.{IsSound};

    ghost Value = { Log D };

    ghost view = { λ kept. record {
      base = kept.base.value.rows;
      history = kept.history;
      marks = kept.marks.items;
      journal = kept.records;
    } };

    ghost invariant = { λ kept. (kept.state.rows ≡ state_at kept.base.value.rows kept.history)
        × IsSound kept.state.rows
        × RisesBy (length kept.marks.items) kept.records.opening.faults (D.fault_count kept.records.disk)
        × (size_of (records_of kept.base.value.rows kept.history) ≤ kept.records.gate + 1) };
}

impl<D: Disk> Kept<D> {
    /// A store over a journal whose records were all read: this is the state that they led to, and there is no history.
    pub(crate) fn of(alloc: Global, state: State, journal: Journal<D>) -> Self
        requires past_reading { IsPastReading journal }
        requires sound { IsSound state.rows }
        requires counted { journal.opening.faults ≤ D.fault_count journal.disk }
        ensures log { result ≡ record { base = state.rows; history = []; marks = []; journal = journal } }
        ensures images { (opening : List (List ℕ)) → IsAtRest D.seen D.may_leave opening journal
            → SinceOpening D.clock D.left_since D.fault_count (StandsFor journal.kind opening) journal
            → KeepsImages D.seen D.may_leave D.clock D.left_since D.fault_count opening state.rows [] journal }
    {
        let base = Snapshot::of(&state);
        Kept {
            base,
            history: History::new(),
            marks: Vec::new(alloc),
            state,
            records: Records::of(journal),
        }
    }

    /// Does a command for the pass of this number. Its reply is rendered, and room is made, before anything is written,
    /// so that nothing has changed where memory is wanting. Where it has changes their record is written to the
    /// journal, once an append that failed before is taken back; then they are made.
    pub fn step<R: Render>(
        &mut self,
        alloc: Global,
        number: u64,
        command: Command,
        render: &R,
    ) -> Stepped<R::Out>
        requires { command.moment ≤ 2 ^ 62 }
        ensures steps { Steps D.fault_count (R.renders render.now) self.old self.new number command result }
        // A command without changes writes nothing.
        ensures idle { changes_of (state_of self.old) command ≡ [] → self.new.journal ≡ self.old.journal }
        // What a crash since the opening may have left.
        ensures images { (opening : List (List ℕ))
            → KeepsImages D.seen D.may_leave D.clock D.left_since D.fault_count opening
            self.old.base self.old.history self.old.journal
            → KeepsImages D.seen D.may_leave D.clock D.left_since D.fault_count opening
            self.new.base self.new.history self.new.journal }
        // An append that failed is that of this command's changes where its outcome is unknown, and there is no other.
        ensures lost { (opening : List (List ℕ)) (lost : List Lost)
            → Holds D.seen D.may_leave D.clock D.left_since D.fault_count opening
            (records self.old.base self.old.history) lost self.old.journal
            → Holds D.seen D.may_leave D.clock D.left_since D.fault_count opening
            (records self.new.base self.new.history)
            (lost_after result (records self.old.base self.old.history) (changes_of (state_of self.old) command) lost)
            self.new.journal }
        ensures opened { opened_of self.new ≡ opened_of self.old }
        ensures opening { self.new.journal.opening ≡ self.old.journal.opening }
        ensures kept { D.fault_count self.old.journal.disk ≤ D.fault_count self.new.journal.disk }
    {
        let Ok((decision, out)) = answer(alloc, &self.state, &command, render) else {
            drop(command);
            return Stepped::OutOfMemory;
        };
        let Decision { reply, changes } = decision;
        let full = full_run(&reply);
        drop(reply);
        let changes = Vec::from(changes);
        if let Some((charged, charge)) = full {
            drop(changes);
            drop(command);
            return Stepped::RunFull {
                charged,
                charge,
                out,
            };
        }
        match self.carry_out(alloc, number, command, changes) {
            Ok(place) => Stepped::Done { place, out },
            Err(why) => {
                drop(out);
                why.stepped()
            }
        }
    }

    // Carries out a command whose changes these are: makes room, writes their record, where there are any, and makes
    // and enters them.
    fn carry_out(
        &mut self,
        alloc: Global,
        number: u64,
        command: Command,
        changes: Vec<Change>,
    ) -> Result<u64, Undone>
        requires moment { command.moment ≤ 2 ^ 62 }
        requires open { (state_of self.old).charged + command.charge ≤ 2 ^ 30 }
        requires changes { changes.items ≡ changes_of (state_of self.old) command }
        ensures entered { IfOk result (IsEntered self.old self.new number command) }
        ensures undone { IfErr result (IsUndone D.fault_count self.old self.new number command) }
        ensures goes_on { GoesOn D.seen D.may_leave D.clock D.left_since D.fault_count self.old self.new }
        ensures idle { changes.items ≡ [] → self.new.journal ≡ self.old.journal }
        ensures holds { OnOk result ((opening : List (List ℕ)) (lost : List Lost)
            → Holds D.seen D.may_leave D.clock D.left_since D.fault_count opening
            (records self.old.base self.old.history) lost self.old.journal
            → Holds D.seen D.may_leave D.clock D.left_since D.fault_count opening
            (records self.new.base self.new.history) lost self.new.journal) }
        ensures lost { IfErr result (λ why. (opening : List (List ℕ)) (lost : List Lost)
            → Holds D.seen D.may_leave D.clock D.left_since D.fault_count opening
            (records self.old.base self.old.history) lost self.old.journal
            → Holds D.seen D.may_leave D.clock D.left_since D.fault_count opening
            (records self.new.base self.new.history)
            (lost_undone why (records self.old.base self.old.history) changes.items lost) self.new.journal) }
    {
        let Ok(body) = make_ready(
            alloc,
            &mut self.state,
            &self.history,
            &mut self.marks,
            changes.as_slice(),
        ) else {
            drop(changes);
            drop(command);
            return Err(Undone::OutOfMemory);
        };
        if let Err(why) = write(&mut self.records, body) {
            drop(changes);
            drop(command);
            return Err(mark(&mut self.marks, number, why));
        }
        let entry = Entry { number, command };
        Ok(enter(&mut self.state, &mut self.history, entry, changes))
    }

    /// Closes the catalogue.
    pub fn close(self) -> Closed<D>
        ensures disk { result.disk ≡ self.journal.disk }
        ensures base { result.base.value.rows ≡ self.base }
        ensures history { result.history ≡ self.history }
        ensures state { result.state.rows ≡ state_of self }
        ensures sound { IsSound result.state.rows }
        // No more calls were marked than the disk's count of faults rose since the opening, until it is at its end.
        ensures marked { RisesBy (length self.marks) self.journal.opening.faults (D.fault_count self.journal.disk) }
    {
        Closed {
            disk: self.records.close(),
            base: self.base,
            history: self.history,
            state: self.state,
        }
    }
}
