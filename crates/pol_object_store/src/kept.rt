ghost use Rattle.std.specs.Prelude.{◌≡◌, ◌≤◌, ◌≢◌, [], ℕ, IfErr, IfOk, IfSome, List, OnOk, Some, length};
ghost use Rattle.pol_disk.specs.Disk.{LeavesOnly};
ghost use Rattle.pol_journal.specs.Crash.{IsUntouched};
ghost use Rattle.pol_journal.specs.Format.{IsNoneOrStandsFor, StandsFor};
ghost use Rattle.pol_journal.specs.Journal.{IsAtRest, IsBlank, SinceOpening};
ghost use Rattle.pol_journal.specs.Refused.{CreateRefused};
ghost use Rattle.pol_journal.specs.declared.kind.Kind.TheVariants.{Objects};
ghost use Rattle.pol_objects.specs.Objects.{total_length};
ghost use Rattle.pol_object_store.specs.Acted.{Acts, lost_after};
ghost use Rattle.pol_object_store.specs.ObjectHistory.{no_objects, object_state_of};
ghost use Rattle.pol_object_store.specs.ObjectImages.{KeepsObjectImages};
ghost use Rattle.pol_object_store.specs.ObjectRecords.{AreFormed, object_changes, object_opened, object_records};
ghost use Rattle.pol_object_store.specs.Reopened.{IsNewLog, OpenObjectsRefused, Reopens, disk_left};
ghost use Rattle.pol_records.specs.Holding.{Holds, IsPastReading, Lost, RisesBy};

use crate::opening::read_state;
use crate::stages::{perform, reserve, undone};
use crate::{Acted, ClosedObjects, ObjectEntry};
use pol_disk::Disk;
use pol_histories::History;
use pol_journal::{Journal, JournalRefused, Kind};
use pol_objects::{ObjectAction, ObjectState};
use pol_records::Records;
use std::alloc::Global;
use std::marker::Model;
use std::snapshot::Snapshot;

/// Objects with their history, in a journal: the state at the opening, the actions that were done since, the numbers
/// of the passes whose call the disk failed, and the state that the actions led to. Contracts see all but the last,
/// which the first two determine; and the first two are for contracts alone.
#[derive(Drop)]
pub struct KeptObjects<D: Disk> {
    base: Snapshot<ObjectState>,
    history: History<ObjectEntry>,
    marks: Vec<u64>,
    state: ObjectState,
    records: Records<D>,
}

impl<D: Disk> Model for KeptObjects<D> {
    ghost use Rattle.std.specs.Prelude.{◌≡◌, ◌≤◌, ◌+◌, length};
    ghost use Rattle.pol_object_store.specs.ObjectHistory.{ObjectLog, object_state_at};
    ghost use Rattle.pol_object_store.specs.ObjectRecords.{AreFormed, object_records, object_size_of};
    ghost use Rattle.pol_records.specs.Holding.{RisesBy};

    ghost Value = { ObjectLog D };

    ghost view = { λ kept. record {
      base = kept.base.value;
      history = kept.history;
      marks = kept.marks.items;
      journal = kept.records;
    } };

    ghost invariant = { λ kept. (kept.state ≡ object_state_at kept.base.value kept.history)
        × RisesBy (length kept.marks.items) kept.records.opening.faults (D.fault_count kept.records.disk)
        × (object_size_of (object_records kept.base.value kept.history) ≤ kept.records.gate + 1)
        × AreFormed kept.base.value kept.history };
}

impl<D: Disk> KeptObjects<D> {
    /// A store over a journal whose records were all read: this is the state that they led to, and there is no history.
    fn of(alloc: Global, state: ObjectState, journal: Journal<D>) -> Self
        requires past_reading { IsPastReading journal }
        requires counted { journal.opening.faults ≤ D.fault_count journal.disk }
        ensures log { result ≡ record { base = state; history = []; marks = []; journal = journal } }
        ensures images { (opening : List (List ℕ)) → IsAtRest D.seen D.may_leave opening journal
            → SinceOpening D.clock D.left_since D.fault_count (StandsFor journal.kind opening) journal
            → KeepsObjectImages D.seen D.may_leave D.clock D.left_since D.fault_count opening state [] journal }
    {
        let base = Snapshot::of(&state);
        KeptObjects {
            base,
            history: History::new(),
            marks: Vec::new(alloc),
            state,
            records: Records::of(journal),
        }
    }

    /// Makes a journal of objects without records on an empty disk. A refusal hands the disk back.
    pub fn fresh(alloc: Global, disk: D) -> Result<Self, (D, JournalRefused)>
        ensures base { IfOk result (λ log. log.base ≡ no_objects) }
        ensures new { IfOk result (λ log. IsNewLog log) }
        ensures images { IfOk result (λ log. IsBlank (D.seen disk) (D.may_leave disk)
            → KeepsObjectImages D.seen D.may_leave D.clock D.left_since D.fault_count []
            log.base log.history log.journal) }
        // At each moment of the call each image is no journal, or stands for no bodies.
        ensures moments { IsBlank (D.seen disk) (D.may_leave disk)
            → LeavesOnly D.clock D.left_since disk (disk_left result) (IsNoneOrStandsFor Objects []) }
        ensures opened { IfOk result (λ log. object_opened log ≡ 65) }
        ensures since { IfOk result (λ log. D.fault_count disk ≤ log.journal.opening.faults) }
        // A disk with bytes is refused.
        ensures empty { OnOk result (IfSome (D.size disk) (λ size. size ≡ 0)) }
        ensures refused { IfErr result (λ refused.
            CreateRefused (D.size disk) (D.fault_count disk) (D.fault_count refused.0) refused.1) }
        // A disk with bytes isn't touched.
        ensures untouched { IfSome (D.size disk) (λ size. size ≢ 0
            → IsUntouched D.clock D.left_since D.may_leave D.seen D.size disk (disk_left result)) }
        ensures kept { D.fault_count disk ≤ D.fault_count (disk_left result) }
    {
        match Journal::fresh(disk, Kind::Objects, &[0]) {
            Ok(journal) => Ok(KeptObjects::of(alloc, ObjectState::empty(alloc), journal)),
            Err(refused) => Err(refused),
        }
    }

    /// Opens a journal of objects and reads it whole. Each body must be the form of a change that fits the objects
    /// to which those before it lead: the first gate behind which none such stands is told by `BadRecord`. A refusal
    /// hands the disk back, and its bytes stay.
    pub fn open(alloc: Global, disk: D) -> Result<Self, (D, JournalRefused)>
        ensures opened { IfOk result (λ log. (file : List ℕ) → D.seen disk ≡ Some file
            → Reopens D.seen D.may_leave D.clock D.left_since D.fault_count file log) }
        ensures counted { IfOk result (λ log. log.base.counted ≡ total_length log.base.objects) }
        ensures new { IfOk result (λ log. IsNewLog log) }
        ensures since { IfOk result (λ log. D.fault_count disk ≤ log.journal.opening.faults) }
        ensures refused { IfErr result (λ refused.
            OpenObjectsRefused (D.seen disk) (D.fault_count disk) (D.fault_count refused.0) refused.1) }
        ensures untouched { IsUntouched D.clock D.left_since D.may_leave D.seen D.size disk (disk_left result) }
        ensures kept { D.fault_count disk ≤ D.fault_count (disk_left result) }
    {
        let mut journal = match Journal::open(disk, Kind::Objects) {
            Ok(journal) => journal,
            Err(refused) => return Err(refused),
        };
        match read_state(alloc, &mut journal) {
            Ok(state) => Ok(KeptObjects::of(alloc, state, journal)),
            Err(why) => Err((journal.close(), why)),
        }
    }

    /// Does an action for the pass of this number, which the access at this place of the catalogue's history allowed.
    /// Room is made before anything is written, so that nothing has changed where memory is wanting. A put or a delete
    /// that is accepted is in the journal before it is told, once an append that failed before is taken back.
    pub fn act(&mut self, alloc: Global, number: u64, access: u64, action: ObjectAction) -> Acted
        ensures acts { Acts D.fault_count self.old self.new number access action result }
        // What a crash since the opening may have left.
        ensures images { (opening : List (List ℕ))
            → KeepsObjectImages D.seen D.may_leave D.clock D.left_since D.fault_count opening
            self.old.base self.old.history self.old.journal
            → KeepsObjectImages D.seen D.may_leave D.clock D.left_since D.fault_count opening
            self.new.base self.new.history self.new.journal }
        // Where the outcome is unknown, the action's change is the one that may be left.
        ensures lost { (opening : List (List ℕ)) (lost : List Lost)
            → Holds D.seen D.may_leave D.clock D.left_since D.fault_count opening
            (object_records self.old.base self.old.history) lost self.old.journal
            → Holds D.seen D.may_leave D.clock D.left_since D.fault_count opening
            (object_records self.new.base self.new.history)
            (lost_after result (object_records self.old.base self.old.history)
            (object_changes (object_state_of self.old) action) lost) self.new.journal }
        // What makes no change leaves the journal.
        ensures idle { object_changes (object_state_of self.old) action ≡ [] → self.new.journal ≡ self.old.journal }
        // What is recorded can be read back.
        ensures formed { AreFormed self.new.base self.new.history }
        ensures opened { object_opened self.new ≡ object_opened self.old }
        ensures opening { self.new.journal.opening ≡ self.old.journal.opening }
        ensures kind { self.new.journal.kind ≡ self.old.journal.kind }
        ensures kept { D.fault_count self.old.journal.disk ≤ D.fault_count self.new.journal.disk }
    {
        let Ok(()) = reserve(&self.history, &mut self.marks) else {
            drop(action);
            return Acted::OutOfMemory;
        };
        match perform(alloc, &mut self.state, &mut self.records, &action) {
            Ok(reply) => {
                let place = self.history.len();
                let entry = ObjectEntry {
                    number,
                    access,
                    action,
                };
                self.history.push(&entry);
                drop(entry);
                Acted::Done { place, reply }
            }
            Err(why) => {
                drop(action);
                undone(&mut self.marks, number, why)
            }
        }
    }

    /// Closes the store.
    pub fn close(self) -> ClosedObjects<D>
        ensures disk { result.disk ≡ self.journal.disk }
        ensures base { result.base.value ≡ self.base }
        ensures history { result.history ≡ self.history }
        ensures state { result.state ≡ object_state_of self }
        ensures formed { AreFormed self.base self.history }
        // No more calls were marked than the disk's count of faults rose since the opening, until it is at its end.
        ensures marked { RisesBy (length self.marks) self.journal.opening.faults (D.fault_count self.journal.disk) }
    {
        ClosedObjects {
            disk: self.records.close(),
            base: self.base,
            history: self.history,
            state: self.state,
        }
    }
}
