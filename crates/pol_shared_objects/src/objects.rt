ghost use Rattle.std.specs.Prelude.{◌≡◌, ◌<◌, ◌≤◌, ℕ, List, [], Some, IfErr, IfOk, IfSome, OnOk};
ghost use Rattle.pol_disk.specs.Disk.{LeavesOnly};
ghost use Rattle.pol_journal.specs.Crash.{IsUntouched};
ghost use Rattle.pol_journal.specs.Format.{IsNoneOrStandsFor, extent};
ghost use Rattle.pol_journal.specs.Journal.{IsBlank};
ghost use Rattle.pol_journal.specs.Refused.{CreateRefused};
ghost use Rattle.pol_journal.specs.declared.kind.Kind.TheVariants as kind;
ghost use Rattle.pol_objects.specs.declared.action.ObjectAction.TheVariants as action;
ghost use Rattle.pol_objects.specs.Objects.{total_length};
ghost use Rattle.pol_object_store.specs.Acted.{lost_after};
ghost use Rattle.pol_object_store.specs.ObjectHistory.{no_objects, object_state_at};
ghost use Rattle.pol_object_store.specs.ObjectRecords.{object_changes, object_records};
ghost use Rattle.pol_object_store.specs.Reopened.{OpenObjectsRefused};
ghost use Rattle.pol_records.specs.Holding.{Holds, Lost, RisesBy};
ghost use Rattle.pol_shared.specs.Opened.{seen_new};
ghost use Rattle.pol_shared_objects.specs.Acted.{ActsIn, LooksIn, RecordsIn};
ghost use Rattle.pol_shared_objects.specs.HeldObjects.{HoldsObjectImages};
ghost use Rattle.pol_shared_objects.specs.OpenedObjects.{ReopensObjects, held_disk};
ghost use Rattle.pol_shared_objects.specs.SeenObjects.{AreOfObjectPasses};
ghost use Rattle.pol_tokens.specs.declared.token.Act.TheVariants.{Read, Write};
ghost use Rattle.pol_wire.specs.Faults.{Rises};

use crate::{Acted, ClosedObjects};
use pol_disk::Disk;
use pol_journal::JournalRefused;
use pol_object_store::KeptObjects;
use pol_objects::ObjectAction;
use pol_shared::Permit;
use pol_shared_bytes::SharedBytes;
use pol_types::Bytes;
use std::alloc::Global;
use std::marker::Model;

/// The number of the founding pass.
const FOUNDING: u64 = 0;

/// The objects as their founding pass sees them, which is the only one. Contracts see the state at the opening, where
/// the journal ended then, the pass's number, how many passes were made, the history that this one has seen, how many
/// of its calls the disk failed, and the journal.
///
/// Each action takes the permit that allows it, and is entered with the place of its access.
#[derive(Drop)]
pub struct Objects<D: Disk> {
    kept: KeptObjects<D>,
}

impl<D: Disk> Model for Objects<D> {
    ghost use Rattle.std.specs.Prelude.{length};
    ghost use Rattle.pol_object_store.specs.ObjectRecords.{object_opened};
    ghost use Rattle.pol_shared.specs.Passes.{AreMarksMade};
    ghost use Rattle.pol_shared_objects.specs.HeldObjects.{HeldObjects};
    ghost use Rattle.pol_shared_objects.specs.SeenObjects.{AreOfObjectPasses};

    ghost Value = { HeldObjects D };

    ghost view = { λ objects. record {
      seen = record {
        base = objects.kept.base;
        opened = object_opened objects.kept;
        number = 0;
        made = 1;
        front = objects.kept.history;
        failed = length objects.kept.marks;
      };
      journal = objects.kept.journal;
    } };

    ghost invariant = { λ objects. AreOfObjectPasses 1 objects.kept.history × AreMarksMade 1 objects.kept.marks };
}

impl<D: Disk> Objects<D> {
    /// Makes a journal of objects without records on an empty disk. A refusal hands the disk back.
    pub fn fresh(alloc: Global, disk: D) -> Result<Objects<D>, (D, JournalRefused)>
        ensures made { IfOk result (λ held. held.seen ≡ seen_new no_objects (extent [])) }
        ensures images { IfOk result (λ held. IsBlank (D.seen disk) (D.may_leave disk)
            → HoldsObjectImages D.seen D.may_leave D.clock D.left_since D.fault_count [] held) }
        ensures moments { IsBlank (D.seen disk) (D.may_leave disk)
            → LeavesOnly D.clock D.left_since disk (held_disk result) (IsNoneOrStandsFor kind.Objects []) }
        // A disk with bytes is refused.
        ensures empty { OnOk result (IfSome (D.size disk) (λ size. size ≡ 0)) }
        ensures refused { IfErr result (λ refused.
            CreateRefused (D.size disk) (D.fault_count disk) (D.fault_count refused.0) refused.1) }
        ensures opening { IfOk result (λ held. D.fault_count disk ≤ held.journal.opening.faults) }
        ensures kept { D.fault_count disk ≤ D.fault_count (held_disk result) }
    {
        match KeptObjects::fresh(alloc, disk) {
            Ok(kept) => Ok(Objects { kept }),
            Err(refused) => Err(refused),
        }
    }

    /// Opens the objects that the disk's journal keeps. A refusal hands the disk back, and its bytes stay.
    pub fn open(alloc: Global, disk: D) -> Result<Objects<D>, (D, JournalRefused)>
        ensures new { IfOk result (λ held. held.seen ≡ seen_new held.seen.base held.seen.opened) }
        ensures counted { IfOk result (λ held. held.seen.base.counted ≡ total_length held.seen.base.objects) }
        ensures opened { IfOk result (λ held. (file : List ℕ) → D.seen disk ≡ Some file
            → ReopensObjects D.seen D.may_leave D.clock D.left_since D.fault_count file held) }
        ensures refused { IfErr result (λ refused.
            OpenObjectsRefused (D.seen disk) (D.fault_count disk) (D.fault_count refused.0) refused.1) }
        ensures untouched { IsUntouched D.clock D.left_since D.may_leave D.seen D.size disk (held_disk result) }
        ensures opening { IfOk result (λ held. D.fault_count disk ≤ held.journal.opening.faults) }
        ensures kept { D.fault_count disk ≤ D.fault_count (held_disk result) }
    {
        match KeptObjects::open(alloc, disk) {
            Ok(kept) => Ok(Objects { kept }),
            Err(refused) => Err(refused),
        }
    }

    /// The bytes of the object at the permit's path.
    pub fn get(&mut self, alloc: Global, permit: Permit) -> Acted
        requires { permit.act ≡ Read }
        ensures acts { LooksIn self.old.seen self.new.seen permit.place (action.Get permit.path) result }
        ensures untouched { self.new.journal ≡ self.old.journal }
        ensures images { (opening : List (List ℕ))
            → HoldsObjectImages D.seen D.may_leave D.clock D.left_since D.fault_count opening self.old
            → HoldsObjectImages D.seen D.may_leave D.clock D.left_since D.fault_count opening self.new }
        ensures opening { self.new.journal.opening ≡ self.old.journal.opening }
        ensures kept { D.fault_count self.old.journal.disk ≤ D.fault_count self.new.journal.disk }
    {
        let access = permit.place();
        let path = permit.into_path();
        self.act(alloc, access, ObjectAction::Get { path })
    }

    /// How many bytes the object at the permit's path has.
    pub fn head(&mut self, alloc: Global, permit: Permit) -> Acted
        requires { permit.act ≡ Read }
        ensures acts { LooksIn self.old.seen self.new.seen permit.place (action.Head permit.path) result }
        ensures untouched { self.new.journal ≡ self.old.journal }
        ensures images { (opening : List (List ℕ))
            → HoldsObjectImages D.seen D.may_leave D.clock D.left_since D.fault_count opening self.old
            → HoldsObjectImages D.seen D.may_leave D.clock D.left_since D.fault_count opening self.new }
        ensures opening { self.new.journal.opening ≡ self.old.journal.opening }
        ensures kept { D.fault_count self.old.journal.disk ≤ D.fault_count self.new.journal.disk }
    {
        let access = permit.place();
        let path = permit.into_path();
        self.act(alloc, access, ObjectAction::Head { path })
    }

    /// Adds an object of these bytes at the permit's path, where none is yet and a rule doesn't refuse it.
    pub fn put(&mut self, alloc: Global, permit: Permit, bytes: Bytes) -> Acted
        requires { permit.act ≡ Write }
        ensures acts { ActsIn self.old.seen self.new.seen permit.place (action.Put permit.path bytes) result }
        ensures records { RecordsIn self.old.journal self.new.journal result }
        ensures marked { self.old.seen.failed < self.new.seen.failed
            → Rises (D.fault_count self.old.journal.disk) (D.fault_count self.new.journal.disk) }
        ensures images { (opening : List (List ℕ))
            → HoldsObjectImages D.seen D.may_leave D.clock D.left_since D.fault_count opening self.old
            → HoldsObjectImages D.seen D.may_leave D.clock D.left_since D.fault_count opening self.new }
        // Where the outcome is unknown, the action's change is the one that may be left.
        ensures lost { (opening : List (List ℕ)) (lost : List Lost)
            → Holds D.seen D.may_leave D.clock D.left_since D.fault_count opening
            (object_records self.old.seen.base self.old.seen.front) lost self.old.journal
            → Holds D.seen D.may_leave D.clock D.left_since D.fault_count opening
            (object_records self.new.seen.base self.new.seen.front)
            (lost_after result (object_records self.old.seen.base self.old.seen.front)
            (object_changes (object_state_at self.old.seen.base self.old.seen.front) (action.Put permit.path bytes)) lost) self.new.journal }
        ensures opening { self.new.journal.opening ≡ self.old.journal.opening }
        ensures kept { D.fault_count self.old.journal.disk ≤ D.fault_count self.new.journal.disk }
    {
        let access = permit.place();
        let path = permit.into_path();
        let Ok(bytes) = SharedBytes::new(alloc, bytes) else {
            drop(path);
            return Acted::OutOfMemory;
        };
        self.act(alloc, access, ObjectAction::Put { path, bytes })
    }

    /// Takes the object at the permit's path away.
    pub fn delete(&mut self, alloc: Global, permit: Permit) -> Acted
        requires { permit.act ≡ Write }
        ensures acts { ActsIn self.old.seen self.new.seen permit.place (action.Delete permit.path) result }
        ensures records { RecordsIn self.old.journal self.new.journal result }
        ensures marked { self.old.seen.failed < self.new.seen.failed
            → Rises (D.fault_count self.old.journal.disk) (D.fault_count self.new.journal.disk) }
        ensures images { (opening : List (List ℕ))
            → HoldsObjectImages D.seen D.may_leave D.clock D.left_since D.fault_count opening self.old
            → HoldsObjectImages D.seen D.may_leave D.clock D.left_since D.fault_count opening self.new }
        // Where the outcome is unknown, the action's change is the one that may be left.
        ensures lost { (opening : List (List ℕ)) (lost : List Lost)
            → Holds D.seen D.may_leave D.clock D.left_since D.fault_count opening
            (object_records self.old.seen.base self.old.seen.front) lost self.old.journal
            → Holds D.seen D.may_leave D.clock D.left_since D.fault_count opening
            (object_records self.new.seen.base self.new.seen.front)
            (lost_after result (object_records self.old.seen.base self.old.seen.front)
            (object_changes (object_state_at self.old.seen.base self.old.seen.front) (action.Delete permit.path)) lost) self.new.journal }
        ensures opening { self.new.journal.opening ≡ self.old.journal.opening }
        ensures kept { D.fault_count self.old.journal.disk ≤ D.fault_count self.new.journal.disk }
    {
        let access = permit.place();
        let path = permit.into_path();
        self.act(alloc, access, ObjectAction::Delete { path })
    }

    /// The paths of the objects that the permit's path covers.
    pub fn list(&mut self, alloc: Global, permit: Permit) -> Acted
        requires { permit.act ≡ Read }
        ensures acts { LooksIn self.old.seen self.new.seen permit.place (action.List permit.path) result }
        ensures untouched { self.new.journal ≡ self.old.journal }
        ensures images { (opening : List (List ℕ))
            → HoldsObjectImages D.seen D.may_leave D.clock D.left_since D.fault_count opening self.old
            → HoldsObjectImages D.seen D.may_leave D.clock D.left_since D.fault_count opening self.new }
        ensures opening { self.new.journal.opening ≡ self.old.journal.opening }
        ensures kept { D.fault_count self.old.journal.disk ≤ D.fault_count self.new.journal.disk }
    {
        let access = permit.place();
        let path = permit.into_path();
        self.act(alloc, access, ObjectAction::List { path })
    }

    /// Does an action that the access at this place allowed.
    fn act(&mut self, alloc: Global, access: u64, action: ObjectAction) -> Acted
        ensures acts { ActsIn self.old.seen self.new.seen access action result }
        ensures records { RecordsIn self.old.journal self.new.journal result }
        ensures idle { object_changes (object_state_at self.old.seen.base self.old.seen.front) action ≡ []
            → self.new.journal ≡ self.old.journal }
        ensures marked { self.old.seen.failed < self.new.seen.failed
            → Rises (D.fault_count self.old.journal.disk) (D.fault_count self.new.journal.disk) }
        ensures images { (opening : List (List ℕ))
            → HoldsObjectImages D.seen D.may_leave D.clock D.left_since D.fault_count opening self.old
            → HoldsObjectImages D.seen D.may_leave D.clock D.left_since D.fault_count opening self.new }
        ensures lost { (opening : List (List ℕ)) (lost : List Lost)
            → Holds D.seen D.may_leave D.clock D.left_since D.fault_count opening
            (object_records self.old.seen.base self.old.seen.front) lost self.old.journal
            → Holds D.seen D.may_leave D.clock D.left_since D.fault_count opening
            (object_records self.new.seen.base self.new.seen.front)
            (lost_after result (object_records self.old.seen.base self.old.seen.front)
            (object_changes (object_state_at self.old.seen.base self.old.seen.front) action) lost) self.new.journal }
        ensures opening { self.new.journal.opening ≡ self.old.journal.opening }
        ensures kept { D.fault_count self.old.journal.disk ≤ D.fault_count self.new.journal.disk }
    {
        self.kept.act(alloc, FOUNDING, access, action)
    }

    /// Closes the store. Each entry of its history is of a pass that was made.
    pub fn close(self) -> ClosedObjects<D>
        ensures disk { result.disk ≡ self.journal.disk }
        ensures base { result.base.value ≡ self.seen.base }
        ensures history { result.history ≡ self.seen.front }
        ensures state { result.state ≡ object_state_at self.seen.base self.seen.front }
        ensures passes { AreOfObjectPasses self.seen.made self.seen.front }
        // No more calls were marked than the disk's count of faults rose since the opening, until it is at its end.
        ensures marked { RisesBy self.seen.failed self.journal.opening.faults (D.fault_count self.journal.disk) }
    {
        self.kept.close()
    }
}
