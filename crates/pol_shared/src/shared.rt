ghost use Rattle.std.specs.Prelude.{◌≡◌, ◌<◌, ◌≤◌, ◌^◌, ℕ, List, [], Some, IfErr, IfOk, IfSome, OnOk};
ghost use Rattle.pol_disk.specs.Disk.{LeavesOnly};
ghost use Rattle.pol_journal.specs.Crash.{IsUntouched};
ghost use Rattle.pol_journal.specs.Format.{IsNoneOrStandsFor, extent};
ghost use Rattle.pol_journal.specs.Journal.{IsBlank};
ghost use Rattle.pol_journal.specs.declared.kind.Kind.TheVariants.{Catalogue};
ghost use Rattle.pol_kept.specs.History.{changes_of, records, state_at};
ghost use Rattle.pol_kept.specs.Opened.{FreshRefused, fresh_bodies};
ghost use Rattle.pol_kept.specs.Opening.{OpeningRefused};
ghost use Rattle.pol_kept.specs.Stepped.{lost_after};
ghost use Rattle.pol_records.specs.Holding.{Holds, Lost, RisesBy};
ghost use Rattle.pol_shared.specs.Held.{HoldsImages};
ghost use Rattle.pol_shared.specs.Opened.{ReopensAs, held_disk, seen_new};
ghost use Rattle.pol_shared.specs.Seen.{AreOfPasses};
ghost use Rattle.pol_shared.specs.Stepped.{StepsIn, WritesIn};
ghost use Rattle.pol_state.specs.Rows.{fresh_state};
ghost use Rattle.pol_state.specs.Sound.{IsSound};
ghost use Rattle.pol_wire.specs.Faults.{Rises};

use crate::{Closed, Render, Stepped};
use pol_commands::Command;
use pol_disk::Disk;
use pol_journal::JournalRefused;
use pol_kept::Kept;
use std::alloc::Global;
use std::marker::Model;

/// The number of the founding pass.
const FOUNDING: u64 = 0;

/// The catalogue as its founding pass sees it, which is the only one. Contracts see the state at the opening, where
/// the journal ended then, the pass's number, how many passes were made, the history that this one has seen, how many
/// of its calls the disk failed, and the journal.
#[derive(Drop)]
pub struct Shared<D: Disk> {
    kept: Kept<D>,
}

impl<D: Disk> Model for Shared<D> {
    ghost use Rattle.std.specs.Prelude.{length};
    ghost use Rattle.pol_kept.specs.History.{opened_of};
    ghost use Rattle.pol_shared.specs.Held.{Held};
    ghost use Rattle.pol_shared.specs.Passes.{AreMarksMade};
    ghost use Rattle.pol_shared.specs.Seen.{AreOfPasses};

    ghost Value = { Held D };

    ghost view = { λ shared. record {
      seen = record {
        base = shared.kept.base;
        opened = opened_of shared.kept;
        number = 0;
        made = 1;
        front = shared.kept.history;
        failed = length shared.kept.marks;
      };
      journal = shared.kept.journal;
    } };

    ghost invariant = { λ shared. AreOfPasses 1 shared.kept.history × AreMarksMade 1 shared.kept.marks };
}

impl<D: Disk> Shared<D> {
    /// Makes a catalogue with the fresh state of this root secret, and its journal, on an empty disk. A refusal hands
    /// the disk back.
    pub fn fresh(
        alloc: Global,
        disk: D,
        root_secret: &str,
    ) -> Result<Shared<D>, (D, JournalRefused)>
        ensures made { IfOk result (λ held. held.seen
            ≡ seen_new (fresh_state root_secret.now) (extent (fresh_bodies root_secret.now))) }
        ensures images { IfOk result (λ held. IsBlank (D.seen disk) (D.may_leave disk)
            → HoldsImages D.seen D.may_leave D.clock D.left_since D.fault_count (fresh_bodies root_secret.now) held) }
        ensures moments { IsBlank (D.seen disk) (D.may_leave disk)
            → LeavesOnly D.clock D.left_since disk (held_disk result)
            (IsNoneOrStandsFor Catalogue (fresh_bodies root_secret.now)) }
        // A disk with bytes is refused.
        ensures empty { OnOk result (IfSome (D.size disk) (λ size. size ≡ 0)) }
        ensures refused { IfErr result (λ refused.
            FreshRefused (D.size disk) (D.fault_count disk) (D.fault_count refused.0) refused.1) }
        ensures opening { IfOk result (λ held. D.fault_count disk ≤ held.journal.opening.faults) }
        ensures kept { D.fault_count disk ≤ D.fault_count (held_disk result) }
    {
        match Kept::fresh(alloc, disk, root_secret) {
            Ok(kept) => Ok(Shared { kept }),
            Err(refused) => Err(refused),
        }
    }

    /// Opens the catalogue that the disk's journal keeps. A refusal hands the disk back, and its bytes stay.
    pub fn open(alloc: Global, disk: D) -> Result<Shared<D>, (D, JournalRefused)>
        ensures new { IfOk result (λ held. held.seen ≡ seen_new held.seen.base held.seen.opened) }
        ensures sound { IfOk result (λ held. IsSound held.seen.base) }
        ensures charged { IfOk result (λ held. held.seen.base.charged ≡ 0) }
        ensures opened { IfOk result (λ held. (file : List ℕ) → D.seen disk ≡ Some file
            → ReopensAs D.seen D.may_leave D.clock D.left_since D.fault_count file held) }
        ensures refused { IfErr result (λ refused.
            OpeningRefused (D.seen disk) (D.fault_count disk) (D.fault_count refused.0) refused.1) }
        ensures untouched { IsUntouched D.clock D.left_since D.may_leave D.seen D.size disk (held_disk result) }
        ensures opening { IfOk result (λ held. D.fault_count disk ≤ held.journal.opening.faults) }
        ensures kept { D.fault_count disk ≤ D.fault_count (held_disk result) }
    {
        match Kept::open(alloc, disk) {
            Ok(kept) => Ok(Shared { kept }),
            Err(refused) => Err(refused),
        }
    }

    /// Does a command. Its reply is rendered before anything changes, so that nothing has changed where memory is
    /// wanting. Its changes are in the journal before it is told.
    pub fn step<R: Render>(
        &mut self,
        alloc: Global,
        command: Command,
        render: &R,
    ) -> Stepped<R::Out>
        requires { command.moment ≤ 2 ^ 62 }
        ensures steps { StepsIn (R.renders render.now) self.old.seen self.new.seen command result }
        ensures writes { WritesIn self.old.journal self.new.journal result }
        // A command without changes writes nothing.
        ensures idle { changes_of (state_at self.old.seen.base self.old.seen.front) command ≡ []
            → self.new.journal ≡ self.old.journal }
        // A mark is made only where the disk's count of faults rose in this call.
        ensures marked { self.old.seen.failed < self.new.seen.failed
            → Rises (D.fault_count self.old.journal.disk) (D.fault_count self.new.journal.disk) }
        ensures images { (opening : List (List ℕ))
            → HoldsImages D.seen D.may_leave D.clock D.left_since D.fault_count opening self.old
            → HoldsImages D.seen D.may_leave D.clock D.left_since D.fault_count opening self.new }
        // An append that failed is that of this command's changes where its outcome is unknown, and there is no other.
        ensures lost { (opening : List (List ℕ)) (lost : List Lost)
            → Holds D.seen D.may_leave D.clock D.left_since D.fault_count opening
            (records self.old.seen.base self.old.seen.front) lost self.old.journal
            → Holds D.seen D.may_leave D.clock D.left_since D.fault_count opening
            (records self.new.seen.base self.new.seen.front)
            (lost_after result (records self.old.seen.base self.old.seen.front)
            (changes_of (state_at self.old.seen.base self.old.seen.front) command) lost) self.new.journal }
        ensures opening { self.new.journal.opening ≡ self.old.journal.opening }
        ensures kept { D.fault_count self.old.journal.disk ≤ D.fault_count self.new.journal.disk }
    {
        self.kept.step(alloc, FOUNDING, command, render)
    }

    /// Closes the catalogue. Each entry of its history is of a pass that was made.
    pub fn close(self) -> Closed<D>
        ensures disk { result.disk ≡ self.journal.disk }
        ensures base { result.base.value.rows ≡ self.seen.base }
        ensures history { result.history ≡ self.seen.front }
        ensures state { result.state.rows ≡ state_at self.seen.base self.seen.front }
        ensures sound { IsSound result.state.rows }
        ensures passes { AreOfPasses self.seen.made self.seen.front }
        // No more calls were marked than the disk's count of faults rose since the opening, until it is at its end.
        ensures marked { RisesBy self.seen.failed self.journal.opening.faults (D.fault_count self.journal.disk) }
    {
        self.kept.close()
    }
}
