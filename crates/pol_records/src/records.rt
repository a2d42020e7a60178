ghost use Rattle.std.specs.Prelude.{◌≡◌, ◌≤◌, ◌+◌, ◌^◌, ◌++◌, ◌∷◌, [], ℕ, List, IfErr, OnErr, OnOk, length};
ghost use Rattle.pol_wire.specs.Faults.{Rises};
ghost use Rattle.pol_journal.specs.Format.{StandsFor};
ghost use Rattle.pol_journal.specs.Journal.{HasFailed, IsAtRest, IsReady, SinceOpening};
ghost use Rattle.pol_journal.specs.declared.stage.Stage.TheVariants.{Ready};
ghost use Rattle.pol_records.specs.Holding.{Holds, IsPastReading, Lost};
ghost use Rattle.pol_records.specs.Unwritten.{IsUnwritten, lost_by, wanted_with};
ghost use Rattle.pol_records.specs.declared.unwritten.Unwritten.TheVariants.{DiskFault};

use crate::Unwritten;
use crate::unwritten::why_unwritten;
use pol_disk::Disk;
use pol_journal::{Journal, Opening};
use std::marker::Model;

/// The records of a journal that were all read. A body whose append failed is taken back before the next is appended.
#[derive(Drop)]
pub struct Records<D: Disk> {
    journal: Journal<D>,
}

impl<D: Disk> Model for Records<D> {
    ghost use Rattle.pol_journal.specs.Journal.{JournalState};
    ghost use Rattle.pol_records.specs.Holding.{IsPastReading};

    ghost Value = { JournalState D };

    ghost view = { λ records. records.journal };

    ghost invariant = { λ records. IsPastReading records.journal };
}

impl<D: Disk> Records<D> {
    /// The records of a journal. All of them must have been read.
    pub fn of(journal: Journal<D>) -> Self
        requires { IsPastReading journal }
        ensures journal { result ≡ journal }
        // They are the opening bodies where the journal is at rest on them, and each image since its opening stands for
        // them.
        ensures holds { (bodies : List (List ℕ)) → IsAtRest D.seen D.may_leave bodies journal
            → SinceOpening D.clock D.left_since D.fault_count (StandsFor journal.kind bodies) journal
            → Holds D.seen D.may_leave D.clock D.left_since D.fault_count bodies [] [] result }
    {
        Records { journal }
    }

    /// Writes a body behind the others: at `Ok` no crash takes it away. An append that failed is repaired first. The
    /// body isn't there after `JournalFull` and `DiskFault`; after `Unknown` it may be there, until a later write has
    /// repaired its append. It takes no memory.
    pub fn write(&mut self, body: &[u8]) -> Result<(), Unwritten>
        ensures written { OnOk result ((opening written : List (List ℕ)) (lost : List Lost)
            → Holds D.seen D.may_leave D.clock D.left_since D.fault_count opening written lost self.old
            → Holds D.seen D.may_leave D.clock D.left_since D.fault_count opening (written ++ body.now ∷ []) lost self.new) }
        ensures lost { IfErr result (λ why. (opening written : List (List ℕ)) (lost : List Lost)
            → Holds D.seen D.may_leave D.clock D.left_since D.fault_count opening written lost self.old
            → Holds D.seen D.may_leave D.clock D.left_since D.fault_count opening written
            (lost_by why written body.now lost) self.new) }
        ensures after { OnOk result (self.new ≡ record self.old {
          disk = self.new.disk;
          gate = self.old.gate + 9 + length body.now;
          stage = Ready;
        }) }
        ensures left { OnErr result (self.new ≡ record self.old { disk = self.new.disk; stage = self.new.stage }) }
        ensures fits { OnOk result (wanted_with self.old body.now ≤ 2 ^ 40) }
        ensures refused { IfErr result (IsUnwritten D.fault_count self.old body.now self.new) }
        ensures kept { D.fault_count self.old.disk ≤ D.fault_count self.new.disk }
    {
        self.settle()?;
        self.append(body)
    }

    // Repairs the journal where its last append failed.
    fn settle(&mut self) -> Result<(), Unwritten>
        ensures ready { OnOk result (IsReady self.new) }
        ensures holds { (opening written : List (List ℕ)) (lost : List Lost)
            → Holds D.seen D.may_leave D.clock D.left_since D.fault_count opening written lost self.old
            → Holds D.seen D.may_leave D.clock D.left_since D.fault_count opening written lost self.new }
        ensures same { self.new ≡ record self.old { disk = self.new.disk; stage = self.new.stage } }
        ensures refused { IfErr result (λ why. (why ≡ DiskFault) × HasFailed self.old × HasFailed self.new
            × Rises (D.fault_count self.old.disk) (D.fault_count self.new.disk)) }
        ensures kept { D.fault_count self.old.disk ≤ D.fault_count self.new.disk }
    {
        if self.journal.has_failed() {
            return self.take_back();
        }
        Ok(())
    }

    // Repairs the journal, whose last append failed.
    fn take_back(&mut self) -> Result<(), Unwritten>
        requires { HasFailed self.old }
        ensures ready { OnOk result (IsReady self.new) }
        ensures holds { (opening written : List (List ℕ)) (lost : List Lost)
            → Holds D.seen D.may_leave D.clock D.left_since D.fault_count opening written lost self.old
            → Holds D.seen D.may_leave D.clock D.left_since D.fault_count opening written lost self.new }
        ensures same { self.new ≡ record self.old { disk = self.new.disk; stage = self.new.stage } }
        ensures refused { IfErr result (λ why. (why ≡ DiskFault) × HasFailed self.new
            × Rises (D.fault_count self.old.disk) (D.fault_count self.new.disk)) }
        ensures kept { D.fault_count self.old.disk ≤ D.fault_count self.new.disk }
    {
        let Ok(()) = self.journal.repair() else {
            return Err(Unwritten::DiskFault);
        };
        Ok(())
    }

    // Appends a body to a journal whose last append didn't fail.
    fn append(&mut self, body: &[u8]) -> Result<(), Unwritten>
        requires { IsReady self.old }
        ensures written { OnOk result ((opening written : List (List ℕ)) (lost : List Lost)
            → Holds D.seen D.may_leave D.clock D.left_since D.fault_count opening written lost self.old
            → Holds D.seen D.may_leave D.clock D.left_since D.fault_count opening (written ++ body.now ∷ []) lost self.new) }
        ensures lost { IfErr result (λ why. (opening written : List (List ℕ)) (lost : List Lost)
            → Holds D.seen D.may_leave D.clock D.left_since D.fault_count opening written lost self.old
            → Holds D.seen D.may_leave D.clock D.left_since D.fault_count opening written
            (lost_by why written body.now lost) self.new) }
        ensures after { OnOk result (self.new
            ≡ record self.old { disk = self.new.disk; gate = self.old.gate + 9 + length body.now }) }
        ensures left { OnErr result (self.new ≡ record self.old { disk = self.new.disk; stage = self.new.stage }) }
        ensures fits { OnOk result (wanted_with self.old body.now ≤ 2 ^ 40) }
        ensures refused { IfErr result (IsUnwritten D.fault_count self.old body.now self.new) }
        ensures kept { D.fault_count self.old.disk ≤ D.fault_count self.new.disk }
    {
        let Err(refused) = self.journal.append(body) else {
            return Ok(());
        };
        Err(why_unwritten(refused))
    }

    /// What the disk told when the journal was opened or made.
    pub fn opening(&self) -> Opening
        ensures { result ≡ self.now.opening }
    {
        self.journal.opening()
    }

    /// Hands the disk back.
    pub fn close(self) -> D
        ensures { result ≡ self.disk }
    {
        self.journal.close()
    }
}
