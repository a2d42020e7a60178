ghost use Rattle.std.specs.Prelude.{◌≡◌, ◌≢◌, ◌≤◌, ◌<◌, ◌+◌, ◌-◌, ◌^◌, ◌↔◌, ◌++◌, ◌∷◌, [], ℕ, List, None, Ok, Some, IfErr, IfOk, IfSome, IsErrOf, IsTrue, OnErr, OnOk, is_err, length, max, option_map, true};
ghost use Rattle.pol_journal.specs.declared.stage.Stage.TheVariants.{Reading, Ready};
ghost use Rattle.pol_disk.specs.Disk.{IsDurable, LeavesOnly, Told, written};
ghost use Rattle.pol_journal.specs.Crash.{IsUntouched};
ghost use Rattle.pol_journal.specs.Format.{HasHeader, IsBeforeOrAfter, IsNoneOrStandsFor, StandsFor, area_of, header_of, record_of};
ghost use Rattle.pol_journal.specs.Journal.{GivesNext, HasFailed, HasRead, IsAtRest, IsBlank, IsReading, IsReady, IsUnsettled, SinceOpening, Stands, after_next, disk_of};
ghost use Rattle.pol_journal.specs.Refused.{AppendRefused, CreateRefused, IsBadIn, NextRefused, OpenRefused, RepairRefused};

use crate::format::{HEADER, LONGEST, RECORD};
use crate::reads::{has_header, length_of, read_record};
use crate::records::{take_back, write_journal, write_record};
use crate::stage::Stage;
use crate::{JournalRefused, Kind, Opening};
use pol_disk::Disk;
use pol_wire::Failed;
use std::alloc::Global;
use std::marker::Model;

/// The records of a disk. They are read first, from the first to the last; then records are appended. It keeps what
/// its disk told when it was opened or made.
#[derive(Drop)]
pub struct Journal<D: Disk> {
    disk: D,
    opening: Opening,
    kind: Kind,
    last: u64,
    gate: u64,
    stage: Stage,
}

impl<D: Disk> Model for Journal<D> {
    ghost use Rattle.pol_journal.specs.Journal.{JournalState, IsWithin};

    ghost Value = { JournalState D };

    ghost view = { λ journal. record {
      disk = journal.disk;
      opening = journal.opening;
      kind = journal.kind;
      last = journal.last;
      gate = journal.gate;
      stage = journal.stage;
    } };

    ghost invariant = { λ journal. IsWithin journal.stage journal.gate (D.size journal.disk) };
}

impl<D: Disk> Journal<D> {
    /// Makes a journal of this kind on a disk of length 0. `first` is what follows the header: records, and a closed
    /// gate. A disk that has bytes isn't touched: it is `JournalThere`, or a `DiskFault` where its length wasn't told.
    /// After a `DiskFault` a disk that was empty has no journal on it, or this one.
    pub fn create(disk: &mut D, kind: Kind, first: &[u8]) -> Result<(), JournalRefused>
        ensures moments { (bodies : List (List ℕ)) → first.now ≡ area_of bodies
            → IsBlank (D.seen disk.old) (D.may_leave disk.old)
            → LeavesOnly D.clock D.left_since disk.old disk.new (IsNoneOrStandsFor kind bodies) }
        ensures made { OnOk result ((bodies : List (List ℕ)) → first.now ≡ area_of bodies
            → IsBlank (D.seen disk.old) (D.may_leave disk.old)
            → Stands kind bodies (63 + length first.now) (D.seen disk.new) (D.may_leave disk.new)) }
        ensures size { OnOk result (IfSome (D.size disk.new) (λ size. size ≡ 64 + length first.now)) }
        // The header, and then what was given.
        ensures bytes { OnOk result (Told (λ old new. new ≡ header_of kind ++ first.now)
            (D.seen disk.old) (D.seen disk.new)) }
        ensures durable { OnOk result (IsDurable (D.seen disk.new) (D.may_leave disk.new)) }
        ensures empty { OnOk result (IfSome (D.size disk.old) (λ size. size ≡ 0)) }
        ensures refused { IfErr result (CreateRefused (D.size disk.old)
            (D.fault_count disk.old) (D.fault_count disk.new)) }
        // A disk with bytes isn't touched.
        ensures untouched { IfSome (D.size disk.old) (λ size. size ≢ 0
            → IsUntouched D.clock D.left_since D.may_leave D.seen D.size disk.old disk.new) }
        ensures kept { D.fault_count disk.old ≤ D.fault_count disk.new }
        ensures bounded { D.fault_count disk.new ≤ 2 ^ 64 - 1 }
    {
        if length_of(disk)? != 0 {
            return Err(JournalRefused::JournalThere);
        }
        write_journal(disk, kind, first)?;
        Ok(())
    }

    /// `create`, which hands on the journal with all records read, or the disk with the refusal. The disk isn't read.
    pub fn fresh(mut disk: D, kind: Kind, first: &[u8]) -> Result<Self, (D, JournalRefused)>
        requires { 0 < length first.now }
        ensures moments { (bodies : List (List ℕ)) → first.now ≡ area_of bodies
            → IsBlank (D.seen disk) (D.may_leave disk)
            → LeavesOnly D.clock D.left_since disk (disk_of result) (IsNoneOrStandsFor kind bodies) }
        ensures at_rest { IfOk result (λ journal. (bodies : List (List ℕ)) → first.now ≡ area_of bodies
            → IsBlank (D.seen disk) (D.may_leave disk)
            → IsAtRest D.seen D.may_leave bodies journal) }
        // What the disk tells now is the opening, and each image since then stands for the first bodies.
        ensures since { IfOk result (λ journal. (bodies : List (List ℕ)) → first.now ≡ area_of bodies
            → IsBlank (D.seen disk) (D.may_leave disk)
            → SinceOpening D.clock D.left_since D.fault_count (StandsFor kind bodies) journal) }
        ensures made { IfOk result (λ journal. journal ≡ record {
          disk = journal.disk;
          opening = record { faults = D.fault_count journal.disk; moment = D.clock journal.disk };
          kind = kind;
          last = 64;
          gate = 63 + length first.now;
          stage = Ready;
        }) }
        ensures size { IfOk result (λ journal. IfSome (D.size journal.disk) (λ size. size ≡ 64 + length first.now)) }
        ensures bytes { IfOk result (λ journal.
            Told (λ old new. new ≡ header_of kind ++ first.now) (D.seen disk) (D.seen journal.disk)) }
        ensures durable { IfOk result (λ journal. IsDurable (D.seen journal.disk) (D.may_leave journal.disk)) }
        ensures empty { OnOk result (IfSome (D.size disk) (λ size. size ≡ 0)) }
        ensures refused { IfErr result (λ refused.
            CreateRefused (D.size disk) (D.fault_count disk) (D.fault_count refused.0) refused.1) }
        ensures untouched { IfSome (D.size disk) (λ size. size ≢ 0
            → IsUntouched D.clock D.left_since D.may_leave D.seen D.size disk (disk_of result)) }
        ensures kept { D.fault_count disk ≤ D.fault_count (disk_of result) }
        ensures bounded { D.fault_count (disk_of result) ≤ 2 ^ 64 - 1 }
    {
        match Journal::create(&mut disk, kind, first) {
            Ok(()) => Ok(Journal {
                opening: Opening::of(&disk),
                disk,
                kind,
                last: HEADER,
                gate: HEADER + first.len() as u64 - 1,
                stage: Stage::Ready,
            }),
            Err(refused) => Err((disk, refused)),
        }
    }

    /// Opens a journal, whose records are to be read, or hands the disk back with the refusal. The disk is synced
    /// first, so that what is read is what a crash leaves.
    pub fn open(mut disk: D, kind: Kind) -> Result<Self, (D, JournalRefused)>
        ensures opened { IfOk result (λ journal. (file : List ℕ) → D.seen disk ≡ Some file
            → HasRead D.seen D.may_leave D.clock D.left_since D.fault_count file [] journal) }
        ensures header { OnOk result (IfSome (D.seen disk) (HasHeader kind)) }
        ensures made { IfOk result (λ journal. journal ≡ record {
          disk = journal.disk;
          opening = record { faults = D.fault_count journal.disk; moment = D.clock journal.disk };
          kind = kind;
          last = 64;
          gate = 64;
          stage = Reading;
        }) }
        ensures refused { IfErr result (λ refused.
            OpenRefused kind (D.seen disk) (D.fault_count disk) (D.fault_count refused.0) refused.1) }
        ensures untouched { IsUntouched D.clock D.left_since D.may_leave D.seen D.size disk (disk_of result) }
        ensures kept { D.fault_count disk ≤ D.fault_count (disk_of result) }
        ensures bounded { D.fault_count (disk_of result) ≤ 2 ^ 64 - 1 }
    {
        match has_header(&mut disk, kind) {
            Ok(true) => Ok(Journal {
                opening: Opening::of(&disk),
                disk,
                kind,
                last: HEADER,
                gate: HEADER,
                stage: Stage::Reading,
            }),
            Ok(false) => Err((disk, JournalRefused::NotAJournal)),
            Err(Failed) => Err((disk, JournalRefused::DiskFault)),
        }
    }

    /// The next record's body, or None where all were read. `BadRecord` tells the place of the gate whose record is
    /// bad; after it, as after a fault or want of memory, the next call reads at the same gate again.
    pub fn next_record(&mut self, alloc: Global) -> Result<Option<Vec<u8>>, JournalRefused>
        // The bodies are those that the file's bytes stand for, one after the other, and a refusal is theirs.
        ensures next { (file : List ℕ) (bodies : List (List ℕ)) → HasRead D.seen D.may_leave D.clock D.left_since D.fault_count file bodies self.old
            → IfOk result (λ next. GivesNext D.seen D.may_leave D.clock D.left_since D.fault_count file bodies
            (option_map (λ body. body.items) next) self.new) }
        ensures bad { (file : List ℕ) (bodies : List (List ℕ)) → HasRead D.seen D.may_leave D.clock D.left_since D.fault_count file bodies self.old
            → IfErr result (IsBadIn self.old.kind file) }
        ensures still { (file : List ℕ) (bodies : List (List ℕ)) → HasRead D.seen D.may_leave D.clock D.left_since D.fault_count file bodies self.old
            → OnErr result (HasRead D.seen D.may_leave D.clock D.left_since D.fault_count file bodies self.new) }
        ensures after { IfOk result (λ next. IsReading self.old
            → self.new ≡ record (after_next self.old (option_map (λ body. body.items) next)) { disk = self.new.disk }) }
        ensures left { OnErr result (self.new ≡ record self.old { disk = self.new.disk }) }
        // Where all were read it does nothing.
        ensures done { self.old.stage ≢ Reading → (result ≡ Ok None) × (self.new ≡ self.old) }
        ensures refused { IfErr result (NextRefused self.old.gate
            (D.fault_count self.old.disk) (D.fault_count self.new.disk)) }
        ensures untouched { IsUntouched D.clock D.left_since D.may_leave D.seen D.size self.old.disk self.new.disk }
        ensures kept { D.fault_count self.old.disk ≤ D.fault_count self.new.disk }
    {
        let Stage::Reading = self.stage else {
            return Ok(None);
        };
        let Some(body) = read_record(alloc, &mut self.disk, self.gate)? else {
            self.stage = Stage::Ready;
            return Ok(None);
        };
        self.last = self.gate;
        self.gate += RECORD + body.len() as u64;
        Ok(Some(body))
    }

    /// Appends a record: at `Ok` no crash takes it away. All records must have been read, and an append that failed
    /// been repaired. `JournalFull` is a journal that would reach beyond 2^40 bytes, which it leaves as it was. After
    /// `Unknown` the disk has failed, and the record may be there or not, until a repair. It takes no memory.
    pub fn append(&mut self, body: &[u8]) -> Result<(), JournalRefused>
        requires { IsReady self.old }
        ensures moments { (bodies : List (List ℕ)) → IsAtRest D.seen D.may_leave bodies self.old
            → LeavesOnly D.clock D.left_since self.old.disk self.new.disk
            (IsBeforeOrAfter self.old.kind bodies body.now) }
        ensures appended { OnOk result ((bodies : List (List ℕ)) → IsAtRest D.seen D.may_leave bodies self.old
            → IsAtRest D.seen D.may_leave (bodies ++ body.now ∷ []) self.new) }
        // The record and a closed gate stand over what stood from the last gate on.
        ensures bytes { OnOk result (Told (λ old new. new ≡ written self.old.gate (record_of body.now ++ 0 ∷ []) old)
            (D.seen self.old.disk) (D.seen self.new.disk)) }
        ensures size { OnOk result (Told (λ old new. new ≡ max old (self.old.gate + 10 + length body.now))
            (D.size self.old.disk) (D.size self.new.disk)) }
        ensures unknown { IsErrOf result JournalRefused.Unknown → (bodies : List (List ℕ))
            → IsAtRest D.seen D.may_leave bodies self.old
            → IsUnsettled D.seen D.may_leave bodies body.now self.new }
        ensures after { OnOk result (self.new
            ≡ record self.old { disk = self.new.disk; gate = self.old.gate + 9 + length body.now }) }
        ensures left { OnErr result (self.new ≡ record self.old { disk = self.new.disk; stage = self.new.stage }) }
        ensures failed { IsErrOf result JournalRefused.Unknown → HasFailed self.new }
        // A journal that would reach too far stays as it is.
        ensures full { 2 ^ 40 < self.old.gate + 10 + length body.now → (self.new ≡ self.old) × is_err result ≡ true }
        ensures refused { IfErr result (AppendRefused (self.old.gate + 1) (self.old.gate + 10 + length body.now)
            (D.fault_count self.old.disk) (D.fault_count self.new.disk)) }
        ensures durable { OnOk result (IsDurable (D.seen self.new.disk) (D.may_leave self.new.disk)) }
        ensures kept { D.fault_count self.old.disk ≤ D.fault_count self.new.disk }
    {
        let length = self.gate + 1;
        let wanted = length
            .saturating_add(RECORD)
            .saturating_add(body.len() as u64);
        if wanted > LONGEST {
            return Err(JournalRefused::JournalFull { length, wanted });
        }
        if let Err(reached) = write_record(&mut self.disk, self.gate, body) {
            self.stage = Stage::Unsettled(reached);
            return Err(JournalRefused::Unknown);
        }
        self.gate += RECORD + body.len() as u64;
        Ok(())
    }

    /// Takes back an append that failed, and syncs: at `Ok` its record is gone, whatever a crash leaves. It writes the
    /// closed gate only where that append had begun its gate write. After a `DiskFault` it can be called again. It
    /// takes no memory.
    pub fn repair(&mut self) -> Result<(), JournalRefused>
        requires { HasFailed self.old }
        ensures moments { (bodies : List (List ℕ)) (body : List ℕ) → IsUnsettled D.seen D.may_leave bodies body self.old
            → LeavesOnly D.clock D.left_since self.old.disk self.new.disk (IsBeforeOrAfter self.old.kind bodies body) }
        ensures repaired { OnOk result ((bodies : List (List ℕ)) (body : List ℕ)
            → IsUnsettled D.seen D.may_leave bodies body self.old
            → IsAtRest D.seen D.may_leave bodies self.new) }
        ensures unsettled { OnErr result ((bodies : List (List ℕ)) (body : List ℕ)
            → IsUnsettled D.seen D.may_leave bodies body self.old
            → IsUnsettled D.seen D.may_leave bodies body self.new) }
        ensures after { OnOk result (self.new ≡ record self.old { disk = self.new.disk; stage = Ready }) }
        ensures left { OnErr result (self.new ≡ record self.old { disk = self.new.disk }) }
        ensures refused { IfErr result (RepairRefused (D.fault_count self.old.disk) (D.fault_count self.new.disk)) }
        ensures durable { OnOk result (IsDurable (D.seen self.new.disk) (D.may_leave self.new.disk)) }
        ensures kept { D.fault_count self.old.disk ≤ D.fault_count self.new.disk }
    {
        if let Stage::Unsettled(reached) = self.stage {
            take_back(&mut self.disk, self.gate, reached)?;
            self.stage = Stage::Ready;
        }
        Ok(())
    }

    /// Whether an append failed, and no repair has succeeded since.
    pub fn has_failed(&self) -> bool
        ensures { IsTrue result ↔ HasFailed self.now }
    {
        matches!(self.stage, Stage::Unsettled(_))
    }

    /// What the disk told when the journal was opened or made. No later call changes it.
    pub fn opening(&self) -> Opening
        ensures { result ≡ self.now.opening }
    {
        self.opening
    }

    /// The place of the gate of the record that was given last, or of the first gate before any was given.
    pub fn last_gate(&self) -> u64
        ensures { result ≡ self.now.last }
    {
        self.last
    }

    /// Hands the disk back.
    pub fn close(self) -> D
        ensures { result ≡ self.disk }
    {
        self.disk
    }
}
