//! A store is made on an empty disk, or opened over the journal that a disk has.
ghost use Rattle.std.specs.Prelude.{◌≡◌, ◌≤◌, ◌<◌, ℕ, List, [], ◌∷◌, Some, IfErr, IfOk, IfSome, OnOk, length};
ghost use Rattle.pol_disk.specs.Disk.{LeavesOnly};
ghost use Rattle.pol_journal.specs.Crash.{IsUntouched};
ghost use Rattle.pol_journal.specs.Format.{IsNoneOrStandsFor, area_of, extent};
ghost use Rattle.pol_journal.specs.Journal.{IsBlank};
ghost use Rattle.pol_journal.specs.declared.kind.Kind.TheVariants.{Catalogue};
ghost use Rattle.pol_kept.specs.History.{opened_of};
ghost use Rattle.pol_kept.specs.Images.{KeepsImages};
ghost use Rattle.pol_kept.specs.Opened.{FreshRefused, IsNew, Reopens, disk_of, fresh_bodies};
ghost use Rattle.pol_opening.specs.Opening.{OpeningRefused};
ghost use Rattle.pol_state.specs.Rows.{fresh_state};
ghost use Rattle.pol_state.specs.Sound.{IsSound};

use crate::Kept;
use pol_changecodec::write_changes;
use pol_disk::Disk;
use pol_journal::{Journal, JournalRefused, Kind};
use pol_machine::State;
use pol_opening::{Opened, open};
use pol_states::all_changes;
use pol_types::OutOfMemory;
use std::alloc::Global;

/// The gate of a record that counts.
const OPEN: u8 = 1;

/// The gate behind the last record.
const CLOSED: u8 = 0;

impl<D: Disk> Kept<D> {
    /// Makes a journal on an empty disk, whose one record has the rows of the fresh state of this root secret. A
    /// refusal hands the disk back.
    pub fn fresh(alloc: Global, disk: D, root_secret: &str) -> Result<Kept<D>, (D, JournalRefused)>
        ensures new { IfOk result (IsNew (fresh_state root_secret.now)) }
        ensures images { IfOk result (λ log. IsBlank (D.seen disk) (D.may_leave disk)
            → KeepsImages D.seen D.may_leave D.clock D.left_since D.fault_count (fresh_bodies root_secret.now)
            log.base log.history log.journal) }
        // Before that each image is no journal, or it stands for that record.
        ensures moments { IsBlank (D.seen disk) (D.may_leave disk)
            → LeavesOnly D.clock D.left_since disk (disk_of result)
            (IsNoneOrStandsFor Catalogue (fresh_bodies root_secret.now)) }
        ensures opened { IfOk result (λ log. opened_of log ≡ extent (fresh_bodies root_secret.now)) }
        // A disk with bytes is refused.
        ensures empty { OnOk result (IfSome (D.size disk) (λ size. size ≡ 0)) }
        ensures refused { IfErr result (λ refused.
            FreshRefused (D.size disk) (D.fault_count disk) (D.fault_count refused.0) refused.1) }
        ensures opening { IfOk result (λ log. D.fault_count disk ≤ log.journal.opening.faults) }
        ensures kept { D.fault_count disk ≤ D.fault_count (disk_of result) }
    {
        let Ok(state) = State::fresh(alloc, root_secret) else {
            return Err((disk, JournalRefused::OutOfMemory));
        };
        let Ok(first) = first_record(alloc, &state) else {
            drop(state);
            return Err((disk, JournalRefused::OutOfMemory));
        };
        let made = Journal::fresh(disk, Kind::Catalogue, first.as_slice());
        drop(first);
        match made {
            Ok(journal) => Ok(Kept::of(alloc, state, journal)),
            Err(refused) => {
                drop(state);
                Err(refused)
            }
        }
    }

    /// Opens the journal of a catalogue. Each of its records must be the form of changes that lead to a sound state,
    /// and there must be one; the first gate behind which no such record stands is told by `BadRecord`. A refusal hands
    /// the disk back, and its bytes stay.
    pub fn open(alloc: Global, disk: D) -> Result<Kept<D>, (D, JournalRefused)>
        ensures new { IfOk result (λ log. IsNew log.base log) }
        ensures sound { IfOk result (λ log. IsSound log.base) }
        ensures charged { IfOk result (λ log. log.base.charged ≡ 0) }
        ensures opened { IfOk result (λ log. (file : List ℕ) → D.seen disk ≡ Some file
            → Reopens D.seen D.may_leave D.clock D.left_since D.fault_count file log) }
        ensures refused { IfErr result (λ refused.
            OpeningRefused (D.seen disk) (D.fault_count disk) (D.fault_count refused.0) refused.1) }
        ensures untouched { IsUntouched D.clock D.left_since D.may_leave D.seen D.size disk (disk_of result) }
        ensures opening { IfOk result (λ log. D.fault_count disk ≤ log.journal.opening.faults) }
        ensures kept { D.fault_count disk ≤ D.fault_count (disk_of result) }
    {
        let Opened { journal, state } = open(alloc, disk)?;
        Ok(Kept::of(alloc, state, journal))
    }
}

/// What follows the header of a journal whose one record has all rows of the fresh state.
fn first_record(alloc: Global, state: &State) -> Result<Vec<u8>, OutOfMemory>
    requires sound { IsSound state.now.rows }
    ensures record { (secret : List ℕ) → state.now.rows ≡ fresh_state secret
        → IfOk result (λ first. first.items ≡ area_of (fresh_bodies secret)) }
    ensures some { IfOk result (λ first. 0 < length first.items) }
{
    let changes = all_changes(alloc, state)?;
    let Ok(body) = write_changes(alloc, changes.as_slice()) else {
        drop(changes);
        return Err(OutOfMemory);
    };
    drop(changes);
    opening_record(alloc, body.as_slice())
}

/// What follows the header of a journal with one record, of this body: it, and a closed gate.
pub fn opening_record(alloc: Global, body: &[u8]) -> Result<Vec<u8>, OutOfMemory>
    ensures { IfOk result (λ area. area.items ≡ area_of (body.now ∷ [])) }
{
    let mut area = Vec::new(alloc);
    area.push(OPEN)?;
    area.extend_from_slice(&(body.len() as u64).to_be_bytes())?;
    area.extend_from_slice(body)?;
    area.push(CLOSED)?;
    Ok(area)
}
