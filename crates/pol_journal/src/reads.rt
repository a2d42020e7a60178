ghost use Rattle.std.specs.Prelude.{◌≡◌, ◌≤◌, ◌<◌, ◌+◌, ◌-◌, ◌^◌, ◌↔◌, IfOk, IfErr, IfSome, IsTrue, MatchOption, OnOk, drop, length, take};
ghost use Rattle.std.specs.Int.{from_be_bytes, to_be_bytes, w64};
ghost use Rattle.pol_wire.specs.Faults.{CountsFaults};
ghost use Rattle.pol_disk.specs.Disk.{IsDurable};
ghost use Rattle.pol_journal.specs.Crash.{IsUntouched};
ghost use Rattle.pol_journal.specs.Format.{IsClosed, IsRecord, IsRecordOf, JudgesHeader};
ghost use Rattle.pol_journal.specs.Refused.{IsBrokenIn, NextRefused};

use crate::format::{OPEN, RECORD, SHORTEST, header};
use crate::{JournalRefused, Kind};
use pol_disk::Disk;
use pol_wire::Failed;
use std::alloc::Global;

// Fills a buffer from a place on. It answers false where the disk ends before that.
fn read_whole<D: Disk>(disk: &mut D, at: u64, buf: &mut [u8]) -> Result<bool, Failed>
    ensures whole { IfOk result (λ whole. IfSome (D.size disk.old) (λ size. IsTrue whole
        ↔ (length buf.old ≤ size - at))) }
    ensures bytes { IfOk result (λ whole. IsTrue whole
        → IfSome (D.seen disk.old) (λ bytes. buf.new ≡ take (length buf.old) (drop at bytes))) }
    ensures untouched { IsUntouched D.clock D.left_since D.may_leave D.seen D.size disk.old disk.new }
    ensures count { CountsFaults (D.fault_count disk.old) (D.fault_count disk.new) result }
{
    Ok(disk.read(at, buf)? == buf.len())
}

/// The disk's length, with what a call that only looks leaves.
pub(crate) fn length_of<D: Disk>(disk: &mut D) -> Result<u64, Failed>
    ensures length { IfOk result (λ length. IfSome (D.size disk.old) (λ size. length ≡ size)) }
    ensures untouched { IsUntouched D.clock D.left_since D.may_leave D.seen D.size disk.old disk.new }
    ensures count { CountsFaults (D.fault_count disk.old) (D.fault_count disk.new) result }
{
    disk.length()
}

// Syncs the disk, which changes nothing that is read of it.
fn synced<D: Disk>(disk: &mut D) -> Result<(), Failed>
    ensures durable { OnOk result (IsDurable (D.seen disk.new) (D.may_leave disk.new)) }
    ensures untouched { IsUntouched D.clock D.left_since D.may_leave D.seen D.size disk.old disk.new }
    ensures count { CountsFaults (D.fault_count disk.old) (D.fault_count disk.new) result }
{
    disk.sync()
}

/// Whether the disk, which is synced first, has a header of this kind and a byte behind it.
pub(crate) fn has_header<D: Disk>(disk: &mut D, kind: Kind) -> Result<bool, Failed>
    ensures header { IfOk result (λ is. IfSome (D.seen disk.old) (JudgesHeader is kind)) }
    ensures durable { OnOk result (IsDurable (D.seen disk.new) (D.may_leave disk.new)) }
    ensures untouched { IsUntouched D.clock D.left_since D.may_leave D.seen D.size disk.old disk.new }
    ensures count { CountsFaults (D.fault_count disk.old) (D.fault_count disk.new) result }
{
    synced(disk)?;
    if length_of(disk)? < SHORTEST {
        return Ok(false);
    }
    let mut front = [0; 64];
    let whole = read_whole(disk, 0, &mut front)?;
    Ok(whole && front == header(kind))
}

// The number that these bytes are, most significant first.
fn number_of(bytes: &[u8; 8]) -> u64
    ensures number { result ≡ from_be_bytes w64 bytes.now }
    ensures bytes { to_be_bytes w64 result ≡ bytes.now }
{
    u64::from_be_bytes(*bytes)
}

// The length of the body of the record at this gate, or None where the gate is closed.
fn next_length<D: Disk>(disk: &mut D, gate: u64) -> Result<Option<u64>, JournalRefused>
    ensures length { IfOk result (λ next. IfSome (D.seen disk.old) (λ bytes.
        MatchOption next (IsClosed (drop gate bytes)) (λ length. IsRecordOf length (drop gate bytes)))) }
    ensures broken { IfErr result (λ why. IfSome (D.seen disk.old) (λ bytes. IsBrokenIn (drop gate bytes) why)) }
    ensures refused { IfErr result (NextRefused gate (D.fault_count disk.old) (D.fault_count disk.new)) }
    ensures fits { IfOk result (λ next. MatchOption next (gate < 2 ^ 64 - 1) (λ length.
        gate + 9 + length ≤ 2 ^ 64 - 1)) }
    ensures inside { OnOk result (IfSome (D.size disk.new) (λ size. gate < size)) }
    ensures untouched { IsUntouched D.clock D.left_since D.may_leave D.seen D.size disk.old disk.new }
    ensures kept { D.fault_count disk.old ≤ D.fault_count disk.new }
    ensures bounded { D.fault_count disk.new ≤ 2 ^ 64 - 1 }
{
    let bad = JournalRefused::BadRecord { at: gate };
    let left = length_of(disk)?.saturating_sub(gate);
    if left == 0 {
        return Err(bad);
    }
    let mut byte = [0; 1];
    if !read_whole(disk, gate, &mut byte)? {
        return Err(bad);
    }
    if byte[0] != OPEN {
        return Ok(None);
    }
    if left < RECORD {
        return Err(bad);
    }
    let mut bytes = [0; 8];
    if !read_whole(disk, gate + 1, &mut bytes)? {
        return Err(bad);
    }
    let length = number_of(&bytes);
    if length > left - RECORD {
        return Err(bad);
    }
    Ok(Some(length))
}

/// The body of the record at this gate, or None where the gate is closed.
pub(crate) fn read_record<D: Disk>(
    alloc: Global,
    disk: &mut D,
    gate: u64,
) -> Result<Option<Vec<u8>>, JournalRefused>
    ensures record { IfOk result (λ next. IfSome (D.seen disk.old) (λ bytes.
        MatchOption next (IsClosed (drop gate bytes)) (λ body. IsRecord body.items (drop gate bytes)))) }
    ensures broken { IfErr result (λ why. IfSome (D.seen disk.old) (λ bytes. IsBrokenIn (drop gate bytes) why)) }
    ensures refused { IfErr result (NextRefused gate (D.fault_count disk.old) (D.fault_count disk.new)) }
    ensures fits { IfOk result (λ next. MatchOption next (gate < 2 ^ 64 - 1) (λ body.
        gate + 9 + length body.items ≤ 2 ^ 64 - 1)) }
    ensures inside { OnOk result (IfSome (D.size disk.new) (λ size. gate < size)) }
    ensures untouched { IsUntouched D.clock D.left_since D.may_leave D.seen D.size disk.old disk.new }
    ensures kept { D.fault_count disk.old ≤ D.fault_count disk.new }
    ensures bounded { D.fault_count disk.new ≤ 2 ^ 64 - 1 }
{
    let Some(length) = next_length(disk, gate)? else {
        return Ok(None);
    };
    let mut body = vec![in alloc; 0; length as usize]?;
    if !read_whole(disk, gate + RECORD, &mut body)? {
        return Err(JournalRefused::BadRecord { at: gate });
    }
    Ok(Some(body))
}
