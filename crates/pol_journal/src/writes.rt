ghost use Rattle.std.specs.Prelude.{◌≡◌, ◌≤◌, ◌<◌, ◌+◌, ◌-◌, ◌^◌, ◌++◌, ◌∷◌, [], OnOk, IfSome, length, max};
ghost use Rattle.pol_wire.specs.Faults.{CountsFaults};
ghost use Rattle.pol_disk.specs.Disk.{IsDurable, Told, Torn, written};
ghost use Rattle.pol_journal.specs.Crash.{KeepsFront, LeavesAfter};
ghost use Rattle.pol_journal.specs.Format.{framed};

use crate::format::{CLOSED, RECORD};
use pol_disk::Disk;
use pol_wire::Failed;

/// Writes from a place on, and syncs.
pub(crate) fn write_synced<D: Disk>(disk: &mut D, at: u64, bytes: &[u8]) -> Result<(), Failed>
    requires within { IfSome (D.size disk.old) (λ size. at ≤ size) }
    requires fits { at + length bytes.now ≤ 2 ^ 64 - 1 }
    ensures written { OnOk result (Told (λ old new. new ≡ written at bytes.now old)
        (D.seen disk.old) (D.seen disk.new)) }
    ensures told { Told (λ old new. length old ≤ length new) (D.seen disk.old) (D.seen disk.new) }
    ensures durable { OnOk result (IsDurable (D.seen disk.new) (D.may_leave disk.new)) }
    ensures size { OnOk result (Told (λ old new. new ≡ max old (at + length bytes.now))
        (D.size disk.old) (D.size disk.new)) }
    ensures grown { Told (λ old new. old ≤ new) (D.size disk.old) (D.size disk.new) }
    ensures crash { LeavesAfter D.clock D.left_since D.may_leave (Torn at (at + length bytes.now)) disk.old disk.new }
    ensures count { CountsFaults (D.fault_count disk.old) (D.fault_count disk.new) result }
{
    disk.write_at(at, bytes)?;
    disk.sync()
}

/// Writes two pieces, the second behind the first, and syncs.
pub(crate) fn write_both<D: Disk>(
    disk: &mut D,
    at: u64,
    first: &[u8],
    second: &[u8],
) -> Result<(), Failed>
    requires within { IfSome (D.size disk.old) (λ size. at ≤ size) }
    requires fits { at + length first.now + length second.now ≤ 2 ^ 64 - 1 }
    ensures written { OnOk result (Told (λ old new. new ≡ written at (first.now ++ second.now) old)
        (D.seen disk.old) (D.seen disk.new)) }
    ensures told { Told (λ old new. length old ≤ length new) (D.seen disk.old) (D.seen disk.new) }
    ensures durable { OnOk result (IsDurable (D.seen disk.new) (D.may_leave disk.new)) }
    ensures size { OnOk result (Told (λ old new. new ≡ max old (at + length first.now + length second.now))
        (D.size disk.old) (D.size disk.new)) }
    ensures grown { Told (λ old new. old ≤ new) (D.size disk.old) (D.size disk.new) }
    ensures crash { LeavesAfter D.clock D.left_since D.may_leave (KeepsFront at) disk.old disk.new }
    ensures count { CountsFaults (D.fault_count disk.old) (D.fault_count disk.new) result }
{
    disk.write_at(at, first)?;
    write_synced(disk, at + first.len() as u64, second)
}

/// Writes a body's length, the body and a closed gate behind the gate at this place, and syncs.
pub(crate) fn write_body<D: Disk>(disk: &mut D, gate: u64, body: &[u8]) -> Result<(), Failed>
    requires within { IfSome (D.size disk.old) (λ size. gate < size) }
    requires fits { gate + 10 + length body.now ≤ 2 ^ 64 - 1 }
    ensures written { OnOk result (Told (λ old new. new ≡ written (gate + 1) (framed body.now ++ 0 ∷ []) old)
        (D.seen disk.old) (D.seen disk.new)) }
    ensures told { Told (λ old new. length old ≤ length new) (D.seen disk.old) (D.seen disk.new) }
    ensures durable { OnOk result (IsDurable (D.seen disk.new) (D.may_leave disk.new)) }
    ensures size { OnOk result (IfSome (D.size disk.new) (λ size. gate + 10 + length body.now ≤ size)) }
    ensures reach { OnOk result (Told (λ old new. new ≡ max old (gate + 10 + length body.now))
        (D.size disk.old) (D.size disk.new)) }
    ensures grown { Told (λ old new. old ≤ new) (D.size disk.old) (D.size disk.new) }
    ensures crash { LeavesAfter D.clock D.left_since D.may_leave (KeepsFront (gate + 1)) disk.old disk.new }
    ensures count { CountsFaults (D.fault_count disk.old) (D.fault_count disk.new) result }
{
    let length = body.len() as u64;
    disk.write_at(gate + 1, &length.to_be_bytes())?;
    write_both(disk, gate + RECORD, body, &[CLOSED])
}
