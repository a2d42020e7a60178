ghost use Rattle.std.specs.Prelude.{◌≡◌, ◌≤◌, ◌<◌, ◌+◌, ◌-◌, ◌^◌, ◌++◌, ◌∷◌, [], ℕ, List, OnOk, OnErr, IfOk, IfErr, IfSome, length, max};
ghost use Rattle.pol_wire.specs.Faults.{CountsFaults};
ghost use Rattle.pol_disk.specs.Disk.{IsDurable, LeavesOnly, Told, written};
ghost use Rattle.pol_journal.specs.Format.{IsBeforeOrAfter, IsNoneOrStandsFor, area_of, header_of, record_of};
ghost use Rattle.pol_journal.specs.Journal.{EachStandsFor, Hangs, IsBlank, Stands};
ghost use Rattle.pol_journal.specs.declared.kind.Kind.{Kind};

use crate::Kind;
use crate::format::{CLOSED, OPEN};
use crate::stage::Reached;
use crate::writes::{write_body, write_both, write_synced};
use pol_disk::Disk;
use pol_wire::Failed;

/// Writes the header and what follows it over a disk of length 0. Each part is on the disk before the next, and the
/// name comes last: what a crash leaves before that is no journal.
pub(crate) fn write_journal<D: Disk>(disk: &mut D, kind: Kind, first: &[u8]) -> Result<(), Failed>
    requires empty { IfSome (D.size disk.old) (λ size. size ≡ 0) }
    ensures moments { (bodies : List (List ℕ)) → first.now ≡ area_of bodies
        → IsBlank (D.seen disk.old) (D.may_leave disk.old)
        → LeavesOnly D.clock D.left_since disk.old disk.new (IsNoneOrStandsFor kind bodies) }
    ensures made { OnOk result ((bodies : List (List ℕ)) → first.now ≡ area_of bodies
        → IsBlank (D.seen disk.old) (D.may_leave disk.old)
        → Stands kind bodies (63 + length first.now) (D.seen disk.new) (D.may_leave disk.new)) }
    ensures durable { OnOk result (IsDurable (D.seen disk.new) (D.may_leave disk.new)) }
    ensures size { OnOk result (IfSome (D.size disk.new) (λ size. size ≡ 64 + length first.now)) }
    ensures bytes { OnOk result (Told (λ old new. new ≡ header_of kind ++ first.now)
        (D.seen disk.old) (D.seen disk.new)) }
    ensures count { CountsFaults (D.fault_count disk.old) (D.fault_count disk.new) result }
{
    write_synced(disk, 0, &[0; 8])?;
    write_both(disk, 8, &[0; 56], first)?;
    write_synced(disk, 0, &kind.name())
}

/// Writes a record behind the closed gate at this place and syncs, and then opens that gate by a write of its own and
/// syncs. It tells how far it came where it failed.
pub(crate) fn write_record<D: Disk>(disk: &mut D, gate: u64, body: &[u8]) -> Result<(), Reached>
    requires within { IfSome (D.size disk.old) (λ size. gate < size) }
    requires fits { gate + 10 + length body.now ≤ 2 ^ 64 - 1 }
    ensures moments { (kind : Kind) (bodies : List (List ℕ))
        → Stands kind bodies gate (D.seen disk.old) (D.may_leave disk.old)
        → LeavesOnly D.clock D.left_since disk.old disk.new (IsBeforeOrAfter kind bodies body.now) }
    ensures appended { OnOk result ((kind : Kind) (bodies : List (List ℕ))
        → Stands kind bodies gate (D.seen disk.old) (D.may_leave disk.old)
        → Stands kind (bodies ++ body.now ∷ []) (gate + 9 + length body.now) (D.seen disk.new) (D.may_leave disk.new)) }
    ensures failed { IfErr result (λ reached. (kind : Kind) (bodies : List (List ℕ))
        → Stands kind bodies gate (D.seen disk.old) (D.may_leave disk.old)
        → Hangs reached kind bodies body.now gate (D.seen disk.new) (D.may_leave disk.new)) }
    ensures durable { OnOk result (IsDurable (D.seen disk.new) (D.may_leave disk.new)) }
    ensures size { OnOk result (IfSome (D.size disk.new) (λ size. gate + 10 + length body.now ≤ size)) }
    ensures reach { OnOk result (Told (λ old new. new ≡ max old (gate + 10 + length body.now))
        (D.size disk.old) (D.size disk.new)) }
    ensures bytes { OnOk result (Told (λ old new. new ≡ written gate (record_of body.now ++ 0 ∷ []) old)
        (D.seen disk.old) (D.seen disk.new)) }
    ensures grown { IfSome (D.size disk.new) (λ size. gate < size) }
    ensures count { CountsFaults (D.fault_count disk.old) (D.fault_count disk.new) result }
{
    let Ok(()) = write_body(disk, gate, body) else {
        return Err(Reached::Body);
    };
    let Ok(()) = write_synced(disk, gate, &[OPEN]) else {
        return Err(Reached::Gate);
    };
    Ok(())
}

/// Takes back a record whose append failed, and syncs. It writes the closed gate only where that append had begun its
/// gate write: before that the gate has stayed closed, and a write over it could leave it open in front of a body that
/// isn't on the disk.
pub(crate) fn take_back<D: Disk>(disk: &mut D, gate: u64, reached: Reached) -> Result<(), Failed>
    requires within { IfSome (D.size disk.old) (λ size. gate < size) }
    requires fits { gate < 2 ^ 64 - 1 }
    ensures moments { (kind : Kind) (bodies : List (List ℕ)) (body : List ℕ)
        → Hangs reached kind bodies body gate (D.seen disk.old) (D.may_leave disk.old)
        → LeavesOnly D.clock D.left_since disk.old disk.new (IsBeforeOrAfter kind bodies body) }
    ensures taken_back { OnOk result ((kind : Kind) (bodies : List (List ℕ)) (body : List ℕ)
        → Hangs reached kind bodies body gate (D.seen disk.old) (D.may_leave disk.old)
        → Stands kind bodies gate (D.seen disk.new) (D.may_leave disk.new)) }
    ensures failed { OnErr result ((kind : Kind) (bodies : List (List ℕ)) (body : List ℕ)
        → Hangs reached kind bodies body gate (D.seen disk.old) (D.may_leave disk.old)
        → Hangs reached kind bodies body gate (D.seen disk.new) (D.may_leave disk.new)) }
    ensures durable { OnOk result (IsDurable (D.seen disk.new) (D.may_leave disk.new)) }
    ensures grown { IfSome (D.size disk.new) (λ size. gate < size) }
    ensures count { CountsFaults (D.fault_count disk.old) (D.fault_count disk.new) result }
{
    match reached {
        Reached::Body => disk.sync(),
        Reached::Gate => write_synced(disk, gate, &[CLOSED]),
    }
}
