//! The journals of the objects and of the catalogue.
ghost use Rattle.std.specs.Prelude.{◌≡◌, ◌≢◌, ◌≤◌, ◌+◌, ◌++◌, ◌∷◌, [], ℕ, List, true, IfErr, IfSome, OnOk, length};
ghost use Rattle.pol_disk.specs.Disk.{IsDurable, LeavesOnly, Told};
ghost use Rattle.pol_journal.specs.Crash.{IsUntouched};
ghost use Rattle.pol_journal.specs.Format.{IsNoneOrStandsFor, area_of, header_of};
ghost use Rattle.pol_journal.specs.Journal.{IsBlank, Stands};
ghost use Rattle.pol_journal.specs.declared.kind.Kind.TheVariants.{Catalogue, Objects};
ghost use Rattle.pol_init.specs.Journals.{IsNotMade, ObjectsAreMade, is_of_objects, not_made};

use pol_disk::Disk;
use pol_journal::{Journal, JournalRefused, Kind};

/// Why journals weren't made.
#[derive(Clone, Copy, PartialEq, Eq)]
pub enum NotMade {
    /// The disk of the objects, or else that of the catalogue, has bytes.
    JournalThere { objects: bool },
    /// That disk failed.
    DiskFault { objects: bool },
}

/// What follows the header of a journal without records: a closed gate.
const NO_RECORDS: &[u8] = &[0];

/// Makes a journal of objects without records, and then the catalogue's. `first` is what follows the header of that
/// one: records, and a closed gate. A disk that has bytes is refused, and isn't touched; where the objects' is refused,
/// the catalogue's isn't called.
#[tactic(auto, using(crate::proofs::JournalsLemmas::area_none))]
pub fn make_journals<D: Disk, O: Disk>(
    catalogue: &mut D,
    objects: &mut O,
    first: &[u8],
) -> Result<(), NotMade>
    // At each moment each image is no journal, or stands for what it is to stand for.
    ensures moments { (bodies : List (List ℕ)) → first.now ≡ area_of bodies
        → IsBlank (D.seen catalogue.old) (D.may_leave catalogue.old)
        → LeavesOnly D.clock D.left_since catalogue.old catalogue.new (IsNoneOrStandsFor Catalogue bodies) }
    ensures objects_moments { IsBlank (O.seen objects.old) (O.may_leave objects.old)
        → LeavesOnly O.clock O.left_since objects.old objects.new (IsNoneOrStandsFor Objects []) }
    // At the end each image stands for that.
    ensures made { OnOk result ((bodies : List (List ℕ)) → first.now ≡ area_of bodies
        → IsBlank (D.seen catalogue.old) (D.may_leave catalogue.old)
        → Stands Catalogue bodies (63 + length first.now) (D.seen catalogue.new) (D.may_leave catalogue.new)) }
    ensures objects_made { ObjectsAreMade result → IsBlank (O.seen objects.old) (O.may_leave objects.old)
        → Stands Objects [] 64 (O.seen objects.new) (O.may_leave objects.new) }
    ensures bytes { OnOk result (Told (λ old new. new ≡ header_of Catalogue ++ first.now)
        (D.seen catalogue.old) (D.seen catalogue.new)) }
    ensures objects_bytes { ObjectsAreMade result → Told (λ old new. new ≡ header_of Objects ++ 0 ∷ [])
        (O.seen objects.old) (O.seen objects.new) }
    ensures durable { OnOk result (IsDurable (D.seen catalogue.new) (D.may_leave catalogue.new)) }
    ensures objects_durable { ObjectsAreMade result → IsDurable (O.seen objects.new) (O.may_leave objects.new) }
    ensures empty { OnOk result (IfSome (D.size catalogue.old) (λ size. size ≡ 0)) }
    ensures objects_empty { ObjectsAreMade result → IfSome (O.size objects.old) (λ size. size ≡ 0) }
    ensures refused { IfErr result (IsNotMade
        (record { size = D.size catalogue.old; old = D.fault_count catalogue.old; new = D.fault_count catalogue.new })
        (record { size = O.size objects.old; old = O.fault_count objects.old; new = O.fault_count objects.new })) }
    // A disk with bytes isn't touched, and the catalogue's isn't called where the objects' is refused.
    ensures untouched { IfSome (D.size catalogue.old) (λ size. size ≢ 0
        → IsUntouched D.clock D.left_since D.may_leave D.seen D.size catalogue.old catalogue.new) }
    ensures objects_untouched { IfSome (O.size objects.old) (λ size. size ≢ 0
        → IsUntouched O.clock O.left_since O.may_leave O.seen O.size objects.old objects.new) }
    ensures uncalled { IfErr result (λ why. is_of_objects why ≡ true → catalogue.new ≡ catalogue.old) }
    ensures kept { D.fault_count catalogue.old ≤ D.fault_count catalogue.new }
    ensures objects_kept { O.fault_count objects.old ≤ O.fault_count objects.new }
{
    if let Err(refused) = Journal::create(objects, Kind::Objects, NO_RECORDS) {
        return Err(not_made(true, refused));
    }
    if let Err(refused) = Journal::create(catalogue, Kind::Catalogue, first) {
        return Err(not_made(false, refused));
    }
    Ok(())
}

/// Why journals weren't made, where the objects' or the catalogue's was refused so.
fn not_made(objects: bool, refused: JournalRefused) -> NotMade
    ensures { result ≡ not_made objects refused }
{
    match refused {
        JournalRefused::JournalThere => NotMade::JournalThere { objects },
        _ => NotMade::DiskFault { objects },
    }
}
