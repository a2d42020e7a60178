//! Making the journals of a catalogue and its objects, by a declaration.
ghost use Rattle.std.specs.Prelude.{◌≡◌, ◌∷◌, [], ℕ, List};
ghost use Rattle.pol_journal.specs.Format.{area_of};
ghost use Rattle.pol_server.specs.Ends.{ends_of};
ghost use Rattle.pol_cli.specs.Disks.{tells_of};
ghost use Rattle.pol_cli.specs.Init.{Initialises, Makes};

use crate::reason::{Reason, reason_not_made, reason_not_prepared};
use crate::told::give_all;
use pol_disk::Disk;
use pol_init::{Prepared, make_journals, prepare};
use pol_wire::{Clock, Draw, Failed, Link, Sink, Source};
use std::alloc::Global;

/// Makes the journals of the objects and of the catalogue by the declaration that the link has, and then gives the link
/// the output. The declaration is read, and its commands are done in memory, before a disk is called.
pub(crate) fn init<D: Disk, O: Disk, S: Source, K: Sink, C: Clock, W: Draw>(
    alloc: Global,
    catalogue: &mut D,
    objects: &mut O,
    link: &mut Link<S, K, C, W>,
) -> Reason
    ensures { Initialises
        (tells_of D.seen D.size D.may_leave D.clock D.left_since D.fault_count)
        (tells_of O.seen O.size O.may_leave O.clock O.left_since O.fault_count)
        catalogue.old catalogue.new objects.old objects.new
        (ends_of S.left S.faults K.given K.faults C.moments W.words W.faults link.old)
        (ends_of S.left S.faults K.given K.faults C.moments W.words W.faults link.new) result }
{
    match prepare(alloc, &mut link.source, &mut link.clock, &mut link.words) {
        Ok(prepared) => {
            let reason = make_and_tell(catalogue, objects, &mut link.sink, &prepared);
            drop(prepared);
            reason
        }
        Err(why) => reason_not_prepared(why),
    }
}

/// Makes the journals of what was prepared, and then gives the output.
fn make_and_tell<D: Disk, O: Disk, K: Sink>(
    catalogue: &mut D,
    objects: &mut O,
    sink: &mut K,
    prepared: &Prepared,
) -> Reason
    ensures { (body : List ℕ) → prepared.now.first ≡ area_of (body ∷ [])
        → Makes (tells_of D.seen D.size D.may_leave D.clock D.left_since D.fault_count)
        (tells_of O.seen O.size O.may_leave O.clock O.left_since O.fault_count)
        catalogue.old catalogue.new objects.old objects.new
        (record { given = K.given sink.old; faults = K.faults sink.old })
        (record { given = K.given sink.new; faults = K.faults sink.new }) body prepared.now result }
{
    if let Err(why) = make_journals(catalogue, objects, prepared.first.as_slice()) {
        return reason_not_made(why);
    }
    match give_all(sink, prepared.output.as_slice()) {
        Ok(()) => Reason::Done,
        Err(Failed) => Reason::WriteFault,
    }
}
