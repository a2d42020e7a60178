//! One link served over two stores.
ghost use Rattle.std.specs.Prelude.{◌≡◌, []};
ghost use Rattle.pol_server.specs.Ends.{ends_of};
ghost use Rattle.pol_server.specs.Stores.{KeepsCatalogue, KeepsObjects, seen_of};
ghost use Rattle.pol_cli.specs.Serving.{Serves};

use crate::reason::{Reason, reason_of};
use crate::report::{Report, ServedLink};
use pol_disk::Disk;
use pol_server::{Stores, serve_connection};
use pol_wire::{Clock, Draw, Link, Sink, Source};
use std::alloc::Global;

/// Serves the link over these stores. Room for what is reported of it is taken before it is called.
pub(crate) fn exec<D: Disk, O: Disk, S: Source, K: Sink, C: Clock, W: Draw>(
    alloc: Global,
    stores: &mut Stores<D, O>,
    link: &mut Link<S, K, C, W>,
) -> Report
    ensures serves { Serves (seen_of stores.old)
        (ends_of S.left S.faults K.given K.faults C.moments W.words W.faults link.old)
        (ends_of S.left S.faults K.given K.faults C.moments W.words W.faults link.new) (seen_of stores.new) result }
    ensures catalogue { KeepsCatalogue D.seen D.may_leave D.clock D.left_since D.fault_count
        stores.old.catalogue stores.new.catalogue }
    ensures objects { KeepsObjects O.seen O.may_leave O.clock O.left_since O.fault_count
        stores.old.objects stores.new.objects }
    ensures untouched { result.served ≡ [] → link.new ≡ link.old }
    ensures unserved { result.served ≡ [] → stores.new ≡ stores.old }
{
    let mut links = Vec::new(alloc);
    let Ok(()) = links.reserve(1) else {
        return Report::of(Reason::NoMemory, links);
    };
    let served = serve_connection(alloc, stores, link);
    let reason = reason_of(served.ending);
    let Ok(()) = links.push(ServedLink { worker: 0, served }) else {
        unreachable!()
    };
    Report::of(reason, links)
}
