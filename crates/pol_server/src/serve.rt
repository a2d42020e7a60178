//! The call that serves a link.
ghost use Rattle.pol_server.specs.Ends.{ends_of};
ghost use Rattle.pol_server.specs.Link.{ServesLink};
ghost use Rattle.pol_server.specs.Stores.{KeepsCatalogue, KeepsObjects, seen_of};

use crate::connection::Connection;
use crate::{Served, Stores};
use pol_disk::Disk;
use pol_types::Listed;
use pol_wire::{Clock, Draw, Link, Sink, Source};
use std::alloc::Global;

/// Serves a link until it ends: takes its bytes, answers its requests from the catalogue and the objects in their order
/// (RFC 9112, section 9.3.2), and gives the answers to its sink. At most 2^40 bytes are taken. That a request is
/// answered before more bytes are taken for another is not in the contract.
pub fn serve_connection<D: Disk, O: Disk, S: Source, K: Sink, C: Clock, W: Draw>(
    alloc: Global,
    stores: &mut Stores<D, O>,
    link: &mut Link<S, K, C, W>,
) -> Served
    ensures serves { ServesLink
        (ends_of S.left S.faults K.given K.faults C.moments W.words W.faults link.old)
        (ends_of S.left S.faults K.given K.faults C.moments W.words W.faults link.new)
        (seen_of stores.old) (seen_of stores.new) result }
    // What a crash since the opening may have left of both journals.
    ensures catalogue { KeepsCatalogue D.seen D.may_leave D.clock D.left_since D.fault_count
        stores.old.catalogue stores.new.catalogue }
    ensures objects { KeepsObjects O.seen O.may_leave O.clock O.left_since O.fault_count
        stores.old.objects stores.new.objects }
{
    let mut connection = Connection::new(alloc);
    let ending = connection.serve(alloc, stores, link);
    let places = Listed::from(connection.into_places());
    Served { ending, places }
}
