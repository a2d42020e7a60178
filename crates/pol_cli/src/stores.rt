//! Both stores, made, opened and closed.
ghost use Rattle.std.specs.Prelude.{◌≡◌, [], false, IfErr, IfOk};
ghost use Rattle.pol_journal.specs.Format.{extent};
ghost use Rattle.pol_server.specs.Opened.{fresh_bodies, seen_new};
ghost use Rattle.pol_object_store.specs.ObjectHistory.{no_objects};
ghost use Rattle.pol_server.specs.Opening.{OpeningRefused};
ghost use Rattle.pol_records.specs.Holding.{RisesBy};
ghost use Rattle.pol_server.specs.Seen.{AreOfPasses};
ghost use Rattle.pol_server.specs.SeenObjects.{AreOfObjectPasses};
ghost use Rattle.pol_server.specs.Stores.{seen_of};
ghost use Rattle.pol_cli.specs.Disks.{Stays, tells_of};
ghost use Rattle.pol_state.specs.Rows.{fresh_state};
ghost use Rattle.pol_cli.specs.Files.{OpeningFails, OpensCatalogue, OpensObjects};
ghost use Rattle.pol_cli.specs.Serving.{seen_fresh};

use pol_disk::{Disk, HollowDisk};
use pol_journal::JournalRefused;
use pol_server::{Closed, ClosedObjects, Objects, Shared, Stores};
use pol_types::OutOfMemory;
use std::alloc::Global;

/// A fresh catalogue of this root secret, and no objects, each on a disk that keeps nothing. Such a disk is empty, and
/// never fails, so that memory alone may be wanting.
pub(crate) fn fresh_stores(
    alloc: Global,
    root_secret: &str,
) -> Result<Stores<HollowDisk, HollowDisk>, OutOfMemory>
    ensures { IfOk result (λ stores. seen_of stores ≡ seen_fresh root_secret.now) }
{
    let catalogue = fresh_catalogue(alloc, root_secret)?;
    let objects = fresh_objects(alloc);
    Ok(Stores { catalogue, objects })
}

/// A fresh catalogue of this root secret on such a disk.
fn fresh_catalogue(alloc: Global, root_secret: &str) -> Result<Shared<HollowDisk>, OutOfMemory>
    ensures { IfOk result (λ held. held.seen
        ≡ seen_new (fresh_state root_secret.now) (extent (fresh_bodies root_secret.now))) }
{
    match Shared::fresh(alloc, HollowDisk::new(0), root_secret) {
        Ok(catalogue) => Ok(catalogue),
        Err((_, JournalRefused::OutOfMemory)) => Err(OutOfMemory),
        Err(_) => unreachable!(),
    }
}

/// No objects, on such a disk.
fn fresh_objects(alloc: Global) -> Objects<HollowDisk>
    ensures { result.seen ≡ seen_new no_objects (extent []) }
{
    match Objects::fresh(alloc, HollowDisk::new(0)) {
        Ok(objects) => objects,
        Err(_) => unreachable!(),
    }
}

/// Two disks whose journals weren't both opened: that of the objects or else that of the catalogue, and why.
#[derive(Drop)]
pub(crate) struct Unopened<D, O> {
    pub catalogue: D,
    pub objects: O,
    pub at_objects: bool,
    pub why: JournalRefused,
}

/// Opens the journal of the objects and then the catalogue's, or hands both disks back.
pub(crate) fn open_both<D: Disk, O: Disk>(
    alloc: Global,
    catalogue: D,
    objects: O,
) -> Result<Stores<D, O>, Unopened<D, O>>
    ensures catalogue { IfOk result (λ stores.
        OpensCatalogue (tells_of D.seen D.size D.may_leave D.clock D.left_since D.fault_count)
        catalogue stores.catalogue) }
    ensures objects { IfOk result (λ stores.
        OpensObjects (tells_of O.seen O.size O.may_leave O.clock O.left_since O.fault_count)
        objects stores.objects) }
    ensures refused { IfErr result (λ refused.
        OpeningFails (tells_of D.seen D.size D.may_leave D.clock D.left_since D.fault_count)
        (tells_of O.seen O.size O.may_leave O.clock O.left_since O.fault_count)
        catalogue refused.catalogue objects refused.objects refused.at_objects refused.why) }
{
    match Objects::open(alloc, objects) {
        Ok(objects) => open_catalogue(alloc, catalogue, objects),
        Err((objects, why)) => Err(Unopened {
            catalogue,
            objects,
            at_objects: true,
            why,
        }),
    }
}

/// Opens the catalogue's journal beside objects that are open, or hands both disks back.
fn open_catalogue<D: Disk, O: Disk>(
    alloc: Global,
    catalogue: D,
    objects: Objects<O>,
) -> Result<Stores<D, O>, Unopened<D, O>>
    ensures catalogue { IfOk result (λ stores.
        OpensCatalogue (tells_of D.seen D.size D.may_leave D.clock D.left_since D.fault_count)
        catalogue stores.catalogue) }
    ensures objects { IfOk result (λ stores. stores.objects ≡ objects) }
    ensures at_catalogue { IfErr result (λ refused. refused.at_objects ≡ false) }
    ensures objects_disk { IfErr result (λ refused. refused.objects ≡ objects.journal.disk) }
    ensures cause { IfErr result (λ refused. OpeningRefused (D.seen catalogue)
        (D.fault_count catalogue) (D.fault_count refused.catalogue) refused.why) }
    ensures untouched { IfErr result (λ refused.
        Stays (tells_of D.seen D.size D.may_leave D.clock D.left_since D.fault_count)
        catalogue refused.catalogue) }
{
    match Shared::open(alloc, catalogue) {
        Ok(catalogue) => Ok(Stores { catalogue, objects }),
        Err((catalogue, why)) => Err(Unopened {
            catalogue,
            objects: close_objects(objects),
            at_objects: false,
            why,
        }),
    }
}

/// Closes both stores, and hands their disks on.
pub(crate) fn close_both<D: Disk, O: Disk>(stores: Stores<D, O>) -> (D, O)
    ensures catalogue { result.0 ≡ stores.catalogue.journal.disk }
    ensures objects { result.1 ≡ stores.objects.journal.disk }
    ensures passes { AreOfPasses stores.catalogue.seen.made stores.catalogue.seen.front }
    ensures object_passes { AreOfObjectPasses stores.objects.seen.made stores.objects.seen.front }
    ensures marked { RisesBy stores.catalogue.seen.failed stores.catalogue.journal.opening.faults
        (D.fault_count stores.catalogue.journal.disk) }
    ensures objects_marked { RisesBy stores.objects.seen.failed stores.objects.journal.opening.faults
        (O.fault_count stores.objects.journal.disk) }
{
    let Stores { catalogue, objects } = stores;
    let catalogue = close_catalogue(catalogue);
    (catalogue, close_objects(objects))
}

/// Closes the catalogue, and hands its disk on.
fn close_catalogue<D: Disk>(catalogue: Shared<D>) -> D
    ensures disk { result ≡ catalogue.journal.disk }
    ensures passes { AreOfPasses catalogue.seen.made catalogue.seen.front }
    ensures marked { RisesBy catalogue.seen.failed catalogue.journal.opening.faults
        (D.fault_count catalogue.journal.disk) }
{
    let Closed {
        disk,
        base,
        history,
        state,
    } = catalogue.close();
    drop(base);
    drop(history);
    drop(state);
    disk
}

/// Closes the objects, and hands their disk on.
fn close_objects<O: Disk>(objects: Objects<O>) -> O
    ensures disk { result ≡ objects.journal.disk }
    ensures passes { AreOfObjectPasses objects.seen.made objects.seen.front }
    ensures marked { RisesBy objects.seen.failed objects.journal.opening.faults
        (O.fault_count objects.journal.disk) }
{
    let ClosedObjects {
        disk,
        base,
        history,
        state,
    } = objects.close();
    drop(base);
    drop(history);
    drop(state);
    disk
}
