//! A link served over the journals of two disks.
ghost use Rattle.std.specs.Prelude.{◌≡◌, ◌≢◌, []};
ghost use Rattle.pol_server.specs.Ends.{ends_of};
ghost use Rattle.pol_cli.specs.Causes.{HasCause};
ghost use Rattle.pol_cli.specs.Disks.{both_told, tells_of};
ghost use Rattle.pol_cli.specs.Reasons.{status_of};
ghost use Rattle.pol_cli.specs.Files.{RunsFiles};

use crate::exec::exec;
use crate::reason::{Reason, reason_not_opened};
use crate::report::Report;
use crate::stores::{Unopened, close_both, open_both};
use pol_disk::Disk;
use pol_wire::{Clock, Draw, Link, Sink, Source};
use std::alloc::Global;

/// What a run on files leaves: both disks, and what it reports.
#[derive(Drop)]
pub(crate) struct FilesRun<D, O> {
    pub catalogue: D,
    pub objects: O,
    pub report: Report,
}

/// Opens the journal of the objects and then the catalogue's, and serves the link over what they hold.
///
/// Where a journal isn't opened no disk is written; where it is that of the objects, the catalogue's isn't called. The
/// link is called once both are open. Where it isn't called it is as it was, no disk is written and no link is
/// reported.
pub(crate) fn exec_files<D: Disk, O: Disk, S: Source, K: Sink, C: Clock, W: Draw>(
    alloc: Global,
    catalogue: D,
    objects: O,
    link: &mut Link<S, K, C, W>,
) -> FilesRun<D, O>
    ensures runs { RunsFiles (tells_of D.seen D.size D.may_leave D.clock D.left_since D.fault_count)
        (tells_of O.seen O.size O.may_leave O.clock O.left_since O.fault_count)
        catalogue result.catalogue objects result.objects
        (ends_of S.left S.faults K.given K.faults C.moments W.words W.faults link.old)
        (ends_of S.left S.faults K.given K.faults C.moments W.words W.faults link.new) result.report }
    ensures untouched { result.report.served ≡ [] → link.new ≡ link.old }
    ensures cause { HasCause
        (ends_of S.left S.faults K.given K.faults C.moments W.words W.faults link.old)
        (ends_of S.left S.faults K.given K.faults C.moments W.words W.faults link.new)
        (both_told (tells_of D.seen D.size D.may_leave D.clock D.left_since D.fault_count)
        (tells_of O.seen O.size O.may_leave O.clock O.left_since O.fault_count)
        catalogue result.catalogue objects result.objects) result.report.reason }
    ensures status { result.report.status ≡ status_of result.report.reason }
    ensures planned { result.report.reason ≢ Reason.Usage }
{
    match open_both(alloc, catalogue, objects) {
        Ok(mut stores) => {
            let report = exec(alloc, &mut stores, link);
            let (catalogue, objects) = close_both(stores);
            FilesRun {
                catalogue,
                objects,
                report,
            }
        }
        Err(
            Unopened {
                catalogue,
                objects,
                at_objects,
                why,
            },
        ) => {
            let reason = reason_not_opened(at_objects, why);
            FilesRun {
                catalogue,
                objects,
                report: Report::of(reason, Vec::new(alloc)),
            }
        }
    }
}
