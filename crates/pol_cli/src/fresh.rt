//! A link served over a fresh catalogue.
ghost use Rattle.std.specs.Prelude.{◌≡◌, ◌≢◌, []};
ghost use Rattle.pol_server.specs.Ends.{ends_of};
ghost use Rattle.pol_cli.specs.Causes.{HasCause};
ghost use Rattle.pol_cli.specs.Disks.{Both};
ghost use Rattle.pol_cli.specs.Reasons.{status_of};
ghost use Rattle.pol_cli.specs.Serving.{RunsLink};

use crate::exec::exec;
use crate::reason::Reason;
use crate::report::Report;
use crate::stores::{close_both, fresh_stores};
use pol_types::OutOfMemory;
use pol_wire::{Clock, Draw, Link, Sink, Source};
use std::alloc::Global;

/// Serves the link over a fresh catalogue of this root secret and no objects, on two disks of its own that keep
/// nothing.
///
/// Where memory is wanting before the link is called, it is as it was, and no link is reported.
pub(crate) fn exec_fresh<S: Source, K: Sink, C: Clock, W: Draw>(
    alloc: Global,
    root_secret: &str,
    link: &mut Link<S, K, C, W>,
) -> Report
    ensures runs { RunsLink root_secret.now
        (ends_of S.left S.faults K.given K.faults C.moments W.words W.faults link.old)
        (ends_of S.left S.faults K.given K.faults C.moments W.words W.faults link.new) result }
    ensures untouched { result.served ≡ [] → link.new ≡ link.old }
    // Its reason is told by its link alone, whatever other disks tell.
    ensures cause { (disks : Both) → HasCause
        (ends_of S.left S.faults K.given K.faults C.moments W.words W.faults link.old)
        (ends_of S.left S.faults K.given K.faults C.moments W.words W.faults link.new) disks result.reason }
    ensures status { result.status ≡ status_of result.reason }
    ensures planned { result.reason ≢ Reason.Usage }
{
    match fresh_stores(alloc, root_secret) {
        Ok(mut stores) => {
            let report = exec(alloc, &mut stores, link);
            drop(close_both(stores));
            report
        }
        Err(OutOfMemory) => Report::of(Reason::NoMemory, Vec::new(alloc)),
    }
}
