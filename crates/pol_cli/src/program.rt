//! The program over its words and devices.
ghost use Rattle.std.specs.Prelude.{◌≡◌, ◌⊎◌, ℕ, List, [], IfOk, IfErr};
ghost use Rattle.std.specs.IoError.{error_kind};
ghost use Rattle.std.specs.Vec.Iter.{into_iter_items};
ghost use Rattle.pol_cli.specs.Serving.{RunsLink};
ghost use Rattle.pol_server.specs.Ends.{ends_of};
ghost use Rattle.pol_cli.specs.Causes.{HasCause, IsDecided, IsUnfailing};
ghost use Rattle.pol_cli.specs.Disks.{both_told, tells_of};
ghost use Rattle.pol_cli.specs.Reasons.{report_of, status_of};
ghost use Rattle.pol_words.specs.Words.{Means, MeansNothing};
ghost use Rattle.pol_words.specs.declared.plan.Plan.{Plan};
ghost use Rattle.pol_words.specs.declared.plan.Plan.TheVariants.{Exec, ExecFresh, Init};
ghost use Rattle.pol_cli.specs.Given.{why_not_given, words_behind};
ghost use Rattle.pol_cli.specs.Run.{Does, IsExec, RunsExec, RunsInit};

use crate::files::exec_files;
use crate::fresh::exec_fresh;
use crate::given::words_given;
use crate::reason::Reason;
use crate::report::Report;
use crate::setup::init;
use pol_disk::Disk;
use pol_types::OutOfMemory;
use pol_wire::{Clock, Draw, Link, Sink, Source};
use pol_words::{Plan, Words, plan_of};
use std::alloc::Global;
use std::env::Args;
use std::io;

/// What the program runs on.
#[derive(Drop)]
pub struct Devices<D, O, S, K, C, W> {
    /// The disk of the catalogue: of `init`, and of `exec` on files.
    pub catalogue: D,
    /// The disk of the objects, likewise.
    pub objects: O,
    /// The link of `exec`. Of it `init` takes the declaration, and to it it gives its output.
    pub link: Link<S, K, C, W>,
}

/// Runs the program over a line of words that the system gave, and hands every device back.
///
/// The line is as [`words_given`] reads it. Where it gives none, the report says why, and no device is touched.
pub fn run_given<R: AllocGlobal, D: Disk, O: Disk, S: Source, K: Sink, C: Clock, W: Draw>(
    rt: &R,
    given: io::Result<Args>,
    devices: Devices<D, O, S, K, C, W>,
) -> (Report, Devices<D, O, S, K, C, W>)
    ensures none { IfErr given (λ error. (result.0 ≡ report_of (why_not_given (error_kind error)) [])
        × (result.1 ≡ devices)) }
    ensures usage { IfOk given (λ line. MeansNothing (words_behind (into_iter_items line))
        → ((result.0 ≡ report_of Reason.Usage []) ⊎ (result.0 ≡ report_of Reason.NoMemory []))
        × (result.1 ≡ devices)) }
    ensures exec_fresh { IfOk given (λ line. (secret : List ℕ)
        → Means (words_behind (into_iter_items line)) (ExecFresh secret)
        → RunsLink secret (ends_of S.left S.faults K.given K.faults C.moments W.words W.faults devices.link)
        (ends_of S.left S.faults K.given K.faults C.moments W.words W.faults result.1.link) result.0) }
    // `exec --root-secret` runs on disks of its own.
    ensures apart { IfOk given (λ line. (secret : List ℕ)
        → Means (words_behind (into_iter_items line)) (ExecFresh secret)
        → (result.1.catalogue ≡ devices.catalogue) × (result.1.objects ≡ devices.objects)) }
    ensures exec { IfOk given (λ line. (catalogue objects : List ℕ)
        → Means (words_behind (into_iter_items line)) (Exec catalogue objects)
        → RunsExec (tells_of D.seen D.size D.may_leave D.clock D.left_since D.fault_count)
        (tells_of O.seen O.size O.may_leave O.clock O.left_since O.fault_count)
        devices.catalogue result.1.catalogue devices.objects result.1.objects
        (ends_of S.left S.faults K.given K.faults C.moments W.words W.faults devices.link)
        (ends_of S.left S.faults K.given K.faults C.moments W.words W.faults result.1.link) result.0) }
    ensures init { IfOk given (λ line. (catalogue objects : List ℕ)
        → Means (words_behind (into_iter_items line)) (Init catalogue objects)
        → RunsInit (tells_of D.seen D.size D.may_leave D.clock D.left_since D.fault_count)
        (tells_of O.seen O.size O.may_leave O.clock O.left_since O.fault_count)
        devices.catalogue result.1.catalogue devices.objects result.1.objects
        (ends_of S.left S.faults K.given K.faults C.moments W.words W.faults devices.link)
        (ends_of S.left S.faults K.given K.faults C.moments W.words W.faults result.1.link) result.0) }
    // Where `exec` served no link, its link is as it was.
    ensures untouched { IfOk given (λ line. (plan : Plan) → Means (words_behind (into_iter_items line)) plan
        → IsExec plan → result.0.served ≡ [] → result.1.link ≡ devices.link) }
    ensures cause { HasCause (ends_of S.left S.faults K.given K.faults C.moments W.words W.faults devices.link)
        (ends_of S.left S.faults K.given K.faults C.moments W.words W.faults result.1.link)
        (both_told (tells_of D.seen D.size D.may_leave D.clock D.left_since D.fault_count)
        (tells_of O.seen O.size O.may_leave O.clock O.left_since O.fault_count)
        devices.catalogue result.1.catalogue devices.objects result.1.objects) result.0.reason }
    ensures complete { IsUnfailing (ends_of S.left S.faults K.given K.faults C.moments W.words W.faults devices.link)
        (ends_of S.left S.faults K.given K.faults C.moments W.words W.faults result.1.link)
        (both_told (tells_of D.seen D.size D.may_leave D.clock D.left_since D.fault_count)
        (tells_of O.seen O.size O.may_leave O.clock O.left_since O.fault_count)
        devices.catalogue result.1.catalogue devices.objects result.1.objects) → IsDecided result.0.reason }
    ensures status { result.0.status ≡ status_of result.0.reason }
{
    match words_given(rt.alloc(), given) {
        Ok(words) => {
            let ran = run(rt, &words, devices);
            drop(words);
            ran
        }
        Err(reason) => (Report::of(reason, Vec::new(rt.alloc())), devices),
    }
}

/// Runs the program, and hands every device back.
///
/// Words that are no command line touch no device. `exec --root-secret` serves its link over a fresh catalogue and no
/// objects, on two disks of its own that keep nothing. `exec` on files opens the journal of the objects and then the
/// catalogue's, and serves its link over both. `init` makes both journals by the declaration that its link has.
pub fn run<R: AllocGlobal, D: Disk, O: Disk, S: Source, K: Sink, C: Clock, W: Draw>(
    rt: &R,
    words: &Words,
    devices: Devices<D, O, S, K, C, W>,
) -> (Report, Devices<D, O, S, K, C, W>)
    ensures usage { MeansNothing words.now.list → (result.0 ≡ report_of Reason.Usage []) × (result.1 ≡ devices) }
    ensures exec_fresh { (secret : List ℕ) → Means words.now.list (ExecFresh secret)
        → RunsLink secret (ends_of S.left S.faults K.given K.faults C.moments W.words W.faults devices.link)
        (ends_of S.left S.faults K.given K.faults C.moments W.words W.faults result.1.link) result.0 }
    ensures apart { (secret : List ℕ) → Means words.now.list (ExecFresh secret)
        → (result.1.catalogue ≡ devices.catalogue) × (result.1.objects ≡ devices.objects) }
    ensures exec { (catalogue objects : List ℕ) → Means words.now.list (Exec catalogue objects)
        → RunsExec (tells_of D.seen D.size D.may_leave D.clock D.left_since D.fault_count)
        (tells_of O.seen O.size O.may_leave O.clock O.left_since O.fault_count)
        devices.catalogue result.1.catalogue devices.objects result.1.objects
        (ends_of S.left S.faults K.given K.faults C.moments W.words W.faults devices.link)
        (ends_of S.left S.faults K.given K.faults C.moments W.words W.faults result.1.link) result.0 }
    ensures init { (catalogue objects : List ℕ) → Means words.now.list (Init catalogue objects)
        → RunsInit (tells_of D.seen D.size D.may_leave D.clock D.left_since D.fault_count)
        (tells_of O.seen O.size O.may_leave O.clock O.left_since O.fault_count)
        devices.catalogue result.1.catalogue devices.objects result.1.objects
        (ends_of S.left S.faults K.given K.faults C.moments W.words W.faults devices.link)
        (ends_of S.left S.faults K.given K.faults C.moments W.words W.faults result.1.link) result.0 }
    ensures untouched { (plan : Plan) → Means words.now.list plan → IsExec plan
        → result.0.served ≡ [] → result.1.link ≡ devices.link }
    ensures cause { HasCause (ends_of S.left S.faults K.given K.faults C.moments W.words W.faults devices.link)
        (ends_of S.left S.faults K.given K.faults C.moments W.words W.faults result.1.link)
        (both_told (tells_of D.seen D.size D.may_leave D.clock D.left_since D.fault_count)
        (tells_of O.seen O.size O.may_leave O.clock O.left_since O.fault_count)
        devices.catalogue result.1.catalogue devices.objects result.1.objects) result.0.reason }
    ensures complete { IsUnfailing (ends_of S.left S.faults K.given K.faults C.moments W.words W.faults devices.link)
        (ends_of S.left S.faults K.given K.faults C.moments W.words W.faults result.1.link)
        (both_told (tells_of D.seen D.size D.may_leave D.clock D.left_since D.fault_count)
        (tells_of O.seen O.size O.may_leave O.clock O.left_since O.fault_count)
        devices.catalogue result.1.catalogue devices.objects result.1.objects) → IsDecided result.0.reason }
    ensures status { result.0.status ≡ status_of result.0.reason }
    ensures faulty { result.0.reason ≡ Reason.Usage → MeansNothing words.now.list }
{
    let alloc = rt.alloc();
    match plan_of(alloc, words) {
        Ok(Some(plan)) => run_plan(alloc, plan, devices),
        Ok(None) => (Report::of(Reason::Usage, Vec::new(alloc)), devices),
        Err(OutOfMemory) => (Report::of(Reason::NoMemory, Vec::new(alloc)), devices),
    }
}

/// Does what a plan asks for.
fn run_plan<D: Disk, O: Disk, S: Source, K: Sink, C: Clock, W: Draw>(
    alloc: Global,
    plan: Plan,
    devices: Devices<D, O, S, K, C, W>,
) -> (Report, Devices<D, O, S, K, C, W>)
    ensures does { Does (tells_of D.seen D.size D.may_leave D.clock D.left_since D.fault_count)
        (tells_of O.seen O.size O.may_leave O.clock O.left_since O.fault_count)
        devices.catalogue result.1.catalogue devices.objects result.1.objects
        (ends_of S.left S.faults K.given K.faults C.moments W.words W.faults devices.link)
        (ends_of S.left S.faults K.given K.faults C.moments W.words W.faults result.1.link) result.0 plan }
    ensures untouched { IsExec plan → result.0.served ≡ [] → result.1.link ≡ devices.link }
{
    let Devices {
        mut catalogue,
        mut objects,
        mut link,
    } = devices;
    match plan {
        Plan::ExecFresh { root_secret } => {
            let report = exec_fresh(alloc, root_secret.as_str(), &mut link);
            drop(root_secret);
            (report, together(catalogue, objects, link))
        }
        Plan::Exec { .. } => {
            let run = exec_files(alloc, catalogue, objects, &mut link);
            (run.report, together(run.catalogue, run.objects, link))
        }
        Plan::Init { .. } => {
            let reason = init(alloc, &mut catalogue, &mut objects, &mut link);
            let report = Report::of(reason, Vec::new(alloc));
            (report, together(catalogue, objects, link))
        }
    }
}

/// These disks and this link.
fn together<D, O, S, K, C, W>(
    catalogue: D,
    objects: O,
    link: Link<S, K, C, W>,
) -> Devices<D, O, S, K, C, W>
    ensures { result ≡ record { catalogue = catalogue; objects = objects; link = link } }
{
    Devices {
        catalogue,
        objects,
        link,
    }
}
