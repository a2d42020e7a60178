//! The program `polaris`: it hands its words and the real devices to the run, and what the run reports to standard
//! error. All else stands in `pol_cli`.
#![tactic(auto)]

use pol_cli::{Devices, Places, Reason, Report, end, places_given, run_given};
use pol_disk::FileDisk;
use pol_wire::{FileDraw, Link, StdSink, StdSource, WallClock};
use std::env;
use std::process::ExitCode;

fn main(rt: HostRuntime) -> ExitCode {
    let mut errors = StdSink::new(rt.stderr());
    let Ok(Places { catalogue, objects }) = places_given(rt.alloc(), env::args(&rt)) else {
        let report = Report::of(Reason::NoMemory, Vec::new(rt.alloc()));
        return end(rt.alloc(), &mut errors, &report);
    };
    let link = Link {
        source: StdSource::new(rt.stdin()),
        sink: StdSink::new(rt.stdout()),
        clock: WallClock::new(&rt),
        words: FileDraw::new(&rt),
    };
    // A file is opened at the first call of its disk, and a line that names none calls no disk.
    let devices = Devices {
        catalogue: FileDisk::new(&rt, String::from(catalogue)),
        objects: FileDisk::new(&rt, String::from(objects)),
        link,
    };
    let (report, _devices) = run_given(&rt, env::args(&rt), devices);
    end(rt.alloc(), &mut errors, &report)
}
