//! Examples as they are played.
ghost use Rattle.std.specs.Prelude.{◌≡◌, ◌↔◌, [], IfOk, None};
ghost use Rattle.pol_cli.specs.Told.{reason_text};
ghost use Rattle.pol_wire.specs.MemoryClock.{first_clock};
ghost use Rattle.pol_wire.specs.MemorySink.{first_sink};
ghost use Rattle.pol_wire.specs.MemorySource.{first_source};
ghost use Rattle.pol_player.specs.Playing.{AreTold, BeginsAs, IsAsSaid, IsOutcome, IsPlayed, IsPlayedOver, IsRun, Ran, ends_before, memory_ends};

use crate::disks::{Disks, Files, held};
use pol_cli::{Devices, Report, Words, run};
use pol_disk::MemoryDisk;
use pol_examples::{Example, Pieces};
use pol_types::OutOfMemory;
use pol_values::{Difference, Unread, value_difference};
use pol_wire::{CountingDraw, Draw, Link, MemoryClock, MemoryDraw, MemorySink, MemorySource};
use std::alloc::Global;

/// Plays an example, over the disks as the run above left them, and leaves them as its own run does; tells the first
/// difference, if there is one.
pub fn play<R: AllocGlobal>(
    rt: &R,
    example: &Example,
    disks: &mut Option<Disks>,
) -> Result<Option<Difference>, Unread>
    ensures { IfOk result (IsOutcome example.now disks.old disks.new) }
{
    if !example.values.is_empty() {
        return play_values(rt.alloc(), example);
    }
    let difference = play_behind(rt, example, disks)?;
    Ok(difference)
}

/// Compares what each value of an example is told to be with what is wanted.
fn play_values(alloc: Global, example: &Example) -> Result<Option<Difference>, Unread>
    ensures { IfOk result (AreTold example.now) }
{
    let difference = value_difference(alloc, example.values.as_slice())?;
    Ok(difference)
}

/// Plays an example that is a run, over the disks as the run above left them.
fn play_behind<R: AllocGlobal>(
    rt: &R,
    example: &Example,
    disks: &mut Option<Disks>,
) -> Result<Option<Difference>, OutOfMemory>
    ensures { IfOk result (IsRun example.now disks.old disks.new) }
{
    let files = Files::of(rt.alloc(), &example.settings, disks)?;
    let difference = play_run(rt, example, &files, disks)?;
    Ok(difference)
}

/// Plays an example by a run, or by several where its input is cut at each place.
fn play_run<R: AllocGlobal>(
    rt: &R,
    example: &Example,
    files: &Files,
    disks: &mut Option<Disks>,
) -> Result<Option<Difference>, OutOfMemory>
    ensures { IfOk result (IsPlayed example.now files.now disks.new) }
{
    match &example.settings.pieces {
        Pieces::At(ends) => {
            let ends = Vec::from_slice(rt.alloc(), ends.as_slice())?;
            play_pieces(rt, example, files, ends, disks)
        }
        Pieces::Each => play_each(rt, example, files, disks),
    }
}

/// Plays an example whose input is cut at each place in turn, and at last at all of them.
fn play_each<R: AllocGlobal>(
    rt: &R,
    example: &Example,
    files: &Files,
    disks: &mut Option<Disks>,
) -> Result<Option<Difference>, OutOfMemory>
    ensures { IfOk result (IsPlayed example.now files.now disks.new) }
{
    let alloc = rt.alloc();
    let mut every_place = Vec::new(alloc);
    for end in 1..example.script.input.len() {
        every_place.push(end)?;
        let ends = Vec::from_slice(alloc, &[end])?;
        let difference = play_pieces(rt, example, files, ends, disks)?;
        if difference.is_some() {
            return Ok(difference);
        }
    }
    play_pieces(rt, example, files, every_place, disks)
}

/// Plays an example whose input comes in pieces that end at these places.
fn play_pieces<R: AllocGlobal>(
    rt: &R,
    example: &Example,
    files: &Files,
    ends: Vec<usize>,
    disks: &mut Option<Disks>,
) -> Result<Option<Difference>, OutOfMemory>
    ensures { IfOk result (IsPlayed example.now files.now disks.new) }
{
    let alloc = rt.alloc();
    let failing = Vec::from_slice(alloc, example.settings.draws.as_slice())?;
    match &example.settings.drawn {
        Some(words) => {
            let words = Vec::from_slice(alloc, words.as_slice())?;
            play_over(
                rt,
                example,
                files,
                ends,
                MemoryDraw::new(words, failing),
                disks,
            )
        }
        None => play_over(rt, example, files, ends, CountingDraw::new(failing), disks),
    }
}

/// Plays an example over this draw of words.
fn play_over<R: AllocGlobal, W: Draw + Drop>(
    rt: &R,
    example: &Example,
    files: &Files,
    ends: Vec<usize>,
    draw: W,
    disks: &mut Option<Disks>,
) -> Result<Option<Difference>, OutOfMemory>
    ensures { IfOk result (IsPlayedOver example.now
        (ends_before example.now.script.input.items example.now.settings.moments.items
        (W.words draw) (W.faults draw)) files.now disks.new) }
{
    let words = Words {
        list: example.settings.words.clone()?,
    };
    let devices = devices_of(rt.alloc(), example, files, ends, draw)?;
    let (report, devices) = run_devices(rt, &words, devices);
    let difference = difference_of(rt.alloc(), example, &report, &devices);
    let Devices {
        catalogue,
        objects,
        link,
    } = devices;
    drop(link);
    drop(report);
    *disks = Some(Disks { catalogue, objects });
    match difference {
        Ok(difference) => Ok(difference),
        Err(OutOfMemory) => Err(OutOfMemory),
    }
}

/// Runs the program over devices in memory.
fn run_devices<R: AllocGlobal, W: Draw>(
    rt: &R,
    words: &Words,
    devices: Devices<MemoryDisk, MemoryDisk, MemorySource, MemorySink, MemoryClock, W>,
) -> (
    Report,
    Devices<MemoryDisk, MemoryDisk, MemorySource, MemorySink, MemoryClock, W>,
)
    ensures { Ran words.now.list
        (memory_ends W.words W.faults devices.link) (memory_ends W.words W.faults result.1.link)
        (record { catalogue = devices.catalogue; objects = devices.objects })
        (record { catalogue = result.1.catalogue; objects = result.1.objects }) result.0 }
{
    run(rt, words, devices)
}

/// How what came of a run differs from what an example wants.
fn difference_of<W: Draw>(
    alloc: Global,
    example: &Example,
    report: &Report,
    devices: &Devices<MemoryDisk, MemoryDisk, MemorySource, MemorySink, MemoryClock, W>,
) -> Result<Option<Difference>, OutOfMemory>
    ensures { IfOk result (λ difference. (difference ≡ None) ↔ IsAsSaid example.now
        devices.now.link.sink.bytes report.now.status (reason_text report.now.reason)
        devices.now.catalogue.content.seen devices.now.objects.content.seen) }
{
    let reason = report.reason.text(alloc)?;
    let output = devices.link.sink.bytes();
    let difference = example.difference(alloc, output, report.status, reason.as_str())?;
    drop(reason);
    if difference.is_some() {
        return Ok(difference);
    }
    let catalogue = held(&devices.catalogue).seen();
    let objects = held(&devices.objects).seen();
    example.files_difference(alloc, catalogue, objects)
}

/// The devices of an example, with this draw of words.
fn devices_of<W: Draw + Drop>(
    alloc: Global,
    example: &Example,
    files: &Files,
    ends: Vec<usize>,
    draw: W,
) -> Result<Devices<MemoryDisk, MemoryDisk, MemorySource, MemorySink, MemoryClock, W>, OutOfMemory>
    ensures { IfOk result (λ devices. BeginsAs example.now.settings files.now
        (ends_before example.now.script.input.items example.now.settings.moments.items
        (W.words draw) (W.faults draw)) (memory_ends W.words W.faults devices.link)
        (record { catalogue = devices.catalogue; objects = devices.objects })) }
{
    let link = link_of(alloc, example, ends, draw)?;
    let Ok(disks) = files.disks(alloc, &example.settings) else {
        drop(link);
        return Err(OutOfMemory);
    };
    let Disks { catalogue, objects } = disks;
    Ok(Devices {
        catalogue,
        objects,
        link,
    })
}
/// The link of an example, with this draw of words.
fn link_of<W: Draw + Drop>(
    alloc: Global,
    example: &Example,
    ends: Vec<usize>,
    draw: W,
) -> Result<Link<MemorySource, MemorySink, MemoryClock, W>, OutOfMemory>
    ensures { IfOk result (λ link. memory_ends W.words W.faults link
        ≡ ends_before example.now.script.input.items example.now.settings.moments.items
        (W.words draw) (W.faults draw)) }
{
    let source = source_of(alloc, example, ends)?;
    let sink = sink_of(alloc, example)?;
    let clock = clock_of(alloc, example)?;
    Ok(Link {
        source,
        sink,
        clock,
        words: draw,
    })
}

/// The source of an example's input, in pieces that end at these places.
fn source_of(
    alloc: Global,
    example: &Example,
    ends: Vec<usize>,
) -> Result<MemorySource, OutOfMemory>
    ensures { IfOk result (λ source. source
        ≡ first_source example.now.script.input.items ends.items example.now.settings.takes.items) }
{
    let input = Vec::from_slice(alloc, example.script.input.as_slice())?;
    let failing = Vec::from_slice(alloc, example.settings.takes.as_slice())?;
    Ok(MemorySource::new(input, ends, failing))
}

/// The sink of an example's output.
fn sink_of(alloc: Global, example: &Example) -> Result<MemorySink, OutOfMemory>
    ensures { IfOk result (λ sink. sink ≡ first_sink [] usize.MAX example.now.settings.gives.items) }
{
    let failing = Vec::from_slice(alloc, example.settings.gives.as_slice())?;
    Ok(MemorySink::new(Vec::new(alloc), usize::MAX, failing))
}

/// The clock of an example.
fn clock_of(alloc: Global, example: &Example) -> Result<MemoryClock, OutOfMemory>
    ensures { IfOk result (λ clock. clock ≡ first_clock example.now.settings.moments.items) }
{
    let moments = Vec::from_slice(alloc, example.settings.moments.as_slice())?;
    Ok(MemoryClock::new(moments))
}
