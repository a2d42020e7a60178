ghost use Rattle.std.specs.Prelude.{◌∷◌, ◌≤◌, [], IfOk, OnErr, take};
ghost use Rattle.std.specs.Io.KnownBytes.{Appends};
ghost use Rattle.pol_wire.specs.Faults.{Rises};
ghost use Rattle.pol_wire.specs.Streams.{IsShifted};

use crate::{
    Clock, CountingDraw, Draw, Failed, FileDraw, LAST_MOMENT, MemoryClock, MemoryDraw, MemorySink,
    MemorySource, Sink, Source, StdSink, StdSource, WallClock,
};
use std::alloc::Global;
use std::cell::Cell;
use std::io::{ErrorKind, Read, Write};
use std::test::Fail;
use std::time::Duration;
use std::{io, rt};

// Whether one call gives these bytes to a buffer of this length, of 9 at most, or fails where none are named.
fn gives<S: Source>(source: &mut S, room: usize, want: Option<&[u8]>) -> bool {
    let mut buffer = [0; 9];
    match (source.take(&mut buffer[..room.min(9)]), want) {
        (Ok(count), Some(bytes)) => &buffer[..count] == bytes,
        (Err(Failed), None) => true,
        _ => false,
    }
}

// The length of a buffer, and the bytes that are given to it, or None where the call fails.
type Given = (usize, Option<&'static [u8]>);

// Whether calls give these bytes, one after the other.
fn gives_all<S: Source>(source: &mut S, steps: &[Given]) -> bool {
    for (room, want) in steps {
        if !gives(source, *room, *want) {
            return false;
        }
    }
    true
}

// How much one call takes of a piece.
fn count_taken<K: Sink>(sink: &mut K, piece: &[u8]) -> Result<usize, Failed>
    ensures bytes { IfOk result (λ count.
        Appends (K.given sink.old) (K.given sink.new) (take count piece.now)) }
    ensures cause { OnErr result (Rises (K.faults sink.old) (K.faults sink.new)) }
{
    sink.give(piece)
}

// Two moments of a clock, one after the other.
fn two_moments<C: Clock>(clock: &mut C) -> (u64, u64)
    ensures bound { result.1 ≤ LAST_MOMENT }
    ensures moments { IsShifted
        (C.moments clock.old) (C.moments clock.new) (result.0 ∷ result.1 ∷ []) }
{
    let first = clock.now();
    (first, clock.now())
}

// Two words of a draw, one after the other.
fn two_words<W: Draw>(draw: &mut W) -> Result<(u64, u64), Failed>
    ensures words { IfOk result (λ words.
        IsShifted (W.words draw.old) (W.words draw.new) (words.0 ∷ words.1 ∷ [])) }
    ensures cause { OnErr result (Rises (W.faults draw.old) (W.faults draw.new)) }
{
    let first = draw.word()?;
    Ok((first, draw.word()?))
}

// Whether a source of six bytes in pieces, whose second and seventh calls are to fail, gives these bytes.
fn source_gives(alloc: Global, steps: &[Given]) -> Option<bool> {
    let bytes = Vec::from_slice(alloc, b"abcdef").ok()?;
    let ends = Vec::from_slice(alloc, &[4, 2, 0]).ok()?;
    let failing = Vec::from_slice(alloc, &[2, 7]).ok()?;
    let mut source = MemorySource::new(bytes, ends, failing);
    let given = gives_all(&mut source, steps);
    Some(given && source.faults() == 2 && source.left().is_empty())
}

const STEPS: [Given; 9] = [
    (3, Some(b"ab")),
    (3, None),
    (1, Some(b"c")),
    (3, Some(b"d")),
    (0, Some(b"")),
    (1, Some(b"e")),
    (1, None),
    (9, Some(b"f")),
    (9, Some(b"")),
];

// Whether a sink that has a byte, takes three at a time and fails at its second call, takes four pieces so.
fn sink_takes(alloc: Global) -> Option<bool> {
    let bytes = Vec::from_slice(alloc, b">").ok()?;
    let failing = Vec::from_slice(alloc, &[2]).ok()?;
    let mut sink = MemorySink::new(bytes, 3, failing);
    let first = matches!(count_taken(&mut sink, b"abcd"), Ok(3));
    let second = matches!(count_taken(&mut sink, b"d"), Err(Failed));
    let third = matches!(count_taken(&mut sink, b""), Ok(0));
    let last = matches!(count_taken(&mut sink, b"de"), Ok(2));
    let kept = sink.bytes() == b">abcde".as_slice() && sink.faults() == 1;
    Some(first && second && third && last && kept)
}

// The first four moments of a clock of three.
fn four_moments(alloc: Global) -> Option<((u64, u64), (u64, u64))> {
    let mut clock = MemoryClock::new(Vec::from_slice(alloc, &[5, 3, u64::MAX]).ok()?);
    let first = two_moments(&mut clock);
    Some((first, two_moments(&mut clock)))
}

// Whether a draw of three words, whose first call is to fail, gives them and then fails.
fn draw_gives(alloc: Global) -> Option<bool> {
    let words = Vec::from_slice(alloc, &[7, 7, u64::MAX]).ok()?;
    let failing = Vec::from_slice(alloc, &[1]).ok()?;
    let mut draw = MemoryDraw::new(words, failing);
    let first = two_words(&mut draw).is_err();
    let second = matches!(two_words(&mut draw), Ok((7, 7)));
    let third = matches!(draw.word(), Ok(u64::MAX));
    let last = two_words(&mut draw).is_err();
    Some(first && second && third && last && draw.faults() == 2)
}

// Whether a counting draw whose third and fourth calls are to fail loses no word.
fn counting_draw_gives(alloc: Global) -> Option<bool> {
    let mut draw = CountingDraw::new(Vec::from_slice(alloc, &[3, 4]).ok()?);
    let first = matches!(two_words(&mut draw), Ok((0, 1)));
    let second = two_words(&mut draw).is_err();
    let third = two_words(&mut draw).is_err();
    let last = matches!(two_words(&mut draw), Ok((2, 3)));
    Some(first && second && third && last && draw.faults() == 2)
}

#[test]
fn devices_in_memory_do_as_they_are_told(rt: HostRuntime) {
    let alloc = rt.alloc();
    assert!(rt; source_gives(alloc, &STEPS) == Some(true));
    assert!(rt; sink_takes(alloc) == Some(true));
    let moments = four_moments(alloc);
    assert!(rt; moments == Some(((5, 3), (LAST_MOMENT, LAST_MOMENT))));
    assert!(rt; draw_gives(alloc) == Some(true));
    assert!(rt; counting_draw_gives(alloc) == Some(true));
}

// A reader and writer whose calls fail, or which takes no byte.
#[derive(Clone, Copy)]
enum Broken {
    Wholly,
    TakesNothing,
    AtFlush,
}

impl Read for Broken {
    fn read(&mut self, _buf: &mut [u8]) -> io::Result<usize> {
        Err(ErrorKind::ConnectionReset.into())
    }
}

impl Write for Broken {
    fn write(&mut self, buf: &[u8]) -> io::Result<usize> {
        match self {
            Broken::Wholly => Err(ErrorKind::BrokenPipe.into()),
            Broken::TakesNothing => Ok(0),
            Broken::AtFlush => Ok(buf.len()),
        }
    }

    fn flush(&mut self) -> io::Result<()> {
        match self {
            Broken::Wholly | Broken::TakesNothing => Ok(()),
            Broken::AtFlush => Err(ErrorKind::BrokenPipe.into()),
        }
    }
}

// A writer whose bytes arrive when it is flushed.
#[derive(Drop)]
struct Waiting<'a> {
    waiting: usize,
    arrived: &'a Cell<usize>,
}

impl Write for Waiting<'_> {
    fn write(&mut self, buf: &[u8]) -> io::Result<usize> {
        self.waiting = buf.len();
        Ok(buf.len())
    }

    fn flush(&mut self) -> io::Result<()> {
        self.arrived.set(self.waiting);
        Ok(())
    }
}

// A clock that can be read once.
#[derive(Drop)]
struct Stopping(Cell<Option<Duration>>);

impl rt::Clock for Stopping {
    fn monotonic(&self) -> io::Result<Duration> {
        self.since_1970()
    }

    fn since_1970(&self) -> io::Result<Duration> {
        self.0.take().ok_or(ErrorKind::Unsupported.into())
    }
}

#[test]
fn std_reader_is_a_source(rt: HostRuntime) {
    let steps: [Given; 4] = [
        (2, Some(b"ab")),
        (2, Some(b"c")),
        (2, Some(b"")),
        (2, Some(b"")),
    ];
    let given = gives_all(&mut StdSource::new(b"abc".as_slice()), &steps);
    let failed = gives(&mut StdSource::new(Broken::Wholly), 2, None);
    assert!(rt; given && failed);
}

// Whether a writer has what it took once a call ends, though it waits for a flush.
fn is_flushed() -> bool {
    let arrived = Cell::new(0);
    let mut sink = StdSink::new(Waiting {
        waiting: 0,
        arrived: &arrived,
    });
    let taken = matches!(count_taken(&mut sink, b"ab"), Ok(2));
    taken && arrived.get() == 2
}

#[test]
fn std_writer_is_a_sink_that_is_flushed_at_each_call(rt: HostRuntime) {
    let mut written = Vec::new(rt.alloc());
    let taken = count_taken(&mut StdSink::new(&mut written), b"abc");
    let kept = written.as_slice() == b"abc".as_slice();
    drop(written);
    assert!(rt; matches!(taken, Ok(3)) && kept);
    assert!(rt; is_flushed());
}

#[test]
fn std_writer_that_fails_or_takes_nothing_is_a_failed_sink(rt: HostRuntime) {
    for broken in [Broken::Wholly, Broken::TakesNothing, Broken::AtFlush] {
        let failed = count_taken(&mut StdSink::new(broken), b"a").is_err();
        assert!(rt; failed);
    }
    let taken = count_taken(&mut StdSink::new(Broken::TakesNothing), b"");
    assert!(rt; matches!(taken, Ok(0)));
}

// Two moments of a wall clock over one that can be read once.
fn stopped_moments(reading: Option<Duration>) -> (u64, u64) {
    two_moments(&mut WallClock::new(Stopping(Cell::new(reading))))
}

#[test]
fn wall_clock_rises_is_cut_and_stays_where_it_stops(rt: HostRuntime) {
    let (first, second) = two_moments(&mut WallClock::new(&rt));
    assert!(rt; 1_700_000_000_000 < first && first <= second);

    let cases = [
        (Some(Duration::from_micros(1_999)), 1),
        (Some(Duration::MAX), LAST_MOMENT),
        (None, 0),
    ];
    for (reading, want) in cases {
        let (first, second) = stopped_moments(reading);
        assert!(rt; first == want && second == want);
    }
}

#[test]
fn file_draw_gives_words_that_differ(rt: HostRuntime) -> Result<(), Fail> {
    let (first, second) = two_words(&mut FileDraw::new(&rt))?;
    assert!(rt; first != second);
    Ok(())
}

// Takes what may cross to another thread.
fn moved<T: Send + Drop>(_value: T) {}

#[test]
fn forms_and_adapters_may_cross_threads(rt: HostRuntime) {
    let alloc = rt.alloc();
    moved(MemorySource::new(Vec::new(alloc), Vec::new(alloc), Vec::new(alloc)));
    moved(MemorySink::new(Vec::new(alloc), 1, Vec::new(alloc)));
    moved(MemoryClock::new(Vec::new(alloc)));
    moved(MemoryDraw::new(Vec::new(alloc), Vec::new(alloc)));
    moved(CountingDraw::new(Vec::new(alloc)));
    moved(StdSource::new(b"".as_slice()));
    moved(StdSink::new(Vec::<u8>::new(alloc)));
    moved(WallClock::new(&rt));
    moved(FileDraw::new(&rt));
}
