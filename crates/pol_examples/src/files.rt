//! What an example says of the disks that its run is over.
ghost use Rattle.std.specs.Prelude.{◌≡◌, [], None};

use crate::numbers::number_of;
use pol_values::{Unread, unescaped};
use std::alloc::Global;

/// What an example says of a disk.
#[derive(Drop)]
pub struct DiskSettings {
    pub start: Start,
    /// The calls that are to fail, counted from 1.
    pub failing: Vec<u64>,
}

/// What a disk holds at the start of a run.
#[derive(Drop)]
pub enum Start {
    /// These bytes.
    Said(Vec<u8>),
    /// What a read gave at the end of the run above.
    Kept,
    /// What a crash at the end of the run above left.
    Crashed(Image),
}

/// One of the images of a disk that a crash may leave.
#[derive(Clone, Copy, PartialEq, Eq)]
pub enum Image {
    /// That of the last sync: it has nothing of what was written or cut since.
    Synced,
    /// What a read gave: it has all of that.
    Written,
    /// The longest one, with this byte wherever any byte may stand.
    Longest(u8),
    /// The shortest one, likewise.
    Shortest(u8),
}

/// What the disks are to hold at the end of a run, where an example says it.
#[derive(Drop)]
pub struct Holds {
    pub catalogue: Option<Held>,
    pub objects: Option<Held>,
}

/// What a disk is to hold at the end of a run.
#[derive(Drop)]
pub struct Held {
    /// The first line that says it.
    pub line: usize,
    pub bytes: Vec<u8>,
}

impl DiskSettings {
    ghost use Rattle.pol_examples.specs.Starting.{HoldsNothing};

    /// A disk without bytes, none of whose calls is to fail.
    pub(crate) fn usual(alloc: Global) -> Self
        ensures start { HoldsNothing result.start }
        ensures failing { result.failing.items ≡ [] }
    {
        DiskSettings {
            start: Start::Said(Vec::new(alloc)),
            failing: Vec::new(alloc),
        }
    }

    /// What the disk holds at the start.
    pub(crate) fn into_start(self) -> Start
        ensures { result ≡ self.start }
    {
        let DiskSettings { start, failing: _ } = self;
        start
    }

    /// Reads bytes that the disk holds at the start, behind those of the lines above.
    pub(crate) fn read_start(&mut self, alloc: Global, text: &str) -> Result<(), Unread> {
        let bytes = unescaped(alloc, text)?;
        match &mut self.start {
            Start::Said(before) => before.extend_from_slice(bytes.as_slice())?,
            Start::Kept | Start::Crashed(_) => self.start = Start::Said(bytes),
        }
        Ok(())
    }

    /// The disk holds the bytes of an opening at the start, behind those of the lines above.
    pub(crate) fn begin(&mut self, opening: &Start) -> Result<(), Unread> {
        let Start::Said(bytes) = opening else {
            return Ok(());
        };
        if let Start::Said(before) = &mut self.start {
            before.extend_from_slice(bytes.as_slice())?;
        }
        Ok(())
    }
}

impl Start {
    /// What a disk holds at the start that the run above left so.
    pub(crate) fn left(text: &str) -> Result<Self, Unread> {
        if text == "kept" {
            return Ok(Start::Kept);
        }
        let image = text.strip_prefix("crashed ").ok_or(Unread::Form)?;
        Ok(Start::Crashed(Image::of(image)?))
    }
}

impl Image {
    /// The image that is said so.
    fn of(text: &str) -> Result<Self, Unread> {
        match text {
            "synced" => return Ok(Image::Synced),
            "written" => return Ok(Image::Written),
            _ => {}
        }
        let (kind, byte) = text.split_once(' ').ok_or(Unread::Form)?;
        let Ok(byte) = u8::try_from(number_of(byte)?) else {
            return Err(Unread::Number);
        };
        match kind {
            "longest" => Ok(Image::Longest(byte)),
            "shortest" => Ok(Image::Shortest(byte)),
            _ => Err(Unread::Form),
        }
    }
}

impl Holds {
    /// Nothing is said of what they hold.
    pub(crate) fn unsaid() -> Self
        ensures catalogue { result.catalogue ≡ None }
        ensures objects { result.objects ≡ None }
    {
        Holds {
            catalogue: None,
            objects: None,
        }
    }

    /// Reads bytes that a disk is to hold, behind those of the lines above; they stand at this line.
    pub(crate) fn read(&mut self, alloc: Global, rest: &str, line: usize) -> Result<(), Unread> {
        let (name, text) = name_and_text(rest);
        let bytes = unescaped(alloc, text)?;
        match name {
            "catalogue" => hold(&mut self.catalogue, bytes, line),
            "objects" => hold(&mut self.objects, bytes, line),
            _ => Err(Unread::Form),
        }
    }
}

/// Adds bytes that a disk is to hold.
fn hold(held: &mut Option<Held>, bytes: Vec<u8>, line: usize) -> Result<(), Unread> {
    match held {
        Some(before) => before.bytes.extend_from_slice(bytes.as_slice())?,
        None => *held = Some(Held { line, bytes }),
    }
    Ok(())
}

/// The name of a disk, and what is said of it.
pub(crate) fn name_and_text(rest: &str) -> (&str, &str) {
    match rest.split_once(' ') {
        Some(both) => both,
        None => (rest, ""),
    }
}
