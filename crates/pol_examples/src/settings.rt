//! What an example is played with.
ghost use Rattle.std.specs.Prelude.{◌≡◌, ◌∷◌, [], IfOk, None};
ghost use Rattle.pol_examples.specs.Starting.{HoldsNothing};

use crate::files::{DiskSettings, Start, name_and_text};
use crate::numbers::{number_of, numbers};
use pol_types::{Listed, Text};
use pol_values::{Unread, unescaped_text};
use std::alloc::{AllocError, Global};

/// What an example is played with.
#[derive(Drop)]
pub struct Settings {
    /// The words of the command line.
    pub words: Listed<Text>,
    /// The moments of the clock, in milliseconds since the Unix epoch.
    pub moments: Vec<u64>,
    /// The words that are drawn; without them they count from 0.
    pub drawn: Option<Listed<u64>>,
    /// The calls of the source that are to fail, counted from 1.
    pub takes: Vec<u64>,
    /// Those of the sink.
    pub gives: Vec<u64>,
    /// Those of the draw.
    pub draws: Vec<u64>,
    pub pieces: Pieces,
    pub catalogue: DiskSettings,
    pub objects: DiskSettings,
}

/// The pieces in which the input comes.
#[derive(Drop)]
pub enum Pieces {
    /// They end at these places.
    At(Vec<usize>),
    /// Two that part at each place in turn, and at last single bytes.
    Each,
}

impl Settings {
    /// The settings of an example that says none.
    pub(crate) fn usual(alloc: Global) -> Result<Self, AllocError>
        ensures moments { IfOk result (λ settings. settings.moments.items ≡ 1000 ∷ []) }
        ensures drawn { IfOk result (λ settings. settings.drawn ≡ None) }
        ensures takes { IfOk result (λ settings. settings.takes.items ≡ []) }
        ensures gives { IfOk result (λ settings. settings.gives.items ≡ []) }
        ensures draws { IfOk result (λ settings. settings.draws.items ≡ []) }
        ensures catalogue { IfOk result (λ settings. HoldsNothing settings.catalogue.start) }
        ensures objects { IfOk result (λ settings. HoldsNothing settings.objects.start) }
    {
        let mut words = Vec::new(alloc);
        for word in ["exec", "--root-secret", "s3cr3t"] {
            words.push(Text::from(String::from_str(alloc, word)?))?;
        }
        let mut moments = Vec::new(alloc);
        moments.push(1_000)?;
        Ok(Settings {
            words: Listed::from(words),
            moments,
            drawn: None,
            takes: Vec::new(alloc),
            gives: Vec::new(alloc),
            draws: Vec::new(alloc),
            pieces: Pieces::At(Vec::new(alloc)),
            catalogue: DiskSettings::usual(alloc),
            objects: DiskSettings::usual(alloc),
        })
    }

    /// What both disks hold at the start.
    pub(crate) fn starts(self) -> (Start, Start)
        ensures { result ≡ (self.catalogue.start, self.objects.start) }
    {
        let Settings {
            catalogue,
            objects,
            ..
        } = self;
        (catalogue.into_start(), objects.into_start())
    }

    /// Reads a setting, which begins with this word.
    pub(crate) fn read(&mut self, alloc: Global, word: &str, rest: &str) -> Result<(), Unread> {
        match word {
            "line" => self.words = Listed::from(words_in(alloc, rest)?),
            "clock" => self.moments = numbers(alloc, rest)?,
            "words" => self.drawn = Some(Listed::from(numbers(alloc, rest)?)),
            "pieces" => self.pieces = pieces_of(alloc, rest)?,
            "fail" => return self.read_failing(rest),
            "file" => return self.read_file(alloc, rest),
            "files" => return self.read_files(rest),
            _ => return Err(Unread::Form),
        }
        Ok(())
    }

    /// Reads calls that are to fail.
    fn read_failing(&mut self, rest: &str) -> Result<(), Unread> {
        let Some((kind, calls)) = rest.split_once(' ') else {
            return Err(Unread::Form);
        };
        match kind {
            "take" => push_calls(calls, &mut self.takes),
            "give" => push_calls(calls, &mut self.gives),
            "word" => push_calls(calls, &mut self.draws),
            "catalogue" => push_calls(calls, &mut self.catalogue.failing),
            "objects" => push_calls(calls, &mut self.objects.failing),
            _ => Err(Unread::Form),
        }
    }

    /// Reads what a disk holds at the start.
    fn read_file(&mut self, alloc: Global, rest: &str) -> Result<(), Unread> {
        let (name, text) = name_and_text(rest);
        match name {
            "catalogue" => self.catalogue.read_start(alloc, text),
            "objects" => self.objects.read_start(alloc, text),
            _ => Err(Unread::Form),
        }
    }

    /// Reads how both disks were left.
    fn read_files(&mut self, rest: &str) -> Result<(), Unread> {
        self.catalogue.start = Start::left(rest)?;
        self.objects.start = Start::left(rest)?;
        Ok(())
    }
}

/// Adds the number of a call, or those from the first on and below the second.
fn push_calls(text: &str, calls: &mut Vec<u64>) -> Result<(), Unread> {
    let Some((first, end)) = text.split_once("..") else {
        calls.push(number_of(text)?)?;
        return Ok(());
    };
    let first = number_of(first)?;
    for number in first..number_of(end)? {
        calls.push(number)?;
    }
    Ok(())
}

/// The words between single spaces.
fn words_in(alloc: Global, line: &str) -> Result<Vec<Text>, Unread> {
    let mut words = Vec::new(alloc);
    if line.is_empty() {
        return Ok(words);
    }
    for word in line.split(' ') {
        words.push(unescaped_text(alloc, word)?)?;
    }
    Ok(words)
}

/// The pieces that are said.
fn pieces_of(alloc: Global, rest: &str) -> Result<Pieces, Unread> {
    if rest == "each" {
        return Ok(Pieces::Each);
    }
    let mut ends = Vec::new(alloc);
    for word in rest.split(' ') {
        ends.push(number_of(word)? as usize)?;
    }
    Ok(Pieces::At(ends))
}
