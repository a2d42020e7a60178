//! What is told of the examples that were played.
ghost use Rattle.std.specs.Prelude.{◌≡◌, ◌==◌, IfOk, OnOk, if◌then◌else◌, string_bytes};

use crate::disks::Disks;
use crate::playing::play;
use pol_examples::{Example, Reader};
use pol_types::OutOfMemory;
use pol_values::{Difference, Unread};
use std::alloc::{AllocError, Global};

/// The examples that were played.
#[derive(Drop)]
pub struct Played {
    /// How many they are.
    pub examples: u64,
    /// How many of them differ.
    pub differing: u64,
    /// What is told of those that differ, and wasn't written yet.
    pub text: String,
    /// The disks as the last run of a file left them.
    disks: Option<Disks>,
}

/// A line that can't be read.
#[derive(Clone, Copy)]
struct UnreadLine {
    /// Its number, counted from 1.
    line: usize,
    why: Unread,
}

impl Played {
    ghost use Rattle.pol_player.specs.Telling.{IsCounted, last_line, next_count};

    /// Nothing was played.
    pub fn new(alloc: Global) -> Self
        ensures examples { result.examples ≡ 0 }
        ensures differing { result.differing ≡ 0 }
    {
        Played {
            examples: 0,
            differing: 0,
            text: String::new(alloc),
            disks: None,
        }
    }

    /// The exit status: 0 where all examples agree, and 1 where some differ.
    pub fn status(&self) -> u8
        ensures { result ≡ (if self.now.differing == 0 then 0 else 1) }
    {
        if self.differing == 0 { 0 } else { 1 }
    }

    /// What is told at last.
    pub fn last_line(&self, alloc: Global) -> Result<String, AllocError>
        ensures { IfOk result (λ line. string_bytes line ≡ last_line self.now) }
    {
        let (examples, differing) = (self.examples, self.differing);
        if differing == 0 {
            return format!(in alloc; "{examples} examples agree");
        }
        format!(in alloc; "{differing} of {examples} examples differ")
    }

    /// Plays the examples of a text, which stands in a file of this name; gives whether each line could be read, and
    /// tells the first that couldn't.
    pub fn play_text<R: AllocGlobal>(
        &mut self,
        rt: &R,
        name: &str,
        text: &str,
        reader: &mut Reader,
    ) -> Result<bool, AllocError> {
        let Err(unread) = self.play_lines(rt, name, text, reader) else {
            return Ok(true);
        };
        let (line, why) = (unread.line, unread.why);
        let told = format!(in rt.alloc(); "{name}:{line}: {why}\n")?;
        self.text.push_str(told.as_str())?;
        Ok(false)
    }

    /// Plays the examples of a text as far as its lines can be read.
    fn play_lines<R: AllocGlobal>(
        &mut self,
        rt: &R,
        name: &str,
        text: &str,
        reader: &mut Reader,
    ) -> Result<(), UnreadLine> {
        for line in text.split('\n') {
            if let Err(why) = self.play_line(rt, name, line, reader) {
                let line = reader.line();
                return Err(UnreadLine { line, why });
            }
        }
        let line = reader.line();
        let last = self.play_last(rt, name, reader);
        self.disks = None;
        match last {
            Ok(()) => Ok(()),
            Err(why) => Err(UnreadLine { line, why }),
        }
    }

    /// Reads a line, and plays the example that ends before it.
    fn play_line<R: AllocGlobal>(
        &mut self,
        rt: &R,
        name: &str,
        line: &str,
        reader: &mut Reader,
    ) -> Result<(), Unread> {
        match reader.read(rt.alloc(), line)? {
            Some(example) => self.play_example(rt, name, &example),
            None => Ok(()),
        }
    }

    /// Plays the last example of a file.
    fn play_last<R: AllocGlobal>(
        &mut self,
        rt: &R,
        name: &str,
        reader: &mut Reader,
    ) -> Result<(), Unread> {
        match reader.end(rt.alloc())? {
            Some(example) => self.play_example(rt, name, &example),
            None => Ok(()),
        }
    }

    /// Plays an example.
    fn play_example<R: AllocGlobal>(
        &mut self,
        rt: &R,
        name: &str,
        example: &Example,
    ) -> Result<(), Unread>
        ensures { OnOk result (IsCounted example.now self.old self.new) }
    {
        match play(rt, example, &mut self.disks)? {
            Some(difference) => {
                let title = example.title.as_str();
                self.count_differing(rt.alloc(), name, title, &difference)?;
            }
            None => self.count_agreeing(),
        }
        Ok(())
    }

    /// Counts an example that agrees.
    fn count_agreeing(&mut self)
        ensures examples { self.new.examples ≡ next_count self.old.examples }
        ensures differing { self.new.differing ≡ self.old.differing }
        ensures disks { self.new.disks ≡ self.old.disks }
    {
        self.examples = self.examples.saturating_add(1);
    }

    /// Counts an example that differs, and tells how.
    fn count_differing(
        &mut self,
        alloc: Global,
        name: &str,
        title: &str,
        difference: &Difference,
    ) -> Result<(), OutOfMemory>
        ensures examples { OnOk result (self.new.examples ≡ next_count self.old.examples) }
        ensures differing { OnOk result (self.new.differing ≡ next_count self.old.differing) }
        ensures disks { OnOk result (self.new.disks ≡ self.old.disks) }
    {
        let (line, what) = (difference.line, difference.what.as_str());
        let (wanted, got) = (difference.wanted.as_str(), difference.got.as_str());
        let text = format!(in alloc;
            "{name}:{line}: {title}\n  {what}\n  wanted: {wanted}\n  got:    {got}\n"
        )?;
        self.text.push_str(text.as_str())?;
        self.examples = self.examples.saturating_add(1);
        self.differing = self.differing.saturating_add(1);
        Ok(())
    }
}
