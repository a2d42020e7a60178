//! The lines of files, and the examples that they tell.
ghost use Rattle.std.specs.Prelude.{◌≡◌, ◌+◌, ◌-◌, ◌^◌, OnErr, OnOk, min};

use crate::draft::{Draft, Whole, is_remark};
use crate::example::{Example, Opening};
use pol_values::Unread;
use std::alloc::Global;
use std::marker::Model;

/// Reads files line by line. The openings of the first file serve all, and those of another one that file alone.
/// Contracts see the number of the line that was read last.
#[derive(Drop)]
pub struct Reader {
    openings: Vec<Opening>,
    /// How many of the openings are those of the first file, once it is read.
    shared: Option<usize>,
    draft: Option<Draft>,
    line: usize,
    /// Whether an example that is a run was read of this file.
    has_run: bool,
}

impl Model for Reader {
    ghost use Rattle.std.specs.Prelude.{ℕ};

    ghost Value = { ℕ };

    ghost view = { λ reader. reader.line };
}

impl Reader {
    /// No file was read.
    pub fn new(alloc: Global) -> Self
        ensures { result ≡ 0 }
    {
        Reader {
            openings: Vec::new(alloc),
            shared: None,
            draft: None,
            line: 0,
            has_run: false,
        }
    }

    /// The number of the line that was read last, counted from 1.
    pub fn line(&self) -> usize
        ensures { result ≡ self.now }
    {
        self.line
    }

    /// Reads the next line of a file, and gives the example that ends before it.
    pub fn read(&mut self, alloc: Global, text: &str) -> Result<Option<Example>, Unread>
        ensures { self.new ≡ min (self.old + 1) (2 ^ 64 - 1) }
    {
        self.line = self.line.saturating_add(1);
        if let Some(title) = text.strip_prefix("== ") {
            return self.begin(alloc, title, false);
        }
        if let Some(name) = text.strip_prefix("opening ") {
            return self.begin(alloc, name, true);
        }
        match &mut self.draft {
            Some(draft) => draft.read(alloc, text, self.line, self.openings.as_slice())?,
            None if is_remark(text) => {}
            None => return Err(Unread::Place),
        }
        Ok(None)
    }

    /// The file has no more lines; gives its last example.
    pub fn end(&mut self, alloc: Global) -> Result<Option<Example>, Unread>
        ensures ended { OnOk result (self.new ≡ 0) }
        ensures left { OnErr result (self.new ≡ self.old) }
    {
        let example = self.finish(alloc)?;
        let shared = match self.shared {
            Some(shared) => shared,
            None => self.openings.len(),
        };
        self.openings.truncate(shared);
        self.shared = Some(shared);
        self.line = 0;
        self.has_run = false;
        Ok(example)
    }

    /// Begins an example or an opening, and gives the example before it.
    fn begin(
        &mut self,
        alloc: Global,
        title: &str,
        is_opening: bool,
    ) -> Result<Option<Example>, Unread>
        ensures { self.new ≡ self.old }
    {
        let example = self.finish(alloc)?;
        let draft = Draft::new(alloc, title, self.line, is_opening, self.has_run)?;
        self.draft = Some(draft);
        Ok(example)
    }

    /// The lines of the example are all read. Where they are those of an opening, it is kept.
    fn finish(&mut self, alloc: Global) -> Result<Option<Example>, Unread>
        ensures { self.new ≡ self.old }
    {
        let Some(draft) = self.draft.take() else {
            return Ok(None);
        };
        match draft.finish(alloc)? {
            Whole::Example(example) => {
                self.has_run = self.has_run || example.values.is_empty();
                Ok(Some(example))
            }
            Whole::Opening(opening) => {
                self.openings.push(opening)?;
                Ok(None)
            }
        }
    }
}
