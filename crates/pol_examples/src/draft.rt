//! Examples while their lines are read.
ghost use Rattle.std.specs.Prelude.{◌≡◌, IfOk};
ghost use Rattle.pol_examples.specs.Draft.{IsWhole};

use crate::example::{End, Example, Opening};
use crate::files::Holds;
use crate::numbers::number_of;
use crate::settings::Settings;
use crate::turns::Turns;
use pol_types::Text;
use pol_values::{Unread, Value};
use std::alloc::{AllocError, Global};

/// An example or an opening whose lines are being read.
#[derive(Drop)]
pub(crate) struct Draft {
    is_opening: bool,
    /// Whether a run stands above it in its file.
    is_behind_run: bool,
    /// The title, or the name of the opening.
    title: Text,
    line: usize,
    stage: Stage,
    settings: Settings,
    turns: Turns,
    end: End,
    holds: Holds,
    values: Vec<Value>,
}

/// What was read.
#[derive(Clone, Copy, PartialEq, Eq)]
enum Stage {
    Nothing,
    Settings,
    Turns,
    Values,
}

/// What came of the lines.
#[derive(Drop)]
pub(crate) enum Whole {
    Example(Example),
    Opening(Opening),
}

impl Draft {
    /// An example of this title, or an opening of this name, at this line.
    pub(crate) fn new(
        alloc: Global,
        title: &str,
        line: usize,
        is_opening: bool,
        is_behind_run: bool,
    ) -> Result<Self, AllocError>
        ensures kind { IfOk result (λ draft. draft.is_opening ≡ is_opening) }
        ensures title { IfOk result (λ draft. draft.title ≡ title.now) }
        ensures line { IfOk result (λ draft. draft.line ≡ line) }
    {
        let status = 0;
        let reason = Text::from(String::from_str(alloc, "done")?);
        Ok(Draft {
            is_opening,
            is_behind_run,
            title: Text::from(String::from_str(alloc, title)?),
            line,
            stage: Stage::Nothing,
            settings: Settings::usual(alloc)?,
            turns: Turns::new(alloc),
            end: End {
                line,
                status,
                reason,
            },
            holds: Holds::unsaid(),
            values: Vec::new(alloc),
        })
    }

    /// The example or the opening, whose lines are all read.
    pub(crate) fn finish(self, alloc: Global) -> Result<Whole, AllocError>
        ensures { IfOk result (IsWhole self) }
    {
        let Draft {
            is_opening,
            is_behind_run: _,
            title,
            line,
            stage: _,
            settings,
            turns,
            end,
            holds,
            values,
        } = self;
        let script = turns.finish(alloc)?;
        if is_opening {
            let (catalogue, objects) = settings.starts();
            return Ok(Whole::Opening(Opening {
                name: title,
                script,
                catalogue,
                objects,
            }));
        }
        Ok(Whole::Example(Example {
            title,
            line,
            settings,
            script,
            end,
            holds,
            values,
        }))
    }

    /// Reads a line, which has this number.
    pub(crate) fn read(
        &mut self,
        alloc: Global,
        text: &str,
        line: usize,
        openings: &[Opening],
    ) -> Result<(), Unread> {
        if is_remark(text) {
            return Ok(());
        }
        if let Some(rest) = text.strip_prefix('<') {
            self.begin_turn()?;
            return self.turns.read_answer(alloc, rest, line);
        }
        if let Some(rest) = text.strip_prefix('>') {
            self.begin_turn()?;
            return self.turns.read_request(alloc, rest);
        }
        match text.split_once(' ') {
            Some((word, rest)) => self.read_word(alloc, word, rest, line, openings),
            None => self.read_word(alloc, text, "", line, openings),
        }
    }

    /// Reads a line that begins with this word.
    fn read_word(
        &mut self,
        alloc: Global,
        word: &str,
        rest: &str,
        line: usize,
        openings: &[Opening],
    ) -> Result<(), Unread> {
        if let Some(name) = word.strip_suffix('>') {
            self.begin_turn()?;
            return self.turns.read_named(alloc, name, rest);
        }
        match word {
            "begin" => self.read_begin(rest, openings),
            "token" => {
                self.begin_turn()?;
                self.turns.read_token(alloc, rest)
            }
            "ends" => self.read_end(alloc, rest, line),
            "holds" => self.read_holds(alloc, rest, line),
            "file" => self.read_file(alloc, rest),
            "files" => self.read_files(alloc, rest),
            "line" | "clock" | "words" | "fail" | "pieces" => self.read_setting(alloc, word, rest),
            _ => self.read_value(alloc, word, rest, line),
        }
    }

    /// A line of a turn may stand here.
    fn begin_turn(&mut self) -> Result<(), Unread> {
        if self.stage == Stage::Values {
            return Err(Unread::Place);
        }
        self.stage = Stage::Turns;
        Ok(())
    }

    /// A setting may stand here.
    fn begin_setting(&mut self) -> Result<(), Unread> {
        if self.stage == Stage::Turns || self.stage == Stage::Values {
            return Err(Unread::Place);
        }
        self.stage = Stage::Settings;
        Ok(())
    }

    /// Reads the name of an opening, whose turns come first.
    fn read_begin(&mut self, name: &str, openings: &[Opening]) -> Result<(), Unread> {
        self.begin_setting()?;
        for opening in openings.iter().rev() {
            if opening.name.as_str() == name {
                self.turns.script.append(&opening.script)?;
                self.settings.catalogue.begin(&opening.catalogue)?;
                return self.settings.objects.begin(&opening.objects);
            }
        }
        Err(Unread::Unknown)
    }

    /// Reads a setting.
    fn read_setting(&mut self, alloc: Global, word: &str, rest: &str) -> Result<(), Unread> {
        if self.is_opening {
            return Err(Unread::Place);
        }
        self.begin_setting()?;
        self.settings.read(alloc, word, rest)
    }

    /// Reads what a disk holds at the start, which an opening may say too.
    fn read_file(&mut self, alloc: Global, rest: &str) -> Result<(), Unread> {
        self.begin_setting()?;
        self.settings.read(alloc, "file", rest)
    }

    /// Reads how the run above left both disks.
    fn read_files(&mut self, alloc: Global, rest: &str) -> Result<(), Unread> {
        if !self.is_behind_run {
            return Err(Unread::Place);
        }
        self.read_setting(alloc, "files", rest)
    }

    /// Reads what a disk is to hold at the end of the run.
    fn read_holds(&mut self, alloc: Global, rest: &str, line: usize) -> Result<(), Unread> {
        if self.is_opening {
            return Err(Unread::Place);
        }
        self.begin_turn()?;
        self.holds.read(alloc, rest, line)
    }

    /// Reads the status and the reason of the run.
    fn read_end(&mut self, alloc: Global, rest: &str, line: usize) -> Result<(), Unread> {
        if self.is_opening {
            return Err(Unread::Place);
        }
        self.begin_turn()?;
        let Some((status, reason)) = rest.split_once(' ') else {
            return Err(Unread::Form);
        };
        let Ok(status) = u8::try_from(number_of(status)?) else {
            return Err(Unread::Number);
        };
        let reason = Text::from(String::from_str(alloc, reason)?);
        self.end = End {
            line,
            status,
            reason,
        };
        Ok(())
    }

    /// Reads a line that asks for a value.
    fn read_value(
        &mut self,
        alloc: Global,
        word: &str,
        rest: &str,
        line: usize,
    ) -> Result<(), Unread> {
        if self.is_opening || self.stage == Stage::Settings || self.stage == Stage::Turns {
            return Err(Unread::Place);
        }
        self.stage = Stage::Values;
        self.values.push(Value::read(alloc, word, rest, line)?)?;
        Ok(())
    }
}

/// Whether a line says nothing.
pub(crate) fn is_remark(text: &str) -> bool {
    text.is_empty() || text.starts_with('#')
}
