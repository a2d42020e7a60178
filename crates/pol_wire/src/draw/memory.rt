ghost use Rattle.std.specs.Prelude.{◌≡◌, ℕ, Some};
ghost use Rattle.std.specs.Result.{result_ok};
ghost use Rattle.pol_wire.specs.Faults.{CountsFaults};
ghost use Rattle.pol_wire.specs.MemoryDraw.{first_draw, next_word, words_left, draw_after};
ghost use Rattle.pol_wire.specs.Streams.{GivesNext};

use crate::calls::Calls;
use crate::{Draw, Failed};
use std::marker::Model;

/// A draw whose words are listed. The calls whose numbers are listed fail, and so does each call
/// after the last word.
#[derive(Drop)]
pub struct MemoryDraw {
    words: Vec<u64>,
    drawn: usize,
    calls: Calls,
}

impl Model for MemoryDraw {
    ghost use Rattle.pol_wire.specs.MemoryDraw.{DrawState};

    ghost Value = { DrawState };

    ghost view = { λ d. record { words = d.words.items; drawn = d.drawn; calls = d.calls } };
}

impl MemoryDraw {
    /// A draw of these words, one a call. The calls whose numbers are in `failing`, counted from
    /// 1, are to fail.
    pub fn new(words: Vec<u64>, failing: Vec<u64>) -> Self
        ensures { result ≡ first_draw words.items failing.items }
    {
        MemoryDraw {
            words,
            drawn: 0,
            calls: Calls::new(failing),
        }
    }

    /// The count of faults.
    pub fn faults(&self) -> u64
        ensures { result ≡ self.now.calls.faults }
    {
        self.calls.faults()
    }
}

impl Draw for MemoryDraw {
    ghost words = { λ d. Some (words_left d) };

    ghost faults = { λ d. d.calls.faults };

    fn word(&mut self) -> Result<u64, Failed>
        ensures word { GivesNext (Some (words_left self.old)) (Some (words_left self.new)) result }
        ensures count { CountsFaults self.old.calls.faults self.new.calls.faults result }

        ensures answer { result_ok result ≡ next_word self.old }
        ensures after { self.new ≡ draw_after self.old result }
    {
        self.calls.begin()?;
        let Some(word) = self.words.get(self.drawn).copied() else {
            return Err(self.calls.fail());
        };
        self.drawn += 1;
        Ok(word)
    }
}
