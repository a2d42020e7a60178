ghost use Rattle.serde_json.specs.View.{view};
ghost use Rattle.pol_readers.specs.Forms as spec;
ghost use Rattle.pol_readers.specs.Reading.{Gives};

use crate::error::ReadError;
use serde_json::Value;
use std::alloc::Global;

/// A type whose values are named by fixed words. Its form is `one_of`, by which its `Form::read` reads it.
pub trait Word: Drop {
    ghost use Rattle.std.specs.Prelude.{◌≡◌, ℕ, List};

    /// The words, each beside its meaning. Where a word stands twice, the first row counts.
    ghost words: { List (List ℕ × Self) };

    /// What the word means, byte for byte; `None` where no row has it.
    fn of_word(word: &str) -> Option<Self>
        ensures { result ≡ spec.meaning words word.now };
}

/// Reads one of the words; else the value itself is bad.
#[tactic(auto, unfolding(crate::specs::Forms::one_of, crate::specs::Forms::text))]
pub fn one_of<W: Word>(alloc: Global, value: &Value) -> Result<W, ReadError>
    ensures { Gives result (spec.one_of W.words (view value.now)) }
{
    match value.as_str().and_then(|word| W::of_word(word)) {
        Some(word) => Ok(word),
        None => Err(ReadError::here(alloc)),
    }
}
