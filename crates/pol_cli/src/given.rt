//! The words that the system gave the program.
ghost use Rattle.std.specs.Prelude.{◌≡◌, ◌⊎◌, Ok, Err, IfOk, IfErr};
ghost use Rattle.std.specs.IoError.{error_kind};
ghost use Rattle.std.specs.Vec.Iter.{into_iter_items};
ghost use Rattle.pol_cli.specs.Given.{why_not_given, words_behind};

use crate::reason::Reason;
use pol_types::{Listed, Text};
use pol_words::Words;
use std::alloc::Global;
use std::env::Args;
use std::io;

/// The words behind the program's name, of a line that the system gave: all of them in order, also one without a byte.
///
/// Where the system gave no line, memory was wanting, or a word isn't UTF-8 and the line is faulty.
pub fn words_given(alloc: Global, given: io::Result<Args>) -> Result<Words, Reason>
    ensures words { IfOk given (λ line. (result ≡ Ok (record { list = words_behind (into_iter_items line) }))
        ⊎ (result ≡ Err Reason.NoMemory)) }
    ensures none { IfErr given (λ error. result ≡ Err (why_not_given (error_kind error))) }
{
    match given {
        Ok(line) => match line
            .skip(1)
            .map(|word| Text::from(word))
            .collect::<Vec<Text>>(alloc)
        {
            Ok(words) => Ok(Words {
                list: Listed::from(words),
            }),
            Err(_) => Err(Reason::NoMemory),
        },
        Err(error) if error.kind() == io::ErrorKind::OutOfMemory => Err(Reason::NoMemory),
        Err(_) => Err(Reason::Usage),
    }
}
