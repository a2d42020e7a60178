//! A plain program that cuts a whole input into its messages. Later readers are compared with it.
ghost use Rattle.std.specs.Prelude.{◌≡◌, List, map, sum, drop, length, IfOk};
ghost use Rattle.pol_http.specs.Message.{Message, Messages, print_message};

use crate::next::{Next, next_message};
use pol_types::OutOfMemory;
use std::alloc::Global;

/// The lengths of the messages that the bytes begin with, one after the other. What follows them
/// begins with no message.
pub fn cut_messages(alloc: Global, bytes: &[u8]) -> Result<Vec<usize>, OutOfMemory>
    ensures { IfOk result (λ lengths. (messages : List Message)
        × Messages bytes.now messages (drop (sum lengths.items) bytes.now)
        × (lengths.items ≡ map (λ message. length (print_message message)) messages)) }
{
    let mut lengths = Vec::new(alloc);
    let mut rest = bytes;
    'messages: while let Next::Whole { taken, .. } = next_message(rest) {
        lengths.push(taken)?;
        rest = &rest[taken..];
    }
    Ok(lengths)
}
