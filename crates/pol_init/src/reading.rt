//! The text of a declaration, as a source gives it.
ghost use Rattle.std.specs.Prelude.{◌≡◌, ◌<◌, IfErr, IfOk, OnErr, OnOk, length};
ghost use Rattle.std.specs.Io.KnownBytes.{Keeps};
ghost use Rattle.pol_init.specs.Reading.{IsUnread, TakesMore, TakesSome, TakesText, most_taken};

use pol_types::OutOfMemory;
use pol_wire::{Failed, Source};
use std::alloc::Global;

/// One byte more than the longest text has.
const MOST: usize = 1_048_577;

/// The most bytes that one call takes.
const PIECE: usize = 4096;

/// Why a text wasn't taken.
#[derive(Clone, Copy, PartialEq, Eq)]
pub(crate) enum Unread {
    /// The source failed.
    ReadFault,
    OutOfMemory,
}

/// Takes the bytes of a source to its end, or to byte 1,048,577: of a text that is too long it takes one byte more than
/// it may have.
pub(crate) fn read_text<S: Source>(alloc: Global, source: &mut S) -> Result<Vec<u8>, Unread>
    ensures text { IfOk result (λ text. TakesText (S.left source.old) (S.left source.new) text.items) }
    ensures same { OnOk result (S.faults source.new ≡ S.faults source.old) }
    ensures taken { TakesSome (S.left source.old) (S.left source.new) }
    ensures refused { IfErr result (IsUnread (S.faults source.old) (S.faults source.new)) }
{
    let mut text = Vec::new(alloc);
    while text.len() < MOST {
        match take_piece(alloc, source, &mut text) {
            Ok(0) => return Ok(text),
            Ok(_) => {}
            Err(why) => {
                drop(text);
                return Err(why);
            }
        }
    }
    Ok(text)
}

/// Takes the next bytes behind those of a text, and tells how many: none only at the end of the source.
fn take_piece<S: Source>(alloc: Global, source: &mut S, text: &mut Vec<u8>) -> Result<usize, Unread>
    requires { length text.old.items < most_taken }
    ensures taken { IfOk result (TakesMore (S.left source.old) (S.left source.new) text.old.items text.new.items) }
    ensures same { OnOk result (S.faults source.new ≡ S.faults source.old) }
    ensures kept { OnErr result (Keeps (S.left source.old) (S.left source.new)) }
    ensures refused { IfErr result (IsUnread (S.faults source.old) (S.faults source.new)) }
{
    let mut piece = Vec::new(alloc);
    let Ok(()) = piece.resize(PIECE.min(MOST - text.len()), 0) else {
        return Err(Unread::OutOfMemory);
    };
    let Ok(()) = text.reserve(piece.len()) else {
        return Err(Unread::OutOfMemory);
    };
    let Ok(count) = source.take(piece.as_mut_slice()) else {
        return Err(Unread::ReadFault);
    };
    let Ok(()) = text.extend_from_slice(&piece[..count]) else {
        unreachable!()
    };
    Ok(count)
}
