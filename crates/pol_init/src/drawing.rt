//! The random words of drawn secrets.
ghost use Rattle.std.specs.Prelude.{◌≡◌, IfErr, IfOk, OnOk};
ghost use Rattle.pol_init.specs.Drawing.{DrawsAll, IsUndrawn};

use pol_types::OutOfMemory;
use pol_wire::{Draw, Failed};
use std::alloc::Global;

/// Why words weren't drawn.
#[derive(Clone, Copy, PartialEq, Eq)]
pub(crate) enum Undrawn {
    /// The draw failed.
    DrawFault,
    OutOfMemory,
}

/// Draws so many words. Their room is made first, so that where memory is wanting none is drawn.
pub(crate) fn draw_words<W: Draw>(
    alloc: Global,
    draw: &mut W,
    count: u64,
) -> Result<Vec<u64>, Undrawn>
    ensures drawn { IfOk result (λ words. DrawsAll (W.words draw.old) (W.words draw.new) count words.items) }
    ensures same { OnOk result (W.faults draw.new ≡ W.faults draw.old) }
    ensures refused { IfErr result (IsUndrawn (W.words draw.old) (W.words draw.new)
        (W.faults draw.old) (W.faults draw.new) count) }
{
    let Ok(mut words) = Vec::with_capacity(alloc, count as usize) else {
        return Err(Undrawn::OutOfMemory);
    };
    for _ in 0..count {
        let Ok(word) = draw.word() else {
            drop(words);
            return Err(Undrawn::DrawFault);
        };
        words.push_reserved(word);
    }
    Ok(words)
}
