//! Whether the state after changes is sound.
ghost use Rattle.std.specs.Prelude.{Decides, IfOk};
ghost use Rattle.std.specs.List.{AllByRecursion};
ghost use Rattle.pol_sound_content.specs.Valid.{HasValidParts};
ghost use Rattle.pol_soundness.specs.Base.{rows_after, PutsValid};
ghost use Rattle.pol_state.specs.Sound.{IsSound};

use crate::after::After;
use pol_content::Change;
use pol_state::State;
use pol_types::OutOfMemory;
use std::alloc::Global;

/// Whether the state after these changes is sound: all that holds of a sound state is judged anew, on a copy of the
/// rows on which the changes were made. The metadata of the state and of the changes are valid, as those that were
/// read are. It takes memory for a copy of the rows and of the changes. It goes over all rows, and over each two
/// tables.
pub fn sound_after(alloc: Global, state: &State, changes: &[Change]) -> Result<bool, OutOfMemory>
    requires state { HasValidParts state.now.rows.content }
    requires changes { AllByRecursion PutsValid changes.now }
    ensures { IfOk result (λ sound. Decides sound (IsSound (rows_after changes.now state.now.rows))) }
{
    let after = After::of(state, changes)?;
    let sound = after.is_sound(alloc);
    // By hand, since the check of what the end of the scope drops comes to no end.
    drop(after);
    sound
}
