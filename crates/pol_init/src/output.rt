//! What `init` writes.
ghost use Rattle.std.specs.Prelude.{◌≡◌, IfOk};
ghost use Rattle.pol_init.specs.Output.{output_text};

use pol_types::{OutOfMemory, Text};
use std::alloc::Global;

/// The lines of the drawn secrets, and then the line that tells how many commands were done.
pub fn output_of(alloc: Global, lines: &Text, count: u64) -> Result<Vec<u8>, OutOfMemory>
    ensures { IfOk result (λ output. output.items ≡ output_text lines.now count) }
{
    let output = format!(in alloc; "{lines}init {count}\n")?;
    Ok(output.into_bytes())
}
