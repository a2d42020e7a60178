ghost use Rattle.std.specs.Prelude.{◌≡◌, IfOk, Ok, Some, codes};

use std::alloc::{AllocError, AllocFailed};
use std::error::Error;
use std::fmt;

/// Want of memory: an allocation was refused. It is the one answer that no contract ties to a cause.
#[derive(Clone, Copy, Debug, PartialEq, Eq)]
pub struct OutOfMemory;

impl fmt::Display for OutOfMemory {
    ghost output = { λ _. Some (codes "out of memory") };

    fn fmt<W: fmt::Write>(&self, f: &mut fmt::Formatter<W>) -> fmt::Result {
        f.write_str("out of memory")
    }
}

impl Error for OutOfMemory {}

impl From<AllocError> for OutOfMemory {
    fn from(_error: AllocError) -> Self {
        OutOfMemory
    }
}

impl<T: Drop> From<AllocFailed<T>> for OutOfMemory {
    fn from(_error: AllocFailed<T>) -> Self {
        OutOfMemory
    }
}

/// Both values, where memory sufficed for each.
///
/// A caller that holds the first while it asks for the second has to take the first away on each way out; here that is
/// said once for all types.
pub fn both<A: Drop, B: Drop>(
    first: Result<A, OutOfMemory>,
    second: Result<B, OutOfMemory>,
) -> Result<(A, B), OutOfMemory>
    ensures first { IfOk result (λ both. first ≡ Ok both.0) }
    ensures second { IfOk result (λ both. second ≡ Ok both.1) }
{
    let first = first?;
    let second = second?;
    Ok((first, second))
}
