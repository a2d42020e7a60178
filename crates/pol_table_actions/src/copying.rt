//! Copies of what tables and views are made of.
ghost use Rattle.std.specs.Prelude.{◌≡◌, IfOk};

use pol_types::{Exact, OutOfMemory, both};

/// An equal value.
pub fn copied<T: Exact>(value: &T) -> Result<T, OutOfMemory>
    ensures { IfOk result (λ copy. copy ≡ value.now) }
{
    Ok(value.clone()?)
}

/// Two equal values.
pub fn copies<A: Exact + Drop, B: Exact + Drop>(
    first: &A,
    second: &B,
) -> Result<(A, B), OutOfMemory>
    ensures first { IfOk result (λ both. both.0 ≡ first.now) }
    ensures second { IfOk result (λ both. both.1 ≡ second.now) }
{
    both(copied(first), copied(second))
}
