ghost use Rattle.std.specs.Prelude.{◌≡◌, IfOk};

use pol_types::{Listed, OutOfMemory};
use std::alloc::Global;
use std::marker::Model;

/// A part of a metadata that is read with all that is stored of it, as its ids, which contracts see as that part.
#[derive(Drop)]
pub struct Stored<T> {
    value: T,
}

impl<T> Model for Stored<T> {
    ghost Value = { T };

    ghost view = { λ b. b.value };
}

impl<T> Stored<T> {
    pub(crate) fn new(value: T) -> Self
        ensures { result ≡ value }
    {
        Stored { value }
    }

    pub fn into_value(self) -> T
        ensures { result ≡ self }
    {
        self.value
    }
}

/// The parts that are read of the members of a list.
pub fn parts<T: Drop>(alloc: Global, stored: Listed<Stored<T>>) -> Result<Listed<T>, OutOfMemory>
    ensures { IfOk result (λ parts. parts ≡ stored) }
{
    let stored: Vec<Stored<T>> = stored.into();
    let mut parts = Vec::with_capacity(alloc, stored.len())?;
    for one in stored {
        parts.push(one.into_value())?;
    }
    Ok(Listed::from(parts))
}
