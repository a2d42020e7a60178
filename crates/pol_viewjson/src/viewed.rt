ghost use Rattle.std.specs.Prelude.{◌≡◌, IfOk};

use pol_types::{Listed, OutOfMemory};
use std::alloc::Global;
use std::marker::Model;

/// A part of a view that is read of JSON, which contracts see as that part.
#[derive(Drop)]
pub(crate) struct Viewed<T> {
    value: T,
}

impl<T> Model for Viewed<T> {
    ghost Value = { T };

    ghost view = { λ viewed. viewed.value };
}

impl<T> Viewed<T> {
    pub fn new(value: T) -> Self
        ensures { result ≡ value }
    {
        Viewed { value }
    }

    pub fn into_value(self) -> T
        ensures { result ≡ self }
    {
        self.value
    }
}

/// The parts that are read of the members of a list.
pub(crate) fn parts<T: Drop>(
    alloc: Global,
    viewed: Listed<Viewed<T>>,
) -> Result<Listed<T>, OutOfMemory>
    ensures { IfOk result (λ parts. parts ≡ viewed) }
{
    let viewed: Vec<Viewed<T>> = viewed.into();
    let mut parts = Vec::with_capacity(alloc, viewed.len())?;
    for one in viewed {
        parts.push(one.into_value())?;
    }
    Ok(Listed::from(parts))
}
