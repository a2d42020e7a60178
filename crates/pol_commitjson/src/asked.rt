ghost use Rattle.std.specs.Prelude.{◌≡◌, IfOk};

use pol_types::{Listed, OutOfMemory};
use std::alloc::Global;
use std::marker::Model;

/// A part of a commit that is read of JSON, which contracts see as that part.
#[derive(Drop)]
pub struct Asked<T> {
    value: T,
}

impl<T> Model for Asked<T> {
    ghost Value = { T };

    ghost view = { λ asked. asked.value };
}

impl<T> Asked<T> {
    pub(crate) fn new(value: T) -> Self
        ensures { result ≡ value }
    {
        Asked { value }
    }

    pub fn into_value(self) -> T
        ensures { result ≡ self }
    {
        self.value
    }
}

/// The parts that are read of the members of a list.
pub(crate) fn parts<T: Drop>(
    alloc: Global,
    asked: Listed<Asked<T>>,
) -> Result<Listed<T>, OutOfMemory>
    ensures { IfOk result (λ parts. parts ≡ asked) }
{
    let asked: Vec<Asked<T>> = asked.into();
    let mut parts = Vec::with_capacity(alloc, asked.len())?;
    for one in asked {
        parts.push(one.into_value())?;
    }
    Ok(Listed::from(parts))
}
