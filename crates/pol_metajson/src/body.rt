ghost use Rattle.std.specs.Prelude.{◌≡◌, IfOk};

use pol_types::{Listed, OutOfMemory};
use std::alloc::Global;
use std::marker::Model;

/// A value that is read of JSON, which contracts see as that value.
#[derive(Drop)]
pub struct Body<T> {
    value: T,
}

impl<T> Model for Body<T> {
    ghost Value = { T };

    ghost view = { λ b. b.value };
}

impl<T> Body<T> {
    pub(crate) fn new(value: T) -> Self
        ensures { result ≡ value }
    {
        Body { value }
    }

    pub fn into_value(self) -> T
        ensures { result ≡ self }
    {
        self.value
    }
}

/// The values that are read of the members of a list.
pub fn values<T: Drop>(alloc: Global, bodies: Listed<Body<T>>) -> Result<Listed<T>, OutOfMemory>
    ensures { IfOk result (λ values. values ≡ bodies) }
{
    let bodies: Vec<Body<T>> = bodies.into();
    let mut values = Vec::with_capacity(alloc, bodies.len())?;
    for body in bodies {
        values.push(body.into_value())?;
    }
    Ok(Listed::from(values))
}
