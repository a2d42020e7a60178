ghost use Rattle.std.specs.Prelude.{◌≡◌};

use std::marker::Model;

/// A value that is read of JSON, which contracts see as that value. Types of other crates have their forms by it.
#[derive(Drop)]
pub(crate) struct Held<T> {
    value: T,
}

impl<T> Model for Held<T> {
    ghost Value = { T };

    ghost view = { λ held. held.value };
}

impl<T> Held<T> {
    pub(crate) fn new(value: T) -> Self
        ensures { result ≡ value }
    {
        Held { value }
    }

    pub(crate) fn into_value(self) -> T
        ensures { result ≡ self }
    {
        self.value
    }
}
