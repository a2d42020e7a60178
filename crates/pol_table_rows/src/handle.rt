ghost use Rattle.std.specs.Prelude.{◌≡◌, IfOk};
ghost use Rattle.std.specs.Arc.{arc_value};

use pol_types::{Exact, OutOfMemory};
use std::alloc::{AllocError, Global};
use std::marker::Model;
use std::sync::Arc;

/// A value that has several owners, in any threads: a copy of the handle is one owner more, and copies no value.
/// Contracts see the value.
#[derive(Drop)]
pub struct Handle<T> {
    value: Arc<T, Global>,
}

impl<T> Model for Handle<T> {
    ghost Value = { T };

    ghost view = { λ handle. arc_value handle.value };
}

impl<T> Handle<T> {
    /// The first owner of the value.
    pub fn new(alloc: Global, value: T) -> Result<Self, OutOfMemory>
    where
        T: Drop,
        ensures { IfOk result (λ handle. handle ≡ value) }
    {
        Ok(Handle {
            value: Arc::new(alloc, value)?,
        })
    }

    pub fn get(&self) -> &T
        ensures { result.now ≡ self.now }
    {
        &*self.value
    }
}

impl<T: Drop> Clone for Handle<T> {
    ghost is_clone = { λ source clone. clone ≡ source };

    fn clone(&self) -> Result<Self, AllocError> {
        Ok(Handle {
            value: Arc::try_clone(&self.value)?,
        })
    }
}

impl<T: PartialEq> PartialEq for Handle<T> {
    ghost eq = { T.eq };

    ghost laws = { T.laws };

    fn eq(&self, other: &Self) -> bool {
        *self.get() == *other.get()
    }
}

impl<T: Eq> Eq for Handle<T> {
    ghost laws = { T.Eq.laws };
}

impl<T: Exact + Drop> Exact for Handle<T> {
    ghost clones_exactly = { λ source clone same. same };

    ghost compares_exactly = { T.compares_exactly };
}
