ghost use Rattle.std.specs.Prelude.{◌≡◌, ◌↔◌, ◌≤◌, IfOk, IsTrue, [], drop, length};
ghost use Rattle.std.specs.Arc.{arc_value};

use pol_types::{Bytes, OutOfMemory};
use std::alloc::{AllocError, Global};
use std::marker::Model;
use std::sync::Arc;

/// Bytes that have several owners, in any threads: a copy is one owner more, and copies no byte. They may be the last
/// ones of what the owners have. Contracts see the list of the bytes.
#[derive(Drop)]
pub struct SharedBytes {
    bytes: Arc<Bytes, Global>,
    start: usize,
}

impl Model for SharedBytes {
    ghost use Rattle.std.specs.Prelude.{◌≤◌, List, ℕ, drop, length};
    ghost use Rattle.std.specs.Arc.{arc_value};

    ghost Value = { List ℕ };

    ghost view = { λ shared. drop shared.start (arc_value shared.bytes) };

    ghost invariant = { λ shared. shared.start ≤ length (arc_value shared.bytes) };
}

impl SharedBytes {
    /// The first owner of the bytes.
    pub fn new(alloc: Global, bytes: Bytes) -> Result<Self, OutOfMemory>
        ensures { IfOk result (λ shared. shared ≡ bytes) }
    {
        Ok(SharedBytes {
            bytes: Arc::new(alloc, bytes)?,
            start: 0,
        })
    }

    /// One owner more of bytes that others have, seen from a place on.
    pub fn behind(bytes: &Arc<Bytes, Global>, start: usize) -> Result<Self, OutOfMemory>
        requires { start ≤ length (arc_value bytes.now) }
        ensures { IfOk result (λ shared. shared ≡ drop start (arc_value bytes.now)) }
    {
        Ok(SharedBytes {
            bytes: Arc::try_clone(bytes)?,
            start,
        })
    }

    pub fn as_slice(&self) -> &[u8]
        ensures { result.now ≡ self.now }
    {
        let bytes = &*self.bytes;
        &bytes.as_slice()[self.start..]
    }

    pub fn len(&self) -> usize
        ensures { result ≡ length self.now }
    {
        self.as_slice().len()
    }

    pub fn is_empty(&self) -> bool
        ensures { IsTrue result ↔ (self.now ≡ []) }
    {
        self.as_slice().is_empty()
    }
}

impl Clone for SharedBytes {
    ghost is_clone = { λ source clone. clone ≡ source };

    fn clone(&self) -> Result<Self, AllocError> {
        Ok(SharedBytes {
            bytes: Arc::try_clone(&self.bytes)?,
            start: self.start,
        })
    }
}
