ghost use Rattle.std.specs.Prelude.{◌≡◌, ◌<◌, ◌≤◌, ◌-◌, ◌^◌, ℕ, List, Some, IfOk, IsErr, IsTrue, min, length};
ghost use Rattle.std.specs.Io.{WritesAtMost};
ghost use Rattle.std.specs.Io.KnownBytes.{WriteAppends};
ghost use Rattle.pol_wire.specs.Calls.{is_listed};
ghost use Rattle.pol_wire.specs.Faults.{CountsFaults};
ghost use Rattle.pol_wire.specs.MemorySink.{first_sink, sink_after};

use crate::calls::Calls;
use crate::{Failed, Sink};
use std::marker::Model;

/// A sink of bytes in memory, which keeps all that it takes. The calls whose numbers are listed
/// fail, and so does a call for which no memory is left.
#[derive(Drop)]
pub struct MemorySink {
    bytes: Vec<u8>,
    most: usize,
    calls: Calls,
}

impl Model for MemorySink {
    ghost use Rattle.std.specs.Prelude.{◌<◌};
    ghost use Rattle.pol_wire.specs.MemorySink.{SinkState};

    ghost Value = { SinkState };

    ghost view = { λ s. record { bytes = s.bytes.items; most = s.most; calls = s.calls } };

    ghost invariant = { λ s. 0 < s.most };
}

impl MemorySink {
    /// A sink that takes at most `most` bytes a call and puts them after `bytes`. The calls whose
    /// numbers are in `failing`, counted from 1, are to fail.
    pub fn new(bytes: Vec<u8>, most: usize, failing: Vec<u64>) -> Self
        requires { 0 < most }
        ensures { result ≡ first_sink bytes.items most failing.items }
    {
        MemorySink {
            bytes,
            most,
            calls: Calls::new(failing),
        }
    }

    /// The bytes that it has.
    pub fn bytes(&self) -> &[u8]
        ensures { result.now ≡ self.now.bytes }
    {
        &self.bytes
    }

    /// The count of faults.
    pub fn faults(&self) -> u64
        ensures { result ≡ self.now.calls.faults }
    {
        self.calls.faults()
    }
}

impl Sink for MemorySink {
    ghost given = { λ s. Some s.bytes };

    ghost faults = { λ s. s.calls.faults };

    fn give(&mut self, piece: &[u8]) -> Result<usize, Failed>
        ensures bound { WritesAtMost result piece.now }
        ensures progress { IfOk result (λ count. 0 < length piece.now → 0 < count) }
        ensures bytes { WriteAppends (Some self.old.bytes) (Some self.new.bytes) result piece.now }
        ensures count { CountsFaults self.old.calls.faults self.new.calls.faults result }

        // A call that isn't listed fails for want of memory alone.
        ensures listed { IsTrue (is_listed self.old.calls) → IsErr result }
        ensures taken { IfOk result (λ count. count ≡ min (length piece.now) self.old.most) }
        ensures after { self.new ≡ sink_after self.old piece.now result }
    {
        self.calls.begin()?;
        let count = piece.len().min(self.most);
        let Ok(()) = self.bytes.extend_from_slice(&piece[..count]) else {
            return Err(self.calls.fail());
        };
        Ok(count)
    }
}
