ghost use Rattle.std.specs.Prelude.{◌≡◌, ◌++◌, ◌-◌, ◌≤◌, ◌<◌, List, ℕ, Some, MatchResult, take, drop, length};
ghost use Rattle.std.specs.Result.{result_ok};
ghost use Rattle.std.specs.Io.{ReadsAtMost};
ghost use Rattle.std.specs.Io.KnownBytes.{ReadConsumes};
ghost use Rattle.pol_wire.specs.Faults.{CountsFaults};
ghost use Rattle.pol_wire.specs.MemorySource.{first_source, left_of, nearest_past, count_given, source_after};

use crate::calls::Calls;
use crate::{Failed, Source};
use std::marker::Model;

/// A source of bytes in memory. It gives them in pieces: no call goes past a place where a piece
/// ends. The calls whose numbers are listed fail.
#[derive(Drop)]
pub struct MemorySource {
    bytes: Vec<u8>,
    ends: Vec<usize>,
    taken: usize,
    calls: Calls,
}

impl Model for MemorySource {
    ghost use Rattle.std.specs.Prelude.{◌≤◌, vec_len};
    ghost use Rattle.pol_wire.specs.MemorySource.{SourceState};

    ghost Value = { SourceState };

    ghost view = { λ s. record {
      bytes = s.bytes.items;
      ends = s.ends.items;
      taken = s.taken;
      calls = s.calls;
    } };

    ghost invariant = { λ s. s.taken ≤ vec_len s.bytes };
}

impl MemorySource {
    /// A source of `bytes`, of which a piece ends after so many bytes as each of `ends` says, in
    /// any order. The calls whose numbers are in `failing`, counted from 1, are to fail.
    pub fn new(bytes: Vec<u8>, ends: Vec<usize>, failing: Vec<u64>) -> Self
        ensures { result ≡ first_source bytes.items ends.items failing.items }
    {
        MemorySource {
            bytes,
            ends,
            taken: 0,
            calls: Calls::new(failing),
        }
    }

    /// The bytes that weren't taken yet.
    pub fn left(&self) -> &[u8]
        ensures { result.now ≡ left_of self.now }
    {
        &self.bytes[self.taken..]
    }

    /// The count of faults.
    pub fn faults(&self) -> u64
        ensures { result ≡ self.now.calls.faults }
    {
        self.calls.faults()
    }
}

impl Source for MemorySource {
    ghost left = { λ s. Some (left_of s) };

    ghost faults = { λ s. s.calls.faults };

    #[tactic(auto, using(crate::proofs::MemorySourceLemmas::pieces))]
    fn take(&mut self, buf: &mut [u8]) -> Result<usize, Failed>
        ensures bound { ReadsAtMost result buf.new }
        ensures bytes { ReadConsumes
            (Some (left_of self.old)) (Some (left_of self.new)) result buf.new }
        ensures count { CountsFaults self.old.calls.faults self.new.calls.faults result }

        ensures answer { result_ok result ≡ count_given self.old (length buf.old) }
        ensures given { MatchResult result
            (λ count. buf.new ≡ take count (left_of self.old) ++ drop count buf.old)
            (λ _. buf.new ≡ buf.old) }
        ensures after { self.new ≡ source_after self.old result }
    {
        self.calls.begin()?;
        let end = nearest_past(&self.ends, self.taken, self.bytes.len());
        let count = buf.len().min(end - self.taken);
        buf[..count].copy_from_slice(&self.bytes[self.taken..self.taken + count]);
        self.taken += count;
        Ok(count)
    }
}

// The nearest of `places` past `from`, or `last` where none is nearer.
#[tactic(auto, unfolding(crate::specs::MemorySource::nearest_past))]
fn nearest_past(places: &[usize], from: usize, last: usize) -> usize
    ensures { result ≡ nearest_past places.now from last }
{
    places
        .iter()
        .filter(|place| **place > from)
        .fold(last, |nearest, place| nearest.min(*place))
}
