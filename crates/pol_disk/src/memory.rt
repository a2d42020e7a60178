ghost use Rattle.std.specs.Prelude.{◌≡◌, ◌≤◌, ◌+◌, ◌-◌, ◌^◌, ◌++◌, List, ℕ, Some, false, IfOk, IsErr, IsOk, IsTrue, OnOk, OnErr, drop, is_err, is_ok, length, max, min, refl, take};
ghost use Rattle.std.specs.Io.{ReadsAtMost};
ghost use Rattle.std.proofs.Common.{inl};
ghost use Rattle.pol_wire.specs.Calls.{is_listed, log_after};
ghost use Rattle.pol_wire.specs.Faults.{CountsFaults, Rises, count_after};
ghost use Rattle.pol_disk.specs.Content.{IsImage, cut_to, settled, torn_at, torn_past, written_at};
ghost use Rattle.pol_disk.specs.Disk.{CutShort, Elapses, Follows, Grows, Torn, written};
ghost use Rattle.pol_disk.specs.MemoryDisk.{IsRefused, LeftSince, content_at, first_disk, later_with, only_this};

use crate::Disk;
use content::Content;
use pol_types::OutOfMemory;
use pol_wire::{Calls, Failed};
use std::alloc::Global;
use std::marker::Model;
use std::mem;

mod calls;
pub(crate) mod content;

/// A disk in memory. Each write and cut, and each sync that succeeds, is a moment of its clock, and it keeps what a
/// crash may leave at each moment, so it takes memory for all its bytes at each such call: it is for tests of small
/// disks. The calls whose numbers are listed fail. A write or cut that fails may have reached the disk in part, though
/// a read shows nothing of it; one that finds no memory is a fault, and is no moment. A call is one fault at most.
#[derive(Drop)]
pub struct MemoryDisk {
    alloc: Global,
    content: Content,
    past: Vec<Content>,
    calls: Calls,
}

impl Model for MemoryDisk {
    ghost use Rattle.pol_disk.specs.MemoryDisk.{MemoryState};

    ghost Value = { MemoryState };

    ghost view = { λ d. record { content = d.content; past = d.past.items; calls = d.calls } };
}

impl MemoryDisk {
    /// A disk of these bytes, each of them where no crash takes it away. The calls whose numbers are in `failing`,
    /// counted from 1, are to fail.
    pub fn new(alloc: Global, bytes: Vec<u8>, failing: Vec<u64>) -> Result<Self, OutOfMemory>
        ensures { IfOk result (λ disk. disk ≡ first_disk bytes.items failing.items) }
    {
        Ok(MemoryDisk {
            alloc,
            content: Content::settled(alloc, bytes)?,
            past: Vec::new(alloc),
            calls: Calls::new(failing),
        })
    }

    /// What it held at a moment of its clock, with what a crash may have left then.
    pub fn content_at(&self, moment: u64) -> &Content
        requires { moment ≤ length self.now.past }
        ensures { result.now ≡ content_at self.now moment }
    {
        self.past.get(moment as usize).unwrap_or(&self.content)
    }

    // Goes on to the next moment with this content. Where there is no memory, nothing is done, and that is a fault of
    // the call, unless its answer was counted as one.
    #[tactic(auto, using(crate::proofs::MomentsLemmas::elapses_push))]
    fn go_on(
        &mut self,
        next: Result<Content, OutOfMemory>,
        answer: Result<(), Failed>,
    ) -> Result<(), Failed>
        ensures ok { OnOk result (IsOk next) }
        ensures later { OnOk result (IfOk next (λ content. self.new ≡ later_with content self.old)) }
        ensures same { OnErr result (self.new ≡ record self.old { calls = self.new.calls }) }
        ensures time { Elapses (length self.old.past) (length self.new.past)
            (LeftSince self.old) (LeftSince self.new) (IsImage self.new.content) }
        ensures kept { self.old.calls.faults ≤ self.new.calls.faults }
        ensures bounded { self.old.calls.faults ≤ 2 ^ 64 - 1 → self.new.calls.faults ≤ 2 ^ 64 - 1 }
        ensures caused { OnErr result (OnOk answer (Rises self.old.calls.faults self.new.calls.faults)) }
        ensures counted { OnErr result (self.new.calls
            ≡ record self.old.calls { faults = count_after self.old.calls.faults (is_ok answer) }) }
    {
        let Ok(next) = next else {
            return Err(self.fault_of(answer));
        };
        if self.past.reserve(1).is_err() {
            return Err(self.fault_of(answer));
        }
        let old = mem::replace(&mut self.content, next);
        let _ = self.past.push(old);
        Ok(())
    }

    // The fault of a call that found no memory, which is counted where its answer wasn't counted as one.
    fn fault_of(&mut self, answer: Result<(), Failed>) -> Failed
        ensures same { self.new ≡ record self.old { calls = self.new.calls } }
        ensures counted { self.new.calls
            ≡ record self.old.calls { faults = count_after self.old.calls.faults (is_ok answer) } }
        ensures kept { self.old.calls.faults ≤ self.new.calls.faults }
        ensures bounded { self.old.calls.faults ≤ 2 ^ 64 - 1 → self.new.calls.faults ≤ 2 ^ 64 - 1 }
        ensures caused { OnOk answer (Rises self.old.calls.faults self.new.calls.faults) }
    {
        match answer {
            Ok(()) => self.calls.fail(),
            Err(failed) => failed,
        }
    }
}

impl Disk for MemoryDisk {
    ghost seen = { λ d. Some d.content.seen };

    ghost size = { λ d. Some (length d.content.seen) };

    ghost may_leave = { λ d. IsImage d.content };

    ghost clock = { λ d. length d.past };

    ghost left_since = { LeftSince };

    ghost fault_count = { λ d. d.calls.faults };

    ghost counts_now = { λ d t image le now. inl now };

    ghost only_now = { only_this };

    ghost reads_as_image = { λ d. inl refl };

    ghost tells_size = { λ d. refl };

    fn length(&mut self) -> Result<u64, Failed>
        ensures length { IfOk result (λ count. count ≡ length self.old.content.seen) }
        ensures seen { Some self.new.content.seen ≡ Some self.old.content.seen }
        ensures size { Some (length self.new.content.seen) ≡ Some (length self.old.content.seen) }
        ensures crash { (image : List ℕ) → IsImage self.new.content image → IsImage self.old.content image }
        ensures time { Elapses (length self.old.past) (length self.new.past)
            (LeftSince self.old) (LeftSince self.new) (IsImage self.new.content) }
        ensures count { CountsFaults self.old.calls.faults self.new.calls.faults result }

        ensures listed { is_err result ≡ is_listed self.old.calls }
        ensures after { self.new ≡ record self.old { calls = log_after self.old.calls (is_err result) } }
    {
        self.calls.begin()?;
        Ok(self.content.seen().len() as u64)
    }

    fn read(&mut self, at: u64, buf: &mut [u8]) -> Result<usize, Failed>
        ensures bound { ReadsAtMost result buf.new }
        ensures number { IfOk result (λ count. count ≡ min (length buf.old) (length self.old.content.seen - at)) }
        ensures bytes { IfOk result (λ count.
            buf.new ≡ take count (drop at self.old.content.seen) ++ drop count buf.old) }
        ensures seen { Some self.new.content.seen ≡ Some self.old.content.seen }
        ensures size { Some (length self.new.content.seen) ≡ Some (length self.old.content.seen) }
        ensures crash { (image : List ℕ) → IsImage self.new.content image → IsImage self.old.content image }
        ensures time { Elapses (length self.old.past) (length self.new.past)
            (LeftSince self.old) (LeftSince self.new) (IsImage self.new.content) }
        ensures count { CountsFaults self.old.calls.faults self.new.calls.faults result }

        ensures listed { is_err result ≡ is_listed self.old.calls }
        ensures after { self.new ≡ record self.old { calls = log_after self.old.calls (is_err result) } }
    {
        self.calls.begin()?;
        let seen = self.content.seen();
        let start = at.min(seen.len() as u64) as usize;
        let count = buf.len().min(seen.len() - start);
        buf[..count].copy_from_slice(&seen[start..start + count]);
        Ok(count)
    }

    fn write_at(&mut self, at: u64, bytes: &[u8]) -> Result<(), Failed>
        requires within { at ≤ length self.old.content.seen }
        requires fits { at + length bytes.now ≤ 2 ^ 64 - 1 }
        ensures written { OnOk result (self.new.content.seen ≡ written at bytes.now self.old.content.seen) }
        ensures torn { OnErr result (Torn at (at + length bytes.now) self.old.content.seen self.new.content.seen) }
        ensures size { OnOk result (length self.new.content.seen
            ≡ max (length self.old.content.seen) (at + length bytes.now)) }
        ensures grown { OnErr result (Grows (at + length bytes.now) (length self.old.content.seen)
            (length self.new.content.seen)) }
        ensures crash { Follows (Torn at (at + length bytes.now)) (IsImage self.old.content)
            (IsImage self.new.content) }
        ensures time { Elapses (length self.old.past) (length self.new.past)
            (LeftSince self.old) (LeftSince self.new) (IsImage self.new.content) }
        ensures count { CountsFaults self.old.calls.faults self.new.calls.faults result }

        ensures ok { OnOk result (self.new ≡ record (later_with (written_at at bytes.now self.old.content) self.old) {
          calls = log_after self.old.calls false;
        }) }
        ensures err { OnErr result (IsRefused (torn_at at (length bytes.now) self.old.content) self.old self.new) }
        // A call that isn't listed fails for want of memory alone.
        ensures listed { IsTrue (is_listed self.old.calls) → IsErr result }
        ensures after { self.new.calls ≡ log_after self.old.calls (is_err result) }
    {
        let answer = self.calls.begin();
        let next = self
            .content
            .after_write(self.alloc, at as usize, bytes, answer);
        self.go_on(next, answer)?;
        answer
    }

    fn cut(&mut self, kept: u64) -> Result<(), Failed>
        ensures cut { OnOk result (self.new.content.seen ≡ take kept self.old.content.seen) }
        ensures cut_short { OnErr result (CutShort kept self.old.content.seen self.new.content.seen) }
        ensures size { OnOk result (length self.new.content.seen ≡ min kept (length self.old.content.seen)) }
        ensures shrunk { OnErr result (length self.new.content.seen ≤ length self.old.content.seen) }
        ensures crash { Follows (CutShort kept) (IsImage self.old.content) (IsImage self.new.content) }
        ensures time { Elapses (length self.old.past) (length self.new.past)
            (LeftSince self.old) (LeftSince self.new) (IsImage self.new.content) }
        ensures count { CountsFaults self.old.calls.faults self.new.calls.faults result }

        ensures ok { OnOk result (self.new
            ≡ record (later_with (cut_to kept self.old.content) self.old) { calls = log_after self.old.calls false }) }
        ensures err { OnErr result (IsRefused (torn_past kept self.old.content) self.old self.new) }
        // A call that isn't listed fails for want of memory alone.
        ensures listed { IsTrue (is_listed self.old.calls) → IsErr result }
        ensures after { self.new.calls ≡ log_after self.old.calls (is_err result) }
    {
        let answer = self.calls.begin();
        let next = self.content.after_cut(self.alloc, kept as usize, answer);
        self.go_on(next, answer)?;
        answer
    }

    fn sync(&mut self) -> Result<(), Failed>
        ensures durable { OnOk result ((image : List ℕ) → IsImage self.new.content image
            → image ≡ self.new.content.seen) }
        ensures seen { Some self.new.content.seen ≡ Some self.old.content.seen }
        ensures size { Some (length self.new.content.seen) ≡ Some (length self.old.content.seen) }
        ensures crash { (image : List ℕ) → IsImage self.new.content image → IsImage self.old.content image }
        ensures time { Elapses (length self.old.past) (length self.new.past)
            (LeftSince self.old) (LeftSince self.new) (IsImage self.new.content) }
        ensures count { CountsFaults self.old.calls.faults self.new.calls.faults result }

        ensures ok { OnOk result (self.new
            ≡ record (later_with (settled self.old.content.seen) self.old) { calls = log_after self.old.calls false }) }
        ensures err { OnErr result (self.new ≡ record self.old { calls = self.new.calls }) }
        // A call that isn't listed fails for want of memory alone.
        ensures listed { IsTrue (is_listed self.old.calls) → IsErr result }
        ensures after { self.new.calls ≡ log_after self.old.calls (is_err result) }
    {
        self.calls.begin()?;
        let next = self.content.after_sync(self.alloc);
        self.go_on(next, Ok(()))
    }

    fn faults(&self) -> u64 {
        self.calls.faults()
    }

    fn moment(&self) -> u64 {
        self.past.len() as u64
    }
}
