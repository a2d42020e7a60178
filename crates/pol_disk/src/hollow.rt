ghost use Rattle.std.specs.Prelude.{◌≡◌, ◌-◌, ◌++◌, ℕ, Some, None, IfOk, drop, length, min, replicate};
ghost use Rattle.std.specs.Io.{ReadsAtMost};
ghost use Rattle.pol_wire.specs.Faults.{CountsFaults};

use crate::Disk;
use pol_wire::Failed;
use std::marker::Model;

/// A disk that keeps its length alone, and takes no memory. It takes every write, cut and sync, and a read gives
/// zero bytes. It never fails. It tells its length, and nothing else of what it holds.
#[derive(Drop)]
pub struct HollowDisk {
    length: u64,
}

impl Model for HollowDisk {
    ghost use Rattle.std.specs.Prelude.{ℕ, ◌≤◌, ◌-◌, ◌^◌};

    ghost Value = { ℕ };

    ghost view = { λ d. d.length };
}

impl HollowDisk {
    /// A disk of this length.
    pub fn new(length: u64) -> Self
        ensures { result ≡ length }
    {
        HollowDisk { length }
    }
}

impl Disk for HollowDisk {
    ghost seen = { λ d. None };

    // A hollow disk's value is its length.
    ghost size = { λ d. Some d };

    ghost may_leave = { λ d image. ⊥ };

    ghost clock = { λ d. 0 };

    ghost left_since = { λ d t image. ⊥ };

    ghost fault_count = { λ d. 0 };

    ghost counts_now = { λ d t image le now. now };

    ghost only_now = { λ d image left. left };

    ghost reads_as_image = { λ d. tt };

    ghost tells_size = { λ d. tt };

    fn length(&mut self) -> Result<u64, Failed> {
        Ok(self.length)
    }

    fn read(&mut self, at: u64, buf: &mut [u8]) -> Result<usize, Failed>
        ensures bound { ReadsAtMost result buf.new }
        ensures number { IfOk result (λ count. count ≡ min (length buf.old) (self.old - at)) }
        ensures size { Some self.new ≡ Some self.old }
        ensures count { CountsFaults 0 0 result }

        ensures zeros { IfOk result (λ count. buf.new ≡ replicate count 0 ++ drop count buf.old) }
    {
        let left = self.length.saturating_sub(at);
        let count = (buf.len() as u64).min(left) as usize;
        buf[..count].fill(0);
        Ok(count)
    }

    fn write_at(&mut self, at: u64, bytes: &[u8]) -> Result<(), Failed> {
        self.length = self.length.max(at + bytes.len() as u64);
        Ok(())
    }

    fn cut(&mut self, kept: u64) -> Result<(), Failed> {
        self.length = self.length.min(kept);
        Ok(())
    }

    fn sync(&mut self) -> Result<(), Failed> {
        Ok(())
    }

    fn faults(&self) -> u64 {
        0
    }

    fn moment(&self) -> u64 {
        0
    }
}
