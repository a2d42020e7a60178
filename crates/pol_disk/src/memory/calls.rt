ghost use Rattle.std.specs.Prelude.{Some, length, refl};
ghost use Rattle.std.proofs.Common.{inl};
ghost use Rattle.pol_disk.specs.Content.{IsImage};
ghost use Rattle.pol_disk.specs.MemoryDisk.{LeftSince, only_this};

use crate::{Disk, FileCalls, MemoryDisk};
use pol_wire::Failed;
use std::io;
use std::io::ErrorKind;

/// A disk in memory serves as a file that tells its bytes. A call that fails is an error of the kind `Other`.
impl FileCalls for MemoryDisk {
    ghost seen = { λ d. Some d.content.seen };

    ghost size = { λ d. Some (length d.content.seen) };

    ghost may_leave = { λ d. IsImage d.content };

    ghost clock = { λ d. length d.past };

    ghost left_since = { LeftSince };

    ghost counts_now = { λ d t image le now. inl now };

    ghost only_now = { only_this };

    ghost reads_as_image = { λ d. inl refl };

    ghost tells_size = { λ d. refl };

    fn len(&mut self) -> io::Result<u64> {
        self.length().map_err(error_of)
    }

    fn read_once(&mut self, at: u64, buf: &mut [u8]) -> io::Result<usize> {
        self.read(at, buf).map_err(error_of)
    }

    fn write_all_at(&mut self, at: u64, bytes: &[u8]) -> io::Result<()> {
        self.write_at(at, bytes).map_err(error_of)
    }

    fn shorten(&mut self, kept: u64) -> io::Result<()> {
        self.cut(kept).map_err(error_of)
    }

    fn sync_all(&mut self) -> io::Result<()> {
        self.sync().map_err(error_of)
    }

    fn moment(&self) -> u64 {
        self.past.len() as u64
    }
}

// The error of a call that failed.
fn error_of(_: Failed) -> io::Error {
    ErrorKind::Other.into()
}
