ghost use Rattle.std.specs.Prelude.{◌≡◌, ◌≤◌, ◌+◌, ◌-◌, ◌++◌, IfOk, IfSome, OnOk, OnErr, length, min, take, drop};
ghost use Rattle.std.specs.Io.{ReadsAtMost};
ghost use Rattle.pol_disk.specs.Disk.{Told, CutShort, Follows, Elapses};
ghost use Rattle.pol_disk.specs.FileCalls.{GivesSome, OnlyLooks};

use crate::{Disk, FileCalls};
use pol_wire::{Failed, Faults};
use std::io;
use std::io::ErrorKind;
use std::marker::Model;

/// A disk over the calls of a file. Each call that the file refuses is a fault. It tells what the file tells.
#[derive(Drop)]
pub struct DiskOver<F: FileCalls> {
    file: F,
    faults: Faults,
}

impl<F: FileCalls> Model for DiskOver<F> {
    ghost use Rattle.std.specs.Prelude.{◌≤◌, ◌-◌, ◌^◌};
    ghost use Rattle.pol_wire.specs.Counted.{Counted};

    ghost Value = { Counted F };

    ghost view = { λ disk. record { inner = disk.file; faults = disk.faults } };

    ghost invariant = { λ disk. disk.faults ≤ 2 ^ 64 - 1 };
}

impl<F: FileCalls> DiskOver<F> {
    /// A disk over this file, without faults.
    pub fn over(file: F) -> Self
        ensures { result ≡ record { inner = file; faults = 0 } }
    {
        DiskOver {
            file,
            faults: Faults::none(),
        }
    }
}

impl<F: FileCalls> Disk for DiskOver<F> {
    ghost seen = { λ disk. F.seen disk.inner };

    ghost size = { λ disk. F.size disk.inner };

    ghost may_leave = { λ disk. F.may_leave disk.inner };

    ghost clock = { λ disk. F.clock disk.inner };

    ghost left_since = { λ disk. F.left_since disk.inner };

    ghost fault_count = { λ disk. disk.faults };

    ghost counts_now = { λ disk. F.counts_now disk.inner };

    ghost only_now = { λ disk. F.only_now disk.inner };

    ghost reads_as_image = { λ disk. F.reads_as_image disk.inner };

    ghost tells_size = { λ disk. F.tells_size disk.inner };

    fn length(&mut self) -> Result<u64, Failed> {
        match self.file.len() {
            Ok(length) => Ok(length),
            Err(_) => Err(self.faults.fail()),
        }
    }

    fn read(&mut self, at: u64, buf: &mut [u8]) -> Result<usize, Failed> {
        match read_all(&mut self.file, at, buf) {
            Ok(count) => Ok(count),
            Err(_) => Err(self.faults.fail()),
        }
    }

    fn write_at(&mut self, at: u64, bytes: &[u8]) -> Result<(), Failed> {
        match self.file.write_all_at(at, bytes) {
            Ok(()) => Ok(()),
            Err(_) => Err(self.faults.fail()),
        }
    }

    fn cut(&mut self, kept: u64) -> Result<(), Failed> {
        match cut(&mut self.file, kept) {
            Ok(()) => Ok(()),
            Err(_) => Err(self.faults.fail()),
        }
    }

    fn sync(&mut self) -> Result<(), Failed> {
        match self.file.sync_all() {
            Ok(()) => Ok(()),
            Err(_) => Err(self.faults.fail()),
        }
    }

    fn faults(&self) -> u64 {
        self.faults.count()
    }

    fn moment(&self) -> u64 {
        self.file.moment()
    }
}

// Reads from a place on until the buffer is full or the file ends.
fn read_all<F: FileCalls>(file: &mut F, at: u64, buf: &mut [u8]) -> io::Result<usize>
    ensures bound { ReadsAtMost result buf.new }
    ensures number { IfOk result (λ count. IfSome (F.size file.old) (λ size.
        count ≡ min (length buf.old) (size - at))) }
    ensures bytes { IfOk result (λ count. IfSome (F.seen file.old) (λ bytes.
        buf.new ≡ take count (drop at bytes) ++ drop count buf.old)) }
    ensures looks { OnlyLooks F.seen F.size F.may_leave F.clock F.left_since file.old file.new }
{
    let mut count = 0;
    while count < buf.len() {
        match read_behind(file, at, count, buf)? {
            0 => break,
            more => count += more,
        }
    }
    Ok(count)
}

// Reads once, behind so many bytes that were read from a place on.
fn read_behind<F: FileCalls>(
    file: &mut F,
    at: u64,
    count: usize,
    buf: &mut [u8],
) -> io::Result<usize>
    requires { count ≤ length buf.old }
    ensures bound { IfOk result (λ more. count + more ≤ length buf.old) }
    ensures number { IfOk result (λ more. IfSome (F.size file.old) (λ size.
        GivesSome more (min (length buf.old - count) (size - (at + count))))) }
    ensures bytes { IfOk result (λ more. IfSome (F.seen file.old) (λ bytes.
        buf.new ≡ take count buf.old ++ take more (drop (at + count) bytes) ++ drop (count + more) buf.old)) }
    ensures looks { OnlyLooks F.seen F.size F.may_leave F.clock F.left_since file.old file.new }
{
    let place = at.checked_add(count as u64).ok_or(ErrorKind::InvalidInput)?;
    file.read_once(place, &mut buf[count..])
}

// Cuts off what lies past a length. A file that is no longer than that isn't touched.
fn cut<F: FileCalls>(file: &mut F, kept: u64) -> io::Result<()>
    ensures cut { OnOk result (Told (λ old new. new ≡ take kept old) (F.seen file.old) (F.seen file.new)) }
    ensures cut_short { OnErr result (Told (CutShort kept) (F.seen file.old) (F.seen file.new)) }
    ensures size { OnOk result (Told (λ old new. new ≡ min kept old) (F.size file.old) (F.size file.new)) }
    ensures shrunk { OnErr result (Told (λ old new. new ≤ old) (F.size file.old) (F.size file.new)) }
    ensures crash { Follows (CutShort kept) (F.may_leave file.old) (F.may_leave file.new) }
    ensures time { Elapses (F.clock file.old) (F.clock file.new)
        (F.left_since file.old) (F.left_since file.new) (F.may_leave file.new) }
{
    if kept < file.len()? {
        file.shorten(kept)?;
    }
    Ok(())
}
