ghost use Rattle.std.specs.Prelude.{◌≡◌, ◌≤◌, ◌+◌, ◌-◌, ◌^◌, IfSome, OnOk, length};
ghost use Rattle.pol_disk.specs.Disk.{IsDurable, Told, written};
ghost use Rattle.pol_disk.specs.MemoryDisk.{first_disk};

use pol_disk::{Disk, DiskOver, FileDisk, HollowDisk, MemoryDisk};
use pol_wire::Failed;
use std::alloc::Global;
use std::fs;
use std::rt::Files;
use std::test::Fail;

// Writes and syncs.
fn write_through<D: Disk>(disk: &mut D, at: u64, bytes: &[u8]) -> Result<(), Failed>
    requires within { IfSome (D.size disk.old) (λ size. at ≤ size) }
    requires fits { at + length bytes.now ≤ 2 ^ 64 - 1 }
    ensures bytes { OnOk result (Told (λ old new. new ≡ written at bytes.now old) (D.seen disk.old) (D.seen disk.new)) }
    ensures durable { OnOk result (IsDurable (D.seen disk.new) (D.may_leave disk.new)) }
{
    disk.write_at(at, bytes)?;
    disk.sync()
}

// Whether one read to a buffer of this length, of 9 bytes at most, gives these bytes over others.
fn reads<D: Disk>(disk: &mut D, at: u64, room: usize, want: &[u8]) -> bool {
    let mut buffer = [7; 9];
    match disk.read(at, &mut buffer[..room.min(9)]) {
        Ok(count) => &buffer[..count] == want,
        Err(Failed) => false,
    }
}

// Whether a disk answers this length.
fn has_length<D: Disk>(disk: &mut D, want: u64) -> bool {
    match disk.length() {
        Ok(length) => length == want,
        Err(Failed) => false,
    }
}

// A disk of these bytes, whose calls of these numbers are to fail.
fn disk_of(alloc: Global, bytes: &[u8], failing: &[u64]) -> Option<MemoryDisk>
    ensures { IfSome result (λ disk. disk ≡ first_disk bytes.now failing.now) }
{
    let bytes = Vec::from_slice(alloc, bytes).ok()?;
    let failing = Vec::from_slice(alloc, failing).ok()?;
    MemoryDisk::new(alloc, bytes, failing).ok()
}

// A moment, bytes that stand where a crash then may leave any, and the image with them, where there is one of that
// length.
type Image = (u64, &'static [u8], Option<&'static [u8]>);

// Whether a disk has this image.
fn has_image(alloc: Global, disk: &MemoryDisk, image: Image) -> Option<bool> {
    let (moment, filling, want) = image;
    if moment > disk.moment() {
        return Some(want.is_none());
    }
    let content = disk.content_at(moment);
    if filling.len() < content.shortest_image() || filling.len() > content.longest_image() {
        return Some(want.is_none());
    }
    let bytes = content.image(alloc, filling).ok()?;
    Some(bytes.as_slice() == want?)
}

// Whether a disk has these images.
fn has_images(alloc: Global, disk: &MemoryDisk, images: &[Image]) -> bool {
    for image in images {
        if has_image(alloc, disk, *image) != Some(true) {
            return false;
        }
    }
    true
}

// A disk of four bytes, after a write of two over the last one and the end.
fn disk_after_write(alloc: Global, failing: &[u64]) -> Option<MemoryDisk> {
    let mut disk = disk_of(alloc, b"abcd", failing)?;
    let _ = disk.write_at(3, b"xy");
    Some(disk)
}

// Whether that disk has these images once it is synced.
fn has_images_after_sync(alloc: Global, images: &[Image]) -> Option<bool> {
    let mut disk = disk_after_write(alloc, &[])?;
    let synced = disk.sync();
    Some(synced.is_ok() && has_images(alloc, &disk, images))
}

#[test]
fn written_range_may_hold_any_bytes_until_a_sync(rt: HostRuntime) {
    let images: [Image; 10] = [
        (0, b"....", Some(b"abcd")),
        (0, b"...", None),
        (1, b"....", Some(b"abc.")),
        (1, b".....", Some(b"abc..")),
        (1, b"...", None),
        (1, b"......", None),
        (2, b".....", Some(b"abcxy")),
        (2, b"....", None),
        (2, b"......", None),
        (3, b".....", None),
    ];
    assert!(rt; has_images_after_sync(rt.alloc(), &images) == Some(true));
}

// Whether a disk of four bytes has these images after a cut to two, which fails where `failing` is 1.
fn has_images_after_cut(alloc: Global, failing: u64, images: &[Image]) -> Option<bool> {
    let mut disk = disk_of(alloc, b"abcd", &[failing])?;
    let failed = disk.cut(2).is_err();
    Some(failed == (failing == 1) && has_images(alloc, &disk, images))
}

#[test]
fn bytes_cut_off_may_come_back_in_any_shape(rt: HostRuntime) {
    let images: [Image; 5] = [
        (1, b".", None),
        (1, b"..", Some(b"ab")),
        (1, b"...", Some(b"ab.")),
        (1, b"....", Some(b"ab..")),
        (1, b".....", None),
    ];
    for failing in 0..=1 {
        assert!(rt; has_images_after_cut(rt.alloc(), failing, &images) == Some(true));
    }
}

// Whether a write that fails has not been read, and may have reached the disk, as long as no sync succeeds.
fn failed_write_may_be_there(alloc: Global) -> Option<bool> {
    let mut disk = disk_after_write(alloc, &[1, 3])?;
    let is_read = reads(&mut disk, 0, 9, b"abcd");
    let failed = disk.sync().is_err();
    let may_be_there = has_images(alloc, &disk, &[(1, b".....", Some(b"abc.."))]);
    let counts = disk.faults() == 2 && disk.moment() == 1;
    Some(is_read && failed && may_be_there && counts)
}

#[test]
fn write_that_fails_may_have_reached_the_disk(rt: HostRuntime) {
    assert!(rt; failed_write_may_be_there(rt.alloc()) == Some(true));
}

// Whether the first two calls of a disk fail, and not the third.
fn fails_twice(alloc: Global) -> Option<bool> {
    let mut disk = disk_of(alloc, b"", &[1, 2])?;
    let failed = disk.length().is_err() && disk.read(0, &mut [0; 2]).is_err();
    Some(failed && has_length(&mut disk, 0))
}

#[test]
fn length_and_read_fail_where_they_are_told(rt: HostRuntime) {
    assert!(rt; fails_twice(rt.alloc()) == Some(true));
}

// Where a read begins, the length of its buffer, and the bytes that it gives.
type Reading = (u64, usize, &'static [u8]);

// Whether a disk of three bytes is read so.
fn is_read(alloc: Global, readings: &[Reading]) -> Option<bool> {
    let mut disk = disk_of(alloc, b"abc", &[])?;
    for (at, room, want) in readings {
        if !reads(&mut disk, *at, *room, want) {
            return Some(false);
        }
    }
    Some(true)
}

#[test]
fn memory_disk_reads_as_much_as_there_is(rt: HostRuntime) {
    let readings: [Reading; 5] = [
        (0, 3, b"abc"),
        (1, 1, b"b"),
        (1, 9, b"bc"),
        (3, 2, b""),
        (u64::MAX, 2, b""),
    ];
    assert!(rt; is_read(rt.alloc(), &readings) == Some(true));
}

// Whether a hollow disk takes writes and cuts, and gives zero bytes.
fn keeps_its_length(disk: &mut HollowDisk) -> bool {
    let written = write_through(disk, 0, b"abcde").is_ok() && write_through(disk, 0, b"x").is_ok();
    let longer = disk.cut(9).is_ok() && has_length(disk, 5) && reads(disk, 3, 9, &[0, 0]);
    let shorter = disk.cut(2).is_ok() && has_length(disk, 2) && reads(disk, 3, 9, b"");
    written && longer && shorter
}

#[test]
fn hollow_disk_keeps_its_length_alone(rt: HostRuntime) {
    let mut disk = HollowDisk::new(0);
    assert!(rt; keeps_its_length(&mut disk));
    assert!(rt; disk.faults() == 0 && disk.moment() == 0);
}

// Whether a disk over no file takes writes and cuts.
fn is_written<R: Files>(disk: &mut FileDisk<R>) -> bool {
    let empty = has_length(disk, 0);
    let written = write_through(disk, 0, b"abcde").is_ok() && write_through(disk, 1, b"xy").is_ok();
    let cut = disk.cut(9).is_ok() && disk.cut(4).is_ok();
    empty && written && cut && disk.sync().is_ok()
}

// Whether a disk has what was written so.
fn has_what_was_written<R: Files>(disk: &mut FileDisk<R>) -> bool {
    let is_read = reads(disk, 1, 9, b"xyd") && reads(disk, 9, 1, b"");
    let is_whole = has_length(disk, 4);
    is_read && is_whole && disk.faults() == 0 && disk.moment() == 0
}

#[test]
fn file_disk_makes_its_file_and_keeps_what_it_writes(rt: HostRuntime) -> Result<(), Fail> {
    let alloc = rt.alloc();
    let name = "vanloquat_file_disk";
    let _ = fs::remove_file(&rt, name);
    let mut disk = FileDisk::new(&rt, String::from_str(alloc, name)?);
    let made_at_once = fs::metadata(&rt, name).is_ok();
    let written = is_written(&mut disk);
    drop(disk);
    assert!(rt; !made_at_once && written);

    let mut again = FileDisk::new(&rt, String::from_str(alloc, name)?);
    let kept = has_what_was_written(&mut again);
    drop(again);
    assert!(rt; kept);
    fs::remove_file(&rt, name)?;
    Ok(())
}

// Whether each call of a disk fails and is counted.
fn fails_each_call<R: Files>(disk: &mut FileDisk<R>) -> bool {
    let reads = disk.length().is_err() && disk.read(0, &mut [0; 1]).is_err();
    let writes = disk.write_at(0, b"a").is_err() && disk.cut(0).is_err();
    reads && writes && disk.sync().is_err() && disk.faults() == 5
}

#[test]
fn file_disk_counts_each_opening_that_fails(rt: HostRuntime) -> Result<(), Fail> {
    let mut disk = FileDisk::new(&rt, String::from_str(rt.alloc(), "no_such_folder/disk")?);
    let failed = fails_each_call(&mut disk);
    drop(disk);
    assert!(rt; failed);
    Ok(())
}

// Takes what may cross to another thread.
fn moved<T: Send + Drop>(_value: T) {}

#[test]
fn disks_may_cross_threads(rt: HostRuntime) {
    let alloc = rt.alloc();
    if let Some(disk) = disk_of(alloc, b"", &[]) {
        moved(disk);
    }
    moved(HollowDisk::new(0));
    moved(FileDisk::new(&rt, String::new(alloc)));
}

// Whether a disk over a disk in memory writes, reads and cuts, and counts the call that fails.
fn serves_as_a_file(alloc: Global) -> Option<bool> {
    let mut disk = DiskOver::over(disk_of(alloc, b"abcd", &[7])?);
    let written = write_through(&mut disk, 3, b"xy").is_ok();
    let is_read = reads(&mut disk, 1, 9, b"bcxy");
    let cut = disk.cut(9).is_ok() && disk.cut(2).is_err() && has_length(&mut disk, 5);
    Some(written && is_read && cut && disk.faults() == 1 && disk.moment() == 3)
}

#[test]
fn disk_in_memory_serves_as_a_file(rt: HostRuntime) {
    assert!(rt; serves_as_a_file(rt.alloc()) == Some(true));
}
