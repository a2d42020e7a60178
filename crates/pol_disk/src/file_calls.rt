ghost use Rattle.std.specs.Prelude.{◌≡◌, ◌≤◌, ◌+◌, ◌-◌, ◌^◌, ◌++◌, List, ℕ, Option, Some, IfOk, OnOk, OnErr, IfSome, length, max, min, take, drop};
ghost use Rattle.std.specs.Io.{ReadsAtMost};
ghost use Rattle.pol_disk.specs.Disk.{Told, written, Torn, CutShort, Grows, Follows, IsDurable, Elapses};
ghost use Rattle.pol_disk.specs.FileCalls.{OnlyLooks, GivesSome};

use std::io;

/// A file by single calls of the system, each of which may be refused. A `DiskOver` makes a disk of them.
///
/// What a file holds, and what a crash may leave of it, is said as for a `Disk`. A file that doesn't tell its bytes
/// tells no image either.
pub trait FileCalls {
    // The bytes that a read gives, where the file tells.
    ghost seen: { Self → Option (List ℕ) };

    // Its length in bytes, where the file tells.
    ghost size: { Self → Option ℕ };

    // The images: what a crash now may leave.
    ghost may_leave: { Self → List ℕ → Type 0 };

    // The moment now.
    ghost clock: { Self → ℕ };

    // What a crash at some moment from that one on may have left, during a call or between two.
    ghost left_since: { Self → ℕ → List ℕ → Type 0 };

    /// The length in bytes.
    fn len(&mut self) -> io::Result<u64>
        ensures length { IfOk result (λ length. IfSome (size self.old) (λ size. length ≡ size)) }
        ensures looks { OnlyLooks seen size may_leave clock left_since self.old self.new };

    /// Reads once from a place on into the front of `buf`, and tells how many bytes came. They may be fewer than there
    /// are; none come only past the end, or where the buffer has no room.
    fn read_once(&mut self, at: u64, buf: &mut [u8]) -> io::Result<usize>
        ensures bound { ReadsAtMost result buf.new }
        ensures number { IfOk result (λ count.
            IfSome (size self.old) (λ size. GivesSome count (min (length buf.old) (size - at)))) }
        ensures bytes { IfOk result (λ count. IfSome (seen self.old) (λ bytes.
            buf.new ≡ take count (drop at bytes) ++ drop count buf.old)) }
        ensures looks { OnlyLooks seen size may_leave clock left_since self.old self.new };

    /// Writes over what is there, and past the end. Where it fails, any part of it may have been written.
    fn write_all_at(&mut self, at: u64, bytes: &[u8]) -> io::Result<()>
        requires within { IfSome (size self.old) (λ size. at ≤ size) }
        requires fits { at + length bytes.now ≤ 2 ^ 64 - 1 }
        ensures written { OnOk result (Told (λ old new. new ≡ written at bytes.now old)
            (seen self.old) (seen self.new)) }
        ensures torn { OnErr result (Told (Torn at (at + length bytes.now)) (seen self.old) (seen self.new)) }
        ensures size { OnOk result (Told (λ old new. new ≡ max old (at + length bytes.now))
            (size self.old) (size self.new)) }
        ensures grown { OnErr result (Told (Grows (at + length bytes.now)) (size self.old) (size self.new)) }
        ensures crash { Follows (Torn at (at + length bytes.now)) (may_leave self.old) (may_leave self.new) }
        ensures time { Elapses (clock self.old) (clock self.new)
            (left_since self.old) (left_since self.new) (may_leave self.new) };

    /// Cuts a file to a length that it has. Where it fails, any part of what lies past that may be gone.
    fn shorten(&mut self, kept: u64) -> io::Result<()>
        requires within { IfSome (size self.old) (λ size. kept ≤ size) }
        ensures cut { OnOk result (Told (λ old new. new ≡ take kept old) (seen self.old) (seen self.new)) }
        ensures cut_short { OnErr result (Told (CutShort kept) (seen self.old) (seen self.new)) }
        ensures size { OnOk result (Told (λ old new. new ≡ kept) (size self.old) (size self.new)) }
        ensures shrunk { OnErr result (Told (λ old new. new ≤ old) (size self.old) (size self.new)) }
        ensures crash { Follows (CutShort kept) (may_leave self.old) (may_leave self.new) }
        ensures time { Elapses (clock self.old) (clock self.new)
            (left_since self.old) (left_since self.new) (may_leave self.new) };

    /// Brings what was written to where no crash takes it away: at `Ok` a crash leaves what a read gives.
    fn sync_all(&mut self) -> io::Result<()>
        ensures durable { OnOk result (IsDurable (seen self.new) (may_leave self.new)) }
        ensures looks { OnlyLooks seen size may_leave clock left_since self.old self.new };

    /// The moment of the file's clock. A file that doesn't tell its bytes may always answer 0.
    fn moment(&self) -> u64
        ensures { result ≡ clock self.now };

    // This moment is one of those since an earlier one.
    ghost counts_now: { (file : Self) (t : ℕ) (image : List ℕ) → t ≤ clock file → may_leave file image
        → left_since file t image };

    // Since this moment there is no other.
    ghost only_now: { (file : Self) (image : List ℕ) → left_since file (clock file) image → may_leave file image };

    // A file as it reads is one of its images.
    ghost reads_as_image: { (file : Self) → IfSome (seen file) (may_leave file) };

    // A file that tells its bytes tells how many there are.
    ghost tells_size: { (file : Self) → IfSome (seen file) (λ bytes. size file ≡ Some (length bytes)) };
}
