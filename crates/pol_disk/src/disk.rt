ghost use Rattle.std.specs.Prelude.{◌≡◌, ◌≤◌, ◌+◌, ◌-◌, ◌^◌, ◌++◌, List, ℕ, Option, Some, IfOk, OnOk, OnErr, IfSome, length, min, max, take, drop};
ghost use Rattle.std.specs.Io.{ReadsAtMost};
ghost use Rattle.pol_wire.specs.Faults.{CountsFaults};
ghost use Rattle.pol_disk.specs.Disk.{Told, written, Torn, CutShort, Grows, Follows, IsDurable, Elapses};

use pol_wire::Failed;

/// A file as its one user sees it, with what a crash may leave of it.
///
/// An image is what a crash at a moment may leave. Between two syncs each written range, and all past the old end,
/// may hold any bytes in an image. What was cut off may hold any bytes or be gone. Other bytes stay. So an image is
/// no longer than the disk has been since its last sync that succeeded. After a sync that succeeds the one image is
/// what a read gives. A call may be moments of the disk's clock, which never goes back.
///
/// What a disk holds is told by the forms in memory. A disk that doesn't tell its bytes tells no image either, and
/// then no clause says what a crash leaves of it.
pub trait Disk {
    // The bytes that a read gives, where the disk tells.
    ghost seen: { Self → Option (List ℕ) };

    // Its length in bytes, where the disk tells.
    ghost size: { Self → Option ℕ };

    // The images: what a crash now may leave.
    ghost may_leave: { Self → List ℕ → Type 0 };

    // The moment now.
    ghost clock: { Self → ℕ };

    // What a crash at some moment from that one on may have left, during a call or between two.
    ghost left_since: { Self → ℕ → List ℕ → Type 0 };

    // The count of faults.
    ghost fault_count: { Self → ℕ };

    /// The length in bytes.
    fn length(&mut self) -> Result<u64, Failed>
        ensures length { IfOk result (λ length. IfSome (size self.old) (λ size. length ≡ size)) }
        ensures seen { seen self.new ≡ seen self.old }
        ensures size { size self.new ≡ size self.old }
        ensures crash { (image : List ℕ) → may_leave self.new image → may_leave self.old image }
        ensures time { Elapses (clock self.old) (clock self.new)
            (left_since self.old) (left_since self.new) (may_leave self.new) }
        ensures count { CountsFaults (fault_count self.old) (fault_count self.new) result };

    /// Reads from a place on into the front of `buf`, as many bytes as the buffer holds or the length leaves, and
    /// tells how many. Past the end there are none.
    fn read(&mut self, at: u64, buf: &mut [u8]) -> Result<usize, Failed>
        ensures bound { ReadsAtMost result buf.new }
        ensures number { IfOk result (λ count.
            IfSome (size self.old) (λ size. count ≡ min (length buf.old) (size - at))) }
        ensures bytes { IfOk result (λ count. IfSome (seen self.old) (λ bytes.
            buf.new ≡ take count (drop at bytes) ++ drop count buf.old)) }
        ensures seen { seen self.new ≡ seen self.old }
        ensures size { size self.new ≡ size self.old }
        ensures crash { (image : List ℕ) → may_leave self.new image → may_leave self.old image }
        ensures time { Elapses (clock self.old) (clock self.new)
            (left_since self.old) (left_since self.new) (may_leave self.new) }
        ensures count { CountsFaults (fault_count self.old) (fault_count self.new) result };

    /// Writes over what is there, and past the end. Where it fails, a read gives what a crash of it may leave.
    fn write_at(&mut self, at: u64, bytes: &[u8]) -> Result<(), Failed>
        requires within { IfSome (size self.old) (λ size. at ≤ size) }
        requires fits { at + length bytes.now ≤ 2 ^ 64 - 1 }
        ensures written { OnOk result (Told (λ old new. new ≡ written at bytes.now old)
            (seen self.old) (seen self.new)) }
        ensures torn { OnErr result (Told (Torn at (at + length bytes.now)) (seen self.old) (seen self.new)) }
        ensures size { OnOk result (Told (λ old new. new ≡ max old (at + length bytes.now))
            (size self.old) (size self.new)) }
        ensures grown { OnErr result (Told (Grows (at + length bytes.now)) (size self.old) (size self.new)) }
        ensures crash { Follows (Torn at (at + length bytes.now)) (may_leave self.old) (may_leave self.new) }
        ensures time { Elapses (clock self.old) (clock self.new)
            (left_since self.old) (left_since self.new) (may_leave self.new) }
        ensures count { CountsFaults (fault_count self.old) (fault_count self.new) result };

    /// Cuts off what lies past a length. A disk that is no longer than that stays as it is. Where it fails, a read
    /// gives what a crash of it may leave.
    fn cut(&mut self, kept: u64) -> Result<(), Failed>
        ensures cut { OnOk result (Told (λ old new. new ≡ take kept old) (seen self.old) (seen self.new)) }
        ensures cut_short { OnErr result (Told (CutShort kept) (seen self.old) (seen self.new)) }
        ensures size { OnOk result (Told (λ old new. new ≡ min kept old) (size self.old) (size self.new)) }
        ensures shrunk { OnErr result (Told (λ old new. new ≤ old) (size self.old) (size self.new)) }
        ensures crash { Follows (CutShort kept) (may_leave self.old) (may_leave self.new) }
        ensures time { Elapses (clock self.old) (clock self.new)
            (left_since self.old) (left_since self.new) (may_leave self.new) }
        ensures count { CountsFaults (fault_count self.old) (fault_count self.new) result };

    /// Brings what was written to where no crash takes it away: at `Ok` a crash leaves what a read gives.
    fn sync(&mut self) -> Result<(), Failed>
        ensures durable { OnOk result (IsDurable (seen self.new) (may_leave self.new)) }
        ensures seen { seen self.new ≡ seen self.old }
        ensures size { size self.new ≡ size self.old }
        ensures crash { (image : List ℕ) → may_leave self.new image → may_leave self.old image }
        ensures time { Elapses (clock self.old) (clock self.new)
            (left_since self.old) (left_since self.new) (may_leave self.new) }
        ensures count { CountsFaults (fault_count self.old) (fault_count self.new) result };

    /// The count of faults.
    fn faults(&self) -> u64
        ensures { result ≡ fault_count self.now };

    /// The moment of the disk's clock. A disk that doesn't tell its bytes may always answer 0.
    fn moment(&self) -> u64
        ensures { result ≡ clock self.now };

    // This moment is one of those since an earlier one.
    ghost counts_now: { (disk : Self) (t : ℕ) (image : List ℕ) → t ≤ clock disk → may_leave disk image
        → left_since disk t image };

    // Since this moment there is no other.
    ghost only_now: { (disk : Self) (image : List ℕ) → left_since disk (clock disk) image → may_leave disk image };

    // A disk as it reads is one of its images.
    ghost reads_as_image: { (disk : Self) → IfSome (seen disk) (may_leave disk) };

    // A disk that tells its bytes tells how many there are.
    ghost tells_size: { (disk : Self) → IfSome (seen disk) (λ bytes. size disk ≡ Some (length bytes)) };
}
