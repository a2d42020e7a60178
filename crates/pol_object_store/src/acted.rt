use pol_objects::ObjectReply;

/// What came of an action on objects.
#[derive(Drop)]
pub enum Acted {
    /// It stands in the history at this place, counted from 0, and is answered so. No crash takes its change away.
    Done { place: u64, reply: ObjectReply },
    /// The journal, which ends at `length`, would reach to `wanted` with its change. Nothing has changed.
    JournalFull { length: u64, wanted: u64 },
    /// The disk failed while its change was written. It isn't made, and a crash before the next repair may leave it or
    /// not.
    Unknown,
    /// The disk failed while an earlier write that had failed was taken back. Nothing has changed.
    DiskFault,
    /// Nothing has changed.
    OutOfMemory,
}
