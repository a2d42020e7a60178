/// What came of a command, with its rendered reply.
#[derive(Drop)]
pub enum Stepped<T> {
    /// It stands in the history at this place, counted from 0, and no crash takes its changes away.
    Done { place: u64, out: T },
    /// The charges of the run and its own would be above 2^30 together. Nothing has changed.
    RunFull { charged: u64, charge: u64, out: T },
    /// The journal, which ends at `length`, would reach to `wanted` with its changes. Nothing has changed.
    JournalFull { length: u64, wanted: u64 },
    /// The disk failed while its changes were written. They aren't made, and a crash before the next repair may leave
    /// them or not.
    Unknown,
    /// The disk failed while an earlier write that had failed was taken back. Nothing has changed.
    DiskFault,
    /// Nothing has changed.
    OutOfMemory,
}
