use pol_types::Listed;

/// How a link ended.
#[derive(Clone, Copy, PartialEq, Eq)]
pub enum Ending {
    /// At the end of its input, between two messages.
    Ended,
    /// At the end of its input, inside a message.
    Cut,
    /// After an answer that closes the connection.
    Closed,
    /// Its source failed.
    ReadFault,
    /// Its sink failed.
    WriteFault,
    /// After 2^40 bytes.
    Spent,
    /// Memory was wanting.
    NoMemory,
}

/// Where a request stands in the histories. Places are counted from 0.
#[derive(Clone, Copy, PartialEq, Eq)]
pub enum Place {
    /// At this place of the catalogue's history.
    Catalogue(u64),
    /// At the place `entry` of the objects' history, by the access at the place `access` of the catalogue's.
    Object { access: u64, entry: u64 },
    /// It made no entry.
    NoEntry,
}

/// How a link was served: its ending, and the place of each request that was handled, in order.
#[derive(Drop)]
pub struct Served {
    pub ending: Ending,
    pub places: Listed<Place>,
}
