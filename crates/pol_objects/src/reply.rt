use crate::ObjectRule;
use pol_locations::Location;
use pol_shared_bytes::SharedBytes;
use pol_types::Listed;

/// What an action on objects is answered.
#[derive(Drop)]
pub enum ObjectReply {
    /// To a get: the bytes, which are shared with the object and not copied.
    Bytes { bytes: SharedBytes },
    /// To a head: how many bytes the object has.
    Length { length: u64 },
    /// To a put that is accepted.
    Stored,
    /// To a delete of an object that was there.
    Deleted,
    /// To a list: the paths in byte order of their texts.
    Paths { paths: Listed<Location> },
    /// The first rule that refuses the action.
    Refused { rule: ObjectRule },
}
