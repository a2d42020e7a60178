/// A schema, spec or order of a table: the last that was added in the same list of updates, for which -1 stands, or
/// that of an id.
#[derive(Clone, Copy, PartialEq, Eq)]
pub enum MemberId {
    LastAdded,
    Id { id: u32 },
}
