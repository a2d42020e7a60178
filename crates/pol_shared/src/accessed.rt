use crate::{Permit, Stepped};

/// What came of asking for an access.
#[derive(Drop)]
pub enum Accessed<T> {
    /// It was allowed. The permit tells the place of the access in the history.
    Allowed { permit: Permit },
    /// It was refused, or not done: what came of its command is what comes of any command.
    Stepped(Stepped<T>),
}
