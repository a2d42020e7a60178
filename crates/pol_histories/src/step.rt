use std::snapshot::Snapshot;

/// How a history came to be: it is empty, or one entry longer than another. It takes no memory.
#[derive(Drop)]
pub(crate) enum Step<E> {
    Start,
    Also(Snapshot<Step<E>>, Snapshot<E>),
}
