/// How far a journal has come.
#[derive(Clone, Copy)]
pub(crate) enum Stage {
    /// Records are still to be read.
    Reading,
    /// All were read, and no append has failed since the last repair.
    Ready,
    /// An append failed.
    Unsettled(Reached),
}

/// How far a failed append came.
#[derive(Clone, Copy)]
pub(crate) enum Reached {
    /// Its gate write had not begun.
    Body,
    /// Its gate write had begun.
    Gate,
}
