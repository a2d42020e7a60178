use std::collections::LinkedList;

/// The items that a joined pass had added, under its number. No value of it is made.
pub struct Gathered<I> {
    pub number: u64,
    pub items: LinkedList<I>,
}

/// What the seat of a pass knows. No value of it is made, and clauses read the numbers without a bound.
pub struct View<I, F> {
    pub number: u64,
    pub fixed: Option<F>,
    /// The log as it was last seen.
    pub front: LinkedList<I>,
    pub own: LinkedList<I>,
    /// How many passes there were ever, and the items of the joined ones. Only the founding pass keeps them.
    pub made: u64,
    pub gathered: LinkedList<Gathered<I>>,
    /// The shorter front of the last join, until it is told that it begins the longer.
    pub met: LinkedList<I>,
    /// The ticket that was drawn last. It counts where the pass waits.
    pub ticket: u64,
    pub waits: bool,
    /// The ticket is served: the slot is out with this seat.
    pub serves: bool,
    /// The slot went home empty.
    pub shut: bool,
    /// The pass was joined.
    pub spent: bool,
}
