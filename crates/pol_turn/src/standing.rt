ghost use Rattle.std.specs.Prelude.{ℕ, List};

/// A value that stands for a log: a list of items, each with the number of the pass that added it.
pub trait Standing {
    /// One event of the log.
    type Item;

    /// What is settled before the lock is made, and never changes behind it.
    type Fixed;

    /// The number of the pass that added the item.
    ghost number: { Self.Item → ℕ };

    /// The log for which the value stands.
    ghost items: { Self → List Self.Item };

    ghost fixed: { Self → Self.Fixed };
}
