ghost use Rattle.std.specs.Prelude.{◌≡◌, ◌<◌, ◌≤◌, ℕ, List, length, get_or};

/// A row or a fact that belongs to groups, each known by a number.
pub trait Grouped {
    ghost groups: { Self → List ℕ };

    ghost MOST: { ℕ };

    /// The most groups that one belongs to.
    const MOST: usize;

    /// How many groups it belongs to.
    fn group_count(&self) -> usize
        ensures all { result ≡ length (groups self.now) }
        ensures few { length (groups self.now) ≤ MOST };

    /// The group at this place of them.
    fn group(&self, place: usize) -> u64
        requires { place < length (groups self.now) }
        ensures { result ≡ get_or (groups self.now) place 0 };
}
