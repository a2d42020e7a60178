ghost use Rattle.std.specs.Prelude.{◌≡◌, ℕ, Bool, true};

use crate::Keyed;

/// A row that is sought by its name, and the number of its name.
pub trait Named: Keyed {
    ghost number: { Self → ℕ };

    /// The number of the row's name.
    fn number(&self) -> u64
        ensures { result ≡ number self.now };
}

/// A name by which rows are sought, and its number. A row that has the name has its number.
pub trait NameOf<R: Named> {
    ghost names: { Self → R → Bool };

    ghost numbered: { Self → ℕ };

    /// The number of this name.
    fn number(&self) -> u64
        ensures { result ≡ numbered self.now };

    /// Whether the row has this name.
    fn names(&self, row: &R) -> bool
        ensures { result ≡ names self.now row.now };

    ghost numbers_agree: { (name : Self) (row : R) → names name row ≡ true → R.number row ≡ numbered name };
}
