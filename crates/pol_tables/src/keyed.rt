ghost use Rattle.std.specs.Prelude.{◌≡◌, ℕ};

use pol_types::Exact;

/// A row that is known by an id or a serial, a number below 2^64.
pub trait Keyed: Exact + Drop {
    ghost key: { Self → ℕ };

    /// The row's id.
    fn key(&self) -> u64
        ensures { result ≡ key self.now };
}
