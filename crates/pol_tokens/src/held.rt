ghost use Rattle.std.specs.Prelude.{◌≡◌, ℕ};
ghost use Rattle.pol_tokens.specs.Text.{text_of_token};

use crate::TOKEN_LENGTH;
use pol_tables::Keyed;

/// A row that a principal has until it expires, and that a text finds: that of its serial, by which it is known, and of
/// its two random words.
pub trait Held: Keyed {
    ghost holder: { Self → ℕ };

    ghost expiry: { Self → ℕ };

    ghost word_a: { Self → ℕ };

    ghost word_b: { Self → ℕ };

    /// The id of the principal.
    fn holder(&self) -> u64
        ensures { result ≡ holder self.now };

    /// The moment at which the row expires, in milliseconds.
    fn expiry(&self) -> u64
        ensures { result ≡ expiry self.now };

    /// The text that finds the row.
    fn text(&self) -> [u8; TOKEN_LENGTH]
        ensures { result ≡ text_of_token (Self.key self.now) (word_a self.now) (word_b self.now) };
}
