ghost use Rattle.std.specs.Prelude.{ℕ, ◌≤◌, [], ◌∷◌, Option, None};
ghost use Rattle.pol_wire.specs.Streams.{IsShifted};

pub(crate) mod memory;
pub(crate) mod wall;

/// The last moment that a clock answers, in milliseconds.
pub const LAST_MOMENT: u64 = 1 << 62;

/// A clock that may also go back.
pub trait Clock {
    // The moments that it will answer from now on, where the object tells.
    ghost moments: { Self → Option (ℕ → ℕ) } = { λ _. None };

    /// The moment now, in milliseconds since the Unix epoch: at most [`LAST_MOMENT`].
    fn now(&mut self) -> u64
        ensures bound { result ≤ LAST_MOMENT }
        ensures moment { IsShifted (moments self.old) (moments self.new) (result ∷ []) };
}
