//! Laws of the outside world's bounds: each is a function without a body, whose clause is the law.
ghost use Rattle.std.specs.Prelude.{◌≡◌, ◌^◌};
ghost use Rattle.pol_wire.specs.declared.clock.TheConstants.{LAST_MOMENT};

/// The last moment that a clock answers is 2^62 milliseconds.
pub fn last_moment_is_that()
    ensures { LAST_MOMENT ≡ 2 ^ 62 }
{}
