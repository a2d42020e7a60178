ghost use Rattle.std.specs.Prelude.{◌≡◌};
ghost use Rattle.pol_turn.specs.Known.{AccountsFor};

use crate::standing::Standing;
use crate::view::View;
use atomic_table::Seat;
use std::marker::Model;

/// The right to take turns at one lock. Contracts see it as what it knows (`specs/Known.antt`).
#[derive(Drop)]
pub struct Pass<S: Standing> {
    pub(crate) number: u64,
    pub(crate) made: u64,
    pub(crate) seat: Seat<Option<S>, View<S::Item, S::Fixed>>,
}

impl<S: Standing> Model for Pass<S> {
    ghost use Rattle.pol_turn.specs.Known.{Known};
    ghost use Rattle.pol_turn.specs.Rule.{known, IsAtRest};

    ghost Value = { Known S.Item S.Fixed };

    ghost view = { λ pass. known pass.seat };

    ghost invariant = { λ pass. IsAtRest S.number pass.number pass.made pass.seat };
}

impl<S: Standing> Pass<S> {
    /// The founding pass has number 0, and the others have theirs in the order in which they were made.
    pub fn number(&self) -> u64
        ensures number { result ≡ self.now.number }
        ensures accounts { AccountsFor S.number self.now self.now.front }
    {
        self.number
    }
}
