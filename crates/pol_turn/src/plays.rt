//! The rule of the table, and its steps by name.
use crate::standing::Standing;
use crate::view::View;
use atomic_table::{Join, Play, Split, TableRule};
use std::snapshot::Snapshot;

/// The word of the ticket that is served.
pub(crate) const SERVING: usize = 0;

/// The word of the next ticket to be drawn.
pub(crate) const TICKET: usize = 1;

/// The slot of the value.
pub(crate) const VALUE: usize = 0;

/// The rule, over the value with which the lock was made.
pub(crate) struct Order;

impl<S: Standing> TableRule<Option<S>, View<S::Item, S::Fixed>, Snapshot<S>> for Order {
    ghost use Rattle.pol_turn.specs.Rule.{Ruled, founding};

    ghost holds = { λ opened. Ruled S.number S.items S.fixed opened.value };

    ghost first = { λ opened. founding (S.items opened.value) (S.fixed opened.value) };
}

/// Draws a ticket.
pub(crate) struct Draw;

impl<S: Standing> Play<Option<S>, View<S::Item, S::Fixed>> for Draw {
    ghost use Rattle.pol_turn.specs.Steps.{Draws};

    ghost then = { Draws };
}

/// Looks whether the ticket is served, and then takes the slot out.
pub(crate) struct Look;

impl<S: Standing> Play<Option<S>, View<S::Item, S::Fixed>> for Look {
    ghost use Rattle.pol_turn.specs.Steps.{Looks};

    ghost then = { Looks S.number S.items S.fixed };
}

/// Brings the slot home, and serves the next ticket.
pub(crate) struct Serve;

impl<S: Standing> Play<Option<S>, View<S::Item, S::Fixed>> for Serve {
    ghost use Rattle.pol_turn.specs.Steps.{Serves};

    ghost then = { Serves S.number S.items };
}

/// Tells what a join has not told yet.
pub(crate) struct Settle;

impl<S: Standing> Play<Option<S>, View<S::Item, S::Fixed>> for Settle {
    ghost use Rattle.pol_turn.specs.Steps.{Settled};

    ghost then = { Settled S.number };
}

/// Brings the slot home empty, where it is out.
pub(crate) struct Shut;

impl<S: Standing> Play<Option<S>, View<S::Item, S::Fixed>> for Shut {
    ghost use Rattle.pol_turn.specs.Steps.{Shuts};

    ghost then = { Shuts };
}

/// Cuts a new pass off the founding pass.
pub(crate) struct Cut;

impl<I, F> Split<View<I, F>> for Cut {
    ghost use Rattle.pol_turn.specs.Rule.{with_one_more, newcomer};

    ghost left = { with_one_more };

    ghost right = { newcomer };
}

/// Puts the items of another pass under its number.
pub(crate) struct Gather;

impl<I, F> Join<View<I, F>> for Gather {
    ghost use Rattle.pol_turn.specs.Rule.{gathering, gone_view};

    ghost both = { gathering };

    ghost spent = { gone_view };
}
