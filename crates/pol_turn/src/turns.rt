ghost use Rattle.std.specs.Prelude.{◌≡◌, ◌≢◌, ℕ, ◌+◌, ◌-◌, ◌^◌, ◌<◌, ◌↔◌, ◌⊎◌, true, false, [], ◌∷◌, ◌++◌, length, drop, All, Some, None, IfOk, IfErr, IfSome, IsNone, IsTrue};
ghost use mathlib.Core.List.{IsPrefix};
ghost use Rattle.pol_turn.specs.Known.{AccountsFor, AddsAtMostOne};

use crate::pass::Pass;
use crate::plays::{Cut, Draw, Gather, Look, Order, SERVING, Serve, Settle, Shut, TICKET, VALUE};
use crate::standing::Standing;
use crate::view::View;
use atomic_table::{Refused, Table};
use std::alloc::{AllocFailed, Global};
use std::marker::Model;
use std::snapshot::Snapshot;
use std::sync::Wait;

type Board<S> = Table<
    Option<S>,
    View<<S as Standing>::Item, <S as Standing>::Fixed>,
    Snapshot<S>,
    Order,
    Global,
>;

/// A value that passes take in turns, in the order of their tickets. It stands for one log, which only grows.
#[derive(Drop)]
pub struct Turns<S: Standing> {
    board: Board<S>,
}

impl<S: Standing> Model for Turns<S> {
    ghost use Rattle.std.specs.Prelude.{◌≡◌, Some};
    ghost use Rattle.pol_turn.specs.Known.{Lock};

    ghost Value = { Lock S.Fixed };

    ghost view = { λ turns.
        record { table = turns.board.shared.table_id; fixed = Some (S.fixed turns.board.shared.key.value) } };

    ghost invariant = { λ turns. (turns.board.shared.table_id.words ≡ 2) × (turns.board.shared.table_id.slots ≡ 1) };
}

/// The value, while its turn lasts.
#[derive(Drop)]
pub struct Held<S> {
    pub value: S,
}

impl<S: Standing> Turns<S> {
    /// The lock over the value, and its founding pass, which has number 0. Where there is no memory the value comes
    /// back. The items that it stands for already count as the founding pass's own.
    pub fn new(alloc: Global, value: S) -> Result<(Turns<S>, Pass<S>), AllocFailed<S>>
        requires { All (λ item. S.number item ≡ 0) (S.items value) }
        ensures lock { IfOk result (λ made. (made.1.lock ≡ made.0) × (made.0.fixed ≡ Some (S.fixed value))) }
        ensures front { IfOk result (λ made. (made.1.front ≡ S.items value) × (made.1.own ≡ S.items value)) }
        ensures founds { IfOk result (λ made. (made.1.number ≡ 0) × (made.1.made ≡ 1) × (made.1.gathered ≡ [])
            × (made.1.has_turn ≡ false)) }
        ensures refused { IfErr result (λ refused. refused.value ≡ value) }
    {
        let opened = Snapshot::of(&value);
        let mut slots = match Vec::with_capacity(alloc, 1) {
            Ok(slots) => slots,
            Err(_) => return Err(AllocFailed { value }),
        };
        slots.push_reserved(Some(value));
        match Table::new(alloc, &[0, 0], slots, &opened) {
            Ok((board, seat)) => Ok((
                Turns { board },
                Pass {
                    number: 0,
                    made: 1,
                    seat,
                },
            )),
            Err(Refused { slots }) => Err(AllocFailed { value: only(slots) }),
        }
    }

    /// Waits for the turn of the pass, and gives the value.
    pub fn take(&self, rt: &impl Wait, pass: &mut Pass<S>) -> Held<S>
        requires lock { pass.old.lock ≡ self.now }
        requires free { pass.old.has_turn ≡ false }
        ensures front { IsPrefix pass.old.front pass.new.front }
        ensures value { (S.items result.value ≡ pass.new.front) × (Some (S.fixed result.value) ≡ self.now.fixed) }
        ensures pass { pass.new ≡ record pass.old { front = pass.new.front; has_turn = true } }
        ensures accounts { AccountsFor S.number pass.new pass.new.front }
    {
        let shared = &self.board.shared;
        let ticket = shared.fetch_add::<Draw>(&mut pass.seat, TICKET, 1);
        for _ in rt.forever() {
            let serving = shared.load::<Look>(&mut pass.seat, SERVING);
            if serving == ticket {
                let value = shared.exchange(&mut pass.seat, VALUE, None).unwrap();
                return Held { value };
            }
            shared.park(rt, SERVING, (serving % (1 << 32)) as u32);
        }
        unreachable!()
    }

    /// Gives the value back, with at most one item more, and ends the turn.
    pub fn give_back(&self, pass: &mut Pass<S>, held: Held<S>)
        requires lock { pass.old.lock ≡ self.now }
        requires turn { pass.old.has_turn ≡ true }
        requires items { AddsAtMostOne S.number pass.old.number pass.old.front (S.items held.value) }
        requires fixed { Some (S.fixed held.value) ≡ self.now.fixed }
        ensures front { pass.new.front ≡ S.items held.value }
        ensures same { S.items held.value ≡ pass.old.front → pass.new.own ≡ pass.old.own }
        ensures gained { (item : S.Item) → S.items held.value ≡ pass.old.front ++ item ∷ []
            → pass.new.own ≡ pass.old.own ++ item ∷ [] }
        ensures pass { pass.new ≡ record pass.old { front = pass.new.front; own = pass.new.own; has_turn = false } }
        ensures accounts { AccountsFor S.number pass.new pass.new.front }
    {
        let shared = &self.board.shared;
        let Held { value } = held;
        let taken = shared.exchange(&mut pass.seat, VALUE, Some(value));
        let None = taken else { unreachable!() };
        shared.fetch_add::<Serve>(&mut pass.seat, SERVING, 1);
        shared.wake_all(SERVING);
    }

    /// Makes a pass with the next number, which has seen as much as the founding pass and has no items.
    pub fn split(&self, pass: &mut Pass<S>) -> Pass<S>
        requires lock { pass.old.lock ≡ self.now }
        requires founds { pass.old.number ≡ 0 }
        requires room { pass.old.made < 2 ^ 64 - 1 }
        ensures pass { pass.new ≡ record pass.old { made = pass.old.made + 1 } }
        ensures lock { result.lock ≡ self.now }
        ensures number { result.number ≡ pass.old.made }
        ensures front { (result.front ≡ pass.old.front) × (result.own ≡ []) }
        ensures free { (result.has_turn ≡ false) × (result.made ≡ 0) × (result.gathered ≡ []) }
        ensures accounts { AccountsFor S.number result result.front × AccountsFor S.number pass.new pass.new.front }
    {
        let seat = self.board.shared.split_seat::<Cut>(&mut pass.seat);
        let number = pass.made;
        pass.made = number + 1;
        Pass {
            number,
            made: 0,
            seat,
        }
    }

    /// Puts the items of another pass under its number. Neither pass may hold the turn.
    pub fn join(&self, pass: &mut Pass<S>, other: Pass<S>)
        requires lock { (pass.old.lock ≡ self.now) × (other.lock ≡ self.now) }
        requires founds { pass.old.number ≡ 0 }
        requires free { (pass.old.has_turn ≡ false) × (other.has_turn ≡ false) }
        ensures front { IsPrefix pass.old.front pass.new.front × IsPrefix other.front pass.new.front }
        ensures longer { (pass.new.front ≡ pass.old.front) ⊎ (pass.new.front ≡ other.front) }
        ensures pass { pass.new
            ≡ record pass.old {
              front = pass.new.front;
              gathered = pass.old.gathered ++ record { number = other.number; items = other.own } ∷ [];
            } }
        ensures accounts { AccountsFor S.number pass.new pass.new.front }
    {
        let shared = &self.board.shared;
        let Pass {
            number: _,
            made: _,
            seat,
        } = other;
        shared.join_seat::<Gather>(&mut pass.seat, seat);
        shared.load::<Settle>(&mut pass.seat, SERVING);
    }

    /// Ends the lock, and gives the value where it was given back. All other passes were joined into the founding one.
    pub fn close(self, pass: Pass<S>) -> Option<S>
        requires lock { pass.lock ≡ self }
        requires founds { pass.number ≡ 0 }
        requires joined { length pass.gathered + 1 ≡ pass.made }
        ensures none { IsNone result ↔ IsTrue pass.has_turn }
        ensures front { IfSome result (λ value. IsPrefix pass.front (S.items value)) }
        ensures fixed { IfSome result (λ value. Some (S.fixed value) ≡ self.fixed) }
        ensures accounts { IfSome result (λ value. AccountsFor S.number pass (S.items value)) }
    {
        let Turns { board } = self;
        let Pass {
            number: _,
            made: _,
            mut seat,
        } = pass;
        board.shared.load::<Shut>(&mut seat, SERVING);
        let mut closed = board.close_with(seat);
        let value = closed.take(VALUE);
        closed.free();
        value
    }
}

// The one value of a row.
fn only<S>(mut slots: Vec<Option<S>>) -> S
    requires { (x : S) × (slots.items ≡ Some x ∷ []) }
    ensures { slots.items ≡ Some result ∷ [] }
{
    let value = slots.pop().unwrap().unwrap();
    slots.destroy_empty();
    value
}
