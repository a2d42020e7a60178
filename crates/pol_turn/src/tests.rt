ghost use Rattle.std.specs.Prelude.{Some, ◌≡◌, ◌==◌, ◌+◌, [], ◌∷◌, ◌++◌, false, length, map, All, IfOk, OnOk, count_by};
ghost use Rattle.pol_turn.specs.Known.{items_by};

use super::*;
use std::alloc::{AllocError, AllocFailed, Global};
use std::sync::Wait;
use std::test::*;
use std::thread;
use std::thread::Threads;

const EACH: u64 = 10_000;

/// An amount, and the pass that entered it.
#[derive(Clone, Copy)]
struct Entry {
    number: u64,
    amount: u64,
}

/// A list of entries, beside the amount that stood before. It has no `Drop`.
struct Account {
    opening: u64,
    entries: Vec<Entry>,
}

impl Standing for Account {
    type Item = Entry;

    type Fixed = u64;

    ghost number = { λ entry. entry.number };

    ghost items = { λ account. account.entries.items };

    ghost fixed = { λ account. account.opening };
}

impl Account {
    fn count(&self, number: u64) -> usize
        ensures { result ≡ count_by (λ entry. entry.number == number) self.now.entries.items }
    {
        self.entries
            .iter()
            .filter(|entry| entry.number == number)
            .count()
    }

    /// How many entries have each of the numbers from 0 to 4.
    fn into_counts(self) -> [usize; 5]
        ensures { result ≡ map (λ number. count_by (λ entry. entry.number == number) self.entries.items)
            (0 ∷ 1 ∷ 2 ∷ 3 ∷ 4 ∷ []) }
    {
        let counts = [
            self.count(0),
            self.count(1),
            self.count(2),
            self.count(3),
            self.count(4),
        ];
        let Account {
            opening: _,
            entries: _,
        } = self;
        counts
    }
}

/// The lock over an empty account.
fn open(alloc: Global) -> Result<(Turns<Account>, Pass<Account>), AllocError>
    ensures lock { IfOk result (λ made. made.1.lock ≡ made.0) }
    ensures founds { IfOk result (λ made. (made.1.number ≡ 0) × (made.1.made ≡ 1)
        × (made.1.gathered ≡ []) × (made.1.has_turn ≡ false)) }
{
    let account = Account {
        opening: 7,
        entries: Vec::new(alloc),
    };
    Turns::new(alloc, account).map_err(|AllocFailed { value: account }| {
        let Account {
            opening: _,
            entries: _,
        } = account;
        AllocError
    })
}

/// Adds an entry of the pass.
fn enter<R: Wait>(
    rt: &R,
    turns: &Turns<Account>,
    pass: &mut Pass<Account>,
    amount: u64,
) -> Result<(), AllocError>
    requires lock { pass.old.lock ≡ turns.now }
    requires free { pass.old.has_turn ≡ false }
    ensures pass { pass.new ≡ record pass.old { front = pass.new.front; own = pass.new.own } }
    ensures entered { OnOk result (pass.new.own
        ≡ pass.old.own ++ record { number = pass.old.number; amount = amount } ∷ []) }
{
    let number = pass.number();
    let Held { value: mut account } = turns.take(rt, pass);
    let pushed = account.entries.push(Entry { number, amount });
    turns.give_back(pass, Held { value: account });
    pushed?;
    Ok(())
}

/// Adds many entries of the pass.
fn enter_many<R: Wait>(
    rt: &R,
    turns: &Turns<Account>,
    pass: &mut Pass<Account>,
) -> Result<(), AllocError>
    requires lock { pass.old.lock ≡ turns.now }
    requires free { pass.old.has_turn ≡ false }
    ensures pass { pass.new ≡ record pass.old { front = pass.new.front; own = pass.new.own } }
    ensures entered { OnOk result (length pass.new.own ≡ length pass.old.own + EACH) }
{
    for amount in 0..EACH {
        enter(rt, turns, pass, amount)?;
    }
    Ok(())
}

/// Each pass adds many entries, in a thread of its own.
fn enter_abreast<R: Threads + Wait + Sync>(
    rt: &R,
    turns: &Turns<Account>,
    passes: &mut [Pass<Account>],
)
    requires { All (λ pass. (pass.lock ≡ turns.now) × (pass.has_turn ≡ false)) passes.old }
    ensures { All (λ pass. (pass.lock ≡ turns.now) × (pass.has_turn ≡ false)) passes.new }
{
    thread::for_each_mut(
        rt,
        passes,
        4,
        &|_, pass| {
            let _ = enter_many(rt, turns, pass);
        },
    );
}

/// Two passes that the founding one makes enter an amount each, and are joined: the account has the founding pass's
/// entries as before, and one entry of each of the two.
fn enter_two<R: Wait>(
    rt: &R,
    turns: Turns<Account>,
    mut founder: Pass<Account>,
) -> Result<Account, AllocError>
    requires lock { founder.lock ≡ turns }
    requires founds { (founder.number ≡ 0) × (founder.made ≡ 1) × (founder.gathered ≡ []) × (founder.has_turn ≡ false) }
    ensures founder { IfOk result (λ account. items_by (λ entry. entry.number) 0 account.entries.items ≡ founder.own) }
    ensures first { IfOk result (λ account. items_by (λ entry. entry.number) 1 account.entries.items
        ≡ record { number = 1; amount = 10 } ∷ []) }
    ensures second { IfOk result (λ account. items_by (λ entry. entry.number) 2 account.entries.items
        ≡ record { number = 2; amount = 20 } ∷ []) }
    ensures opening { IfOk result (λ account. Some account.opening ≡ turns.fixed) }
{
    let mut first = turns.split(&mut founder);
    let mut second = turns.split(&mut founder);
    let one = enter(rt, &turns, &mut first, 10);
    let two = enter(rt, &turns, &mut second, 20);
    turns.join(&mut founder, first);
    turns.join(&mut founder, second);
    let account = turns.close(founder).unwrap();
    match one.and(two) {
        Ok(()) => Ok(account),
        Err(error) => {
            let Account {
                opening: _,
                entries: _,
            } = account;
            Err(error)
        }
    }
}

/// How many entries have each of the numbers from 0 to 4 where the lock gives the account back at its end.
fn counts_at_the_end(turns: Turns<Account>, founder: Pass<Account>) -> Option<[usize; 5]>
    requires lock { founder.lock ≡ turns }
    requires founds { founder.number ≡ 0 }
    requires joined { length founder.gathered + 1 ≡ founder.made }
{
    match turns.close(founder) {
        Some(account) => Some(account.into_counts()),
        None => None,
    }
}

/// Four passes add all their entries, each in a thread of its own, and are joined from the last one on.
fn enter_in_threads<R: Threads + Wait + Sync>(
    rt: &R,
    turns: &Turns<Account>,
    founder: &mut Pass<Account>,
)
    requires lock { founder.old.lock ≡ turns.now }
    requires founds { (founder.old.number ≡ 0) × (founder.old.made ≡ 1)
        × (founder.old.gathered ≡ []) × (founder.old.has_turn ≡ false) }
    ensures founds { (founder.new.lock ≡ turns.now) × (founder.new.number ≡ 0) }
    ensures joined { length founder.new.gathered + 1 ≡ founder.new.made }
{
    let mut passes = [
        turns.split(founder),
        turns.split(founder),
        turns.split(founder),
        turns.split(founder),
    ];
    enter_abreast(rt, turns, &mut passes);
    let [first, second, third, fourth] = passes;
    turns.join(founder, fourth);
    turns.join(founder, third);
    turns.join(founder, second);
    turns.join(founder, first);
}

/// An account of one entry is taken and not given back: what it has, and what the lock gives at its end.
fn keep_the_account<R: Wait>(
    rt: &R,
    turns: Turns<Account>,
    mut founder: Pass<Account>,
) -> ([usize; 5], Option<[usize; 5]>)
    requires lock { founder.lock ≡ turns }
    requires founds { (founder.number ≡ 0) × (founder.made ≡ 1) × (founder.gathered ≡ []) × (founder.has_turn ≡ false) }
{
    let _ = enter(rt, &turns, &mut founder, 10);
    let Held { value: account } = turns.take(rt, &mut founder);
    (account.into_counts(), counts_at_the_end(turns, founder))
}

#[test]
fn each_pass_has_its_entry_in_one_log(rt: HostRuntime) -> Result<(), Fail> {
    let (turns, founder) = open(rt.alloc())?;
    let account = enter_two(&rt, turns, founder)?;
    assert!(rt; account.opening == 7);
    assert!(rt; account.into_counts() == [0, 1, 1, 0, 0]);
    Ok(())
}

#[test]
fn value_that_is_out_does_not_come_back(rt: HostRuntime) -> Result<(), Fail> {
    let (turns, founder) = open(rt.alloc())?;
    let (taken, given) = keep_the_account(&rt, turns, founder);
    assert!(rt; taken == [1, 0, 0, 0, 0] && given.is_none());
    Ok(())
}

#[test]
fn four_threads_add_all_their_entries(rt: HostRuntime) -> Result<(), Fail> {
    let (turns, mut founder) = open(rt.alloc())?;
    enter_in_threads(&rt, &turns, &mut founder);
    let counts = counts_at_the_end(turns, founder);
    assert!(rt; counts == Some([0, 10_000, 10_000, 10_000, 10_000]));
    Ok(())
}
