ghost use Rattle.std.specs.Prelude.{◌≡◌, ◌+◌, ◌<◌, ◌≤◌, ◌^◌, [], IfOk, Ok};
ghost use Rattle.pol_rules.specs.Judged.{Sees};
ghost use Rattle.pol_commands.specs.declared.reply.Refusal.TheVariants.{Limit};
ghost use Rattle.pol_state.specs.Bounds.{above, bound_of};
ghost use Rattle.pol_rules.specs.Rules.{run_full, time_of};
ghost use Rattle.pol_state.specs.Sound.{IsSound};
ghost use Rattle.pol_rules.specs.declared.rules.Undone.TheVariants.{OutOfMemory as Unallocated, Refused as IsRefused};

use pol_commands::{Answer, Command, Quantity, Refusal};
use pol_content::Change;
use pol_state::State;
use pol_types::{Listed, OutOfMemory, both};
use std::alloc::{AllocError, AllocFailed, Global};

/// What the charges of one run come to at most.
const RUN_BOUND: u64 = 1 << 30;

/// A command, the state that it is judged and done in, and the allocator that its answer takes memory from.
#[derive(Clone, Copy)]
pub struct Asked<'a> {
    pub alloc: Global,
    pub state: &'a State,
    pub command: &'a Command,
}

/// Why a command isn't done.
#[derive(Drop)]
pub enum Undone {
    Refused(Refusal),
    OutOfMemory,
}

impl From<Refusal> for Undone {
    ghost from_gives = { λ why undone. undone ≡ IsRefused why };

    fn from(why: Refusal) -> Self {
        Undone::Refused(why)
    }
}

impl From<OutOfMemory> for Undone {
    ghost from_gives = { λ _ undone. undone ≡ Unallocated };

    fn from(_error: OutOfMemory) -> Self {
        Undone::OutOfMemory
    }
}

impl From<AllocError> for Undone {
    ghost from_gives = { λ _ undone. undone ≡ Unallocated };

    fn from(_error: AllocError) -> Self {
        Undone::OutOfMemory
    }
}

impl<T: Drop> From<AllocFailed<T>> for Undone {
    ghost from_gives = { λ _ undone. undone ≡ Unallocated };

    fn from(_error: AllocFailed<T>) -> Self {
        Undone::OutOfMemory
    }
}

/// What an action that is done answers and changes.
#[derive(Drop)]
pub struct Acted {
    pub answer: Answer,
    pub changes: Listed<Change>,
}

impl Acted {
    /// What an action answers and what it changes, where memory sufficed for both.
    pub fn of(
        answer: Result<Answer, OutOfMemory>,
        changes: Result<Listed<Change>, OutOfMemory>,
    ) -> Result<Acted, OutOfMemory>
        ensures answer { IfOk result (λ acted. answer ≡ Ok acted.answer) }
        ensures changes { IfOk result (λ acted. changes ≡ Ok acted.changes) }
    {
        let (answer, changes) = both(answer, changes)?;
        Ok(Acted { answer, changes })
    }
}

/// The run has room for the charge.
#[tactic(auto, unfolding(crate::specs::Rules::run_full))]
pub fn run_open(state: &State, charge: u64) -> Result<(), Refusal>
    requires { IsSound state.now.rows }
    ensures { Sees (run_full state.now.rows charge) (λ _. state.now.rows.charged + charge ≤ 2 ^ 30) result }
{
    let charged = state.charged();
    if charge > RUN_BOUND - charged {
        return Err(Refusal::RunFull { charged, charge });
    }
    Ok(())
}

/// The time of a command: the greater of the state's and its moment.
pub fn time_of(asked: &Asked<'_>) -> u64
    ensures { result ≡ time_of asked.now.state.now.rows asked.now.command.now }
{
    asked.state.time().max(asked.command.moment)
}

/// What an action that changes nothing comes to.
pub fn unchanged(alloc: Global, answer: Answer) -> Acted
    ensures answer { result.answer ≡ answer }
    ensures changes { result.changes ≡ [] }
{
    Acted {
        answer,
        changes: Listed::from(Vec::new(alloc)),
    }
}

/// What the number of a quantity comes to at most.
pub fn bound_of(quantity: Quantity) -> u64
    ensures { result ≡ bound_of quantity }
{
    match quantity {
        Quantity::AllowedLocations | Quantity::TransactionTables => 100,
        Quantity::Catalogs
        | Quantity::Schemas
        | Quantity::PartitionSpecs
        | Quantity::SortOrders
        | Quantity::Refs
        | Quantity::Properties => 1_000,
        Quantity::Principals
        | Quantity::PrincipalRoles
        | Quantity::CatalogRoles
        | Quantity::Snapshots => 10_000,
        Quantity::Members
        | Quantity::Joins
        | Quantity::Grants
        | Quantity::Namespaces
        | Quantity::Tables
        | Quantity::Views => 100_000,
        Quantity::Weight => 16_777_216,
        Quantity::NextId | Quantity::NextSerial | Quantity::Version => 1 << 62,
    }
}

/// The refusal of a number of the quantity that is above its bound.
pub fn limit(quantity: Quantity) -> Refusal
    ensures { result ≡ Limit quantity (bound_of quantity) }
{
    let bound = bound_of(quantity);
    Refusal::Limit { quantity, bound }
}

/// A number of the quantity is within its bound.
pub fn within(quantity: Quantity, number: u64) -> Result<(), Refusal>
    ensures { Sees (above quantity number) (λ _. number ≤ bound_of quantity) result }
{
    if number > bound_of(quantity) {
        return Err(limit(quantity));
    }
    Ok(())
}
