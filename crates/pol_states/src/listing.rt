//! All changes that make a state anew.
ghost use Rattle.std.specs.Prelude.{◌≡◌, ◌++◌, map, IfOk, OnOk};
ghost use Rattle.pol_access.specs.Order.{grants_in_order, joins_in_order, members_in_order};
ghost use Rattle.pol_content.specs.declared.change.Change.TheVariants.{PutCatalog, PutCatalogRole, PutGrant, PutJoin, PutMember, PutNamespace, PutPrincipal, PutPrincipalRole, PutTable, PutView};
ghost use Rattle.pol_rules.specs.Live.{live_part};
ghost use Rattle.pol_state.specs.Changes.{changes_between};
ghost use Rattle.pol_state.specs.Rows.{empty_state};
ghost use Rattle.pol_state.specs.Sound.{IsSound};

use crate::heading::heading;
use crate::live::push_live;
use crate::put::{push_facts, push_puts};
use pol_access::Access;
use pol_content::{Change, Content};
use pol_state::State;
use pol_tables::sorted_facts;
use pol_tallies::FactRows;
use pol_types::OutOfMemory;
use std::alloc::Global;

/// The changes that lead from the empty state to the live part of this one: its time, its counters, and a put of each
/// row but for what is no longer live: sessions and storage tokens that are expired, and sessions whose principal is
/// gone.
pub fn all_changes(alloc: Global, state: &State) -> Result<Vec<Change>, OutOfMemory>
    requires { IsSound state.now.rows }
    ensures { IfOk result (λ changes.
        changes.items ≡ changes_between empty_state (live_part state.now.rows)) }
{
    let mut changes = heading(alloc, state)?;
    push_rows(alloc, state.access(), state.content(), &mut changes)?;
    push_members(alloc, state.access(), &mut changes)?;
    push_joins(alloc, state.access(), &mut changes)?;
    push_grants(alloc, state.access(), &mut changes)?;
    push_live(alloc, state, &mut changes)?;
    Ok(changes)
}

/// Pushes the puts of the rows that have ids.
fn push_rows(
    alloc: Global,
    access: &Access,
    content: &Content,
    changes: &mut Vec<Change>,
) -> Result<(), OutOfMemory>
    ensures { let access = access.now.rows in let content = content.now.rows in
        OnOk result (changes.new.items ≡ ((((((changes.old.items
        ++ map PutPrincipal access.principals) ++ map PutPrincipalRole access.principal_roles)
        ++ map PutCatalog content.catalogs) ++ map PutCatalogRole access.catalog_roles)
        ++ map PutNamespace content.namespaces) ++ map PutTable content.tables) ++ map PutView content.views) }
{
    push_puts(alloc, access.principals(), changes)?;
    push_puts(alloc, access.principal_roles(), changes)?;
    push_puts(alloc, content.catalogs(), changes)?;
    push_puts(alloc, access.catalog_roles(), changes)?;
    push_puts(alloc, content.namespaces(), changes)?;
    push_puts(alloc, content.tables(), changes)?;
    push_puts(alloc, content.views(), changes)
}

/// Pushes the puts of the members, in rising order.
#[tactic(auto, using(crate::proofs::FactOrderLemmas::members_sorted))]
fn push_members(
    alloc: Global,
    access: &Access,
    changes: &mut Vec<Change>,
) -> Result<(), OutOfMemory>
    ensures { OnOk result (changes.new.items
        ≡ changes.old.items ++ map PutMember (members_in_order access.now.rows.members)) }
{
    let rows = sorted_facts(copies(alloc, access.members())?)?;
    push_facts(alloc, rows.as_slice(), changes)
}

/// Pushes the puts of the joins, in rising order.
#[tactic(auto, using(crate::proofs::FactOrderLemmas::joins_sorted))]
fn push_joins(alloc: Global, access: &Access, changes: &mut Vec<Change>) -> Result<(), OutOfMemory>
    ensures { OnOk result (changes.new.items
        ≡ changes.old.items ++ map PutJoin (joins_in_order access.now.rows.joins)) }
{
    let rows = sorted_facts(copies(alloc, access.joins())?)?;
    push_facts(alloc, rows.as_slice(), changes)
}

/// Pushes the puts of the grants, in rising order.
#[tactic(auto, using(crate::proofs::FactOrderLemmas::grants_sorted))]
fn push_grants(alloc: Global, access: &Access, changes: &mut Vec<Change>) -> Result<(), OutOfMemory>
    ensures { OnOk result (changes.new.items
        ≡ changes.old.items ++ map PutGrant (grants_in_order access.now.rows.grants)) }
{
    let rows = sorted_facts(copies(alloc, access.grants())?)?;
    push_facts(alloc, rows.as_slice(), changes)
}

fn copies<T: Copy>(alloc: Global, facts: FactRows<'_, T>) -> Result<Vec<T>, OutOfMemory>
    ensures { IfOk result (λ copies. copies.items ≡ facts.entry) }
{
    Ok(facts.copied().collect(alloc)?)
}
