//! Views that are put, beside the others or in the places of their own rows.
ghost use Rattle.std.specs.Prelude.{◌≡◌, true, IfOk, length, nat_lt};
ghost use Rattle.pol_commands.specs.declared.reply.Quantity.TheVariants as quantity;
ghost use Rattle.pol_content.specs.declared.change.Change.TheVariants.{PutView};
ghost use Rattle.pol_sound_content.specs.Valid.{HasValidViewMetadata};
ghost use Rattle.pol_access_steps.specs.Counters.{counted, may_follow};
ghost use Rattle.pol_content_steps.specs.Views.{has_view_name, is_view, is_view_new, keeps_view_name, may_place_view, may_replace_view};
ghost use Rattle.pol_state.specs.Applied.{changed};
ghost use Rattle.pol_state.specs.Bounds.{bound_of};
ghost use Rattle.pol_state.specs.Sound.{IsSound};

use crate::names::{is_name_free, may_take_name};
use pol_access_steps::{Counters, is_new_id};
use pol_commands::Quantity;
use pol_content::{Content, ViewRow};
use pol_rules::rules::bound_of;
use pol_sound_bounds::view_fits;
use pol_sound_content::{is_located, knows_namespace};
use pol_state::State;
use pol_types::OutOfMemory;
use std::alloc::Global;

/// Whether the view may be put, beside the others or in the place of its own row.
pub fn may_put_view(
    alloc: Global,
    state: &State,
    counters: Counters,
    row: &ViewRow,
) -> Result<bool, OutOfMemory>
    requires sound { IsSound state.now.rows }
    requires follows { may_follow state.now.rows counters ≡ true }
    requires valid { HasValidViewMetadata row.now }
    ensures { IfOk result (λ sound. sound ≡ true
        → IsSound (changed (counted state.now.rows counters) (PutView row.now))) }
{
    let Some(old) = state.content().view_of(row.id) else {
        return may_place_view(alloc, state, counters, row);
    };
    may_replace_view(alloc, state, old, row)
}

/// Whether the view has a new id and a free name, and its namespace is there. It scans no rows.
fn may_place_view(
    alloc: Global,
    state: &State,
    counters: Counters,
    row: &ViewRow,
) -> Result<bool, OutOfMemory>
    requires { IsSound state.now.rows }
    ensures { IfOk result (λ may. may ≡ may_place_view state.now.rows counters row.now) }
{
    if !is_view_new(state, counters, row) {
        return Ok(false);
    }
    is_located(alloc, row.metadata.get().location.as_str())
}

fn is_view_new(state: &State, counters: Counters, row: &ViewRow) -> bool
    requires { IsSound state.now.rows }
    ensures { result ≡ is_view_new state.now.rows counters row.now }
{
    is_new_id(state, counters, row.id)
        && knows_namespace(state.content(), row.namespace)
        && is_name_free(state, row.namespace, &row.name)
        && may_have_view(state.content())
        && is_view(row)
}

/// Whether there may be one more view.
fn may_have_view(content: &Content) -> bool
    ensures { result ≡ nat_lt (length content.now.rows.views)
        (bound_of quantity.Views) }
{
    (content.views().len() as u64) < bound_of(Quantity::Views)
}

/// Whether the view may be put in the place of this one: it has its name, or one that it may get.
fn may_replace_view(
    alloc: Global,
    state: &State,
    old: &ViewRow,
    row: &ViewRow,
) -> Result<bool, OutOfMemory>
    requires { IsSound state.now.rows }
    ensures { IfOk result (λ may. may ≡ may_replace_view state.now.rows old.now row.now) }
{
    if !has_view_name(state, old, row) {
        return Ok(false);
    }
    if !is_view(row) {
        return Ok(false);
    }
    is_located(alloc, row.metadata.get().location.as_str())
}

fn has_view_name(state: &State, old: &ViewRow, row: &ViewRow) -> bool
    requires { IsSound state.now.rows }
    ensures { result ≡ has_view_name state.now.rows old.now row.now }
{
    keeps_view_name(old, row) || may_take_name(state, old.namespace, row.namespace, &row.name)
}

fn keeps_view_name(old: &ViewRow, row: &ViewRow) -> bool
    ensures { result ≡ keeps_view_name old.now row.now }
{
    row.namespace == old.namespace && row.name == old.name
}

/// Whether the view has few versions, and no number of it is above its bound.
fn is_view(row: &ViewRow) -> bool
    ensures { result ≡ is_view row.now }
{
    row.metadata.get().versions.len() <= 100 && view_fits(row)
}
