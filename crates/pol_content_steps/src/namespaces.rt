//! New namespaces.
ghost use Rattle.std.specs.Prelude.{◌≡◌, IfOk, is_none, length, nat_lt};
ghost use Rattle.pol_commands.specs.declared.reply.Quantity.TheVariants as quantity;
ghost use Rattle.pol_content.specs.Content.{namespace_named};
ghost use Rattle.pol_content_steps.specs.Namespaces.{is_namespace_new, may_place_namespace};
ghost use Rattle.pol_state.specs.Bounds.{bound_of};
ghost use Rattle.pol_state.specs.Sound.{IsSound};

use pol_access_steps::{Counters, is_new_id};
use pol_commands::Quantity;
use pol_content::{Content, NamespaceRow};
use pol_names::Namespace;
use pol_rules::rules::bound_of;
use pol_sound_bounds::namespace_fits;
use pol_sound_content::{has_parent, knows_catalog};
use pol_state::State;
use pol_types::OutOfMemory;
use std::alloc::Global;

/// Whether the namespace has a new id and new levels, and its catalogue and its parent are there. It scans no rows.
pub(crate) fn may_place_namespace(
    alloc: Global,
    state: &State,
    counters: Counters,
    row: &NamespaceRow,
) -> Result<bool, OutOfMemory>
    requires { IsSound state.now.rows }
    ensures { IfOk result (λ may. may ≡ may_place_namespace state.now.rows counters row.now) }
{
    if !is_namespace_new(state, counters, row) {
        return Ok(false);
    }
    has_parent(alloc, state.content(), row)
}

fn is_namespace_new(state: &State, counters: Counters, row: &NamespaceRow) -> bool
    requires { IsSound state.now.rows }
    ensures { result ≡ is_namespace_new state.now.rows counters row.now }
{
    is_new_id(state, counters, row.id)
        && knows_catalog(state.content(), row.catalog)
        && lacks_namespace(state, row.catalog, &row.levels)
        && may_have_namespace(state.content())
        && namespace_fits(row)
}

/// Whether the catalogue has no namespace of these levels.
fn lacks_namespace(state: &State, catalog: u64, levels: &Namespace) -> bool
    requires { IsSound state.now.rows }
    ensures { result ≡ is_none (namespace_named catalog levels.now state.now.rows.content) }
{
    state.content().namespace(catalog, levels).is_none()
}

/// Whether there may be one more namespace.
fn may_have_namespace(content: &Content) -> bool
    ensures { result ≡ nat_lt (length content.now.rows.namespaces)
        (bound_of quantity.Namespaces) }
{
    (content.namespaces().len() as u64) < bound_of(Quantity::Namespaces)
}
