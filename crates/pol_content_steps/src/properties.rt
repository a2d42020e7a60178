//! Namespaces: new ones, and ones in the place of their own rows, with other properties.
ghost use Rattle.std.specs.Prelude.{◌≡◌, IfOk};
ghost use Rattle.pol_content_steps.specs.Properties.{keeps_levels, may_put_namespace, may_stay_namespace};
ghost use Rattle.pol_state.specs.Sound.{IsSound};

use crate::namespaces::may_place_namespace;
use pol_access_steps::Counters;
use pol_content::NamespaceRow;
use pol_sound_bounds::namespace_fits;
use pol_state::State;
use pol_types::OutOfMemory;
use std::alloc::Global;

/// Whether the namespace may be put, beside the others or in the place of its own row. It scans no rows.
pub fn may_put_namespace(
    alloc: Global,
    state: &State,
    counters: Counters,
    row: &NamespaceRow,
) -> Result<bool, OutOfMemory>
    requires { IsSound state.now.rows }
    ensures { IfOk result (λ may. may ≡ may_put_namespace state.now.rows counters row.now) }
{
    match state.content().namespace_of(row.id) {
        Some(old) => Ok(may_stay_namespace(old, row)),
        None => may_place_namespace(alloc, state, counters, row),
    }
}

/// Whether the namespace may be put in the place of this one.
fn may_stay_namespace(old: &NamespaceRow, row: &NamespaceRow) -> bool
    ensures { result ≡ may_stay_namespace old.now row.now }
{
    keeps_levels(old, row) && namespace_fits(row)
}

fn keeps_levels(old: &NamespaceRow, row: &NamespaceRow) -> bool
    ensures { result ≡ keeps_levels old.now row.now }
{
    row.catalog == old.catalog && row.levels == old.levels
}
