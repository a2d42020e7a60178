//! New tables, and what is tested of each table that is put.
ghost use Rattle.std.specs.Prelude.{◌≡◌, [], IfOk, is_none, length, nat_lt};
ghost use Rattle.pol_commands.specs.declared.reply.Quantity.TheVariants as quantity;
ghost use Rattle.pol_sound_steps.specs.Steps.{is_row, is_table_new, may_place_table};
ghost use Rattle.pol_state.specs.Bounds.{bound_of};
ghost use Rattle.pol_state.specs.Sound.{IsSound};
ghost use Rattle.pol_table_rows.specs.Tables.{overlapping};

use pol_access_steps::{Counters, is_new_id};
use pol_commands::Quantity;
use pol_content::{Content, TableRow};
use pol_content_steps::is_name_free;
use pol_rules::rules::bound_of;
use pol_sound_bounds::table_fits;
use pol_sound_content::{has_moved, is_placed, knows_namespace};
use pol_state::State;
use pol_types::OutOfMemory;
use std::alloc::Global;

/// Whether the table has a new id and a free name, its namespace is there, and it overlaps no other.
pub(crate) fn may_place_table(
    alloc: Global,
    state: &State,
    counters: Counters,
    row: &TableRow,
) -> Result<bool, OutOfMemory>
    requires { IsSound state.now.rows }
    ensures { IfOk result (λ may. may ≡ may_place_table state.now.rows counters row.now) }
{
    if !is_table_new(state, counters, row) {
        return Ok(false);
    }
    is_placed(alloc, row)
}

fn is_table_new(state: &State, counters: Counters, row: &TableRow) -> bool
    requires { IsSound state.now.rows }
    ensures { result ≡ is_table_new state.now.rows counters row.now }
{
    is_new_id(state, counters, row.id)
        && knows_namespace(state.content(), row.namespace)
        && is_name_free(state, row.namespace, &row.name)
        && may_have_table(state.content())
        && is_row(row)
        && is_apart(state, row, &[])
}

/// Whether there may be one more table.
fn may_have_table(content: &Content) -> bool
    ensures { result ≡ nat_lt (length content.now.rows.tables)
        (bound_of quantity.Tables) }
{
    (content.tables().len() as u64) < bound_of(Quantity::Tables)
}

/// Whether the table overlaps none but those of some ids.
pub(crate) fn is_apart(state: &State, row: &TableRow, except: &[u64]) -> bool
    requires { IsSound state.now.rows }
    ensures { result ≡ is_none (overlapping row.now.location except.now state.now.rows.content.tables) }
{
    state.content().overlapping(&row.location, except).is_none()
}

/// Whether the table has moved by commits, or once besides, and no number of it is above its bound.
pub(crate) fn is_row(row: &TableRow) -> bool
    ensures { result ≡ is_row row.now }
{
    has_moved(row.moves, row.version) && table_fits(row)
}
