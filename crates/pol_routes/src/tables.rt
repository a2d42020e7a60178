//! What requests on tables ask for by their queries (Iceberg REST OpenAPI, parameters `snapshots` and
//! `purgeRequested`).
ghost use Rattle.pol_requests.specs.Refused.{Meets};
ghost use Rattle.pol_routes.specs.Tables as spec;

use crate::query::query_value;
use crate::target::query_of;
use pol_commands::Action;
use pol_names::{Identifier, Plain};
use pol_requests::{Unplanned, unreadable};
use pol_types::Text;
use std::alloc::Global;

/// The loading of a table, with all its snapshots or with those alone that its references name.
#[tactic(auto, using(pol_requests::proofs::RefusedLemmas::chained), unfolding(crate::specs::Tables::load_table))]
pub(crate) fn load_table(
    alloc: Global,
    target: &[u8],
    catalog: Plain,
    identifier: Identifier,
    delegated: bool,
) -> Result<Action, Unplanned>
    ensures { Meets (spec.load_table target.now catalog identifier delegated) result }
{
    let value = query_value(alloc, query_of(target), "snapshots")?;
    let refs_only = refs_only(alloc, value)?;
    Ok(Action::LoadTable {
        catalog,
        identifier,
        refs_only,
        delegated,
    })
}

/// Whether the snapshots are those that references name: `refs`, or else `all`, as where nothing is said.
#[tactic(auto, using(pol_requests::proofs::RefusedLemmas::refused), unfolding(crate::specs::Tables::refs_only))]
fn refs_only(alloc: Global, value: Option<Text>) -> Result<bool, Unplanned>
    ensures { Meets (spec.refs_only value) result }
{
    let Some(value) = value else {
        return Ok(false);
    };
    match value.as_str() {
        "all" => Ok(false),
        "refs" => Ok(true),
        _ => Err(unreadable(alloc, "snapshots")),
    }
}

/// The dropping of a table. Whether its files are to go too is read, and they stay either way.
#[tactic(auto, using(pol_requests::proofs::RefusedLemmas::chained), unfolding(crate::specs::Tables::drop_table))]
pub(crate) fn drop_table(
    alloc: Global,
    target: &[u8],
    catalog: Plain,
    identifier: Identifier,
) -> Result<Action, Unplanned>
    ensures { Meets (spec.drop_table target.now catalog identifier) result }
{
    purge_requested(alloc, target)?;
    Ok(Action::DropTable {
        catalog,
        identifier,
    })
}

/// Whether a query says that files are to go with a table.
#[tactic(auto, using(pol_requests::proofs::RefusedLemmas::chained), unfolding(crate::specs::Tables::purge_requested))]
fn purge_requested(alloc: Global, target: &[u8]) -> Result<bool, Unplanned>
    ensures { Meets (spec.purge_requested target.now) result }
{
    let value = query_value(alloc, query_of(target), "purgeRequested")?;
    purge_read(alloc, value)
}

/// Whether files are to go with a table: `true`, or else `false`, as where nothing is said.
#[tactic(auto, using(pol_requests::proofs::RefusedLemmas::refused), unfolding(crate::specs::Tables::purge_read))]
fn purge_read(alloc: Global, value: Option<Text>) -> Result<bool, Unplanned>
    ensures { Meets (spec.purge_read value) result }
{
    let Some(value) = value else {
        return Ok(false);
    };
    match value.as_str() {
        "true" => Ok(true),
        "false" => Ok(false),
        _ => Err(unreadable(alloc, "purgeRequested")),
    }
}
