ghost use Rattle.std.specs.Prelude.{◌≡◌, Some};
ghost use Rattle.pol_content.specs.Chain.{view_at};
ghost use Rattle.pol_tables.specs.Table.{row_of};
ghost use Rattle.pol_view_rows.specs.Views.{view_id};
ghost use Rattle.pol_rules.specs.Judged.{Tells};
ghost use Rattle.pol_rules.specs.ViewRules.{no_view};
ghost use Rattle.pol_state.specs.Sound.{IsSound};

use crate::rules::{Asked, Undone};
use pol_commands::Refusal;
use pol_content::{CatalogRow, ViewRow};
use pol_names::Identifier;

/// The view of the namespace and name in the catalogue. Its namespace is there.
#[tactic(auto, unfolding(crate::specs::ViewRules::no_view))]
pub fn view_there<'a>(
    asked: &Asked<'a>,
    catalog: &CatalogRow,
    identifier: &Identifier,
) -> Result<&'a ViewRow, Undone>
    requires { IsSound asked.now.state.now.rows }
    ensures { let s = asked.now.state.now.rows in
        Tells (no_view s identifier.now catalog.now)
        (λ row. (view_at catalog.now.id identifier.now.namespace identifier.now.name s.content ≡ Some row.now)
        × (row_of view_id row.now.id s.content.views ≡ Some row.now)) result }
{
    let Some(row) = asked.state.content().view_at(catalog.id, identifier) else {
        return Err(Undone::Refused(Refusal::NoView {
            identifier: identifier.clone()?,
        }));
    };
    Ok(row)
}
