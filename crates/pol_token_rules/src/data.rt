//! What a caller needs to be issued a storage token.
ghost use Rattle.std.specs.Prelude.{◌≡◌, IfOk, Some};
ghost use Rattle.std.specs.Bool.{⊤};
ghost use Rattle.pol_rules.specs.Judged.{Enters, Judges};
ghost use Rattle.pol_rules.specs.Needs.{forbidden};
ghost use Rattle.pol_rules.specs.Prologues.{table_row_at};
ghost use Rattle.pol_state.specs.Sound.{IsSound};
ghost use Rattle.pol_table_rows.specs.Tables.{table_id};
ghost use Rattle.pol_tables.specs.Table.{row_of};
ghost use Rattle.pol_token_rules.specs.DataNeeds.{at_table_data, data_on_path, data_on_table, may_write, with_data};

use pol_access::{Privilege, Securable};
use pol_content::{CatalogRow, TableRow};
use pol_names::{Identifier, Namespace, Plain};
use pol_rules::callers::signed_in;
use pol_rules::catalog_rules::catalog_there;
use pol_rules::namespace_rules::namespace_there;
use pol_rules::needs::{Need, allowed, caller_may};
use pol_rules::rules::{Asked, Undone, time_of};
use pol_rules::table_rules::table_there;
use pol_types::OutOfMemory;

/// The caller may use the privilege on the deepest part of a path in the catalogue that is there, and read the data of
/// tables there.
pub fn data_allowed_on_path(
    asked: &Asked<'_>,
    privilege: Privilege,
    levels: &Namespace,
    catalog: &CatalogRow,
) -> Result<(), Undone>
    requires { IsSound asked.now.state.now.rows }
    ensures { let s = asked.now.state.now.rows in
        Judges (forbidden s asked.now.command.now (data_on_path s privilege levels.now catalog.now)) (λ _. ⊤) result }
{
    let content = asked.state.content();
    let on = content.deepest(asked.alloc, catalog.id, levels)?;
    allowed(asked, &with_data(privilege, on))
}

/// The caller may use the privilege on the deepest part of a table's path that is there, and read data there.
pub fn data_allowed_on_table(
    asked: &Asked<'_>,
    privilege: Privilege,
    identifier: &Identifier,
    catalog: &CatalogRow,
) -> Result<(), Undone>
    requires { IsSound asked.now.state.now.rows }
    ensures { let s = asked.now.state.now.rows in
        Judges (forbidden s asked.now.command.now (data_on_table s privilege identifier.now catalog.now))
        (λ _. ⊤) result }
{
    let content = asked.state.content();
    let on = content.deepest_of_table(asked.alloc, catalog.id, identifier)?;
    allowed(asked, &with_data(privilege, on))
}

/// The privilege, and that to read a table's data.
fn with_data(privilege: Privilege, on: Securable) -> [Need; 2]
    ensures { result ≡ with_data privilege on }
{
    let read = Need {
        privilege: Privilege::TableReadData,
        on,
    };
    [Need { privilege, on }, read]
}

/// The table of the identifier in the catalogue of the name, on which the caller may use the privilege, and whose data
/// it may read.
#[tactic(auto, unfolding(pol_rules::specs::Prologues::table_row_at))]
pub fn at_table_data<'a>(
    asked: &Asked<'a>,
    privilege: Privilege,
    name: &Plain,
    identifier: &Identifier,
) -> Result<&'a TableRow, Undone>
    requires { IsSound asked.now.state.now.rows }
    ensures { let s = asked.now.state.now.rows in
        Enters (at_table_data s asked.now.command.now privilege name.now identifier.now)
        (λ row. (table_row_at s name.now identifier.now ≡ Some row.now)
        × (row_of table_id row.now.id s.content.tables ≡ Some row.now)) result }
{
    signed_in(asked)?;
    let catalog = catalog_there(asked, name)?;
    data_allowed_on_table(asked, privilege, identifier, catalog)?;
    namespace_there(asked, catalog.id, &identifier.namespace)?;
    let row = table_there(asked, catalog, identifier)?;
    Ok(row)
}

/// Whether the caller may write the data of the tables of a securable.
pub fn may_write(asked: &Asked<'_>, on: Securable) -> Result<bool, OutOfMemory>
    requires { IsSound asked.now.state.now.rows }
    ensures { IfOk result (λ may. may ≡ may_write asked.now.state.now.rows asked.now.command.now on) }
{
    let need = Need {
        privilege: Privilege::TableWriteData,
        on,
    };
    caller_may(asked, time_of(asked), &need)
}
