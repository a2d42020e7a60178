//! The rules that actions of a kind begin with.
ghost use Rattle.std.specs.Prelude.{◌≡◌, Some};
ghost use Rattle.std.specs.Bool.{⊤};
ghost use Rattle.pol_content.specs.Content.{catalog_id, catalog_named, namespace_id};
ghost use Rattle.pol_tables.specs.Table.{row_of};
ghost use Rattle.pol_rules.specs.AccessRules.{in_catalog, in_realm};
ghost use Rattle.pol_rules.specs.Judged.{Enters};
ghost use Rattle.pol_rules.specs.Prologues.{at_table, at_view, namespace_row_at, on_namespace, table_row_at, view_row_at};
ghost use Rattle.pol_table_rows.specs.Tables.{table_id};
ghost use Rattle.pol_view_rows.specs.Views.{view_id};
ghost use Rattle.pol_state.specs.Sound.{IsSound};

use crate::callers::signed_in;
use crate::catalog_rules::catalog_there;
use crate::namespace_rules::namespace_there;
use crate::needs::{
    allowed_on_catalog, allowed_on_path, allowed_on_table, allowed_on_view, allowed_service,
};
use crate::rules::{Asked, Undone};
use crate::table_rules::table_there;
use crate::view_rules::view_there;
use pol_access::Privilege;
use pol_content::{CatalogRow, NamespaceRow, TableRow, ViewRow};
use pol_names::{Identifier, Namespace, Plain};

/// The caller may manage the realm.
pub fn in_realm(asked: &Asked<'_>) -> Result<(), Undone>
    requires { IsSound asked.now.state.now.rows }
    ensures { Enters (in_realm asked.now.state.now.rows asked.now.command.now) (λ _. ⊤) result }
{
    signed_in(asked)?;
    allowed_service(asked)?;
    Ok(())
}

/// The catalogue of the name, whose access the caller may manage.
pub fn in_catalog<'a>(asked: &Asked<'a>, name: &Plain) -> Result<&'a CatalogRow, Undone>
    requires { IsSound asked.now.state.now.rows }
    ensures { let s = asked.now.state.now.rows in
        Enters (in_catalog s asked.now.command.now name.now)
        (λ row. (catalog_named name.now s.content ≡ Some row.now)
        × (row_of catalog_id row.now.id s.content.catalogs ≡ Some row.now)) result }
{
    signed_in(asked)?;
    let row = catalog_there(asked, name)?;
    allowed_on_catalog(asked, Privilege::CatalogManageAccess, row)?;
    Ok(row)
}

/// The namespace of these levels in the catalogue of the name, on which the caller may use the privilege.
#[tactic(auto, unfolding(crate::specs::Prologues::namespace_row_at))]
pub fn on_namespace<'a>(
    asked: &Asked<'a>,
    privilege: Privilege,
    name: &Plain,
    levels: &Namespace,
) -> Result<&'a NamespaceRow, Undone>
    requires { IsSound asked.now.state.now.rows }
    ensures { let s = asked.now.state.now.rows in
        Enters (on_namespace s asked.now.command.now privilege name.now levels.now)
        (λ row. (namespace_row_at s name.now levels.now ≡ Some row.now)
        × (row_of namespace_id row.now.id s.content.namespaces ≡ Some row.now)) result }
{
    signed_in(asked)?;
    let catalog = catalog_there(asked, name)?;
    allowed_on_path(asked, privilege, levels, catalog)?;
    let row = namespace_there(asked, catalog.id, levels)?;
    Ok(row)
}

/// The table of the identifier in the catalogue of the name, on which the caller may use the privilege.
#[tactic(auto, unfolding(crate::specs::Prologues::table_row_at))]
pub fn at_table<'a>(
    asked: &Asked<'a>,
    privilege: Privilege,
    name: &Plain,
    identifier: &Identifier,
) -> Result<&'a TableRow, Undone>
    requires { IsSound asked.now.state.now.rows }
    ensures { let s = asked.now.state.now.rows in
        Enters (at_table s asked.now.command.now privilege name.now identifier.now)
        (λ row. (table_row_at s name.now identifier.now ≡ Some row.now)
        × (row_of table_id row.now.id s.content.tables ≡ Some row.now)) result }
{
    signed_in(asked)?;
    let catalog = catalog_there(asked, name)?;
    allowed_on_table(asked, privilege, identifier, catalog)?;
    namespace_there(asked, catalog.id, &identifier.namespace)?;
    let row = table_there(asked, catalog, identifier)?;
    Ok(row)
}

/// The view of the identifier in the catalogue of the name, on which the caller may use the privilege.
#[tactic(auto, unfolding(crate::specs::Prologues::view_row_at))]
pub fn at_view<'a>(
    asked: &Asked<'a>,
    privilege: Privilege,
    name: &Plain,
    identifier: &Identifier,
) -> Result<&'a ViewRow, Undone>
    requires { IsSound asked.now.state.now.rows }
    ensures { let s = asked.now.state.now.rows in
        Enters (at_view s asked.now.command.now privilege name.now identifier.now)
        (λ row. (view_row_at s name.now identifier.now ≡ Some row.now)
        × (row_of view_id row.now.id s.content.views ≡ Some row.now)) result }
{
    signed_in(asked)?;
    let catalog = catalog_there(asked, name)?;
    allowed_on_view(asked, privilege, identifier, catalog)?;
    namespace_there(asked, catalog.id, &identifier.namespace)?;
    let row = view_there(asked, catalog, identifier)?;
    Ok(row)
}
