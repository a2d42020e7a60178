ghost use Rattle.std.specs.Prelude.{◌≡◌, ◌≤◌, ◌^◌, map, Some, IfOk};
ghost use Rattle.pol_content.specs.Content.{catalog_id};
ghost use Rattle.pol_content.specs.Order.{by_name};
ghost use Rattle.pol_content.specs.Ties.{admin_grant, admin_of};
ghost use Rattle.pol_tables.specs.Table.{row_of};
ghost use Rattle.pol_content_actions.specs.Catalogs.{create_catalog, drop_catalog, get_catalog, get_config, list_catalogs, with_catalog, without_catalog};
ghost use Rattle.pol_rules.specs.Judged.{Acts, changes_to};
ghost use Rattle.pol_state.specs.Sound.{IsSound};
ghost use Rattle.pol_commands.specs.declared.reply.Answer.TheVariants.{CatalogCreated, CatalogDropped};

use pol_access::{
    CatalogRoleRow, GrantRow, JoinRow, PrincipalRoleRow, Privilege, Referent, Securable,
};
use pol_commands::Answer;
use pol_content::{CatalogRow, Change};
use pol_names::Plain;
use pol_properties::Properties;
use pol_puts::put_catalog;
use pol_rules::callers::signed_in;
use pol_rules::catalog_rules::{
    CATALOG_ADMIN, all_located, catalog_empty, catalog_free, catalog_there, kept_here, located,
    service_admin,
};
use pol_rules::drops::{push_grants, push_joins, push_roles};
use pol_rules::needs::{allowed_on_catalog, allowed_service};
use pol_rules::prologues::in_realm;
use pol_rules::rules::{Acted, Asked, Undone, time_of, unchanged};
use pol_state::texts::plain;
use pol_types::{Listed, OutOfMemory, Text, both};
use std::alloc::Global;

/// Tells how a client is to speak to a catalogue.
#[tactic(auto, using(pol_rules::proofs::LeadsLemmas::no_changes))]
pub fn get_config(asked: &Asked<'_>, name: &Plain) -> Result<Acted, Undone>
    requires { IsSound asked.now.state.now.rows }
    ensures { Acts asked.now (λ s command. get_config s command name.now) result }
{
    signed_in(asked)?;
    catalog_there(asked, name)?;
    let catalog = name.clone()?;
    Ok(unchanged(asked.alloc, Answer::ConfigTold { catalog }))
}

/// Lists all catalogues.
#[tactic(auto, using(pol_rules::proofs::ProloguesLemmas::in_realm_stops, pol_rules::proofs::LeadsLemmas::no_changes))]
pub fn list_catalogs(asked: &Asked<'_>) -> Result<Acted, Undone>
    requires { IsSound asked.now.state.now.rows }
    ensures { Acts asked.now list_catalogs result }
{
    in_realm(asked)?;
    let rows = all_catalogs(asked)?;
    Ok(unchanged(asked.alloc, Answer::CatalogsListed(rows)))
}

/// All catalogues, in byte order of their names.
fn all_catalogs(asked: &Asked<'_>) -> Result<Listed<CatalogRow>, OutOfMemory>
    ensures { IfOk result (λ rows. rows ≡ by_name asked.now.state.now.rows.content.catalogs) }
{
    let rows = asked.state.content().catalogs_by_name(asked.alloc)?;
    copies(asked.alloc, rows.as_slice())
}

fn copies(alloc: Global, rows: &[&CatalogRow]) -> Result<Listed<CatalogRow>, OutOfMemory>
    ensures { IfOk result (λ copies. copies ≡ map (λ row. row.now) rows.now) }
{
    let mut copies = Vec::new(alloc);
    for row in rows {
        copies.push((*row).clone()?)?;
    }
    Ok(Listed::from(copies))
}

/// Creates a catalogue.
#[tactic(auto, using(pol_rules::proofs::ProloguesLemmas::in_realm_stops, pol_state::proofs::BoundsLemmas::next_id_bound))]
pub fn create_catalog(
    asked: &Asked<'_>,
    name: &Plain,
    base: &Text,
    allowed: &Listed<Text>,
    properties: &Properties,
    external: bool,
) -> Result<Acted, Undone>
    requires { IsSound asked.now.state.now.rows }
    ensures { Acts asked.now
        (λ s command. create_catalog s command name.now base.now allowed.now properties.now external) result }
{
    in_realm(asked)?;
    catalog_free(asked, name)?;
    let base = located(asked.alloc, base)?;
    let allowed = all_located(asked.alloc, allowed.as_slice())?;
    kept_here(external)?;
    let row = CatalogRow {
        id: asked.state.next_id(),
        name: name.clone()?,
        base,
        allowed,
        properties: properties.clone()?,
    };
    let service = service_admin(asked.state);
    Ok(created(asked, row, service)?)
}

/// The catalogue is put with its `catalog_admin`, and two ids are taken.
fn created(
    asked: &Asked<'_>,
    row: CatalogRow,
    service: &PrincipalRoleRow,
) -> Result<Acted, OutOfMemory>
    requires sound { IsSound asked.now.state.now.rows }
    requires id { row.id ≡ asked.now.state.now.rows.next_id }
    requires within { row.id ≤ 2 ^ 62 }
    ensures answer { IfOk result (λ acted. acted.answer ≡ CatalogCreated row) }
    ensures changes { IfOk result (λ acted. acted.changes
        ≡ changes_to asked.now (λ s. with_catalog s row service.now)) }
{
    Acted::of(creation_told(&row), creation_changes(asked, row, service))
}

/// What the creation of a catalogue is answered.
fn creation_told(row: &CatalogRow) -> Result<Answer, OutOfMemory>
    ensures { IfOk result (λ answer. answer ≡ CatalogCreated row.now) }
{
    Ok(Answer::CatalogCreated(row.clone()?))
}

/// The changes that put a catalogue with its `catalog_admin`, and take two ids.
fn creation_changes(
    asked: &Asked<'_>,
    row: CatalogRow,
    service: &PrincipalRoleRow,
) -> Result<Listed<Change>, OutOfMemory>
    requires sound { IsSound asked.now.state.now.rows }
    requires id { row.id ≡ asked.now.state.now.rows.next_id }
    requires within { row.id ≤ 2 ^ 62 }
    ensures { IfOk result (λ changes. changes
        ≡ changes_to asked.now (λ s. with_catalog s row service.now)) }
{
    let catalog = row.id;
    let admin = catalog_admin(asked.alloc, catalog);
    let (admin, put) = both(admin, put_catalog(asked.alloc, row))?;
    let role = admin.id;
    Ok(Listed::from(vec![in asked.alloc;
        Change::Time(time_of(asked)),
        Change::NextId(catalog + 2),
        put,
        Change::PutCatalogRole(admin),
        Change::PutJoin(JoinRow {
            principal_role: service.id,
            catalog_role: role,
        }),
        Change::PutGrant(admin_grant(Privilege::CatalogManageAccess, catalog)),
        Change::PutGrant(admin_grant(Privilege::CatalogManageContent, catalog)),
    ]?))
}

/// The role `catalog_admin` of a catalogue, named by its id. Its own id is the one after the catalogue's.
#[tactic(auto, unfolding(pol_names::specs::Plain::plain_refusal))]
fn catalog_admin(alloc: Global, catalog: u64) -> Result<CatalogRoleRow, OutOfMemory>
    requires { catalog ≤ 2 ^ 62 }
    ensures { IfOk result (λ row. row ≡ admin_of catalog) }
{
    Ok(CatalogRoleRow {
        id: catalog + 1,
        catalog,
        name: plain(alloc, CATALOG_ADMIN)?,
    })
}

/// The grant of a privilege on a catalogue, named by its id, to its `catalog_admin`.
fn admin_grant(privilege: Privilege, catalog: u64) -> GrantRow
    requires { catalog ≤ 2 ^ 62 }
    ensures { result ≡ admin_grant privilege catalog }
{
    GrantRow {
        catalog_role: catalog + 1,
        privilege,
        securable: Securable::Catalog(catalog),
    }
}

/// Shows a catalogue.
#[tactic(auto, using(pol_rules::proofs::LeadsLemmas::no_changes))]
pub fn get_catalog(asked: &Asked<'_>, name: &Plain) -> Result<Acted, Undone>
    requires { IsSound asked.now.state.now.rows }
    ensures { Acts asked.now (λ s command. get_catalog s command name.now) result }
{
    signed_in(asked)?;
    let catalog = catalog_there(asked, name)?;
    let privilege = Privilege::CatalogReadProperties;
    allowed_on_catalog(asked, privilege, catalog)?;
    let row = catalog.clone()?;
    Ok(unchanged(asked.alloc, Answer::CatalogLoaded(row)))
}

/// Drops a catalogue.
pub fn drop_catalog(asked: &Asked<'_>, name: &Plain) -> Result<Acted, Undone>
    requires { IsSound asked.now.state.now.rows }
    ensures { Acts asked.now (λ s command. drop_catalog s command name.now) result }
{
    signed_in(asked)?;
    let row = catalog_there(asked, name)?;
    allowed_service(asked)?;
    catalog_empty(asked, row)?;
    Ok(dropped(asked, row)?)
}

/// The catalogue is taken away, with its roles and what names these.
fn dropped(asked: &Asked<'_>, row: &CatalogRow) -> Result<Acted, OutOfMemory>
    requires sound { IsSound asked.now.state.now.rows }
    requires there { row_of catalog_id row.now.id asked.now.state.now.rows.content.catalogs ≡ Some row.now }
    ensures answer { IfOk result (λ acted. acted.answer ≡ CatalogDropped) }
    ensures changes { IfOk result (λ acted. acted.changes ≡ changes_to asked.now (λ s. without_catalog s row.now)) }
{
    let mut changes = vec![in asked.alloc;
        Change::Time(time_of(asked)),
        Change::DropCatalog(row.id),
    ]?;
    push_roles(asked, row.id, &mut changes)?;
    push_joins(asked, Referent::RoleOfCatalog(row.id), &mut changes)?;
    push_grants(asked, Referent::RoleOfCatalog(row.id), &mut changes)?;
    Ok(Acted {
        answer: Answer::CatalogDropped,
        changes: Listed::from(changes),
    })
}
