//! Whether principals and roles are tied to catalogues, namespaces, tables and views.
ghost use Rattle.std.specs.Prelude.{◌≡◌, ◌&&◌, not, codes, option_copied};
ghost use Rattle.std.specs.List.{list_all};
ghost use Rattle.pol_access.specs.Names.{catalog_role_named};
ghost use Rattle.pol_access.specs.declared.privilege.Privilege.TheVariants.{CatalogManageAccess, CatalogManageContent};
ghost use Rattle.pol_content.specs.Content.{catalog_id};
ghost use Rattle.pol_access.specs.declared.securable.Securable.TheVariants as securable;
ghost use Rattle.pol_content.specs.Ties.{catalog_of, catalog_of_namespace, is_access_id, manages};
ghost use Rattle.pol_soundness.specs.Judged.{are_apart, are_tied, has_admin, is_admin, is_within};
ghost use Rattle.pol_tables.specs.Table.{knows};

use pol_access::{Access, CatalogRoleRow, GrantRow, PrincipalRoleRow, Privilege, Securable};
use pol_content::Content;
use pol_sound_access::{knows_catalog_role, knows_principal, knows_principal_role, service_admin};
use pol_sound_content::knows_catalog;

/// Whether they are tied.
#[tactic(auto, unfolding(crate::specs::Judged::are_tied))]
pub(crate) fn are_tied(access: &Access, content: &Content) -> bool
    ensures { result ≡ are_tied access.now.rows content.now.rows }
{
    roles_tied(access, content)
        && grants_within(access, content)
        && have_admins(access, content)
        && are_apart(access, content)
}

/// Whether the catalogue of each role is there.
fn roles_tied(access: &Access, content: &Content) -> bool
    ensures { result ≡ list_all (λ row. knows catalog_id row.catalog content.now.rows.catalogs)
        access.now.rows.catalog_roles }
{
    access
        .catalog_roles()
        .all(|row| knows_catalog(content, row.catalog))
}

/// Whether each grant's securable lies in the catalogue of its role.
fn grants_within(access: &Access, content: &Content) -> bool
    ensures { result ≡ list_all (is_within access.now.rows content.now.rows) access.now.rows.grants }
{
    access.grants().all(|row| is_within(access, content, row))
}

/// Whether what a grant is on is there, and lies in the catalogue of the grant's role.
pub fn is_within(access: &Access, content: &Content, row: &GrantRow) -> bool
    ensures { result ≡ is_within access.now.rows content.now.rows row.now }
{
    let Some(role) = access.catalog_role(row.catalog_role) else {
        return false;
    };
    match catalog_of(content, row.securable) {
        Some(catalog) => catalog == role.catalog,
        None => false,
    }
}

/// The catalogue in which a securable lies that is there.
fn catalog_of(content: &Content, securable: Securable) -> Option<u64>
    ensures { result ≡ catalog_of securable content.now.rows }
{
    match securable {
        Securable::Realm => None,
        Securable::Catalog(id) => own_catalog(content, id),
        Securable::Namespace(id) => catalog_of_namespace(content, id),
        Securable::Table(id) => {
            let table = content.table_of(id)?;
            catalog_of_namespace(content, table.namespace)
        }
        Securable::View(id) => {
            let view = content.view_of(id)?;
            catalog_of_namespace(content, view.namespace)
        }
    }
}

fn own_catalog(content: &Content, id: u64) -> Option<u64>
    ensures { result ≡ catalog_of (securable.Catalog id) content.now.rows }
{
    let catalog = content.catalog_of(id)?;
    Some(catalog.id)
}

fn catalog_of_namespace(content: &Content, id: u64) -> Option<u64>
    ensures { result ≡ catalog_of_namespace id content.now.rows }
{
    let namespace = content.namespace_of(id)?;
    Some(namespace.catalog)
}

/// Whether each catalogue has its role `catalog_admin`.
fn have_admins(access: &Access, content: &Content) -> bool
    ensures { result ≡ list_all (λ row. has_admin access.now.rows row.id) content.now.rows.catalogs }
{
    let service = service_admin(access);
    content
        .catalogs()
        .all(|row| is_admin(access, row.id, service))
}

/// Whether the catalogue's role `catalog_admin` is joined to this one, and manages the catalogue's access and content.
fn is_admin(access: &Access, catalog: u64, service: Option<&PrincipalRoleRow>) -> bool
    ensures { result ≡ is_admin access.now.rows catalog
        (catalog_role_named catalog (codes "catalog_admin") access.now.rows) (option_copied service.entry) }
{
    let Some(role) = catalog_admin(access, catalog) else {
        return false;
    };
    match service {
        Some(service) => {
            access.is_joined(service.id, role.id) && manages_both(access, role.id, catalog)
        }
        None => false,
    }
}

/// The role `catalog_admin` of a catalogue. It goes over the roles.
fn catalog_admin(access: &Access, catalog: u64) -> Option<&CatalogRoleRow>
    ensures { option_copied result ≡ catalog_role_named catalog (codes "catalog_admin") access.now.rows }
{
    access.catalog_roles().find(|row| row.catalog == catalog
        && "catalog_admin" == row.name.as_str())
}

/// Whether the role manages the access and the content of the catalogue.
fn manages_both(access: &Access, catalog_role: u64, catalog: u64) -> bool
    ensures { result ≡ (manages CatalogManageAccess catalog_role catalog access.now.rows
        && manages CatalogManageContent catalog_role catalog access.now.rows) }
{
    manages(
        access,
        Privilege::CatalogManageAccess,
        catalog_role,
        catalog,
    ) && manages(
        access,
        Privilege::CatalogManageContent,
        catalog_role,
        catalog,
    )
}

/// Whether the role has the privilege on the catalogue.
fn manages(access: &Access, privilege: Privilege, catalog_role: u64, catalog: u64) -> bool
    ensures { result ≡ manages privilege catalog_role catalog access.now.rows }
{
    access.has_grant(&GrantRow {
        catalog_role,
        privilege,
        securable: Securable::Catalog(catalog),
    })
}

/// Whether no catalogue, namespace, table or view has an id of a principal or a role.
fn are_apart(access: &Access, content: &Content) -> bool
    ensures { result ≡ are_apart access.now.rows content.now.rows }
{
    catalogs_apart(access, content)
        && namespaces_apart(access, content)
        && tables_apart(access, content)
        && views_apart(access, content)
}

fn catalogs_apart(access: &Access, content: &Content) -> bool
    ensures { result ≡ list_all (λ row. not (is_access_id row.id access.now.rows)) content.now.rows.catalogs }
{
    content.catalogs().all(|row| !is_access_id(access, row.id))
}

fn namespaces_apart(access: &Access, content: &Content) -> bool
    ensures { result ≡ list_all (λ row. not (is_access_id row.id access.now.rows)) content.now.rows.namespaces }
{
    content
        .namespaces()
        .all(|row| !is_access_id(access, row.id))
}

fn tables_apart(access: &Access, content: &Content) -> bool
    ensures { result ≡ list_all (λ row. not (is_access_id row.id access.now.rows)) content.now.rows.tables }
{
    content.tables().all(|row| !is_access_id(access, row.id))
}

fn views_apart(access: &Access, content: &Content) -> bool
    ensures { result ≡ list_all (λ row. not (is_access_id row.id access.now.rows)) content.now.rows.views }
{
    content.views().all(|row| !is_access_id(access, row.id))
}

/// Whether a principal or a role has the id.
fn is_access_id(access: &Access, id: u64) -> bool
    ensures { result ≡ is_access_id id access.now.rows }
{
    knows_principal(access, id)
        || knows_principal_role(access, id)
        || knows_catalog_role(access, id)
}
