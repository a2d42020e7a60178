//! What is told of rows.
ghost use Rattle.pol_changetexts.specs.Rows as spec;
ghost use Rattle.pol_changetexts.specs.Told.{truth_text};
ghost use Rattle.std.specs.Prelude.{◌≡◌, IfOk, string_bytes};

use crate::told::{Told, list, named};
use pol_access::{
    CatalogRoleRow, GrantRow, JoinRow, MemberRow, PrincipalRoleRow, PrincipalRow, Securable,
};
use pol_content::{CatalogRow, NamespaceRow};
use pol_metalaws::table_text;
use pol_names::Scope;
use pol_table_rows::TableRow;
use pol_tokens::{SessionRow, TokenRow};
use pol_types::OutOfMemory;
use pol_view_rows::ViewRow;
use pol_viewjson::view_text;
use std::alloc::Global;

impl Told for PrincipalRow {
    ghost text = { spec.principal_text };

    fn told(&self, alloc: Global) -> Result<String, OutOfMemory> {
        let PrincipalRow {
            id,
            name,
            client_id,
            digest,
        } = self;
        let digest = hex::encode(alloc, digest.as_slice())?;
        Ok(format!(in alloc; "{id} {name} {client_id} {digest}")?)
    }
}

impl Told for PrincipalRoleRow {
    ghost text = { spec.principal_role_text };

    fn told(&self, alloc: Global) -> Result<String, OutOfMemory> {
        let PrincipalRoleRow { id, name } = self;
        Ok(format!(in alloc; "{id} {name}")?)
    }
}

impl Told for CatalogRow {
    ghost text = { spec.catalog_text };

    fn told(&self, alloc: Global) -> Result<String, OutOfMemory> {
        let CatalogRow { id, name, base, .. } = self;
        let allowed = list(alloc, " ", self.allowed.as_slice())?;
        let properties = list(alloc, " ", self.properties.iter().as_slice())?;
        Ok(format!(in alloc; "{id} {name} {base} {allowed} {properties}")?)
    }
}

impl Told for CatalogRoleRow {
    ghost text = { spec.catalog_role_text };

    fn told(&self, alloc: Global) -> Result<String, OutOfMemory> {
        let CatalogRoleRow { id, catalog, name } = self;
        Ok(format!(in alloc; "{id} {catalog} {name}")?)
    }
}

impl Told for NamespaceRow {
    ghost text = { spec.namespace_text };

    fn told(&self, alloc: Global) -> Result<String, OutOfMemory> {
        let NamespaceRow {
            id,
            catalog,
            levels,
            ..
        } = self;
        let properties = list(alloc, " ", self.properties.iter().as_slice())?;
        Ok(format!(in alloc; "{id} {catalog} {levels} {properties}")?)
    }
}

/// Its metadata is told by its JSON.
impl Told for TableRow {
    ghost text = { spec.table_text };

    fn told(&self, alloc: Global) -> Result<String, OutOfMemory> {
        let front = table_front(alloc, self)?;
        let location = &self.location;
        let metadata = table_text(alloc, self.metadata.get())?;
        Ok(format!(in alloc; "{front} {location} {metadata}")?)
    }
}

/// A table without its location and its metadata.
fn table_front(alloc: Global, row: &TableRow) -> Result<String, OutOfMemory>
    ensures { IfOk result (λ front. string_bytes front ≡ spec.table_front row.now) }
{
    let TableRow {
        id,
        namespace,
        name,
        version,
        moves,
        ..
    } = row;
    Ok(format!(in alloc; "{id} {namespace} {name} {version} {moves}")?)
}

/// Its metadata is told by its JSON.
impl Told for ViewRow {
    ghost text = { spec.view_text };

    fn told(&self, alloc: Global) -> Result<String, OutOfMemory> {
        let ViewRow {
            id,
            namespace,
            name,
            version,
            ..
        } = self;
        let metadata = view_text(alloc, self.metadata.get())?;
        Ok(format!(in alloc; "{id} {namespace} {name} {version} {metadata}")?)
    }
}

impl Told for MemberRow {
    ghost text = { spec.member_text };

    fn told(&self, alloc: Global) -> Result<String, OutOfMemory> {
        let MemberRow { principal, role } = self;
        Ok(format!(in alloc; "{principal} {role}")?)
    }
}

impl Told for JoinRow {
    ghost text = { spec.join_text };

    fn told(&self, alloc: Global) -> Result<String, OutOfMemory> {
        let JoinRow {
            principal_role,
            catalog_role,
        } = self;
        Ok(format!(in alloc; "{principal_role} {catalog_role}")?)
    }
}

/// The name of its kind, and its id where it has one.
impl Told for Securable {
    ghost text = { spec.securable_text };

    fn told(&self, alloc: Global) -> Result<String, OutOfMemory> {
        match self {
            Securable::Realm => Ok(String::from_str(alloc, "Realm")?),
            Securable::Catalog(id) => named(alloc, "Catalog", id),
            Securable::Namespace(id) => named(alloc, "Namespace", id),
            Securable::Table(id) => named(alloc, "Table", id),
            Securable::View(id) => named(alloc, "View", id),
        }
    }
}

impl Told for GrantRow {
    ghost text = { spec.grant_text };

    fn told(&self, alloc: Global) -> Result<String, OutOfMemory> {
        let GrantRow {
            catalog_role,
            privilege,
            ..
        } = self;
        let securable = self.securable.told(alloc)?;
        Ok(format!(in alloc; "{catalog_role} {privilege} {securable}")?)
    }
}

/// That it has all roles, or their ids.
impl Told for Scope {
    ghost text = { spec.scope_text };

    fn told(&self, alloc: Global) -> Result<String, OutOfMemory> {
        match self {
            Scope::All => Ok(String::from_str(alloc, "All")?),
            Scope::Roles(ids) => {
                let ids = list(alloc, " ", ids.as_slice())?;
                Ok(format!(in alloc; "Roles {ids}")?)
            }
        }
    }
}

impl Told for SessionRow {
    ghost text = { spec.session_text };

    fn told(&self, alloc: Global) -> Result<String, OutOfMemory> {
        let SessionRow {
            serial,
            word_a,
            word_b,
            principal,
            expires,
            ..
        } = self;
        let scope = self.scope.told(alloc)?;
        Ok(format!(in alloc; "{serial} {word_a} {word_b} {principal} {scope} {expires}")?)
    }
}

impl Told for TokenRow {
    ghost text = { spec.token_text };

    fn told(&self, alloc: Global) -> Result<String, OutOfMemory> {
        let front = token_front(alloc, self)?;
        let TokenRow {
            moves,
            location,
            expires,
            ..
        } = self;
        let write = truth(self.write);
        Ok(format!(in alloc; "{front} {moves} {location} {write} {expires}")?)
    }
}

/// A storage token up to its table.
fn token_front(alloc: Global, row: &TokenRow) -> Result<String, OutOfMemory>
    ensures { IfOk result (λ front. string_bytes front ≡ spec.token_front row.now) }
{
    let TokenRow {
        serial,
        word_a,
        word_b,
        principal,
        table,
        ..
    } = row;
    Ok(format!(in alloc; "{serial} {word_a} {word_b} {principal} {table}")?)
}

fn truth(holds: bool) -> &'static str
    ensures { result.now ≡ truth_text holds }
{
    if holds { "true" } else { "false" }
}
