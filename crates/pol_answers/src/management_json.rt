//! The JSON of answers to management requests (Apache Polaris Management Service).
ghost use Rattle.std.specs.Prelude.{◌≡◌, IfOk};
ghost use Rattle.serde_json.specs.View.{view};
ghost use Rattle.pol_commands.specs.declared.grants.GrantedOn.TheVariants as on;
ghost use Rattle.pol_answers.specs.ManagementJson as spec;

use crate::json::{ToJson, list};
use pol_access::PrincipalRow;
use pol_commands::{Grant, GrantedOn};
use pol_names::{Identifier, Namespace, Plain};
use pol_types::{Listed, OutOfMemory};
use serde_json::{Value, json};
use std::alloc::{AllocError, Global};

impl ToJson for PrincipalRow {
    ghost json = { spec.principal_json };

    fn to_json(&self, alloc: Global) -> Result<Value, OutOfMemory> {
        Ok(principal_object(alloc, self.client_id.as_str(), self.name.as_str())?)
    }
}

/// A principal of that client id and name.
fn principal_object(alloc: Global, client_id: &str, name: &str) -> Result<Value, AllocError>
    ensures { IfOk result (λ json. view json ≡ spec.principal_object client_id.now name.now) }
{
    json!(in alloc; {"clientId": client_id, "name": name})
}

/// A list of principals.
pub(crate) fn principals_json(
    alloc: Global,
    rows: &Listed<PrincipalRow>,
) -> Result<Value, OutOfMemory>
    ensures { IfOk result (λ json. view json ≡ spec.principals_json rows.now) }
{
    let principals = list(alloc, rows.as_slice())?;
    Ok(json!(in alloc; {"principals": principals})?)
}

/// The client id and the secret with which a principal opens sessions, and the principal.
pub(crate) fn credentials_json(
    alloc: Global,
    client_id: &str,
    secret: &str,
    name: &str,
) -> Result<Value, AllocError>
    ensures { IfOk result (λ json. view json ≡ spec.credentials_json client_id.now secret.now name.now) }
{
    let principal = principal_object(alloc, client_id, name)?;
    json!(in alloc; {
        "credentials": {"clientId": client_id, "clientSecret": secret},
        "principal": principal
    })
}

/// The name of a role, which is shown as the role.
impl ToJson for Plain {
    ghost json = { spec.role_json };

    fn to_json(&self, alloc: Global) -> Result<Value, OutOfMemory> {
        Ok(json!(in alloc; {"name": self.as_str()})?)
    }
}

/// A list of roles.
pub(crate) fn roles_json(alloc: Global, names: &Listed<Plain>) -> Result<Value, OutOfMemory>
    ensures { IfOk result (λ json. view json ≡ spec.roles_json names.now) }
{
    let roles = list(alloc, names.as_slice())?;
    Ok(json!(in alloc; {"roles": roles})?)
}

impl ToJson for Grant {
    ghost json = { spec.grant_json };

    fn to_json(&self, alloc: Global) -> Result<Value, OutOfMemory> {
        let privilege = self.privilege.as_str();
        match &self.on {
            GrantedOn::Catalog => Ok(json!(in alloc; {"privilege": privilege, "type": "catalog"})?),
            GrantedOn::Namespace(namespace) => namespace_grant(alloc, privilege, namespace),
            GrantedOn::Table(table) => table_grant(alloc, privilege, table),
            GrantedOn::View(named) => view_grant(alloc, privilege, named),
        }
    }
}

/// A grant of that privilege on a namespace.
fn namespace_grant(
    alloc: Global,
    privilege: &str,
    namespace: &Namespace,
) -> Result<Value, OutOfMemory>
    ensures { IfOk result (λ json. view json ≡ spec.granted_json privilege.now (on.Namespace namespace.now)) }
{
    let levels = namespace.to_json(alloc)?;
    Ok(json!(in alloc; {"namespace": levels, "privilege": privilege, "type": "namespace"})?)
}

/// The same on a table.
fn table_grant(alloc: Global, privilege: &str, table: &Identifier) -> Result<Value, OutOfMemory>
    ensures { IfOk result (λ json. view json ≡ spec.granted_json privilege.now (on.Table table.now)) }
{
    let levels = table.namespace.to_json(alloc)?;
    let name = table.name.to_json(alloc)?;
    Ok(json!(in alloc; {
        "namespace": levels,
        "privilege": privilege,
        "tableName": name,
        "type": "table"
    })?)
}

/// The same on a view.
fn view_grant(alloc: Global, privilege: &str, named: &Identifier) -> Result<Value, OutOfMemory>
    ensures { IfOk result (λ json. view json ≡ spec.granted_json privilege.now (on.View named.now)) }
{
    let levels = named.namespace.to_json(alloc)?;
    let name = named.name.to_json(alloc)?;
    Ok(json!(in alloc; {
        "namespace": levels,
        "privilege": privilege,
        "type": "view",
        "viewName": name
    })?)
}

/// A list of grants.
pub(crate) fn grants_json(alloc: Global, grants: &Listed<Grant>) -> Result<Value, OutOfMemory>
    ensures { IfOk result (λ json. view json ≡ spec.grants_json grants.now) }
{
    let grants = list(alloc, grants.as_slice())?;
    Ok(json!(in alloc; {"grants": grants})?)
}
