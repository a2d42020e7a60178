//! What management requests ask for (Apache Polaris Management Service), by their paths and bodies.
ghost use Rattle.std.specs.Prelude.{◌≡◌};
ghost use Rattle.pol_requests.specs.Refused.{Meets};
ghost use Rattle.pol_requests.specs.declared.endpoint.Endpoint.TheVariants.{Catalog as OfCatalog, CatalogRole as OfCatalogRole, Principal as OfPrincipal, PrincipalRole as OfPrincipalRole};
ghost use Rattle.pol_routes.specs.Request.{request_of};
ghost use Rattle.pol_routes.specs.Requests as spec;

use crate::routed::{CATALOG, CATALOG_ROLE, PRINCIPAL, ROLE, Routed};
use pol_bodies::{
    CatalogBody, CatalogRoleBody, GrantBody, NewCatalog, PrincipalBody, PrincipalRoleBody, body_of,
};
use pol_commands::Action;
use pol_names::Plain;
use pol_requests::{
    CatalogRequest, CatalogRoleRequest, PrincipalRequest, PrincipalRoleRequest, Unplanned,
};
use std::alloc::Global;

/// What a request asks for of the catalogues themselves.
#[tactic(auto, using(pol_requests::proofs::RefusedLemmas::chained))]
pub(crate) fn catalog_action(
    alloc: Global,
    asked: CatalogRequest,
    message: &Routed<'_>,
) -> Result<Action, Unplanned>
    ensures { Meets (spec.action_of (request_of message.now) (OfCatalog asked)) result }
{
    match asked {
        CatalogRequest::ListCatalogs => Ok(Action::ListCatalogs),
        CatalogRequest::CreateCatalog => {
            let read: CatalogBody = body_of(alloc, message.body)?;
            Ok(creation_of(read.catalog))
        }
        CatalogRequest::GetCatalog => Ok(Action::GetCatalog {
            catalog: message.plain(alloc, CATALOG)?,
        }),
        CatalogRequest::DropCatalog => Ok(Action::DropCatalog {
            catalog: message.plain(alloc, CATALOG)?,
        }),
    }
}

/// The action that creates a catalogue.
fn creation_of(new: NewCatalog) -> Action
    ensures { result ≡ spec.creation_of new }
{
    Action::CreateCatalog {
        name: new.name,
        base: new.base,
        allowed: new.allowed,
        properties: new.properties,
        external: new.external,
    }
}

/// What a request asks for of principals and the principal roles that they have.
#[tactic(auto, using(pol_requests::proofs::RefusedLemmas::chained))]
pub(crate) fn principal_action(
    alloc: Global,
    asked: PrincipalRequest,
    message: &Routed<'_>,
) -> Result<Action, Unplanned>
    ensures { Meets (spec.action_of (request_of message.now) (OfPrincipal asked)) result }
{
    match asked {
        PrincipalRequest::ListPrincipals => Ok(Action::ListPrincipals),
        PrincipalRequest::CreatePrincipal => Ok(Action::CreatePrincipal {
            name: body_of::<PrincipalBody>(alloc, message.body)?.name,
            client_id: None,
            secret: None,
        }),
        PrincipalRequest::GetPrincipal => Ok(Action::GetPrincipal {
            name: message.plain(alloc, PRINCIPAL)?,
        }),
        PrincipalRequest::DropPrincipal => Ok(Action::DropPrincipal {
            name: message.plain(alloc, PRINCIPAL)?,
        }),
        PrincipalRequest::Rotate => Ok(Action::Rotate {
            name: message.plain(alloc, PRINCIPAL)?,
            secret: None,
        }),
        PrincipalRequest::ListMembers => Ok(Action::ListMembers {
            principal: message.plain(alloc, PRINCIPAL)?,
        }),
        PrincipalRequest::AddMember => Ok(Action::AddMember {
            principal: message.plain(alloc, PRINCIPAL)?,
            role: body_of::<PrincipalRoleBody>(alloc, message.body)?.name,
        }),
        PrincipalRequest::EndMember => Ok(Action::EndMember {
            principal: message.plain(alloc, PRINCIPAL)?,
            role: message.plain(alloc, ROLE)?,
        }),
    }
}

/// What a request asks for of principal roles and the roles of catalogues that they are joined to.
#[tactic(auto, using(pol_requests::proofs::RefusedLemmas::chained))]
pub(crate) fn principal_role_action(
    alloc: Global,
    asked: PrincipalRoleRequest,
    message: &Routed<'_>,
) -> Result<Action, Unplanned>
    ensures { Meets (spec.action_of (request_of message.now) (OfPrincipalRole asked)) result }
{
    match asked {
        PrincipalRoleRequest::ListPrincipalRoles => Ok(Action::ListPrincipalRoles),
        PrincipalRoleRequest::CreatePrincipalRole => Ok(Action::CreatePrincipalRole {
            name: body_of::<PrincipalRoleBody>(alloc, message.body)?.name,
        }),
        PrincipalRoleRequest::GetPrincipalRole => Ok(Action::GetPrincipalRole {
            name: message.plain(alloc, ROLE)?,
        }),
        PrincipalRoleRequest::DropPrincipalRole => Ok(Action::DropPrincipalRole {
            name: message.plain(alloc, ROLE)?,
        }),
        PrincipalRoleRequest::ListJoins => Ok(Action::ListJoins {
            role: message.plain(alloc, ROLE)?,
            catalog: message.plain(alloc, CATALOG)?,
        }),
        PrincipalRoleRequest::AddJoin => Ok(Action::AddJoin {
            role: message.plain(alloc, ROLE)?,
            catalog: message.plain(alloc, CATALOG)?,
            catalog_role: body_of::<CatalogRoleBody>(alloc, message.body)?.name,
        }),
        PrincipalRoleRequest::EndJoin => Ok(Action::EndJoin {
            role: message.plain(alloc, ROLE)?,
            catalog: message.plain(alloc, CATALOG)?,
            catalog_role: message.plain(alloc, CATALOG_ROLE)?,
        }),
    }
}

/// What a request asks for of the roles of a catalogue and their grants.
#[tactic(auto, using(pol_requests::proofs::RefusedLemmas::chained))]
pub(crate) fn catalog_role_action(
    alloc: Global,
    asked: CatalogRoleRequest,
    message: &Routed<'_>,
) -> Result<Action, Unplanned>
    ensures { Meets (spec.action_of (request_of message.now) (OfCatalogRole asked)) result }
{
    let catalog = message.plain(alloc, CATALOG)?;
    on_catalog_roles(alloc, asked, message, catalog)
}

/// What a request asks for of the roles of a catalogue that it names.
#[tactic(auto, using(pol_requests::proofs::RefusedLemmas::chained))]
fn on_catalog_roles(
    alloc: Global,
    asked: CatalogRoleRequest,
    message: &Routed<'_>,
    catalog: Plain,
) -> Result<Action, Unplanned>
    ensures { Meets (spec.on_catalog_roles (request_of message.now) catalog asked) result }
{
    match asked {
        CatalogRoleRequest::ListCatalogRoles => Ok(Action::ListCatalogRoles { catalog }),
        CatalogRoleRequest::CreateCatalogRole => Ok(Action::CreateCatalogRole {
            catalog,
            name: body_of::<CatalogRoleBody>(alloc, message.body)?.name,
        }),
        CatalogRoleRequest::GetCatalogRole => Ok(Action::GetCatalogRole {
            catalog,
            name: message.plain(alloc, CATALOG_ROLE)?,
        }),
        CatalogRoleRequest::DropCatalogRole => Ok(Action::DropCatalogRole {
            catalog,
            name: message.plain(alloc, CATALOG_ROLE)?,
        }),
        CatalogRoleRequest::ListGrants => Ok(Action::ListGrants {
            catalog,
            role: message.plain(alloc, CATALOG_ROLE)?,
        }),
        CatalogRoleRequest::AddGrant => Ok(Action::AddGrant {
            catalog,
            role: message.plain(alloc, CATALOG_ROLE)?,
            grant: body_of::<GrantBody>(alloc, message.body)?.grant,
        }),
        CatalogRoleRequest::Revoke => Ok(Action::Revoke {
            catalog,
            role: message.plain(alloc, CATALOG_ROLE)?,
            grant: body_of::<GrantBody>(alloc, message.body)?.grant,
        }),
    }
}
