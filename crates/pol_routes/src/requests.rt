//! What requests ask for, by their paths, queries and bodies: those of the catalogue API (Iceberg REST OpenAPI).
ghost use Rattle.std.specs.Prelude.{◌≡◌};
ghost use Rattle.pol_requests.specs.Refused.{Meets};
ghost use Rattle.pol_requests.specs.declared.endpoint.Endpoint.TheVariants.{Content as OfContent, Namespace as OfNamespace, Table as OfTable, View as OfView};
ghost use Rattle.pol_routes.specs.Request.{request_of};
ghost use Rattle.pol_routes.specs.Requests as spec;

use crate::management::{
    catalog_action, catalog_role_action, principal_action, principal_role_action,
};
use crate::objects::access;
use crate::query::query_value;
use crate::routed::{PREFIX, Routed, TABLE, VIEW};
use crate::segment::{namespace_of, plain_of};
use crate::tables::{drop_table, load_table};
use crate::target::query_of;
use crate::token_form::{TokenForm, read_token_form};
use pol_bodies::{
    NewNamespace, PropertyUpdates, RenameBody, body_of, commit_of, commits_of, create_table_of,
    create_view_of, view_commit_of,
};
use pol_commands::Action;
use pol_names::{Identifier, Namespace, Plain};
use pol_requests::{
    ContentRequest, Endpoint, NamespaceRequest, RouteRefused, TableRequest, Unplanned, ViewRequest,
    unreadable,
};
use pol_types::Text;
use std::alloc::Global;

/// The action that a request asks for. Its path is read first, then its query, then its body.
pub(crate) fn action_of(
    alloc: Global,
    endpoint: Endpoint,
    message: &Routed<'_>,
) -> Result<Action, Unplanned>
    ensures { Meets (spec.action_of (request_of message.now) endpoint) result }
{
    match endpoint {
        Endpoint::OpenSession => open_session(alloc, message.body),
        Endpoint::Content(asked) => content_action(alloc, asked, message),
        Endpoint::Namespace(asked) => namespace_action(alloc, asked, message),
        Endpoint::Table(asked) => table_action(alloc, asked, message),
        Endpoint::View(asked) => view_action(alloc, asked, message),
        Endpoint::Catalog(asked) => catalog_action(alloc, asked, message),
        Endpoint::Principal(asked) => principal_action(alloc, asked, message),
        Endpoint::PrincipalRole(asked) => principal_role_action(alloc, asked, message),
        Endpoint::CatalogRole(asked) => catalog_role_action(alloc, asked, message),
        Endpoint::Object(asked) => access(alloc, message.target, asked),
    }
}

/// What a request asks for of what a catalogue holds.
#[tactic(auto, using(pol_requests::proofs::RefusedLemmas::chained))]
fn content_action(
    alloc: Global,
    asked: ContentRequest,
    message: &Routed<'_>,
) -> Result<Action, Unplanned>
    ensures { Meets (spec.action_of (request_of message.now) (OfContent asked)) result }
{
    match asked {
        ContentRequest::GetConfig => Ok(Action::GetConfig {
            catalog: warehouse(alloc, message.target)?,
        }),
        ContentRequest::ListNamespaces => Ok(Action::ListNamespaces {
            catalog: message.plain(alloc, PREFIX)?,
            parent: parent(alloc, message.target)?,
        }),
        ContentRequest::CreateNamespace => {
            let catalog = message.plain(alloc, PREFIX)?;
            let new: NewNamespace = body_of(alloc, message.body)?;
            Ok(Action::CreateNamespace {
                catalog,
                namespace: new.namespace,
                properties: new.properties,
            })
        }
        ContentRequest::RenameTable => {
            let catalog = message.plain(alloc, PREFIX)?;
            let names: RenameBody = body_of(alloc, message.body)?;
            Ok(Action::RenameTable {
                catalog,
                source: names.source,
                destination: names.destination,
            })
        }
        ContentRequest::CommitTransaction => Ok(Action::CommitTransaction {
            catalog: message.plain(alloc, PREFIX)?,
            commits: commits_of(alloc, message.body)?,
        }),
        ContentRequest::RenameView => {
            let catalog = message.plain(alloc, PREFIX)?;
            let names: RenameBody = body_of(alloc, message.body)?;
            Ok(Action::RenameView {
                catalog,
                source: names.source,
                destination: names.destination,
            })
        }
    }
}

/// What a request asks for of one namespace of a catalogue.
#[tactic(auto, using(pol_requests::proofs::RefusedLemmas::chained))]
fn namespace_action(
    alloc: Global,
    asked: NamespaceRequest,
    message: &Routed<'_>,
) -> Result<Action, Unplanned>
    ensures { Meets (spec.action_of (request_of message.now) (OfNamespace asked)) result }
{
    let catalog = message.plain(alloc, PREFIX)?;
    let namespace = message.namespace(alloc)?;
    on_namespace(alloc, asked, message, catalog, namespace)
}

/// What a request asks for of a namespace that it names.
#[tactic(auto, using(pol_requests::proofs::RefusedLemmas::chained))]
fn on_namespace(
    alloc: Global,
    asked: NamespaceRequest,
    message: &Routed<'_>,
    catalog: Plain,
    namespace: Namespace,
) -> Result<Action, Unplanned>
    ensures { Meets (spec.on_namespace (request_of message.now) catalog namespace asked) result }
{
    match asked {
        NamespaceRequest::LoadNamespace => Ok(Action::LoadNamespace { catalog, namespace }),
        NamespaceRequest::HeadNamespace => Ok(Action::HeadNamespace { catalog, namespace }),
        NamespaceRequest::DropNamespace => Ok(Action::DropNamespace { catalog, namespace }),
        NamespaceRequest::UpdateProperties => {
            let changes: PropertyUpdates = body_of(alloc, message.body)?;
            Ok(Action::UpdateProperties {
                catalog,
                namespace,
                removals: changes.removals,
                updates: changes.updates,
            })
        }
        NamespaceRequest::ListTables => Ok(Action::ListTables { catalog, namespace }),
        NamespaceRequest::CreateTable => Ok(Action::CreateTable {
            catalog,
            namespace,
            request: create_table_of(alloc, message.body)?,
            delegated: message.delegated,
        }),
        NamespaceRequest::ListViews => Ok(Action::ListViews { catalog, namespace }),
        NamespaceRequest::CreateView => Ok(Action::CreateView {
            catalog,
            namespace,
            request: create_view_of(alloc, message.body)?,
        }),
    }
}

/// What a request asks for of one table of a namespace.
#[tactic(auto, using(pol_requests::proofs::RefusedLemmas::chained))]
fn table_action(
    alloc: Global,
    asked: TableRequest,
    message: &Routed<'_>,
) -> Result<Action, Unplanned>
    ensures { Meets (spec.action_of (request_of message.now) (OfTable asked)) result }
{
    let catalog = message.plain(alloc, PREFIX)?;
    let namespace = message.namespace(alloc)?;
    let name = message.part(alloc, TABLE)?;
    on_table(
        alloc,
        asked,
        message,
        catalog,
        Identifier { namespace, name },
    )
}

/// What a request asks for of a table that it names.
#[tactic(auto, using(pol_requests::proofs::RefusedLemmas::chained))]
fn on_table(
    alloc: Global,
    asked: TableRequest,
    message: &Routed<'_>,
    catalog: Plain,
    identifier: Identifier,
) -> Result<Action, Unplanned>
    ensures { Meets (spec.on_table (request_of message.now) catalog identifier asked) result }
{
    match asked {
        TableRequest::LoadTable => load_table(
            alloc,
            message.target,
            catalog,
            identifier,
            message.delegated,
        ),
        TableRequest::LoadCredentials => Ok(Action::LoadCredentials {
            catalog,
            identifier,
        }),
        TableRequest::HeadTable => Ok(Action::HeadTable {
            catalog,
            identifier,
        }),
        TableRequest::CommitTable => Ok(Action::CommitTable {
            catalog,
            commit: commit_of(alloc, identifier, message.body)?,
        }),
        TableRequest::DropTable => drop_table(alloc, message.target, catalog, identifier),
        TableRequest::ReportMetrics => Ok(Action::ReportMetrics {
            catalog,
            identifier,
        }),
    }
}

/// What a request asks for of one view of a namespace.
#[tactic(auto, using(pol_requests::proofs::RefusedLemmas::chained))]
fn view_action(alloc: Global, asked: ViewRequest, message: &Routed<'_>) -> Result<Action, Unplanned>
    ensures { Meets (spec.action_of (request_of message.now) (OfView asked)) result }
{
    let catalog = message.plain(alloc, PREFIX)?;
    let namespace = message.namespace(alloc)?;
    let name = message.part(alloc, VIEW)?;
    on_view(
        alloc,
        asked,
        message,
        catalog,
        Identifier { namespace, name },
    )
}

/// What a request asks for of a view that it names.
#[tactic(auto, using(pol_requests::proofs::RefusedLemmas::chained))]
fn on_view(
    alloc: Global,
    asked: ViewRequest,
    message: &Routed<'_>,
    catalog: Plain,
    identifier: Identifier,
) -> Result<Action, Unplanned>
    ensures { Meets (spec.on_view (request_of message.now) catalog identifier asked) result }
{
    match asked {
        ViewRequest::LoadView => Ok(Action::LoadView {
            catalog,
            identifier,
        }),
        ViewRequest::HeadView => Ok(Action::HeadView {
            catalog,
            identifier,
        }),
        ViewRequest::ReplaceView => Ok(Action::ReplaceView {
            catalog,
            commit: view_commit_of(alloc, identifier, message.body)?,
        }),
        ViewRequest::DropView => Ok(Action::DropView {
            catalog,
            identifier,
        }),
    }
}

/// The catalogue that a query names by the key `warehouse`.
#[tactic(auto, using(pol_requests::proofs::RefusedLemmas::chained), unfolding(crate::specs::Requests::warehouse))]
fn warehouse(alloc: Global, target: &[u8]) -> Result<Plain, Unplanned>
    ensures { Meets (spec.warehouse target.now) result }
{
    let value = query_value(alloc, query_of(target), "warehouse")?;
    warehouse_of(alloc, value)
}

/// The catalogue of a warehouse, which must be there.
#[tactic(auto, using(pol_requests::proofs::RefusedLemmas::refused), unfolding(crate::specs::Requests::warehouse_of))]
fn warehouse_of(alloc: Global, value: Option<Text>) -> Result<Plain, Unplanned>
    ensures { Meets (spec.warehouse_of value) result }
{
    match value {
        Some(name) => plain_of(alloc, name.as_str(), "warehouse"),
        None => Err(unreadable(alloc, "warehouse")),
    }
}

/// The parent that a query names by the key `parent`, if it names one.
#[tactic(auto, using(pol_requests::proofs::RefusedLemmas::chained), unfolding(crate::specs::Requests::parent))]
fn parent(alloc: Global, target: &[u8]) -> Result<Option<Namespace>, Unplanned>
    ensures { Meets (spec.parent target.now) result }
{
    let value = query_value(alloc, query_of(target), "parent")?;
    parent_of(alloc, value)
}

/// The parent, where one is named. An empty one is an absent one.
#[tactic(auto, using(pol_requests::proofs::RefusedLemmas::chained), unfolding(crate::specs::Requests::parent_of))]
fn parent_of(alloc: Global, value: Option<Text>) -> Result<Option<Namespace>, Unplanned>
    ensures { Meets (spec.parent_of value) result }
{
    let Some(levels) = value else {
        return Ok(None);
    };
    if levels.is_empty() {
        return Ok(None);
    }
    let parent = namespace_of(alloc, levels.as_str(), "parent")?;
    Ok(Some(parent))
}

/// A session (RFC 6749, section 4.4.2).
#[tactic(auto, unfolding(crate::specs::Requests::open_session))]
fn open_session(alloc: Global, body: &[u8]) -> Result<Action, Unplanned>
    ensures { Meets (spec.open_session body.now) result }
{
    match read_token_form(alloc, body)? {
        Some(form) => Ok(session_of(form)?),
        None => Err(Unplanned::Refused(RouteRefused::InvalidRequest)),
    }
}

/// The session that a token request asks for, whose fields stand as they must.
fn session_of(form: TokenForm) -> Result<Action, RouteRefused>
    ensures { result ≡ spec.session_of form }
{
    if form.grant_type.as_str() != "client_credentials" {
        return Err(RouteRefused::GrantType);
    }
    Ok(Action::OpenSession {
        client_id: form.client_id,
        secret: form.client_secret,
        scopes: form.scopes,
    })
}
