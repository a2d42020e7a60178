ghost use Rattle.std.specs.Prelude.{◌≡◌, option_copied, IfOk, Some};
ghost use Rattle.std.specs.Bool.{⊤};
ghost use Rattle.pol_rules.specs.Judged.{Judges};
ghost use Rattle.pol_rules.specs.Needs.{caller_may, first_unmet, forbidden, namespace_shown, on_catalog, on_parent, on_path, on_table, on_view, service, session_may, shown, table_shown, view_shown};
ghost use Rattle.pol_state.specs.Sound.{IsSound};

use crate::callers::session_of;
use crate::rules::{Asked, Undone, time_of};
use pol_access::{Privilege, Securable};
use pol_commands::{Caller, Refusal, SecurableName};
use pol_content::{CatalogRow, NamespaceRow, TableRow, ViewRow};
use pol_names::{Identifier, Namespace};
use pol_state::State;
use pol_tokens::SessionRow;
use pol_types::OutOfMemory;

/// A privilege that an action needs, and what it needs it on.
#[derive(Clone, Copy)]
pub struct Need {
    pub privilege: Privilege,
    pub on: Securable,
}

/// The caller may manage the realm.
pub fn allowed_service(asked: &Asked<'_>) -> Result<(), Undone>
    requires { IsSound asked.now.state.now.rows }
    ensures { Judges (forbidden asked.now.state.now.rows asked.now.command.now service) (λ _. ⊤) result }
{
    let need = Need {
        privilege: Privilege::ServiceManageAccess,
        on: Securable::Realm,
    };
    allowed(asked, &[need])
}

/// The caller may use the privilege on the catalogue.
pub fn allowed_on_catalog(
    asked: &Asked<'_>,
    privilege: Privilege,
    catalog: &CatalogRow,
) -> Result<(), Undone>
    requires { IsSound asked.now.state.now.rows }
    ensures { Judges (forbidden asked.now.state.now.rows asked.now.command.now
        (on_catalog privilege catalog.now)) (λ _. ⊤) result }
{
    let need = Need {
        privilege,
        on: Securable::Catalog(catalog.id),
    };
    allowed(asked, &[need])
}

/// The caller may use the privilege on the deepest part of a path in the catalogue that is there.
pub fn allowed_on_path(
    asked: &Asked<'_>,
    privilege: Privilege,
    levels: &Namespace,
    catalog: &CatalogRow,
) -> Result<(), Undone>
    requires { IsSound asked.now.state.now.rows }
    ensures { let s = asked.now.state.now.rows in
        Judges (forbidden s asked.now.command.now (on_path s privilege levels.now catalog.now)) (λ _. ⊤) result }
{
    let content = asked.state.content();
    let on = content.deepest(asked.alloc, catalog.id, levels)?;
    allowed(asked, &[Need { privilege, on }])
}

/// The caller may use the privilege on the deepest part of a table's path that is there: the table, or else that of its
/// namespace's path.
pub fn allowed_on_table(
    asked: &Asked<'_>,
    privilege: Privilege,
    identifier: &Identifier,
    catalog: &CatalogRow,
) -> Result<(), Undone>
    requires { IsSound asked.now.state.now.rows }
    ensures { let s = asked.now.state.now.rows in
        Judges (forbidden s asked.now.command.now (on_table s privilege identifier.now catalog.now)) (λ _. ⊤) result }
{
    let content = asked.state.content();
    let on = content.deepest_of_table(asked.alloc, catalog.id, identifier)?;
    allowed(asked, &[Need { privilege, on }])
}

/// The caller may use the privilege on the deepest part of a view's path that is there: the view, or else that of its
/// namespace's path.
pub fn allowed_on_view(
    asked: &Asked<'_>,
    privilege: Privilege,
    identifier: &Identifier,
    catalog: &CatalogRow,
) -> Result<(), Undone>
    requires { IsSound asked.now.state.now.rows }
    ensures { let s = asked.now.state.now.rows in
        Judges (forbidden s asked.now.command.now (on_view s privilege identifier.now catalog.now)) (λ _. ⊤) result }
{
    let content = asked.state.content();
    let on = content.deepest_of_view(asked.alloc, catalog.id, identifier)?;
    allowed(asked, &[Need { privilege, on }])
}

/// The caller may use the privilege on the deepest part of a parent's path, where there is one, else on the catalogue.
pub fn allowed_on_parent(
    asked: &Asked<'_>,
    privilege: Privilege,
    parent: Option<&Namespace>,
    catalog: &CatalogRow,
) -> Result<(), Undone>
    requires { IsSound asked.now.state.now.rows }
    ensures { let s = asked.now.state.now.rows in
        Judges (forbidden s asked.now.command.now
        (on_parent s privilege (option_copied parent.entry) catalog.now)) (λ _. ⊤) result }
{
    match parent {
        Some(levels) => allowed_on_path(asked, privilege, levels, catalog),
        None => allowed_on_catalog(asked, privilege, catalog),
    }
}

/// The caller has what the action needs. The first need that isn't met is told.
#[tactic(auto, unfolding(crate::specs::Needs::forbidden))]
pub fn allowed(asked: &Asked<'_>, needs: &[Need]) -> Result<(), Undone>
    requires { IsSound asked.now.state.now.rows }
    ensures { Judges (forbidden asked.now.state.now.rows asked.now.command.now needs.now) (λ _. ⊤) result }
{
    let Some(need) = first_unmet(asked, needs)? else {
        return Ok(());
    };
    Err(Undone::Refused(Refusal::Forbidden {
        privilege: need.privilege,
        securable: shown(asked.state, need.on)?,
    }))
}

/// The first need that isn't met.
#[tactic(auto, unfolding(crate::specs::Needs::first_unmet))]
fn first_unmet(asked: &Asked<'_>, needs: &[Need]) -> Result<Option<Need>, OutOfMemory>
    requires { IsSound asked.now.state.now.rows }
    ensures { IfOk result (λ unmet. unmet ≡ first_unmet asked.now.state.now.rows asked.now.command.now needs.now) }
{
    let time = time_of(asked);
    for need in needs {
        if !caller_may(asked, time, need)? {
            return Ok(Some(*need));
        }
    }
    Ok(None)
}

/// Whether the caller has what it needs.
pub fn caller_may(asked: &Asked<'_>, time: u64, need: &Need) -> Result<bool, OutOfMemory>
    requires { IsSound asked.now.state.now.rows }
    ensures { let s = asked.now.state.now.rows in
        IfOk result (λ may. may ≡ caller_may s time asked.now.command.now.caller need.now) }
{
    match &asked.command.caller {
        Caller::Nobody => Ok(false),
        Caller::Bearer(text) => match session_of(asked.state, time, text.as_slice()) {
            Some(session) => session_may(asked, session, need),
            None => Ok(false),
        },
        Caller::Setup => Ok(true),
    }
}

/// Whether the session has what it needs, by its roles.
fn session_may(asked: &Asked<'_>, session: &SessionRow, need: &Need) -> Result<bool, OutOfMemory>
    requires { IsSound asked.now.state.now.rows }
    ensures { IfOk result (λ may. may ≡ session_may asked.now.state.now.rows (Some session.now) need.now) }
{
    let chain = asked.state.content().chain(asked.alloc, need.on)?;
    Ok(
        asked.state.access().may(
            session.principal,
            &session.scope,
            need.privilege,
            chain.as_slice(),
        ),
    )
}

/// The securable as a refusal shows it.
fn shown(state: &State, securable: Securable) -> Result<SecurableName, OutOfMemory>
    ensures { IfOk result (λ name. name ≡ shown state.now.rows securable) }
{
    match securable {
        Securable::Catalog(id) => match state.content().catalog_of(id) {
            Some(row) => Ok(SecurableName::Catalog {
                catalog: row.name.clone()?,
            }),
            None => Ok(SecurableName::Realm),
        },
        Securable::Namespace(id) => match state.content().namespace_of(id) {
            Some(row) => namespace_shown(state, row),
            None => Ok(SecurableName::Realm),
        },
        Securable::Table(id) => match state.content().table_of(id) {
            Some(row) => table_shown(state, row),
            None => Ok(SecurableName::Realm),
        },
        Securable::View(id) => match state.content().view_of(id) {
            Some(row) => view_shown(state, row),
            None => Ok(SecurableName::Realm),
        },
        Securable::Realm => Ok(SecurableName::Realm),
    }
}

/// The namespace as a refusal shows it.
fn namespace_shown(state: &State, row: &NamespaceRow) -> Result<SecurableName, OutOfMemory>
    ensures { IfOk result (λ name. name ≡ namespace_shown state.now.rows (Some row.now)) }
{
    match state.content().catalog_of(row.catalog) {
        Some(catalog) => Ok(SecurableName::Namespace {
            catalog: catalog.name.clone()?,
            namespace: row.levels.clone()?,
        }),
        None => Ok(SecurableName::Realm),
    }
}

/// The table as a refusal shows it.
fn table_shown(state: &State, row: &TableRow) -> Result<SecurableName, OutOfMemory>
    ensures { IfOk result (λ name. name ≡ table_shown state.now.rows (Some row.now)) }
{
    let Some(namespace) = state.content().namespace_of(row.namespace) else {
        return Ok(SecurableName::Realm);
    };
    match state.content().catalog_of(namespace.catalog) {
        Some(catalog) => Ok(SecurableName::Table {
            catalog: catalog.name.clone()?,
            identifier: Identifier {
                namespace: namespace.levels.clone()?,
                name: row.name.clone()?,
            },
        }),
        None => Ok(SecurableName::Realm),
    }
}

/// The view as a refusal shows it.
fn view_shown(state: &State, row: &ViewRow) -> Result<SecurableName, OutOfMemory>
    ensures { IfOk result (λ name. name ≡ view_shown state.now.rows (Some row.now)) }
{
    let Some(namespace) = state.content().namespace_of(row.namespace) else {
        return Ok(SecurableName::Realm);
    };
    match state.content().catalog_of(namespace.catalog) {
        Some(catalog) => Ok(SecurableName::View {
            catalog: catalog.name.clone()?,
            identifier: Identifier {
                namespace: namespace.levels.clone()?,
                name: row.name.clone()?,
            },
        }),
        None => Ok(SecurableName::Realm),
    }
}
