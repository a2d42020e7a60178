ghost use Rattle.std.specs.Prelude.{◌≡◌, ◌≤◌, ◌^◌, [], IfErr, IfOk, None, Some};
ghost use Rattle.pol_commands.specs.declared.reply.Answer.{Answer};
ghost use Rattle.pol_commands.specs.declared.reply.Reply.TheVariants.{Answered, Refused};
ghost use Rattle.pol_state.specs.Changes.{changes_between};
ghost use Rattle.pol_rules.specs.Judged.{Acts, FirstPasses};
ghost use Rattle.pol_rules.specs.Rules.{run_full};
ghost use Rattle.pol_machine.specs.Machine.{acting, creating, loading, next_state, reply_of};
ghost use Rattle.pol_state.specs.Sound.{IsSound};

use pol_bounds::within_bounds;
use pol_commands::{Action, Command, CreateTable, Refusal, Reply};
use pol_commit_actions::commits::{commit_table, commit_transaction};
use pol_commit_actions::renaming::rename_table;
use pol_content::Change;
use pol_content_actions::catalogs::{
    create_catalog, drop_catalog, get_catalog, get_config, list_catalogs,
};
use pol_content_actions::namespaces::{
    create_namespace, drop_namespace, head_namespace, list_namespaces, load_namespace,
    update_properties,
};
use pol_content_actions::sessions::open_session;
use pol_grant_actions::catalog_roles::{
    create_catalog_role, drop_catalog_role, get_catalog_role, list_catalog_roles,
};
use pol_grant_actions::grants::{add_grant, list_grants, revoke};
use pol_grant_actions::joins::{add_join, end_join, list_joins};
use pol_names::{Identifier, Namespace, Plain};
use pol_principal_actions::members::{add_member, end_member, list_members};
use pol_principal_actions::principal_roles::{
    create_principal_role, drop_principal_role, get_principal_role, list_principal_roles,
};
use pol_principal_actions::principals::{
    create_principal, drop_principal, get_principal, list_principals, rotate,
};
use pol_rules::rules::{Acted, Asked, Undone, run_open};
use pol_state::State;
use pol_table_actions::creation::create_table;
use pol_table_actions::loading::load_table;
use pol_table_actions::tables::{drop_table, head_table, list_tables, report_metrics};
use pol_token_actions::access::access;
use pol_token_actions::creation::create_delegated;
use pol_token_actions::vending::{load_credentials, load_delegated};
use pol_types::{Listed, OutOfMemory};
use pol_view_actions::creation::create_view;
use pol_view_actions::renaming::rename_view;
use pol_view_actions::replacing::replace_view;
use pol_view_actions::views::{drop_view, head_view, list_views, load_view};
use std::alloc::Global;

/// What a command comes to: its reply, and the changes that it makes.
#[derive(Drop)]
pub struct Decision {
    pub reply: Reply,
    pub changes: Listed<Change>,
}

/// Decides a command in a state, which stays as it is: the reply is the first rule that fails, else the answer, and
/// the changes are those between the state and the state after the command. A full run is told without memory, and so
/// is the first rule of an action, by which the caller is judged. An answer is given only where the action has one.
pub fn decide(alloc: Global, state: &State, command: &Command) -> Result<Decision, OutOfMemory>
    requires sound { IsSound state.now.rows }
    requires moment { command.now.moment ≤ 2 ^ 62 }
    ensures reply { IfOk result (λ decision. decision.reply ≡ reply_of state.now.rows command.now) }
    ensures changes { IfOk result (λ decision. decision.changes
        ≡ changes_between state.now.rows (next_state state.now.rows command.now)) }
    ensures given { IfOk result (λ decision. (answer : Answer) → decision.reply ≡ Answered answer
        → (acting state.now.rows command.now command.now.action).answer ≡ Some answer) }
    ensures full { IfErr result (λ _. run_full state.now.rows command.now.charge ≡ None) }
    ensures first { IfErr result (λ _. FirstPasses (acting state.now.rows command.now command.now.action).rules) }
{
    if let Err(why) = run_open(state, command.charge) {
        return Ok(refused(alloc, why));
    }
    let asked = Asked {
        alloc,
        state,
        command,
    };
    match act(&asked) {
        Ok(acted) => match within_bounds(state, &acted.changes) {
            Ok(()) => Ok(Decision {
                reply: Reply::Answered(acted.answer),
                changes: acted.changes,
            }),
            Err(why) => Ok(refused(alloc, why)),
        },
        Err(Undone::Refused(why)) => Ok(refused(alloc, why)),
        Err(Undone::OutOfMemory) => Err(OutOfMemory),
    }
}

/// A refusal, which changes nothing.
fn refused(alloc: Global, why: Refusal) -> Decision
    ensures reply { result.reply ≡ Refused why }
    ensures changes { result.changes ≡ [] }
{
    Decision {
        reply: Reply::Refused(why),
        changes: Listed::from(Vec::new(alloc)),
    }
}

/// Does a command's action.
fn act(asked: &Asked<'_>) -> Result<Acted, Undone>
    requires sound { IsSound asked.now.state.now.rows }
    requires moment { asked.now.command.now.moment ≤ 2 ^ 62 }
    ensures { Acts asked.now (λ s command. acting s command command.action) result }
{
    match &asked.command.action {
        Action::OpenSession {
            client_id,
            secret,
            scopes,
        } => open_session(asked, client_id, secret, scopes),
        Action::GetConfig { catalog } => get_config(asked, catalog),
        Action::ListCatalogs => list_catalogs(asked),
        Action::CreateCatalog {
            name,
            base,
            allowed,
            properties,
            external,
        } => create_catalog(asked, name, base, allowed, properties, *external),
        Action::GetCatalog { catalog } => get_catalog(asked, catalog),
        Action::DropCatalog { catalog } => drop_catalog(asked, catalog),
        Action::ListNamespaces { catalog, parent } => { list_namespaces(asked, catalog, parent) }
        Action::CreateNamespace {
            catalog,
            namespace,
            properties,
        } => create_namespace(asked, catalog, namespace, properties),
        Action::LoadNamespace { catalog, namespace } => {
            load_namespace(asked, catalog, namespace)
        }
        Action::HeadNamespace { catalog, namespace } => {
            head_namespace(asked, catalog, namespace)
        }
        Action::DropNamespace { catalog, namespace } => {
            drop_namespace(asked, catalog, namespace)
        }
        Action::UpdateProperties {
            catalog,
            namespace,
            removals,
            updates,
        } => update_properties(asked, catalog, namespace, removals, updates),
        Action::ListTables { catalog, namespace } => list_tables(asked, catalog, namespace),
        Action::CreateTable {
            catalog,
            namespace,
            request,
            delegated,
        } => creating(asked, catalog, namespace, request, *delegated),
        Action::LoadTable {
            catalog,
            identifier,
            refs_only,
            delegated,
        } => loading(asked, catalog, identifier, *refs_only, *delegated),
        Action::LoadCredentials {
            catalog,
            identifier,
        } => load_credentials(asked, catalog, identifier),
        Action::HeadTable {
            catalog,
            identifier,
        } => head_table(asked, catalog, identifier),
        Action::DropTable {
            catalog,
            identifier,
        } => drop_table(asked, catalog, identifier),
        Action::ReportMetrics {
            catalog,
            identifier,
        } => report_metrics(asked, catalog, identifier),
        Action::CommitTable { catalog, commit } => commit_table(asked, catalog, commit),
        Action::CommitTransaction { catalog, commits } => {
            commit_transaction(asked, catalog, commits.as_slice())
        }
        Action::RenameTable {
            catalog,
            source,
            destination,
        } => rename_table(asked, catalog, source, destination),
        Action::ListViews { catalog, namespace } => list_views(asked, catalog, namespace),
        Action::CreateView {
            catalog,
            namespace,
            request,
        } => create_view(asked, catalog, namespace, request),
        Action::LoadView {
            catalog,
            identifier,
        } => load_view(asked, catalog, identifier),
        Action::HeadView {
            catalog,
            identifier,
        } => head_view(asked, catalog, identifier),
        Action::ReplaceView { catalog, commit } => replace_view(asked, catalog, commit),
        Action::DropView {
            catalog,
            identifier,
        } => drop_view(asked, catalog, identifier),
        Action::RenameView {
            catalog,
            source,
            destination,
        } => rename_view(asked, catalog, source, destination),
        Action::ListPrincipals => list_principals(asked),
        Action::CreatePrincipal {
            name,
            client_id,
            secret,
        } => create_principal(asked, name, client_id, secret),
        Action::GetPrincipal { name } => get_principal(asked, name),
        Action::DropPrincipal { name } => drop_principal(asked, name),
        Action::Rotate { name, secret } => rotate(asked, name, secret),
        Action::ListMembers { principal } => list_members(asked, principal),
        Action::AddMember { principal, role } => { add_member(asked, principal, role) }
        Action::EndMember { principal, role } => { end_member(asked, principal, role) }
        Action::ListPrincipalRoles => list_principal_roles(asked),
        Action::CreatePrincipalRole { name } => create_principal_role(asked, name),
        Action::GetPrincipalRole { name } => get_principal_role(asked, name),
        Action::DropPrincipalRole { name } => drop_principal_role(asked, name),
        Action::ListJoins { catalog, role } => list_joins(asked, catalog, role),
        Action::AddJoin {
            catalog,
            role,
            catalog_role,
        } => add_join(asked, catalog, role, catalog_role),
        Action::EndJoin {
            catalog,
            role,
            catalog_role,
        } => end_join(asked, catalog, role, catalog_role),
        Action::ListCatalogRoles { catalog } => list_catalog_roles(asked, catalog),
        Action::CreateCatalogRole { catalog, name } => { create_catalog_role(asked, catalog, name) }
        Action::GetCatalogRole { catalog, name } => { get_catalog_role(asked, catalog, name) }
        Action::DropCatalogRole { catalog, name } => { drop_catalog_role(asked, catalog, name) }
        Action::ListGrants { catalog, role } => list_grants(asked, catalog, role),
        Action::AddGrant {
            catalog,
            role,
            grant,
        } => add_grant(asked, catalog, role, grant),
        Action::Revoke {
            catalog,
            role,
            grant,
        } => revoke(asked, catalog, role, grant),
        Action::Access { path, act } => access(asked, path, *act),
    }
}

/// Creates a table, with a storage token where that is asked for too.
fn creating(
    asked: &Asked<'_>,
    name: &Plain,
    levels: &Namespace,
    request: &CreateTable,
    delegated: bool,
) -> Result<Acted, Undone>
    requires sound { IsSound asked.now.state.now.rows }
    requires moment { asked.now.command.now.moment ≤ 2 ^ 62 }
    ensures { Acts asked.now (λ s command. creating delegated s command name.now levels.now request.now) result }
{
    if delegated {
        return create_delegated(asked, name, levels, request);
    }
    create_table(asked, name, levels, request)
}

/// Shows a table, with a storage token where that is asked for too.
fn loading(
    asked: &Asked<'_>,
    name: &Plain,
    identifier: &Identifier,
    refs_only: bool,
    delegated: bool,
) -> Result<Acted, Undone>
    requires sound { IsSound asked.now.state.now.rows }
    requires moment { asked.now.command.now.moment ≤ 2 ^ 62 }
    ensures { Acts asked.now (λ s command. loading delegated s command name.now identifier.now refs_only) result }
{
    if delegated {
        return load_delegated(asked, name, identifier, refs_only);
    }
    load_table(asked, name, identifier, refs_only)
}
