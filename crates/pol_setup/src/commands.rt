//! What a declaration does: the commands that set a catalogue up, and the lines that tell the secrets that were drawn.
ghost use Rattle.std.specs.Prelude.{◌≡◌, ◌≤◌, ◌++◌, IfOk, length, map};
ghost use Rattle.std.specs.List.{flat_map};
ghost use Rattle.pol_setup.specs.Setup as spec;

use crate::principals::{KeyedPrincipal, keyed, lines_of};
use pol_commands::{Action, Caller, Command, Words4};
use pol_declaration::{Declaration, NewCatalog, NewCatalogRole, NewGrant, NewPrincipalRole};
use pol_names::Plain;
use pol_properties::Properties;
use pol_types::{Listed, OutOfMemory, Text};
use std::alloc::Global;

/// What sets a catalogue up: the commands, in their order, and the text that tells the secrets that were drawn.
#[derive(Drop)]
pub struct Setup {
    pub commands: Listed<Command>,
    pub lines: Text,
}

/// How many random words are to be drawn for a declaration: two for each principal without a secret.
#[tactic(auto, using(crate::proofs::SetupLemmas::counts))]
pub fn words_needed(declaration: &Declaration) -> u64
    ensures { result ≡ spec.words_needed declaration.now }
{
    let principals = declaration.principals.as_slice();
    let drawn = principals.iter().filter(|one| one.secret.is_none());
    2 * drawn.count() as u64
}

/// The commands that set a catalogue up, by the caller `Setup`, at this moment (milliseconds since the Unix epoch) and
/// without charge, and the text that tells the drawn secrets.
///
/// The principal roles come first, then each principal with its memberships, the catalogues, each role of a catalogue
/// with its joins, and the grants. The k-th secret that is drawn, counted from 0, is the 32 hexadecimal digits of the
/// words at 2k and 2k + 1. The text has a line `principal NAME client-id ID secret SECRET` for each of these. Words that
/// aren't needed are passed over.
pub fn set_up(
    alloc: Global,
    declaration: Declaration,
    moment: u64,
    words: &[u64],
) -> Result<Setup, OutOfMemory>
    requires { spec.words_needed declaration ≤ length words.now }
    ensures commands { IfOk result (λ setup. setup.commands ≡ spec.commands declaration moment words.now) }
    ensures lines { IfOk result (λ setup. setup.lines ≡ spec.lines declaration words.now) }
{
    let principals = keyed(alloc, declaration.principals.as_slice(), words)?;
    let lines = lines_of(alloc, principals.as_slice())?;
    let mut actions = Vec::new(alloc);
    push_principal_roles(&mut actions, declaration.principal_roles)?;
    push_principals(&mut actions, principals)?;
    push_catalogs(alloc, &mut actions, declaration.catalogs)?;
    push_catalog_roles(&mut actions, declaration.catalog_roles)?;
    push_grants(&mut actions, declaration.grants)?;
    let commands = commands_of(alloc, moment, actions)?;
    Ok(Setup { commands, lines })
}

/// Each principal role is created.
fn push_principal_roles(
    actions: &mut Vec<Action>,
    roles: Listed<NewPrincipalRole>,
) -> Result<(), OutOfMemory>
    ensures { IfOk result (λ _. actions.new.items ≡ actions.old.items ++ map spec.create_principal_role roles) }
{
    let roles: Vec<NewPrincipalRole> = roles.into();
    for role in roles {
        actions.push(Action::CreatePrincipalRole { name: role.name })?;
    }
    Ok(())
}

/// Each principal is created, with its memberships.
fn push_principals(
    actions: &mut Vec<Action>,
    principals: Listed<KeyedPrincipal>,
) -> Result<(), OutOfMemory>
    ensures { IfOk result (λ _. actions.new.items ≡ actions.old.items ++ flat_map spec.principal_actions principals) }
{
    let principals: Vec<KeyedPrincipal> = principals.into();
    for principal in principals {
        push_principal(actions, principal)?;
    }
    Ok(())
}

/// A principal is created, and then made a member of each of its roles.
fn push_principal(actions: &mut Vec<Action>, principal: KeyedPrincipal) -> Result<(), OutOfMemory>
    ensures { IfOk result (λ _. actions.new.items ≡ actions.old.items ++ spec.principal_actions principal) }
{
    let KeyedPrincipal {
        name,
        client_id,
        secret,
        roles,
        ..
    } = principal;
    actions.push(Action::CreatePrincipal {
        name: name.clone()?,
        client_id: Some(client_id),
        secret: Some(secret),
    })?;
    push_members(actions, &name, roles)
}

/// A principal is made a member of each of these roles.
fn push_members(
    actions: &mut Vec<Action>,
    principal: &Plain,
    roles: Listed<Plain>,
) -> Result<(), OutOfMemory>
    ensures { IfOk result (λ _. actions.new.items ≡ actions.old.items ++ map (spec.add_member principal.now) roles) }
{
    let roles: Vec<Plain> = roles.into();
    for role in roles {
        let principal = principal.clone()?;
        actions.push(Action::AddMember { principal, role })?;
    }
    Ok(())
}

/// Each catalogue is created.
fn push_catalogs(
    alloc: Global,
    actions: &mut Vec<Action>,
    catalogs: Listed<NewCatalog>,
) -> Result<(), OutOfMemory>
    ensures { IfOk result (λ _. actions.new.items ≡ actions.old.items ++ map spec.create_catalog catalogs) }
{
    let catalogs: Vec<NewCatalog> = catalogs.into();
    for catalog in catalogs {
        actions.push(Action::CreateCatalog {
            name: catalog.name,
            base: catalog.base,
            allowed: catalog.allowed,
            properties: Properties::new(alloc),
            external: false,
        })?;
    }
    Ok(())
}

/// Each role of a catalogue is created, with its joins.
fn push_catalog_roles(
    actions: &mut Vec<Action>,
    roles: Listed<NewCatalogRole>,
) -> Result<(), OutOfMemory>
    ensures { IfOk result (λ _. actions.new.items ≡ actions.old.items ++ flat_map spec.catalog_role_actions roles) }
{
    let roles: Vec<NewCatalogRole> = roles.into();
    for role in roles {
        push_catalog_role(actions, role)?;
    }
    Ok(())
}

/// A role of a catalogue is created, and then each of its principal roles is joined to it.
fn push_catalog_role(actions: &mut Vec<Action>, role: NewCatalogRole) -> Result<(), OutOfMemory>
    ensures { IfOk result (λ _. actions.new.items ≡ actions.old.items ++ spec.catalog_role_actions role) }
{
    let NewCatalogRole {
        catalog,
        name,
        principal_roles,
    } = role;
    actions.push(Action::CreateCatalogRole {
        catalog: catalog.clone()?,
        name: name.clone()?,
    })?;
    push_joins(actions, &catalog, &name, principal_roles)
}

/// Each of these principal roles is joined to a role of a catalogue.
fn push_joins(
    actions: &mut Vec<Action>,
    catalog: &Plain,
    catalog_role: &Plain,
    roles: Listed<Plain>,
) -> Result<(), OutOfMemory>
    ensures { IfOk result (λ _. actions.new.items ≡ actions.old.items ++ map (spec.add_join catalog.now catalog_role.now) roles) }
{
    let roles: Vec<Plain> = roles.into();
    for role in roles {
        actions.push(Action::AddJoin {
            catalog: catalog.clone()?,
            role,
            catalog_role: catalog_role.clone()?,
        })?;
    }
    Ok(())
}

/// Each grant is added.
fn push_grants(actions: &mut Vec<Action>, grants: Listed<NewGrant>) -> Result<(), OutOfMemory>
    ensures { IfOk result (λ _. actions.new.items ≡ actions.old.items ++ map spec.add_grant grants) }
{
    let grants: Vec<NewGrant> = grants.into();
    for one in grants {
        actions.push(Action::AddGrant {
            catalog: one.catalog,
            role: one.catalog_role,
            grant: one.grant,
        })?;
    }
    Ok(())
}

/// The commands that do these actions.
fn commands_of(
    alloc: Global,
    moment: u64,
    actions: Vec<Action>,
) -> Result<Listed<Command>, OutOfMemory>
    ensures { IfOk result (λ commands. commands ≡ map (spec.by_setup moment) actions.items) }
{
    let mut commands = Vec::with_capacity(alloc, actions.len())?;
    for action in actions {
        commands.push(Command {
            caller: Caller::Setup,
            moment,
            words: no_words(),
            charge: 0,
            action,
        })?;
    }
    Ok(Listed::from(commands))
}

/// No command takes a random word: each secret is given.
fn no_words() -> Words4
    ensures { result ≡ spec.no_words }
{
    Words4 {
        a: 0,
        b: 0,
        c: 0,
        d: 0,
    }
}
