ghost use Rattle.std.specs.Prelude.{◌≡◌, ◌≢◌, ℕ, List, IfOk, MatchOption, length, map, ◌==◌, ◌||◌, option_copied};
ghost use Rattle.std.specs.Bool.{⊤};
ghost use Rattle.std.specs.List.{filter_map, list_all, list_any, IsDistinct};
ghost use Rattle.std.specs.Str.{bytes_eq};
ghost use Rattle.pol_rules.specs.Judged.{Sees};
ghost use Rattle.pol_rules.specs.Rules.{all_roles, role_scope, role_of_scope, held_role, is_scope, invalid_scope};
ghost use Rattle.pol_access.specs.Access.{principal_role_name};
ghost use Rattle.pol_content_actions.specs.Sessions.{scope_of};
ghost use Rattle.pol_state.specs.Sound.{IsSound};

use pol_access::{Access, PrincipalRoleRow, RoleIds, Scope};
use pol_commands::Refusal;
use pol_rules::rules::Asked;
use pol_types::{Listed, OutOfMemory, Text};
use std::alloc::Global;

/// The scope of all roles.
const ALL_ROLES: &str = "PRINCIPAL_ROLE:ALL";

/// What the scope of a role has before the role's name.
const ROLE_PREFIX: &str = "PRINCIPAL_ROLE:";

/// Each of these words is all roles or a role of the principal.
pub(crate) fn scopes_there(
    asked: &Asked<'_>,
    principal: u64,
    scopes: &Listed<Text>,
) -> Result<(), Refusal>
    requires { IsSound asked.now.state.now.rows }
    ensures { Sees (invalid_scope asked.now.state.now.rows principal scopes.now) (λ _. ⊤) result }
{
    if !are_scopes(asked.state.access(), principal, scopes) {
        return Err(Refusal::InvalidScope);
    }
    Ok(())
}

/// Whether each of these words is all roles or a role of the principal.
fn are_scopes(access: &Access, principal: u64, scopes: &Listed<Text>) -> bool
    requires { IsDistinct bytes_eq (map principal_role_name access.now.rows.principal_roles) }
    ensures { result ≡ list_all (is_scope access.now.rows principal) scopes.now }
{
    scopes
        .iter()
        .all(|scope| is_scope(access, principal, scope.as_str()))
}

#[tactic(auto, unfolding(pol_rules::specs::Rules::is_scope))]
fn is_scope(access: &Access, principal: u64, scope: &str) -> bool
    requires { IsDistinct bytes_eq (map principal_role_name access.now.rows.principal_roles) }
    ensures { result ≡ is_scope access.now.rows principal scope.now }
{
    scope == ALL_ROLES || held_role(access, principal, scope).is_some()
}

/// The scope that these words make, each of which is all roles or a role of the principal.
#[tactic(auto, unfolding(crate::specs::Sessions::scope_of))]
pub(crate) fn scope_of(
    asked: &Asked<'_>,
    principal: u64,
    scopes: &Listed<Text>,
) -> Result<Scope, OutOfMemory>
    requires { IsSound asked.now.state.now.rows }
    ensures { IfOk result (λ scope. scope ≡ scope_of asked.now.state.now.rows principal scopes.now) }
{
    if mean_all_roles(scopes) {
        return Ok(Scope::All);
    }
    let roles = held_roles(asked.alloc, asked.state.access(), principal, scopes)?;
    Ok(Scope::Roles(roles))
}

/// The ids of the roles of the principal that the scopes name, in their order.
fn held_roles(
    alloc: Global,
    access: &Access,
    principal: u64,
    scopes: &Listed<Text>,
) -> Result<RoleIds, OutOfMemory>
    requires { IsDistinct bytes_eq (map principal_role_name access.now.rows.principal_roles) }
    ensures { IfOk result (λ roles. roles ≡ filter_map (held_role access.now.rows principal) scopes.now) }
{
    let roles: Vec<u64> = scopes
        .iter()
        .filter_map(|scope| held_role(access, principal, scope.as_str()))
        .collect(alloc)?;
    Ok(RoleIds::from(roles))
}

fn mean_all_roles(scopes: &Listed<Text>) -> bool
    ensures { result ≡ (length scopes.now == 0 || list_any (λ scope. bytes_eq scope all_roles) scopes.now) }
{
    scopes.as_slice().is_empty() || name_all_roles(scopes)
}

fn name_all_roles(scopes: &Listed<Text>) -> bool
    ensures { result ≡ list_any (λ scope. bytes_eq scope all_roles) scopes.now }
{
    scopes.iter().any(|scope| scope.as_str() == ALL_ROLES)
}

/// The id of the role of the principal that the scope names.
#[tactic(auto, unfolding(pol_rules::specs::Rules::held_role))]
fn held_role(access: &Access, principal: u64, scope: &str) -> Option<u64>
    requires { IsDistinct bytes_eq (map principal_role_name access.now.rows.principal_roles) }
    ensures { result ≡ held_role access.now.rows principal scope.now }
{
    let role = role_of_scope(access, scope)?;
    if access.is_member(principal, role.id) {
        return Some(role.id);
    }
    None
}

/// The role that the scope names.
fn role_of_scope<'a>(access: &'a Access, scope: &str) -> Option<&'a PrincipalRoleRow>
    requires { IsDistinct bytes_eq (map principal_role_name access.now.rows.principal_roles) }
    ensures { option_copied result ≡ role_of_scope access.now.rows scope.now }
{
    let name = role_name(scope)?;
    access.principal_role_named(name)
}

/// The name of the role that the scope names.
fn role_name(scope: &str) -> Option<&str>
    ensures { MatchOption result ((name : List ℕ) → scope.now ≢ role_scope name)
        (λ name. scope.now ≡ role_scope name.now) }
{
    scope.strip_prefix(ROLE_PREFIX)
}
