ghost use Rattle.std.specs.Prelude.{◌≡◌, ◌==◌, ◌↔◌, IsTrue, option_copied};
ghost use Rattle.std.specs.List.{list_any};
ghost use Rattle.pol_access.specs.May.{May};
ghost use Rattle.pol_access.specs.Search.{allows, covers, has_covering_grant, has_role, is_admin, is_granted, manages_service, may};
ghost use Rattle.pol_access.specs.Securable.{is_realm};

use crate::{
    Access, GrantRow, MemberRow, PrincipalRoleRow, Privilege, RoleIds, Scope, Securable, implies,
};

/// The principal role whose members manage the realm.
const SERVICE_ADMIN: &str = "service_admin";

impl Access {
    /// Whether a session of the principal with this scope may use the privilege on a securable, whose chain is itself
    /// and all that contain it: an active role of the session is joined to a catalogue role that has a grant of a
    /// privilege which implies it, on one of the chain; and on the realm, the privilege is `SERVICE_MANAGE_ACCESS`
    /// and `service_admin` is an active role. It searches the rows one by one.
    pub fn may(&self, principal: u64, scope: &Scope, wanted: Privilege, chain: &[Securable]) -> bool
        ensures { IsTrue result ↔ May self.now.rows principal scope.now wanted chain.now }
    {
        self.finds_role(principal, scope, wanted, chain)
    }

    /// The same, as the search tells it.
    #[tactic(auto, unfolding(crate::specs::Search::may))]
    fn finds_role(
        &self,
        principal: u64,
        scope: &Scope,
        wanted: Privilege,
        chain: &[Securable],
    ) -> bool
        ensures { result ≡ may self.now.rows principal scope.now wanted chain.now }
    {
        self.members().any(|member| self.allows(member, principal, scope, wanted, chain))
    }

    /// Whether the member is the principal in a role that the scope has, and the role allows what is wanted.
    #[tactic(auto, unfolding(crate::specs::Search::allows))]
    fn allows(
        &self,
        member: &MemberRow,
        principal: u64,
        scope: &Scope,
        wanted: Privilege,
        chain: &[Securable],
    ) -> bool
        ensures { result ≡ allows self.now.rows principal scope.now wanted chain.now member.now }
    {
        member.principal == principal
            && has_role(scope, member.role)
            && (self.manages_service(member.role, wanted, chain)
                || self.is_granted(member.role, wanted, chain))
    }

    #[tactic(auto, unfolding(crate::specs::Search::manages_service))]
    fn manages_service(&self, role: u64, wanted: Privilege, chain: &[Securable]) -> bool
        ensures { result ≡ manages_service self.now.rows role wanted chain.now }
    {
        wanted == Privilege::ServiceManageAccess
            && has_realm(chain)
            && is_admin(self.principal_role(role))
    }

    #[tactic(auto, unfolding(crate::specs::Search::is_granted))]
    fn is_granted(&self, role: u64, wanted: Privilege, chain: &[Securable]) -> bool
        ensures { result ≡ is_granted self.now.rows role wanted chain.now }
    {
        self.joins().any(|join| {
            join.principal_role == role && self.has_covering_grant(join.catalog_role, wanted, chain)
        })
    }

    fn has_covering_grant(&self, catalog_role: u64, wanted: Privilege, chain: &[Securable]) -> bool
        ensures { result ≡ has_covering_grant self.now.rows catalog_role wanted chain.now }
    {
        self.grants()
            .any(|grant| covers(grant, catalog_role, wanted, chain))
    }
}

/// Whether the chain has the realm.
fn has_realm(chain: &[Securable]) -> bool
    ensures { result ≡ list_any is_realm chain.now }
{
    chain.iter().any(|securable| securable.is_realm())
}

/// Whether the scope has the role.
fn has_role(scope: &Scope, role: u64) -> bool
    ensures { result ≡ has_role scope.now role }
{
    match scope {
        Scope::All => true,
        Scope::Roles(roles) => names_role(roles, role),
    }
}

fn names_role(roles: &RoleIds, role: u64) -> bool
    ensures { result ≡ list_any (λ kept. kept == role) roles.now }
{
    roles.iter().any(|kept| *kept == role)
}

/// Whether the row is that of `service_admin`.
fn is_admin(row: Option<&PrincipalRoleRow>) -> bool
    ensures { result ≡ is_admin (option_copied row.entry) }
{
    match row {
        Some(row) => row.name.as_str() == SERVICE_ADMIN,
        None => false,
    }
}

/// Whether the grant is the catalogue role's, of a privilege that implies the wanted one, and on what the chain has
/// below the realm.
#[tactic(auto, unfolding(crate::specs::Search::covers))]
fn covers(grant: &GrantRow, catalog_role: u64, wanted: Privilege, chain: &[Securable]) -> bool
    ensures { result ≡ covers catalog_role wanted chain.now grant.now }
{
    grant.catalog_role == catalog_role
        && implies(grant.privilege, wanted)
        && !grant.securable.is_realm()
        && grant.securable.is_in(chain)
}
