ghost use Rattle.std.specs.Prelude.{◌≡◌, ◌==◌, ◌<◌, ◌≤◌, ◌+◌, [], true, false, filter, map, Ok, IfOk, IsOk, OnOk, option_copied};
ghost use Rattle.std.specs.List.{IsDistinct};
ghost use Rattle.std.specs.Str.{bytes_eq};
ghost use Rattle.pol_access.specs.Access.{IsWithin, catalog_role_id, client_id_of, is_joined, is_member, names_in, principal_id, principal_name, principal_role_id, principal_role_name};
ghost use Rattle.pol_access.specs.Groups.{grants_at_most, grants_with, joins_at_most, members_at_most};
ghost use Rattle.pol_access.specs.Names.{catalog_role_named, has_catalog_role_name, has_client_id, has_name, has_role_name, principal_named, principal_of_client, principal_role_named, same_role_name};
ghost use Rattle.pol_access.specs.contracts.rows.GrantRow as grant;
ghost use Rattle.pol_access.specs.contracts.rows.JoinRow as join;
ghost use Rattle.pol_access.specs.contracts.rows.MemberRow as member;
ghost use Rattle.pol_tables.specs.Facts.{facts_with, facts_without, holds};
ghost use Rattle.pol_tables.specs.Named.{Finds};
ghost use Rattle.pol_tables.specs.Table.{row_of, rows_with, rows_without};

use crate::names::{CatalogRoleName, PrincipalRoleName};
use crate::principals::Principals;
use crate::{
    CatalogRoleRow, GrantRow, JoinRow, MemberRow, PrincipalRoleRow, PrincipalRow, Referent,
};
use pol_tables::{NamedTable, Rows};
use pol_tallies::{FactRows, GroupedFacts};
use pol_types::OutOfMemory;
use std::alloc::{AllocError, Global};
use std::marker::Model;

/// How many rows of each kind.
#[derive(Clone, Copy, PartialEq, Eq)]
pub struct AccessRoom {
    pub principals: usize,
    pub principal_roles: usize,
    pub catalog_roles: usize,
    pub members: usize,
    pub joins: usize,
    pub grants: usize,
}

/// Principals, principal roles, catalogue roles, and who is a member, joined and granted what. Contracts see the
/// rows, and the room: how many more of each can be put without taking memory. What has a name or a client id is
/// found by it without a scan, and is the only such row where names stand once. A put and a drop change one row and
/// take no memory: what names a dropped row stays. Members, joins and grants are counted by the ids that they have.
#[derive(Drop)]
pub struct Access {
    principals: Principals,
    principal_roles: NamedTable<PrincipalRoleRow>,
    catalog_roles: NamedTable<CatalogRoleRow>,
    members: GroupedFacts<MemberRow>,
    joins: GroupedFacts<JoinRow>,
    grants: GroupedFacts<GrantRow>,
}

impl Model for Access {
    ghost use Rattle.pol_access.specs.Access.{AccessValue};

    ghost Value = { AccessValue };

    ghost view = { λ access. record {
      rows = record {
        principals = access.principals.rows;
        principal_roles = access.principal_roles.rows;
        catalog_roles = access.catalog_roles.rows;
        members = access.members.facts;
        joins = access.joins.facts;
        grants = access.grants.facts;
      };
      room = record {
        principals = access.principals.room;
        principal_roles = access.principal_roles.room;
        catalog_roles = access.catalog_roles.room;
        members = access.members.room;
        joins = access.joins.room;
        grants = access.grants.room;
      };
    } };
}

impl Access {
    /// No rows, and no memory taken.
    pub fn new(alloc: Global) -> Self
        ensures { result.rows
            ≡ record
            { principals = []; principal_roles = []; catalog_roles = []; members = []; joins = []; grants = [] } }
    {
        Access {
            principals: Principals::new(alloc),
            principal_roles: NamedTable::new(alloc),
            catalog_roles: NamedTable::new(alloc),
            members: GroupedFacts::new(alloc),
            joins: GroupedFacts::new(alloc),
            grants: GroupedFacts::new(alloc),
        }
    }

    /// The principals, in their order.
    pub fn principals(&self) -> Rows<'_, PrincipalRow>
        ensures { result ≡ self.now.rows.principals }
    {
        self.principals.rows()
    }

    /// The principal of this id.
    pub fn principal(&self, id: u64) -> Option<&PrincipalRow>
        ensures { option_copied result ≡ row_of principal_id id self.now.rows.principals }
    {
        self.principals.find(id)
    }

    /// A principal of this name.
    pub fn principal_named(&self, name: &str) -> Option<&PrincipalRow>
        ensures found { Finds principal_id (has_name name.now) self.now.rows.principals (option_copied result) }
        ensures only { IsDistinct bytes_eq (map principal_name self.now.rows.principals)
            → option_copied result ≡ principal_named name.now self.now.rows }
    {
        self.principals.named(name)
    }

    /// A principal of this client id.
    pub fn principal_of_client(&self, client_id: &str) -> Option<&PrincipalRow>
        ensures found { Finds principal_id (has_client_id client_id.now) self.now.rows.principals
            (option_copied result) }
        ensures only { IsDistinct bytes_eq (map client_id_of self.now.rows.principals) → option_copied result
            ≡ principal_of_client client_id.now self.now.rows }
    {
        self.principals.of_client(client_id)
    }

    /// The principal roles, in their order.
    pub fn principal_roles(&self) -> Rows<'_, PrincipalRoleRow>
        ensures { result ≡ self.now.rows.principal_roles }
    {
        self.principal_roles.rows()
    }

    /// The principal role of this id.
    pub fn principal_role(&self, id: u64) -> Option<&PrincipalRoleRow>
        ensures { option_copied result ≡ row_of principal_role_id id self.now.rows.principal_roles }
    {
        self.principal_roles.find(id)
    }

    /// A principal role of this name.
    pub fn principal_role_named(&self, name: &str) -> Option<&PrincipalRoleRow>
        ensures found { Finds principal_role_id (has_role_name name.now) self.now.rows.principal_roles
            (option_copied result) }
        ensures only { IsDistinct bytes_eq (map principal_role_name self.now.rows.principal_roles)
            → option_copied result ≡ principal_role_named name.now self.now.rows }
    {
        self.principal_roles.named(&PrincipalRoleName(name))
    }

    /// The catalogue roles, in their order.
    pub fn catalog_roles(&self) -> Rows<'_, CatalogRoleRow>
        ensures { result ≡ self.now.rows.catalog_roles }
    {
        self.catalog_roles.rows()
    }

    /// The catalogue role of this id.
    pub fn catalog_role(&self, id: u64) -> Option<&CatalogRoleRow>
        ensures { option_copied result ≡ row_of catalog_role_id id self.now.rows.catalog_roles }
    {
        self.catalog_roles.find(id)
    }

    /// A role of the catalogue, named by its id, of this name.
    pub fn catalog_role_named(&self, catalog: u64, name: &str) -> Option<&CatalogRoleRow>
        ensures found { Finds catalog_role_id (has_catalog_role_name catalog name.now) self.now.rows.catalog_roles
            (option_copied result) }
        ensures only { IsDistinct same_role_name self.now.rows.catalog_roles → option_copied result
            ≡ catalog_role_named catalog name.now self.now.rows }
    {
        self.catalog_roles.named(&CatalogRoleName { catalog, name })
    }

    /// The members, in the order in which they were put.
    pub fn members(&self) -> FactRows<'_, MemberRow>
        ensures { result ≡ self.now.rows.members }
    {
        self.members.facts()
    }

    /// Whether the principal is a member of the role, each named by its id.
    pub fn is_member(&self, principal: u64, role: u64) -> bool
        ensures { result ≡ is_member principal role self.now.rows }
    {
        self.members.contains(&MemberRow { principal, role })
    }

    /// The joins, in the order in which they were put.
    pub fn joins(&self) -> FactRows<'_, JoinRow>
        ensures { result ≡ self.now.rows.joins }
    {
        self.joins.facts()
    }

    /// Whether the principal role is joined to the catalogue role, each named by its id.
    pub fn is_joined(&self, principal_role: u64, catalog_role: u64) -> bool
        ensures { result ≡ is_joined principal_role catalog_role self.now.rows }
    {
        self.joins.contains(&JoinRow {
            principal_role,
            catalog_role,
        })
    }

    /// The grants, in the order in which they were put.
    pub fn grants(&self) -> FactRows<'_, GrantRow>
        ensures { result ≡ self.now.rows.grants }
    {
        self.grants.facts()
    }

    /// Whether the grant is one of these.
    pub fn has_grant(&self, row: &GrantRow) -> bool
        ensures { result ≡ holds grant.the_row.coded row.now self.now.rows.grants }
    {
        self.grants.contains(row)
    }

    /// Whether surely no more than so many members, joins and grants name the referent. It scans nothing: it counts
    /// those that have the referent's id, which are no fewer. In a sound state no two things share an id, so that these
    /// are those that name it, and it answers by their exact number. The roles of a catalogue and the realm have no
    /// such id: for the first it counts all joins and grants, for the second all grants.
    #[tactic(auto, using(crate::proofs::CountLemmas::few_named))]
    pub fn is_named_by_at_most(&self, one: Referent, most: usize) -> bool
        ensures { result ≡ true → names_in one self.now.rows ≤ most }
    {
        let most = most as u128;
        let members = self.members_at_most(one);
        let joins = self.joins_at_most(one);
        let grants = self.grants_at_most(one);
        members <= most && joins <= most - members && grants <= most - members - joins
    }

    /// No fewer than the members that name the referent.
    fn members_at_most(&self, one: Referent) -> u128
        ensures { result ≡ members_at_most one self.now.rows.members }
    {
        match one {
            Referent::Principal(id) | Referent::PrincipalRole(id) => self.members.count(id),
            Referent::CatalogRole(_) | Referent::RoleOfCatalog(_) | Referent::Securable(_) => 0,
        }
    }

    /// No fewer than the joins that name it.
    fn joins_at_most(&self, one: Referent) -> u128
        ensures { result ≡ joins_at_most one self.now.rows.joins }
    {
        match one {
            Referent::PrincipalRole(id) | Referent::CatalogRole(id) => self.joins.count(id),
            Referent::RoleOfCatalog(_) => self.joins.len() as u128,
            Referent::Principal(_) | Referent::Securable(_) => 0,
        }
    }

    /// No fewer than the grants that name it.
    fn grants_at_most(&self, one: Referent) -> u128
        ensures { result ≡ grants_at_most one self.now.rows.grants }
    {
        match one {
            Referent::CatalogRole(id) => self.grants.count(id),
            Referent::RoleOfCatalog(_) => self.grants.len() as u128,
            Referent::Securable(securable) => self.grants_with(securable.id()),
            Referent::Principal(_) | Referent::PrincipalRole(_) => 0,
        }
    }

    /// How many grants have the id, or how many there are where it is none.
    fn grants_with(&self, id: Option<u64>) -> u128
        ensures { result ≡ grants_with id self.now.rows.grants }
    {
        match id {
            Some(id) => self.grants.count(id),
            None => self.grants.len() as u128,
        }
    }

    /// Makes room for so many more rows, so that putting them takes no memory. On an error the rows stay, and no room
    /// shrinks.
    pub fn reserve(&mut self, more: &AccessRoom) -> Result<(), OutOfMemory>
        ensures rows { self.new.rows ≡ self.old.rows }
        ensures reserved { OnOk result (IsWithin more.now self.new.room) }
        ensures succeeds { IsWithin more.now self.old.room → IsOk result }
        ensures room { IsWithin self.old.room self.new.room }
    {
        self.principals.reserve(more.principals)?;
        self.principal_roles.reserve(more.principal_roles)?;
        self.catalog_roles.reserve(more.catalog_roles)?;
        self.members.reserve(more.members)?;
        self.joins.reserve(more.joins)?;
        self.grants.reserve(more.grants)
    }

    /// Puts a principal: a new id goes last, and a known id's row is replaced in its place.
    pub fn put_principal(&mut self, row: PrincipalRow)
        requires { 0 < self.old.room.principals }
        ensures rows { self.new.rows
            ≡ record self.old.rows { principals = rows_with principal_id row self.old.rows.principals } }
        ensures room { self.old.room.principals ≤ self.new.room.principals + 1 }
        ensures others { self.new.room ≡ record self.old.room { principals = self.new.room.principals } }
    {
        self.principals.put(row);
    }

    /// Puts a principal role: a new id goes last, and a known id's row is replaced in its place.
    pub fn put_principal_role(&mut self, row: PrincipalRoleRow)
        requires { 0 < self.old.room.principal_roles }
        ensures rows { self.new.rows
            ≡ record self.old.rows
            { principal_roles = rows_with principal_role_id row self.old.rows.principal_roles } }
        ensures room { self.old.room.principal_roles ≤ self.new.room.principal_roles + 1 }
        ensures others { self.new.room ≡ record self.old.room { principal_roles = self.new.room.principal_roles } }
    {
        self.principal_roles.put(row);
    }

    /// Puts a catalogue role: a new id goes last, and a known id's row is replaced in its place.
    pub fn put_catalog_role(&mut self, row: CatalogRoleRow)
        requires { 0 < self.old.room.catalog_roles }
        ensures rows { self.new.rows
            ≡ record self.old.rows { catalog_roles = rows_with catalog_role_id row self.old.rows.catalog_roles } }
        ensures room { self.old.room.catalog_roles ≤ self.new.room.catalog_roles + 1 }
        ensures others { self.new.room ≡ record self.old.room { catalog_roles = self.new.room.catalog_roles } }
    {
        self.catalog_roles.put(row);
    }

    /// Puts a member: a new one goes last, and one that is known changes nothing.
    pub fn put_member(&mut self, row: MemberRow)
        requires { holds member.the_row.coded row self.old.rows.members ≡ false → 0 < self.old.room.members }
        ensures rows { self.new.rows
            ≡ record self.old.rows { members = facts_with member.the_row.coded row self.old.rows.members } }
        ensures room { self.old.room.members ≤ self.new.room.members + 1 }
        ensures others { self.new.room ≡ record self.old.room { members = self.new.room.members } }
    {
        self.members.put(row);
    }

    /// Puts a join: a new one goes last, and one that is known changes nothing.
    pub fn put_join(&mut self, row: JoinRow)
        requires { holds join.the_row.coded row self.old.rows.joins ≡ false → 0 < self.old.room.joins }
        ensures rows { self.new.rows
            ≡ record self.old.rows { joins = facts_with join.the_row.coded row self.old.rows.joins } }
        ensures room { self.old.room.joins ≤ self.new.room.joins + 1 }
        ensures others { self.new.room ≡ record self.old.room { joins = self.new.room.joins } }
    {
        self.joins.put(row);
    }

    /// Puts a grant: a new one goes last, and one that is known changes nothing.
    pub fn put_grant(&mut self, row: GrantRow)
        requires { holds grant.the_row.coded row self.old.rows.grants ≡ false → 0 < self.old.room.grants }
        ensures rows { self.new.rows
            ≡ record self.old.rows { grants = facts_with grant.the_row.coded row self.old.rows.grants } }
        ensures room { self.old.room.grants ≤ self.new.room.grants + 1 }
        ensures others { self.new.room ≡ record self.old.room { grants = self.new.room.grants } }
    {
        self.grants.put(row);
    }

    /// Drops the principal of this id, and nothing else.
    pub fn drop_principal(&mut self, id: u64)
        ensures rows { self.new.rows
            ≡ record self.old.rows { principals = rows_without principal_id id self.old.rows.principals } }
        ensures room { IsWithin self.old.room self.new.room }
    {
        self.principals.take(id);
    }

    /// Drops the principal role of this id, and nothing else.
    pub fn drop_principal_role(&mut self, id: u64)
        ensures rows { self.new.rows
            ≡ record self.old.rows
            { principal_roles = rows_without principal_role_id id self.old.rows.principal_roles } }
        ensures room { IsWithin self.old.room self.new.room }
    {
        self.principal_roles.take(id);
    }

    /// Drops the catalogue role of this id, and nothing else.
    pub fn drop_catalog_role(&mut self, id: u64)
        ensures rows { self.new.rows
            ≡ record self.old.rows { catalog_roles = rows_without catalog_role_id id self.old.rows.catalog_roles } }
        ensures room { IsWithin self.old.room self.new.room }
    {
        self.catalog_roles.take(id);
    }

    /// Drops a member, and answers whether it was there.
    pub fn drop_member(&mut self, row: &MemberRow) -> bool
        ensures dropped { result ≡ holds member.the_row.coded row.now self.old.rows.members }
        ensures rows { self.new.rows
            ≡ record self.old.rows { members = facts_without member.the_row.coded row.now self.old.rows.members } }
        ensures room { IsWithin self.old.room self.new.room }
    {
        self.members.take(row)
    }

    /// Drops a join, and answers whether it was there.
    pub fn drop_join(&mut self, row: &JoinRow) -> bool
        ensures dropped { result ≡ holds join.the_row.coded row.now self.old.rows.joins }
        ensures rows { self.new.rows
            ≡ record self.old.rows { joins = facts_without join.the_row.coded row.now self.old.rows.joins } }
        ensures room { IsWithin self.old.room self.new.room }
    {
        self.joins.take(row)
    }

    /// Drops a grant, and answers whether it was there.
    pub fn drop_grant(&mut self, row: &GrantRow) -> bool
        ensures dropped { result ≡ holds grant.the_row.coded row.now self.old.rows.grants }
        ensures rows { self.new.rows
            ≡ record self.old.rows { grants = facts_without grant.the_row.coded row.now self.old.rows.grants } }
        ensures room { IsWithin self.old.room self.new.room }
    {
        self.grants.take(row)
    }
}

impl Clone for Access {
    ghost is_clone = { λ source clone. clone.rows ≡ source.rows };

    fn clone(&self) -> Result<Self, AllocError> {
        let principals = self.principals.clone()?;
        let (principals, roles) = beside(principals, clone_roles(self))?;
        let ((principals, roles), facts) = beside((principals, roles), clone_facts(self))?;
        let (principal_roles, catalog_roles) = roles;
        let (members, joins, grants) = facts;
        Ok(Access {
            principals,
            principal_roles,
            catalog_roles,
            members,
            joins,
            grants,
        })
    }
}

/// Copies of the tables of roles.
fn clone_roles(
    access: &Access,
) -> Result<(NamedTable<PrincipalRoleRow>, NamedTable<CatalogRoleRow>), AllocError>
    ensures principal_roles { IfOk result (λ copies. copies.0.rows ≡ access.now.rows.principal_roles) }
    ensures catalog_roles { IfOk result (λ copies. copies.1.rows ≡ access.now.rows.catalog_roles) }
{
    let principal_roles = access.principal_roles.clone()?;
    let catalog_roles = access.catalog_roles.clone()?;
    Ok((principal_roles, catalog_roles))
}

/// Copies of the sets of facts.
fn clone_facts(
    access: &Access,
) -> Result<
    (
        GroupedFacts<MemberRow>,
        GroupedFacts<JoinRow>,
        GroupedFacts<GrantRow>,
    ),
    AllocError,
>
    ensures members { IfOk result (λ copies. copies.0.facts ≡ access.now.rows.members) }
    ensures joins { IfOk result (λ copies. copies.1.facts ≡ access.now.rows.joins) }
    ensures grants { IfOk result (λ copies. copies.2.facts ≡ access.now.rows.grants) }
{
    let members = access.members.clone()?;
    let joins = access.joins.clone()?;
    let grants = access.grants.clone()?;
    Ok((members, joins, grants))
}

/// What was made, and beside it what was to be made next, if that was.
pub fn beside<A: Drop, B>(first: A, second: Result<B, AllocError>) -> Result<(A, B), AllocError>
    ensures first { IfOk result (λ both. both.0 ≡ first) }
    ensures second { IfOk result (λ both. second ≡ Ok both.1) }
{
    match second {
        Ok(second) => Ok((first, second)),
        Err(error) => Err(error),
    }
}
