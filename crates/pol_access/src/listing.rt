ghost use Rattle.std.specs.Prelude.{◌≡◌, filter, map, IfOk};
ghost use Rattle.pol_access.specs.Access.{catalog_role_id, catalog_role_name, has_other_role, held_roles, own_joined_roles, own_roles, principal_name, principal_role_name};
ghost use Rattle.pol_access.specs.Order.{by_name, grants_in_order, joins_in_order, members_in_order};
ghost use Rattle.pol_access.specs.Referent.{grant_names, join_names, member_names};

use crate::{
    Access, CatalogRoleRow, GrantRow, JoinRow, MemberRow, PrincipalRoleRow, PrincipalRow, Referent,
};
use pol_tables::{rows_in_order, sorted_facts, sorted_rows};
use pol_types::OutOfMemory;
use std::alloc::{AllocError, Global};

impl Access {
    /// The members that name a referent, in rising order.
    #[tactic(auto, using(crate::proofs::FactOrderLemmas::members_sorted))]
    pub fn members_of(
        &self,
        alloc: Global,
        referent: Referent,
    ) -> Result<Vec<MemberRow>, OutOfMemory>
        ensures { IfOk result (λ rows.
            rows.items ≡ members_in_order (filter (member_names referent) self.now.rows.members)) }
    {
        sorted_facts(self.members_that_name(alloc, referent)?)
    }

    /// The joins that name a referent, in rising order.
    #[tactic(auto, using(crate::proofs::FactOrderLemmas::joins_sorted))]
    pub fn joins_of(&self, alloc: Global, referent: Referent) -> Result<Vec<JoinRow>, OutOfMemory>
        ensures { IfOk result (λ rows.
            rows.items
            ≡ joins_in_order (filter (join_names self.now.rows.catalog_roles referent) self.now.rows.joins)) }
    {
        sorted_facts(self.joins_that_name(alloc, referent)?)
    }

    /// The grants that name a referent, in rising order.
    #[tactic(auto, using(crate::proofs::FactOrderLemmas::grants_sorted))]
    pub fn grants_of(&self, alloc: Global, referent: Referent) -> Result<Vec<GrantRow>, OutOfMemory>
        ensures { IfOk result (λ rows.
            rows.items
            ≡ grants_in_order (filter (grant_names self.now.rows.catalog_roles referent) self.now.rows.grants)) }
    {
        sorted_facts(self.grants_that_name(alloc, referent)?)
    }

    /// The principals, in byte order of their names.
    pub fn principals_by_name(&self, alloc: Global) -> Result<Vec<&PrincipalRow>, OutOfMemory>
        ensures { IfOk result (λ listed.
            map (λ row. row.now) listed.items ≡ by_name principal_name self.now.rows.principals) }
    {
        rows_in_order(alloc, self.principals())
    }

    /// The principal roles, in byte order of their names.
    pub fn principal_roles_by_name(
        &self,
        alloc: Global,
    ) -> Result<Vec<&PrincipalRoleRow>, OutOfMemory>
        ensures { IfOk result (λ listed.
            map (λ row. row.now) listed.items ≡ by_name principal_role_name self.now.rows.principal_roles) }
    {
        rows_in_order(alloc, self.principal_roles())
    }

    /// The principal roles of which a principal, named by its id, is a member, in byte order of their names.
    pub fn roles_of_principal(
        &self,
        alloc: Global,
        principal: u64,
    ) -> Result<Vec<&PrincipalRoleRow>, OutOfMemory>
        ensures { IfOk result (λ listed.
            map (λ row. row.now) listed.items ≡ by_name principal_role_name (held_roles principal self.now.rows)) }
    {
        sorted_rows(self.held_roles(alloc, principal)?)
    }

    /// The roles of a catalogue, named by its id, in byte order of their names.
    pub fn roles_of_catalog(
        &self,
        alloc: Global,
        catalog: u64,
    ) -> Result<Vec<&CatalogRoleRow>, OutOfMemory>
        ensures { IfOk result (λ listed.
            map (λ row. row.now) listed.items ≡ by_name catalog_role_name (own_roles catalog self.now.rows)) }
    {
        sorted_rows(self.own_roles(alloc, catalog)?)
    }

    /// The roles of a catalogue to which a principal role is joined, each named by its id, in byte order of their
    /// names.
    pub fn joined_roles(
        &self,
        alloc: Global,
        principal_role: u64,
        catalog: u64,
    ) -> Result<Vec<&CatalogRoleRow>, OutOfMemory>
        ensures { IfOk result (λ listed.
            map (λ row. row.now) listed.items
            ≡ by_name catalog_role_name (own_joined_roles principal_role catalog self.now.rows)) }
    {
        sorted_rows(self.own_joined_roles(alloc, principal_role, catalog)?)
    }

    /// The ids of the roles of a catalogue, named by its id, in the order of the rows.
    pub fn role_ids_of_catalog(&self, alloc: Global, catalog: u64) -> Result<Vec<u64>, OutOfMemory>
        ensures { IfOk result (λ ids. ids.items ≡ map catalog_role_id (own_roles catalog self.now.rows)) }
    {
        Ok(
            self.catalog_roles()
                .filter(|row| row.catalog == catalog)
                .map(|row| row.id)
                .collect(alloc)?,
        )
    }

    /// Whether a catalogue, named by its id, has a role beside the one of this name.
    pub fn has_other_role(&self, catalog: u64, name: &str) -> bool
        ensures { result ≡ has_other_role catalog name.now self.now.rows }
    {
        self.catalog_roles()
            .any(|row| row.catalog == catalog && name != row.name.as_str())
    }

    /// The members that name a referent, in their order.
    fn members_that_name(
        &self,
        alloc: Global,
        referent: Referent,
    ) -> Result<Vec<MemberRow>, AllocError>
        ensures { IfOk result (λ rows. rows.items ≡ filter (member_names referent) self.now.rows.members) }
    {
        self.members()
            .filter(|row| referent.is_named_by_member(row))
            .copied()
            .collect(alloc)
    }

    /// The joins that name a referent, in their order.
    fn joins_that_name(&self, alloc: Global, referent: Referent) -> Result<Vec<JoinRow>, AllocError>
        ensures { IfOk result (λ rows.
            rows.items ≡ filter (join_names self.now.rows.catalog_roles referent) self.now.rows.joins) }
    {
        self.joins()
            .filter(|row| referent.is_named_by_join(self, row))
            .copied()
            .collect(alloc)
    }

    /// The grants that name a referent, in their order.
    fn grants_that_name(
        &self,
        alloc: Global,
        referent: Referent,
    ) -> Result<Vec<GrantRow>, AllocError>
        ensures { IfOk result (λ rows.
            rows.items ≡ filter (grant_names self.now.rows.catalog_roles referent) self.now.rows.grants) }
    {
        self.grants()
            .filter(|row| referent.is_named_by_grant(self, row))
            .copied()
            .collect(alloc)
    }

    /// The principal roles of which a principal is a member, in their order.
    fn held_roles(
        &self,
        alloc: Global,
        principal: u64,
    ) -> Result<Vec<&PrincipalRoleRow>, AllocError>
        ensures { IfOk result (λ lent. map (λ row. row.now) lent.items ≡ held_roles principal self.now.rows) }
    {
        self.principal_roles()
            .filter(|row| self.is_member(principal, row.id))
            .collect(alloc)
    }

    /// The roles of a catalogue, in their order.
    fn own_roles(&self, alloc: Global, catalog: u64) -> Result<Vec<&CatalogRoleRow>, AllocError>
        ensures { IfOk result (λ lent. map (λ row. row.now) lent.items ≡ own_roles catalog self.now.rows) }
    {
        self.catalog_roles()
            .filter(|row| row.catalog == catalog)
            .collect(alloc)
    }

    /// The roles of a catalogue to which a principal role is joined, in their order.
    fn own_joined_roles(
        &self,
        alloc: Global,
        principal_role: u64,
        catalog: u64,
    ) -> Result<Vec<&CatalogRoleRow>, AllocError>
        ensures { IfOk result (λ lent.
            map (λ row. row.now) lent.items ≡ own_joined_roles principal_role catalog self.now.rows) }
    {
        self.catalog_roles()
            .filter(|row| row.catalog == catalog && self.is_joined(principal_role, row.id))
            .collect(alloc)
    }
}
