//! What goes along with a row that is dropped.
ghost use Rattle.std.specs.Prelude.{◌≡◌, ◌==◌, ◌++◌, filter, map, OnOk};
ghost use Rattle.pol_access.specs.Access.{catalog_role_id};
ghost use Rattle.pol_access.specs.Order.{grants_in_order, joins_in_order, members_in_order};
ghost use Rattle.pol_access.specs.Referent.{grant_names, join_names, member_names};
ghost use Rattle.pol_content.specs.declared.change.Change.TheVariants.{DropCatalogRole, DropGrant, DropJoin, DropMember};

use crate::rules::Asked;
use pol_access::{GrantRow, JoinRow, MemberRow, Referent};
use pol_content::Change;
use pol_types::OutOfMemory;

/// Pushes the drops of the roles of a catalogue, named by its id.
pub fn push_roles(
    asked: &Asked<'_>,
    catalog: u64,
    changes: &mut Vec<Change>,
) -> Result<(), OutOfMemory>
    ensures { let access = asked.now.state.now.rows.access in
        OnOk result (changes.new.items ≡ changes.old.items
        ++ map DropCatalogRole (map catalog_role_id (filter (λ row. row.catalog == catalog) access.catalog_roles))) }
{
    let access = asked.state.access();
    let ids = access.role_ids_of_catalog(asked.alloc, catalog)?;
    push_role_drops(ids.as_slice(), changes)
}

/// Pushes the drops of the members that name it, in rising order.
pub fn push_members(
    asked: &Asked<'_>,
    referent: Referent,
    changes: &mut Vec<Change>,
) -> Result<(), OutOfMemory>
    ensures { let access = asked.now.state.now.rows.access in
        OnOk result (changes.new.items ≡ changes.old.items
        ++ map DropMember (members_in_order (filter (member_names referent) access.members))) }
{
    let rows = asked.state.access().members_of(asked.alloc, referent)?;
    push_member_drops(rows.as_slice(), changes)
}

/// Pushes the drops of the joins that name it, in rising order.
pub fn push_joins(
    asked: &Asked<'_>,
    referent: Referent,
    changes: &mut Vec<Change>,
) -> Result<(), OutOfMemory>
    ensures { let access = asked.now.state.now.rows.access in
        OnOk result (changes.new.items ≡ changes.old.items
        ++ map DropJoin (joins_in_order (filter (join_names access.catalog_roles referent) access.joins))) }
{
    let rows = asked.state.access().joins_of(asked.alloc, referent)?;
    push_join_drops(rows.as_slice(), changes)
}

/// Pushes the drops of the grants that name it, in rising order.
pub fn push_grants(
    asked: &Asked<'_>,
    referent: Referent,
    changes: &mut Vec<Change>,
) -> Result<(), OutOfMemory>
    ensures { let access = asked.now.state.now.rows.access in
        OnOk result (changes.new.items ≡ changes.old.items
        ++ map DropGrant (grants_in_order (filter (grant_names access.catalog_roles referent) access.grants))) }
{
    let rows = asked.state.access().grants_of(asked.alloc, referent)?;
    push_grant_drops(rows.as_slice(), changes)
}

fn push_role_drops(ids: &[u64], changes: &mut Vec<Change>) -> Result<(), OutOfMemory>
    ensures { OnOk result (changes.new.items ≡ changes.old.items ++ map DropCatalogRole ids.now) }
{
    for id in ids {
        changes.push(Change::DropCatalogRole(*id))?;
    }
    Ok(())
}

fn push_member_drops(rows: &[MemberRow], changes: &mut Vec<Change>) -> Result<(), OutOfMemory>
    ensures { OnOk result (changes.new.items ≡ changes.old.items ++ map DropMember rows.now) }
{
    for row in rows {
        changes.push(Change::DropMember(*row))?;
    }
    Ok(())
}

fn push_join_drops(rows: &[JoinRow], changes: &mut Vec<Change>) -> Result<(), OutOfMemory>
    ensures { OnOk result (changes.new.items ≡ changes.old.items ++ map DropJoin rows.now) }
{
    for row in rows {
        changes.push(Change::DropJoin(*row))?;
    }
    Ok(())
}

fn push_grant_drops(rows: &[GrantRow], changes: &mut Vec<Change>) -> Result<(), OutOfMemory>
    ensures { OnOk result (changes.new.items ≡ changes.old.items ++ map DropGrant rows.now) }
{
    for row in rows {
        changes.push(Change::DropGrant(*row))?;
    }
    Ok(())
}
