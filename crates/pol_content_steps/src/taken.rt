//! What a row that is dropped takes along: the members, joins and grants that name it.
ghost use Rattle.std.specs.Prelude.{◌≡◌, true};
ghost use Rattle.std.specs.List.{list_all, list_any};
ghost use Rattle.pol_access.specs.Referent.{grant_names, join_names, member_names};
ghost use Rattle.pol_content_steps.specs.Taken.{drops_grant, drops_join, drops_known, drops_member, drops_named, drops_same, each_goes_along, fact_dropped, goes_along, takes_along};
ghost use Rattle.pol_sound_access.specs.Judged.{all_differ};
ghost use Rattle.pol_tables.specs.Same.{same};

use pol_access::{Access, GrantRow, JoinRow, MemberRow, Referent};
use pol_content::Change;
use pol_tables::Fact;

/// A fact that a change drops.
#[derive(Clone, Copy)]
enum Dropped {
    Member(MemberRow),
    Join(JoinRow),
    Grant(GrantRow),
}

/// Whether the changes drop the members, joins and grants that name the referent, and no other rows. It looks at the
/// changes alone where each drops a fact that is there, no two the same, and no more facts are counted that name the
/// referent. Else it goes over all members, joins and grants, and for each that names the referent over the changes.
pub(crate) fn takes_along(access: &Access, one: Referent, changes: &[Change]) -> bool
    ensures { result ≡ takes_along one access.now.rows changes.now }
{
    drop_named(access, one, changes)
        && (drop_all(access, one, changes) || each_goes_along(access, one, changes))
}

/// Whether each of the changes drops a fact that names the referent.
fn drop_named(access: &Access, one: Referent, changes: &[Change]) -> bool
    ensures { result ≡ list_all (drops_named access.now.rows.catalog_roles one) changes.now }
{
    changes
        .iter()
        .all(|change| drops_named(access, one, change))
}

/// Whether the changes, each of which drops a fact that names the referent, are seen to drop all of these: each drops
/// one that is there, no two the same, and no more are counted.
fn drop_all(access: &Access, one: Referent, changes: &[Change]) -> bool
    requires { list_all (drops_named access.now.rows.catalog_roles one) changes.now ≡ true }
    ensures { result ≡ true → each_goes_along one access.now.rows changes.now ≡ true }
{
    access.is_named_by_at_most(one, changes.len())
        && drop_known(access, changes)
        && drop_apart(changes)
}

/// Whether each of the changes drops a fact that is there.
fn drop_known(access: &Access, changes: &[Change]) -> bool
    ensures { result ≡ list_all (drops_known access.now.rows) changes.now }
{
    changes.iter().all(|change| drops_known(access, change))
}

/// Whether no two of the changes drop the same fact. It compares each with all behind it.
fn drop_apart(changes: &[Change]) -> bool
    ensures { result ≡ all_differ drops_same changes.now }
{
    let mut left = changes;
    while let Some((first, rest)) = left.split_first() {
        if drop_again(first, rest) {
            return false;
        }
        left = rest;
    }
    true
}

/// Whether the changes drop each member, join and grant that names the referent.
fn each_goes_along(access: &Access, one: Referent, changes: &[Change]) -> bool
    ensures { result ≡ each_goes_along one access.now.rows changes.now }
{
    members_go_along(access, one, changes)
        && joins_go_along(access, one, changes)
        && grants_go_along(access, one, changes)
}

/// Whether the changes drop each member that names the referent.
fn members_go_along(access: &Access, one: Referent, changes: &[Change]) -> bool
    ensures { result
        ≡ list_all (goes_along (member_names one) drops_member changes.now) access.now.rows.members }
{
    access
        .members()
        .all(|row| member_goes_along(one, changes, row))
}

/// Whether the changes drop each join that names the referent.
fn joins_go_along(access: &Access, one: Referent, changes: &[Change]) -> bool
    ensures { result
        ≡ list_all (goes_along (join_names access.now.rows.catalog_roles one) drops_join changes.now)
        access.now.rows.joins }
{
    access
        .joins()
        .all(|row| join_goes_along(access, one, changes, row))
}

/// Whether the changes drop each grant that names the referent.
fn grants_go_along(access: &Access, one: Referent, changes: &[Change]) -> bool
    ensures { result
        ≡ list_all (goes_along (grant_names access.now.rows.catalog_roles one) drops_grant changes.now)
        access.now.rows.grants }
{
    access
        .grants()
        .all(|row| grant_goes_along(access, one, changes, row))
}

/// Whether the change drops a fact that names the referent.
fn drops_named(access: &Access, one: Referent, change: &Change) -> bool
    ensures { result ≡ drops_named access.now.rows.catalog_roles one change.now }
{
    match fact_dropped(change) {
        Some(Dropped::Member(row)) => one.is_named_by_member(&row),
        Some(Dropped::Join(row)) => one.is_named_by_join(access, &row),
        Some(Dropped::Grant(row)) => one.is_named_by_grant(access, &row),
        None => false,
    }
}

/// Whether the change drops a fact that is there.
fn drops_known(access: &Access, change: &Change) -> bool
    ensures { result ≡ drops_known access.now.rows change.now }
{
    match fact_dropped(change) {
        Some(Dropped::Member(row)) => access.is_member(row.principal, row.role),
        Some(Dropped::Join(row)) => access.is_joined(row.principal_role, row.catalog_role),
        Some(Dropped::Grant(row)) => access.has_grant(&row),
        None => false,
    }
}

/// Whether one of the changes drops the fact that this change does.
fn drop_again(change: &Change, changes: &[Change]) -> bool
    ensures { result ≡ list_any (drops_same change.now) changes.now }
{
    changes.iter().any(|later| drops_same(change, later))
}

/// Whether the later change drops the fact that this change does.
fn drops_same(change: &Change, later: &Change) -> bool
    ensures { result ≡ drops_same change.now later.now }
{
    match fact_dropped(change) {
        Some(Dropped::Member(row)) => drops_member(later, &row),
        Some(Dropped::Join(row)) => drops_join(later, &row),
        Some(Dropped::Grant(row)) => drops_grant(later, &row),
        None => false,
    }
}

/// The fact that the change drops, where it drops one.
#[tactic(auto, unfolding(crate::specs::Taken::fact_dropped))]
fn fact_dropped(change: &Change) -> Option<Dropped>
    ensures { result ≡ fact_dropped change.now }
{
    match change {
        Change::DropMember(row) => Some(Dropped::Member(*row)),
        Change::DropJoin(row) => Some(Dropped::Join(*row)),
        Change::DropGrant(row) => Some(Dropped::Grant(*row)),
        Change::Time(_)
        | Change::NextId(_)
        | Change::NextSerial(_)
        | Change::PutPrincipal(_)
        | Change::DropPrincipal(_)
        | Change::PutPrincipalRole(_)
        | Change::DropPrincipalRole(_)
        | Change::PutCatalog(_)
        | Change::DropCatalog(_)
        | Change::PutCatalogRole(_)
        | Change::DropCatalogRole(_)
        | Change::PutNamespace(_)
        | Change::DropNamespace(_)
        | Change::PutTable(_)
        | Change::DropTable(_)
        | Change::PutView(_)
        | Change::DropView(_)
        | Change::PutMember(_)
        | Change::PutJoin(_)
        | Change::PutGrant(_)
        | Change::PutSession(_)
        | Change::PutToken(_) => None,
    }
}

fn member_goes_along(one: Referent, changes: &[Change], row: &MemberRow) -> bool
    ensures { result ≡ goes_along (member_names one) drops_member changes.now row.now }
{
    !one.is_named_by_member(row) || drop_member(changes, row)
}

fn join_goes_along(access: &Access, one: Referent, changes: &[Change], row: &JoinRow) -> bool
    ensures { result
        ≡ goes_along (join_names access.now.rows.catalog_roles one) drops_join changes.now row.now }
{
    !one.is_named_by_join(access, row) || drop_join(changes, row)
}

fn grant_goes_along(access: &Access, one: Referent, changes: &[Change], row: &GrantRow) -> bool
    ensures { result
        ≡ goes_along (grant_names access.now.rows.catalog_roles one) drops_grant changes.now row.now }
{
    !one.is_named_by_grant(access, row) || drop_grant(changes, row)
}

/// Whether one of the changes drops the member.
fn drop_member(changes: &[Change], row: &MemberRow) -> bool
    ensures { result ≡ list_any (drops_member row.now) changes.now }
{
    changes.iter().any(|change| drops_member(change, row))
}

fn drops_member(change: &Change, row: &MemberRow) -> bool
    ensures { result ≡ drops_member row.now change.now }
{
    match fact_dropped(change) {
        Some(Dropped::Member(gone)) => is_same(&gone, row),
        Some(Dropped::Join(_)) => false,
        Some(Dropped::Grant(_)) => false,
        None => false,
    }
}

/// Whether one of the changes drops the join.
fn drop_join(changes: &[Change], row: &JoinRow) -> bool
    ensures { result ≡ list_any (drops_join row.now) changes.now }
{
    changes.iter().any(|change| drops_join(change, row))
}

fn drops_join(change: &Change, row: &JoinRow) -> bool
    ensures { result ≡ drops_join row.now change.now }
{
    match fact_dropped(change) {
        Some(Dropped::Join(gone)) => is_same(&gone, row),
        Some(Dropped::Member(_)) => false,
        Some(Dropped::Grant(_)) => false,
        None => false,
    }
}

/// Whether one of the changes drops the grant.
fn drop_grant(changes: &[Change], row: &GrantRow) -> bool
    ensures { result ≡ list_any (drops_grant row.now) changes.now }
{
    changes.iter().any(|change| drops_grant(change, row))
}

fn drops_grant(change: &Change, row: &GrantRow) -> bool
    ensures { result ≡ drops_grant row.now change.now }
{
    match fact_dropped(change) {
        Some(Dropped::Grant(gone)) => is_same(&gone, row),
        Some(Dropped::Member(_)) => false,
        Some(Dropped::Join(_)) => false,
        None => false,
    }
}

/// Whether the facts are the same one.
pub(crate) fn is_same<T: Fact>(left: &T, right: &T) -> bool
    ensures { result ≡ same T.coded left.now right.now }
{
    *left == *right
}
