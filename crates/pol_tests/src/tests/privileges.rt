//! What each privilege implies, and on what it may be granted, also of tables and views, for which no request asks yet.
use pol_access::{Privilege, SecurableKind, grantable, implies};
use std::alloc::Global;

/// Each privilege in its numbered order, which of all, in the same order, it implies, and whether it may be granted
/// on the realm, on a catalogue, a namespace, a table and a view.
const PRIVILEGES: [&str; 26] = [
    "NAMESPACE_CREATE           x.x....................... .xx..",
    "NAMESPACE_DROP             .x........................ .xx..",
    "NAMESPACE_LIST             ..x....................... .xx..",
    "NAMESPACE_READ_PROPERTIES  ..xx...................... .xx..",
    "NAMESPACE_WRITE_PROPERTIES ..xxx..................... .xx..",
    "NAMESPACE_FULL_METADATA    xxxxxx.................... .xx..",
    "TABLE_CREATE               ......x.x................. .xxx.",
    "TABLE_DROP                 .......x.................. .xxx.",
    "TABLE_LIST                 ........x................. .xxx.",
    "TABLE_READ_PROPERTIES      ........xx................ .xxx.",
    "TABLE_WRITE_PROPERTIES     ........xxx............... .xxx.",
    "TABLE_FULL_METADATA        ......xxxxxx.............. .xxx.",
    "VIEW_CREATE                ............x.x........... .xx.x",
    "VIEW_DROP                  .............x............ .xx.x",
    "VIEW_LIST                  ..............x........... .xx.x",
    "VIEW_READ_PROPERTIES       ..............xx.......... .xx.x",
    "VIEW_WRITE_PROPERTIES      ..............xxx......... .xx.x",
    "VIEW_FULL_METADATA         ............xxxxxx........ .xx.x",
    "TABLE_READ_DATA            ........xx........x....... .xxx.",
    "TABLE_WRITE_DATA           ........xxx.......xx...... .xxx.",
    "CATALOG_MANAGE_ACCESS      ....................x..x.. .x...",
    "CATALOG_MANAGE_CONTENT     xxxxxxxxxxxxxxxxxxxx.xxxx. .x...",
    "CATALOG_MANAGE_METADATA    xxxxxxxxxxxxxxxxxx....xxx. .x...",
    "CATALOG_READ_PROPERTIES    .......................x.. .x...",
    "CATALOG_WRITE_PROPERTIES   .......................xx. .x...",
    "SERVICE_MANAGE_ACCESS      .........................x .....",
];

const KINDS: [SecurableKind; 5] = [
    SecurableKind::Realm,
    SecurableKind::Catalog,
    SecurableKind::Namespace,
    SecurableKind::Table,
    SecurableKind::View,
];

/// The privileges of the rows, each of which prints its name.
fn privileges_of(alloc: Global, rows: &[&str]) -> Option<Vec<Privilege>> {
    let mut all = Vec::new(alloc);
    for row in rows {
        let name = row.get(..26)?.trim_end();
        let privilege = Privilege::from_text(name)?;
        all.push((privilege.as_str() == name).then_some(privilege)?)
            .ok()?;
    }
    Some(all)
}

/// Whether a privilege implies just the marked ones, and may be granted on just the marked kinds.
fn is_as_marked(all: &[Privilege], held: Privilege, row: &str) -> Option<bool> {
    let implied = all.iter().map(|wanted| implies(held, *wanted));
    let granted = KINDS.iter().map(|kind| grantable(held, *kind));
    let marks = row.get(27..53)?.bytes().map(|mark| mark == b'x');
    let kinds = row.get(54..)?.bytes().map(|mark| mark == b'x');
    Some(implied.eq(marks) && granted.eq(kinds))
}

/// Whether each privilege is as its row says.
fn are_as_marked(all: &[Privilege], rows: &[&str]) -> bool {
    let mut pairs = all.iter().zip(rows);
    pairs.all(|(held, row)| is_as_marked(all, *held, row) == Some(true))
}

#[test]
fn privileges_imply_and_are_granted_as_the_table_says(rt: HostRuntime) {
    let all = privileges_of(rt.alloc(), &PRIVILEGES);
    assert!(rt; all.is_some_and(|all| are_as_marked(&all, &PRIVILEGES)));
    assert!(rt; Privilege::from_text("TABLE_READ").is_none());
}
