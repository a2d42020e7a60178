ghost use Rattle.std.specs.Prelude.{◌≡◌};
ghost use Rattle.pol_content.specs.Change.{kind_put};

use crate::{CatalogRow, NamespaceRow, PutRow};
use pol_access::{CatalogRoleRow, GrantRow, JoinRow, MemberRow, PrincipalRoleRow, PrincipalRow};
use pol_table_rows::TablePut;
use pol_tokens::{SessionRow, TokenRow};
use pol_view_rows::ViewRow;

/// A change of a state. The changes of one command stand in the order of these variants, those of one variant by
/// rising ids or serials, and those of members, joins and grants by rising rows. A put of a row with a new id or
/// serial goes last, and a known id's row is replaced in its place; a drop takes that one row away. A session and a
/// storage token never change: a put of a known serial changes nothing.
#[derive(Drop, PartialEq, Eq)]
pub enum Change {
    /// The state's time becomes this one.
    Time(u64),
    /// The next id becomes this one.
    NextId(u64),
    /// The next serial becomes this one.
    NextSerial(u64),
    PutPrincipal(PutRow<PrincipalRow>),
    DropPrincipal(u64),
    PutPrincipalRole(PrincipalRoleRow),
    DropPrincipalRole(u64),
    PutCatalog(PutRow<CatalogRow>),
    DropCatalog(u64),
    PutCatalogRole(CatalogRoleRow),
    DropCatalogRole(u64),
    PutNamespace(PutRow<NamespaceRow>),
    DropNamespace(u64),
    PutTable(PutRow<TablePut>),
    DropTable(u64),
    PutView(PutRow<ViewRow>),
    DropView(u64),
    PutMember(MemberRow),
    DropMember(MemberRow),
    PutJoin(JoinRow),
    DropJoin(JoinRow),
    PutGrant(GrantRow),
    DropGrant(GrantRow),
    PutSession(PutRow<SessionRow>),
    PutToken(PutRow<TokenRow>),
}

impl Change {
    /// The kind of the row that the change puts, where it puts one.
    pub fn kind_put(&self) -> Option<RowKind>
        ensures { result ≡ kind_put self.now }
    {
        match self {
            Change::PutPrincipal(_) => Some(RowKind::Principal),
            Change::PutPrincipalRole(_) => Some(RowKind::PrincipalRole),
            Change::PutCatalog(_) => Some(RowKind::Catalog),
            Change::PutCatalogRole(_) => Some(RowKind::CatalogRole),
            Change::PutNamespace(_) => Some(RowKind::Namespace),
            Change::PutTable(_) => Some(RowKind::Table),
            Change::PutView(_) => Some(RowKind::View),
            Change::PutMember(_) => Some(RowKind::Member),
            Change::PutJoin(_) => Some(RowKind::Join),
            Change::PutGrant(_) => Some(RowKind::Grant),
            Change::PutSession(_) => Some(RowKind::Session),
            Change::PutToken(_) => Some(RowKind::Token),
            Change::Time(_)
            | Change::NextId(_)
            | Change::NextSerial(_)
            | Change::DropPrincipal(_)
            | Change::DropPrincipalRole(_)
            | Change::DropCatalog(_)
            | Change::DropCatalogRole(_)
            | Change::DropNamespace(_)
            | Change::DropTable(_)
            | Change::DropView(_)
            | Change::DropMember(_)
            | Change::DropJoin(_)
            | Change::DropGrant(_) => None,
        }
    }
}

/// The kinds of rows that a state has.
#[derive(Clone, Copy, PartialEq, Eq)]
pub enum RowKind {
    Principal,
    PrincipalRole,
    Catalog,
    CatalogRole,
    Namespace,
    Table,
    View,
    Member,
    Join,
    Grant,
    Session,
    Token,
}
