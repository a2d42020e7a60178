ghost use Rattle.std.specs.Prelude.{◌≡◌, ◌||◌, Some, find, nat_eq, codes};
ghost use Rattle.std.specs.List.{starts_with};
ghost use Rattle.std.specs.Str.{bytes_eq};
ghost use Rattle.std.proofs.Common.{rules};
ghost use Rattle.pol_access.specs.Privilege.{begins_with, grantable, privileges, text_of};

use crate::SecurableKind;
use pol_types::Exact;
use std::fmt;

/// What a grant allows, in the numbered order in which the journal has them.
#[derive(Clone, Copy, PartialEq, Eq, PartialOrd, Ord, Hash)]
pub enum Privilege {
    NamespaceCreate,
    NamespaceDrop,
    NamespaceList,
    NamespaceReadProperties,
    NamespaceWriteProperties,
    NamespaceFullMetadata,
    TableCreate,
    TableDrop,
    TableList,
    TableReadProperties,
    TableWriteProperties,
    TableFullMetadata,
    ViewCreate,
    ViewDrop,
    ViewList,
    ViewReadProperties,
    ViewWriteProperties,
    ViewFullMetadata,
    TableReadData,
    TableWriteData,
    CatalogManageAccess,
    CatalogManageContent,
    CatalogManageMetadata,
    CatalogReadProperties,
    CatalogWriteProperties,
    ServiceManageAccess,
}

/// All privileges, in their order.
const PRIVILEGES: [Privilege; 26] = [
    Privilege::NamespaceCreate,
    Privilege::NamespaceDrop,
    Privilege::NamespaceList,
    Privilege::NamespaceReadProperties,
    Privilege::NamespaceWriteProperties,
    Privilege::NamespaceFullMetadata,
    Privilege::TableCreate,
    Privilege::TableDrop,
    Privilege::TableList,
    Privilege::TableReadProperties,
    Privilege::TableWriteProperties,
    Privilege::TableFullMetadata,
    Privilege::ViewCreate,
    Privilege::ViewDrop,
    Privilege::ViewList,
    Privilege::ViewReadProperties,
    Privilege::ViewWriteProperties,
    Privilege::ViewFullMetadata,
    Privilege::TableReadData,
    Privilege::TableWriteData,
    Privilege::CatalogManageAccess,
    Privilege::CatalogManageContent,
    Privilege::CatalogManageMetadata,
    Privilege::CatalogReadProperties,
    Privilege::CatalogWriteProperties,
    Privilege::ServiceManageAccess,
];

impl Privilege {
    /// The privilege of this text.
    pub fn from_text(text: &str) -> Option<Privilege>
        ensures { result ≡ find (λ privilege. bytes_eq (text_of privilege) text.now) privileges }
    {
        PRIVILEGES
            .iter()
            .copied()
            .find(|privilege| privilege.as_str() == text)
    }

    /// The text under which requests and answers name it.
    #[tactic(auto, unfolding(crate::specs::Privilege::text_of))]
    pub fn as_str(self) -> &'static str
        ensures { result.now ≡ text_of self }
    {
        match self {
            Privilege::NamespaceCreate => "NAMESPACE_CREATE",
            Privilege::NamespaceDrop => "NAMESPACE_DROP",
            Privilege::NamespaceList => "NAMESPACE_LIST",
            Privilege::NamespaceReadProperties => "NAMESPACE_READ_PROPERTIES",
            Privilege::NamespaceWriteProperties => "NAMESPACE_WRITE_PROPERTIES",
            Privilege::NamespaceFullMetadata => "NAMESPACE_FULL_METADATA",
            Privilege::TableCreate => "TABLE_CREATE",
            Privilege::TableDrop => "TABLE_DROP",
            Privilege::TableList => "TABLE_LIST",
            Privilege::TableReadProperties => "TABLE_READ_PROPERTIES",
            Privilege::TableWriteProperties => "TABLE_WRITE_PROPERTIES",
            Privilege::TableFullMetadata => "TABLE_FULL_METADATA",
            Privilege::ViewCreate => "VIEW_CREATE",
            Privilege::ViewDrop => "VIEW_DROP",
            Privilege::ViewList => "VIEW_LIST",
            Privilege::ViewReadProperties => "VIEW_READ_PROPERTIES",
            Privilege::ViewWriteProperties => "VIEW_WRITE_PROPERTIES",
            Privilege::ViewFullMetadata => "VIEW_FULL_METADATA",
            Privilege::TableReadData => "TABLE_READ_DATA",
            Privilege::TableWriteData => "TABLE_WRITE_DATA",
            Privilege::CatalogManageAccess => "CATALOG_MANAGE_ACCESS",
            Privilege::CatalogManageContent => "CATALOG_MANAGE_CONTENT",
            Privilege::CatalogManageMetadata => "CATALOG_MANAGE_METADATA",
            Privilege::CatalogReadProperties => "CATALOG_READ_PROPERTIES",
            Privilege::CatalogWriteProperties => "CATALOG_WRITE_PROPERTIES",
            Privilege::ServiceManageAccess => "SERVICE_MANAGE_ACCESS",
        }
    }
}

impl fmt::Display for Privilege {
    ghost output = { λ privilege. Some (text_of privilege) };

    fn fmt<W: fmt::Write>(&self, f: &mut fmt::Formatter<W>) -> fmt::Result {
        f.write_str(self.as_str())
    }
}

impl Exact for Privilege {
    ghost clones_exactly = { Prim.search rules };

    ghost compares_exactly = { Prim.search rules };
}

/// Whether the privilege may be granted on securables of this kind: on a catalogue every privilege but
/// `SERVICE_MANAGE_ACCESS`, on a namespace those of namespaces, tables and views, on a table those of tables, on a
/// view those of views, and none on the realm.
#[tactic(auto, unfolding(crate::specs::Privilege::grantable))]
pub fn grantable(privilege: Privilege, kind: SecurableKind) -> bool
    ensures { result ≡ grantable privilege kind }
{
    match kind {
        SecurableKind::Realm => false,
        SecurableKind::Catalog => privilege != Privilege::ServiceManageAccess,
        SecurableKind::Namespace => {
            begins_with(privilege, "NAMESPACE_")
                || begins_with(privilege, "TABLE_")
                || begins_with(privilege, "VIEW_")
        }
        SecurableKind::Table => begins_with(privilege, "TABLE_"),
        SecurableKind::View => begins_with(privilege, "VIEW_"),
    }
}

/// Whether the privilege's text begins so.
fn begins_with(privilege: Privilege, prefix: &str) -> bool
    ensures { result ≡ begins_with prefix.now privilege }
{
    let text = privilege.as_str();
    text.as_bytes().starts_with(prefix.as_bytes())
}
