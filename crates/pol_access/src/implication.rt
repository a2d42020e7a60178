ghost use Rattle.std.specs.Prelude.{◌≡◌};
ghost use Rattle.pol_access.specs.Implication.{implied_by, implies};

use crate::Privilege;

/// What `CATALOG_MANAGE_CONTENT` implies beside itself.
const IN_CONTENT: [Privilege; 23] = [
    Privilege::CatalogManageMetadata,
    Privilege::CatalogReadProperties,
    Privilege::CatalogWriteProperties,
    Privilege::NamespaceCreate,
    Privilege::NamespaceDrop,
    Privilege::NamespaceList,
    Privilege::NamespaceReadProperties,
    Privilege::NamespaceWriteProperties,
    Privilege::NamespaceFullMetadata,
    Privilege::TableCreate,
    Privilege::TableDrop,
    Privilege::TableList,
    Privilege::TableReadProperties,
    Privilege::TableWriteProperties,
    Privilege::TableFullMetadata,
    Privilege::TableReadData,
    Privilege::TableWriteData,
    Privilege::ViewCreate,
    Privilege::ViewDrop,
    Privilege::ViewList,
    Privilege::ViewReadProperties,
    Privilege::ViewWriteProperties,
    Privilege::ViewFullMetadata,
];

/// What `CATALOG_MANAGE_METADATA` implies beside itself.
const IN_METADATA: [Privilege; 20] = [
    Privilege::CatalogReadProperties,
    Privilege::CatalogWriteProperties,
    Privilege::NamespaceCreate,
    Privilege::NamespaceDrop,
    Privilege::NamespaceList,
    Privilege::NamespaceReadProperties,
    Privilege::NamespaceWriteProperties,
    Privilege::NamespaceFullMetadata,
    Privilege::ViewCreate,
    Privilege::ViewDrop,
    Privilege::ViewList,
    Privilege::ViewReadProperties,
    Privilege::ViewWriteProperties,
    Privilege::ViewFullMetadata,
    Privilege::TableCreate,
    Privilege::TableDrop,
    Privilege::TableList,
    Privilege::TableReadProperties,
    Privilege::TableWriteProperties,
    Privilege::TableFullMetadata,
];

/// All privileges of namespaces.
const OF_NAMESPACES: [Privilege; 6] = [
    Privilege::NamespaceCreate,
    Privilege::NamespaceDrop,
    Privilege::NamespaceList,
    Privilege::NamespaceReadProperties,
    Privilege::NamespaceWriteProperties,
    Privilege::NamespaceFullMetadata,
];

/// All privileges of tables but the two for data.
const OF_TABLE_METADATA: [Privilege; 6] = [
    Privilege::TableCreate,
    Privilege::TableDrop,
    Privilege::TableList,
    Privilege::TableReadProperties,
    Privilege::TableWriteProperties,
    Privilege::TableFullMetadata,
];

/// All privileges of views.
const OF_VIEWS: [Privilege; 6] = [
    Privilege::ViewCreate,
    Privilege::ViewDrop,
    Privilege::ViewList,
    Privilege::ViewReadProperties,
    Privilege::ViewWriteProperties,
    Privilege::ViewFullMetadata,
];

/// Whether who may use the held privilege may use the wanted one too: it is the same, or the closed table of
/// implication has the pair.
#[tactic(auto, unfolding(crate::specs::Implication::implies))]
pub fn implies(held: Privilege, wanted: Privilege) -> bool
    ensures { result ≡ implies held wanted }
{
    held == wanted || implied_by(held).contains(&wanted)
}

/// What a privilege implies beside itself.
#[tactic(auto, unfolding(crate::specs::Implication::implied_by))]
fn implied_by(held: Privilege) -> &'static [Privilege]
    ensures { result.now ≡ implied_by held }
{
    match held {
        Privilege::CatalogManageContent => &IN_CONTENT,
        Privilege::CatalogManageMetadata => &IN_METADATA,
        Privilege::CatalogManageAccess | Privilege::CatalogWriteProperties => {
            &[Privilege::CatalogReadProperties]
        }
        Privilege::NamespaceFullMetadata => &OF_NAMESPACES,
        Privilege::TableFullMetadata => &OF_TABLE_METADATA,
        Privilege::ViewFullMetadata => &OF_VIEWS,
        Privilege::NamespaceWriteProperties => {
            &[Privilege::NamespaceReadProperties, Privilege::NamespaceList]
        }
        Privilege::NamespaceReadProperties | Privilege::NamespaceCreate => {
            &[Privilege::NamespaceList]
        }
        Privilege::TableWriteProperties | Privilege::TableReadData => {
            &[Privilege::TableReadProperties, Privilege::TableList]
        }
        Privilege::TableWriteData => &[
            Privilege::TableReadData,
            Privilege::TableWriteProperties,
            Privilege::TableReadProperties,
            Privilege::TableList,
        ],
        Privilege::TableReadProperties | Privilege::TableCreate => &[Privilege::TableList],
        Privilege::ViewWriteProperties => &[Privilege::ViewReadProperties, Privilege::ViewList],
        Privilege::ViewReadProperties | Privilege::ViewCreate => &[Privilege::ViewList],
        Privilege::NamespaceDrop
        | Privilege::NamespaceList
        | Privilege::TableDrop
        | Privilege::TableList
        | Privilege::ViewDrop
        | Privilege::ViewList
        | Privilege::CatalogReadProperties
        | Privilege::ServiceManageAccess => &[],
    }
}
