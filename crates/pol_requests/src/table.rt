//! The table of requests: each method of each path, with what it asks for (Iceberg REST OpenAPI; Apache Polaris
//! Management Service; the object server's own paths).
ghost use Rattle.std.specs.Prelude.{◌≡◌, map};
ghost use Rattle.pol_requests.specs.Table.{entry_of, table};

use crate::endpoint::{
    CatalogRequest, CatalogRoleRequest, ContentRequest, Endpoint, NamespaceRequest, ObjectRequest,
    PrincipalRequest, PrincipalRoleRequest, TableRequest, ViewRequest,
};

/// What the requests of a method and path ask for, and how many random words each draws, 4 at most: a token is made of
/// two, the uuid of a new table of two of its four and that of a new view of two, the client id of a new principal of
/// one, and each secret of two. The loading of a table draws two where a storage token is asked for with it.
#[derive(Clone, Copy)]
pub struct Service {
    pub endpoint: Endpoint,
    pub words: u8,
}

/// A method, a path, and how requests of both are served. In a path `{name}` stands for a segment that may be any text,
/// and `{*name}` for all that follows.
pub type Row = (&'static str, &'static str, Service);

/// The number of rows of the table.
pub const ROW_COUNT: usize = 56;

/// The table, in the order in which a catalogue lists its endpoints. The rows of a path stand together.
pub const TABLE: [Row; ROW_COUNT] = [
    (
        "POST",
        "/api/catalog/v1/oauth/tokens",
        Service {
            endpoint: Endpoint::OpenSession,
            words: 2,
        },
    ),
    (
        "GET",
        "/api/catalog/v1/config",
        Service {
            endpoint: Endpoint::Content(ContentRequest::GetConfig),
            words: 0,
        },
    ),
    (
        "GET",
        "/api/catalog/v1/{prefix}/namespaces",
        Service {
            endpoint: Endpoint::Content(ContentRequest::ListNamespaces),
            words: 0,
        },
    ),
    (
        "POST",
        "/api/catalog/v1/{prefix}/namespaces",
        Service {
            endpoint: Endpoint::Content(ContentRequest::CreateNamespace),
            words: 0,
        },
    ),
    (
        "GET",
        "/api/catalog/v1/{prefix}/namespaces/{namespace}",
        Service {
            endpoint: Endpoint::Namespace(NamespaceRequest::LoadNamespace),
            words: 0,
        },
    ),
    (
        "HEAD",
        "/api/catalog/v1/{prefix}/namespaces/{namespace}",
        Service {
            endpoint: Endpoint::Namespace(NamespaceRequest::HeadNamespace),
            words: 0,
        },
    ),
    (
        "DELETE",
        "/api/catalog/v1/{prefix}/namespaces/{namespace}",
        Service {
            endpoint: Endpoint::Namespace(NamespaceRequest::DropNamespace),
            words: 0,
        },
    ),
    (
        "POST",
        "/api/catalog/v1/{prefix}/namespaces/{namespace}/properties",
        Service {
            endpoint: Endpoint::Namespace(NamespaceRequest::UpdateProperties),
            words: 0,
        },
    ),
    (
        "GET",
        "/api/catalog/v1/{prefix}/namespaces/{namespace}/tables",
        Service {
            endpoint: Endpoint::Namespace(NamespaceRequest::ListTables),
            words: 0,
        },
    ),
    (
        "POST",
        "/api/catalog/v1/{prefix}/namespaces/{namespace}/tables",
        Service {
            endpoint: Endpoint::Namespace(NamespaceRequest::CreateTable),
            words: 4,
        },
    ),
    (
        "GET",
        "/api/catalog/v1/{prefix}/namespaces/{namespace}/tables/{table}",
        Service {
            endpoint: Endpoint::Table(TableRequest::LoadTable),
            words: 0,
        },
    ),
    (
        "HEAD",
        "/api/catalog/v1/{prefix}/namespaces/{namespace}/tables/{table}",
        Service {
            endpoint: Endpoint::Table(TableRequest::HeadTable),
            words: 0,
        },
    ),
    (
        "POST",
        "/api/catalog/v1/{prefix}/namespaces/{namespace}/tables/{table}",
        Service {
            endpoint: Endpoint::Table(TableRequest::CommitTable),
            words: 0,
        },
    ),
    (
        "DELETE",
        "/api/catalog/v1/{prefix}/namespaces/{namespace}/tables/{table}",
        Service {
            endpoint: Endpoint::Table(TableRequest::DropTable),
            words: 0,
        },
    ),
    (
        "GET",
        "/api/catalog/v1/{prefix}/namespaces/{namespace}/tables/{table}/credentials",
        Service {
            endpoint: Endpoint::Table(TableRequest::LoadCredentials),
            words: 2,
        },
    ),
    (
        "POST",
        "/api/catalog/v1/{prefix}/namespaces/{namespace}/tables/{table}/metrics",
        Service {
            endpoint: Endpoint::Table(TableRequest::ReportMetrics),
            words: 0,
        },
    ),
    (
        "POST",
        "/api/catalog/v1/{prefix}/tables/rename",
        Service {
            endpoint: Endpoint::Content(ContentRequest::RenameTable),
            words: 0,
        },
    ),
    (
        "POST",
        "/api/catalog/v1/{prefix}/transactions/commit",
        Service {
            endpoint: Endpoint::Content(ContentRequest::CommitTransaction),
            words: 0,
        },
    ),
    (
        "GET",
        "/api/catalog/v1/{prefix}/namespaces/{namespace}/views",
        Service {
            endpoint: Endpoint::Namespace(NamespaceRequest::ListViews),
            words: 0,
        },
    ),
    (
        "POST",
        "/api/catalog/v1/{prefix}/namespaces/{namespace}/views",
        Service {
            endpoint: Endpoint::Namespace(NamespaceRequest::CreateView),
            words: 2,
        },
    ),
    (
        "GET",
        "/api/catalog/v1/{prefix}/namespaces/{namespace}/views/{view}",
        Service {
            endpoint: Endpoint::View(ViewRequest::LoadView),
            words: 0,
        },
    ),
    (
        "HEAD",
        "/api/catalog/v1/{prefix}/namespaces/{namespace}/views/{view}",
        Service {
            endpoint: Endpoint::View(ViewRequest::HeadView),
            words: 0,
        },
    ),
    (
        "POST",
        "/api/catalog/v1/{prefix}/namespaces/{namespace}/views/{view}",
        Service {
            endpoint: Endpoint::View(ViewRequest::ReplaceView),
            words: 0,
        },
    ),
    (
        "DELETE",
        "/api/catalog/v1/{prefix}/namespaces/{namespace}/views/{view}",
        Service {
            endpoint: Endpoint::View(ViewRequest::DropView),
            words: 0,
        },
    ),
    (
        "POST",
        "/api/catalog/v1/{prefix}/views/rename",
        Service {
            endpoint: Endpoint::Content(ContentRequest::RenameView),
            words: 0,
        },
    ),
    (
        "GET",
        "/api/management/v1/catalogs",
        Service {
            endpoint: Endpoint::Catalog(CatalogRequest::ListCatalogs),
            words: 0,
        },
    ),
    (
        "POST",
        "/api/management/v1/catalogs",
        Service {
            endpoint: Endpoint::Catalog(CatalogRequest::CreateCatalog),
            words: 0,
        },
    ),
    (
        "GET",
        "/api/management/v1/catalogs/{catalog}",
        Service {
            endpoint: Endpoint::Catalog(CatalogRequest::GetCatalog),
            words: 0,
        },
    ),
    (
        "DELETE",
        "/api/management/v1/catalogs/{catalog}",
        Service {
            endpoint: Endpoint::Catalog(CatalogRequest::DropCatalog),
            words: 0,
        },
    ),
    (
        "GET",
        "/api/management/v1/principals",
        Service {
            endpoint: Endpoint::Principal(PrincipalRequest::ListPrincipals),
            words: 0,
        },
    ),
    (
        "POST",
        "/api/management/v1/principals",
        Service {
            endpoint: Endpoint::Principal(PrincipalRequest::CreatePrincipal),
            words: 3,
        },
    ),
    (
        "GET",
        "/api/management/v1/principals/{principal}",
        Service {
            endpoint: Endpoint::Principal(PrincipalRequest::GetPrincipal),
            words: 0,
        },
    ),
    (
        "DELETE",
        "/api/management/v1/principals/{principal}",
        Service {
            endpoint: Endpoint::Principal(PrincipalRequest::DropPrincipal),
            words: 0,
        },
    ),
    (
        "POST",
        "/api/management/v1/principals/{principal}/rotate",
        Service {
            endpoint: Endpoint::Principal(PrincipalRequest::Rotate),
            words: 2,
        },
    ),
    (
        "GET",
        "/api/management/v1/principals/{principal}/principal-roles",
        Service {
            endpoint: Endpoint::Principal(PrincipalRequest::ListMembers),
            words: 0,
        },
    ),
    (
        "PUT",
        "/api/management/v1/principals/{principal}/principal-roles",
        Service {
            endpoint: Endpoint::Principal(PrincipalRequest::AddMember),
            words: 0,
        },
    ),
    (
        "DELETE",
        "/api/management/v1/principals/{principal}/principal-roles/{role}",
        Service {
            endpoint: Endpoint::Principal(PrincipalRequest::EndMember),
            words: 0,
        },
    ),
    (
        "GET",
        "/api/management/v1/principal-roles",
        Service {
            endpoint: Endpoint::PrincipalRole(PrincipalRoleRequest::ListPrincipalRoles),
            words: 0,
        },
    ),
    (
        "POST",
        "/api/management/v1/principal-roles",
        Service {
            endpoint: Endpoint::PrincipalRole(PrincipalRoleRequest::CreatePrincipalRole),
            words: 0,
        },
    ),
    (
        "GET",
        "/api/management/v1/principal-roles/{role}",
        Service {
            endpoint: Endpoint::PrincipalRole(PrincipalRoleRequest::GetPrincipalRole),
            words: 0,
        },
    ),
    (
        "DELETE",
        "/api/management/v1/principal-roles/{role}",
        Service {
            endpoint: Endpoint::PrincipalRole(PrincipalRoleRequest::DropPrincipalRole),
            words: 0,
        },
    ),
    (
        "GET",
        "/api/management/v1/principal-roles/{role}/catalog-roles/{catalog}",
        Service {
            endpoint: Endpoint::PrincipalRole(PrincipalRoleRequest::ListJoins),
            words: 0,
        },
    ),
    (
        "PUT",
        "/api/management/v1/principal-roles/{role}/catalog-roles/{catalog}",
        Service {
            endpoint: Endpoint::PrincipalRole(PrincipalRoleRequest::AddJoin),
            words: 0,
        },
    ),
    (
        "DELETE",
        "/api/management/v1/principal-roles/{role}/catalog-roles/{catalog}/{catalog_role}",
        Service {
            endpoint: Endpoint::PrincipalRole(PrincipalRoleRequest::EndJoin),
            words: 0,
        },
    ),
    (
        "GET",
        "/api/management/v1/catalogs/{catalog}/catalog-roles",
        Service {
            endpoint: Endpoint::CatalogRole(CatalogRoleRequest::ListCatalogRoles),
            words: 0,
        },
    ),
    (
        "POST",
        "/api/management/v1/catalogs/{catalog}/catalog-roles",
        Service {
            endpoint: Endpoint::CatalogRole(CatalogRoleRequest::CreateCatalogRole),
            words: 0,
        },
    ),
    (
        "GET",
        "/api/management/v1/catalogs/{catalog}/catalog-roles/{catalog_role}",
        Service {
            endpoint: Endpoint::CatalogRole(CatalogRoleRequest::GetCatalogRole),
            words: 0,
        },
    ),
    (
        "DELETE",
        "/api/management/v1/catalogs/{catalog}/catalog-roles/{catalog_role}",
        Service {
            endpoint: Endpoint::CatalogRole(CatalogRoleRequest::DropCatalogRole),
            words: 0,
        },
    ),
    (
        "GET",
        "/api/management/v1/catalogs/{catalog}/catalog-roles/{catalog_role}/grants",
        Service {
            endpoint: Endpoint::CatalogRole(CatalogRoleRequest::ListGrants),
            words: 0,
        },
    ),
    (
        "PUT",
        "/api/management/v1/catalogs/{catalog}/catalog-roles/{catalog_role}/grants",
        Service {
            endpoint: Endpoint::CatalogRole(CatalogRoleRequest::AddGrant),
            words: 0,
        },
    ),
    (
        "POST",
        "/api/management/v1/catalogs/{catalog}/catalog-roles/{catalog_role}/grants",
        Service {
            endpoint: Endpoint::CatalogRole(CatalogRoleRequest::Revoke),
            words: 0,
        },
    ),
    (
        "GET",
        "/objects/{*path}",
        Service {
            endpoint: Endpoint::Object(ObjectRequest::GetObject),
            words: 0,
        },
    ),
    (
        "HEAD",
        "/objects/{*path}",
        Service {
            endpoint: Endpoint::Object(ObjectRequest::HeadObject),
            words: 0,
        },
    ),
    (
        "PUT",
        "/objects/{*path}",
        Service {
            endpoint: Endpoint::Object(ObjectRequest::PutObject),
            words: 0,
        },
    ),
    (
        "DELETE",
        "/objects/{*path}",
        Service {
            endpoint: Endpoint::Object(ObjectRequest::DeleteObject),
            words: 0,
        },
    ),
    (
        "GET",
        "/list/{*path}",
        Service {
            endpoint: Endpoint::Object(ObjectRequest::ListObjects),
            words: 0,
        },
    ),
];

/// The table's rows.
#[tactic(auto, unfolding(crate::specs::Table::table))]
pub fn table_rows() -> &'static [Row]
    ensures { map entry_of result.now ≡ table }
{
    &TABLE
}
