//! What a request that is served asks for.

/// What a request asks for, by what it is about.
#[derive(Clone, Copy)]
pub enum Endpoint {
    OpenSession,
    Content(ContentRequest),
    Namespace(NamespaceRequest),
    Table(TableRequest),
    View(ViewRequest),
    Catalog(CatalogRequest),
    Principal(PrincipalRequest),
    PrincipalRole(PrincipalRoleRequest),
    CatalogRole(CatalogRoleRequest),
    Object(ObjectRequest),
}

/// What a catalogue holds.
#[derive(Clone, Copy)]
pub enum ContentRequest {
    GetConfig,
    ListNamespaces,
    CreateNamespace,
    RenameTable,
    CommitTransaction,
    RenameView,
}

/// One namespace of a catalogue, and the tables and views in it.
#[derive(Clone, Copy)]
pub enum NamespaceRequest {
    LoadNamespace,
    HeadNamespace,
    DropNamespace,
    UpdateProperties,
    ListTables,
    CreateTable,
    ListViews,
    CreateView,
}

/// One table of a namespace.
#[derive(Clone, Copy)]
pub enum TableRequest {
    LoadTable,
    LoadCredentials,
    HeadTable,
    CommitTable,
    DropTable,
    ReportMetrics,
}

/// One view of a namespace.
#[derive(Clone, Copy)]
pub enum ViewRequest {
    LoadView,
    HeadView,
    ReplaceView,
    DropView,
}

/// The catalogues themselves.
#[derive(Clone, Copy)]
pub enum CatalogRequest {
    ListCatalogs,
    CreateCatalog,
    GetCatalog,
    DropCatalog,
}

/// Principals and the principal roles that they have.
#[derive(Clone, Copy)]
pub enum PrincipalRequest {
    ListPrincipals,
    CreatePrincipal,
    GetPrincipal,
    DropPrincipal,
    Rotate,
    ListMembers,
    AddMember,
    EndMember,
}

/// Principal roles and the roles of catalogues that they are joined to.
#[derive(Clone, Copy)]
pub enum PrincipalRoleRequest {
    ListPrincipalRoles,
    CreatePrincipalRole,
    GetPrincipalRole,
    DropPrincipalRole,
    ListJoins,
    AddJoin,
    EndJoin,
}

/// Roles of a catalogue and their grants.
#[derive(Clone, Copy)]
pub enum CatalogRoleRequest {
    ListCatalogRoles,
    CreateCatalogRole,
    GetCatalogRole,
    DropCatalogRole,
    ListGrants,
    AddGrant,
    Revoke,
}

/// One object of the object server, or those below a path.
#[derive(Clone, Copy)]
pub enum ObjectRequest {
    GetObject,
    HeadObject,
    PutObject,
    DeleteObject,
    ListObjects,
}
