use crate::{Commit, CreateTable, CreateView, Grant, ViewCommit};
use pol_locations::Location;
use pol_names::{Identifier, Namespace, Plain};
use pol_properties::Properties;
use pol_tokens::Act;
use pol_types::{Bytes, Listed, Text};

/// One request to the catalogue: who asks, at which moment (milliseconds since the Unix epoch, at most 2^62), the
/// random words that were drawn for it, what it counts towards the bound of a run, and what is to be done.
#[derive(Drop)]
pub struct Command {
    pub caller: Caller,
    pub moment: u64,
    pub words: Words4,
    pub charge: u64,
    pub action: Action,
}

/// Who asks: nobody, the bearer of a token's text, or the setting up of the catalogue, which may do everything.
#[derive(Drop)]
pub enum Caller {
    Nobody,
    Bearer(Bytes),
    Setup,
}

/// Four random words. An action that needs fewer takes the first ones.
#[derive(Clone, Copy, PartialEq, Eq)]
pub struct Words4 {
    pub a: u64,
    pub b: u64,
    pub c: u64,
    pub d: u64,
}

/// What is to be done. Catalogues, principals and roles are named by their names, a namespace by its levels within its
/// catalogue, and a table or a view by these and its name.
#[derive(Drop)]
pub enum Action {
    /// Opens a session for the principal of a client id, by its secret. A scope is `PRINCIPAL_ROLE:ALL`, or
    /// `PRINCIPAL_ROLE:` and the name of a role that the principal is a member of; no scopes mean all roles.
    OpenSession {
        client_id: Text,
        secret: Text,
        scopes: Listed<Text>,
    },
    /// Tells how a client is to speak to a catalogue (Iceberg REST OpenAPI, getConfig).
    GetConfig {
        catalog: Plain,
    },
    /// Lists all catalogues.
    ListCatalogs,
    /// Creates a catalogue with its role `catalog_admin`, which manages its access and its content and is joined to
    /// `service_admin`. Its tables stand below the base, or below one of the locations that are allowed beside it. A
    /// catalogue that is external is not kept here.
    CreateCatalog {
        name: Plain,
        base: Text,
        allowed: Listed<Text>,
        properties: Properties,
        external: bool,
    },
    /// Shows a catalogue.
    GetCatalog {
        catalog: Plain,
    },
    /// Drops a catalogue that has no namespaces and no role beside `catalog_admin`, with that role.
    DropCatalog {
        catalog: Plain,
    },
    /// Lists the namespaces directly below a parent, or those of one level (Iceberg REST OpenAPI, listNamespaces).
    ListNamespaces {
        catalog: Plain,
        parent: Option<Namespace>,
    },
    /// Creates a namespace, whose parent must be there (Iceberg REST OpenAPI, createNamespace).
    CreateNamespace {
        catalog: Plain,
        namespace: Namespace,
        properties: Properties,
    },
    /// Shows a namespace with its properties (Iceberg REST OpenAPI, loadNamespaceMetadata).
    LoadNamespace {
        catalog: Plain,
        namespace: Namespace,
    },
    /// Tells whether a namespace is there (Iceberg REST OpenAPI, namespaceExists).
    HeadNamespace {
        catalog: Plain,
        namespace: Namespace,
    },
    /// Drops a namespace that holds neither a namespace nor a table nor a view, with the grants on it (Iceberg REST
    /// OpenAPI, dropNamespace).
    DropNamespace {
        catalog: Plain,
        namespace: Namespace,
    },
    /// Removes and sets properties of a namespace (Iceberg REST OpenAPI, updateProperties).
    UpdateProperties {
        catalog: Plain,
        namespace: Namespace,
        removals: Listed<Text>,
        updates: Properties,
    },
    /// Lists the tables of a namespace (Iceberg REST OpenAPI, listTables).
    ListTables {
        catalog: Plain,
        namespace: Namespace,
    },
    /// Creates a table in a namespace (Iceberg REST OpenAPI, createTable). Where its location isn't given, it is the
    /// catalogue's base with the levels and the table's name below. Its uuid is made of the first two words. Where it is
    /// delegated, a storage token is issued too, whose text is made of the other two.
    CreateTable {
        catalog: Plain,
        namespace: Namespace,
        request: CreateTable,
        delegated: bool,
    },
    /// Shows a table with its metadata (Iceberg REST OpenAPI, loadTable): with all its snapshots, or with those alone
    /// that its references name. Where it is delegated, a storage token is issued too.
    LoadTable {
        catalog: Plain,
        identifier: Identifier,
        refs_only: bool,
        delegated: bool,
    },
    /// Issues a storage token of a table (Iceberg REST OpenAPI, loadCredentials).
    LoadCredentials {
        catalog: Plain,
        identifier: Identifier,
    },
    /// Tells whether a table is there (Iceberg REST OpenAPI, tableExists).
    HeadTable {
        catalog: Plain,
        identifier: Identifier,
    },
    /// Drops a table with the grants on it; its files stay (Iceberg REST OpenAPI, dropTable).
    DropTable {
        catalog: Plain,
        identifier: Identifier,
    },
    /// Takes a report on the use of a table, of which nothing is kept (Iceberg REST OpenAPI, reportMetrics).
    ReportMetrics {
        catalog: Plain,
        identifier: Identifier,
    },
    /// Commits to a table (Iceberg REST OpenAPI, updateTable).
    CommitTable {
        catalog: Plain,
        commit: Commit,
    },
    /// Commits to several tables, to all of them or to none (Iceberg REST OpenAPI, commitTransaction).
    CommitTransaction {
        catalog: Plain,
        commits: Listed<Commit>,
    },
    /// Gives a table another name, in its namespace or another one of the catalogue (Iceberg REST OpenAPI,
    /// renameTable).
    RenameTable {
        catalog: Plain,
        source: Identifier,
        destination: Identifier,
    },
    /// Lists the views of a namespace (Iceberg REST OpenAPI, listViews).
    ListViews {
        catalog: Plain,
        namespace: Namespace,
    },
    /// Creates a view in a namespace (Iceberg REST OpenAPI, createView). Where its location isn't given, it is the
    /// catalogue's base with the levels and the view's name below. Its uuid is made of the first two words.
    CreateView {
        catalog: Plain,
        namespace: Namespace,
        request: CreateView,
    },
    /// Shows a view with its metadata (Iceberg REST OpenAPI, loadView).
    LoadView {
        catalog: Plain,
        identifier: Identifier,
    },
    /// Tells whether a view is there (Iceberg REST OpenAPI, viewExists).
    HeadView {
        catalog: Plain,
        identifier: Identifier,
    },
    /// Commits to a view (Iceberg REST OpenAPI, replaceView).
    ReplaceView {
        catalog: Plain,
        commit: ViewCommit,
    },
    /// Drops a view with the grants on it (Iceberg REST OpenAPI, dropView).
    DropView {
        catalog: Plain,
        identifier: Identifier,
    },
    /// Gives a view another name, in its namespace or another one of the catalogue (Iceberg REST OpenAPI, renameView).
    RenameView {
        catalog: Plain,
        source: Identifier,
        destination: Identifier,
    },
    /// Lists all principals.
    ListPrincipals,
    /// Creates a principal with a client id and a secret. Where one isn't given, it is drawn: a client id is the 16
    /// hexadecimal digits of the first word, and a secret the 32 of the two words after it.
    CreatePrincipal {
        name: Plain,
        client_id: Option<Text>,
        secret: Option<Text>,
    },
    /// Shows a principal.
    GetPrincipal {
        name: Plain,
    },
    /// Drops a principal with its memberships.
    DropPrincipal {
        name: Plain,
    },
    /// Gives a principal another secret. Where none is given, it is the 32 hexadecimal digits of the first two words.
    Rotate {
        name: Plain,
        secret: Option<Text>,
    },
    /// Lists the principal roles of which a principal is a member.
    ListMembers {
        principal: Plain,
    },
    /// Makes a principal a member of a principal role.
    AddMember {
        principal: Plain,
        role: Plain,
    },
    /// Ends a principal's membership in a principal role.
    EndMember {
        principal: Plain,
        role: Plain,
    },
    /// Lists all principal roles.
    ListPrincipalRoles,
    /// Creates a principal role.
    CreatePrincipalRole {
        name: Plain,
    },
    /// Shows a principal role.
    GetPrincipalRole {
        name: Plain,
    },
    /// Drops a principal role with its members and joins.
    DropPrincipalRole {
        name: Plain,
    },
    /// Lists the roles of a catalogue to which a principal role is joined.
    ListJoins {
        catalog: Plain,
        role: Plain,
    },
    /// Joins a principal role to a role of a catalogue.
    AddJoin {
        catalog: Plain,
        role: Plain,
        catalog_role: Plain,
    },
    /// Ends the join of a principal role to a role of a catalogue.
    EndJoin {
        catalog: Plain,
        role: Plain,
        catalog_role: Plain,
    },
    /// Lists the roles of a catalogue.
    ListCatalogRoles {
        catalog: Plain,
    },
    /// Creates a role of a catalogue.
    CreateCatalogRole {
        catalog: Plain,
        name: Plain,
    },
    /// Shows a role of a catalogue.
    GetCatalogRole {
        catalog: Plain,
        name: Plain,
    },
    /// Drops a role of a catalogue with its joins and grants.
    DropCatalogRole {
        catalog: Plain,
        name: Plain,
    },
    /// Lists the grants of a catalogue's role.
    ListGrants {
        catalog: Plain,
        role: Plain,
    },
    /// Grants a privilege on a securable of a catalogue to one of its roles.
    AddGrant {
        catalog: Plain,
        role: Plain,
        grant: Grant,
    },
    /// Revokes such a grant.
    Revoke {
        catalog: Plain,
        role: Plain,
        grant: Grant,
    },
    /// Asks whether the bearer of a storage token may do this with the object at a path, or with those below it.
    Access {
        path: Location,
        act: Act,
    },
}
