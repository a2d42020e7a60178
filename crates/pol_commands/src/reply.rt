ghost use Rattle.std.specs.Prelude.{◌≡◌, Some};
ghost use Rattle.pol_commands.specs.Reply.{is_run_full, left_out_text, option_text, quantity_text};

use crate::{Grant, SecurableName};
use pol_access::{PrincipalRow, Privilege};
use pol_content::{CatalogRow, Handle};
use pol_locations::{Location, LocationRefused};
use pol_meta::{TableMetadata, Why};
use pol_names::{Identifier, Namespace, Plain};
use pol_properties::Properties;
use pol_tokens::TokenRow;
use pol_types::{Listed, Text};
use pol_updates::LeftOut;
use pol_views::ViewMetadata;
use std::fmt;

/// What a command is answered.
#[derive(Drop, PartialEq, Eq)]
pub enum Reply {
    Answered(Answer),
    Refused(Refusal),
}

impl Reply {
    /// Whether the command is refused since the run is full. This reply alone leaves the state's time and charges.
    pub fn is_run_full(&self) -> bool
        ensures { result ≡ is_run_full self.now }
    {
        matches!(self, Reply::Refused(Refusal::RunFull { .. }))
    }
}

/// What an action that is done answers.
#[derive(Drop, PartialEq, Eq)]
pub enum Answer {
    /// A session was opened. Its token's text is made of its serial and both words.
    SessionOpened {
        serial: u64,
        word_a: u64,
        word_b: u64,
    },
    /// How a client is to speak to this catalogue.
    ConfigTold {
        catalog: Plain,
    },
    /// All catalogues, in byte order of their names.
    CatalogsListed(Listed<CatalogRow>),
    /// This catalogue was created.
    CatalogCreated(CatalogRow),
    /// This catalogue was asked for.
    CatalogLoaded(CatalogRow),
    /// A catalogue was dropped.
    CatalogDropped,
    /// The namespaces that were asked for, ordered level by level.
    NamespacesListed(Listed<Namespace>),
    /// This namespace was created.
    NamespaceCreated {
        namespace: Namespace,
        properties: Properties,
    },
    /// This namespace was asked for.
    NamespaceLoaded {
        namespace: Namespace,
        properties: Properties,
    },
    /// A namespace is there.
    NamespaceThere,
    /// A namespace was dropped.
    NamespaceDropped,
    /// Properties were updated: the keys that were to be removed and weren't there, those that were removed and
    /// those that were set, each list in byte order.
    PropertiesUpdated {
        missing: Listed<Text>,
        removed: Listed<Text>,
        updated: Listed<Text>,
    },
    /// The tables that were asked for, in byte order of their names.
    TablesListed(Listed<Identifier>),
    /// This table was created, or asked for: where its metadata is, and the metadata, shared with its row where all of
    /// it was asked for, and the storage token that was issued, if one was.
    TableLoaded {
        metadata_location: Text,
        metadata: Handle<TableMetadata>,
        token: Option<TokenRow>,
    },
    /// A table is there.
    TableThere,
    /// A table was dropped.
    TableDropped,
    /// This storage token was issued.
    CredentialsLoaded {
        token: TokenRow,
    },
    /// A report on a table was taken.
    MetricsReported,
    /// A table was committed to: where its metadata is now, and the metadata, shared with its row.
    TableCommitted {
        metadata_location: Text,
        metadata: Handle<TableMetadata>,
    },
    /// Several tables were committed to.
    TransactionCommitted,
    /// A table has another name.
    TableRenamed,
    /// The views that were asked for, in byte order of their names.
    ViewsListed(Listed<Identifier>),
    /// This view was created, asked for or committed to: where its metadata is now, and the metadata, shared with its
    /// row.
    ViewLoaded {
        metadata_location: Text,
        metadata: Handle<ViewMetadata>,
    },
    /// A view is there.
    ViewThere,
    /// A view was dropped.
    ViewDropped,
    /// A view has another name.
    ViewRenamed,
    /// All principals, in byte order of their names.
    PrincipalsListed(Listed<PrincipalRow>),
    /// This principal was created, with this secret.
    PrincipalCreated {
        name: Plain,
        client_id: Text,
        secret: Text,
    },
    /// This principal was asked for.
    PrincipalLoaded(PrincipalRow),
    /// A principal was dropped.
    PrincipalDropped,
    /// This principal has this secret from now on.
    SecretRotated {
        name: Plain,
        client_id: Text,
        secret: Text,
    },
    /// The names of the roles that were asked for, in byte order: principal roles or roles of a catalogue.
    RolesListed(Listed<Plain>),
    /// A role was created.
    RoleCreated,
    /// The role of this name was asked for.
    RoleLoaded {
        name: Plain,
    },
    /// A role was dropped.
    RoleDropped,
    /// A principal is a member of a role.
    MemberAdded,
    /// A principal's membership in a role has ended.
    MemberEnded,
    /// A principal role is joined to a role of a catalogue.
    JoinAdded,
    /// A join has ended.
    JoinEnded,
    /// The grants of a role, in the order of their rows.
    GrantsListed(Listed<Grant>),
    /// A role has a grant.
    GrantAdded,
    /// A grant was revoked.
    GrantRevoked,
    /// The storage token opens the path for this act.
    AccessAllowed,
}

/// Why a command is refused.
#[derive(Drop, PartialEq, Eq)]
pub enum Refusal {
    /// The run's charges and this command's would be above 2^30 together.
    RunFull {
        charged: u64,
        charge: u64,
    },
    /// No principal has this client id with this secret.
    InvalidClient,
    /// A scope is neither all roles nor a role of the principal.
    InvalidScope,
    /// The bearer is no text of an unexpired session of a principal that is there.
    Unauthenticated,
    /// The named catalogue isn't there.
    NoCatalogue {
        name: Plain,
    },
    /// A need of the action isn't met: the caller may not use the privilege on this.
    Forbidden {
        privilege: Privilege,
        securable: SecurableName,
    },
    /// A namespace that must be there isn't; this is the first such one on the path.
    NoNamespace {
        namespace: Namespace,
    },
    /// The named table isn't there.
    NoTable {
        identifier: Identifier,
    },
    /// The named view isn't there.
    NoView {
        identifier: Identifier,
    },
    /// A principal or a role of this name that must be there isn't; or the role to which a membership or a join that
    /// is to end would lead, or the privilege of a grant that is to be revoked, where there is no such row.
    NoSuchRole {
        name: Text,
    },
    /// The new name, or the new client id, is taken.
    NameTaken {
        name: Text,
    },
    /// What is to be dropped holds something.
    NotEmpty {
        name: Text,
    },
    /// A key is both removed and set.
    KeyTwice {
        key: Text,
    },
    /// A table is named at two places of a transaction, counted from 0.
    TableTwice {
        first: u64,
        second: u64,
    },
    /// A requirement of a table or a view doesn't hold. The places are those of the table and of the requirement in the
    /// request, from 0; a view has the place 0.
    RequirementFailed {
        table: u64,
        requirement: u64,
    },
    /// What a table is to be made of, or an update of it or of a view, is refused. The places are those of the table
    /// and of the update in the request, from 0; a table that is created has the place 0 for both, and a view has the
    /// place 0.
    UpdateRefused {
        table: u64,
        update: u64,
        why: Why,
    },
    /// A text that is to be a location is none. The table is the place of the table in the request, from 0; a view and
    /// a catalogue have the place 0.
    BadLocation {
        table: u64,
        why: LocationRefused,
    },
    /// The location lies neither below the catalogue's base nor below a location that is allowed beside it.
    LocationOutside {
        location: Location,
    },
    /// The location and another table's overlap.
    LocationOverlap {
        location: Location,
        other: Location,
    },
    /// The principal has as many unexpired sessions, or storage tokens, as it may.
    TooManyTokens {
        live: u64,
    },
    /// The command holds an option that isn't supported.
    Unsupported {
        name: OptionName,
    },
    /// A quantity would pass its bound.
    Limit {
        quantity: Quantity,
        bound: u64,
    },
    /// The change would break the access that `root` always has; it is told by the name of what is kept.
    Reserved {
        name: Text,
    },
    /// No unexpired storage token has this text, or its table is gone or has moved since.
    TokenUnknown,
    /// The storage token's location doesn't cover the path.
    NotCovered,
    /// The request writes, and the storage token is for reading alone.
    NotWritable,
}

/// An option of a request that isn't supported.
#[derive(Clone, Copy, PartialEq, Eq)]
pub enum OptionName {
    /// The type of a catalogue that isn't internal.
    Type,
    /// That a table is only to be staged.
    StageCreate,
    /// A format version other than 2.
    FormatVersion,
    /// An update that isn't served.
    Update(LeftOut),
}

impl fmt::Display for OptionName {
    ghost output = { λ name. Some (option_text name) };

    fn fmt<W: fmt::Write>(&self, f: &mut fmt::Formatter<W>) -> fmt::Result {
        match self {
            OptionName::Type => f.write_str("type"),
            OptionName::StageCreate => f.write_str("stage-create"),
            OptionName::FormatVersion => f.write_str("format-version"),
            OptionName::Update(action) => f.write_str(left_out_text(*action)),
        }
    }
}

/// The name of an update that isn't served (Iceberg REST OpenAPI, TableUpdate).
fn left_out_text(action: LeftOut) -> &'static str
    ensures { result.now ≡ left_out_text action }
{
    match action {
        LeftOut::SetStatistics => "set-statistics",
        LeftOut::RemoveStatistics => "remove-statistics",
        LeftOut::SetPartitionStatistics => "set-partition-statistics",
        LeftOut::RemovePartitionStatistics => "remove-partition-statistics",
        LeftOut::AddEncryptionKey => "add-encryption-key",
        LeftOut::RemoveEncryptionKey => "remove-encryption-key",
    }
}

/// What has a bound.
#[derive(Clone, Copy, PartialEq, Eq)]
pub enum Quantity {
    Catalogs,
    Principals,
    PrincipalRoles,
    CatalogRoles,
    Members,
    Joins,
    Grants,
    Namespaces,
    Tables,
    Views,
    AllowedLocations,
    Schemas,
    PartitionSpecs,
    SortOrders,
    Refs,
    Snapshots,
    Properties,
    Weight,
    TransactionTables,
    NextId,
    NextSerial,
    Version,
}

impl fmt::Display for Quantity {
    ghost output = { λ quantity. Some (quantity_text quantity) };

    fn fmt<W: fmt::Write>(&self, f: &mut fmt::Formatter<W>) -> fmt::Result {
        f.write_str(match self {
            Quantity::Catalogs => "catalogues",
            Quantity::Principals => "principals",
            Quantity::PrincipalRoles => "principal roles",
            Quantity::CatalogRoles => "catalogue roles",
            Quantity::Members => "members",
            Quantity::Joins => "joins",
            Quantity::Grants => "grants",
            Quantity::Namespaces => "namespaces",
            Quantity::Tables => "tables",
            Quantity::Views => "views",
            Quantity::AllowedLocations => "allowed locations",
            Quantity::Schemas => "schemas",
            Quantity::PartitionSpecs => "partition specs",
            Quantity::SortOrders => "sort orders",
            Quantity::Refs => "refs",
            Quantity::Snapshots => "snapshots",
            Quantity::Properties => "properties",
            Quantity::Weight => "weight",
            Quantity::TransactionTables => "tables in a transaction",
            Quantity::NextId => "next_id",
            Quantity::NextSerial => "next_serial",
            Quantity::Version => "version",
        })
    }
}
