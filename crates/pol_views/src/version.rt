ghost use Rattle.std.proofs.Common.{rules};

use pol_drafts::MemberId;
use pol_names::Namespace;
use pol_properties::Properties;
use pol_types::{Exact, Listed, Text};

/// The query of a view as a text of SQL in one dialect (Iceberg view spec, SQL representation).
#[derive(Clone, Drop, PartialEq, Eq)]
pub struct Representation {
    pub sql: Text,
    pub dialect: Text,
}

impl Exact for Representation {
    ghost use Rattle.pol_views.specs.Exactness.{representations_exact};

    ghost clones_exactly = { Prim.search rules };

    ghost compares_exactly = { representations_exact };
}

/// A version of a view: when it was made, in milliseconds since the Unix epoch, the schema of its rows, and its query.
/// Names in the query that lack a catalogue or a namespace have the default ones.
#[derive(Clone, Drop, PartialEq, Eq)]
pub struct ViewVersion {
    pub version_id: u32,
    pub timestamp_ms: u64,
    pub schema_id: u32,
    pub summary: Properties,
    pub representations: Listed<Representation>,
    pub default_catalog: Option<Text>,
    pub default_namespace: Namespace,
}

impl Exact for ViewVersion {
    ghost use Rattle.pol_views.specs.Exactness.{view_versions_exact};

    ghost clones_exactly = { Prim.search rules };

    ghost compares_exactly = { view_versions_exact };
}

/// A version that is asked for. It gets its id by the view, and its schema is one of the view's, or the last added.
#[derive(Drop)]
pub struct UnboundVersion {
    pub timestamp_ms: u64,
    pub schema_id: MemberId,
    pub summary: Properties,
    pub representations: Listed<Representation>,
    pub default_catalog: Option<Text>,
    pub default_namespace: Namespace,
}
