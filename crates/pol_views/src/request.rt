use crate::{UnboundVersion, ViewRequirement, ViewUpdate};
use pol_meta::Schema;
use pol_names::Name;
use pol_properties::Properties;
use pol_types::{Listed, Text};

/// What a view is asked for with: its name, where it is to lie, its schema, version and properties (Iceberg REST
/// OpenAPI, CreateViewRequest).
#[derive(Drop)]
pub struct CreateView {
    pub name: Name,
    pub location: Option<Text>,
    pub schema: Schema,
    pub view_version: UnboundVersion,
    pub properties: Properties,
}

/// A change of a view: what has to hold of it, and how it is changed then (Iceberg REST OpenAPI, CommitViewRequest).
#[derive(Drop)]
pub struct ViewCommit {
    pub requirements: Listed<ViewRequirement>,
    pub updates: Listed<ViewUpdate>,
}
