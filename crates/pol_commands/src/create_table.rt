ghost use Rattle.pol_meta.specs.Creation.{HaveForms};

use pol_meta::{Schema, UnboundOrder, UnboundSpec};
use pol_names::Name;
use pol_properties::Properties;
use pol_types::Text;

/// What a table is asked for with (Iceberg REST OpenAPI, CreateTableRequest): its name, where it is to lie, its schema,
/// spec, order and properties, and whether it is only to be staged. By its type each part has its form of the Iceberg
/// table spec.
#[derive(Drop)]
pub struct CreateTable {
    pub name: Name,
    pub location: Option<Text>,
    pub schema: Schema,
    pub partition_spec: UnboundSpec,
    pub write_order: UnboundOrder,
    pub stage_create: bool,
    pub properties: Properties,
    pub ghost formed: { ∥ HaveForms schema partition_spec write_order ∥₁ },
}
