ghost use Rattle.pol_commands.specs.Views.{HaveViewForms};

use pol_meta::Schema;
use pol_names::Name;
use pol_properties::Properties;
use pol_types::Text;
use pol_views::UnboundVersion;

/// What a view is asked for with (Iceberg REST OpenAPI, CreateViewRequest): its name, where it is to lie, its schema,
/// version and properties. By its type each part has its form of the Iceberg view spec.
#[derive(Drop)]
pub struct CreateView {
    pub name: Name,
    pub location: Option<Text>,
    pub schema: Schema,
    pub view_version: UnboundVersion,
    pub properties: Properties,
    pub ghost formed: { ∥ HaveViewForms schema view_version ∥₁ },
}
