ghost use Rattle.std.specs.Prelude.{All};
ghost use Rattle.pol_views.specs.Forms.{HasViewForm};

use pol_names::Identifier;
use pol_types::Listed;
use pol_views::{ViewRequirement, ViewUpdate};

/// A change of a view that its identifier names: what has to hold of it, and how it is changed then (Iceberg REST
/// OpenAPI, CommitViewRequest). By its type each update has the forms of its parts.
#[derive(Drop)]
pub struct ViewCommit {
    pub identifier: Identifier,
    pub requirements: Listed<ViewRequirement>,
    pub updates: Listed<ViewUpdate>,
    pub ghost formed: { ∥ All HasViewForm updates ∥₁ },
}
