ghost use Rattle.std.specs.Prelude.{All};
ghost use Rattle.pol_updates.specs.Forms.{HasForm};

use pol_names::Identifier;
use pol_types::Listed;
use pol_updates::{Requirement, Update};

/// A change of a table that its identifier names: what has to hold of it, and how it is changed then (Iceberg REST
/// OpenAPI, CommitTableRequest). By its type each update has the forms of its parts.
#[derive(Drop)]
pub struct Commit {
    pub identifier: Identifier,
    pub requirements: Listed<Requirement>,
    pub updates: Listed<Update>,
    pub ghost formed: { ∥ All HasForm updates ∥₁ },
}
