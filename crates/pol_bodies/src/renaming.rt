//! The body that renames a table or a view.
ghost use Rattle.pol_bodies.specs.Renaming as spec;

use crate::held::Held;
use crate::keys;
use crate::management_bodies::identifier;
use pol_names::Identifier;
use pol_readers::{Form, ReadError, field, object};
use serde_json::Value;
use std::alloc::Global;

/// The body that renames a table or a view (Iceberg REST OpenAPI, RenameTableRequest).
#[derive(Drop)]
pub struct RenameBody {
    pub source: Identifier,
    pub destination: Identifier,
}

/// The full name of a table or a view (TableIdentifier).
#[tactic(auto, unfolding(crate::specs::Renaming::full_name))]
impl Form for Held<Identifier> {
    ghost shape = { spec.full_name };

    fn read(alloc: Global, value: &Value) -> Result<Self, ReadError> {
        object(alloc, value)?;
        let identifier = identifier(alloc, value, keys::NAME)?;
        Ok(Held::new(identifier))
    }
}

#[tactic(auto, unfolding(crate::specs::Renaming::renaming))]
impl Form for RenameBody {
    ghost shape = { spec.renaming };

    fn read(alloc: Global, value: &Value) -> Result<Self, ReadError> {
        object(alloc, value)?;
        let source: Held<Identifier> = field(alloc, value, keys::SOURCE)?;
        let destination: Held<Identifier> = field(alloc, value, keys::DESTINATION)?;
        Ok(RenameBody {
            source: source.into_value(),
            destination: destination.into_value(),
        })
    }
}
