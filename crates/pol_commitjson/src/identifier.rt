ghost use Rattle.pol_commitjson.specs.Identifiers as spec;

use crate::asked::Asked;
use crate::keys;
use pol_metajson::Body;
use pol_metakeys::keys as meta_keys;
use pol_names::{Identifier, Name, Namespace, NamespaceRefused};
use pol_readers::{Form, ReadError, field, object, whole};
use pol_types::{Listed, Text};
use serde_json::Value;
use std::alloc::Global;

/// A namespace, as the list of its levels. It is one field, into which no path goes.
#[tactic(auto, unfolding(crate::specs::Identifiers::levels, pol_readers::specs::Forms::holds))]
impl Form for Asked<Namespace> {
    ghost shape = { spec.levels };

    fn read(alloc: Global, value: &Value) -> Result<Self, ReadError> {
        let levels: Listed<Text> = whole(alloc, value)?;
        match Namespace::from_levels(alloc, levels.as_slice()) {
            Ok(namespace) => Ok(Asked::new(namespace)),
            Err(NamespaceRefused::OutOfMemory) => Err(ReadError::OutOfMemory),
            Err(_) => Err(ReadError::here(alloc)),
        }
    }
}

/// The full name of a table (Iceberg REST OpenAPI, TableIdentifier).
#[tactic(auto, unfolding(crate::specs::Identifiers::identifier))]
impl Form for Asked<Identifier> {
    ghost shape = { spec.identifier };

    fn read(alloc: Global, value: &Value) -> Result<Self, ReadError> {
        object(alloc, value)?;
        let within: Asked<Namespace> = field(alloc, value, keys::NAMESPACE)?;
        let called: Body<Name> = field(alloc, value, meta_keys::NAME)?;
        Ok(Asked::new(Identifier {
            namespace: within.into_value(),
            name: called.into_value(),
        }))
    }
}
