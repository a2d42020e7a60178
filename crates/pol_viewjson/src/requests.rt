//! Bodies that create views and commit to them.
ghost use Rattle.std.specs.Prelude.{◌≡◌, [], All, IfOk, unwrap_or};
ghost use Rattle.pol_readers.specs.Forms as form;
ghost use Rattle.pol_readers.specs.Reading.{Gives};
ghost use Rattle.pol_views.specs.Forms.{HasViewForm};
ghost use Rattle.pol_viewjson.specs.Requests as spec;

use crate::keys;
use crate::viewed::{Viewed, parts};
use pol_commitjson::keys as commit_keys;
use pol_meta::Schema;
use pol_metajson::Body;
use pol_metakeys::keys as meta_keys;
use pol_metaread::Stored;
use pol_names::Name;
use pol_properties::Properties;
use pol_readers::{Form, ReadError, field, fixed, object, optional, read_body};
use pol_types::{Listed, OutOfMemory, Text};
use pol_views::{CreateView, UnboundVersion, ViewCommit, ViewRequirement, ViewUpdate};
use serde_json::Value;
use std::alloc::Global;
use uuid::Uuid;

/// Reads a body that creates a view (Iceberg REST OpenAPI, CreateViewRequest). Its fields are tested in the order name,
/// location, schema, view-version, properties.
#[tactic(auto, using(crate::proofs::FormLemmas::create_formed))]
pub fn read_create_view(alloc: Global, body: &[u8]) -> Result<CreateView, ReadError>
    ensures reading { Gives result (form.body spec.create_view.read body.now) }
    ensures formed { IfOk result spec.IsFormed }
{
    let request: Viewed<CreateView> = read_body(alloc, body)?;
    Ok(request.into_value())
}

/// Reads a body that commits to a view (Iceberg REST OpenAPI, CommitViewRequest). Its requirements, if there are any,
/// are tested before its updates.
#[tactic(auto, using(crate::proofs::FormLemmas::commit_formed))]
pub fn read_view_commit(alloc: Global, body: &[u8]) -> Result<ViewCommit, ReadError>
    ensures reading { Gives result (form.body spec.view_commit.read body.now) }
    ensures formed { IfOk result (λ commit. All HasViewForm commit.updates) }
{
    let commit: Viewed<ViewCommit> = read_body(alloc, body)?;
    Ok(commit.into_value())
}

#[tactic(auto, unfolding(crate::specs::Requests::create_view))]
impl Form for Viewed<CreateView> {
    ghost shape = { spec.create_view };

    fn read(alloc: Global, value: &Value) -> Result<Self, ReadError> {
        object(alloc, value)?;
        let name: Body<Name> = field(alloc, value, meta_keys::NAME)?;
        let location: Option<Text> = optional(alloc, value, meta_keys::LOCATION)?;
        let schema: Body<Schema> = field(alloc, value, meta_keys::SCHEMA)?;
        let version: Viewed<UnboundVersion> = field(alloc, value, keys::VIEW_VERSION)?;
        let properties: Body<Properties> = field(alloc, value, meta_keys::PROPERTIES)?;
        Ok(Viewed::new(CreateView {
            name: name.into_value(),
            location,
            schema: schema.into_value(),
            view_version: version.into_value(),
            properties: properties.into_value(),
        }))
    }
}

#[tactic(auto, unfolding(crate::specs::Requests::requirement))]
impl Form for Viewed<ViewRequirement> {
    ghost shape = { spec.requirement };

    fn read(alloc: Global, value: &Value) -> Result<Self, ReadError> {
        object(alloc, value)?;
        fixed(alloc, value, meta_keys::TYPE, keys::ASSERT_VIEW_UUID)?;
        let uuid: Stored<Uuid> = field(alloc, value, commit_keys::UUID)?;
        Ok(Viewed::new(ViewRequirement::AssertViewUuid {
            uuid: uuid.into_value(),
        }))
    }
}

#[tactic(auto, unfolding(crate::specs::Requests::view_commit))]
impl Form for Viewed<ViewCommit> {
    ghost shape = { spec.view_commit };

    fn read(alloc: Global, value: &Value) -> Result<Self, ReadError> {
        object(alloc, value)?;
        let required: Option<Listed<Viewed<ViewRequirement>>> = optional(
            alloc,
            value,
            commit_keys::REQUIREMENTS,
        )?;
        let updates: Listed<Viewed<ViewUpdate>> = field(alloc, value, commit_keys::UPDATES)?;
        let requirements = given_parts(alloc, required)?;
        let updates = parts(alloc, updates)?;
        Ok(Viewed::new(ViewCommit {
            requirements,
            updates,
        }))
    }
}

/// The parts that are read of the members of a list, or none where there is no list.
fn given_parts<T: Drop>(
    alloc: Global,
    given: Option<Listed<Viewed<T>>>,
) -> Result<Listed<T>, OutOfMemory>
    ensures { IfOk result (λ parts. parts ≡ unwrap_or given []) }
{
    match given {
        Some(given) => parts(alloc, given),
        None => Ok(Listed::from(Vec::new(alloc))),
    }
}
