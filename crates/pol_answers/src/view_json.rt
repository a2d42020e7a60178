//! The JSON of answers on views.
ghost use Rattle.std.specs.Prelude.{◌≡◌, IfOk, false};
ghost use Rattle.serde_json.specs.View.{view};
ghost use Rattle.serde_json.specs.Written.{has_float};
ghost use Rattle.pol_answers.specs.TableJson.{committed_object};
ghost use Rattle.pol_answers.specs.ViewJson as spec;

use pol_types::{OutOfMemory, Text};
use pol_viewjson::view_value;
use pol_views::ViewMetadata;
use serde_json::{Value, json};
use std::alloc::{AllocError, Global};

/// A view with its metadata, which is at this place.
#[tactic(auto, using(crate::proofs::TableJsonLemmas::committed_whole))]
pub(crate) fn shown_json(
    alloc: Global,
    place: &Text,
    metadata: &ViewMetadata,
) -> Result<Value, OutOfMemory>
    ensures json { IfOk result (λ json. view json ≡ spec.shown_json place.now metadata.now) }
    ensures whole { IfOk result (λ json. has_float (view json) ≡ false) }
{
    let metadata = view_value(alloc, metadata)?;
    Ok(shown_object(alloc, place.as_str(), metadata)?)
}

/// The object that shows a view, made of its parts.
fn shown_object(alloc: Global, place: &str, metadata: Value) -> Result<Value, AllocError>
    ensures { IfOk result (λ json. view json ≡ committed_object place.now (view metadata)) }
{
    json!(in alloc; {"metadata": metadata, "metadata-location": place})
}
