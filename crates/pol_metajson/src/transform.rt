ghost use Rattle.std.specs.Prelude.{◌≡◌};
ghost use Rattle.pol_metajson.specs.Transform as spec;

use crate::Body;
use crate::brackets::sized;
use pol_meta::Transform;
use pol_readers::{Form, ReadError};
use serde_json::Value;
use std::alloc::Global;

#[tactic(auto, unfolding(crate::specs::Transform::transform, pol_readers::specs::Forms::text))]
impl Form for Body<Transform> {
    ghost shape = { spec.transform };

    fn read(alloc: Global, value: &Value) -> Result<Self, ReadError> {
        match value.as_str().and_then(|word| transform_of(word)) {
            Some(transform) => Ok(Body::new(transform)),
            None => Err(ReadError::here(alloc)),
        }
    }
}

/// The transform that a word names.
#[tactic(auto, unfolding(crate::specs::Transform::transform_of))]
fn transform_of(word: &str) -> Option<Transform>
    ensures { result ≡ spec.transform_of word.now }
{
    match plain_transform(word) {
        Some(transform) => Some(transform),
        None => sized_transform(word),
    }
}

/// The transform of a word without a number.
fn plain_transform(word: &str) -> Option<Transform>
    ensures { result ≡ spec.plain_transform word.now }
{
    match word {
        "identity" => Some(Transform::Identity),
        "void" => Some(Transform::Void),
        "year" => Some(Transform::Year),
        "month" => Some(Transform::Month),
        "day" => Some(Transform::Day),
        "hour" => Some(Transform::Hour),
        _ => None,
    }
}

/// The transform of a word with a number in brackets.
fn sized_transform(word: &str) -> Option<Transform>
    ensures { result ≡ spec.sized_transform word.now }
{
    if let Some(buckets) = sized(word, "bucket[") {
        return Some(Transform::Bucket(buckets));
    }
    let width = sized(word, "truncate[")?;
    Some(Transform::Truncate(width))
}
