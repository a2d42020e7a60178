//! What requests for objects ask for by their paths.
ghost use Rattle.std.specs.Prelude.{◌≡◌, [], ◌∷◌, ◌++◌, OnOk};
ghost use Rattle.pol_requests.specs.Refused.{Meets};
ghost use Rattle.pol_routes.specs.Objects as spec;

use crate::segment::{PATH_FIELD, segment_text};
use crate::target::path_of;
use pol_commands::Action;
use pol_locations::{Location, LocationRefused};
use pol_requests::{ObjectRequest, Unplanned, unreadable};
use pol_tokens::Act;
use pol_types::{Listed, OutOfMemory, Text};
use std::alloc::Global;

/// Whether the bearer of a storage token may do what is asked for.
#[tactic(auto, using(pol_requests::proofs::RefusedLemmas::chained), unfolding(crate::specs::Objects::access))]
pub(crate) fn access(
    alloc: Global,
    target: &[u8],
    asked: ObjectRequest,
) -> Result<Action, Unplanned>
    ensures { Meets (spec.access target.now asked) result }
{
    let path = object_path(alloc, target)?;
    Ok(Action::Access {
        path,
        act: act_of(asked),
    })
}

/// What is done with an object.
fn act_of(asked: ObjectRequest) -> Act
    ensures { result ≡ spec.act_of asked }
{
    match asked {
        ObjectRequest::GetObject | ObjectRequest::HeadObject | ObjectRequest::ListObjects =>
            Act::Read,
        ObjectRequest::PutObject | ObjectRequest::DeleteObject => Act::Write,
    }
}

/// The location that a path has behind its first segment.
#[tactic(auto, using(pol_requests::proofs::RefusedLemmas::chained), unfolding(crate::specs::Objects::object_path))]
fn object_path(alloc: Global, target: &[u8]) -> Result<Location, Unplanned>
    ensures { Meets (spec.object_path target.now) result }
{
    let texts = segment_texts(alloc, path_of(target))?;
    location_of(alloc, texts.as_slice())
}

/// The texts of the segments of a path behind its first, each decoded by itself.
fn segment_texts(alloc: Global, path: &[u8]) -> Result<Listed<Text>, Unplanned>
    ensures { Meets (spec.texts_behind path.now) result }
{
    let mut texts = Vec::new(alloc);
    for segment in path.split(|byte| *byte == b'/').skip(2) {
        let text = segment_text(alloc, segment)?;
        push(&mut texts, text)?;
    }
    Ok(Listed::from(texts))
}

/// Adds a text to others.
fn push(texts: &mut Vec<Text>, text: Text) -> Result<(), OutOfMemory>
    ensures { OnOk result (texts.new.items ≡ texts.old.items ++ text ∷ []) }
{
    Ok(texts.push(text)?)
}

/// The location that texts form.
#[tactic(auto, using(pol_requests::proofs::RefusedLemmas::refused), unfolding(crate::specs::Objects::location_of))]
fn location_of(alloc: Global, texts: &[Text]) -> Result<Location, Unplanned>
    ensures { Meets (spec.location_of texts.now) result }
{
    match Location::of_segments(alloc, texts) {
        Ok(location) => Ok(location),
        Err(LocationRefused::OutOfMemory) => Err(Unplanned::OutOfMemory),
        Err(_) => Err(unreadable(alloc, PATH_FIELD)),
    }
}
