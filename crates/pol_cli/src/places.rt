//! The files that a line names.
ghost use Rattle.std.specs.Prelude.{◌≡◌, ◌≢◌, IfOk, IfErr};
ghost use Rattle.std.specs.Vec.Iter.{into_iter_items};
ghost use Rattle.pol_words.specs.Words.{Means, MeansNothing};
ghost use Rattle.pol_words.specs.declared.plan.Plan.{Plan};
ghost use Rattle.pol_cli.specs.Given.{words_behind};
ghost use Rattle.pol_cli.specs.Places as spec;

use crate::given::words_given;
use crate::reason::Reason;
use pol_types::{OutOfMemory, Text};
use pol_words::{Plan, Words, plan_of};
use std::alloc::Global;
use std::env::Args;
use std::io;

/// The files of the catalogue and of the objects. Where a line names none they are texts without a byte.
#[derive(Drop)]
pub struct Places {
    pub catalogue: Text,
    pub objects: Text,
}

/// The files that a line names which the system gave, or none where it gave no line.
pub fn places_given(alloc: Global, given: io::Result<Args>) -> Result<Places, OutOfMemory>
    ensures named { IfOk given (λ line. (plan : Plan) → Means (words_behind (into_iter_items line)) plan
        → IfOk result (λ places. places ≡ spec.places_of plan)) }
    ensures unnamed { IfOk given (λ line. MeansNothing (words_behind (into_iter_items line))
        → IfOk result (λ places. places ≡ spec.no_places)) }
    ensures none { IfErr given (λ error. IfOk result (λ places. places ≡ spec.no_places)) }
{
    match words_given(alloc, given) {
        Ok(words) => {
            let places = places_of(alloc, &words);
            drop(words);
            places
        }
        Err(why) => places_unread(alloc, why),
    }
}

/// No files, where a line wasn't given for this reason, unless memory was wanting.
fn places_unread(alloc: Global, why: Reason) -> Result<Places, OutOfMemory>
    ensures known { IfOk result (λ places. why ≢ Reason.NoMemory) }
    ensures none { IfOk result (λ places. places ≡ spec.no_places) }
{
    let is_memory = matches!(&why, Reason::NoMemory);
    drop(why);
    if is_memory {
        return Err(OutOfMemory);
    }
    Ok(no_places(alloc))
}

/// The files that a line of words names.
fn places_of(alloc: Global, words: &Words) -> Result<Places, OutOfMemory>
    ensures named { (plan : Plan) → Means words.now.list plan
        → IfOk result (λ places. places ≡ spec.places_of plan) }
    ensures unnamed { MeansNothing words.now.list → IfOk result (λ places. places ≡ spec.no_places) }
{
    match plan_of(alloc, words)? {
        Some(plan) => Ok(places_named(alloc, plan)),
        None => Ok(no_places(alloc)),
    }
}

/// The files that a plan names.
fn places_named(alloc: Global, plan: Plan) -> Places
    ensures { result ≡ spec.places_of plan }
{
    match plan {
        Plan::ExecFresh { .. } => no_places(alloc),
        Plan::Exec { catalogue, objects } | Plan::Init { catalogue, objects } => {
            Places { catalogue, objects }
        }
    }
}

/// No files.
fn no_places(alloc: Global) -> Places
    ensures { result ≡ spec.no_places }
{
    Places {
        catalogue: Text::from(String::new(alloc)),
        objects: Text::from(String::new(alloc)),
    }
}
