//! The answers to replies of the object machine.
ghost use Rattle.std.specs.Prelude.{◌≡◌, IfOk};
ghost use Rattle.serde_json.specs.View.{view};
ghost use Rattle.pol_object_answers.specs.ObjectAnswers as spec;

use crate::refused::refused_answer;
use pol_http::{Answer, Body};
use pol_json_answers::{answer_with, json_answer};
use pol_locations::Location;
use pol_objects::ObjectReply;
use pol_shared_bytes::SharedBytes;
use pol_types::OutOfMemory;
use serde_json::{Value, json};
use std::alloc::{AllocError, Global};

/// The answer to a reply of the object machine.
#[tactic(auto, unfolding(crate::specs::ObjectAnswers::object_answer_of))]
pub fn object_answer(alloc: Global, reply: &ObjectReply) -> Result<Answer, OutOfMemory>
    ensures { IfOk result (λ answer. answer ≡ spec.object_answer_of reply.now) }
{
    match reply {
        ObjectReply::Bytes { bytes } => bytes_answer(bytes),
        ObjectReply::Length { length } => Ok(answer_with(200, Body::Length(*length))),
        ObjectReply::Stored => Ok(answer_with(201, Body::Nothing)),
        ObjectReply::Deleted => Ok(answer_with(204, Body::Nothing)),
        ObjectReply::Paths { paths } => paths_answer(alloc, paths.as_slice()),
        ObjectReply::Refused { rule } => refused_answer(alloc, *rule),
    }
}

/// The answer that gives the bytes of an object, which it shares.
fn bytes_answer(bytes: &SharedBytes) -> Result<Answer, OutOfMemory>
    ensures { IfOk result (λ answer. answer ≡ spec.bytes_answer bytes.now) }
{
    Ok(answer_with(200, Body::Object(bytes.clone()?)))
}

/// The answer that lists paths.
#[tactic(auto, using(crate::proofs::PathLemmas::paths_whole))]
fn paths_answer(alloc: Global, paths: &[Location]) -> Result<Answer, OutOfMemory>
    ensures { IfOk result (λ answer. answer ≡ spec.paths_answer paths.now) }
{
    let texts = texts_json(alloc, paths)?;
    json_answer(alloc, 200, paths_json(alloc, texts)?)
}

/// The object that lists paths, made of their texts.
fn paths_json(alloc: Global, texts: Value) -> Result<Value, AllocError>
    ensures { IfOk result (λ json. view json ≡ spec.paths_object (view texts)) }
{
    json!(in alloc; {"paths": texts})
}

/// The list of the texts of paths.
fn texts_json(alloc: Global, paths: &[Location]) -> Result<Value, OutOfMemory>
    ensures { IfOk result (λ json. view json ≡ spec.texts_json paths.now) }
{
    let mut texts = Vec::with_capacity(alloc, paths.len())?;
    for path in paths {
        texts.push(Value::from(path.text(alloc)?))?;
    }
    Ok(Value::from(texts))
}
