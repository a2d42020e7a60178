//! Answers by their status and their body. Each leaves the connection open.
ghost use Rattle.std.specs.Prelude.{◌≡◌, false, IfOk};
ghost use Rattle.serde_json.specs.Written.{compact_text, has_float};
ghost use Rattle.serde_json.specs.View.{view};
ghost use Rattle.pol_json_answers.specs.JsonAnswers as spec;

use pol_http::{Answer, Body};
use pol_types::{Bytes, OutOfMemory};
use serde_json::{Value, json};
use std::alloc::{AllocError, Global};

/// The answer to an error (Iceberg REST OpenAPI, IcebergErrorResponse): its status, message and type.
#[tactic(auto, unfolding(crate::specs::JsonAnswers::error_answer))]
pub fn error_answer(
    alloc: Global,
    code: u16,
    message: &str,
    kind: &str,
) -> Result<Answer, OutOfMemory>
    ensures { IfOk result (λ answer. answer ≡ spec.error_answer code message.now kind.now) }
{
    let json = error_json(alloc, code, message, kind)?;
    json_answer(alloc, code, json)
}

/// The JSON of an error.
fn error_json(alloc: Global, code: u16, message: &str, kind: &str) -> Result<Value, AllocError>
    ensures { IfOk result (λ json. view json ≡ spec.error_json code message.now kind.now) }
{
    json!(in alloc; {"error": {"code": code, "message": message, "type": kind}})
}

/// An answer of that JSON, which has no floats.
#[tactic(auto, unfolding(crate::specs::JsonAnswers::json_answer))]
pub fn json_answer(alloc: Global, code: u16, json: Value) -> Result<Answer, OutOfMemory>
    requires { has_float (view json) ≡ false }
    ensures { IfOk result (λ answer. answer ≡ spec.json_answer code (view json)) }
{
    Ok(answer_with(code, Body::Json(text_of(alloc, &json)?)))
}

/// An answer that leaves the connection open.
pub fn answer_with(status: u16, body: Body) -> Answer
    ensures { result ≡ spec.answer_with status body }
{
    Answer {
        status,
        body,
        close: false,
        head_only: false,
    }
}

/// The compact text of a value without floats.
pub fn text_of(alloc: Global, json: &Value) -> Result<Bytes, OutOfMemory>
    requires { has_float (view json.now) ≡ false }
    ensures { IfOk result (λ text. text ≡ compact_text (view json.now)) }
{
    Ok(Bytes::from(json.to_string(alloc)?.into_bytes()))
}
