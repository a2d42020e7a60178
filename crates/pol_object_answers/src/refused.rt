//! The answers to refusals of the object machine: their statuses and types.
ghost use Rattle.std.specs.Prelude.{◌≡◌, IfOk};
ghost use Rattle.pol_object_answers.specs.ObjectAnswers as spec;

use pol_http::Answer;
use pol_json_answers::error_answer;
use pol_objects::ObjectRule;
use pol_types::OutOfMemory;
use std::alloc::Global;

/// The answer to what a rule refuses.
pub(crate) fn refused_answer(alloc: Global, rule: ObjectRule) -> Result<Answer, OutOfMemory>
    ensures { IfOk result (λ answer. answer ≡ spec.refused_answer rule) }
{
    let message = rule.to_string(alloc)?;
    error_answer(alloc, status_of(rule), message.as_str(), kind_of(rule))
}

/// The status of the answer to what a rule refuses.
fn status_of(rule: ObjectRule) -> u16
    ensures { result ≡ spec.status_of rule }
{
    match rule {
        ObjectRule::NoObject => 404,
        ObjectRule::ObjectThere => 409,
        ObjectRule::TooLong { .. } => 413,
        ObjectRule::SpaceFull { .. } => 503,
    }
}

/// The type of the error that a refusal is.
fn kind_of(rule: ObjectRule) -> &'static str
    ensures { result.now ≡ spec.kind_of rule }
{
    match rule {
        ObjectRule::NoObject => "NotFoundException",
        ObjectRule::ObjectThere => "AlreadyExistsException",
        ObjectRule::TooLong { .. } => "BadRequestException",
        ObjectRule::SpaceFull { .. } => "ServiceUnavailableException",
    }
}
