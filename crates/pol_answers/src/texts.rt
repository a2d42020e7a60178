//! The answers to replies and refusals.
ghost use Rattle.std.specs.Prelude.{◌≡◌, IfOk, false, string_bytes};
ghost use Rattle.serde_json.specs.Data.{Data};
ghost use Rattle.serde_json.specs.View.{view};
ghost use Rattle.serde_json.specs.Written.{compact_text, has_float};
ghost use Rattle.pol_tokens.specs.Text.{text_of_token};
ghost use Rattle.pol_json_answers.specs.JsonAnswers as made;
ghost use Rattle.pol_answers.specs.ManagementJson.{credentials_json};
ghost use Rattle.pol_answers.specs.Texts as spec;

use crate::json::{
    ToJson, catalogs_json, config_json, namespace_json, namespaces_json, updated_json,
};
use crate::management_json::{
    credentials_json as principal_json, grants_json, principals_json, roles_json,
};
use crate::refusals::{
    BAD_REQUEST, NOT_FOUND, SERVICE_UNAVAILABLE, kind_of, message_of, status_of,
};
use crate::table_json::{committed_text, credentials_json, identifiers_json, loaded_text};
use crate::view_json::shown_json;
use pol_commands::{Answer as Done, Refusal, Reply};
use pol_http::{Answer, Body, HeadRefused};
use pol_json_answers::{answer_with, error_answer, json_answer, text_of};
use pol_names::Plain;
use pol_requests::RouteRefused;
use pol_tokens::{SESSION_LIFE, token_text};
use pol_types::{Bytes, OutOfMemory, Text};
use serde_json::{Value, json};
use std::alloc::{AllocError, Global};

/// The answer to a reply.
#[tactic(auto, unfolding(crate::specs::Texts::answer_of))]
pub fn answer_of(alloc: Global, reply: &Reply) -> Result<Answer, OutOfMemory>
    ensures { IfOk result (λ answer. answer ≡ spec.answer_of reply.now) }
{
    match reply {
        Reply::Answered(done) => done_answer(alloc, done),
        Reply::Refused(refusal) => refused_answer(alloc, refusal),
    }
}

/// The answer to a command that is done. Of what has ended or is there nothing is told.
#[tactic(auto, using(crate::proofs::JsonLemmas::made_whole, crate::proofs::JsonLemmas::answers_whole, crate::proofs::ManagementJsonLemmas::answers_whole, crate::proofs::TableJsonLemmas::identifiers_whole))]
fn done_answer(alloc: Global, done: &Done) -> Result<Answer, OutOfMemory>
    ensures { IfOk result (λ answer. answer ≡ spec.done_answer done.now) }
{
    match done {
        Done::SessionOpened {
            serial,
            word_a,
            word_b,
        } => session_answer(alloc, *serial, *word_a, *word_b),
        Done::ConfigTold { catalog } => told_json(alloc, 200, config_json(alloc, catalog)),
        Done::CatalogsListed(rows) => told_json(alloc, 200, catalogs_json(alloc, rows)),
        Done::CatalogCreated(row) => told_json(alloc, 201, row.to_json(alloc)),
        Done::CatalogLoaded(row) => told_json(alloc, 200, row.to_json(alloc)),
        Done::NamespacesListed(namespaces) => {
            told_json(alloc, 200, namespaces_json(alloc, namespaces))
        }
        Done::NamespaceCreated {
            namespace,
            properties,
        }
        | Done::NamespaceLoaded {
            namespace,
            properties,
        } => told_json(alloc, 200, namespace_json(alloc, namespace, properties)),
        Done::PropertiesUpdated {
            missing,
            removed,
            updated,
        } => told_json(alloc, 200, updated_json(alloc, missing, removed, updated)),
        Done::TablesListed(identifiers) | Done::ViewsListed(identifiers) => {
            told_json(alloc, 200, identifiers_json(alloc, identifiers))
        }
        Done::TableLoaded {
            metadata_location,
            metadata,
            token,
        } => told_text(loaded_text(alloc, metadata_location, metadata.get(), token.as_ref())),
        Done::TableCommitted {
            metadata_location,
            metadata,
        } => told_text(committed_text(alloc, metadata_location, metadata.get())),
        Done::ViewLoaded {
            metadata_location,
            metadata,
        } => told_json(
            alloc,
            200,
            shown_json(alloc, metadata_location, metadata.get()),
        ),
        Done::CredentialsLoaded { token } => {
            told_json(alloc, 200, credentials_json(alloc, token))
        }
        Done::PrincipalsListed(rows) => told_json(alloc, 200, principals_json(alloc, rows)),
        Done::PrincipalCreated {
            name,
            client_id,
            secret,
        } => credentials_answer(alloc, 201, client_id, secret, name),
        Done::PrincipalLoaded(row) => told_json(alloc, 200, row.to_json(alloc)),
        Done::SecretRotated {
            name,
            client_id,
            secret,
        } => credentials_answer(alloc, 200, client_id, secret, name),
        Done::RolesListed(names) => told_json(alloc, 200, roles_json(alloc, names)),
        Done::RoleLoaded { name } => told_json(alloc, 200, name.to_json(alloc)),
        Done::GrantsListed(grants) => told_json(alloc, 200, grants_json(alloc, grants)),
        Done::RoleCreated
        | Done::MemberAdded
        | Done::JoinAdded
        | Done::GrantAdded
        | Done::GrantRevoked => Ok(answer_with(201, Body::Nothing)),
        Done::CatalogDropped
        | Done::NamespaceThere
        | Done::NamespaceDropped
        | Done::TableThere
        | Done::TableDropped
        | Done::MetricsReported
        | Done::TransactionCommitted
        | Done::TableRenamed
        | Done::ViewThere
        | Done::ViewDropped
        | Done::ViewRenamed
        | Done::PrincipalDropped
        | Done::RoleDropped
        | Done::MemberEnded
        | Done::JoinEnded
        | Done::AccessAllowed => Ok(answer_with(204, Body::Nothing)),
    }
}

/// The answer of that status whose body is this JSON, where memory sufficed for it.
///
/// It takes the JSON as it was made, so that a caller with many cases has no way out of its own for each of them.
fn told_json(
    alloc: Global,
    code: u16,
    json: Result<Value, OutOfMemory>,
) -> Result<Answer, OutOfMemory>
    requires { IfOk json (λ value. has_float (view value) ≡ false) }
    ensures { (shown : Data) → IfOk json (λ value. view value ≡ shown)
        → IfOk result (λ answer. answer ≡ made.json_answer code shown) }
{
    json_answer(alloc, code, json?)
}

/// The answer, with status 200, whose body is this text of a JSON, where memory sufficed for it.
#[tactic(auto, using(crate::proofs::TableJsonLemmas::answered))]
fn told_text(text: Result<Bytes, OutOfMemory>) -> Result<Answer, OutOfMemory>
    ensures { (json : Data) → IfOk text (λ text. text ≡ compact_text json)
        → IfOk result (λ answer. answer ≡ made.json_answer 200 json) }
{
    Ok(answer_with(200, Body::Json(text?)))
}

/// The answer that gives a principal's credentials.
#[tactic(auto, using(crate::proofs::ManagementJsonLemmas::credentials_whole))]
fn credentials_answer(
    alloc: Global,
    code: u16,
    client_id: &Text,
    secret: &Text,
    name: &Plain,
) -> Result<Answer, OutOfMemory>
    ensures { IfOk result (λ answer. answer ≡ made.json_answer code
        (credentials_json client_id.now secret.now name.now)) }
{
    let json = principal_json(alloc, client_id.as_str(), secret.as_str(), name.as_str())?;
    json_answer(alloc, code, json)
}

/// The answer that gives a session's token (RFC 6749, section 5.1).
#[tactic(auto, unfolding(crate::specs::Texts::session_answer))]
fn session_answer(
    alloc: Global,
    serial: u64,
    word_a: u64,
    word_b: u64,
) -> Result<Answer, OutOfMemory>
    ensures { IfOk result (λ answer. answer ≡ spec.session_answer (text_of_token serial word_a word_b)) }
{
    let token = written_token(alloc, serial, word_a, word_b)?;
    let json = token_json(alloc, token.as_str())?;
    Ok(answer_with(200, Body::Token(text_of(alloc, &json)?)))
}

/// The text of a token.
pub(crate) fn written_token(
    alloc: Global,
    serial: u64,
    word_a: u64,
    word_b: u64,
) -> Result<String, AllocError>
    ensures { IfOk result (λ token. string_bytes token ≡ text_of_token serial word_a word_b) }
{
    String::from_utf8_lossy(alloc, &token_text(serial, word_a, word_b))
}

/// The JSON of an access token, which lasts so many seconds (RFC 6749, section 5.1).
fn token_json(alloc: Global, token: &str) -> Result<Value, AllocError>
    ensures { IfOk result (λ json. view json ≡ spec.token_json token.now) }
{
    json!(in alloc; {
        "access_token": token,
        "expires_in": SESSION_LIFE / 1000,
        "issued_token_type": "urn:ietf:params:oauth:token-type:access_token",
        "token_type": "bearer"
    })
}

/// The answer to a command that is refused. A refused token request has a body of its own kind.
fn refused_answer(alloc: Global, refusal: &Refusal) -> Result<Answer, OutOfMemory>
    ensures { IfOk result (λ answer. answer ≡ spec.refused_answer refusal.now) }
{
    let message = message_of(alloc, refusal)?;
    match kind_of(refusal) {
        Some(kind) => error_answer(alloc, status_of(refusal), message.as_str(), kind),
        None => token_error(alloc, status_of(refusal), message.as_str()),
    }
}

/// The answer to a refused token request (RFC 6749, section 5.2).
#[tactic(auto, unfolding(crate::specs::Texts::token_error))]
fn token_error(alloc: Global, code: u16, error: &str) -> Result<Answer, OutOfMemory>
    ensures { IfOk result (λ answer. answer ≡ spec.token_error code error.now) }
{
    let json = token_error_json(alloc, error)?;
    Ok(answer_with(code, Body::Json(text_of(alloc, &json)?)))
}

/// The JSON of a refused token request.
fn token_error_json(alloc: Global, error: &str) -> Result<Value, AllocError>
    ensures { IfOk result (λ json. view json ≡ spec.token_error_json error.now) }
{
    json!(in alloc; {"error": error})
}

/// The answer to a request that has no plan.
#[tactic(auto, unfolding(crate::specs::Texts::refusal_answer))]
pub fn refusal_answer(alloc: Global, refused: &RouteRefused) -> Result<Answer, OutOfMemory>
    ensures { IfOk result (λ answer. answer ≡ spec.refusal_answer refused.now) }
{
    match refused {
        RouteRefused::NoRoute => error_answer(alloc, 404, "No route", NOT_FOUND),
        RouteRefused::WrongMethod => error_answer(alloc, 405, "Wrong method", BAD_REQUEST),
        RouteRefused::Unreadable { field } => unreadable_answer(alloc, field.as_str()),
        RouteRefused::InvalidRequest => token_error(alloc, 400, "invalid_request"),
        RouteRefused::GrantType => token_error(alloc, 400, "unsupported_grant_type"),
    }
}

/// The answer to a request with a field that can't be read.
fn unreadable_answer(alloc: Global, field: &str) -> Result<Answer, OutOfMemory>
    ensures { IfOk result (λ answer. answer ≡ spec.unreadable_answer field.now) }
{
    let message = format!(in alloc; "Unreadable: {field}")?;
    error_answer(alloc, 400, message.as_str(), BAD_REQUEST)
}

/// The answer where no random word could be drawn.
#[tactic(auto, unfolding(crate::specs::Texts::draw_fault_answer))]
pub fn draw_fault_answer(alloc: Global) -> Result<Answer, OutOfMemory>
    ensures { IfOk result (λ answer. answer ≡ spec.draw_fault_answer) }
{
    error_answer(alloc, 503, "DrawFault", SERVICE_UNAVAILABLE)
}

/// The answer to a head that is refused. The connection ends after it.
#[tactic(auto, unfolding(crate::specs::Texts::head_refused_answer))]
pub fn head_refused_answer(alloc: Global, refused: HeadRefused) -> Result<Answer, OutOfMemory>
    ensures { IfOk result (λ answer. answer ≡ spec.head_refused_answer refused) }
{
    let (code, name) = match refused {
        HeadRefused::BadHead => (400, "BadHead"),
        HeadRefused::LengthNeeded => (411, "LengthNeeded"),
        HeadRefused::BodyTooLong => (413, "BodyTooLong"),
    };
    error_answer(alloc, code, name, BAD_REQUEST)
}
