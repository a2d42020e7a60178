//! The status, the message and the type of each refusal of a command.
ghost use Rattle.std.specs.Prelude.{◌≡◌, IfOk, option_map, string_bytes};
ghost use Rattle.pol_answers.specs.Refusals as spec;

use pol_commands::Refusal;
use std::alloc::{AllocError, Global};

pub(crate) const BAD_REQUEST: &str = "BadRequestException";

pub(crate) const NOT_FOUND: &str = "NotFoundException";

pub(crate) const SERVICE_UNAVAILABLE: &str = "ServiceUnavailableException";

const UNSUPPORTED_OPERATION: &str = "UnsupportedOperationException";

const ALREADY_EXISTS: &str = "AlreadyExistsException";

const COMMIT_FAILED: &str = "CommitFailedException";

const FORBIDDEN: &str = "ForbiddenException";

const NAMESPACE_NOT_EMPTY: &str = "NamespaceNotEmptyException";

const NO_SUCH_NAMESPACE: &str = "NoSuchNamespaceException";

const NO_SUCH_TABLE: &str = "NoSuchTableException";

const NO_SUCH_VIEW: &str = "NoSuchViewException";

const NOT_AUTHORIZED: &str = "NotAuthorizedException";

const TOO_MANY_REQUESTS: &str = "TooManyRequestsException";

const UNPROCESSABLE_ENTITY: &str = "UnprocessableEntityException";

/// The status of the answer to a refusal.
pub(crate) fn status_of(refusal: &Refusal) -> u16
    ensures { result ≡ spec.status_of refusal.now }
{
    match refusal {
        Refusal::InvalidScope
        | Refusal::TableTwice { .. }
        | Refusal::UpdateRefused { .. }
        | Refusal::BadLocation { .. }
        | Refusal::LocationOutside { .. }
        | Refusal::LocationOverlap { .. }
        | Refusal::Limit { .. }
        | Refusal::Reserved { .. } => 400,
        Refusal::InvalidClient | Refusal::Unauthenticated | Refusal::TokenUnknown => 401,
        Refusal::Forbidden { .. } | Refusal::NotCovered | Refusal::NotWritable => 403,
        Refusal::NoCatalogue { .. }
        | Refusal::NoNamespace { .. }
        | Refusal::NoTable { .. }
        | Refusal::NoView { .. }
        | Refusal::NoSuchRole { .. } => 404,
        Refusal::Unsupported { .. } => 406,
        Refusal::NameTaken { .. } | Refusal::NotEmpty { .. } | Refusal::RequirementFailed { .. } =>
            { 409 }
        Refusal::KeyTwice { .. } => 422,
        Refusal::TooManyTokens { .. } => 429,
        Refusal::RunFull { .. } => 503,
    }
}

/// The type of the error that a refusal is, unless a token request is refused.
pub(crate) fn kind_of(refusal: &Refusal) -> Option<&'static str>
    ensures { option_map (λ kind. kind.now) result ≡ spec.kind_of refusal.now }
{
    match refusal {
        Refusal::InvalidClient | Refusal::InvalidScope => None,
        Refusal::Unauthenticated | Refusal::TokenUnknown => Some(NOT_AUTHORIZED),
        Refusal::NoCatalogue { .. } => Some(NOT_FOUND),
        Refusal::Forbidden { .. } | Refusal::NotCovered | Refusal::NotWritable => Some(FORBIDDEN),
        Refusal::NoNamespace { .. } => Some(NO_SUCH_NAMESPACE),
        Refusal::NoTable { .. } => Some(NO_SUCH_TABLE),
        Refusal::NoView { .. } => Some(NO_SUCH_VIEW),
        Refusal::NoSuchRole { .. } => Some(NOT_FOUND),
        Refusal::NameTaken { .. } => Some(ALREADY_EXISTS),
        Refusal::NotEmpty { .. } => Some(NAMESPACE_NOT_EMPTY),
        Refusal::KeyTwice { .. } => Some(UNPROCESSABLE_ENTITY),
        Refusal::RequirementFailed { .. } => Some(COMMIT_FAILED),
        Refusal::TableTwice { .. }
        | Refusal::UpdateRefused { .. }
        | Refusal::BadLocation { .. }
        | Refusal::LocationOutside { .. }
        | Refusal::LocationOverlap { .. }
        | Refusal::Limit { .. }
        | Refusal::Reserved { .. } => Some(BAD_REQUEST),
        Refusal::TooManyTokens { .. } => Some(TOO_MANY_REQUESTS),
        Refusal::Unsupported { .. } => Some(UNSUPPORTED_OPERATION),
        Refusal::RunFull { .. } => Some(SERVICE_UNAVAILABLE),
    }
}

/// The message that tells a refusal.
pub fn message_of(alloc: Global, refusal: &Refusal) -> Result<String, AllocError>
    ensures { IfOk result (λ message. string_bytes message ≡ spec.message_of refusal.now) }
{
    match refusal {
        Refusal::RunFull { charged, charge } => format!(in alloc;
            "RunFull: {charged} and {charge}"
        ),
        Refusal::InvalidClient => format!(in alloc; "invalid_client"),
        Refusal::InvalidScope => format!(in alloc; "invalid_scope"),
        Refusal::Unauthenticated => format!(in alloc; "Unauthenticated"),
        Refusal::NoCatalogue { name } => format!(in alloc; "NoCatalogue: {name}"),
        Refusal::Forbidden {
            privilege,
            securable,
        } => format!(in alloc; "Forbidden: {privilege} on {securable}"),
        Refusal::NoNamespace { namespace } => format!(in alloc; "NoNamespace: {namespace}"),
        Refusal::NoTable { identifier } => format!(in alloc; "NoTable: {identifier}"),
        Refusal::NoView { identifier } => format!(in alloc; "NoView: {identifier}"),
        Refusal::NoSuchRole { name } => format!(in alloc; "NoSuchRole: {name}"),
        Refusal::NameTaken { name } => format!(in alloc; "NameTaken: {name}"),
        Refusal::NotEmpty { name } => format!(in alloc; "NotEmpty: {name}"),
        Refusal::KeyTwice { key } => format!(in alloc; "KeyTwice: {key}"),
        Refusal::TableTwice { first, second } => format!(in alloc;
            "TableTwice: {first} and {second}"
        ),
        Refusal::RequirementFailed { table, requirement } => format!(in alloc;
            "Requirement {requirement} of table {table} failed"
        ),
        Refusal::UpdateRefused { table, update, why } => format!(in alloc;
            "Update {update} of table {table} refused: {why}"
        ),
        Refusal::BadLocation { table, why } => format!(in alloc;
            "BadLocation of table {table}: {why}"
        ),
        Refusal::LocationOutside { location } => format!(in alloc; "LocationOutside: {location}"),
        Refusal::LocationOverlap { location, other } => format!(in alloc;
            "LocationOverlap: {location} and {other}"
        ),
        Refusal::TooManyTokens { live } => format!(in alloc; "TooManyTokens: {live}"),
        Refusal::Unsupported { name } => format!(in alloc; "Unsupported: {name}"),
        Refusal::Limit { quantity, bound } => format!(in alloc; "Limit: {quantity} {bound}"),
        Refusal::Reserved { name } => format!(in alloc; "Reserved: {name}"),
        Refusal::TokenUnknown => format!(in alloc; "TokenUnknown"),
        Refusal::NotCovered => format!(in alloc; "NotCovered"),
        Refusal::NotWritable => format!(in alloc; "NotWritable"),
    }
}
