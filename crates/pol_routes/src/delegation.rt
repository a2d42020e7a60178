//! Whether a request asks for a storage token (Iceberg REST OpenAPI, parameter X-Iceberg-Access-Delegation).
ghost use Rattle.std.specs.Prelude.{◌≡◌, length};
ghost use Rattle.httparse.specs.Grammar.{RequestHead};
ghost use Rattle.pol_http.specs.Head.{IsHeadOf, IsHeadWithin, fields_of};
ghost use Rattle.pol_routes.specs.Delegation as spec;

use pol_http::{Head, lists};
use pol_requests::{Endpoint, TableRequest};

/// The name of the field, and the word by which it asks for a token.
const FIELD: &[u8] = b"x-iceberg-access-delegation";

const VENDED: &[u8] = b"vended-credentials";

/// How many random words a storage token is made of.
const TOKEN_WORDS: u8 = 2;

/// Whether the fields of this head ask for a storage token.
pub(crate) fn is_delegated(bytes: &[u8], head: &Head) -> bool
    requires { IsHeadWithin (length bytes.now) head.now }
    ensures { (request : RequestHead) → IsHeadOf bytes.now head.now request
        → result ≡ spec.is_delegated (fields_of request) }
{
    lists(bytes, &head.fields[..head.count], FIELD, VENDED)
}

/// How many random words a request draws, of which so many are drawn where it isn't delegated.
pub(crate) fn words_drawn(endpoint: Endpoint, delegated: bool, words: u8) -> u8
    ensures { result ≡ spec.words_drawn endpoint delegated words }
{
    match endpoint {
        Endpoint::Table(asked) => on_table_drawn(asked, delegated, words),
        Endpoint::OpenSession
        | Endpoint::Content(_)
        | Endpoint::Namespace(_)
        | Endpoint::View(_)
        | Endpoint::Catalog(_)
        | Endpoint::Principal(_)
        | Endpoint::PrincipalRole(_)
        | Endpoint::CatalogRole(_)
        | Endpoint::Object(_) => words,
    }
}

fn on_table_drawn(asked: TableRequest, delegated: bool, words: u8) -> u8
    ensures { result ≡ spec.on_table_drawn asked delegated words }
{
    match asked {
        TableRequest::LoadTable => if_delegated(delegated, words),
        TableRequest::LoadCredentials
        | TableRequest::HeadTable
        | TableRequest::CommitTable
        | TableRequest::DropTable
        | TableRequest::ReportMetrics => words,
    }
}

fn if_delegated(delegated: bool, words: u8) -> u8
    ensures { result ≡ spec.if_delegated delegated words }
{
    if delegated { TOKEN_WORDS } else { words }
}
