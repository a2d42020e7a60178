//! What a request does with objects.
ghost use Rattle.std.specs.Prelude.{◌≡◌};
ghost use Rattle.pol_routes.specs.Verbs as spec;

use pol_requests::{Endpoint, ObjectRequest};

/// What a request does with an object, or with those below a path. A put and a delete write.
#[derive(Clone, Copy, PartialEq, Eq)]
pub enum Verb {
    /// To give its bytes.
    Get,
    /// To tell how many bytes it has.
    Head,
    /// To store the bytes of the body.
    Put,
    Delete,
    List,
}

/// What requests of this kind do with objects, if they are for objects.
pub(crate) fn verb_of(endpoint: Endpoint) -> Option<Verb>
    ensures { result ≡ spec.verb_of endpoint }
{
    match endpoint {
        Endpoint::Object(asked) => Some(object_verb(asked)),
        Endpoint::OpenSession
        | Endpoint::Content(_)
        | Endpoint::Namespace(_)
        | Endpoint::Table(_)
        | Endpoint::View(_)
        | Endpoint::Catalog(_)
        | Endpoint::Principal(_)
        | Endpoint::PrincipalRole(_)
        | Endpoint::CatalogRole(_) => None,
    }
}

fn object_verb(asked: ObjectRequest) -> Verb
    ensures { result ≡ spec.object_verb asked }
{
    match asked {
        ObjectRequest::GetObject => Verb::Get,
        ObjectRequest::HeadObject => Verb::Head,
        ObjectRequest::PutObject => Verb::Put,
        ObjectRequest::DeleteObject => Verb::Delete,
        ObjectRequest::ListObjects => Verb::List,
    }
}
