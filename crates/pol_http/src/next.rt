//! The message at the front of the bytes of a connection.
ghost use Rattle.std.specs.Prelude.{◌≡◌, ℕ, ◌≤◌, ◌↔◌, List, ◌++◌, length, IsTrue, IsSome, IfSome, Ok};
ghost use Rattle.httparse.specs.Grammar.{RequestHead, ReadsRequest};
ghost use Rattle.pol_http.specs.Head.{body_length};
ghost use Rattle.pol_http.specs.Message.{Message, IsRefusedAs};
ghost use Rattle.pol_http.specs.Next.{is_whole, is_continue, IfWhole, IfContinue, BeginsWithMessage, KnowsLength, IsMessageAt, Awaits, IsUnfinished, AsksWithin, LiesWithin, Tells};
ghost use Rattle.pol_http.specs.Reading.{ReadsFront};

use crate::head::{Front, Head, HeadRefused, read_front};
use httparse::spans::Span;

/// What stands at the front of the bytes of a connection.
#[derive(Drop)]
pub enum Next {
    /// A whole message of `taken` bytes.
    Whole {
        head: Head,
        body: Span,
        taken: usize,
    },
    /// A whole head of `taken` bytes, whose sender waits for `100 Continue` before the body.
    Continue {
        taken: usize,
    },
    /// More bytes are needed.
    Partial,
    /// No message, however the bytes go on.
    Refused(HeadRefused),
}

/// Reads the message at the front of the bytes (RFC 9112, section 2.2).
pub fn next_message(bytes: &[u8]) -> Next
    ensures whole { IsTrue (is_whole result) ↔ BeginsWithMessage bytes.now }
    ensures parts { IfWhole result (λ head body taken.
        (message : Message) × IsMessageAt bytes.now head body taken message) }
    ensures ranges { IfWhole result (LiesWithin bytes.now) }

    ensures refused { (why : HeadRefused) → (result ≡ Next.Refused why) ↔ IsRefusedAs bytes.now why }

    ensures continues { IsTrue (is_continue result) ↔ Awaits bytes.now }
    ensures asked { IfContinue result (AsksWithin bytes.now) }
    ensures partial { (result ≡ Next.Partial) ↔ IsUnfinished bytes.now }
{
    completed(bytes, read_front(bytes))
}

/// The front with what the bytes behind it have of the body.
fn completed(bytes: &[u8], front: Front) -> Next
    requires { ReadsFront bytes.now front }
    ensures { Tells bytes.now result }
{
    match front {
        Front::Whole { head, taken, body } => {
            if body <= bytes.len() - taken {
                let end = taken + body;
                let body = Span { start: taken, end };
                Next::Whole {
                    head,
                    body,
                    taken: end,
                }
            } else if head.asks {
                Next::Continue { taken }
            } else {
                Next::Partial
            }
        }
        Front::Partial => Next::Partial,
        Front::Refused(why) => Next::Refused(why),
    }
}

/// How many bytes the message at the front still lacks: 0 where it is whole, and `None` where no
/// whole head is there or it is refused.
pub fn missing_bytes(bytes: &[u8]) -> Option<usize>
    ensures known { IsSome result ↔ KnowsLength bytes.now }
    ensures exact { IfSome result (λ missing. (more : List ℕ)
        → BeginsWithMessage (bytes.now ++ more) ↔ (missing ≤ length more)) }
{
    match read_front(bytes) {
        Front::Whole { taken, body, .. } => Some(body.saturating_sub(bytes.len() - taken)),
        Front::Partial => None,
        Front::Refused(_) => None,
    }
}
