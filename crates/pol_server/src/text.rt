//! The texts of answers, framed as their requests ask.
ghost use Rattle.std.specs.Prelude.{◌≡◌, IfOk};
ghost use Rattle.pol_http.specs.Answer.{answer_text};
ghost use Rattle.pol_answers.specs.Texts as text;
ghost use Rattle.pol_server.specs.Handling.{IsUnwrittenText};
ghost use Rattle.pol_server.specs.Link.{refused_text};
ghost use Rattle.pol_server.specs.Turn.{framed, unwritten_answer};

use pol_answers::{answer_of, draw_fault_answer, head_refused_answer, refusal_answer};
use pol_commands::Reply;
use pol_http::{Answer, HeadRefused, write_answer};
use pol_json_answers::error_answer;
use pol_records::Unwritten;
use pol_requests::RouteRefused;
use pol_shared_objects::Render;
use pol_types::OutOfMemory;
use std::alloc::Global;

/// The type of an error of a service that can't answer for now.
const UNAVAILABLE: &str = "ServiceUnavailableException";

/// What the text of an answer takes from its request: whether the connection ends after it, and whether the
/// request was HEAD.
#[derive(Clone, Copy)]
pub(crate) struct Framing {
    pub close: bool,
    pub head_only: bool,
}

impl Render for Framing {
    type Out = Vec<u8>;

    ghost renders = { λ framing reply out. out.items
        ≡ answer_text (framed framing.close framing.head_only (text.answer_of reply)) };

    fn render(&self, alloc: Global, reply: &Reply) -> Result<Vec<u8>, OutOfMemory> {
        text(alloc, answer_of(alloc, reply)?, *self)
    }
}

/// The bytes of an answer to a request of this framing.
pub(crate) fn text(alloc: Global, answer: Answer, framing: Framing) -> Result<Vec<u8>, OutOfMemory>
    ensures { IfOk result (λ bytes. bytes.items ≡ answer_text (framed framing.close framing.head_only answer)) }
{
    let answer = Answer {
        status: answer.status,
        body: answer.body,
        close: framing.close,
        head_only: framing.head_only,
    };
    write_answer(alloc, &answer)
}

/// The text of a refusal.
pub(crate) fn refusal_text(
    alloc: Global,
    refused: &RouteRefused,
    framing: Framing,
) -> Result<Vec<u8>, OutOfMemory>
    ensures { IfOk result (λ bytes. bytes.items
        ≡ answer_text (framed framing.close framing.head_only (text.refusal_answer refused.now))) }
{
    text(alloc, refusal_answer(alloc, refused)?, framing)
}

/// The text of a refused head, after which the connection ends.
pub(crate) fn head_refused_text(alloc: Global, why: HeadRefused) -> Result<Vec<u8>, OutOfMemory>
    ensures { IfOk result (λ bytes. bytes.items ≡ refused_text why) }
{
    let framing = Framing {
        close: true,
        head_only: false,
    };
    text(alloc, head_refused_answer(alloc, why)?, framing)
}

/// The text where no random word could be drawn.
pub(crate) fn draw_fault_text(alloc: Global, framing: Framing) -> Result<Vec<u8>, OutOfMemory>
    ensures { IfOk result (λ bytes. bytes.items
        ≡ answer_text (framed framing.close framing.head_only text.draw_fault_answer)) }
{
    text(alloc, draw_fault_answer(alloc)?, framing)
}

/// The text that tells why a change wasn't written.
pub(crate) fn unwritten_text(
    alloc: Global,
    why: Unwritten,
    framing: Framing,
) -> Result<Vec<u8>, OutOfMemory>
    ensures { IfOk result (λ bytes. IsUnwrittenText framing.close framing.head_only why bytes.items) }
{
    text(alloc, unwritten_answer(alloc, why)?, framing)
}

/// The answer that tells why a change wasn't written.
#[tactic(auto, unfolding(crate::specs::Turn::unwritten_answer))]
fn unwritten_answer(alloc: Global, why: Unwritten) -> Result<Answer, OutOfMemory>
    ensures { IfOk result (λ answer. answer ≡ unwritten_answer why) }
{
    match why {
        Unwritten::JournalFull { .. } => error_answer(alloc, 503, "JournalFull", UNAVAILABLE),
        Unwritten::Unknown => error_answer(alloc, 500, "Unknown", "CommitStateUnknownException"),
        Unwritten::DiskFault => error_answer(alloc, 503, "DiskFault", UNAVAILABLE),
    }
}
