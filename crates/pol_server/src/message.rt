//! One message, from its plan to the text of its answer.
ghost use Rattle.std.specs.Prelude.{◌≡◌, ◌≤◌, ◌^◌, ⊤, None, Ok, Some, codes, length};
ghost use Rattle.std.specs.Option.{option_map};
ghost use Rattle.std.specs.Str.{bytes_eq};
ghost use Rattle.httparse.specs.Spans.{span_bytes, IsWithin};
ghost use Rattle.pol_http.specs.Head.{closes};
ghost use Rattle.pol_http.specs.Message.{Message};
ghost use Rattle.pol_http.specs.Next.{IsMessageAt, LiesWithin};
ghost use Rattle.pol_records.specs.declared.unwritten.Unwritten.TheVariants.{Unknown};
ghost use Rattle.pol_routes.specs.Plan.{plan_of};
ghost use Rattle.pol_routes.specs.Verbs.{IsActionOf};
ghost use Rattle.pol_server.specs.Handling.{Handles, IsEntered, IsSteppedTo, IsUnplannedAs, IsUnwrittenText};
ghost use Rattle.pol_server.specs.Stores.{KeepsCatalogue, KeepsObjects, seen_of};
ghost use Rattle.pol_server.specs.Turn.{is_head};

use crate::ends::{Linked, draw_words};
use crate::objects::access;
use crate::text::{Framing, draw_fault_text, refusal_text, unwritten_text};
use crate::{Place, Stores};
use httparse::spans::Span;
use pol_commands::Command;
use pol_disk::Disk;
use pol_http::Head;
use pol_records::Unwritten;
use pol_requests::Unplanned;
use pol_routes::{Planned, Routes, command_of, plan};
use pol_shared_objects::{Shared, Stepped};
use std::alloc::Global;

/// How a message was answered: its place in the history, and the bytes of its answer, unless memory was wanting.
#[derive(Drop)]
pub(crate) struct Handled {
    pub place: Place,
    pub text: Option<Vec<u8>>,
}

impl Handled {
    /// Of a command that was entered at this place, and answered so.
    pub(crate) fn entered(place: u64, text: Vec<u8>) -> Self
        ensures place { result.place ≡ Place.Catalogue place }
        ensures text { option_map (λ text. text.items) result.text ≡ Some text.items }
    {
        Handled {
            place: Place::Catalogue(place),
            text: Some(text),
        }
    }

    /// Of a message of which nothing was entered.
    pub(crate) fn unentered(text: Option<Vec<u8>>) -> Self
        ensures place { result.place ≡ Place.NoEntry }
        ensures text { result.text ≡ text }
    {
        Handled {
            place: Place::NoEntry,
            text,
        }
    }
}

/// The framing of the request with this head.
fn framing_of(bytes: &[u8], head: &Head) -> Framing
    requires { IsWithin (length bytes.now) head.now.method }
    ensures close { result.close ≡ head.now.closes }
    ensures head_only { result.head_only ≡ bytes_eq (span_bytes bytes.now head.now.method) (codes "HEAD") }
{
    let method = &bytes[head.method.start..head.method.end];
    Framing {
        close: head.closes,
        head_only: method == b"HEAD".as_slice(),
    }
}

/// Handles the message of which these are the ranges: plans it, reads the clock and draws the words that its plan
/// asks for, and steps its command.
pub(crate) fn handle<D: Disk, O: Disk, L: Linked>(
    alloc: Global,
    routes: &Routes,
    stores: &mut Stores<D, O>,
    link: &mut L,
    bytes: &[u8],
    head: &Head,
    body: Span,
) -> Handled
    requires { LiesWithin bytes.now head.now body body.end }
    ensures handles { (message : Message) → IsMessageAt bytes.now head.now body body.end message
        → Handles (L.ends link.old) (L.ends link.new) (seen_of stores.old) (seen_of stores.new) message result.place
        (option_map (λ text. text.items) result.text) }
    ensures catalogue { KeepsCatalogue D.seen D.may_leave D.clock D.left_since D.fault_count
        stores.old.catalogue stores.new.catalogue }
    ensures objects { KeepsObjects O.seen O.may_leave O.clock O.left_since O.fault_count
        stores.old.objects stores.new.objects }
{
    let framing = framing_of(bytes, head);
    match plan(alloc, routes, bytes, head, body) {
        Ok(planned) => {
            let body = &bytes[body.start..body.end];
            answer_plan(alloc, stores, link, planned, body, framing)
        }
        Err(why) => unplanned(alloc, &why, framing),
    }
}

/// How a message is answered that has no plan.
fn unplanned(alloc: Global, why: &Unplanned, framing: Framing) -> Handled
    ensures { IsUnplannedAs why.now framing.close framing.head_only result.place
        (option_map (λ text. text.items) result.text) }
{
    match why {
        Unplanned::Refused(refused) => {
            Handled::unentered(refusal_text(alloc, refused, framing).ok())
        }
        Unplanned::OutOfMemory => Handled::unentered(None),
    }
}

/// Answers a message by its plan, and by the bytes of its body.
fn answer_plan<D: Disk, O: Disk, L: Linked>(
    alloc: Global,
    stores: &mut Stores<D, O>,
    link: &mut L,
    planned: Planned,
    body: &[u8],
    framing: Framing,
) -> Handled
    requires { IsActionOf planned.verb planned.action }
    ensures handles { (message : Message) → plan_of message ≡ Ok planned → message.body ≡ body.now
        → framing.close ≡ closes message.head → framing.head_only ≡ is_head message
        → Handles (L.ends link.old) (L.ends link.new) (seen_of stores.old) (seen_of stores.new) message result.place
        (option_map (λ text. text.items) result.text) }
    ensures catalogue { KeepsCatalogue D.seen D.may_leave D.clock D.left_since D.fault_count
        stores.old.catalogue stores.new.catalogue }
    ensures objects { KeepsObjects O.seen O.may_leave O.clock O.left_since O.fault_count
        stores.old.objects stores.new.objects }
{
    let moment = link.now();
    let verb = planned.verb;
    match draw_words(link, planned.words) {
        Ok(words) => {
            let command = command_of(planned, moment, words);
            match verb {
                None => step(alloc, &mut stores.catalogue, command, framing),
                Some(verb) => access(alloc, stores, command, verb, body, framing),
            }
        }
        Err(_) => {
            drop(planned);
            Handled::unentered(draw_fault_text(alloc, framing).ok())
        }
    }
}

/// Steps a command. The text that it is unknown whether its changes were written is made first, so that no want of
/// memory follows a change.
fn step<D: Disk>(
    alloc: Global,
    catalogue: &mut Shared<D>,
    command: Command,
    framing: Framing,
) -> Handled
    requires { command.moment ≤ 2 ^ 62 }
    ensures entered { IsEntered (λ _. ⊤) catalogue.old.seen catalogue.new.seen command framing.close framing.head_only
        result.place (option_map (λ text. text.items) result.text) }
    ensures catalogue { KeepsCatalogue D.seen D.may_leave D.clock D.left_since D.fault_count
        catalogue.old catalogue.new }
{
    let Ok(unknown) = unwritten_text(alloc, Unwritten::Unknown, framing) else {
        drop(command);
        return Handled::unentered(None);
    };
    let stepped = catalogue.step(alloc, command, &framing);
    answered(alloc, stepped, unknown, framing)
}

/// How a command that came to this is answered, by the text that is ready where it is unknown whether its changes were
/// written.
fn answered(alloc: Global, stepped: Stepped<Vec<u8>>, unknown: Vec<u8>, framing: Framing) -> Handled
    requires { IsUnwrittenText framing.close framing.head_only Unknown unknown.items }
    ensures { IsSteppedTo stepped framing.close framing.head_only result.place
        (option_map (λ text. text.items) result.text) }
{
    match stepped {
        Stepped::Done { place, out } => Handled::entered(place, out),
        Stepped::RunFull { out, .. } => Handled::unentered(Some(out)),
        Stepped::JournalFull { length, wanted } => {
            let why = Unwritten::JournalFull { length, wanted };
            Handled::unentered(unwritten_text(alloc, why, framing).ok())
        }
        Stepped::Unknown => Handled::unentered(Some(unknown)),
        Stepped::DiskFault => {
            Handled::unentered(unwritten_text(alloc, Unwritten::DiskFault, framing).ok())
        }
        Stepped::OutOfMemory => Handled::unentered(None),
    }
}
