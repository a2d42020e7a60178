//! Requests for objects: the access, and then the action that it allows.
ghost use Rattle.std.specs.Prelude.{◌≡◌, ◌≤◌, ◌^◌, true, IfOk};
ghost use Rattle.std.specs.Option.{option_map};
ghost use Rattle.pol_http.specs.Answer.{answer_text};
ghost use Rattle.pol_object_answers.specs.ObjectAnswers.{object_answer_of};
ghost use Rattle.pol_objects.specs.declared.action.ObjectAction.TheVariants as action;
ghost use Rattle.pol_records.specs.declared.unwritten.Unwritten.TheVariants.{Unknown};
ghost use Rattle.pol_routes.specs.Verbs.{AsksFor, verb_act};
ghost use Rattle.pol_server.specs.Actions.{action_by, tells_change};
ghost use Rattle.pol_server.specs.Handling.{HasAccessed, HasActed, IsAnsweredBy, IsReadyFor, IsTold, IsUnwrittenText, OnlyLooks};
ghost use Rattle.pol_server.specs.Stores.{KeepsCatalogue, KeepsObjects, seen_of};
ghost use Rattle.pol_server.specs.Turn.{framed};
ghost use Rattle.pol_tokens.specs.declared.token.Act.TheVariants.{Write};

use crate::message::Handled;
use crate::text::{Framing, text, unwritten_text};
use crate::{Place, Stores};
use pol_commands::Command;
use pol_disk::Disk;
use pol_object_answers::object_answer;
use pol_objects::ObjectReply;
use pol_records::Unwritten;
use pol_routes::Verb;
use pol_shared_objects::{Accessed, Acted, Objects, Permit, Stepped};
use pol_types::{Bytes, OutOfMemory};
use std::alloc::Global;

/// Asks for the access of a request for objects, and does its action where that is allowed.
pub(crate) fn access<D: Disk, O: Disk>(
    alloc: Global,
    stores: &mut Stores<D, O>,
    command: Command,
    verb: Verb,
    body: &[u8],
    framing: Framing,
) -> Handled
    requires moment { command.moment ≤ 2 ^ 62 }
    requires asks { AsksFor (verb_act verb) command.action }
    ensures accessed { HasAccessed (seen_of stores.old) (seen_of stores.new) command verb body.now framing.close
        framing.head_only result.place (option_map (λ text. text.items) result.text) }
    ensures catalogue { KeepsCatalogue D.seen D.may_leave D.clock D.left_since D.fault_count
        stores.old.catalogue stores.new.catalogue }
    ensures objects { KeepsObjects O.seen O.may_leave O.clock O.left_since O.fault_count
        stores.old.objects stores.new.objects }
{
    match stores.catalogue.access(alloc, command, &framing) {
        Accessed::Allowed { permit } => {
            act(alloc, &mut stores.objects, permit, verb, body, framing)
        }
        Accessed::Stepped(Stepped::Done { place, out }) => Handled::entered(place, out),
        Accessed::Stepped(Stepped::RunFull { out, .. }) => Handled::unentered(Some(out)),
        Accessed::Stepped(Stepped::OutOfMemory) => Handled::unentered(None),
        Accessed::Stepped(Stepped::JournalFull { .. } | Stepped::Unknown | Stepped::DiskFault) =>
            unreachable!(),
    }
}

/// Does the action of a verb by a permit.
fn act<O: Disk>(
    alloc: Global,
    objects: &mut Objects<O>,
    permit: Permit,
    verb: Verb,
    body: &[u8],
    framing: Framing,
) -> Handled
    requires { permit.act ≡ verb_act verb }
    ensures acted { HasActed objects.old.seen objects.new.seen permit.place (action_by verb permit.path body.now)
        framing.close framing.head_only result.place (option_map (λ text. text.items) result.text) }
    ensures objects { KeepsObjects O.seen O.may_leave O.clock O.left_since O.fault_count objects.old objects.new }
{
    let access = permit.place();
    match verb {
        Verb::Get => told(alloc, access, objects.get(alloc, permit), framing),
        Verb::Head => told(alloc, access, objects.head(alloc, permit), framing),
        Verb::Put => put(alloc, objects, permit, body, framing),
        Verb::Delete => delete(alloc, objects, permit, framing),
        Verb::List => told(alloc, access, objects.list(alloc, permit), framing),
    }
}

/// Puts the bytes of a body by a permit. The text of the answer to a put is made first, so that no want of memory
/// follows a change.
fn put<O: Disk>(
    alloc: Global,
    objects: &mut Objects<O>,
    permit: Permit,
    body: &[u8],
    framing: Framing,
) -> Handled
    requires { permit.act ≡ Write }
    ensures acted { HasActed objects.old.seen objects.new.seen permit.place (action.Put permit.path body.now)
        framing.close framing.head_only result.place (option_map (λ text. text.items) result.text) }
    ensures objects { KeepsObjects O.seen O.may_leave O.clock O.left_since O.fault_count objects.old objects.new }
{
    let access = permit.place();
    let Ok(ready) = Ready::of(alloc, &ObjectReply::Stored, framing) else {
        drop(permit);
        return unacted(access, None);
    };
    let Ok(bytes) = body.to_vec(alloc) else {
        drop(ready);
        drop(permit);
        return unacted(access, None);
    };
    let acted = objects.put(alloc, permit, Bytes::from(bytes));
    told_ready(alloc, access, acted, ready, framing)
}

/// Deletes by a permit. The text of the answer to a delete is made first, so that no want of memory follows a change.
fn delete<O: Disk>(
    alloc: Global,
    objects: &mut Objects<O>,
    permit: Permit,
    framing: Framing,
) -> Handled
    requires { permit.act ≡ Write }
    ensures acted { HasActed objects.old.seen objects.new.seen permit.place (action.Delete permit.path)
        framing.close framing.head_only result.place (option_map (λ text. text.items) result.text) }
    ensures objects { KeepsObjects O.seen O.may_leave O.clock O.left_since O.fault_count objects.old objects.new }
{
    let access = permit.place();
    let Ok(ready) = Ready::of(alloc, &ObjectReply::Deleted, framing) else {
        drop(permit);
        return unacted(access, None);
    };
    let acted = objects.delete(alloc, permit);
    told_ready(alloc, access, acted, ready, framing)
}

/// How an action that changes nothing is answered.
fn told(alloc: Global, access: u64, acted: Acted, framing: Framing) -> Handled
    requires { OnlyLooks acted }
    ensures { IsAnsweredBy acted access framing.close framing.head_only result.place
        (option_map (λ text. text.items) result.text) }
{
    match acted {
        Acted::Done { place, reply } => Handled {
            place: Place::Object {
                access,
                entry: place,
            },
            text: object_text(alloc, &reply, framing).ok(),
        },
        Acted::OutOfMemory => unacted(access, None),
        Acted::JournalFull { .. } | Acted::Unknown | Acted::DiskFault => unreachable!(),
    }
}

/// The texts that are made before a change, so that no want of memory follows it: that of the reply that tells it, and
/// that of a failed disk, after which it is unknown whether it was written.
#[derive(Drop)]
struct Ready {
    changed: Vec<u8>,
    unknown: Vec<u8>,
}

impl Ready {
    fn of(alloc: Global, reply: &ObjectReply, framing: Framing) -> Result<Self, OutOfMemory>
        ensures changed { IfOk result (λ ready. ready.changed.items
            ≡ answer_text (framed framing.close framing.head_only (object_answer_of reply.now))) }
        ensures unknown { IfOk result (λ ready.
            IsUnwrittenText framing.close framing.head_only Unknown ready.unknown.items) }
    {
        let unknown = unwritten_text(alloc, Unwritten::Unknown, framing)?;
        let Ok(changed) = object_text(alloc, reply, framing) else {
            drop(unknown);
            return Err(OutOfMemory);
        };
        Ok(Ready { changed, unknown })
    }
}

/// How an action is answered: by the text that is ready where it changed the objects or may have, and by that of its
/// reply where it didn't.
fn told_ready(alloc: Global, access: u64, acted: Acted, ready: Ready, framing: Framing) -> Handled
    requires changed { IsReadyFor acted framing.close framing.head_only ready.changed.items }
    requires unknown { IsUnwrittenText framing.close framing.head_only Unknown ready.unknown.items }
    ensures { IsAnsweredBy acted access framing.close framing.head_only result.place
        (option_map (λ text. text.items) result.text) }
{
    match acted {
        Acted::Done { place, reply } => Handled {
            place: Place::Object {
                access,
                entry: place,
            },
            text: text_of(alloc, &reply, ready.changed, framing),
        },
        Acted::JournalFull { length, wanted } => {
            let why = Unwritten::JournalFull { length, wanted };
            unacted(access, unwritten_text(alloc, why, framing).ok())
        }
        Acted::Unknown => unacted(access, Some(ready.unknown)),
        Acted::DiskFault => {
            unacted(
                access,
                unwritten_text(alloc, Unwritten::DiskFault, framing).ok(),
            )
        }
        Acted::OutOfMemory => unacted(access, None),
    }
}

/// The text that is ready for a reply that tells a change, or else the reply's own.
fn text_of(alloc: Global, reply: &ObjectReply, ready: Vec<u8>, framing: Framing) -> Option<Vec<u8>>
    requires { tells_change reply.now ≡ true
        → ready.items ≡ answer_text (framed framing.close framing.head_only (object_answer_of reply.now)) }
    ensures { IsTold framing.close framing.head_only reply.now (option_map (λ text. text.items) result) }
{
    match reply {
        ObjectReply::Stored | ObjectReply::Deleted => Some(ready),
        ObjectReply::Bytes { .. }
        | ObjectReply::Length { .. }
        | ObjectReply::Paths { .. }
        | ObjectReply::Refused { .. } => object_text(alloc, reply, framing).ok(),
    }
}

/// How a message is answered whose access was allowed, and whose action wasn't done.
fn unacted(access: u64, text: Option<Vec<u8>>) -> Handled
    ensures place { result.place ≡ Place.Catalogue access }
    ensures text { result.text ≡ text }
{
    Handled {
        place: Place::Catalogue(access),
        text,
    }
}

/// The text of the answer to a reply.
fn object_text(alloc: Global, reply: &ObjectReply, framing: Framing) -> Result<Vec<u8>, OutOfMemory>
    ensures { IfOk result (λ bytes. bytes.items
        ≡ answer_text (framed framing.close framing.head_only (object_answer_of reply.now))) }
{
    text(alloc, object_answer(alloc, reply)?, framing)
}
