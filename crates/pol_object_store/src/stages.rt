//! What an action does to the objects and to the records of their journal.
ghost use Rattle.std.specs.Prelude.{◌≡◌, ◌≤◌, ◌<◌, ◌+◌, ◌^◌, ◌++◌, ◌∷◌, [], length, IfErr, IfOk, IsSome, None, OnErr, OnOk, vec_capacity, vec_len};
ghost use Rattle.pol_codec.specs.Objects.{object_change};
ghost use Rattle.pol_codec.specs.declared.objects.ObjectChange.TheVariants as change;
ghost use Rattle.pol_forms.specs.Form.{IsFormOf};
ghost use Rattle.pol_objects.specs.Machine.{object_next, object_reply, put_refusal};
ghost use Rattle.pol_objects.specs.Objects.{object_at};
ghost use Rattle.pol_objects.specs.declared.action.ObjectAction.TheVariants as action;
ghost use Rattle.pol_objects.specs.declared.reply.ObjectReply.TheVariants as reply;
ghost use Rattle.pol_objects.specs.declared.rule.ObjectRule.TheVariants.{NoObject};
ghost use Rattle.pol_object_store.specs.ObjectRecords.{object_bodies, object_changes};
ghost use Rattle.pol_object_store.specs.Recorded.{AreFormedBy, IsRecorded, IsUndone, acted_by, marks_by};

use crate::undone::Undone;
use crate::{Acted, ObjectEntry};
use pol_disk::Disk;
use pol_forms::{Coder, Common, write_variant};
use pol_histories::History;
use pol_locations::Location;
use pol_objects::{ObjectAction, ObjectMap, ObjectReply, ObjectRule, ObjectState};
use pol_records::{Records, Unwritten};
use pol_shared_bytes::SharedBytes;
use pol_types::OutOfMemory;
use std::alloc::Global;

/// Makes room for one mark more, and makes sure of the room for an entry.
pub(crate) fn reserve(
    history: &History<ObjectEntry>,
    marks: &mut Vec<u64>,
) -> Result<(), OutOfMemory>
    ensures marks { marks.new.items ≡ marks.old.items }
    ensures entry { OnOk result (length history.now + 1 < 2 ^ 64) }
    ensures mark { OnOk result (vec_len marks.new < vec_capacity marks.new) }
{
    history.reserve()?;
    Ok(marks.reserve(1)?)
}

/// Does an action. A change that it makes is in the journal before it is told. Where it isn't done the objects stay.
pub(crate) fn perform<D: Disk>(
    alloc: Global,
    state: &mut ObjectState,
    records: &mut Records<D>,
    action: &ObjectAction,
) -> Result<ObjectReply, Undone>
    ensures reply { IfOk result (λ reply. reply ≡ object_reply state.old action.now) }
    ensures next { OnOk result (state.new ≡ object_next state.old action.now) }
    ensures recorded { OnOk result (IsRecorded D.seen D.may_leave D.clock D.left_since D.fault_count
        (object_bodies (object_changes state.old action.now)) records.old records.new) }
    ensures error { OnErr result (state.new ≡ state.old) }
    ensures undone { IfErr result (IsUndone D.seen D.may_leave D.clock D.left_since D.fault_count
        (object_bodies (object_changes state.old action.now)) records.old records.new) }
    ensures formed { AreFormedBy (object_changes state.old action.now) result }
    ensures kept { D.fault_count records.old.disk ≤ D.fault_count records.new.disk }
{
    match action {
        ObjectAction::Get { path } => Ok(state.get(alloc, path)?),
        ObjectAction::Head { path } => Ok(state.head(alloc, path)?),
        ObjectAction::Put { path, bytes } => put(alloc, state, records, path, bytes),
        ObjectAction::Delete { path } => delete(alloc, state, records, path),
        ObjectAction::List { path } => Ok(state.list(alloc, path)?),
    }
}

/// Puts an object, unless a rule refuses it. It is entered first, which may want memory, and taken out again where its
/// change isn't written.
fn put<D: Disk>(
    alloc: Global,
    state: &mut ObjectState,
    records: &mut Records<D>,
    path: &Location,
    bytes: &SharedBytes,
) -> Result<ObjectReply, Undone>
    ensures reply { IfOk result (λ reply. reply ≡ object_reply state.old (action.Put path.now bytes.now)) }
    ensures next { OnOk result (state.new ≡ object_next state.old (action.Put path.now bytes.now)) }
    ensures recorded { OnOk result (IsRecorded D.seen D.may_leave D.clock D.left_since D.fault_count
        (object_bodies (object_changes state.old (action.Put path.now bytes.now))) records.old records.new) }
    ensures error { OnErr result (state.new ≡ state.old) }
    ensures undone { IfErr result (IsUndone D.seen D.may_leave D.clock D.left_since D.fault_count
        (object_bodies (object_changes state.old (action.Put path.now bytes.now))) records.old records.new) }
    ensures formed { AreFormedBy (object_changes state.old (action.Put path.now bytes.now)) result }
    ensures kept { D.fault_count records.old.disk ≤ D.fault_count records.new.disk }
{
    if let Some(rule) = state.put_refusal(alloc, path, bytes)? {
        return Ok(ObjectReply::Refused { rule });
    }
    let key = ObjectMap::key(alloc, path)?;
    let body = put_body(alloc, path, bytes)?;
    state.store(alloc, path, bytes)?;
    if let Err(why) = write(records, body.as_slice()) {
        state.take_back(&key, bytes.len() as u64);
        return Err(why);
    }
    Ok(ObjectReply::Stored)
}

/// Deletes the object at a path, if there is one. It is taken away once its change is written, which takes no memory.
fn delete<D: Disk>(
    alloc: Global,
    state: &mut ObjectState,
    records: &mut Records<D>,
    path: &Location,
) -> Result<ObjectReply, Undone>
    ensures reply { IfOk result (λ reply. reply ≡ object_reply state.old (action.Delete path.now)) }
    ensures next { OnOk result (state.new ≡ object_next state.old (action.Delete path.now)) }
    ensures recorded { OnOk result (IsRecorded D.seen D.may_leave D.clock D.left_since D.fault_count
        (object_bodies (object_changes state.old (action.Delete path.now))) records.old records.new) }
    ensures error { OnErr result (state.new ≡ state.old) }
    ensures undone { IfErr result (IsUndone D.seen D.may_leave D.clock D.left_since D.fault_count
        (object_bodies (object_changes state.old (action.Delete path.now))) records.old records.new) }
    ensures formed { AreFormedBy (object_changes state.old (action.Delete path.now)) result }
    ensures kept { D.fault_count records.old.disk ≤ D.fault_count records.new.disk }
{
    if !state.objects.contains(alloc, path)? {
        return Ok(ObjectReply::Refused {
            rule: ObjectRule::NoObject,
        });
    }
    let key = ObjectMap::key(alloc, path)?;
    let body = delete_body(alloc, path)?;
    write(records, body.as_slice())?;
    state.take(&key);
    Ok(ObjectReply::Deleted)
}

/// Writes the body of a record.
fn write<D: Disk>(records: &mut Records<D>, body: &[u8]) -> Result<(), Undone>
    ensures recorded { OnOk result (IsRecorded D.seen D.may_leave D.clock D.left_since D.fault_count
        (body.now ∷ []) records.old records.new) }
    ensures undone { IfErr result (IsUndone D.seen D.may_leave D.clock D.left_since D.fault_count
        (body.now ∷ []) records.old records.new) }
    ensures kept { D.fault_count records.old.disk ≤ D.fault_count records.new.disk }
{
    match records.write(body) {
        Ok(()) => Ok(()),
        Err(why) => Err(Undone::Unwritten(why)),
    }
}

/// The form of the change that puts these bytes at a path. They are copied once.
#[tactic(auto, unfolding(pol_codec::specs::Objects::object_change, pol_forms::specs::Forms::byte_string, pol_forms::specs::Forms::number))]
fn put_body(alloc: Global, path: &Location, bytes: &SharedBytes) -> Result<Vec<u8>, OutOfMemory>
    ensures { IfOk result (λ body. IsFormOf object_change (change.Put path.now bytes.now) body.items) }
{
    let mut body = Vec::new(alloc);
    write_variant::<Location, Common>(0, path, &mut body)?;
    let length = bytes.len() as u64;
    Common::write(&length, &mut body)?;
    body.extend_from_slice(bytes.as_slice())?;
    Ok(body)
}

/// The form of the change that deletes the object at a path.
#[tactic(auto, unfolding(pol_codec::specs::Objects::object_change))]
fn delete_body(alloc: Global, path: &Location) -> Result<Vec<u8>, OutOfMemory>
    ensures { IfOk result (λ body. IsFormOf object_change (change.Delete path.now) body.items) }
{
    let mut body = Vec::new(alloc);
    write_variant::<Location, Common>(1, path, &mut body)?;
    Ok(body)
}

/// What is told of an action that wasn't done. A mark of the pass is made where the disk failed.
pub(crate) fn undone(marks: &mut Vec<u64>, number: u64, why: Undone) -> Acted
    requires { vec_len marks.old < vec_capacity marks.old }
    ensures marks { marks.new.items ≡ marks.old.items ++ marks_by why number }
    ensures told { result ≡ acted_by why }
{
    match why {
        Undone::Unwritten(Unwritten::JournalFull { length, wanted }) => {
            Acted::JournalFull { length, wanted }
        }
        Undone::Unwritten(Unwritten::Unknown) => {
            marks.push_reserved(number);
            Acted::Unknown
        }
        Undone::Unwritten(Unwritten::DiskFault) => {
            marks.push_reserved(number);
            Acted::DiskFault
        }
        Undone::OutOfMemory => Acted::OutOfMemory,
    }
}
