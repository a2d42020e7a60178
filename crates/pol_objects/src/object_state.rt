ghost use Rattle.std.specs.Prelude.{◌≡◌, ◌≤◌, [], ℕ, IfOk, List, None, OnErr, OnOk, length};
ghost use Rattle.pol_locations.specs.Location.{location_text};
ghost use Rattle.pol_objects.specs.Objects.{IsKey};
ghost use Rattle.pol_objects.specs.Rules.{size_refusal};
ghost use Rattle.pol_objects.specs.declared.action.ObjectAction.TheVariants as action;
ghost use Rattle.pol_objects.specs.declared.object_state.ObjectState.{ObjectState};
ghost use Rattle.pol_objects.specs.declared.reply.ObjectReply.TheVariants as reply;
ghost use Rattle.pol_objects.specs.declared.rule.ObjectRule.TheVariants.{NoObject};

use crate::{ObjectMap, ObjectReply, ObjectRule};
use pol_locations::Location;
use pol_shared_bytes::SharedBytes;
use pol_types::{OutOfMemory, Text};
use std::alloc::Global;

/// The most bytes that an object has.
const MAX_LENGTH: u64 = 8_388_608;

/// The most bytes that are counted.
const MAX_COUNTED: u64 = 268_435_456;

/// The state of the object machine: the objects, and how many bytes are counted, which are those of the objects at
/// the beginning and of all that were put since.
#[derive(Drop)]
pub struct ObjectState {
    pub objects: ObjectMap,
    pub counted: u64,
}

impl ObjectState {
    ghost use Rattle.pol_objects.specs.Machine.{object_next, object_reply, put_refusal, stored};

    /// No objects, and none counted.
    pub fn empty(alloc: Global) -> Self
        ensures objects { result.objects ≡ [] }
        ensures counted { result.counted ≡ 0 }
    {
        ObjectState {
            objects: ObjectMap::new(alloc),
            counted: 0,
        }
    }

    /// The bytes of the object at this path. They have one owner more, and the state stays.
    pub fn get(&mut self, alloc: Global, path: &Location) -> Result<ObjectReply, OutOfMemory>
        ensures reply { IfOk result (λ reply. reply ≡ object_reply self.old (action.Get path.now)) }
        ensures kept { self.new ≡ self.old }
    {
        let Some(bytes) = self.objects.get(alloc, path)? else {
            return Ok(no_object());
        };
        Ok(ObjectReply::Bytes { bytes })
    }

    /// How many bytes the object at this path has.
    pub fn head(&self, alloc: Global, path: &Location) -> Result<ObjectReply, OutOfMemory>
        ensures { IfOk result (λ reply. reply ≡ object_reply self.now (action.Head path.now)) }
    {
        let Some(length) = self.objects.length(alloc, path)? else {
            return Ok(no_object());
        };
        Ok(ObjectReply::Length {
            length: length as u64,
        })
    }

    /// Adds an object, unless a rule refuses it. All memory is taken before anything changes.
    pub fn put(
        &mut self,
        alloc: Global,
        path: &Location,
        bytes: &SharedBytes,
    ) -> Result<ObjectReply, OutOfMemory>
        ensures reply { IfOk result (λ reply. reply ≡ object_reply self.old (action.Put path.now bytes.now)) }
        ensures next { OnOk result (self.new ≡ object_next self.old (action.Put path.now bytes.now)) }
        ensures error { OnErr result (self.new ≡ self.old) }
    {
        if let Some(rule) = self.put_refusal(alloc, path, bytes)? {
            return Ok(ObjectReply::Refused { rule });
        }
        self.store(alloc, path, bytes)?;
        Ok(ObjectReply::Stored)
    }

    /// Takes the object at this path away. What is counted stays.
    pub fn delete(&mut self, alloc: Global, path: &Location) -> Result<ObjectReply, OutOfMemory>
        ensures reply { IfOk result (λ reply. reply ≡ object_reply self.old (action.Delete path.now)) }
        ensures next { OnOk result (self.new ≡ object_next self.old (action.Delete path.now)) }
        ensures error { OnErr result (self.new ≡ self.old) }
    {
        if !self.objects.remove(alloc, path)? {
            return Ok(no_object());
        }
        Ok(ObjectReply::Deleted)
    }

    /// The paths of the objects that this path covers, in byte order of their texts.
    pub fn list(&self, alloc: Global, path: &Location) -> Result<ObjectReply, OutOfMemory>
        ensures { IfOk result (λ reply. reply ≡ object_reply self.now (action.List path.now)) }
    {
        Ok(ObjectReply::Paths {
            paths: self.objects.paths_under(alloc, path)?,
        })
    }

    /// The first rule that refuses a put.
    pub fn put_refusal(
        &self,
        alloc: Global,
        path: &Location,
        bytes: &SharedBytes,
    ) -> Result<Option<ObjectRule>, OutOfMemory>
        ensures { IfOk result (λ refusal. refusal ≡ put_refusal self.now path.now bytes.now) }
    {
        if self.objects.contains(alloc, path)? {
            return Ok(Some(ObjectRule::ObjectThere));
        }
        Ok(size_refusal(self.counted, bytes.len()))
    }

    /// Adds an object that no rule refuses. The step that can fail for want of memory is the last but one, and
    /// nothing has changed before it.
    pub fn store(
        &mut self,
        alloc: Global,
        path: &Location,
        bytes: &SharedBytes,
    ) -> Result<(), OutOfMemory>
        requires { put_refusal self.old path.now bytes.now ≡ None }
        ensures stored { OnOk result (self.new ≡ stored self.old path.now bytes.now) }
        ensures error { OnErr result (self.new ≡ self.old) }
    {
        self.objects.insert(alloc, path, bytes.clone()?)?;
        self.counted += bytes.len() as u64;
        Ok(())
    }

    /// Takes the object whose path has this text away, as a delete does. It takes no memory.
    pub fn take(&mut self, key: &Text)
        requires { IsKey key.now }
        ensures { (path : List (List ℕ)) → key.now ≡ location_text path
            → self.new ≡ object_next self.old (action.Delete path) }
    {
        self.objects.take(key);
    }

    /// Takes an object of so many bytes that was just added, whose path has this text, out again: the state is the one
    /// before it was added. It takes no memory.
    pub fn take_back(&mut self, key: &Text, count: u64)
        requires key { IsKey key.now }
        requires counted { count ≤ self.old.counted }
        ensures { (before : ObjectState) (path : List (List ℕ)) (bytes : List ℕ) → key.now ≡ location_text path
            → count ≡ length bytes → put_refusal before path bytes ≡ None → self.old ≡ stored before path bytes
            → self.new ≡ before }
    {
        self.objects.take(key);
        self.counted -= count;
    }
}

/// The rule that refuses an object by its length, where so many bytes are counted already.
fn size_refusal(counted: u64, length: usize) -> Option<ObjectRule>
    ensures { result ≡ size_refusal counted length }
{
    let length = length as u64;
    if length > MAX_LENGTH {
        return Some(ObjectRule::TooLong { length });
    }
    let counted = counted.saturating_add(length);
    if counted > MAX_COUNTED {
        return Some(ObjectRule::SpaceFull { counted });
    }
    None
}

fn no_object() -> ObjectReply
    ensures { result ≡ reply.Refused NoObject }
{
    ObjectReply::Refused {
        rule: ObjectRule::NoObject,
    }
}
