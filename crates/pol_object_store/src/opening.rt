//! The objects of a journal are read: the changes of its records are made, one after another.
ghost use Rattle.std.specs.Prelude.{◌≡◌, ◌↔◌, [], ℕ, IfErr, IfOk, IsTrue, List, OnOk};
ghost use Rattle.pol_forms.specs.declared.refused.CodecRefused.TheVariants.{NoForm};
ghost use Rattle.pol_journal.specs.Journal.{IsReading, IsReady};
ghost use Rattle.pol_object_store.specs.Reading.{IsReadOn, IsReadSoFar, IsReadWhole};
ghost use Rattle.pol_object_store.specs.Reopened.{IsFitting, IsRefusedAt, IsUnfit, LeadsBy, RefusedBy, changed};
ghost use Rattle.pol_objects.specs.Objects.{total_length};

use pol_codec::{ObjectChange, read_object_change};
use pol_disk::Disk;
use pol_forms::CodecRefused;
use pol_journal::{Journal, JournalRefused};
use pol_objects::{ObjectMap, ObjectState};
use pol_shared_bytes::SharedBytes;
use pol_types::OutOfMemory;
use std::alloc::Global;

/// The state of the objects of a journal that is read to its end.
pub(crate) fn read_state<D: Disk>(
    alloc: Global,
    journal: &mut Journal<D>,
) -> Result<ObjectState, JournalRefused>
    requires reading { IsReading journal.old }
    ensures read { IfOk result (λ state. (file : List ℕ)
        → IsReadSoFar D.seen D.may_leave D.clock D.left_since D.fault_count file [] journal.old []
        → IsReadWhole D.seen D.may_leave D.clock D.left_since D.fault_count file journal.new state.objects) }
    ensures counted { IfOk result (λ state. state.counted ≡ total_length state.objects) }
    ensures ready { OnOk result (IsReady journal.new) }
    ensures refused { IfErr result (RefusedBy ⊥
        (λ at. (file : List ℕ)
        → IsReadSoFar D.seen D.may_leave D.clock D.left_since D.fault_count file [] journal.old []
        → IsRefusedAt at file)
        (D.fault_count journal.old.disk) (D.fault_count journal.new.disk)) }
    ensures on { IsReadOn D.seen D.may_leave D.clock D.left_since D.fault_count D.size journal.old journal.new }
{
    let mut objects = ObjectMap::new(alloc);
    'records: while let Some(body) = journal.next_record(alloc)? {
        let at = journal.last_gate();
        match redo(alloc, body.as_slice(), &mut objects) {
            Ok(()) => {}
            Err(CodecRefused::NoForm) => return Err(JournalRefused::BadRecord { at }),
            Err(CodecRefused::OutOfMemory) => return Err(JournalRefused::OutOfMemory),
        }
    }
    match state_of(objects) {
        Ok(state) => Ok(state),
        Err(OutOfMemory) => Err(JournalRefused::OutOfMemory),
    }
}

/// The state of these objects, of which their bytes are counted.
fn state_of(objects: ObjectMap) -> Result<ObjectState, OutOfMemory>
    ensures objects { IfOk result (λ state. state.objects ≡ objects) }
    ensures counted { IfOk result (λ state. state.counted ≡ total_length objects) }
{
    let counted = objects.total_length()?;
    Ok(ObjectState { objects, counted })
}

/// Makes the change whose form the body is, where it fits. It is `NoForm` where there is none.
fn redo(alloc: Global, body: &[u8], objects: &mut ObjectMap) -> Result<(), CodecRefused>
    ensures made { OnOk result (LeadsBy body.now objects.old objects.new) }
    ensures refused { IfErr result (λ why. why ≡ NoForm → IsUnfit body.now objects.old) }
{
    let change = read_object_change(alloc, body)?;
    if !is_fitting(alloc, objects, &change)? {
        drop(change);
        return Err(CodecRefused::NoForm);
    }
    Ok(apply(alloc, change, objects)?)
}

/// Whether a change fits: it puts an object where none is, or deletes one that is there.
fn is_fitting(
    alloc: Global,
    objects: &ObjectMap,
    change: &ObjectChange,
) -> Result<bool, OutOfMemory>
    ensures { IfOk result (λ fits. IsTrue fits ↔ IsFitting objects.now change.now) }
{
    match change {
        ObjectChange::Put { path, .. } => Ok(!objects.contains(alloc, path)?),
        ObjectChange::Delete { path } => objects.contains(alloc, path),
    }
}

/// Makes a change that fits.
fn apply(alloc: Global, change: ObjectChange, objects: &mut ObjectMap) -> Result<(), OutOfMemory>
    requires { IsFitting objects.old change }
    ensures { OnOk result (objects.new ≡ changed objects.old change) }
{
    match change {
        ObjectChange::Put { path, bytes } => {
            let bytes = SharedBytes::new(alloc, bytes)?;
            objects.insert(alloc, &path, bytes)
        }
        ObjectChange::Delete { path } => {
            objects.remove(alloc, &path)?;
            Ok(())
        }
    }
}
