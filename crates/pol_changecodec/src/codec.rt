//! The bytes of a list of changes, which are the body of a record.
ghost use Rattle.std.specs.Prelude.{◌≡◌, IfErr, IfOk};
ghost use Rattle.std.specs.List.{AllByRecursion};
ghost use Rattle.pol_changecodec.specs.Change as spec;
ghost use Rattle.pol_forms.specs.Form.{IsFormOf};
ghost use Rattle.pol_forms.specs.Refused.{IsCodecRefusal};

use crate::Changes;
use pol_content::Change;
use pol_forms::{CodecRefused, ListOf, read_whole, write_list};
use pol_types::{Listed, OutOfMemory};
use std::alloc::Global;

/// What is written of these changes. It is their form where each table and each view that is put has a valid metadata.
pub fn write_changes(alloc: Global, changes: &[Change]) -> Result<Vec<u8>, OutOfMemory>
    ensures bytes { IfOk result (λ bytes. bytes.items ≡ spec.changes.write changes.now) }
    ensures form { IfOk result (λ bytes. AllByRecursion spec.IsSoundChange changes.now
        → IsFormOf spec.changes changes.now bytes.items) }
{
    let mut written = Vec::new(alloc);
    write_list::<Change, Changes>(changes, &mut written)?;
    Ok(written)
}

/// The changes whose form the bytes are. It answers `NoForm` exactly where they are the form of no list of changes.
pub fn read_changes(alloc: Global, bytes: &[u8]) -> Result<Vec<Change>, CodecRefused>
    ensures changes { IfOk result (λ changes. IsFormOf spec.changes changes.items bytes.now) }
    ensures refused { IfErr result (IsCodecRefusal spec.changes bytes.now) }
{
    let changes: Listed<Change> = read_whole::<Listed<Change>, ListOf<Changes>>(alloc, bytes)?;
    Ok(Vec::from(changes))
}
