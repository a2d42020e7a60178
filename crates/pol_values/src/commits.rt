//! What a commit makes of a table's metadata, and how a transaction is read.
ghost use Rattle.std.specs.Prelude.{◌≡◌, ◌<◌, Ok, IfErr, IfOk, string_bytes};
ghost use Rattle.pol_updates.specs.Updates.{IsRefusal};
ghost use Rattle.pol_values.specs.Commits as spec;

use crate::tables::metadata_text;
use crate::unread::Unread;
use pol_commitjson::{read_commit, read_transaction};
use pol_meta::TableMetadata;
use pol_metaread::read_table;
use pol_readers::ReadError;
use pol_updates::{ApplyRefused, Steps, TableCommit, Update, apply, first_unmet};
use std::alloc::Global;
use std::marker::Brand;
use std::sync::ledger::{Blank, Ledger};

/// The version of the metadata that is committed to.
const VERSION: u64 = 7;

/// The moment of a commit, in milliseconds since the Unix epoch.
const MOMENT: u64 = 2000;

/// How a commit to a metadata is told: by the metadata after it, by its first bad field, or by what stands against it.
pub(crate) fn commit(alloc: Global, meta: &str, body: &str) -> Result<String, Unread>
    ensures { IfOk result (λ told. spec.TellsCommit meta.now body.now (string_bytes told)) }
{
    match read_table(alloc, meta.as_bytes()) {
        Ok(meta) => body_text(alloc, &meta, body),
        Err(ReadError::Field(_)) => Err(Unread::Form),
        Err(ReadError::OutOfMemory) => Err(Unread::NoMemory),
    }
}

/// How the body of a commit is told.
fn body_text(alloc: Global, meta: &TableMetadata, body: &str) -> Result<String, Unread>
    ensures { IfOk result (λ told. spec.TellsBody meta.now body.now (string_bytes told)) }
{
    match read_commit(alloc, body.as_bytes()) {
        Ok(commit) => commit_text(alloc, meta, &commit),
        Err(ReadError::Field(path)) => Ok(format!(in alloc; "Unreadable: {path}")?),
        Err(ReadError::OutOfMemory) => Err(Unread::NoMemory),
    }
}

/// How a commit is told: its requirements before its updates.
fn commit_text(alloc: Global, meta: &TableMetadata, commit: &TableCommit) -> Result<String, Unread>
    ensures { IfOk result (λ told. spec.TellsChange meta.now commit.now (string_bytes told)) }
{
    match first_unmet(meta, commit.requirements.as_slice()) {
        Some(place) => Ok(format!(in alloc; "Unmet: {place}")?),
        None => updates_text(alloc, meta, commit.updates.as_slice()),
    }
}

/// How updates are told.
fn updates_text(alloc: Global, meta: &TableMetadata, updates: &[Update]) -> Result<String, Unread>
    ensures { IfOk result (λ told. spec.TellsUpdates meta.now updates.now (string_bytes told)) }
{
    match applied::<Brand>(alloc, Blank::new(1), meta, updates) {
        Ok(made) => metadata_text(alloc, &made),
        Err(ApplyRefused::Refused { index, why }) => {
            Ok(format!(in alloc; "Refused: {index} {why}")?)
        }
        Err(ApplyRefused::OutOfMemory) => Err(Unread::NoMemory),
    }
}

/// How the body of a transaction is told: by how many changes of tables it has, or by its first bad field.
pub(crate) fn transaction(alloc: Global, body: &str) -> Result<String, Unread>
    ensures { IfOk result (λ told. spec.TellsTransaction body.now (string_bytes told)) }
{
    match read_transaction(alloc, body.as_bytes()) {
        Ok(changes) => {
            let count = changes.len();
            Ok(format!(in alloc; "{count}")?)
        }
        Err(ReadError::Field(path)) => Ok(format!(in alloc; "Unreadable: {path}")?),
        Err(ReadError::OutOfMemory) => Err(Unread::NoMemory),
    }
}

/// The metadata after updates.
fn applied<L: Ledger>(
    alloc: Global,
    blank: Blank,
    meta: &TableMetadata,
    updates: &[Update],
) -> Result<TableMetadata, ApplyRefused>
    requires name { blank.name ≡ L.name }
    requires parts { blank.parts ≡ L.parts }
    requires some { 0 < blank.parts }
    ensures made { IfOk result (λ made. spec.after meta.now updates.now ≡ Ok made) }
    ensures refused { IfErr result (IsRefusal (spec.after meta.now updates.now)) }
{
    let mut steps = Steps::<L>::new(blank);
    apply(alloc, meta, VERSION, updates, MOMENT, &mut steps)
}
