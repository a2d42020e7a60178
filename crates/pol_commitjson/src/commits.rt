ghost use Rattle.std.specs.Prelude.{IfOk};
ghost use Rattle.pol_readers.specs.Forms as form;
ghost use Rattle.pol_readers.specs.Reading.{Gives};
ghost use Rattle.pol_commitjson.specs.Commits as spec;

use crate::asked::{Asked, parts};
use crate::keys;
use pol_names::Identifier;
use pol_readers::{Form, ReadError, field, object, read_body};
use pol_requirements::Requirement;
use pol_types::Listed;
use pol_updates::{TableChange, TableCommit, Update};
use serde_json::Value;
use std::alloc::Global;

/// Reads a body that commits to a table (Iceberg REST OpenAPI, CommitTableRequest). Its requirements are tested before
/// its updates.
#[tactic(auto, using(crate::proofs::FormLemmas::commit_formed))]
pub fn read_commit(alloc: Global, body: &[u8]) -> Result<TableCommit, ReadError>
    ensures reading { Gives result (form.body spec.table_commit.read body.now) }
    ensures formed { IfOk result spec.IsFormed }
{
    let commit: Asked<TableCommit> = read_body(alloc, body)?;
    Ok(commit.into_value())
}

/// Reads a body that commits to several tables (Iceberg REST OpenAPI, CommitTransactionRequest).
#[tactic(auto, using(crate::proofs::FormLemmas::transaction_formed))]
pub fn read_transaction(alloc: Global, body: &[u8]) -> Result<Listed<TableChange>, ReadError>
    ensures reading { Gives result (form.body spec.transaction.read body.now) }
    ensures formed { IfOk result spec.AreFormed }
{
    let changes: Asked<Listed<TableChange>> = read_body(alloc, body)?;
    Ok(changes.into_value())
}

#[tactic(auto, unfolding(crate::specs::Commits::table_commit))]
impl Form for Asked<TableCommit> {
    ghost shape = { spec.table_commit };

    fn read(alloc: Global, value: &Value) -> Result<Self, ReadError> {
        object(alloc, value)?;
        let requirements: Listed<Asked<Requirement>> = field(alloc, value, keys::REQUIREMENTS)?;
        let updates: Listed<Asked<Update>> = field(alloc, value, keys::UPDATES)?;
        let requirements = parts(alloc, requirements)?;
        let updates = parts(alloc, updates)?;
        Ok(Asked::new(TableCommit {
            requirements,
            updates,
        }))
    }
}

#[tactic(auto, unfolding(crate::specs::Commits::table_change))]
impl Form for Asked<TableChange> {
    ghost shape = { spec.table_change };

    fn read(alloc: Global, value: &Value) -> Result<Self, ReadError> {
        object(alloc, value)?;
        let identifier: Asked<Identifier> = field(alloc, value, keys::IDENTIFIER)?;
        let requirements: Listed<Asked<Requirement>> = field(alloc, value, keys::REQUIREMENTS)?;
        let updates: Listed<Asked<Update>> = field(alloc, value, keys::UPDATES)?;
        let requirements = parts(alloc, requirements)?;
        let updates = parts(alloc, updates)?;
        Ok(Asked::new(TableChange {
            identifier: identifier.into_value(),
            requirements,
            updates,
        }))
    }
}

#[tactic(auto, unfolding(crate::specs::Commits::transaction))]
impl Form for Asked<Listed<TableChange>> {
    ghost shape = { spec.transaction };

    fn read(alloc: Global, value: &Value) -> Result<Self, ReadError> {
        object(alloc, value)?;
        let changes: Listed<Asked<TableChange>> = field(alloc, value, keys::TABLE_CHANGES)?;
        let changes = parts(alloc, changes)?;
        Ok(Asked::new(changes))
    }
}
