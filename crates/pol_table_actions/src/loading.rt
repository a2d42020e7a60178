ghost use Rattle.std.specs.Prelude.{◌≡◌, filter, IfOk};
ghost use Rattle.pol_commands.specs.declared.reply.Answer.TheVariants.{TableLoaded};
ghost use Rattle.pol_rules.specs.Judged.{Acts};
ghost use Rattle.pol_state.specs.Sound.{IsSound};
ghost use Rattle.pol_table_actions.specs.Loading.{is_referenced, load_table, loaded, loaded_with, metadata_location, metadata_shown, with_named_snapshots};

use pol_access::Privilege;
use pol_commands::Answer;
use pol_content::{Handle, TableRow};
use pol_meta::{NamedRef, Snapshot, TableMetadata, metadata_file};
use pol_names::{Identifier, Plain};
use pol_rules::prologues::at_table;
use pol_rules::rules::{Acted, Asked, Undone, unchanged};
use pol_tokens::TokenRow;
use pol_types::{Listed, OutOfMemory, Text, both};
use std::alloc::Global;

/// Shows a table, with all its snapshots or with those alone that its references name.
#[tactic(auto, using(pol_rules::proofs::ProloguesLemmas::at_table_stops, pol_rules::proofs::LeadsLemmas::no_changes))]
pub fn load_table(
    asked: &Asked<'_>,
    name: &Plain,
    identifier: &Identifier,
    refs_only: bool,
) -> Result<Acted, Undone>
    requires { IsSound asked.now.state.now.rows }
    ensures { Acts asked.now (λ s command. load_table s command name.now identifier.now refs_only) result }
{
    let row = at_table(asked, Privilege::TableReadProperties, name, identifier)?;
    let answer = loaded(asked.alloc, row, refs_only)?;
    Ok(unchanged(asked.alloc, answer))
}

/// The answer that shows a table, without a storage token.
pub(crate) fn loaded(alloc: Global, row: &TableRow, refs_only: bool) -> Result<Answer, OutOfMemory>
    ensures { IfOk result (λ answer. answer ≡ loaded refs_only row.now) }
{
    loaded_with(alloc, row, refs_only, None)
}

/// The answer that shows a table, with the storage token that was issued, if one was. It shares the metadata where all
/// of it is shown.
pub fn loaded_with(
    alloc: Global,
    row: &TableRow,
    refs_only: bool,
    token: Option<TokenRow>,
) -> Result<Answer, OutOfMemory>
    ensures { IfOk result (λ answer. answer ≡ loaded_with refs_only token row.now) }
{
    let (metadata_location, metadata) = both(
        metadata_location(alloc, row),
        metadata_shown(alloc, &row.metadata, refs_only),
    )?;
    Ok(Answer::TableLoaded {
        metadata_location,
        metadata,
        token,
    })
}

/// Where the metadata of a table is.
pub fn metadata_location(alloc: Global, row: &TableRow) -> Result<Text, OutOfMemory>
    ensures { IfOk result (λ text. text ≡ metadata_location row.now) }
{
    let location = row.location.text(alloc)?;
    let uuid = &row.metadata.get().table_uuid;
    Ok(metadata_file(alloc, location.as_str(), row.version, uuid)?)
}

/// What is shown of a metadata.
fn metadata_shown(
    alloc: Global,
    metadata: &Handle<TableMetadata>,
    refs_only: bool,
) -> Result<Handle<TableMetadata>, OutOfMemory>
    ensures { IfOk result (λ shown. shown ≡ metadata_shown refs_only metadata.now) }
{
    if refs_only {
        return Handle::new(alloc, with_named_snapshots(alloc, metadata.get())?);
    }
    Ok(metadata.clone()?)
}

/// A copy of the metadata without the snapshots that no reference names, which aren't copied.
#[tactic(auto, unfolding(crate::specs::Loading::with_named_snapshots))]
fn with_named_snapshots(
    alloc: Global,
    metadata: &TableMetadata,
) -> Result<TableMetadata, OutOfMemory>
    ensures { IfOk result (λ shown. shown ≡ with_named_snapshots metadata.now) }
{
    let snapshots = metadata.snapshots.as_slice();
    Ok(TableMetadata {
        current_schema_id: metadata.current_schema_id,
        current_snapshot_id: metadata.current_snapshot_id,
        default_sort_order_id: metadata.default_sort_order_id,
        default_spec_id: metadata.default_spec_id,
        format_version: metadata.format_version,
        last_column_id: metadata.last_column_id,
        last_partition_id: metadata.last_partition_id,
        last_sequence_number: metadata.last_sequence_number,
        last_updated_ms: metadata.last_updated_ms,
        location: metadata.location.clone()?,
        metadata_log: metadata.metadata_log.clone()?,
        partition_specs: metadata.partition_specs.clone()?,
        properties: metadata.properties.clone()?,
        refs: metadata.refs.clone()?,
        schemas: metadata.schemas.clone()?,
        snapshot_log: metadata.snapshot_log.clone()?,
        snapshots: named_snapshots(alloc, snapshots, metadata.refs.as_slice())?,
        sort_orders: metadata.sort_orders.clone()?,
        table_uuid: metadata.table_uuid,
    })
}

/// Those of the snapshots that a reference names.
fn named_snapshots(
    alloc: Global,
    snapshots: &[Snapshot],
    refs: &[NamedRef],
) -> Result<Listed<Snapshot>, OutOfMemory>
    ensures { IfOk result (λ named. named
        ≡ filter (λ snapshot. is_referenced refs.now snapshot.snapshot_id) snapshots.now) }
{
    let mut named = Vec::new(alloc);
    for snapshot in snapshots {
        if is_referenced(refs, snapshot.snapshot_id) {
            named.push(snapshot.clone()?)?;
        }
    }
    Ok(Listed::from(named))
}

fn is_referenced(refs: &[NamedRef], id: u64) -> bool
    ensures { result ≡ is_referenced refs.now id }
{
    refs.iter().any(|named| named.reference.snapshot_id == id)
}
