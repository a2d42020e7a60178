//! Tables after their commits, and where they lie then.
ghost use Rattle.std.specs.Prelude.{◌≡◌, ◌≤◌, ◌^◌, ◌+◌, true, nat_eq, IfOk, Ok, map, option_copied, option_map};
ghost use Rattle.std.specs.List.{IsDistinct, list_any};
ghost use Rattle.std.specs.Bool.{⊤};
ghost use Rattle.pol_commands.specs.declared.reply.Refusal.TheVariants.{BadLocation};
ghost use Rattle.pol_locations.specs.Location.{parse_refusal, segments_of};
ghost use Rattle.pol_rules.specs.Judged.{Judges};
ghost use Rattle.pol_rules.specs.Rules.{time_of};
ghost use Rattle.pol_state.specs.Sound.{IsSound};
ghost use Rattle.pol_table_rows.specs.Tables.{overlapping};
ghost use Rattle.pol_commit_actions.specs.Outcome.{CommitTo, all_committed, commit_outcome, committed, grown_if, is_moved, lies_elsewhere, location_after, rows_after, tables_left};
ghost use Rattle.pol_commit_actions.specs.Overlaps.{least_over, lesser, lesser_over};
ghost use Rattle.pol_commit_actions.specs.Replaced.{AreReplaced, AreThere};
ghost use Rattle.pol_commit_actions.specs.Rules.{bad_location_from, misplaced, moved_onto, moved_outside, overlap_among};
ghost use Rattle.pol_commit_actions.specs.Seen.{commit_to, commits_to, committed_table, committed_tables};

use crate::target::{Committed, Target};
use pol_access::beside;
use pol_commands::Refusal;
use pol_content::{CatalogRow, Handle, TableRow};
use pol_locations::{Location, LocationRefused, overlaps};
use pol_meta::TableMetadata;
use pol_rules::rules::{Asked, Undone};
use pol_rules::table_rules::inside_catalog;
use pol_types::OutOfMemory;
use std::alloc::Global;

/// All tables after their commits, each of which has a location.
#[tactic(auto, unfolding(crate::specs::Outcome::all_committed))]
pub(crate) fn all_committed<'a>(
    asked: &Asked<'_>,
    targets: &[Target<'a>],
    metas: Vec<TableMetadata>,
) -> Result<Vec<Committed<'a>>, Undone>
    requires sound { IsSound asked.now.state.now.rows }
    requires there { AreThere asked.now.state.now.rows (commits_to targets.now) }
    requires once { IsDistinct nat_eq (map (λ (one : CommitTo). one.row.id) (commits_to targets.now)) }
    requires made { commit_outcome (time_of asked.now.state.now.rows asked.now.command.now) (commits_to targets.now)
        ≡ Ok metas.items }
    ensures { let tables = all_committed (commits_to targets.now) metas.items in
        Judges (bad_location_from 0 tables)
        (λ made. (committed_tables made.items ≡ tables) × AreReplaced asked.now.state.now.rows tables) result }
{
    let mut made: Vec<Committed<'a>> = Vec::with_capacity(asked.alloc, targets.len())?;
    for meta in metas {
        let table = made.len();
        made.push(committed(asked.alloc, table, &targets[table], meta)?)?;
    }
    Ok(made)
}

/// A table after its commit. It has this place.
fn committed<'a>(
    alloc: Global,
    table: usize,
    target: &Target<'a>,
    meta: TableMetadata,
) -> Result<Committed<'a>, Undone>
    requires version { target.now.row.now.version ≤ 2 ^ 62 }
    requires moves { target.now.row.now.moves ≤ 2 ^ 62 + 1 }
    ensures { let text = misplaced (lies_elsewhere target.now.row.now meta) meta.location in
        Judges (option_map (BadLocation table) text)
        (λ made. committed_table made ≡ committed (commit_to target.now) meta) result }
{
    let row = target.row;
    let location = location_after(alloc, table, row, &meta)?;
    let after = row_after(alloc, target, location, meta)?;
    Ok(Committed { before: row, after })
}

/// The row of a table after its commit, at this location.
fn row_after(
    alloc: Global,
    target: &Target<'_>,
    location: Location,
    meta: TableMetadata,
) -> Result<TableRow, OutOfMemory>
    requires version { target.now.row.now.version ≤ 2 ^ 62 }
    requires moves { target.now.row.now.moves ≤ 2 ^ 62 + 1 }
    requires location { location ≡ location_after target.now.row.now meta }
    ensures { IfOk result (λ after. after ≡ (committed (commit_to target.now) meta).after) }
{
    let row = target.row;
    let has_updates = !target.commit.updates.is_empty();
    let moves = grown_if(lies_elsewhere(row, &meta), row.moves);
    let (meta, name) = beside(meta, row.name.clone())?;
    Ok(TableRow {
        id: row.id,
        namespace: row.namespace,
        name,
        version: grown_if(has_updates, row.version),
        moves,
        location,
        metadata: Handle::new(alloc, meta)?,
    })
}

/// Where a table lies after its commit. It has this place.
fn location_after(
    alloc: Global,
    table: usize,
    row: &TableRow,
    meta: &TableMetadata,
) -> Result<Location, Undone>
    ensures { let text = misplaced (lies_elsewhere row.now meta.now) meta.now.location in
        Judges (option_map (BadLocation table) text) (λ location. location ≡ location_after row.now meta.now) result }
{
    if lies_elsewhere(row, meta) {
        return located(alloc, table, meta.location.as_str());
    }
    Ok(row.location.clone()?)
}

/// A number that grows by one where something is so.
fn grown_if(test: bool, number: u64) -> u64
    requires { number ≤ 2 ^ 63 }
    ensures { result ≡ grown_if test number }
{
    if test { number + 1 } else { number }
}

/// Whether a metadata has its table lie elsewhere than before.
fn lies_elsewhere(row: &TableRow, meta: &TableMetadata) -> bool
    ensures { result ≡ lies_elsewhere row.now meta.now }
{
    meta.location.as_str() != row.metadata.get().location.as_str()
}

/// The location of a text. The table has this place.
fn located(alloc: Global, table: usize, text: &str) -> Result<Location, Undone>
    ensures { Judges (option_map (BadLocation table) (parse_refusal text.now))
        (λ location. location ≡ segments_of text.now) result }
{
    match Location::parse(alloc, text) {
        Ok(location) => Ok(location),
        Err(LocationRefused::OutOfMemory) => Err(Undone::OutOfMemory),
        Err(
            why @ (LocationRefused::BadScheme
            | LocationRefused::EmptySegment
            | LocationRefused::DotSegment
            | LocationRefused::ControlByte
            | LocationRefused::TooLong),
        ) => Err(Undone::Refused(Refusal::BadLocation {
            table: table as u64,
            why,
        })),
    }
}

/// Whether a table lies elsewhere than before.
fn is_moved(table: &Committed<'_>) -> bool
    ensures { result ≡ is_moved (committed_table table.now) }
{
    table.after.moves != table.before.moves
}

/// Each table that is moved lies where the catalogue may have tables.
#[tactic(auto, unfolding(crate::specs::Rules::moved_outside))]
pub(crate) fn all_inside(catalog: &CatalogRow, tables: &[Committed<'_>]) -> Result<(), Undone>
    ensures { Judges (moved_outside (committed_tables tables.now) catalog.now) (λ _. ⊤) result }
{
    for table in tables {
        if is_moved(table) {
            inside_catalog(catalog, &table.after.location)?;
        }
    }
    Ok(())
}

/// No table that is moved overlaps another one once all are moved, in whatever catalogue it is.
#[tactic(auto, unfolding(crate::specs::Rules::moved_onto))]
pub(crate) fn all_apart(asked: &Asked<'_>, tables: &[Committed<'_>]) -> Result<(), Undone>
    requires sound { IsSound asked.now.state.now.rows }
    requires replaced { AreReplaced asked.now.state.now.rows (committed_tables tables.now) }
    ensures { Judges (moved_onto asked.now.state.now.rows (committed_tables tables.now)) (λ _. ⊤) result }
{
    let ids = ids_of(asked.alloc, tables)?;
    for table in tables {
        if is_moved(table) {
            apart(asked, ids.as_slice(), tables, &table.after)?;
        }
    }
    Ok(())
}

/// The ids of the tables.
fn ids_of(alloc: Global, tables: &[Committed<'_>]) -> Result<Vec<u64>, OutOfMemory>
    ensures { IfOk result (λ ids. ids.items ≡ map (λ table. table.after.id) tables.now) }
{
    let mut ids = Vec::with_capacity(alloc, tables.len())?;
    for table in tables {
        ids.push(table.after.id)?;
    }
    Ok(ids)
}

/// A table of those that are committed to overlaps no other one, of these and of those that stay.
#[tactic(auto, using(crate::proofs::OverlapLemmas::overlap_is))]
fn apart(
    asked: &Asked<'_>,
    ids: &[u64],
    tables: &[Committed<'_>],
    row: &TableRow,
) -> Result<(), Undone>
    requires sound { IsSound asked.now.state.now.rows }
    requires replaced { AreReplaced asked.now.state.now.rows (committed_tables tables.now) }
    requires ids { ids.now ≡ map (λ table. table.after.id) tables.now }
    requires among { list_any (λ owner. nat_eq owner row.now.id) ids.now ≡ true }
    ensures { let s = asked.now.state.now.rows in
        let after = tables_left (rows_after (committed_tables tables.now)) s.content.tables in
        Judges (overlap_among after row.now) (λ _. ⊤) result }
{
    match overlapping_one(asked, ids, tables, row) {
        Some(other) => Err(Undone::Refused(Refusal::LocationOverlap {
            location: row.location.clone()?,
            other: other.location.clone()?,
        })),
        None => Ok(()),
    }
}

/// The table of the least id that overlaps another one, of those that stay, whose ids aren't these, and of those that
/// are committed to.
fn overlapping_one<'a>(
    asked: &Asked<'a>,
    ids: &[u64],
    tables: &'a [Committed<'_>],
    row: &TableRow,
) -> Option<&'a TableRow>
    requires { IsSound asked.now.state.now.rows }
    ensures { option_copied result
        ≡ lesser (overlapping row.now.location ids.now asked.now.state.now.rows.content.tables)
        (least_over row.now (rows_after (committed_tables tables.now))) }
{
    let staying = asked.state.content().overlapping(&row.location, ids);
    lesser(staying, overlapping_among(tables, row))
}

/// The table of the least id, of those committed to, that overlaps another one.
fn overlapping_among<'a>(tables: &'a [Committed<'_>], row: &TableRow) -> Option<&'a TableRow>
    ensures { option_copied result ≡ least_over row.now (rows_after (committed_tables tables.now)) }
{
    let mut least = None;
    for table in tables {
        least = lesser_over(row, least, &table.after);
    }
    least
}

/// One more table, where it overlaps another one and has the least id.
fn lesser_over<'a>(
    row: &TableRow,
    least: Option<&'a TableRow>,
    other: &'a TableRow,
) -> Option<&'a TableRow>
    ensures { option_copied result ≡ lesser_over row.now (option_copied least.entry) other.now }
{
    if other.id != row.id && overlaps(&other.location, &row.location) {
        return lesser(least, Some(other));
    }
    least
}

/// That of two tables that has the lesser id.
fn lesser<'a>(one: Option<&'a TableRow>, other: Option<&'a TableRow>) -> Option<&'a TableRow>
    ensures { option_copied result ≡ lesser (option_copied one.entry) (option_copied other.entry) }
{
    match (one, other) {
        (Some(first), Some(second)) => Some(if second.id < first.id { second } else { first }),
        (Some(first), None) => Some(first),
        (None, found) => found,
    }
}
