//! Whether catalogues, namespaces, tables and views are sound, but for where they lie.
ghost use Rattle.std.specs.Prelude.{◌≡◌, ◌+◌, nat_le, Decides, IfOk};
ghost use Rattle.std.specs.List.{list_all, list_any};
ghost use Rattle.pol_content.specs.Content.{is_catalog_named, is_namespace_named};
ghost use Rattle.pol_content.specs.Sound.{IsSoundContent};
ghost use Rattle.pol_sound_access.specs.Judged.{all_differ};
ghost use Rattle.pol_sound_content.specs.Judged.{content_known, content_named, content_numbered, is_namespace_there, is_sound_content, is_table_there, is_view_there};
ghost use Rattle.pol_sound_content.specs.Valid.{HasValidParts};
ghost use Rattle.pol_table_rows.specs.Tables.{is_table_named};
ghost use Rattle.pol_view_rows.specs.Views.{is_view_named};

use crate::keys::{LevelsKey, PartKey};
use crate::known::{is_taken, is_upper, knows_catalog, knows_namespace};
use crate::placed::are_placed;
use pol_content::{CatalogRow, Content, NamespaceRow, TableRow, ViewRow};
use pol_sound_access::{keys_differ, rises};
use pol_types::OutOfMemory;
use std::alloc::Global;

/// Whether catalogues, namespaces, tables and views are sound, where each metadata is valid. It takes memory for their
/// keys, goes over all of them, and compares the locations of each two tables.
pub fn is_sound_content(alloc: Global, content: &Content, next_id: u64) -> Result<bool, OutOfMemory>
    ensures test { IfOk result (λ sound. sound ≡ is_sound_content next_id content.now.rows) }
    ensures sound { HasValidParts content.now.rows
        → IfOk result (λ sound. Decides sound (IsSoundContent next_id content.now.rows)) }
{
    passes(alloc, content, next_id)
}

/// Whether the test is passed.
#[tactic(auto, unfolding(crate::specs::Judged::is_sound_content))]
fn passes(alloc: Global, content: &Content, next_id: u64) -> Result<bool, OutOfMemory>
    ensures { IfOk result (λ sound. sound ≡ is_sound_content next_id content.now.rows) }
{
    if !are_numbered(content, next_id) {
        return Ok(false);
    }
    if !are_known(content) {
        return Ok(false);
    }
    if !are_named(alloc, content)? {
        return Ok(false);
    }
    are_placed(alloc, content)
}

/// Whether ids rise and were given out.
fn are_numbered(content: &Content, next_id: u64) -> bool
    ensures { result ≡ content_numbered next_id content.now.rows }
{
    rises(content.catalogs(), 1, next_id)
        && rises(content.namespaces(), 1, next_id)
        && rises(content.tables(), 1, next_id)
        && rises(content.views(), 1, next_id)
}

/// Whether names differ.
fn are_named(alloc: Global, content: &Content) -> Result<bool, OutOfMemory>
    ensures { IfOk result (λ named. named ≡ content_named content.now.rows) }
{
    if !catalogs_named(alloc, content)? {
        return Ok(false);
    }
    if !namespaces_named(alloc, content)? {
        return Ok(false);
    }
    if !tables_named(alloc, content)? {
        return Ok(false);
    }
    views_named(alloc, content)
}

fn catalogs_named(alloc: Global, content: &Content) -> Result<bool, OutOfMemory>
    ensures { IfOk result (λ named. named
        ≡ all_differ (λ left right. is_catalog_named left.name right) content.now.rows.catalogs) }
{
    keys_differ::<CatalogRow, PartKey>(alloc, content.catalogs())
}

fn namespaces_named(alloc: Global, content: &Content) -> Result<bool, OutOfMemory>
    ensures { IfOk result (λ named. named ≡ all_differ
        (λ left right. is_namespace_named left.catalog left.levels right) content.now.rows.namespaces) }
{
    keys_differ::<NamespaceRow, LevelsKey>(alloc, content.namespaces())
}

fn tables_named(alloc: Global, content: &Content) -> Result<bool, OutOfMemory>
    ensures { IfOk result (λ named. named ≡ all_differ
        (λ left right. is_table_named left.namespace left.name right) content.now.rows.tables) }
{
    keys_differ::<TableRow, PartKey>(alloc, content.tables())
}

fn views_named(alloc: Global, content: &Content) -> Result<bool, OutOfMemory>
    ensures { IfOk result (λ named. named ≡ all_differ
        (λ left right. is_view_named left.namespace left.name right) content.now.rows.views) }
{
    keys_differ::<ViewRow, PartKey>(alloc, content.views())
}

/// Whether what rows name is there, and no id is that of two rows.
fn are_known(content: &Content) -> bool
    ensures { result ≡ content_known content.now.rows }
{
    namespaces_known(content) && tables_known(content) && views_known(content)
}

fn namespaces_known(content: &Content) -> bool
    ensures { result ≡ list_all (is_namespace_there content.now.rows) content.now.rows.namespaces }
{
    content
        .namespaces()
        .all(|row| is_namespace_there(content, row))
}

fn is_namespace_there(content: &Content, row: &NamespaceRow) -> bool
    ensures { result ≡ is_namespace_there content.now.rows row.now }
{
    !knows_catalog(content, row.id) && knows_catalog(content, row.catalog)
}

fn tables_known(content: &Content) -> bool
    ensures { result ≡ list_all (is_table_there content.now.rows) content.now.rows.tables }
{
    content.tables().all(|row| is_table_there(content, row))
}

/// Whether the table's id is of its own, its namespace is there, and it has moved by commits, or once besides.
fn is_table_there(content: &Content, row: &TableRow) -> bool
    ensures { result ≡ is_table_there content.now.rows row.now }
{
    !is_upper(content, row.id)
        && knows_namespace(content, row.namespace)
        && has_moved(row.moves, row.version)
}

/// Whether so many moves are at most one more than the version.
#[tactic(auto, using(crate::proofs::MovedLemmas::moved_told))]
pub fn has_moved(moves: u64, version: u64) -> bool
    ensures { result ≡ nat_le moves (version + 1) }
{
    moves.saturating_sub(1) <= version
}

fn views_known(content: &Content) -> bool
    ensures { result ≡ list_all (is_view_there content.now.rows) content.now.rows.views }
{
    content.views().all(|row| is_view_there(content, row))
}

/// Whether the view's id is of its own, no table has its name, its namespace is there, and its metadata has at most 100
/// versions.
fn is_view_there(content: &Content, row: &ViewRow) -> bool
    ensures { result ≡ is_view_there content.now.rows row.now }
{
    !is_taken(content, row.id)
        && !has_table(content, row)
        && knows_namespace(content, row.namespace)
        && row.metadata.get().versions.len() <= 100
}

/// Whether a table of the view's namespace has its name. It scans no rows.
#[tactic(auto, using(pol_sound_access::proofs::FoundLemmas::named_row))]
fn has_table(content: &Content, row: &ViewRow) -> bool
    ensures { result ≡ list_any (is_table_named row.now.namespace row.now.name) content.now.rows.tables }
{
    content.table(row.namespace, &row.name).is_some()
}
