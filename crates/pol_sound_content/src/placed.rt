//! Whether namespaces stand in namespaces that are there, and tables and views lie where their metadata say, apart from
//! each other.
ghost use Rattle.std.specs.Prelude.{◌≡◌, is_none, IfOk};
ghost use Rattle.std.specs.List.{list_all, list_any};
ghost use Rattle.pol_content.specs.Content.{is_namespace_named};
ghost use Rattle.pol_locations.specs.Location.{is_overlap, parse_refusal};
ghost use Rattle.pol_sound_access.specs.Judged.{all_differ};
ghost use Rattle.pol_sound_content.specs.Judged.{content_placed, has_parent, is_located, is_parent_there, is_placed};

use pol_content::{Content, NamespaceRow, TableRow, ViewRow};
use pol_locations::{Location, LocationRefused, overlaps};
use pol_names::Namespace;
use pol_tables::Rows;
use pol_types::OutOfMemory;
use std::alloc::Global;

/// Whether they do.
pub(crate) fn are_placed(alloc: Global, content: &Content) -> Result<bool, OutOfMemory>
    ensures { IfOk result (λ placed. placed ≡ content_placed content.now.rows) }
{
    if !have_parents(alloc, content)? {
        return Ok(false);
    }
    if !tables_placed(alloc, content.tables())? {
        return Ok(false);
    }
    if !views_located(alloc, content.views())? {
        return Ok(false);
    }
    Ok(lie_apart(content.tables()))
}

/// Whether the parent of each namespace is there.
fn have_parents(alloc: Global, content: &Content) -> Result<bool, OutOfMemory>
    ensures { IfOk result (λ placed. placed ≡ list_all (has_parent content.now.rows) content.now.rows.namespaces) }
{
    for row in content.namespaces() {
        if !has_parent(alloc, content, row)? {
            return Ok(false);
        }
    }
    Ok(true)
}

/// Whether the parent of a namespace is there, where it has one. It scans no rows.
pub fn has_parent(alloc: Global, content: &Content, row: &NamespaceRow) -> Result<bool, OutOfMemory>
    ensures { IfOk result (λ there. there ≡ has_parent content.now.rows row.now) }
{
    let parent = row.levels.parent(alloc)?;
    Ok(is_parent_there(content, row.catalog, &parent))
}

fn is_parent_there(content: &Content, catalog: u64, parent: &Option<Namespace>) -> bool
    ensures { result ≡ is_parent_there content.now.rows catalog parent.now }
{
    match parent {
        Some(parent) => has_namespace(content, catalog, parent),
        None => true,
    }
}

/// Whether the catalogue has a namespace of these levels. It scans no rows.
#[tactic(auto, using(pol_sound_access::proofs::FoundLemmas::named_row))]
fn has_namespace(content: &Content, catalog: u64, levels: &Namespace) -> bool
    ensures { result ≡ list_any (is_namespace_named catalog levels.now) content.now.rows.namespaces }
{
    content.namespace(catalog, levels).is_some()
}

/// Whether each table's metadata has its location.
fn tables_placed(alloc: Global, rows: Rows<'_, TableRow>) -> Result<bool, OutOfMemory>
    ensures { IfOk result (λ placed. placed ≡ list_all is_placed rows.entry) }
{
    for row in rows {
        if !is_placed(alloc, row)? {
            return Ok(false);
        }
    }
    Ok(true)
}

/// Whether the table's metadata has its location.
pub fn is_placed(alloc: Global, row: &TableRow) -> Result<bool, OutOfMemory>
    ensures { IfOk result (λ placed. placed ≡ is_placed row.now) }
{
    let text = row.location.text(alloc)?;
    Ok(row.metadata.get().location.as_str() == text.as_str())
}

/// Whether each view's metadata has a location.
fn views_located(alloc: Global, rows: Rows<'_, ViewRow>) -> Result<bool, OutOfMemory>
    ensures { IfOk result (λ located. located ≡ list_all is_located rows.entry) }
{
    for row in rows {
        if !is_located(alloc, row.metadata.get().location.as_str())? {
            return Ok(false);
        }
    }
    Ok(true)
}

/// Whether the text is that of a location.
pub fn is_located(alloc: Global, text: &str) -> Result<bool, OutOfMemory>
    ensures { IfOk result (λ located. located ≡ is_none (parse_refusal text.now)) }
{
    match Location::parse(alloc, text) {
        Ok(_) => Ok(true),
        Err(LocationRefused::OutOfMemory) => Err(OutOfMemory),
        Err(
            LocationRefused::BadScheme
            | LocationRefused::EmptySegment
            | LocationRefused::DotSegment
            | LocationRefused::ControlByte
            | LocationRefused::TooLong,
        ) => Ok(false),
    }
}

/// Whether no two tables overlap. It compares each two.
#[tactic(auto, unfolding(pol_sound_access::specs::Judged::all_differ))]
fn lie_apart(rows: Rows<'_, TableRow>) -> bool
    ensures { result ≡ all_differ (λ left right. is_overlap left.location right.location) rows.entry }
{
    let mut rest = rows;
    while let Some(row) = rest.next() {
        if overlaps_any(row, rest.rest()) {
            return false;
        }
    }
    true
}

fn overlaps_any(row: &TableRow, mut later: Rows<'_, TableRow>) -> bool
    ensures { result ≡ list_any (λ right. is_overlap row.now.location right.location) later.entry }
{
    later.any(|right| overlaps(&row.location, &right.location))
}
