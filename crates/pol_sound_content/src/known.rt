//! Whether ids are those of rows.
ghost use Rattle.std.specs.Prelude.{◌≡◌, ◌||◌};
ghost use Rattle.pol_content.specs.Content.{catalog_id, namespace_id};
ghost use Rattle.pol_content.specs.Sound.{is_taken};
ghost use Rattle.pol_table_rows.specs.Tables.{table_id};
ghost use Rattle.pol_tables.specs.Table.{knows};

use pol_content::Content;

#[tactic(auto, using(pol_sound_access::proofs::FoundLemmas::known_row))]
pub fn knows_catalog(content: &Content, id: u64) -> bool
    ensures { result ≡ knows catalog_id id content.now.rows.catalogs }
{
    content.catalog_of(id).is_some()
}

/// Whether there is a namespace of this id.
#[tactic(auto, using(pol_sound_access::proofs::FoundLemmas::known_row))]
pub fn knows_namespace(content: &Content, id: u64) -> bool
    ensures { result ≡ knows namespace_id id content.now.rows.namespaces }
{
    content.namespace_of(id).is_some()
}

#[tactic(auto, using(pol_sound_access::proofs::FoundLemmas::known_row))]
fn knows_table(content: &Content, id: u64) -> bool
    ensures { result ≡ knows table_id id content.now.rows.tables }
{
    content.table_of(id).is_some()
}

/// Whether a catalogue, a namespace or a table has the id.
pub(crate) fn is_taken(content: &Content, id: u64) -> bool
    ensures { result ≡ is_taken id content.now.rows }
{
    knows_catalog(content, id) || knows_namespace(content, id) || knows_table(content, id)
}

/// Whether a catalogue or a namespace has the id.
pub(crate) fn is_upper(content: &Content, id: u64) -> bool
    ensures { result ≡ (knows catalog_id id content.now.rows.catalogs
        || knows namespace_id id content.now.rows.namespaces) }
{
    knows_catalog(content, id) || knows_namespace(content, id)
}
