//! Whether no quantity of a state is above its bound.
ghost use Rattle.std.specs.Prelude.{◌≡◌, Decides, None};
ghost use Rattle.std.specs.List.{list_all};
ghost use Rattle.pol_commands.specs.declared.reply.Quantity.TheVariants as quantity;
ghost use Rattle.pol_sound_bounds.specs.Judged.{bounds_fit, catalog_fits, counters_fit, counts_fit, facts_fit, fits, holders_fit, namespace_fits, parts_fit, rows_fit, table_fits, view_fits};
ghost use Rattle.pol_sound_bounds.specs.Within.{IsOf};
ghost use Rattle.pol_state.specs.Bounds.{over_limit, view_weight};
ghost use Rattle.pol_state.specs.Rows.{Rows};

use pol_access::Access;
use pol_bounds::table_within;
use pol_commands::Quantity;
use pol_content::{CatalogRow, Content, NamespaceRow, TableRow, ViewRow};
use pol_rules::rules::bound_of;

/// Whether no quantity of a state of these rows and counters is above its bound. It goes over all rows.
pub fn is_within_bounds(access: &Access, content: &Content, next_id: u64, next_serial: u64) -> bool
    ensures test { result ≡ bounds_fit access.now.rows content.now.rows next_id next_serial }
    ensures within { (s : Rows) → IsOf access.now.rows content.now.rows next_id next_serial s
        → Decides result (over_limit s ≡ None) }
{
    passes(access, content, next_id, next_serial)
}

/// Whether the test is passed.
#[tactic(auto, unfolding(crate::specs::Judged::bounds_fit))]
fn passes(access: &Access, content: &Content, next_id: u64, next_serial: u64) -> bool
    ensures { result ≡ bounds_fit access.now.rows content.now.rows next_id next_serial }
{
    counts_fit(access, content, next_id, next_serial) && rows_fit(content)
}

/// Whether there are no more rows of each kind than may be, and the counters are within their bounds.
#[tactic(auto, unfolding(crate::specs::Judged::counts_fit))]
fn counts_fit(access: &Access, content: &Content, next_id: u64, next_serial: u64) -> bool
    ensures { result ≡ counts_fit access.now.rows content.now.rows next_id next_serial }
{
    parts_fit(content)
        && holders_fit(access)
        && facts_fit(access)
        && counters_fit(next_id, next_serial)
}

/// Whether a number isn't above the bound of its quantity.
fn fits(quantity: Quantity, number: u64) -> bool
    ensures { result ≡ fits quantity number }
{
    number <= bound_of(quantity)
}

/// Whether there are no more principals and roles than may be.
fn holders_fit(access: &Access) -> bool
    ensures { result ≡ holders_fit access.now.rows }
{
    fits(Quantity::Principals, access.principals().len() as u64)
        && fits(
            Quantity::PrincipalRoles,
            access.principal_roles().len() as u64,
        )
        && fits(Quantity::CatalogRoles, access.catalog_roles().len() as u64)
}

/// Whether there are no more members, joins and grants than may be.
fn facts_fit(access: &Access) -> bool
    ensures { result ≡ facts_fit access.now.rows }
{
    fits(Quantity::Members, access.members().len() as u64)
        && fits(Quantity::Joins, access.joins().len() as u64)
        && fits(Quantity::Grants, access.grants().len() as u64)
}

/// Whether there are no more catalogues, namespaces, tables and views than may be.
fn parts_fit(content: &Content) -> bool
    ensures { result ≡ parts_fit content.now.rows }
{
    fits(Quantity::Catalogs, content.catalogs().len() as u64)
        && fits(Quantity::Namespaces, content.namespaces().len() as u64)
        && fits(Quantity::Tables, content.tables().len() as u64)
        && fits(Quantity::Views, content.views().len() as u64)
}

/// Whether ids and serials may still be given out.
pub fn counters_fit(next_id: u64, next_serial: u64) -> bool
    ensures { result ≡ counters_fit next_id next_serial }
{
    fits(Quantity::NextId, next_id) && fits(Quantity::NextSerial, next_serial)
}

/// Whether the numbers of each row are within their bounds.
#[tactic(auto, unfolding(crate::specs::Judged::rows_fit))]
fn rows_fit(content: &Content) -> bool
    ensures { result ≡ rows_fit content.now.rows }
{
    catalogs_fit(content) && namespaces_fit(content) && tables_fit(content) && views_fit(content)
}

fn catalogs_fit(content: &Content) -> bool
    ensures { result ≡ list_all catalog_fits content.now.rows.catalogs }
{
    content.catalogs().all(|row| catalog_fits(row))
}

fn namespaces_fit(content: &Content) -> bool
    ensures { result ≡ list_all namespace_fits content.now.rows.namespaces }
{
    content.namespaces().all(|row| namespace_fits(row))
}

fn tables_fit(content: &Content) -> bool
    ensures { result ≡ list_all table_fits content.now.rows.tables }
{
    content.tables().all(|row| table_fits(row))
}

fn views_fit(content: &Content) -> bool
    ensures { result ≡ list_all view_fits content.now.rows.views }
{
    content.views().all(|row| view_fits(row))
}

/// Whether no number of the catalogue is above its bound.
pub fn catalog_fits(row: &CatalogRow) -> bool
    ensures { result ≡ catalog_fits row.now }
{
    fits(Quantity::AllowedLocations, row.allowed.len() as u64)
        && fits(Quantity::Properties, row.properties.len() as u64)
}

/// Whether no number of the namespace is above its bound.
pub fn namespace_fits(row: &NamespaceRow) -> bool
    ensures { result ≡ namespace_fits row.now }
{
    fits(Quantity::Properties, row.properties.len() as u64)
}

/// Whether no number of the table is above its bound.
#[tactic(auto, using(crate::proofs::WeightLemmas::seen_passes))]
pub fn table_fits(row: &TableRow) -> bool
    ensures { result ≡ table_fits row.now }
{
    table_within(row).is_ok()
}

/// Whether no number of the view is above its bound.
pub fn view_fits(row: &ViewRow) -> bool
    ensures { result ≡ view_fits row.now }
{
    let metadata = row.metadata.get();
    fits(Quantity::Schemas, metadata.schemas.len() as u64)
        && fits(Quantity::Properties, metadata.properties.len() as u64)
        && is_light(row)
        && fits(Quantity::Version, row.version)
}

/// Whether the view's metadata weighs no more than it may.
#[tactic(auto, using(crate::proofs::WeightLemmas::light_capped))]
fn is_light(row: &ViewRow) -> bool
    ensures { result ≡ fits quantity.Weight (view_weight row.now) }
{
    fits(Quantity::Weight, row.metadata.get().weight())
}
