ghost use Rattle.std.specs.Prelude.{◌≡◌, ◌≤◌, ◌^◌, [], false, IfOk};
ghost use Rattle.pol_locations.specs.Location.{location_text};
ghost use Rattle.pol_properties.specs.Properties.{without_key};
ghost use Rattle.pol_rules.specs.Judged.{Acts, Judges, changes_to};
ghost use Rattle.pol_rules.specs.TableRules.{bad_creation, format_key, location_asked};
ghost use Rattle.pol_state.specs.Bounds.{first_refusal};
ghost use Rattle.pol_state.specs.Sound.{IsSound};
ghost use Rattle.pol_table_actions.specs.Creation.{create_table, location_rules, metadata_at, table_placed, uuid_of, with_table};
ghost use Rattle.pol_table_actions.specs.Loading.{loaded};

use crate::copying::{copied, copies};
use crate::loading::loaded;
use pol_access::Privilege;
use pol_commands::{CreateTable, Refusal, Words4};
use pol_content::{CatalogRow, Change, Handle, NamespaceRow, TableRow};
use pol_locations::Location;
use pol_meta::{CreateRefused, TableMetadata};
use pol_names::{Namespace, Plain};
use pol_properties::Properties;
use pol_puts::put_table;
use pol_rules::callers::signed_in;
use pol_rules::catalog_rules::catalog_there;
use pol_rules::changes::under_next_id;
use pol_rules::namespace_rules::namespace_there;
use pol_rules::needs::allowed_on_path;
use pol_rules::rules::{Acted, Asked, Undone, time_of};
use pol_rules::table_rules::{
    FORMAT_VERSION, format_served, inside_catalog, location_free, name_free, placed, unstaged,
};
use pol_types::{Listed, OutOfMemory, Text, both};
use std::alloc::Global;
use uuid::{Builder, Uuid};

/// Creates a table.
#[tactic(auto, using(pol_state::proofs::BoundsLemmas::next_id_bound), unfolding(crate::specs::Creation::new_table, pol_rules::specs::Prologues::namespace_row_at))]
pub fn create_table(
    asked: &Asked<'_>,
    name: &Plain,
    levels: &Namespace,
    request: &CreateTable,
) -> Result<Acted, Undone>
    requires { IsSound asked.now.state.now.rows }
    ensures { Acts asked.now (λ s command. create_table s command name.now levels.now request.now) result }
{
    signed_in(asked)?;
    let catalog = catalog_there(asked, name)?;
    allowed_on_path(asked, Privilege::TableCreate, levels, catalog)?;
    let namespace = namespace_there(asked, catalog.id, levels)?;
    name_free(asked, namespace, &request.name)?;
    let metadata = described(asked, request)?;
    let location = location_judged(asked, catalog, levels, request)?;
    let row = table_placed(asked, namespace, request, metadata, location)?;
    Ok(created(asked, row)?)
}

/// The location of a new table, against which no rule stands. What else the request asks for is served.
fn location_judged(
    asked: &Asked<'_>,
    catalog: &CatalogRow,
    levels: &Namespace,
    request: &CreateTable,
) -> Result<Location, Undone>
    requires { IsSound asked.now.state.now.rows }
    ensures { let rules = location_rules asked.now.state.now.rows levels.now request.now catalog.now in
        Judges (first_refusal rules) (λ location. location
        ≡ location_asked levels.now request.now.location request.now.name catalog.now) result }
{
    let location = placed(
        asked.alloc,
        catalog,
        levels,
        &request.location,
        &request.name,
    )?;
    inside_catalog(catalog, &location)?;
    location_free(asked, &location)?;
    unstaged(request.stage_create)?;
    format_served(&request.properties)?;
    Ok(location)
}

/// The metadata of a new table, which has no location yet: that is judged after what the table is made of.
#[tactic(auto, unfolding(crate::specs::Creation::metadata_at, pol_rules::specs::TableRules::bad_creation))]
pub fn described(asked: &Asked<'_>, request: &CreateTable) -> Result<TableMetadata, Undone>
    ensures { Judges (bad_creation request.now) (λ metadata.
        metadata ≡ metadata_at asked.now.state.now.rows asked.now.command.now request.now []) result }
{
    let ((schema, spec), (order, properties)) = both(
        copies(&request.schema, &request.partition_spec),
        both(
            copied(&request.write_order),
            properties_of(&request.properties),
        ),
    )?;
    let made = TableMetadata::create(
        asked.alloc,
        uuid_of(&asked.command.words),
        "",
        schema,
        spec,
        order,
        properties,
        time_of(asked),
    );
    match made {
        Ok(metadata) => Ok(metadata),
        Err(CreateRefused::Refused { why }) => Err(Undone::Refused(Refusal::UpdateRefused {
            table: 0,
            update: 0,
            why,
        })),
        Err(CreateRefused::OutOfMemory) => Err(Undone::OutOfMemory),
    }
}

/// The uuid that the first two words make.
#[tactic(auto, unfolding(crate::specs::Creation::uuid_of))]
pub fn uuid_of(words: &Words4) -> Uuid
    ensures { result ≡ uuid_of words.now.a words.now.b }
{
    let bytes = Uuid::from_u64_pair(words.a, words.b).into_bytes();
    Builder::from_random_bytes(bytes).into_uuid()
}

/// The properties that a new table has: those that are given, but for that which asks for a format version.
fn properties_of(given: &Properties) -> Result<Properties, OutOfMemory>
    ensures { IfOk result (λ properties. properties ≡ without_key format_key given.now) }
{
    let mut properties = given.clone()?;
    properties.remove(FORMAT_VERSION);
    Ok(properties)
}

/// The row of a new table at its location, under the next id.
#[tactic(auto, unfolding(crate::specs::Creation::metadata_at, pol_meta::specs::Creation::created))]
pub fn table_placed(
    asked: &Asked<'_>,
    namespace: &NamespaceRow,
    request: &CreateTable,
    metadata: TableMetadata,
    location: Location,
) -> Result<TableRow, OutOfMemory>
    requires { metadata ≡ metadata_at asked.now.state.now.rows asked.now.command.now request.now [] }
    ensures { IfOk result (λ row. row
        ≡ table_placed asked.now.state.now.rows asked.now.command.now request.now location namespace.now) }
{
    let (metadata, name) = both(Ok(metadata), copied(&request.name))?;
    let metadata = metadata_placed(asked.alloc, metadata, &location)?;
    Ok(TableRow {
        id: asked.state.next_id(),
        namespace: namespace.id,
        name,
        version: 0,
        moves: 0,
        location,
        metadata,
    })
}

/// The metadata of a table that lies at a location.
fn metadata_placed(
    alloc: Global,
    metadata: TableMetadata,
    location: &Location,
) -> Result<Handle<TableMetadata>, OutOfMemory>
    ensures { IfOk result (λ handle. handle ≡ record metadata { location = location_text location.now }) }
{
    let (mut metadata, text) = both(Ok(metadata), location.text(alloc))?;
    metadata.location = Text::from(text);
    Handle::new(alloc, metadata)
}

/// The table is put, and an id is taken.
fn created(asked: &Asked<'_>, row: TableRow) -> Result<Acted, OutOfMemory>
    requires sound { IsSound asked.now.state.now.rows }
    requires within { asked.now.state.now.rows.next_id ≤ 2 ^ 62 }
    requires next { row.id ≡ asked.now.state.now.rows.next_id }
    ensures answer { IfOk result (λ acted. acted.answer ≡ loaded false row) }
    ensures changes { IfOk result (λ acted. acted.changes ≡ changes_to asked.now (λ s. with_table s row)) }
{
    let answer = loaded(asked.alloc, &row, false);
    Acted::of(answer, row_changes(asked, row))
}

/// The changes that put the table under the next id.
#[tactic(auto, using(crate::proofs::ChangesLemmas::table_changes))]
fn row_changes(asked: &Asked<'_>, row: TableRow) -> Result<Listed<Change>, OutOfMemory>
    requires sound { IsSound asked.now.state.now.rows }
    requires within { asked.now.state.now.rows.next_id ≤ 2 ^ 62 }
    requires next { row.id ≡ asked.now.state.now.rows.next_id }
    ensures { IfOk result (λ changes. changes ≡ changes_to asked.now (λ s. with_table s row)) }
{
    under_next_id(asked, put_table(asked.alloc, row)?)
}
