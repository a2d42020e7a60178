//! Creating a view.
ghost use Rattle.std.specs.Prelude.{◌≡◌, ◌≤◌, ◌^◌, IfOk};
ghost use Rattle.pol_locations.specs.Location.{location_text};
ghost use Rattle.pol_rules.specs.Judged.{Acts, changes_to};
ghost use Rattle.pol_state.specs.Sound.{IsSound};
ghost use Rattle.pol_view_actions.specs.Creation.{create_view, metadata_at, view_placed, with_view};
ghost use Rattle.pol_view_actions.specs.Views.{loaded};

use crate::views::loaded;
use pol_access::Privilege;
use pol_commands::CreateView;
use pol_content::{Change, Handle, NamespaceRow, ViewRow};
use pol_locations::Location;
use pol_names::{Namespace, Plain};
use pol_puts::put_view;
use pol_rules::callers::signed_in;
use pol_rules::catalog_rules::catalog_there;
use pol_rules::changes::under_next_id;
use pol_rules::namespace_rules::namespace_there;
use pol_rules::needs::allowed_on_path;
use pol_rules::rules::{Acted, Asked, Undone, time_of};
use pol_rules::table_rules::{inside_catalog, name_free, placed};
use pol_table_actions::copying::copied;
use pol_table_actions::creation::uuid_of;
use pol_types::{Listed, OutOfMemory, both};
use pol_views::{UnboundVersion, ViewMetadata};

/// Creates a view (Iceberg REST OpenAPI, createView).
#[tactic(auto, using(pol_state::proofs::BoundsLemmas::next_id_bound), unfolding(crate::specs::Creation::new_view, pol_rules::specs::Prologues::namespace_row_at))]
pub fn create_view(
    asked: &Asked<'_>,
    name: &Plain,
    levels: &Namespace,
    request: &CreateView,
) -> Result<Acted, Undone>
    requires { IsSound asked.now.state.now.rows }
    ensures { Acts asked.now (λ s command. create_view s command name.now levels.now request.now) result }
{
    signed_in(asked)?;
    let catalog = catalog_there(asked, name)?;
    allowed_on_path(asked, Privilege::ViewCreate, levels, catalog)?;
    let namespace = namespace_there(asked, catalog.id, levels)?;
    name_free(asked, namespace, &request.name)?;
    let location = placed(
        asked.alloc,
        catalog,
        levels,
        &request.location,
        &request.name,
    )?;
    inside_catalog(catalog, &location)?;
    Ok(created(asked, namespace, request, &location)?)
}

/// The view is put at a location, and an id is taken.
fn created(
    asked: &Asked<'_>,
    namespace: &NamespaceRow,
    request: &CreateView,
    location: &Location,
) -> Result<Acted, OutOfMemory>
    requires sound { IsSound asked.now.state.now.rows }
    requires within { asked.now.state.now.rows.next_id ≤ 2 ^ 62 }
    ensures answer { let s = asked.now.state.now.rows in IfOk result (λ acted. acted.answer
        ≡ loaded (view_placed s asked.now.command.now request.now location.now namespace.now)) }
    ensures changes { let s = asked.now.state.now.rows in
        let row = view_placed s asked.now.command.now request.now location.now namespace.now in
        IfOk result (λ acted. acted.changes ≡ changes_to asked.now (λ s. with_view s row)) }
{
    let row = view_placed(asked, namespace, request, location)?;
    Acted::of(loaded(asked.alloc, &row), row_changes(asked, row))
}

/// The row of a new view at a location, under the next id.
fn view_placed(
    asked: &Asked<'_>,
    namespace: &NamespaceRow,
    request: &CreateView,
    location: &Location,
) -> Result<ViewRow, OutOfMemory>
    ensures { IfOk result (λ row. row
        ≡ view_placed asked.now.state.now.rows asked.now.command.now request.now location.now namespace.now) }
{
    let (name, metadata) = both(copied(&request.name), metadata_at(asked, request, location))?;
    Ok(ViewRow {
        id: asked.state.next_id(),
        namespace: namespace.id,
        name,
        version: 0,
        metadata,
    })
}

/// The metadata of a new view that lies at a location.
#[tactic(auto, unfolding(crate::specs::Creation::metadata_at))]
fn metadata_at(
    asked: &Asked<'_>,
    request: &CreateView,
    location: &Location,
) -> Result<Handle<ViewMetadata>, OutOfMemory>
    ensures { IfOk result (λ metadata. metadata
        ≡ metadata_at asked.now.state.now.rows asked.now.command.now request.now (location_text location.now)) }
{
    let text = location.text(asked.alloc)?;
    let shape = both(
        copied(&request.schema),
        copied_version(&request.view_version),
    );
    let ((schema, version), properties) = both(shape, copied(&request.properties))?;
    let metadata = ViewMetadata::create(
        asked.alloc,
        uuid_of(&asked.command.words),
        text.as_str(),
        schema,
        version,
        properties,
        time_of(asked),
    )?;
    Handle::new(asked.alloc, metadata)
}

/// An equal version.
fn copied_version(version: &UnboundVersion) -> Result<UnboundVersion, OutOfMemory>
    ensures { IfOk result (λ copy. copy ≡ version.now) }
{
    let content = both(copied(&version.summary), copied(&version.representations));
    let defaults = both(
        copied(&version.default_catalog),
        copied(&version.default_namespace),
    );
    let ((summary, representations), (default_catalog, default_namespace)) = both(
        content, defaults,
    )?;
    Ok(UnboundVersion {
        timestamp_ms: version.timestamp_ms,
        schema_id: version.schema_id,
        summary,
        representations,
        default_catalog,
        default_namespace,
    })
}

/// The changes that put the view under the next id.
#[tactic(auto, using(crate::proofs::ChangesLemmas::view_changes))]
fn row_changes(asked: &Asked<'_>, row: ViewRow) -> Result<Listed<Change>, OutOfMemory>
    requires sound { IsSound asked.now.state.now.rows }
    requires within { asked.now.state.now.rows.next_id ≤ 2 ^ 62 }
    requires next { row.id ≡ asked.now.state.now.rows.next_id }
    ensures { IfOk result (λ changes. changes ≡ changes_to asked.now (λ s. with_view s row)) }
{
    let put = put_view(asked.alloc, row)?;
    under_next_id(asked, put)
}
