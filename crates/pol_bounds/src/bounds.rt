//! The bounds of a state, judged on the changes that lead from it.
ghost use Rattle.std.specs.Prelude.{◌≡◌, ℕ, ◌≤◌, nat_lt};
ghost use Rattle.std.specs.List.{list_any};
ghost use Rattle.std.specs.Bool.{⊤};
ghost use Rattle.pol_content.specs.Change.{puts};
ghost use Rattle.pol_bounds.specs.Counted.{count_after, counts_after, kind_taken, limits_of, limits_put, numbers_of, own_of, part_limits, property_limits, table_numbers, takes, view_numbers, view_weight_put, weight_put, where_known};
ghost use Rattle.pol_rules.specs.Judged.{Sees};
ghost use Rattle.pol_commands.specs.declared.reply.Quantity.TheVariants as quantity;
ghost use Rattle.pol_commands.specs.declared.reply.Refusal.TheVariants.{Limit};
ghost use Rattle.pol_state.specs.Applied.{applied};
ghost use Rattle.pol_state.specs.Bounds.{any_above, bound_of, first_refusal, over_limit, refuse_if, table_over_limit, table_weight};
ghost use Rattle.pol_state.specs.Changes.{changes_between};
ghost use Rattle.pol_state.specs.Rows.{Rows};
ghost use Rattle.pol_state.specs.Sound.{IsOrderly, IsSound};

use pol_commands::{Quantity, Refusal};
use pol_content::{Change, RowKind, TableRow, ViewRow};
use pol_rules::rules::{bound_of, limit, within};
use pol_state::State;
use pol_types::Listed;

/// How many rows of each kind there are.
#[derive(Clone, Copy)]
struct Counts {
    catalogs: u64,
    principals: u64,
    principal_roles: u64,
    catalog_roles: u64,
    members: u64,
    joins: u64,
    grants: u64,
    namespaces: u64,
    tables: u64,
    views: u64,
}

/// The numbers of a change by itself: of locations that a catalogue allows, of properties, of a table's or a view's
/// parts and its version, and of the counters.
#[derive(Clone, Copy)]
struct Numbers {
    allowed: u64,
    catalog_properties: u64,
    namespace_properties: u64,
    schemas: u64,
    specs: u64,
    orders: u64,
    refs: u64,
    snapshots: u64,
    table_properties: u64,
    version: u64,
    view_schemas: u64,
    view_properties: u64,
    view_version: u64,
    next_id: u64,
    next_serial: u64,
}

/// The numbers of a change that has none.
const NOTHING: Numbers = Numbers {
    allowed: 0,
    catalog_properties: 0,
    namespace_properties: 0,
    schemas: 0,
    specs: 0,
    orders: 0,
    refs: 0,
    snapshots: 0,
    table_properties: 0,
    version: 0,
    view_schemas: 0,
    view_properties: 0,
    view_version: 0,
    next_id: 0,
    next_serial: 0,
};

/// A number that a change gives a row that it puts, or sets a counter to.
#[derive(Clone, Copy)]
enum Own {
    AllowedLocations,
    CatalogProperties,
    NamespaceProperties,
    Schemas,
    PartitionSpecs,
    SortOrders,
    Refs,
    Snapshots,
    TableProperties,
    NextId,
    NextSerial,
    Version,
    ViewSchemas,
    ViewProperties,
    ViewVersion,
}

/// No quantity is above its bound in the orderly rows to which the changes lead.
pub fn within_bounds(state: &State, changes: &Listed<Change>) -> Result<(), Refusal>
    requires { IsSound state.now.rows }
    ensures { (after : Rows) (charge : ℕ) → IsOrderly after
        → changes.now ≡ changes_between state.now.rows after
        → applied changes.now after.time charge state.now.rows ≡ after
        → Sees (over_limit after) (λ _. ⊤) result }
{
    counts_within(counts_after(state, changes))?;
    numbers_within(changes)
}

/// No quantity of a table is above its bound.
#[tactic(auto, unfolding(pol_state::specs::Bounds::table_over_limit))]
pub fn table_within(row: &TableRow) -> Result<(), Refusal>
    ensures { Sees (table_over_limit row.now) (λ _. ⊤) result }
{
    let numbers = table_numbers(row);
    within(Quantity::Schemas, numbers.schemas)?;
    within(Quantity::PartitionSpecs, numbers.specs)?;
    within(Quantity::SortOrders, numbers.orders)?;
    within(Quantity::Refs, numbers.refs)?;
    within(Quantity::Snapshots, numbers.snapshots)?;
    within(Quantity::Properties, numbers.table_properties)?;
    unless(is_heavy_row(row), Quantity::Weight)?;
    within(Quantity::Version, numbers.version)
}

/// Whether the metadata of a table is above its bound.
#[tactic(auto, unfolding(pol_meta::specs::Weight::capped))]
fn is_heavy_row(row: &TableRow) -> bool
    ensures { result ≡ nat_lt (bound_of quantity.Weight) (table_weight row.now) }
{
    row.metadata.get().weight() > bound_of(Quantity::Weight)
}

/// There are no more rows of any kind than its bound allows.
fn counts_within(counts: Counts) -> Result<(), Refusal>
    ensures { Sees (first_refusal (limits_of counts)) (λ _. ⊤) result }
{
    within(Quantity::Catalogs, counts.catalogs)?;
    within(Quantity::Principals, counts.principals)?;
    within(Quantity::PrincipalRoles, counts.principal_roles)?;
    within(Quantity::CatalogRoles, counts.catalog_roles)?;
    within(Quantity::Members, counts.members)?;
    within(Quantity::Joins, counts.joins)?;
    within(Quantity::Grants, counts.grants)?;
    within(Quantity::Namespaces, counts.namespaces)?;
    within(Quantity::Tables, counts.tables)?;
    within(Quantity::Views, counts.views)
}

/// No change gives a row, or a counter, a number above the bound of its quantity.
fn numbers_within(changes: &Listed<Change>) -> Result<(), Refusal>
    ensures { Sees (first_refusal (limits_put changes.now)) (λ _. ⊤) result }
{
    own_within(changes, Own::AllowedLocations, Quantity::AllowedLocations)?;
    parts_within(changes)?;
    properties_within(changes)?;
    unless(has_heavy(changes), Quantity::Weight)?;
    unless(has_heavy_view(changes), Quantity::Weight)?;
    own_within(changes, Own::NextId, Quantity::NextId)?;
    own_within(changes, Own::NextSerial, Quantity::NextSerial)?;
    own_within(changes, Own::Version, Quantity::Version)?;
    own_within(changes, Own::ViewVersion, Quantity::Version)
}

/// No change gives a table or a view more parts of a kind than it may have.
#[tactic(auto, unfolding(crate::specs::Counted::part_limits))]
fn parts_within(changes: &Listed<Change>) -> Result<(), Refusal>
    ensures { Sees (part_limits changes.now) (λ _. ⊤) result }
{
    own_within(changes, Own::Schemas, Quantity::Schemas)?;
    own_within(changes, Own::PartitionSpecs, Quantity::PartitionSpecs)?;
    own_within(changes, Own::SortOrders, Quantity::SortOrders)?;
    own_within(changes, Own::Refs, Quantity::Refs)?;
    own_within(changes, Own::ViewSchemas, Quantity::Schemas)?;
    own_within(changes, Own::Snapshots, Quantity::Snapshots)
}

/// No change gives a row more properties than it may have.
#[tactic(auto, unfolding(crate::specs::Counted::property_limits))]
fn properties_within(changes: &Listed<Change>) -> Result<(), Refusal>
    ensures { Sees (property_limits changes.now) (λ _. ⊤) result }
{
    let properties = Quantity::Properties;
    own_within(changes, Own::CatalogProperties, properties)?;
    own_within(changes, Own::NamespaceProperties, properties)?;
    own_within(changes, Own::TableProperties, properties)?;
    own_within(changes, Own::ViewProperties, properties)
}

/// How many rows of each kind there are once the changes are made.
#[tactic(auto, using(crate::proofs::BoundsLemmas::few_rows))]
fn counts_after(state: &State, changes: &Listed<Change>) -> Counts
    requires { IsSound state.now.rows }
    ensures { result ≡ counts_after state.now.rows changes.now }
{
    let access = state.access();
    let content = state.content();
    let changes = changes.as_slice();
    Counts {
        catalogs: count_after(state, changes, RowKind::Catalog, content.catalogs().len()),
        principals: count_after(
            state,
            changes,
            RowKind::Principal,
            access.principals().len(),
        ),
        principal_roles: count_after(
            state,
            changes,
            RowKind::PrincipalRole,
            access.principal_roles().len(),
        ),
        catalog_roles: count_after(
            state,
            changes,
            RowKind::CatalogRole,
            access.catalog_roles().len(),
        ),
        members: count_after(state, changes, RowKind::Member, access.members().len()),
        joins: count_after(state, changes, RowKind::Join, access.joins().len()),
        grants: count_after(state, changes, RowKind::Grant, access.grants().len()),
        namespaces: count_after(
            state,
            changes,
            RowKind::Namespace,
            content.namespaces().len(),
        ),
        tables: count_after(state, changes, RowKind::Table, content.tables().len()),
        views: count_after(state, changes, RowKind::View, content.views().len()),
    }
}

/// How many rows of the kind there are once the changes are made, of which there were so many.
fn count_after(state: &State, changes: &[Change], kind: RowKind, before: usize) -> u64
    requires { before ≤ 100000 }
    ensures { result ≡ count_after kind state.now.rows changes.now before }
{
    let put = changes.iter().filter(|change| puts(change, kind)).count();
    let taken = changes
        .iter()
        .filter(|change| takes(state, change, kind))
        .count();
    (before as u64 + put as u64).saturating_sub(taken as u64)
}

/// Whether the change puts a row of the kind.
fn puts(change: &Change, kind: RowKind) -> bool
    ensures { result ≡ puts kind change.now }
{
    match change.kind_put() {
        Some(put) => put == kind,
        None => false,
    }
}

/// Whether the change takes a row of the kind away, or puts another in the place of one.
fn takes(state: &State, change: &Change, kind: RowKind) -> bool
    ensures { result ≡ takes kind state.now.rows change.now }
{
    match kind_taken(state, change) {
        Some(taken) => taken == kind,
        None => false,
    }
}

/// The kind of the row of the state that the change takes away, or puts another in the place of.
#[tactic(auto, using(crate::proofs::BoundsLemmas::known_row))]
fn kind_taken(state: &State, change: &Change) -> Option<RowKind>
    ensures { result ≡ kind_taken state.now.rows change.now }
{
    let access = state.access();
    let content = state.content();
    match change {
        Change::PutPrincipal(row) => where_known(
            RowKind::Principal,
            access.principal(row.row().id).is_some(),
        ),
        Change::PutPrincipalRole(row) => where_known(
            RowKind::PrincipalRole,
            access.principal_role(row.id).is_some(),
        ),
        Change::PutCatalog(row) => where_known(
            RowKind::Catalog,
            content.catalog_of(row.row().id).is_some(),
        ),
        Change::PutCatalogRole(row) => where_known(
            RowKind::CatalogRole,
            access.catalog_role(row.id).is_some(),
        ),
        Change::PutNamespace(row) => where_known(
            RowKind::Namespace,
            content.namespace_of(row.row().id).is_some(),
        ),
        Change::PutTable(table) => where_known(
            RowKind::Table,
            content.table_of(table.row().row().id).is_some(),
        ),
        Change::PutView(row) => where_known(RowKind::View, content.view_of(row.row().id).is_some()),
        Change::DropPrincipal(_) => Some(RowKind::Principal),
        Change::DropPrincipalRole(_) => Some(RowKind::PrincipalRole),
        Change::DropCatalog(_) => Some(RowKind::Catalog),
        Change::DropCatalogRole(_) => Some(RowKind::CatalogRole),
        Change::DropNamespace(_) => Some(RowKind::Namespace),
        Change::DropTable(_) => Some(RowKind::Table),
        Change::DropView(_) => Some(RowKind::View),
        Change::DropMember(_) => Some(RowKind::Member),
        Change::DropJoin(_) => Some(RowKind::Join),
        Change::DropGrant(_) => Some(RowKind::Grant),
        Change::Time(_)
        | Change::NextId(_)
        | Change::NextSerial(_)
        | Change::PutMember(_)
        | Change::PutJoin(_)
        | Change::PutGrant(_)
        | Change::PutSession(_)
        | Change::PutToken(_) => None,
    }
}

/// The kind, where a row of it is known.
fn where_known(kind: RowKind, known: bool) -> Option<RowKind>
    ensures { result ≡ where_known kind known }
{
    if known { Some(kind) } else { None }
}

/// No change gives a row, or a counter, such a number above the bound of its quantity.
fn own_within(changes: &Listed<Change>, own: Own, quantity: Quantity) -> Result<(), Refusal>
    ensures { Sees (any_above quantity (own_of own) changes.now) (λ _. ⊤) result }
{
    unless(has_above(changes, own, bound_of(quantity)), quantity)
}

/// Whether a change gives a row, or a counter, a number above the bound.
fn has_above(changes: &Listed<Change>, own: Own, bound: u64) -> bool
    ensures { result ≡ list_any (λ change. nat_lt bound (own_of own change)) changes.now }
{
    changes.iter().any(|change| own_of(change, own) > bound)
}

/// The number that the change gives a row, or a counter.
fn own_of(change: &Change, own: Own) -> u64
    ensures { result ≡ own_of own change.now }
{
    let numbers = numbers_of(change);
    match own {
        Own::AllowedLocations => numbers.allowed,
        Own::CatalogProperties => numbers.catalog_properties,
        Own::NamespaceProperties => numbers.namespace_properties,
        Own::Schemas => numbers.schemas,
        Own::PartitionSpecs => numbers.specs,
        Own::SortOrders => numbers.orders,
        Own::Refs => numbers.refs,
        Own::Snapshots => numbers.snapshots,
        Own::TableProperties => numbers.table_properties,
        Own::Version => numbers.version,
        Own::ViewSchemas => numbers.view_schemas,
        Own::ViewProperties => numbers.view_properties,
        Own::ViewVersion => numbers.view_version,
        Own::NextId => numbers.next_id,
        Own::NextSerial => numbers.next_serial,
    }
}

/// Refuses where a number of the quantity is above its bound.
fn unless(above: bool, quantity: Quantity) -> Result<(), Refusal>
    ensures { Sees (refuse_if above (Limit quantity (bound_of quantity))) (λ _. ⊤) result }
{
    if above {
        return Err(limit(quantity));
    }
    Ok(())
}

/// The numbers of a change by itself: what a row has that it puts, and the counters that it sets.
#[tactic(auto, unfolding(crate::specs::Counted::catalogs_put, crate::specs::Counted::namespaces_put, crate::specs::Counted::tables_put, crate::specs::Counted::views_put, crate::specs::Counted::id_set, crate::specs::Counted::serial_set, pol_tables::specs::Table::rows_with, pol_tables::specs::Table::rows_without))]
fn numbers_of(change: &Change) -> Numbers
    ensures { result ≡ numbers_of change.now }
{
    match change {
        Change::NextId(id) => Numbers {
            next_id: *id,
            ..NOTHING
        },
        Change::NextSerial(serial) => Numbers {
            next_serial: *serial,
            ..NOTHING
        },
        Change::PutCatalog(row) => Numbers {
            allowed: row.row().allowed.len() as u64,
            catalog_properties: row.row().properties.len() as u64,
            ..NOTHING
        },
        Change::PutNamespace(row) => Numbers {
            namespace_properties: row.row().properties.len() as u64,
            ..NOTHING
        },
        Change::PutTable(table) => table_numbers(table.row().row()),
        Change::PutView(row) => view_numbers(row.row()),
        Change::Time(_)
        | Change::PutPrincipal(_)
        | Change::DropPrincipal(_)
        | Change::PutPrincipalRole(_)
        | Change::DropPrincipalRole(_)
        | Change::DropCatalog(_)
        | Change::PutCatalogRole(_)
        | Change::DropCatalogRole(_)
        | Change::DropNamespace(_)
        | Change::DropTable(_)
        | Change::DropView(_)
        | Change::PutMember(_)
        | Change::DropMember(_)
        | Change::PutJoin(_)
        | Change::DropJoin(_)
        | Change::PutGrant(_)
        | Change::DropGrant(_)
        | Change::PutSession(_)
        | Change::PutToken(_) => NOTHING,
    }
}

/// The numbers of a table that is put.
fn table_numbers(row: &TableRow) -> Numbers
    ensures { result ≡ table_numbers row.now }
{
    let metadata = row.metadata.get();
    Numbers {
        schemas: metadata.schemas.len() as u64,
        specs: metadata.partition_specs.len() as u64,
        orders: metadata.sort_orders.len() as u64,
        refs: metadata.refs.len() as u64,
        snapshots: metadata.snapshots.len() as u64,
        table_properties: metadata.properties.len() as u64,
        version: row.version,
        ..NOTHING
    }
}

/// The numbers of a view that is put.
fn view_numbers(row: &ViewRow) -> Numbers
    ensures { result ≡ view_numbers row.now }
{
    let metadata = row.metadata.get();
    Numbers {
        view_schemas: metadata.schemas.len() as u64,
        view_properties: metadata.properties.len() as u64,
        view_version: row.version,
        ..NOTHING
    }
}

/// Whether a change puts a table whose metadata is above its bound.
fn has_heavy(changes: &Listed<Change>) -> bool
    ensures { result ≡ list_any (λ change. nat_lt (bound_of quantity.Weight) (weight_put change)) changes.now }
{
    changes.iter().any(|change| is_heavy(change))
}

/// Whether the change puts such a table.
#[tactic(auto, using(crate::proofs::BoundsLemmas::heavy_capped), unfolding(crate::specs::Counted::tables_put, pol_tables::specs::Table::rows_with, pol_tables::specs::Table::rows_without))]
fn is_heavy(change: &Change) -> bool
    ensures { result ≡ nat_lt (bound_of quantity.Weight) (weight_put change.now) }
{
    if let Change::PutTable(table) = change {
        return table.row().row().metadata.get().weight() > bound_of(Quantity::Weight);
    }
    false
}

/// Whether a change puts a view whose metadata is above its bound.
fn has_heavy_view(changes: &Listed<Change>) -> bool
    ensures { result ≡ list_any (λ change. nat_lt (bound_of quantity.Weight) (view_weight_put change)) changes.now }
{
    changes.iter().any(|change| is_heavy_view(change))
}

/// Whether the change puts such a view.
#[tactic(auto, using(crate::proofs::BoundsLemmas::heavy_capped), unfolding(crate::specs::Counted::views_put, pol_tables::specs::Table::rows_with, pol_tables::specs::Table::rows_without))]
fn is_heavy_view(change: &Change) -> bool
    ensures { result ≡ nat_lt (bound_of quantity.Weight) (view_weight_put change.now) }
{
    if let Change::PutView(row) = change {
        return row.row().metadata.get().weight() > bound_of(Quantity::Weight);
    }
    false
}
