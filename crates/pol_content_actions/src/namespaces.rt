ghost use Rattle.std.specs.Prelude.{◌≡◌, map, Some, IfOk, option_copied, ◌≤◌, ◌^◌};
ghost use Rattle.pol_content.specs.Content.{namespace_id};
ghost use Rattle.pol_properties.specs.Properties.{keys, missing_keys, pairs_updated, removed_keys};
ghost use Rattle.pol_tables.specs.Table.{row_of};
ghost use Rattle.pol_rules.specs.Judged.{Acts, changes_to};
ghost use Rattle.pol_content_actions.specs.Namespaces.{create_namespace, drop_namespace, head_namespace, list_namespaces, listed, load_namespace, update_properties, with_altered, with_new_namespace, with_properties, without_namespace};
ghost use Rattle.pol_state.specs.Sound.{IsSound};
ghost use Rattle.pol_commands.specs.declared.reply.Answer.TheVariants.{NamespaceDropped, PropertiesUpdated, NamespaceCreated};

use pol_access::{Privilege, Referent, Securable};
use pol_commands::Answer;
use pol_content::{CatalogRow, Change, NamespaceRow};
use pol_names::{Namespace, Plain};
use pol_properties::Properties;
use pol_puts::put_namespace;
use pol_rules::callers::signed_in;
use pol_rules::catalog_rules::catalog_there;
use pol_rules::changes::{no_changes, one_change, under_next_id};
use pol_rules::drops::push_grants;
use pol_rules::namespace_rules::{keys_apart, levels_free, namespace_empty, parent_there};
use pol_rules::needs::allowed_on_parent;
use pol_rules::prologues::on_namespace;
use pol_rules::rules::{Acted, Asked, Undone, time_of, unchanged};
use pol_types::{Listed, OutOfMemory, Text};
use std::alloc::Global;

/// Lists the namespaces directly below a parent, or those of one level.
#[tactic(auto, using(pol_rules::proofs::LeadsLemmas::no_changes))]
pub fn list_namespaces(
    asked: &Asked<'_>,
    name: &Plain,
    parent: &Option<Namespace>,
) -> Result<Acted, Undone>
    requires { IsSound asked.now.state.now.rows }
    ensures { Acts asked.now (λ s command. list_namespaces s command name.now parent.now) result }
{
    signed_in(asked)?;
    let catalog = catalog_there(asked, name)?;
    let privilege = Privilege::NamespaceList;
    allowed_on_parent(asked, privilege, parent.as_ref(), catalog)?;
    parent_there(asked, catalog.id, parent.as_ref())?;
    let namespaces = children(asked, catalog, parent.as_ref())?;
    Ok(unchanged(asked.alloc, Answer::NamespacesListed(namespaces)))
}

/// The levels of the namespaces that are listed, in their order.
#[tactic(auto, using(crate::proofs::RowsLemmas::levels_shown))]
fn children(
    asked: &Asked<'_>,
    catalog: &CatalogRow,
    parent: Option<&Namespace>,
) -> Result<Listed<Namespace>, OutOfMemory>
    ensures { IfOk result (λ namespaces. namespaces
        ≡ listed asked.now.state.now.rows (option_copied parent.entry) catalog.now) }
{
    let content = asked.state.content();
    let rows = content.children(asked.alloc, catalog.id, parent)?;
    levels_of(asked.alloc, rows.as_slice())
}

fn levels_of(alloc: Global, rows: &[&NamespaceRow]) -> Result<Listed<Namespace>, OutOfMemory>
    ensures { IfOk result (λ levels. levels ≡ map (λ row. row.now.levels) rows.now) }
{
    let mut levels = Vec::new(alloc);
    for row in rows {
        levels.push(row.levels.clone()?)?;
    }
    Ok(Listed::from(levels))
}

/// Creates a namespace.
#[tactic(auto, using(pol_state::proofs::BoundsLemmas::next_id_bound))]
pub fn create_namespace(
    asked: &Asked<'_>,
    name: &Plain,
    levels: &Namespace,
    properties: &Properties,
) -> Result<Acted, Undone>
    requires { IsSound asked.now.state.now.rows }
    ensures { Acts asked.now (λ s command. create_namespace s command name.now levels.now properties.now) result }
{
    signed_in(asked)?;
    let catalog = catalog_there(asked, name)?;
    let parent = levels.parent(asked.alloc)?;
    let privilege = Privilege::NamespaceCreate;
    allowed_on_parent(asked, privilege, parent.as_ref(), catalog)?;
    parent_there(asked, catalog.id, parent.as_ref())?;
    // No way out behind this has to drop it.
    drop(parent);
    levels_free(asked, catalog, levels)?;
    let row = NamespaceRow {
        id: asked.state.next_id(),
        catalog: catalog.id,
        levels: levels.clone()?,
        properties: properties.clone()?,
    };
    Ok(created(asked, row)?)
}

/// The namespace is put, and an id is taken.
fn created(asked: &Asked<'_>, row: NamespaceRow) -> Result<Acted, OutOfMemory>
    requires sound { IsSound asked.now.state.now.rows }
    requires id { row.id ≡ asked.now.state.now.rows.next_id }
    requires within { asked.now.state.now.rows.next_id ≤ 2 ^ 62 }
    ensures answer { IfOk result (λ acted. acted.answer ≡ NamespaceCreated row.levels row.properties) }
    ensures changes { IfOk result (λ acted. acted.changes ≡ changes_to asked.now (λ s. with_new_namespace s row)) }
{
    Acted::of(creation_told(&row), creation_changes(asked, row))
}

/// What the creation of a namespace is answered.
fn creation_told(row: &NamespaceRow) -> Result<Answer, OutOfMemory>
    ensures { IfOk result (λ answer. answer ≡ NamespaceCreated row.now.levels row.now.properties) }
{
    let (namespace, properties) = shown(row)?;
    Ok(Answer::NamespaceCreated {
        namespace,
        properties,
    })
}

/// The changes that put a namespace under the next id.
#[tactic(auto, using(crate::proofs::ChangesLemmas::namespace_changes))]
fn creation_changes(asked: &Asked<'_>, row: NamespaceRow) -> Result<Listed<Change>, OutOfMemory>
    requires sound { IsSound asked.now.state.now.rows }
    requires id { row.id ≡ asked.now.state.now.rows.next_id }
    requires within { asked.now.state.now.rows.next_id ≤ 2 ^ 62 }
    ensures { IfOk result (λ changes. changes ≡ changes_to asked.now (λ s. with_new_namespace s row)) }
{
    let put = put_namespace(asked.alloc, row)?;
    under_next_id(asked, put)
}

/// Copies of the levels and the properties of a namespace.
fn shown(row: &NamespaceRow) -> Result<(Namespace, Properties), OutOfMemory>
    ensures { IfOk result (λ shown. (shown.0 ≡ row.now.levels) × (shown.1 ≡ row.now.properties)) }
{
    Ok((row.levels.clone()?, row.properties.clone()?))
}

/// Shows a namespace.
#[tactic(auto, using(pol_rules::proofs::ProloguesLemmas::on_namespace_stops, pol_rules::proofs::LeadsLemmas::no_changes))]
pub fn load_namespace(asked: &Asked<'_>, name: &Plain, levels: &Namespace) -> Result<Acted, Undone>
    requires { IsSound asked.now.state.now.rows }
    ensures { Acts asked.now (λ s command. load_namespace s command name.now levels.now) result }
{
    let row = on_namespace(asked, Privilege::NamespaceReadProperties, name, levels)?;
    let (namespace, properties) = shown(row)?;
    let answer = Answer::NamespaceLoaded {
        namespace,
        properties,
    };
    Ok(unchanged(asked.alloc, answer))
}

/// Tells whether a namespace is there.
#[tactic(auto, using(pol_rules::proofs::ProloguesLemmas::on_namespace_stops, pol_rules::proofs::LeadsLemmas::no_changes))]
pub fn head_namespace(asked: &Asked<'_>, name: &Plain, levels: &Namespace) -> Result<Acted, Undone>
    requires { IsSound asked.now.state.now.rows }
    ensures { Acts asked.now (λ s command. head_namespace s command name.now levels.now) result }
{
    on_namespace(asked, Privilege::NamespaceReadProperties, name, levels)?;
    Ok(unchanged(asked.alloc, Answer::NamespaceThere))
}

/// Drops a namespace.
#[tactic(auto, using(pol_rules::proofs::ProloguesLemmas::on_namespace_stops))]
pub fn drop_namespace(asked: &Asked<'_>, name: &Plain, levels: &Namespace) -> Result<Acted, Undone>
    requires { IsSound asked.now.state.now.rows }
    ensures { Acts asked.now (λ s command. drop_namespace s command name.now levels.now) result }
{
    let row = on_namespace(asked, Privilege::NamespaceDrop, name, levels)?;
    namespace_empty(asked, row)?;
    Ok(dropped(asked, row)?)
}

/// The namespace is taken away, with the grants on it.
fn dropped(asked: &Asked<'_>, row: &NamespaceRow) -> Result<Acted, OutOfMemory>
    requires sound { IsSound asked.now.state.now.rows }
    requires there { row_of namespace_id row.now.id asked.now.state.now.rows.content.namespaces ≡ Some row.now }
    ensures answer { IfOk result (λ acted. acted.answer ≡ NamespaceDropped) }
    ensures changes { IfOk result (λ acted. acted.changes ≡ changes_to asked.now (λ s. without_namespace s row.now)) }
{
    let mut changes = vec![in asked.alloc;
        Change::Time(time_of(asked)),
        Change::DropNamespace(row.id),
    ]?;
    let namespace = Referent::Securable(Securable::Namespace(row.id));
    push_grants(asked, namespace, &mut changes)?;
    Ok(Acted {
        answer: Answer::NamespaceDropped,
        changes: Listed::from(changes),
    })
}

/// Removes and sets properties of a namespace.
#[tactic(auto, using(pol_rules::proofs::ProloguesLemmas::on_namespace_stops))]
pub fn update_properties(
    asked: &Asked<'_>,
    name: &Plain,
    levels: &Namespace,
    removals: &Listed<Text>,
    updates: &Properties,
) -> Result<Acted, Undone>
    requires { IsSound asked.now.state.now.rows }
    ensures { Acts asked.now
        (λ s command. update_properties s command name.now levels.now removals.now updates.now) result }
{
    let row = on_namespace(asked, Privilege::NamespaceWriteProperties, name, levels)?;
    keys_apart(removals, updates)?;
    let answer = keys_told(asked.alloc, row, removals, updates);
    let changes = update_changes(asked, row, removals, updates);
    Ok(Acted::of(answer, changes)?)
}

/// The changes by which properties of a namespace that is there are removed and set.
fn update_changes(
    asked: &Asked<'_>,
    row: &NamespaceRow,
    removals: &Listed<Text>,
    updates: &Properties,
) -> Result<Listed<Change>, OutOfMemory>
    requires sound { IsSound asked.now.state.now.rows }
    requires there { row_of namespace_id row.now.id asked.now.state.now.rows.content.namespaces ≡ Some row.now }
    ensures { IfOk result (λ changes. changes
        ≡ changes_to asked.now (λ s. with_properties s removals.now updates.now row.now)) }
{
    let altered = with_updates(asked.alloc, row, removals, updates)?;
    altered_changes(asked, row, altered)
}

/// The namespace with its properties once the removals are removed and the updates set.
fn with_updates(
    alloc: Global,
    row: &NamespaceRow,
    removals: &Listed<Text>,
    updates: &Properties,
) -> Result<NamespaceRow, OutOfMemory>
    ensures { IfOk result (λ altered. altered
        ≡ record row.now { properties = pairs_updated removals.now updates.now row.now.properties }) }
{
    let properties = row.properties.updated(alloc, removals.as_slice(), updates)?;
    Ok(NamespaceRow {
        id: row.id,
        catalog: row.catalog,
        levels: row.levels.clone()?,
        properties,
    })
}

/// What an update of a namespace's properties is answered.
fn keys_told(
    alloc: Global,
    row: &NamespaceRow,
    removals: &Listed<Text>,
    updates: &Properties,
) -> Result<Answer, OutOfMemory>
    ensures { IfOk result (λ answer. answer
        ≡ PropertiesUpdated (missing_keys removals.now row.now.properties)
        (removed_keys removals.now row.now.properties) (keys updates.now)) }
{
    Ok(Answer::PropertiesUpdated {
        missing: row.properties.missing_keys(alloc, removals.as_slice())?,
        removed: row.properties.removed_keys(alloc, removals.as_slice())?,
        updated: updates.keys(alloc)?,
    })
}

/// The changes by which a namespace that is there is altered: none where it stays as it is.
fn altered_changes(
    asked: &Asked<'_>,
    row: &NamespaceRow,
    altered: NamespaceRow,
) -> Result<Listed<Change>, OutOfMemory>
    requires sound { IsSound asked.now.state.now.rows }
    requires there { row_of namespace_id row.now.id asked.now.state.now.rows.content.namespaces ≡ Some row.now }
    requires id { altered.id ≡ row.now.id }
    ensures { IfOk result (λ changes. changes ≡ changes_to asked.now (λ s. with_altered s altered)) }
{
    if altered == *row {
        return Ok(no_changes(asked.alloc));
    }
    let put = put_namespace(asked.alloc, altered)?;
    one_change(asked, put)
}
