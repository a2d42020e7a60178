//! The actions on views that are there, but those that change one.
ghost use Rattle.std.specs.Prelude.{◌≡◌, map, Some, IfOk};
ghost use Rattle.pol_commands.specs.declared.reply.Answer.TheVariants.{ViewDropped};
ghost use Rattle.pol_rules.specs.Judged.{Acts, changes_to};
ghost use Rattle.pol_state.specs.Sound.{IsSound};
ghost use Rattle.pol_tables.specs.Table.{row_of};
ghost use Rattle.pol_view_rows.specs.Views.{view_id};
ghost use Rattle.pol_table_actions.specs.Tables.{identifier_in};
ghost use Rattle.pol_view_actions.specs.Views.{drop_view, head_view, list_views, listed, load_view, loaded, metadata_location, without_view};

use pol_access::{Privilege, Referent, Securable};
use pol_commands::Answer;
use pol_content::{Change, NamespaceRow, ViewRow};
use pol_meta::metadata_file;
use pol_names::{Identifier, Namespace, Plain};
use pol_rules::drops::push_grants;
use pol_rules::prologues::{at_view, on_namespace};
use pol_rules::rules::{Acted, Asked, Undone, time_of, unchanged};
use pol_types::{Listed, OutOfMemory, Text};
use std::alloc::Global;

/// Lists the views of a namespace.
#[tactic(auto, using(pol_rules::proofs::ProloguesLemmas::on_namespace_stops, pol_rules::proofs::LeadsLemmas::no_changes))]
pub fn list_views(asked: &Asked<'_>, name: &Plain, levels: &Namespace) -> Result<Acted, Undone>
    requires { IsSound asked.now.state.now.rows }
    ensures { Acts asked.now (λ s command. list_views s command name.now levels.now) result }
{
    let row = on_namespace(asked, Privilege::ViewList, name, levels)?;
    let views = listed(asked, row)?;
    Ok(unchanged(asked.alloc, Answer::ViewsListed(views)))
}

/// The views of a namespace, in byte order of their names.
#[tactic(auto, using(crate::proofs::RowsLemmas::identifiers_shown))]
fn listed(asked: &Asked<'_>, row: &NamespaceRow) -> Result<Listed<Identifier>, OutOfMemory>
    ensures { IfOk result (λ identifiers. identifiers ≡ listed asked.now.state.now.rows row.now) }
{
    let views = asked.state.content().views_in(asked.alloc, row.id)?;
    identifiers_of(asked.alloc, &row.levels, views.as_slice())
}

fn identifiers_of(
    alloc: Global,
    levels: &Namespace,
    views: &[&ViewRow],
) -> Result<Listed<Identifier>, OutOfMemory>
    ensures { IfOk result (λ identifiers. identifiers
        ≡ map (λ view. identifier_in levels.now view.now.name) views.now) }
{
    let mut identifiers = Vec::new(alloc);
    for view in views {
        identifiers.push(Identifier {
            namespace: levels.clone()?,
            name: view.name.clone()?,
        })?;
    }
    Ok(Listed::from(identifiers))
}

/// Shows a view.
#[tactic(auto, using(pol_rules::proofs::ProloguesLemmas::at_view_stops, pol_rules::proofs::LeadsLemmas::no_changes))]
pub fn load_view(asked: &Asked<'_>, name: &Plain, identifier: &Identifier) -> Result<Acted, Undone>
    requires { IsSound asked.now.state.now.rows }
    ensures { Acts asked.now (λ s command. load_view s command name.now identifier.now) result }
{
    let row = at_view(asked, Privilege::ViewReadProperties, name, identifier)?;
    let answer = loaded(asked.alloc, row)?;
    Ok(unchanged(asked.alloc, answer))
}

/// The answer that shows a view. It shares the metadata with the row.
pub(crate) fn loaded(alloc: Global, row: &ViewRow) -> Result<Answer, OutOfMemory>
    ensures { IfOk result (λ answer. answer ≡ loaded row.now) }
{
    Ok(Answer::ViewLoaded {
        metadata_location: metadata_location(alloc, row)?,
        metadata: row.metadata.clone()?,
    })
}

/// Where the metadata of a view is.
fn metadata_location(alloc: Global, row: &ViewRow) -> Result<Text, OutOfMemory>
    ensures { IfOk result (λ text. text ≡ metadata_location row.now) }
{
    let metadata = row.metadata.get();
    Ok(metadata_file(
        alloc,
        metadata.location.as_str(),
        row.version,
        &metadata.view_uuid,
    )?)
}

/// Tells whether a view is there.
#[tactic(auto, using(pol_rules::proofs::ProloguesLemmas::at_view_stops, pol_rules::proofs::LeadsLemmas::no_changes))]
pub fn head_view(asked: &Asked<'_>, name: &Plain, identifier: &Identifier) -> Result<Acted, Undone>
    requires { IsSound asked.now.state.now.rows }
    ensures { Acts asked.now (λ s command. head_view s command name.now identifier.now) result }
{
    at_view(asked, Privilege::ViewReadProperties, name, identifier)?;
    Ok(unchanged(asked.alloc, Answer::ViewThere))
}

/// Drops a view.
#[tactic(auto, using(pol_rules::proofs::ProloguesLemmas::at_view_stops))]
pub fn drop_view(asked: &Asked<'_>, name: &Plain, identifier: &Identifier) -> Result<Acted, Undone>
    requires { IsSound asked.now.state.now.rows }
    ensures { Acts asked.now (λ s command. drop_view s command name.now identifier.now) result }
{
    let row = at_view(asked, Privilege::ViewDrop, name, identifier)?;
    Ok(dropped(asked, row)?)
}

/// The view is taken away, with the grants on it.
fn dropped(asked: &Asked<'_>, row: &ViewRow) -> Result<Acted, OutOfMemory>
    requires sound { IsSound asked.now.state.now.rows }
    requires there { row_of view_id row.now.id asked.now.state.now.rows.content.views ≡ Some row.now }
    ensures answer { IfOk result (λ acted. acted.answer ≡ ViewDropped) }
    ensures changes { IfOk result (λ acted. acted.changes ≡ changes_to asked.now (λ s. without_view s row.now)) }
{
    let mut changes = vec![in asked.alloc; Change::Time(time_of(asked)), Change::DropView(row.id)]?;
    let view = Referent::Securable(Securable::View(row.id));
    push_grants(asked, view, &mut changes)?;
    Ok(Acted {
        answer: Answer::ViewDropped,
        changes: Listed::from(changes),
    })
}
