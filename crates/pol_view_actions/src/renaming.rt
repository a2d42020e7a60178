//! Renaming a view.
ghost use Rattle.std.specs.Prelude.{◌≡◌, ◌&&◌, Some, IfOk, false, nat_eq};
ghost use Rattle.std.specs.Bool.{⊤};
ghost use Rattle.std.specs.Str.{bytes_eq};
ghost use Rattle.pol_rules.specs.Judged.{Acts, Judges, changes_to};
ghost use Rattle.pol_rules.specs.Needs.{forbidden};
ghost use Rattle.pol_state.specs.Sound.{IsSound};
ghost use Rattle.pol_tables.specs.Table.{row_of};
ghost use Rattle.pol_view_rows.specs.Views.{view_id};
ghost use Rattle.pol_view_actions.specs.Altered.{with_altered};
ghost use Rattle.pol_view_actions.specs.Renaming.{rename_needs, rename_view, renamed};

use pol_access::Privilege;
use pol_commands::Answer;
use pol_content::{CatalogRow, Change, NamespaceRow, ViewRow};
use pol_names::{Identifier, Name, Plain};
use pol_puts::put_view;
use pol_rules::callers::signed_in;
use pol_rules::catalog_rules::catalog_there;
use pol_rules::changes::one_change;
use pol_rules::namespace_rules::namespace_there;
use pol_rules::needs::{Need, allowed};
use pol_rules::rules::{Acted, Asked, Undone};
use pol_rules::table_rules::name_free;
use pol_rules::view_rules::view_there;
use pol_table_actions::copying::copied;
use pol_types::{Listed, OutOfMemory, both};

/// Gives a view another name, in its namespace or another one of its catalogue (Iceberg REST OpenAPI, renameView).
#[tactic(auto, unfolding(crate::specs::Renaming::renamed_view, pol_rules::specs::Prologues::view_row_at, pol_rules::specs::Prologues::namespace_row_at))]
pub fn rename_view(
    asked: &Asked<'_>,
    name: &Plain,
    source: &Identifier,
    destination: &Identifier,
) -> Result<Acted, Undone>
    requires { IsSound asked.now.state.now.rows }
    ensures { Acts asked.now (λ s command. rename_view s command name.now source.now destination.now) result }
{
    signed_in(asked)?;
    let catalog = catalog_there(asked, name)?;
    allowed_to_rename(asked, source, destination, catalog)?;
    namespace_there(asked, catalog.id, &source.namespace)?;
    let namespace = namespace_there(asked, catalog.id, &destination.namespace)?;
    let row = view_there(asked, catalog, source)?;
    name_free(asked, namespace, &destination.name)?;
    let changes = renamed_changes(asked, row, namespace, &destination.name)?;
    Ok(Acted {
        answer: Answer::ViewRenamed,
        changes,
    })
}

/// The caller may drop the view where it is, and make one where it is to be.
fn allowed_to_rename(
    asked: &Asked<'_>,
    source: &Identifier,
    destination: &Identifier,
    catalog: &CatalogRow,
) -> Result<(), Undone>
    requires { IsSound asked.now.state.now.rows }
    ensures { let s = asked.now.state.now.rows in
        Judges (forbidden s asked.now.command.now (rename_needs s source.now destination.now catalog.now))
        (λ _. ⊤) result }
{
    let content = asked.state.content();
    let dropping = Need {
        privilege: Privilege::ViewDrop,
        on: content.deepest_of_view(asked.alloc, catalog.id, source)?,
    };
    let creating = Need {
        privilege: Privilege::ViewCreate,
        on: content.deepest(asked.alloc, catalog.id, &destination.namespace)?,
    };
    allowed(asked, &[dropping, creating])
}

/// The change by which a view gets a name that it doesn't have.
#[tactic(auto, using(crate::proofs::ChangesLemmas::renamed_changes))]
fn renamed_changes(
    asked: &Asked<'_>,
    row: &ViewRow,
    namespace: &NamespaceRow,
    name: &Name,
) -> Result<Listed<Change>, OutOfMemory>
    requires sound { IsSound asked.now.state.now.rows }
    requires there { row_of view_id row.now.id asked.now.state.now.rows.content.views ≡ Some row.now }
    requires other { (nat_eq namespace.now.id row.now.namespace && bytes_eq name.now row.now.name) ≡ false }
    ensures { IfOk result (λ changes. changes
        ≡ changes_to asked.now (λ s. with_altered s (renamed name.now row.now namespace.now))) }
{
    let (name, metadata) = both(copied(name), copied(&row.metadata))?;
    let renamed = ViewRow {
        id: row.id,
        namespace: namespace.id,
        name,
        version: row.version,
        metadata,
    };
    let put = put_view(asked.alloc, renamed)?;
    one_change(asked, put)
}
