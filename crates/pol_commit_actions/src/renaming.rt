//! Renaming a table.
ghost use Rattle.std.specs.Prelude.{◌≡◌, ◌&&◌, Some, IfOk, false, nat_eq};
ghost use Rattle.std.specs.Bool.{⊤};
ghost use Rattle.std.specs.Str.{bytes_eq};
ghost use Rattle.pol_rules.specs.Judged.{Acts, Judges, changes_to};
ghost use Rattle.pol_rules.specs.Needs.{forbidden};
ghost use Rattle.pol_state.specs.Sound.{IsSound};
ghost use Rattle.pol_table_rows.specs.Tables.{table_id};
ghost use Rattle.pol_tables.specs.Table.{row_of};
ghost use Rattle.pol_commit_actions.specs.Renaming.{rename_table, renamed, with_altered};
ghost use Rattle.pol_commit_actions.specs.Rules.{rename_needs};

use pol_access::Privilege;
use pol_commands::Answer;
use pol_content::{CatalogRow, Change, NamespaceRow, TableRow};
use pol_names::{Identifier, Name, Plain};
use pol_puts::put_table;
use pol_rules::callers::signed_in;
use pol_rules::catalog_rules::catalog_there;
use pol_rules::changes::one_change;
use pol_rules::namespace_rules::namespace_there;
use pol_rules::needs::{Need, allowed};
use pol_rules::rules::{Acted, Asked, Undone};
use pol_rules::table_rules::{name_free, table_there};
use pol_types::{Listed, OutOfMemory};

/// Gives a table another name, in its namespace or another one of its catalogue (Iceberg REST OpenAPI, renameTable).
#[tactic(auto, unfolding(crate::specs::Renaming::renamed_table, pol_rules::specs::Prologues::table_row_at, pol_rules::specs::Prologues::namespace_row_at))]
pub fn rename_table(
    asked: &Asked<'_>,
    name: &Plain,
    source: &Identifier,
    destination: &Identifier,
) -> Result<Acted, Undone>
    requires { IsSound asked.now.state.now.rows }
    ensures { Acts asked.now (λ s command. rename_table s command name.now source.now destination.now) result }
{
    signed_in(asked)?;
    let catalog = catalog_there(asked, name)?;
    allowed_to_rename(asked, source, destination, catalog)?;
    namespace_there(asked, catalog.id, &source.namespace)?;
    let namespace = namespace_there(asked, catalog.id, &destination.namespace)?;
    let row = table_there(asked, catalog, source)?;
    name_free(asked, namespace, &destination.name)?;
    let changes = renamed_changes(asked, row, namespace, &destination.name)?;
    Ok(Acted {
        answer: Answer::TableRenamed,
        changes,
    })
}

/// The caller may drop the table where it is, and make one where it is to be.
fn allowed_to_rename(
    asked: &Asked<'_>,
    source: &Identifier,
    destination: &Identifier,
    catalog: &CatalogRow,
) -> Result<(), Undone>
    requires { IsSound asked.now.state.now.rows }
    ensures { let s = asked.now.state.now.rows in
        Judges (forbidden s asked.now.command.now (rename_needs s source.now destination.now catalog.now)) (λ _. ⊤)
        result }
{
    let content = asked.state.content();
    let dropping = Need {
        privilege: Privilege::TableDrop,
        on: content.deepest_of_table(asked.alloc, catalog.id, source)?,
    };
    let creating = Need {
        privilege: Privilege::TableCreate,
        on: content.deepest(asked.alloc, catalog.id, &destination.namespace)?,
    };
    allowed(asked, &[dropping, creating])
}

/// The change by which a table gets a name that it doesn't have.
#[tactic(auto, using(crate::proofs::ChangesLemmas::renamed_changes))]
fn renamed_changes(
    asked: &Asked<'_>,
    row: &TableRow,
    namespace: &NamespaceRow,
    name: &Name,
) -> Result<Listed<Change>, OutOfMemory>
    requires sound { IsSound asked.now.state.now.rows }
    requires there { row_of table_id row.now.id asked.now.state.now.rows.content.tables ≡ Some row.now }
    requires other { (nat_eq namespace.now.id row.now.namespace && bytes_eq name.now row.now.name) ≡ false }
    ensures { IfOk result (λ changes. changes
        ≡ changes_to asked.now (λ s. with_altered s (renamed name.now row.now namespace.now))) }
{
    let renamed = TableRow {
        id: row.id,
        namespace: namespace.id,
        name: name.clone()?,
        version: row.version,
        moves: row.moves,
        location: row.location.clone()?,
        metadata: row.metadata.clone()?,
    };
    one_change(asked, put_table(asked.alloc, renamed)?)
}
