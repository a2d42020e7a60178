ghost use Rattle.std.specs.Prelude.{◌≡◌, map, Some, IfOk};
ghost use Rattle.pol_commands.specs.declared.reply.Answer.TheVariants.{TableDropped};
ghost use Rattle.pol_rules.specs.Judged.{Acts, changes_to};
ghost use Rattle.pol_state.specs.Sound.{IsSound};
ghost use Rattle.pol_tables.specs.Table.{row_of};
ghost use Rattle.pol_table_actions.specs.Tables.{drop_table, head_table, identifier_in, list_tables, listed, report_metrics, without_table};
ghost use Rattle.pol_table_rows.specs.Tables.{table_id};

use crate::copying::copies;
use pol_access::{Privilege, Referent, Securable};
use pol_commands::Answer;
use pol_content::{Change, NamespaceRow, TableRow};
use pol_names::{Identifier, Namespace, Plain};
use pol_rules::drops::push_grants;
use pol_rules::prologues::{at_table, on_namespace};
use pol_rules::rules::{Acted, Asked, Undone, time_of, unchanged};
use pol_types::{Listed, OutOfMemory};
use std::alloc::Global;

/// Lists the tables of a namespace.
#[tactic(auto, using(pol_rules::proofs::ProloguesLemmas::on_namespace_stops, pol_rules::proofs::LeadsLemmas::no_changes))]
pub fn list_tables(asked: &Asked<'_>, name: &Plain, levels: &Namespace) -> Result<Acted, Undone>
    requires { IsSound asked.now.state.now.rows }
    ensures { Acts asked.now (λ s command. list_tables s command name.now levels.now) result }
{
    let row = on_namespace(asked, Privilege::TableList, name, levels)?;
    let tables = listed(asked, row)?;
    Ok(unchanged(asked.alloc, Answer::TablesListed(tables)))
}

/// The tables of a namespace, in byte order of their names.
#[tactic(auto, using(crate::proofs::RowsLemmas::identifiers_shown))]
fn listed(asked: &Asked<'_>, row: &NamespaceRow) -> Result<Listed<Identifier>, OutOfMemory>
    ensures { IfOk result (λ identifiers. identifiers ≡ listed asked.now.state.now.rows row.now) }
{
    let tables = asked.state.content().tables_in(asked.alloc, row.id)?;
    identifiers_of(asked.alloc, &row.levels, tables.as_slice())
}

/// The identifiers of tables in the namespace of these levels.
fn identifiers_of(
    alloc: Global,
    levels: &Namespace,
    tables: &[&TableRow],
) -> Result<Listed<Identifier>, OutOfMemory>
    ensures { IfOk result (λ identifiers. identifiers
        ≡ map (λ table. identifier_in levels.now table.now.name) tables.now) }
{
    let mut identifiers = Vec::new(alloc);
    for table in tables {
        identifiers.push(identifier_in(levels, table)?)?;
    }
    Ok(Listed::from(identifiers))
}

/// The identifier of a table in the namespace of these levels.
fn identifier_in(levels: &Namespace, table: &TableRow) -> Result<Identifier, OutOfMemory>
    ensures { IfOk result (λ identifier. identifier ≡ identifier_in levels.now table.now.name) }
{
    let (namespace, name) = copies(levels, &table.name)?;
    Ok(Identifier { namespace, name })
}

/// Tells whether a table is there.
#[tactic(auto, using(pol_rules::proofs::ProloguesLemmas::at_table_stops, pol_rules::proofs::LeadsLemmas::no_changes))]
pub fn head_table(asked: &Asked<'_>, name: &Plain, identifier: &Identifier) -> Result<Acted, Undone>
    requires { IsSound asked.now.state.now.rows }
    ensures { Acts asked.now (λ s command. head_table s command name.now identifier.now) result }
{
    at_table(asked, Privilege::TableReadProperties, name, identifier)?;
    Ok(unchanged(asked.alloc, Answer::TableThere))
}

/// Takes a report on a table, of which nothing is kept.
#[tactic(auto, using(pol_rules::proofs::ProloguesLemmas::at_table_stops, pol_rules::proofs::LeadsLemmas::no_changes))]
pub fn report_metrics(
    asked: &Asked<'_>,
    name: &Plain,
    identifier: &Identifier,
) -> Result<Acted, Undone>
    requires { IsSound asked.now.state.now.rows }
    ensures { Acts asked.now (λ s command. report_metrics s command name.now identifier.now) result }
{
    at_table(asked, Privilege::TableReadProperties, name, identifier)?;
    Ok(unchanged(asked.alloc, Answer::MetricsReported))
}

/// Drops a table.
#[tactic(auto, using(pol_rules::proofs::ProloguesLemmas::at_table_stops))]
pub fn drop_table(asked: &Asked<'_>, name: &Plain, identifier: &Identifier) -> Result<Acted, Undone>
    requires { IsSound asked.now.state.now.rows }
    ensures { Acts asked.now (λ s command. drop_table s command name.now identifier.now) result }
{
    let row = at_table(asked, Privilege::TableDrop, name, identifier)?;
    Ok(dropped(asked, row)?)
}

/// The table is taken away, with the grants on it.
fn dropped(asked: &Asked<'_>, row: &TableRow) -> Result<Acted, OutOfMemory>
    requires sound { IsSound asked.now.state.now.rows }
    requires there { row_of table_id row.now.id asked.now.state.now.rows.content.tables ≡ Some row.now }
    ensures answer { IfOk result (λ acted. acted.answer ≡ TableDropped) }
    ensures changes { IfOk result (λ acted. acted.changes ≡ changes_to asked.now (λ s. without_table s row.now)) }
{
    let mut changes = vec![in asked.alloc;
        Change::Time(time_of(asked)),
        Change::DropTable(row.id),
    ]?;
    let table = Referent::Securable(Securable::Table(row.id));
    push_grants(asked, table, &mut changes)?;
    Ok(Acted {
        answer: Answer::TableDropped,
        changes: Listed::from(changes),
    })
}
