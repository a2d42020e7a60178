ghost use Rattle.std.specs.Prelude.{◌≡◌, ◌<◌, Some, option_copied};
ghost use Rattle.std.specs.Bool.{⊤};
ghost use Rattle.pol_content.specs.Content.{namespace_id, namespace_named};
ghost use Rattle.pol_names.specs.Namespace.{dotted};
ghost use Rattle.pol_tables.specs.Table.{row_of};
ghost use Rattle.pol_rules.specs.Judged.{Judges, Tells};
ghost use Rattle.pol_rules.specs.Rules.{key_twice, namespace_holds, no_namespace, no_parent, name_taken};
ghost use Rattle.pol_state.specs.Sound.{IsSound};

use crate::rules::{Asked, Undone};
use pol_commands::Refusal;
use pol_content::{CatalogRow, NamespaceRow};
use pol_names::Namespace;
use pol_properties::Properties;
use pol_types::{Listed, Text};

/// The namespace of these levels in a catalogue, named by its id.
#[tactic(auto, unfolding(crate::specs::Rules::no_namespace))]
pub fn namespace_there<'a>(
    asked: &Asked<'a>,
    catalog: u64,
    levels: &Namespace,
) -> Result<&'a NamespaceRow, Undone>
    requires { IsSound asked.now.state.now.rows }
    ensures { let s = asked.now.state.now.rows in
        Judges (no_namespace s catalog levels.now)
        (λ row. (namespace_named catalog levels.now s.content ≡ Some row.now)
        × (row_of namespace_id row.now.id s.content.namespaces ≡ Some row.now)) result }
{
    let _levels = levels.levels();
    match asked
        .state
        .content()
        .first_missing(asked.alloc, catalog, levels)?
    {
        Some(namespace) => Err(Undone::Refused(Refusal::NoNamespace { namespace })),
        None => Ok(asked.state.content().namespace(catalog, levels).unwrap()),
    }
}

/// The parent, where there is to be one.
pub fn parent_there(
    asked: &Asked<'_>,
    catalog: u64,
    parent: Option<&Namespace>,
) -> Result<(), Undone>
    requires { IsSound asked.now.state.now.rows }
    ensures { Judges (no_parent asked.now.state.now.rows catalog (option_copied parent.entry)) (λ _. ⊤) result }
{
    let Some(parent) = parent else {
        return Ok(());
    };
    namespace_there(asked, catalog, parent)?;
    Ok(())
}

/// No namespace of the catalogue has the levels.
#[tactic(auto, unfolding(crate::specs::Rules::name_taken))]
pub fn levels_free(
    asked: &Asked<'_>,
    catalog: &CatalogRow,
    levels: &Namespace,
) -> Result<(), Undone>
    requires { IsSound asked.now.state.now.rows }
    ensures { let found = namespace_named catalog.now.id levels.now asked.now.state.now.rows.content in
        Tells (name_taken found (dotted levels.now)) (λ _. ⊤) result }
{
    let content = asked.state.content();
    if content.namespace(catalog.id, levels).is_some() {
        return Err(Undone::Refused(Refusal::NameTaken {
            name: Text::from(levels.to_string(asked.alloc)?),
        }));
    }
    Ok(())
}

/// The namespace has no deeper one and no table.
#[tactic(auto, unfolding(crate::specs::Rules::namespace_holds))]
pub fn namespace_empty(asked: &Asked<'_>, namespace: &NamespaceRow) -> Result<(), Undone>
    ensures { Tells (namespace_holds asked.now.state.now.rows namespace.now) (λ _. ⊤) result }
{
    if !asked.state.content().is_empty(namespace.id) {
        return Err(Undone::Refused(Refusal::NotEmpty {
            name: Text::from(namespace.levels.to_string(asked.alloc)?),
        }));
    }
    Ok(())
}

/// No key is both removed and set.
#[tactic(auto, unfolding(crate::specs::Rules::key_twice))]
pub fn keys_apart(removals: &Listed<Text>, updates: &Properties) -> Result<(), Undone>
    ensures { Tells (key_twice removals.now updates.now) (λ _. ⊤) result }
{
    if let Some(key) = updates.first_among(removals.as_slice()) {
        return Err(Undone::Refused(Refusal::KeyTwice { key: key.clone()? }));
    }
    Ok(())
}
