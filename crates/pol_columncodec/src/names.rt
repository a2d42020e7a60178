//! Names of the fields of a struct.
ghost use Rattle.std.specs.Prelude.{◌≡◌, ◌++◌, ◌∷◌, [], IfOk, option_copied};
ghost use Rattle.std.specs.List.{list_any};
ghost use Rattle.pol_columnforms.specs.Named as spec;

use crate::distinct::differ;
use pol_meta::{Column, Part};
use pol_types::{OutOfMemory, Text};
use std::alloc::Global;

/// Whether the names of the fields that stand in so many others differ and aren't empty.
pub(crate) fn have_names(alloc: Global, depth: u32, columns: &[Column]) -> Result<bool, OutOfMemory>
    ensures { IfOk result (λ named. named ≡ spec.are_named (spec.names_in depth columns.now)) }
{
    let names = names_in(alloc, depth, columns)?;
    if has_unnamed(&names) {
        return Ok(false);
    }
    differ(alloc, names)
}

fn has_unnamed(names: &[Text]) -> bool
    ensures { result ≡ list_any spec.is_no_name names.now }
{
    names.iter().any(|name| is_no_name(name))
}

fn is_no_name(name: &Text) -> bool
    ensures { result ≡ spec.is_no_name name.now }
{
    name.as_str().is_empty()
}

/// The names of the fields that stand in so many others.
#[tactic(auto, using(crate::proofs::NameLemmas::names_more))]
fn names_in(alloc: Global, depth: u32, columns: &[Column]) -> Result<Vec<Text>, OutOfMemory>
    ensures { IfOk result (λ names. names.items ≡ spec.names_in depth columns.now) }
{
    let mut names = Vec::new(alloc);
    for column in columns {
        names = with_name(names, depth, column)?;
    }
    Ok(names)
}

/// The names, and behind them that of the column where it is a field that stands in so many others.
fn with_name(mut names: Vec<Text>, depth: u32, column: &Column) -> Result<Vec<Text>, OutOfMemory>
    ensures { IfOk result (λ more. more.items ≡ names.items ++ spec.names_in depth (column.now ∷ [])) }
{
    let Some(name) = name_at(depth, column) else {
        return Ok(names);
    };
    names.push(name.clone()?)?;
    Ok(names)
}

/// The name of a field that stands in so many others, or in fewer.
fn name_at(depth: u32, column: &Column) -> Option<&Text>
    ensures { option_copied result ≡ spec.name_at depth column.now }
{
    if column.depth > depth {
        return None;
    }
    match &column.part {
        Part::Field { name, .. } => Some(name),
        Part::Element { .. } | Part::Key | Part::Value { .. } => None,
    }
}
