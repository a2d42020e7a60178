//! Lists of columns, and the columns in one.
ghost use Rattle.std.specs.Prelude.{◌≡◌, ◌++◌, ◌∷◌, IfOk, length, nat_le};
ghost use Rattle.std.specs.List.{position, position_or_len};
ghost use Rattle.pol_columnforms.specs.Columns as spec;

use pol_meta::{Column, Part};
use pol_types::{Listed, OutOfMemory};
use std::alloc::Global;

/// A column, and those in it.
pub(crate) fn with_inner(
    alloc: Global,
    column: Column,
    inner: Listed<Column>,
) -> Result<Listed<Column>, OutOfMemory>
    ensures { IfOk result (λ columns. columns ≡ column ∷ inner) }
{
    let mut columns = Vec::with_capacity(alloc, 1)?;
    columns.push_reserved(column);
    joined(Listed::from(columns), inner)
}

/// Columns, and others after them.
pub(crate) fn joined(
    first: Listed<Column>,
    second: Listed<Column>,
) -> Result<Listed<Column>, OutOfMemory>
    ensures { IfOk result (λ columns. columns ≡ first ++ second) }
{
    let mut columns: Vec<Column> = first.into();
    let second: Vec<Column> = second.into();
    for column in second {
        columns.push(column)?;
    }
    Ok(Listed::from(columns))
}

/// The columns at the head that are deeper, and those behind them.
#[tactic(auto, using(crate::proofs::InnerLemmas::parting))]
pub(crate) fn parted(depth: u32, columns: &[Column]) -> (&[Column], &[Column])
    ensures inner { result.0.now ≡ spec.inner_of depth columns.now }
    ensures beside { result.1.now ≡ spec.beside_of depth columns.now }
{
    columns.split_at(deeper_ones(depth, columns))
}

/// How many columns at the head are deeper.
#[tactic(auto, using(crate::proofs::InnerLemmas::places))]
fn deeper_ones(depth: u32, columns: &[Column]) -> usize
    ensures { result ≡ position_or_len (λ column. nat_le column.depth depth) columns.now }
{
    match first_beside(depth, columns) {
        Some(count) => count,
        None => columns.len(),
    }
}

/// The place of the first column that isn't deeper.
fn first_beside(depth: u32, columns: &[Column]) -> Option<usize>
    ensures { result ≡ position (λ column. nat_le column.depth depth) columns.now }
{
    columns.iter().position(|column| column.depth <= depth)
}

/// How many of the columns aren't deeper.
#[tactic(auto, using(crate::proofs::InnerLemmas::chunks_counted))]
pub(crate) fn fields_among(depth: u32, columns: &[Column]) -> usize
    ensures { result ≡ length (spec.chunks depth columns.now) }
{
    columns
        .iter()
        .filter(|column| column.depth <= depth)
        .count()
}

/// Whether a part is required.
pub(crate) fn is_required(part: &Part) -> bool
    ensures { result ≡ spec.required_in part.now }
{
    match part {
        Part::Field { required, .. } | Part::Element { required } | Part::Value { required } => {
            *required
        }
        Part::Key => true,
    }
}
