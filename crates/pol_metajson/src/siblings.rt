//! The columns of one struct, while they are read.
ghost use Rattle.std.specs.Prelude.{◌≡◌, ◌==◌, ◌&&◌, ◌||◌, ◌++◌, ◌∷◌, [], ℕ, List, IfOk};
ghost use Rattle.std.specs.Str.{bytes_eq};
ghost use Rattle.indexmap.specs.IndexSet.{contains};
ghost use Rattle.pol_metajson.specs.Schema as spec;

use indexmap::IndexSet;
use pol_meta::{Column, Part};
use pol_types::{Listed, OutOfMemory, Text};
use std::alloc::Global;
use std::marker::Model;

/// The columns that are read so far of a struct whose fields stand in `depth` others, with the names of those fields.
#[derive(Drop)]
pub(crate) struct Siblings {
    depth: u32,
    columns: Vec<Column>,
    names: IndexSet<Text>,
}

impl Model for Siblings {
    ghost use Rattle.pol_metajson.specs.Siblings.{AreNames, Beside};

    ghost Value = { Beside };

    ghost view = { λ siblings. record { depth = siblings.depth; columns = siblings.columns.items } };

    ghost invariant = { λ siblings. AreNames siblings.depth siblings.columns.items siblings.names.keys };
}

impl Siblings {
    /// No column is read.
    pub fn new(alloc: Global, depth: u32) -> Self
        ensures { result ≡ record { depth = depth; columns = [] } }
    {
        Siblings {
            depth,
            columns: Vec::new(alloc),
            names: IndexSet::new(alloc),
        }
    }

    pub fn depth(&self) -> u32
        ensures { result ≡ self.now.depth }
    {
        self.depth
    }

    /// Whether a name isn't empty and none of the fields has it.
    pub fn is_new_name(&self, name: &Text) -> bool
        ensures { result ≡ spec.is_new_name self.now.depth name.now self.now.columns }
    {
        !name.as_str().is_empty() && !self.names.contains(name)
    }

    /// These columns, and others after them.
    pub fn with(self, more: Listed<Column>) -> Result<Self, OutOfMemory>
        ensures depth { IfOk result (λ siblings. siblings.depth ≡ self.depth) }
        ensures columns { IfOk result (λ siblings. siblings.columns ≡ self.columns ++ more) }
    {
        let more: Vec<Column> = more.into();
        let mut siblings = self;
        for column in more {
            siblings = siblings.with_one(column)?;
        }
        Ok(siblings)
    }

    fn with_one(self, column: Column) -> Result<Self, OutOfMemory>
        ensures depth { IfOk result (λ siblings. siblings.depth ≡ self.depth) }
        ensures columns { IfOk result (λ siblings. siblings.columns ≡ self.columns ++ column ∷ []) }
    {
        let Siblings {
            depth,
            mut columns,
            names,
        } = self;
        let names = with_name(names, depth, &column)?;
        columns.push(column)?;
        Ok(Siblings {
            depth,
            columns,
            names,
        })
    }

    pub fn into_columns(self) -> Listed<Column>
        ensures { result ≡ self.columns }
    {
        Listed::from(self.columns)
    }
}

/// The names, with that of the column where it is a field that stands in `depth` others.
fn with_name(
    mut names: IndexSet<Text>,
    depth: u32,
    column: &Column,
) -> Result<IndexSet<Text>, OutOfMemory>
    ensures { IfOk result (λ now. (name : List ℕ)
        → contains bytes_eq now name ≡ (spec.has_name depth name column.now || contains bytes_eq names name)) }
{
    if column.depth != depth {
        return Ok(names);
    }
    let Part::Field { name, .. } = &column.part else {
        return Ok(names);
    };
    names.insert(name.clone()?)?;
    Ok(names)
}
