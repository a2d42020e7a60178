//! The keys by which names and levels are told apart.
ghost use Rattle.std.specs.Prelude.{◌≡◌, IfOk};
ghost use Rattle.std.proofs.Common.{rules};
ghost use Rattle.pol_types.specs.Exact.{exactness};
ghost use Rattle.pol_sound_content.specs.Keys.{part_key};

use pol_content::{CatalogRow, NamespaceRow, TableRow, ViewRow};
use pol_names::Namespace;
use pol_sound_access::{Told, text};
use pol_tables::Fact;
use pol_types::{Exact, OutOfMemory, Text};
use std::alloc::Global;

/// A name, and the id of what it is a name in; 0 for names of the realm.
#[derive(Clone, Drop, PartialEq, Eq, Hash)]
pub(crate) struct PartKey {
    pub within: u64,
    pub name: Text,
}

impl Exact for PartKey {
    ghost clones_exactly = { Prim.search rules };

    ghost compares_exactly = { Prim.grind exactness };
}

impl Fact for PartKey {
    ghost use Rattle.pol_sound_content.specs.contracts.keys.PartKey.{the_row};

    ghost coded = { the_row.coded };
}

/// The levels of a namespace, and its catalogue's id.
#[derive(Clone, Drop, PartialEq, Eq, Hash)]
pub(crate) struct LevelsKey {
    pub catalog: u64,
    pub levels: Namespace,
}

impl Exact for LevelsKey {
    ghost clones_exactly = { Prim.search rules };

    ghost compares_exactly = { Prim.grind exactness };
}

impl Fact for LevelsKey {
    ghost use Rattle.pol_sound_content.specs.contracts.keys.LevelsKey.{the_row};

    ghost coded = { the_row.coded };
}

/// The key of a name.
fn part_key(alloc: Global, within: u64, name: &str) -> Result<PartKey, OutOfMemory>
    ensures { IfOk result (λ key. key ≡ part_key within name.now) }
{
    let name = text(alloc, name)?;
    Ok(PartKey { within, name })
}

impl Told<PartKey> for CatalogRow {
    ghost use Rattle.pol_sound_content.specs.Keys.{catalog_key};

    ghost told = { catalog_key };

    fn told(&self, alloc: Global) -> Result<PartKey, OutOfMemory> {
        part_key(alloc, 0, self.name.as_str())
    }
}

impl Told<LevelsKey> for NamespaceRow {
    ghost use Rattle.pol_sound_content.specs.Keys.{namespace_key};

    ghost told = { namespace_key };

    fn told(&self, _alloc: Global) -> Result<LevelsKey, OutOfMemory> {
        let levels = self.levels.clone()?;
        Ok(LevelsKey {
            catalog: self.catalog,
            levels,
        })
    }
}

impl Told<PartKey> for TableRow {
    ghost use Rattle.pol_sound_content.specs.Keys.{table_key};

    ghost told = { table_key };

    fn told(&self, alloc: Global) -> Result<PartKey, OutOfMemory> {
        part_key(alloc, self.namespace, self.name.as_str())
    }
}

impl Told<PartKey> for ViewRow {
    ghost use Rattle.pol_sound_content.specs.Keys.{view_key};

    ghost told = { view_key };

    fn told(&self, alloc: Global) -> Result<PartKey, OutOfMemory> {
        part_key(alloc, self.namespace, self.name.as_str())
    }
}
