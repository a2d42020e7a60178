use crate::Handle;
use pol_locations::Location;
use pol_meta::TableMetadata;
use pol_names::Name;
use pol_tables::{Keyed, NameOf, Named, Sortable, number_of};
use pol_tallies::Grouped;
use pol_types::Exact;
use std::cmp::Ordering;

/// A table of a namespace: its name, how many commits with an update it has seen and how many of these moved it, its
/// location, and its metadata, which the row shares with whoever reads it.
#[derive(Clone, Drop, PartialEq, Eq)]
pub struct TableRow {
    pub id: u64,
    pub namespace: u64,
    pub name: Name,
    pub version: u64,
    pub moves: u64,
    pub location: Location,
    pub metadata: Handle<TableMetadata>,
}

impl Exact for TableRow {
    ghost use Rattle.std.proofs.Common.{rules};
    ghost use Rattle.pol_table_rows.specs.Exactness.{table_rows_exact};

    ghost clones_exactly = { Prim.search rules };

    ghost compares_exactly = { table_rows_exact };
}

impl Keyed for TableRow {
    ghost key = { λ row. row.id };

    fn key(&self) -> u64 {
        self.id
    }
}

impl Named for TableRow {
    ghost use Rattle.pol_table_rows.specs.Numbers.{table_number};

    ghost number = { λ row. table_number row.namespace row.name };

    #[tactic(auto, unfolding(crate::specs::Numbers::table_number))]
    fn number(&self) -> u64 {
        number_of(&(self.namespace, &self.name))
    }
}

/// A table belongs to its namespace.
impl Grouped for TableRow {
    ghost use Rattle.std.specs.Prelude.{[], ◌∷◌};

    ghost groups = { λ row. row.namespace ∷ [] };

    ghost MOST = { 1 };

    const MOST: usize = 1;

    fn group_count(&self) -> usize {
        1
    }

    fn group(&self, _place: usize) -> u64 {
        self.namespace
    }
}

impl Sortable for TableRow {
    ghost use Rattle.std.specs.Cmp.{on_total};
    ghost use Rattle.std.proofs.lemmas.Cmp.{nat_list_cmp_total};
    ghost use Rattle.pol_table_rows.specs.Tables.{name_cmp, table_name};

    ghost cmp = { name_cmp };

    fn compare(&self, other: &Self) -> Ordering {
        self.name.cmp(&other.name)
    }

    ghost total = { on_total table_name nat_list_cmp_total };
}

/// What a table is sought by: its namespace's id and its name in it.
#[derive(Clone, Copy)]
pub struct TableName<'a> {
    pub namespace: u64,
    pub name: &'a Name,
}

impl NameOf<TableRow> for TableName<'_> {
    ghost use Rattle.pol_table_rows.specs.Numbers.{table_number, table_numbers_agree};
    ghost use Rattle.pol_table_rows.specs.Tables.{is_table_named};

    ghost names = { λ sought row. is_table_named sought.namespace sought.name.now row };

    ghost numbered = { λ sought. table_number sought.namespace sought.name.now };

    #[tactic(auto, unfolding(crate::specs::Numbers::table_number))]
    fn number(&self) -> u64 {
        number_of(&(self.namespace, self.name))
    }

    fn names(&self, row: &TableRow) -> bool {
        self.namespace == row.namespace && *self.name == row.name
    }

    ghost numbers_agree = { λ sought row.
        table_numbers_agree sought.namespace row.namespace sought.name.now row.name };
}
