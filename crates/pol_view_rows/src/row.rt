use pol_names::Name;
use pol_table_rows::Handle;
use pol_tables::{Keyed, NameOf, Named, Sortable, number_of};
use pol_tallies::Grouped;
use pol_types::Exact;
use pol_views::ViewMetadata;
use std::cmp::Ordering;

/// A view of a namespace: its name, how many commits with an update it has seen, and its metadata, which the row shares
/// with whoever reads it.
#[derive(Clone, Drop, PartialEq, Eq)]
pub struct ViewRow {
    pub id: u64,
    pub namespace: u64,
    pub name: Name,
    pub version: u64,
    pub metadata: Handle<ViewMetadata>,
}

impl Exact for ViewRow {
    ghost use Rattle.std.proofs.Common.{rules};
    ghost use Rattle.pol_view_rows.specs.Exactness.{view_rows_exact};

    ghost clones_exactly = { Prim.search rules };

    ghost compares_exactly = { view_rows_exact };
}

impl Keyed for ViewRow {
    ghost key = { λ row. row.id };

    fn key(&self) -> u64 {
        self.id
    }
}

impl Named for ViewRow {
    ghost use Rattle.pol_table_rows.specs.Numbers.{table_number};

    ghost number = { λ row. table_number row.namespace row.name };

    #[tactic(auto, unfolding(pol_table_rows::specs::Numbers::table_number))]
    fn number(&self) -> u64 {
        number_of(&(self.namespace, &self.name))
    }
}

/// A view belongs to its namespace.
impl Grouped for ViewRow {
    ghost use Rattle.std.specs.Prelude.{[], ◌∷◌};

    ghost groups = { λ row. row.namespace ∷ [] };

    ghost MOST = { 1 };

    const MOST: usize = 1;

    fn group_count(&self) -> usize {
        1
    }

    fn group(&self, _place: usize) -> u64 {
        self.namespace
    }
}

impl Sortable for ViewRow {
    ghost use Rattle.std.specs.Cmp.{on_total};
    ghost use Rattle.std.proofs.lemmas.Cmp.{nat_list_cmp_total};
    ghost use Rattle.pol_view_rows.specs.Views.{name_cmp, view_name};

    ghost cmp = { name_cmp };

    fn compare(&self, other: &Self) -> Ordering {
        self.name.cmp(&other.name)
    }

    ghost total = { on_total view_name nat_list_cmp_total };
}

/// What a view is sought by: its namespace's id and its name in it.
#[derive(Clone, Copy)]
pub struct ViewName<'a> {
    pub namespace: u64,
    pub name: &'a Name,
}

impl NameOf<ViewRow> for ViewName<'_> {
    ghost use Rattle.pol_table_rows.specs.Numbers.{table_number, table_numbers_agree};
    ghost use Rattle.pol_view_rows.specs.Views.{is_view_named};

    ghost names = { λ sought row. is_view_named sought.namespace sought.name.now row };

    ghost numbered = { λ sought. table_number sought.namespace sought.name.now };

    #[tactic(auto, unfolding(pol_table_rows::specs::Numbers::table_number))]
    fn number(&self) -> u64 {
        number_of(&(self.namespace, self.name))
    }

    fn names(&self, row: &ViewRow) -> bool {
        self.namespace == row.namespace && *self.name == row.name
    }

    ghost numbers_agree = { λ sought row.
        table_numbers_agree sought.namespace row.namespace sought.name.now row.name };
}
