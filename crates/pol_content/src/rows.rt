ghost use Rattle.std.proofs.Common.{rules};

use pol_locations::Location;
use pol_names::{Namespace, Plain};
use pol_properties::Properties;
use pol_tables::{Keyed, NameOf, Named, Sortable, number_of};
use pol_tallies::Grouped;
use pol_types::{Exact, Listed};
use std::cmp::Ordering;

/// A catalogue: its name, the base of its tables' default locations, the locations that are allowed beside it, and
/// its properties.
#[derive(Clone, Drop, PartialEq, Eq)]
pub struct CatalogRow {
    pub id: u64,
    pub name: Plain,
    pub base: Location,
    pub allowed: Listed<Location>,
    pub properties: Properties,
}

impl Exact for CatalogRow {
    ghost use Rattle.std.proofs.Common.{rules};
    ghost use Rattle.pol_content.specs.Rows.{catalog_rows_exact};

    ghost clones_exactly = { Prim.search rules };

    ghost compares_exactly = { catalog_rows_exact };
}

impl Keyed for CatalogRow {
    ghost key = { λ row. row.id };

    fn key(&self) -> u64 {
        self.id
    }
}

impl Named for CatalogRow {
    ghost use Rattle.pol_content.specs.Numbers.{catalog_number};

    ghost number = { λ row. catalog_number row.name };

    #[tactic(auto, unfolding(crate::specs::Numbers::catalog_number))]
    fn number(&self) -> u64 {
        number_of(&self.name)
    }
}

impl NameOf<CatalogRow> for Plain {
    ghost use Rattle.std.specs.Str.{bytes_eq};
    ghost use Rattle.pol_content.specs.Numbers.{catalog_number, catalog_numbers_agree};

    ghost names = { λ name row. bytes_eq name row.name };

    ghost numbered = { catalog_number };

    #[tactic(auto, unfolding(crate::specs::Numbers::catalog_number))]
    fn number(&self) -> u64 {
        number_of(self)
    }

    fn names(&self, row: &CatalogRow) -> bool {
        *self == row.name
    }

    ghost numbers_agree = { λ name row. catalog_numbers_agree name row.name };
}

impl Sortable for CatalogRow {
    ghost use Rattle.std.specs.Cmp.{on_total};
    ghost use Rattle.std.proofs.lemmas.Cmp.{nat_list_cmp_total};
    ghost use Rattle.pol_access.specs.Order.{by_numbers};
    ghost use Rattle.pol_content.specs.Order.{catalog_name};

    ghost cmp = { by_numbers catalog_name };

    fn compare(&self, other: &Self) -> Ordering {
        self.name.cmp(&other.name)
    }

    ghost total = { on_total catalog_name nat_list_cmp_total };
}

/// A namespace of a catalogue: its levels and its properties.
#[derive(Clone, Drop, PartialEq, Eq)]
pub struct NamespaceRow {
    pub id: u64,
    pub catalog: u64,
    pub levels: Namespace,
    pub properties: Properties,
}

impl Exact for NamespaceRow {
    ghost use Rattle.std.proofs.Common.{rules};
    ghost use Rattle.pol_content.specs.Rows.{namespace_rows_exact};

    ghost clones_exactly = { Prim.search rules };

    ghost compares_exactly = { namespace_rows_exact };
}

impl Keyed for NamespaceRow {
    ghost key = { λ row. row.id };

    fn key(&self) -> u64 {
        self.id
    }
}

impl Named for NamespaceRow {
    ghost use Rattle.pol_content.specs.Numbers.{namespace_number};

    ghost number = { λ row. namespace_number row.catalog row.levels };

    #[tactic(auto, unfolding(crate::specs::Numbers::namespace_number))]
    fn number(&self) -> u64 {
        number_of(&(self.catalog, &self.levels))
    }
}

/// A namespace belongs to those in which it stands, each known by the number of its name.
impl Grouped for NamespaceRow {
    ghost use Rattle.pol_content.specs.Numbers.{numbers_above};

    ghost groups = { numbers_above };

    ghost MOST = { 15 };

    const MOST: usize = 15;

    fn group_count(&self) -> usize {
        self.levels.levels().len() - 1
    }

    fn group(&self, place: usize) -> u64 {
        number_of(&(self.catalog, &self.levels.levels()[..place + 1]))
    }
}

impl Sortable for NamespaceRow {
    ghost use Rattle.std.specs.Cmp.{on_total};
    ghost use Rattle.std.proofs.lemmas.Cmp.{lists_total, nat_list_cmp_total};
    ghost use Rattle.pol_content.specs.Order.{levels_cmp};

    ghost cmp = { levels_cmp };

    fn compare(&self, other: &Self) -> Ordering {
        self.levels.cmp(&other.levels)
    }

    ghost total = { on_total (λ row. row.levels) (lists_total nat_list_cmp_total) };
}

/// What a namespace is sought by: its catalogue's id and its levels.
#[derive(Clone, Copy)]
pub struct NamespaceName<'a> {
    pub catalog: u64,
    pub levels: &'a Namespace,
}

impl NameOf<NamespaceRow> for NamespaceName<'_> {
    ghost use Rattle.std.specs.Prelude.{◌&&◌, nat_eq};
    ghost use Rattle.std.specs.Cmp.Lexicographic.{pointwise};
    ghost use Rattle.pol_content.specs.Numbers.{namespace_number, namespace_numbers_agree};

    ghost names = { λ name row.
        nat_eq name.catalog row.catalog && pointwise (pointwise nat_eq) name.levels.now row.levels };

    ghost numbered = { λ name. namespace_number name.catalog name.levels.now };

    #[tactic(auto, unfolding(crate::specs::Numbers::namespace_number))]
    fn number(&self) -> u64 {
        number_of(&(self.catalog, self.levels))
    }

    fn names(&self, row: &NamespaceRow) -> bool {
        self.catalog == row.catalog && *self.levels == row.levels
    }

    ghost numbers_agree = { λ name row. namespace_numbers_agree name.catalog row.catalog name.levels.now row.levels };
}
