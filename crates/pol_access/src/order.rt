ghost use Rattle.std.specs.Cmp.{on_total};
ghost use Rattle.std.proofs.lemmas.Cmp.{nat_list_cmp_total};
ghost use Rattle.pol_access.specs.Access.{catalog_role_name, principal_name, principal_role_name};
ghost use Rattle.pol_access.specs.Order.{by_numbers};

use crate::{CatalogRoleRow, PrincipalRoleRow, PrincipalRow};
use pol_tables::Sortable;
use std::cmp::Ordering;

impl Sortable for PrincipalRow {
    ghost cmp = { by_numbers principal_name };

    fn compare(&self, other: &Self) -> Ordering {
        self.name.cmp(&other.name)
    }

    ghost total = { on_total principal_name nat_list_cmp_total };
}

impl Sortable for PrincipalRoleRow {
    ghost cmp = { by_numbers principal_role_name };

    fn compare(&self, other: &Self) -> Ordering {
        self.name.cmp(&other.name)
    }

    ghost total = { on_total principal_role_name nat_list_cmp_total };
}

impl Sortable for CatalogRoleRow {
    ghost cmp = { by_numbers catalog_role_name };

    fn compare(&self, other: &Self) -> Ordering {
        self.name.cmp(&other.name)
    }

    ghost total = { on_total catalog_role_name nat_list_cmp_total };
}
