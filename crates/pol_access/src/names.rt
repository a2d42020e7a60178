ghost use Rattle.std.specs.Prelude.{◌≡◌, ◌&&◌, ◌==◌};
ghost use Rattle.std.specs.Cmp.{first_so, second_so};
ghost use Rattle.std.specs.Cmp.Lexicographic.{same_text};
ghost use Rattle.std.specs.Str.{bytes_eq};
ghost use Rattle.std.proofs.Common.{ap, sym};
ghost use Rattle.std.proofs.lemmas.Bool.{eqb-true};
ghost use Rattle.pol_access.specs.Names.{has_catalog_role_name, has_name, has_role_name, role_number, text_number};

use crate::{CatalogRoleRow, PrincipalRoleRow, PrincipalRow};
use pol_tables::{NameOf, Named, number_of};

/// The number of a text.
#[tactic(auto, unfolding(crate::specs::Names::text_number))]
pub(crate) fn text_number(text: &str) -> u64
    ensures { result ≡ text_number text.now }
{
    number_of(&text)
}

/// The number of a role's name in a catalogue, of which many have roles of one name.
#[tactic(auto, unfolding(crate::specs::Names::role_number))]
fn role_number(catalog: u64, name: &str) -> u64
    ensures { result ≡ role_number catalog name.now }
{
    number_of(&(catalog, name))
}

impl Named for PrincipalRow {
    ghost number = { λ row. text_number row.name };

    fn number(&self) -> u64 {
        text_number(self.name.as_str())
    }
}

impl Named for PrincipalRoleRow {
    ghost number = { λ row. text_number row.name };

    fn number(&self) -> u64 {
        text_number(self.name.as_str())
    }
}

impl Named for CatalogRoleRow {
    ghost number = { λ row. role_number row.catalog row.name };

    fn number(&self) -> u64 {
        role_number(self.catalog, self.name.as_str())
    }
}

/// The name of a principal.
#[derive(Drop)]
pub(crate) struct PrincipalName<'a>(pub &'a str);

impl NameOf<PrincipalRow> for PrincipalName<'_> {
    ghost names = { λ name row. has_name name.0.now row };

    ghost numbered = { λ name. text_number name.0.now };

    fn number(&self) -> u64 {
        text_number(self.0)
    }

    fn names(&self, row: &PrincipalRow) -> bool {
        self.0 == row.name.as_str()
    }

    ghost numbers_agree = { λ name row same. ap text_number (sym (same_text name.0.now row.name (sym same))) };
}

/// The name of a principal role.
#[derive(Drop)]
pub(crate) struct PrincipalRoleName<'a>(pub &'a str);

impl NameOf<PrincipalRoleRow> for PrincipalRoleName<'_> {
    ghost names = { λ name row. has_role_name name.0.now row };

    ghost numbered = { λ name. text_number name.0.now };

    fn number(&self) -> u64 {
        text_number(self.0)
    }

    fn names(&self, row: &PrincipalRoleRow) -> bool {
        self.0 == row.name.as_str()
    }

    ghost numbers_agree = { λ name row same. ap text_number (sym (same_text name.0.now row.name (sym same))) };
}

/// The name of a role in a catalogue.
#[derive(Drop)]
pub(crate) struct CatalogRoleName<'a> {
    pub catalog: u64,
    pub name: &'a str,
}

impl NameOf<CatalogRoleRow> for CatalogRoleName<'_> {
    ghost names = { λ name row. has_catalog_role_name name.catalog name.name.now row };

    ghost numbered = { λ name. role_number name.catalog name.name.now };

    fn number(&self) -> u64 {
        role_number(self.catalog, self.name)
    }

    fn names(&self, row: &CatalogRoleRow) -> bool {
        row.catalog == self.catalog && self.name == row.name.as_str()
    }

    ghost numbers_agree = { λ name row same i.
        role_number (eqb-true row.catalog name.catalog (first_so _ _ same) i)
        (sym (same_text name.name.now row.name (sym (second_so _ _ same))) i) };
}
