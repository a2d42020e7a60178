//! The keys by which names and client ids are told apart.
ghost use Rattle.std.specs.Prelude.{◌≡◌, IfOk};
ghost use Rattle.std.proofs.Common.{rules};
ghost use Rattle.pol_types.specs.Exact.{exactness};
ghost use Rattle.pol_sound_access.specs.Keys.{name_key};

use crate::Told;
use pol_access::{CatalogRoleRow, GrantRow, JoinRow, MemberRow, PrincipalRoleRow, PrincipalRow};
use pol_tables::Fact;
use pol_types::{Exact, OutOfMemory, Text};
use std::alloc::Global;

/// A name, and the id of what it is a name in; 0 for names of the realm.
#[derive(Clone, Drop, PartialEq, Eq, Hash)]
pub(crate) struct NameKey {
    pub within: u64,
    pub name: Text,
}

impl Exact for NameKey {
    ghost clones_exactly = { Prim.search rules };

    ghost compares_exactly = { Prim.grind exactness };
}

impl Fact for NameKey {
    ghost use Rattle.pol_sound_access.specs.contracts.keys.NameKey.{the_row};

    ghost coded = { the_row.coded };
}

/// The client id of a principal.
#[derive(Clone, Drop, PartialEq, Eq, Hash)]
pub(crate) struct ClientKey {
    pub client_id: Text,
}

impl Exact for ClientKey {
    ghost clones_exactly = { Prim.search rules };

    ghost compares_exactly = { Prim.grind exactness };
}

impl Fact for ClientKey {
    ghost use Rattle.pol_sound_access.specs.contracts.keys.ClientKey.{the_row};

    ghost coded = { the_row.coded };
}

/// The key of a name.
fn name_key(alloc: Global, within: u64, name: &str) -> Result<NameKey, OutOfMemory>
    ensures { IfOk result (λ key. key ≡ name_key within name.now) }
{
    let name = text(alloc, name)?;
    Ok(NameKey { within, name })
}

/// A text of its own.
pub fn text(alloc: Global, source: &str) -> Result<Text, OutOfMemory>
    ensures { IfOk result (λ text. text ≡ source.now) }
{
    Ok(Text::from(String::from_str(alloc, source)?))
}

impl Told<NameKey> for PrincipalRow {
    ghost use Rattle.pol_sound_access.specs.Keys.{principal_key};

    ghost told = { principal_key };

    fn told(&self, alloc: Global) -> Result<NameKey, OutOfMemory> {
        name_key(alloc, 0, self.name.as_str())
    }
}

impl Told<ClientKey> for PrincipalRow {
    ghost use Rattle.pol_sound_access.specs.Keys.{client_key};

    ghost told = { client_key };

    fn told(&self, alloc: Global) -> Result<ClientKey, OutOfMemory> {
        let client_id = text(alloc, self.client_id.as_str())?;
        Ok(ClientKey { client_id })
    }
}

impl Told<NameKey> for PrincipalRoleRow {
    ghost use Rattle.pol_sound_access.specs.Keys.{principal_role_key};

    ghost told = { principal_role_key };

    fn told(&self, alloc: Global) -> Result<NameKey, OutOfMemory> {
        name_key(alloc, 0, self.name.as_str())
    }
}

impl Told<NameKey> for CatalogRoleRow {
    ghost use Rattle.pol_sound_access.specs.Keys.{catalog_role_key};

    ghost told = { catalog_role_key };

    fn told(&self, alloc: Global) -> Result<NameKey, OutOfMemory> {
        name_key(alloc, self.catalog, self.name.as_str())
    }
}

impl Told<MemberRow> for MemberRow {
    ghost told = { λ row. row };

    fn told(&self, _alloc: Global) -> Result<MemberRow, OutOfMemory> {
        Ok(*self)
    }
}

impl Told<JoinRow> for JoinRow {
    ghost told = { λ row. row };

    fn told(&self, _alloc: Global) -> Result<JoinRow, OutOfMemory> {
        Ok(*self)
    }
}

impl Told<GrantRow> for GrantRow {
    ghost told = { λ row. row };

    fn told(&self, _alloc: Global) -> Result<GrantRow, OutOfMemory> {
        Ok(*self)
    }
}
