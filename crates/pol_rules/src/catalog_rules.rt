ghost use Rattle.std.specs.Prelude.{◌≡◌, ◌<◌, codes, map, Some};
ghost use Rattle.std.specs.Bool.{⊤};
ghost use Rattle.pol_access.specs.Names.{principal_role_named};
ghost use Rattle.pol_content.specs.Content.{catalog_id, catalog_named};
ghost use Rattle.pol_tables.specs.Table.{row_of};
ghost use Rattle.pol_locations.specs.Location.{segments_of};
ghost use Rattle.pol_rules.specs.Judged.{Judges, Sees, Tells};
ghost use Rattle.pol_rules.specs.Rules.{bad_text, bad_texts, catalog_holds, no_catalogue, unsupported_type, name_taken};
ghost use Rattle.pol_state.specs.Sound.{IsSound};

use crate::rules::{Asked, Undone};
use pol_access::PrincipalRoleRow;
use pol_commands::{OptionName, Refusal};
use pol_content::CatalogRow;
use pol_locations::{Location, LocationRefused};
use pol_names::Plain;
use pol_state::State;
use pol_types::{Listed, Text};
use std::alloc::Global;

/// The role that each catalogue has from the start.
pub const CATALOG_ADMIN: &str = "catalog_admin";

/// The catalogue of the name.
#[tactic(auto, unfolding(crate::specs::Rules::no_catalogue))]
pub fn catalog_there<'a>(asked: &Asked<'a>, name: &Plain) -> Result<&'a CatalogRow, Undone>
    requires { IsSound asked.now.state.now.rows }
    ensures { let s = asked.now.state.now.rows in
        Tells (no_catalogue s name.now)
        (λ row. (catalog_named name.now s.content ≡ Some row.now)
        × (row_of catalog_id row.now.id s.content.catalogs ≡ Some row.now)) result }
{
    let Some(row) = asked.state.content().catalogue(name) else {
        return Err(Undone::Refused(Refusal::NoCatalogue {
            name: name.clone()?,
        }));
    };
    Ok(row)
}

/// No catalogue has the name.
#[tactic(auto, unfolding(crate::specs::Rules::name_taken))]
pub fn catalog_free(asked: &Asked<'_>, name: &Plain) -> Result<(), Undone>
    requires { IsSound asked.now.state.now.rows }
    ensures { let s = asked.now.state.now.rows in
        Tells (name_taken (catalog_named name.now s.content) name.now) (λ _. ⊤) result }
{
    if asked.state.content().catalogue(name).is_some() {
        return Err(Undone::Refused(Refusal::NameTaken {
            name: Text::from(String::from_str(asked.alloc, name.as_str())?),
        }));
    }
    Ok(())
}

/// The catalogue has no namespace, and no role beside `catalog_admin`.
#[tactic(auto, unfolding(crate::specs::Rules::catalog_holds))]
pub fn catalog_empty(asked: &Asked<'_>, catalog: &CatalogRow) -> Result<(), Undone>
    ensures { Tells (catalog_holds asked.now.state.now.rows catalog.now) (λ _. ⊤) result }
{
    let content = asked.state.content();
    let access = asked.state.access();
    if !content.catalog_is_empty(catalog.id) || access.has_other_role(catalog.id, CATALOG_ADMIN) {
        return Err(Undone::Refused(Refusal::NotEmpty {
            name: Text::from(String::from_str(asked.alloc, catalog.name.as_str())?),
        }));
    }
    Ok(())
}

/// The location of a catalogue's text.
#[tactic(auto, unfolding(crate::specs::Rules::bad_text))]
pub fn located(alloc: Global, text: &Text) -> Result<Location, Undone>
    ensures { Judges (bad_text text.now) (λ location. location ≡ segments_of text.now) result }
{
    match Location::parse(alloc, text.as_str()) {
        Ok(location) => Ok(location),
        Err(LocationRefused::OutOfMemory) => Err(Undone::OutOfMemory),
        Err(
            why @ (LocationRefused::BadScheme
            | LocationRefused::EmptySegment
            | LocationRefused::DotSegment
            | LocationRefused::ControlByte
            | LocationRefused::TooLong),
        ) => Err(Undone::Refused(Refusal::BadLocation { table: 0, why })),
    }
}

/// The locations of these texts.
pub fn all_located(alloc: Global, texts: &[Text]) -> Result<Listed<Location>, Undone>
    ensures { Judges (bad_texts texts.now) (λ locations. locations ≡ map segments_of texts.now) result }
{
    let mut locations = Vec::new(alloc);
    for text in texts {
        locations.push(located(alloc, text)?)?;
    }
    Ok(Listed::from(locations))
}

/// The catalogue is kept here.
#[tactic(auto, unfolding(crate::specs::Rules::unsupported_type))]
pub fn kept_here(external: bool) -> Result<(), Refusal>
    ensures { Sees (unsupported_type external) (λ _. ⊤) result }
{
    if external {
        return Err(Refusal::Unsupported {
            name: OptionName::Type,
        });
    }
    Ok(())
}

/// The principal role `service_admin`, which is always there.
pub fn service_admin(state: &State) -> &PrincipalRoleRow
    requires { IsSound state.now.rows }
    ensures { principal_role_named (codes "service_admin") state.now.rows.access ≡ Some result.now }
{
    state
        .access()
        .principal_role_named("service_admin")
        .unwrap()
}
