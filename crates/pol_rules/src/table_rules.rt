ghost use Rattle.std.specs.Prelude.{◌≡◌, Some, IfOk, option_copied, option_map};
ghost use Rattle.std.specs.Bool.{⊤};
ghost use Rattle.std.specs.List.{list_any};
ghost use Rattle.pol_commands.specs.declared.reply.Refusal.TheVariants.{BadLocation};
ghost use Rattle.pol_content.specs.Chain.{table_at};
ghost use Rattle.pol_content.specs.Content.{part_named};
ghost use Rattle.pol_locations.specs.Location.{is_cover, location_refusal};
ghost use Rattle.pol_tables.specs.Table.{row_of};
ghost use Rattle.pol_table_rows.specs.Tables.{table_id};
ghost use Rattle.pol_rules.specs.Judged.{Judges, Sees, Tells};
ghost use Rattle.pol_rules.specs.TableRules.{bad_location, default_location, is_allowed, is_other_format, location_asked, location_outside, location_overlap, no_table, other_format, staged};
ghost use Rattle.pol_rules.specs.Rules.{name_taken};
ghost use Rattle.pol_state.specs.Sound.{IsSound};

use crate::catalog_rules::located;
use crate::rules::{Asked, Undone};
use pol_commands::{OptionName, Refusal};
use pol_content::{CatalogRow, NamespaceRow, TableRow};
use pol_locations::{Location, LocationRefused, covers};
use pol_names::{Identifier, Name, Namespace};
use pol_properties::Properties;
use pol_state::texts::text;
use pol_types::{OutOfMemory, Text};
use std::alloc::Global;

/// The property by which a new table asks for a format version.
pub const FORMAT_VERSION: &str = "format-version";

/// The table of the namespace and name in the catalogue. Its namespace is there.
#[tactic(auto, unfolding(crate::specs::TableRules::no_table))]
pub fn table_there<'a>(
    asked: &Asked<'a>,
    catalog: &CatalogRow,
    identifier: &Identifier,
) -> Result<&'a TableRow, Undone>
    requires { IsSound asked.now.state.now.rows }
    ensures { let s = asked.now.state.now.rows in
        Tells (no_table s identifier.now catalog.now)
        (λ row. (table_at catalog.now.id identifier.now.namespace identifier.now.name s.content ≡ Some row.now)
        × (row_of table_id row.now.id s.content.tables ≡ Some row.now)) result }
{
    let Some(row) = asked.state.content().table_at(catalog.id, identifier) else {
        return Err(Undone::Refused(Refusal::NoTable {
            identifier: identifier.clone()?,
        }));
    };
    Ok(row)
}

/// No table of the namespace has the name, and no view.
#[tactic(auto, unfolding(crate::specs::Rules::name_taken))]
pub fn name_free(asked: &Asked<'_>, namespace: &NamespaceRow, name: &Name) -> Result<(), Undone>
    requires { IsSound asked.now.state.now.rows }
    ensures { let found = part_named namespace.now.id name.now asked.now.state.now.rows.content in
        Tells (name_taken found name.now) (λ _. ⊤) result }
{
    if asked.state.content().has_part(namespace.id, name) {
        return Err(Undone::Refused(Refusal::NameTaken {
            name: text(asked.alloc, name.as_str())?,
        }));
    }
    Ok(())
}

/// The location of a new table or view: that of the text that is given, or else the default one.
#[tactic(auto, unfolding(crate::specs::TableRules::bad_location))]
pub fn placed(
    alloc: Global,
    catalog: &CatalogRow,
    levels: &Namespace,
    given: &Option<Text>,
    name: &Name,
) -> Result<Location, Undone>
    ensures { Judges (bad_location levels.now given.now name.now catalog.now)
        (λ location. location ≡ location_asked levels.now given.now name.now catalog.now) result }
{
    match given {
        Some(text) => located(alloc, text),
        None => default_location(alloc, catalog, levels, name),
    }
}

/// The default location of a table or a view.
#[tactic(auto, using(crate::proofs::ContentLemmas::location_made))]
fn default_location(
    alloc: Global,
    catalog: &CatalogRow,
    levels: &Namespace,
    name: &Name,
) -> Result<Location, Undone>
    ensures { let segments = default_location catalog.now levels.now name.now in
        Judges (option_map (BadLocation 0) (location_refusal segments)) (λ location. location ≡ segments) result }
{
    let segments = default_segments(alloc, catalog, levels, name)?;
    match Location::of_segments(alloc, segments.as_slice()) {
        Ok(location) => Ok(location),
        Err(LocationRefused::OutOfMemory) => Err(Undone::OutOfMemory),
        Err(
            why @ (LocationRefused::BadScheme
            | LocationRefused::EmptySegment
            | LocationRefused::DotSegment
            | LocationRefused::ControlByte
            | LocationRefused::TooLong),
        ) => Err(Undone::Refused(Refusal::BadLocation { table: 0, why })),
    }
}

/// The segments of the default location: those of the catalogue's base, the levels and the name.
fn default_segments(
    alloc: Global,
    catalog: &CatalogRow,
    levels: &Namespace,
    name: &Name,
) -> Result<Vec<Text>, OutOfMemory>
    ensures { IfOk result (λ segments. segments.items ≡ default_location catalog.now levels.now name.now) }
{
    let mut segments = Vec::from_clones(alloc, catalog.base.segments())?;
    let parts = levels.levels();
    for level in parts {
        segments.push(text(alloc, level.as_str())?)?;
    }
    segments.push(text(alloc, name.as_str())?)?;
    Ok(segments)
}

/// The catalogue's base or a location that is allowed beside it covers the location.
#[tactic(auto, unfolding(crate::specs::TableRules::location_outside))]
pub fn inside_catalog(catalog: &CatalogRow, location: &Location) -> Result<(), Undone>
    ensures { Tells (location_outside location.now catalog.now) (λ _. ⊤) result }
{
    if !is_allowed(catalog, location) {
        return Err(Undone::Refused(Refusal::LocationOutside {
            location: location.clone()?,
        }));
    }
    Ok(())
}

fn is_allowed(catalog: &CatalogRow, location: &Location) -> bool
    ensures { result ≡ is_allowed location.now catalog.now }
{
    covers(&catalog.base, location) || any_covers(catalog.allowed.as_slice(), location)
}

/// Whether one of the locations covers the other one.
fn any_covers(uppers: &[Location], location: &Location) -> bool
    ensures { result ≡ list_any (λ upper. is_cover upper location.now) uppers.now }
{
    uppers.iter().any(|upper| covers(upper, location))
}

/// No table overlaps the location, in whatever catalogue it is.
#[tactic(auto, unfolding(crate::specs::TableRules::location_overlap))]
pub fn location_free(asked: &Asked<'_>, location: &Location) -> Result<(), Undone>
    requires { IsSound asked.now.state.now.rows }
    ensures { Tells (location_overlap asked.now.state.now.rows location.now) (λ _. ⊤) result }
{
    let Some(row) = asked.state.content().overlapping(location, &[]) else {
        return Ok(());
    };
    Err(Undone::Refused(Refusal::LocationOverlap {
        location: location.clone()?,
        other: row.location.clone()?,
    }))
}

/// The table is to be there at once.
#[tactic(auto, unfolding(crate::specs::TableRules::staged))]
pub fn unstaged(stage_create: bool) -> Result<(), Refusal>
    ensures { Sees (staged stage_create) (λ _. ⊤) result }
{
    if stage_create {
        return Err(Refusal::Unsupported {
            name: OptionName::StageCreate,
        });
    }
    Ok(())
}

/// The properties ask for no format version but 2.
#[tactic(auto, unfolding(crate::specs::TableRules::other_format))]
pub fn format_served(properties: &Properties) -> Result<(), Refusal>
    ensures { Sees (other_format properties.now) (λ _. ⊤) result }
{
    if is_other_format(properties.get(FORMAT_VERSION)) {
        return Err(Refusal::Unsupported {
            name: OptionName::FormatVersion,
        });
    }
    Ok(())
}

/// Whether a format version is asked for that isn't 2.
fn is_other_format(version: Option<&Text>) -> bool
    ensures { result ≡ is_other_format (option_copied version.entry) }
{
    match version {
        Some(version) => version.as_str() != "2",
        None => false,
    }
}
