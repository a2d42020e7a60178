//! The form of a whole metadata of a view: its fields, in the order in which its JSON is printed, in two groups.
ghost use Rattle.std.specs.Prelude.{◌≡◌, ◌++◌, OnOk};
ghost use Rattle.pol_forms.specs.Reading.{Gives};
ghost use Rattle.pol_partcodec.specs.Numbers as numbers;
ghost use Rattle.pol_views.specs.Valid.{HasViewForms, IsValidView};
ghost use Rattle.pol_viewcodec.specs.Views as spec;

use crate::Views;
use crate::whole::is_whole_view;
use pol_forms::{CodecRefused, Coder, Common, ListOf, Unread};
use pol_meta::Schema;
use pol_metacodec::Metadata;
use pol_partcodec::Id;
use pol_properties::Properties;
use pol_types::{Listed, OutOfMemory, Text};
use pol_views::{VersionLogEntry, ViewMetadata, ViewVersion};
use std::alloc::Global;
use uuid::Uuid;

/// What stands for the form of the version of the format that the metadata of a view has: there is one.
struct ViewFormat;

/// The current version, the version of the format, the location, the properties.
type Heads = (u32, (u32, (Text, Properties)));

/// The schemas, the log, the versions, and the uuid.
type Members = (
    Listed<Schema>,
    (Listed<VersionLogEntry>, (Listed<ViewVersion>, Uuid)),
);

#[tactic(auto, unfolding(pol_partcodec::specs::Numbers::short_between))]
impl Coder<u32> for ViewFormat {
    ghost form = { spec.view_format };

    ghost rule = { numbers.IsBetween 1 1 };

    fn write(value: &u32, written: &mut Vec<u8>) -> Result<(), OutOfMemory> {
        Common::write(value, written)
    }

    fn read(alloc: Global, unread: &mut Unread<'_>) -> Result<u32, CodecRefused> {
        let version: u32 = Common::read(alloc, unread)?;
        if !is_first(version) {
            return Err(CodecRefused::NoForm);
        }
        Ok(version)
    }
}

fn is_first(version: u32) -> bool
    ensures { result ≡ numbers.is_between 1 1 version }
{
    1 <= version && version <= 1
}

/// The fields of a metadata.
#[tactic(auto, using(crate::proofs::HeldLemmas::view_held), unfolding(crate::specs::Views::view, crate::specs::Views::view_fields))]
impl Coder<ViewMetadata> for Views {
    ghost form = { spec.view };

    ghost rule = { IsValidView };

    fn write(meta: &ViewMetadata, written: &mut Vec<u8>) -> Result<(), OutOfMemory> {
        write_heads(meta, written)?;
        write_members(meta, written)
    }

    fn read(alloc: Global, unread: &mut Unread<'_>) -> Result<ViewMetadata, CodecRefused> {
        let meta = read_fields(alloc, unread)?;
        if !is_whole_view(alloc, &meta)? {
            return Err(CodecRefused::NoForm);
        }
        Ok(meta)
    }
}

#[tactic(auto, using(crate::proofs::HeldLemmas::heads_held), unfolding(crate::specs::Views::heads))]
fn write_heads(meta: &ViewMetadata, written: &mut Vec<u8>) -> Result<(), OutOfMemory>
    ensures bytes { OnOk result (written.new.items ≡ written.old.items ++ spec.heads.write (spec.heads_in meta.now)) }
    ensures holds { OnOk result (HasViewForms meta.now → spec.heads.holds (spec.heads_in meta.now)) }
{
    Id::write(&meta.current_version_id, written)?;
    ViewFormat::write(&meta.format_version, written)?;
    Common::write(&meta.location, written)?;
    Common::write(&meta.properties, written)
}

#[tactic(auto, using(crate::proofs::HeldLemmas::members_held), unfolding(crate::specs::Views::members))]
fn write_members(meta: &ViewMetadata, written: &mut Vec<u8>) -> Result<(), OutOfMemory>
    ensures bytes { OnOk result (written.new.items
        ≡ written.old.items ++ spec.members.write (spec.members_in meta.now)) }
    ensures holds { OnOk result (HasViewForms meta.now → spec.members.holds (spec.members_in meta.now)) }
{
    ListOf::<Metadata>::write(&meta.schemas, written)?;
    ListOf::<Views>::write(&meta.version_log, written)?;
    ListOf::<Views>::write(&meta.versions, written)?;
    Metadata::write(&meta.view_uuid, written)
}

/// Reads the fields of a metadata without a look at what ties them.
#[tactic(auto, unfolding(crate::specs::Views::view_fields))]
fn read_fields(alloc: Global, unread: &mut Unread<'_>) -> Result<ViewMetadata, CodecRefused>
    ensures { Gives result unread.new (spec.view_fields.read unread.old) }
{
    let heads = read_heads(alloc, unread)?;
    let members = read_members(alloc, unread)?;
    Ok(view_of(heads, members))
}

#[tactic(auto, unfolding(crate::specs::Views::heads))]
fn read_heads(alloc: Global, unread: &mut Unread<'_>) -> Result<Heads, CodecRefused>
    ensures { Gives result unread.new (spec.heads.read unread.old) }
{
    let current = Id::read(alloc, unread)?;
    let version = ViewFormat::read(alloc, unread)?;
    let location: Text = Common::read(alloc, unread)?;
    let properties: Properties = Common::read(alloc, unread)?;
    Ok((current, (version, (location, properties))))
}

#[tactic(auto, unfolding(crate::specs::Views::members))]
fn read_members(alloc: Global, unread: &mut Unread<'_>) -> Result<Members, CodecRefused>
    ensures { Gives result unread.new (spec.members.read unread.old) }
{
    let schemas: Listed<Schema> = ListOf::<Metadata>::read(alloc, unread)?;
    let log: Listed<VersionLogEntry> = ListOf::<Views>::read(alloc, unread)?;
    let versions: Listed<ViewVersion> = ListOf::<Views>::read(alloc, unread)?;
    let uuid: Uuid = Metadata::read(alloc, unread)?;
    Ok((schemas, (log, (versions, uuid))))
}

/// The metadata that has these fields.
fn view_of(heads: Heads, members: Members) -> ViewMetadata
    ensures { result ≡ spec.view_of heads members }
{
    let (current_version_id, (format_version, (location, properties))) = heads;
    let (schemas, (version_log, (versions, view_uuid))) = members;
    ViewMetadata {
        current_version_id,
        format_version,
        location,
        properties,
        schemas,
        version_log,
        versions,
        view_uuid,
    }
}
