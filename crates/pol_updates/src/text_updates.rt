ghost use Rattle.std.specs.Prelude.{◌≡◌, Ok, OnOk};
ghost use Rattle.pol_drafts.specs.Drafts.{Becomes};
ghost use Rattle.pol_updates.specs.Texts.{all_removed, all_set, assign_uuid, upgrade_format_version, with_location};
ghost use Rattle.pol_updates.specs.Texts.{with_values, without_keys};

use pol_drafts::{Draft, Stop};
use pol_meta::Why;
use pol_properties::Properties;
use pol_types::{OutOfMemory, Text};
use uuid::Uuid;

/// The format version that is served.
const FORMAT_VERSION: u32 = 2;

/// The table has this uuid already.
pub fn assign_uuid(draft: &Draft, uuid: &Uuid) -> Result<(), Stop>
    ensures { Becomes (assign_uuid uuid.now draft.now) result draft.now }
{
    if draft.meta.table_uuid != *uuid {
        return Err(Stop::Refused(Why::UuidDiffers));
    }
    Ok(())
}

/// The table has this format version already.
pub fn upgrade_format_version(draft: &Draft, version: u32) -> Result<(), Stop>
    ensures { Becomes (upgrade_format_version version draft.now) result draft.now }
{
    if version != FORMAT_VERSION {
        return Err(Stop::Refused(Why::FormatVersion));
    }
    Ok(())
}

pub fn set_location(draft: &mut Draft, location: &Text) -> Result<(), Stop>
    ensures { Becomes (Ok (with_location location.now draft.old)) result draft.new }
{
    draft.meta.location = location.clone()?;
    Ok(())
}

/// Sets each pair.
pub fn set_properties(draft: &mut Draft, updates: &Properties) -> Result<(), Stop>
    ensures { Becomes (Ok (with_values updates.now draft.old)) result draft.new }
{
    set_all(&mut draft.meta.properties, updates)?;
    Ok(())
}

/// Takes each key away.
pub fn remove_properties(draft: &mut Draft, removals: &[Text])
    ensures { draft.new ≡ without_keys removals.now draft.old }
{
    remove_all(&mut draft.meta.properties, removals);
}

/// Sets each of these pairs.
pub fn set_all(properties: &mut Properties, updates: &Properties) -> Result<(), OutOfMemory>
    ensures { OnOk result (properties.new ≡ all_set updates.now properties.old) }
{
    let pairs = updates.iter().as_slice();
    for pair in pairs {
        properties.set(pair.clone()?)?;
    }
    Ok(())
}

/// Takes each of these keys away.
pub fn remove_all(properties: &mut Properties, removals: &[Text])
    ensures { properties.new ≡ all_removed removals.now properties.old }
{
    for key in removals {
        properties.remove(key.as_str());
    }
}
