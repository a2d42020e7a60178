ghost use Rattle.std.specs.Prelude.{◌≡◌, Ok};
ghost use Rattle.pol_drafts.specs.Drafts.{Becomes};
ghost use Rattle.pol_views.specs.Texts.{assign_uuid, upgrade_format_version, with_location, with_values, without_keys};

use crate::draft::ViewDraft;
use pol_drafts::Stop;
use pol_meta::Why;
use pol_properties::Properties;
use pol_types::Text;
use pol_updates::{remove_all, set_all};
use uuid::Uuid;

/// The format version that is served.
const FORMAT_VERSION: u32 = 1;

/// The view has this uuid already.
pub fn assign_uuid(draft: &ViewDraft, uuid: &Uuid) -> Result<(), Stop>
    ensures { Becomes (assign_uuid uuid.now draft.now) result draft.now }
{
    if draft.meta.view_uuid != *uuid {
        return Err(Stop::Refused(Why::UuidDiffers));
    }
    Ok(())
}

/// The view has this format version already.
pub fn upgrade_format_version(draft: &ViewDraft, version: u32) -> Result<(), Stop>
    ensures { Becomes (upgrade_format_version version draft.now) result draft.now }
{
    if version != FORMAT_VERSION {
        return Err(Stop::Refused(Why::FormatVersion));
    }
    Ok(())
}

pub fn set_location(draft: &mut ViewDraft, location: &Text) -> Result<(), Stop>
    ensures { Becomes (Ok (with_location location.now draft.old)) result draft.new }
{
    draft.meta.location = location.clone()?;
    Ok(())
}

/// Sets each pair.
pub fn set_properties(draft: &mut ViewDraft, updates: &Properties) -> Result<(), Stop>
    ensures { Becomes (Ok (with_values updates.now draft.old)) result draft.new }
{
    set_all(&mut draft.meta.properties, updates)?;
    Ok(())
}

/// Takes each key away.
pub fn remove_properties(draft: &mut ViewDraft, removals: &[Text])
    ensures { draft.new ≡ without_keys removals.now draft.old }
{
    remove_all(&mut draft.meta.properties, removals);
}
