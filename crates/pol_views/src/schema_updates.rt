ghost use Rattle.pol_drafts.specs.Drafts.{Becomes};
ghost use Rattle.pol_views.specs.Schemas.{add_schema};

use crate::draft::ViewDraft;
use pol_drafts::{Stop, next_schema_id, numbered_schema, push, same_schema_id};
use pol_meta::Schema;
use std::alloc::Global;

/// Adds a schema, or finds the first that has the same columns and identifier ids.
#[tactic(auto, unfolding(crate::specs::Schemas::add_schema))]
pub fn add_schema(alloc: Global, draft: &mut ViewDraft, schema: &Schema) -> Result<(), Stop>
    ensures { Becomes (add_schema schema.now draft.old) result draft.new }
{
    if let Some(id) = same_schema_id(schema, draft.meta.schemas.as_slice()) {
        draft.last_schema = Some(id);
        return Ok(());
    }
    let id = next_schema_id(draft.meta.schemas.as_slice())?;
    let added = numbered_schema(schema, id)?;
    push(alloc, &mut draft.meta.schemas, added)?;
    draft.last_schema = Some(id);
    Ok(())
}
