ghost use Rattle.std.proofs.Common.{rules};

use crate::{Column, Ids};
use pol_types::{Exact, Listed};

/// A schema: its id, the ids of the fields that tell rows apart, and its columns in preorder.
#[derive(Clone, Drop, PartialEq, Eq)]
pub struct Schema {
    pub schema_id: u32,
    pub identifier_field_ids: Ids,
    pub fields: Listed<Column>,
}

impl Exact for Schema {
    ghost use Rattle.pol_meta.specs.Exactness.{schemas_exact};

    ghost clones_exactly = { Prim.search rules };

    ghost compares_exactly = { schemas_exact };
}
