ghost use Rattle.std.proofs.Common.{rules};

use crate::Transform;
use pol_types::{Exact, Listed, Text};

/// A field of a partition spec: the column whose values are transformed, its own id and its name.
#[derive(Clone, Drop, PartialEq, Eq)]
pub struct PartitionField {
    pub source_id: u32,
    pub field_id: u32,
    pub name: Text,
    pub transform: Transform,
}

impl Exact for PartitionField {
    ghost use Rattle.pol_meta.specs.Exactness.{partition_fields_exact};

    ghost clones_exactly = { Prim.search rules };

    ghost compares_exactly = { partition_fields_exact };
}

/// How a table is partitioned.
#[derive(Clone, Drop, PartialEq, Eq)]
pub struct PartitionSpec {
    pub spec_id: u32,
    pub fields: Listed<PartitionField>,
}

impl Exact for PartitionSpec {
    ghost use Rattle.pol_meta.specs.Exactness.{partition_specs_exact};

    ghost clones_exactly = { Prim.search rules };

    ghost compares_exactly = { partition_specs_exact };
}

/// A field of a partition spec that is asked for. The table gives it an id where it has none.
#[derive(Clone, Drop, PartialEq, Eq)]
pub struct UnboundField {
    pub source_id: u32,
    pub field_id: Option<u32>,
    pub name: Text,
    pub transform: Transform,
}

impl Exact for UnboundField {
    ghost use Rattle.pol_meta.specs.Exactness.{unbound_fields_exact};

    ghost clones_exactly = { Prim.search rules };

    ghost compares_exactly = { unbound_fields_exact };
}

/// A partition spec that is asked for. The table gives it its id.
#[derive(Clone, Drop, PartialEq, Eq)]
pub struct UnboundSpec {
    pub fields: Listed<UnboundField>,
}

impl Exact for UnboundSpec {
    ghost use Rattle.pol_meta.specs.Exactness.{unbound_specs_exact};

    ghost clones_exactly = { Prim.search rules };

    ghost compares_exactly = { unbound_specs_exact };
}
