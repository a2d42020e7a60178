ghost use Rattle.std.proofs.Common.{rules};

use crate::Transform;
use pol_types::{Exact, Listed};

/// Which values come first.
#[derive(Clone, Copy, PartialEq, Eq)]
pub enum Direction {
    Asc,
    Desc,
}

impl Exact for Direction {
    ghost use Rattle.pol_meta.specs.Exactness.{directions_exact};

    ghost clones_exactly = { Prim.search rules };

    ghost compares_exactly = { directions_exact };
}

/// Whether nulls come before all values or after them.
#[derive(Clone, Copy, PartialEq, Eq)]
pub enum NullOrder {
    NullsFirst,
    NullsLast,
}

impl Exact for NullOrder {
    ghost use Rattle.pol_meta.specs.Exactness.{null_orders_exact};

    ghost clones_exactly = { Prim.search rules };

    ghost compares_exactly = { null_orders_exact };
}

/// A field of a sort order: the column whose values are transformed, and how they are sorted.
#[derive(Clone, Copy, PartialEq, Eq)]
pub struct SortField {
    pub transform: Transform,
    pub source_id: u32,
    pub direction: Direction,
    pub null_order: NullOrder,
}

impl Exact for SortField {
    ghost use Rattle.pol_meta.specs.Exactness.{sort_fields_exact};

    ghost clones_exactly = { Prim.search rules };

    ghost compares_exactly = { sort_fields_exact };
}

/// How the rows of a table's files are sorted, by the first field first.
#[derive(Clone, Drop, PartialEq, Eq)]
pub struct SortOrder {
    pub order_id: u32,
    pub fields: Listed<SortField>,
}

impl Exact for SortOrder {
    ghost use Rattle.pol_meta.specs.Exactness.{sort_orders_exact};

    ghost clones_exactly = { Prim.search rules };

    ghost compares_exactly = { sort_orders_exact };
}

/// A sort order that is asked for. The table gives it its id.
#[derive(Clone, Drop, PartialEq, Eq)]
pub struct UnboundOrder {
    pub fields: Listed<SortField>,
}

impl Exact for UnboundOrder {
    ghost use Rattle.pol_meta.specs.Exactness.{unbound_orders_exact};

    ghost clones_exactly = { Prim.search rules };

    ghost compares_exactly = { unbound_orders_exact };
}
