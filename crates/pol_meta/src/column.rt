ghost use Rattle.std.proofs.Common.{rules};

use pol_types::{Exact, Text};

/// The type of a column. A struct, a list and a map say no more: their columns follow the column in the list.
#[derive(Clone, Copy, PartialEq, Eq)]
pub enum Kind {
    Boolean,
    Int,
    Long,
    Float,
    Double,
    Date,
    Time,
    Timestamp,
    Timestamptz,
    String,
    Uuid,
    Binary,
    /// Digits in all, and those behind the point.
    Decimal { precision: u32, scale: u32 },
    /// Bytes of this length.
    Fixed { length: u32 },
    Struct,
    List,
    Map,
}

impl Exact for Kind {
    ghost use Rattle.pol_meta.specs.Exactness.{kinds_exact};

    ghost clones_exactly = { Prim.search rules };

    ghost compares_exactly = { kinds_exact };
}

/// What a column is of that in which it stands: a field of a schema or struct, the element of a list, or the key or
/// the value of a map. A key is always required.
#[derive(Clone, Drop, PartialEq, Eq)]
pub enum Part {
    Field {
        name: Text,
        required: bool,
        doc: Option<Text>,
    },
    Element {
        required: bool,
    },
    Key,
    Value {
        required: bool,
    },
}

impl Exact for Part {
    ghost use Rattle.pol_meta.specs.Exactness.{parts_exact};

    ghost clones_exactly = { Prim.search rules };

    ghost compares_exactly = { parts_exact };
}

/// A column of a schema, and how many columns it stands in. Columns stand in preorder: each is followed by those in
/// it.
#[derive(Clone, Drop, PartialEq, Eq)]
pub struct Column {
    pub depth: u32,
    pub id: u32,
    pub part: Part,
    pub kind: Kind,
}

impl Exact for Column {
    ghost use Rattle.pol_meta.specs.Exactness.{columns_exact};

    ghost clones_exactly = { Prim.search rules };

    ghost compares_exactly = { columns_exact };
}
