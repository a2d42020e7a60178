ghost use Rattle.std.proofs.Common.{rules};

use pol_types::Exact;

/// What is done to the values of a column before a table is partitioned or sorted by them.
#[derive(Clone, Copy, PartialEq, Eq)]
pub enum Transform {
    Identity,
    Void,
    Year,
    Month,
    Day,
    Hour,
    /// The hash, in this many buckets.
    Bucket(u32),
    /// The value cut to this width.
    Truncate(u32),
}

impl Exact for Transform {
    ghost use Rattle.pol_meta.specs.Exactness.{transforms_exact};

    ghost clones_exactly = { Prim.search rules };

    ghost compares_exactly = { transforms_exact };
}
