ghost use Rattle.std.proofs.Common.{rules};

use pol_types::{Exact, Text};

/// Whether a reference moves on with new snapshots.
#[derive(Clone, Copy, PartialEq, Eq)]
pub enum RefKind {
    Branch,
    Tag,
}

impl Exact for RefKind {
    ghost use Rattle.pol_meta.specs.Exactness.{ref_kinds_exact};

    ghost clones_exactly = { Prim.search rules };

    ghost compares_exactly = { ref_kinds_exact };
}

/// A reference to a snapshot, and what is to be kept of it: ages in milliseconds, and a number of snapshots.
#[derive(Clone, Copy, PartialEq, Eq)]
pub struct SnapshotRef {
    pub kind: RefKind,
    pub snapshot_id: u64,
    pub max_ref_age_ms: Option<u64>,
    pub max_snapshot_age_ms: Option<u64>,
    pub min_snapshots_to_keep: Option<u64>,
}

impl Exact for SnapshotRef {
    ghost use Rattle.pol_meta.specs.Exactness.{snapshot_refs_exact};

    ghost clones_exactly = { Prim.search rules };

    ghost compares_exactly = { snapshot_refs_exact };
}

/// A reference under its name.
#[derive(Clone, Drop, PartialEq, Eq)]
pub struct NamedRef {
    pub name: Text,
    pub reference: SnapshotRef,
}

impl Exact for NamedRef {
    ghost use Rattle.pol_meta.specs.Exactness.{named_refs_exact};

    ghost clones_exactly = { Prim.search rules };

    ghost compares_exactly = { named_refs_exact };
}
