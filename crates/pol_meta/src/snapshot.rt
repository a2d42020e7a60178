ghost use Rattle.std.proofs.Common.{rules};

use pol_properties::Properties;
use pol_types::{Exact, Text};

/// The state of a table at some time: its number, the snapshot before it, when it was made, in milliseconds since the
/// Unix epoch, where the list of its files is, and texts about it, of which `operation` is one.
#[derive(Clone, Drop, PartialEq, Eq)]
pub struct Snapshot {
    pub snapshot_id: u64,
    pub parent_snapshot_id: Option<u64>,
    pub sequence_number: u64,
    pub timestamp_ms: u64,
    pub manifest_list: Text,
    pub summary: Properties,
    pub schema_id: Option<u32>,
}

impl Exact for Snapshot {
    ghost use Rattle.pol_meta.specs.Exactness.{snapshots_exact};

    ghost clones_exactly = { Prim.search rules };

    ghost compares_exactly = { snapshots_exact };
}
