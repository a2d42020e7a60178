ghost use Rattle.std.proofs.Common.{rules};

use pol_types::{Exact, Text};

/// Where a former metadata of a table stands, and when it was made, in milliseconds since the Unix epoch.
#[derive(Clone, Drop, PartialEq, Eq)]
pub struct MetadataLogEntry {
    pub metadata_file: Text,
    pub timestamp_ms: u64,
}

impl Exact for MetadataLogEntry {
    ghost use Rattle.pol_meta.specs.Exactness.{metadata_log_entries_exact};

    ghost clones_exactly = { Prim.search rules };

    ghost compares_exactly = { metadata_log_entries_exact };
}

/// A snapshot that became the current one, and when, in milliseconds since the Unix epoch.
#[derive(Clone, Copy, PartialEq, Eq)]
pub struct SnapshotLogEntry {
    pub snapshot_id: u64,
    pub timestamp_ms: u64,
}

impl Exact for SnapshotLogEntry {
    ghost use Rattle.pol_meta.specs.Exactness.{snapshot_log_entries_exact};

    ghost clones_exactly = { Prim.search rules };

    ghost compares_exactly = { snapshot_log_entries_exact };
}
