ghost use Rattle.std.proofs.Common.{rules};

use pol_types::Exact;

/// A version that became the current one, and when, in milliseconds since the Unix epoch.
#[derive(Clone, Copy, PartialEq, Eq)]
pub struct VersionLogEntry {
    pub timestamp_ms: u64,
    pub version_id: u32,
}

impl Exact for VersionLogEntry {
    ghost use Rattle.pol_views.specs.Exactness.{version_log_entries_exact};

    ghost clones_exactly = { Prim.search rules };

    ghost compares_exactly = { version_log_entries_exact };
}
