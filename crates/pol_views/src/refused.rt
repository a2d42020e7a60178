use pol_updates::ApplyRefused;

/// Why a list of updates of a view makes no metadata: as for a table.
pub type ApplyViewRefused = ApplyRefused;
