//! What the types of a metadata's fields keep.
ghost use Rattle.std.specs.Prelude.{All};
ghost use Rattle.pol_properties.specs.Properties.{KeysAscend};
ghost use Rattle.pol_metalaws.specs.Laws.{IsHeld, IsUuid};

use pol_meta::{Snapshot, TableMetadata};

/// Each metadata that a program has is held as `printed_is_read` asks.
pub fn each_is_held(meta: &TableMetadata)
    ensures { IsHeld meta.now }
{
    let _pairs = meta.properties.iter();
    has_sixteen(meta.table_uuid.as_bytes());
    summaries_rise(meta.snapshots.as_slice());
}

/// The bytes of a uuid are 16.
pub fn has_sixteen(bytes: &[u8; 16])
    ensures { IsUuid bytes.now }
{
    let all: &[u8] = bytes;
    let count = all.len();
    prove!(count == 16);
}

fn summaries_rise(snapshots: &[Snapshot])
    ensures { All (λ snapshot. KeysAscend snapshot.summary) snapshots.now }
{
    for snapshot in snapshots {
        let _pairs = snapshot.summary.iter();
    }
}
