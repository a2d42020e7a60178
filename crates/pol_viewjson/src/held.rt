//! What the types of a metadata's fields keep.
ghost use Rattle.std.specs.Prelude.{All};
ghost use Rattle.pol_viewjson.specs.Laws.{IsHeldVersion, IsHeldView};

use pol_metalaws::has_sixteen;
use pol_views::{ViewMetadata, ViewVersion};

/// Each metadata that a program has is held as `printed_is_read` asks.
pub fn each_is_held(meta: &ViewMetadata)
    ensures { IsHeldView meta.now }
{
    let _pairs = meta.properties.iter();
    has_sixteen(meta.view_uuid.as_bytes());
    versions_are_held(meta.versions.as_slice());
}

fn versions_are_held(versions: &[ViewVersion])
    ensures { All IsHeldVersion versions.now }
{
    for version in versions {
        is_held(version);
    }
}

fn is_held(version: &ViewVersion)
    ensures { IsHeldVersion version.now }
{
    let _pairs = version.summary.iter();
    let _levels = version.default_namespace.levels();
}
