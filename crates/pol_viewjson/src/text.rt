//! Texts of metadata.
ghost use Rattle.std.specs.Prelude.{◌≡◌, IfOk, Ok, string_bytes};
ghost use Rattle.serde_json.specs.Written.{compact_text};
ghost use Rattle.pol_readers.specs.Forms as form;
ghost use Rattle.pol_views.specs.Valid.{HasViewForms};
ghost use Rattle.pol_viewjson.specs.Json.{view_json};
ghost use Rattle.pol_viewjson.specs.Metadata.{view_metadata};

use crate::held::each_is_held;
use crate::print::view_value;
use pol_types::OutOfMemory;
use pol_views::ViewMetadata;
use std::alloc::Global;

/// The text of a view's metadata as JSON (RFC 8259), without spaces. Where the metadata's parts have their forms, the
/// form that `read_view` reads by gives the same metadata of it.
pub fn view_text(alloc: Global, meta: &ViewMetadata) -> Result<String, OutOfMemory>
    ensures text { IfOk result (λ text. string_bytes text ≡ compact_text (view_json meta.now)) }
    ensures reads_back { HasViewForms meta.now
        → IfOk result (λ text. form.body view_metadata.read (string_bytes text) ≡ Ok meta.now) }
{
    each_is_held(meta);
    let value = view_value(alloc, meta)?;
    Ok(value.to_string(alloc)?)
}
