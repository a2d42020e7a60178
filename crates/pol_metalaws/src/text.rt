//! Texts of metadata.
ghost use Rattle.std.specs.Prelude.{◌≡◌, IfOk, Ok, string_bytes};
ghost use Rattle.serde_json.specs.Written.{compact_text};
ghost use Rattle.pol_meta.specs.Valid.{HasForms};
ghost use Rattle.pol_metaprint.specs.Metadata.{table_json};
ghost use Rattle.pol_metaread.specs.Metadata.{table_metadata};
ghost use Rattle.pol_readers.specs.Forms as form;

use crate::held::each_is_held;
use pol_meta::TableMetadata;
use pol_metaprint::table_value;
use pol_types::OutOfMemory;
use std::alloc::Global;

/// The text of a metadata's JSON (RFC 8259), without spaces. Where the metadata's parts have their forms, the form that
/// `read_table` reads by gives the same metadata of it.
pub fn table_text(alloc: Global, meta: &TableMetadata) -> Result<String, OutOfMemory>
    ensures text { IfOk result (λ text. string_bytes text ≡ compact_text (table_json meta.now)) }
    ensures reads_back { HasForms meta.now
        → IfOk result (λ text. form.body table_metadata.read (string_bytes text) ≡ Ok meta.now) }
{
    each_is_held(meta);
    let value = table_value(alloc, meta)?;
    Ok(value.to_string(alloc)?)
}
