//! The text of the metadata log.
ghost use Rattle.std.specs.Prelude.{◌≡◌, ◌++◌, IfOk, OnOk};
ghost use Rattle.serde_json.specs.Written.{compact_text};
ghost use Rattle.pol_metaprint.specs.Json.{list_json, metadata_log_entry_json};
ghost use Rattle.pol_metaprint.specs.Log.{entry_tokens};

use json::Writer;
use pol_meta::MetadataLogEntry;
use pol_metakeys::keys;
use pol_types::OutOfMemory;
use std::alloc::AllocError;

/// Writes the text of a metadata log.
pub(crate) fn write_log(text: Vec<u8>, log: &[MetadataLogEntry]) -> Result<Vec<u8>, OutOfMemory>
    ensures { IfOk result (λ all. all.items
        ≡ text.items ++ compact_text (list_json metadata_log_entry_json log.now)) }
{
    let mut out = Writer::new(text);
    out.begin_array()?;
    for entry in log {
        write_entry(&mut out, entry)?;
    }
    out.end_array()?;
    Ok(out.into_inner())
}

/// Writes an entry.
#[tactic(auto, using(crate::proofs::TextLemmas::entry_written))]
fn write_entry(out: &mut Writer, entry: &MetadataLogEntry) -> Result<(), AllocError>
    ensures tokens { OnOk result (out.new.tokens ≡ out.old.tokens ++ entry_tokens entry.now) }
    ensures before { out.new.before ≡ out.old.before }
{
    out.begin_object()?;
    out.key(keys::METADATA_FILE)?;
    out.string(entry.metadata_file.as_str())?;
    out.key(keys::TIMESTAMP_MS)?;
    out.u64(entry.timestamp_ms)?;
    out.end_object()
}
