ghost use Rattle.std.specs.Prelude.{◌≡◌, IfOk, codes, drop, length};
ghost use Rattle.pol_meta.specs.FileNames.{file_text, metadata_file};

use pol_types::Text;
use std::alloc::{AllocError, Global};
use uuid::Uuid;

/// Where the metadata of a version of a table stands: below its location, under the version, in at least five digits,
/// and its uuid.
#[tactic(auto, unfolding(crate::specs::FileNames::metadata_file))]
pub fn metadata_file(
    alloc: Global,
    location: &str,
    version: u64,
    uuid: &Uuid,
) -> Result<Text, AllocError>
    ensures { IfOk result (λ text. text ≡ metadata_file location.now version uuid.now) }
{
    let digits = version.to_string(alloc)?;
    let zeros = zeros_before(digits.as_str());
    let mut buffer = Uuid::encode_buffer();
    let uuid = uuid.hyphenated().encode_lower(&mut buffer);
    file_text(alloc, location, zeros, digits.as_str(), uuid)
}

#[tactic(auto, unfolding(crate::specs::FileNames::file_text))]
fn file_text(
    alloc: Global,
    location: &str,
    zeros: &str,
    digits: &str,
    uuid: &str,
) -> Result<Text, AllocError>
    ensures { IfOk result (λ text. text ≡ file_text location.now zeros.now digits.now uuid.now) }
{
    let text = format!(in alloc; "{location}/metadata/{zeros}{digits}-{uuid}.metadata.json")?;
    Ok(Text::from(text))
}

/// The zeros that make five digits of fewer.
fn zeros_before(digits: &str) -> &'static str
    ensures { result.now ≡ drop (length digits.now) (codes "00000") }
{
    match digits.len() {
        0 => "00000",
        1 => "0000",
        2 => "000",
        3 => "00",
        4 => "0",
        _ => "",
    }
}
