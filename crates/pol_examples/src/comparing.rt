//! How what came differs from what an example wants.
ghost use Rattle.std.specs.Prelude.{◌≡◌, ◌↔◌, IfOk, IfSome, None, unwrap_or, nat_lt, position};
ghost use Rattle.pol_examples.specs.Comparing.{IsFirstDifference, IsHeld, index_at, line_at};

use crate::example::Example;
use crate::files::Held;
use crate::script::Part;
use pol_types::{OutOfMemory, Text};
use pol_values::{Difference, shown};
use std::alloc::{AllocError, Global};

/// How many bytes are shown before the first that differs.
const BEFORE: usize = 30;

/// How many bytes are shown from the first on that differs.
const BEHIND: usize = 40;

impl Example {
    ghost use Rattle.pol_examples.specs.Comparing.{Agrees, AreHeld, IsShownAt};

    /// Where the output, the exit status and the reason of a run differ from what the example wants: the output comes
    /// first, and then how the run ended.
    pub fn difference(
        &self,
        alloc: Global,
        output: &[u8],
        status: u8,
        reason: &str,
    ) -> Result<Option<Difference>, OutOfMemory>
        ensures agrees { IfOk result
            (λ difference. (difference ≡ None) ↔ Agrees self.now output.now status reason.now) }
        ensures line { IfOk result
            (λ difference. IfSome difference (λ shown. IsShownAt self.now output.now shown.line)) }
    {
        if let Some(place) = first_difference(self.script.output.as_slice(), output) {
            let difference = self.output_difference(alloc, output, place)?;
            return Ok(Some(difference));
        }
        if self.end.status == status && self.end.reason.as_str() == reason {
            return Ok(None);
        }
        let difference = self.end_difference(alloc, status, reason)?;
        Ok(Some(difference))
    }

    /// Where what the disks hold at the end of a run differs from what the example wants: the catalogue's comes first.
    pub fn files_difference(
        &self,
        alloc: Global,
        catalogue: &[u8],
        objects: &[u8],
    ) -> Result<Option<Difference>, OutOfMemory>
        ensures { IfOk result
            (λ difference. (difference ≡ None) ↔ AreHeld self.now.holds catalogue.now objects.now) }
    {
        let held = &self.holds.catalogue;
        let difference = held_difference(alloc, "catalogue's", held, catalogue)?;
        if difference.is_some() {
            return Ok(difference);
        }
        let difference = held_difference(alloc, "objects'", &self.holds.objects, objects)?;
        Ok(difference)
    }

    /// Tells the difference of the output at a place.
    fn output_difference(
        &self,
        alloc: Global,
        output: &[u8],
        place: usize,
    ) -> Result<Difference, AllocError>
        ensures { IfOk result (λ difference. difference.line
            ≡ unwrap_or (line_at self.now.script.parts.items place) self.now.line) }
    {
        let wanted = self.script.output.as_slice();
        let what = format!(in alloc; "byte {place} of all that came is another")?;
        Ok(Difference {
            line: line_of(self.script.parts.as_slice(), place).unwrap_or(self.line),
            what: Text::from(what),
            wanted: around(alloc, wanted, place)?,
            got: around(alloc, output, place)?,
        })
    }

    /// Tells that the run ended otherwise.
    fn end_difference(
        &self,
        alloc: Global,
        status: u8,
        reason: &str,
    ) -> Result<Difference, AllocError>
        ensures { IfOk result (λ difference. difference.line ≡ self.now.end.line) }
    {
        Ok(Difference {
            line: self.end.line,
            what: Text::from(String::from_str(alloc, "the run ends otherwise")?),
            wanted: ending(alloc, self.end.status, self.end.reason.as_str())?,
            got: ending(alloc, status, reason)?,
        })
    }
}

/// Where what a disk holds differs from what it is to hold.
fn held_difference(
    alloc: Global,
    whose: &str,
    held: &Option<Held>,
    bytes: &[u8],
) -> Result<Option<Difference>, AllocError>
    ensures { IfOk result (λ difference. (difference ≡ None) ↔ IsHeld held.now bytes.now) }
{
    let Some(held) = held else {
        return Ok(None);
    };
    let wanted = held.bytes.as_slice();
    let Some(place) = first_difference(wanted, bytes) else {
        return Ok(None);
    };
    let what = format!(in alloc; "byte {place} of what the {whose} disk holds is another")?;
    Ok(Some(Difference {
        line: held.line,
        what: Text::from(what),
        wanted: around(alloc, wanted, place)?,
        got: around(alloc, bytes, place)?,
    }))
}

/// How a run ends.
fn ending(alloc: Global, status: u8, reason: &str) -> Result<Text, AllocError> {
    Ok(Text::from(format!(in alloc; "{status} {reason}")?))
}

/// The line of the part of the output that a place falls in, or of the last part where it is behind all.
fn line_of(parts: &[Part], place: usize) -> Option<usize>
    ensures { result ≡ line_at parts.now place }
{
    match parts.get(index_of(parts, place)) {
        Some(part) => Some(part.line),
        None => None,
    }
}

/// The index of that part.
fn index_of(parts: &[Part], place: usize) -> usize
    ensures { result ≡ index_at parts.now place }
{
    match first_past(parts, place) {
        Some(index) => index,
        None => parts.len().saturating_sub(1),
    }
}

/// The index of the first part that ends past a place.
fn first_past(parts: &[Part], place: usize) -> Option<usize>
    ensures { result ≡ position (λ part. nat_lt place part.end) parts.now }
{
    parts.iter().position(|part| place < part.end)
}

/// The place of the first byte that differs, or that only one of the two has.
pub fn first_difference(wanted: &[u8], got: &[u8]) -> Option<usize>
    ensures none { (result ≡ None) ↔ (wanted.now ≡ got.now) }
    ensures place { IfSome result (IsFirstDifference wanted.now got.now) }
{
    if wanted == got {
        return None;
    }
    let shorter = wanted.len().min(got.len());
    for place in 0..shorter {
        if wanted[place] != got[place] {
            return Some(place);
        }
    }
    Some(shorter)
}

/// The bytes around a place as they are shown.
fn around(alloc: Global, bytes: &[u8], place: usize) -> Result<Text, AllocError> {
    let place = place.min(bytes.len());
    let from = place.saturating_sub(BEFORE);
    let to = place.saturating_add(BEHIND).min(bytes.len());
    let begin = if from > 0 { ".." } else { "" };
    let end = if to < bytes.len() { ".." } else { " (end)" };
    let part = shown(alloc, &bytes[from..to])?;
    let part = part.as_str();
    Ok(Text::from(format!(in alloc; "{begin}{part}{end}")?))
}
