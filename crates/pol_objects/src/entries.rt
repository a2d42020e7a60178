//! The entries of objects in blocks, by the texts under which they stand.
ghost use Rattle.std.specs.Prelude.{◌≡◌, ◌<◌, IfOk, MatchOption, None, OnErr, OnOk, is_some, length, option_map, slice_get};
ghost use Rattle.std.specs.BTreeMap.{insert_entry};
ghost use Rattle.std.specs.List.{sum_by};
ghost use Rattle.std.specs.Map.{remove_entry};
ghost use Rattle.std.specs.Ordering.{is_eq};
ghost use Rattle.pol_blocks.specs.Blocks.{IsPlace, flat, number_of};
ghost use Rattle.pol_objects.specs.Entries.{IsParting, IsRising, StandsAt, bytes_under};
ghost use Rattle.pol_objects.specs.Objects.{byte_order};

use crate::entry::Entry;
use pol_blocks::{Blocks, Front, Place};
use pol_shared_bytes::SharedBytes;
use pol_types::OutOfMemory;
use std::alloc::Global;

/// The test whether the text of an entry is below this one.
#[derive(Drop)]
struct Below<'a> {
    text: &'a [u8],
}

impl Front<Entry> for Below<'_> {
    ghost use Rattle.pol_objects.specs.Entries.{is_below};

    ghost passes = { λ below entry. is_below below.text.now entry };

    fn passes(&self, entry: &Entry) -> bool {
        entry.text().cmp(&self.text).is_lt()
    }
}

/// The place behind the entries whose texts are below this one.
pub(crate) fn place_of(entries: &Blocks<Entry>, text: &[u8]) -> Place
    requires { IsRising (flat entries.now) }
    ensures { IsParting text.now entries.now result }
{
    entries.place_of(&Below { text })
}

/// The place of the entry of a text, if there is one.
fn seek(entries: &Blocks<Entry>, text: &[u8]) -> Option<Place>
    requires { IsRising (flat entries.now) }
    ensures { MatchOption result (bytes_under (flat entries.now) text.now ≡ None)
        (λ place. StandsAt text.now entries.now place) }
{
    let place = place_of(entries, text);
    let Some(entry) = entries.get(place) else {
        return None;
    };
    if entry.text() == text {
        Some(place)
    } else {
        None
    }
}

/// Whether there is an entry of this text.
pub(crate) fn contains(entries: &Blocks<Entry>, text: &[u8]) -> bool
    requires { IsRising (flat entries.now) }
    ensures { result ≡ is_some (bytes_under (flat entries.now) text.now) }
{
    seek(entries, text).is_some()
}

/// How many bytes are kept under this text.
pub(crate) fn length(entries: &Blocks<Entry>, text: &[u8]) -> Option<usize>
    requires { IsRising (flat entries.now) }
    ensures { result ≡ option_map length (bytes_under (flat entries.now) text.now) }
{
    let place = seek(entries, text)?;
    let entry = entries.get(place)?;
    Some(entry.len())
}

/// The bytes that are kept under this text, which have one owner more.
pub(crate) fn share(
    entries: &mut Blocks<Entry>,
    alloc: Global,
    text: &[u8],
) -> Result<Option<SharedBytes>, OutOfMemory>
    requires { IsRising (flat entries.old) }
    ensures found { IfOk result (λ found. found ≡ bytes_under (flat entries.old) text.now) }
    ensures kept { flat entries.new ≡ flat entries.old }
{
    let Some(place) = seek(entries, text) else {
        return Ok(None);
    };
    Ok(Some(share_at(entries, alloc, place)?))
}

/// The bytes of the entry at a place, which have one owner more.
fn share_at(
    entries: &mut Blocks<Entry>,
    alloc: Global,
    place: Place,
) -> Result<SharedBytes, OutOfMemory>
    requires place { IsPlace entries.old place }
    requires inside { number_of entries.old place < length (flat entries.old) }
    ensures bytes { IfOk result (λ bytes. Some bytes
        ≡ option_map (λ entry. entry.1) (slice_get (flat entries.old) (number_of entries.old place))) }
    ensures kept { flat entries.new ≡ flat entries.old }
{
    let entry = entries.replace(place, Entry::empty(alloc));
    let (entry, bytes) = entry.share(alloc);
    drop(entries.replace(place, entry));
    bytes
}

/// Puts an entry in under a new text.
pub(crate) fn insert(
    entries: &mut Blocks<Entry>,
    alloc: Global,
    entry: Entry,
) -> Result<(), OutOfMemory>
    requires rising { IsRising (flat entries.old) }
    requires new { bytes_under (flat entries.old) entry.0 ≡ None }
    ensures put { OnOk result (flat entries.new ≡ insert_entry byte_order (flat entries.old) entry.0 entry.1) }
    ensures rising { IsRising (flat entries.new) }
    ensures error { OnErr result (entries.new ≡ entries.old) }
{
    let place = place_of(entries, entry.text());
    entries.insert(alloc, place, entry)?;
    Ok(())
}

/// Takes the entry of a text away, and tells whether there was one. It takes no memory.
pub(crate) fn remove(entries: &mut Blocks<Entry>, text: &[u8]) -> bool
    requires { IsRising (flat entries.old) }
    ensures taken { result ≡ is_some (bytes_under (flat entries.old) text.now) }
    ensures without { flat entries.new
        ≡ remove_entry (λ key. is_eq (byte_order text.now key)) (flat entries.old) }
    ensures rising { IsRising (flat entries.new) }
{
    let Some(place) = seek(entries, text) else {
        return false;
    };
    drop(entries.remove(place));
    true
}

/// The sum of the lengths of the objects. It is `OutOfMemory` where they are more than a number of 64 bits tells.
pub(crate) fn total_length(entries: &Blocks<Entry>) -> Result<u64, OutOfMemory>
    ensures { IfOk result (λ total. total ≡ sum_by (λ entry. length entry.1) (flat entries.now)) }
{
    let mut total = 0u64;
    for entry in entries.iter() {
        let Some(more) = total.checked_add(entry.len() as u64) else {
            return Err(OutOfMemory);
        };
        total = more;
    }
    Ok(total)
}
