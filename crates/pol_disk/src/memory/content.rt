ghost use Rattle.std.specs.Prelude.{◌≡◌, ◌≤◌, ◌+◌, ◌-◌, ◌++◌, IfOk, OnOk, OnErr, length, take};
ghost use Rattle.pol_disk.specs.Disk.{written, Follows, Torn, CutShort};
ghost use Rattle.pol_disk.specs.Content.{settled, unsure, torn_at, torn_past, written_at, cut_to, image_of, IsImage};

use pol_types::OutOfMemory;
use pol_wire::Failed;
use std::alloc::Global;
use std::marker::Model;

/// What a disk in memory holds at a moment, and what a crash then may leave. Places are counted in bytes.
#[derive(Drop)]
pub struct Content {
    seen: Vec<u8>,
    sure: Vec<Option<u8>>,
    least: usize,
}

impl Model for Content {
    ghost use Rattle.std.specs.Prelude.{◌≤◌, vec_len};
    ghost use Rattle.pol_disk.specs.Content.{ContentState};

    ghost Value = { ContentState };

    ghost view = { λ c. record { seen = c.seen.items; sure = c.sure.items; least = c.least } };

    ghost invariant = { λ c. (c.least ≤ vec_len c.sure) × (vec_len c.seen ≤ vec_len c.sure) };
}

impl Content {
    /// These bytes, each on the disk.
    pub(crate) fn settled(alloc: Global, seen: Vec<u8>) -> Result<Self, OutOfMemory>
        ensures { IfOk result (λ content. content ≡ settled seen.items) }
    {
        Ok(Content {
            sure: seen.iter().copied().map(Some).collect(alloc)?,
            least: seen.len(),
            seen,
        })
    }

    /// The same after a write. Where it was refused, it may have reached the disk in part, and a read doesn't show it.
    pub(crate) fn after_write(
        &self,
        alloc: Global,
        at: usize,
        bytes: &[u8],
        answer: Result<(), Failed>,
    ) -> Result<Self, OutOfMemory>
        requires { at ≤ length self.now.seen }
        ensures ok { OnOk answer (IfOk result (λ next. next ≡ written_at at bytes.now self.now)) }
        ensures err { OnErr answer (IfOk result (λ next. next ≡ torn_at at (length bytes.now) self.now)) }
        ensures crash { IfOk result (λ next.
            Follows (Torn at (at + length bytes.now)) (IsImage self.now) (IsImage next)) }
    {
        Ok(Content {
            seen: read_after_write(alloc, &self.seen, at, bytes, answer)?,
            sure: sure_after_write(alloc, &self.sure, at, bytes.len())?,
            least: self.least,
        })
    }

    /// The same after a cut. Where it was refused, it may have reached the disk in part, and a read doesn't show it.
    pub(crate) fn after_cut(
        &self,
        alloc: Global,
        kept: usize,
        answer: Result<(), Failed>,
    ) -> Result<Self, OutOfMemory>
        ensures ok { OnOk answer (IfOk result (λ next. next ≡ cut_to kept self.now)) }
        ensures err { OnErr answer (IfOk result (λ next. next ≡ torn_past kept self.now)) }
        ensures crash { IfOk result (λ next. Follows (CutShort kept) (IsImage self.now) (IsImage next)) }
    {
        Ok(Content {
            seen: read_after_cut(alloc, &self.seen, kept, answer)?,
            sure: sure_after_cut(alloc, &self.sure, kept)?,
            least: self.least.min(kept),
        })
    }

    /// The same after a sync that did its work.
    pub(crate) fn after_sync(&self, alloc: Global) -> Result<Self, OutOfMemory>
        ensures { IfOk result (λ next. next ≡ settled self.now.seen) }
    {
        Content::settled(alloc, Vec::from_slice(alloc, &self.seen)?)
    }

    /// The bytes that a read gives.
    pub fn seen(&self) -> &[u8]
        ensures { result.now ≡ self.now.seen }
    {
        &self.seen
    }

    /// The length of the shortest image.
    pub fn shortest_image(&self) -> usize
        ensures { result ≡ self.now.least }
    {
        self.least
    }

    /// The length of the longest image.
    pub fn longest_image(&self) -> usize
        ensures { result ≡ length self.now.sure }
    {
        self.sure.len()
    }

    /// The image that has the bytes of `filling` where a crash may leave any bytes, and is as long as `filling`.
    /// Each image that isn't what a read gives is that of itself.
    pub fn image(&self, alloc: Global, filling: &[u8]) -> Result<Vec<u8>, OutOfMemory>
        requires no_shorter { self.now.least ≤ length filling.now }
        requires no_longer { length filling.now ≤ length self.now.sure }
        ensures bytes { IfOk result (λ image. image.items ≡ image_of self.now filling.now) }
        ensures image { IfOk result (λ image. IsImage self.now image.items) }
    {
        let image = self.filled(alloc, filling)?;
        Ok(image)
    }

    // What is sure, and the bytes of `filling` elsewhere.
    fn filled(&self, alloc: Global, filling: &[u8]) -> Result<Vec<u8>, OutOfMemory>
        ensures { IfOk result (λ image. image.items ≡ image_of self.now filling.now) }
    {
        Ok(
            self.sure
                .iter()
                .zip(filling)
                .map(|(sure, byte)| sure.unwrap_or(*byte))
                .collect(alloc)?,
        )
    }
}

// What a read gives after a write, or after one that was refused.
fn read_after_write(
    alloc: Global,
    seen: &[u8],
    at: usize,
    bytes: &[u8],
    answer: Result<(), Failed>,
) -> Result<Vec<u8>, OutOfMemory>
    requires { at ≤ length seen.now }
    ensures ok { OnOk answer (IfOk result (λ read. read.items ≡ written at bytes.now seen.now)) }
    ensures err { OnErr answer (IfOk result (λ read. read.items ≡ seen.now)) }
    ensures torn { IfOk result (λ read. Torn at (at + length bytes.now) seen.now read.items) }
{
    match answer {
        Ok(()) => overwritten(alloc, seen, at, bytes),
        Err(Failed) => Ok(Vec::from_slice(alloc, seen)?),
    }
}

// What a read gives after a cut, or after one that was refused.
fn read_after_cut(
    alloc: Global,
    seen: &[u8],
    kept: usize,
    answer: Result<(), Failed>,
) -> Result<Vec<u8>, OutOfMemory>
    ensures ok { OnOk answer (IfOk result (λ read. read.items ≡ take kept seen.now)) }
    ensures err { OnErr answer (IfOk result (λ read. read.items ≡ seen.now)) }
    ensures cut_short { IfOk result (λ read. CutShort kept seen.now read.items) }
{
    match answer {
        Ok(()) => Ok(Vec::from_slice(alloc, front(seen, kept))?),
        Err(Failed) => Ok(Vec::from_slice(alloc, seen)?),
    }
}

// What is sure after a write of so many bytes, cut off at any point.
fn sure_after_write(
    alloc: Global,
    sure: &[Option<u8>],
    at: usize,
    count: usize,
) -> Result<Vec<Option<u8>>, OutOfMemory>
    requires { at ≤ length sure.now }
    ensures { IfOk result (λ next. next.items ≡ written at (unsure count) sure.now) }
{
    let unsure = vec![in alloc; None; count]?;
    overwritten(alloc, sure, at, &unsure)
}

// What is sure after a cut, cut off at any point.
fn sure_after_cut(
    alloc: Global,
    sure: &[Option<u8>],
    kept: usize,
) -> Result<Vec<Option<u8>>, OutOfMemory>
    ensures { IfOk result (λ next. next.items ≡ take kept sure.now ++ unsure (length sure.now - kept)) }
{
    let unsure = vec![in alloc; None; sure.len().saturating_sub(kept)]?;
    let mut next = Vec::from_slice(alloc, front(sure, kept))?;
    next.extend_from_slice(&unsure)?;
    Ok(next)
}

// The first `count` items, or all where there are fewer.
fn front<T>(items: &[T], count: usize) -> &[T]
    ensures { result.now ≡ take count items.now }
{
    &items[..count.min(items.len())]
}

// These items, with others over them from a place on.
fn overwritten<T: Copy>(
    alloc: Global,
    items: &[T],
    at: usize,
    others: &[T],
) -> Result<Vec<T>, OutOfMemory>
    requires { at ≤ length items.now }
    ensures { IfOk result (λ all. all.items ≡ written at others.now items.now) }
{
    let mut all = Vec::from_slice(alloc, &items[..at])?;
    all.extend_from_slice(others)?;
    if others.len() < items.len() - at {
        all.extend_from_slice(&items[at + others.len()..])?;
    }
    Ok(all)
}
