ghost use Rattle.std.specs.Prelude.{◌≡◌, ◌-◌, ◌<◌, ◌≤◌, [], ◌++◌, drop, insert, remove, length, take, slice_get, slice_set, IfErr, IfOk, OnErr, OnOk, Some, vec_capacity, vec_len};
ghost use Rattle.pol_blocks.specs.Blocks.{IsBlock, IsReplaced, block_at, contents};

use crate::Place;
use pol_types::OutOfMemory;
use std::alloc::{AllocFailed, Global};
use std::mem;

/// How many items a full block has.
pub(crate) const FULL: usize = 32;

/// Puts an item where there is room for one more. It takes no memory.
fn put<T: Drop>(block: &mut Vec<T>, offset: usize, item: T)
    requires within { offset ≤ vec_len block.old }
    requires room { vec_len block.old < vec_capacity block.old }
    ensures items { block.new.items ≡ insert block.old.items offset item }
    ensures capacity { vec_capacity block.old ≤ vec_capacity block.new }
{
    let Ok(()) = block.insert(offset, item) else {
        unreachable!()
    };
}

/// Moves the items from a place on to an empty block. It takes no memory.
fn move_behind<T: Drop>(block: &mut Vec<T>, at: usize, more: &mut Vec<T>)
    requires within { at ≤ vec_len block.old }
    requires empty { more.old.items ≡ [] }
    requires room { vec_len block.old - at ≤ vec_capacity more.old }
    ensures front { block.new.items ≡ take at block.old.items }
    ensures behind { more.new.items ≡ drop at block.old.items }
    ensures block_room { vec_capacity block.new ≡ vec_capacity block.old }
    ensures more_room { vec_capacity more.old ≤ vec_capacity more.new }
{
    while block.len() > at {
        let Some(last) = block.pop() else {
            unreachable!()
        };
        put(more, 0, last);
    }
}

/// Splits a full block in halves and puts an item into one of them, or into the new block alone where it goes behind
/// all. It takes no memory.
fn split<T: Drop>(block: &mut Vec<T>, offset: usize, item: T, mut more: Vec<T>) -> Vec<T>
    requires full { vec_len block.old ≡ 32 }
    requires within { offset ≤ 32 }
    requires empty { more.items ≡ [] }
    requires room { 32 ≤ vec_capacity more }
    ensures items { block.new.items ++ result.items ≡ insert block.old.items offset item }
    ensures front { IsBlock block.new.items }
    ensures behind { IsBlock result.items }
{
    if offset == FULL {
        put(&mut more, 0, item);
        return more;
    }
    let half = FULL / 2;
    move_behind(block, half, &mut more);
    if offset > half {
        put(&mut more, offset - half, item);
    } else {
        put(block, offset, item);
    }
    more
}

/// Puts an item into a block that isn't full. Where memory is wanting, the item comes back.
pub(crate) fn put_in<T: Drop>(
    parts: &mut Vec<Vec<T>>,
    spot: Place,
    item: T,
) -> Result<(), AllocFailed<T>>
    requires block { spot.block < length parts.old.items }
    requires within { spot.offset ≤ length (block_at (contents parts.old.items) spot.block) }
    requires room { length (block_at (contents parts.old.items) spot.block) < 32 }
    ensures put { OnOk result (IsReplaced (contents parts.old.items) (contents parts.new.items) spot.block
        (insert (block_at (contents parts.old.items) spot.block) spot.offset item)) }
    ensures error { OnErr result (contents parts.new.items ≡ contents parts.old.items) }
    ensures back { IfErr result (λ failed. failed.value ≡ item) }
{
    parts[spot.block].insert(spot.offset, item)
}

/// Puts an item into the first block, where there is none, or splits the full one. It takes no memory.
pub(crate) fn put_and_split<T: Drop>(
    parts: &mut Vec<Vec<T>>,
    spot: Place,
    item: T,
    mut more: Vec<T>,
)
    requires block { spot.block ≤ length parts.old.items }
    requires full { spot.block < length parts.old.items → length (block_at (contents parts.old.items) spot.block) ≡ 32 }
    requires first { spot.block ≡ length parts.old.items → spot.offset ≡ 0 }
    requires within { spot.offset ≤ 32 }
    requires place { length parts.old.items < vec_capacity parts.old }
    requires empty { more.items ≡ [] }
    requires room { 32 ≤ vec_capacity more }
    ensures { IsReplaced (contents parts.old.items) (contents parts.new.items) spot.block
        (insert (block_at (contents parts.old.items) spot.block) spot.offset item) }
{
    if spot.block == parts.len() {
        put(&mut more, 0, item);
        put(parts, spot.block, more);
        return;
    }
    let behind = split(&mut parts[spot.block], spot.offset, item, more);
    put(parts, spot.block + 1, behind);
}

/// Takes an item away, and its block where it has no other. It takes no memory.
pub(crate) fn take<T: Drop>(parts: &mut Vec<Vec<T>>, place: Place) -> T
    requires block { place.block < length parts.old.items }
    requires inside { place.offset < length (block_at (contents parts.old.items) place.block) }
    requires few { length (block_at (contents parts.old.items) place.block) ≤ 32 }
    ensures taken { Some result ≡ slice_get (block_at (contents parts.old.items) place.block) place.offset }
    ensures without { IsReplaced (contents parts.old.items) (contents parts.new.items) place.block
        (remove (block_at (contents parts.old.items) place.block) place.offset) }
{
    let block = &mut parts[place.block];
    let item = block.remove(place.offset);
    if block.is_empty() {
        parts.remove(place.block);
    }
    item
}

/// Puts an item in place of another, and gives that one. It takes no memory.
pub(crate) fn exchange<T: Drop>(parts: &mut Vec<Vec<T>>, place: Place, item: T) -> T
    requires block { place.block < length parts.old.items }
    requires inside { place.offset < length (block_at (contents parts.old.items) place.block) }
    ensures taken { Some result ≡ slice_get (block_at (contents parts.old.items) place.block) place.offset }
    ensures put { contents parts.new.items ≡ slice_set (contents parts.old.items) place.block
        (slice_set (block_at (contents parts.old.items) place.block) place.offset item) }
{
    let block = &mut parts[place.block];
    mem::replace(&mut block[place.offset], item)
}

/// A new block without items, and a place for it in the list.
pub(crate) fn new_block<T: Drop>(
    parts: &mut Vec<Vec<T>>,
    alloc: Global,
) -> Result<Vec<T>, OutOfMemory>
    ensures kept { parts.new.items ≡ parts.old.items }
    ensures place { OnOk result (length parts.new.items < vec_capacity parts.new) }
    ensures empty { IfOk result (λ block. block.items ≡ []) }
    ensures room { IfOk result (λ block. 32 ≤ vec_capacity block) }
{
    parts.reserve(1)?;
    Ok(Vec::with_capacity(alloc, FULL)?)
}
