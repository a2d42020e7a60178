ghost use Rattle.std.specs.Prelude.{◌≡◌, ◌≤◌, length, true, false};
ghost use Rattle.std.specs.List.Sorted.{IsPartitionPoint, IsPartitionedBy};
ghost use Rattle.pol_blocks.specs.Blocks.{ends_in};

use crate::Front;

/// The number of the first block whose last item doesn't pass.
pub(crate) fn block_of<T, F: Front<T>>(parts: &[Vec<T>], front: &F) -> usize
    requires { IsPartitionedBy (λ block. ends_in (F.passes front.now) block.items) parts.now }
    ensures bound { result ≤ length parts.now }
    ensures split { IsPartitionPoint (λ block. ends_in (F.passes front.now) block.items ≡ true)
        (λ block. ends_in (F.passes front.now) block.items ≡ false) parts.now result }
{
    parts.partition_point(|block| ends_in(block, front))
}

/// How many items of a block pass.
pub(crate) fn offset_in<T, F: Front<T>>(block: &[T], front: &F) -> usize
    requires { IsPartitionedBy (F.passes front.now) block.now }
    ensures bound { result ≤ length block.now }
    ensures split { IsPartitionPoint (λ item. F.passes front.now item ≡ true)
        (λ item. F.passes front.now item ≡ false) block.now result }
{
    block.partition_point(|item| front.passes(item))
}

/// Whether the last item of a block passes.
fn ends_in<T, F: Front<T>>(block: &Vec<T>, front: &F) -> bool
    ensures { result ≡ ends_in (F.passes front.now) block.now.items }
{
    match block.last() {
        Some(item) => front.passes(item),
        None => true,
    }
}
