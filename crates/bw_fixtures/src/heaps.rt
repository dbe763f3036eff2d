// Heaps that refuse growths on demand.
ghost use Rattle.std.specs.Prelude.{◌≡◌, IfOk, None, true};
ghost use Rattle.bw_memory.specs.HeapLimits.{is_counted, limit_of};

use bw_key::Memory;
use bw_memory::{Alloc, Heap};
use std::alloc::Global;

/// A heap of its own, which counts its growths and is never freed. It takes one growth of `global`, and answers `Memory`
/// where that is refused.
pub fn heap(global: Global) -> Result<Alloc, Memory>
    ensures counted { IfOk result (λ heap. is_counted heap.now ≡ true) }
    ensures limit { IfOk result (λ heap. limit_of heap.now ≡ None) }
{
    Ok(Heap::counted(global).leak(global)?)
}

/// Whether the growth of this number was refused, of those since the heap was told to refuse it. From now on none is.
pub fn was_refused(alloc: Alloc, growth: u64) -> bool {
    let left = alloc.left();
    alloc.refuse(0);
    left == 0 || left > growth
}
