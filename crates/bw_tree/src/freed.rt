// Identifiers that were given back.
ghost use Rattle.std.specs.Prelude.{◌≡◌, ◌<◌, ◌≤◌, ◌^◌, length, slice_get, IfOk, IfSome, OnOk};
ghost use Rattle.std.specs.BinaryHeap.{heap_capacity, heap_len};
ghost use Rattle.bw_level.specs.Changes.{based};
ghost use Rattle.bw_level.specs.Slots.{Free};

use bw_chain::{Chains, FLOOR};
use bw_key::Memory;
use bw_memory::Alloc;
use bw_page::PageId;
use std::cmp::Reverse;
use std::collections::BinaryHeap;

/// Identifiers that were given back, the least one first. Each is looked at again before a page takes it: it may have been
/// taken already.
#[derive(Drop)]
pub(crate) struct Freed {
    heap: BinaryHeap<Reverse<u32>, Alloc>,
}

impl Freed {
    /// None yet. It takes no memory.
    pub(crate) fn new(alloc: Alloc) -> Freed {
        Freed {
            heap: BinaryHeap::new(alloc),
        }
    }

    /// Makes room for one more.
    pub(crate) fn reserve(&mut self) -> Result<(), Memory>
        ensures { OnOk result (heap_len self.new.heap < heap_capacity self.new.heap) }
    {
        self.heap.reserve(1)?;
        Ok(())
    }

    /// One more, for which there is room.
    pub(crate) fn add(&mut self, page: PageId)
        requires { heap_len self.old.heap < heap_capacity self.old.heap }
    {
        self.heap.push(Reverse(page.0)).unwrap();
    }

    /// A page has taken this one, which was the answer of the last search for one.
    pub(crate) fn taken(&mut self, page: PageId) {
        if self.least() == Some(page) {
            self.heap.pop();
        }
    }

    /// Forgets the identifiers from this one on, where most of them are, and gives their room back. There are so many that it
    /// costs no more than it took to add them.
    pub(crate) fn forget_from(&mut self, count: usize) {
        if self.heap.len() / 2 > count {
            self.heap.retain(|Reverse(page)| (*page as usize) < count);
            self.heap.shrink_to_fit();
        }
    }

    // The least one.
    fn least(&self) -> Option<PageId> {
        let Reverse(least) = self.heap.peek()?;
        Some(PageId(*least))
    }

    /// An identifier for a new page: the least one here whose base page is vacant, or else the one behind all others. `Memory`
    /// is answered where there are 2^32 pages and none is vacant.
    pub(crate) fn unused(&mut self, chains: &Chains) -> Result<PageId, Memory>
        ensures place { IfOk result (λ page. page ≤ length chains.now.bases) }
        ensures vacant { IfOk result (λ page. based (slice_get chains.now.bases page) ≡ Free) }
        ensures few { IfOk result (λ page. page < 2 ^ 32) }
    {
        if let Some(page) = self.vacant(chains) {
            return Ok(page);
        }
        let count = chains.base_count() as u64;
        if count >= FLOOR {
            return Err(Memory);
        }
        Ok(PageId(count as u32))
    }

    // The least one whose base page is vacant. Those before it are let go.
    fn vacant(&mut self, chains: &Chains) -> Option<PageId>
        ensures place { IfSome result (λ page. page < length chains.now.bases) }
        ensures vacant { IfSome result (λ page. based (slice_get chains.now.bases page) ≡ Free) }
    {
        while let Some(Reverse(least)) = self.heap.peek() {
            let page = PageId(*least);
            if (page.0 as usize) < chains.base_count() && chains.is_vacant(page) {
                return Some(page);
            }
            self.heap.pop();
        }
        None
    }
}
