//! Where the memory of an index comes from: a heap, shared by any number of indexes and threads, that may have a
//! limit in bytes, and that a test can tell which growth to refuse.
//!
//! A growth is one allocation: a new block, or the larger block that a collection moves to when it is full. Each of
//! them is asked of the heap that the collection was made with, so it is the heap of an index that bounds what the
//! index takes. The heap does not see what other libraries take from `Global` by themselves, nor the stacks of
//! threads, nor what the system's own allocator adds to a block.
//!
//! That a block which is handed out is the caller's alone until it goes back, and goes back once, is proved. Which
//! growth is refused depends on counts that threads share, of which no contract can speak: the tests show that.
#![tactic(auto)]

ghost use Rattle.std.specs.Prelude.{◌≡◌, ◌<◌, ◌^◌, ℕ, None, Some, true, false, min, IfOk, IsTrue};
ghost use Rattle.bw_memory.specs.HeapLimits.{inner_of, limit_of, is_counted, gate_limit, gate_is_counted};

use std::alloc::{AllocError, Allocator, Global};
use std::mem::size_of;
use std::sync::atomic::{AtomicU64, Ordering};

/// Where an index, and all that belongs to it, takes its memory from. `Heap::leak` makes one.
pub type Alloc = &'static Heap<Global>;

/// The largest limit of a heap, in bytes: 256 TiB. A larger one counts as this one.
pub const LIMIT_MAX: u64 = 1 << 48;

/// An allocator over another one, which may have a limit in bytes or count its growths. Threads may share it.
#[derive(Drop)]
pub struct Heap<B: Allocator> {
    inner: B,
    gate: Gate,
}

// What a heap refuses of itself, and what it counts for that.
#[derive(Drop)]
enum Gate {
    // Nothing, and it counts nothing.
    Open,
    // The growth at which `left` comes down to 0.
    Growths { left: AtomicU64 },
    // A growth that takes the bytes in use past the limit, which is at most `LIMIT_MAX`.
    Bytes { limit: u64, used: AtomicU64 },
}

impl<B: Allocator> Heap<B> {
    /// A heap with no limit: it refuses only what `inner` refuses. It counts nothing, so threads that share it touch
    /// no common counter.
    pub fn new(inner: B) -> Heap<B>
        ensures inner { inner_of result ≡ inner }
        ensures limit { limit_of result ≡ None }
        ensures counted { is_counted result ≡ false }
    {
        Heap {
            inner,
            gate: Gate::Open,
        }
    }

    /// A heap whose blocks have at most so many bytes together at any time: it refuses the growth that would pass
    /// that, and takes one again once enough has gone back. The limit is in bytes, at most `LIMIT_MAX`.
    ///
    /// A block counts with the size that was asked for. A collection that grows holds its old block and its new one
    /// for a moment, and both count. Where threads allocate at the same time, a growth that is just being refused
    /// counts for that moment too, so that another which would fit may be refused.
    pub fn within(inner: B, bytes: u64) -> Heap<B>
        ensures inner { inner_of result ≡ inner }
        ensures limit { limit_of result ≡ Some (min bytes (2 ^ 48)) }
        ensures counted { is_counted result ≡ false }
    {
        Heap {
            inner,
            gate: Gate::Bytes {
                limit: bytes.min(LIMIT_MAX),
                used: AtomicU64::new(0),
            },
        }
    }

    /// A heap that counts its growths, for tests of what a program does when memory is refused. It refuses none
    /// before `refuse` is called.
    pub fn counted(inner: B) -> Heap<B>
        ensures inner { inner_of result ≡ inner }
        ensures limit { limit_of result ≡ None }
        ensures counted { is_counted result ≡ true }
    {
        Heap {
            inner,
            gate: Gate::Growths {
                left: AtomicU64::new(0),
            },
        }
    }

    /// Refuses the growth of this number from now on, and no other: 1 is the next one, and 0 refuses none. It counts
    /// anew from here. A heap that `counted` did not make stays as it is.
    pub fn refuse(&self, growth: u64) {
        if let Gate::Growths { left } = &self.gate {
            left.store(growth, Ordering::SeqCst);
        }
    }

    /// How many growths are left up to the one that is refused: 0 right after that one, and one less, wrapping below
    /// 0, with each that follows. So after `refuse(0)` its `wrapping_neg` is the number of growths since. 0 for a
    /// heap that `counted` did not make.
    pub fn left(&self) -> u64
        ensures { is_counted self.now ≡ false → result ≡ 0 }
    {
        match &self.gate {
            Gate::Growths { left } => left.load(Ordering::SeqCst),
            Gate::Open | Gate::Bytes { .. } => 0,
        }
    }

    /// How many bytes are in use, where there is a limit. 0 for a heap that `within` did not make. While other
    /// threads allocate, it may have the bytes of growths that are just being refused.
    pub fn used(&self) -> u64
        ensures { limit_of self.now ≡ None → result ≡ 0 }
    {
        match &self.gate {
            Gate::Bytes { used, .. } => used.load(Ordering::SeqCst),
            Gate::Open | Gate::Growths { .. } => 0,
        }
    }
}

impl Heap<Global> {
    /// The heap at an address for the rest of the program, as `Heap::within(alloc, 1 << 30).leak(alloc)?`. It is one
    /// small block that is never freed: make it once, and share it among indexes. An error says that there is no
    /// memory for that block, and then nothing is left behind.
    pub fn leak(self, alloc: Global) -> Result<Alloc, AllocError>
        ensures { IfOk result (λ heap. heap.now ≡ self) }
    {
        Ok(Box::leak(Box::new(alloc, self)?))
    }
}

impl Gate {
    // Counts a growth, unless the gate refuses it.
    fn admit(&self, size: usize) -> bool
        ensures open { gate_limit self.now ≡ None → gate_is_counted self.now ≡ false → IsTrue result }
        ensures past { (limit : ℕ) → gate_limit self.now ≡ Some limit → limit < size → result ≡ false }
    {
        match self {
            Gate::Open => true,
            Gate::Growths { left } => left.fetch_sub(1, Ordering::SeqCst) != 1,
            Gate::Bytes { limit, used } => admit_bytes(*limit, used, size as u64),
        }
    }

    // Counts a block down that has gone back, or a growth that the inner allocator refused.
    fn release(&self, size: usize) {
        if let Gate::Bytes { used, .. } = self {
            used.fetch_sub(size as u64, Ordering::SeqCst);
        }
    }
}

// Counts first and asks afterwards, so that of two threads that ask for the last bytes at most one gets them.
//
// The count does not wrap in doing so, which would let a growth through. What is in use is at most the limit, and so
// is each size that is counted here and taken back, since a larger one is refused before. The limit is at most 2^48,
// so 65,535 threads would have to be between these two lines at the same time.
fn admit_bytes(limit: u64, used: &AtomicU64, size: u64) -> bool
    ensures { limit < size → result ≡ false }
{
    if size > limit {
        return false;
    }
    if used.fetch_add(size, Ordering::SeqCst) <= limit - size {
        return true;
    }
    used.fetch_sub(size, Ordering::SeqCst);
    false
}

unsafe impl<B: Allocator> Allocator for Heap<B> {
    ghost dealloc_token = { λ heap ty ptr. B.dealloc_token (inner_of heap) ty ptr };

    fn allocate(&self, size: usize, align: usize) -> Result<*mut u8, AllocError> {
        if !self.gate.admit(size) {
            return Err(AllocError);
        }
        match self.inner.allocate(size, align) {
            Ok(block) => Ok(block),
            Err(error) => {
                self.gate.release(size);
                Err(error)
            }
        }
    }

    // The block goes back before its bytes are counted down, so that the count is never below what is in use.
    unsafe fn deallocate(&self, ptr: *mut u8, size: usize, align: usize) {
        self.inner.deallocate(ptr, size, align);
        self.gate.release(size);
    }

    // The old block and the new one both count until the inner allocator is done, as where it holds both.
    unsafe fn grow<T>(
        &self,
        ptr: *mut T,
        len: usize,
        old_cap: usize,
        new_cap: usize,
    ) -> Result<*mut T, AllocError> {
        let new_size = new_cap * size_of::<T>();
        if !self.gate.admit(new_size) {
            return Err(AllocError);
        }
        match self.inner.grow(ptr, len, old_cap, new_cap) {
            Ok(block) => {
                self.gate.release(old_cap * size_of::<T>());
                Ok(block)
            }
            Err(error) => {
                self.gate.release(new_size);
                Err(error)
            }
        }
    }

    // It counts as a growth does, since the inner allocator may need a new block for it.
    unsafe fn shrink<T>(
        &self,
        ptr: *mut T,
        len: usize,
        old_cap: usize,
        new_cap: usize,
    ) -> Result<*mut T, AllocError> {
        let new_size = new_cap * size_of::<T>();
        if !self.gate.admit(new_size) {
            return Err(AllocError);
        }
        match self.inner.shrink(ptr, len, old_cap, new_cap) {
            Ok(block) => {
                self.gate.release(old_cap * size_of::<T>());
                Ok(block)
            }
            Err(error) => {
                self.gate.release(new_size);
                Err(error)
            }
        }
    }
}
