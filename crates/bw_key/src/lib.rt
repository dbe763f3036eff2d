//! Keys of an ordered index: byte strings of 0 to 64 bytes in lexicographic order, of which the short ones lie in the
//! key itself and take no memory. And `Memory`, which is how every crate of the workspace says that there is none.
#![tactic(auto)]

ghost use Rattle.std.specs.Prelude.{◌≡◌, ◌<◌, ◌≤◌, length, IsOk, IfOk, IsOkUnless};
ghost use Rattle.bw_key.specs.Order.{key_cmp, key_eq, key_cmp_total, key_eq_laws, key_eq_equiv, key_cmp_laws, key_cmp_agrees, key_ties};
ghost use Rattle.bw_key.specs.Prefixes.{key_prefix};
ghost use Rattle.std.specs.Ordering.{as_partial_cmp};

use bw_memory::Alloc;
use smallvec::SmallVec;
use std::alloc::{AllocError, AllocFailed};
use std::cmp::Ordering;
use std::fmt;
use std::marker::Model;
use thiserror::Error;

mod prefixes;
mod spelled_bytes;

pub use prefixes::{compare_bytes, compare_prefixed, prefix_of};
pub use spelled_bytes::Spelled;

/// Out of memory, the same in every crate of the workspace: the allocator refused a growth, since the system has no
/// more or the heap has reached its limit. Each call says what stands after it.
#[derive(Clone, Copy, Debug, PartialEq, Eq, Error)]
#[error("out of memory")]
pub struct Memory;

impl From<AllocError> for Memory {
    fn from(_error: AllocError) -> Memory {
        Memory
    }
}

impl<T: Drop> From<AllocFailed<T>> for Memory {
    fn from(_error: AllocFailed<T>) -> Memory {
        Memory
    }
}

/// Why there is no key. The first that applies is answered.
#[derive(Clone, Copy, Debug, PartialEq, Eq, Error)]
pub enum KeyFault {
    /// The bytes are more than `KEY_MAX`: this many.
    #[error("key of {0} bytes is longer than {most} bytes", most = KEY_MAX)]
    TooLong(usize),
    /// They are more than `KEY_INLINE`, and there is no memory for them.
    #[error("out of memory")]
    Memory,
}

/// The most bytes of a key.
pub const KEY_MAX: usize = 64;

/// The most bytes that lie in the key itself. A longer key has them in one block of its own, of as many bytes as it has.
pub const KEY_INLINE: usize = 24;

/// A key: 0 to 64 bytes, in 48 bytes and, where they are more than 24, a block of memory.
///
/// Keys are ordered byte by byte as unsigned numbers: the first bytes that differ decide, and a key which is the
/// beginning of another one is before it. So the empty key is before all others. Two keys are equal where they have the
/// same bytes. Keys that differ in their first eight bytes are told apart by one comparison of numbers. Contracts see a
/// key as the list of its bytes.
#[derive(Debug)]
pub struct Key {
    bytes: SmallVec<u8, KEY_INLINE, Alloc>,
}

// Not derived: whoever drops a key calls this, so that the proof of a function which owns keys has a call for each of
// them in place of the parts that a small vector is made of.
impl Drop for Key {
    fn drop(self) {
        let Key { bytes: _bytes } = self;
    }
}

impl Model for Key {
    ghost use Rattle.std.specs.Coded.{coded_list, coded_ℕ};
    ghost use Rattle.std.specs.Prelude.{List, ℕ, length, ◌≤◌};

    ghost Value = { List ℕ };

    ghost coded = { coded_list coded_ℕ };

    ghost view = { λ k. k.bytes.items };

    ghost invariant = { λ k. length k.bytes.items ≤ 64 };
}

impl Key {
    /// The key of these bytes, with `alloc` for the memory of it and of its copies.
    ///
    /// More than 64 bytes answer `TooLong` with their number, whatever memory there is. 0 to 24 bytes take no memory
    /// and are always a key. 25 to 64 bytes take one growth, and answer `Memory` where that is refused.
    pub fn new(alloc: Alloc, bytes: &[u8]) -> Result<Key, KeyFault>
        ensures ok { IfOk result (λ key. key ≡ bytes.now) }
        ensures long { 64 < length bytes.now → result ≡ Err (KeyFault.TooLong (length bytes.now)) }
        ensures fits { length bytes.now ≤ 64 → IsOkUnless result KeyFault.Memory }
        ensures short { length bytes.now ≤ 24 → IsOk result }
    {
        if bytes.len() > KEY_MAX {
            return Err(KeyFault::TooLong(bytes.len()));
        }
        let bytes = SmallVec::from_slice(alloc, bytes).map_err(|_| KeyFault::Memory)?;
        Ok(Key { bytes })
    }

    /// The key of bytes that a key had before, as those in a page are. It takes memory as `new` does; `Memory` is
    /// answered for more than 64 bytes too, which no key has.
    pub fn from_bytes(alloc: Alloc, bytes: &[u8]) -> Result<Key, Memory>
        ensures ok { IfOk result (λ key. key ≡ bytes.now) }
        ensures short { length bytes.now ≤ 24 → IsOk result }
    {
        match Key::new(alloc, bytes) {
            Ok(key) => Ok(key),
            Err(_) => Err(Memory),
        }
    }

    /// An equal key, from the allocator of this one. 0 to 24 bytes take no memory and always have a copy. 25 to 64
    /// bytes take one growth, and answer `Memory` where that is refused.
    pub fn copy(&self) -> Result<Key, Memory>
        ensures ok { IfOk result (λ key. key ≡ self.now) }
        ensures short { length self.now ≤ 24 → IsOk result }
    {
        self.copy_in(*self.bytes.allocator())
    }

    /// An equal key, with `alloc` for the memory of it and of its copies. It takes memory as `copy` does.
    pub fn copy_in(&self, alloc: Alloc) -> Result<Key, Memory>
        ensures ok { IfOk result (λ key. key ≡ self.now) }
        ensures short { length self.now ≤ 24 → IsOk result }
    {
        let bytes = SmallVec::from_slice(alloc, self.bytes())?;
        Ok(Key { bytes })
    }

    /// The bytes, at most 64.
    pub fn bytes(&self) -> &[u8]
        ensures value { result.now ≡ self.now }
        ensures limit { length self.now ≤ 64 }
    {
        self.bytes.as_slice()
    }

    /// The first eight bytes as one number, as `prefix_of` makes it of them.
    pub fn prefix(&self) -> u64
        ensures { result ≡ key_prefix self.now }
    {
        prefix_of(self.bytes())
    }
}

/// The copy comes from the allocator of the key, as that of `copy`, and takes the same memory.
impl Clone for Key {
    ghost is_clone = { λ key copy. copy ≡ key };

    ghost is_infallible = { λ key. length key ≤ 24 };

    fn clone(&self) -> Result<Key, AllocError> {
        match self.copy() {
            Ok(key) => Ok(key),
            Err(_) => Err(AllocError),
        }
    }
}

/// As traces spell it: `apple`, or `%00ff` where a byte is no letter, digit, `_`, `.` or `-`.
impl fmt::Display for Key {
    fn fmt<W: fmt::Write>(&self, f: &mut fmt::Formatter<W>) -> fmt::Result {
        fmt::Display::fmt(&Spelled(self.bytes()), f)
    }
}

impl PartialEq for Key {
    ghost eq = { key_eq };

    ghost laws = { key_eq_laws };

    fn eq(&self, other: &Key) -> bool {
        self.cmp(other).is_eq()
    }
}

impl Eq for Key {
    ghost laws = { key_eq_equiv };
}

impl PartialOrd for Key {
    ghost partial_cmp = { as_partial_cmp key_cmp };

    ghost laws = { key_cmp_laws };

    fn partial_cmp(&self, other: &Key) -> Option<Ordering> {
        Some(self.cmp(other))
    }
}

impl Ord for Key {
    ghost cmp = { key_cmp };

    ghost total = { key_cmp_total };

    ghost matches_partial_cmp = { key_cmp_agrees };

    ghost matches_eq = { key_ties };

    fn cmp(&self, other: &Key) -> Ordering {
        compare_prefixed(self.bytes(), self.prefix(), other.bytes(), other.prefix())
    }
}
