// Values of an ordered index.
ghost use Rattle.std.specs.Prelude.{◌≡◌, ◌<◌, ◌≤◌, length, IsOk, IfOk, IsOkUnless};
ghost use Rattle.bw_model.specs.Values.{value_eq, value_eq_laws, value_eq_equiv};

use bw_key::{Memory, Spelled};
use bw_memory::Alloc;
use smallvec::SmallVec;
use std::alloc::AllocError;
use std::fmt;
use std::marker::Model;
use thiserror::Error;

/// Why there is no value.
#[derive(Clone, Copy, Debug, PartialEq, Eq, Error)]
pub enum ValueFault {
    /// There are more bytes than a value holds: this many.
    #[error("value longer than 1024 bytes")]
    TooLong(usize),
    #[error("out of memory")]
    Memory,
}

/// The most bytes that a value has.
pub const VALUE_MAX: usize = 1024;

/// How many bytes a value keeps without an allocation.
pub const VALUE_INLINE: usize = 24;

/// A value: 0 to 1,024 bytes. Contracts see it as the list of its bytes.
///
/// It takes 48 bytes, in which up to 24 bytes of the value lie, so that the decimal text of a 64-bit word and a
/// 16-byte identifier need no allocation. A longer value takes one.
#[derive(Debug)]
pub struct Value {
    bytes: SmallVec<u8, VALUE_INLINE, Alloc>,
}

// Not derived, as that of a key isn't: whoever drops a value calls this, and its proof is spared the value's parts.
impl Drop for Value {
    fn drop(self) {
        let Value { bytes: _bytes } = self;
    }
}

impl Model for Value {
    ghost use Rattle.std.specs.Prelude.{List, ℕ, length, ◌≤◌};
    ghost use Rattle.std.specs.Coded.{coded_list, coded_ℕ};

    ghost Value = { List ℕ };

    ghost coded = { coded_list coded_ℕ };

    ghost view = { λ v. v.bytes.items };

    ghost invariant = { λ v. length v.bytes.items ≤ 1024 };
}

impl Value {
    /// The value of these bytes.
    ///
    /// `TooLong` is answered for more than 1,024 bytes, before memory is asked for; else `Memory`, for more than
    /// 24 bytes alone, where the allocation is refused.
    pub fn new(alloc: Alloc, bytes: &[u8]) -> Result<Value, ValueFault>
        ensures ok { IfOk result (λ value. value ≡ bytes.now) }
        ensures long { 1024 < length bytes.now → result ≡ Err (ValueFault.TooLong (length bytes.now)) }
        ensures fits { length bytes.now ≤ 1024 → IsOkUnless result ValueFault.Memory }
        ensures short { length bytes.now ≤ 24 → IsOk result }
    {
        if bytes.len() > VALUE_MAX {
            return Err(ValueFault::TooLong(bytes.len()));
        }
        match SmallVec::from_slice(alloc, bytes) {
            Ok(bytes) => Ok(Value { bytes }),
            Err(_) => Err(ValueFault::Memory),
        }
    }

    /// The value of bytes that a value had before, as those in a page are. It takes memory as `new` does; `Memory` is
    /// answered for more than 1,024 bytes too, which no value has.
    pub fn from_bytes(alloc: Alloc, bytes: &[u8]) -> Result<Value, Memory>
        ensures ok { IfOk result (λ value. value ≡ bytes.now) }
        ensures short { length bytes.now ≤ 24 → IsOk result }
    {
        match Value::new(alloc, bytes) {
            Ok(value) => Ok(value),
            Err(_) => Err(Memory),
        }
    }

    /// An equal value, from the allocator of this one. Up to 24 bytes take no memory, and more take one growth; `Memory`
    /// is answered where that is refused.
    pub fn copy(&self) -> Result<Value, Memory>
        ensures ok { IfOk result (λ value. value ≡ self.now) }
        ensures short { length self.now ≤ 24 → IsOk result }
    {
        self.copy_in(*self.bytes.allocator())
    }

    /// An equal value, with `alloc` for the memory of it and of its copies. It takes memory as `copy` does.
    pub fn copy_in(&self, alloc: Alloc) -> Result<Value, Memory>
        ensures ok { IfOk result (λ value. value ≡ self.now) }
        ensures short { length self.now ≤ 24 → IsOk result }
    {
        match SmallVec::from_slice(alloc, self.bytes.as_slice()) {
            Ok(bytes) => Ok(Value { bytes }),
            Err(_) => Err(Memory),
        }
    }

    /// The bytes.
    pub fn bytes(&self) -> &[u8]
        ensures value { result.now ≡ self.now }
        ensures limit { length self.now ≤ 1024 }
    {
        self.bytes.as_slice()
    }
}

/// The copy comes from the allocator of the value, as that of `copy`, and takes the same memory.
impl Clone for Value {
    ghost is_clone = { λ value copy. copy ≡ value };

    ghost is_infallible = { λ value. length value ≤ 24 };

    fn clone(&self) -> Result<Value, AllocError> {
        match self.copy() {
            Ok(value) => Ok(value),
            Err(_) => Err(AllocError),
        }
    }
}

/// As traces spell it, and as a key is shown.
impl fmt::Display for Value {
    fn fmt<W: fmt::Write>(&self, f: &mut fmt::Formatter<W>) -> fmt::Result {
        fmt::Display::fmt(&Spelled(self.bytes()), f)
    }
}

impl PartialEq for Value {
    ghost eq = { value_eq };

    ghost laws = { value_eq_laws };

    fn eq(&self, other: &Value) -> bool {
        self.bytes() == other.bytes()
    }
}

impl Eq for Value {
    ghost laws = { value_eq_equiv };
}
