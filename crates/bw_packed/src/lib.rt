//! Byte strings, each with a small tag, packed in one list of bytes and one of ends: how a page keeps its entries.
//!
//! An entry takes its bytes, four more for where they end, and its tag. A list takes two blocks of memory, and a run of
//! entries is copied as one block of bytes.
#![tactic(auto)]

mod iter;
mod list;
mod pairs;
mod runs;
mod sorted_search;

pub use iter::Iter;
pub use list::Packed;
pub use pairs::Pairs;
pub use runs::Run;
pub use sorted_search::Keyed;

/// The most bytes of all entries of a list together: 2^32 - 1.
pub const BYTES_MAX: usize = u32::MAX as usize;
