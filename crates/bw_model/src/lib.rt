//! The words that every crate of the index shares, and what they mean: values, the eight operations of a batch,
//! the replies to them, and an ordered map that one thread runs them on. Beside the definitions (in `specs/`) stands
//! a plain program that answers by them, `ReferenceMap`, which every faster index is compared with.
#![tactic(auto)]

mod lists;
mod operations;
mod outcomes;
mod ranges;
mod reference;
mod shown;
mod sorted;
mod values;
mod verbs;

pub use lists::{Replies, to_vec};
pub use operations::{Action, Op, Reply};
pub use outcomes::Refusal;
pub use ranges::is_below;
pub use reference::ReferenceMap;
pub use values::{VALUE_INLINE, VALUE_MAX, Value, ValueFault};
pub use verbs::Verb;

/// Out of memory.
pub use bw_key::Memory;
/// Lists of keys and their values, and runs of them.
pub use bw_packed::{Pairs, Run};
