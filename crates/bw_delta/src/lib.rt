//! Delta chains of a Bw-tree: stamped writes, the arena of records that chains are made of, and what the writes of a
//! chain mean as of a stamp.
//!
//! Operation i of a batch has the stamp `base + i`. Its writes are put in chains in whatever order the exchanges
//! succeed; reading as of a stamp gives the same value for each order.
#![tactic(auto)]

mod arena;
mod consolidation;
mod deltas;
mod laws;
mod merging;
mod present;
mod range_reads;
mod reading;
mod replay;
mod sorted_writes;
mod writes;

pub use arena::Arena;
pub use consolidation::leaf_as_of;
pub use deltas::Delta;
pub use laws::{batch_is_read_in_turn, contents_are_history};
pub use reading::{Reading, in_order, value_as_of};
pub use replay::Replay;
pub use sorted_writes::writes_by_key;
pub use writes::Write;

/// The operations of a batch, the replies to them, and what a write does.
pub use bw_model::{Action, Op, Reply};

/// Out of memory.
pub use bw_key::Memory;
