//! The replies to a batch, read from a tree in which its writes stand.
//!
//! Operation i of a batch has the stamp `base + i`, and is answered by reading the tree as of its stamp. So the replies
//! don't depend on the order in which the writes were put in the chains, nor on how the batch is cut into parts that
//! are answered side by side.
#![tactic(auto)]

mod answers;
mod batch_reader;
mod batch_replies;
mod parts;
mod sections;
mod shared_leaves;
mod write_groups;

pub use batch_replies::{replies, replies_in_parts};
pub use parts::count_parts;

/// Out of memory.
pub use bw_key::Memory;
/// What is found of leaves meanwhile, and the limits that they are kept to.
pub use bw_tidy::{Findings, Limits};
