//! What tests are made of: heaps; keys, values, pairs and leaves from bytes; operations and replies from texts; and pseudo-random
//! numbers.
//!
//! A library can't end a test. So what takes memory answers a `Result`, on which a test calls `expect`.
#![tactic(auto)]

mod heaps;
mod leaves;
mod numbers;
mod sample_pairs;
mod text_operations;

pub use heaps::{heap, was_refused};
pub use leaves::{from_c, from_e, leaf_of, three_leaves, up_to_c};
pub use numbers::Random;
pub use sample_pairs::{LONG, are, is_run_of, key, one, pair, pairs_of, two, value};
pub use text_operations::{
    TextOp, TextPair, TextReply, are_replies, end, have_texts, is_reply, op, ops, text_pairs,
};
