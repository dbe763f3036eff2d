//! Lists that grow and move little of what they have: how an index keeps its records and its base pages.
//!
//! A list that doubles when it is full copies all of itself then, and the one caller who adds that entry waits for it.
//! Here the entries lie in segments of a fixed length, and what is moved as the list grows are the names of the segments, a
//! thousandth of it, and the entries of one segment at the most.
#![tactic(auto)]

mod segmented;

pub use segmented::{SEGMENT, SEGMENTS_MAX, Segmented};

/// Out of memory.
pub use bw_key::Memory;
