//! What is read of a Bw-tree: searches from the root by separators and side links as in a B-link tree, values as of a stamp,
//! and what is told of one page, of a level, and of a staged batch.
//!
//! A `Look` is a tree that is lent to be read. What changes a tree is in the crate above.
#![tactic(auto)]

mod folded;
mod laws;
mod look;
mod routes;
mod staging;
mod words_before;

pub use folded::Folded;
pub use laws::no_delta_names_unreached;
pub use look::{Look, PageShape, Unnamed};
pub use routes::Routes;
pub use staging::{Stage, Staged};
pub use words_before::WordsBefore;

/// What is read of a leaf.
pub use bw_chain::LeafChain;
/// Out of memory.
pub use bw_key::Memory;
