//! The tree of an ordered index in the form of a Bw-tree (ICDE 2013; SIGMOD 2018): a mapping table from page
//! identifiers to chains of delta records over base pages, searched from the root by separators and side links as a
//! B-link tree.
//!
//! A mapping word below 2^32 names a base page of the tree, and one from there on a delta record.
#![tactic(auto)]

mod freed;
mod leaf_swaps;
mod making;
mod mapping_words;
mod tree;

pub use tree::Tree;

/// Out of memory.
pub use bw_key::Memory;
/// What is read of a tree, and by what.
pub use bw_look::{Folded, LeafChain, Look, PageShape, Routes, Staged, Unnamed};
/// The names of pages, and the leaves that a tree is made of.
pub use bw_page::{Leaf, PageId, RemovedPage};
/// Scans of a tree.
pub use bw_scan::{LeafCursor, ScanCursor, Scans};
