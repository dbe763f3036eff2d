//! Chains of a Bw-tree: base pages with chains of delta records over them, the present state that a chain makes of a
//! page, and where a search goes on from it. Identifiers of pages and the mapping table are those of the tree above.
//!
//! A mapping word below 2^32 names a base page, and one from there on a delta record.
#![tactic(auto)]

mod additions;
mod bases;
mod chains;
mod counts;
mod entry_records;
mod index_entries;
mod inners;
mod laws;
mod leaf_chain;
mod leaf_ends;
mod leaf_reads;
mod levels;
mod merge_records;
mod neighbours;
mod prefetches;
mod record_parts;
mod records;
mod splits;
mod turn;

pub use chains::{Chains, FLOOR};
pub use laws::page_is_kept;
pub use leaf_chain::LeafChain;

/// Out of memory.
pub use bw_key::Memory;
