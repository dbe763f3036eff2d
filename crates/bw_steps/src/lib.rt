//! Restructuring of a Bw-tree, step by step (ICDE 2013): a chain is consolidated, a page split or merged, a root grows or
//! goes, an identifier is given back. A step that answers `Did` asks first whether it is needed, and changes nothing where it
//! isn't; each leaves what the tree holds.
#![tactic(auto)]

mod merge_steps;
mod release_runs;
mod releasing;
mod right_neighbours;
mod steps;

pub use merge_steps::{absorb, are_under_one, drop_root, finish_absorb};
pub use release_runs::{release_all, release_run};
pub use releasing::release;
pub use right_neighbours::name_rights;
pub use steps::{
    Did, consolidate, finish_split, fold_beside, grow_root, lose_chain, may_part, split,
};

/// Out of memory.
pub use bw_key::Memory;
/// The memory that lists of pages are made on.
pub use bw_memory::Alloc;
/// The names of pages.
pub use bw_page::PageId;
/// The tree.
pub use bw_tree::Tree;
