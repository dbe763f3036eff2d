//! Restructuring of a Bw-tree (ICDE 2013). Tidying takes the steps of `bw_steps` that keep the pages that it looks at within
//! limits. A sweep goes over all pages, so that records and stamps can start over.
#![tactic(auto, using(crate::proofs::TidyLemmas::holds_on))]

mod absorbing;
mod due;
mod finishing;
mod halving;
mod limits;
mod outcome;
mod page_lists;
mod siblings;
mod sweeps;
mod tidying;
mod visits;
mod whole_tree;

pub use due::Due;
pub use limits::Limits;
pub use outcome::Tidy;
pub use sweeps::{sweep, sweep_due};
pub use tidying::tidy_due;
pub use visits::is_over;
pub use whole_tree::{all_pages, given_pages, tidy};

/// Out of memory.
pub use bw_key::Memory;
/// The memory that lists of pages are made on.
pub use bw_memory::Alloc;
/// The names of pages.
pub use bw_page::PageId;
/// The steps.
pub use bw_steps::{
    Did, absorb, consolidate, drop_root, finish_absorb, finish_split, fold_beside, grow_root,
    release, split,
};
/// The tree.
pub use bw_tree::Tree;
