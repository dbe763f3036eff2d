//! Base pages of an ordered index in the form of a Bw-tree: the pairs of a range of keys, or the separators of its
//! children, with the bounds of the range and a side link to the right neighbour, as in a B-link tree. A page is cut
//! and narrowed, and loses a child, in its place; for any other change a new one is made.
#![tactic(auto)]

mod bounds;
mod children;
mod inner;
mod leaf;
mod leaf_pairs;
mod pages;

pub use children::Children;
pub use inner::Inner;
pub use leaf::Leaf;
pub use leaf_pairs::{place, place_near};
pub use pages::{Page, PageId, RemovedPage};

/// The values of an index.
pub use bw_model::Value;

/// Out of memory.
pub use bw_key::Memory;
