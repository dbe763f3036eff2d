//! One page of a Bw-tree, and the levels of pages: what a change makes of a base page, where a search goes on from a page,
//! where its range ends, what it is cut into and joined to, and the laws by which pages form levels.
//!
//! A page here is its base page with at most one change over it, and writes. Chains of changes, and the words that name
//! them, are those of the crate above.
#![tactic(auto)]

mod changed_inners;
mod ends;
mod joined_pages;
mod laws;
mod leaf_bounds;
mod page_children;
mod page_counts;
mod page_cuts;
mod page_neighbours;
mod target;
mod turns;

pub use changed_inners::inner_over;
pub use ends::{lower_end, reaches};
pub use joined_pages::{drop_child, join};
pub use laws::{
    child_is_kept, contents_are_kept, dropped_child_is_kept, freed_page_is_kept, home_is_one,
    home_is_there, levels_are_alike, levels_are_found, levels_are_grown, levels_are_kept,
    levels_are_lowered, merges_are_kept, parts_are_kept, way_is_one,
};
pub use leaf_bounds::{end_over, leaf_end_over, leaf_end_plain};
pub use page_children::{child_in_place, child_over};
pub use page_counts::{count_over, count_plain};
pub use page_cuts::{cut, narrow};
pub use page_neighbours::{neighbour_over, neighbour_plain};
pub use target::Target;
pub use turns::{Turn, turn_over, turn_plain};

/// Out of memory.
pub use bw_key::Memory;
