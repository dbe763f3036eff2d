//! The operations of a batch grouped by key, and by the page of their keys.
//!
//! Whoever posts the writes of a batch, or answers its operations, goes through the pages of a tree. Grouped by key the
//! operations of one page follow one another, so that each page is searched for once.
#![tactic(auto)]

mod found_runs;
mod grouping;
mod homes;
mod points;
mod ranks;

pub use grouping::{Grouping, group_end};
pub use homes::{Homes, find_homes};
pub use points::Point;

/// Out of memory.
pub use bw_key::Memory;
