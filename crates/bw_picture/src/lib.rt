//! Pictures of a tree: its pages in rows, one row for each level, as an SVG text. So a person sees what batches, splits
//! and consolidation did to the levels, the ranges, the fill and the chains.
//!
//! The text is proved to be `picture_text` (`specs/Pictures.antt`), with each number in it.
#![tactic(auto)]

mod drawing;
mod drawn_pages;
mod keys;
mod layout;

pub use bw_key::{Key, Memory};
pub use bw_page::PageId;
pub use bw_tree::PageShape;
pub use drawing::picture;
