//! Posting to the mapping table of a Bw-tree, played step by step without threads.
//!
//! A `World` plays the events of `bw_core` in any order, and stays lawful whatever the order is: what the laws of that crate
//! say of lists, a program does here. Tests play worked and random orders with it; threads post by `bw_board`.
#![tactic(auto)]

mod book;
mod copies;
mod state;
mod transitions;
mod world;

pub use book::Book;
pub use world::World;
