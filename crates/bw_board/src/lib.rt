//! The mapping table of a Bw-tree while a batch of records is posted: atomic words, and no lock.
//!
//! Threads post their records to the chains of pages by compare-and-exchange on the pages' head words, as in the Bw-tree's
//! mapping table (ICDE 2013; OpenBw-Tree: SIGMOD 2018). Each thread has a `Seat`, which a `Board` gives out, splits and joins. The
//! atomic steps of all seats are events of `bw_core`'s world, in whatever order they come (`laws` says so of each kind), and that
//! world is lawful between any two steps: each posted record stands once in its page's chain, and nothing else does. No call waits
//! for another thread.
#![tactic(auto)]

mod atomic_steps;
mod board;
mod last_words;
pub mod laws;
mod page_chains;
mod plays;
mod table;

pub use board::{Board, Posted, Replaced, Seat};
pub use last_words::Closed;
