//! Posting a staged batch: each of its records is put before the chain of its key's page, by exchanges on the words of
//! a board, which workers make side by side.
#![tactic(auto)]

mod batch_posting;
mod folding;
mod gates;
mod workers;

pub use batch_posting::{Posting, post_all, post_beside};
pub use gates::{Gate, OpenGate};

/// The tree whose batch is posted, and the words that posting leaves for it to adopt.
pub use bw_board::Closed;
pub use bw_tree::{Folded, Tree};
