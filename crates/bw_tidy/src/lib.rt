//! Tidying by many workers. They look at the pages that are due side by side, and consolidate leaves that are over a limit; then
//! one thread puts these in the places of their chains, and splits and merges pages, as `bw_shape` does. Leaves that a batch
//! reads for its replies can be looked at then already (`Findings`).
#![tactic(auto)]

mod findings;
mod leaf_findings;
mod leaf_workers;

pub use leaf_findings::Findings;
pub use leaf_workers::{put_findings, tidy_by};

/// The pages that are due, the limits that they are kept to, and what tidying did.
pub use bw_shape::{Due, Limits, Tidy};
/// The tree.
pub use bw_tree::Tree;
