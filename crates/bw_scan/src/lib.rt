//! Scans of a Bw-tree, each as of a stamp: one after another with the leaves that were read kept beside them (`Scans`), or
//! leaf by leaf, so that many scans read a leaf in turn (`ScanCursor`).
#![tactic(auto)]

mod cursors;
mod scans;

pub use cursors::{LeafCursor, ScanCursor};
pub use scans::Scans;

/// Out of memory.
pub use bw_key::Memory;
/// The tree that is read.
pub use bw_look::Look;
