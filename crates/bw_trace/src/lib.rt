//! Traces of an ordered index, run: operations in as lines, replies out as lines.
#![tactic(auto)]

mod endings;
mod jobs;
pub mod laws;
mod shapes;
mod summaries;

pub use jobs::{Job, run_trace, status};
pub use summaries::Summary;

/// Traces as text.
pub use bw_text::{
    Cause, Failed, FromRead, FromWrite, Inlet, Outlet, Source, TURNS_MAX, TraceFault,
    print_replies, read_batch,
};
