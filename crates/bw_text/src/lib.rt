//! Traces as text: operations are read from lines, and replies are written as lines.
#![tactic(auto)]

mod faults;
pub mod laws;
mod line_words;
mod parse;
mod places;
mod ports;
mod sources;
mod spelling;
mod std_ports;
mod texts;

pub use faults::{Cause, TraceFault};
pub use ports::{Failed, Inlet, Outlet};
pub use sources::{Source, TURNS_MAX, read_batch};
pub use spelling::{is_spelled_plain, push_high, push_spelled};
pub use std_ports::{FromRead, FromWrite};
pub use texts::{contents_text, print_refusal, print_replies, push_number, put_text};

/// Keys, and out of memory.
pub use bw_key::{Key, Memory};
/// The memory that texts and operations are made on.
pub use bw_memory::Alloc;
/// What traces tell of, and what they print.
pub use bw_model::{Op, Pairs, Refusal, Reply};
