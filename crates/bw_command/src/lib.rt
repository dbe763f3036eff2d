//! The command line of the program that runs traces on an ordered index: its words, its messages and its exit statuses.
#![tactic(auto)]

mod command;
mod counting;
mod messages;
mod progress;
mod request;

pub use command::run_words;
pub use messages::{Stats, no_memory, no_words};
pub use progress::{Progress, Showing, Terminal};
pub use request::{Limits, Request, arguments, request_in};
