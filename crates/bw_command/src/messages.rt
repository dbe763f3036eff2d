// The program's own messages, each one line.
ghost use Rattle.std.specs.Prelude.{◌≡◌, ◌≢◌};

use bw_memory::Alloc;
use bw_trace::{Outlet, Summary};
use std::fmt::{self, Display, Formatter, Write};
use std::io::ErrorKind;
use std::num::nearest_u64_to_f64;
use std::time::Duration;

const NO_MEMORY: &str = "bw_run: out of memory\n";

// The shortest time by which operations are divided: a clock may not have moved.
const MOMENT: f64 = 1e-9;

/// What is told of a trace that was read to its end: its `Display` is the line without the program's name.
#[derive(Clone, Copy)]
pub struct Stats {
    pub summary: Summary,
    pub operations: u64,
    /// None where the clock could not be read.
    pub time: Option<Duration>,
}

impl Display for Stats {
    fn fmt<W: Write>(&self, f: &mut Formatter<W>) -> fmt::Result {
        let Stats {
            summary,
            operations,
            time,
        } = *self;
        let refused = summary.long.saturating_add(summary.memory);
        let batches = summary.batches;
        write!(
            f,
            "{batches} batches, {operations} operations, {refused} refused"
        )?;
        let Some(time) = time else {
            return Ok(());
        };
        let seconds = time.as_secs_f64();
        let rate = nearest_u64_to_f64(operations) / seconds.max(MOMENT);
        write!(f, ", {seconds:.3} s, {rate:.0} operations/s")
    }
}

/// Writes a line: the message of a fault, or what `--stats` tells.
pub fn report<E: Outlet>(alloc: Alloc, errors: &mut E, message: impl Display + Drop) {
    let written = match format!(in alloc; "bw_run: {message}\n") {
        Ok(line) => errors.put(line.as_str().as_bytes()),
        Err(_) => errors.put(NO_MEMORY.as_bytes()),
    };
    let _ = written;
}

/// Says why the words of a command line could not be read, and answers the status for that: 1 where there is no memory,
/// and 2 where one of them is not UTF-8.
pub fn no_words<E: Outlet>(kind: ErrorKind, errors: &mut E) -> u8
    ensures memory { kind ≡ ErrorKind.OutOfMemory → result ≡ 1 }
    ensures text { kind ≢ ErrorKind.OutOfMemory → result ≡ 2 }
{
    if kind == ErrorKind::OutOfMemory {
        return no_memory(errors);
    }
    let _ = errors.put(b"bw_run: a word of the command line is not UTF-8\n");
    2
}

/// Says that there is no memory, and answers the status for that.
pub fn no_memory<E: Outlet>(errors: &mut E) -> u8
    ensures { result ≡ 1 }
{
    let _ = errors.put(NO_MEMORY.as_bytes());
    1
}
