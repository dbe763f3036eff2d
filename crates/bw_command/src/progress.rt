// How far a run has come through a file, shown on a terminal.
use crate::counting::Tally;
use bw_trace::{Failed, Inlet, Job, Outlet};
use std::alloc::Global;
use std::fmt::{self, Display, Formatter, Write};

/// A terminal to which messages go.
#[derive(Drop)]
pub struct Terminal<P: Outlet + Drop> {
    pub writer: P,
    /// Whether the program's output goes to a terminal, too.
    pub has_output: bool,
}

impl<P: Outlet + Drop> Terminal<P> {
    ghost use Rattle.std.specs.Prelude.{◌≡◌, ◌≢◌, None, Some, false, true};
    ghost use Rattle.bw_trace.specs.declared.jobs.Job.{Job};

    /// Where the progress of a job is shown: not among replies.
    pub fn writer_for(self, job: Job) -> Option<P>
        ensures replies { self.has_output ≡ true → job ≡ Job.Run → result ≡ None }
        ensures others { job ≢ Job.Run → result ≡ Some self.writer }
        ensures alone { self.has_output ≡ false → result ≡ Some self.writer }
    {
        let Terminal { writer, has_output } = self;
        if has_output && job == Job::Run {
            None
        } else {
            Some(writer)
        }
    }
}

// How many bytes are read until the line is written again: a short trace shows none.
const STEP: u64 = 1 << 20;

// Goes to the begin of the line, and clears it.
const CLEAR: &[u8] = b"\r\x1b[K";

/// A line on a terminal that tells how much of a trace was run. It is written over as the trace is read, and cleared at
/// the end, and where this is dropped.
pub struct Progress<P: Outlet + Drop> {
    global: Global,
    // None where nothing is shown
    writer: Option<P>,
    // the bytes of the trace, None where that isn't known
    size: Option<u64>,
    read: u64,
    // from how many bytes on the line is written again
    next: u64,
    tally: Tally,
    is_shown: bool,
}

impl<P: Outlet + Drop> Drop for Progress<P> {
    fn drop(mut self) {
        self.clear();
        let Progress {
            global: _global,
            writer: _writer,
            size: _size,
            read: _read,
            next: _next,
            tally: _tally,
            is_shown: _is_shown,
        } = self;
    }
}

impl<P: Outlet + Drop> Progress<P> {
    /// Shows nothing yet, and nothing at all where there is no writer. `size` is how many bytes the trace has.
    pub fn new(global: Global, writer: Option<P>, size: Option<u64>) -> Progress<P> {
        Progress {
            global,
            writer,
            size,
            read: 0,
            next: STEP,
            tally: Tally::new(),
            is_shown: false,
        }
    }

    // Counts what was read, where it is to be shown. There is nothing to show behind the end.
    fn take(&mut self, bytes: &[u8]) {
        if self.writer.is_none() {
            return;
        }
        if bytes.is_empty() {
            self.clear();
        }
        self.read = self.read.saturating_add(bytes.len() as u64);
        self.tally.take(bytes);
    }

    // Writes the line where it is due. A line that can't be written, or has no memory, is left out.
    fn show(&mut self) {
        if self.read < self.next {
            return;
        }
        self.next = self.read.saturating_add(STEP);
        let part = Part {
            hundredths: self.hundredths(),
            tally: self.tally,
        };
        if let Some(writer) = &mut self.writer
            && let Ok(line) = format!(in self.global; "\rbw_run: {part}")
        {
            self.is_shown = true;
            let _ = writer.put(line.as_str().as_bytes());
        }
    }

    // How much of the trace was read. It may have grown since its size was told.
    fn hundredths(&self) -> Option<u64> {
        let part = self.read.saturating_mul(100).checked_div(self.size?)?;
        Some(part.min(100))
    }

    fn clear(&mut self) {
        if let Some(writer) = &mut self.writer
            && self.is_shown
        {
            self.is_shown = false;
            let _ = writer.put(CLEAR);
        }
    }
}

// What was read of a trace: its `Display` is the line without the program's name. No line is shorter than one before it.
#[derive(Clone, Copy)]
struct Part {
    hundredths: Option<u64>,
    tally: Tally,
}

impl Display for Part {
    fn fmt<W: Write>(&self, f: &mut Formatter<W>) -> fmt::Result {
        let Part { hundredths, tally } = *self;
        if let Some(hundredths) = hundredths {
            write!(f, "{hundredths} %, ")?;
        }
        let (batches, operations) = (tally.batches, tally.operations);
        write!(f, "{batches} batches, {operations} operations")
    }
}

/// A reader of a trace that shows how far it has come, before each read: what was read till then was run, but for a batch
/// whose end wasn't read.
#[derive(Drop)]
pub struct Showing<R: Inlet, P: Outlet + Drop> {
    reader: R,
    progress: Progress<P>,
}

impl<R: Inlet, P: Outlet + Drop> Showing<R, P> {
    ghost use Rattle.std.specs.Prelude.{◌≡◌};

    /// Reads from `reader`.
    pub fn new(reader: R, progress: Progress<P>) -> Showing<R, P>
        ensures { result.reader ≡ reader }
    {
        Showing { reader, progress }
    }
}

impl<R: Inlet, P: Outlet + Drop> Inlet for Showing<R, P> {
    ghost remaining = { λ s. R.remaining s.reader };

    ghost calls = { λ s. R.calls s.reader };

    ghost failures = { λ s. R.failures s.reader };

    ghost has_ended = { λ s. R.has_ended s.reader };

    fn read(&mut self, buffer: &mut [u8]) -> Result<usize, Failed> {
        self.progress.show();
        match self.reader.read(buffer) {
            Ok(n) => {
                self.progress.take(&buffer[..n]);
                Ok(n)
            }
            Err(failed) => Err(failed),
        }
    }
}
