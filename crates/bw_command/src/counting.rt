// How many batches and operations a trace has, counted while it is read.
use bw_trace::{Failed, Inlet};
use std::alloc::Global;
use std::cell::Cell;
use std::rc::Rc;

/// A count that a reader and those who ask for it share.
pub type Operations = Rc<Cell<u64>, Global>;

/// A count of no operations, twice: for a reader, and for who asks for it. None where memory runs out.
pub fn no_operations(global: Global) -> Option<(Operations, Operations)> {
    let operations = Rc::new(global, Cell::new(0)).ok()?;
    let shared = operations.clone().ok()?;
    Some((operations, shared))
}

/// What the bytes of a line that were read so far tell of it.
///
/// In a trace without a fault the first word of each operation has three letters or more, that of the end of a batch is
/// `go`, and `bw` alone begins with a `b`.
#[derive(Clone, Copy, Debug, PartialEq, Eq)]
pub enum Front {
    /// There is no word yet.
    Blank,
    /// The first word has one letter so far.
    OneLetter,
    /// The first word has two letters so far.
    TwoLetters,
    /// The last byte has shown that the line is an operation.
    Operation,
    /// What else the line has tells nothing.
    Rest,
}

impl Front {
    // What a further byte tells.
    fn behind(self, byte: u8) -> Front {
        match (self, byte) {
            (_, b'\n') => Front::Blank,
            (Front::Blank, b' ' | b'\r') => Front::Blank,
            (Front::Blank, b'#' | b'b') => Front::Rest,
            (Front::Blank, _) => Front::OneLetter,
            (Front::OneLetter, _) => Front::TwoLetters,
            (Front::TwoLetters, b' ' | b'\r') => Front::Rest,
            (Front::TwoLetters, _) => Front::Operation,
            (Front::Operation | Front::Rest, _) => Front::Rest,
        }
    }
}

/// How many batches and operations the lines of a trace have that were read so far.
#[derive(Clone, Copy, Debug, PartialEq, Eq)]
pub struct Tally {
    front: Front,
    /// The lines `go`.
    pub batches: u64,
    pub operations: u64,
}

impl Tally {
    /// That of a trace of which nothing was read.
    pub fn new() -> Tally {
        Tally {
            front: Front::Blank,
            batches: 0,
            operations: 0,
        }
    }

    /// Counts what shows in further bytes.
    pub fn take(&mut self, bytes: &[u8]) {
        for byte in bytes {
            let front = self.front.behind(*byte);
            if front == Front::Operation {
                self.operations = self.operations.saturating_add(1);
            } else if self.front == Front::TwoLetters {
                self.batches = self.batches.saturating_add(1);
            }
            self.front = front;
        }
    }
}

/// A reader of a trace that counts its operations. Where the trace was read to its end and no line was faulty, all were
/// counted and nothing else was.
#[derive(Drop)]
pub struct Counting<R: Inlet> {
    pub reader: R,
    pub tally: Tally,
    pub operations: Operations,
}

impl<R: Inlet> Inlet for Counting<R> {
    ghost remaining = { λ s. R.remaining s.reader };

    ghost calls = { λ s. R.calls s.reader };

    ghost failures = { λ s. R.failures s.reader };

    ghost has_ended = { λ s. R.has_ended s.reader };

    fn read(&mut self, buffer: &mut [u8]) -> Result<usize, Failed> {
        match self.reader.read(buffer) {
            Ok(n) => {
                self.tally.take(&buffer[..n]);
                self.operations.set(self.tally.operations);
                Ok(n)
            }
            Err(failed) => Err(failed),
        }
    }
}
