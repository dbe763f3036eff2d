// A reader and a writer in memory.
ghost use Rattle.std.specs.Prelude.{◌-◌, ◌^◌, None, true};

use crate::tests::assertions::assert_equal;
use bw_memory::{Alloc, Heap};
use bw_trace::{Failed, Inlet, Outlet};
use std::alloc::Global;
use std::process::Abort;

/// A text that is read in pieces of so many bytes.
#[derive(Drop)]
pub struct Pieces {
    pub text: Vec<u8>,
    pub piece: usize,
    // the call that fails, counted from 1
    pub fails_at: u64,
    at: usize,
    calls: u64,
}

impl Inlet for Pieces {
    ghost remaining = { λ _. None };

    ghost calls = { λ _. 2 ^ 64 - 1 };

    ghost failures = { λ _. 2 ^ 64 - 1 };

    ghost has_ended = { λ _. true };

    fn read(&mut self, buffer: &mut [u8]) -> Result<usize, Failed> {
        let room = buffer.len();
        self.calls = self.calls.saturating_add(1);
        if self.calls == self.fails_at {
            return Err(Failed);
        }
        let mut n: usize = 0;
        for slot in buffer.iter_mut().take(self.piece) {
            let Some(b) = self.text.get(self.at) else {
                break;
            };
            *slot = *b;
            self.at = self.at.saturating_add(1);
            n = n.saturating_add(1);
        }
        Ok(n.min(room))
    }
}

/// Takes texts, but for the one at a call.
#[derive(Drop)]
pub struct Sink {
    pub taken: Vec<u8>,
    // the call that fails, counted from 1
    pub fails_at: u64,
    pub calls: u64,
}

impl Outlet for Sink {
    ghost contents = { λ _. None };

    ghost failures = { λ _. 2 ^ 64 - 1 };

    fn put(&mut self, bytes: &[u8]) -> Result<(), Failed> {
        self.calls = self.calls.saturating_add(1);
        if self.calls == self.fails_at {
            return Err(Failed);
        }
        match self.taken.extend_from_slice(bytes) {
            Ok(()) => Ok(()),
            Err(_) => Err(Failed),
        }
    }
}

/// Makes them, and ends the test where there is no memory.
#[derive(Drop)]
pub struct Maker<'a, R: Abort> {
    pub rt: &'a R,
    pub global: Global,
    // what the calls under test allocate from
    pub alloc: Alloc,
}

impl<'a, R: Abort> Maker<'a, R> {
    pub fn new(rt: &'a R, global: Global) -> Maker<'a, R> {
        let alloc = Heap::counted(global).leak(global).expect(rt, "memory");
        Maker { rt, global, alloc }
    }

    pub fn pieces(&self, text: &str, piece: usize) -> Pieces {
        self.pieces_failing_at(text, piece, 0)
    }

    pub fn pieces_failing_at(&self, text: &str, piece: usize, call: u64) -> Pieces {
        Pieces {
            text: text
                .as_bytes()
                .to_vec(self.global)
                .expect(self.rt, "memory"),
            piece,
            fails_at: call,
            at: 0,
            calls: 0,
        }
    }

    pub fn sink(&self) -> Sink {
        self.sink_failing_at(0)
    }

    pub fn sink_failing_at(&self, call: u64) -> Sink {
        Sink {
            taken: Vec::new(self.global),
            fails_at: call,
            calls: 0,
        }
    }

    pub fn expect_text(&self, sink: &Sink, text: &str) {
        assert_equal(self.rt, sink.taken.as_slice(), text.as_bytes());
    }
}
