// A reader and a writer in memory, and a run of the program over them.
ghost use Rattle.std.specs.Prelude.{◌-◌, ◌^◌, ◌<◌, None, true};

use crate::tests::assertions::assert_equal;
use bw_command::{Terminal, run_words};
use bw_memory::{Alloc, Heap};
use bw_trace::{Failed, Inlet, Outlet};
use std::alloc::Global;
use std::process::Abort;
use std::rt::Files;
use std::thread::Threads;
use std::time::Clock;

// How often the input may be read, where a test doesn't say.
pub const TURNS: u64 = 1_000_000;

// The first batch upserts and gets `a`, upserts it again and gets `b`. The second gets `a`.
pub const TWO_BATCHES: &str = "upsert a 1\nget a\nupsert a 2\nget b\ngo\nget a";

pub const FIRST_TEXT: &str = "new\nis 1\nwas 1\nnone\n";

pub const BOTH_TEXTS: &str = "new\nis 1\nwas 1\nnone\nis 2\n";

/// A text that is read in pieces. Behind it the input ends, or gives newlines without end.
#[derive(Drop)]
pub struct Pieces {
    pub text: Vec<u8>,
    // how many bytes a read gives at the most
    pub piece: usize,
    // the call that fails, counted from 1
    pub fails_at: u64,
    pub is_endless: bool,
    at: usize,
    calls: u64,
}

impl Pieces {
    /// Reads this text at once.
    pub fn of(text: Vec<u8>) -> Pieces {
        Pieces {
            text,
            piece: 4096,
            fails_at: 0,
            is_endless: false,
            at: 0,
            calls: 0,
        }
    }
}

impl Inlet for Pieces {
    ghost remaining = { λ _. None };

    ghost calls = { λ _. 2 ^ 64 - 1 };

    ghost failures = { λ _. 2 ^ 64 - 1 };

    ghost has_ended = { λ _. true };

    fn read(&mut self, buffer: &mut [u8]) -> Result<usize, Failed> {
        let room = buffer.len();
        self.calls = self.calls.saturating_add(1);
        if self.calls == self.fails_at {
            return Err(Failed);
        }
        let mut n: usize = 0;
        for slot in buffer.iter_mut().take(self.piece) {
            let Some(b) = self.text.get(self.at) else {
                break;
            };
            *slot = *b;
            self.at = self.at.saturating_add(1);
            n = n.saturating_add(1);
        }
        if n == 0 && self.is_endless {
            if let Some(slot) = buffer.first_mut() {
                *slot = b'\n';
                return Ok(1);
            }
        }
        Ok(n.min(room))
    }
}

/// Takes texts, but for the one at a call.
#[derive(Drop)]
pub struct Sink {
    pub taken: Vec<u8>,
    // the call that fails, counted from 1
    pub fails_at: u64,
    calls: u64,
}

impl Sink {
    /// The call of this number fails, none where it is 0.
    pub fn failing_at(global: Global, call: u64) -> Sink {
        Sink {
            taken: Vec::new(global),
            fails_at: call,
            calls: 0,
        }
    }
}

impl Outlet for Sink {
    ghost contents = { λ _. None };

    ghost failures = { λ _. 2 ^ 64 - 1 };

    fn put(&mut self, bytes: &[u8]) -> Result<(), Failed> {
        self.calls = self.calls.saturating_add(1);
        if self.calls == self.fails_at {
            return Err(Failed);
        }
        match self.taken.extend_from_slice(bytes) {
            Ok(()) => Ok(()),
            Err(_) => Err(Failed),
        }
    }
}

/// No terminal on which progress could be shown.
pub fn no_terminal() -> Option<Terminal<Sink>> {
    None
}

/// Runs the program, and ends the test where it does something else than is expected.
#[derive(Drop)]
pub struct Runner<'a, R: Abort + Files + AllocGlobal + Threads + Clock + Sync> {
    pub rt: &'a R,
    global: Global,
    // what the program allocates from
    pub alloc: Alloc,
}

impl<'a, R: Abort + Files + AllocGlobal + Threads + Clock + Sync> Runner<'a, R> {
    pub fn new(rt: &'a R, global: Global) -> Runner<'a, R> {
        let alloc = Heap::counted(global).leak(global).expect(rt, "memory");
        Runner { rt, global, alloc }
    }

    /// What tests allocate from.
    pub fn global(&self) -> Global {
        self.global
    }

    /// The parts as one text.
    pub fn joined(&self, parts: &[&str]) -> String {
        let mut text = String::new(self.global);
        for part in parts {
            text.push_str(part).expect(self.rt, "memory");
        }
        text
    }

    /// A part so many times, and a rest behind it.
    pub fn repeated(&self, part: &str, count: u64, rest: &str) -> String {
        let mut text = String::new(self.global);
        for _ in 0..count {
            text.push_str(part).expect(self.rt, "memory");
        }
        text.push_str(rest).expect(self.rt, "memory");
        text
    }

    pub fn pieces(&self, text: &str) -> Pieces {
        Pieces::of(
            text.as_bytes()
                .to_vec(self.global)
                .expect(self.rt, "memory"),
        )
    }

    pub fn sink(&self) -> Sink {
        Sink::failing_at(self.global, 0)
    }

    pub fn sink_failing_at(&self, call: u64) -> Sink {
        Sink::failing_at(self.global, call)
    }

    /// The status with which the program ends that has no terminal.
    pub fn status(&self, words: &[&str], input: Pieces, out: &mut Sink, errors: &mut Sink) -> u8 {
        run_words(
            self.rt,
            self.alloc,
            words,
            input,
            out,
            errors,
            no_terminal(),
            TURNS,
        )
    }

    /// `run -` over an input that is read so often at the most.
    pub fn expect_of(&self, input: Pieces, turns: u64, output: &str, message: &str, status: u8)
        requires { turns < 2 ^ 52 }
    {
        let mut out = self.sink();
        let mut errors = self.sink();
        let words = ["run", "-"];
        let found = run_words(
            self.rt,
            self.alloc,
            &words,
            input,
            &mut out,
            &mut errors,
            no_terminal(),
            turns,
        );
        self.expect_text(&out, output);
        self.expect_message(&errors, message);
        assert_equal(self.rt, found, status);
    }

    pub fn expect_text(&self, sink: &Sink, text: &str) {
        assert_equal(self.rt, sink.taken.as_slice(), text.as_bytes());
    }

    /// One line, or nothing where there is no message.
    pub fn expect_message(&self, errors: &Sink, message: &str) {
        if message.is_empty() {
            return self.expect_text(errors, "");
        }
        let line = self.joined(&["bw_run: ", message, "\n"]);
        self.expect_text(errors, line.as_str());
    }
}
