// A program at the other end that sends a batch, waits for its replies, and sends the next.
ghost use Rattle.std.specs.Prelude.{◌-◌, ◌^◌, None, true};

use super::ports::{Runner, TURNS, no_terminal};
use crate::tests::assertions::assert_equal;
use bw_command::run_words;
use bw_trace::{Failed, Inlet, Outlet};
use std::sync::atomic::{AtomicU64, Ordering};

// What is sent at each call, and how many bytes were replied before it.
const PARTS: [(&str, u64); 4] = [
    ("upsert a 1\ngo\n", 0),
    ("get a\nget b\ngo\nget", 4),
    (" a\ngo\n", 14),
    ("", 19),
];

// Fails where the replies before a part weren't taken.
#[derive(Drop)]
struct Asker {
    replied: &'static AtomicU64,
    calls: usize,
}

impl Inlet for Asker {
    ghost remaining = { λ _. None };

    ghost calls = { λ _. 2 ^ 64 - 1 };

    ghost failures = { λ _. 2 ^ 64 - 1 };

    ghost has_ended = { λ _. true };

    fn read(&mut self, buffer: &mut [u8]) -> Result<usize, Failed> {
        let room = buffer.len();
        let Some((part, before)) = PARTS.get(self.calls) else {
            return Err(Failed);
        };
        if self.replied.load(Ordering::SeqCst) != *before {
            return Err(Failed);
        }
        self.calls = self.calls.saturating_add(1);
        let mut n: usize = 0;
        for (slot, b) in buffer.iter_mut().zip(part.as_bytes()) {
            *slot = *b;
            n = n.saturating_add(1);
        }
        Ok(n.min(room))
    }
}

#[derive(Drop)]
struct Replied {
    replied: &'static AtomicU64,
}

impl Outlet for Replied {
    ghost contents = { λ _. None };

    ghost failures = { λ _. 2 ^ 64 - 1 };

    fn put(&mut self, bytes: &[u8]) -> Result<(), Failed> {
        self.replied.fetch_add(bytes.len() as u64, Ordering::SeqCst);
        Ok(())
    }
}

#[test]
fn replies_are_taken_before_the_next_batch_is_read(rt: HostRuntime) {
    let runner = Runner::new(&rt, rt.alloc());
    let replied: &'static AtomicU64 = Box::leak(Box::new(rt.alloc(), AtomicU64::new(0)).expect(
        &rt, "memory",
    ));
    let input = Asker { replied, calls: 0 };
    let mut out = Replied { replied };
    let mut errors = runner.sink();
    let status = run_words(
        &rt,
        runner.alloc,
        &["run", "-"],
        input,
        &mut out,
        &mut errors,
        no_terminal(),
        TURNS,
    );
    runner.expect_message(&errors, "");
    assert_equal(&rt, status, 0);
}
