// A whole trace, its counts and its status.
use super::ports::Maker;
use crate::tests::assertions::{assert_equal, assert_that};
use bw_batch::Options;
use bw_trace::{Cause, Job, Source, Summary, TraceFault, run_trace, status};
use std::process::Abort;
use std::thread::Threads;

impl<R: Abort + Threads + Sync> Maker<'_, R> {
    // Runs a trace with batches of two operations at the most.
    fn expect_run(&self, text: &str, output: &str, expected: Result<Summary, TraceFault>) {
        let options = Options::new(4, 64, 8, 64, 16, 2, 1_048_576).expect(self.rt, "options");
        let input = self.pieces(text, 5);
        let mut source = Source::new(self.alloc, input, 1000).expect(self.rt, "memory");
        let mut out = self.sink();
        let outcome = run_trace(
            self.rt,
            self.alloc,
            &mut source,
            &mut out,
            options,
            Job::Run,
        );
        assert_equal(self.rt, outcome, expected);
        self.expect_text(&out, output);
    }
}

fn counts(batches: u64, long: u64, memory: u64) -> Summary {
    Summary {
        batches,
        long,
        memory,
    }
}

#[test]
fn a_summary_counts_batches_and_refusals(rt: HostRuntime) {
    let make = Maker::new(&rt, rt.alloc());
    make.expect_run("", "", Ok(counts(0, 0, 0)));
    make.expect_run("go\ngo", "", Ok(counts(2, 0, 0)));
    make.expect_run(
        "get a\nupsert a 1\ngo\nget a",
        "none\nnew\nis 1\n",
        Ok(counts(2, 0, 0)),
    );
    make.expect_run(
        "upsert a 1\nupsert a 2\nupsert a 3\ngo\nget a\ngo\nget a\nget a\nget a\nget a\ngo\n",
        "refused long 3 2\nnone\nrefused long 4 2\n",
        Ok(counts(3, 2, 0)),
    );
}

#[test]
fn a_faulty_line_leaves_the_batches_before_it(rt: HostRuntime) {
    let make = Maker::new(&rt, rt.alloc());
    let fault = TraceFault::Line {
        number: 6,
        cause: Cause::Number,
    };
    make.expect_run(
        "upsert a 1\ngo\nget a\ngo\nget a\nupsert a -1\nget a\ngo\n",
        "new\nis 1\n",
        Err(fault),
    );
}

// Some refused growths are of the batch itself: it is refused, and counted.
#[test]
fn batches_without_memory_are_counted(rt: HostRuntime) {
    let make = Maker::new(&rt, rt.alloc());
    let mut refusals: u64 = 0;
    for growth in 1..1000u64 {
        let input = make.pieces("upsert a 1\nget a\ngo\nget a\n", 4096);
        let mut out = make.sink();
        let mut source = Source::new(make.alloc, input, 1000).expect(&rt, "memory");
        make.alloc.refuse(growth);
        let outcome = run_trace(
            &rt,
            make.alloc,
            &mut source,
            &mut out,
            Options::default(),
            Job::Run,
        );
        let left = make.alloc.left();
        make.alloc.refuse(0);
        match outcome {
            Ok(summary) => {
                assert_equal(&rt, summary.batches, 2);
                assert_equal(&rt, summary.long, 0);
                let text = match summary.memory {
                    0 => "new\nis 1\nis 1\n",
                    _ if out.taken.starts_with(b"refused".as_slice()) => "refused memory\nnone\n",
                    _ => "new\nis 1\nrefused memory\n",
                };
                make.expect_text(&out, text);
                assert_that(&rt, summary.memory <= 1);
                refusals = refusals.saturating_add(summary.memory);
            }
            Err(fault) => assert_equal(&rt, fault, TraceFault::Memory),
        }
        if left > 0 && left <= growth {
            assert_equal(&rt, outcome, Ok(counts(2, 0, 0)));
            assert_that(&rt, refusals > 0);
            return;
        }
    }
    panic!(rt; "no run met no refusal");
}

#[test]
fn each_outcome_has_its_status(rt: HostRuntime) {
    for (outcome, expected) in [
        (Ok(counts(0, 0, 0)), 0),
        (Ok(counts(9, 0, 0)), 0),
        (Ok(counts(9, 1, 0)), 4),
        (Ok(counts(9, 0, 1)), 4),
        (Ok(counts(9, 2, 3)), 4),
        (Ok(counts(u64::MAX, u64::MAX, u64::MAX)), 4),
        (Err(TraceFault::Read), 1),
        (Err(TraceFault::Write), 1),
        (Err(TraceFault::Memory), 1),
        (Err(TraceFault::Endless), 1),
        (
            Err(TraceFault::Line {
                number: 1,
                cause: Cause::Verb,
            }),
            3,
        ),
    ] {
        assert_equal(&rt, status(&outcome), expected);
    }
}
