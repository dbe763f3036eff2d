// Each growth of memory refused in turn.
use super::ports::{BOTH_TEXTS, FIRST_TEXT, Runner, Sink, TWO_BATCHES};
use crate::tests::assertions::{assert_equal, assert_that};
use std::process::Abort;
use std::rt::Files;
use std::thread::Threads;
use std::time::Clock;

// Where a batch was refused. The second batch finds nothing where the first was.
const FIRST_REFUSED: &str = "refused memory\nnone\n";

const SECOND_REFUSED: &str = "new\nis 1\nwas 1\nnone\nrefused memory\n";

// How a run ended in which a growth may have been refused.
#[derive(Clone, Copy)]
struct Ended {
    status: u8,
    // whether the growth was not come to
    is_spared: bool,
}

// Runs the program over a text where this growth is refused.
fn run_refused<R: Abort + Files + AllocGlobal + Threads + Clock + Sync>(
    runner: &Runner<'_, R>,
    text: &str,
    growth: u64,
    out: &mut Sink,
    errors: &mut Sink,
) -> Ended {
    let input = runner.pieces(text);
    runner.alloc.refuse(growth);
    let status = runner.status(&["run", "-"], input, out, errors);
    let left = runner.alloc.left();
    runner.alloc.refuse(0);
    Ended {
        status,
        is_spared: left > 0 && left <= growth,
    }
}

// Compares what a run has written with what its status says.
fn see<R: Abort + Files + AllocGlobal + Threads + Clock + Sync>(
    runner: &Runner<'_, R>,
    status: u8,
    out: &Sink,
    errors: &Sink,
) {
    let text = out.taken.as_slice();
    match status {
        0 => {
            runner.expect_text(out, BOTH_TEXTS);
            runner.expect_message(errors, "");
        }
        4 => {
            let of_first = text == FIRST_REFUSED.as_bytes();
            let of_second = text == SECOND_REFUSED.as_bytes();
            assert_that(runner.rt, of_first || of_second);
            runner.expect_message(errors, "");
        }
        _ => {
            assert_equal(runner.rt, status, 1);
            let is_front = text.is_empty() || text == FIRST_TEXT.as_bytes();
            assert_that(runner.rt, is_front);
            runner.expect_message(errors, "out of memory");
        }
    }
}

// The same of a run over two batches where this growth is refused.
fn see_refused<R: Abort + Files + AllocGlobal + Threads + Clock + Sync>(
    runner: &Runner<'_, R>,
    growth: u64,
) -> Ended {
    let (mut out, mut errors) = (runner.sink(), runner.sink());
    let ended = run_refused(runner, TWO_BATCHES, growth, &mut out, &mut errors);
    see(runner, ended.status, &out, &errors);
    ended
}

// A buffer that cannot be doubled may still take what it needs, so not each refused growth is noticed.
#[test]
fn each_growth_is_refused_in_turn(rt: HostRuntime) {
    let runner = Runner::new(&rt, rt.alloc());
    let mut faults: u64 = 0;
    let mut refusals: u64 = 0;
    for growth in 1..1000u64 {
        let ended = see_refused(&runner, growth);
        if ended.is_spared {
            assert_equal(&rt, ended.status, 0);
            assert_that(&rt, faults > 0 && refusals > 0);
            return;
        }
        faults = faults.saturating_add(u64::from(ended.status == 1));
        refusals = refusals.saturating_add(u64::from(ended.status == 4));
    }
    panic!(rt; "no run met no refusal");
}

// The same of a run over a line that is at fault: its message may be refused. Whether that was met, and how the run ended.
fn see_message<R: Abort + Files + AllocGlobal + Threads + Clock + Sync>(
    runner: &Runner<'_, R>,
    growth: u64,
) -> (bool, Ended) {
    let (mut out, mut errors) = (runner.sink(), runner.sink());
    let ended = run_refused(runner, "bogus", growth, &mut out, &mut errors);
    runner.expect_text(&out, "");
    if errors.taken.as_slice() == b"bw_run: line 1: unknown word\n".as_slice() {
        assert_equal(runner.rt, ended.status, 3);
        return (false, ended);
    }
    assert_that(runner.rt, !ended.is_spared);
    runner.expect_message(&errors, "out of memory");
    assert_that(runner.rt, ended.status == 1 || ended.status == 3);
    (ended.status == 3, ended)
}

#[test]
fn a_message_without_memory_is_of_memory(rt: HostRuntime) {
    let runner = Runner::new(&rt, rt.alloc());
    let mut messages: u64 = 0;
    for growth in 1..1000u64 {
        let (is_refused, ended) = see_message(&runner, growth);
        if ended.is_spared {
            assert_that(&rt, messages > 0);
            return;
        }
        messages = messages.saturating_add(u64::from(is_refused));
    }
    panic!(rt; "no run met no refusal");
}
