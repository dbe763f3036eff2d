// Readers and writers that fail, and a reader that doesn't end.
use super::ports::{BOTH_TEXTS, FIRST_TEXT, Runner, TURNS, TWO_BATCHES};
use crate::tests::assertions::assert_equal;

// How many bytes stand before the second batch, its last newline among them.
const FIRST_BATCH: u64 = 37;

#[test]
fn cut_reads_give_the_same(rt: HostRuntime) {
    let runner = Runner::new(&rt, rt.alloc());
    for piece in [1, 2, 3, 7] {
        let mut input = runner.pieces(TWO_BATCHES);
        input.piece = piece;
        runner.expect_of(input, TURNS, BOTH_TEXTS, "", 0);
    }
}

#[test]
fn a_failed_read_leaves_the_batches_before_it(rt: HostRuntime) {
    let runner = Runner::new(&rt, rt.alloc());
    let bytes = TWO_BATCHES.len() as u64;
    assert_equal(&rt, bytes, 42);
    // A byte at a call. The call behind the last byte tells the end.
    for call in 1..bytes + 2 {
        let mut input = runner.pieces(TWO_BATCHES);
        input.piece = 1;
        input.fails_at = call;
        let written = if call <= FIRST_BATCH { "" } else { FIRST_TEXT };
        runner.expect_of(input, TURNS, written, "cannot read", 1);
    }
    let mut input = runner.pieces(TWO_BATCHES);
    input.piece = 1;
    input.fails_at = bytes + 2;
    runner.expect_of(input, TURNS, BOTH_TEXTS, "", 0);
}

#[test]
fn a_faulty_line_comes_before_a_later_failed_read(rt: HostRuntime) {
    let runner = Runner::new(&rt, rt.alloc());
    let mut input = runner.pieces("get a\ngo\nget\nget a\n");
    input.piece = 1;
    input.fails_at = 14;
    runner.expect_of(input, TURNS, "none\n", "line 3: wrong number of words", 3);
    let mut input = runner.pieces("get a\ngo\nget\nget a\n");
    input.piece = 1;
    input.fails_at = 13;
    runner.expect_of(input, TURNS, "none\n", "cannot read", 1);
}

#[test]
fn a_failed_write_ends_the_run(rt: HostRuntime) {
    let runner = Runner::new(&rt, rt.alloc());
    for (call, written) in [(1, ""), (2, FIRST_TEXT)] {
        let mut out = runner.sink_failing_at(call);
        let mut errors = runner.sink();
        let input = runner.pieces(TWO_BATCHES);
        let status = runner.status(&["run", "-"], input, &mut out, &mut errors);
        assert_equal(&rt, status, 1);
        runner.expect_text(&out, written);
        runner.expect_message(&errors, "cannot write");
    }
    let mut out = runner.sink_failing_at(3);
    let mut errors = runner.sink();
    let input = runner.pieces(TWO_BATCHES);
    let status = runner.status(&["run", "-"], input, &mut out, &mut errors);
    assert_equal(&rt, status, 0);
    runner.expect_text(&out, BOTH_TEXTS);
}

#[test]
fn a_failed_write_comes_before_a_later_faulty_line(rt: HostRuntime) {
    let runner = Runner::new(&rt, rt.alloc());
    let mut out = runner.sink_failing_at(1);
    let mut errors = runner.sink();
    let input = runner.pieces("get a\ngo\nbogus\n");
    let status = runner.status(&["run", "-"], input, &mut out, &mut errors);
    assert_equal(&rt, status, 1);
    runner.expect_message(&errors, "cannot write");
}

#[test]
fn an_input_without_end_is_a_fault(rt: HostRuntime) {
    let runner = Runner::new(&rt, rt.alloc());
    for (text, output) in [
        ("", ""),
        ("get a\ngo\n", "none\n"),
        ("get a\ngo\nget a\n", "none\n"),
    ] {
        let mut input = runner.pieces(text);
        input.is_endless = true;
        runner.expect_of(input, 1000, output, "input does not end", 1);
    }
}

const TURNS_TAKEN: &[(u64, &str, &str, u8)] = &[
    (0, "", "input does not end", 1),
    (36, "", "input does not end", 1),
    (37, FIRST_TEXT, "input does not end", 1),
    (42, FIRST_TEXT, "input does not end", 1),
    (43, BOTH_TEXTS, "", 0),
];

#[test]
fn the_end_takes_a_turn(rt: HostRuntime) {
    let runner = Runner::new(&rt, rt.alloc());
    for &(turns, output, message, expected) in TURNS_TAKEN {
        let mut input = runner.pieces(TWO_BATCHES);
        input.piece = 1;
        runner.expect_of(input, turns, output, message, expected);
    }
}
