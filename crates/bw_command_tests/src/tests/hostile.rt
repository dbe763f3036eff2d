// A reader and a writer that fail at each call in turn, among four batches.
use super::ports::Runner;
use crate::tests::assertions::{assert_equal, assert_that};

// Three batches that `go` ends, and one that the end of the input does.
const FOUR_BATCHES: &str = "insert a 1\ninsert b 2\ninsert c 3\ninsert d 4\ninsert e 5\ngo
delete a\ndelete b\ndelete c\ndelete d\ndelete e\ngo
insert a 6\ninsert b 7\ninsert c 8\ninsert d 9\ninsert e 10\ngo
scan % * 9\ndelete a\ndelete b\ndelete c\ndelete d\ndelete e\n";

const FOUR_TEXTS: &str = "inserted\ninserted\ninserted\ninserted\ninserted
was 1\nwas 2\nwas 3\nwas 4\nwas 5
inserted\ninserted\ninserted\ninserted\ninserted
scan 5\na 6\nb 7\nc 8\nd 9\ne 10\nwas 6\nwas 7\nwas 8\nwas 9\nwas 10\n";

// How many bytes of the texts stand for the batches whose `go` is among so many bytes.
fn written_after(bytes: u64) -> usize {
    if bytes < 58 {
        0
    } else if bytes < 106 {
        45
    } else if bytes < 165 {
        75
    } else {
        120
    }
}

#[test]
fn each_read_fails_in_turn(rt: HostRuntime) {
    let runner = Runner::new(&rt, rt.alloc());
    for call in 1..223u64 {
        let mut input = runner.pieces(FOUR_BATCHES);
        input.piece = 1;
        input.fails_at = call;
        let mut out = runner.sink();
        let mut errors = runner.sink();
        let status = runner.status(&["run"], input, &mut out, &mut errors);
        assert_equal(&rt, status, 1);
        runner.expect_message(&errors, "cannot read");
        let taken = out.taken.as_slice();
        assert_equal(&rt, taken.len(), written_after(call.saturating_sub(1)));
        assert_that(&rt, FOUR_TEXTS.as_bytes().starts_with(taken));
    }
}

#[test]
fn each_write_fails_in_turn(rt: HostRuntime) {
    let runner = Runner::new(&rt, rt.alloc());
    for (call, written) in [(1, 0), (2, 45), (3, 75), (4, 120)] {
        let mut out = runner.sink_failing_at(call);
        let mut errors = runner.sink();
        let input = runner.pieces(FOUR_BATCHES);
        let status = runner.status(&["run"], input, &mut out, &mut errors);
        assert_equal(&rt, status, 1);
        runner.expect_message(&errors, "cannot write");
        assert_equal(&rt, out.taken.len(), written);
    }
    let mut out = runner.sink_failing_at(1);
    let mut errors = runner.sink();
    let input = runner.pieces(FOUR_BATCHES);
    let status = runner.status(&["dump"], input, &mut out, &mut errors);
    assert_equal(&rt, status, 1);
    runner.expect_message(&errors, "cannot write");
}
