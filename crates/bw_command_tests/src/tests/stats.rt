// `--stats`: what it tells, however a text is cut into reads.
use super::ports::{Pieces, Runner};
use crate::tests::assertions::{assert_equal, assert_that};
use bw_command::Stats;
use bw_trace::Summary;
use std::process::Abort;
use std::rt::Files;
use std::thread::Threads;
use std::time::{Clock, Duration};

// Each verb once, and all kinds of lines that are no operation.
const EVERY_LINE: &str =
    "bw 2\ninsert a 1\nupsert a 2\r\n\n   \n  # get a\n#get a\n#\n\r\n  update a 3\ngo\r\ndelete a\nswapif a 1 2\nget a\n   go   \r\nscan % * 9\nrscan % * 9\ngo\ngo\n";

impl<R: Abort + Files + AllocGlobal + Threads + Clock + Sync> Runner<'_, R> {
    // The line that is told begins with these counts, and ends with the unit of the rate.
    fn expect_stats(&self, input: Pieces, counts: &str) {
        let mut out = self.sink();
        let mut errors = self.sink();
        let found = self.status(&["dump", "--stats"], input, &mut out, &mut errors);
        self.expect_text(&out, "contents 0\n");
        let front = self.joined(&["bw_run: ", counts, ", "]);
        assert_that(self.rt, errors.taken.starts_with(front.as_bytes()));
        assert_that(
            self.rt,
            errors.taken.ends_with(b" operations/s\n".as_slice()),
        );
        assert_equal(self.rt, found, 0);
    }

    fn expect_stats_text(&self, time: Option<Duration>, text: &str) {
        let stats = Stats {
            summary: Summary {
                batches: 7,
                long: 2,
                memory: 1,
            },
            operations: 120,
            time,
        };
        let shown = format!(in self.alloc; "{stats}").expect(self.rt, "memory");
        assert_equal(self.rt, shown.as_str(), text);
    }
}

#[test]
fn lines_that_are_no_operation_are_not_counted(rt: HostRuntime) {
    let runner = Runner::new(&rt, rt.alloc());
    for piece in [1, 3, 4096] {
        let mut input = runner.pieces(EVERY_LINE);
        input.piece = piece;
        runner.expect_stats(input, "4 batches, 8 operations, 0 refused");
    }
}

#[test]
fn a_rate_is_told_where_there_is_a_clock(rt: HostRuntime) {
    let runner = Runner::new(&rt, rt.alloc());
    runner.expect_stats_text(None, "7 batches, 120 operations, 3 refused");
    runner.expect_stats_text(
        Some(Duration::from_millis(4)),
        "7 batches, 120 operations, 3 refused, 0.004 s, 30000 operations/s",
    );
    runner.expect_stats_text(
        Some(Duration::from_secs(240)),
        "7 batches, 120 operations, 3 refused, 240.000 s, 0 operations/s",
    );
    runner.expect_stats_text(
        Some(Duration::from_secs(0)),
        "7 batches, 120 operations, 3 refused, 0.000 s, 120000000000 operations/s",
    );
}
