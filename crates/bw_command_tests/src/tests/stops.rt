// Five inserts over pages of four pairs, where each growth of memory is refused in turn. The leaf is split behind their
// batch, or where tidying stops there, behind the next one.
use super::ports::Runner;
use crate::tests::assertions::{assert_equal, assert_that};
use std::process::Abort;
use std::rt::Files;
use std::thread::Threads;
use std::time::Clock;

// One batch of so many keys.
const FIVE: &str = "insert a 1\ninsert b 2\ninsert c 3\ninsert d 4\ninsert e 5\n";

// The pages that they lie on, where a page has four pairs.
const FIVE_SPLIT: &str = "leaf % c 2 0\nleaf c * 3 0\ninner 1 % * 2\n";

const SMALL_PAGES: &[&str] = &[
    "shape",
    "--page-max",
    "4",
    "--page-min",
    "1",
    "--chain",
    "1",
];

// How a run may end: its status, and what it wrote.
type End = (u8, &'static str);

// Tidying went on to its end; it stopped before a root was put over both leaves, before the leaf was split, or before it
// was consolidated; the batch was refused; the program found no memory outside a batch.
const ONE_BATCH: &[End] = &[
    (0, FIVE_SPLIT),
    (0, "leaf % c 2 0\nleaf c * 3 0\n"),
    (0, "leaf % * 5 0\n"),
    (0, "leaf % * 5 5\n"),
    (4, "leaf % * 0 0\n"),
    (1, ""),
];

// With batches of nothing behind that one: all is tidied, the inserts were refused, the program found no memory, or one
// of the batches of nothing was refused.
const MORE_BATCHES: &[End] = &[
    (0, FIVE_SPLIT),
    (4, "leaf % * 0 0\n"),
    (1, ""),
    (4, FIVE_SPLIT),
];

const RUN: &[&str] = &["run", "--page-max", "4", "--page-min", "1", "--chain", "1"];

// The reads of what five inserts leave.
const READS: &str = "go\nget a\nget b\nget c\nget d\nget e\nscan % * 9\n";

// Both batches were accepted; the inserts were refused, or the reads; the program found no memory before the replies to
// the first batch were printed, or behind them.
const READ_BATCH: &[End] = &[
    (0, BOTH),
    (4, "refused memory\nnone\nnone\nnone\nnone\nnone\nscan 0\n"),
    (
        4,
        "inserted\ninserted\ninserted\ninserted\ninserted\nrefused memory\n",
    ),
    (1, ""),
    (1, "inserted\ninserted\ninserted\ninserted\ninserted\n"),
];

const BOTH: &str = "inserted
inserted
inserted
inserted
inserted
is 1
is 2
is 3
is 4
is 5
scan 5
a 1
b 2
c 3
d 4
e 5
";

// The place of an end among those that may be.
fn place_of(ends: &[End], status: u8, text: &[u8]) -> Option<usize> {
    for (place, (wanted, output)) in ends.iter().enumerate() {
        if *wanted == status && output.as_bytes() == text {
            return Some(place);
        }
    }
    None
}

// Counts the end at a place.
fn count(counts: &mut [u64], place: usize) {
    if let Some(count) = counts.get_mut(place) {
        *count = count.saturating_add(1);
    }
}

impl<R: Abort + Files + AllocGlobal + Threads + Clock + Sync> Runner<'_, R> {
    // Runs these words over a text, where this growth is refused. Which end it was, and how many growths were left.
    fn end_of(
        &self,
        words: &[&'static str],
        text: &str,
        ends: &[End],
        growth: u64,
    ) -> (Option<usize>, u64) {
        let mut out = self.sink();
        let mut errors = self.sink();
        let input = self.pieces(text);
        self.alloc.refuse(growth);
        let status = self.status(words, input, &mut out, &mut errors);
        let left = self.alloc.left();
        self.alloc.refuse(0);
        self.expect_message(&errors, if status == 1 { "out of memory" } else { "" });
        (place_of(ends, status, out.taken.as_slice()), left)
    }

    // Refuses each growth in turn, up to a run that makes fewer and ends in the first way. Counts each end that came.
    fn count_ends(&self, words: &[&'static str], text: &str, ends: &[End], counts: &mut [u64]) {
        for growth in 1..1000u64 {
            let (place, left) = self.end_of(words, text, ends, growth);
            let Some(place) = place else {
                panic!(self.rt; "one of the ends");
            };
            count(counts, place);
            if left > 0 && left <= growth {
                assert_equal(self.rt, place, 0);
                return;
            }
        }
        panic!(self.rt; "no run met no refusal");
    }
}

// Each end comes.
#[test]
fn tidying_stops_before_each_of_its_steps(rt: HostRuntime) {
    let runner = Runner::new(&rt, rt.alloc());
    let mut counts = [0u64; 6];
    runner.count_ends(SMALL_PAGES, FIVE, ONE_BATCH, &mut counts);
    for count in counts {
        assert_that(&rt, count > 0);
    }
}

#[test]
fn the_next_batch_goes_on_with_tidying(rt: HostRuntime) {
    let runner = Runner::new(&rt, rt.alloc());
    for rest in ["go\ngo\n", "go\ngo\ngo\n"] {
        let text = runner.joined(&[FIVE, rest]);
        let mut counts = [0u64; 4];
        runner.count_ends(SMALL_PAGES, text.as_str(), MORE_BATCHES, &mut counts);
        assert_that(&rt, counts[0] > 1 && counts[1] > 0 && counts[2] > 0);
    }
}

#[test]
fn pairs_are_read_where_tidying_stopped(rt: HostRuntime) {
    let runner = Runner::new(&rt, rt.alloc());
    let text = runner.joined(&[FIVE, READS]);
    let mut counts = [0u64; 5];
    runner.count_ends(RUN, text.as_str(), READ_BATCH, &mut counts);
    assert_that(&rt, counts[0] > 1 && counts[1] > 0 && counts[2] > 0);
}
