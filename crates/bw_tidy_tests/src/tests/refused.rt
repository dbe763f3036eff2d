// Each growth of memory refused in turn. Behind it the index goes on as if nothing had been refused.
use super::levels::{are_within, is_whole};
use super::maker::{Maker, same};
use super::rows::{Row, holds, run};
use crate::tests::assertions::{assert_equal, assert_that};
use bw_batch::{Index, OpenGate, Options, Refusal, Tidy};
use bw_fixtures::was_refused;
use bw_memory::Alloc;
use bw_tree::PageShape;
use std::process::Abort;
use std::thread::Threads;

// Small pages: one write in a chain, and four pairs.
fn small<R: Abort>(rt: &R) -> Options {
    Options::new(4, 1, 1, 4, 1, 65536, 1048576).expect(rt, "options")
}

fn empty_index<R: Abort>(rt: &R, make: &Maker<R>, options: Options) -> Index {
    Index::new(make.alloc, options).expect(rt, "an index")
}

// The index is as it was made.
fn is_new<R: Abort>(rt: &R, index: &Index) {
    assert_equal(rt, index.tree().next_stamp(), 0);
    assert_equal(rt, index.tree().records(), 0);
    assert_equal(rt, index.tree().heads(), [0u64].as_slice());
    let pairs = index.contents().expect(rt, "memory");
    assert_that(rt, pairs.is_empty());
}

// What became of the inserts of a row.
#[derive(Clone, Copy)]
struct Inserted {
    // whether a growth was refused
    refused: bool,
    // what tidying behind them did
    tidy: Tidy,
}

// Inserts a row where a growth may be refused, and again where the batch was. Whether a refusal was seen.
fn insert<R: Abort + Threads + Sync>(rt: &R, index: &mut Index, row: &Row) -> Inserted {
    match index.run(rt, &row.inserts.ops, &OpenGate) {
        Ok(done) => {
            same(rt, done.replies.as_slice(), row.inserts.replies.as_slice());
            Inserted {
                refused: done.tidy.stopped,
                tidy: done.tidy,
            }
        }
        Err(refusal) => {
            assert_equal(rt, refusal, Refusal::Memory);
            is_new(rt, index);
            Inserted {
                refused: true,
                tidy: run(rt, index, &row.inserts),
            }
        }
    }
}

// Inserts a row where this growth is refused, and reads it where tidying stopped. Whether it was refused.
fn insert_refused<R: Abort + Threads + Sync>(
    rt: &R,
    make: &Maker<R>,
    index: &mut Index,
    row: &Row,
    growth: u64,
) -> Inserted {
    make.alloc.refuse(growth);
    let inserted = insert(rt, index, row);
    let refused = was_refused(make.alloc, growth);
    assert_that(rt, refused || !inserted.refused);
    holds(rt, make, index, row);
    Inserted {
        refused,
        ..inserted
    }
}

// What tidying did up to a stop, and behind it.
fn both(before: Tidy, behind: Tidy) -> Tidy {
    Tidy {
        consolidated: before.consolidated.saturating_add(behind.consolidated),
        splits: before.splits.saturating_add(behind.splits),
        merges: before.merges.saturating_add(behind.merges),
        stopped: behind.stopped,
    }
}

// Whether two pages have the same identifier and range, and as much in it.
fn is_same(page: &PageShape, other: &PageShape) -> bool {
    page.page == other.page
        && page.level == other.level
        && page.low == other.low
        && page.high == other.high
        && page.pairs == other.pairs
        && page.writes == other.writes
}

/// Compares the pages of an index.
pub fn has_pages<R: Abort>(rt: &R, index: &Index, wanted: &[PageShape]) {
    let shape = index.tree().shape().expect(rt, "memory");
    assert_equal(rt, shape.len(), wanted.len());
    for (page, other) in shape.iter().zip(wanted) {
        assert_that(rt, is_same(page, other));
    }
}

// Inserts a row where this growth is refused, and goes on with reads: the pages come to be these, and tidying did this in all.
// Whether it was refused.
fn is_refused<R: Abort + Threads + Sync>(
    rt: &R,
    make: &Maker<R>,
    row: &Row,
    wanted: &[PageShape],
    did: Tidy,
    growth: u64,
) -> bool {
    let mut index = empty_index(rt, make, small(rt));
    let inserted = insert_refused(rt, make, &mut index, row, growth);
    let behind = run(rt, &mut index, &row.reads);
    assert_equal(rt, both(inserted.tidy, behind), did);
    has_pages(rt, &index, wanted);
    run(rt, &mut index, &row.again);
    inserted.refused
}

// An index holds what the writes leave, on pages within the limits.
fn has_written<R: Abort>(rt: &R, make: &Maker<R>, index: &Index, row: &Row) {
    assert_equal(rt, &index.contents().expect(rt, "memory"), &row.left);
    let shape = index.tree().shape().expect(rt, "memory");
    are_within(rt, &shape, 1, 4);
    assert_that(rt, is_whole(rt, make.alloc, index.tree(), &shape));
}

// The same, and goes on with writes.
fn is_refused_before_writes<R: Abort + Threads + Sync>(
    rt: &R,
    make: &Maker<R>,
    options: Options,
    row: &Row,
    growth: u64,
) -> bool {
    let mut index = empty_index(rt, make, options);
    let inserted = insert_refused(rt, make, &mut index, row, growth);
    run(rt, &mut index, &row.writes);
    has_written(rt, make, &index, row);
    inserted.refused
}

// The pages of an index in which a row was inserted and read. Tidying did this behind the inserts, and nothing more behind the
// reads.
fn pages<R: Abort + Threads + Sync>(
    rt: &R,
    make: &Maker<R>,
    row: &Row,
    did: Tidy,
) -> Vec<PageShape, Alloc> {
    let mut index = empty_index(rt, make, small(rt));
    let inserted = insert(rt, &mut index, row);
    assert_that(rt, !inserted.refused);
    assert_equal(rt, inserted.tidy, did);
    assert_equal(rt, run(rt, &mut index, &row.reads), Tidy::default());
    index.tree().shape().expect(rt, "memory")
}

// Refuses each growth of a batch of inserts in turn, behind which tidying does this.
fn refuse_in_turn<R: Abort + Threads + Sync>(rt: &R, make: &Maker<R>, last: u8, did: Tidy) {
    let row = Row::new(rt, make, last);
    let wanted = pages(rt, make, &row, did);
    for growth in 1..1000 {
        let refused = is_refused(rt, make, &row, &wanted, did, growth);
        assert_equal(
            rt,
            is_refused_before_writes(rt, make, small(rt), &row, growth),
            refused,
        );
        if !refused {
            assert_that(rt, growth > 20);
            return;
        }
    }
    panic!(rt; "no batch met no refusal");
}

// What tidying does behind five letters: their leaf is consolidated and split.
const FIVE: Tidy = Tidy {
    consolidated: 1,
    splits: 1,
    merges: 0,
    stopped: false,
};

// Behind seventeen: their leaf is consolidated, and parts into eight and nine. The eight, which have the record of that split,
// are consolidated and part into four and four, the nine into four and five, and the five into two and three. Then the root
// parts, whose children are these five leaves.
const SEVENTEEN: Tidy = Tidy {
    consolidated: 2,
    splits: 5,
    merges: 0,
    stopped: false,
};

#[test]
fn pages_of_five_letters_come_to_be_the_same(rt: HostRuntime) {
    let make = Maker::new(&rt, rt.alloc());
    refuse_in_turn(&rt, &make, b'e', FIVE);
}

#[test]
fn pages_of_seventeen_letters_come_to_be_the_same(rt: HostRuntime) {
    let make = Maker::new(&rt, rt.alloc());
    refuse_in_turn(&rt, &make, b'q', SEVENTEEN);
}

// The same with leaves consolidated beside the posting, for which tidying has less to do.
fn refuse_beside<R: Abort + Threads + Sync>(rt: &R, make: &Maker<R>, last: u8) {
    let row = Row::new(rt, make, last);
    let options = small(rt).with_beside(true);
    for growth in 1..1000 {
        if !is_refused_before_writes(rt, make, options, &row, growth) {
            assert_that(rt, growth > 20);
            return;
        }
    }
    panic!(rt; "no batch met no refusal");
}

#[test]
fn pages_of_letters_are_within_the_limits_beside_consolidations(rt: HostRuntime) {
    let make = Maker::new(&rt, rt.alloc());
    refuse_beside(&rt, &make, b'e');
    refuse_beside(&rt, &make, b'q');
}
