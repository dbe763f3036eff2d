// The order in which pages are looked at behind a sweep.
use super::maker::Maker;
use super::records::leaves;
use crate::tests::assertions::{assert_equal, assert_that};
use bw_batch::{Index, Options};
use bw_tree::PageShape;
use std::process::Abort;
use std::thread::Threads;

/// A page: its identifier, its level, and its pairs or children.
type Wanted = (u32, u32, usize);

// What is there behind the sweep: the leaves 1 and 4 with five pairs have parted from left to right, and the page above them,
// which had four children before, has parted behind them.
const ALIKE: &[Wanted] = &[
    (0, 0, 3),
    (3, 0, 3),
    (1, 0, 2),
    (5, 0, 3),
    (4, 0, 2),
    (6, 0, 3),
    (2, 1, 3),
    (7, 1, 3),
    (8, 2, 2),
];

// The same for the leaves 3 and 1, which stand in this order: the new page of the left one, 3, has the lower identifier.
const TURNED: &[Wanted] = &[
    (0, 0, 3),
    (3, 0, 2),
    (5, 0, 3),
    (1, 0, 2),
    (6, 0, 3),
    (4, 0, 3),
    (2, 1, 3),
    (7, 1, 3),
    (8, 2, 2),
];

// Inserts keys in one batch, behind which there are so many records.
fn insert<R: Abort + Threads + Sync>(
    rt: &R,
    make: &Maker<R>,
    index: &mut Index,
    keys: &[u8],
    records: usize,
) {
    let mut ops = Vec::new(make.alloc);
    for key in keys {
        ops.push(make.insert(*key, 1)).expect(rt, "memory");
    }
    leaves(rt, index, &ops, records);
}

// Whether a page is listed so.
fn is(page: &PageShape, wanted: &Wanted) -> bool {
    page.page.0 == wanted.0 && page.level == wanted.1 && page.pairs == wanted.2
}

// The pages of an index are these.
fn has_pages<R: Abort>(rt: &R, index: &Index, pages: &[Wanted]) {
    let shape = index.tree().shape().expect(rt, "memory");
    assert_equal(rt, shape.len(), pages.len());
    for (page, wanted) in shape.iter().zip(pages) {
        assert_that(rt, is(page, wanted));
    }
}

// Inserts these keys, two on each of two leaves of three pairs, and has a sweep come: behind it the pages are these.
fn sweep<R: Abort + Threads + Sync>(rt: &R, make: &Maker<R>, more: &[u8], pages: &[Wanted]) {
    let options = Options::new(1, 64, 2, 4, 0, 12, 21).expect(rt, "options");
    let mut index = Index::new(make.alloc, options).expect(rt, "an index");
    let keys = [10, 20, 30, 40, 50, 60, 70, 80, 90, 100, 110, 120];
    // 12 writes; the splits of the root and of its two halves; and entries for what is right of those halves.
    insert(rt, make, &mut index, &keys, 17);
    // And 4 writes. No chain has more than two of them.
    insert(rt, make, &mut index, more, 21);
    // With one operation more there might be more than 21 records, so a sweep comes first. Behind it two leaves are split,
    // with an entry for each, and the root, which needs none.
    leaves(rt, &mut index, &[make.get(1)], 5);
    has_pages(rt, &index, pages);
}

#[test]
fn leaves_are_looked_at_before_inner_pages(rt: HostRuntime) {
    let make = Maker::new(&rt, rt.alloc());
    sweep(&rt, &make, &[71, 72, 101, 102], ALIKE);
}

#[test]
fn leaves_are_looked_at_in_the_order_of_keys(rt: HostRuntime) {
    let make = Maker::new(&rt, rt.alloc());
    sweep(&rt, &make, &[41, 42, 71, 72], TURNED);
}
