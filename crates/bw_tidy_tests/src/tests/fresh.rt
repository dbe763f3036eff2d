// A batch of 65,536 keys that are all new.
use super::levels::{are_within, count_pages, is_whole};
use super::maker::Maker;
use crate::tests::assertions::{assert_equal, assert_that};
use bw_batch::{Index, Key, Op, OpenGate, Options, Reply, Tidy};
use bw_memory::Alloc;
use bw_tree::PageShape;
use std::process::Abort;
use std::thread::Threads;

// How many keys there are.
const KEYS: u32 = 65_536;

// How far a key is from the next one, as a number.
const STEP: u32 = 65_536;

// The key of a number: its bits in the other order, so that keys go to and fro.
fn key<R: Abort>(rt: &R, make: &Maker<R>, number: u32) -> Key {
    Key::new(make.alloc, &number.reverse_bits().to_be_bytes()).expect(rt, "a key")
}

// Upserts of all keys, whose values are their numbers.
fn upserts<R: Abort>(rt: &R, make: &Maker<R>) -> Vec<Op, Alloc> {
    let mut ops = Vec::new(make.alloc);
    for number in 0..KEYS {
        let op = Op::Upsert(key(rt, make, number), make.value(number));
        ops.push(op).expect(rt, "memory");
    }
    ops
}

// Reads of all keys.
fn gets<R: Abort>(rt: &R, make: &Maker<R>) -> Vec<Op, Alloc> {
    let mut ops = Vec::new(make.alloc);
    for number in 0..KEYS {
        ops.push(Op::Get(key(rt, make, number)))
            .expect(rt, "memory");
    }
    ops
}

// How many pages leaves of 64 make, from the leaves up.
const OF_64: &[usize] = &[1024, 16, 1];

// How many pages leaves of four make.
const OF_FOUR: &[usize] = &[16384, 4096, 1024, 256, 64, 16, 4, 1];

// How many splits make so many pages, from the leaves up: each page but the first of its level came of one.
fn count_splits(levels: &[usize]) -> u64 {
    let mut splits = 0u64;
    for pages in levels {
        splits = splits.saturating_add(pages.saturating_sub(1) as u64);
    }
    splits
}

// How often a leaf is consolidated where so many pages are made. The first one has all writes, and each has the record of its
// last split. So each split but a new leaf's first one finds something to consolidate. Leaves part into equal halves until all
// have parted as often: before the last time there were half as many, each of which but the first one was new once.
fn count_consolidated(levels: &[usize]) -> u64 {
    let leaves = levels.first().copied().unwrap_or(0) as u64;
    let splits = leaves.saturating_sub(1);
    let first_splits = (leaves / 2).saturating_sub(1);
    splits.saturating_sub(first_splits)
}

// What tidying did that made so many pages.
fn has_made<R: Abort>(rt: &R, did: &Tidy, levels: &[usize]) {
    assert_that(rt, !did.stopped);
    assert_equal(rt, did.splits, count_splits(levels));
    assert_equal(rt, did.consolidated, count_consolidated(levels));
    assert_equal(rt, did.merges, 0);
}

// Runs the upserts, each of a new key, behind which tidying makes so many pages.
fn put_all<R: Abort + Threads + Sync>(rt: &R, index: &mut Index, ops: &[Op], levels: &[usize]) {
    let done = index.run(rt, ops, &OpenGate).expect(rt, "memory");
    let replies = done.replies.as_slice();
    assert_equal(rt, replies.len(), ops.len());
    for reply in replies {
        assert_equal(rt, reply, &Reply::New);
    }
    has_made(rt, &done.tidy, levels);
}

// Whether a reply is that a number was found.
fn is_found(reply: &Reply, number: u32) -> bool {
    match reply {
        Reply::Found(value) => value.bytes() == number.to_be_bytes().as_slice(),
        _ => false,
    }
}

// Reads all keys, each of which has its number.
fn find_all<R: Abort + Threads + Sync>(rt: &R, index: &mut Index, ops: &[Op]) {
    let done = index.run(rt, ops, &OpenGate).expect(rt, "memory");
    let replies = done.replies.as_slice();
    assert_equal(rt, replies.len(), ops.len());
    for (number, reply) in (0..KEYS).zip(replies) {
        assert_that(rt, is_found(reply, number));
    }
}

// Whether a key and a value are those at a place, in the order of keys.
fn stand_at(key: &[u8], value: &[u8], place: u32) -> bool {
    let bits = place.wrapping_mul(STEP);
    key == bits.to_be_bytes().as_slice() && value == bits.reverse_bits().to_be_bytes().as_slice()
}

// All pairs stand in the order of their keys.
fn are_all<R: Abort>(rt: &R, index: &Index) {
    let pairs = index.contents().expect(rt, "memory");
    assert_eq!(rt; pairs.len(), KEYS as usize);
    for place in 0..pairs.len() {
        assert!(rt; stand_at(pairs.key_at(place), pairs.value_at(place), place as u32));
    }
}

// Whether a page ends where the next one begins, or is the last of its level.
fn abuts(page: &PageShape, next: &PageShape) -> bool {
    match &page.high {
        Some(high) => page.level == next.level && *high == next.low,
        None => page.level < next.level && next.low.bytes().is_empty(),
    }
}

// The pages of each level stand side by side.
fn are_abutting<R: Abort>(rt: &R, shape: &[PageShape]) {
    for (page, next) in shape.iter().zip(shape.iter().skip(1)) {
        assert_that(rt, abuts(page, next));
    }
}

// Each level has so many pages, from the leaves up.
fn has_levels<R: Abort>(rt: &R, shape: &[PageShape], levels: &[usize]) {
    let mut all = 0usize;
    for (level, count) in (0u32..64).zip(levels) {
        assert_equal(rt, count_pages(shape, level), *count);
        all = all.saturating_add(*count);
    }
    assert_equal(rt, shape.len(), all);
}

// The pages are within the limits, side by side and named, and each level has so many of them.
fn has_pages<R: Abort>(rt: &R, make: &Maker<R>, index: &Index, page_max: u64, levels: &[usize]) {
    let tree = index.tree();
    let shape = tree.shape().expect(rt, "memory");
    are_within(rt, &shape, 0, page_max);
    are_abutting(rt, &shape);
    has_levels(rt, &shape, levels);
    assert_that(rt, is_whole(rt, make.alloc, tree, &shape));
}

// An index into which all keys were put at once, which makes so many pages.
fn full<R: Abort + Threads + Sync>(
    rt: &R,
    make: &Maker<R>,
    page_max: u64,
    levels: &[usize],
) -> Index {
    let options = Options::new(4, 64, 1, page_max, 0, 65536, 1048576).expect(rt, "options");
    let mut index = Index::new(make.alloc, options).expect(rt, "an index");
    put_all(rt, &mut index, &upserts(rt, make), levels);
    index
}

// Puts all keys at once: behind them each level has so many pages, and the pairs are these.
fn compare<R: Abort + Threads + Sync>(rt: &R, make: &Maker<R>, page_max: u64, levels: &[usize]) {
    let index = full(rt, make, page_max, levels);
    has_pages(rt, make, &index, page_max, levels);
    are_all(rt, &index);
}

#[test]
fn new_keys_make_leaves_of_64(rt: HostRuntime) {
    let make = Maker::new(&rt, rt.alloc());
    compare(&rt, &make, 64, OF_64);
}

#[test]
fn new_keys_make_leaves_of_four(rt: HostRuntime) {
    let make = Maker::new(&rt, rt.alloc());
    compare(&rt, &make, 4, OF_FOUR);
}

#[test]
fn new_keys_are_found_on_leaves_of_four(rt: HostRuntime) {
    let make = Maker::new(&rt, rt.alloc());
    let mut index = full(&rt, &make, 4, OF_FOUR);
    find_all(&rt, &mut index, &gets(&rt, &make));
}
