// Pages that workers look at side by side. An index of several workers comes to the pages of one that has one worker, and counts
// the same; where a growth is refused, it comes to them behind the next batch.
use super::maker::{Maker, same};
use super::refused::has_pages;
use crate::tests::assertions::{assert_equal, assert_that};
use bw_batch::{Index, Key, Op, OpenGate, Options, Tidy};
use bw_fixtures::Random;
use bw_memory::Alloc;
use bw_tree::PageShape;
use std::process::Abort;
use std::thread::Threads;

// How many keys there may be.
const KEYS: usize = 2048;

// How many operations a batch has. Soon they write to some 400 leaves. One worker consolidates them while it answers the batch,
// and four do behind it.
const LEN: u32 = 1024;

// With so many the batch is answered by several workers, who consolidate leaves meanwhile. Some leaves are read by two.
const LONG: u32 = 4096;

// How many batches there are. Of four in a row the last one deletes keys.
const BATCHES: u32 = 8;

// So many records make no sweep due.
const AMPLE: u64 = 1_048_576;

// With so many a sweep is due before each third batch or so.
const FEW: u64 = 4096;

// How many growths of a batch are refused, one by one.
const TRIES: u64 = 8;

fn drawn_key<R: Abort>(rt: &R, make: &Maker<R>, random: &mut Random) -> Key {
    let number = random.below(KEYS) as u32;
    Key::new(make.alloc, &number.to_be_bytes()).expect(rt, "a key")
}

fn draw<R: Abort>(rt: &R, make: &Maker<R>, random: &mut Random, number: u32, shrinks: bool) -> Op {
    let key = drawn_key(rt, make, random);
    if shrinks {
        return Op::Delete(key);
    }
    Op::Upsert(key, make.value(number))
}

// A batch of so many upserts, or deletes.
fn batch<R: Abort>(
    rt: &R,
    make: &Maker<R>,
    random: &mut Random,
    len: u32,
    shrinks: bool,
) -> Vec<Op, Alloc> {
    let mut ops = Vec::new(make.alloc);
    for number in 0..len {
        ops.push(draw(rt, make, random, number, shrinks))
            .expect(rt, "memory");
    }
    ops
}

// An index of leaves of up to four pairs, with so many workers and records.
fn empty<R: Abort>(rt: &R, make: &Maker<R>, workers: u64, record_max: u64) -> Index {
    let options = Options::new(workers, 64, 1, 4, 2, LONG as u64, record_max).expect(rt, "options");
    Index::new(make.alloc, options).expect(rt, "an index")
}

// An index has the pages of another one.
fn have_same_pages<R: Abort>(rt: &R, index: &Index, other: &Index) {
    let shape = other.tree().shape().expect(rt, "memory");
    has_pages(rt, index, &shape);
}

// Runs a batch by both, which answer and count the same, and come to the same pages. What tidying did.
fn run_both<R: Abort + Threads + Sync>(
    rt: &R,
    one: &mut Index,
    several: &mut Index,
    ops: &[Op],
) -> Tidy {
    let first = one.run(rt, ops, &OpenGate).expect(rt, "memory");
    let second = several.run(rt, ops, &OpenGate).expect(rt, "memory");
    same(rt, first.replies.as_slice(), second.replies.as_slice());
    assert_equal(rt, first.tidy, second.tidy);
    have_same_pages(rt, several, one);
    first.tidy
}

// What was seen along the batches: the most leaves that one of them had consolidated, and how many pages were merged in all.
#[derive(Clone, Copy)]
struct Seen {
    consolidated: u64,
    merges: u64,
}

// Runs batches of so many operations that are drawn by both.
fn run_all<R: Abort + Threads + Sync>(
    rt: &R,
    make: &Maker<R>,
    one: &mut Index,
    several: &mut Index,
    len: u32,
) -> Seen {
    let mut random = Random::new(20130409);
    let mut seen = Seen {
        consolidated: 0,
        merges: 0,
    };
    for number in 0..BATCHES {
        let ops = batch(rt, make, &mut random, len, number % 4 == 3);
        let tidy = run_both(rt, one, several, &ops);
        seen.consolidated = seen.consolidated.max(tidy.consolidated);
        seen.merges = seen.merges.saturating_add(tidy.merges);
    }
    seen
}

// Compares an index of so many workers with one that has one worker. Batches consolidate more leaves than two workers look at.
fn compare<R: Abort + Threads + Sync>(
    rt: &R,
    make: &Maker<R>,
    workers: u64,
    record_max: u64,
    len: u32,
) {
    let mut one = empty(rt, make, 1, record_max);
    let mut several = empty(rt, make, workers, record_max);
    let seen = run_all(rt, make, &mut one, &mut several, len);
    assert_that(rt, seen.consolidated > 192);
    assert_that(rt, seen.merges > 64);
}

#[test]
fn four_workers_come_to_the_pages_of_one(rt: HostRuntime) {
    let make = Maker::new(&rt, rt.alloc());
    compare(&rt, &make, 4, AMPLE, LEN);
}

#[test]
fn four_workers_come_to_the_pages_of_one_among_sweeps(rt: HostRuntime) {
    let make = Maker::new(&rt, rt.alloc());
    compare(&rt, &make, 4, FEW, LEN);
}

#[test]
fn more_workers_than_there_are_pages_for_come_to_the_pages_of_one(rt: HostRuntime) {
    let make = Maker::new(&rt, rt.alloc());
    compare(&rt, &make, 64, AMPLE, LEN);
}

#[test]
fn four_workers_who_read_leaves_both_come_to_the_pages_of_one(rt: HostRuntime) {
    let make = Maker::new(&rt, rt.alloc());
    compare(&rt, &make, 4, AMPLE, LONG);
}

// An index of so many workers that ran these batches.
fn filled<R: Abort + Threads + Sync>(
    rt: &R,
    make: &Maker<R>,
    workers: u64,
    batches: &[Vec<Op, Alloc>],
) -> Index {
    let mut index = empty(rt, make, workers, AMPLE);
    for ops in batches {
        index.run(rt, ops, &OpenGate).expect(rt, "memory");
    }
    index
}

// Runs a batch, and once more where it was refused; and then some of no operation, behind which no leaf is marked any more.
fn run_again<R: Abort + Threads + Sync>(rt: &R, index: &mut Index, ops: &[Op]) {
    if index.run(rt, ops, &OpenGate).is_err() {
        index.run(rt, ops, &OpenGate).expect(rt, "memory");
    }
    for _ in 0..3 {
        index.run(rt, &[], &OpenGate).expect(rt, "memory");
    }
}

// How many growths a batch takes behind others.
fn count_growths<R: Abort + Threads + Sync>(
    rt: &R,
    make: &Maker<R>,
    before: &[Vec<Op, Alloc>],
    ops: &[Op],
) -> u64 {
    let mut index = filled(rt, make, 4, before);
    make.alloc.refuse(0);
    index.run(rt, ops, &OpenGate).expect(rt, "memory");
    make.alloc.left().wrapping_neg()
}

// Runs a batch behind others where this growth is refused: the pages come to be these.
fn comes_to<R: Abort + Threads + Sync>(
    rt: &R,
    make: &Maker<R>,
    before: &[Vec<Op, Alloc>],
    ops: &[Op],
    wanted: &[PageShape],
    growth: u64,
) {
    let mut index = filled(rt, make, 4, before);
    make.alloc.refuse(growth);
    run_again(rt, &mut index, ops);
    make.alloc.refuse(0);
    has_pages(rt, &index, wanted);
}

// Two batches of upserts.
fn upserts<R: Abort>(rt: &R, make: &Maker<R>, random: &mut Random) -> Vec<Vec<Op, Alloc>, Alloc> {
    let mut list = Vec::new(make.alloc);
    for _ in 0..2 {
        list.push(batch(rt, make, random, LEN, false))
            .expect(rt, "memory");
    }
    list
}

// Growths of the last batch are refused one by one, far from one another.
fn refuse_some<R: Abort + Threads + Sync>(
    rt: &R,
    make: &Maker<R>,
    before: &[Vec<Op, Alloc>],
    ops: &[Op],
) {
    let mut index = filled(rt, make, 4, before);
    run_again(rt, &mut index, ops);
    let wanted = index.tree().shape().expect(rt, "memory");
    let step = count_growths(rt, make, before, ops) / TRIES;
    assert_that(rt, step > 16);
    for number in 0..TRIES {
        let growth = step.saturating_mul(number).saturating_add(1);
        comes_to(rt, make, before, ops, &wanted, growth);
    }
}

// Some growths of a batch of so many upserts or deletes are refused one by one, behind two batches of upserts.
fn refuse_some_of<R: Abort + Threads + Sync>(rt: &R, make: &Maker<R>, len: u32, shrinks: bool) {
    let mut random = Random::new(20130410);
    let before = upserts(rt, make, &mut random);
    let ops = batch(rt, make, &mut random, len, shrinks);
    refuse_some(rt, make, &before, &ops);
}

#[test]
fn pages_are_the_same_behind_a_growth_that_was_refused(rt: HostRuntime) {
    let make = Maker::new(&rt, rt.alloc());
    refuse_some_of(&rt, &make, LEN, false);
}

#[test]
fn pages_of_several_parts_are_the_same_behind_a_growth_that_was_refused(rt: HostRuntime) {
    let make = Maker::new(&rt, rt.alloc());
    refuse_some_of(&rt, &make, LONG, false);
}

#[test]
fn fewer_pages_are_the_same_behind_a_growth_that_was_refused(rt: HostRuntime) {
    let make = Maker::new(&rt, rt.alloc());
    refuse_some_of(&rt, &make, LEN, true);
}

// Whether tidying stopped behind a batch of so many workers, where this growth is refused, if the batch stands.
fn stands<R: Abort + Threads + Sync>(
    rt: &R,
    make: &Maker<R>,
    workers: u64,
    before: &[Vec<Op, Alloc>],
    ops: &[Op],
    growth: u64,
) -> Option<bool> {
    let mut index = filled(rt, make, workers, before);
    make.alloc.refuse(growth);
    let outcome = index.run(rt, ops, &OpenGate);
    make.alloc.refuse(0);
    match outcome {
        Ok(done) => Some(done.tidy.stopped),
        Err(_) => None,
    }
}

// The first growth that may be refused so that the batch stands, and whether tidying stopped there.
fn first_that_stands<R: Abort + Threads + Sync>(
    rt: &R,
    make: &Maker<R>,
    workers: u64,
    before: &[Vec<Op, Alloc>],
    ops: &[Op],
) -> (u64, bool) {
    for growth in 1..4096u64 {
        if let Some(stopped) = stands(rt, make, workers, before, ops, growth) {
            return (growth, stopped);
        }
    }
    panic!(rt; "each batch was refused");
}

// Where workers consolidate leaves, three lists are made first, and one thread does all where one of them finds no memory. One
// worker is refused the memory of a leaf that it consolidates while it answers the batch, and tidying does that, too.
#[test]
fn one_thread_goes_on_where_a_list_or_a_leaf_finds_no_memory(rt: HostRuntime) {
    let make = Maker::new(&rt, rt.alloc());
    let mut random = Random::new(20130411);
    let before = upserts(&rt, &make, &mut random);
    let ops = batch(&rt, &make, &mut random, LEN, false);
    let (first, stopped) = first_that_stands(&rt, &make, 4, &before, &ops);
    assert_that(&rt, !stopped);
    for more in 1..3u64 {
        let growth = first.saturating_add(more);
        let stopped = stands(&rt, &make, 4, &before, &ops, growth);
        assert_equal(&rt, stopped, Some(false));
    }
    let (_, stopped) = first_that_stands(&rt, &make, 1, &before, &ops);
    assert_that(&rt, !stopped);
}
