// Leaves with pairs that are merged, where each growth of memory is refused in turn. Behind it the index holds what a map does, is
// read and written to half-way through a merge, and comes to the pages of the plain program.
use super::maker::Maker;
use super::pages::same_shape;
use super::tidying::{AMPLE, Compared, Sizes, empty, same_pairs, same_replies};
use crate::tests::assertions::{assert_equal, assert_that};
use bw_batch::{Op, OpenGate, Refusal, Value};
use bw_fixtures::{value, was_refused};
use bw_memory::Alloc;
use std::process::Abort;
use std::thread::Threads;

// Small pages: one write in a chain, four pairs, and a page of one pair is merged.
const LIMITS: Sizes = Sizes {
    chain_max: 1,
    page_max: 4,
    page_min: 2,
};

// Bytes of values: few, and the most that a value has.
const SHORT: usize = 2;

const LONGEST: usize = 1024;

// Seventeen keys are put on five leaves of 4, 4, 4, 2 and 3, under two pages, under a root.
const KEYS: u8 = 17;

// The first two leaves keep one key and three, and are one leaf then. Of the other three each keeps some, the last two one key
// each: they go into the leaf to their left, one after the other. So each page above has one child, and the two are merged, and
// the root goes.
const FIRST: &[u8] = &[2, 3, 5, 6, 7, 10, 11, 13, 15, 16];

// The leaf of 4 keys loses all but one, and is merged into the other one, which has one key left: the root goes.
const SECOND: &[u8] = &[4, 8, 9, 12, 14];

// The value of a number: so many bytes of it.
fn value_of<R: Abort>(rt: &R, alloc: Alloc, number: u8, len: usize) -> Value {
    let bytes = [number; LONGEST];
    value(alloc, &bytes[..len.min(LONGEST)]).expect(rt, "a value")
}

// Upserts of all keys.
fn upserts<R: Abort>(rt: &R, make: &Maker<R>, len: usize) -> Vec<Op, Alloc> {
    let mut ops = Vec::new(make.alloc);
    for key in 1..=KEYS {
        let op = Op::Upsert(make.key(key), value_of(rt, make.alloc, key, len));
        ops.push(op).expect(rt, "memory");
    }
    ops
}

// Deletes of these keys, and an upsert of a key that stays.
fn deletes<R: Abort>(rt: &R, make: &Maker<R>, keys: &[u8], stays: u8) -> Vec<Op, Alloc> {
    let mut ops = Vec::new(make.alloc);
    for key in keys {
        ops.push(make.delete(*key)).expect(rt, "memory");
    }
    let short = value_of(rt, make.alloc, stays, 1);
    ops.push(Op::Upsert(make.key(stays), short))
        .expect(rt, "memory");
    ops
}

// Reads of each key, and of all, up and down.
fn reads<R: Abort>(rt: &R, make: &Maker<R>) -> Vec<Op, Alloc> {
    let mut ops = Vec::new(make.alloc);
    for key in 1..=KEYS {
        ops.push(make.get(key)).expect(rt, "memory");
    }
    ops.push(make.scan(1, None, 99)).expect(rt, "memory");
    ops.push(make.rscan(1, None, 99)).expect(rt, "memory");
    ops
}

// Upserts and deletes of keys on each leaf, and reads of all.
fn writes<R: Abort>(rt: &R, make: &Maker<R>) -> Vec<Op, Alloc> {
    let mut ops = reads(rt, make);
    for key in 1..=KEYS {
        let op = if key % 3 == 0 {
            make.delete(key)
        } else {
            Op::Insert(make.key(key), value_of(rt, make.alloc, 99, SHORT))
        };
        ops.push(op).expect(rt, "memory");
    }
    ops.push(make.scan(1, None, 99)).expect(rt, "memory");
    ops
}

// The batches: all keys come, and most go by two batches.
fn batches<R: Abort>(rt: &R, make: &Maker<R>, len: usize) -> Vec<Vec<Op, Alloc>, Alloc> {
    let mut batches = Vec::new(make.alloc);
    for ops in [
        upserts(rt, make, len),
        deletes(rt, make, FIRST, 14),
        deletes(rt, make, SECOND, 17),
    ] {
        batches.push(ops).expect(rt, "memory");
    }
    batches
}

// Runs a batch with ample memory by all, and compares what they answer and hold.
fn run<R: Abort + Threads + Sync>(rt: &R, all: &mut Compared, ops: &[Op]) {
    let done = all.index.run(rt, ops, &OpenGate).expect(rt, "memory");
    assert_that(rt, !done.tidy.stopped);
    same_replies(rt, &mut all.map, ops, done.replies.as_slice());
    same_pairs(rt, &all.index, &all.map);
    all.plain.run(rt, ops);
    all.plain.tidy(rt);
}

// Compares the pages of an index with those of the plain program.
fn same_pages<R: Abort>(rt: &R, all: &Compared) {
    let shape = all.index.tree().shape().expect(rt, "memory");
    same_shape(rt, &shape, &all.plain);
}

// All of them behind the batches up to one.
fn before<R: Abort + Threads + Sync>(
    rt: &R,
    make: &Maker<R>,
    batches: &[Vec<Op, Alloc>],
    workers: u64,
    place: usize,
) -> Compared {
    let mut all = empty(rt, make, workers, LIMITS, AMPLE);
    for ops in batches.iter().take(place) {
        run(rt, &mut all, ops);
        same_pages(rt, &all);
    }
    all
}

// Runs a batch where this growth is refused, and again where the batch was; the plain program runs and tidies it. Whether the
// growth was refused.
fn run_refused<R: Abort + Threads + Sync>(
    rt: &R,
    alloc: Alloc,
    all: &mut Compared,
    ops: &[Op],
    growth: u64,
) -> bool {
    alloc.refuse(growth);
    let outcome = all.index.run(rt, ops, &OpenGate);
    let refused = was_refused(alloc, growth);
    match outcome {
        Ok(done) => {
            assert_that(rt, refused || !done.tidy.stopped);
            same_replies(rt, &mut all.map, ops, done.replies.as_slice());
            all.plain.run(rt, ops);
            all.plain.tidy(rt);
        }
        Err(refusal) => {
            assert_that(rt, refused && refusal == Refusal::Memory);
            same_pairs(rt, &all.index, &all.map);
            run(rt, all, ops);
        }
    }
    same_pairs(rt, &all.index, &all.map);
    refused
}

// What is run behind a batch of which a growth was refused.
#[derive(Clone, Copy)]
struct Behind<'a> {
    ops: &'a [Op],
    // whether these are reads alone, so that the pages come to be those of the plain program
    are_reads: bool,
}

// Runs the batch at a place where this growth is refused, and goes on: tidying comes to its end behind batches of none. Whether the
// growth was refused.
fn is_refused<R: Abort + Threads + Sync>(
    rt: &R,
    make: &Maker<R>,
    batches: &[Vec<Op, Alloc>],
    workers: u64,
    place: usize,
    behind: &Behind,
    growth: u64,
) -> bool {
    let mut all = before(rt, make, batches, workers, place);
    let ops = batches.get(place).expect(rt, "a batch");
    let refused = run_refused(rt, make.alloc, &mut all, ops, growth);
    run(rt, &mut all, behind.ops);
    run(rt, &mut all, &[]);
    run(rt, &mut all, &[]);
    if behind.are_reads {
        same_pages(rt, &all);
    }
    refused
}

// Refuses each growth of the batch at a place in turn.
fn refuse_in_turn<R: Abort + Threads + Sync>(
    rt: &R,
    make: &Maker<R>,
    batches: &[Vec<Op, Alloc>],
    workers: u64,
    place: usize,
    behind: &Behind,
) {
    for growth in 1..1000 {
        if !is_refused(rt, make, batches, workers, place, behind, growth) {
            assert_that(rt, growth > 20);
            return;
        }
    }
    panic!(rt; "no batch met no refusal");
}

// The same for both batches of deletes, with values of so many bytes, and reads or writes behind them.
fn refuse_each<R: Abort + Threads + Sync>(
    rt: &R,
    make: &Maker<R>,
    workers: u64,
    len: usize,
    behind: &Behind,
) {
    let batches = batches(rt, make, len);
    for place in 1..3usize {
        refuse_in_turn(rt, make, &batches, workers, place, behind);
    }
}

// Runs the batches with ample memory: in the end there is one leaf, of the two keys that stay.
#[test]
fn leaves_with_pairs_are_merged_as_by_the_plain_program(rt: HostRuntime) {
    let make = Maker::new(&rt, rt.alloc());
    for len in [SHORT, LONGEST] {
        let batches = batches(&rt, &make, len);
        let all = before(&rt, &make, &batches, 1, 3);
        assert_equal(&rt, all.index.len(), 2);
        assert_equal(&rt, all.plain.pages().len(), 1);
    }
}

#[test]
fn leaves_with_pairs_meet_each_refusal(rt: HostRuntime) {
    let make = Maker::new(&rt, rt.alloc());
    let ops = reads(&rt, &make);
    let behind = Behind {
        ops: &ops,
        are_reads: true,
    };
    for workers in [1u64, 4] {
        refuse_each(&rt, &make, workers, SHORT, &behind);
    }
}

#[test]
fn leaves_with_the_longest_values_meet_each_refusal(rt: HostRuntime) {
    let make = Maker::new(&rt, rt.alloc());
    let ops = reads(&rt, &make);
    let behind = Behind {
        ops: &ops,
        are_reads: true,
    };
    refuse_each(&rt, &make, 1, LONGEST, &behind);
}

#[test]
fn leaves_with_pairs_are_written_to_behind_each_refusal(rt: HostRuntime) {
    let make = Maker::new(&rt, rt.alloc());
    let ops = writes(&rt, &make);
    let behind = Behind {
        ops: &ops,
        are_reads: false,
    };
    for len in [SHORT, LONGEST] {
        refuse_each(&rt, &make, 1, len, &behind);
    }
}
