// Many writes of one key, posted by many workers.
use super::running::{WORKERS, holds};
use crate::tests::assertions::{assert_equal, assert_that};
use bw_batch::{Index, Op, OpenGate, Options, Reply, Value};
use bw_fixtures::{heap, key, value};
use bw_memory::Alloc;
use std::process::Abort;
use std::thread::Threads;

// How many writes there are.
const WRITES: u64 = 2000;

// The value of a number: its decimal text.
fn value_of<R: Abort>(rt: &R, alloc: Alloc, number: u64) -> Value {
    let text = format!(in alloc; "{number}").expect(rt, "memory");
    value(alloc, text.as_bytes()).expect(rt, "a value")
}

// Puts the value of a number at the one key.
fn upsert<R: Abort>(rt: &R, alloc: Alloc, number: u64) -> Op {
    Op::Upsert(
        key(alloc, b"a").expect(rt, "a key"),
        value_of(rt, alloc, number),
    )
}

// A batch of so many writes that puts 0, 1, 2 and so on at one key.
fn batch<R: Abort>(rt: &R, alloc: Alloc, writes: u64) -> Vec<Op, Alloc> {
    let mut ops = Vec::new(alloc);
    for number in 0..writes {
        ops.push(upsert(rt, alloc, number)).expect(rt, "memory");
    }
    ops
}

// Whether a reply is that a number was there.
fn is_was<R: Abort>(rt: &R, alloc: Alloc, reply: &Reply, number: u64) -> bool {
    match reply {
        Reply::Was(value) => *value == value_of(rt, alloc, number),
        _ => false,
    }
}

// The first write is answered so, and each other one finds what the one before it put.
fn find_one_another<R: Abort>(rt: &R, alloc: Alloc, replies: &[Reply], first: &Reply) {
    assert_equal(rt, replies.len(), WRITES as usize);
    for (number, reply) in replies.iter().enumerate() {
        match number as u64 {
            0 => assert_equal(rt, reply, &*first),
            number => assert_that(rt, is_was(rt, alloc, reply, number - 1)),
        }
    }
}

// So many workers, pieces of so many records, and one write in a chain.
fn options<R: Abort>(rt: &R, workers: u64, piece: u64) -> Options {
    Options::new(workers, piece, 1, 64, 16, 65536, 1048576).expect(rt, "options")
}

// Runs the batch with these options.
fn storm<R: Abort + Threads + Sync>(rt: &R, alloc: Alloc, ops: &[Op], options: Options) {
    let mut index = Index::new(alloc, options).expect(rt, "an index");
    let done = index.run(rt, ops, &OpenGate).expect(rt, "memory");
    assert_that(rt, options.workers() > 1 || done.lost == 0);
    assert_equal(rt, done.replaced, 0);
    find_one_another(rt, alloc, done.replies.as_slice(), &Reply::New);
    holds(rt, &index, &[("a", "1999")]);
}

#[test]
fn writes_of_one_key_are_answered_in_their_order(rt: HostRuntime) {
    let alloc = heap(rt.alloc()).expect(&rt, "a heap");
    let ops = batch(&rt, alloc, WRITES);
    for &workers in WORKERS {
        storm(&rt, alloc, &ops, options(&rt, workers, 1));
        storm(&rt, alloc, &ops, options(&rt, workers, 64));
    }
}

// One worker posts them, since a page gets 4,096 of them or more: so no exchange is lost.
#[test]
fn a_crowd_of_writes_of_one_key_is_posted_by_one_worker(rt: HostRuntime) {
    let alloc = heap(rt.alloc()).expect(&rt, "a heap");
    let ops = batch(&rt, alloc, 4096);
    for &workers in WORKERS {
        let options = options(&rt, workers, 1);
        let mut index = Index::new(alloc, options).expect(&rt, "an index");
        let done = index.run(&rt, &ops, &OpenGate).expect(&rt, "memory");
        assert_equal(&rt, done.lost, 0);
        holds(&rt, &index, &[("a", "4095")]);
    }
}

// Behind a write of 7, which is in the chain when the batch comes, one worker may put a leaf in its place while others post. The
// replies are those without it.
fn storm_beside<R: Abort + Threads + Sync>(rt: &R, alloc: Alloc, ops: &[Op], options: Options) {
    let mut index = Index::new(alloc, options.with_beside(true)).expect(rt, "an index");
    let seven = upsert(rt, alloc, 7);
    index.run(rt, &[seven], &OpenGate).expect(rt, "memory");
    let done = index.run(rt, ops, &OpenGate).expect(rt, "memory");
    assert_that(rt, done.replaced <= 1);
    assert_that(
        rt,
        options.workers() > 1 || done.replaced == 1 && done.lost == 0,
    );
    let seven = Reply::Was(value_of(rt, alloc, 7));
    find_one_another(rt, alloc, done.replies.as_slice(), &seven);
    holds(rt, &index, &[("a", "1999")]);
}

#[test]
fn writes_of_one_key_are_answered_beside_a_consolidation(rt: HostRuntime) {
    let alloc = heap(rt.alloc()).expect(&rt, "a heap");
    let ops = batch(&rt, alloc, WRITES);
    for &workers in WORKERS {
        storm_beside(&rt, alloc, &ops, options(&rt, workers, 1));
        storm_beside(&rt, alloc, &ops, options(&rt, workers, 64));
    }
}
