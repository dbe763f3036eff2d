// Batches that are refused for their length.
use super::running::{
    Row, holds, index_up_to, is_accepted, is_too_long, refusal_of, refusal_of_texts, run,
};
use super::turns::all_ops;
use crate::tests::assertions::assert_equal;
use bw_batch::{Done, Index, Op, OpenGate, Refusal};
use bw_fixtures::TextOp::{Delete, Get, Upsert};
use bw_fixtures::TextReply::{Found, New, Was};
use bw_fixtures::{TextOp, TextPair, heap, ops};
use bw_memory::Alloc;
use std::process::Abort;
use std::thread::Threads;

const THREE: &[Row] = &[
    (Upsert("a", "1"), New),
    (Upsert("b", "2"), New),
    (Upsert("c", "3"), New),
];

// A batch of four operations that would change what stands there.
const FOUR: &[TextOp] = &[Upsert("a", "9"), Delete("b"), Delete("c"), Get("a")];

const READS: &[Row] = &[
    (Get("a"), Found("1")),
    (Get("b"), Found("2")),
    (Get("c"), Found("3")),
];

const AFTER: &[TextPair] = &[("a", "1"), ("b", "2"), ("c", "3")];

#[test]
fn a_batch_that_is_too_long_changes_nothing(rt: HostRuntime) {
    let alloc = heap(rt.alloc()).expect(&rt, "a heap");
    let mut index = index_up_to(&rt, alloc, 3);
    run(&rt, alloc, &mut index, THREE);
    let refusal = refusal_of_texts(&rt, alloc, &mut index, FOUR);
    assert_equal(&rt, refusal, Some(Refusal::TooLong { ops: 4, most: 3 }));
    holds(&rt, &index, AFTER);
    run(&rt, alloc, &mut index, READS);
    holds(&rt, &index, AFTER);
}

// Batches that put a value, the second of which has a delete behind the put.
const FIRST: &[Row] = &[(Upsert("a", "1"), New)];

const SECOND: &[Row] = &[(Upsert("a", "2"), Was("1")), (Delete("a"), Was("2"))];

const THIRD: &[Row] = &[(Upsert("a", "3"), Was("1"))];

// The first batch and the third one were accepted. The second one was too long.
fn is_one_refused<R: Abort>(rt: &R, outcomes: &[Result<Done, Refusal>]) {
    assert_eq!(rt; outcomes.len(), 3);
    is_accepted(rt, &outcomes[0], FIRST);
    assert!(rt; is_too_long(&outcomes[1], 2, 1));
    is_accepted(rt, &outcomes[2], THIRD);
}

#[test]
fn batches_go_on_after_one_that_is_too_long(rt: HostRuntime) {
    let alloc = heap(rt.alloc()).expect(&rt, "a heap");
    let batches = all_ops(&rt, alloc, &[FIRST, SECOND, THIRD]);
    let mut index = index_up_to(&rt, alloc, 1);
    let outcomes = index
        .run_all(&rt, &batches, &OpenGate)
        .expect(&rt, "memory");
    is_one_refused(&rt, &outcomes);
    holds(&rt, &index, &[("a", "3")]);
}

#[test]
fn a_length_is_tested_before_memory_is_asked_for(rt: HostRuntime) {
    let alloc = heap(rt.alloc()).expect(&rt, "a heap");
    let mut index = index_up_to(&rt, alloc, 1);
    let two = ops(alloc, &[Upsert("a", "1"), Get("a")]).expect(&rt, "memory");
    alloc.refuse(1);
    let refusal = refusal_of(&rt, &mut index, &two);
    assert_equal(&rt, refusal, Some(Refusal::TooLong { ops: 2, most: 1 }));
    assert_equal(&rt, alloc.left(), 1);
    alloc.refuse(0);
    run(&rt, alloc, &mut index, FIRST);
}

// Adds reads of one key.
fn add_gets<R: Abort>(rt: &R, alloc: Alloc, ops: &mut Vec<Op, Alloc>, count: u64) {
    for _ in 0..count {
        let get = bw_fixtures::op(alloc, Get("a")).expect(rt, "memory");
        ops.push(get).expect(rt, "memory");
    }
}

// How many replies there are to a batch.
fn count_replies<R: Abort + Threads + Sync>(rt: &R, index: &mut Index, ops: &[Op]) -> usize {
    let done = index.run(rt, ops, &OpenGate).expect(rt, "memory");
    done.replies.as_slice().len()
}

#[test]
fn a_batch_has_at_most_65536_operations(rt: HostRuntime) {
    let alloc = heap(rt.alloc()).expect(&rt, "a heap");
    let mut index = index_up_to(&rt, alloc, 65536);
    let mut ops = Vec::new(alloc);
    add_gets(&rt, alloc, &mut ops, 65536);
    assert_equal(&rt, count_replies(&rt, &mut index, &ops), 65536);
    add_gets(&rt, alloc, &mut ops, 1);
    let refusal = refusal_of(&rt, &mut index, &ops);
    let expected = Refusal::TooLong {
        ops: 65537,
        most: 65536,
    };
    assert_equal(&rt, refusal, Some(expected));
}
