// Many leaves, many batches and many records: the sizes of an index that is in use.
use super::numbers::{held, is_was, run, upsert};
use super::trees::{tree_of, working};
use crate::tests::assertions::{assert_equal, assert_that};
use bw_batch::{Done, Index, Op, OpenGate, Refusal, Reply};
use bw_fixtures::{heap, key};
use bw_memory::Alloc;
use std::process::Abort;

// How many leaves there are, of which each begins so much above the one before it.
const LEAVES: u32 = 1024;

const STEP: u32 = 1 << 22;

// An index over so many leaves of one pair, with 64 workers.
fn over_leaves<R: Abort>(rt: &R, alloc: Alloc) -> Index {
    let tree = tree_of(rt, alloc, LEAVES, STEP);
    Index::from_tree(alloc, working(rt, 64, 64), tree).expect(rt, "an index")
}

// Upserts of 65,536 keys, 64 to a leaf, in an order that goes to and fro.
fn scattered<R: Abort>(rt: &R, alloc: Alloc) -> Vec<Op, Alloc> {
    let mut ops = Vec::new(alloc);
    for place in 0..65_536u32 {
        ops.push(upsert(rt, alloc, place.reverse_bits(), place))
            .expect(rt, "memory");
    }
    ops
}

// All keys are new at first but those at which a leaf begins. The first leaf begins at the least key, which isn't among
// them. Later no key is.
#[test]
fn batches_of_65536_writes_make_a_million_records_over_1024_leaves(rt: HostRuntime) {
    let alloc = heap(rt.alloc()).expect(&rt, "a heap");
    let mut index = over_leaves(&rt, alloc);
    let ops = scattered(&rt, alloc);
    assert_equal(&rt, ops.len(), 65_536);
    assert_equal(&rt, run(&rt, &mut index, &ops), 65_536 - 1023);
    for _ in 1..16u64 {
        assert_equal(&rt, run(&rt, &mut index, &ops), 0);
    }
    assert_equal(&rt, held(&rt, &index), 65_537);
    // The first leaf was split, and its records are above those of the writes: so the last batch would pass 2^20 records, and
    // a sweep came before it.
    assert_that(&rt, index.tree().heads().len() > 1025);
    assert_equal(&rt, index.tree().next_stamp(), 65_536);
}

#[test]
fn a_tree_over_100000_leaves_has_all_their_pairs(rt: HostRuntime) {
    let alloc = heap(rt.alloc()).expect(&rt, "a heap");
    let tree = tree_of(&rt, alloc, 100_000, 40_000);
    let least = key(alloc, b"").expect(&rt, "a key");
    let pairs = tree.scan_at(&least, None, u64::MAX, 0);
    assert_equal(&rt, pairs.expect(&rt, "the pairs").len(), 100_000);
}

// At 97 of the batch's keys a leaf begins: at the multiples of 40,000 and of 65,536 below 4,000,000,000. The first leaf begins at
// the least key, which isn't among them.
#[test]
fn an_index_over_100000_leaves_runs_a_batch(rt: HostRuntime) {
    let alloc = heap(rt.alloc()).expect(&rt, "a heap");
    let tree = tree_of(&rt, alloc, 100_000, 40_000);
    let mut index = Index::from_tree(alloc, working(&rt, 4, 64), tree).expect(&rt, "an index");
    assert_equal(&rt, index.shape().expect(&rt, "the pages").len(), 100_001);
    let ops = scattered(&rt, alloc);
    assert_equal(&rt, run(&rt, &mut index, &ops), 65_536 - 97);
    assert_equal(&rt, held(&rt, &index), 100_000 + 65_536 - 97);
}

// How many batches there are, how many writes each has, and how many keys they go round.
const BATCHES: u32 = 10_000;

const WRITES: u32 = 4;

const KEYS: u32 = 64;

// A batch of the writes from this number on.
fn batch<R: Abort>(rt: &R, alloc: Alloc, from: u32) -> Vec<Op, Alloc> {
    let mut ops = Vec::new(alloc);
    for place in 0..WRITES {
        let number = from.wrapping_add(place);
        let op = upsert(rt, alloc, number % KEYS, number);
        ops.push(op).expect(rt, "memory");
    }
    ops
}

fn batches<R: Abort>(rt: &R, alloc: Alloc) -> Vec<Vec<Op, Alloc>, Alloc> {
    let mut batches = Vec::new(alloc);
    for place in 0..BATCHES {
        let ops = batch(rt, alloc, place.wrapping_mul(WRITES));
        batches.push(ops).expect(rt, "memory");
    }
    batches
}

// Behind the first round over the keys each write finds the one of the round before.
fn is_answered(reply: &Reply, number: u32) -> bool {
    match number.checked_sub(KEYS) {
        None => *reply == Reply::New,
        Some(before) => is_was(reply, before),
    }
}

fn check_replies<R: Abort>(rt: &R, from: u32, replies: &[Reply]) {
    assert_eq!(rt; replies.len(), WRITES as usize);
    for (place, reply) in replies.iter().enumerate() {
        assert!(rt; is_answered(reply, from.wrapping_add(place as u32)));
    }
}

// Each batch was accepted, with its replies.
fn check_outcomes<R: Abort>(rt: &R, outcomes: &[Result<Done, Refusal>]) {
    assert_eq!(rt; outcomes.len(), BATCHES as usize);
    for (place, outcome) in outcomes.iter().enumerate() {
        let from = (place as u32).wrapping_mul(WRITES);
        match outcome {
            Ok(done) => check_replies(rt, from, done.replies.as_slice()),
            Err(_) => panic!(rt; "a batch was refused"),
        }
    }
}

#[test]
fn ten_thousand_batches_run_in_turn(rt: HostRuntime) {
    let alloc = heap(rt.alloc()).expect(&rt, "a heap");
    let mut index = Index::new(alloc, working(&rt, 64, 1)).expect(&rt, "an index");
    let batches = batches(&rt, alloc);
    let outcomes = index
        .run_all(&rt, &batches, &OpenGate)
        .expect(&rt, "memory");
    check_outcomes(&rt, &outcomes);
    assert_equal(&rt, held(&rt, &index), 64);
    assert_equal(&rt, index.tree().next_stamp(), 40_000);
}
