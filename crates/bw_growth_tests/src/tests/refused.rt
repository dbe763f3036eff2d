// Each growth of memory refused in turn.
use super::compared::{follow, has_pairs};
use super::trees::{LONG, apply, tree_of, working};
use crate::tests::assertions::{assert_equal, assert_that};
use bw_batch::{Done, Index, Memory, Op, OpenGate, Options, Refusal};
use bw_fixtures::TextOp::{Delete, Get, Rscan, Scan, SwapIf, Update, Upsert};
use bw_fixtures::TextReply::{Absent, Found, New, Pairs, Was};
use bw_fixtures::{
    TextOp, TextPair, TextReply, are_replies, have_texts, heap, op, ops, was_refused,
};
use bw_memory::Alloc;
use bw_model::ReferenceMap;
use std::process::Abort;
use std::thread::Threads;

// The pairs that each piece of work starts from.
const BEFORE: &[TextPair] = &[("a", "1"), (LONG, LONG)];

// An index, what it holds, and what is answered to the batch there.
struct Start {
    is_over_leaves: bool,
    before: &'static [TextPair],
    replies: &'static [TextReply],
}

// The batch.
const BATCH: &[TextOp] = &[
    Upsert("c", LONG),
    Get(LONG),
    Delete("a"),
    Delete("b"),
    Update("d", LONG),
    Scan("", None, 9),
];

const ON_ONE_LEAF: Start = Start {
    is_over_leaves: false,
    before: BEFORE,
    replies: &[
        New,
        Found(LONG),
        Was("1"),
        Absent,
        Absent,
        Pairs(&[(LONG, LONG), ("c", LONG)]),
    ],
};

// The same over three leaves with a pair each.
const OVER_LEAVES: Start = Start {
    is_over_leaves: true,
    before: &[("", "1"), ("1", "1"), ("a", "1"), (LONG, LONG), ("b", "1")],
    replies: &[
        New,
        Found(LONG),
        Was("1"),
        Was("1"),
        Absent,
        Pairs(&[("", "1"), ("1", "1"), (LONG, LONG), ("c", LONG)]),
    ],
};

// Runs a batch of these texts.
fn run<R: Abort + Threads + Sync>(rt: &R, alloc: Alloc, index: &mut Index, texts: &[TextOp]) {
    let ops = ops(alloc, texts).expect(rt, "memory");
    index.run(rt, &ops, &OpenGate).expect(rt, "memory");
}

// Puts the pairs into an index.
fn fill<R: Abort + Threads + Sync>(rt: &R, alloc: Alloc, index: &mut Index) {
    for (at, text) in BEFORE {
        run(rt, alloc, index, &[Upsert(at, text)]);
    }
}

// An empty index, or one over three leaves.
fn unfilled<R: Abort>(rt: &R, alloc: Alloc, options: Options, is_over_leaves: bool) -> Index {
    if is_over_leaves {
        let tree = tree_of(rt, alloc, 3, 49);
        Index::from_tree(alloc, options, tree).expect(rt, "an index")
    } else {
        Index::new(alloc, options).expect(rt, "an index")
    }
}

// So many workers, with leaves consolidated beside the posting: a chain of one write is long enough.
fn beside<R: Abort>(rt: &R, workers: u64) -> Options {
    Options::new(workers, 1, 2, 64, 16, 65536, 1048576)
        .expect(rt, "options")
        .with_beside(true)
}

// An index with the pairs put in.
fn filled<R: Abort + Threads + Sync>(
    rt: &R,
    alloc: Alloc,
    options: Options,
    is_over_leaves: bool,
) -> Index {
    let mut index = unfilled(rt, alloc, options, is_over_leaves);
    fill(rt, alloc, &mut index);
    index
}

// Compares the pairs of an index.
fn holds<R: Abort>(rt: &R, index: &Index, pairs: &[TextPair]) {
    let contents = index.contents().expect(rt, "memory");
    assert_that(rt, have_texts(&contents, pairs));
}

// Makes an index where this growth is refused. Whether it was.
fn is_made_refused<R: Abort>(rt: &R, alloc: Alloc, options: Options, growth: u64) -> bool {
    alloc.refuse(growth);
    let outcome = Index::new(alloc, options);
    let was_refused = was_refused(alloc, growth);
    match outcome {
        Ok(index) => {
            assert_that(rt, !was_refused);
            holds(rt, &index, &[]);
        }
        Err(_) => assert_that(rt, was_refused),
    }
    was_refused
}

#[test]
fn a_new_index_meets_each_refusal(rt: HostRuntime) {
    let alloc = heap(rt.alloc()).expect(&rt, "a heap");
    for growth in 1..1000 {
        let options = Options::new(4, 64, 8, 64, 16, 3, 1048576).expect(&rt, "options");
        if !is_made_refused(&rt, alloc, options, growth) {
            return;
        }
    }
    panic!(rt; "no call met no refusal");
}

// Reads all pairs where this growth is refused. Whether it was.
fn is_read_refused<R: Abort>(rt: &R, alloc: Alloc, index: &Index, growth: u64) -> bool {
    alloc.refuse(growth);
    let outcome = index.contents();
    let was_refused = was_refused(alloc, growth);
    match outcome {
        Ok(pairs) => {
            assert_that(rt, !was_refused);
            assert_that(rt, growth > 2);
            assert_that(rt, have_texts(&pairs, BEFORE));
        }
        Err(Memory) => assert_that(rt, was_refused),
    }
    was_refused
}

#[test]
fn contents_meet_each_refusal(rt: HostRuntime) {
    let alloc = heap(rt.alloc()).expect(&rt, "a heap");
    let index = filled(&rt, alloc, working(&rt, 1, 1), false);
    for growth in 1..1000 {
        if !is_read_refused(&rt, alloc, &index, growth) {
            return;
        }
    }
    panic!(rt; "no call met no refusal");
}

// Compares what the batch answered. If anything met the refusal, it was tidying behind it, or a leaf that was to be
// consolidated beside it.
fn stands<R: Abort>(rt: &R, done: &Done, start: &Start, was_refused: bool, is_beside: bool) {
    assert_that(rt, was_refused || !done.tidy.stopped);
    assert_that(rt, is_beside || done.tidy.stopped == was_refused);
    assert_that(rt, are_replies(done.replies.as_slice(), start.replies));
}

// Compares what an index holds where the batch was refused, and runs it again.
fn goes_on<R: Abort + Threads + Sync>(rt: &R, index: &mut Index, ops: &[Op], start: &Start) {
    holds(rt, index, start.before);
    let done = index.run(rt, ops, &OpenGate).expect(rt, "ample memory");
    assert_that(rt, are_replies(done.replies.as_slice(), start.replies));
}

// Runs the batch where this growth is refused, and then again. Whether it was refused.
fn run_refused<R: Abort + Threads + Sync>(
    rt: &R,
    alloc: Alloc,
    index: &mut Index,
    growth: u64,
    start: &Start,
    is_beside: bool,
) -> bool {
    let ops = ops(alloc, BATCH).expect(rt, "memory");
    alloc.refuse(growth);
    let outcome = index.run(rt, &ops, &OpenGate);
    let was_refused = was_refused(alloc, growth);
    match outcome {
        Ok(done) => {
            assert_that(rt, growth > 5);
            stands(rt, &done, start, was_refused, is_beside);
        }
        Err(refusal) => {
            assert_equal(rt, refusal, Refusal::Memory);
            assert_that(rt, was_refused);
            goes_on(rt, index, &ops, start);
        }
    }
    was_refused
}

// The same on an index of its own.
fn start_refused<R: Abort + Threads + Sync>(
    rt: &R,
    alloc: Alloc,
    options: Options,
    growth: u64,
    start: &Start,
) -> bool {
    let mut index = filled(rt, alloc, options, start.is_over_leaves);
    run_refused(rt, alloc, &mut index, growth, start, options.beside())
}

// Refuses each growth of the batch in turn, with these options.
fn refuse_in_turn<R: Abort + Threads + Sync>(
    rt: &R,
    alloc: Alloc,
    options: Options,
    start: &Start,
) {
    for growth in 1..1000 {
        if !start_refused(rt, alloc, options, growth, start) {
            return;
        }
    }
    panic!(rt; "no batch met no refusal");
}

#[test]
fn a_batch_meets_each_refusal(rt: HostRuntime) {
    let alloc = heap(rt.alloc()).expect(&rt, "a heap");
    refuse_in_turn(&rt, alloc, working(&rt, 1, 1), &ON_ONE_LEAF);
    refuse_in_turn(&rt, alloc, working(&rt, 4, 1), &ON_ONE_LEAF);
}

#[test]
fn a_batch_over_leaves_meets_each_refusal(rt: HostRuntime) {
    let alloc = heap(rt.alloc()).expect(&rt, "a heap");
    refuse_in_turn(&rt, alloc, working(&rt, 1, 1), &OVER_LEAVES);
    refuse_in_turn(&rt, alloc, working(&rt, 4, 1), &OVER_LEAVES);
}

#[test]
fn a_batch_beside_consolidations_meets_each_refusal(rt: HostRuntime) {
    let alloc = heap(rt.alloc()).expect(&rt, "a heap");
    refuse_in_turn(&rt, alloc, beside(&rt, 1), &ON_ONE_LEAF);
    refuse_in_turn(&rt, alloc, beside(&rt, 4), &ON_ONE_LEAF);
    refuse_in_turn(&rt, alloc, beside(&rt, 4), &OVER_LEAVES);
}

// Batches that put a value at a key which may have another.
const FIRST: &[TextOp] = &[
    Upsert("c", LONG),
    SwapIf(LONG, LONG, "2"),
    Delete("a"),
    Rscan("", None, 9),
];

const SECOND: &[TextOp] = &[
    Upsert("c", LONG),
    SwapIf(LONG, LONG, "3"),
    Delete("a"),
    Rscan("", None, 9),
];

fn batches<R: Abort>(rt: &R, alloc: Alloc) -> Vec<Vec<Op, Alloc>, Alloc> {
    let mut batches = Vec::new(alloc);
    for texts in [FIRST, SECOND] {
        let ops = ops(alloc, texts).expect(rt, "memory");
        batches.push(ops).expect(rt, "memory");
    }
    batches
}

// The plain program's map of the pairs before.
fn map_before<R: Abort>(rt: &R, alloc: Alloc) -> ReferenceMap {
    let mut map = ReferenceMap::new(alloc);
    for (at, text) in BEFORE {
        apply(
            rt,
            &mut map,
            &op(alloc, Upsert(at, text)).expect(rt, "memory"),
        );
    }
    map
}

// Whether a batch was accepted and tidied. The plain program runs it, where it was accepted.
fn is_whole<R: Abort>(
    rt: &R,
    map: &mut ReferenceMap,
    ops: &[Op],
    outcome: &Result<Done, Refusal>,
) -> bool {
    match follow(rt, map, ops, outcome) {
        Ok(is_tidied) => is_tidied,
        Err(refusal) => {
            assert_equal(rt, refusal, Refusal::Memory);
            false
        }
    }
}

// Compares the replies with those of the plain program, which runs the accepted batches. Answers how many were refused,
// or not tidied.
fn count_refused<R: Abort>(
    rt: &R,
    map: &mut ReferenceMap,
    batches: &[Vec<Op, Alloc>],
    outcomes: &[Result<Done, Refusal>],
) -> u64 {
    let mut refused = 0u64;
    assert_equal(rt, outcomes.len(), batches.len());
    for (ops, outcome) in batches.iter().zip(outcomes) {
        if !is_whole(rt, map, ops, outcome) {
            refused = refused.saturating_add(1);
        }
    }
    refused
}

// Compares the pairs in the end with those of the plain program's map.
fn ends_as<R: Abort>(rt: &R, index: &Index, map: &ReferenceMap) {
    let pairs = index.contents().expect(rt, "memory");
    has_pairs(rt, map, &pairs);
}

// Runs the batches where this growth is refused. Whether it was.
fn run_all_refused<R: Abort + Threads + Sync>(
    rt: &R,
    alloc: Alloc,
    index: &mut Index,
    batches: &[Vec<Op, Alloc>],
    growth: u64,
    is_beside: bool,
) -> bool {
    let mut map = map_before(rt, alloc);
    alloc.refuse(growth);
    let outcomes = index.run_all(rt, batches, &OpenGate);
    let was_refused = was_refused(alloc, growth);
    let refused = match outcomes {
        Ok(outcomes) => count_refused(rt, &mut map, batches, &outcomes),
        // No batch ran.
        Err(Memory) => 1,
    };
    // A leaf that is not consolidated beside the posting refuses nothing.
    assert_that(
        rt,
        refused == was_refused as u64 || is_beside && refused == 0,
    );
    ends_as(rt, index, &map);
    was_refused
}

// The same on an index of its own.
fn start_all_refused<R: Abort + Threads + Sync>(
    rt: &R,
    alloc: Alloc,
    options: Options,
    batches: &[Vec<Op, Alloc>],
    growth: u64,
) -> bool {
    let mut index = filled(rt, alloc, options, false);
    run_all_refused(rt, alloc, &mut index, batches, growth, options.beside())
}

// Refuses each growth of the batches in turn, with these options.
fn refuse_all_in_turn<R: Abort + Threads + Sync>(rt: &R, alloc: Alloc, options: Options) {
    let batches = batches(rt, alloc);
    for growth in 1..1000 {
        if !start_all_refused(rt, alloc, options, &batches, growth) {
            assert_that(rt, growth > 10);
            return;
        }
    }
    panic!(rt; "no batches met no refusal");
}

#[test]
fn batches_meet_each_refusal(rt: HostRuntime) {
    let alloc = heap(rt.alloc()).expect(&rt, "a heap");
    refuse_all_in_turn(&rt, alloc, working(&rt, 1, 1));
    refuse_all_in_turn(&rt, alloc, working(&rt, 4, 1));
}

#[test]
fn batches_beside_consolidations_meet_each_refusal(rt: HostRuntime) {
    let alloc = heap(rt.alloc()).expect(&rt, "a heap");
    refuse_all_in_turn(&rt, alloc, beside(&rt, 1));
    refuse_all_in_turn(&rt, alloc, beside(&rt, 4));
}
