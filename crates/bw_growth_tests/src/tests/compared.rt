// An index beside the plain program.
use crate::tests::assertions::{assert_equal, assert_that};
use bw_batch::{Done, Index, Op, OpenGate, Options, Pairs, Refusal, Reply};
use bw_model::ReferenceMap;
use std::process::Abort;
use std::thread::Threads;

/// An index, the plain program's map of the same pairs, and how many leaves were replaced beside the posting of batches.
pub struct Compared {
    pub index: Index,
    pub map: ReferenceMap,
    pub replaced: u64,
}

// Not derived: whoever drops one calls this, and its proof is spared the parts.
impl Drop for Compared {
    fn drop(self) {
        let Compared {
            index: _index,
            map: _map,
            replaced: _replaced,
        } = self;
    }
}

// Compares replies.
fn same<R: Abort>(rt: &R, left: &[Reply], right: &[Reply]) {
    assert_equal(rt, left.len(), right.len());
    for (left, right) in left.iter().zip(right) {
        assert_equal(rt, left, right);
    }
}

// Compares the replies to a batch with those of the plain program, which runs it too.
fn answers<R: Abort>(rt: &R, map: &mut ReferenceMap, ops: &[Op], replies: &[Reply]) {
    let expected = map.run(ops).expect(rt, "memory");
    same(rt, replies, expected.as_slice());
}

/// Has the plain program run a batch that was accepted, and compares the replies. Whether it was tidied, or why it was
/// refused.
pub fn follow<R: Abort>(
    rt: &R,
    map: &mut ReferenceMap,
    ops: &[Op],
    outcome: &Result<Done, Refusal>,
) -> Result<bool, Refusal> {
    match outcome {
        Ok(done) => {
            answers(rt, map, ops, done.replies.as_slice());
            Ok(!done.tidy.stopped)
        }
        Err(refusal) => Err(*refusal),
    }
}

/// Compares pairs with those of the plain program.
pub fn has_pairs<R: Abort>(rt: &R, map: &ReferenceMap, pairs: &Pairs) {
    let expected = map.entries().expect(rt, "memory");
    assert_equal(rt, pairs, &expected);
}

/// Compares the pairs of both, and their number.
pub fn are_same<R: Abort>(rt: &R, both: &Compared) {
    let pairs = both.index.contents().expect(rt, "memory");
    has_pairs(rt, &both.map, &pairs);
    assert_equal(rt, both.index.len(), pairs.len() as u64);
}

// How many leaves were replaced beside a batch.
fn replaced(outcome: &Result<Done, Refusal>) -> u64 {
    match outcome {
        Ok(done) => done.replaced,
        Err(_) => 0,
    }
}

/// With one worker some leaf was replaced, where these options ask for that, and else none was.
pub fn has_replaced<R: Abort>(rt: &R, both: &Compared, options: &Options) {
    if !options.beside() {
        assert_equal(rt, both.replaced, 0);
    } else if options.workers() == 1 {
        assert_that(rt, both.replaced > 0);
    }
}

/// Runs a batch by both, and compares the replies and the pairs after it. Why it was refused, if it was: then the plain
/// program doesn't run it.
pub fn run_both<R: Abort + Threads + Sync>(
    rt: &R,
    both: &mut Compared,
    ops: &[Op],
) -> Option<Refusal> {
    let outcome = both.index.run(rt, ops, &OpenGate);
    let followed = follow(rt, &mut both.map, ops, &outcome);
    both.replaced = both.replaced.saturating_add(replaced(&outcome));
    are_same(rt, both);
    followed.err()
}
