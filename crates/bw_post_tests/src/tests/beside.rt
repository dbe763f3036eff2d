// Leaves that are consolidated beside the posting of a batch.
ghost use Rattle.std.specs.Prelude.{◌≡◌, None, true};
ghost use Rattle.bw_tree.specs.Stages.{is_adopted, staged_on};
ghost use Rattle.bw_post.specs.Posting.{IsPostedBeside};

use super::making::{BATCH, FLOOR, Pair, batch, has, holds, memory, stands, three};
use super::rows::undo_without_memory;
use crate::tests::assertions::{assert_equal, assert_that};
use bw_fixtures::TextOp;
use bw_fixtures::TextOp::Upsert;
use bw_group::Grouping;
use bw_memory::Alloc;
use bw_model::Op;
use bw_page::PageId;
use bw_post::{OpenGate, Posting, Tree, post_beside};
use std::process::Abort;
use std::thread::Threads;

// Stages a batch and posts it by one worker, beside whom leaves with two writes are consolidated.
fn post<R: Abort + Threads + Sync>(rt: &R, alloc: Alloc, tree: &mut Tree, ops: &[Op]) -> Posting
    requires { tree.old.staged ≡ None }
    ensures staged { tree.new ≡ staged_on tree.old ops.now }
    ensures posted { IsPostedBeside tree.new result.folded.items result.pages.items
        result.closed.heads result.closed.links }
{
    assert!(rt; ops.len() <= 65536 && tree.next_stamp() <= 1000);
    tree.stage(ops).expect(rt, "memory");
    let grouping = Grouping::new(rt, alloc, ops, 1).expect(rt, "memory");
    let posting = post_beside(rt, alloc, tree, &grouping, 1, 1, &OpenGate, 2);
    posting.expect(rt, "memory")
}

// Runs the batch of two writes, none of whose leaves is long enough.
fn write<R: Abort + Threads + Sync>(rt: &R, alloc: Alloc, tree: &mut Tree)
    requires { tree.old.staged ≡ None }
    ensures { tree.new.staged ≡ None }
{
    let ops = batch(rt, alloc, BATCH);
    let posting = post(rt, alloc, tree, &ops);
    assert_that(rt, posting.folded.is_empty());
    tree.adopt_folded(posting.pages, posting.closed, posting.folded);
    stands(rt, tree, &[0, FLOOR, FLOOR + 1, 3], 2, 0);
    tree.accept();
}

// The tree over three leaves behind that batch: pages 1 and 2 have a write.
fn written<R: Abort + Threads + Sync>(rt: &R, alloc: Alloc) -> Tree
    ensures { result.staged ≡ None }
{
    let mut tree = three(rt, alloc);
    write(rt, alloc, &mut tree);
    assert_equal(rt, tree.next_stamp(), 3);
    tree
}

// Which of the three leaves may be consolidated.
fn spares_are<R: Abort>(rt: &R, tree: &Tree, chain_max: u64, wanted: &[Option<u64>]) {
    let all = tree.spare(chain_max).expect(rt, "memory");
    assert!(rt; all.len() == 4);
    assert_equal(rt, &all[..3], wanted);
    assert_equal(rt, all[3], None);
}

#[test]
fn leaves_with_half_as_many_writes_as_a_chain_may_have_have_spares(rt: HostRuntime) {
    let alloc = memory(&rt, rt.alloc());
    let tree = written(&rt, alloc);
    for chain_max in [0, 1, 2] {
        spares_are(&rt, &tree, chain_max, &[None, Some(1), Some(2)]);
    }
    for chain_max in [3, 1024, u64::MAX] {
        spares_are(&rt, &tree, chain_max, &[None, None, None]);
    }
}

const BEHIND_ONE: &[Pair] = &[(b"a", b"1"), (b"b", b"2"), (b"c", b"9")];

const BEHIND_TWO: &[Pair] = &[(b"a", b"1"), (b"b", b"2"), (b"c", b"7")];

const ONE_PUT: &[TextOp] = &[Upsert("c", "7")];

// Stages and posts an upsert of c 7, beside which the leaf of c is consolidated, and adopts it.
fn adopt<R: Abort + Threads + Sync>(rt: &R, alloc: Alloc, tree: &mut Tree)
    requires { tree.old.staged ≡ None }
    ensures { is_adopted tree.new.staged ≡ true }
{
    let ops = batch(rt, alloc, ONE_PUT);
    let posting = post(rt, alloc, tree, &ops);
    assert_equal(rt, posting.closed.links(), [1].as_slice());
    assert_equal(rt, posting.closed.swapped(), [0].as_slice());
    assert_equal(rt, posting.lost, 0);
    assert_equal(rt, posting.folded.len(), 1);
    alloc.refuse(1);
    tree.adopt_folded(posting.pages, posting.closed, posting.folded);
    assert_equal(rt, alloc.left(), 1);
    alloc.refuse(0);
}

// The tree with that batch adopted.
fn adopted<R: Abort + Threads + Sync>(rt: &R, alloc: Alloc) -> Tree
    ensures { is_adopted result.staged ≡ true }
{
    let mut tree = written(rt, alloc);
    adopt(rt, alloc, &mut tree);
    stands(rt, &tree, &[0, FLOOR + 2, FLOOR + 1, 3], 3, 3);
    tree
}

// Compares how many pairs and writes the leaf of c has.
fn leaf_has<R: Abort>(rt: &R, tree: &Tree, pairs: usize, writes: usize) {
    assert!(rt; tree.heads().len() == 4);
    assert_equal(rt, tree.entries(PageId(1)), pairs);
    assert_equal(rt, tree.count_writes(PageId(1)), writes);
}

#[test]
fn a_leaf_takes_the_place_of_its_chain_when_its_batch_is_adopted(rt: HostRuntime) {
    let alloc = memory(&rt, rt.alloc());
    let mut tree = adopted(&rt, alloc);
    leaf_has(&rt, &tree, 1, 1);
    holds(&rt, alloc, &tree, 3, BEHIND_ONE);
    holds(&rt, alloc, &tree, 4, BEHIND_TWO);
    alloc.refuse(1);
    tree.accept();
    assert_equal(&rt, alloc.left(), 1);
    alloc.refuse(0);
    stands(&rt, &tree, &[0, FLOOR + 2, FLOOR + 1, 3], 3, 4);
    leaf_has(&rt, &tree, 1, 1);
    holds(&rt, alloc, &tree, 4, BEHIND_TWO);
}

#[test]
fn the_chain_is_there_again_when_its_batch_is_undone(rt: HostRuntime) {
    let alloc = memory(&rt, rt.alloc());
    let mut tree = adopted(&rt, alloc);
    undo_without_memory(&rt, alloc, &mut tree);
    stands(&rt, &tree, &[0, FLOOR, FLOOR + 1, 3], 2, 3);
    leaf_has(&rt, &tree, 1, 1);
    has(&rt, alloc, &tree, 0, &[(b"c", Some(b"3"))]);
    holds(&rt, alloc, &tree, 3, BEHIND_ONE);
}

// Each growth of memory is refused in turn: of the posting, which is refused then or leaves a leaf out, and of nothing behind it.
fn is_refused<R: Abort + Threads + Sync>(rt: &R, alloc: Alloc, tree: &mut Tree, growth: u64) -> bool
    requires { tree.old.staged ≡ None }
{
    let ops = batch(rt, alloc, ONE_PUT);
    assert!(rt; ops.len() == 1 && tree.next_stamp() == 3);
    tree.stage(&ops).expect(rt, "memory");
    let grouping = Grouping::new(rt, alloc, &ops, 1).expect(rt, "memory");
    alloc.refuse(growth);
    let posted = post_beside(rt, alloc, tree, &grouping, 1, 1, &OpenGate, 2);
    let met = alloc.left() == 0;
    alloc.refuse(0);
    let Ok(posting) = posted else {
        tree.undo();
        holds(rt, alloc, tree, 3, BEHIND_ONE);
        return met;
    };
    tree.adopt_folded(posting.pages, posting.closed, posting.folded);
    tree.accept();
    holds(rt, alloc, tree, 4, BEHIND_TWO);
    met
}

// The same with a tree of its own.
fn post_refused<R: Abort + Threads + Sync>(rt: &R, alloc: Alloc, growth: u64) -> bool {
    let mut tree = written(rt, alloc);
    is_refused(rt, alloc, &mut tree, growth)
}

#[test]
fn each_growth_beside_posting_is_refused_in_turn(rt: HostRuntime) {
    let alloc = memory(&rt, rt.alloc());
    for growth in 1..100 {
        if !post_refused(&rt, alloc, growth) {
            assert_that(&rt, growth > 5);
            return;
        }
    }
    panic!(rt; "no run met no refusal")
}
