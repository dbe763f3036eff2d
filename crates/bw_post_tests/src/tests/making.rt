// A tree over three leaves, batches, and what tests compare with.
ghost use Rattle.std.specs.Prelude.{◌≡◌, ◌<◌, ◌≤◌, true, None};
ghost use Rattle.bw_tree.specs.Stages.{is_adopted, staged_on};
ghost use Rattle.bw_tree.specs.PageWords.{IsPostedStageOn};

use crate::tests::assertions::{assert_equal, assert_that};
use bw_fixtures::TextOp::{Delete, Scan, Upsert};
use bw_fixtures::{TextOp, are, heap, key, ops, three_leaves, value};
use bw_group::Grouping;
use bw_memory::Alloc;
use bw_model::Op;
use bw_page::PageId;
use bw_post::{OpenGate, Posting, Tree, post_all};
use std::alloc::Global;
use std::process::Abort;
use std::thread::Threads;

/// A key and its value.
pub type Pair = (&'static [u8], &'static [u8]);

/// A key, and the value that is found there.
pub type Found = (&'static [u8], Option<&'static [u8]>);

/// The word of the first record.
pub const FLOOR: u64 = 4294967296;

/// A heap of a test's own.
pub fn memory<R: Abort>(rt: &R, global: Global) -> Alloc {
    heap(global).expect(rt, "memory")
}

/// The tree over three leaves: a 1 and b 2; c 3; e 5.
pub fn three<R: Abort>(rt: &R, alloc: Alloc) -> Tree
    ensures next { result.next ≡ 0 }
    ensures staged { result.staged ≡ None }
{
    let leaves = three_leaves(alloc, b"3").expect(rt, "memory");
    Tree::from_level(alloc, leaves).expect(rt, "memory")
}

/// Compares a tree's mapping words, how many records it has, and its next stamp.
pub fn stands<R: Abort>(rt: &R, tree: &Tree, heads: &[u64], records: usize, next: u64) {
    assert_equal(rt, tree.heads(), heads);
    assert_equal(rt, tree.records(), records);
    assert_equal(rt, tree.next_stamp(), next);
}

/// A put of a value at a key.
pub fn upsert<R: Abort>(rt: &R, alloc: Alloc, bytes: &[u8], put: &[u8]) -> Op {
    Op::Upsert(
        key(alloc, bytes).expect(rt, "memory"),
        value(alloc, put).expect(rt, "memory"),
    )
}

/// Two writes and a read.
pub const BATCH: &[TextOp] = &[Upsert("c", "9"), Delete("e"), Scan("", None, 9)];

/// The operations of these texts.
pub fn batch<R: Abort>(rt: &R, alloc: Alloc, texts: &[TextOp]) -> Vec<Op, Alloc> {
    ops(alloc, texts).expect(rt, "a batch")
}

// Compares the value at a key as of a stamp.
fn has_at<R: Abort>(
    rt: &R,
    alloc: Alloc,
    tree: &Tree,
    stamp: u64,
    bytes: &[u8],
    wanted: Option<&'static [u8]>,
) {
    let found = tree
        .value_at(&key(alloc, bytes).expect(rt, "memory"), stamp)
        .expect(rt, "memory");
    assert_equal(rt, found.as_ref().map(|value| value.bytes()), wanted);
}

/// Compares the values at keys as of a stamp.
pub fn has<R: Abort>(rt: &R, alloc: Alloc, tree: &Tree, stamp: u64, wanted: &[Found]) {
    for (bytes, value) in wanted {
        has_at(rt, alloc, tree, stamp, bytes, *value);
    }
}

/// Compares the pairs of all keys as of a stamp.
pub fn holds<R: Abort>(rt: &R, alloc: Alloc, tree: &Tree, stamp: u64, wanted: &[Pair]) {
    let from = key(alloc, b"").expect(rt, "memory");
    let pairs = tree.scan_at(&from, None, 9, stamp).expect(rt, "memory");
    assert_that(rt, are(&pairs, wanted));
}

/// Compares pages.
pub fn are_pages<R: Abort>(rt: &R, pages: &[PageId], wanted: &[u32]) {
    assert_equal(rt, pages.len(), wanted.len());
    for (page, wanted) in pages.iter().zip(wanted) {
        assert_equal(rt, page.0, *wanted);
    }
}

/// Stages a batch and posts it by one worker.
pub fn post<R: Abort + Threads + Sync>(
    rt: &R,
    alloc: Alloc,
    tree: &mut Tree,
    ops: &[Op],
    piece: u64,
) -> Posting
    requires none { tree.old.staged ≡ None }
    requires piece { (0 < piece) × (piece ≤ 4096) }
    ensures staged { tree.new ≡ staged_on tree.old ops.now }
    ensures posted { IsPostedStageOn tree.new tree.new.staged result.pages.items
        result.closed.heads result.closed.links }
{
    assert!(rt; ops.len() <= 65536 && tree.next_stamp() <= 1000);
    tree.stage(ops).expect(rt, "memory");
    let grouping = Grouping::new(rt, alloc, ops, 1).expect(rt, "memory");
    let posting = post_all(rt, alloc, tree, &grouping, piece, 1, &OpenGate);
    posting.expect(rt, "memory")
}

/// What the posting of a batch leaves: the pages that get a record, their words, and the links of the records.
pub struct Words {
    pub pages: &'static [u32],
    pub heads: &'static [u64],
    pub links: &'static [u64],
}

// Compares what a posting left.
fn compare<R: Abort>(rt: &R, posting: &Posting, wanted: &Words) {
    are_pages(rt, &posting.pages, wanted.pages);
    assert_equal(rt, posting.closed.heads(), wanted.heads);
    assert_equal(rt, posting.closed.links(), wanted.links);
}

/// Stages a batch of texts, posts it one by one, compares what that leaves, and adopts it.
pub fn adopt<R: Abort + Threads + Sync>(
    rt: &R,
    alloc: Alloc,
    tree: &mut Tree,
    texts: &[TextOp],
    wanted: &Words,
)
    requires { tree.old.staged ≡ None }
    ensures { is_adopted tree.new.staged ≡ true }
{
    let ops = batch(rt, alloc, texts);
    let posting = post(rt, alloc, tree, &ops, 1);
    compare(rt, &posting, wanted);
    let Posting { pages, closed, .. } = posting;
    tree.adopt_on(pages, closed);
}
