// Worked batches.
ghost use Rattle.std.specs.Prelude.{◌≡◌, true};
ghost use Rattle.std.specs.List.{Contains};
ghost use Rattle.bw_tree.specs.Levels.{row};
ghost use Rattle.bw_tree.specs.Stages.{is_adopted};
ghost use Rattle.bw_tree.specs.PageWords.{IsPostedStageOn};

use super::making::{
    BATCH, FLOOR, Pair, Words, adopt, are_pages, batch, has, holds, memory, post, stands, three,
};
use crate::tests::assertions::{assert_equal, assert_that};
use bw_fixtures::TextOp::{Get, Upsert};
use bw_fixtures::{TextOp, key, value};
use bw_group::Grouping;
use bw_key::Memory;
use bw_memory::{Alloc, Heap};
use bw_page::PageId;
use bw_post::{OpenGate, Posting, Tree, post_all};
use bw_tree::{LeafChain, Scans};
use std::process::Abort;
use std::test::Fail;
use std::thread::Threads;

// What the batch's posting leaves.
const WORDS: Words = Words {
    pages: &[1, 2],
    heads: &[FLOOR, FLOOR + 1],
    links: &[1, 2],
};

/// The tree over three leaves with the batch staged, posted and adopted.
pub fn adopted<R: Abort + Threads + Sync>(rt: &R, alloc: Alloc) -> Tree
    ensures { is_adopted result.staged ≡ true }
{
    let mut tree = three(rt, alloc);
    adopt(rt, alloc, &mut tree, BATCH, &WORDS);
    stands(rt, &tree, &[0, FLOOR, FLOOR + 1, 3], 2, 0);
    tree
}

// What the batch leaves.
const AFTER: &[Pair] = &[(b"a", b"1"), (b"b", b"2"), (b"c", b"9")];

const BEFORE: &[Pair] = &[(b"a", b"1"), (b"b", b"2"), (b"c", b"3"), (b"e", b"5")];

#[test]
fn each_stamp_sees_the_map_before_its_operation(rt: HostRuntime) {
    let alloc = memory(&rt, rt.alloc());
    let tree = adopted(&rt, alloc);
    has(
        &rt,
        alloc,
        &tree,
        0,
        &[(b"c", Some(b"3")), (b"e", Some(b"5"))],
    );
    has(
        &rt,
        alloc,
        &tree,
        1,
        &[(b"c", Some(b"9")), (b"e", Some(b"5"))],
    );
    has(&rt, alloc, &tree, 2, &[(b"e", None)]);
    holds(&rt, alloc, &tree, 2, AFTER);
}

/// Undoes a batch where each growth is refused.
pub fn undo_without_memory<R: Abort>(rt: &R, alloc: Alloc, tree: &mut Tree) {
    alloc.refuse(1);
    tree.undo();
    assert_equal(rt, alloc.left(), 1);
    alloc.refuse(0);
}

#[test]
fn an_adopted_batch_is_undone_without_memory(rt: HostRuntime) {
    let alloc = memory(&rt, rt.alloc());
    let mut tree = adopted(&rt, alloc);
    undo_without_memory(&rt, alloc, &mut tree);
    stands(&rt, &tree, &[0, 1, 2, 3], 0, 0);
    holds(&rt, alloc, &tree, 0, BEFORE);
}

#[test]
fn an_adopted_batch_is_accepted(rt: HostRuntime) {
    let alloc = memory(&rt, rt.alloc());
    let mut tree = adopted(&rt, alloc);
    tree.accept();
    stands(&rt, &tree, &[0, FLOOR, FLOOR + 1, 3], 2, 3);
    holds(&rt, alloc, &tree, 3, AFTER);
}

// Runs the batch. Once it is posted, each growth is refused.
fn run_without_memory<R: Abort + Threads + Sync>(rt: &R, alloc: Alloc, tree: &mut Tree)
    requires { tree.old.staged ≡ None }
{
    let ops = batch(rt, alloc, BATCH);
    let Posting { pages, closed, .. } = post(rt, alloc, tree, &ops, 1);
    alloc.refuse(1);
    tree.adopt_on(pages, closed);
    tree.accept();
    assert_equal(rt, alloc.left(), 1);
    alloc.refuse(0);
}

#[test]
fn adopt_and_accept_take_no_memory(rt: HostRuntime) {
    let alloc = memory(&rt, rt.alloc());
    let mut tree = three(&rt, alloc);
    run_without_memory(&rt, alloc, &mut tree);
    stands(&rt, &tree, &[0, FLOOR, FLOOR + 1, 3], 2, 3);
}

// Posts a batch of reads, and adopts it.
fn adopt_reads<R: Abort + Threads + Sync>(rt: &R, alloc: Alloc, tree: &mut Tree)
    requires { tree.old.staged ≡ None }
{
    let ops = batch(rt, alloc, &[Get("e"), Get("a")]);
    let posting = post(rt, alloc, tree, &ops, 1);
    are_pages(rt, posting.homes.pages(), &[0, 2]);
    assert_equal(rt, posting.pages.len(), 0);
    assert_equal(rt, posting.closed.heads().len(), 0);
    tree.adopt_on(posting.pages, posting.closed);
}

#[test]
fn a_batch_of_reads_is_posted_to_no_page(rt: HostRuntime) {
    let alloc = memory(&rt, rt.alloc());
    let mut tree = three(&rt, alloc);
    adopt_reads(&rt, alloc, &mut tree);
    stands(&rt, &tree, &[0, 1, 2, 3], 0, 0);
}

const TWICE: &[TextOp] = &[Upsert("a", "1"), Upsert("a", "2")];

// What the posting of two writes of one key leaves.
const ONE_CHAIN: Words = Words {
    pages: &[0],
    heads: &[FLOOR + 1],
    links: &[0, FLOOR],
};

// A tree of one leaf, in whose chain two writes of one key stand.
fn written_twice<R: Abort + Threads + Sync>(rt: &R, alloc: Alloc) -> Tree
    ensures { is_adopted result.staged ≡ true }
{
    let mut tree = Tree::new(alloc).expect(rt, "memory");
    adopt(rt, alloc, &mut tree, TWICE, &ONE_CHAIN);
    tree
}

// Adopts the words of the one page as those of all pages.
fn adopt_all<R: Abort>(rt: &R, tree: &mut Tree, posting: Posting)
    requires { let closed = posting.closed in
        IsPostedStageOn tree.old tree.old.staged posting.pages.items closed.heads closed.links }
{
    let Posting { pages, closed, .. } = posting;
    assert!(rt; pages.len() == 1);
    assert!(rt; pages[0] == PageId(0));
    assert!(rt; tree.heads().len() == 1);
    tree.adopt(closed);
}

// Posts two puts to the one page. Once they are posted, each growth is refused.
fn adopt_without_memory<R: Abort + Threads + Sync>(rt: &R, alloc: Alloc, tree: &mut Tree)
    requires { tree.old.staged ≡ None }
{
    let ops = batch(rt, alloc, &[Upsert("a", "1"), Upsert("b", "2")]);
    let posting = post(rt, alloc, tree, &ops, 1);
    alloc.refuse(1);
    adopt_all(rt, tree, posting);
}

#[test]
fn the_words_of_all_pages_are_adopted_and_undone(rt: HostRuntime) {
    let alloc = memory(&rt, rt.alloc());
    let mut tree = Tree::new(alloc).expect(&rt, "memory");
    adopt_without_memory(&rt, alloc, &mut tree);
    stands(&rt, &tree, &[FLOOR + 1], 2, 0);
    tree.undo();
    stands(&rt, &tree, &[0], 0, 0);
    assert_equal(&rt, alloc.left(), 1);
}

// Stages the batch, and compares where its stamps and records begin.
fn stages<R: Abort>(rt: &R, alloc: Alloc, tree: &mut Tree)
    requires { tree.old.staged ≡ None }
{
    assert!(rt; tree.next_stamp() == 3);
    let ops = batch(rt, alloc, BATCH);
    assert!(rt; ops.len() == 3);
    let staged = tree.stage(&ops).expect(rt, "memory");
    assert_that(
        rt,
        (staged.base, staged.floor, staged.records) == (3, FLOOR + 2, 2),
    );
}

#[test]
fn the_records_of_a_second_batch_stand_behind_those_of_the_first(rt: HostRuntime) {
    let alloc = memory(&rt, rt.alloc());
    let mut tree = adopted(&rt, alloc);
    tree.accept();
    stages(&rt, alloc, &mut tree);
}

#[test]
fn writes_of_one_key_stand_in_one_chain(rt: HostRuntime) {
    let alloc = memory(&rt, rt.alloc());
    let tree = written_twice(&rt, alloc);
    has(&rt, alloc, &tree, 0, &[(b"a", None)]);
    has(&rt, alloc, &tree, 1, &[(b"a", Some(b"1"))]);
    has(&rt, alloc, &tree, 2, &[(b"a", Some(b"2"))]);
}

// The page of the leaf whose range has a key.
fn leaf_at<R: Abort>(rt: &R, alloc: Alloc, tree: &Tree, bytes: &[u8]) -> PageId
    ensures { Contains (row tree.now.levels 0) result }
{
    tree.route(&key(alloc, bytes).expect(rt, "memory"))
}

// The stamp of a leaf's write at a place.
fn stamp_at(leaf: &LeafChain<'_>, place: usize) -> Option<u64> {
    let write = leaf.writes.get(place)?;
    Some(write.stamp())
}

// Compares what is read of a leaf of all keys without pairs that was written twice.
fn has_two_writes<R: Abort>(rt: &R, leaf: &LeafChain<'_>) {
    assert_equal(rt, leaf.writes.len(), 2);
    assert_equal(rt, stamp_at(leaf, 0), Some(1));
    assert_equal(rt, stamp_at(leaf, 1), Some(0));
    assert_equal(rt, leaf.base.pairs().len(), 0);
    assert_that(rt, leaf.end.is_none() && leaf.side.is_none());
}

#[test]
fn a_leaf_with_writes_is_read_at_once(rt: HostRuntime) {
    let alloc = memory(&rt, rt.alloc());
    let tree = written_twice(&rt, alloc);
    let page = leaf_at(&rt, alloc, &tree, b"a");
    alloc.refuse(1);
    assert_that(&rt, tree.leaf(alloc, page).is_err());
    alloc.refuse(2);
    let leaf = tree.leaf(alloc, page).expect(&rt, "memory");
    assert_equal(&rt, alloc.left(), 1);
    has_two_writes(&rt, &leaf);
}

// The writes of its key are listed, and sorted in a second list.
#[test]
fn a_value_behind_writes_takes_two_growths(rt: HostRuntime) {
    let alloc = memory(&rt, rt.alloc());
    let tree = written_twice(&rt, alloc);
    let at = key(alloc, b"a").expect(&rt, "memory");
    for growth in [1u64, 2] {
        alloc.refuse(growth);
        assert_equal(&rt, tree.value_at(&at, 2).err(), Some(Memory));
        assert_equal(&rt, alloc.left(), 0);
    }
    alloc.refuse(3);
    let found = tree.value_at(&at, 2).expect(&rt, "memory");
    assert_equal(&rt, alloc.left(), 1);
    assert_equal(&rt, found, Some(value(alloc, b"2").expect(&rt, "memory")));
}

// How many growths a scan of all pairs behind the batch takes.
fn growths<R: Abort>(rt: &R, alloc: Alloc, scans: &mut Scans) -> u64 {
    let from = key(alloc, b"").expect(rt, "memory");
    alloc.refuse(1000);
    let pairs = scans.scan(&from, None, 9, 2);
    let left = alloc.left();
    alloc.refuse(0);
    assert_equal(rt, pairs.expect(rt, "memory").len(), 3);
    1000u64.saturating_sub(left)
}

// And a scan back.
fn growths_back<R: Abort>(rt: &R, alloc: Alloc, scans: &mut Scans) -> u64 {
    let from = key(alloc, b"").expect(rt, "memory");
    alloc.refuse(1000);
    let pairs = scans.scan_back(&from, None, 9, 2);
    let left = alloc.left();
    alloc.refuse(0);
    assert_equal(rt, pairs.expect(rt, "memory").len(), 3);
    1000u64.saturating_sub(left)
}

#[test]
fn writes_have_their_effects_once_for_all_scans(rt: HostRuntime) {
    let alloc = memory(&rt, rt.alloc());
    let tree = adopted(&rt, alloc);
    let mut scans = Scans::new(alloc, tree.look());
    assert_that(&rt, growths(&rt, alloc, &mut scans) > 4);
    assert_equal(&rt, growths(&rt, alloc, &mut scans), 2);
    // The last leaf has no pair then, which a scan back keeps in mind.
    assert_equal(&rt, growths_back(&rt, alloc, &mut scans), 3);
    assert_equal(&rt, growths_back(&rt, alloc, &mut scans), 2);
}

#[test]
fn writes_have_their_effects_once_for_all_scans_back(rt: HostRuntime) {
    let alloc = memory(&rt, rt.alloc());
    let tree = adopted(&rt, alloc);
    let mut scans = Scans::new(alloc, tree.look());
    assert_that(&rt, growths_back(&rt, alloc, &mut scans) > 4);
    assert_equal(&rt, growths_back(&rt, alloc, &mut scans), 2);
}

// Reads the leaves of a tree behind the batch, two of which have writes, and drops what was read.
fn drop_scans<R: Abort>(rt: &R, alloc: Alloc, tree: &Tree) {
    let from = key(alloc, b"").expect(rt, "memory");
    let mut scans = Scans::new(alloc, tree.look());
    let pairs = scans.scan(&from, None, 9, 2).expect(rt, "memory");
    assert_equal(rt, pairs.len(), 3);
}

// The same with the tree.
fn drop_adopted<R: Abort + Threads + Sync>(rt: &R, alloc: Alloc) {
    let tree = adopted(rt, alloc);
    let kept = alloc.used();
    drop_scans(rt, alloc, &tree);
    assert_equal(rt, alloc.used(), kept);
}

#[test]
fn what_is_dropped_gives_its_memory_back(rt: HostRuntime) -> Result<(), Fail> {
    let alloc = Heap::within(rt.alloc(), 65536).leak(rt.alloc())?;
    drop_adopted(&rt, alloc);
    assert_equal(&rt, alloc.used(), 0);
    Ok(())
}

// Stages and posts a batch by so many workers where this growth is refused while posting. Whether it was.
fn is_refused<R: Abort + Threads + Sync>(
    rt: &R,
    alloc: Alloc,
    tree: &mut Tree,
    workers: u64,
    growth: u64,
) -> bool
    requires { tree.old.staged ≡ None }
{
    let ops = batch(rt, alloc, BATCH);
    assert!(rt; ops.len() == 3 && tree.next_stamp() == 0);
    tree.stage(&ops).expect(rt, "memory");
    let grouping = Grouping::new(rt, alloc, &ops, 1).expect(rt, "memory");
    alloc.refuse(growth);
    let posting = post_all(rt, alloc, tree, &grouping, 1, workers, &OpenGate);
    alloc.refuse(0);
    posting.is_err()
}

// The same with a tree of its own, which is compared after that.
fn posting_refused<R: Abort + Threads + Sync>(
    rt: &R,
    alloc: Alloc,
    workers: u64,
    growth: u64,
) -> bool {
    let mut tree = three(rt, alloc);
    let refused = is_refused(rt, alloc, &mut tree, workers, growth);
    stands(rt, &tree, &[0, 1, 2, 3], 2, 0);
    refused
}

// Refuses each growth of a posting by so many workers in turn.
fn each_growth_refused<R: Abort + Threads + Sync>(rt: &R, alloc: Alloc, workers: u64) {
    for growth in 1..100 {
        if !posting_refused(rt, alloc, workers, growth) {
            assert_that(rt, growth > 4);
            return;
        }
    }
    panic!(rt; "no run met no refusal")
}

#[test]
fn each_growth_of_posting_is_refused(rt: HostRuntime) {
    let alloc = memory(&rt, rt.alloc());
    each_growth_refused(&rt, alloc, 1);
    each_growth_refused(&rt, alloc, 4);
}
