// Trees of one leaf and of three, and what tests compare with.
ghost use Rattle.std.specs.Prelude.{◌≡◌, true, [], None};
ghost use Rattle.bw_level.specs.Splits.{HasNoRemovedAt};
ghost use Rattle.bw_tree.specs.Making.{AreAbutting};
ghost use Rattle.bw_look.specs.PageStates.{IsPlain};

use crate::tests::assertions::{assert_equal, assert_that};
use bw_fixtures::{leaf_of, pair, two};
pub use bw_fixtures::{LONG, are};
use bw_key::{Key, Memory};
use bw_memory::Alloc;
use bw_model::{Op, Value};
use bw_tree::{Leaf, PageId, Staged, Tree};
use std::alloc::Global;
use std::process::Abort;

/// A heap of its own, which is never freed.
pub fn heap<R: Abort>(rt: &R, global: Global) -> Alloc {
    bw_fixtures::heap(global).expect(rt, "a heap")
}

pub fn key<R: Abort>(rt: &R, alloc: Alloc, bytes: &[u8]) -> Key
    ensures { result ≡ bytes.now }
{
    bw_fixtures::key(alloc, bytes).expect(rt, "a key")
}

pub fn value<R: Abort>(rt: &R, alloc: Alloc, bytes: &[u8]) -> Value {
    bw_fixtures::value(alloc, bytes).expect(rt, "a value")
}

/// A key and its value, in bytes.
pub type TextPair = (&'static [u8], &'static [u8]);

/// Where a scan begins and ends, and how many pairs it answers at most.
pub type Range = (&'static [u8], Option<&'static [u8]>, u64);

/// Sees that no batch is staged.
pub fn has_no_batch<R: Abort>(rt: &R, tree: &Tree)
    ensures { tree.now.staged ≡ None }
{
    if let Some(_) = tree.staged() {
        panic!(rt; "a batch is staged");
    }
}

/// Stages a batch of a few operations in a tree without stamps.
pub fn stage<R: Abort>(rt: &R, tree: &mut Tree, ops: &[Op]) -> Result<Staged, Memory> {
    has_no_batch(rt, tree);
    assert!(rt; tree.next_stamp() == 0);
    assert!(rt; ops.len() < 9);
    tree.stage(ops)
}

/// Splits a page of a level, which is a base page by itself, unless it doesn't have more than `keep` entries or the first one
/// that would move names a removed page.
pub fn split_page<R: Abort>(
    rt: &R,
    tree: &mut Tree,
    page: PageId,
    keep: usize,
) -> Result<PageId, Memory> {
    let Some(_) = tree.in_level(page) else {
        panic!(rt; "a page of no level");
    };
    has_no_batch(rt, tree);
    assert!(rt; tree.is_plain(page));
    assert!(rt; keep > 0 && keep < tree.entries(page));
    assert!(rt; moves_no_removed(tree, page, keep));
    tree.set_split(page, keep)
}

// Whether the child at a place, if there is one, isn't a removed page.
fn moves_no_removed(tree: &Tree, page: PageId, place: usize) -> bool
    requires { IsPlain tree.now page }
    ensures { result ≡ true → HasNoRemovedAt tree.now.slots page place }
{
    let Some(child) = tree.child_at(page, place) else {
        return true;
    };
    tree.removed(child).is_none()
}

/// Three leaves: a 1 and b 2; c and this value; e 5.
pub fn leaves<R: Abort>(rt: &R, alloc: Alloc, bytes: &[u8]) -> Vec<Leaf, Alloc>
    ensures { AreAbutting 0 [] result.items }
{
    bw_fixtures::three_leaves(alloc, bytes).expect(rt, "the leaves")
}

/// The tree over these three leaves.
pub fn three_with<R: Abort>(rt: &R, alloc: Alloc, bytes: &[u8]) -> Tree {
    Tree::from_level(alloc, leaves(rt, alloc, bytes)).expect(rt, "a tree")
}

/// The tree of three leaves: a 1, b 2 up to `c`, c 3 up to `e`, and e 5.
pub fn three_leaves<R: Abort>(rt: &R, alloc: Alloc) -> Tree {
    three_with(rt, alloc, b"3")
}

/// The tree of the leaf of all keys: a 1.
pub fn one<R: Abort>(rt: &R, alloc: Alloc) -> Tree {
    let leaf = leaf_of(alloc, b"1").expect(rt, "a leaf");
    let leaves = vec![in alloc; leaf].expect(rt, "the leaf");
    Tree::from_level(alloc, leaves).expect(rt, "a tree")
}

/// The tree of the leaf of all keys: a 1, and a long value at a long key.
pub fn one_long<R: Abort>(rt: &R, alloc: Alloc) -> Tree {
    let (a, long) = (
        pair(alloc, b"a", b"1").expect(rt, "a pair"),
        pair(alloc, LONG, LONG).expect(rt, "a pair"),
    );
    let pairs = two(alloc, a, long).expect(rt, "the pairs");
    let leaf = Leaf::from_pairs(key(rt, alloc, b""), None, None, pairs);
    let leaves = vec![in alloc; leaf].expect(rt, "the leaf");
    Tree::from_level(alloc, leaves).expect(rt, "a tree")
}

/// A tree without a pair.
pub fn empty<R: Abort>(rt: &R, alloc: Alloc) -> Tree {
    Tree::new(alloc).expect(rt, "a tree")
}

/// The leaf whose range has a key.
pub fn leaf_of_key<R: Abort>(rt: &R, alloc: Alloc, tree: &Tree, bytes: &[u8]) -> PageId {
    tree.route(&key(rt, alloc, bytes))
}

/// Compares the identifiers of a tree's root, its mapping words, and how many records it has. Its next stamp is 0.
pub fn stands<R: Abort>(rt: &R, tree: &Tree, root: u32, heads: &[u64], records: usize) {
    assert_equal(rt, tree.root(), PageId(root));
    assert_equal(rt, tree.heads(), heads);
    assert_equal(rt, tree.records(), records);
    assert_equal(rt, tree.next_stamp(), 0);
}

/// Whether a key has these bytes, or there is none.
pub fn is_key(key: Option<&Key>, wanted: Option<&'static [u8]>) -> bool {
    match (key, wanted) {
        (Some(key), Some(bytes)) => key.bytes() == bytes,
        (None, None) => true,
        _ => false,
    }
}

// Whether a value has these bytes, or there is none.
fn is(value: Option<&Value>, wanted: Option<&'static [u8]>) -> bool {
    match (value, wanted) {
        (Some(value), Some(bytes)) => value.bytes() == bytes,
        (None, None) => true,
        _ => false,
    }
}

// Compares the value at a key as of a stamp.
fn has_at<R: Abort>(
    rt: &R,
    alloc: Alloc,
    tree: &Tree,
    stamp: u64,
    bytes: &[u8],
    wanted: Option<&'static [u8]>,
) {
    let found = tree
        .value_at(&key(rt, alloc, bytes), stamp)
        .expect(rt, "memory");
    assert_that(rt, is(found.as_ref(), wanted));
}

/// Compares the values at keys as of a stamp.
pub fn has<R: Abort>(
    rt: &R,
    alloc: Alloc,
    tree: &Tree,
    stamp: u64,
    wanted: &[(&'static [u8], Option<&'static [u8]>)],
) {
    for (bytes, value) in wanted {
        has_at(rt, alloc, tree, stamp, bytes, *value);
    }
}

/// The end of a range, if it has one.
pub fn end_of<R: Abort>(rt: &R, alloc: Alloc, bytes: Option<&'static [u8]>) -> Option<Key> {
    match bytes {
        Some(bytes) => Some(key(rt, alloc, bytes)),
        None => None,
    }
}

/// Compares the first pairs of a range.
pub fn has_first<R: Abort>(
    rt: &R,
    alloc: Alloc,
    tree: &Tree,
    (from, to, most): Range,
    wanted: &[TextPair],
) {
    let (from, to) = (key(rt, alloc, from), end_of(rt, alloc, to));
    let pairs = tree
        .scan_at(&from, to.as_ref(), most, 0)
        .expect(rt, "memory");
    assert_that(rt, are(&pairs, wanted));
}

/// Compares the last pairs of a range, the greatest key first.
pub fn has_last<R: Abort>(
    rt: &R,
    alloc: Alloc,
    tree: &Tree,
    (from, to, most): Range,
    wanted: &[TextPair],
) {
    let (from, to) = (key(rt, alloc, from), end_of(rt, alloc, to));
    let pairs = tree
        .rscan_at(&from, to.as_ref(), most, 0)
        .expect(rt, "memory");
    assert_that(rt, are(&pairs, wanted));
}
