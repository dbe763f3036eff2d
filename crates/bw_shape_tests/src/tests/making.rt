// A tree of one leaf with five pairs, and what tests compare with.
ghost use Rattle.std.specs.Prelude.{◌≡◌, [], None};

use crate::tests::assertions::{assert_equal, assert_that};
use bw_fixtures::{are, heap, key};
use bw_memory::Alloc;
use bw_model::Pairs;
use bw_page::Leaf;
use bw_shape::{PageId, Tree, sweep};
use std::alloc::Global;
use std::process::Abort;

/// A key and its value.
pub type Pair = (&'static [u8], &'static [u8]);

/// The word of the first record.
pub const FLOOR: u64 = 4294967296;

// The leaf of all keys: a 1, b 2, c 3, d 4, e 5.
fn five_pairs<R: Abort>(rt: &R, alloc: Alloc) -> Leaf
    ensures low { result.low ≡ [] }
    ensures high { result.high ≡ None }
    ensures side { result.side ≡ None }
{
    let mut pairs = Pairs::new(alloc);
    pairs.push(b"a", b"1").expect(rt, "a pair");
    pairs.push(b"b", b"2").expect(rt, "a pair");
    pairs.push(b"c", b"3").expect(rt, "a pair");
    pairs.push(b"d", b"4").expect(rt, "a pair");
    pairs.push(b"e", b"5").expect(rt, "a pair");
    Leaf::from_pairs(key(alloc, b"").expect(rt, "a key"), None, None, pairs)
}

/// A heap of a test's own.
pub fn memory<R: Abort>(rt: &R, global: Global) -> Alloc {
    heap(global).expect(rt, "memory")
}

/// The tree of one leaf with five pairs.
pub fn five<R: Abort>(rt: &R, alloc: Alloc) -> Tree
    ensures { result.staged ≡ None }
{
    let leaf = five_pairs(rt, alloc);
    let leaves = vec![in alloc; leaf].expect(rt, "a list");
    Tree::from_level(alloc, leaves).expect(rt, "a tree")
}

/// Compares the identifier of a tree's root, its mapping words, and what is read of it.
pub fn stands<R: Abort>(rt: &R, alloc: Alloc, tree: &Tree, root: u32, heads: &[u64]) {
    assert_equal(rt, tree.root(), PageId(root));
    assert_equal(rt, tree.heads(), heads);
    reads_all(rt, alloc, tree);
}

/// All that is read of such a tree.
pub const FIVE_PAIRS: &[Pair] = &[
    (b"a", b"1"),
    (b"b", b"2"),
    (b"c", b"3"),
    (b"d", b"4"),
    (b"e", b"5"),
];

/// Compares all that is read of a tree.
pub fn holds<R: Abort>(rt: &R, alloc: Alloc, tree: &Tree, wanted: &[Pair]) {
    let from = key(alloc, b"").expect(rt, "a key");
    let pairs = tree.scan_at(&from, None, 9, 0).expect(rt, "the pairs");
    assert_that(rt, are(&pairs, wanted));
}

/// Compares all that is read of a tree of five pairs.
pub fn reads_all<R: Abort>(rt: &R, alloc: Alloc, tree: &Tree) {
    holds(rt, alloc, tree, FIVE_PAIRS);
}

/// Sweeps a tree, and compares what is left of its records and stamps.
pub fn sweep_does<R: Abort>(rt: &R, tree: &mut Tree)
    requires { tree.old.staged ≡ None }
    ensures { tree.new.staged ≡ None }
{
    assert_equal(rt, sweep(tree), Ok(()));
    assert_equal(rt, tree.records(), 0);
    assert_equal(rt, tree.next_stamp(), 0);
}

/// Compares the page of a level whose range has a key.
pub fn finds<R: Abort>(
    rt: &R,
    alloc: Alloc,
    tree: &Tree,
    level: u32,
    bytes: &[u8],
    wanted: Option<u32>,
) {
    let found = tree.above(level, &key(alloc, bytes).expect(rt, "a key"));
    assert_equal(rt, found.map(|page| page.0), wanted);
}
