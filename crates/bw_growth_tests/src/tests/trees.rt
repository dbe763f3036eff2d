// Trees over leaves of one pair, and the plain program's map of the same pairs.
ghost use Rattle.std.specs.Prelude.{◌≡◌, ◌<◌, [], None, is_some, T};
ghost use Rattle.bw_model.specs.Contents.{is_below_end};
ghost use Rattle.bw_tree.specs.Making.{AreAbutting};

use crate::tests::assertions::assert_equal;
use bw_batch::{Key, Leaf, Op, Options, PageId, Tree};
use bw_fixtures::{key, one, value};
use bw_memory::Alloc;
use bw_model::ReferenceMap;
use std::process::Abort;

/// Longer than a key or a value that takes no memory.
pub const LONG: &str = "a text of more than 24 bytes";

/// Options with so many workers, and pieces of so many records.
pub fn working<R: Abort>(rt: &R, workers: u64, piece: u64) -> Options {
    Options::new(workers, piece, 8, 64, 16, 65536, 1048576).expect(rt, "options")
}

// A leaf with one pair: its low key and the value 1.
fn leaf_from<R: Abort>(
    rt: &R,
    alloc: Alloc,
    low: &Key,
    high: Option<Key>,
    side: Option<PageId>,
) -> Leaf
    requires wide { T (is_below_end high low.now) }
    requires linked { is_some side ≡ is_some high }
    ensures low { result.low ≡ low.now }
    ensures high { result.high ≡ high }
    ensures side { result.side ≡ side }
{
    let begin = low.copy().expect(rt, "a key");
    let first = low.copy().expect(rt, "a key");
    assert!(rt; first >= begin);
    let value = value(alloc, b"1").expect(rt, "a value");
    let pairs = one(alloc, (first, value)).expect(rt, "the pair");
    Leaf::from_pairs(begin, high, side, pairs)
}

// Where the leaf at a place begins: the first one at the least key, and each other one at the key of the number
// place * step, of one byte where the step is below 256, and else of four.
fn low_of<R: Abort>(rt: &R, alloc: Alloc, place: u32, step: u32) -> Key
    ensures { place ≡ 0 → result ≡ [] }
{
    let bytes = place.wrapping_mul(step).to_be_bytes();
    let bytes = match (place, step) {
        (0, _) => &bytes[4..],
        (_, 0..256) => &bytes[3..],
        _ => &bytes[..],
    };
    key(alloc, bytes).expect(rt, "a key")
}

// So many leaves of one pair side by side. They are made from the last to the first, in as many steps.
fn leaves_of<R: Abort>(rt: &R, alloc: Alloc, count: u32, step: u32) -> Vec<Leaf, Alloc>
    requires { 0 < count }
    ensures { AreAbutting 0 [] result.items }
{
    let mut place = count - 1;
    let mut low = low_of(rt, alloc, place, step);
    let mut leaves = Vec::new(alloc);
    let last = leaf_from(rt, alloc, &low, None, None);
    leaves.push(last).expect(rt, "a leaf");
    while place > 0 {
        let side = Some(PageId(place));
        let high = low;
        place -= 1;
        low = low_of(rt, alloc, place, step);
        assert!(rt; low < high);
        let leaf = leaf_from(rt, alloc, &low, Some(high), side);
        leaves.push(leaf).expect(rt, "a leaf");
    }
    leaves.reverse();
    leaves
}

/// A tree over so many leaves of one pair, with a root.
pub fn tree_of<R: Abort>(rt: &R, alloc: Alloc, count: u32, step: u32) -> Tree
    requires { 0 < count }
    ensures { result.staged ≡ None }
{
    let leaves = leaves_of(rt, alloc, count, step);
    let tree = Tree::from_level(alloc, leaves).expect(rt, "a tree");
    assert_equal(rt, tree.heads().len(), count as usize + 1);
    tree
}

/// Applies an operation to the plain program's map.
pub fn apply<R: Abort>(rt: &R, map: &mut ReferenceMap, op: &Op) {
    map.apply(op).expect(rt, "memory");
}

// Puts the value 1 at a key.
fn upsert<R: Abort>(rt: &R, alloc: Alloc, key: Key) -> Op {
    Op::Upsert(key, value(alloc, b"1").expect(rt, "a value"))
}

/// The plain program's map of the pairs of such a tree.
pub fn map_of<R: Abort>(rt: &R, alloc: Alloc, count: u32, step: u32) -> ReferenceMap {
    let mut map = ReferenceMap::new(alloc);
    for place in 0..count {
        let low = low_of(rt, alloc, place, step);
        apply(rt, &mut map, &upsert(rt, alloc, low));
    }
    map
}
