// Trees over leaves of many pairs: the key of a number, and the same bytes as its value.
ghost use Rattle.std.specs.Prelude.{◌≡◌, ◌<◌, ◌≤◌, None, is_some, length};
ghost use Rattle.std.specs.Option.{option_copied};
ghost use Rattle.bw_tree.specs.Making.{AreAbutting};

use bw_fixtures::{key, one, value};
use bw_key::Key;
use bw_memory::Alloc;
use bw_model::is_below;
use bw_page::Leaf;
use bw_shape::{PageId, Tree};
use std::process::Abort;

// The key of a number: of one byte where it's below 256, so that 97 is `a`, and else of two.
fn key_of<R: Abort>(rt: &R, alloc: Alloc, number: u16) -> Key {
    let bytes = number.to_be_bytes();
    let from = if number < 256 { 1 } else { 0 };
    key(alloc, &bytes[from..]).expect(rt, "a key")
}

// A copy of a key, if there is one.
fn copied<R: Abort>(rt: &R, key: Option<&Key>) -> Option<Key>
    ensures { result ≡ option_copied key.entry }
{
    match key {
        Some(key) => Some(key.copy().expect(rt, "a key")),
        None => None,
    }
}

// The leaf of one pair, that of this number.
fn leaf_of_one<R: Abort>(
    rt: &R,
    alloc: Alloc,
    low: &Key,
    high: Option<&Key>,
    side: Option<PageId>,
    number: u16,
) -> Leaf
    requires { is_some side ≡ is_some high }
    ensures low { result.low ≡ low.now }
    ensures high { result.high ≡ option_copied high.entry }
    ensures side { result.side ≡ side }
{
    let at = key_of(rt, alloc, number);
    assert!(rt; at >= *low);
    assert!(rt; is_below(&at, high));
    assert!(rt; is_below(low, high));
    let bytes = value(alloc, at.bytes()).expect(rt, "a value");
    let pairs = one(alloc, (at, bytes)).expect(rt, "the pair");
    let begin = low.copy().expect(rt, "a key");
    Leaf::from_pairs(begin, copied(rt, high), side, pairs)
}

// The leaf of the pairs of the numbers from `from` on and below `to`, and of one at least.
fn leaf_of<R: Abort>(
    rt: &R,
    alloc: Alloc,
    low: &Key,
    high: Option<&Key>,
    side: Option<PageId>,
    from: u16,
    to: u16,
) -> Leaf
    requires { is_some side ≡ is_some high }
    ensures low { result.low ≡ low.now }
    ensures high { result.high ≡ option_copied high.entry }
    ensures side { result.side ≡ side }
{
    let count = to.saturating_sub(from);
    if count < 2 {
        return leaf_of_one(rt, alloc, low, high, side, from);
    }
    let half = from + count / 2;
    let mid = key_of(rt, alloc, half);
    let left = leaf_of(rt, alloc, low, Some(&mid), Some(PageId(0)), from, half);
    let right = leaf_of(rt, alloc, &mid, high, side, half, to);
    left.joined(&right).expect(rt, "a leaf")
}

// The leaf at this place, which begins at the low key and has the pairs from `from` on, and all behind it.
fn leaves_from<R: Abort>(
    rt: &R,
    alloc: Alloc,
    low: &Key,
    from: u16,
    ends: &[u16],
    place: u32,
) -> Vec<Leaf, Alloc>
    requires place { place < length ends.now }
    requires few { length ends.now ≤ 9 }
    ensures { AreAbutting place low.now result.items }
{
    let end = ends[place as usize];
    let next = place + 1;
    if next as usize == ends.len() {
        let last = leaf_of(rt, alloc, low, None, None, from, end);
        return vec![in alloc; last].expect(rt, "a leaf");
    }
    let high = key_of(rt, alloc, end);
    let leaf = leaf_of(rt, alloc, low, Some(&high), Some(PageId(next)), from, end);
    let mut leaves = leaves_from(rt, alloc, &high, end, ends, next);
    leaves.insert(0, leaf).expect(rt, "a leaf");
    leaves
}

/// The tree over leaves of the pairs of the numbers from `from` on. Each leaf has those below its end, and there are up to
/// nine.
pub fn tree_of<R: Abort>(rt: &R, alloc: Alloc, from: u16, ends: &[u16]) -> Tree
    requires some { 0 < length ends.now }
    requires few { length ends.now ≤ 9 }
    ensures { result.staged ≡ None }
{
    let least = key(alloc, b"").expect(rt, "a key");
    let leaves = leaves_from(rt, alloc, &least, from, ends, 0);
    Tree::from_level(alloc, leaves).expect(rt, "a tree")
}

// Whether a key and a value are those of a number.
fn are_of<R: Abort>(rt: &R, alloc: Alloc, at: &[u8], bytes: &[u8], number: u16) -> bool {
    let wanted = key_of(rt, alloc, number);
    at == wanted.bytes() && bytes == wanted.bytes()
}

/// Compares all that is read of a tree with the pairs of the numbers from `from` on and below `to`.
pub fn reads_numbers<R: Abort>(rt: &R, alloc: Alloc, tree: &Tree, from: u16, to: u16) {
    let least = key(alloc, b"").expect(rt, "a key");
    let read = tree.scan_at(&least, None, 65536, 0).expect(rt, "the pairs");
    assert!(rt; read.len() == to.saturating_sub(from) as usize);
    for place in 0..read.len() {
        let number = from.wrapping_add(place as u16);
        assert!(rt; are_of(rt, alloc, read.key_at(place), read.value_at(place), number));
    }
}
