// Pages that get their index entries at once, as the splits of one leaf leave them.
ghost use Rattle.std.specs.Prelude.{◌≡◌, ◌<◌, ◌^◌, [], ◌∷◌, Some, None, IfOk, slice_index};
ghost use Rattle.bw_look.specs.Unnamed.{IsUnnamed};

use super::making::{has_first, has_no_batch, heap, stands};
use super::refused::was_refused;
use super::splits::{FLOOR, has_entries, routes, split};
use crate::tests::assertions::{assert_equal, assert_that};
use bw_fixtures::key as key_of;
use bw_key::Key;
use bw_memory::Alloc;
use bw_model::Pairs;
use bw_tree::{Leaf, Memory, PageId, Tree, Unnamed};
use std::process::Abort;

// The leaf up to `d`, with page 1 at its right: a 1, b 2, c 3.
fn up_to_d(alloc: Alloc) -> Result<Leaf, Memory>
    ensures low { IfOk result (λ leaf. leaf.low ≡ []) }
    ensures high { IfOk result (λ leaf. leaf.high ≡ Some (100 ∷ [])) }
    ensures side { IfOk result (λ leaf. leaf.side ≡ Some 1) }
{
    let mut pairs = Pairs::new(alloc);
    pairs.push(b"a", b"1")?;
    pairs.push(b"b", b"2")?;
    pairs.push(b"c", b"3")?;
    let (low, high) = (key_of(alloc, b"")?, key_of(alloc, b"d")?);
    Ok(Leaf::from_pairs(low, Some(high), Some(PageId(1)), pairs))
}

// The leaf from `d` on: d 4, e 5, f 6.
fn from_d(alloc: Alloc) -> Result<Leaf, Memory>
    ensures low { IfOk result (λ leaf. leaf.low ≡ 100 ∷ []) }
    ensures high { IfOk result (λ leaf. leaf.high ≡ None) }
    ensures side { IfOk result (λ leaf. leaf.side ≡ None) }
{
    let mut pairs = Pairs::new(alloc);
    pairs.push(b"d", b"4")?;
    pairs.push(b"e", b"5")?;
    pairs.push(b"f", b"6")?;
    Ok(Leaf::from_pairs(key_of(alloc, b"d")?, None, None, pairs))
}

// The tree of these two leaves, with page 2 as their root.
fn two_leaves<R: Abort>(rt: &R, alloc: Alloc) -> Tree {
    let left = up_to_d(alloc).expect(rt, "a leaf");
    let right = from_d(alloc).expect(rt, "a leaf");
    let leaves = vec![in alloc; left, right].expect(rt, "the leaves");
    Tree::from_level(alloc, leaves).expect(rt, "a tree")
}

// The same with the leaf that has the first one of these keys split into three leaves of a pair each: the new ones, of which
// the page above knows nothing yet, are the pages 3 and 4.
fn parted<R: Abort>(rt: &R, alloc: Alloc, keys: [&[u8]; 2]) -> Tree {
    let mut tree = two_leaves(rt, alloc);
    assert_equal(rt, split(rt, alloc, &mut tree, keys[0], 1), Ok(PageId(3)));
    assert_equal(rt, split(rt, alloc, &mut tree, keys[1], 1), Ok(PageId(4)));
    tree
}

// The right neighbour of a page, which the page above doesn't name yet.
fn unnamed<'a, R: Abort>(rt: &R, tree: &'a Tree, page: PageId) -> Unnamed<'a>
    ensures { IsUnnamed tree.now page result.parent result.sep.now result.page }
{
    let Some(_) = tree.in_level(page) else {
        panic!(rt; "a page of no level");
    };
    let Some(unnamed) = tree.unnamed_right(page) else {
        panic!(rt; "no such neighbour");
    };
    unnamed
}

// The index entries of two pages.
fn entries_of(
    alloc: Alloc,
    first: Unnamed<'_>,
    second: Unnamed<'_>,
) -> Result<Vec<(Key, PageId), Alloc>, Memory>
    ensures { IfOk result (λ entries. entries.items
        ≡ (first.entry.sep.now, first.entry.page) ∷ (second.entry.sep.now, second.entry.page) ∷ []) }
{
    let mut entries = Vec::with_capacity(alloc, 2)?;
    entries.push((first.sep.copy()?, first.page))?;
    entries.push((second.sep.copy()?, second.page))?;
    Ok(entries)
}

// Gives the two pages right of a page their index entries at once.
fn name_both<R: Abort>(rt: &R, alloc: Alloc, tree: &mut Tree, page: PageId) -> Result<(), Memory> {
    has_no_batch(rt, tree);
    tree.know_levels();
    tree.know_entries();
    let first = unnamed(rt, tree, page);
    let second = unnamed(rt, tree, first.page);
    let parent = first.parent;
    assert!(rt; second.parent == parent);
    assert!(rt; first.sep < second.sep);
    let entries = entries_of(alloc, first, second)?;
    tree.name_all(parent, entries)
}

// The same key again.
fn copy_of<R: Abort>(rt: &R, key: &Key) -> Key
    ensures { result ≡ key.now }
{
    key.copy().expect(rt, "a key")
}

// Sees that a page has no record.
fn is_plain<R: Abort>(rt: &R, tree: &Tree, page: PageId)
    ensures { slice_index tree.now.heads page < 2 ^ 32 }
{
    assert!(rt; (page.0 as usize) < tree.heads().len());
    assert!(rt; tree.heads()[page.0 as usize] < FLOOR);
}

// Gives the page right of a page its index entry, as a record.
fn name_one<R: Abort>(rt: &R, tree: &mut Tree, page: PageId) {
    has_no_batch(rt, tree);
    tree.know_levels();
    tree.know_entries();
    let found = unnamed(rt, tree, page);
    let parent = found.parent;
    let child = found.page;
    let sep = copy_of(rt, found.sep);
    is_plain(rt, tree, parent);
    tree.set_child(parent, sep, child).expect(rt, "memory");
}

// The six pairs.
const PAIRS: &[(&[u8], &[u8])] = &[
    (b"a", b"1"),
    (b"b", b"2"),
    (b"c", b"3"),
    (b"d", b"4"),
    (b"e", b"5"),
    (b"f", b"6"),
];

// Compares what is read of the six pairs.
fn holds<R: Abort>(rt: &R, alloc: Alloc, tree: &Tree) {
    has_first(rt, alloc, tree, (b"", None, 9), PAIRS);
}

#[test]
fn two_pages_in_the_middle_are_named_at_once(rt: HostRuntime) {
    let alloc = heap(&rt, rt.alloc());
    let mut tree = parted(&rt, alloc, [b"a", b"b"]);
    has_entries(&rt, &tree, PageId(2), 2);
    assert_equal(&rt, name_both(&rt, alloc, &mut tree, PageId(0)), Ok(()));
    stands(&rt, &tree, 2, &[FLOOR, 1, 2, FLOOR + 1, 4], 4);
    has_entries(&rt, &tree, PageId(2), 4);
    routes(&rt, alloc, &tree, b"b", 3);
    routes(&rt, alloc, &tree, b"c", 4);
    routes(&rt, alloc, &tree, b"d", 1);
    holds(&rt, alloc, &tree);
}

#[test]
fn two_pages_at_the_end_are_named_at_once(rt: HostRuntime) {
    let alloc = heap(&rt, rt.alloc());
    let mut tree = parted(&rt, alloc, [b"d", b"e"]);
    assert_equal(&rt, name_both(&rt, alloc, &mut tree, PageId(1)), Ok(()));
    has_entries(&rt, &tree, PageId(2), 4);
    routes(&rt, alloc, &tree, b"d", 1);
    routes(&rt, alloc, &tree, b"e", 3);
    routes(&rt, alloc, &tree, b"f", 4);
    holds(&rt, alloc, &tree);
}

#[test]
fn two_pages_are_named_over_an_added_one(rt: HostRuntime) {
    let alloc = heap(&rt, rt.alloc());
    let mut tree = parted(&rt, alloc, [b"a", b"b"]);
    assert_equal(&rt, split(&rt, alloc, &mut tree, b"d", 2), Ok(PageId(5)));
    name_one(&rt, &mut tree, PageId(1));
    let heads = [FLOOR, FLOOR + 2, FLOOR + 3, FLOOR + 1, 4, 5];
    stands(&rt, &tree, 2, &heads, 4);
    assert_equal(&rt, name_both(&rt, alloc, &mut tree, PageId(0)), Ok(()));
    stands(&rt, &tree, 2, &[FLOOR, FLOOR + 2, 2, FLOOR + 1, 4, 5], 6);
    has_entries(&rt, &tree, PageId(2), 5);
    routes(&rt, alloc, &tree, b"f", 5);
    holds(&rt, alloc, &tree);
}

// Names two pages where this growth is refused, and compares the tree after that. Whether it was.
fn name_refused<R: Abort>(rt: &R, alloc: Alloc, growth: u64) -> bool {
    let mut tree = parted(rt, alloc, [b"a", b"b"]);
    alloc.refuse(growth);
    let named = name_both(rt, alloc, &mut tree, PageId(0));
    let refused = was_refused(alloc, growth);
    assert_equal(rt, named.is_err(), refused);
    has_entries(rt, &tree, PageId(2), if refused { 2 } else { 4 });
    holds(rt, alloc, &tree);
    refused
}

#[test]
fn each_growth_of_two_index_entries_is_refused(rt: HostRuntime) {
    let alloc = heap(&rt, rt.alloc());
    for growth in 1..100 {
        if !name_refused(&rt, alloc, growth) {
            assert_that(&rt, growth > 2);
            return;
        }
    }
    panic!(rt; "no run met no refusal")
}
