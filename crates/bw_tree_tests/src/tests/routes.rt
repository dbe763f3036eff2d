// Searches along keys, compared with the tree's own.
ghost use Rattle.std.specs.Prelude.{◌≡◌, ◌<◌, is_some, T};
ghost use Rattle.bw_model.specs.Contents.{is_below_end};
ghost use Rattle.bw_tree.specs.Making.{AreAbutting};

use super::making::{heap, key, one};
use crate::tests::assertions::{assert_equal, assert_that};
use bw_key::Key;
use bw_memory::Alloc;
use bw_model::Pairs;
use bw_tree::{Leaf, PageId, Routes, Tree};
use std::process::Abort;

// How many leaves there are, each of which begins at ten times its place.
const LEAVES: u32 = 300;

// The key of a number, in which numbers have their order.
fn key_of<R: Abort>(rt: &R, alloc: Alloc, number: u32) -> Key {
    key(rt, alloc, &number.to_be_bytes())
}

// A leaf without pairs.
fn bare_leaf(alloc: Alloc, low: Key, high: Option<Key>, side: Option<PageId>) -> Leaf
    requires wide { T (is_below_end high low) }
    requires linked { is_some side ≡ is_some high }
    ensures low { result.low ≡ low }
    ensures high { result.high ≡ high }
    ensures side { result.side ≡ side }
{
    Leaf::from_pairs(low, high, side, Pairs::new(alloc))
}

// The leaf at this place, which begins at the low key, and all behind it.
fn leaves_from<R: Abort>(rt: &R, alloc: Alloc, low: Key, place: u32) -> Vec<Leaf, Alloc>
    requires { place < LEAVES }
    ensures { AreAbutting place low result.items }
{
    let next = place + 1;
    if next == LEAVES {
        let last = bare_leaf(alloc, low, None, None);
        return vec![in alloc; last].expect(rt, "a leaf");
    }
    let high = key_of(rt, alloc, next * 10);
    assert!(rt; low < high);
    let begins = high.copy().expect(rt, "a key");
    let leaf = bare_leaf(alloc, low, Some(high), Some(PageId(next)));
    let mut leaves = leaves_from(rt, alloc, begins, next);
    leaves.insert(0, leaf).expect(rt, "a leaf");
    leaves
}

// A tree over all of them.
fn many_leaves<R: Abort>(rt: &R, alloc: Alloc) -> Tree {
    let leaves = leaves_from(rt, alloc, key(rt, alloc, b""), 0);
    Tree::from_level(alloc, leaves).expect(rt, "a tree")
}

// Whether two ends of ranges are one.
fn is_end(end: Option<&Key>, other: Option<&Key>) -> bool {
    match (end, other) {
        (Some(end), Some(other)) => *end == *other,
        (None, None) => true,
        _ => false,
    }
}

// Compares the leaf of a number's key, and its end, with what the tree finds.
fn is_found<R: Abort>(rt: &R, alloc: Alloc, tree: &Tree, routes: &mut Routes<'_>, number: u32) {
    let key = key_of(rt, alloc, number);
    let leaf = tree.route(&key);
    assert_equal(rt, routes.route(&key), leaf);
    assert_that(rt, is_end(routes.end(), tree.end(leaf)));
}

#[test]
fn keys_that_rise_are_found(rt: HostRuntime) {
    let alloc = heap(&rt, rt.alloc());
    let tree = many_leaves(&rt, alloc);
    let mut routes = Routes::new(tree.look());
    for number in 0..LEAVES * 10 + 20 {
        is_found(&rt, alloc, &tree, &mut routes, number);
    }
}

#[test]
fn keys_that_fall_are_found(rt: HostRuntime) {
    let alloc = heap(&rt, rt.alloc());
    let tree = many_leaves(&rt, alloc);
    let mut routes = Routes::new(tree.look());
    for number in (0..LEAVES * 10 + 20).rev() {
        is_found(&rt, alloc, &tree, &mut routes, number);
    }
}

#[test]
fn keys_in_any_order_are_found(rt: HostRuntime) {
    let alloc = heap(&rt, rt.alloc());
    let tree = many_leaves(&rt, alloc);
    let mut routes = Routes::new(tree.look());
    let mut state: u32 = 1;
    for _ in 0..4000 {
        // A linear congruence, whose high bits are taken.
        state = state.wrapping_mul(1664525).wrapping_add(1013904223);
        is_found(&rt, alloc, &tree, &mut routes, (state >> 16) % 3100);
    }
}

#[test]
fn steps_of_each_width_are_found(rt: HostRuntime) {
    let alloc = heap(&rt, rt.alloc());
    let tree = many_leaves(&rt, alloc);
    let mut routes = Routes::new(tree.look());
    for width in 1..LEAVES {
        is_found(&rt, alloc, &tree, &mut routes, 0);
        is_found(&rt, alloc, &tree, &mut routes, width * 10);
        is_found(&rt, alloc, &tree, &mut routes, width * 10 - 1);
    }
}

#[test]
fn one_leaf_has_all_keys(rt: HostRuntime) {
    let alloc = heap(&rt, rt.alloc());
    let tree = one(&rt, alloc);
    let mut routes = Routes::new(tree.look());
    for number in [3, 7, 0, 7] {
        is_found(&rt, alloc, &tree, &mut routes, number);
    }
}

#[test]
fn searches_take_no_memory(rt: HostRuntime) {
    let alloc = heap(&rt, rt.alloc());
    let tree = many_leaves(&rt, alloc);
    alloc.refuse(1);
    let mut routes = Routes::new(tree.look());
    for number in [0, 5, 10, 2500, 2501, 9, 4000] {
        is_found(&rt, alloc, &tree, &mut routes, number);
    }
    assert_equal(&rt, alloc.left(), 1);
}
