// What a tree is compared with.
use super::making::{Pair, finds, holds, stands};
use super::shapes::{Wanted, has_pages};
use crate::tests::assertions::{assert_equal, assert_that};
use bw_fixtures::{are, key};
use bw_key::Key;
use bw_memory::Alloc;
use bw_page::Page;
use bw_shape::{PageId, Tree, fold_beside};
use std::process::Abort;

/// What a tree is compared with.
#[derive(Clone, Copy)]
pub enum Sight {
    /// The identifier of its root, its mapping words, and all five pairs.
    Stands(u32, &'static [u64]),
    /// Its pages.
    Pages(&'static [Wanted]),
    /// Its pairs.
    Holds(&'static [Pair]),
    /// The identifier of its root.
    Root(u32),
    /// How many mapping words it has.
    Words(usize),
    /// How many records it has.
    Records(usize),
    /// The page of a level whose range has a key.
    Finds(u32, &'static [u8], Option<u32>),
    /// The leaf whose range has a key.
    Routes(&'static [u8], u32),
    /// A leaf's pairs.
    Leaf(u32, &'static [Pair]),
    /// The pairs and the right neighbour that the chain of a key's leaf makes of it.
    Folds(&'static [u8], &'static [Pair], Option<u32>),
    /// A page's level.
    Level(u32, Option<u32>),
    /// The page that names a page.
    Namer(u32, Option<u32>),
    /// The page that still names a removed page.
    NamerOfRemoved(u32, Option<u32>),
    /// Whether a page is a removed one.
    Removed(u32, bool),
    /// The page into which a page was removed, the level, and where the page began.
    RemovedInto(u32, u32, u32, &'static [u8]),
    /// A page has no low key.
    NoLowKey(u32),
    /// Whether an identifier is free.
    IsFree(u32, bool),
    /// Which of the first identifiers are free.
    Free(&'static [bool]),
}

/// Compares a tree.
pub fn compare<R: Abort>(rt: &R, alloc: Alloc, tree: &Tree, sight: Sight) {
    match sight {
        Sight::Stands(root, heads) => stands(rt, alloc, tree, root, heads),
        Sight::Pages(pages) => has_pages(rt, tree, pages),
        Sight::Holds(pairs) => holds(rt, alloc, tree, pairs),
        Sight::Root(page) => assert_equal(rt, tree.root(), PageId(page)),
        Sight::Words(count) => assert_equal(rt, tree.heads().len(), count),
        Sight::Records(count) => assert_equal(rt, tree.records(), count),
        Sight::Finds(level, bytes, page) => finds(rt, alloc, tree, level, bytes, page),
        Sight::Routes(bytes, page) => routes_to(rt, alloc, tree, bytes, page),
        Sight::Leaf(page, pairs) => has_leaf(rt, tree, page, pairs),
        Sight::Folds(bytes, pairs, side) => folds_to(rt, alloc, tree, bytes, pairs, side),
        Sight::Level(page, level) => assert_equal(rt, tree.in_level(PageId(page)), level),
        Sight::Namer(page, namer) => has_namer(rt, tree, page, namer),
        Sight::NamerOfRemoved(page, namer) => is_still_named(rt, tree, page, namer),
        Sight::Removed(page, is) => assert_equal(rt, tree.removed(PageId(page)).is_some(), is),
        Sight::RemovedInto(page, left, level, low) => is_removed(rt, tree, page, left, level, low),
        Sight::NoLowKey(page) => assert_that(rt, tree.low_key(PageId(page)).is_none()),
        Sight::IsFree(page, free) => assert_equal(rt, tree.is_free(PageId(page)), free),
        Sight::Free(pages) => are_free(rt, tree, pages),
    }
}

// The key of these bytes.
fn key_of<R: Abort>(rt: &R, alloc: Alloc, bytes: &[u8]) -> Key {
    key(alloc, bytes).expect(rt, "a key")
}

// Compares the leaf that has a key in its range.
fn routes_to<R: Abort>(rt: &R, alloc: Alloc, tree: &Tree, bytes: &[u8], wanted: u32) {
    assert_equal(rt, tree.route(&key_of(rt, alloc, bytes)), PageId(wanted));
}

// Compares the pairs of a leaf.
fn has_leaf<R: Abort>(rt: &R, tree: &Tree, page: u32, pairs: &[Pair]) {
    let state = tree.state(PageId(page), 0).expect(rt, "memory");
    match &state {
        Some(Page::Leaf(leaf)) => assert_that(rt, are(leaf.pairs(), pairs)),
        _ => panic!(rt; "page {page} is no leaf"),
    }
}

// Compares the pairs and the right neighbour that the chain of a key's leaf makes of it.
fn folds_to<R: Abort>(
    rt: &R,
    alloc: Alloc,
    tree: &Tree,
    bytes: &[u8],
    pairs: &[Pair],
    side: Option<u32>,
) {
    let page = tree.route(&key_of(rt, alloc, bytes));
    let leaf = fold_beside(tree, page, 0).expect(rt, "memory");
    assert_that(rt, are(leaf.pairs(), pairs));
    assert_equal(rt, leaf.side().map(|page| page.0), side);
}

// Compares the page that names a page.
fn has_namer<R: Abort>(rt: &R, tree: &Tree, page: u32, wanted: Option<u32>) {
    let namer = tree.namer(PageId(page));
    assert_equal(rt, namer.map(|page| page.0), wanted);
}

// Compares the page that still names a removed page.
fn is_still_named<R: Abort>(rt: &R, tree: &Tree, page: u32, wanted: Option<u32>) {
    let namer = tree.namer_of_removed(PageId(page));
    assert_equal(rt, namer.map(|page| page.0), wanted);
}

// Compares what is left of a removed page.
fn is_removed<R: Abort>(rt: &R, tree: &Tree, page: u32, left: u32, level: u32, low: &[u8]) {
    let removed = tree.removed(PageId(page)).expect(rt, "a removed page");
    assert_equal(rt, removed.left, PageId(left));
    assert_equal(rt, removed.level, level);
    assert_equal(rt, removed.low.bytes(), low);
}

// Compares which of the first identifiers are free.
fn are_free<R: Abort>(rt: &R, tree: &Tree, wanted: &[bool]) {
    let mut page = 0u32;
    for free in wanted {
        assert_equal(rt, tree.is_free(PageId(page)), *free);
        page = page.saturating_add(1);
    }
}
