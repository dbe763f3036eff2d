// What tests compare the pages of a tree with.
use crate::tests::assertions::{assert_equal, assert_that};
use bw_key::Key;
use bw_shape::{PageId, Tree};
use bw_tree::PageShape;
use std::process::Abort;

/// A page: its identifier and level, where its range begins and ends, its pairs or children, and its writes.
pub type Wanted = (u32, u32, &'static [u8], Option<&'static [u8]>, usize, usize);

// Whether a range ends there.
fn ends(high: Option<&Key>, wanted: Option<&'static [u8]>) -> bool {
    high.map(|key| key.bytes()) == wanted
}

// Whether a page is listed so.
fn is(page: &PageShape, wanted: &Wanted) -> bool {
    page.page == PageId(wanted.0)
        && page.level == wanted.1
        && page.low.bytes() == wanted.2
        && ends(page.high.as_ref(), wanted.3)
        && page.pairs == wanted.4
        && page.writes == wanted.5
}

/// Compares the pages of a tree.
pub fn has_pages<R: Abort>(rt: &R, tree: &Tree, wanted: &[Wanted]) {
    let pages = tree.shape().expect(rt, "the pages");
    assert_equal(rt, pages.len(), wanted.len());
    for (page, wanted) in pages.iter().zip(wanted) {
        assert_that(rt, is(page, wanted));
    }
}

// Whether a page begins where the one before it ends, or at the least key where there is none before it on its level.
fn follows(page: &PageShape, end: Option<&Key>) -> bool {
    match end {
        Some(end) => page.low == *end,
        None => page.low.bytes().is_empty(),
    }
}

// Whether the pages of each level abut, over all keys, and have no more entries than so many.
fn abut_within(pages: &[PageShape], most: usize) -> bool {
    let mut level = 0u32;
    let mut end = None;
    for page in pages {
        if page.level != level || !follows(page, end) || page.pairs > most {
            return false;
        }
        end = page.high.as_ref();
        if end.is_none() {
            level = level.saturating_add(1);
        }
    }
    end.is_none()
}

// Whether two pages are listed alike.
fn is_alike(page: &PageShape, other: &PageShape) -> bool {
    page.page == other.page
        && page.level == other.level
        && page.low == other.low
        && page.high == other.high
        && page.pairs == other.pairs
        && page.writes == other.writes
}

// Whether two lists of pages are alike.
fn are_alike(pages: &[PageShape], others: &[PageShape]) -> bool {
    for (page, other) in pages.iter().zip(others) {
        if !is_alike(page, other) {
            return false;
        }
    }
    pages.len() == others.len()
}

/// Compares the pages of two trees.
pub fn has_pages_of<R: Abort>(rt: &R, tree: &Tree, wanted: &Tree) {
    let pages = tree.shape().expect(rt, "the pages");
    let wanted = wanted.shape().expect(rt, "the pages");
    assert_that(rt, are_alike(&pages, &wanted));
}

/// Compares how many pages a tree has.
pub fn counts_pages<R: Abort>(rt: &R, tree: &Tree, wanted: usize) {
    let pages = tree.shape().expect(rt, "the pages");
    assert_equal(rt, pages.len(), wanted);
}

/// Looks whether the pages of each level abut, and have four entries at most.
pub fn has_small_pages<R: Abort>(rt: &R, tree: &Tree) {
    let pages = tree.shape().expect(rt, "the pages");
    assert_that(rt, abut_within(&pages, 4));
}
