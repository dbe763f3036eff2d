// What tests compare the pages of a tree with.
use crate::tests::assertions::{assert_equal, assert_that};
use bw_key::Key;
use bw_page::PageId;
use bw_post::Tree;
use bw_tree::PageShape;
use std::process::Abort;

/// A page: its identifier and level, where its range begins and ends, its pairs or children, and its writes.
pub type Wanted = (u32, u32, &'static [u8], Option<&'static [u8]>, usize, usize);

// Whether a range ends there.
fn ends(high: Option<&Key>, wanted: Option<&'static [u8]>) -> bool {
    high.map(|key| key.bytes()) == wanted
}

// Whether a page is listed so.
fn is(page: &PageShape, wanted: &Wanted) -> bool {
    page.page == PageId(wanted.0)
        && page.level == wanted.1
        && page.low.bytes() == wanted.2
        && ends(page.high.as_ref(), wanted.3)
        && page.pairs == wanted.4
        && page.writes == wanted.5
}

/// Compares the pages of a tree.
pub fn has_pages<R: Abort>(rt: &R, tree: &Tree, wanted: &[Wanted]) {
    let pages = tree.shape().expect(rt, "the pages");
    assert_equal(rt, pages.len(), wanted.len());
    for (page, wanted) in pages.iter().zip(wanted) {
        assert_that(rt, is(page, wanted));
    }
}
