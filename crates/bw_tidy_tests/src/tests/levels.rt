// Whether the pages of a tree name one another as they should.
use crate::tests::assertions::assert_that;
use bw_memory::Alloc;
use bw_page::{Page, PageId};
use bw_tree::{PageShape, Tree};
use std::process::Abort;

// The pages of a level, in their order.
fn pages<R: Abort>(rt: &R, alloc: Alloc, shape: &[PageShape], level: u32) -> Vec<PageId, Alloc> {
    let mut pages = Vec::new(alloc);
    for page in shape {
        if page.level == level {
            pages.push(page.page).expect(rt, "memory");
        }
    }
    pages
}

// Adds the pages that a page names to a list.
fn add_children<R: Abort>(rt: &R, tree: &Tree, page: PageId, list: &mut Vec<PageId, Alloc>) {
    let state = tree.state(page, tree.next_stamp()).expect(rt, "memory");
    let Some(Page::Inner(inner)) = state else {
        panic!(rt; "an inner page");
    };
    let children = inner.children();
    for place in 0..children.len() {
        list.push(children.child(place)).expect(rt, "memory");
    }
}

// The pages that are named by those of a level, in their order.
fn children<R: Abort>(
    rt: &R,
    alloc: Alloc,
    tree: &Tree,
    shape: &[PageShape],
    level: u32,
) -> Vec<PageId, Alloc> {
    let mut list = Vec::new(alloc);
    for page in shape {
        if page.level == level {
            add_children(rt, tree, page.page, &mut list);
        }
    }
    list
}

// Whether the pages of a level are those that the level above names.
fn is_named<R: Abort>(rt: &R, alloc: Alloc, tree: &Tree, shape: &[PageShape], level: u32) -> bool {
    let pages = pages(rt, alloc, shape, level);
    let children = children(rt, alloc, tree, shape, level.saturating_add(1));
    pages.as_slice() == children.as_slice()
}

/// How many pages a level has.
pub fn count_pages(shape: &[PageShape], level: u32) -> usize {
    let mut count = 0usize;
    for page in shape {
        if page.level == level {
            count = count.saturating_add(1);
        }
    }
    count
}

/// Whether a root was split, and no root stands over it yet.
pub fn is_root_split(tree: &Tree, shape: &[PageShape]) -> bool {
    count_pages(shape, tree.root_level()) > 1
}

/// Whether the pages of each level are those that the level above names.
pub fn are_named<R: Abort>(rt: &R, alloc: Alloc, tree: &Tree, shape: &[PageShape]) -> bool {
    for level in 0..tree.root_level() {
        if !is_named(rt, alloc, tree, shape, level) {
            return false;
        }
    }
    true
}

/// Whether each page is come to from the root by index entries alone, and no split is left to be finished.
pub fn is_whole<R: Abort>(rt: &R, alloc: Alloc, tree: &Tree, shape: &[PageShape]) -> bool {
    !is_root_split(tree, shape) && are_named(rt, alloc, tree, shape)
}

/// Each page has no more than so many pairs or children, and each leaf no more than so many writes over it.
pub fn are_within<R: Abort>(rt: &R, shape: &[PageShape], chain_max: u64, page_max: u64) {
    for page in shape {
        assert_that(rt, page.pairs as u64 <= page_max);
        assert_that(rt, page.writes as u64 <= chain_max);
    }
}
