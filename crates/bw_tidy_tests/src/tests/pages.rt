// The pages of an index, compared with those of the plain program.
use super::literal::{PlainPage, PlainTree};
use crate::tests::assertions::{assert_equal, assert_that};
use bw_batch::{Index, Key};
use bw_tree::PageShape;
use std::process::Abort;

// Whether a key has this number.
fn is_key(key: &Key, number: u8) -> bool {
    match number {
        0 => key.bytes().is_empty(),
        number => key.bytes() == [number].as_slice(),
    }
}

// Whether a range ends there.
fn is_end(high: Option<&Key>, number: Option<u8>) -> bool {
    match (high, number) {
        (Some(key), Some(number)) => is_key(key, number),
        (None, None) => true,
        _ => false,
    }
}

// Whether a page is listed as the plain one, with so many entries.
fn is_listed(page: &PageShape, plain: &PlainPage, entries: usize) -> bool {
    page.page.0 as usize == plain.page
        && page.level == plain.level
        && is_key(&page.low, plain.low)
        && is_end(page.high.as_ref(), plain.high)
        && page.pairs == entries
        && page.writes == plain.writes
}

/// Compares pages.
pub fn same_shape<R: Abort>(rt: &R, shape: &[PageShape], plain: &PlainTree) {
    assert_equal(rt, shape.len(), plain.pages().len());
    for (page, plain_page) in shape.iter().zip(plain.pages()) {
        let entries = plain.count_entries(rt, plain_page);
        assert_that(rt, is_listed(page, plain_page, entries));
    }
}

/// Compares the pages, and how many records and stamps there are.
pub fn same_pages<R: Abort>(rt: &R, index: &Index, plain: &PlainTree) {
    let shape = index.tree().shape().expect(rt, "memory");
    same_shape(rt, &shape, plain);
    assert_equal(rt, index.tree().heads().len(), plain.identifiers());
    assert_equal(rt, index.tree().records(), plain.records());
    assert_equal(rt, index.tree().next_stamp(), plain.stamps() as u64);
}
