// Inner pages.
use super::making::{
    c_with, drop_child, from_c, from_start, from_start_and_c, has_children, heap, key,
    upper_half_inner, with_child,
};
use crate::tests::assertions::{assert_equal, assert_that};
use bw_memory::Alloc;
use bw_page::{Inner, Page, PageId, RemovedPage};
use std::process::Abort;

// Compares the low key of a page over leaves, which is the last one.
fn is_last_from<R: Abort>(rt: &R, inner: &Inner, low: &[u8]) {
    assert_equal(rt, inner.level(), 1);
    assert_equal(rt, inner.low().bytes(), low);
    assert_that(rt, inner.high().is_none());
    assert_that(rt, inner.side().is_none());
}

// The child that a page has for a key of its range.
fn child_for<R: Abort>(rt: &R, alloc: Alloc, inner: &Inner, bytes: &[u8]) -> u32 {
    let key = key(rt, alloc, bytes);
    assert!(rt; key >= *inner.low());
    alloc.refuse(1);
    let child = inner.child_for(&key);
    assert_eq!(rt; alloc.left(), 1);
    alloc.refuse(0);
    child.0
}

#[test]
fn an_inner_page_has_its_bounds_and_children(rt: HostRuntime) {
    let alloc = heap(&rt, rt.alloc());
    let inner = from_start(&rt, alloc);
    assert_equal(&rt, inner.level(), 1);
    assert_equal(&rt, inner.low().bytes(), b"".as_slice());
    assert_equal(
        &rt,
        inner.high().map(|high| high.bytes()),
        Some(b"c".as_slice()),
    );
    assert_equal(&rt, inner.side(), Some(PageId(9)));
    has_children(&rt, &inner, &[(b"", 0)]);
}

#[test]
fn two_inner_pages_join(rt: HostRuntime) {
    let alloc = heap(&rt, rt.alloc());
    let inner = from_start_and_c(&rt, alloc);
    is_last_from(&rt, &inner, b"");
    has_children(&rt, &inner, &[(b"", 0), (b"c", 1)]);
}

#[test]
fn a_child_is_put_between_two_others(rt: HostRuntime) {
    let alloc = heap(&rt, rt.alloc());
    let inner = from_start_and_c(&rt, alloc);
    let more = with_child(&rt, &inner, &key(&rt, alloc, b"b"), PageId(5)).expect(&rt, "memory");
    is_last_from(&rt, &more, b"");
    has_children(&rt, &more, &[(b"", 0), (b"b", 5), (b"c", 1)]);
}

#[test]
fn a_child_is_put_in_place_of_another(rt: HostRuntime) {
    let alloc = heap(&rt, rt.alloc());
    let inner = from_start_and_c(&rt, alloc);
    let other = with_child(&rt, &inner, &key(&rt, alloc, b"c"), PageId(6)).expect(&rt, "memory");
    is_last_from(&rt, &other, b"");
    has_children(&rt, &other, &[(b"", 0), (b"c", 6)]);
}

#[test]
fn a_child_is_taken_out(rt: HostRuntime) {
    let alloc = heap(&rt, rt.alloc());
    let mut inner = from_start_and_c(&rt, alloc);
    let sep = key(&rt, alloc, b"c");
    alloc.refuse(1);
    drop_child(&rt, &mut inner, &sep);
    assert_equal(&rt, alloc.left(), 1);
    is_last_from(&rt, &inner, b"");
    has_children(&rt, &inner, &[(b"", 0)]);
}

#[test]
fn the_upper_half_begins_with_the_first_child_that_moves(rt: HostRuntime) {
    let alloc = heap(&rt, rt.alloc());
    let inner = from_start_and_c(&rt, alloc);
    let half = upper_half_inner(&rt, &inner, 1).expect(&rt, "memory");
    is_last_from(&rt, &half, b"c");
    has_children(&rt, &half, &[(b"c", 1)]);
}

#[test]
fn a_key_belongs_to_the_last_separator_up_to_it(rt: HostRuntime) {
    let alloc = heap(&rt, rt.alloc());
    let inner = from_start_and_c(&rt, alloc);
    let wanted = [
        (b"".as_slice(), 0),
        (b"a", 0),
        (b"bz", 0),
        (b"c", 1),
        (b"c%", 1),
        (b"z", 1),
    ];
    for (bytes, child) in wanted {
        assert_equal(&rt, child_for(&rt, alloc, &inner, bytes), child);
    }
    assert_equal(&rt, child_for(&rt, alloc, &from_c(&rt, alloc), b"c"), 1);
}

// The level of a page, or the page that took a removed one's range over.
fn told(page: &Page) -> u32 {
    match page {
        Page::Leaf(_) => 0,
        Page::Inner(inner) => inner.level(),
        Page::Gone(removed) => removed.left.0,
    }
}

// A leaf that began at c and was taken over by this page.
fn removed_into<R: Abort>(rt: &R, alloc: Alloc, left: PageId) -> Page {
    let low = key(rt, alloc, b"c");
    Page::Gone(RemovedPage {
        left,
        level: 0,
        low,
    })
}

#[test]
fn a_page_is_of_one_kind(rt: HostRuntime) {
    let alloc = heap(&rt, rt.alloc());
    assert_equal(&rt, told(&Page::Leaf(c_with(&rt, alloc, b"3"))), 0);
    assert_equal(&rt, told(&Page::Inner(from_c(&rt, alloc))), 1);
    assert_equal(&rt, told(&removed_into(&rt, alloc, PageId(4))), 4);
}
