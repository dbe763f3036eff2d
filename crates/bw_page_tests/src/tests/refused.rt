// Each growth of memory refused in turn. A refused call asks for no further one. Pages have so many entries that a list which
// grew entry by entry would ask for more.
use super::making::{
    c_with, from_start, heap, joined, joined_inner, key, many_children, up_to_c, upper_half,
    upper_half_inner, with_child, with_two,
};
use crate::tests::assertions::assert_equal;
use bw_fixtures::LONG;
use bw_memory::Alloc;
use bw_page::{Inner, PageId};
use std::process::Abort;

// Compares whether a call was refused, and how many growths it left until one would have been.
fn is_refused<R: Abort>(rt: &R, alloc: Alloc, refused: bool, wanted: bool) {
    assert_equal(rt, refused, wanted);
    assert_equal(rt, alloc.left(), if wanted { 0 } else { 1 });
}

// The half that goes has a short pair and a long one.
#[test]
fn the_half_of_a_leaf_takes_two_growths(rt: HostRuntime) {
    let alloc = heap(&rt, rt.alloc());
    let (left, right) = (up_to_c(&rt, alloc), c_with(&rt, alloc, LONG));
    let leaf = joined(&rt, &left, &right).expect(&rt, "memory");
    for growth in 1..=3 {
        alloc.refuse(growth);
        let refused = upper_half(&rt, &leaf, 1).is_err();
        is_refused(&rt, alloc, refused, growth <= 2);
    }
}

#[test]
fn two_leaves_take_two_growths_and_none_for_a_long_value(rt: HostRuntime) {
    let alloc = heap(&rt, rt.alloc());
    let left = up_to_c(&rt, alloc);
    let right = c_with(&rt, alloc, LONG);
    for growth in 1..=3 {
        alloc.refuse(growth);
        let refused = joined(&rt, &left, &right).is_err();
        is_refused(&rt, alloc, refused, growth <= 2);
    }
}

#[test]
fn two_inner_pages_take_two_growths(rt: HostRuntime) {
    let alloc = heap(&rt, rt.alloc());
    let left = from_start(&rt, alloc);
    let right = upper_half_inner(&rt, &many_children(&rt, alloc), 2).expect(&rt, "memory");
    for growth in 1..=3 {
        alloc.refuse(growth);
        let refused = joined_inner(&rt, &left, &right).is_err();
        is_refused(&rt, alloc, refused, growth <= 2);
    }
}

// A separator of more than 24 bytes, as the second child of these pages has one. It lies among the others.
const LONGER: &[u8] = b"c and more than 24 bytes behind it";

#[test]
fn another_child_takes_two_growths_and_none_for_a_long_separator(rt: HostRuntime) {
    let alloc = heap(&rt, rt.alloc());
    let inner = many_children(&rt, alloc);
    let sep = key(&rt, alloc, LONGER);
    for growth in 1..=3 {
        alloc.refuse(growth);
        let refused = with_child(&rt, &inner, &sep, PageId(5)).is_err();
        is_refused(&rt, alloc, refused, growth <= 2);
    }
}

#[test]
fn the_half_of_an_inner_page_takes_two_growths_and_one_for_a_long_low_key(rt: HostRuntime) {
    let alloc = heap(&rt, rt.alloc());
    let inner = many_children(&rt, alloc);
    for growth in 1..=4 {
        alloc.refuse(growth);
        let refused = upper_half_inner(&rt, &inner, 1).is_err();
        is_refused(&rt, alloc, refused, growth <= 3);
    }
}

// Puts a child at this separator and one at `m` into a page, where this growth is refused. Whether no page came of it.
fn two_refused<R: Abort>(rt: &R, alloc: Alloc, inner: &Inner, sep: &[u8], growth: u64) -> bool {
    let (first, second) = (key(rt, alloc, sep), key(rt, alloc, b"m"));
    with_two(
        rt,
        alloc,
        inner,
        (first, PageId(5)),
        (second, PageId(7)),
        growth,
    )
    .is_err()
}

#[test]
fn more_children_at_once_take_two_growths(rt: HostRuntime) {
    let alloc = heap(&rt, rt.alloc());
    let inner = many_children(&rt, alloc);
    for growth in 1..=3 {
        let refused = two_refused(&rt, alloc, &inner, LONGER, growth);
        is_refused(&rt, alloc, refused, growth <= 2);
    }
}

// Two more give back the room that the child would have taken which another stands for. Where one of them is refused, that
// room stays.
#[test]
fn a_child_in_place_of_another_takes_two_growths_that_may_be_refused(rt: HostRuntime) {
    let alloc = heap(&rt, rt.alloc());
    let inner = many_children(&rt, alloc);
    for growth in 1..=2 {
        let refused = two_refused(&rt, alloc, &inner, b"d", growth);
        is_refused(&rt, alloc, refused, true);
    }
    for (growth, left) in [(3, u64::MAX), (4, 0), (5, 1)] {
        assert_equal(&rt, two_refused(&rt, alloc, &inner, b"d", growth), false);
        assert_equal(&rt, alloc.left(), left);
    }
}

// The page from the long separator on.
#[test]
fn more_children_take_a_growth_for_a_long_low_key(rt: HostRuntime) {
    let alloc = heap(&rt, rt.alloc());
    let inner = upper_half_inner(&rt, &many_children(&rt, alloc), 1).expect(&rt, "memory");
    for growth in 1..=4 {
        let refused = two_refused(&rt, alloc, &inner, LONGER, growth);
        is_refused(&rt, alloc, refused, growth <= 3);
    }
}
