// Inner pages with the shortest and the longest separators that there are, side by side.
use super::making::{
    cut_inner, drop_child, from_start_and_c, has_children, heap, joined_inner, key,
    upper_half_inner, with_child,
};
use crate::tests::assertions::{assert_equal, assert_that};
use bw_key::Key;
use bw_memory::Alloc;
use bw_page::{Inner, PageId};
use std::process::Abort;

// As many bytes as lie in a key's place, and one more.
const A: &[u8] = &[97; 24];

const B: &[u8] = &[98; 25];

// 64 bytes, the most, of which the last ones differ.
const K: &[u8] = &[107; 64];

const KL: &[u8] = b"kkkkkkkkkkkkkkkkkkkkkkkkkkkkkkkkkkkkkkkkkkkkkkkkkkkkkkkkkkkkkkkl";

// The children of the page.
const ALL: &[(&[u8], u32)] = &[(b"", 0), (A, 2), (B, 3), (b"c", 1), (K, 4), (KL, 5)];

// The last page over leaves with these children.
fn longest<R: Abort>(rt: &R, alloc: Alloc) -> Inner {
    let mut inner = from_start_and_c(rt, alloc);
    for (sep, child) in [(A, 2), (B, 3), (K, 4), (KL, 5)] {
        inner = with_child(rt, &inner, &key(rt, alloc, sep), PageId(child)).expect(rt, "memory");
    }
    inner
}

// Compares the child that the page has for a key.
fn leads_to<R: Abort>(rt: &R, alloc: Alloc, inner: &Inner, bytes: &[u8], child: u32) {
    let key = key(rt, alloc, bytes);
    assert!(rt; key >= *inner.low());
    assert_equal(rt, inner.child_for(&key), PageId(child));
}

#[test]
fn separators_of_all_lengths_lie_side_by_side(rt: HostRuntime) {
    let alloc = heap(&rt, rt.alloc());
    let inner = longest(&rt, alloc);
    has_children(&rt, &inner, ALL);
    for (sep, child) in ALL {
        leads_to(&rt, alloc, &inner, sep, *child);
    }
    leads_to(&rt, alloc, &inner, b"a", 0);
    leads_to(&rt, alloc, &inner, &[97; 25], 2);
    leads_to(&rt, alloc, &inner, &[98; 24], 2);
    leads_to(&rt, alloc, &inner, &[107; 63], 1);
    leads_to(&rt, alloc, &inner, b"l", 5);
}

// Ends a page at a key.
fn narrow_to<R: Abort>(rt: &R, inner: &mut Inner, end: Key) {
    assert!(rt; *inner.low() < end);
    inner.narrow(end, PageId(9));
}

#[test]
fn such_a_page_is_parted_and_joined(rt: HostRuntime) {
    let alloc = heap(&rt, rt.alloc());
    let mut inner = longest(&rt, alloc);
    let copy = upper_half_inner(&rt, &inner, 2).expect(&rt, "memory");
    let half = cut_inner(&rt, &mut inner, 2).expect(&rt, "memory");
    has_children(&rt, &inner, &ALL[..2]);
    has_children(&rt, &copy, &ALL[2..]);
    has_children(&rt, &half, &ALL[2..]);
    assert_that(&rt, half.low().bytes() == B);
    narrow_to(&rt, &mut inner, key(&rt, alloc, B));
    let whole = joined_inner(&rt, &inner, &half).expect(&rt, "memory");
    has_children(&rt, &whole, ALL);
}

// Takes a child away, and compares those that are left.
fn loses<R: Abort>(rt: &R, alloc: Alloc, sep: &[u8], wanted: &[(&'static [u8], u32)]) {
    let mut inner = longest(rt, alloc);
    drop_child(rt, &mut inner, &key(rt, alloc, sep));
    has_children(rt, &inner, wanted);
}

#[test]
fn each_child_but_the_first_is_taken_away(rt: HostRuntime) {
    let alloc = heap(&rt, rt.alloc());
    loses(
        &rt,
        alloc,
        A,
        &[(b"", 0), (B, 3), (b"c", 1), (K, 4), (KL, 5)],
    );
    loses(
        &rt,
        alloc,
        B,
        &[(b"", 0), (A, 2), (b"c", 1), (K, 4), (KL, 5)],
    );
    loses(
        &rt,
        alloc,
        K,
        &[(b"", 0), (A, 2), (B, 3), (b"c", 1), (KL, 5)],
    );
    loses(
        &rt,
        alloc,
        KL,
        &[(b"", 0), (A, 2), (B, 3), (b"c", 1), (K, 4)],
    );
    loses(&rt, alloc, b"b", ALL);
    loses(&rt, alloc, b"z", ALL);
}
