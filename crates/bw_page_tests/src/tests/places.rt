// How many separators come before a key, and how many aren't above it.
use super::making::{heap, key};
use crate::tests::assertions::assert_equal;
use bw_memory::Alloc;
use bw_page::{Children, PageId};
use std::process::Abort;

// Some begin with others, and two differ behind their eighth byte alone.
const SEPARATORS: &[&[u8]] = &[b"", b"b", b"bb", b"longer than 8", b"longer than 9", b"m"];

// Children with these separators.
fn children<R: Abort>(rt: &R, alloc: Alloc) -> Children {
    let mut children = Children::with_capacity(alloc, 6, 30).expect(rt, "memory");
    for sep in SEPARATORS {
        let sep = key(rt, alloc, *sep);
        children.push(&sep, PageId(1)).expect(rt, "memory");
    }
    children
}

// Compares both counts for the separators of these places.
fn counts<R: Abort>(
    rt: &R,
    alloc: Alloc,
    children: &Children,
    range: (usize, usize),
    bytes: &[u8],
    wanted: (usize, usize),
) {
    let (start, end) = range;
    let key = key(rt, alloc, bytes);
    assert!(rt; start <= end && end <= children.len());
    assert_equal(rt, children.place_in(start..end, &key), wanted.0);
    assert_equal(rt, children.place_behind(start..end, &key), wanted.1);
}

// Each separator, what is right below it, and what is right above it.
const OF_ALL: &[(&[u8], (usize, usize))] = &[
    (b"", (0, 1)),
    (b"\0", (1, 1)),
    (b"azzzzzzzz", (1, 1)),
    (b"b", (1, 2)),
    (b"b\0", (2, 2)),
    (b"bazzzzzzz", (2, 2)),
    (b"bb", (2, 3)),
    (b"bb\0", (3, 3)),
    (b"longer t", (3, 3)),
    (b"longer than 7z", (3, 3)),
    (b"longer than 8", (3, 4)),
    (b"longer than 8z", (4, 4)),
    (b"longer than 9", (4, 5)),
    (b"longer than 9\0", (5, 5)),
    (b"lz", (5, 5)),
    (b"m", (5, 6)),
    (b"m\0", (6, 6)),
    (b"z", (6, 6)),
];

#[test]
fn separators_stand_before_at_and_behind_a_key(rt: HostRuntime) {
    let alloc = heap(&rt, rt.alloc());
    let children = children(&rt, alloc);
    for (bytes, wanted) in OF_ALL {
        counts(&rt, alloc, &children, (0, 6), *bytes, *wanted);
    }
}

// Of the third and the fourth separator.
const OF_TWO: &[(&[u8], (usize, usize))] = &[
    (b"", (0, 0)),
    (b"b", (0, 0)),
    (b"bb", (0, 1)),
    (b"c", (1, 1)),
    (b"longer than 8", (1, 2)),
    (b"longer than 9", (2, 2)),
    (b"m", (2, 2)),
];

#[test]
fn separators_of_a_range_stand_beside_a_key(rt: HostRuntime) {
    let alloc = heap(&rt, rt.alloc());
    let children = children(&rt, alloc);
    for (bytes, wanted) in OF_TWO {
        counts(&rt, alloc, &children, (2, 4), *bytes, *wanted);
    }
    counts(&rt, alloc, &children, (1, 2), b"a", (0, 0));
    counts(&rt, alloc, &children, (1, 2), b"b", (0, 1));
    counts(&rt, alloc, &children, (1, 2), b"bb", (1, 1));
}

#[test]
fn no_separator_stands_in_an_empty_range(rt: HostRuntime) {
    let alloc = heap(&rt, rt.alloc());
    let children = children(&rt, alloc);
    for bytes in SEPARATORS {
        counts(&rt, alloc, &children, (3, 3), *bytes, (0, 0));
    }
    counts(&rt, alloc, &children, (0, 0), b"", (0, 0));
    counts(&rt, alloc, &children, (6, 6), b"z", (0, 0));
}
