// Keys of any bytes, and numbers that a picture has no room for.
use super::making::{Row, drawn};
use super::tags::are_closed;
use crate::tests::assertions::assert_that;
use bw_fixtures::heap;
use bw_memory::Alloc;
use std::process::Abort;

// 64 bytes, the most of a key.
const LONGEST: &[u8] = b"0123456789abcdef0123456789abcdef0123456789abcdef0123456789abcdef";

// Draws one leaf, and compares a part of its text.
fn has<R: Abort>(rt: &R, alloc: Alloc, leaf: Row, part: &str) {
    let text = drawn(rt, alloc, &[leaf]);
    assert_that(rt, are_closed(&text));
    let text = String::from_utf8(text).expect(rt, "a text");
    assert_that(rt, text.as_str().contains(part));
}

#[test]
fn bytes_that_mean_something_in_a_tag_are_digits(rt: HostRuntime) {
    let alloc = heap(rt.alloc()).expect(&rt, "memory");
    let leaf: Row = (0, 0, b"a<b", Some(b"\"&\""), 0, 0);
    has(
        &rt,
        alloc,
        leaf,
        "<title>leaf 0, from %613c62 to %222622, 0 pairs</title>",
    );
}

#[test]
fn bytes_beside_the_letters_are_digits(rt: HostRuntime) {
    let alloc = heap(rt.alloc()).expect(&rt, "memory");
    let leaf: Row = (0, 0, b"\x00", Some(b"\xff"), 0, 0);
    has(
        &rt,
        alloc,
        leaf,
        "<text x=\"12\" y=\"40\">from %00</text>\n<text x=\"12\" y=\"56\">to %ff</text>",
    );
}

#[test]
fn a_longest_key_makes_room(rt: HostRuntime) {
    let alloc = heap(rt.alloc()).expect(&rt, "memory");
    let leaf: Row = (0, 0, b"a.b-c_d", Some(LONGEST), 0, 0);
    has(&rt, alloc, leaf, "<rect width=\"560\" height=\"100\"");
}

#[test]
fn a_leaf_with_more_pairs_than_it_should_have_is_full(rt: HostRuntime) {
    let alloc = heap(rt.alloc()).expect(&rt, "memory");
    let leaf: Row = (
        4294967295,
        0,
        b"",
        None,
        18446744073709551615,
        18446744073709551615,
    );
    has(
        &rt,
        alloc,
        leaf,
        "<rect x=\"12\" y=\"66\" width=\"150\" height=\"8\" fill=\"#2f6db3\"/>",
    );
}

#[test]
fn a_page_of_the_highest_level_is_drawn(rt: HostRuntime) {
    let alloc = heap(rt.alloc()).expect(&rt, "memory");
    let page: Row = (0, 4294967295, b"", None, 0, 0);
    has(&rt, alloc, page, "width=\"24\" height=\"687194767384\"");
}
