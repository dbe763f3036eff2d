// The limits of a key, its order, and what takes memory.
mod assertions;

use crate::tests::assertions::{assert_equal, assert_that};
use bw_key::{Key, KeyFault, Memory, compare_bytes, compare_prefixed};
use bw_memory::{Alloc, Heap};
use std::alloc::Global;
use std::cmp::Ordering;
use std::mem::size_of;
use std::process::Abort;

const BYTES: [u8; 65] = [107; 65];

fn heap<R: Abort>(rt: &R, global: Global) -> Alloc {
    Heap::counted(global).leak(global).expect(rt, "a heap")
}

// A heap with this limit.
fn within<R: Abort>(rt: &R, global: Global, limit: u64) -> Alloc {
    Heap::within(global, limit)
        .leak(global)
        .expect(rt, "a heap")
}

fn key<R: Abort>(rt: &R, alloc: Alloc, bytes: &[u8]) -> Key {
    Key::new(alloc, bytes).expect(rt, "a key")
}

// Compares a key and its copy with the bytes that it was made of.
fn has_bytes<R: Abort>(rt: &R, key: &Key, bytes: &[u8]) {
    assert_that(rt, key.bytes() == bytes);
    let copy = key.copy().expect(rt, "memory");
    assert_that(rt, copy.bytes() == bytes);
    assert_that(rt, copy == *key);
}

// Whether no key is made of 65 bytes.
fn is_too_long(alloc: Alloc) -> bool {
    Key::new(alloc, &BYTES).err() == Some(KeyFault::TooLong(65))
}

#[test]
fn keys_have_at_most_64_bytes(rt: HostRuntime) {
    let alloc = heap(&rt, rt.alloc());
    for len in [0, 1, 24, 25, 63, 64] {
        let bytes = &BYTES[..len];
        has_bytes(&rt, &key(&rt, alloc, bytes), bytes);
    }
    assert_that(&rt, is_too_long(alloc));
}

// Compares two keys by each way to do so.
fn stand<R: Abort>(rt: &R, left: &Key, right: &Key, order: Ordering) {
    assert_that(rt, left.cmp(right) == order);
    let prefixed = compare_prefixed(left.bytes(), left.prefix(), right.bytes(), right.prefix());
    assert_that(rt, prefixed == order);
    assert_that(rt, compare_bytes(left.bytes(), right.bytes()) == order);
    assert_that(rt, left.partial_cmp(right) == Some(order));
    assert_equal(rt, left == right, order == Ordering::Equal);
}

// Compares each two of some keys that rise.
fn rise<R: Abort>(rt: &R, alloc: Alloc, rising: &[&[u8]]) {
    for (i, lower) in rising.iter().enumerate() {
        let lower = key(rt, alloc, lower);
        for (j, upper) in rising.iter().enumerate() {
            stand(rt, &lower, &key(rt, alloc, upper), i.cmp(&j));
        }
    }
}

const RISING: &[&[u8]] = &[
    b"",
    b"\x00",
    b"\x00\xff",
    b"A",
    b"a",
    b"aa",
    b"ab",
    b"b",
    b"\x7f",
    b"\x80",
    b"\xff",
];

#[test]
fn keys_are_ordered_byte_by_byte(rt: HostRuntime) {
    rise(&rt, heap(&rt, rt.alloc()), RISING);
}

const RISING_ALIKE: &[&[u8]] = &[
    b"abcdefg",
    b"abcdefg\x00",
    b"abcdefg\x00\x00",
    b"abcdefg\x00a",
    b"abcdefgh",
    b"abcdefgh\x00",
    b"abcdefgh\x00\x01",
    b"abcdefghi",
    b"abcdefgi",
];

#[test]
fn keys_that_begin_alike_stand_by_their_rest(rt: HostRuntime) {
    rise(&rt, heap(&rt, rt.alloc()), RISING_ALIKE);
}

// The prefix of a key of these bytes.
fn prefix_of<R: Abort>(rt: &R, alloc: Alloc, bytes: &[u8]) -> u64 {
    key(rt, alloc, bytes).prefix()
}

const PREFIXES: &[(&[u8], u64)] = &[
    (b"", 0),
    (b"\x01", 0x0100_0000_0000_0000),
    (b"abcdefg", 0x6162_6364_6566_6700),
    (b"abcdefgh", 0x6162_6364_6566_6768),
    (b"abcdefghi", 0x6162_6364_6566_6768),
];

#[test]
fn a_prefix_has_eight_bytes(rt: HostRuntime) {
    let alloc = heap(&rt, rt.alloc());
    for &(bytes, prefix) in PREFIXES {
        assert_equal(&rt, prefix_of(&rt, alloc, bytes), prefix);
    }
}

#[test]
fn long_keys_are_ordered_as_short_ones(rt: HostRuntime) {
    let alloc = heap(&rt, rt.alloc());
    let long = key(&rt, alloc, &BYTES[..64]);
    stand(&rt, &long, &key(&rt, alloc, b"kl"), Ordering::Less);
    let prefix = key(&rt, alloc, &BYTES[..24]);
    stand(&rt, &long, &prefix, Ordering::Greater);
}

#[test]
fn short_keys_take_no_memory(rt: HostRuntime) {
    let alloc = heap(&rt, rt.alloc());
    alloc.refuse(1);
    for len in [0, 1, 23, 24] {
        let bytes = &BYTES[..len];
        has_bytes(&rt, &key(&rt, alloc, bytes), bytes);
    }
    assert_equal(&rt, alloc.left(), 1);
}

// Makes a key of these bytes, and a copy of it, where each growth is refused in turn.
fn wants_one_growth<R: Abort>(rt: &R, alloc: Alloc, bytes: &[u8]) {
    alloc.refuse(1);
    assert_that(rt, Key::new(alloc, bytes).err() == Some(KeyFault::Memory));
    assert_equal(rt, alloc.left(), 0);

    alloc.refuse(2);
    let key = key(rt, alloc, bytes);
    assert_that(rt, key.copy().is_err());
    assert_equal(rt, alloc.left(), 0);
    has_bytes(rt, &key, bytes);
}

#[test]
fn long_keys_want_one_growth(rt: HostRuntime) {
    let alloc = heap(&rt, rt.alloc());
    for len in [25, 64] {
        wants_one_growth(&rt, alloc, &BYTES[..len]);
    }
    alloc.refuse(1);
    assert_that(&rt, is_too_long(alloc));
    assert_equal(&rt, alloc.left(), 1);
}

// Copies a key of 25 bytes once, and has no room for more.
fn has_room_for_a_copy<R: Abort>(rt: &R, alloc: Alloc, key: &Key) {
    let _copy = key.copy().expect(rt, "memory");
    assert_equal(rt, alloc.used(), 50);
    assert_that(rt, key.copy().is_err());
}

// The same behind the key itself.
fn has_room_for_two<R: Abort>(rt: &R, alloc: Alloc) {
    let key = key(rt, alloc, &BYTES[..25]);
    assert_equal(rt, alloc.used(), 25);
    has_room_for_a_copy(rt, alloc, &key);
}

#[test]
fn a_long_key_has_as_many_bytes_of_memory(rt: HostRuntime) {
    let alloc = within(&rt, rt.alloc(), 64);
    has_room_for_two(&rt, alloc);
    assert_equal(&rt, alloc.used(), 0);
    assert_equal(&rt, size_of::<Key>(), 48);
}

// Copies a key of 25 bytes into another heap, and that copy again.
fn has_room_elsewhere<R: Abort>(rt: &R, key: &Key, other: Alloc) {
    let copy = key.copy_in(other).expect(rt, "memory");
    assert_that(rt, copy.bytes() == key.bytes());
    assert_equal(rt, other.used(), 25);
    let _second = copy.copy().expect(rt, "memory");
    assert_equal(rt, other.used(), 50);
    assert_that(rt, key.copy_in(other).is_err());
}

#[test]
fn a_copy_is_in_the_heap_that_it_was_made_with(rt: HostRuntime) {
    let first = heap(&rt, rt.alloc());
    let other = within(&rt, rt.alloc(), 64);
    let key = key(&rt, first, &BYTES[..25]);
    first.refuse(1);
    has_room_elsewhere(&rt, &key, other);
    assert_equal(&rt, first.left(), 1);
    assert_equal(&rt, other.used(), 0);
}

fn one_byte(alloc: Alloc) -> Result<Vec<u8, Alloc>, Memory> {
    let mut bytes = Vec::new(alloc);
    bytes.push(7)?;
    Ok(bytes)
}

#[test]
fn a_refused_push_is_out_of_memory(rt: HostRuntime) {
    let alloc = heap(&rt, rt.alloc());
    alloc.refuse(1);
    assert_that(&rt, one_byte(alloc).is_err());
    let bytes = one_byte(alloc).expect(&rt, "memory");
    assert_that(&rt, bytes.as_slice() == [7].as_slice());
}

// Compares how a key is shown with a text.
fn is_shown<R: Abort>(rt: &R, alloc: Alloc, key: &Key, text: &str) {
    let shown = format!(in alloc; "{key}").expect(rt, "memory");
    assert_that(rt, shown.as_str() == text);
}

const SPELLINGS: &[(&[u8], &str)] = &[
    (b"apple", "apple"),
    (b"az_AZ.09-", "az_AZ.09-"),
    (b"", "%"),
    (b"a b", "%612062"),
    (b"\x00\xff", "%00ff"),
    (b"%", "%25"),
];

#[test]
fn keys_are_shown_plain_or_by_their_digits(rt: HostRuntime) {
    let alloc = heap(&rt, rt.alloc());
    for &(bytes, text) in SPELLINGS {
        is_shown(&rt, alloc, &key(&rt, alloc, bytes), text);
    }
}

#[test]
fn a_clone_is_an_equal_key_in_one_growth(rt: HostRuntime) {
    let alloc = heap(&rt, rt.alloc());
    let long = key(&rt, alloc, &BYTES[..25]);
    alloc.refuse(1);
    assert_that(&rt, long.clone().is_err());
    alloc.refuse(2);
    let clone = long.clone().expect(&rt, "memory");
    assert_that(&rt, clone == long);
    assert_equal(&rt, alloc.left(), 1);
}

// The text of what a key may not be made for.
fn text_of<R: Abort>(rt: &R, global: Global, fault: KeyFault) -> String {
    format!(in global; "{fault}").expect(rt, "memory")
}

#[test]
fn faults_say_what_is_wrong(rt: HostRuntime) {
    let text = text_of(&rt, rt.alloc(), KeyFault::TooLong(65));
    assert_that(
        &rt,
        text.as_str() == "key of 65 bytes is longer than 64 bytes",
    );
    let text = text_of(&rt, rt.alloc(), KeyFault::Memory);
    assert_that(&rt, text.as_str() == "out of memory");
}

#[test]
fn out_of_memory_is_shown_so(rt: HostRuntime) {
    let alloc = rt.alloc();
    let text = format!(in alloc; "{}", Memory).expect(&rt, "memory");
    assert_that(&rt, text.as_str() == "out of memory");
}
