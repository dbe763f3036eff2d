// What is read of a list, how runs of it are copied, and how it is searched.
ghost use Rattle.std.specs.Prelude.{◌≡◌, ◌≤◌, length};

use super::making::{Child, KEY, KEY_AND_VALUE, counted, has, heap, list_of, push_all};
use crate::tests::assertions::{assert_equal, assert_that};
use bw_memory::Alloc;
use bw_packed::Packed;
use std::process::Abort;

const ENTRIES: [&[u8]; 6] = [b"", KEY, KEY_AND_VALUE, b"", b"", b"a"];

// How many bytes the entries at these places have.
fn bytes_in<R: Abort>(rt: &R, list: &Packed<Child>, start: usize, end: usize) -> usize {
    assert!(rt; start <= end && end <= list.len());
    list.bytes_in(start..end)
}

#[test]
fn entries_of_all_lengths_lie_side_by_side(rt: HostRuntime) {
    let alloc = heap(&rt, rt.alloc());
    let list = list_of(&rt, alloc, &ENTRIES);
    assert_that(&rt, has(&list, &ENTRIES, 0));
    assert_that(&rt, !list.is_empty());
    assert_equal(&rt, bytes_in(&rt, &list, 0, 6), 1153);
    assert_equal(&rt, bytes_in(&rt, &list, 1, 2), 64);
    assert_equal(&rt, bytes_in(&rt, &list, 3, 5), 0);
}

// Puts a list together from the entries before a run, a copy of the run, and the entries behind it.
fn copies_run<R: Abort>(
    rt: &R,
    alloc: Alloc,
    list: &Packed<Child>,
    entries: &[&[u8]],
    start: usize,
    end: usize,
)
    requires ordered { start ≤ end }
    requires within { end ≤ length list.now }
    requires all { length list.now ≡ length entries.now }
{
    let mut copy = list_of(rt, alloc, &entries[..start]);
    copy.extend(list, start..end).expect(rt, "memory");
    assert_that(rt, has(&copy, &entries[..end], 0));
    push_all(&mut copy, &entries[end..], end).expect(rt, "memory");
    assert_that(rt, has(&copy, entries, 0));
}

#[test]
fn each_run_is_copied_behind_others(rt: HostRuntime) {
    let alloc = heap(&rt, rt.alloc());
    let list = list_of(&rt, alloc, &ENTRIES);
    assert!(rt; list.len() == ENTRIES.len());
    for end in 0..7 {
        for start in 0..end + 1 {
            copies_run(&rt, alloc, &list, &ENTRIES, start, end);
        }
    }
}

#[test]
fn a_list_is_cut_and_goes_on(rt: HostRuntime) {
    let alloc = heap(&rt, rt.alloc());
    let mut list = list_of(&rt, alloc, &ENTRIES);
    list.truncate(7);
    assert_that(&rt, has(&list, &ENTRIES, 0));
    list.truncate(2);
    assert_that(&rt, has(&list, &ENTRIES[..2], 0));
    push_all(&mut list, &ENTRIES[2..], 2).expect(&rt, "memory");
    assert_that(&rt, has(&list, &ENTRIES, 0));
    list.truncate(0);
    assert_that(&rt, list.is_empty());
}

// Takes an entry away, and compares those before it and those behind it.
fn loses_entry<R: Abort>(rt: &R, alloc: Alloc, place: usize) {
    let mut list = list_of(rt, alloc, &ENTRIES);
    assert!(rt; place < list.len());
    let before = alloc.left();
    list.remove(place);
    assert_equal(rt, alloc.left(), before);
    assert!(rt; place < ENTRIES.len() && place <= list.len());
    let (mut front, mut behind) = (Packed::new(alloc), Packed::new(alloc));
    front.extend(&list, 0..place).expect(rt, "memory");
    behind.extend(&list, place..list.len()).expect(rt, "memory");
    assert_that(rt, has(&front, &ENTRIES[..place], 0));
    assert_that(rt, has(&behind, &ENTRIES[place + 1..], place + 1));
}

#[test]
fn an_entry_is_taken_away_without_memory(rt: HostRuntime) {
    let alloc = counted(&rt, rt.alloc());
    for place in 0..ENTRIES.len() {
        loses_entry(&rt, alloc, place);
    }
}

// Compares how many of the entries at these places have a smaller key.
fn is_behind<R: Abort>(
    rt: &R,
    list: &Packed<Child>,
    range: (usize, usize),
    key: &[u8],
    place: usize,
) {
    let (start, end) = range;
    assert!(rt; start <= end && end <= list.len());
    assert_equal(rt, list.place(start..end, key), place);
}

#[test]
fn a_place_is_behind_the_smaller_keys(rt: HostRuntime) {
    let alloc = heap(&rt, rt.alloc());
    let rising: [&[u8]; 5] = [b"", b"a", b"ab", b"b", KEY];
    let list = list_of(&rt, alloc, &rising);
    for (place, key) in rising.iter().enumerate() {
        is_behind(&rt, &list, (0, 5), key, place);
    }
    is_behind(&rt, &list, (0, 5), b"aa", 2);
    is_behind(&rt, &list, (0, 5), b"l", 5);
    is_behind(&rt, &list, (1, 4), b"aa", 1);
    is_behind(&rt, &list, (1, 4), b"l", 3);
    is_behind(&rt, &list, (2, 2), b"l", 0);
    is_behind(&rt, &list_of(&rt, alloc, &[]), (0, 0), b"a", 0);
}

// Compares how many of the entries at these places have a key that isn't above one.
fn are_upto<R: Abort>(
    rt: &R,
    list: &Packed<Child>,
    range: (usize, usize),
    key: &[u8],
    count: usize,
) {
    let (start, end) = range;
    assert!(rt; start <= end && end <= list.len());
    assert_equal(rt, list.place_behind(start..end, key), count);
}

#[test]
fn a_place_is_behind_the_keys_that_arent_greater(rt: HostRuntime) {
    let alloc = heap(&rt, rt.alloc());
    let rising: [&[u8]; 6] = [b"", b"a", b"ab", b"b", KEY, b"kkkkkkkl"];
    let list = list_of(&rt, alloc, &rising);
    for (place, key) in rising.iter().enumerate() {
        are_upto(&rt, &list, (0, 6), key, place.saturating_add(1));
    }
    are_upto(&rt, &list, (0, 6), b"aa", 2);
    are_upto(&rt, &list, (0, 6), b"kkkkkkkk", 4);
    are_upto(&rt, &list, (0, 6), b"l", 6);
    are_upto(&rt, &list, (1, 4), b"aa", 1);
    are_upto(&rt, &list, (1, 4), b"b", 3);
    are_upto(&rt, &list, (2, 2), b"l", 0);
    are_upto(&rt, &list_of(&rt, alloc, &[]), (0, 0), b"a", 0);
}
