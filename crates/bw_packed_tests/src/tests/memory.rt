// The memory that a list takes and gives back, and each growth refused in turn.
use super::making::{Child, counted, has, heap, list_of, within};
use crate::tests::assertions::{assert_equal, assert_that};
use bw_memory::Alloc;
use bw_packed::Packed;
use std::process::Abort;

// A list that is full, since it has all that it has room for.
fn full_list<R: Abort>(rt: &R, alloc: Alloc) -> Packed<Child> {
    let mut list = Packed::with_capacity(alloc, 1, 2).expect(rt, "memory");
    list.push(b"ab", Child(0)).expect(rt, "memory");
    list
}

// Grows a full list with this growth refused. It stays as it is.
fn push_is_refused<R: Abort>(rt: &R, alloc: Alloc, growth: u64) {
    let mut list = full_list(rt, alloc);
    alloc.refuse(growth);
    assert_that(rt, list.push(b"c", Child(1)).is_err());
    assert_equal(rt, alloc.left(), 0);
    assert_that(rt, has(&list, &[b"ab"], 0));
    list.push(b"c", Child(1)).expect(rt, "memory");
    assert_that(rt, has(&list, &[b"ab", b"c"], 0));
}

// Whether a list takes over the second and the third entry of another one.
fn takes_two(list: &mut Packed<Child>, other: &Packed<Child>) -> bool {
    other.len() == 3 && list.extend(other, 1..3).is_ok()
}

// The same by a run of another list.
fn extend_is_refused<R: Abort>(rt: &R, alloc: Alloc, growth: u64) {
    let other = list_of(rt, alloc, &[b"ab", b"c", b"def"]);
    let mut list = full_list(rt, alloc);
    alloc.refuse(growth);
    assert_that(rt, !takes_two(&mut list, &other));
    assert_equal(rt, alloc.left(), 0);
    assert_that(rt, has(&list, &[b"ab"], 0));
    assert_that(rt, takes_two(&mut list, &other));
    assert_that(rt, has(&list, &[b"ab", b"c", b"def"], 0));
}

fn room_is_refused(alloc: Alloc, growth: u64) -> bool {
    alloc.refuse(growth);
    Packed::<Child>::with_capacity(alloc, 1, 1).is_err()
}

#[test]
fn each_growth_is_refused_in_turn(rt: HostRuntime) {
    let alloc = counted(&rt, rt.alloc());
    for growth in 1..3 {
        assert_that(&rt, room_is_refused(alloc, growth));
        push_is_refused(&rt, alloc, growth);
        extend_is_refused(&rt, alloc, growth);
    }
    assert_that(&rt, !room_is_refused(alloc, 3));
}

// Fills a list that was made with room for all, in two growths.
fn fills_its_room<R: Abort>(rt: &R, alloc: Alloc, other: &Packed<Child>) {
    if other.len() != 2 {
        return;
    }
    alloc.refuse(3);
    let mut list = Packed::with_capacity(alloc, 3, 6).expect(rt, "memory");
    list.push(b"ab", Child(0)).expect(rt, "memory");
    list.extend(other, 0..2).expect(rt, "memory");
    assert_equal(rt, alloc.left(), 1);
}

#[test]
fn a_list_with_room_takes_two_growths(rt: HostRuntime) {
    let other = list_of(&rt, heap(&rt, rt.alloc()), &[b"c", b"def"]);
    fills_its_room(&rt, counted(&rt, rt.alloc()), &other);
}

// Makes room in a full list for 20 entries of 40 bytes, in two growths, and adds these.
fn makes_room<R: Abort>(rt: &R, alloc: Alloc) {
    let mut list = full_list(rt, alloc);
    alloc.refuse(3);
    list.reserve(20, 800).expect(rt, "memory");
    for _ in 0..20 {
        list.push(&[120; 40], Child(7)).expect(rt, "memory");
    }
    assert_equal(rt, alloc.left(), 1);
    alloc.refuse(0);
    assert_equal(rt, list.len(), 21);
}

// Makes none where this growth is refused. The list stays as it is.
fn makes_no_room<R: Abort>(rt: &R, alloc: Alloc, growth: u64) {
    let mut list = full_list(rt, alloc);
    alloc.refuse(growth);
    assert_that(rt, list.reserve(20, 800).is_err());
    assert_that(rt, has(&list, &[b"ab"], 0));
}

#[test]
fn room_for_more_takes_two_growths(rt: HostRuntime) {
    let alloc = counted(&rt, rt.alloc());
    makes_room(&rt, alloc);
    makes_no_room(&rt, alloc, 1);
    makes_no_room(&rt, alloc, 2);
}

// Makes a list with more room than it needs, and gives back what isn't used: an entry takes its bytes and 16 more, of
// which the tag takes eight.
fn keeps_what_it_uses<R: Abort>(rt: &R, alloc: Alloc) {
    let mut list = Packed::with_capacity(alloc, 10, 100).expect(rt, "memory");
    list.push(b"ab", Child(0)).expect(rt, "memory");
    list.push(b"c", Child(1)).expect(rt, "memory");
    assert_equal(rt, alloc.used(), 260);
    list.shrink_to_fit();
    assert_equal(rt, alloc.used(), 35);
    assert_that(rt, has(&list, &[b"ab", b"c"], 0));
}

#[test]
fn what_is_dropped_gives_its_memory_back(rt: HostRuntime) {
    let alloc = within(&rt, rt.alloc(), 4096);
    keeps_what_it_uses(&rt, alloc);
    assert_equal(&rt, alloc.used(), 0);
}
