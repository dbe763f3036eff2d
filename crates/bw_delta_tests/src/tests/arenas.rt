// An arena, record by record.
use super::making::{delete, heap};
use crate::tests::assertions::{assert_equal, assert_that};
use bw_delta::{Arena, Delta, Memory};
use bw_fixtures::was_refused;
use bw_memory::Alloc;
use std::process::Abort;

// The record of a delete at `a` with this stamp.
fn put<R: Abort>(rt: &R, alloc: Alloc, stamp: u64) -> Delta {
    Delta::Put(delete(rt, alloc, stamp))
}

// Adds a record.
fn push<R: Abort>(rt: &R, arena: &mut Arena, delta: Delta, link: u64) {
    arena.make_room().expect(rt, "memory");
    arena.append(delta, link);
}

// Adds the records from one stamp up to another. The link of each is 10 more than its stamp.
fn add<R: Abort>(rt: &R, alloc: Alloc, arena: &mut Arena, from: u64, to: u64) {
    for stamp in from..to {
        push(rt, arena, put(rt, alloc, stamp), stamp.saturating_add(10));
    }
}

// The records of the stamps below one.
fn records<R: Abort>(rt: &R, alloc: Alloc, count: u64) -> Arena {
    let mut arena = Arena::new(alloc);
    add(rt, alloc, &mut arena, 0, count);
    arena
}

// Three records, whose links are 10, 11 and 12.
fn three<R: Abort>(rt: &R, alloc: Alloc) -> Arena {
    records(rt, alloc, 3)
}

// Whether a record is the delete with this stamp, and has this link.
fn has(arena: &Arena, at: usize, stamp: u64, link: u64) -> bool {
    match arena.get(at) {
        Some((Delta::Put(write), found)) => {
            let is_at_a = write.key() == b"a".as_slice() && write.effect(Some(&[])).is_none();
            write.stamp() == stamp && is_at_a && found == link
        }
        _ => false,
    }
}

// Compares the records, whose stamps are their places, with these links.
fn same<R: Abort>(rt: &R, arena: &Arena, links: &[u64]) {
    assert_equal(rt, arena.len(), links.len());
    for (at, link) in links.iter().enumerate() {
        assert_that(rt, has(arena, at, at as u64, *link));
        assert_equal(rt, arena.link(at), Some(*link));
    }
    assert_that(
        rt,
        arena.get(links.len()).is_none() && arena.link(links.len()).is_none(),
    );
}

#[test]
fn an_arena_has_its_records_in_order(rt: HostRuntime) {
    let alloc = heap(&rt, rt.alloc());
    same(&rt, &Arena::new(alloc), &[]);
    same(&rt, &three(&rt, alloc), &[10, 11, 12]);
}

#[test]
fn links_are_set_from_a_place_on(rt: HostRuntime) {
    let alloc = heap(&rt, rt.alloc());
    let mut arena = three(&rt, alloc);
    if arena.len() != 3 {
        panic!(rt; "three records");
    }
    arena.set_links(1, &[20, 21]);
    same(&rt, &arena, &[10, 20, 21]);
    arena.set_links(0, &[30]);
    same(&rt, &arena, &[30, 20, 21]);
}

#[test]
fn records_behind_a_place_are_left_out(rt: HostRuntime) {
    let alloc = heap(&rt, rt.alloc());
    let mut arena = three(&rt, alloc);
    arena.truncate(5);
    same(&rt, &arena, &[10, 11, 12]);
    arena.truncate(2);
    same(&rt, &arena, &[10, 11]);
    arena.clear();
    same(&rt, &arena, &[]);
}

#[test]
fn a_reserved_record_takes_no_memory(rt: HostRuntime) {
    let alloc = heap(&rt, rt.alloc());
    let mut arena = three(&rt, alloc);
    arena.make_room().expect(&rt, "memory");
    let delta = put(&rt, alloc, 3);
    alloc.refuse(1);
    arena.append(delta, 13);
    assert_equal(&rt, alloc.left(), 1);
    alloc.refuse(0);
    same(&rt, &arena, &[10, 11, 12, 13]);
}

// An arena whose two lists are full doesn't grow where this growth is refused.
fn growth_is_refused<R: Abort>(rt: &R, alloc: Alloc, growth: u64) {
    let mut arena = Arena::new(alloc);
    alloc.refuse(growth);
    assert_equal(rt, arena.make_room(), Err(Memory));
    assert_equal(rt, alloc.left(), 0);
    alloc.refuse(0);
    same(rt, &arena, &[]);
}

#[test]
fn refused_room_leaves_the_records(rt: HostRuntime) {
    let alloc = heap(&rt, rt.alloc());
    growth_is_refused(&rt, alloc, 1);
    growth_is_refused(&rt, alloc, 2);
}

// Compares the records from one place up to another, whose stamps are their places, and whose links are so much more.
fn stand<R: Abort>(rt: &R, arena: &Arena, (from, to): (u64, u64), more: u64) {
    for place in from..to {
        let link = place.saturating_add(more);
        assert_that(rt, has(arena, place as usize, place, link));
    }
}

// Compares an arena with the records of the stamps below one.
fn are_records<R: Abort>(rt: &R, arena: &Arena, count: u64) {
    assert_equal(rt, arena.len() as u64, count);
    stand(rt, arena, (0, count), 10);
    assert_that(
        rt,
        arena.get(count as usize).is_none() && arena.link(count as usize).is_none(),
    );
}

// An arena whose lists each have a full segment of 1,024 records, and no room. Whether the next room was refused where
// this growth was; then the records stand, and the next one finds room.
fn segment_is_refused<R: Abort>(rt: &R, alloc: Alloc, growth: u64) -> bool {
    let mut arena = records(rt, alloc, 1024);
    alloc.refuse(growth);
    let refused = arena.make_room() == Err(Memory);
    assert_equal(rt, was_refused(alloc, growth), refused);
    are_records(rt, &arena, 1024);
    add(rt, alloc, &mut arena, 1024, 1025);
    are_records(rt, &arena, 1025);
    refused
}

// Each of the two lists asks for a segment, so there are two growths at least.
#[test]
fn a_refused_segment_leaves_the_records(rt: HostRuntime) {
    let alloc = heap(&rt, rt.alloc());
    for growth in 1..10u64 {
        if !segment_is_refused(&rt, alloc, growth) {
            assert_that(&rt, growth > 2);
            return;
        }
    }
    panic!(rt; "no room met no refusal");
}

#[test]
fn links_are_set_across_segments(rt: HostRuntime) {
    let alloc = heap(&rt, rt.alloc());
    let mut arena = records(&rt, alloc, 1030);
    if arena.len() != 1030 {
        panic!(rt; "so many records");
    }
    arena.set_links(1022, &[1122, 1123, 1124, 1125]);
    assert_equal(&rt, arena.len(), 1030);
    stand(&rt, &arena, (0, 1022), 10);
    stand(&rt, &arena, (1022, 1026), 100);
    stand(&rt, &arena, (1026, 1030), 10);
}

// Cuts an arena of 1,030 records to so many, and adds the others again.
fn is_cut<R: Abort>(rt: &R, alloc: Alloc, len: u64) {
    let mut arena = records(rt, alloc, 1030);
    arena.truncate(len as usize);
    are_records(rt, &arena, len);
    add(rt, alloc, &mut arena, len, 1030);
    are_records(rt, &arena, 1030);
}

#[test]
fn records_are_left_out_across_segments(rt: HostRuntime) {
    let alloc = heap(&rt, rt.alloc());
    for len in [1025, 1024, 1023, 0] {
        is_cut(&rt, alloc, len);
    }
}
