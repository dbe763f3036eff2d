// Lists over several segments, the memory that they take and give back, and each growth refused in turn.
mod assertions;

use crate::tests::assertions::{assert_equal, assert_that};
use bw_key::Key;
use bw_memory::{Alloc, Heap};
use bw_segment::{SEGMENT, Segmented};
use std::process::Abort;
use std::test::Fail;

// Adds the numbers from one up to another.
fn push_all<R: Abort>(rt: &R, list: &mut Segmented<u64>, from: u64, to: u64) {
    for number in from..to {
        list.push(number).expect(rt, "memory");
    }
}

// The list of the numbers below one.
fn list_to<R: Abort>(rt: &R, alloc: Alloc, to: u64) -> Segmented<u64> {
    let mut list = Segmented::new(alloc);
    push_all(rt, &mut list, 0, to);
    list
}

// Whether a list is that of the numbers below one.
fn counts_to(list: &Segmented<u64>, to: u64) -> bool {
    for number in 0..to {
        if list.get(number as usize).copied() != Some(number) {
            return false;
        }
    }
    list.len() as u64 == to && list.get(to as usize).is_none()
}

// A list with room for one entry more takes no memory for it.
fn push_takes_no_memory<R: Abort>(rt: &R, alloc: Alloc, len: u64) {
    let mut list = list_to(rt, alloc, len);
    list.make_room().expect(rt, "memory");
    alloc.refuse(1);
    list.push(len).expect(rt, "room");
    assert_equal(rt, alloc.left(), 1);
    alloc.refuse(0);
    assert_that(rt, counts_to(&list, len.saturating_add(1)));
}

// A full list doesn't grow where this growth is refused, and stays as it is.
fn growth_is_refused<R: Abort>(rt: &R, alloc: Alloc, len: u64, growth: u64) {
    let mut list = list_to(rt, alloc, len);
    alloc.refuse(growth);
    assert_that(rt, list.push(len).is_err());
    assert_equal(rt, alloc.left(), 0);
    assert_that(rt, counts_to(&list, len));
    push_all(rt, &mut list, len, len.saturating_add(1));
    assert_that(rt, counts_to(&list, len.saturating_add(1)));
}

#[test]
fn segments_have_1024_entries(rt: HostRuntime) {
    assert_equal(&rt, SEGMENT, 1024);
}

#[test]
fn entries_stand_where_they_were_added(rt: HostRuntime) -> Result<(), Fail> {
    let alloc = Heap::new(rt.alloc()).leak(rt.alloc())?;
    for len in [0, 1, 1023, 1024, 1025, 2048, 3000] {
        assert_that(&rt, counts_to(&list_to(&rt, alloc, len), len));
    }
    Ok(())
}

#[test]
fn a_shorter_list_goes_on(rt: HostRuntime) -> Result<(), Fail> {
    let alloc = Heap::new(rt.alloc()).leak(rt.alloc())?;
    let mut list = list_to(&rt, alloc, 3000);
    for len in [4000, 3000, 2049, 2048, 2047, 1024, 1023, 0] {
        list.truncate(len as usize);
        assert_that(&rt, counts_to(&list, len.min(3000)));
        push_all(&rt, &mut list, len.min(3000), 3000);
        assert_that(&rt, counts_to(&list, 3000));
    }
    Ok(())
}

// Puts a number in a place. Whether another one stood there, which is answered.
fn replaces<R: Abort>(
    rt: &R,
    list: &mut Segmented<u64>,
    place: usize,
    number: u64,
    old: u64,
) -> bool {
    if place >= list.len() {
        panic!(rt; "a place in the list");
    }
    list.replace(place, number) == old && list.get(place) == Some(&number)
}

// Puts a number in a place.
fn sets<R: Abort>(rt: &R, list: &mut Segmented<u64>, place: usize, number: u64) {
    if place >= list.len() {
        panic!(rt; "a place in the list");
    }
    list.set(place, number);
}

// Puts numbers in the places from one on.
fn overwrites<R: Abort>(rt: &R, list: &mut Segmented<u64>, start: usize, numbers: &[u64]) {
    if start > list.len() || numbers.len() > list.len() - start {
        panic!(rt; "places in the list");
    }
    list.overwrite(start, numbers);
}

#[test]
fn entries_are_replaced_in_each_segment(rt: HostRuntime) -> Result<(), Fail> {
    let alloc = Heap::new(rt.alloc()).leak(rt.alloc())?;
    let mut list = list_to(&rt, alloc, 3000);
    for place in [0, 1023, 1024, 2047, 2048, 2999] {
        assert_that(&rt, replaces(&rt, &mut list, place, 7, place as u64));
    }
    for place in [0, 1023, 1024, 2047, 2048, 2999] {
        sets(&rt, &mut list, place, place as u64);
    }
    assert_that(&rt, counts_to(&list, 3000));
    Ok(())
}

// The second and the third write end behind the bound of two segments, the fourth one at it.
#[test]
fn entries_are_overwritten_across_segments(rt: HostRuntime) -> Result<(), Fail> {
    let alloc = Heap::new(rt.alloc()).leak(rt.alloc())?;
    let mut list = list_to(&rt, alloc, 3000);
    for place in [1022, 1023, 1024, 2046, 2047, 2999] {
        sets(&rt, &mut list, place, 7);
    }
    overwrites(&rt, &mut list, 3000, &[]);
    overwrites(&rt, &mut list, 1022, &[1022, 1023, 1024]);
    overwrites(&rt, &mut list, 2047, &[2047, 2048]);
    overwrites(&rt, &mut list, 2046, &[2046, 2047]);
    overwrites(&rt, &mut list, 2999, &[2999]);
    assert_that(&rt, counts_to(&list, 3000));
    Ok(())
}

#[test]
fn room_that_was_made_takes_no_memory_later(rt: HostRuntime) -> Result<(), Fail> {
    let alloc = Heap::counted(rt.alloc()).leak(rt.alloc())?;
    for len in [0, 1, 1023, 1024, 2048] {
        push_takes_no_memory(&rt, alloc, len);
    }
    Ok(())
}

// The list of full segments grows first, and then the new segment is made.
#[test]
fn each_growth_is_refused_in_turn(rt: HostRuntime) -> Result<(), Fail> {
    let alloc = Heap::counted(rt.alloc()).leak(rt.alloc())?;
    growth_is_refused(&rt, alloc, 0, 1);
    growth_is_refused(&rt, alloc, 512, 1);
    growth_is_refused(&rt, alloc, 1024, 1);
    growth_is_refused(&rt, alloc, 1024, 2);
    Ok(())
}

// A short list takes little, a longer one a segment at a time, and a shorter one gives its segments back.
fn takes_segments<R: Abort>(rt: &R, alloc: Alloc) {
    let mut list = list_to(rt, alloc, 3);
    assert_that(rt, alloc.used() <= 64);
    push_all(rt, &mut list, 3, 100_000);
    assert_that(rt, alloc.used() >= 800_000 && alloc.used() < 820_000);
    list.truncate(1);
    assert_that(rt, alloc.used() <= 64);
}

#[test]
fn what_is_left_out_gives_its_memory_back(rt: HostRuntime) -> Result<(), Fail> {
    let alloc = Heap::within(rt.alloc(), 1_000_000).leak(rt.alloc())?;
    takes_segments(&rt, alloc);
    assert_equal(&rt, alloc.used(), 0);
    Ok(())
}

// Cuts a list of 5,000 numbers, which takes five segments of 8,192 bytes and the list of them. At most so many are left.
fn leaves_segments<R: Abort>(rt: &R, alloc: Alloc, len: u64, segments: u64) {
    let mut list = list_to(rt, alloc, 5000);
    assert_that(
        rt,
        alloc.used() >= 5 * 8192 && alloc.used() < 5 * 8192 + 512,
    );
    list.truncate(len as usize);
    assert_that(
        rt,
        alloc.used() < segments.saturating_mul(8192).saturating_add(512),
    );
    assert_that(rt, counts_to(&list, len));
}

// Of a list that ends with a full segment no other stays, and a few entries lie in a small block.
#[test]
fn a_cut_gives_back_the_segments_behind_it(rt: HostRuntime) -> Result<(), Fail> {
    let alloc = Heap::within(rt.alloc(), 1_000_000).leak(rt.alloc())?;
    for (len, segments) in [(0, 0), (1, 0), (1023, 1), (1024, 1), (2047, 2), (2048, 2)] {
        leaves_segments(&rt, alloc, len, segments);
        assert_equal(&rt, alloc.used(), 0);
    }
    Ok(())
}

// A cut for which this growth is refused: the list of segments, or what is left of the last one, stays where it is. The count
// of growths that are left wraps where one more is made.
fn keeps_its_room<R: Abort>(rt: &R, alloc: Alloc, len: u64, growth: u64) {
    let mut list = list_to(rt, alloc, 5000);
    alloc.refuse(growth);
    list.truncate(len as usize);
    assert_that(rt, alloc.left() == 0 || alloc.left() > growth);
    assert_that(rt, counts_to(&list, len));
    push_all(rt, &mut list, len, 5000);
    assert_that(rt, counts_to(&list, 5000));
}

// Where no segment is left but the last one, the list of segments goes without a growth.
#[test]
fn a_cut_needs_no_memory(rt: HostRuntime) -> Result<(), Fail> {
    let alloc = Heap::counted(rt.alloc()).leak(rt.alloc())?;
    keeps_its_room(&rt, alloc, 1, 1);
    keeps_its_room(&rt, alloc, 1025, 1);
    keeps_its_room(&rt, alloc, 1025, 2);
    Ok(())
}

// A key of 40 bytes, which takes as many of the heap.
fn long_key<R: Abort>(rt: &R, alloc: Alloc) -> Key {
    Key::new(alloc, &[b'k'; 40]).expect(rt, "memory")
}

// Adds so many of them.
fn push_keys<R: Abort>(rt: &R, alloc: Alloc, list: &mut Segmented<Key>, count: u64) {
    for _ in 0..count {
        list.push(long_key(rt, alloc)).expect(rt, "memory");
    }
}

// Puts a key that takes no memory in a place, in two ways.
fn put_short<R: Abort>(
    rt: &R,
    alloc: Alloc,
    list: &mut Segmented<Key>,
    place: usize,
    is_set: bool,
) {
    let key = Key::new(alloc, b"k").expect(rt, "a short key");
    if place >= list.len() {
        panic!(rt; "a place in the list");
    }
    if is_set {
        list.set(place, key);
    } else {
        let _old = list.replace(place, key);
    }
}

// Whether so many bytes fewer are in use than before.
fn gave_back(alloc: Alloc, before: u64, bytes: u64) -> bool {
    alloc.used().saturating_add(bytes) == before
}

// Long keys in two segments, of which one in each is replaced, one is set, and the last ones are cut off.
fn gives_back_keys<R: Abort>(rt: &R, alloc: Alloc) {
    let mut list = Segmented::new(alloc);
    push_keys(rt, alloc, &mut list, 1030);
    let all = alloc.used();
    put_short(rt, alloc, &mut list, 1023, false);
    put_short(rt, alloc, &mut list, 1024, false);
    assert_that(rt, gave_back(alloc, all, 80));
    put_short(rt, alloc, &mut list, 0, true);
    put_short(rt, alloc, &mut list, 1029, true);
    assert_that(rt, gave_back(alloc, all, 160));
    list.truncate(1025);
    // The second segment has room for two keys now.
    assert_that(rt, gave_back(alloc, all, 320 + 1022 * 48));
}

// Of long keys in three segments one is left, in a block for two. A key takes 48 bytes there.
fn gives_back_segments_of_keys<R: Abort>(rt: &R, alloc: Alloc) {
    let mut list = Segmented::new(alloc);
    push_keys(rt, alloc, &mut list, 2050);
    list.truncate(1);
    let one = alloc.used();
    assert_equal(rt, one, 2 * 48 + 40);
    list.truncate(0);
    assert_that(rt, gave_back(alloc, one, 40));
}

#[test]
fn entries_give_their_memory_back(rt: HostRuntime) -> Result<(), Fail> {
    let alloc = Heap::within(rt.alloc(), 1_000_000).leak(rt.alloc())?;
    gives_back_keys(&rt, alloc);
    assert_equal(&rt, alloc.used(), 0);
    gives_back_segments_of_keys(&rt, alloc);
    assert_equal(&rt, alloc.used(), 0);
    Ok(())
}
