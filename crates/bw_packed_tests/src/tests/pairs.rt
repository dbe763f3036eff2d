// Lists of pairs.
use super::making::{KEY, counted, heap, within};
use crate::tests::assertions::{assert_equal, assert_that};
use bw_memory::Alloc;
use bw_packed::{Pairs, Run};
use std::process::Abort;

const KEYS: [&[u8]; 4] = [b"", b"a", b"ab", KEY];

const VALUES: [&[u8]; 4] = [b"none", b"", &[118; 1024], b"v"];

// All pairs, with room for just these.
fn all_pairs<R: Abort>(rt: &R, alloc: Alloc) -> Pairs {
    let mut pairs = Pairs::with_capacity(alloc, 4, 1096).expect(rt, "memory");
    for place in 0..4 {
        pairs.push(KEYS[place], VALUES[place]).expect(rt, "memory");
    }
    pairs
}

// Whether these are all pairs.
fn are_all(pairs: &Pairs) -> bool {
    if pairs.len() != 4 {
        return false;
    }
    for place in 0..4 {
        if pairs.key_at(place) != KEYS[place] || pairs.value_at(place) != VALUES[place] {
            return false;
        }
    }
    true
}

// The run of the pairs at these places.
fn run_of<'a, R: Abort>(rt: &R, pairs: &'a Pairs, start: usize, end: usize) -> Run<'a> {
    assert!(rt; start <= end && end <= pairs.len());
    pairs.run(start..end)
}

// How many bytes the pairs at these places have.
fn bytes_in<R: Abort>(rt: &R, pairs: &Pairs, start: usize, end: usize) -> usize {
    assert!(rt; start <= end && end <= pairs.len());
    pairs.bytes_in(start..end)
}

#[test]
fn a_pair_is_a_key_and_a_value(rt: HostRuntime) {
    let pairs = all_pairs(&rt, heap(&rt, rt.alloc()));
    assert_that(&rt, are_all(&pairs));
    assert_that(&rt, !pairs.is_empty());
    assert_equal(&rt, bytes_in(&rt, &pairs, 0, 4), 1096);
    assert_equal(&rt, bytes_in(&rt, &pairs, 1, 2), 1);
}

// Puts pairs together from three runs of them, of which one is empty.
fn copy_of_runs<R: Abort>(rt: &R, alloc: Alloc, pairs: &Pairs) -> Pairs {
    let mut copy = Pairs::new(alloc);
    for (start, end) in [(0, 1), (1, 1), (1, 4)] {
        let run = run_of(rt, pairs, start, end);
        copy.extend(&run).expect(rt, "memory");
    }
    copy
}

#[test]
fn runs_of_pairs_are_copied(rt: HostRuntime) {
    let alloc = heap(&rt, rt.alloc());
    let pairs = all_pairs(&rt, alloc);
    assert_that(&rt, are_all(&copy_of_runs(&rt, alloc, &pairs)));
}

// Whether all pairs are told, in their order.
fn tells_all(pairs: &Pairs) -> bool {
    let mut told = 0;
    for (place, (key, value)) in pairs.iter().enumerate() {
        if place >= 4 || key != KEYS[place] || value != VALUES[place] {
            return false;
        }
        told = place + 1;
    }
    told == 4
}

#[test]
fn pairs_are_told_one_after_another(rt: HostRuntime) {
    let pairs = all_pairs(&rt, heap(&rt, rt.alloc()));
    assert_that(&rt, tells_all(&pairs));
}

// Whether a run tells the second and the third pair.
fn tells_two(run: &Run<'_>) -> bool {
    let mut some = run.iter();
    some.next() == Some((KEYS[1], VALUES[1]))
        && some.next() == Some((KEYS[2], VALUES[2]))
        && some.next().is_none()
}

#[test]
fn a_run_is_told_one_after_another(rt: HostRuntime) {
    let pairs = all_pairs(&rt, heap(&rt, rt.alloc()));
    assert_that(&rt, tells_two(&run_of(&rt, &pairs, 1, 3)));
}

fn finds(run: &Run<'_>, key: &[u8], place: usize) -> bool {
    match run.binary_search(key) {
        Ok(found) => found == place,
        Err(_) => false,
    }
}

fn lacks(run: &Run<'_>, key: &[u8], place: usize) -> bool {
    match run.binary_search(key) {
        Ok(_) => false,
        Err(end) => end == place,
    }
}

#[test]
fn a_place_is_behind_the_pairs_with_smaller_keys(rt: HostRuntime) {
    let alloc = heap(&rt, rt.alloc());
    let mut pairs = all_pairs(&rt, alloc);
    for (place, key) in KEYS.iter().enumerate() {
        assert_equal(&rt, pairs.all().place(key), place);
        assert_that(&rt, finds(&pairs.all(), key, place));
    }
    assert_equal(&rt, pairs.all().place(b"aa"), 2);
    assert_that(&rt, lacks(&pairs.all(), b"aa", 2));
    assert_equal(&rt, pairs.all().place(b"l"), 4);
    pairs.truncate(1);
    assert_equal(&rt, pairs.all().place(b"l"), 1);
    assert_equal(&rt, Pairs::new(alloc).all().place(b"a"), 0);
}

// Whether a run has the pairs that stand from this place on in the list of all.
fn are_from(run: &Run<'_>, first: usize) -> bool {
    if first > 4 || run.len() > 4 - first {
        return false;
    }
    for place in 0..run.len() {
        let at = first + place;
        if run.key_at(place) != KEYS[at] || run.value_at(place) != VALUES[at] {
            return false;
        }
    }
    true
}

// Looks for keys in the run of all pairs but the first.
fn is_searched<R: Abort>(rt: &R, run: &Run<'_>) {
    assert_that(rt, are_from(run, 1));
    assert_equal(rt, run.place(b""), 0);
    assert_equal(rt, run.place(b"ab"), 1);
    assert_equal(rt, run.place(b"l"), 3);
    assert_that(rt, finds(run, b"a", 0));
    assert_that(rt, finds(run, KEY, 2));
    assert_that(rt, lacks(run, b"", 0));
    assert_that(rt, lacks(run, b"aa", 1));
    assert_that(rt, lacks(run, b"l", 3));
}

#[test]
fn a_run_is_searched_from_its_own_first_pair_on(rt: HostRuntime) {
    let pairs = all_pairs(&rt, heap(&rt, rt.alloc()));
    is_searched(&rt, &run_of(&rt, &pairs, 1, 4));
}

// Splits the run of all pairs but the first at this place.
fn splits_at<R: Abort>(rt: &R, run: &Run<'_>, middle: usize) {
    assert!(rt; run.len() == 3 && middle <= 3);
    let (front, back) = run.split_at(middle);
    assert_equal(rt, front.len(), middle);
    assert_equal(rt, back.len(), 3 - middle);
    assert_that(rt, are_from(&front, 1));
    assert_that(rt, are_from(&back, 1 + middle));
}

#[test]
fn a_run_splits_into_two(rt: HostRuntime) {
    let pairs = all_pairs(&rt, heap(&rt, rt.alloc()));
    let run = run_of(&rt, &pairs, 1, 4);
    for middle in 0..4 {
        splits_at(&rt, &run, middle);
    }
}

#[test]
fn a_run_has_the_bytes_of_its_pairs(rt: HostRuntime) {
    let pairs = all_pairs(&rt, heap(&rt, rt.alloc()));
    assert_equal(&rt, pairs.all().byte_count(), 1096);
    assert_equal(&rt, run_of(&rt, &pairs, 1, 3).byte_count(), 1027);
    assert_equal(&rt, run_of(&rt, &pairs, 4, 4).byte_count(), 0);
    assert_that(&rt, run_of(&rt, &pairs, 4, 4).is_empty());
    assert_that(&rt, !run_of(&rt, &pairs, 3, 4).is_empty());
}

#[test]
fn a_copy_is_equal(rt: HostRuntime) {
    let pairs = all_pairs(&rt, heap(&rt, rt.alloc()));
    let copy = pairs.copy().expect(&rt, "memory");
    assert_that(&rt, are_all(&copy));
    assert_equal(&rt, &copy, &pairs);
    let clone = pairs.clone().expect(&rt, "memory");
    assert_that(&rt, are_all(&clone));
    assert_equal(&rt, clone, pairs);
}

// Whether pairs equal these.
fn equal<R: Abort>(
    rt: &R,
    alloc: Alloc,
    pairs: &Pairs,
    others: &[(&'static [u8], &'static [u8])],
) -> bool {
    let mut list = Pairs::new(alloc);
    for (key, value) in others {
        list.push(key, value).expect(rt, "memory");
    }
    *pairs == list
}

#[test]
fn pairs_are_equal_where_each_key_and_value_is(rt: HostRuntime) {
    let alloc = heap(&rt, rt.alloc());
    let mut pairs = Pairs::new(alloc);
    pairs.push(b"a", b"12").expect(&rt, "memory");
    pairs.push(b"b", b"3").expect(&rt, "memory");
    assert_that(
        &rt,
        equal(&rt, alloc, &pairs, &[(b"a", b"12"), (b"b", b"3")]),
    );
    assert_that(
        &rt,
        !equal(&rt, alloc, &pairs, &[(b"a", b"12"), (b"c", b"3")]),
    );
    assert_that(
        &rt,
        !equal(&rt, alloc, &pairs, &[(b"a", b"12"), (b"b", b"4")]),
    );
    assert_that(
        &rt,
        !equal(&rt, alloc, &pairs, &[(b"a1", b"2"), (b"b", b"3")]),
    );
    assert_that(&rt, !equal(&rt, alloc, &pairs, &[(b"a", b"12")]));
    assert_that(
        &rt,
        !equal(
            &rt,
            alloc,
            &pairs,
            &[(b"a", b"12"), (b"b", b"3"), (b"c", b"4")],
        ),
    );
}

// Makes pairs with more room than they need, and gives back what isn't used: a pair takes its bytes and eight more.
fn keep_what_they_use<R: Abort>(rt: &R, alloc: Alloc) {
    let mut pairs = Pairs::with_capacity(alloc, 10, 100).expect(rt, "memory");
    pairs.push(b"key", b"value").expect(rt, "memory");
    assert_equal(rt, alloc.used(), 180);
    pairs.shrink_to_fit();
    assert_equal(rt, alloc.used(), 16);
}

#[test]
fn what_is_dropped_gives_its_memory_back(rt: HostRuntime) {
    let alloc = within(&rt, rt.alloc(), 4096);
    keep_what_they_use(&rt, alloc);
    assert_equal(&rt, alloc.used(), 0);
}

// Adds a pair and a run to no pairs, with this growth refused from then on. Answers whether either was refused.
fn lacks_memory(alloc: Alloc, other: &Pairs, growth: u64) -> bool {
    let mut pairs = Pairs::new(alloc);
    alloc.refuse(growth);
    pairs.push(b"key", b"value").is_err() || pairs.extend(&other.all()).is_err()
}

#[test]
fn each_growth_is_refused_in_turn(rt: HostRuntime) {
    let alloc = counted(&rt, rt.alloc());
    let other = all_pairs(&rt, heap(&rt, rt.alloc()));
    for growth in 1..5 {
        assert_that(&rt, lacks_memory(alloc, &other, growth));
        assert_equal(&rt, alloc.left(), 0);
    }
}

// Whether a run isn't copied where this growth is refused.
fn lacks_copy(alloc: Alloc, run: &Run<'_>, growth: u64) -> bool {
    alloc.refuse(growth);
    run.copy(alloc).is_err()
}

// Whether the copy of a run takes two growths, and not a third.
fn is_copied(alloc: Alloc, run: &Run<'_>) -> bool {
    alloc.refuse(3);
    match run.copy(alloc) {
        Ok(copy) => copy.all().is_same(run) && alloc.left() == 1,
        Err(_) => false,
    }
}

#[test]
fn each_growth_of_a_copy_is_refused_in_turn(rt: HostRuntime) {
    let alloc = counted(&rt, rt.alloc());
    let pairs = all_pairs(&rt, heap(&rt, rt.alloc()));
    let run = run_of(&rt, &pairs, 1, 4);
    for growth in 1..3 {
        assert_that(&rt, lacks_copy(alloc, &run, growth));
        assert_equal(&rt, alloc.left(), 0);
    }
    assert_that(&rt, is_copied(alloc, &run));
}
