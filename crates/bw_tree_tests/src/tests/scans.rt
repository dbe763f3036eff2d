// Scans over three leaves.
use super::making::{Range, TextPair, are, end_of, has_first, has_last, heap, key, three_leaves};
use super::refused::was_refused;
use crate::tests::assertions::{assert_equal, assert_that};
use bw_key::Key;
use bw_memory::Alloc;
use bw_model::Pairs;
use bw_tree::{Memory, Scans, Tree};
use std::alloc::Global;
use std::process::Abort;

// Compares the first pairs of a range of three leaves.
fn first_of_three<R: Abort>(rt: &R, global: Global, range: Range, wanted: &[TextPair]) {
    let alloc = heap(rt, global);
    has_first(rt, alloc, &three_leaves(rt, alloc), range, wanted);
}

// Compares the last pairs of a range of three leaves, the greatest key first.
fn last_of_three<R: Abort>(rt: &R, global: Global, range: Range, wanted: &[TextPair]) {
    let alloc = heap(rt, global);
    has_last(rt, alloc, &three_leaves(rt, alloc), range, wanted);
}

#[test]
fn a_scan_goes_on_from_leaf_to_leaf(rt: HostRuntime) {
    let wanted: &[TextPair] = &[(b"b", b"2"), (b"c", b"3")];
    first_of_three(&rt, rt.alloc(), (b"b", None, 2), wanted);
}

#[test]
fn a_scan_stops_before_its_end(rt: HostRuntime) {
    let wanted: &[TextPair] = &[(b"a", b"1"), (b"b", b"2")];
    first_of_three(&rt, rt.alloc(), (b"", Some(b"c"), 9), wanted);
}

#[test]
fn a_scan_back_goes_on_from_leaf_to_leaf(rt: HostRuntime) {
    let wanted: &[TextPair] = &[(b"e", b"5"), (b"c", b"3"), (b"b", b"2")];
    last_of_three(&rt, rt.alloc(), (b"b", None, u64::MAX), wanted);
}

#[test]
fn a_scan_back_begins_below_its_end(rt: HostRuntime) {
    let wanted: &[TextPair] = &[(b"c", b"3"), (b"b", b"2")];
    last_of_three(&rt, rt.alloc(), (b"", Some(b"e"), 2), wanted);
}

#[test]
fn a_scan_back_of_no_range_has_no_pairs(rt: HostRuntime) {
    last_of_three(&rt, rt.alloc(), (b"c", Some(b"c"), 9), &[]);
}

// Compares the first pairs of a range, which these scans find.
fn scan<R: Abort>(
    rt: &R,
    alloc: Alloc,
    scans: &mut Scans<'_>,
    stamp: u64,
    (from, to, most): Range,
    wanted: &[TextPair],
) {
    let (from, to) = (key(rt, alloc, from), end_of(rt, alloc, to));
    let pairs = scans
        .scan(&from, to.as_ref(), most, stamp)
        .expect(rt, "memory");
    assert_that(rt, are(&pairs, wanted));
}

// Compares the last pairs of a range, the greatest key first.
fn scan_back<R: Abort>(
    rt: &R,
    alloc: Alloc,
    scans: &mut Scans<'_>,
    stamp: u64,
    (from, to, most): Range,
    wanted: &[TextPair],
) {
    let (from, to) = (key(rt, alloc, from), end_of(rt, alloc, to));
    let pairs = scans
        .scan_back(&from, to.as_ref(), most, stamp)
        .expect(rt, "memory");
    assert_that(rt, are(&pairs, wanted));
}

// Scans from the first leaf on as of a stamp.
fn scan_at<R: Abort>(rt: &R, alloc: Alloc, scans: &mut Scans<'_>, stamp: u64) {
    let first: &[TextPair] = &[(b"b", b"2"), (b"c", b"3")];
    let last: &[TextPair] = &[(b"e", b"5"), (b"c", b"3")];
    scan(rt, alloc, scans, stamp, (b"b", None, 2), first);
    scan_back(rt, alloc, scans, stamp, (b"b", None, 2), last);
    scan(rt, alloc, scans, stamp, (b"b", None, 0), &[]);
}

#[test]
fn scans_follow_one_another_at_any_stamps(rt: HostRuntime) {
    let alloc = heap(&rt, rt.alloc());
    let tree = three_leaves(&rt, alloc);
    let mut scans = Scans::new(alloc, tree.look());
    for stamp in [3u64, 7, 7, 2] {
        scan_at(&rt, alloc, &mut scans, stamp);
    }
}

// Reads the second and third leaf.
fn read<R: Abort>(rt: &R, alloc: Alloc, scans: &mut Scans<'_>) {
    let wanted: &[TextPair] = &[(b"c", b"3"), (b"e", b"5")];
    scan(rt, alloc, scans, 0, (b"c", None, 2), wanted);
}

// Scans these leaves again.
fn scan_again<R: Abort>(rt: &R, alloc: Alloc, scans: &mut Scans<'_>) {
    let wanted: &[TextPair] = &[(b"b", b"2"), (b"c", b"3")];
    read(rt, alloc, scans);
    scan(rt, alloc, scans, 0, (b"d", None, 9), &[(b"e", b"5")]);
    scan(rt, alloc, scans, 0, (b"b", Some(b"d"), 9), wanted);
    scan_back(rt, alloc, scans, 0, (b"d", None, 9), &[(b"e", b"5")]);
}

#[test]
fn leaves_that_were_read_are_scanned_again(rt: HostRuntime) {
    let alloc = heap(&rt, rt.alloc());
    let tree = three_leaves(&rt, alloc);
    scan_again(&rt, alloc, &mut Scans::new(alloc, tree.look()));
}

// Scans them back, below an end.
fn scan_back_again<R: Abort>(rt: &R, alloc: Alloc, scans: &mut Scans<'_>) {
    let wanted: &[TextPair] = &[(b"c", b"3"), (b"b", b"2")];
    read(rt, alloc, scans);
    scan_back(rt, alloc, scans, 0, (b"", Some(b"e"), 1), &[(b"c", b"3")]);
    scan_back(rt, alloc, scans, 0, (b"", Some(b"d"), 2), wanted);
}

#[test]
fn leaves_that_were_read_are_scanned_again_below_an_end(rt: HostRuntime) {
    let alloc = heap(&rt, rt.alloc());
    let tree = three_leaves(&rt, alloc);
    scan_back_again(&rt, alloc, &mut Scans::new(alloc, tree.look()));
}

// Scans a leaf back that stands below them.
fn scan_below<R: Abort>(rt: &R, alloc: Alloc, scans: &mut Scans<'_>) {
    read(rt, alloc, scans);
    scan_back(rt, alloc, scans, 0, (b"", Some(b"c"), 1), &[(b"b", b"2")]);
}

#[test]
fn a_leaf_below_one_that_was_read_is_scanned_back(rt: HostRuntime) {
    let alloc = heap(&rt, rt.alloc());
    let tree = three_leaves(&rt, alloc);
    scan_below(&rt, alloc, &mut Scans::new(alloc, tree.look()));
}

// The pairs from a key on, or the same from the last one on.
fn pairs_from(tree: &Tree, from: &Key, back: bool) -> Result<Pairs, Memory> {
    if back {
        tree.rscan_at(from, None, 9, 0)
    } else {
        tree.scan_at(from, None, 9, 0)
    }
}

// Scans where this growth is refused, and compares the pairs if there are any. Whether it was.
fn scan_refused<R: Abort>(
    rt: &R,
    alloc: Alloc,
    tree: &Tree,
    from: &Key,
    (back, growth): (bool, u64),
    wanted: &[TextPair],
) -> bool {
    alloc.refuse(growth);
    let pairs = pairs_from(tree, from, back);
    let refused = was_refused(alloc, growth);
    match &pairs {
        Ok(pairs) => assert_that(rt, !refused && are(pairs, wanted)),
        Err(Memory) => assert_that(rt, refused),
    }
    refused
}

// Sees that a scan from the first leaf on takes two growths.
fn takes_two_growths<R: Abort>(rt: &R, global: Global, back: bool, wanted: &[TextPair]) {
    let alloc = heap(rt, global);
    let (tree, from) = (three_leaves(rt, alloc), key(rt, alloc, b"b"));
    for growth in 1..100 {
        if !scan_refused(rt, alloc, &tree, &from, (back, growth), wanted) {
            assert_equal(rt, growth, 3);
            return;
        }
    }
    panic!(rt; "no run met no refusal")
}

#[test]
fn a_scan_of_leaves_without_writes_takes_memory_for_its_answer_alone(rt: HostRuntime) {
    let wanted: &[TextPair] = &[(b"b", b"2"), (b"c", b"3"), (b"e", b"5")];
    takes_two_growths(&rt, rt.alloc(), false, wanted);
}

#[test]
fn a_scan_back_of_leaves_without_writes_takes_memory_for_its_answer_alone(rt: HostRuntime) {
    let wanted: &[TextPair] = &[(b"e", b"5"), (b"c", b"3"), (b"b", b"2")];
    takes_two_growths(&rt, rt.alloc(), true, wanted);
}
