// Scans that read one leaf at a time, over three leaves.
ghost use Rattle.std.specs.Prelude.{◌≡◌, None};
ghost use Rattle.bw_model.specs.Model.{key_of};

use super::making::{Range, TextPair, are, end_of, heap, key, three_leaves};
use super::refused::was_refused;
use crate::tests::assertions::{assert_equal, assert_that};
use bw_key::Key;
use bw_memory::Alloc;
use bw_model::{Op, Reply};
use bw_tree::{LeafCursor, Look, ScanCursor, Scans};
use std::process::Abort;

// A scan forth, or back.
fn scan_of<R: Abort>(rt: &R, alloc: Alloc, back: bool, range: Range) -> Op
    ensures { key_of result ≡ None }
{
    let (from, to, most) = range;
    let (from, to) = (key(rt, alloc, from), end_of(rt, alloc, to));
    if back {
        Op::Rscan { from, to, most }
    } else {
        Op::Scan { from, to, most }
    }
}

// Whether a key has these bytes, or both are missing.
fn has_bytes(key: Option<&Key>, wanted: Option<&[u8]>) -> bool {
    match key {
        Some(key) => Some(key.bytes()) == wanted,
        None => wanted.is_none(),
    }
}

// Has a scan read a leaf, and looks where it goes on.
fn reads<'a, R: Abort>(
    rt: &R,
    scan: &mut ScanCursor<'a>,
    leaf: &mut LeafCursor<'a>,
    next: Option<&[u8]>,
)
    requires { leaf.old.tree ≡ scan.old.tree }
    ensures same { scan.new ≡ scan.old }
    ensures tree { leaf.new.tree ≡ leaf.old.tree }
{
    let has_more = scan.read_leaf(leaf).expect(rt, "memory");
    assert_equal(rt, has_more, next.is_some());
    assert_that(rt, has_bytes(scan.at(), next));
}

// Compares the pairs that a scan has once the leaves are read that it hasn't read.
fn finishes<R: Abort>(
    rt: &R,
    alloc: Alloc,
    tree: &Look<'_>,
    scan: ScanCursor<'_>,
    wanted: &[TextPair],
)
    requires { scan.tree ≡ tree.now }
{
    let mut rest = Scans::new(alloc, tree.again());
    match scan.finish(&mut rest).expect(rt, "memory") {
        Reply::Pairs(pairs) => assert_that(rt, are(&pairs, wanted)),
        _ => panic!(rt; "a scan has pairs"),
    }
}

// Reads a scan from leaf to leaf.
fn read_all<R: Abort>(rt: &R, alloc: Alloc, tree: &Look<'_>) {
    let op = scan_of(rt, alloc, false, (b"b", None, 9));
    let mut scan = ScanCursor::new(alloc, tree, &op, 0);
    let mut leaf = LeafCursor::new(alloc, tree.again());
    assert_that(rt, has_bytes(scan.at(), Some(b"b")));
    reads(rt, &mut scan, &mut leaf, Some(b"c"));
    reads(rt, &mut scan, &mut leaf, Some(b"e"));
    reads(rt, &mut scan, &mut leaf, None);
    reads(rt, &mut scan, &mut leaf, None);
    finishes(
        rt,
        alloc,
        tree,
        scan,
        &[(b"b", b"2"), (b"c", b"3"), (b"e", b"5")],
    );
}

#[test]
fn a_scan_reads_leaf_by_leaf(rt: HostRuntime) {
    let alloc = heap(&rt, rt.alloc());
    let tree = three_leaves(&rt, alloc);
    read_all(&rt, alloc, &tree.look());
}

// Compares a scan that reads no leaf by itself.
fn reads_no_leaf<R: Abort>(
    rt: &R,
    alloc: Alloc,
    tree: &Look<'_>,
    (back, range): (bool, Range),
    wanted: &[TextPair],
) {
    let op = scan_of(rt, alloc, back, range);
    let mut scan = ScanCursor::new(alloc, tree, &op, 0);
    let mut leaf = LeafCursor::new(alloc, tree.again());
    assert_that(rt, scan.at().is_none());
    reads(rt, &mut scan, &mut leaf, None);
    finishes(rt, alloc, tree, scan, wanted);
}

#[test]
fn a_scan_back_and_one_of_no_pairs_read_no_leaf(rt: HostRuntime) {
    let alloc = heap(&rt, rt.alloc());
    let tree = three_leaves(&rt, alloc);
    let back: &[TextPair] = &[(b"e", b"5"), (b"c", b"3"), (b"b", b"2")];
    reads_no_leaf(&rt, alloc, &tree.look(), (true, (b"b", None, 9)), back);
    reads_no_leaf(&rt, alloc, &tree.look(), (false, (b"b", None, 0)), &[]);
    reads_no_leaf(
        &rt,
        alloc,
        &tree.look(),
        (false, (b"c", Some(b"c"), 9)),
        &[],
    );
}

// Goes on behind the leaf where a scan begins, though it finds no pair there.
fn goes_on_behind<R: Abort>(rt: &R, alloc: Alloc, tree: &Look<'_>) {
    let op = scan_of(rt, alloc, false, (b"d", None, 9));
    let mut scan = ScanCursor::new(alloc, tree, &op, 0);
    let mut leaf = LeafCursor::new(alloc, tree.again());
    reads(rt, &mut scan, &mut leaf, Some(b"e"));
    finishes(rt, alloc, tree, scan, &[(b"e", b"5")]);
}

#[test]
fn a_scan_goes_on_behind_the_leaf_where_it_begins(rt: HostRuntime) {
    let alloc = heap(&rt, rt.alloc());
    let tree = three_leaves(&rt, alloc);
    goes_on_behind(&rt, alloc, &tree.look());
}

// Whether the leaf of a key ends at another.
fn ends_at<R: Abort>(rt: &R, leaf: &mut LeafCursor<'_>, key: &Key, end: Option<&[u8]>) -> bool {
    has_bytes(leaf.seek(key).expect(rt, "memory"), end)
}

#[test]
fn a_leaf_tells_where_it_ends(rt: HostRuntime) {
    let alloc = heap(&rt, rt.alloc());
    let tree = three_leaves(&rt, alloc);
    let mut leaf = LeafCursor::new(alloc, tree.look());
    let (b, d, e) = (
        key(&rt, alloc, b"b"),
        key(&rt, alloc, b"d"),
        key(&rt, alloc, b"e"),
    );
    assert_that(&rt, ends_at(&rt, &mut leaf, &b, Some(b"c")));
    assert_that(&rt, ends_at(&rt, &mut leaf, &d, Some(b"e")));
    assert_that(&rt, ends_at(&rt, &mut leaf, &e, None));
}

// Reads the first two leaves where this growth is refused, and finishes the scan. Whether it was.
fn read_refused<R: Abort>(rt: &R, alloc: Alloc, tree: &Look<'_>, growth: u64) -> bool {
    let op = scan_of(rt, alloc, false, (b"b", None, 9));
    let mut scan = ScanCursor::new(alloc, tree, &op, 0);
    let mut leaf = LeafCursor::new(alloc, tree.again());
    alloc.refuse(growth);
    let first = scan.read_leaf(&mut leaf).is_err();
    let second = scan.read_leaf(&mut leaf).is_err();
    let refused = was_refused(alloc, growth);
    assert_equal(rt, first || second, refused);
    // A refused call leaves what was read, so the other one went on behind the first leaf.
    let next: &[u8] = if refused { b"c" } else { b"e" };
    assert_that(rt, has_bytes(scan.at(), Some(next)));
    finishes(
        rt,
        alloc,
        tree,
        scan,
        &[(b"b", b"2"), (b"c", b"3"), (b"e", b"5")],
    );
    refused
}

#[test]
fn a_scan_goes_on_where_a_growth_was_refused(rt: HostRuntime) {
    let alloc = heap(&rt, rt.alloc());
    let tree = three_leaves(&rt, alloc);
    for growth in 1..100 {
        if !read_refused(&rt, alloc, &tree.look(), growth) {
            assert_that(&rt, growth > 2);
            return;
        }
    }
    panic!(rt; "no run met no refusal");
}
