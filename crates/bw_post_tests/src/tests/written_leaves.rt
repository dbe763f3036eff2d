// Scans that read leaves with writes over them in turn.
ghost use Rattle.std.specs.Prelude.{◌≡◌};

use super::making::{Pair, memory};
use super::rows::adopted;
use crate::tests::assertions::{assert_equal, assert_that};
use bw_fixtures::{are, key};
use bw_key::Key;
use bw_memory::Alloc;
use bw_model::{Op, Reply};
use bw_tree::{LeafCursor, Look, ScanCursor, Scans};
use std::process::Abort;

// What the pairs from c on are behind the batch, and before it.
const LATE: &[Pair] = &[(b"c", b"9")];

const EARLY: &[Pair] = &[(b"c", b"3"), (b"e", b"5")];

// Compares the pairs that a scan has in the end.
fn finishes<R: Abort>(rt: &R, alloc: Alloc, tree: &Look<'_>, scan: ScanCursor<'_>, wanted: &[Pair])
    requires { scan.tree ≡ tree.now }
{
    let mut rest = Scans::new(alloc, tree.again());
    match scan.finish(&mut rest).expect(rt, "memory") {
        Reply::Pairs(pairs) => assert_that(rt, are(&pairs, wanted)),
        _ => panic!(rt; "a scan has pairs"),
    }
}

// Lets a scan read a leaf that another one read as of its stamp: its pairs alone take memory.
fn shares<'a, R: Abort>(rt: &R, alloc: Alloc, scan: &mut ScanCursor<'a>, leaf: &mut LeafCursor<'a>)
    requires { leaf.old.tree ≡ scan.old.tree }
    ensures scan { scan.new ≡ scan.old }
    ensures leaf { leaf.new.tree ≡ leaf.old.tree }
{
    alloc.refuse(1000);
    let goes_on = scan.read_leaf(leaf);
    let left = alloc.left();
    alloc.refuse(0);
    assert_that(rt, goes_on.expect(rt, "memory"));
    assert_equal(rt, left, 998);
}

// Reads the leaf of c behind the batch, once more then, and before it.
fn read_in_turn<R: Abort>(rt: &R, alloc: Alloc, tree: &Look<'_>, from: Key) {
    let op = Op::Scan {
        from,
        to: None,
        most: 9,
    };
    let mut late = ScanCursor::new(alloc, tree, &op, 2);
    let mut again = ScanCursor::new(alloc, tree, &op, 2);
    let mut early = ScanCursor::new(alloc, tree, &op, 0);
    let mut leaf = LeafCursor::new(alloc, tree.again());
    assert_that(rt, late.read_leaf(&mut leaf).expect(rt, "memory"));
    shares(rt, alloc, &mut again, &mut leaf);
    assert_that(rt, early.read_leaf(&mut leaf).expect(rt, "memory"));
    assert_that(rt, !late.read_leaf(&mut leaf).expect(rt, "memory"));
    finishes(rt, alloc, tree, late, LATE);
    finishes(rt, alloc, tree, again, LATE);
    finishes(rt, alloc, tree, early, EARLY);
}

#[test]
fn scans_share_a_written_leaf_as_of_any_stamps(rt: HostRuntime) {
    let alloc = memory(&rt, rt.alloc());
    let tree = adopted(&rt, alloc);
    let from = key(alloc, b"c").expect(&rt, "memory");
    read_in_turn(&rt, alloc, &tree.look(), from);
}
