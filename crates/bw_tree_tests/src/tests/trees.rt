// Trees of one leaf and of three, and a batch that is staged and undone.
use super::making::{
    empty, has, has_no_batch, heap, key, leaf_of_key, one, stage, stands, three_leaves, value,
};
use crate::tests::assertions::{assert_equal, assert_that};
use bw_delta::Write;
use bw_memory::Alloc;
use bw_model::Op;
use bw_tree::{PageId, Staged, Tree};
use std::process::Abort;

// What the three leaves hold, and two keys that are in none.
const AT_FIRST: &[(&[u8], Option<&[u8]>)] = &[
    (b"a", Some(b"1")),
    (b"b", Some(b"2")),
    (b"c", Some(b"3")),
    (b"e", Some(b"5")),
    (b"d", None),
    (b"", None),
];

#[test]
fn three_leaves_have_a_root_behind_them(rt: HostRuntime) {
    let alloc = heap(&rt, rt.alloc());
    let tree = three_leaves(&rt, alloc);
    stands(&rt, &tree, 3, &[0, 1, 2, 3], 0);
    has(&rt, alloc, &tree, 0, AT_FIRST);
}

const HOMES: &[(&[u8], u32)] = &[
    (b"", 0),
    (b"bzz", 0),
    (b"c", 1),
    (b"d", 1),
    (b"dz", 1),
    (b"e", 2),
    (b"z", 2),
];

#[test]
fn each_key_is_sought_in_the_leaf_whose_range_has_it(rt: HostRuntime) {
    let alloc = heap(&rt, rt.alloc());
    let tree = three_leaves(&rt, alloc);
    alloc.refuse(1);
    for &(bytes, page) in HOMES {
        assert_equal(&rt, leaf_of_key(&rt, alloc, &tree, bytes), PageId(page));
    }
    assert_equal(&rt, alloc.left(), 1);
}

#[test]
fn one_leaf_is_the_root(rt: HostRuntime) {
    let alloc = heap(&rt, rt.alloc());
    let tree = one(&rt, alloc);
    stands(&rt, &tree, 0, &[0], 0);
    has(&rt, alloc, &tree, 0, &[(b"a", Some(b"1")), (b"b", None)]);
    assert_equal(&rt, leaf_of_key(&rt, alloc, &tree, b"b"), PageId(0));
}

#[test]
fn a_new_tree_is_empty(rt: HostRuntime) {
    let alloc = heap(&rt, rt.alloc());
    let tree = empty(&rt, alloc);
    stands(&rt, &tree, 0, &[0], 0);
    has(&rt, alloc, &tree, 0, &[(b"", None), (b"a", None)]);
    assert_equal(&rt, leaf_of_key(&rt, alloc, &tree, b""), PageId(0));
}

// Two writes and a scan: upsert c 9, delete e, scan % * 9.
fn batch<R: Abort>(rt: &R, alloc: Alloc) -> [Op; 3] {
    [
        Op::Upsert(key(rt, alloc, b"c"), value(rt, alloc, b"9")),
        Op::Delete(key(rt, alloc, b"e")),
        Op::Scan {
            from: key(rt, alloc, b""),
            to: None,
            most: 9,
        },
    ]
}

#[test]
fn a_staged_batch_is_undone(rt: HostRuntime) {
    let alloc = heap(&rt, rt.alloc());
    let mut tree = three_leaves(&rt, alloc);
    let staged = stage(&rt, &mut tree, &batch(&rt, alloc)).expect(&rt, "memory");
    assert_equal(
        &rt,
        staged,
        Staged {
            base: 0,
            floor: 4294967296,
            records: 2,
        },
    );
    stands(&rt, &tree, 3, &[0, 1, 2, 3], 2);
    has(&rt, alloc, &tree, 2, AT_FIRST);

    alloc.refuse(1);
    tree.undo();
    assert_equal(&rt, alloc.left(), 1);
    alloc.refuse(0);
    stands(&rt, &tree, 3, &[0, 1, 2, 3], 0);
    has(&rt, alloc, &tree, 2, AT_FIRST);
    let again = stage(&rt, &mut tree, &batch(&rt, alloc));
    assert_equal(&rt, again, Ok(staged));
}

#[test]
fn a_batch_is_staged_until_it_is_undone(rt: HostRuntime) {
    let alloc = heap(&rt, rt.alloc());
    let mut tree = three_leaves(&rt, alloc);
    assert_that(&rt, tree.staged().is_none());
    let staged = stage(&rt, &mut tree, &batch(&rt, alloc)).expect(&rt, "memory");
    assert_equal(&rt, tree.staged(), Some(staged));
    tree.undo();
    assert_that(&rt, tree.staged().is_none());
}

// A staged write, by its place. One that isn't staged is a fault.
fn staged_write<'a, R: Abort>(rt: &R, tree: &'a Tree, place: u64) -> &'a Write {
    match tree.staged() {
        Some(staged) if place < staged.records => tree.staged_write(place),
        _ => panic!(rt; "{place} is past the staged writes"),
    }
}

#[test]
fn each_staged_write_has_the_stamp_of_its_operation(rt: HostRuntime) {
    let alloc = heap(&rt, rt.alloc());
    let mut tree = three_leaves(&rt, alloc);
    let ops = [
        Op::Upsert(key(&rt, alloc, b"c"), value(&rt, alloc, b"9")),
        Op::Get(key(&rt, alloc, b"a")),
        Op::Delete(key(&rt, alloc, b"e")),
    ];
    stage(&rt, &mut tree, &ops).expect(&rt, "memory");
    let upsert = staged_write(&rt, &tree, 0);
    assert_that(&rt, upsert.stamp() == 0 && upsert.key() == b"c".as_slice());
    assert_equal(&rt, upsert.effect(None), Some(b"9".as_slice()));
    assert_equal(&rt, upsert.effect(Some(&[])), Some(b"9".as_slice()));
    let delete = staged_write(&rt, &tree, 1);
    assert_that(&rt, delete.stamp() == 2 && delete.key() == b"e".as_slice());
    assert_that(&rt, delete.effect(Some(b"5".as_slice())).is_none());
}

#[test]
fn a_batch_of_reads_has_no_record(rt: HostRuntime) {
    let alloc = heap(&rt, rt.alloc());
    let mut tree = three_leaves(&rt, alloc);
    let staged = stage(&rt, &mut tree, &[Op::Get(key(&rt, alloc, b"a"))]);
    assert_equal(
        &rt,
        staged,
        Ok(Staged {
            base: 0,
            floor: 4294967296,
            records: 0,
        }),
    );
    stands(&rt, &tree, 3, &[0, 1, 2, 3], 0);
}

// Stages a get as a batch that only reads, and sees that no memory is asked for.
fn stage_get<R: Abort>(rt: &R, alloc: Alloc, tree: &mut Tree) -> Staged {
    has_no_batch(rt, tree);
    assert!(rt; tree.next_stamp() == 0);
    let ops = [Op::Get(key(rt, alloc, b"a"))];
    alloc.refuse(1);
    let staged = tree.stage_reads(&ops);
    assert_equal(rt, alloc.left(), 1);
    alloc.refuse(0);
    staged
}

#[test]
fn a_batch_of_reads_is_staged_without_memory(rt: HostRuntime) {
    let alloc = heap(&rt, rt.alloc());
    let mut tree = three_leaves(&rt, alloc);
    let staged = stage_get(&rt, alloc, &mut tree);
    let nothing = Staged {
        base: 0,
        floor: 4294967296,
        records: 0,
    };
    assert_equal(&rt, staged, nothing);
    assert_equal(&rt, tree.staged(), Some(nothing));
    stands(&rt, &tree, 3, &[0, 1, 2, 3], 0);
    has(&rt, alloc, &tree, 1, AT_FIRST);
    tree.undo();
    assert_that(&rt, tree.staged().is_none());
}

#[test]
fn undo_without_a_batch_changes_nothing(rt: HostRuntime) {
    let alloc = heap(&rt, rt.alloc());
    let mut tree = three_leaves(&rt, alloc);
    tree.undo();
    stands(&rt, &tree, 3, &[0, 1, 2, 3], 0);
    has(&rt, alloc, &tree, 0, AT_FIRST);
}
