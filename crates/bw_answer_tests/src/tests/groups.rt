// Operations in the order of their keys, where keys begin alike, and writes that are staged in it.
ghost use Rattle.std.specs.Prelude.{◌<◌};

use super::making::{memory, three};
use crate::tests::assertions::{assert_equal, assert_that};
use bw_fixtures::{LONG, key, value, was_refused};
use bw_group::{Grouping, Point};
use bw_key::Memory;
use bw_memory::Alloc;
use bw_model::Op;
use bw_tree::{Staged, Tree};
use std::process::Abort;
use std::thread::Threads;

// Keys that rise: some have the same first eight bytes, or would have them with zeros behind their ends.
const RISING: [&[u8]; 12] = [
    b"",
    b"\x00",
    b"\x00\x00",
    b"abcdefg",
    b"abcdefg\x00",
    b"abcdefg\x00\x00",
    b"abcdefgh",
    b"abcdefgh\x00",
    b"abcdefgha",
    b"abcdefghb",
    b"\x7f",
    b"\x80",
];

// So many times a get of each key, the last of them first.
fn falling_gets(alloc: Alloc, keys: &[&[u8]], times: usize) -> Result<Vec<Op, Alloc>, Memory> {
    let mut ops = Vec::new(alloc);
    for _ in 0..times {
        for bytes in keys.iter().rev() {
            ops.push(Op::Get(key(alloc, bytes)?))?;
        }
    }
    Ok(ops)
}

// Looks at the key and the place of a get: that of a number among the keys that rise, and of a time.
fn is_point<R: Abort>(rt: &R, point: &Point<'_>, keys: &[&[u8]], number: usize, time: usize) {
    assert_equal(rt, Some(point.key.bytes()), keys.get(number).copied());
    let first = keys.len().saturating_sub(1).saturating_sub(number);
    let place = first.saturating_add(time.saturating_mul(keys.len()));
    assert_equal(rt, point.place(), place);
}

// Groups the gets by so many workers, and looks at their keys and places.
fn group_gets<R: Abort + Threads + Sync>(
    rt: &R,
    alloc: Alloc,
    keys: &[&[u8]],
    times: usize,
    workers: u64,
)
    requires { 0 < times }
{
    let ops = falling_gets(alloc, keys, times).expect(rt, "memory");
    assert!(rt; ops.len() < 100000);
    let batch = Grouping::new(rt, alloc, &ops, workers).expect(rt, "memory");
    assert_equal(rt, batch.writes(), 0);
    assert_equal(rt, batch.points().len(), ops.len());
    for (at, point) in batch.points().iter().enumerate() {
        is_point(rt, point, keys, at / times, at % times);
    }
}

#[test]
fn keys_that_begin_alike_are_in_order(rt: HostRuntime) {
    group_gets(&rt, memory(&rt, rt.alloc()), &RISING, 2, 1);
}

// From 256 operations on they are sorted by rank first.
#[test]
fn many_keys_that_begin_alike_are_in_order(rt: HostRuntime) {
    group_gets(&rt, memory(&rt, rt.alloc()), &RISING, 25, 1);
}

// Short keys whose first eight bytes are the same with zeros behind their ends.
#[test]
fn many_short_keys_that_are_alike_are_in_order(rt: HostRuntime) {
    let alloc = memory(&rt, rt.alloc());
    group_gets(&rt, alloc, &[b"a"], 300, 1);
    group_gets(&rt, alloc, &[b"a", b"a\x00"], 150, 1);
    group_gets(&rt, alloc, &[b"", b"\x00"], 20000, 2);
}

// 65,532 operations have their ranks parted once and more, and the sides sorted side by side.
#[test]
fn keys_are_in_order_that_several_workers_sort(rt: HostRuntime) {
    for workers in [1, 2, 4, 64u64] {
        group_gets(&rt, memory(&rt, rt.alloc()), &RISING, 5461, workers);
    }
}

// An operation of each kind.
fn one_of_each(alloc: Alloc) -> Result<Vec<Op, Alloc>, Memory> {
    let mut ops = Vec::new(alloc);
    ops.push(Op::Get(key(alloc, b"a")?))?;
    ops.push(Op::Insert(key(alloc, b"a")?, value(alloc, b"1")?))?;
    ops.push(Op::Upsert(key(alloc, b"a")?, value(alloc, b"1")?))?;
    ops.push(Op::Update(key(alloc, b"a")?, value(alloc, b"1")?))?;
    ops.push(Op::Delete(key(alloc, b"a")?))?;
    let swapped = value(alloc, b"2")?;
    ops.push(Op::SwapIf(key(alloc, b"a")?, value(alloc, b"1")?, swapped))?;
    let (from, most) = (key(alloc, b"a")?, 1);
    ops.push(Op::Scan {
        from,
        to: None,
        most,
    })?;
    let from = key(alloc, b"a")?;
    ops.push(Op::Rscan {
        from,
        to: None,
        most,
    })?;
    Ok(ops)
}

#[test]
fn all_but_gets_and_scans_write(rt: HostRuntime) {
    let alloc = memory(&rt, rt.alloc());
    let ops = one_of_each(alloc).expect(&rt, "memory");
    assert!(rt; ops.len() < 1000);
    let batch = Grouping::new(&rt, alloc, &ops, 1).expect(&rt, "memory");
    assert_equal(&rt, batch.writes(), 5);
    assert_equal(&rt, batch.points().len(), 6);
    assert_equal(&rt, batch.scans(), &[6, 7]);
}

// Four writes to two keys, with a get and a scan among them.
fn writes_to_two_keys(alloc: Alloc) -> Result<Vec<Op, Alloc>, Memory> {
    let mut ops = Vec::new(alloc);
    ops.push(Op::Upsert(key(alloc, b"b")?, value(alloc, b"1")?))?;
    ops.push(Op::Get(key(alloc, b"a")?))?;
    ops.push(Op::Delete(key(alloc, b"a")?))?;
    ops.push(Op::Scan {
        from: key(alloc, b"a")?,
        to: None,
        most: 1,
    })?;
    ops.push(Op::Insert(key(alloc, b"b")?, value(alloc, b"2")?))?;
    ops.push(Op::Update(key(alloc, b"a")?, value(alloc, b"3")?))?;
    Ok(ops)
}

#[test]
fn the_places_of_writes_are_in_the_order_of_their_keys(rt: HostRuntime) {
    let alloc = memory(&rt, rt.alloc());
    let ops = writes_to_two_keys(alloc).expect(&rt, "memory");
    assert!(rt; ops.len() < 1000);
    let batch = Grouping::new(&rt, alloc, &ops, 1).expect(&rt, "memory");
    let places = batch.write_places(alloc).expect(&rt, "memory");
    assert_equal(&rt, places.as_slice(), &[2, 5, 0, 4]);
    alloc.refuse(1);
    assert_that(&rt, batch.write_places(alloc).is_err());
    alloc.refuse(0);
}

// Stages these writes in the order of their keys.
fn stage_by_key<R: Abort + Threads + Sync>(
    rt: &R,
    alloc: Alloc,
    tree: &mut Tree,
) -> Result<Staged, Memory> {
    let ops = writes_to_two_keys(alloc)?;
    assert!(rt; ops.len() < 1000);
    assert!(rt; tree.next_stamp() == 0);
    if let Some(_) = tree.staged() {
        panic!(rt; "a batch is staged");
    }
    let batch = Grouping::new(rt, alloc, &ops, 1)?;
    let places = batch.write_places(alloc)?;
    tree.stage_in_order(rt, &ops, &places, 1)
}

// Whether these writes are staged where the growth with this number is refused: a tree with no batch is as before then.
fn is_staged<R: Abort + Threads + Sync>(rt: &R, alloc: Alloc, growth: u64) -> bool {
    let mut tree = three(rt, alloc);
    alloc.refuse(growth);
    let staged = stage_by_key(rt, alloc, &mut tree);
    alloc.refuse(0);
    assert_equal(rt, tree.staged().is_some(), staged.is_ok());
    staged.is_ok()
}

#[test]
fn each_growth_of_a_batch_that_is_staged_by_key_is_refused(rt: HostRuntime) {
    let alloc = memory(&rt, rt.alloc());
    for growth in 1..20u64 {
        if is_staged(&rt, alloc, growth) {
            assert_that(&rt, growth > 4);
            return;
        }
    }
    panic!(rt; "no batch was staged")
}

// The stamp of a staged record.
fn stamp_at<R: Abort>(rt: &R, tree: &Tree, record: u64) -> u64 {
    let Some(staged) = tree.staged() else {
        panic!(rt; "no batch is staged");
    };
    assert!(rt; record < staged.records);
    tree.staged_write(record).stamp()
}

#[test]
fn records_are_staged_in_the_order_of_their_keys(rt: HostRuntime) {
    let alloc = memory(&rt, rt.alloc());
    let mut tree = three(&rt, alloc);
    let staged = stage_by_key(&rt, alloc, &mut tree).expect(&rt, "memory");
    assert_equal(&rt, staged.base, 0);
    assert_equal(&rt, staged.floor, 4294967296);
    assert_equal(&rt, staged.records, 4);
    for (record, stamp) in [2, 5, 0, 4u64].iter().enumerate() {
        assert_equal(&rt, stamp_at(&rt, &tree, record as u64), *stamp);
    }
}

// Upserts of so many keys that fall, each with a value in a block of its own.
fn falling_upserts(alloc: Alloc, count: u32) -> Result<Vec<Op, Alloc>, Memory> {
    let mut ops = Vec::new(alloc);
    for number in (0..count).rev() {
        let at = key(alloc, &number.to_be_bytes())?;
        ops.push(Op::Upsert(at, value(alloc, LONG)?))?;
    }
    Ok(ops)
}

// Stages operations in the order of their keys by so many workers.
fn stage_by<R: Abort + Threads + Sync>(
    rt: &R,
    alloc: Alloc,
    tree: &mut Tree,
    ops: &[Op],
    workers: u64,
) -> Result<Staged, Memory> {
    assert!(rt; ops.len() < 100000);
    assert!(rt; tree.next_stamp() == 0);
    if let Some(_) = tree.staged() {
        panic!(rt; "a batch is staged");
    }
    let batch = Grouping::new(rt, alloc, ops, 1)?;
    let places = batch.write_places(alloc)?;
    tree.stage_in_order(rt, ops, &places, workers)
}

// From 8,192 writes on several workers make the records, in the order in which one makes them.
#[test]
fn many_records_are_staged_by_several_workers(rt: HostRuntime) {
    let alloc = memory(&rt, rt.alloc());
    let ops = falling_upserts(alloc, 9000).expect(&rt, "memory");
    for workers in [0, 1, 2, 3, 64u64] {
        let mut tree = three(&rt, alloc);
        let staged = stage_by(&rt, alloc, &mut tree, &ops, workers).expect(&rt, "memory");
        assert_equal(&rt, staged.records, 9000);
        for record in 0..9000u64 {
            let stamp = 8999u64.saturating_sub(record);
            assert_equal(&rt, stamp_at(&rt, &tree, record), stamp);
        }
    }
}

// Whether many writes are staged by two workers where the growth with this number is refused.
fn are_staged<R: Abort + Threads + Sync>(rt: &R, alloc: Alloc, ops: &[Op], growth: u64) -> bool {
    let mut tree = three(rt, alloc);
    alloc.refuse(growth);
    let staged = stage_by(rt, alloc, &mut tree, ops, 2);
    alloc.refuse(0);
    assert_equal(rt, tree.staged().is_some(), staged.is_ok());
    assert_equal(rt, tree.records() > 0, staged.is_ok());
    staged.is_ok()
}

// Each record takes a growth, so there are too many to refuse each.
#[test]
fn growths_of_records_that_several_workers_make_are_refused(rt: HostRuntime) {
    let alloc = memory(&rt, rt.alloc());
    let ops = falling_upserts(alloc, 8200).expect(&rt, "memory");
    for growth in [1, 2, 3, 4, 5, 6, 8, 12, 20, 100, 1000, 4100, 8200u64] {
        assert_that(&rt, !are_staged(&rt, alloc, &ops, growth));
    }
    assert_that(&rt, are_staged(&rt, alloc, &ops, 9000));
}

#[test]
fn each_growth_of_a_large_grouping_is_refused(rt: HostRuntime) {
    let alloc = memory(&rt, rt.alloc());
    let ops = falling_gets(alloc, &RISING, 25).expect(&rt, "memory");
    assert!(rt; ops.len() < 1000);
    for growth in 1..100 {
        alloc.refuse(growth);
        let batch = Grouping::new(&rt, alloc, &ops, 1);
        if !was_refused(alloc, growth) {
            assert_that(&rt, batch.is_ok());
            assert_that(&rt, growth > 3);
            return;
        }
        assert_that(&rt, batch.is_err());
    }
    panic!(rt; "no run met no refusal")
}
