// Heaps, keys, values, leaves and writes from bytes; and what writes leave.
ghost use Rattle.std.specs.Prelude.{◌≡◌, true, false, map, nat_eq};
ghost use Rattle.std.specs.List.{AllByRecursion};
ghost use Rattle.bw_delta.specs.History.{pointed_to, HasDistinctStamps};

use crate::tests::assertions::assert_equal;
use bw_delta::{Memory, Op, Replay, Write, leaf_as_of, value_as_of};
use bw_fixtures::{are, pair, two};
use bw_key::Key;
use bw_memory::{Alloc, Heap};
use bw_model::{Pairs, Value};
use bw_page::Leaf;
use std::alloc::Global;
use std::process::Abort;

/// A key and its value, in bytes.
pub type TextPair = (&'static [u8], &'static [u8]);

/// A heap that refuses growths on demand.
pub fn heap<R: Abort>(rt: &R, global: Global) -> Alloc {
    bw_fixtures::heap(global).expect(rt, "memory")
}

/// A heap of so many bytes.
pub fn heap_within<R: Abort>(rt: &R, global: Global, bytes: u64) -> Alloc {
    Heap::within(global, bytes)
        .leak(global)
        .expect(rt, "memory")
}

/// The key of these bytes.
pub fn key<R: Abort>(rt: &R, alloc: Alloc, bytes: &[u8]) -> Key {
    bw_fixtures::key(alloc, bytes).expect(rt, "memory")
}

/// The value of these bytes.
pub fn value<R: Abort>(rt: &R, alloc: Alloc, bytes: &[u8]) -> Value {
    bw_fixtures::value(alloc, bytes).expect(rt, "memory")
}

/// The leaf of all keys, with this value at `a`.
pub fn leaf_of<R: Abort>(rt: &R, alloc: Alloc, bytes: &[u8]) -> Leaf {
    bw_fixtures::leaf_of(alloc, bytes).expect(rt, "memory")
}

/// The leaf of all keys: a 1, b 2.
pub fn a_and_b<R: Abort>(rt: &R, alloc: Alloc) -> Leaf {
    let (a, b) = (
        pair(alloc, b"a", b"1").expect(rt, "memory"),
        pair(alloc, b"b", b"2").expect(rt, "memory"),
    );
    let pairs = two(alloc, a, b).expect(rt, "memory");
    let least = bw_fixtures::key(alloc, b"").expect(rt, "memory");
    Leaf::from_pairs(least, None, None, pairs)
}

/// The write of an operation. One that writes nothing is a fault.
pub fn write<R: Abort>(rt: &R, alloc: Alloc, stamp: u64, op: &Op) -> Write {
    match Write::from_op(alloc, op, stamp, Write::size_of_op(op)).expect(rt, "memory") {
        Some(write) => write,
        None => panic!(rt; "a read writes nothing"),
    }
}

/// A delete.
pub fn delete_at<R: Abort>(rt: &R, alloc: Alloc, stamp: u64, at: &[u8]) -> Write {
    write(rt, alloc, stamp, &Op::Delete(key(rt, alloc, at)))
}

/// The delete of `a` with this stamp.
pub fn delete<R: Abort>(rt: &R, alloc: Alloc, stamp: u64) -> Write {
    delete_at(rt, alloc, stamp, b"a")
}

/// An insert.
pub fn insert<R: Abort>(rt: &R, alloc: Alloc, stamp: u64, at: &[u8], bytes: &[u8]) -> Write {
    let op = Op::Insert(key(rt, alloc, at), value(rt, alloc, bytes));
    write(rt, alloc, stamp, &op)
}

/// An update at `a`.
pub fn update<R: Abort>(rt: &R, alloc: Alloc, stamp: u64, bytes: &[u8]) -> Write {
    let op = Op::Update(key(rt, alloc, b"a"), value(rt, alloc, bytes));
    write(rt, alloc, stamp, &op)
}

/// Whether `a` alone is left, with the wanted value, or nothing where none is wanted.
pub fn is_left(pairs: &Pairs, wanted: Option<&'static [u8]>) -> bool {
    match wanted {
        Some(value) => are(pairs, &[(b"a", value)]),
        None => are(pairs, &[]),
    }
}

// Whether no write has a stamp.
fn is_new(stamp: u64, writes: &[&Write]) -> bool
    ensures { result ≡ true → AllByRecursion (λ other. nat_eq stamp other ≡ false)
        (map (λ write. write.stamp) (pointed_to writes.now)) }
{
    match writes.split_first() {
        Some((first, rest)) => stamp != first.stamp() && is_new(stamp, rest),
        None => true,
    }
}

/// Whether each write has a stamp of its own.
pub fn are_distinct(writes: &[&Write]) -> bool
    ensures { result ≡ true → HasDistinctStamps (pointed_to writes.now) }
{
    match writes.split_first() {
        Some((first, rest)) => is_new(first.stamp(), rest) && are_distinct(rest),
        None => true,
    }
}

/// The value that writes leave of another one.
pub fn value_under<R: Abort>(
    rt: &R,
    alloc: Alloc,
    start: Option<&[u8]>,
    writes: &[&Write],
    stamp: u64,
) -> Result<Option<Value>, Memory> {
    assert!(rt; are_distinct(writes));
    value_as_of(alloc, start, writes, stamp)
}

/// The pairs that writes leave of parts, from `low` on and below `high`.
pub fn pairs_under<R: Abort>(
    rt: &R,
    alloc: Alloc,
    parts: &[&Leaf],
    (low, high): (&Key, Option<&Key>),
    writes: &[&Write],
    stamp: u64,
) -> Result<Pairs, Memory> {
    assert!(rt; are_distinct(writes));
    leaf_as_of(alloc, parts, low, high, writes, stamp)
}

/// A replay of writes over parts, as of stamp 0.
pub fn replay_of<'a, R: Abort>(
    rt: &R,
    alloc: Alloc,
    parts: &[&'a Leaf],
    high: Option<&Key>,
    writes: &[&'a Write],
) -> Result<Replay<'a>, Memory> {
    assert!(rt; are_distinct(writes));
    Replay::new(alloc, parts, high, writes)
}

/// A replay, taken on to a stamp.
pub fn advanced<'a, R: Abort>(
    rt: &R,
    replay: Replay<'a>,
    stamp: u64,
) -> Result<Replay<'a>, Memory> {
    assert!(rt; replay.stamp() <= stamp);
    replay.advance(stamp)
}

/// A replay of writes over parts, as of a stamp.
pub fn replay_at<'a, R: Abort>(
    rt: &R,
    alloc: Alloc,
    parts: &[&'a Leaf],
    high: Option<&Key>,
    writes: &[&'a Write],
    stamp: u64,
) -> Replay<'a> {
    let replay = replay_of(rt, alloc, parts, high, writes).expect(rt, "memory");
    let replay = advanced(rt, replay, stamp).expect(rt, "memory");
    assert_equal(rt, replay.stamp(), stamp);
    replay
}

/// The first pairs of a replay from `low` on and below `high`.
pub fn first(
    alloc: Alloc,
    replay: &Replay,
    (low, high): (&Key, Option<&Key>),
    most: u64,
) -> Result<Pairs, Memory> {
    let mut read = Pairs::new(alloc);
    replay.add_first(low, high, most, &mut read)?;
    Ok(read)
}

/// The last pairs of a replay from `low` on and below `high`.
pub fn last(
    alloc: Alloc,
    replay: &Replay,
    (low, high): (&Key, Option<&Key>),
    most: u64,
) -> Result<Pairs, Memory> {
    let mut read = Pairs::new(alloc);
    replay.add_last(low, high, most, &mut read)?;
    Ok(read)
}
