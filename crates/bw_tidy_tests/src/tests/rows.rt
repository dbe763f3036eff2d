// Rows of letters, with what the plain program answers.
use super::maker::{Maker, same};
use crate::tests::assertions::{assert_equal, assert_that};
use bw_batch::{Index, Key, Op, OpenGate, Pairs, Replies, Tidy, Tree};
use bw_memory::Alloc;
use bw_model::ReferenceMap;
use std::process::Abort;
use std::thread::Threads;

// No row has so many pairs.
const ALL: u64 = 999;

/// A batch, and the replies to it.
#[derive(Drop)]
pub struct Answered {
    pub ops: Vec<Op, Alloc>,
    pub replies: Replies,
}

/// The letters up to one of them, whose values are their bytes.
#[derive(Drop)]
pub struct Row {
    /// Inserts of them.
    pub inserts: Answered,
    /// Behind these: a read of each letter, and scans of all, forth and back.
    pub reads: Answered,
    /// The same inserts again.
    pub again: Answered,
    /// Behind these: a write, a read or a scan for each letter, an insert, and scans of all.
    pub writes: Answered,
    /// The pairs that those leave.
    pub left: Pairs,
    // the pairs that the inserts leave, forth and back
    forth: Pairs,
    back: Pairs,
}

// Scans of all, forth and back.
fn add_scans<R: Abort>(rt: &R, make: &Maker<R>, ops: &mut Vec<Op, Alloc>) {
    ops.push(make.scan(0, None, ALL)).expect(rt, "memory");
    ops.push(make.rscan(0, None, ALL)).expect(rt, "memory");
}

// A read of each letter, and scans of all.
fn reads<R: Abort>(rt: &R, make: &Maker<R>, last: u8) -> Vec<Op, Alloc> {
    let mut ops = Vec::new(make.alloc);
    for letter in b'a'..=last {
        ops.push(make.get(letter)).expect(rt, "memory");
    }
    add_scans(rt, make, &mut ops);
    ops
}

// An operation at a letter, or a scan.
fn operation<R: Abort>(make: &Maker<R>, letter: u8) -> Op {
    match letter % 7 {
        0 => make.get(letter),
        1 => make.upsert(letter, 1),
        2 => make.delete(letter),
        3 => make.update(letter, 2),
        4 => make.swap_if(letter, letter as u32, 3),
        5 => make.scan(b'a', Some(letter), 5),
        _ => make.rscan(b'b', None, 5),
    }
}

// One for each letter, an insert, and scans of all.
fn writes<R: Abort>(rt: &R, make: &Maker<R>, last: u8) -> Vec<Op, Alloc> {
    let mut ops = Vec::new(make.alloc);
    for letter in b'a'..=last {
        ops.push(operation(make, letter)).expect(rt, "memory");
    }
    ops.push(make.insert(255, 4)).expect(rt, "memory");
    add_scans(rt, make, &mut ops);
    ops
}

// What a map answers to a batch.
fn replies_to<R: Abort>(rt: &R, map: &mut ReferenceMap, ops: &[Op]) -> Replies {
    map.run(ops).expect(rt, "memory")
}

// A batch with what a map answers to it.
fn answer<R: Abort>(rt: &R, map: &mut ReferenceMap, ops: Vec<Op, Alloc>) -> Answered {
    let replies = replies_to(rt, map, &ops);
    Answered { ops, replies }
}

impl Row {
    /// The row of the letters up to this one.
    pub fn new<R: Abort>(rt: &R, make: &Maker<R>, last: u8) -> Row {
        let least = make.key(0);
        let mut map = ReferenceMap::new(make.alloc);
        let inserts = answer(rt, &mut map, make.inserts(last));
        let forth = map.scan(&least, None, ALL).expect(rt, "memory");
        let back = map.rscan(&least, None, ALL).expect(rt, "memory");
        let reads = answer(rt, &mut map, reads(rt, make, last));
        let again = answer(rt, &mut map, make.inserts(last));
        let writes = answer(rt, &mut map, writes(rt, make, last));
        Row {
            inserts,
            reads,
            again,
            writes,
            left: map.entries().expect(rt, "memory"),
            forth,
            back,
        }
    }
}

/// Runs a batch, and compares the replies. What tidying did, which didn't stop.
pub fn run<R: Abort + Threads + Sync>(rt: &R, index: &mut Index, batch: &Answered) -> Tidy {
    let done = index.run(rt, &batch.ops, &OpenGate).expect(rt, "memory");
    same(rt, done.replies.as_slice(), batch.replies.as_slice());
    assert_that(rt, !done.tidy.stopped);
    done.tidy
}

// A tree has a value at a key.
fn has<R: Abort>(rt: &R, make: &Maker<R>, tree: &Tree, at: &[u8], bytes: &[u8]) {
    let key = Key::new(make.alloc, at).expect(rt, "a key");
    let found = tree.value_at(&key, tree.next_stamp());
    match found.expect(rt, "memory") {
        Some(value) => assert_equal(rt, value.bytes(), bytes),
        None => panic!(rt; "a value"),
    }
}

// A tree is scanned forth and back.
fn scans<R: Abort>(rt: &R, make: &Maker<R>, tree: &Tree, row: &Row) {
    let (least, stamp) = (make.key(0), tree.next_stamp());
    let forth = tree.scan_at(&least, None, ALL, stamp);
    assert_equal(rt, &forth.expect(rt, "memory"), &row.forth);
    let back = tree.rscan_at(&least, None, ALL, stamp);
    assert_equal(rt, &back.expect(rt, "memory"), &row.back);
}

/// An index holds a row as it stands: each letter is read and all are scanned, without a batch.
pub fn holds<R: Abort>(rt: &R, make: &Maker<R>, index: &Index, row: &Row) {
    let pairs = &row.forth;
    for place in 0..pairs.len() {
        has(
            rt,
            make,
            index.tree(),
            pairs.key_at(place),
            pairs.value_at(place),
        );
    }
    scans(rt, make, index.tree(), row);
}
