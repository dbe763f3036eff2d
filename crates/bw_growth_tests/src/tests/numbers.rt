// Operations and replies whose keys and values are numbers.
use crate::tests::assertions::assert_equal;
use bw_batch::{Index, Key, Op, OpenGate, Reply, Value};
use bw_fixtures::{key, value};
use bw_memory::Alloc;
use std::process::Abort;
use std::thread::Threads;

fn key_of<R: Abort>(rt: &R, alloc: Alloc, number: u32) -> Key {
    key(alloc, &number.to_be_bytes()).expect(rt, "a key")
}

fn value_of<R: Abort>(rt: &R, alloc: Alloc, number: u32) -> Value {
    value(alloc, &number.to_be_bytes()).expect(rt, "a value")
}

/// An upsert of the key of a number, whose value is another one.
pub fn upsert<R: Abort>(rt: &R, alloc: Alloc, key: u32, number: u32) -> Op {
    Op::Upsert(key_of(rt, alloc, key), value_of(rt, alloc, number))
}

/// A delete of the key of a number.
pub fn delete<R: Abort>(rt: &R, alloc: Alloc, key: u32) -> Op {
    Op::Delete(key_of(rt, alloc, key))
}

/// A get of the key of a number.
pub fn get<R: Abort>(rt: &R, alloc: Alloc, key: u32) -> Op {
    Op::Get(key_of(rt, alloc, key))
}

/// A scan for the pair at the key of a number.
pub fn scan_one<R: Abort>(rt: &R, alloc: Alloc, key: u32) -> Op {
    Op::Scan {
        from: key_of(rt, alloc, key),
        to: None,
        most: 1,
    }
}

/// Whether a reply is that the value of a number was there.
pub fn is_was(reply: &Reply, number: u32) -> bool {
    match reply {
        Reply::Was(value) => value.bytes() == number.to_be_bytes().as_slice(),
        _ => false,
    }
}

/// How many of the replies say that the key was new.
pub fn count_new(replies: &[Reply]) -> usize {
    replies.iter().filter(|reply| **reply == Reply::New).count()
}

/// How many of the replies say that there was no key.
pub fn count_absent(replies: &[Reply]) -> usize {
    replies
        .iter()
        .filter(|reply| **reply == Reply::Absent)
        .count()
}

/// How many pairs the index holds.
pub fn held<R: Abort>(rt: &R, index: &Index) -> usize {
    index.contents().expect(rt, "memory").len()
}

/// Compares the value of the greatest key, and how many pairs the index holds.
pub fn holds<R: Abort>(rt: &R, index: &Index, count: usize, last: u32) {
    let pairs = index.contents().expect(rt, "memory");
    assert_equal(rt, pairs.len(), count);
    assert!(rt; pairs.len() > 0, "no pair");
    assert_equal(
        rt,
        pairs.value_at(pairs.len() - 1),
        last.to_be_bytes().as_slice(),
    );
}

/// Runs a batch, which has a reply for each operation. How many of its keys were new.
pub fn run<R: Abort + Threads + Sync>(rt: &R, index: &mut Index, ops: &[Op]) -> usize {
    let done = index.run(rt, ops, &OpenGate).expect(rt, "memory");
    let replies = done.replies.as_slice();
    assert_equal(rt, replies.len(), ops.len());
    count_new(replies)
}
