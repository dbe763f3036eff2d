// The largest batches: all writes on one key, each on a key of its own, and many scans beside many writes of one leaf.
use super::numbers::{holds, is_was, run, scan_one, upsert};
use crate::tests::assertions::assert_equal;
use bw_batch::{Index, Op, OpenGate, Options, Reply};
use bw_fixtures::heap;
use bw_memory::Alloc;
use std::process::Abort;

// A batch of so many upserts, of one key or each of its own, whose values are their places.
fn upserts<R: Abort>(rt: &R, alloc: Alloc, count: u32, is_one_key: bool) -> Vec<Op, Alloc> {
    let mut ops = Vec::new(alloc);
    for place in 0..count {
        let scattered = if is_one_key { 0 } else { place.reverse_bits() };
        ops.push(upsert(rt, alloc, scattered, place))
            .expect(rt, "memory");
    }
    ops
}

// The first write finds nothing, and each other one what the one before it put.
fn find_one_another<R: Abort>(rt: &R, replies: &[Reply]) {
    assert_eq!(rt; replies.len(), 65_536);
    assert!(rt; replies.first() == Some(&Reply::New));
    for (before, reply) in replies.iter().skip(1).enumerate() {
        assert!(rt; is_was(reply, before as u32));
    }
}

#[test]
fn one_key_is_written_65536_times(rt: HostRuntime) {
    let alloc = heap(rt.alloc()).expect(&rt, "a heap");
    let mut index = Index::new(alloc, Options::default()).expect(&rt, "an index");
    let ops = upserts(&rt, alloc, 65_536, true);
    let done = index.run(&rt, &ops, &OpenGate).expect(&rt, "memory");
    find_one_another(&rt, done.replies.as_slice());
    holds(&rt, &index, 1, 0xffff);
}

#[test]
fn each_of_65536_keys_is_written(rt: HostRuntime) {
    let alloc = heap(rt.alloc()).expect(&rt, "a heap");
    let mut index = Index::new(alloc, Options::default()).expect(&rt, "an index");
    let ops = upserts(&rt, alloc, 65_536, false);
    assert_equal(&rt, run(&rt, &mut index, &ops), 65_536);
    holds(&rt, &index, 65_536, 0xffff);
}

// So many upserts, each of a key of its own with its place as its value, and behind each a scan of its key.
fn upserts_and_scans<R: Abort>(rt: &R, alloc: Alloc, count: u32) -> Vec<Op, Alloc> {
    let mut ops = Vec::new(alloc);
    for place in 0..count {
        let scattered = place.reverse_bits();
        ops.push(upsert(rt, alloc, scattered, place))
            .expect(rt, "memory");
        ops.push(scan_one(rt, alloc, scattered))
            .expect(rt, "memory");
    }
    ops
}

// An upsert finds no value, and a scan the one pair at its key.
fn is_answered<R: Abort>(rt: &R, op: &Op, reply: &Reply) {
    match (op, reply) {
        (Op::Upsert(_, _), reply) => assert!(rt; *reply == Reply::New),
        (Op::Scan { from, .. }, Reply::Pairs(pairs)) => {
            assert!(rt; pairs.len() == 1);
            assert!(rt; pairs.key_at(0) == from.bytes());
        }
        _ => panic!(rt; "another reply"),
    }
}

// Each operation is answered so.
fn are_answered<R: Abort>(rt: &R, ops: &[Op], replies: &[Reply]) {
    assert_equal(rt, replies.len(), ops.len());
    for (op, reply) in ops.iter().zip(replies) {
        is_answered(rt, op, reply);
    }
}

#[test]
fn many_scans_stand_beside_many_writes_of_one_leaf(rt: HostRuntime) {
    let alloc = heap(rt.alloc()).expect(&rt, "a heap");
    let mut index = Index::new(alloc, Options::default()).expect(&rt, "an index");
    let ops = upserts_and_scans(&rt, alloc, 32_768);
    let done = index.run(&rt, &ops, &OpenGate).expect(&rt, "memory");
    are_answered(&rt, &ops, done.replies.as_slice());
    holds(&rt, &index, 32_768, 0x7fff);
}
