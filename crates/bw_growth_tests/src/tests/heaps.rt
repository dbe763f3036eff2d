// What an index keeps comes from its own heap, whatever heap its operations were made on.
use super::trees::{LONG, tree_of};
use crate::tests::assertions::{assert_equal, assert_that};
use bw_batch::{Index, Key, Op, OpenGate, Options, Refusal, Value};
use bw_memory::{Alloc, Heap};
use std::alloc::Global;
use std::process::Abort;
use std::thread::Threads;

// A heap of so many bytes.
fn heap<R: Abort>(rt: &R, global: Global, bytes: u64) -> Alloc {
    Heap::within(global, bytes)
        .leak(global)
        .expect(rt, "a heap")
}

fn key<R: Abort>(rt: &R, alloc: Alloc) -> Key {
    Key::new(alloc, LONG.as_bytes()).expect(rt, "a key")
}

// A value of this many bytes.
fn value<R: Abort>(rt: &R, alloc: Alloc, len: usize) -> Value {
    let bytes = [7; 1024];
    Value::new(alloc, &bytes[..len.min(1024)]).expect(rt, "a value")
}

// An upsert of a value of this many bytes.
fn upsert<R: Abort>(rt: &R, alloc: Alloc, len: usize) -> Op {
    Op::Upsert(key(rt, alloc), value(rt, alloc, len))
}

// Operations of each kind that writes.
fn writes<R: Abort>(rt: &R, alloc: Alloc) -> [Op; 5] {
    [
        Op::Insert(key(rt, alloc), value(rt, alloc, 100)),
        upsert(rt, alloc, 200),
        Op::Update(key(rt, alloc), value(rt, alloc, 300)),
        Op::SwapIf(key(rt, alloc), value(rt, alloc, 300), value(rt, alloc, 400)),
        Op::Insert(key(rt, alloc), value(rt, alloc, 500)),
    ]
}

// Runs the writes, and drops them and what is answered.
fn run_writes<R: Abort + Threads + Sync>(rt: &R, alloc: Alloc, index: &mut Index) {
    let ops = writes(rt, alloc);
    index.run(rt, &ops, &OpenGate).expect(rt, "memory");
}

#[test]
fn an_index_keeps_nothing_of_the_heap_of_its_operations(rt: HostRuntime) {
    let own = heap(&rt, rt.alloc(), 1 << 20);
    let other = heap(&rt, rt.alloc(), 1 << 20);
    let mut index = Index::new(own, Options::default()).expect(&rt, "an index");
    let before = own.used();
    run_writes(&rt, other, &mut index);
    assert_equal(&rt, other.used(), 0);
    assert_that(&rt, own.used() >= before.saturating_add(400));
}

// So many upserts of a value of 1,024 bytes.
fn large_writes<R: Abort>(rt: &R, alloc: Alloc, count: u64) -> Vec<Op, Alloc> {
    let mut ops = Vec::new(alloc);
    for _ in 0..count {
        ops.push(upsert(rt, alloc, 1024)).expect(rt, "memory");
    }
    ops
}

// Why a batch of so many large writes is refused, if it is.
fn refusal_of<R: Abort + Threads + Sync>(
    rt: &R,
    alloc: Alloc,
    index: &mut Index,
    count: u64,
) -> Option<Refusal> {
    let ops = large_writes(rt, alloc, count);
    index.run(rt, &ops, &OpenGate).err()
}

// The limit of the index's heap counts for what it is given from another one.
#[test]
fn an_index_refuses_what_its_own_heap_has_no_room_for(rt: HostRuntime) {
    let own = heap(&rt, rt.alloc(), 1 << 18);
    let other = heap(&rt, rt.alloc(), 1 << 24);
    let mut index = Index::new(own, Options::default()).expect(&rt, "an index");
    assert_that(&rt, refusal_of(&rt, other, &mut index, 10).is_none());
    assert_equal(
        &rt,
        refusal_of(&rt, other, &mut index, 500),
        Some(Refusal::Memory),
    );
    assert_equal(&rt, other.used(), 0);
    assert_equal(&rt, index.tree().records(), 10);
}

// The bytes of a heap, and those of them that are left for a batch.
const BYTES: u64 = 1 << 26;

const LEFT: u64 = 1 << 14;

// Takes all that a heap has but what is left for a batch.
fn fill<R: Abort>(rt: &R, alloc: Alloc) -> Vec<u8, Alloc> {
    let taken = BYTES.saturating_sub(alloc.used()).saturating_sub(LEFT);
    Vec::with_capacity(alloc, taken as usize).expect(rt, "memory")
}

// The mapping words of so many leaves are 80,008 bytes: a batch copies those of the leaves that it touches alone.
#[test]
fn a_batch_of_one_write_over_10000_leaves_takes_memory_for_one_of_them(rt: HostRuntime) {
    let alloc = heap(&rt, rt.alloc(), BYTES);
    let tree = tree_of(&rt, alloc, 10_000, 1 << 16);
    let mut index = Index::from_tree(alloc, Options::default(), tree).expect(&rt, "an index");
    // All pages are looked at behind the first batch, and those of a batch alone behind the others.
    index.run(&rt, &[], &OpenGate).expect(&rt, "memory");
    let ops = [upsert(&rt, alloc, 8)];
    let _rest = fill(&rt, alloc);
    assert!(rt; Vec::<u8, Alloc>::with_capacity(alloc, LEFT as usize + 1).is_err());
    let done = index.run(&rt, &ops, &OpenGate).expect(&rt, "memory");
    assert_equal(&rt, done.replies.as_slice().len(), 1);
}
