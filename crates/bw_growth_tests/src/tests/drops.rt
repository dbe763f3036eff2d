// An index that is dropped gives its memory back.
use super::trees::LONG;
use crate::tests::assertions::{assert_equal, assert_that};
use bw_batch::{Index, Key, Op, OpenGate, Options, Value};
use bw_memory::{Alloc, Heap};
use std::process::Abort;
use std::test::Fail;
use std::thread::Threads;

// Runs a batch that keeps a key and a value which take memory.
fn put<R: Abort + Threads + Sync>(rt: &R, alloc: Alloc, index: &mut Index) {
    let key = Key::new(alloc, LONG.as_bytes()).expect(rt, "a key");
    let value = Value::new(alloc, LONG.as_bytes()).expect(rt, "a value");
    let ops = [Op::Upsert(key, value)];
    index.run(rt, &ops, &OpenGate).expect(rt, "memory");
}

// Makes an index, runs a batch on it, and drops it.
fn drop_index<R: Abort + Threads + Sync>(rt: &R, alloc: Alloc) {
    let mut index = Index::new(alloc, Options::default()).expect(rt, "an index");
    put(rt, alloc, &mut index);
    assert_that(rt, alloc.used() > 0);
    drop(index);
}

#[test]
fn what_is_dropped_gives_its_memory_back(rt: HostRuntime) -> Result<(), Fail> {
    let alloc = Heap::within(rt.alloc(), 1 << 20).leak(rt.alloc())?;
    drop_index(&rt, alloc);
    assert_equal(&rt, alloc.used(), 0);
    Ok(())
}
