// Many batches with a sweep before each.
use super::maker::{Maker, same};
use crate::tests::assertions::{assert_equal, assert_that};
use bw_batch::{Index, OpenGate, Options, Reply};
use std::process::Abort;
use std::thread::Threads;

// How many batches there are.
const BATCHES: u32 = 1000;

// Runs a batch that puts three numbers at one key, and compares the replies: the first is to a write over the number before,
// if there is one.
fn run<R: Abort + Threads + Sync>(rt: &R, make: &Maker<R>, index: &mut Index, number: u32) {
    let (second, third) = (number.wrapping_add(1), number.wrapping_add(2));
    let ops = [
        make.upsert(b'a', number),
        make.upsert(b'a', second),
        make.upsert(b'a', third),
    ];
    let done = index.run(rt, &ops, &OpenGate).expect(rt, "memory");
    let first = match number.checked_sub(1) {
        Some(before) => make.was(before),
        None => Reply::New,
    };
    same(
        rt,
        done.replies.as_slice(),
        &[first, make.was(number), make.was(second)],
    );
}

// Runs the batches. Each finds three records, where no more may stand, so a sweep comes before it.
fn storm<R: Abort + Threads + Sync>(rt: &R, make: &Maker<R>, workers: u64) {
    let options = Options::new(workers, 1, 8, 64, 16, 3, 3).expect(rt, "options");
    let mut index = Index::new(make.alloc, options).expect(rt, "an index");
    for batch in 0..BATCHES {
        run(rt, make, &mut index, batch.wrapping_mul(3));
        assert_equal(rt, index.tree().next_stamp(), 3);
        assert_equal(rt, index.tree().records(), 3);
    }
    let shape = index.tree().shape().expect(rt, "memory");
    assert_equal(rt, shape.len(), 1);
    for page in &shape {
        assert_equal(rt, page.level, 0);
        assert_equal(rt, page.low.bytes().len(), 0);
        assert_that(rt, page.high.is_none());
        assert_equal(rt, page.pairs, 1);
        assert_equal(rt, page.writes, 3);
    }
}

#[test]
fn a_sweep_comes_before_each_of_a_thousand_batches(rt: HostRuntime) {
    let make = Maker::new(&rt, rt.alloc());
    storm(&rt, &make, 1);
    storm(&rt, &make, 4);
}
