// A stop as the identifier of an old root is given back: the next tidying gives it back.
use super::maker::Maker;
use super::stops::{deletes, upserts};
use crate::tests::assertions::{assert_equal, assert_that};
use bw_batch::{Index, OpenGate, Options};
use bw_fixtures::was_refused;
use bw_memory::Alloc;
use std::process::Abort;
use std::thread::Threads;

// So many keys are on five leaves under one root, whose identifier is the fifth to be given back: the list of those that came
// back has grown to four by then, and grows again.
const KEYS: u8 = 33;

fn keys<R: Abort>(rt: &R, alloc: Alloc) -> Vec<u8, Alloc> {
    let mut keys = Vec::new(alloc);
    for key in 1..=KEYS {
        keys.push(key).expect(rt, "memory");
    }
    keys
}

// An index with these keys.
fn five_leaves<R: Abort + Threads + Sync>(rt: &R, make: &Maker<R>) -> Index {
    let options = Options::new(1, 64, 1, 8, 3, 64, 1048576).expect(rt, "options");
    let mut index = Index::new(make.alloc, options).expect(rt, "an index");
    let ops = upserts(rt, make, &keys(rt, make.alloc));
    index.run(rt, &ops, &OpenGate).expect(rt, "memory");
    assert_equal(rt, index.tree().heads().len(), 6);
    index
}

// What one growth that is refused came to.
#[derive(Clone, Copy)]
struct Stop {
    // Whether it came.
    is_met: bool,
    // Whether tidying stopped behind the root that went: nothing but its identifier was left to be given back.
    is_behind_the_root: bool,
}

// Deletes all keys by a batch of which this growth is refused. Where tidying stopped, it goes on behind a batch of none.
fn drain<R: Abort + Threads + Sync>(
    rt: &R,
    make: &Maker<R>,
    index: &mut Index,
    growth: u64,
) -> Stop {
    let ops = deletes(rt, make, &keys(rt, make.alloc));
    make.alloc.refuse(growth);
    let outcome = index.run(rt, &ops, &OpenGate);
    let is_met = was_refused(make.alloc, growth);
    let is_stopped = match outcome {
        Ok(done) => done.tidy.stopped,
        Err(_) => return Stop {
            is_met,
            is_behind_the_root: false,
        },
    };
    let is_behind_the_root = is_stopped && index.tree().root_level() == 0;
    if is_stopped {
        let none = index.run(rt, &[], &OpenGate).expect(rt, "memory");
        assert_that(rt, !none.tidy.stopped);
    }
    assert_equal(rt, index.tree().heads().len(), 1);
    Stop {
        is_met,
        is_behind_the_root,
    }
}

#[test]
fn an_old_roots_identifier_comes_back_behind_a_stop(rt: HostRuntime) {
    let make = Maker::new(&rt, rt.alloc());
    let mut stops = 0u64;
    for growth in 1..1000 {
        let stop = drain(&rt, &make, &mut five_leaves(&rt, &make), growth);
        if !stop.is_met {
            break;
        }
        if stop.is_behind_the_root {
            stops = stops.saturating_add(1);
        }
    }
    assert_that(&rt, stops > 0);
}
