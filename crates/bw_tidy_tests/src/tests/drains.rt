// An index of four levels from which the keys go, the least first. Inner pages lose their children from the left on,
// and where one of them is merged, its first child gets a left neighbour into which the next tidying merges it.
use super::maker::Maker;
use super::stops::{Compared, deletes, empty, run, upserts};
use crate::tests::assertions::assert_equal;
use bw_memory::Alloc;
use std::process::Abort;
use std::thread::Threads;

// How many keys come by a batch, and how many go.
const COME: u8 = 60;

const GO: u8 = 20;

// So many keys from the one of this number on.
fn keys<R: Abort>(rt: &R, alloc: Alloc, first: u8, count: u8) -> Vec<u8, Alloc> {
    let mut keys = Vec::new(alloc);
    for place in 1..=count {
        keys.push(first.saturating_add(place)).expect(rt, "memory");
    }
    keys
}

// Has 180 keys come by one batch after another.
fn fill<R: Abort + Threads + Sync>(rt: &R, make: &Maker<R>, both: &mut Compared) {
    for part in 0..3u8 {
        let first = part.saturating_mul(COME);
        let ops = upserts(rt, make, &keys(rt, make.alloc, first, COME));
        run(rt, both, &ops);
    }
}

// Has them go again.
fn drain<R: Abort + Threads + Sync>(rt: &R, make: &Maker<R>, both: &mut Compared) {
    for part in 0..9u8 {
        let first = part.saturating_mul(GO);
        let ops = deletes(rt, make, &keys(rt, make.alloc, first, GO));
        run(rt, both, &ops);
    }
}

#[test]
fn inner_pages_are_merged_by_the_tidying_behind_that_of_their_parents(rt: HostRuntime) {
    let make = Maker::new(&rt, rt.alloc());
    let mut both = empty(&rt, &make, 6, 3);
    fill(&rt, &make, &mut both);
    assert_equal(&rt, both.index.tree().root_level(), 3);
    drain(&rt, &make, &mut both);
}
