// A sweep of a tree to which batches were posted.
use super::making::{FLOOR, Pair};
use super::scripts::Call::Sweep;
use super::scripts::Start::ThreeLeaves;
use super::scripts::Step::{Done, Run, Seen};
use super::scripts::{Step, play};
use super::sights::Sight::{Holds, Stands};
use bw_fixtures::TextOp::Upsert;

// What leads to the tree over three leaves, each with a write over it, behind three batches.
const WRITTEN: &[Step] = &[
    Run(&[Upsert("c", "9")], &[1]),
    Run(&[Upsert("a", "7")], &[0]),
    Run(&[Upsert("e", "8")], &[2]),
    Seen(Stands(&[FLOOR + 1, FLOOR, FLOOR + 2, 3], 3, 3)),
];

const SWEPT: &[Pair] = &[(b"a", b"7"), (b"b", b"2"), (b"c", b"9"), (b"e", b"8")];

const BEHIND_THE_NEXT: &[Pair] = &[(b"a", b"7"), (b"b", b"6"), (b"c", b"9"), (b"e", b"8")];

const SWEPT_AND_WRITTEN: &[Step] = &[
    Done(Sweep),
    Seen(Stands(&[0, 1, 2, 3], 0, 0)),
    Seen(Holds(0, SWEPT)),
    Run(&[Upsert("b", "6")], &[0]),
    Seen(Stands(&[FLOOR, 1, 2, 3], 1, 1)),
    Seen(Holds(0, SWEPT)),
    Seen(Holds(1, BEHIND_THE_NEXT)),
];

#[test]
fn a_swept_tree_takes_the_next_batch(rt: HostRuntime) {
    play(&rt, rt.alloc(), ThreeLeaves, WRITTEN, SWEPT_AND_WRITTEN);
}
