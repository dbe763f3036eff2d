// Batches over trees in which a split isn't finished.
use super::making::{Found, Pair};
use super::scripts::Call::{FinishSplit, GrowRoot, Split};
use super::scripts::Start::Empty;
use super::scripts::Step::{Done, NotNeeded, Run, Seen, Tidied};
use super::scripts::{Step, play};
use super::sights::Sight::{Has, Holds, Pages};
use super::tidying::Bounds::{FivePairs, FourPairs};
use super::tidying::{FIVE, FIVE_PUTS};
use bw_fixtures::TextOp;
use bw_fixtures::TextOp::{Delete, Get, Upsert};

/// A batch of stamps from 5 on.
pub const ON_HALVES: &[TextOp] = &[Get("d"), Upsert("d", "9"), Upsert("b", "8")];

/// What its operations see: each the tree before it.
pub const AS_OF_5: &[Found] = &[(b"d", Some(b"4"))];

/// See `AS_OF_5`.
pub const AS_OF_7: &[Found] = &[(b"d", Some(b"9")), (b"b", Some(b"2"))];

/// And what it leaves.
pub const BEHIND_HALVES: &[Pair] = &[
    (b"a", b"1"),
    (b"b", b"8"),
    (b"c", b"3"),
    (b"d", b"9"),
    (b"e", b"5"),
];

/// A batch of stamps from 8 on.
pub const ON_LEAVES: &[TextOp] = &[Delete("e"), Get("b"), Upsert("d", "7")];

/// What its operations see: each the tree before it.
pub const AS_OF_8: &[Found] = &[(b"e", Some(b"5"))];

/// See `AS_OF_8`.
pub const AS_OF_9: &[Found] = &[(b"e", None), (b"b", Some(b"8"))];

/// See `AS_OF_8`.
pub const AS_OF_10: &[Found] = &[(b"d", Some(b"9"))];

/// And what it leaves.
pub const BEHIND_LEAVES: &[Pair] = &[(b"a", b"1"), (b"b", b"8"), (b"c", b"3"), (b"d", b"7")];

// A leaf of five pairs that is the root, split behind b.
const A_SPLIT_ROOT: &[Step] = &[
    Run(FIVE_PUTS, &[0]),
    Tidied(FivePairs, &[0], (1, 0)),
    Done(Split(0, 2)),
    Seen(Pages(&[(0, 0, b"", Some(b"c"), 2, 0), (1, 0, b"c", None, 3, 0)])),
];

const POSTED_TO_BOTH_HALVES: &[Step] = &[
    Run(ON_HALVES, &[0, 1]),
    Seen(Has(5, AS_OF_5)),
    Seen(Has(6, AS_OF_5)),
    Seen(Has(7, AS_OF_7)),
    Seen(Holds(8, BEHIND_HALVES)),
    NotNeeded(FinishSplit(0)),
    Done(GrowRoot),
    Seen(Has(5, AS_OF_5)),
    Seen(Has(6, AS_OF_5)),
    Seen(Has(7, AS_OF_7)),
    Seen(Holds(8, BEHIND_HALVES)),
    Run(ON_LEAVES, &[0, 1]),
    Seen(Has(8, AS_OF_8)),
    Seen(Has(9, AS_OF_9)),
    Seen(Has(10, AS_OF_10)),
    Seen(Holds(11, BEHIND_LEAVES)),
    Seen(Pages(&[
        (0, 0, b"", Some(b"c"), 2, 1),
        (1, 0, b"c", None, 2, 3),
        (2, 1, b"", None, 2, 0),
    ])),
];

#[test]
fn a_batch_is_posted_to_a_split_root(rt: HostRuntime) {
    play(&rt, rt.alloc(), Empty, A_SPLIT_ROOT, POSTED_TO_BOTH_HALVES);
}

// Two leaves under a root, the right one of which was split behind c.
const A_SPLIT_LEAF: &[Step] = &[
    Run(FIVE_PUTS, &[0]),
    Tidied(FourPairs, &[0], (1, 1)),
    Seen(Pages(FIVE)),
    Done(Split(1, 1)),
    Seen(Pages(&[
        (0, 0, b"", Some(b"c"), 2, 0),
        (1, 0, b"c", Some(b"d"), 1, 0),
        (3, 0, b"d", None, 2, 0),
        (2, 1, b"", None, 2, 0),
    ])),
];

const POSTED_WITHOUT_A_NAME: &[Step] = &[
    Run(ON_HALVES, &[0, 3]),
    Seen(Has(5, AS_OF_5)),
    Seen(Has(6, AS_OF_5)),
    Seen(Has(7, AS_OF_7)),
    Seen(Holds(8, BEHIND_HALVES)),
    Done(FinishSplit(1)),
    NotNeeded(FinishSplit(1)),
    Seen(Has(5, AS_OF_5)),
    Seen(Has(6, AS_OF_5)),
    Seen(Has(7, AS_OF_7)),
    Seen(Holds(8, BEHIND_HALVES)),
    Run(ON_LEAVES, &[0, 3]),
    Seen(Has(8, AS_OF_8)),
    Seen(Has(9, AS_OF_9)),
    Seen(Has(10, AS_OF_10)),
    Seen(Holds(11, BEHIND_LEAVES)),
    Seen(Pages(&[
        (0, 0, b"", Some(b"c"), 2, 1),
        (1, 0, b"c", Some(b"d"), 1, 0),
        (3, 0, b"d", None, 1, 3),
        (2, 1, b"", None, 3, 0),
    ])),
];

#[test]
fn a_batch_is_posted_to_a_leaf_without_a_name_above(rt: HostRuntime) {
    play(&rt, rt.alloc(), Empty, A_SPLIT_LEAF, POSTED_WITHOUT_A_NAME);
}
