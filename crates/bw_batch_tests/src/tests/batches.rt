// Batches by hand: what they are answered, and what they leave.
use super::running::{LONG, Row};
use super::turns::{Batches, compare};
use bw_batch::{Gate, OpenGate};
use bw_fixtures::TextOp::{Delete, Get, Insert, Rscan, Scan, SwapIf, Update, Upsert};
use bw_fixtures::TextReply::{Absent, Found, Held, Inserted, New, Pairs, Was};

// The decimal text of the greatest 64-bit word.
const GREATEST: &str = "18446744073709551615";

const NO_BATCH: Batches = &[];

const TWO_EMPTY: Batches = &[&[], &[]];

#[test]
fn no_operation_has_no_reply(rt: HostRuntime) {
    compare(&rt, rt.alloc(), NO_BATCH, &[]);
    compare(&rt, rt.alloc(), TWO_EMPTY, &[]);
}

const OWN_WRITES: Batches = &[
    &[
        (Upsert("a", "1"), New),
        (Get("a"), Found("1")),
        (Upsert("a", "2"), Was("1")),
        (Get("b"), Absent),
    ],
    &[(Get("a"), Found("2"))],
];

#[test]
fn a_batch_reads_its_own_writes_and_those_before_it(rt: HostRuntime) {
    compare(&rt, rt.alloc(), OWN_WRITES, &[("a", "2")]);
}

const EACH_BY_THE_ONE_BEFORE: Batches = &[&[
    (Insert("a", "1"), Inserted),
    (Insert("a", "2"), Held("1")),
    (Update("a", "3"), Was("1")),
    (Delete("a"), Was("3")),
    (Update("a", "4"), Absent),
    (Upsert("a", "5"), New),
    (Get("a"), Found("5")),
]];

#[test]
fn each_write_depends_on_the_one_before_it(rt: HostRuntime) {
    compare(&rt, rt.alloc(), EACH_BY_THE_ONE_BEFORE, &[("a", "5")]);
}

const GETS: Batches = &[&[
    (Get("a"), Absent),
    (Insert("a", "1"), Inserted),
    (Get("a"), Found("1")),
]];

#[test]
fn a_get_sees_no_later_write(rt: HostRuntime) {
    compare(&rt, rt.alloc(), GETS, &[("a", "1")]);
}

const SCANS: Batches = &[&[
    (Scan("", None, 9), Pairs(&[])),
    (Upsert("b", "2"), New),
    (Scan("", None, 9), Pairs(&[("b", "2")])),
]];

#[test]
fn a_scan_sees_no_later_write(rt: HostRuntime) {
    compare(&rt, rt.alloc(), SCANS, &[("b", "2")]);
}

const ENDS: Batches = &[
    &[
        (Upsert("a", "1"), New),
        (Upsert("b", "2"), New),
        (Upsert("c", "3"), New),
    ],
    &[
        (Scan("b", Some("b"), 9), Pairs(&[])),
        (Scan("c", Some("a"), 9), Pairs(&[])),
        (Scan("a", None, 0), Pairs(&[])),
        (
            Scan("", None, 99),
            Pairs(&[("a", "1"), ("b", "2"), ("c", "3")]),
        ),
        (Scan("a", Some("c"), 9), Pairs(&[("a", "1"), ("b", "2")])),
        (Scan("b", None, 1), Pairs(&[("b", "2")])),
    ],
];

#[test]
fn scans_keep_to_their_ends_and_their_count(rt: HostRuntime) {
    let after = [("a", "1"), ("b", "2"), ("c", "3")];
    compare(&rt, rt.alloc(), ENDS, &after);
}

const LASTING: Batches = &[
    &[
        (Insert("a", "1"), Inserted),
        (Delete("a"), Was("1")),
        (Insert("a", "2"), Inserted),
    ],
    &[(Update("a", "3"), Was("2")), (Insert("a", "4"), Held("3"))],
    &[
        (Delete("a"), Was("3")),
        (Upsert("a", "5"), New),
        (Get("a"), Found("5")),
    ],
];

#[test]
fn a_value_outlasts_its_batch(rt: HostRuntime) {
    compare(&rt, rt.alloc(), LASTING, &[("a", "5")]);
}

const ONE_KEY: Batches = &[
    &[
        (Upsert("a", "1"), New),
        (Upsert("a", "2"), Was("1")),
        (Upsert("a", "3"), Was("2")),
    ],
    &[
        (Upsert("a", "4"), Was("3")),
        (Get("a"), Found("4")),
        (Delete("a"), Was("4")),
    ],
    &[
        (Get("a"), Absent),
        (Insert("a", "7"), Inserted),
        (Get("a"), Found("7")),
    ],
];

#[test]
fn a_batch_of_reads_and_writes_of_one_key_follows_one_of_writes(rt: HostRuntime) {
    compare(&rt, rt.alloc(), ONE_KEY, &[("a", "7")]);
}

const BY_BYTES: Batches = &[&[
    (Upsert("ab", "1"), New),
    (Upsert("b", "2"), New),
    (Upsert("a\0", "3"), New),
    (Upsert("", "4"), New),
    (Upsert("a", "5"), New),
    (
        Scan("", None, 9),
        Pairs(&[("", "4"), ("a", "5"), ("a\0", "3"), ("ab", "1"), ("b", "2")]),
    ),
]];

#[test]
fn keys_are_ordered_by_their_bytes(rt: HostRuntime) {
    let after = [("", "4"), ("a", "5"), ("a\0", "3"), ("ab", "1"), ("b", "2")];
    compare(&rt, rt.alloc(), BY_BYTES, &after);
}

const SWAPS: Batches = &[&[
    (SwapIf("a", "1", "2"), Absent),
    (Upsert("a", "1"), New),
    (SwapIf("a", "2", "3"), Held("1")),
    (SwapIf("a", "1", "2"), Was("1")),
    (Get("a"), Found("2")),
    (Insert("b", "5"), Inserted),
    (Rscan("", None, 1), Pairs(&[("b", "5")])),
    (Rscan("a", Some("b"), 9), Pairs(&[("a", "2")])),
    (Rscan("", None, 9), Pairs(&[("b", "5"), ("a", "2")])),
]];

#[test]
fn swaps_and_scans_from_the_greatest_key(rt: HostRuntime) {
    compare(&rt, rt.alloc(), SWAPS, &[("a", "2"), ("b", "5")]);
}

const LONG_TEXTS: Batches = &[&[
    (Upsert("a", GREATEST), New),
    (Get("a"), Found(GREATEST)),
    (Upsert(LONG, LONG), New),
    (Get(LONG), Found(LONG)),
]];

#[test]
fn long_keys_and_values_are_kept(rt: HostRuntime) {
    compare(
        &rt,
        rt.alloc(),
        LONG_TEXTS,
        &[("a", GREATEST), (LONG, LONG)],
    );
}

#[test]
fn an_open_gate_lets_all_through() {
    OpenGate.before(0);
    OpenGate.after(u64::MAX);
}
