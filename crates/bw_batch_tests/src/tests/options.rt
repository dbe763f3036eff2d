// The ranges of the options, and the texts of their faults.
use super::running::options_up_to;
use crate::tests::assertions::{assert_equal, assert_that};
use bw_batch::{OptionFault, Options};
use bw_fixtures::heap;
use bw_memory::Alloc;
use std::process::Abort;

// The values of options, in the order of `Options::new`.
type Values = [u64; 7];

// Values, and which of them is answered as a fault.
type Faulty = (Values, OptionFault);

// What is wrong with these options.
fn fault_of(n: Values) -> Option<OptionFault> {
    Options::new(n[0], n[1], n[2], n[3], n[4], n[5], n[6]).err()
}

// Compares the fault of each row.
fn have_faults<R: Abort>(rt: &R, rows: &[Faulty]) {
    for (values, fault) in rows {
        assert_equal(rt, fault_of(*values), Some(*fault));
    }
}

const IN_RANGE: &[Values] = &[
    [4, 64, 8, 64, 16, 65536, 1048576],
    [1, 1, 1, 4, 0, 1, 1],
    [64, 4096, 1024, 4096, 2048, 65536, 16777216],
    [4, 64, 8, 4, 2, 65536, 1048576],
    [4, 64, 8, 5, 2, 65536, 1048576],
    [4, 64, 8, 64, 32, 65536, 65536],
];

#[test]
fn options_at_the_ends_of_their_ranges(rt: HostRuntime) {
    for values in IN_RANGE {
        assert_that(&rt, fault_of(*values).is_none());
    }
}

// The greatest word.
const MOST: u64 = u64::MAX;

const PAST: &[Faulty] = &[
    ([0, 64, 8, 64, 16, 65536, 1048576], OptionFault::Workers(0)),
    (
        [65, 64, 8, 64, 16, 65536, 1048576],
        OptionFault::Workers(65),
    ),
    (
        [MOST, 64, 8, 64, 16, 65536, 1048576],
        OptionFault::Workers(MOST),
    ),
    ([4, 0, 8, 64, 16, 65536, 1048576], OptionFault::Piece(0)),
    (
        [4, 4097, 8, 64, 16, 65536, 1048576],
        OptionFault::Piece(4097),
    ),
    ([4, 64, 0, 64, 16, 65536, 1048576], OptionFault::ChainMax(0)),
    (
        [4, 64, 1025, 64, 16, 65536, 1048576],
        OptionFault::ChainMax(1025),
    ),
    ([4, 64, 8, 3, 1, 65536, 1048576], OptionFault::PageMax(3)),
    (
        [4, 64, 8, 4097, 16, 65536, 1048576],
        OptionFault::PageMax(4097),
    ),
    ([4, 64, 8, 64, 33, 65536, 1048576], OptionFault::PageMin(33)),
    ([4, 64, 8, 4, 3, 65536, 1048576], OptionFault::PageMin(3)),
    ([4, 64, 8, 5, 3, 65536, 1048576], OptionFault::PageMin(3)),
    ([4, 64, 8, 64, 16, 0, 1048576], OptionFault::BatchMax(0)),
    (
        [4, 64, 8, 64, 16, 65537, 1048576],
        OptionFault::BatchMax(65537),
    ),
    (
        [4, 64, 8, 64, 16, 65536, 65535],
        OptionFault::RecordMax(65535),
    ),
    (
        [4, 64, 8, 64, 16, 65536, 16777217],
        OptionFault::RecordMax(16777217),
    ),
];

#[test]
fn options_past_the_ends_of_their_ranges(rt: HostRuntime) {
    have_faults(&rt, PAST);
}

const FIRST_FAULTS: &[Faulty] = &[
    ([0, 0, 0, 0, MOST, 0, MOST], OptionFault::Workers(0)),
    ([1, 0, 0, 0, MOST, 0, MOST], OptionFault::Piece(0)),
    ([1, 1, 0, 0, MOST, 0, MOST], OptionFault::ChainMax(0)),
    ([1, 1, 1, 0, MOST, 0, MOST], OptionFault::PageMax(0)),
    ([1, 1, 1, 4, MOST, 0, MOST], OptionFault::PageMin(MOST)),
    ([1, 1, 1, 4, 0, 0, MOST], OptionFault::BatchMax(0)),
    ([1, 1, 1, 4, 0, 1, MOST], OptionFault::RecordMax(MOST)),
];

#[test]
fn the_first_fault_is_answered(rt: HostRuntime) {
    have_faults(&rt, FIRST_FAULTS);
}

const TEXTS: &[(OptionFault, &str)] = &[
    (OptionFault::Workers(0), "workers must be from 1 to 64"),
    (OptionFault::Piece(0), "piece must be from 1 to 4096"),
    (OptionFault::ChainMax(0), "chain must be from 1 to 1024"),
    (OptionFault::PageMax(0), "page-max must be from 4 to 4096"),
    (
        OptionFault::PageMin(3),
        "page-min must be from 0 to half of page-max",
    ),
    (
        OptionFault::BatchMax(0),
        "batch-max must be from 1 to 65536",
    ),
    (
        OptionFault::RecordMax(0),
        "record-max must be from batch-max to 16777216",
    ),
];

// Compares the text of a fault.
fn has_text<R: Abort>(rt: &R, alloc: Alloc, fault: OptionFault, expected: &str) {
    let text = format!(in alloc; "{fault}").expect(rt, "memory");
    assert_equal(rt, text.as_str(), expected);
}

#[test]
fn each_fault_has_a_text(rt: HostRuntime) {
    let alloc = heap(rt.alloc()).expect(&rt, "a heap");
    for (fault, expected) in TEXTS {
        has_text(&rt, alloc, *fault, expected);
    }
}

#[test]
fn options_are_copied_and_read(rt: HostRuntime) {
    let options = options_up_to(&rt, 3);
    let copy = options;
    assert_equal(&rt, options.batch_max(), 3);
    assert_equal(&rt, copy.batch_max(), 3);
    assert_that(&rt, !options.beside() && options.with_beside(true).beside());
    assert_that(&rt, !Options::default().beside());
    assert_that(&rt, !options.eager() && options.with_eager(true).eager());
    assert_that(&rt, !Options::default().eager());
    assert_that(&rt, options.with_eager(true).with_beside(true).eager());
}
