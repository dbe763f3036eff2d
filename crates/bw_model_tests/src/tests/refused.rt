// Each growth of memory refused in turn.
use super::making::{LONG, Maker, Pair};
use super::reference::{holds, map_of};
use crate::tests::assertions::{assert_equal, assert_that};
use bw_fixtures::{TextOp, was_refused};
use bw_key::Key;
use bw_memory::Alloc;
use bw_model::{Action, Op, ReferenceMap};
use std::process::Abort;

// The pairs that a piece of work starts from.
const BEFORE: &[Pair] = &[("a", "1"), (LONG, LONG)];

// What a map is asked for.
#[derive(Drop)]
enum Work {
    Copy,
    Entries,
    Write(Key, Action),
    Apply(Op),
    Run(Vec<Op, Alloc>),
}

fn lacks_copy(map: &ReferenceMap) -> bool {
    map.copy().is_err()
}

fn lacks_entries(map: &ReferenceMap) -> bool {
    map.entries().is_err()
}

fn lacks_write(map: &mut ReferenceMap, key: &Key, action: &Action) -> bool {
    map.write(key, action).is_err()
}

fn lacks_apply(map: &mut ReferenceMap, op: &Op) -> bool {
    map.apply(op).is_err()
}

fn lacks_run(map: &mut ReferenceMap, ops: &[Op]) -> bool {
    map.run(ops).is_err()
}

// Whether there was no memory for the work.
fn lacks_memory(map: &mut ReferenceMap, work: &Work) -> bool {
    match work {
        Work::Copy => lacks_copy(map),
        Work::Entries => lacks_entries(map),
        Work::Write(key, action) => lacks_write(map, key, action),
        Work::Apply(op) => lacks_apply(map, op),
        Work::Run(ops) => lacks_run(map, ops),
    }
}

// Does the work over a fresh map with this growth refused, and answers whether it met that refusal. If it did, the map
// is as before.
fn meets_refusal<R: Abort>(rt: &R, make: &Maker<R>, work: &Work, growth: u64) -> bool {
    let mut map = map_of(rt, make, BEFORE);
    make.alloc.refuse(growth);
    let lacked = lacks_memory(&mut map, work);
    let refused = was_refused(make.alloc, growth);

    assert_equal(rt, lacked, refused);
    if refused {
        holds(rt, &map, BEFORE);
    }
    refused
}

// Does the work with growth 1 refused, then with growth 2, until it meets no refusal. Answers how many were refused.
fn refusals<R: Abort>(rt: &R, make: &Maker<R>, work: &Work) -> u64 {
    for growth in 1..1000 {
        if !meets_refusal(rt, make, work, growth) {
            return growth - 1;
        }
    }
    panic!(rt; "no run met no refusal")
}

// Work that takes memory.
fn is_refused<R: Abort>(rt: &R, make: &Maker<R>, work: &Work) {
    assert_that(rt, refusals(rt, make, work) > 0);
}

// A batch that takes memory.
fn is_batch_refused<R: Abort>(rt: &R, make: &Maker<R>, texts: &[TextOp]) {
    is_refused(rt, make, &Work::Run(make.ops(texts)));
}

// How many growths of an operation are refused.
fn op_refusals<R: Abort>(rt: &R, make: &Maker<R>, text: TextOp) -> u64 {
    refusals(rt, make, &Work::Apply(make.op(text)))
}

// A write that takes memory.
fn is_write_refused<R: Abort>(rt: &R, make: &Maker<R>) {
    let action = Action::Upsert(make.value(LONG));
    is_refused(rt, make, &Work::Write(make.key(LONG), action));
}

#[test]
fn each_piece_of_work_meets_each_refusal(rt: HostRuntime) {
    let make = Maker::new(&rt, rt.alloc());
    is_refused(&rt, &make, &Work::Copy);
    is_refused(&rt, &make, &Work::Entries);
    is_write_refused(&rt, &make);
    is_batch_refused(&rt, &make, &[]);
}

const EACH: &[TextOp] = &[
    TextOp::Get(LONG),
    TextOp::Insert(LONG, "2"),
    TextOp::Upsert(LONG, "2"),
    TextOp::Update(LONG, "2"),
    TextOp::Delete(LONG),
    TextOp::SwapIf(LONG, LONG, "2"),
    TextOp::Scan("", None, 9),
    TextOp::Rscan("", None, 9),
];

#[test]
fn each_operation_meets_each_refusal(rt: HostRuntime) {
    let make = Maker::new(&rt, rt.alloc());
    for &text in EACH {
        assert_that(&rt, op_refusals(&rt, &make, text) > 0);
    }
}

#[test]
fn a_batch_meets_each_refusal(rt: HostRuntime) {
    let make = Maker::new(&rt, rt.alloc());
    let texts = [
        TextOp::Upsert("c", LONG),
        TextOp::Delete("a"),
        TextOp::Scan("", None, 9),
        TextOp::SwapIf(LONG, LONG, "2"),
    ];
    is_batch_refused(&rt, &make, &texts);
}

#[test]
fn a_get_of_a_short_value_takes_no_memory(rt: HostRuntime) {
    let make = Maker::new(&rt, rt.alloc());
    assert_equal(&rt, op_refusals(&rt, &make, TextOp::Get("a")), 0);
}
