// What each write answers and leaves.
ghost use Rattle.std.specs.Prelude.{◌≡◌, is_some, true};
ghost use Rattle.bw_model.specs.Model.{key_of};

use super::making::Maker;
use crate::tests::assertions::{assert_equal, assert_that};
use bw_fixtures::{TextOp, TextReply, is_reply};
use bw_model::{Action, Op, Verb};
use std::process::Abort;

// What an operation does with the value at its key, if it writes.
fn action_of<R: Abort>(rt: &R, make: &Maker<R>, text: TextOp) -> Action {
    match text {
        TextOp::Insert(_, put) => Action::Insert(make.value(put)),
        TextOp::Upsert(_, put) => Action::Upsert(make.value(put)),
        TextOp::Update(_, put) => Action::Update(make.value(put)),
        TextOp::Delete(_) => Action::Delete,
        TextOp::SwapIf(_, old, new) => Action::SwapIf(make.value(old), make.value(new)),
        _ => panic!(rt; "an operation that writes"),
    }
}

// A write, the value before it, its reply, and the value behind it.
type Row = (
    TextOp,
    Option<&'static str>,
    TextReply,
    Option<&'static str>,
);

// Compares what a write answers and leaves.
fn compare<R: Abort>(rt: &R, make: &Maker<R>, (text, before, reply, after): Row) {
    let action = action_of(rt, make, text);
    let before = before.map(|text| text.as_bytes());
    let answer = action.answer(make.alloc, before).expect(rt, "memory");
    assert_that(rt, is_reply(&answer, reply));
    assert_that(rt, is(action.effect(before), after));
}

// Whether a value is that of a text, or there is none.
fn is(value: Option<&[u8]>, text: Option<&'static str>) -> bool {
    match (value, text) {
        (Some(value), Some(text)) => value == text.as_bytes(),
        (None, None) => true,
        _ => false,
    }
}

const OVER_A_VALUE: &[Row] = &[
    (
        TextOp::Insert("k", "2"),
        Some("1"),
        TextReply::Held("1"),
        Some("1"),
    ),
    (
        TextOp::Upsert("k", "2"),
        Some("1"),
        TextReply::Was("1"),
        Some("2"),
    ),
    (
        TextOp::Update("k", "2"),
        Some("1"),
        TextReply::Was("1"),
        Some("2"),
    ),
    (TextOp::Delete("k"), Some("1"), TextReply::Was("1"), None),
    (
        TextOp::SwapIf("k", "1", "2"),
        Some("1"),
        TextReply::Was("1"),
        Some("2"),
    ),
    (
        TextOp::SwapIf("k", "3", "2"),
        Some("1"),
        TextReply::Held("1"),
        Some("1"),
    ),
];

#[test]
fn each_write_over_a_value(rt: HostRuntime) {
    let make = Maker::new(&rt, rt.alloc());
    for &row in OVER_A_VALUE {
        compare(&rt, &make, row);
    }
}

const OVER_NONE: &[Row] = &[
    (
        TextOp::Insert("k", "2"),
        None,
        TextReply::Inserted,
        Some("2"),
    ),
    (TextOp::Upsert("k", "2"), None, TextReply::New, Some("2")),
    (TextOp::Update("k", "2"), None, TextReply::Absent, None),
    (TextOp::Delete("k"), None, TextReply::Absent, None),
    (TextOp::SwapIf("k", "1", "2"), None, TextReply::Absent, None),
];

#[test]
fn each_write_where_there_is_no_value(rt: HostRuntime) {
    let make = Maker::new(&rt, rt.alloc());
    for &row in OVER_NONE {
        compare(&rt, &make, row);
    }
}

// Compares what an operation answers at a key with this value, or with none.
fn has_reply<R: Abort>(rt: &R, make: &Maker<R>, op: &Op, value: Option<&[u8]>, reply: TextReply)
    requires { is_some (key_of op.now) ≡ true }
{
    let answer = op.reply_at(make.alloc, value).expect(rt, "memory");
    assert_that(rt, is_reply(&answer, reply));
    if let Some(verb) = op.verb() {
        has_verb_reply(rt, make, verb, value, reply);
    }
}

// The same for the verb alone.
fn has_verb_reply<R: Abort>(
    rt: &R,
    make: &Maker<R>,
    verb: Verb,
    value: Option<&[u8]>,
    reply: TextReply,
) {
    let answer = verb.reply_at(make.alloc, value).expect(rt, "memory");
    assert_that(rt, is_reply(&answer, reply));
}

// Compares what an operation on `k` answers where that has a 1, and where it has no value.
fn compare_replies<R: Abort>(
    rt: &R,
    make: &Maker<R>,
    op: &Op,
    (there, absent): (TextReply, TextReply),
) {
    let Some(key) = op.key() else {
        panic!(rt; "an operation on a key");
    };
    assert_equal(rt, key.bytes(), b"k".as_slice());
    has_reply(rt, make, op, Some(b"1"), there);
    has_reply(rt, make, op, None, absent);
}

// An operation, and its replies where its key has a 1 and where it has no value.
const REPLIES: &[(TextOp, TextReply, TextReply)] = &[
    (TextOp::Get("k"), TextReply::Found("1"), TextReply::Absent),
    (
        TextOp::Insert("k", "2"),
        TextReply::Held("1"),
        TextReply::Inserted,
    ),
    (TextOp::Delete("k"), TextReply::Was("1"), TextReply::Absent),
    (
        TextOp::SwapIf("k", "1", "2"),
        TextReply::Was("1"),
        TextReply::Absent,
    ),
    (
        TextOp::SwapIf("k", "3", "2"),
        TextReply::Held("1"),
        TextReply::Absent,
    ),
];

#[test]
fn each_operation_answers_by_the_value_at_its_key(rt: HostRuntime) {
    let make = Maker::new(&rt, rt.alloc());
    for &(text, there, absent) in REPLIES {
        compare_replies(&rt, &make, &make.op(text), (there, absent));
    }
}

#[test]
fn a_scan_has_no_key(rt: HostRuntime) {
    let make = Maker::new(&rt, rt.alloc());
    let scan = make.op(TextOp::Scan("k", None, 1));
    assert_that(&rt, scan.key().is_none());
    assert_that(&rt, scan.verb().is_none());
}

#[test]
fn a_get_has_a_verb_and_a_swap_has_none(rt: HostRuntime) {
    let make = Maker::new(&rt, rt.alloc());
    let get = make.op(TextOp::Get("k"));
    assert_equal(&rt, get.verb(), Some(Verb::Get));
    let swap = make.op(TextOp::SwapIf("k", "1", "2"));
    assert_that(&rt, swap.verb().is_none());
}
