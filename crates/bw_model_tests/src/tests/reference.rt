// The plain program: each operation over present and absent keys, and ranges.
use super::making::{LONG, Maker, Pair};
use crate::tests::assertions::{assert_equal, assert_that};
use bw_fixtures::{TextOp, TextReply, are_replies, have_texts, is_reply};
use bw_key::Key;
use bw_memory::Alloc;
use bw_model::{Action, Pairs, ReferenceMap, Replies, Reply};
use std::process::Abort;

// Runs an operation, whatever its reply is.
fn run<R: Abort>(rt: &R, make: &Maker<R>, map: &mut ReferenceMap, text: TextOp) {
    let op = make.op(text);
    map.apply(&op).expect(rt, "memory");
}

/// A map of these pairs.
pub fn map_of<R: Abort>(rt: &R, make: &Maker<R>, pairs: &[Pair]) -> ReferenceMap {
    let mut map = ReferenceMap::new(make.alloc);
    for (key, value) in pairs {
        run(rt, make, &mut map, TextOp::Upsert(key, value));
    }
    map
}

// Compares the reply to an operation.
fn answers<R: Abort>(
    rt: &R,
    make: &Maker<R>,
    map: &mut ReferenceMap,
    text: TextOp,
    reply: TextReply,
) {
    let op = make.op(text);
    let answer = map.apply(&op).expect(rt, "memory");
    assert_that(rt, is_reply(&answer, reply));
}

/// Compares the pairs of a map.
pub fn holds<R: Abort>(rt: &R, map: &ReferenceMap, pairs: &[Pair]) {
    let entries = map.entries().expect(rt, "memory");
    assert_that(rt, have_texts(&entries, pairs));
}

// An operation, its reply, and the pairs afterwards.
type Row = (TextOp, TextReply, &'static [Pair]);

// Compares the reply to an operation on a map of these pairs, and the pairs afterwards.
fn compare<R: Abort>(rt: &R, make: &Maker<R>, before: &[Pair], (op, reply, after): Row) {
    let mut map = map_of(rt, make, before);
    answers(rt, make, &mut map, op, reply);
    holds(rt, &map, after);
}

#[test]
fn a_new_map_is_empty(rt: HostRuntime) {
    let make = Maker::new(&rt, rt.alloc());
    make.alloc.refuse(1);
    let map = ReferenceMap::new(make.alloc);
    assert_that(&rt, map.get(&make.key("")).is_none());
    assert_equal(&rt, make.alloc.left(), 1);
    make.alloc.refuse(0);
    holds(&rt, &map, &[]);
}

const TWO: &[Pair] = &[("a", "1"), ("b", "2"), ("c", "3")];

const NINE: &[Pair] = &[("a", "1"), ("b", "9"), ("c", "3")];

const NONE: &[Pair] = &[("a", "1"), ("c", "3")];

const OVER_TWO: &[Row] = &[
    (TextOp::Get("b"), TextReply::Found("2"), TWO),
    (TextOp::Insert("b", "9"), TextReply::Held("2"), TWO),
    (TextOp::Upsert("b", "9"), TextReply::Was("2"), NINE),
    (TextOp::Update("b", "9"), TextReply::Was("2"), NINE),
    (TextOp::Delete("b"), TextReply::Was("2"), NONE),
    (TextOp::SwapIf("b", "2", "9"), TextReply::Was("2"), NINE),
    (TextOp::SwapIf("b", "1", "9"), TextReply::Held("2"), TWO),
];

#[test]
fn each_operation_over_a_key_that_is_there(rt: HostRuntime) {
    let make = Maker::new(&rt, rt.alloc());
    for &row in OVER_TWO {
        compare(&rt, &make, TWO, row);
    }
}

const OVER_NONE: &[Row] = &[
    (TextOp::Get("b"), TextReply::Absent, NONE),
    (TextOp::Insert("b", "9"), TextReply::Inserted, NINE),
    (TextOp::Upsert("b", "9"), TextReply::New, NINE),
    (TextOp::Update("b", "9"), TextReply::Absent, NONE),
    (TextOp::Delete("b"), TextReply::Absent, NONE),
    (TextOp::SwapIf("b", "1", "9"), TextReply::Absent, NONE),
];

#[test]
fn each_operation_over_a_key_that_is_not_there(rt: HostRuntime) {
    let make = Maker::new(&rt, rt.alloc());
    for &row in OVER_NONE {
        compare(&rt, &make, NONE, row);
    }
}

// Compares the reply to a write that puts a long value in place of 1.
fn swaps<R: Abort>(rt: &R, make: &Maker<R>, map: &mut ReferenceMap, key: &Key) {
    let action = Action::SwapIf(make.value("1"), make.value(LONG));
    let answer = map.write(key, &action).expect(rt, "memory");
    assert_that(rt, is_reply(&answer, TextReply::Was("1")));
}

// Whether a map has this text at a key.
fn has_at(map: &ReferenceMap, key: &Key, text: &str) -> bool {
    match map.get(key) {
        Some(value) => value == text.as_bytes(),
        None => false,
    }
}

#[test]
fn a_write_is_answered_and_then_read(rt: HostRuntime) {
    let make = Maker::new(&rt, rt.alloc());
    let mut map = map_of(&rt, &make, &[("a", "1")]);
    let key = make.key("a");
    swaps(&rt, &make, &mut map, &key);
    assert_that(&rt, has_at(&map, &key, LONG));
    assert_that(&rt, map.get(&make.key("A")).is_none());
}

// The last pairs of a list, so many of them, the last one first.
fn turned<R: Abort>(rt: &R, alloc: Alloc, pairs: &[Pair], count: usize) -> Vec<Pair, Alloc> {
    let mut falling = Vec::new(alloc);
    for pair in pairs.iter().rev().take(count) {
        falling.push(*pair).expect(rt, "memory");
    }
    falling
}

// Compares the first pairs of a range.
fn scans<R: Abort>(
    rt: &R,
    map: &ReferenceMap,
    (from, to): (&Key, Option<&Key>),
    most: u64,
    pairs: &[Pair],
) {
    let scanned = map.scan(from, to, most).expect(rt, "memory");
    assert_that(rt, have_texts(&scanned, pairs));
}

// And the last ones, the last one first.
fn scans_back<R: Abort>(
    rt: &R,
    map: &ReferenceMap,
    (from, to): (&Key, Option<&Key>),
    most: u64,
    pairs: &[Pair],
) {
    let scanned = map.rscan(from, to, most).expect(rt, "memory");
    assert_that(rt, have_texts(&scanned, pairs));
}

// Compares the first pairs of a range, and the last ones, up to this many.
fn scans_most<R: Abort>(
    rt: &R,
    alloc: Alloc,
    map: &ReferenceMap,
    range: (&Key, Option<&Key>),
    most: u64,
    pairs: &[Pair],
) {
    let count = pairs.len().min(most as usize);
    scans(rt, map, range, most, &pairs[..count]);
    let falling = turned(rt, alloc, pairs, count);
    scans_back(rt, map, range, most, &falling);
}

// Compares the pairs of a range, up to many numbers of them.
fn has_range<R: Abort>(
    rt: &R,
    make: &Maker<R>,
    map: &ReferenceMap,
    (from, to): (&'static str, Option<&'static str>),
    pairs: &[Pair],
) {
    let from = make.key(from);
    let to = make.end(to);
    for most in [0, 1, 2, 3, 4, 9, u64::MAX] {
        scans_most(rt, make.alloc, map, (&from, to.as_ref()), most, pairs);
    }
}

const ALL: [Pair; 4] = [("", "0"), ("a", "1"), ("b", "2"), ("c", "3")];

// Where a range begins and ends, and the places of its pairs.
const RANGES: &[(&str, Option<&str>, usize, usize)] = &[
    ("", None, 0, 4),
    ("a", None, 1, 4),
    ("a", Some("c"), 1, 3),
    ("a\0", Some("c\0"), 2, 4),
    ("b", Some("b"), 0, 0),
    ("c", Some("a"), 0, 0),
    ("d", None, 0, 0),
    ("", Some("a"), 0, 1),
];

#[test]
fn a_range_has_its_lower_end_and_not_its_upper_one(rt: HostRuntime) {
    let make = Maker::new(&rt, rt.alloc());
    let map = map_of(&rt, &make, &ALL);
    for &(from, to, first, end) in RANGES {
        has_range(&rt, &make, &map, (from, to), &ALL[first..end]);
    }
}

// Compares the replies to a batch.
fn are_answered<R: Abort>(
    rt: &R,
    make: &Maker<R>,
    map: &mut ReferenceMap,
    texts: &[TextOp],
    replies: &[TextReply],
) {
    let ops = make.ops(texts);
    let answered = map.run(&ops).expect(rt, "memory");
    assert_that(rt, are_replies(answered.as_slice(), replies));
}

const BATCH: &[TextOp] = &[
    TextOp::Get("a"),
    TextOp::Upsert("a", "1"),
    TextOp::Scan("", None, 9),
    TextOp::Upsert("b", "2"),
    TextOp::Get("a"),
    TextOp::Rscan("", None, 9),
    TextOp::Delete("a"),
    TextOp::Get("a"),
];

const ANSWERS: &[TextReply] = &[
    TextReply::Absent,
    TextReply::New,
    TextReply::Pairs(&[("a", "1")]),
    TextReply::New,
    TextReply::Found("1"),
    TextReply::Pairs(&[("b", "2"), ("a", "1")]),
    TextReply::Was("1"),
    TextReply::Absent,
];

#[test]
fn a_batch_runs_in_its_order(rt: HostRuntime) {
    let make = Maker::new(&rt, rt.alloc());
    let mut map = ReferenceMap::new(make.alloc);
    are_answered(&rt, &make, &mut map, BATCH, ANSWERS);
    holds(&rt, &map, &[("b", "2")]);
    are_answered(&rt, &make, &mut map, &[], &[]);
    holds(&rt, &map, &[("b", "2")]);
}

// Runs operations on a map, a copy of which holds the pairs from before.
fn copies<R: Abort>(
    rt: &R,
    make: &Maker<R>,
    map: &mut ReferenceMap,
    texts: &[TextOp],
    before: &[Pair],
) {
    let copy = map.copy().expect(rt, "memory");
    let ops = make.ops(texts);
    map.run(&ops).expect(rt, "memory");
    holds(rt, &copy, before);
}

#[test]
fn a_copy_is_a_map_of_its_own(rt: HostRuntime) {
    let make = Maker::new(&rt, rt.alloc());
    let before: [Pair; 2] = [("a", "1"), (LONG, LONG)];
    let changes = [TextOp::Delete("a"), TextOp::Upsert(LONG, "2")];
    let mut map = map_of(&rt, &make, &before);
    copies(&rt, &make, &mut map, &changes, &before);
}

// Whether pairs equal those of these texts.
fn equal<R: Abort>(make: &Maker<R>, pairs: &Pairs, texts: &[Pair]) -> bool {
    *pairs == make.pairs(texts)
}

#[test]
fn pairs_are_equal_where_each_key_and_value_is(rt: HostRuntime) {
    let make = Maker::new(&rt, rt.alloc());
    let pairs = make.pairs(&[("a", "1"), ("b", "2")]);
    assert_that(&rt, equal(&make, &pairs, &[("a", "1"), ("b", "2")]));
    assert_that(&rt, !equal(&make, &pairs, &[("a", "1"), ("b", "3")]));
    assert_that(&rt, !equal(&make, &pairs, &[("a", "1"), ("c", "2")]));
    assert_that(&rt, !equal(&make, &pairs, &[("a", "1")]));
}

#[test]
fn pairs_give_back_what_they_were_made_of(rt: HostRuntime) {
    let make = Maker::new(&rt, rt.alloc());
    let pairs = make.pairs(&[("a", "1"), ("b", "2")]);
    assert_that(&rt, have_texts(&pairs, &[("a", "1"), ("b", "2")]));
    let pairs = pairs.copy().expect(&rt, "memory");
    assert_that(&rt, have_texts(&pairs, &[("a", "1"), ("b", "2")]));
}

#[test]
fn replies_give_back_what_they_were_made_of(rt: HostRuntime) {
    let make = Maker::new(&rt, rt.alloc());
    let expected = [TextReply::New, TextReply::Was("1")];
    let replies = vec![in make.alloc; Reply::New, make.was("1")].expect(&rt, "memory");
    let replies = Replies::from_vec(replies);
    assert_that(&rt, are_replies(replies.as_slice(), &expected));
    assert_that(&rt, are_replies(&replies.into_vec(), &expected));
}
