// Some thousand operations drawn from a seed, compared with a table of optional values.
use super::making::{LONG, Maker, Pair};
use super::reference::holds;
use crate::tests::assertions::assert_that;
use bw_fixtures::{Random, TextOp, TextReply};
use bw_memory::Alloc;
use bw_model::{Op, ReferenceMap, Reply};
use std::process::Abort;

// The keys, in their order.
const KEYS: [&str; 6] = ["", "a", "a\0", LONG, "ab", "b"];

const VALUES: [&str; 4] = ["", "0", "18446744073709551615", LONG];

// At each key its value, if it has one.
type Table = [Option<&'static str>; 6];

fn drawn_value(random: &mut Random) -> &'static str {
    VALUES[random.below(4)]
}

// A write that is drawn at a key, with its value and another one.
fn drawn_write(random: &mut Random, key: &'static str, put: &'static str) -> TextOp {
    match random.below(5) {
        0 => TextOp::Insert(key, put),
        1 => TextOp::Upsert(key, put),
        2 => TextOp::Update(key, put),
        3 => TextOp::Delete(key),
        _ => TextOp::SwapIf(key, drawn_value(random), put),
    }
}

// The reply to a write over a value, or over none, and what it leaves.
fn write_over(
    text: TextOp,
    put: &'static str,
    before: Option<&'static str>,
) -> (TextReply, Option<&'static str>) {
    let Some(held) = before else {
        return match text {
            TextOp::Insert(_, _) => (TextReply::Inserted, Some(put)),
            TextOp::Upsert(_, _) => (TextReply::New, Some(put)),
            _ => (TextReply::Absent, None),
        };
    };
    match text {
        TextOp::Upsert(_, _) | TextOp::Update(_, _) => (TextReply::Was(held), Some(put)),
        TextOp::Delete(_) => (TextReply::Was(held), None),
        TextOp::SwapIf(_, old, _) if held == old => (TextReply::Was(held), Some(put)),
        _ => (TextReply::Held(held), before),
    }
}

// A write that is drawn, and its reply. The table is changed by it.
fn write(table: &mut Table, random: &mut Random) -> (TextOp, TextReply) {
    let at = random.below(6);
    let put = drawn_value(random);
    let text = drawn_write(random, KEYS[at], put);
    let (reply, after) = write_over(text, put, table[at]);
    table[at] = after;
    (text, reply)
}

// The pairs of the table at the keys from the first place on and below the last.
fn pairs_between<R: Abort>(
    rt: &R,
    make: &Maker<R>,
    table: &Table,
    (first, end): (usize, usize),
) -> Vec<Pair, Alloc> {
    let mut pairs = Vec::new(make.alloc);
    for at in first..end.min(6) {
        if let Some(value) = table[at] {
            pairs.push((KEYS[at], value)).expect(rt, "a pair");
        }
    }
    pairs
}

// A range that is drawn, read upwards or downwards, and its reply.
fn range<R: Abort>(rt: &R, make: &Maker<R>, table: &Table, random: &mut Random) -> (TextOp, Reply) {
    let (first, end, most) = (random.below(6), random.below(7), random.below(5));
    let mut pairs = pairs_between(rt, make, table, (first, end));
    let (from, to) = (KEYS[first], KEYS.get(end).copied());
    let text = match random.below(2) {
        0 => TextOp::Scan(from, to, most as u64),
        _ => {
            pairs.reverse();
            TextOp::Rscan(from, to, most as u64)
        }
    };
    (text, make.scanned(&pairs[..most.min(pairs.len())]))
}

// A read of a key that is drawn, and its reply.
fn get(table: &Table, random: &mut Random) -> (TextOp, TextReply) {
    let at = random.below(6);
    match table[at] {
        Some(value) => (TextOp::Get(KEYS[at]), TextReply::Found(value)),
        None => (TextOp::Get(KEYS[at]), TextReply::Absent),
    }
}

// An operation that is drawn, and its reply.
fn step<R: Abort>(
    rt: &R,
    make: &Maker<R>,
    table: &mut Table,
    random: &mut Random,
) -> (TextOp, Reply) {
    let (text, reply) = match random.below(8) {
        0 => get(table, random),
        1 | 2 => return range(rt, make, table, random),
        _ => write(table, random),
    };
    (text, make.reply(reply))
}

// Draws a batch, and the replies to it.
fn draw_batch<R: Abort>(
    rt: &R,
    make: &Maker<R>,
    table: &mut Table,
    random: &mut Random,
    ops: &mut Vec<Op, Alloc>,
    replies: &mut Vec<Reply, Alloc>,
) {
    for _ in 0..random.below(17) {
        let (text, reply) = step(rt, make, table, random);
        replies.push(reply).expect(rt, "memory");
        ops.push(make.op(text)).expect(rt, "memory");
    }
}

// Whether replies are those.
fn same(left: &[Reply], right: &[Reply]) -> bool {
    if left.len() != right.len() {
        return false;
    }
    for (left, right) in left.iter().zip(right) {
        if *left != *right {
            return false;
        }
    }
    true
}

// Compares the replies to a batch.
fn are_answered<R: Abort>(rt: &R, map: &mut ReferenceMap, ops: &[Op], replies: &[Reply]) {
    let answered = map.run(ops).expect(rt, "memory");
    assert_that(rt, same(answered.as_slice(), replies));
}

// Runs a batch of drawn operations, and compares its replies and the pairs afterwards.
fn run_batch<R: Abort>(
    rt: &R,
    make: &Maker<R>,
    map: &mut ReferenceMap,
    table: &mut Table,
    random: &mut Random,
) {
    let mut ops = Vec::new(make.alloc);
    let mut replies = Vec::new(make.alloc);
    draw_batch(rt, make, table, random, &mut ops, &mut replies);
    are_answered(rt, map, &ops, &replies);
    let pairs = pairs_between(rt, make, table, (0, 6));
    holds(rt, map, &pairs);
}

#[test]
fn batches_are_answered_as_by_a_table(rt: HostRuntime) {
    let make = Maker::new(&rt, rt.alloc());
    let mut random = Random::new(20130408);
    let mut table: Table = [None; 6];
    let mut map = ReferenceMap::new(make.alloc);
    for _ in 0..400u64 {
        run_batch(&rt, &make, &mut map, &mut table, &mut random);
    }
}
