//! Keys and operations, and what a map answers to them.
ghost use Rattle.std.specs.Prelude.{◌≡◌, ◌<◌, [], IfOk};

use crate::load::Load;
use anyhow::{Result, bail};
use bw_batch::{Key, Op, Pairs, Reply, Value};
use bw_memory::Alloc;
use std::collections::BTreeMap;

// Pairs that a scan wants.
const SCANNED: u64 = 32;

// An odd number, whose multiples are scattered.
const SCATTER: u64 = 0x9e37_79b9_7f4a_7c15;

/// Pseudo-random numbers by a linear congruence, whose high bits are taken.
#[derive(Drop)]
pub struct Random {
    pub state: u64,
}

impl Random {
    fn below(&mut self, limit: u64) -> u64
        requires { 0 < limit }
        ensures { result < limit }
    {
        self.state = next_state(self.state);
        (self.state >> 33) % limit
    }
}

fn next_state(state: u64) -> u64 {
    state
        .wrapping_mul(6364136223846793005)
        .wrapping_add(1442695040888963407)
}

/// Keys of 8 bytes, in the order of their numbers.
pub fn key(alloc: Alloc, number: u64) -> Result<Key> {
    Ok(Key::new(alloc, &number.to_be_bytes())?)
}

/// The operation that puts a value at the key of a number.
pub fn upsert(alloc: Alloc, number: u64, value: u64) -> Result<Op> {
    let value = Value::new(alloc, &value.to_be_bytes())?;
    Ok(Op::Upsert(key(alloc, number)?, value))
}

/// The key that none is below.
pub fn least_key(alloc: Alloc) -> Result<Key>
    ensures { IfOk result (λ key. key ≡ []) }
{
    Ok(Key::new(alloc, &[])?)
}

/// The order in which keys come.
#[derive(Clone, Copy, PartialEq, Eq)]
pub enum Order {
    Rising,
    Scattered,
}

impl Order {
    /// Its words in what is printed.
    pub fn words(self) -> &'static str {
        match self {
            Order::Rising => "rising",
            Order::Scattered => "scattered",
        }
    }

    // The number of the key that comes at a place. No two places have one.
    fn number(self, place: u64) -> u64 {
        match self {
            Order::Rising => place,
            Order::Scattered => place.wrapping_mul(SCATTER),
        }
    }
}

/// Upserts of the keys that come from place `from` on and before `to`.
pub fn upserts(alloc: Alloc, order: Order, from: u64, to: u64) -> Result<Vec<Op, Alloc>> {
    let mut ops = Vec::new(alloc);
    for place in from..to {
        put(&mut ops, upsert(alloc, order.number(place), place)?)?;
    }
    Ok(ops)
}

// Puts numbers in an order that is drawn.
fn shuffle(random: &mut Random, numbers: &mut [u64]) {
    for place in 1..numbers.len() {
        let other = random.below(place as u64 + 1) as usize;
        numbers.swap(place, other);
    }
}

/// The numbers of the first keys that come scattered, in the order in which they go: rising, or drawn.
pub fn numbers(
    alloc: Alloc,
    random: &mut Random,
    order: Order,
    keys: u64,
) -> Result<Vec<u64, Alloc>> {
    let mut numbers = Vec::new(alloc);
    for place in 0..keys {
        numbers.push(Order::Scattered.number(place))?;
    }
    match order {
        Order::Rising => numbers.sort_unstable(),
        Order::Scattered => shuffle(random, &mut numbers),
    }
    Ok(numbers)
}

/// Deletes of the keys of these numbers.
pub fn deletes(alloc: Alloc, numbers: &[u64]) -> Result<Vec<Op, Alloc>> {
    let mut ops = Vec::new(alloc);
    for number in numbers {
        put(&mut ops, Op::Delete(key(alloc, *number)?))?;
    }
    Ok(ops)
}

/// How often the keys of batches come.
#[derive(Clone, Copy, PartialEq, Eq)]
pub enum Draw {
    /// Each as often as each other one.
    Uniform,
    /// The r-th most frequent one with a share of some 1 / r, as by Zipf's law, and these keys scattered.
    Skewed,
}

impl Draw {
    /// Its words in what is printed.
    pub fn words(self) -> &'static str {
        match self {
            Draw::Uniform => "uniform",
            Draw::Skewed => "skewed",
        }
    }

    // The number of a key.
    fn number(self, random: &mut Random, keys: u64) -> u64
        requires { 0 < keys }
    {
        match self {
            Draw::Uniform => random.below(keys),
            Draw::Skewed => {
                let rank = skewed(random, keys);
                rank.wrapping_mul(SCATTER) % keys
            }
        }
    }
}

// A number that is drawn below the keys, halved a number of times that is drawn: so smaller ones are drawn more often.
fn skewed(random: &mut Random, keys: u64) -> u64 {
    let bits = 64u64.saturating_sub(keys.leading_zeros() as u64).max(1);
    let halvings = random.below(bits) as u32;
    let most = keys.checked_shr(halvings).unwrap_or(0).max(1);
    random.below(most)
}

/// What a batch is made of: reads alone, or reads and writes.
#[derive(Clone, Copy, PartialEq, Eq)]
pub enum Kind {
    Gets,
    /// In equal parts.
    GetsAndUpserts,
    /// In equal parts.
    ScansAndUpserts,
    /// Nineteen scans to an upsert of a key that is new.
    ScansAndNewKeys,
}

impl Kind {
    /// Its words in what is printed.
    pub fn words(self) -> &'static str {
        match self {
            Kind::Gets => "gets",
            Kind::GetsAndUpserts => "gets and upserts",
            Kind::ScansAndUpserts => "scans and upserts",
            Kind::ScansAndNewKeys => "scans and new keys",
        }
    }

    // Whether the next operation is a write.
    fn draws_write(self, random: &mut Random) -> bool {
        match self {
            Kind::Gets => false,
            Kind::GetsAndUpserts | Kind::ScansAndUpserts => random.below(2) == 0,
            Kind::ScansAndNewKeys => random.below(20) == 0,
        }
    }
}

/// The operations of a batch of a kind, on keys that are drawn.
pub fn drawn(alloc: Alloc, random: &mut Random, load: Load, kind: Kind) -> Result<Vec<Op, Alloc>>
    requires { 0 < load.keys }
{
    let mut ops = Vec::new(alloc);
    for number in 0..load.operations {
        let drawn = load.draw.number(random, load.keys);
        let is_write = kind.draws_write(random);
        put(
            &mut ops,
            op_at(alloc, random, drawn, kind, is_write, number)?,
        )?;
    }
    Ok(ops)
}

// The operation at a key that stands in a batch of a kind.
fn op_at(
    alloc: Alloc,
    random: &mut Random,
    number: u64,
    kind: Kind,
    is_write: bool,
    value: u64,
) -> Result<Op> {
    if !is_write {
        return Ok(read(key(alloc, number)?, kind));
    }
    if kind == Kind::ScansAndNewKeys {
        return upsert_behind(alloc, number, random.below(1 << 31), value);
    }
    upsert(alloc, number, value)
}

// The operation that puts a value at a key of 16 bytes right behind that of a number.
fn upsert_behind(alloc: Alloc, number: u64, drawn: u64, value: u64) -> Result<Op> {
    let mut bytes = Vec::from_slice(alloc, &number.to_be_bytes())?;
    bytes.extend_from_slice(&drawn.to_be_bytes())?;
    let value = Value::new(alloc, &value.to_be_bytes())?;
    Ok(Op::Upsert(Key::new(alloc, &bytes)?, value))
}

/// Puts an operation behind others.
pub fn put(ops: &mut Vec<Op, Alloc>, op: Op) -> Result<()> {
    ops.push(op)?;
    Ok(())
}

// The read at a key that stands in a batch of a kind.
fn read(key: Key, kind: Kind) -> Op {
    match kind {
        Kind::Gets | Kind::GetsAndUpserts => Op::Get(key),
        Kind::ScansAndUpserts | Kind::ScansAndNewKeys => Op::Scan {
            from: key,
            to: None,
            most: SCANNED,
        },
    }
}

// The first pairs of a map from a key on.
fn scanned(
    alloc: Alloc,
    map: &BTreeMap<Key, Value, Alloc>,
    from: &Key,
    most: u64,
) -> Result<Pairs> {
    let mut pairs = Pairs::new(alloc);
    for (key, value) in map.range(from..) {
        if pairs.len() as u64 >= most {
            break;
        }
        pairs.push(key.bytes(), value.bytes())?;
    }
    Ok(pairs)
}

/// What the map answers to a get, an upsert, a delete or a scan without an end, after which it is changed.
pub fn answer(alloc: Alloc, map: &mut BTreeMap<Key, Value, Alloc>, op: &Op) -> Result<Reply> {
    match op {
        Op::Get(key) => found(map, key),
        Op::Upsert(key, value) => put_in(map, key, value),
        Op::Delete(key) => Ok(removed(map, key)),
        Op::Scan {
            from,
            to: None,
            most,
        } => Ok(Reply::Pairs(scanned(alloc, map, from, *most)?)),
        Op::Scan { .. } | Op::Rscan { .. } | Op::Insert(..) | Op::Update(..) | Op::SwapIf(..) => {
            bail!("no get, no upsert, no delete, and no scan without an end")
        }
    }
}

fn found(map: &BTreeMap<Key, Value, Alloc>, key: &Key) -> Result<Reply> {
    match map.get(key) {
        Some(value) => Ok(Reply::Found(value.copy()?)),
        None => Ok(Reply::Absent),
    }
}

fn put_in(map: &mut BTreeMap<Key, Value, Alloc>, key: &Key, value: &Value) -> Result<Reply> {
    match map.insert(key.copy()?, value.copy()?)? {
        Some(value) => Ok(Reply::Was(value)),
        None => Ok(Reply::New),
    }
}

fn removed(map: &mut BTreeMap<Key, Value, Alloc>, key: &Key) -> Reply {
    match map.remove(key) {
        Some(value) => Reply::Was(value),
        None => Reply::Absent,
    }
}
