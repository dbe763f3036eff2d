//! Batches that cost the square of their operations where an index doesn't see to it.

use crate::workload::{key, least_key, put, upsert};
use anyhow::Result;
use bw_batch::Op;
use bw_memory::Alloc;
use std::fmt;

/// What a hard batch does.
#[derive(Clone, Copy)]
pub enum HardKind {
    OneKey,
    NewKeys,
    EarlyScans,
    LateScans,
    Queue,
    QueueBack,
    Refill,
}

/// All of them.
pub const HARD_KINDS: &[HardKind] = &[
    HardKind::OneKey,
    HardKind::NewKeys,
    HardKind::EarlyScans,
    HardKind::LateScans,
    HardKind::Queue,
    HardKind::QueueBack,
    HardKind::Refill,
];

impl fmt::Display for HardKind {
    fn fmt<W: fmt::Write>(&self, f: &mut fmt::Formatter<W>) -> fmt::Result {
        let words = match self {
            HardKind::OneKey => "upserts of one key",
            HardKind::NewKeys => "new keys of one leaf",
            HardKind::EarlyScans => "scans for a pair, and then new keys",
            HardKind::LateScans => "deletes of all keys, and then scans for a pair",
            HardKind::Queue => "deletes of the first key and scans for the next one in turn",
            HardKind::QueueBack =>
                "deletes of the last key and scans back for the next one in turn",
            HardKind::Refill =>
                "deletes of all keys, and then upserts from the last key on and scans in turn",
        };
        write!(f, "{words}")
    }
}

/// A hard batch of so many operations.
#[derive(Clone, Copy)]
pub struct HardBatch {
    pub kind: HardKind,
    pub count: u64,
}

impl HardBatch {
    /// How many keys an index has before the batch, by rising numbers from 0 on.
    pub fn keys(self) -> u64 {
        match self.kind {
            HardKind::OneKey | HardKind::NewKeys | HardKind::EarlyScans => 0,
            HardKind::LateScans | HardKind::Queue | HardKind::QueueBack => self.count / 2,
            HardKind::Refill => self.count / 3,
        }
    }

    // What is done at a place.
    fn step(self, place: u64) -> Step {
        let (keys, is_even) = (self.keys(), place % 2 == 0);
        match self.kind {
            HardKind::OneKey => Step::Upsert(0),
            HardKind::NewKeys => Step::Upsert(place),
            HardKind::EarlyScans => match place < self.count / 2 {
                true => Step::First,
                false => Step::Upsert(place),
            },
            HardKind::LateScans => match place < keys {
                true => Step::Delete(place),
                false => Step::First,
            },
            HardKind::Queue => match is_even {
                true => Step::Delete(place / 2),
                false => Step::First,
            },
            HardKind::QueueBack => match is_even {
                true => Step::Delete(keys.saturating_sub(place / 2 + 1)),
                false => Step::Last,
            },
            HardKind::Refill => refilled(keys, place),
        }
    }
}

/// An operation of a hard batch.
#[derive(Clone, Copy)]
enum Step {
    /// Puts a pair at the key of a number.
    Upsert(u64),
    /// Deletes the key of a number.
    Delete(u64),
    /// Asks for the first pair of all.
    First,
    /// Asks for the last pair of all.
    Last,
}

// What is done at a place where all keys go, and come back from the last one on with a scan behind each.
fn refilled(keys: u64, place: u64) -> Step {
    if place < keys {
        return Step::Delete(place);
    }
    match place % 2 == 0 {
        true => Step::Upsert(keys.saturating_sub((place - keys) / 2)),
        false => Step::First,
    }
}

fn operation(alloc: Alloc, step: Step) -> Result<Op> {
    match step {
        Step::Upsert(number) => upsert(alloc, number, number),
        Step::Delete(number) => Ok(Op::Delete(key(alloc, number)?)),
        Step::First => Ok(Op::Scan {
            from: least_key(alloc)?,
            to: None,
            most: 1,
        }),
        Step::Last => Ok(Op::Rscan {
            from: least_key(alloc)?,
            to: None,
            most: 1,
        }),
    }
}

/// The operations of a batch.
pub fn operations(alloc: Alloc, batch: HardBatch) -> Result<Vec<Op, Alloc>> {
    let mut ops = Vec::new(alloc);
    for place in 0..batch.count {
        put(&mut ops, operation(alloc, batch.step(place))?)?;
    }
    Ok(ops)
}
