// The pairs that a replay has now.
ghost use Rattle.std.specs.Prelude.{◌≡◌, ◌≤◌, ◌++◌, [], T, drop, filter, length, reverse, take, IfOk, OnOk, if◌then◌else◌};
ghost use Rattle.std.specs.Option.{option_copied};
ghost use Rattle.std.specs.FinMap.{find, is_sorted};
ghost use Rattle.bw_key.specs.Order.{KeyBytes, key_cmp, key_eq};
ghost use Rattle.bw_model.specs.Actions.{effect};
ghost use Rattle.bw_model.specs.Contents.{is_below_end, is_pair_in_range};
ghost use Rattle.bw_delta.specs.Batches.{writes_to};
ghost use Rattle.bw_delta.specs.History.{history, action_at, pointed_to};
ghost use Rattle.bw_delta.specs.PagePairs.{parts_of, value_in_parts};
ghost use Rattle.bw_delta.specs.Present.{base_pairs, present_pairs};
ghost use Rattle.bw_delta.specs.Readings.{from_stamp};
ghost use Rattle.bw_delta.specs.Rising.{HasRisingStamps};

use crate::consolidation::joined;
use crate::range_reads::{add_falling, add_rising};
use crate::reading::copied;
use crate::writes::Write;
use bw_key::{Key, Memory};
use bw_memory::Alloc;
use bw_model::{Pairs, Value};
use bw_page::Leaf;
use std::collections::BTreeMap;
use std::collections::btree_map::Range;

// Up to so many changes are left over the pairs of a base, and one more for each so many pairs.
const FEW: usize = 8;

/// The pairs of a page: those of its base, which stay where they stand, and what writes made of some of them.
///
/// A write costs a copy of its key, a search among the changes and one on the base; one that changes a value, up to two of
/// each, and a copy of the value that it leaves. Where there are many changes (`settle`), they are made in a copy of the base,
/// which takes its place.
#[derive(Drop)]
pub(crate) struct Present<'a> {
    base: Base<'a>,
    // each key that a write changed, with its value now; without one where it is deleted, if the base has it
    changes: BTreeMap<Key, Option<Value>, Alloc>,
}

/// The leaf that lies under the changes.
#[derive(Drop)]
pub(crate) enum Base<'a> {
    Lent(&'a Leaf),
    // of several parts, or with earlier changes made
    Made(Leaf),
}

impl<'a> Base<'a> {
    fn leaf(&self) -> &Leaf
        ensures { result.now.pairs ≡ base_pairs self.now }
    {
        match self {
            Base::Lent(leaf) => leaf,
            Base::Made(leaf) => leaf,
        }
    }
}

impl<'a> Present<'a> {
    /// The pairs of the parts whose keys are below `high`, of two with one key that of the first part. One part stays
    /// where it is, and takes no memory.
    pub(crate) fn of_parts(
        alloc: Alloc,
        parts: &[&'a Leaf],
        high: Option<&Key>,
    ) -> Result<Present<'a>, Memory>
        ensures { IfOk result (λ present. (q : KeyBytes) → T (is_below_end (option_copied high.entry) q) →
            find key_cmp q (present_pairs present) ≡ value_in_parts (parts_of parts.now) q) }
    {
        let base = if parts.len() == 1 {
            Base::Lent(parts[0])
        } else {
            Base::Made(joined(alloc, parts, high)?)
        };
        Ok(Present {
            base,
            changes: BTreeMap::new(alloc),
        })
    }

    /// The pairs once the writes below a stamp had their effects, and how many these are.
    pub(crate) fn put_writes(
        mut self,
        alloc: Alloc,
        writes: &[&Write],
        stamp: u64,
    ) -> Result<(Present<'a>, usize), Memory>
        requires { HasRisingStamps 0 (pointed_to writes.now) }
        ensures values { IfOk result (λ put. (q : KeyBytes) →
            find key_cmp q (present_pairs put.0) ≡ history (find key_cmp q (present_pairs self.entry))
            (action_at (writes_to q (pointed_to writes.now))) stamp) }
        ensures rest { IfOk result (λ put. pointed_to (drop put.1 writes.now)
            ≡ from_stamp stamp (pointed_to writes.now)) }
        ensures bound { IfOk result (λ put. put.1 ≤ length writes.now) }
    {
        for (at, write) in writes.iter().enumerate() {
            if write.stamp() >= stamp {
                return Ok((self, at));
            }
            self.put_write(alloc, write)?;
        }
        Ok((self, writes.len()))
    }

    /// The same pairs, with the changes made where there are many of them. So a read of a range passes few changes, however many
    /// keys were written, and a change costs a copy of some eight pairs in the long run. Where that copy finds no memory, the
    /// changes stay.
    pub(crate) fn settle(self, alloc: Alloc) -> Present<'a>
        ensures { present_pairs result ≡ present_pairs self.entry }
    {
        if self.changes.len() <= few_over(self.base.leaf().pairs().len()) {
            return self;
        }
        match self.to_leaf(alloc) {
            Ok(leaf) => Present {
                base: Base::Made(leaf),
                changes: BTreeMap::new(alloc),
            },
            Err(_) => self,
        }
    }

    // The pairs as those of a leaf of all keys.
    fn to_leaf(&self, alloc: Alloc) -> Result<Leaf, Memory>
        ensures { IfOk result (λ leaf. leaf.pairs ≡ present_pairs self.now) }
    {
        let low = Key::new(alloc, &[]).unwrap();
        let pairs = self.to_pairs(alloc, &low)?;
        Ok(Leaf::from_pairs(low, None, None, pairs))
    }

    // The pairs in a list of their own, all of which stand from the least key on.
    fn to_pairs(&self, alloc: Alloc, least: &Key) -> Result<Pairs, Memory>
        requires { least.now ≡ [] }
        ensures sorted { IfOk result (λ pairs. T (is_sorted key_cmp pairs)) }
        ensures all { IfOk result (λ pairs. pairs ≡ present_pairs self.now) }
    {
        let base = self.base.leaf().pairs().all();
        let count = base.len().saturating_add(self.changes.len());
        let mut pairs = Pairs::with_capacity(alloc, count, base.byte_count())?;
        self.add_first(least, None, u64::MAX, &mut pairs)?;
        if pairs.len() as u64 == u64::MAX {
            return Err(Memory);
        }
        pairs.shrink_to_fit();
        Ok(pairs)
    }

    // Lets a write have its effect.
    fn put_write(&mut self, alloc: Alloc, write: &Write) -> Result<(), Memory>
        ensures { OnOk result ((q : KeyBytes) → find key_cmp q (present_pairs self.new) ≡
            (if key_eq q write.now.key then effect write.now.action (find key_cmp q (present_pairs self.old))
            else find key_cmp q (present_pairs self.old))) }
    {
        let key = Key::from_bytes(alloc, write.key())?;
        let before = self.value_at(&key);
        let left = write.effect(before);
        if left == before {
            return Ok(());
        }
        let left = copied(alloc, left)?;
        self.set(key, left)
    }

    // The value at a key.
    fn value_at(&self, key: &Key) -> Option<&[u8]>
        ensures { option_copied result ≡ find key_cmp key.now (present_pairs self.now) }
    {
        match self.changes.get(key) {
            Some(Some(value)) => Some(value.bytes()),
            Some(None) => None,
            None => self.base.leaf().find(key),
        }
    }

    // Puts a value at a key, or takes it away. Where neither it nor the base has one, the key is no change.
    fn set(&mut self, key: Key, value: Option<Value>) -> Result<(), Memory>
        ensures { OnOk result ((q : KeyBytes) → find key_cmp q (present_pairs self.new) ≡
            (if key_eq q key then value else find key_cmp q (present_pairs self.old))) }
    {
        if value.is_none() && self.base.leaf().find(&key).is_none() {
            self.changes.remove(&key);
            return Ok(());
        }
        self.changes.insert(key, value)?;
        Ok(())
    }

    /// Adds the first pairs from `low` on and below `high` to a list, no more than `most` of them.
    pub(crate) fn add_first(
        &self,
        low: &Key,
        high: Option<&Key>,
        most: u64,
        read: &mut Pairs,
    ) -> Result<(), Memory>
        ensures sorted { T (is_sorted key_cmp (present_pairs self.now)) }
        ensures kept { take (length read.old) read.new ≡ read.old }
        ensures added { OnOk result (read.new
            ≡ read.old ++ take most (filter (is_pair_in_range low.now (option_copied high.entry))
            (present_pairs self.now))) }
    {
        let pairs = self.base.leaf().between(low, high);
        add_rising(pairs, range(&self.changes, low, high), most, read)
    }

    /// Adds the last pairs from `low` on and below `high` to a list, the greatest key first, no more than `most` of them.
    pub(crate) fn add_last(
        &self,
        low: &Key,
        high: Option<&Key>,
        most: u64,
        read: &mut Pairs,
    ) -> Result<(), Memory>
        ensures sorted { T (is_sorted key_cmp (present_pairs self.now)) }
        ensures kept { take (length read.old) read.new ≡ read.old }
        ensures added { OnOk result (read.new
            ≡ read.old ++ take most (reverse (filter (is_pair_in_range low.now (option_copied high.entry))
            (present_pairs self.now)))) }
    {
        let pairs = self.base.leaf().between(low, high);
        add_falling(pairs, range(&self.changes, low, high), most, read)
    }
}

// How many changes over so many pairs are few.
fn few_over(pairs: usize) -> usize {
    FEW.saturating_add(pairs / FEW)
}

// The changes from `low` on and below `high`.
fn range<'v>(
    changes: &'v BTreeMap<Key, Option<Value>, Alloc>,
    low: &Key,
    high: Option<&Key>,
) -> Range<'v, Key, Option<Value>>
    ensures sorted { T (is_sorted key_cmp changes.now.entries) }
    ensures between { result ≡ filter (is_pair_in_range low.now (option_copied high.entry)) changes.now.entries }
{
    let Some(high) = high else {
        return changes.range(low..);
    };
    let end = if *high < *low { low } else { high };
    changes.range(low..end)
}
