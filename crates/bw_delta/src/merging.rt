// Sorted pairs, merged with writes that are sorted by key.
ghost use Rattle.std.specs.Prelude.{◌≡◌, ◌≤◌, ◌<◌, ◌++◌, T, false, [], ◌∷◌, drop, length, IfOk, OnOk};
ghost use Rattle.std.specs.Option.{option_copied};
ghost use Rattle.std.specs.FinMap.{find, is_sorted};
ghost use Rattle.bw_key.specs.Order.{KeyBytes, key_cmp, key_eq};
ghost use Rattle.bw_delta.specs.Batches.{writes_to};
ghost use Rattle.bw_delta.specs.History.{pointed_to};
ghost use Rattle.bw_delta.specs.Merging.{after_writes, merged_value, with_value, AreBehind, AreCutAt, AreFrom, IsMerging};

use crate::writes::Write;
use bw_key::Memory;
use bw_memory::Alloc;
use bw_model::{Pairs, Run};
use bw_page::place_near;

/// What writes that are sorted by key leave of sorted pairs, those of one key one after another.
///
/// For n pairs and m writes it takes up to m log2 n + 2 m key comparisons: the pairs between two written keys are copied
/// as one block, and not compared. It copies of a written key the last value, if there is one. From the start the list has
/// room for n pairs and one for each written key with the value of its last write, and at the end it keeps no more than it
/// needs. `Memory` is answered where it finds none.
pub(crate) fn merged<'a>(
    alloc: Alloc,
    pairs: Run<'a>,
    writes: &'a [&'a Write],
) -> Result<Pairs, Memory>
    requires sorted { T (is_sorted key_cmp pairs) }
    requires ordered { AreFrom [] (pointed_to writes.now) }
    ensures sorted { IfOk result (λ merged. T (is_sorted key_cmp merged)) }
    ensures values { IfOk result (λ merged. (q : KeyBytes) →
        find key_cmp q merged ≡ merged_value pairs.entry (pointed_to writes.now) q) }
{
    let (keys, bytes) = room_for(writes);
    let count = pairs.len().saturating_add(keys);
    let mut merged = Pairs::with_capacity(alloc, count, pairs.byte_count().saturating_add(bytes))?;
    let mut rest = pairs;
    let mut next = 0;
    while next < writes.len() {
        let left = push_key(&mut merged, &rest, writes[next], &writes[next + 1..])?;
        rest = left.0;
        next += 1 + left.1;
    }
    merged.extend(&rest)?;
    merged.shrink_to_fit();
    Ok(merged)
}

// Of how many keys writes are that are sorted by key, and how many bytes these keys and the last values put there have.
fn room_for(writes: &[&Write]) -> (usize, usize) {
    let (mut keys, mut bytes) = (0usize, 0usize);
    for place in 0..writes.len() {
        if is_last_of_key(writes, place) {
            keys = keys.saturating_add(1);
            bytes = bytes.saturating_add(writes[place].byte_count());
        }
    }
    (keys, bytes)
}

// Whether no write behind this one is of its key.
fn is_last_of_key(writes: &[&Write], place: usize) -> bool
    requires { place < length writes.now }
{
    if place + 1 == writes.len() {
        return true;
    }
    let (write, next) = (writes[place], writes[place + 1]);
    next.key() != write.key()
}

// Adds the pairs below the key of a write, and what this write and those behind it leave at the key. It answers the pairs
// behind the key, and how many of the other writes are of the key.
fn push_key<'a>(
    merged: &mut Pairs,
    pairs: &Run<'a>,
    first: &'a Write,
    others: &'a [&'a Write],
) -> Result<(Run<'a>, usize), Memory>
    requires { IsMerging merged.old pairs.now (first.now ∷ pointed_to others.now) }
    ensures merging { IfOk result (λ left.
        IsMerging merged.new left.0 (pointed_to (drop left.1 others.now))) }
    ensures values { IfOk result (λ left. (q : KeyBytes) →
        merged_value (merged.new ++ left.0) (pointed_to (drop left.1 others.now)) q
        ≡ merged_value (merged.old ++ pairs.now) (first.now ∷ pointed_to others.now) q) }
    ensures bound { IfOk result (λ left. left.1 ≤ length others.now) }
{
    let key = first.key();
    let (before, start, behind) = parted(pairs, key);
    merged.extend(&before)?;
    let (value, count) = passed(key, first.effect(start), others);
    push_value(merged, key, value)?;
    Ok((behind, count))
}

/// Cuts sorted pairs into those below a key, its value, and those behind it, in one key comparison where the first one is
/// at the key, as it is where most keys were written, and else in about log2 n.
pub(crate) fn parted<'a>(pairs: &Run<'a>, key: &[u8]) -> (Run<'a>, Option<&'a [u8]>, Run<'a>)
    requires { T (is_sorted key_cmp pairs.now) }
    ensures { AreCutAt pairs.now key.now result.0 (option_copied result.1) result.2 }
{
    let (before, rest) = pairs.split_at(place_near(pairs, key, 0));
    if rest.is_empty() {
        return (before, None, rest);
    }
    if rest.key_at(0) != key {
        return (before, None, rest);
    }
    let value = rest.value_at(0);
    let (_first, behind) = rest.split_at(1);
    (before, Some(value), behind)
}

// The value once the first writes, which are those of a key, had their effects, and how many they are.
fn passed<'a>(
    key: &[u8],
    start: Option<&'a [u8]>,
    writes: &'a [&'a Write],
) -> (Option<&'a [u8]>, usize)
    requires { AreFrom key.now (pointed_to writes.now) }
    ensures value { option_copied result.0 ≡
        after_writes (option_copied start.entry) (writes_to key.now (pointed_to writes.now)) }
    ensures others { (q : KeyBytes) → key_eq q key.now ≡ false →
        writes_to q (pointed_to (drop result.1 writes.now)) ≡ writes_to q (pointed_to writes.now) }
    ensures behind { AreBehind key.now (pointed_to (drop result.1 writes.now)) }
    ensures bound { result.1 ≤ length writes.now }
{
    let mut value = start;
    for (at, write) in writes.iter().enumerate() {
        if write.key() != key {
            return (value, at);
        }
        value = write.effect(value);
    }
    (value, writes.len())
}

// Adds the value at a key, if there is one.
fn push_value(merged: &mut Pairs, key: &[u8], value: Option<&[u8]>) -> Result<(), Memory>
    ensures { OnOk result (merged.new ≡ merged.old ++ with_value key.now (option_copied value.entry) []) }
{
    match value {
        Some(value) => merged.push(key, value),
        None => Ok(()),
    }
}
