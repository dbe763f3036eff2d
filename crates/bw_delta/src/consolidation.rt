// The pairs of a page as of a stamp.
ghost use Rattle.std.specs.Prelude.{◌≡◌, ◌<◌, ◌++◌, T, [], ◌∷◌, Option, Some, IfOk, OnOk};
ghost use Rattle.std.specs.Prelude.{filter, length, map, slice_index_or, if◌then◌else◌};
ghost use Rattle.std.specs.Option.{option_copied, option_or};
ghost use Rattle.std.specs.FinMap.{find, is_sorted};
ghost use Rattle.std.specs.BTreeMap as tree;
ghost use Rattle.bw_key.specs.Order.{KeyBytes, key_cmp, key_eq};
ghost use Rattle.bw_model.specs.Contents.{is_below_end, is_in_range};
ghost use Rattle.bw_model.specs.Values.{Pair, ValueBytes};
ghost use Rattle.bw_delta.specs.Batches.{writes_to};
ghost use Rattle.bw_delta.specs.History.{history, action_at, pointed_to, HasDistinctStamps};
ghost use Rattle.bw_delta.specs.Merging.{after_writes, is_due, AreFrom};
ghost use Rattle.bw_delta.specs.PagePairs.{ArePairsAsOf, parts_of, value_in_parts};

use crate::merging::merged;
use crate::sorted_writes::{KeyedWrite, in_key_order, keyed_write};
use crate::writes::Write;
use bw_key::{Key, Memory, compare_bytes};
use bw_memory::Alloc;
use bw_model::{Pairs, Value, is_below};
use bw_page::Leaf;
use std::collections::BTreeMap;

/// The pairs of a page as of a stamp, in the order of their keys: each key from `low` on and below `high` that has a
/// value, with it. A key's value is that of the first part that has the key, under the writes of the key with a
/// smaller stamp, applied in the order of their stamps. The slice of writes may have any order.
///
/// The writes of the range below the stamp are sorted by key, and merged with the pairs of one part. For m of them and n
/// pairs that takes about m log2 m + m log2 n key comparisons, and a pair outside the range none of its own. The pairs
/// between two written keys are copied as one block, into a list whose memory is taken at once, but where a longer value
/// stays than the last write of its key puts. Several parts are first made one, through an ordered map: all n pairs below
/// `high`, in about n log2 n key comparisons, with two copies of each. `Memory` is answered where a list, a map or a copy
/// finds none.
pub fn leaf_as_of(
    alloc: Alloc,
    parts: &[&Leaf],
    low: &Key,
    high: Option<&Key>,
    writes: &[&Write],
    stamp: u64,
) -> Result<Pairs, Memory>
    requires { HasDistinctStamps (pointed_to writes.now) }
    ensures { IfOk result (λ pairs. ArePairsAsOf (parts_of parts.now) low.now (option_copied high.entry)
        (pointed_to writes.now) stamp pairs) }
{
    if parts.len() == 1 {
        return leaf_under_writes(alloc, parts[0], low, high, writes, stamp);
    }
    let joined = joined(alloc, parts, high)?;
    leaf_under_writes(alloc, &joined, low, high, writes, stamp)
}

// The pairs of one part, merged with the writes.
fn leaf_under_writes(
    alloc: Alloc,
    leaf: &Leaf,
    low: &Key,
    high: Option<&Key>,
    writes: &[&Write],
    stamp: u64,
) -> Result<Pairs, Memory>
    requires { HasDistinctStamps (pointed_to writes.now) }
    ensures { IfOk result (λ pairs. ArePairsAsOf (leaf.now ∷ []) low.now (option_copied high.entry)
        (pointed_to writes.now) stamp pairs) }
{
    let due = due_by_key(alloc, writes, low, high, stamp)?;
    merged(alloc, leaf.between(low, high), &due)
}

// The writes of a range below a stamp, sorted by key, and those of one key by their stamps. One after another they have
// the effects that the history tells, without a look at stamps.
fn due_by_key<'a>(
    alloc: Alloc,
    writes: &[&'a Write],
    low: &Key,
    high: Option<&Key>,
    stamp: u64,
) -> Result<Vec<&'a Write, Alloc>, Memory>
    requires { HasDistinctStamps (pointed_to writes.now) }
    ensures ordered { IfOk result (λ due. AreFrom [] (pointed_to due.items)) }
    ensures values { IfOk result (λ due. (q : KeyBytes) (start : Option ValueBytes) →
        after_writes start (writes_to q (pointed_to due.items)) ≡ (if is_in_range low.now (option_copied high.entry) q
        then history start (action_at (writes_to q (pointed_to writes.now))) stamp else start)) }
{
    let due = due_writes(alloc, writes, low, high, stamp)?;
    in_key_order(alloc, due)
}

// The writes of a range below a stamp, each with the first bytes of its key.
fn due_writes<'a>(
    alloc: Alloc,
    writes: &[&'a Write],
    low: &Key,
    high: Option<&Key>,
    stamp: u64,
) -> Result<Vec<KeyedWrite<'a>, Alloc>, Memory>
    ensures { IfOk result (λ due. map (λ k. k.write.now) due.items
        ≡ filter (is_due low.now (option_copied high.entry) stamp) (pointed_to writes.now)) }
{
    let mut due = Vec::with_capacity(alloc, writes.len())?;
    for write in writes {
        push_due(&mut due, write, low, high, stamp)?;
    }
    Ok(due)
}

// Adds a write, where it is below a stamp and its key in a range.
fn push_due<'a>(
    due: &mut Vec<KeyedWrite<'a>, Alloc>,
    write: &'a Write,
    low: &Key,
    high: Option<&Key>,
    stamp: u64,
) -> Result<(), Memory>
    ensures { OnOk result (map (λ k. k.write.now) due.new.items ≡ map (λ k. k.write.now) due.old.items
        ++ filter (is_due low.now (option_copied high.entry) stamp) (write.now ∷ [])) }
{
    if write.stamp() < stamp && is_within(write.key(), low, high) {
        due.push(keyed_write(write))?;
    }
    Ok(())
}

/// The pairs of the parts whose keys are below `high`, as those of one leaf, of two with one key that of the first part. It
/// is a leaf of all keys, to be searched like the parts.
pub(crate) fn joined(alloc: Alloc, parts: &[&Leaf], high: Option<&Key>) -> Result<Leaf, Memory>
    ensures { IfOk result (λ leaf. (q : KeyBytes) → T (is_below_end (option_copied high.entry) q) →
        find key_cmp q leaf.pairs ≡ value_in_parts (parts_of parts.now) q) }
{
    let mut values = BTreeMap::new(alloc);
    put_parts(&mut values, parts, high)?;
    let low = Key::new(alloc, &[]).unwrap();
    Ok(Leaf::from_pairs(low, None, None, packed(alloc, values)?))
}

// Puts the pairs of the parts whose keys are below an end in a map, of two with one key that of the first part.
fn put_parts(
    values: &mut BTreeMap<Key, Value, Alloc>,
    parts: &[&Leaf],
    high: Option<&Key>,
) -> Result<(), Memory>
    ensures { OnOk result ((q : KeyBytes) → T (is_below_end (option_copied high.entry) q) →
        tree.get key_cmp values.new q ≡ option_or (value_in_parts (parts_of parts.now) q)
        (tree.get key_cmp values.old q)) }
{
    for part in parts.iter().rev() {
        put_pairs(values, part, high)?;
    }
    Ok(())
}

// Puts the pairs of a leaf whose keys are below an end in a map.
fn put_pairs(
    values: &mut BTreeMap<Key, Value, Alloc>,
    leaf: &Leaf,
    high: Option<&Key>,
) -> Result<(), Memory>
    ensures { OnOk result ((q : KeyBytes) → T (is_below_end (option_copied high.entry) q) →
        tree.get key_cmp values.new q ≡ option_or (find key_cmp q leaf.now.pairs) (tree.get key_cmp values.old q)) }
{
    let mut left = leaf.pairs().len();
    while left > 0 {
        left -= 1;
        put_pair(values, leaf, left, high)?;
    }
    Ok(())
}

// Puts the pair of a leaf at a place in a map, where its key is below an end.
fn put_pair(
    values: &mut BTreeMap<Key, Value, Alloc>,
    leaf: &Leaf,
    place: usize,
    high: Option<&Key>,
) -> Result<(), Memory>
    requires { place < length leaf.now.pairs }
    ensures { (d : Pair) → OnOk result ((q : KeyBytes) → T (is_below_end (option_copied high.entry) q) →
        tree.get key_cmp values.new q ≡ (if key_eq q (slice_index_or leaf.now.pairs place d).0
        then Some (slice_index_or leaf.now.pairs place d).1 else tree.get key_cmp values.old q)) }
{
    let key = leaf.key_at(place)?;
    if !is_below(&key, high) {
        return Ok(());
    }
    let pairs = leaf.pairs();
    let value = Value::from_bytes(pairs.allocator(), pairs.value_at(place))?;
    values.insert(key, value)?;
    Ok(())
}

// The pairs of a map.
fn packed(alloc: Alloc, values: BTreeMap<Key, Value, Alloc>) -> Result<Pairs, Memory>
    ensures sorted { IfOk result (λ pairs. T (is_sorted key_cmp pairs)) }
    ensures all { IfOk result (λ pairs. pairs ≡ values.entry.entries) }
{
    let mut pairs = Pairs::new(alloc);
    for (key, value) in values {
        pairs.push(key.bytes(), value.bytes())?;
    }
    Ok(pairs)
}

// Whether a key is from `low` on and below `high`.
fn is_within(key: &[u8], low: &Key, high: Option<&Key>) -> bool
    ensures { result ≡ is_in_range low.now (option_copied high.entry) key.now }
{
    compare_bytes(key, low.bytes()).is_ge()
        && high.is_none_or(|high| compare_bytes(key, high.bytes()).is_lt())
}
