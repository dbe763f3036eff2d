// The writes of a key, among writes that are sorted by key.
ghost use Rattle.std.specs.Prelude.{◌≡◌, ◌<◌, ◌≤◌, true, false, length, slice_index_or};
ghost use Rattle.std.specs.Borrow.{Bor};
ghost use Rattle.std.specs.List.{AllWithin};
ghost use Rattle.std.specs.Ordering.{is_lt};
ghost use Rattle.bw_key.specs.Order.{key_cmp};
ghost use Rattle.bw_delta.specs.Batches.{writes_to};
ghost use Rattle.bw_delta.specs.History.{pointed_to};
ghost use Rattle.bw_delta.specs.SortedWrites.{AreSortedByKey};
ghost use Rattle.bw_delta.specs.Writes.{WriteView};
ghost use Rattle.bw_answer.specs.WriteGroups.{IsFirstOf};

use bw_delta::Write;
use bw_key::{Key, compare_bytes};

/// The writes of one key, of writes that are grouped by key, and where they end. The search goes on from a place: for
/// keys that are asked for in their order, each from where the writes of the last one end, it passes each write once. A
/// key whose writes begin before that place is searched for among all writes.
pub(crate) fn group_of<'a>(
    grouped: &'a [&'a Write],
    from: usize,
    key: &Key,
) -> (&'a [&'a Write], usize)
    requires sorted { AreSortedByKey (pointed_to grouped.now) }
    requires from { from ≤ length grouped.now }
    ensures group { pointed_to result.0.now ≡ writes_to key.now (pointed_to grouped.now) }
    ensures end { result.1 ≤ length grouped.now }
    ensures behind { result.1 < length grouped.now → (d : Bor WriteView) →
        is_lt (key_cmp key.now (slice_index_or grouped.now result.1 d).now.key) ≡ true }
{
    let start = first_of(grouped, from, key);
    let end = end_of(grouped, start, key);
    (&grouped[start..end], end)
}

// Where the writes of a key begin, or would begin.
fn first_of(grouped: &[&Write], from: usize, key: &Key) -> usize
    requires sorted { AreSortedByKey (pointed_to grouped.now) }
    requires from { from ≤ length grouped.now }
    ensures bound { result ≤ length grouped.now }
    ensures first { IsFirstOf key.now grouped.now result }
{
    if from > 0 && lies_from(grouped[from - 1], key) {
        return grouped.partition_point(|write| compare_bytes(write.key(), key.bytes()).is_lt());
    }
    for start in from..grouped.len() {
        if lies_from(grouped[start], key) {
            return start;
        }
    }
    grouped.len()
}

// Where the writes from a place on end whose keys aren't above this one.
fn end_of(grouped: &[&Write], start: usize, key: &Key) -> usize
    requires { start ≤ length grouped.now }
    ensures more { start ≤ result }
    ensures bound { result ≤ length grouped.now }
    ensures upto { AllWithin (λ w. is_lt (key_cmp key.now w.now.key) ≡ false) grouped.now start result }
    ensures behind { result < length grouped.now → (d : Bor WriteView) →
        is_lt (key_cmp key.now (slice_index_or grouped.now result d).now.key) ≡ true }
{
    for end in start..grouped.len() {
        if lies_behind(grouped[end], key) {
            return end;
        }
    }
    grouped.len()
}

// Whether a write is of a key or of a higher one.
fn lies_from(write: &Write, key: &Key) -> bool
    ensures yes { result ≡ true → is_lt (key_cmp write.now.key key.now) ≡ false }
    ensures no { result ≡ false → is_lt (key_cmp write.now.key key.now) ≡ true }
{
    compare_bytes(write.key(), key.bytes()).is_ge()
}

// Whether a write is of a higher key.
fn lies_behind(write: &Write, key: &Key) -> bool
    ensures { result ≡ is_lt (key_cmp key.now write.now.key) }
{
    compare_bytes(key.bytes(), write.key()).is_lt()
}
