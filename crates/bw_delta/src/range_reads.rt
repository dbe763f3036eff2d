// The pairs of a run with changes among them, added to a list.
ghost use Rattle.std.specs.Prelude.{◌≡◌, ◌<◌, ◌-◌, ◌++◌, T, [], ◌∷◌, length, reverse, slice_index_or, take, IfOk, OnErr, OnOk};
ghost use Rattle.std.specs.FinMap.{is_sorted};
ghost use Rattle.bw_key.specs.Order.{key_cmp};
ghost use Rattle.bw_model.specs.Values.{Pair};
ghost use Rattle.bw_delta.specs.Merging.{with_value};
ghost use Rattle.bw_delta.specs.Present.{changed_pairs};

use crate::merging::parted;
use bw_key::{Key, Memory};
use bw_model::{Pairs, Run, Value};
use std::collections::btree_map::Range;

/// Adds the first pairs to a list, no more than `most` of them: those of a run, with changes made. What lies between two
/// changes is copied as one block. After `Memory` some may have been added.
pub(crate) fn add_rising(
    pairs: Run<'_>,
    changes: Range<'_, Key, Option<Value>>,
    most: u64,
    read: &mut Pairs,
) -> Result<(), Memory>
    requires pairs { T (is_sorted key_cmp pairs) }
    requires changes { T (is_sorted key_cmp changes) }
    ensures kept { take (length read.old) read.new ≡ read.old }
    ensures added { OnOk result (read.new ≡ read.old ++ take most (changed_pairs changes.entry pairs.entry)) }
{
    let (mut rest, mut left) = (pairs, most);
    for (key, value) in changes {
        if left == 0 {
            return Ok(());
        }
        let (before, _old, behind) = parted(&rest, key.bytes());
        left = add_front(&before, left, read)?;
        left = add_value(key, value, left, read)?;
        rest = behind;
    }
    add_front(&rest, left, read)?;
    Ok(())
}

/// Adds the last of these pairs, the greatest key first.
pub(crate) fn add_falling(
    pairs: Run<'_>,
    changes: Range<'_, Key, Option<Value>>,
    most: u64,
    read: &mut Pairs,
) -> Result<(), Memory>
    requires pairs { T (is_sorted key_cmp pairs) }
    requires changes { T (is_sorted key_cmp changes) }
    ensures kept { take (length read.old) read.new ≡ read.old }
    ensures added { OnOk result (read.new
        ≡ read.old ++ take most (reverse (changed_pairs changes.entry pairs.entry))) }
{
    let (mut rest, mut left) = (pairs, most);
    for (key, value) in changes.rev() {
        if left == 0 {
            return Ok(());
        }
        let (before, _old, behind) = parted(&rest, key.bytes());
        left = add_back(&behind, left, read)?;
        left = add_value(key, value, left, read)?;
        rest = before;
    }
    add_back(&rest, left, read)?;
    Ok(())
}

// Adds the first pairs of a run, no more than `most` of them, in one block. It answers how many more may be added.
fn add_front(run: &Run<'_>, most: u64, read: &mut Pairs) -> Result<u64, Memory>
    ensures kept { take (length read.old) read.new ≡ read.old }
    ensures added { OnOk result (read.new ≡ read.old ++ take most run.now) }
    ensures left { IfOk result (λ left. left ≡ most - length run.now) }
{
    let count = most.min(run.len() as u64);
    let (front, _rest) = run.split_at(count as usize);
    read.extend(&front)?;
    Ok(most - count)
}

// Adds the last pairs of a run, the last one first, no more than `most` of them, with room made for all of them at once. It
// answers how many more may be added.
fn add_back(run: &Run<'_>, most: u64, read: &mut Pairs) -> Result<u64, Memory>
    ensures kept { take (length read.old) read.new ≡ read.old }
    ensures added { OnOk result (read.new ≡ read.old ++ take most (reverse run.now)) }
    ensures left { IfOk result (λ left. left ≡ most - length run.now) }
{
    let len = run.len();
    let count = most.min(len as u64) as usize;
    let (_rest, back) = run.split_at(len - count);
    read.reserve(count, back.byte_count())?;
    for place in 0..count {
        push_at(read, run, len - 1 - place)?;
    }
    Ok(most - count as u64)
}

// Adds the pair of a run at a place.
fn push_at(read: &mut Pairs, run: &Run<'_>, place: usize) -> Result<(), Memory>
    requires { place < length run.now }
    ensures added { (d : Pair) → OnOk result (read.new ≡ read.old ++ slice_index_or run.now place d ∷ []) }
    ensures same { OnErr result (read.new ≡ read.old) }
{
    read.push(run.key_at(place), run.value_at(place))
}

// Adds a key with its value, if there is one and it may be added. It answers how many more may be.
fn add_value(key: &Key, value: &Option<Value>, most: u64, read: &mut Pairs) -> Result<u64, Memory>
    ensures kept { take (length read.old) read.new ≡ read.old }
    ensures added { OnOk result (read.new ≡ read.old ++ take most (with_value key.now value.now [])) }
    ensures left { IfOk result (λ left. left ≡ most - length (with_value key.now value.now [])) }
{
    match value {
        Some(value) if most > 0 => {
            read.push(key.bytes(), value.bytes())?;
            Ok(most - 1)
        }
        _ => Ok(most),
    }
}
