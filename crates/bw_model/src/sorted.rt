// A sorted list of pairs, read and changed at a key.
ghost use Rattle.std.specs.Prelude.{◌≡◌, ◌≤◌, length, not, IfOk, OnOk, OnErr, filter, take, reverse};
ghost use Rattle.std.specs.FinMap.{find, put};
ghost use Rattle.std.specs.Option.{option_copied};
ghost use Rattle.bw_key.specs.Order.{key_cmp, key_eq};
ghost use Rattle.bw_model.specs.Contents.{is_in_range, is_pair_in_range};
ghost use Rattle.bw_model.specs.Sorted.{place_of, with_pick};

use crate::ranges::is_below;
use crate::values::Value;
use bw_key::{Key, Memory};
use bw_memory::Alloc;
use bw_packed::Pairs;

/// The value at a key.
pub(crate) fn value_at<'a>(pairs: &'a [(Key, Value)], key: &Key) -> Option<&'a [u8]>
    ensures { option_copied result ≡ find key_cmp key.now pairs.now }
{
    for pair in pairs {
        if *key == pair.0 {
            return Some(pair.1.bytes());
        }
    }
    None
}

/// How many pairs at the front have a smaller key.
pub(crate) fn place(pairs: &[(Key, Value)], key: &Key) -> usize
    ensures value { result ≡ place_of key.now pairs.now }
    ensures bound { result ≤ length pairs.now }
{
    let mut at = 0;
    for pair in pairs {
        if pair.0 >= *key {
            return at;
        }
        at += 1;
    }
    at
}

/// Puts a value at a key, in place of one that stands there.
pub(crate) fn put_at(
    pairs: &mut Vec<(Key, Value), Alloc>,
    key: Key,
    value: Value,
) -> Result<(), Memory>
    ensures ok { OnOk result (pairs.new.items ≡ put key_cmp key value pairs.old.items) }
    ensures err { OnErr result (pairs.new.items ≡ pairs.old.items) }
{
    let at = place(pairs, &key);
    if at < pairs.len() && pairs[at].0 == key {
        let pair = &mut pairs[at];
        pair.1 = value;
    } else {
        pairs.insert(at, (key, value))?;
    }
    Ok(())
}

/// Removes a key and its value.
pub(crate) fn remove_at(pairs: &mut Vec<(Key, Value), Alloc>, key: &Key)
    ensures { pairs.new.items ≡ filter (λ pair. not (key_eq key.now pair.0)) pairs.old.items }
{
    pairs.retain(|pair| *key != pair.0);
}

/// Whether a key is from `from` on and below `to`.
fn is_within(key: &Key, from: &Key, to: Option<&Key>) -> bool
    ensures { result ≡ is_in_range from.now (option_copied to.entry) key.now }
{
    *key >= *from && is_below(key, to)
}

/// Adds a copy of the pair, where it is in the range and the list has less than `most`.
fn pick(
    list: &mut Pairs,
    pair: &(Key, Value),
    from: &Key,
    to: Option<&Key>,
    most: u64,
) -> Result<(), Memory>
    ensures { OnOk result (list.new ≡
        with_pick (is_pair_in_range from.now (option_copied to.entry)) most list.old pair.now) }
{
    if (list.len() as u64) < most && is_within(&pair.0, from, to) {
        list.push(pair.0.bytes(), pair.1.bytes())?;
    }
    Ok(())
}

/// The first pairs of a range of keys, `most` at the most.
pub(crate) fn first_of(
    alloc: Alloc,
    pairs: &[(Key, Value)],
    from: &Key,
    to: Option<&Key>,
    most: u64,
) -> Result<Pairs, Memory>
    ensures { IfOk result (λ list. list ≡
        take most (filter (is_pair_in_range from.now (option_copied to.entry)) pairs.now)) }
{
    let mut list = Pairs::new(alloc);
    for pair in pairs {
        pick(&mut list, pair, from, to, most)?;
    }
    Ok(list)
}

/// The last pairs of a range of keys, the greatest first, `most` at the most.
pub(crate) fn last_of(
    alloc: Alloc,
    pairs: &[(Key, Value)],
    from: &Key,
    to: Option<&Key>,
    most: u64,
) -> Result<Pairs, Memory>
    ensures { IfOk result (λ list. list ≡
        take most (reverse (filter (is_pair_in_range from.now (option_copied to.entry)) pairs.now))) }
{
    let mut list = Pairs::new(alloc);
    for pair in pairs.iter().rev() {
        pick(&mut list, pair, from, to, most)?;
    }
    Ok(list)
}

/// The same pairs again.
pub(crate) fn copy_of(
    alloc: Alloc,
    pairs: &[(Key, Value)],
) -> Result<Vec<(Key, Value), Alloc>, Memory>
    ensures { IfOk result (λ copy. copy.items ≡ pairs.now) }
{
    let mut copy = Vec::with_capacity(alloc, pairs.len())?;
    for pair in pairs {
        copy.push((pair.0.copy()?, pair.1.copy()?))?;
    }
    Ok(copy)
}

/// The same pairs again, packed.
pub(crate) fn packed(alloc: Alloc, pairs: &[(Key, Value)]) -> Result<Pairs, Memory>
    ensures { IfOk result (λ copy. copy ≡ pairs.now) }
{
    let mut copy = Pairs::new(alloc);
    for pair in pairs {
        copy.push(pair.0.bytes(), pair.1.bytes())?;
    }
    Ok(copy)
}
