// Writes, sorted by key.
ghost use Rattle.std.specs.Prelude.{◌≡◌, map, IfOk};
ghost use Rattle.std.specs.List.Sorted.{IsPermutation};
ghost use Rattle.std.specs.Ordering.{nat_cmp, ordering_then};
ghost use Rattle.bw_key.specs.Order.{key_cmp};
ghost use Rattle.bw_key.specs.Prefixes.{key_prefix};
ghost use Rattle.bw_delta.specs.History.{pointed_to, HasDistinctStamps};
ghost use Rattle.bw_delta.specs.SortedWrites.{AreSortedByKey, HaveRisingStamps};
ghost use Rattle.bw_delta.specs.Writes.{WriteView};

use crate::writes::Write;
use bw_key::{Memory, compare_prefixed, prefix_of};
use bw_memory::Alloc;
use std::cmp::Ordering;

/// A write with the first bytes of its key, by which most writes are told apart and not looked at.
#[derive(Clone, Copy)]
pub(crate) struct KeyedWrite<'a> {
    prefix: u64,
    write: &'a Write,
    ghost alike: { prefix ≡ key_prefix write.now.key },
}

impl KeyedWrite<'_> {
    // How two writes stand by their keys, and those of one key by their stamps.
    fn by_key_and_stamp(&self, other: &KeyedWrite<'_>) -> Ordering
        ensures { let v : WriteView = self.now.write.now in let w : WriteView = other.now.write.now in
            result ≡ ordering_then (key_cmp v.key w.key) (nat_cmp v.stamp w.stamp) }
    {
        let (write, next) = (self.write, other.write);
        let order = compare_prefixed(write.key(), self.prefix, next.key(), other.prefix);
        if order.is_ne() {
            return order;
        }
        write.stamp().cmp(&next.stamp())
    }
}

/// The writes in the order of their keys, and those of one key in the order of their stamps. For n of them it takes about
/// n log2 n comparisons, most of them of the first eight bytes of two keys alone, and two lists, where one finds none of
/// which `Memory` is answered.
pub fn writes_by_key<'a>(
    alloc: Alloc,
    writes: &[&'a Write],
) -> Result<Vec<&'a Write, Alloc>, Memory>
    requires { HasDistinctStamps (pointed_to writes.now) }
    ensures same { IfOk result (λ grouped. IsPermutation (pointed_to writes.now) (pointed_to grouped.items)) }
    ensures grouped { IfOk result (λ grouped. AreSortedByKey (pointed_to grouped.items)) }
    ensures rising { IfOk result (λ grouped. HaveRisingStamps (pointed_to grouped.items)) }
{
    let keyed = keyed_writes(alloc, writes)?;
    in_key_order(alloc, keyed)
}

// The writes, each with the first bytes of its key.
fn keyed_writes<'a>(
    alloc: Alloc,
    writes: &[&'a Write],
) -> Result<Vec<KeyedWrite<'a>, Alloc>, Memory>
    ensures { IfOk result (λ keyed. map (λ k. k.write.now) keyed.items ≡ pointed_to writes.now) }
{
    let mut keyed = Vec::with_capacity(alloc, writes.len())?;
    for write in writes {
        keyed.push(keyed_write(*write))?;
    }
    Ok(keyed)
}

/// A write with the first bytes of its key.
pub(crate) fn keyed_write(write: &Write) -> KeyedWrite<'_>
    ensures { result.write.now ≡ write.now }
{
    let prefix = prefix_of(write.key());
    KeyedWrite { prefix, write }
}

/// The writes in the order of their keys, and those of one key in the order of their stamps.
pub(crate) fn in_key_order<'a>(
    alloc: Alloc,
    mut keyed: Vec<KeyedWrite<'a>, Alloc>,
) -> Result<Vec<&'a Write, Alloc>, Memory>
    requires { HasDistinctStamps (map (λ k. k.write.now) keyed.items) }
    ensures same { IfOk result
        (λ grouped. IsPermutation (map (λ k. k.write.now) keyed.entry.items) (pointed_to grouped.items)) }
    ensures grouped { IfOk result (λ grouped. AreSortedByKey (pointed_to grouped.items)) }
    ensures rising { IfOk result (λ grouped. HaveRisingStamps (pointed_to grouped.items)) }
{
    keyed.sort_unstable_by(|a, b| a.by_key_and_stamp(b));
    let grouped = writes_in(alloc, &keyed)?;
    Ok(grouped)
}

// The writes alone.
fn writes_in<'a>(alloc: Alloc, keyed: &[KeyedWrite<'a>]) -> Result<Vec<&'a Write, Alloc>, Memory>
    ensures { IfOk result (λ writes. pointed_to writes.items ≡ map (λ k. k.write.now) keyed.now) }
{
    let mut writes = Vec::with_capacity(alloc, keyed.len())?;
    for each in keyed {
        writes.push(each.write)?;
    }
    Ok(writes)
}
