// Reading stamped writes as of a stamp.
ghost use Rattle.std.specs.Prelude.{◌≡◌, ◌<◌, ◌≤◌, IfOk};
ghost use Rattle.std.specs.Option.{option_copied};
ghost use Rattle.std.specs.List.Sorted.{IsPermutation};
ghost use Rattle.bw_delta.specs.History.{history, action_at, pointed_to, HasDistinctStamps};
ghost use Rattle.bw_delta.specs.Rising.{HasRisingStamps};
ghost use Rattle.bw_delta.specs.Readings.{from_stamp};

use crate::writes::Write;
use bw_key::Memory;
use bw_memory::Alloc;
use bw_model::Value;
use std::marker::Model;

/// The value at a key as of a stamp that rises, read from the key's writes in the order of their stamps. It copies
/// nothing, and passes each write once.
#[derive(Drop)]
pub struct Reading<'a> {
    stamp: u64,
    value: Option<&'a [u8]>,
    rest: &'a [&'a Write],
}

impl<'a> Model for Reading<'a> {
    ghost use Rattle.std.specs.Option.{option_copied};
    ghost use Rattle.bw_delta.specs.History.{pointed_to};
    ghost use Rattle.bw_delta.specs.Rising.{HasRisingStamps};
    ghost use Rattle.bw_delta.specs.Readings.{ReadingView};

    ghost Value = { ReadingView };

    ghost view = { λ r. record { stamp = r.stamp; value = option_copied r.value; rest = pointed_to r.rest.now } };

    ghost invariant = { λ r. HasRisingStamps r.stamp (pointed_to r.rest.now) };
}

impl<'a> Reading<'a> {
    /// As of stamp 0, where the value is `start`. The writes are in the order of their stamps.
    pub fn new(start: Option<&'a [u8]>, writes: &'a [&'a Write]) -> Reading<'a>
        requires { HasRisingStamps 0 (pointed_to writes.now) }
        ensures stamp { result.stamp ≡ 0 }
        ensures value { result.value ≡ option_copied start.entry }
        ensures rest { result.rest ≡ pointed_to writes.now }
    {
        Reading {
            stamp: 0,
            value: start,
            rest: writes,
        }
    }

    /// Goes on to a stamp: each write with a smaller one has its effect. At a stamp below the present one nothing is
    /// taken back: the value and the writes that are left stay.
    pub fn advance(&mut self, stamp: u64)
        ensures stamp { self.new.stamp ≡ stamp }
        ensures value { self.new.value ≡ history self.old.value (action_at self.old.rest) stamp }
        ensures rest { self.new.rest ≡ from_stamp stamp self.old.rest }
        ensures back { stamp ≤ self.old.stamp → (self.new.value ≡ self.old.value) × (self.new.rest ≡ self.old.rest) }
    {
        let (value, rest) = passed(self.value, self.rest, stamp);
        *self = Reading { stamp, value, rest };
    }

    /// The value as of the greatest stamp so far.
    pub fn value(&self) -> Option<&'a [u8]>
        ensures { option_copied result ≡ self.now.value }
    {
        self.value
    }
}

// The value once the writes below a stamp have had their effects, and the writes that are left.
fn passed<'a>(
    start: Option<&'a [u8]>,
    writes: &'a [&'a Write],
    stamp: u64,
) -> (Option<&'a [u8]>, &'a [&'a Write])
    requires { HasRisingStamps 0 (pointed_to writes.now) }
    ensures value { option_copied result.0 ≡ history (option_copied start.entry)
        (action_at (pointed_to writes.now)) stamp }
    ensures rest { pointed_to result.1.now ≡ from_stamp stamp (pointed_to writes.now) }
{
    let mut value = start;
    for (at, write) in writes.iter().enumerate() {
        if write.stamp() >= stamp {
            return (value, &writes[at..]);
        }
        value = write.effect(value);
    }
    (value, &[])
}

/// The value that writes of one key leave as of a stamp: those with a smaller stamp, applied to `start` in the order
/// of their stamps. The slice may have any order.
///
/// It sorts the n writes, in about n log2 n steps, and copies the one value that it answers. `Memory` is answered
/// where a copy or the list to sort finds none.
pub fn value_as_of(
    alloc: Alloc,
    start: Option<&[u8]>,
    writes: &[&Write],
    stamp: u64,
) -> Result<Option<Value>, Memory>
    requires { HasDistinctStamps (pointed_to writes.now) }
    ensures { IfOk result (λ value. value ≡ history (option_copied start.entry)
        (action_at (pointed_to writes.now)) stamp) }
{
    let ordered = in_order(alloc, writes)?;
    let mut reading = Reading::new(start, &ordered);
    reading.advance(stamp);
    copied(alloc, reading.value())
}

/// The value of these bytes, if there are any.
pub(crate) fn copied(alloc: Alloc, value: Option<&[u8]>) -> Result<Option<Value>, Memory>
    ensures { IfOk result (λ copy. copy ≡ option_copied value.entry) }
{
    match value {
        Some(value) => Ok(Some(Value::from_bytes(alloc, value)?)),
        None => Ok(None),
    }
}

/// The writes in the order of their stamps, in about n log2 n steps for n writes. `Memory` is answered where the list finds
/// none.
pub fn in_order<'a>(alloc: Alloc, writes: &[&'a Write]) -> Result<Vec<&'a Write, Alloc>, Memory>
    requires { HasDistinctStamps (pointed_to writes.now) }
    ensures rising { IfOk result (λ ordered. HasRisingStamps 0 (pointed_to ordered.items)) }
    ensures same { IfOk result (λ ordered. IsPermutation (pointed_to writes.now) (pointed_to ordered.items)) }
{
    let mut ordered = Vec::new(alloc);
    ordered.extend_from_slice(writes)?;
    ordered.sort_unstable_by_key(|write| write.stamp());
    Ok(ordered)
}
