// Records that are appended.
ghost use Rattle.std.specs.Prelude.{◌≡◌, ◌+◌, ◌^◌, ◌≤◌, ◌<◌, ◌++◌, [], ◌∷◌, length, take, IfOk, OnOk, OnErr};
ghost use Rattle.std.specs.List.{AllByRecursion};
ghost use Rattle.bw_delta.specs.Batches.{stamped, write_of};
ghost use Rattle.bw_delta.specs.Writes.{WriteView};
ghost use Rattle.bw_delta.specs.declared.deltas.Delta.TheVariants.{Put};
ghost use Rattle.bw_chain.specs.Records.{IsPut, unlinked};
ghost use Rattle.bw_chain.specs.PlacedWrites.{writes_at_places};

use crate::chains::FLOOR;
use bw_delta::{Arena, Delta, Write};
use bw_key::Memory;
use bw_memory::Alloc;
use bw_model::Op;

// Of so many operations the sizes are read before the first is copied.
const AHEAD: usize = 16;

/// A change that is a write.
pub(crate) fn put_write(delta: &Delta) -> &Write
    requires { IsPut delta.now }
    ensures { (w : WriteView) → delta.now ≡ Put w → result.now ≡ w }
{
    match delta {
        Delta::Put(write) => write,
        _ => unreachable!(),
    }
}

/// Appends the writes of a batch, those of the operations at these places in their order, each with its stamp and with no link
/// yet, and with `alloc` for the memory of its key and value. After `Memory` the records are as before.
pub(crate) fn append_writes(
    alloc: Alloc,
    arena: &mut Arena,
    ops: &[Op],
    base: u64,
    places: &[u32],
) -> Result<(), Memory>
    requires there { AllByRecursion (λ p. p < length ops.now) places.now }
    requires fits { base + length ops.now ≤ 2 ^ 40 }
    requires few { length arena.old.records ≤ 2 ^ 32 }
    ensures ok { OnOk result
        (arena.new.records ≡ arena.old.records ++ unlinked (writes_at_places base ops.now places.now)) }
    ensures err { OnErr result (arena.new.records ≡ arena.old.records) }
    ensures few { length arena.new.records ≤ 2 ^ 32 }
{
    let before = arena.len();
    let appended = append_all(alloc, arena, ops, base, places);
    if appended.is_err() {
        arena.truncate(before);
    }
    appended
}

/// Appends the writes of a batch at these places, or some of them. The sizes of the next few are read before these are copied:
/// in the order of keys each operation lies elsewhere in memory, and reads that need nothing of one another wait side by side.
pub(crate) fn append_all(
    alloc: Alloc,
    arena: &mut Arena,
    ops: &[Op],
    base: u64,
    places: &[u32],
) -> Result<(), Memory>
    requires there { AllByRecursion (λ p. p < length ops.now) places.now }
    requires fits { base + length ops.now ≤ 2 ^ 40 }
    requires few { length arena.old.records ≤ 2 ^ 32 }
    ensures ok { OnOk result
        (arena.new.records ≡ arena.old.records ++ unlinked (writes_at_places base ops.now places.now)) }
    ensures others { take (length arena.old.records) arena.new.records ≡ arena.old.records }
    ensures few { length arena.new.records ≤ 2 ^ 32 }
{
    let mut sizes = [0; AHEAD];
    for (at, place) in places.iter().enumerate() {
        if at % AHEAD == 0 {
            sizes = sizes_ahead(ops, &places[at..]);
        }
        let op = &ops[*place as usize];
        let stamp = base + u64::from(*place);
        append_op(alloc, arena, op, stamp, sizes[at % AHEAD])?;
    }
    Ok(())
}

// The sizes of the writes at the first of these places.
fn sizes_ahead(ops: &[Op], places: &[u32]) -> [usize; AHEAD] {
    let mut sizes = [0; AHEAD];
    for (size, place) in sizes.iter_mut().zip(places) {
        if let Some(op) = ops.get(*place as usize) {
            *size = Write::size_of_op(op);
        }
    }
    sizes
}

// Appends what an operation writes, whose key and values have so many bytes.
fn append_op(
    alloc: Alloc,
    arena: &mut Arena,
    op: &Op,
    stamp: u64,
    size: usize,
) -> Result<(), Memory>
    requires few { length arena.old.records ≤ 2 ^ 32 }
    ensures ok { OnOk result (arena.new.records ≡ arena.old.records ++ unlinked (stamped stamp (write_of op.now))) }
    ensures err { OnErr result (arena.new.records ≡ arena.old.records) }
    ensures few { length arena.new.records ≤ 2 ^ 32 }
{
    if let Some(write) = Write::from_op(alloc, op, stamp, size)? {
        make_room(arena)?;
        arena.append(Delta::Put(write), 0);
    }
    Ok(())
}

/// Makes room for one more record, where there may be one.
pub(crate) fn make_room(arena: &mut Arena) -> Result<(), Memory>
    ensures records { arena.new.records ≡ arena.old.records }
    ensures ok { OnOk result ((0 < arena.new.room) × (length arena.new.records < 2 ^ 32)) }
{
    if arena.len() as u64 >= FLOOR {
        return Err(Memory);
    }
    arena.make_room()
}

/// Appends a record with its link word, and answers the word that names it. After `Memory` the records are as before.
pub(crate) fn append_record(arena: &mut Arena, delta: Delta, link: u64) -> Result<u64, Memory>
    ensures ok { OnOk result (arena.new.records ≡ arena.old.records ++ (delta, link) ∷ []) }
    ensures word { IfOk result (λ word. word ≡ 2 ^ 32 + length arena.old.records) }
    ensures few { OnOk result (length arena.old.records < 2 ^ 32) }
    ensures err { OnErr result (arena.new.records ≡ arena.old.records) }
{
    make_room(arena)?;
    let word = FLOOR + arena.len() as u64;
    arena.append(delta, link);
    Ok(word)
}

/// Appends two records, and answers the word that names the second. After `Memory` the records are as before.
pub(crate) fn append_both(
    arena: &mut Arena,
    first: Delta,
    under: u64,
    second: Delta,
    other: u64,
) -> Result<u64, Memory>
    ensures ok { OnOk result (arena.new.records ≡ arena.old.records ++ (first, under) ∷ (second, other) ∷ []) }
    ensures word { IfOk result (λ word. word ≡ 2 ^ 32 + length arena.old.records + 1) }
    ensures few { OnOk result (length arena.old.records + 1 < 2 ^ 32) }
    ensures err { OnErr result (arena.new.records ≡ arena.old.records) }
{
    let before = arena.len();
    append_record(arena, first, under)?;
    let added = append_record(arena, second, other);
    if added.is_err() {
        arena.truncate(before);
    }
    added
}
