// The records of a batch, made by several workers.
ghost use Rattle.std.specs.Prelude.{◌≡◌, ◌+◌, ◌^◌, ◌≤◌, ◌<◌, ◌++◌, length, take, flat_map, IfOk, OnOk, OnErr};
ghost use Rattle.std.specs.List.{AllByRecursion};
ghost use Rattle.bw_chain.specs.Records.{unlinked};
ghost use Rattle.bw_chain.specs.PlacedWrites.{writes_at_places};

use crate::chains::FLOOR;
use crate::records::append_all;
use bw_delta::Arena;
use bw_key::Memory;
use bw_memory::Alloc;
use bw_model::Op;
use bw_segment::SEGMENT;
use rayon::prelude::*;
use std::thread::Threads;

// So many records are worth a thread: to make them takes several times as long as its start.
const LEAST_PLACES: usize = 4096;

/// Appends the writes of a batch as `append_writes` does, made by so many workers, one for each 4,096 places at the most. Those
/// that go into a segment behind the last one are made there by a worker of their own, and not moved.
pub(crate) fn append_writes_by<R: Threads + Sync>(
    rt: &R,
    alloc: Alloc,
    arena: &mut Arena,
    ops: &[Op],
    base: u64,
    places: &[u32],
    workers: u64,
) -> Result<(), Memory>
    requires there { AllByRecursion (λ p. p < length ops.now) places.now }
    requires fits { base + length ops.now ≤ 2 ^ 40 }
    requires few { length arena.old.records ≤ 2 ^ 32 }
    ensures ok { OnOk result
        (arena.new.records ≡ arena.old.records ++ unlinked (writes_at_places base ops.now places.now)) }
    ensures err { OnErr result (arena.new.records ≡ arena.old.records) }
    ensures few { length arena.new.records ≤ 2 ^ 32 }
{
    let before = arena.len();
    let appended = append_in_parts(rt, alloc, arena, ops, base, places, workers);
    if appended.is_err() {
        arena.truncate(before);
    }
    appended
}

// Appends the writes of a batch at these places, or some of them: by one worker up to the end of the last segment, and from
// there on by several.
fn append_in_parts<R: Threads + Sync>(
    rt: &R,
    alloc: Alloc,
    arena: &mut Arena,
    ops: &[Op],
    base: u64,
    places: &[u32],
    workers: u64,
) -> Result<(), Memory>
    requires there { AllByRecursion (λ p. p < length ops.now) places.now }
    requires fits { base + length ops.now ≤ 2 ^ 40 }
    requires few { length arena.old.records ≤ 2 ^ 32 }
    ensures ok { OnOk result
        (arena.new.records ≡ arena.old.records ++ unlinked (writes_at_places base ops.now places.now)) }
    ensures others { take (length arena.old.records) arena.new.records ≡ arena.old.records }
    ensures few { length arena.new.records ≤ 2 ^ 32 }
{
    let count = ((places.len() / LEAST_PLACES) as u64).min(workers) as usize;
    if count < 2 {
        return append_all(alloc, arena, ops, base, places);
    }
    let room = (SEGMENT - arena.len() % SEGMENT) % SEGMENT;
    let (first, rest) = places.split_at(room.min(places.len()));
    append_all(alloc, arena, ops, base, first)?;
    let parts = parts_of(alloc, rest, count)?;
    let made = records_of_parts(rt, alloc, ops, base, &parts)?;
    append_arenas(arena, made)
}

// So many parts of the places, or fewer, which are to be whole segments of records, but for the last one.
fn parts_of(alloc: Alloc, places: &[u32], count: usize) -> Result<Vec<&[u32], Alloc>, Memory>
    requires { 0 < count }
    ensures { IfOk result (λ parts. flat_map (λ part. part.now) parts.items ≡ places.now) }
{
    let segments = places.len().div_ceil(SEGMENT).div_ceil(count);
    let size = segments.saturating_mul(SEGMENT).max(1);
    let mut parts = Vec::with_capacity(alloc, count)?;
    let mut rest = places;
    while !rest.is_empty() {
        let (part, behind) = rest.split_at(size.min(rest.len()));
        parts.push(part)?;
        rest = behind;
    }
    Ok(parts)
}

// The records of the writes at each of these parts of a batch's places, made side by side.
fn records_of_parts<R: Threads + Sync>(
    rt: &R,
    alloc: Alloc,
    ops: &[Op],
    base: u64,
    parts: &[&[u32]],
) -> Result<Vec<Arena, Alloc>, Memory>
    requires there { AllByRecursion (λ p. p < length ops.now) (flat_map (λ part. part.now) parts.now) }
    requires fits { base + length ops.now ≤ 2 ^ 40 }
    ensures { let places = flat_map (λ part. part.now) parts.now in IfOk result (λ made.
        flat_map (λ arena. arena.records) made.items ≡ unlinked (writes_at_places base ops.now places)) }
{
    parts
        .par_iter()
        .with_min_len(1)
        .map(
            move |part: &&[u32]| -> Result<Arena, Memory>
                requires { AllByRecursion (λ p. p < length ops.now) part.now.now × (base + length ops.now ≤ 2 ^ 40) }
                ensures { IfOk result (λ arena.
                    arena.records ≡ unlinked (writes_at_places base ops.entry.now part.entry.now.now)) }
            { records_at(alloc, ops, base, part) },
        )
        .collect::<Result<Vec<Arena, Alloc>, Memory>>(rt, alloc)?
}

// The records of the writes at these places, in an arena of their own.
fn records_at(alloc: Alloc, ops: &[Op], base: u64, places: &[u32]) -> Result<Arena, Memory>
    requires there { AllByRecursion (λ p. p < length ops.now) places.now }
    requires fits { base + length ops.now ≤ 2 ^ 40 }
    ensures { IfOk result (λ arena. arena.records ≡ unlinked (writes_at_places base ops.now places.now)) }
{
    let mut arena = Arena::with_capacity(alloc, places.len())?;
    append_all(alloc, &mut arena, ops, base, places)?;
    Ok(arena)
}

// Appends the records of arenas, or some of them.
fn append_arenas(arena: &mut Arena, made: Vec<Arena, Alloc>) -> Result<(), Memory>
    requires few { length arena.old.records ≤ 2 ^ 32 }
    ensures ok { OnOk result
        (arena.new.records ≡ arena.old.records ++ flat_map (λ arena. arena.records) made.entry.items) }
    ensures others { take (length arena.old.records) arena.new.records ≡ arena.old.records }
    ensures few { length arena.new.records ≤ 2 ^ 32 }
{
    for more in made {
        append_arena(arena, more)?;
    }
    Ok(())
}

// Appends the records of another arena, where there may be so many.
fn append_arena(arena: &mut Arena, more: Arena) -> Result<(), Memory>
    requires few { length arena.old.records ≤ 2 ^ 32 }
    ensures ok { OnOk result (arena.new.records ≡ arena.old.records ++ more.records) }
    ensures err { OnErr result (arena.new.records ≡ arena.old.records) }
    ensures few { length arena.new.records ≤ 2 ^ 32 }
{
    if more.len() as u64 > FLOOR - arena.len() as u64 {
        return Err(Memory);
    }
    arena.append_all(more)
}
