//! How many bytes an index and a map have in use.

use crate::leaves::Filling;
use crate::request::Request;
use crate::rivals::{Heaps, Rivals, index_over};
use anyhow::Result;
use bw_batch::Options;
use bw_memory::{Alloc, Heap, LIMIT_MAX};
use std::alloc::Global;
use std::num::nearest_u64_to_f64;
use std::thread::Threads;
use std::time::Clock;

/// A heap that counts the bytes in use.
pub fn counting_heap(global: Global) -> Result<Alloc> {
    Ok(Heap::within(global, LIMIT_MAX).leak(global)?)
}

/// A heap that counts for the index, and one for the map.
pub fn own_heaps(global: Global, alloc: Alloc) -> Result<Heaps> {
    Ok(Heaps {
        ops: alloc,
        index: counting_heap(global)?,
        map: counting_heap(global)?,
    })
}

/// Fills an index and a map by batches, each with a heap of its own, and prints how many bytes a key they have in use, and
/// how many an index has that is made of leaves with the same keys.
pub fn print_bytes<R: Threads + Clock + Sync + Print>(
    rt: &R,
    global: Global,
    alloc: Alloc,
    request: &Request,
) -> Result<()> {
    let heaps = own_heaps(global, alloc)?;
    let keys = request.keys;
    let options = request.options()?;
    let made = bytes_over_leaves(global, options, keys)?;
    let rivals = Rivals::filled(rt, heaps, options, keys)?;
    let put = heaps.index.used();
    let map = heaps.map.used();
    drop(rivals);
    print_bytes_each(rt, keys, "of leaves", made, map)?;
    print_bytes_each(rt, keys, "put by batches", put, map)
}

// How many bytes an index has in use that is made of leaves with so many keys.
fn bytes_over_leaves(global: Global, options: Options, keys: u64) -> Result<u64> {
    let alloc = counting_heap(global)?;
    let index = index_over(alloc, options, keys, Filling::Full)?;
    let used = alloc.used();
    drop(index);
    Ok(used)
}

// Prints how many bytes a key an index and a map of so many keys have in use.
fn print_bytes_each<R: Print>(rt: &R, keys: u64, how: &str, index: u64, map: u64) -> Result<()> {
    let index = bytes_each(index, keys);
    let map = bytes_each(map, keys);
    let ratio = index / map;
    println!(rt; "{keys} keys, {how}: {index:.1} / {map:.1} bytes a key = {ratio:.2}")?;
    Ok(())
}

// So many bytes by so many keys.
fn bytes_each(bytes: u64, keys: u64) -> f64 {
    nearest_u64_to_f64(bytes) / nearest_u64_to_f64(keys)
}
