//! What came of batches, and what they cost.

use anyhow::{Context, Result};
use bw_batch::Reply;
use bw_memory::Alloc;
use std::num::nearest_u64_to_f64;
use std::time::Duration;

/// How many replies were the same, how many leaves were replaced beside the posting, and the times of all batches.
pub struct Runs {
    pub same: u64,
    pub replaced: u64,
    pub index: Vec<Duration, Alloc>,
    pub map: Vec<Duration, Alloc>,
}

// Not derived: whoever drops them calls this, and its proof is spared the parts.
impl Drop for Runs {
    fn drop(self) {
        let Runs {
            same: _same,
            replaced: _replaced,
            index: _index,
            map: _map,
        } = self;
    }
}

impl Runs {
    /// No batch.
    pub fn new(alloc: Alloc) -> Runs {
        Runs {
            same: 0,
            replaced: 0,
            index: Vec::new(alloc),
            map: Vec::new(alloc),
        }
    }

    /// Counts the replies to a batch that are the map's.
    pub fn count_same(&mut self, replies: &[Reply], expected: &[Reply]) {
        for (reply, wanted) in replies.iter().zip(expected) {
            if reply == wanted {
                self.same = self.same.saturating_add(1);
            }
        }
    }

    /// Prints the times of batches, in nanoseconds an operation.
    pub fn print_times<R: Print>(&mut self, rt: &R, operations: u64) -> Result<()> {
        let index = cost_of(&mut self.index, operations)?;
        let map = cost_of(&mut self.map, operations)?;
        print_costs(rt, "middle", index.middle, map.middle)?;
        print_costs(rt, "mean  ", index.mean, map.mean)
    }

    /// Prints the times of batches, and the longest ones.
    pub fn print_longest<R: Print>(&mut self, rt: &R, operations: u64) -> Result<()> {
        self.print_times(rt, operations)?;
        let index = longest(&self.index);
        let map = longest(&self.map);
        println!(rt; "    longest {index:.2} ms / {map:.2} ms")?;
        Ok(())
    }

    /// Prints how many operations a second the index ran, by the batch in the middle of sorted times.
    pub fn print_rate<R: Print>(&self, rt: &R, operations: u64) -> Result<()> {
        let middle = middle(&self.index)?;
        let rate = nearest_u64_to_f64(operations) / middle.as_secs_f64();
        println!(rt; "    {rate:.0} operations a second")?;
        Ok(())
    }
}

/// Nanoseconds an operation, by the time in the middle and by all times together.
#[derive(Clone, Copy)]
pub struct Cost {
    pub middle: f64,
    pub mean: f64,
}

/// What operations cost by the times of batches of so many, which are sorted.
pub fn cost_of(times: &mut [Duration], operations: u64) -> Result<Cost> {
    times.sort_unstable();
    let middle = middle(times)?;
    let each = 1e9 / nearest_u64_to_f64(operations);
    let mean = seconds(times) / nearest_u64_to_f64(times.len() as u64);
    Ok(Cost {
        middle: middle.as_secs_f64() * each,
        mean: mean * each,
    })
}

/// The time in the middle of sorted ones.
pub fn middle(times: &[Duration]) -> Result<Duration> {
    times.get(times.len() / 2).copied().context("no batch")
}

// All times together.
fn seconds(times: &[Duration]) -> f64 {
    times.iter().fold(0.0, |sum, time| sum + time.as_secs_f64())
}

// The longest of some times, in milliseconds.
fn longest(times: &[Duration]) -> f64 {
    times
        .iter()
        .fold(0.0, |most, time| time.as_secs_f64().max(most))
        * 1e3
}

fn print_costs<R: Print>(rt: &R, words: &str, index: f64, map: f64) -> Result<()> {
    let ratio = index / map;
    println!(rt; "    {words} {index:7.1} / {map:7.1} = {ratio:.2}")?;
    Ok(())
}
