//! What a batch costs on an index of many leaves, beside the same operations on std's `BTreeMap` by one thread.
//!
//! An index and a map are filled with the same keys of 8 bytes, 44 to a leaf of the index, and then run the same
//! batches, which are drawn from a seed. With no word there are few keys, and how many replies of the two are the same
//! is printed. `run` times batches of one kind, as its options say; `time` those of all kinds over 10,000 keys and
//! 1,000,000, `small` batches of 1, 8, 64 and 1,024 operations, `insert` an empty index and an empty map that get
//! 1,048,576 keys, rising ones and scattered ones, and `drain` both as they lose as many. `beside` times an index by
//! itself, with and without leaves that are consolidated beside the posting, and `hard` times batches that cost
//! the square of their operations where an index doesn't see to it. What is printed is nanoseconds an
//! operation, of the batch whose time is in the middle and of all batches together, index / map, and the ratio. `bytes`
//! prints how many bytes a key the index and the map have in use. `picture` writes what `run` times as an SVG text,
//! over several numbers of workers, operations of a batch or keys.
#![tactic(auto)]

ghost use Rattle.std.specs.Prelude.{◌<◌};

mod beside;
mod chart;
mod command_line;
mod drain;
mod hard;
mod hard_batches;
mod insertion;
mod kinds;
mod leaves;
mod load;
mod memory;
mod picture;
mod request;
mod requested;
mod rivals;
mod runs;
mod word_fault;
mod workload;

use anyhow::Result;
use beside::{print_besides, print_checked_beside};
use bw_memory::{Alloc, Heap};
use drain::{Drain, print_all_drains, print_drain};
use hard::{print_counts, print_times};
use insertion::{Insertion, RECORDS, print_all_insertions, print_insertion};
use kinds::{print_all_small, print_load};
use load::{BRIEF, LARGE, SMALL, fresh};
use memory::print_bytes;
use picture::print_picture;
use request::{Job, Request, request_in};
use requested::print_requested;
use std::alloc::Global;
use std::env::{self, Env};
use std::io;
use std::process::ExitCode;
use std::thread::Threads;
use std::time::Clock;
use word_fault::WordFault;
use workload::Order;

// Compares the replies of an index and of a map over few keys.
fn print_brief<R: Threads + Clock + Sync + Print>(rt: &R, alloc: Alloc) -> Result<()> {
    print_load(rt, alloc, BRIEF, false)?;
    print_checked_beside(rt, alloc)?;
    let insertion = Insertion {
        order: Order::Scattered,
        load: fresh(1000, 64),
        record_max: RECORDS,
        workers: 1,
    };
    print_insertion(rt, alloc, insertion, false)?;
    let drain = Drain {
        order: Order::Scattered,
        load: fresh(1000, 64),
        workers: 1,
    };
    print_drain(rt, alloc, drain, false)?;
    print_counts(rt, alloc)
}

// Does what a request asks for.
fn print_request<R: Threads + Clock + Sync + Print>(
    rt: &R,
    global: Global,
    alloc: Alloc,
    request: &Request,
) -> Result<()> {
    match request.job {
        Job::Check => print_brief(rt, alloc),
        Job::Run => {
            print_requested(rt, alloc, request)?;
            print_bytes(rt, global, alloc, request)
        }
        Job::Bytes => print_bytes(rt, global, alloc, request),
        Job::Time => {
            print_load(rt, alloc, SMALL, true)?;
            print_load(rt, alloc, LARGE, true)
        }
        Job::Small => print_all_small(rt, alloc),
        Job::Insert => print_all_insertions(rt, alloc),
        Job::Drain => print_all_drains(rt, global, alloc),
        Job::Beside => print_besides(rt, alloc),
        Job::Hard => print_times(rt, alloc),
        Job::Picture => print_picture(rt, alloc, request),
    }
}

// Does what the words ask for, or says why they ask for nothing.
fn answer<R: Threads + Clock + Sync + Print + Eprint>(
    rt: &R,
    global: Global,
    words: &[&str],
) -> Result<ExitCode> {
    match request_in(global, words) {
        Ok(request) => {
            let alloc = Heap::new(global).leak(global)?;
            print_request(rt, global, alloc, &request)?;
            Ok(ExitCode::SUCCESS)
        }
        Err(fault) => refuse(rt, &fault),
    }
}

fn refuse<R: Print + Eprint>(rt: &R, fault: &WordFault) -> Result<ExitCode> {
    fault.print(rt)?;
    Ok(ExitCode::from(fault.status()))
}

// The words of the command line, the name of the program left out.
fn arguments<R: Env + AllocGlobal>(rt: &R) -> io::Result<Vec<String>> {
    let words = env::args(rt)?.skip(1).collect(rt.alloc())?;
    Ok(words)
}

fn main(rt: HostRuntime) -> Result<ExitCode> {
    let arguments = match arguments(&rt) {
        Ok(arguments) => arguments,
        Err(error) if error.kind() == io::ErrorKind::InvalidData => {
            return refuse(&rt, &WordFault::NotText);
        }
        Err(error) => return Err(error.into()),
    };
    let global = rt.alloc();
    let words = arguments
        .iter()
        .map(|word| word.as_str())
        .collect::<Vec<&str>>(global)?;
    answer(&rt, global, &words)
}
