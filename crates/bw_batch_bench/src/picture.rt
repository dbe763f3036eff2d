//! What a request asks for at several values of one option, as a picture.

use crate::chart::{Column, print_chart};
use crate::request::{By, Request};
use crate::requested::run_requested;
use crate::runs::{Runs, cost_of};
use anyhow::Result;
use bw_memory::Alloc;
use std::fmt::{self, Display, Formatter, Write};
use std::thread::Threads;
use std::time::Clock;

// How many operations are timed for a column of a picture, at least.
const FEWEST: u64 = 8192;

/// What stands above a picture of a request.
#[derive(Clone, Copy)]
struct Heading {
    request: Request,
}

impl Display for Heading {
    fn fmt<W: Write>(&self, f: &mut Formatter<W>) -> fmt::Result {
        let Request {
            kind,
            keys,
            workers,
            batch,
            by,
            ..
        } = self.request;
        let words = kind.words();
        match by {
            By::Workers => write!(f, "{words}: {keys} keys, batches of {batch}"),
            By::Batch => write!(f, "{words}: {keys} keys, {workers} workers"),
            By::Keys => write!(f, "{words}: batches of {batch}, {workers} workers"),
        }
    }
}

/// Prints a picture of what a request asks for. Nothing is printed before all is timed.
pub fn print_picture<R: Threads + Clock + Sync + Print>(
    rt: &R,
    alloc: Alloc,
    request: &Request,
) -> Result<()> {
    let columns = columns(rt, alloc, request)?;
    let heading = Heading { request: *request };
    print_chart(rt, heading, request.by, &columns)
}

// Times what a request asks for at each value of a picture.
fn columns<R: Threads + Clock + Sync>(
    rt: &R,
    alloc: Alloc,
    request: &Request,
) -> Result<Vec<Column, Alloc>> {
    let mut columns = Vec::new(alloc);
    for value in request.by.values() {
        columns.push(column(rt, alloc, request, *value)?)?;
    }
    Ok(columns)
}

// What the batches of a request cost that has one of the values of a picture, by the batch in the middle.
fn column<R: Threads + Clock + Sync>(
    rt: &R,
    alloc: Alloc,
    request: &Request,
    value: u64,
) -> Result<Column> {
    let request = request.with_value(value).with_operations(FEWEST);
    let mut runs = Runs::new(alloc);
    run_requested(rt, alloc, &request, &mut runs)?;
    Ok(Column {
        value,
        index: cost_of(&mut runs.index, request.batch)?.middle,
        map: cost_of(&mut runs.map, request.batch)?.middle,
    })
}
