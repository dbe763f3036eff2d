//! How long a post to a board takes, beside bare exchanges of std's atomic words.
//!
//! With no word it posts some records each way and prints how many were posted. With the word `time` it posts many, many times, and
//! prints the times in the middle and their ratios.
#![tactic(auto)]

ghost use Rattle.std.specs.Prelude.{◌≤◌, ◌^◌};

mod bare;
mod posting;

use anyhow::{Context, Result, bail};
use bw_memory::{Alloc, Heap};
use std::num::nearest_u64_to_f64;
use std::thread::Threads;
use std::time::{Clock, Duration};
use std::{env, fmt};

/// Records that a claim takes.
const PIECE: u64 = 64;

// How often each load is posted with `time`.
const ROUNDS: u64 = 31;

/// Whether one thread posts or four do, and how many records in all.
#[derive(Clone, Copy)]
struct Load {
    four: bool,
    records: u64,
}

// What is posted with no word.
const ALONE_BRIEF: Load = Load {
    four: false,
    records: 4096,
};

const FOUR_BRIEF: Load = Load {
    four: true,
    records: 4096,
};

// What is posted with `time`. Four threads need long enough to meet.
const ALONE_LONG: Load = Load {
    four: false,
    records: 262_144,
};

const FOUR_LONG: Load = Load {
    four: true,
    records: 2_097_152,
};

impl fmt::Display for Load {
    fn fmt<W: fmt::Write>(&self, f: &mut fmt::Formatter<W>) -> fmt::Result {
        let threads = if self.four {
            "four threads"
        } else {
            "one thread"
        };
        write!(f, "{threads}")
    }
}

/// A way to put records before a chain.
#[derive(Clone, Copy)]
enum Way {
    /// By `Board::post`.
    Board,
    /// By the same steps on std's atomic words: a load, then a store of the link and an exchange until one is done.
    Links,
    /// By a load, and exchanges until one is done.
    Heads,
}

/// The records that threads posted, and the exchanges that they lost.
#[derive(Clone, Copy, Default)]
struct Tally {
    posted: u64,
    lost: u64,
}

impl Tally {
    /// Counts a record that lost so many exchanges.
    fn count(&mut self, lost: u64) {
        self.posted = self.posted.saturating_add(1);
        self.lost = self.lost.saturating_add(lost);
    }

    fn and(self, other: Tally) -> Tally {
        Tally {
            posted: self.posted.saturating_add(other.posted),
            lost: self.lost.saturating_add(other.lost),
        }
    }
}

/// What came of a run, and the time that its threads took.
#[derive(Clone, Copy)]
struct Timed {
    tally: Tally,
    time: Duration,
}

impl Timed {
    /// Nanoseconds a record.
    fn nanoseconds(&self) -> f64 {
        self.time.as_secs_f64() * 1e9 / nearest_u64_to_f64(self.tally.posted)
    }

    /// Lost exchanges a record.
    fn lost_each(&self) -> f64 {
        nearest_u64_to_f64(self.tally.lost) / nearest_u64_to_f64(self.tally.posted)
    }
}

fn run<R: Threads + Clock + Sync>(rt: &R, alloc: Alloc, way: Way, load: Load) -> Result<Timed>
    requires { load.records ≤ 2 ^ 32 }
{
    match way {
        Way::Board => posting::run(rt, alloc, load),
        Way::Links => bare::run(rt, alloc, load, true),
        Way::Heads => bare::run(rt, alloc, load, false),
    }
}

/// The run in the middle, by its time. The shortest would be one whose threads hardly met.
fn middle(runs: &mut Vec<Timed, Alloc>) -> Result<Timed> {
    runs.sort_unstable_by_key(|run| run.time);
    runs.get(runs.len() / 2).copied().context("no run")
}

/// How many records were posted each way.
fn print_counts<R: Threads + Clock + Sync + Print>(rt: &R, alloc: Alloc, load: Load) -> Result<()>
    requires { load.records ≤ 2 ^ 32 }
{
    let board = run(rt, alloc, Way::Board, load)?.tally.posted;
    let links = run(rt, alloc, Way::Links, load)?.tally.posted;
    let heads = run(rt, alloc, Way::Heads, load)?.tally.posted;
    println!(rt; "{load}: {board} by posts, {links} by links and exchanges, {heads} by exchanges")?;
    Ok(())
}

/// The runs in the middle, one for each way.
struct Middles {
    board: Timed,
    links: Timed,
    heads: Timed,
}

// Posts a load each way in turn, and again.
fn timed_in_turn<R: Threads + Clock + Sync>(rt: &R, alloc: Alloc, load: Load) -> Result<Middles>
    requires { load.records ≤ 2 ^ 32 }
{
    let mut boards = Vec::new(alloc);
    let mut links = Vec::new(alloc);
    let mut heads = Vec::new(alloc);
    for _ in 0..ROUNDS {
        boards.push(run(rt, alloc, Way::Board, load)?)?;
        links.push(run(rt, alloc, Way::Links, load)?)?;
        heads.push(run(rt, alloc, Way::Heads, load)?)?;
    }
    Ok(Middles {
        board: middle(&mut boards)?,
        links: middle(&mut links)?,
        heads: middle(&mut heads)?,
    })
}

/// How long each way takes a record, and how much longer a post is.
fn print_times<R: Threads + Clock + Sync + Print>(rt: &R, alloc: Alloc, load: Load) -> Result<()>
    requires { load.records ≤ 2 ^ 32 }
{
    let Middles {
        board,
        links,
        heads,
    } = timed_in_turn(rt, alloc, load)?;
    let post = board.nanoseconds();
    println!(rt; "{load}, nanoseconds a record (lost exchanges a record):")?;
    println!(rt;
        "  post                 {post:7.1} ({:.2})",
        board.lost_each()
    )?;
    print_ratio(rt, "link and exchange", &links, post)?;
    print_ratio(rt, "exchange         ", &heads, post)
}

/// How long another way takes, and how much longer a post does.
fn print_ratio<R: Print>(rt: &R, way: &str, run: &Timed, post: f64) -> Result<()> {
    let time = run.nanoseconds();
    let lost = run.lost_each();
    println!(rt;
        "  {way}    {time:7.1} ({lost:.2}), post / this {:.2}",
        post / time
    )?;
    Ok(())
}

fn main(rt: HostRuntime) -> Result<()> {
    let alloc = Heap::new(rt.alloc()).leak(rt.alloc())?;
    let words = env::args(&rt)?.skip(1).collect::<Vec<String>>(rt.alloc())?;
    match words.as_slice() {
        [] => {
            print_counts(&rt, alloc, ALONE_BRIEF)?;
            print_counts(&rt, alloc, FOUR_BRIEF)
        }
        [word] if word.as_str() == "time" => {
            print_times(&rt, alloc, ALONE_LONG)?;
            print_times(&rt, alloc, FOUR_LONG)
        }
        _ => bail!("usage: bw_board_bench [time]"),
    }
}
