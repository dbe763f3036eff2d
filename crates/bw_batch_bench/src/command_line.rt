//! The command line as clap knows it.

use crate::load::BATCH;
use clap::builder::ValueParser;
use clap::{Arg, ArgAction, Command, value_parser};
use std::alloc::{AllocError, Global};

static JOBS: [&str; 10] = [
    "check", "run", "bytes", "time", "small", "insert", "drain", "beside", "hard", "picture",
];

static BYS: [&str; 3] = ["workers", "batch", "keys"];

static KINDS: [&str; 4] = ["gets", "upserts", "scans", "new-keys"];

// So many keys take some 4.5 GB of the index and the map together.
const KEYS_MAX: u64 = 1 << 24;

// As many as an index may have.
const WORKERS_MAX: u64 = 64;

// The times of so many batches take 32 MB.
const BATCHES_MAX: u64 = 1 << 20;

const AFTER: &str = "The jobs:
  check   compares the replies of an index and of a map over few keys, and times nothing
  run     times the batches that the options describe, and then does what `bytes` does
  bytes   prints how many bytes a key an index and a map of so many keys have in use
  time    times all kinds of batches of 65536, over 10000 keys and 1000000, with 1, 2 and 4 workers
  small   times batches of 1, 8, 64 and 1024 gets, and of gets and upserts
  insert  times an empty index and an empty map that get 1048576 keys, with 1 and 4 workers
  drain   times an index and a map of 1048576 keys that lose them all, with 1 and 4 workers, and
          prints what bytes they have in use then
  beside  times batches of gets and upserts on an index alone, without and with --beside, over 10000
          keys and 1000000, uniform and skewed, with 1, 2 and 4 workers
  hard    times batches of 32768 and of 65536 operations of the kinds that cost the square of their
          operations where an index doesn't see to it, by one worker, and prints the ratio
  picture writes a picture of times to standard output, an SVG text: what `run` times with 1, 2
          and 4 workers, by batches of 1, 8, 64, 1024 and 65536 operations, or over 10000, 100000
          and 1000000 keys, as --by says; of small batches as many as have 8192 operations

--keys, --workers, --beside and --eager are read by `run`, `bytes` and `picture`, --kind, --skewed,
--batch, --batches and --seed by `run` and `picture`, and --by by `picture`, which doesn't read the option
that --by names. An option that isn't read is refused.

The kinds: gets; upserts, half of them gets; scans, of 32 pairs, half of them upserts; new-keys, upserts of
keys that are new, one to nineteen such scans.

16777216 keys take some 4.5 GB of memory, of which the map has most.

The status is 0 where all went well, 1 where memory, a thread, the clock or writing failed, and 2 for
other words.";

/// The command line.
pub fn program<'a>(global: Global) -> Result<Command<'a>, AllocError> {
    let command = Command::new(global, "bw_batch_bench")
        .about("Times batches on an index of many leaves beside an ordered map.")
        .after_help(AFTER)
        .no_binary_name(true)
        .arg(job_argument(global))?
        .arg(kind_option(global))?;
    with_numbers(global, with_flags(global, command)?)?.arg(by_option(global))
}

fn with_flags<'a>(global: Global, command: Command<'a>) -> Result<Command<'a>, AllocError> {
    let skewed = "Draw some keys more often than others, as by Zipf's law";
    let beside = "Consolidate leaves beside the posting of a batch";
    let eager = "Consolidate each leaf that a batch wrote to behind it";
    command
        .arg(flag(global, "skewed", skewed))?
        .arg(flag(global, "beside", beside))?
        .arg(flag(global, "eager", eager))
}

fn job_argument<'a>(global: Global) -> Arg<'a> {
    Arg::new(global, "JOB")
        .default_value("check")
        .value_parser(JOBS.as_slice())
        .help("What is done")
}

fn kind_option<'a>(global: Global) -> Arg<'a> {
    option(global, "kind", "gets")
        .value_parser(KINDS.as_slice())
        .help("What a batch is made of")
}

fn by_option<'a>(global: Global) -> Arg<'a> {
    option(global, "by", "workers")
        .value_parser(BYS.as_slice())
        .help("What has several values in a picture")
}

fn with_numbers<'a>(global: Global, command: Command<'a>) -> Result<Command<'a>, AllocError> {
    let keys = "How many keys there are, 1 to 16777216";
    let workers = "How many workers the index has, 1 to 64";
    let batch = "How many operations a batch has, 1 to 65536";
    let batches = "How many batches are timed, 1 to 1048576";
    command
        .arg(number(global, "keys", "1000000", KEYS_MAX, keys))?
        .arg(number(global, "workers", "1", WORKERS_MAX, workers))?
        .arg(number(global, "batch", "65536", BATCH, batch))?
        .arg(number(global, "batches", "15", BATCHES_MAX, batches))?
        .arg(seed_option(global))
}

// Any number of 64 bits.
fn seed_option<'a>(global: Global) -> Arg<'a> {
    option(global, "seed", "20130408")
        .value_name("N")
        .value_parser(value_parser!(u64))
        .help("Where drawn numbers begin, any number up to 18446744073709551615")
}

// An option whose value is a number from 1 on.
fn number<'a>(
    global: Global,
    name: &'a str,
    default: &'a str,
    most: u64,
    help: &'a str,
) -> Arg<'a> {
    option(global, name, default)
        .value_name("N")
        .value_parser(ValueParser::unsigned(1, most))
        .help(help)
}

// An option that has a value.
fn option<'a>(global: Global, name: &'a str, default: &'a str) -> Arg<'a> {
    Arg::new(global, name).long(name).default_value(default)
}

// An option that has no value.
fn flag<'a>(global: Global, name: &'a str, help: &'a str) -> Arg<'a> {
    Arg::new(global, name)
        .long(name)
        .action(ArgAction::SetTrue)
        .help(help)
}
