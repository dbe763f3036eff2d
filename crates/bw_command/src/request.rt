// What the words of a command line ask for.
ghost use Rattle.std.specs.Prelude.{◌≡◌, IfOk, MatchResult, fold, map, option_map, Some, false};
ghost use Rattle.bw_command.specs.CommandLine.{Asks, IsFlag, IsMadeBy, JobWords, faults_in, file_of, file_rule, flag_rule, job_named, job_of, job_rule, limits_of, number_of, number_rule, number_rules, path_of, program_of};
ghost use Rattle.clap.specs.Words.{HasKind, app_of, found_of, rows_of, rule_of, with_rule};

use bw_batch::{OptionFault, Options};
use bw_trace::Job;
use clap::error::Error;
use clap::{Arg, ArgAction, ArgMatches, Command, value_parser};
use std::alloc::{AllocError, Global};
use std::env::{self, Env};
use std::io;

/// The values of the options, of which some may be out of their ranges.
#[derive(Clone, Copy, Debug, PartialEq, Eq)]
pub struct Limits {
    pub workers: u64,
    pub piece: u64,
    pub chain_max: u64,
    pub page_max: u64,
    pub page_min: u64,
    pub batch_max: u64,
    pub record_max: u64,
}

impl Limits {
    ghost use Rattle.std.specs.Prelude.{◌≡◌, MatchResult, None, Some};
    ghost use Rattle.bw_batch.specs.SettingFaults.{first_fault};
    ghost use Rattle.bw_command.specs.LimitSettings.{settings_of};

    /// The options with these values, or the first that is out of its range.
    pub fn options(&self) -> Result<Options, OptionFault>
        ensures { MatchResult result (λ options.
            (options ≡ settings_of self.now) × (first_fault (settings_of self.now) ≡ None))
            (λ fault. first_fault (settings_of self.now) ≡ Some fault) }
    {
        Options::new(
            self.workers,
            self.piece,
            self.chain_max,
            self.page_max,
            self.page_min,
            self.batch_max,
            self.record_max,
        )
    }
}

/// A job on a trace.
#[derive(Clone, Copy, Debug, PartialEq, Eq)]
pub struct Request<'a> {
    pub job: Job,
    pub limits: Limits,
    /// Whether a line at the end tells how much was run, and how fast.
    pub stats: bool,
    /// Whether workers consolidate leaves beside the posting of a batch.
    pub beside: bool,
    /// Whether each leaf that a batch wrote to is consolidated behind it.
    pub eager: bool,
    /// The path of the trace, None for standard input.
    pub file: Option<&'a str>,
}

static JOBS: [&str; 4] = ["run", "dump", "shape", "picture"];

const USAGE: &str = "bw_run run [OPTIONS] [FILE]
       bw_run dump [OPTIONS] [FILE]
       bw_run shape [OPTIONS] [FILE]
       bw_run picture [OPTIONS] [FILE]";

const ABOUT: &str = "Runs a trace of operations on an ordered index from keys to values.";

const AFTER: &str = "The jobs:
  run      prints the reply to each operation, batch by batch
  dump     prints at the end `contents N`, and the N pairs that the index holds, in key order
  shape    prints at the end a line for each page of the index, the leaves first:
             leaf LOW HIGH PAIRS WRITES     the pairs from LOW on and below HIGH, and how
                                            many writes lie over the leaf's base page
             inner LEVEL LOW HIGH CHILDREN  a page so many levels above the leaves
           A HIGH of * is no end.
  picture  writes at the end a picture of these pages to standard output, an SVG text

A trace has one operation on a line. `run` prints its reply, where w is the key's value:

                      does                                   prints: with w    with none
  upsert apple 7      puts the value 7 at the key apple      was w             new
  insert apple 7      puts it where the key has none         held w            inserted
  update apple 8      puts it where the key has one          was w             none
  swapif apple 8 9    puts 9 where the value is 8            was 8, or held w  none
  get apple           reads the value                        is w              none
  delete apple        removes the key                        was w             none
  scan apple pear 10  reads the first 10 pairs from apple on and below pear
  rscan apple * 10    reads the last 10 pairs from apple on, greatest key first
                      Both print `scan M`, and then M lines `key value`. An end of * is none.
  go                  ends a batch: it is run, and its replies are printed

Of a refused batch `run` prints `refused long OPS MOST` or `refused memory` alone.
A line that begins with # is a comment.

A key has 0 to 64 bytes. It is spelled by letters, digits, _, . and -, or by % and two
hexadecimal digits for each byte; % alone is the empty key. A value is a number up to
18446744073709551615. Behind a first line `bw 2` it has 0 to 1024 bytes, spelled as a key.

Try it:
  printf 'upsert apple 7\\nget apple\\n' | bw_run run
  bw_run picture trace > tree.svg

The status is 0 where all went well, 1 where reading, writing or memory failed, 2 for other
words, 3 at a faulty line, and 4 where a batch was refused.";

/// The words of the command line, the name of the program left out. The error is of the kind `OutOfMemory` or, where a
/// word is not UTF-8, `InvalidData`.
pub fn arguments<R: Env + AllocGlobal>(rt: &R) -> io::Result<Vec<String>> {
    let words = env::args(rt)?.skip(1).collect(rt.alloc())?;
    Ok(words)
}

/// What the words ask for, the name of the program left out. The error is a text for the user: what is wrong with the
/// words, or help or the version where they ask for it.
pub fn request_in<'a>(global: Global, words: &'a [&'a str]) -> Result<Request<'a>, Error>
    ensures { (jobs : JobWords) × MatchResult result (Asks jobs (map (λ w. w.now) words.now))
        (HasKind (faults_in jobs (map (λ w. w.now) words.now))) }
{
    let matches = program(global)?.try_get_matches_from(words)?;
    Ok(request_of(&matches))
}

// The request that the arguments' values make.
fn request_of<'a>(matches: &ArgMatches<'a>) -> Request<'a>
    ensures { IsMadeBy (rows_of (found_of matches.now)) result }
{
    Request {
        job: job_in(matches),
        limits: limits_in(matches),
        stats: flag_in(matches, "stats"),
        beside: flag_in(matches, "beside"),
        eager: flag_in(matches, "eager"),
        file: file_in(matches),
    }
}

fn job_in(matches: &ArgMatches<'_>) -> Job
    ensures { result ≡ job_of (rows_of (found_of matches.now)) }
{
    match matches.get_str("JOB") {
        Some(word) => job_named(word),
        None => Job::Run,
    }
}

fn job_named(word: &str) -> Job
    ensures { result ≡ job_named (Some word.now) }
{
    if word == "dump" {
        Job::Dump
    } else if word == "shape" {
        Job::Shape
    } else if word == "picture" {
        Job::Picture
    } else {
        Job::Run
    }
}

fn file_in<'a>(matches: &ArgMatches<'a>) -> Option<&'a str>
    ensures { option_map (λ path. path.now) result ≡ file_of (rows_of (found_of matches.now)) }
{
    file_named(matches.get_str("FILE")?)
}

fn file_named(word: &str) -> Option<&str>
    ensures { option_map (λ path. path.now) result ≡ path_of (Some word.now) }
{
    if word == "-" { None } else { Some(word) }
}

fn limits_in(matches: &ArgMatches<'_>) -> Limits
    ensures { result ≡ limits_of (rows_of (found_of matches.now)) }
{
    Limits {
        workers: number_in(matches, "workers"),
        piece: number_in(matches, "piece"),
        chain_max: number_in(matches, "chain"),
        page_max: number_in(matches, "page-max"),
        page_min: number_in(matches, "page-min"),
        batch_max: number_in(matches, "batch-max"),
        record_max: number_in(matches, "record-max"),
    }
}

fn flag_in(matches: &ArgMatches<'_>, id: &str) -> bool
    ensures { IsFlag id.now (rows_of (found_of matches.now)) result }
{
    matches.get_flag(id)
}

// Each option has a default, so that none is missing; a missing one would be 0.
fn number_in(matches: &ArgMatches<'_>, id: &str) -> u64
    ensures { result ≡ number_of id.now (rows_of (found_of matches.now)) }
{
    matches.get_one::<u64>(id).unwrap_or(0)
}

// The command line as clap knows it.
fn program<'a>(global: Global) -> Result<Command<'a>, AllocError>
    ensures { IfOk result (λ command. (jobs : JobWords) × (app_of command ≡ program_of jobs)) }
{
    let stats = "Tell on standard error how much was run, and how fast";
    let beside =
        "Let workers consolidate leaves before they post: less tidying behind a batch, and more work in all";
    let eager =
        "Consolidate each leaf that a batch wrote to behind it: may pay for many scans, or over few keys";
    let command = Command::new(global, "bw_run")
        .about(ABOUT)
        .after_help(AFTER)
        .version("0.1.0")
        .override_usage(USAGE)
        .no_binary_name(true)
        .arg(job_argument(global))?
        .arg(file_argument(global))?
        .arg(flag(global, "stats", stats))?
        .arg(flag(global, "beside", beside))?
        .arg(flag(global, "eager", eager))?;
    with_limits(global, command)
}

fn job_argument<'a>(global: Global) -> Arg<'a>
    ensures rule { (jobs : JobWords) × (rule_of result ≡ job_rule jobs) }
    ensures local { result.global ≡ false }
{
    Arg::new(global, "JOB")
        .required(true)
        .value_parser(JOBS.as_slice())
        .help(
            "What is printed: the replies, what the index holds at the end, its pages, or a picture of them",
        )
}

fn file_argument<'a>(global: Global) -> Arg<'a>
    ensures rule { rule_of result ≡ file_rule }
    ensures local { result.global ≡ false }
{
    Arg::new(global, "FILE")
        .default_value("-")
        .help("The trace; - is standard input")
}

fn with_limits<'a>(global: Global, command: Command<'a>) -> Result<Command<'a>, AllocError>
    ensures { IfOk result (λ with. app_of with ≡ fold with_rule (app_of command.entry) number_rules) }
{
    let workers =
        "How many threads find the leaves of a batch, post, answer and consolidate, 1 to 64";
    let piece = "How many writes a worker takes at once, 1 to 4096";
    let chain = "How many writes lie over a leaf's base page until it is consolidated, 1 to 1024";
    let page_max = "Above how many entries a page is split, 4 to 4096";
    let page_min = "Below how many entries a page is merged, 0 to half of page-max";
    let batch_max = "How many operations a batch may have, 1 to 65536";
    let record_max =
        "How many records are kept until a sweep consolidates all, batch-max to 16777216";
    command
        .arg(number(global, "workers", "4", workers))?
        .arg(number(global, "piece", "64", piece))?
        .arg(number(global, "chain", "8", chain))?
        .arg(number(global, "page-max", "64", page_max))?
        .arg(number(global, "page-min", "16", page_min))?
        .arg(number(global, "batch-max", "65536", batch_max))?
        .arg(number(global, "record-max", "1048576", record_max))
}

// An option that has no value.
fn flag<'a>(global: Global, id: &'a str, help: &'a str) -> Arg<'a>
    ensures rule { rule_of result ≡ flag_rule id.now }
    ensures local { result.global ≡ false }
{
    Arg::new(global, id)
        .long(id)
        .action(ArgAction::SetTrue)
        .help(help)
}

// An option whose value is a number.
fn number<'a>(global: Global, id: &'a str, default: &'a str, help: &'a str) -> Arg<'a>
    ensures rule { rule_of result ≡ number_rule id.now default.now }
    ensures local { result.global ≡ false }
{
    Arg::new(global, id)
        .long(id)
        .value_name("N")
        .value_parser(value_parser!(u64))
        .default_value(default)
        .help(help)
}
