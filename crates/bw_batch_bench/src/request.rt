//! What the words of the command line ask for.
ghost use Rattle.std.specs.Prelude.{◌<◌};

use crate::command_line::program;
use crate::load::{BATCH, Load};
use crate::rivals::options_of;
use crate::word_fault::{Unread, WordFault};
use crate::workload::{Draw, Kind};
use anyhow::Result;
use bw_batch::Options;
use clap::ArgMatches;
use clap::parser::ValueSource;
use std::alloc::Global;

/// What is done.
#[derive(Clone, Copy, PartialEq, Eq)]
pub enum Job {
    Check,
    Run,
    Bytes,
    Time,
    Small,
    Insert,
    Drain,
    Beside,
    Hard,
    Picture,
}

impl Job {
    /// Its word on the command line.
    pub fn word(self) -> &'static str {
        match self {
            Job::Check => "check",
            Job::Run => "run",
            Job::Bytes => "bytes",
            Job::Time => "time",
            Job::Small => "small",
            Job::Insert => "insert",
            Job::Drain => "drain",
            Job::Beside => "beside",
            Job::Hard => "hard",
            Job::Picture => "picture",
        }
    }

    // Whether it does something else where the option says something else.
    fn reads(self, setting: Setting) -> bool {
        match setting {
            Setting::Keys | Setting::Workers | Setting::Beside | Setting::Eager => {
                self == Job::Run || self == Job::Bytes || self == Job::Picture
            }
            Setting::Kind | Setting::Skewed | Setting::Batch | Setting::Batches | Setting::Seed =>
                self == Job::Run || self == Job::Picture,
            Setting::By => self == Job::Picture,
        }
    }
}

/// An option.
#[derive(Clone, Copy, PartialEq, Eq)]
pub enum Setting {
    Kind,
    Skewed,
    Beside,
    Eager,
    Keys,
    Workers,
    Batch,
    Batches,
    Seed,
    By,
}

static SETTINGS: [Setting; 10] = [
    Setting::Kind,
    Setting::Skewed,
    Setting::Beside,
    Setting::Eager,
    Setting::Keys,
    Setting::Workers,
    Setting::Batch,
    Setting::Batches,
    Setting::Seed,
    Setting::By,
];

impl Setting {
    /// Its name behind `--`.
    pub fn name(self) -> &'static str {
        match self {
            Setting::Kind => "kind",
            Setting::Skewed => "skewed",
            Setting::Beside => "beside",
            Setting::Eager => "eager",
            Setting::Keys => "keys",
            Setting::Workers => "workers",
            Setting::Batch => "batch",
            Setting::Batches => "batches",
            Setting::Seed => "seed",
            Setting::By => "by",
        }
    }
}

/// What has several values in a picture.
#[derive(Clone, Copy, PartialEq, Eq)]
pub enum By {
    Workers,
    Batch,
    Keys,
}

impl By {
    /// Its words in the picture.
    pub fn words(self) -> &'static str {
        match self {
            By::Workers => "workers",
            By::Batch => "operations of a batch",
            By::Keys => "keys",
        }
    }

    /// Its values, from left to right.
    pub fn values(self) -> &'static [u64] {
        match self {
            By::Workers => &WORKERS,
            By::Batch => &SIZES,
            By::Keys => &KEYS,
        }
    }

    /// The option that says it where it has one value.
    pub fn setting(self) -> Setting {
        match self {
            By::Workers => Setting::Workers,
            By::Batch => Setting::Batch,
            By::Keys => Setting::Keys,
        }
    }
}

static WORKERS: [u64; 3] = [1, 2, 4];

static SIZES: [u64; 5] = [1, 8, 64, 1024, 65_536];

static KEYS: [u64; 3] = [10_000, 100_000, 1_000_000];

/// A job, and what `run`, `bytes` and `picture` are told.
#[derive(Clone, Copy)]
pub struct Request {
    pub job: Job,
    pub kind: Kind,
    pub draw: Draw,
    pub beside: bool,
    pub eager: bool,
    pub keys: u64,
    pub workers: u64,
    pub batch: u64,
    pub batches: u64,
    pub seed: u64,
    pub by: By,
}

impl Request {
    /// The options of the index.
    pub fn options(&self) -> Result<Options> {
        let options = options_of(self.workers)?;
        Ok(options.with_beside(self.beside).with_eager(self.eager))
    }

    /// The same with another value of what has several in a picture.
    pub fn with_value(&self, value: u64) -> Request {
        match self.by {
            By::Workers => Request {
                workers: value,
                ..*self
            },
            By::Batch => Request {
                batch: value,
                ..*self
            },
            By::Keys => Request {
                keys: value,
                ..*self
            },
        }
    }

    /// The same with so many batches, where it has fewer, that they have so many operations.
    pub fn with_operations(&self, operations: u64) -> Request {
        let enough = operations.checked_div(self.batch).unwrap_or(0);
        Request {
            batches: self.batches.max(enough),
            ..*self
        }
    }

    // Whether an option is read for it.
    fn check_read(&self, setting: Setting) -> Result<(), Unread> {
        let job = self.job;
        if !job.reads(setting) {
            return Err(Unread::ByJob { setting, job });
        }
        if job == Job::Picture && setting == self.by.setting() {
            return Err(Unread::ByPicture { setting });
        }
        Ok(())
    }

    /// The batches that it asks for. The command line takes no number that is changed here.
    pub fn load(&self) -> Load
        ensures { 0 < result.keys }
    {
        Load {
            keys: self.keys.max(1),
            draw: self.draw,
            operations: self.batch.min(BATCH),
            rounds: self.batches,
        }
    }
}

/// What the words ask for, the name of the program left out.
pub fn request_in(global: Global, words: &[&str]) -> Result<Request, WordFault> {
    let matches = program(global)?.try_get_matches_from(words)?;
    Ok(read(&matches)?)
}

// What the arguments' values ask for, or the first option among the words that isn't read.
fn read(matches: &ArgMatches<'_>) -> Result<Request, Unread> {
    let request = request_of(matches);
    for setting in &SETTINGS {
        if is_given(matches, *setting) {
            request.check_read(*setting)?;
        }
    }
    Ok(request)
}

// Whether an option stands among the words.
fn is_given(matches: &ArgMatches<'_>, setting: Setting) -> bool {
    matches.value_source(setting.name()) == Some(ValueSource::CommandLine)
}

fn request_of(matches: &ArgMatches<'_>) -> Request {
    Request {
        job: job_named(matches.get_str("JOB")),
        kind: kind_named(matches.get_str("kind")),
        draw: draw_of(matches.get_flag("skewed")),
        beside: matches.get_flag("beside"),
        eager: matches.get_flag("eager"),
        keys: number_in(matches, "keys"),
        workers: number_in(matches, "workers"),
        batch: number_in(matches, "batch"),
        batches: number_in(matches, "batches"),
        seed: number_in(matches, "seed"),
        by: by_named(matches.get_str("by")),
    }
}

fn job_named(word: Option<&str>) -> Job {
    match word {
        Some("run") => Job::Run,
        Some("bytes") => Job::Bytes,
        Some("time") => Job::Time,
        Some("small") => Job::Small,
        Some("insert") => Job::Insert,
        Some("drain") => Job::Drain,
        Some("beside") => Job::Beside,
        Some("hard") => Job::Hard,
        Some("picture") => Job::Picture,
        _ => Job::Check,
    }
}

fn kind_named(word: Option<&str>) -> Kind {
    match word {
        Some("upserts") => Kind::GetsAndUpserts,
        Some("scans") => Kind::ScansAndUpserts,
        Some("new-keys") => Kind::ScansAndNewKeys,
        _ => Kind::Gets,
    }
}

fn draw_of(is_skewed: bool) -> Draw {
    match is_skewed {
        true => Draw::Skewed,
        false => Draw::Uniform,
    }
}

fn by_named(word: Option<&str>) -> By {
    match word {
        Some("batch") => By::Batch,
        Some("keys") => By::Keys,
        _ => By::Workers,
    }
}

// Each option has a default, so that none is missing; a missing one would be 0.
fn number_in(matches: &ArgMatches<'_>, id: &str) -> u64 {
    matches.get_one::<u64>(id).unwrap_or(0)
}
