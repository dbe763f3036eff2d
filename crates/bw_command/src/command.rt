// The command line: what its words ask for is done, and the message and the status at the end.
ghost use Rattle.std.specs.Prelude.{◌≡◌, ◌⊎◌, ◌≤◌, IfOk, IfErr, IfSome, IfNone, IsErrOf, map};
ghost use Rattle.bw_batch.specs.SettingFaults.{first_fault};
ghost use Rattle.bw_command.specs.Commands.{IsCommandOutcome};
ghost use Rattle.bw_command.specs.CommandLine.{JobWords, status_for};
ghost use Rattle.bw_command.specs.Jobs.{IsCut, IsDone, IsFaulty, IsJobStatus, IsOutOfMemory, IsJobOutcome};
ghost use Rattle.bw_command.specs.LimitSettings.{settings_of};
ghost use Rattle.bw_text.specs.Counts.{HasRisenBy};
ghost use Rattle.bw_text.specs.Faults.{IfLine, IsOfInput};
ghost use Rattle.clap.specs.Words.{kind_of};

use crate::counting::{Counting, Operations, Tally, no_operations};
use crate::messages::{Stats, no_memory, report};
use crate::progress::{Progress, Showing, Terminal};
use crate::request::{Request, request_in};
use bw_batch::Options;
use bw_memory::Alloc;
use bw_trace::{FromRead, Inlet, Job, Outlet, Source, Summary, TraceFault, run_trace, status};
use clap::error::{Error, ErrorKind};
use std::alloc::Global;
use std::fs::OpenFile;
use std::rt::Files;
use std::thread::Threads;
use std::time::{Clock, Duration, Instant};
use std::{fs, io};

/// Does what the words of a command line ask for, the name of the program left out: `run`, `dump`, `shape` and `picture`
/// with their options and the path of a trace, `--help` and `--version`. The path `-`, and none, is `input`. Texts go to
/// `output`, and a message to `errors`: one line, but for other words, of which several lines tell. `--stats` has a line
/// on `errors` too, where the trace was read to its end: its batches and operations, how many batches were refused, the
/// seconds that the whole took by the clock, and operations a second. Without a clock it ends before the seconds.
///
/// `terminal` is where messages go, if that is a terminal: while a long file is read a line there tells how much of it
/// was run, which is cleared at the end. A job that prints replies to a terminal shows none.
///
/// `turns` is how often a trace is read at the most. The answer is the exit status: 0 where each batch was accepted and
/// where help or the version was asked for, 1 at a fault of reading, writing or memory and where the input doesn't end,
/// 2 for other words and for an option out of its range, 3 at a faulty line, and 4 where the trace was read to its end
/// and a batch was refused. Options are tested before a file is opened. A message that can't be written leaves the
/// status as it is.
pub fn run_words<
    'a,
    F: Files + AllocGlobal + Threads + Clock + Sync,
    R: Inlet,
    W: Outlet,
    E: Outlet,
    P: Outlet + Drop,
>(
    rt: &F,
    alloc: Alloc,
    words: &'a [&'a str],
    input: R,
    output: &mut W,
    errors: &mut E,
    terminal: Option<Terminal<P>>,
    turns: u64,
) -> u8
    ensures answers { (jobs : JobWords) × IsCommandOutcome result jobs (map (λ w. w.now) words.now) (R.remaining input)
        (W.contents output.old) (W.contents output.new)
        (W.failures output.old) (W.failures output.new) }
    ensures most { result ≤ 4 }
{
    match request_in(rt.alloc(), words) {
        Ok(request) => run_request(rt, alloc, &request, input, output, errors, terminal, turns),
        Err(error) => show(rt.alloc(), &error, output, errors),
    }
}

// Does a job.
fn run_request<
    F: Files + AllocGlobal + Threads + Clock + Sync,
    R: Inlet,
    W: Outlet,
    E: Outlet,
    P: Outlet + Drop,
>(
    rt: &F,
    alloc: Alloc,
    request: &Request<'_>,
    input: R,
    output: &mut W,
    errors: &mut E,
    terminal: Option<Terminal<P>>,
    turns: u64,
) -> u8
    ensures limits { IfSome (first_fault (settings_of request.now.limits)) (λ _. result ≡ 2) }
    ensures job { IfNone (first_fault (settings_of request.now.limits)) (IsJobStatus result) }
    ensures input { IfNone (first_fault (settings_of request.now.limits)) (IfNone request.now.file
        (IsJobOutcome result (settings_of request.now.limits) request.now.job (R.remaining input)
        (W.contents output.old) (W.contents output.new)
        (W.failures output.old) (W.failures output.new))) }
    ensures unwritten { result ≡ 2 → W.contents output.new ≡ W.contents output.old }
    ensures most { result ≤ 4 }
{
    let options = match request.limits.options() {
        Ok(options) => options
            .with_beside(request.beside)
            .with_eager(request.eager),
        Err(fault) => {
            report(alloc, errors, fault);
            return 2;
        }
    };
    let Some(path) = request.file else {
        return run_input(rt, alloc, input, output, errors, options, request, turns);
    };
    match fs::open(rt, path) {
        Ok(file) => {
            let writer = match terminal {
                Some(terminal) => terminal.writer_for(request.job),
                None => None,
            };
            let progress = Progress::new(rt.alloc(), writer, size_of(&file));
            let input = Showing::new(FromRead::new(file), progress);
            run_input(rt, alloc, input, output, errors, options, request, turns)
        }
        Err(_) => {
            report(alloc, errors, TraceFault::Read);
            1
        }
    }
}

// How many bytes a file has, where the system tells: of a pipe it tells none.
fn size_of<F: OpenFile>(file: &F) -> Option<u64> {
    let size = file.metadata().ok()?.len();
    if size == 0 { None } else { Some(size) }
}

// Does a job on a trace that is read from an input, and reports its fault, or what it was where that is asked for.
fn run_input<F: AllocGlobal + Threads + Clock + Sync, R: Inlet, W: Outlet, E: Outlet>(
    rt: &F,
    alloc: Alloc,
    input: R,
    output: &mut W,
    errors: &mut E,
    options: Options,
    request: &Request<'_>,
    turns: u64,
) -> u8
    ensures { IsJobOutcome result options request.now.job (R.remaining input)
        (W.contents output.old) (W.contents output.new)
        (W.failures output.old) (W.failures output.new) }
{
    if request.stats
        && let Some(counts) = no_operations(rt.alloc())
    {
        return run_told(
            rt,
            alloc,
            input,
            output,
            errors,
            options,
            request.job,
            turns,
            counts,
        );
    }
    let outcome = run(rt, alloc, input, output, options, request.job, turns);
    if let Err(fault) = outcome {
        report(alloc, errors, fault);
    }
    status(&outcome)
}

// Does the same, and tells how much was run and how fast.
fn run_told<F: Threads + Clock + Sync, R: Inlet, W: Outlet, E: Outlet>(
    rt: &F,
    alloc: Alloc,
    input: R,
    output: &mut W,
    errors: &mut E,
    options: Options,
    job: Job,
    turns: u64,
    counts: (Operations, Operations),
) -> u8
    ensures { IsJobOutcome result options job (R.remaining input) (W.contents output.old) (W.contents output.new)
        (W.failures output.old) (W.failures output.new) }
{
    let (operations, shared) = counts;
    let input = Counting {
        reader: input,
        tally: Tally::new(),
        operations: shared,
    };
    let start = Instant::now(rt);
    let outcome = run(rt, alloc, input, output, options, job, turns);
    match outcome {
        Ok(summary) => {
            let stats = Stats {
                summary,
                operations: operations.get(),
                time: time_since(rt, start),
            };
            report(alloc, errors, stats);
        }
        Err(fault) => report(alloc, errors, fault),
    }
    status(&outcome)
}

// The time since a start, where the clock told both.
fn time_since<F: Clock>(rt: &F, start: io::Result<Instant>) -> Option<Duration> {
    start.ok()?.elapsed(rt).ok()
}

fn run<F: Threads + Sync, R: Inlet, W: Outlet>(
    rt: &F,
    alloc: Alloc,
    input: R,
    output: &mut W,
    options: Options,
    job: Job,
    turns: u64,
) -> Result<Summary, TraceFault>
    ensures done { IfOk result (λ summary. IfSome (R.remaining input)
        (λ bytes. IsDone options job bytes (W.contents output.old) (W.contents output.new) summary)) }
    ensures line { IfErr result (λ fault. IfLine fault (λ number cause. IfSome (R.remaining input) (λ bytes.
        IsFaulty options job bytes (W.contents output.old) (W.contents output.new) number cause))) }
    ensures cut { IfErr result (λ fault. IsOfInput fault →
        IfSome (R.remaining input) (λ bytes. IsCut options job bytes (W.contents output.old) (W.contents output.new))) }
    ensures memory { IsErrOf result TraceFault.Memory →
        IfSome (R.remaining input) (λ bytes. IsOutOfMemory options job bytes (W.contents output.old)
        (W.contents output.new)) }
    ensures write { IsErrOf result TraceFault.Write → HasRisenBy 1 (W.failures output.old) (W.failures output.new) }
{
    let mut source = Source::new(alloc, input, turns)?;
    run_trace(rt, alloc, &mut source, output, options, job)
}

// Shows a text of clap's: help and the version as an output, and what is wrong with the words as a message.
fn show<W: Outlet, E: Outlet>(global: Global, error: &Error, output: &mut W, errors: &mut E) -> u8
    ensures memory { kind_of error.now ≡ ErrorKind.OutOfMemory → (result ≡ 1)
        × (W.contents output.new ≡ W.contents output.old) }
    ensures shown { (result ≡ 1) ⊎ (result ≡ status_for (kind_of error.now)) }
    ensures unwritten { result ≡ 2 → W.contents output.new ≡ W.contents output.old }
    ensures most { result ≤ 2 }
{
    if error.kind() == ErrorKind::OutOfMemory {
        return no_memory(errors);
    }
    let Ok(text) = format!(in global; "{error}") else {
        return no_memory(errors);
    };
    if error.use_stderr() {
        let _ = errors.put(text.as_str().as_bytes());
        return 2;
    }
    match output.put(text.as_str().as_bytes()) {
        Ok(()) => 0,
        Err(_) => {
            let _ = errors.put(b"bw_run: cannot write\n");
            1
        }
    }
}
