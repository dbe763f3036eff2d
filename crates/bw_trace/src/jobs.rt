// Running a trace.
ghost use Rattle.std.specs.Prelude.{◌≡◌, ℕ, [], ◌++◌, ◌+◌, ◌<◌, List, IfOk, IfErr, IfSome, OnOk, IsErrOf, None, true};
ghost use Rattle.std.specs.Io.KnownBytes.{Appends, Consumes, IsAtEnd};
ghost use Rattle.bw_batch.specs.Outcomes.{outcome_of};
ghost use Rattle.bw_batch.specs.View.{contents_of, settings_of};
ghost use Rattle.bw_model.specs.Runs.{Outcome, Answers, left_by};
ghost use Rattle.bw_text.specs.Counts.{HasRisenBy};
ghost use Rattle.bw_trace.specs.Ends.{IsEndText};
ghost use Rattle.bw_text.specs.Faults.{IfLine, IsOfInput, IsOfWriting};
ghost use Rattle.bw_trace.specs.Running.{IsRun, left_by_run, refusal_in, summary_of};
ghost use Rattle.bw_text.specs.Sources.{ReadsOn};
ghost use Rattle.bw_trace.specs.Statuses.{status_of};
ghost use Rattle.bw_trace.specs.BatchTexts.{batch_text, batches_text};
ghost use Rattle.bw_text.specs.Traces.{Trace, trace_from, cut_trace_from, no_trace, faulty};
ghost use Rattle.bw_text.specs.Writing.{TakesFront};

use crate::endings::end_text;
use crate::summaries::Summary;
use bw_batch::{Done, Index, Op, OpenGate, Options, Refusal};
use bw_memory::Alloc;
use bw_text::{
    Inlet, Outlet, Source, TraceFault, print_refusal, print_replies, put_text, read_batch,
};
use std::thread::Threads;

/// What is done with a trace.
#[derive(Clone, Copy, Debug, PartialEq, Eq)]
pub enum Job {
    /// Prints the replies to each batch, or why it was refused.
    Run,
    /// Prints nothing of the batches. At the end it prints how many pairs the index holds, and the pairs in key order.
    Dump,
    /// Prints nothing of the batches. At the end it prints a line for each page of the tree on which the index stands, the
    /// leaves first: `leaf LOW HIGH PAIRS WRITES`, and `inner LEVEL LOW HIGH CHILDREN` for a page above them.
    Shape,
    /// Prints nothing of the batches. At the end it prints a picture of these pages, an SVG text.
    Picture,
}

/// Runs a trace on an empty index, batch by batch, with threads that `rt` starts. A batch's text is written before the
/// next line is parsed, and what the job prints at the end is written once the reader has told its end.
///
/// Its faults are those of `read_batch`, `Write`, and `Memory` where the index or a text finds none. A refused batch is
/// no fault: the summary counts it.
pub fn run_trace<T: Threads + Sync, R: Inlet, W: Outlet>(
    rt: &T,
    alloc: Alloc,
    source: &mut Source<R>,
    out: &mut W,
    options: Options,
    job: Job,
) -> Result<Summary, TraceFault>
    // At the end the reader told its end, what was read is a trace without a fault, and the texts of the outcomes of
    // its batches and of what these left were written.
    ensures done { IfOk result (λ summary. (read : List ℕ) × Consumes source.old.unread source.new.unread read
        × IsAtEnd source.new.unread
        × ((outcomes : List Outcome) × ((run : IsRun options.batch_max
        (trace_from source.old.place read) outcomes no_trace)
        × (summary ≡ summary_of outcomes) × ((end : List ℕ) × IsEndText job options.page_max (left_by_run run) end
        × Appends (W.contents out.old) (W.contents out.new) (batches_text job outcomes ++ end))))) }
    ensures ended { OnOk result (source.new.has_ended ≡ true) }
    // At a faulty line, it is the first, and the texts of the batches before it were written.
    ensures line { source.old.fault ≡ None →
        IfErr result (λ fault. IfLine fault (λ number cause. IfSome source.old.unread (λ all.
        (outcomes : List Outcome) × IsRun options.batch_max (trace_from source.old.place all) outcomes
        (faulty number cause)
        × Appends (W.contents out.old) (W.contents out.new) (batches_text job outcomes)))) }
    // Where the input failed or did not end, the texts of the batches that whole lines `go` ended were written.
    ensures cut { source.old.fault ≡ None → IfErr result (λ fault. IsOfInput fault →
        (read : List ℕ) × Consumes source.old.unread source.new.remaining read
        × ((outcomes : List Outcome) × IsRun options.batch_max (cut_trace_from source.old.place read) outcomes no_trace
        × Appends (W.contents out.old) (W.contents out.new) (batches_text job outcomes))) }
    // Out of memory, a front of the texts of the first batches was written.
    ensures memory { source.old.fault ≡ None → IsErrOf result TraceFault.Memory → IfSome source.old.unread (λ all.
        (outcomes : List Outcome) × ((rest : Trace)
        × IsRun options.batch_max (trace_from source.old.place all) outcomes rest)
        × TakesFront (W.contents out.old) (W.contents out.new) (batches_text job outcomes)) }
    ensures on { ReadsOn source.old source.new }
    ensures read { source.old.fault ≡ None → IsErrOf result TraceFault.Read →
        HasRisenBy 1 source.old.failures source.new.failures }
    ensures write { source.old.fault ≡ None → IsErrOf result TraceFault.Write →
        HasRisenBy 1 (W.failures out.old) (W.failures out.new) }
    ensures endless { source.old.fault ≡ None → IsErrOf result TraceFault.Endless →
        HasRisenBy source.old.turns source.old.calls source.new.calls }
{
    let mut index = Index::new(alloc, options)?;
    source.know_budget();
    let mut summary = Summary::default();
    while let Some(ops) = read_batch(source)? {
        let refusal = answer(rt, alloc, &mut index, out, &ops, job)?;
        summary.count(refusal);
    }
    print_end(alloc, &index, out, options.page_max(), job)?;
    Ok(summary)
}

// Runs a batch, prints what the job prints of it, and answers why it was refused, if it was.
fn answer<T: Threads + Sync, W: Outlet>(
    rt: &T,
    alloc: Alloc,
    index: &mut Index,
    out: &mut W,
    ops: &[Op],
    job: Job,
) -> Result<Option<Refusal>, TraceFault>
    ensures ok { IfOk result (λ refusal. (outcome : Outcome)
        × Answers (settings_of index.old).batch_max ops.now (contents_of index.old) outcome
        × (contents_of index.new ≡ left_by ops.now (contents_of index.old) outcome)
        × Appends (W.contents out.old) (W.contents out.new) (batch_text job outcome) × (refusal ≡ refusal_in outcome)) }
    ensures settings { settings_of index.new ≡ settings_of index.old }
    ensures none_failed { OnOk result (W.failures out.new ≡ W.failures out.old) }
    ensures memory { IsErrOf result TraceFault.Memory → (outcome : Outcome)
        × Answers (settings_of index.old).batch_max ops.now (contents_of index.old) outcome
        × TakesFront (W.contents out.old) (W.contents out.new) (batch_text job outcome) }
    ensures write { IsErrOf result TraceFault.Write → HasRisenBy 1 (W.failures out.old) (W.failures out.new) }
    ensures faults { IfErr result (λ fault. IsOfWriting fault) }
{
    let outcome = index.run(rt, ops, &OpenGate);
    print_outcome(alloc, out, &outcome, job)?;
    Ok(outcome.err())
}

// Prints what the job prints of a batch.
fn print_outcome<W: Outlet>(
    alloc: Alloc,
    out: &mut W,
    outcome: &Result<Done, Refusal>,
    job: Job,
) -> Result<(), TraceFault>
    ensures ok { OnOk result (Appends (W.contents out.old) (W.contents out.new)
        (batch_text job (outcome_of outcome.now))) }
    ensures none_failed { OnOk result (W.failures out.new ≡ W.failures out.old) }
    ensures memory { IsErrOf result TraceFault.Memory →
        TakesFront (W.contents out.old) (W.contents out.new) (batch_text job (outcome_of outcome.now)) }
    ensures write { IsErrOf result TraceFault.Write → HasRisenBy 1 (W.failures out.old) (W.failures out.new) }
    ensures faults { IfErr result (λ fault. IsOfWriting fault) }
{
    match job {
        Job::Dump | Job::Shape | Job::Picture => Ok(()),
        Job::Run => match outcome {
            Ok(done) => print_replies(alloc, out, done.replies.as_slice()),
            Err(refusal) => print_refusal(alloc, out, refusal),
        },
    }
}

// Prints what the job prints at the end. After `Memory` nothing of it was written.
fn print_end<W: Outlet>(
    alloc: Alloc,
    index: &Index,
    out: &mut W,
    page_max: u64,
    job: Job,
) -> Result<(), TraceFault>
    ensures ok { OnOk result ((end : List ℕ) × IsEndText job page_max (contents_of index.now) end
        × Appends (W.contents out.old) (W.contents out.new) end) }
    ensures none_failed { OnOk result (W.failures out.new ≡ W.failures out.old) }
    ensures memory { IsErrOf result TraceFault.Memory → Appends (W.contents out.old) (W.contents out.new) [] }
    ensures write { IsErrOf result TraceFault.Write → HasRisenBy 1 (W.failures out.old) (W.failures out.new) }
    ensures faults { IfErr result (λ fault. IsOfWriting fault) }
{
    let text = end_text(alloc, index, page_max, job)?;
    put_some(out, &text)?;
    Ok(())
}

// Writes a text, where there is one.
fn put_some<W: Outlet>(out: &mut W, text: &[u8]) -> Result<(), TraceFault>
    ensures ok { OnOk result (Appends (W.contents out.old) (W.contents out.new) text.now) }
    ensures none_failed { OnOk result (W.failures out.new ≡ W.failures out.old) }
    ensures write { IfErr result (λ fault. (fault ≡ TraceFault.Write)
        × HasRisenBy 1 (W.failures out.old) (W.failures out.new)) }
{
    match text {
        [] => Ok(()),
        _ => put_text(out, text),
    }
}

/// The exit status of a program that ran a trace: 0 where each batch was accepted, 4 where one was refused, 3 at a
/// faulty line, and 1 at any other fault.
pub fn status(outcome: &Result<Summary, TraceFault>) -> u8
    ensures { result ≡ status_of outcome.now }
{
    match outcome {
        Ok(summary) => {
            if summary.long == 0 && summary.memory == 0 {
                0
            } else {
                4
            }
        }
        Err(TraceFault::Line { .. }) => 3,
        Err(_) => 1,
    }
}
