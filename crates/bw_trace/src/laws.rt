//! The law of runs. It has an empty body: its contract is the law.
ghost use Rattle.bw_trace.specs.Determined.{TextsAreDetermined};

/// Two runs of one trace, with the same most operations of a batch and the same job, print the same where none of their
/// batches was refused as out of memory.
pub fn texts_are_determined()
    ensures { TextsAreDetermined }
{}
