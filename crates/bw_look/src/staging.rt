// A staged batch.
use crate::words_before::WordsBefore;
use std::marker::Model;

/// A batch that was staged.
#[derive(Clone, Copy, Debug, PartialEq, Eq)]
pub struct Staged {
    /// The stamp of its first operation.
    pub base: u64,
    /// The mapping word of its first record. Those of the others follow.
    pub floor: u64,
    /// How many records it has, one for each of its writes.
    pub records: u64,
}

/// What a tree keeps of a staged batch.
#[derive(Drop)]
pub struct Stage {
    /// How many records there were before it.
    pub records: usize,
    /// How many stamps it takes.
    pub ops: u64,
    /// What stood before it, once other mapping words were adopted.
    pub before: Option<WordsBefore>,
}

impl Model for Stage {
    ghost use Rattle.bw_look.specs.Trees.{StageWords};

    ghost Value = { StageWords };

    ghost view = { λ s. record { records = s.records; ops = s.ops; before = s.before } };
}
