// What can be wrong with a trace.
use bw_key::Memory;
use std::alloc::{AllocError, AllocFailed};
use thiserror::Error;

/// What is wrong with a line. The tests are made in this order, from the line's first word to its last.
#[derive(Clone, Copy, Debug, PartialEq, Eq, Error)]
pub enum Cause {
    #[error("line longer than 8192 bytes")]
    LongLine,
    #[error("unknown word")]
    Verb,
    #[error("wrong number of words")]
    Words,
    #[error("badly spelled key")]
    KeyText,
    #[error("key longer than 64 bytes")]
    KeyLength,
    #[error("not a whole number up to 18446744073709551615")]
    Number,
    #[error("badly spelled value")]
    ValueText,
    #[error("value longer than 1024 bytes")]
    ValueLength,
}

/// Why a trace was not run to its end.
#[derive(Clone, Copy, Debug, PartialEq, Eq, Error)]
pub enum TraceFault {
    /// A read failed.
    #[error("cannot read")]
    Read,
    /// A write failed. How much went out is not known.
    #[error("cannot write")]
    Write,
    /// The line of this number, counted from 1, is the first that is no line of a trace.
    #[error("line {number}: {cause}")]
    Line { number: u64, cause: Cause },
    #[error("out of memory")]
    Memory,
    /// The reader was called as often as it may be, and did not come to its end.
    #[error("input does not end")]
    Endless,
}

impl From<Memory> for TraceFault {
    ghost use Rattle.std.specs.Prelude.{◌≡◌};
    ghost use Rattle.bw_text.specs.declared.faults.TraceFault.TheVariants.{Memory};

    ghost from_gives = { λ _ e. e ≡ Memory };

    fn from(_error: Memory) -> TraceFault {
        TraceFault::Memory
    }
}

impl From<AllocError> for TraceFault {
    ghost use Rattle.std.specs.Prelude.{◌≡◌};
    ghost use Rattle.bw_text.specs.declared.faults.TraceFault.TheVariants.{Memory};

    ghost from_gives = { λ _ e. e ≡ Memory };

    fn from(_error: AllocError) -> TraceFault {
        TraceFault::Memory
    }
}

impl<T: Drop> From<AllocFailed<T>> for TraceFault {
    ghost use Rattle.std.specs.Prelude.{◌≡◌};
    ghost use Rattle.bw_text.specs.declared.faults.TraceFault.TheVariants.{Memory};

    ghost from_gives = { λ _ e. e ≡ Memory };

    fn from(_error: AllocFailed<T>) -> TraceFault {
        TraceFault::Memory
    }
}
