// What becomes of a batch.
use bw_key::Memory;
use thiserror::Error;

/// Why a batch was refused. A refused batch changes nothing.
#[derive(Clone, Copy, Debug, PartialEq, Eq, Error)]
pub enum Refusal {
    /// It has `ops` operations, and a batch may have `most`.
    #[error("a batch of {ops} operations, of which there may be {most}")]
    TooLong { ops: u64, most: u64 },
    #[error("out of memory")]
    Memory,
}

impl From<Memory> for Refusal {
    ghost use Rattle.std.specs.Prelude.{◌≡◌};
    ghost use Rattle.bw_model.specs.declared.outcomes.Refusal.TheVariants.{Memory};

    ghost from_gives = { λ _ e. e ≡ Memory };

    fn from(_error: Memory) -> Refusal {
        Refusal::Memory
    }
}
