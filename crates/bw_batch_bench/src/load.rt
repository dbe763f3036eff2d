//! How many keys there are, and the batches that are run over them.
ghost use Rattle.std.specs.Prelude.{◌≡◌, ◌<◌};

use crate::workload::Draw;

/// Operations of the longest batch.
pub const BATCH: u64 = 65_536;

/// Where drawn numbers begin.
pub const SEED: u64 = 20130408;

/// How many keys there are, how they are drawn, how many operations a batch has, and how many batches of a kind are run.
#[derive(Clone, Copy)]
pub struct Load {
    pub keys: u64,
    pub draw: Draw,
    pub operations: u64,
    pub rounds: u64,
}

/// What is run with no word.
pub const BRIEF: Load = Load {
    keys: 1000,
    draw: Draw::Uniform,
    operations: 2048,
    rounds: 3,
};

/// Few keys.
pub const SMALL: Load = Load {
    keys: 10_000,
    draw: Draw::Uniform,
    operations: BATCH,
    rounds: 15,
};

/// Many keys.
pub const LARGE: Load = Load {
    keys: 1_000_000,
    draw: Draw::Uniform,
    operations: BATCH,
    rounds: 15,
};

/// So many keys, once each, by batches of so many.
pub fn fresh(keys: u64, operations: u64) -> Load
    requires { 0 < operations }
    ensures { result.operations ≡ operations }
{
    Load {
        keys,
        draw: Draw::Uniform,
        operations,
        rounds: keys.div_ceil(operations),
    }
}
