// What became of the batches of a trace.
ghost use Rattle.std.specs.Prelude.{◌≡◌, ◌+◌, ◌<◌, ◌≤◌, ◌^◌, if◌then◌else◌};

use bw_batch::Refusal;

/// How many batches were read, and how many of them were refused, for their length and where memory ran out.
#[derive(Clone, Copy, Debug, Default, PartialEq, Eq)]
pub struct Summary {
    pub batches: u64,
    pub long: u64,
    pub memory: u64,
}

impl Summary {
    ghost use Rattle.bw_trace.specs.Running.{is_too_long, is_of_memory};

    // One more batch, and why it was refused, if it was.
    pub(crate) fn count(&mut self, refusal: Option<Refusal>)
        requires room { self.old.batches + 1 < 2 ^ 64 }
        requires fewer { (self.old.long ≤ self.old.batches) × (self.old.memory ≤ self.old.batches) }
        ensures { self.new ≡ record {
          batches = self.old.batches + 1;
          long = (if is_too_long refusal then self.old.long + 1 else self.old.long);
          memory = (if is_of_memory refusal then self.old.memory + 1 else self.old.memory);
        } }
    {
        self.batches += 1;
        match refusal {
            None => {}
            Some(Refusal::TooLong { .. }) => self.long += 1,
            Some(Refusal::Memory) => self.memory += 1,
        }
    }
}
