// What is told of the batch that is staged.
ghost use Rattle.std.specs.Prelude.{◌≡◌, ◌<◌, None, Some, length, slice_get, MatchOption};
ghost use Rattle.bw_look.specs.View.{staged_writes};
ghost use Rattle.bw_look.specs.StagedBatches.{IsStagedAs};

use super::Look;
use crate::staging::Staged;
use bw_chain::FLOOR;
use bw_delta::Write;

impl<'a> Look<'a> {
    /// The batch that is staged, if one is.
    pub fn staged(&self) -> Option<Staged>
        ensures { MatchOption result (self.now.staged ≡ None) (IsStagedAs self.now) }
    {
        let stage = self.staged.as_ref()?;
        Some(Staged {
            base: self.next,
            floor: FLOOR + stage.records as u64,
            records: (self.chains.len() - stage.records) as u64,
        })
    }

    /// The write of a staged record, by its place among them.
    pub fn staged_write(&self, place: u64) -> &'a Write
        requires { place < length (staged_writes self.now.staged) }
        ensures { slice_get (staged_writes self.now.staged) place ≡ Some result.now }
    {
        match self.staged {
            Some(stage) => self.chains.write_at(stage.records + place as usize),
            None => unreachable!(),
        }
    }
}
