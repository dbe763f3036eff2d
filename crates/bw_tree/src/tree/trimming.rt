// Free identifiers behind all pages, which are forgotten.
ghost use Rattle.std.specs.Prelude.{◌≡◌, None};

use super::Tree;
use crate::mapping_words::truncate_words;

impl Tree {
    ghost use Rattle.bw_tree.specs.TreeFreeing.{IsTrimmed};

    /// Forgets the free identifiers behind the last page: their mapping words go, as if they had never been given out. All
    /// pages stay as they are. No batch is staged.
    ///
    /// It is never refused. It costs a look at the last identifier, and a step for each one that goes; where most of them
    /// went, the lists that had them move to smaller blocks, if there is memory for these.
    pub fn trim(&mut self)
        requires none { self.old.staged ≡ None }
        ensures { IsTrimmed self.old self.new }
    {
        let count = self.chains.trim_bases();
        truncate_words(&mut self.heads, count);
        self.freed.forget_from(count);
    }
}
