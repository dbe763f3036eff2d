// Records and stamps that start over.
ghost use Rattle.std.specs.Prelude.{◌≡◌, ℕ, ◌<◌, ◌^◌, [], None};
ghost use Rattle.std.specs.List.{AllByRecursion};

use super::Tree;

impl Tree {
    ghost use Rattle.bw_level.specs.Reading.{writes_over};
    ghost use Rattle.bw_level.specs.Slots.{slot_at};
    ghost use Rattle.bw_look.specs.View.{contents_at};

    /// Starts records and stamps over: there is no record any more, and the next stamp is 0. Each page is a base page
    /// by itself, and no batch is staged.
    ///
    /// What the tree holds is then the same as of every stamp, and no page has a write over it. It takes no memory, and a
    /// step for each record that it lets go.
    pub fn restart(&mut self)
        requires none { self.old.staged ≡ None }
        requires plain { AllByRecursion (λ w. w < 2 ^ 32) self.old.heads }
        ensures value { self.new ≡ record self.old { records = 0; next = 0 } }
        ensures contents { (stamp : ℕ) → contents_at self.new stamp ≡ contents_at self.old self.old.next }
        ensures bare { (p : ℕ) → writes_over (slot_at self.new.slots p) ≡ [] }
    {
        self.chains.truncate(0);
        self.next = 0;
    }
}
