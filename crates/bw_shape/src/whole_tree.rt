// Tidying of all pages.
ghost use Rattle.std.specs.Prelude.{◌≡◌, ℕ, false, [], None, IfOk};
ghost use Rattle.std.specs.List.{Contains};
ghost use Rattle.bw_level.specs.Levels.{row};
ghost use Rattle.bw_shape.specs.Limits.{AreWithinBut, HoldFew};
ghost use Rattle.bw_shape.specs.Tidying.{AreAllPages, AreGivenPages, HoldsAll};

use crate::due::Due;
use crate::finishing::finish_steps;
use crate::limits::Limits;
use crate::outcome::Tidy;
use crate::page_lists::{inner_pages, leaf_pages};
use crate::tidying::tidy_due;
use bw_key::Memory;
use bw_tree::Tree;

/// Looks at all pages, as `tidy_due` does at those that are due. Before that each merge is finished, a root that was split
/// gets a root above it, and each split is finished, level by level from the leaves up. No batch is staged.
///
/// It costs the list of all pages twice, a search for each, and for each inner page some looks for each level below it; each
/// split that it finishes copies the children of the page above. An identifier that is given back costs a
/// search, and a look at each removed page whose own isn't given back. Besides it costs what `tidy_due` does for all pages. At
/// the first `Memory` it stops, and the tree holds the same. Where it doesn't stop, no leaf is over a limit, and so none has
/// more than `page_max` and `chain_max` pairs together.
pub fn tidy(tree: &mut Tree, limits: &Limits) -> Tidy
    requires { tree.old.staged ≡ None }
    ensures holds { HoldsAll tree.old tree.new }
    ensures all { result.stopped ≡ false → AreWithinBut limits.now tree.new [] }
    ensures few { result.stopped ≡ false → HoldFew limits.now tree.new }
{
    let outcome = tidy_all(tree, limits);
    tree.know_pairs();
    outcome
}

// Looks at all pages, once each merge and each split is finished.
fn tidy_all(tree: &mut Tree, limits: &Limits) -> Tidy
    requires { tree.old.staged ≡ None }
    ensures holds { HoldsAll tree.old tree.new }
    ensures all { result.stopped ≡ false → AreWithinBut limits.now tree.new [] }
{
    match finish_all(tree) {
        Ok(mut due) => tidy_due(tree, limits, &mut due),
        Err(_) => Tidy {
            consolidated: 0,
            splits: 0,
            merges: 0,
            stopped: true,
        },
    }
}

// Finishes each merge and each split, and answers all pages, which are due then.
fn finish_all(tree: &mut Tree) -> Result<Due, Memory>
    requires { tree.old.staged ≡ None }
    ensures holds { HoldsAll tree.old tree.new }
    ensures leaves { IfOk result (λ due. (p : ℕ) → Contains (row tree.new.levels 0) p → Contains due.pages p) }
{
    finish_steps(tree)?;
    all_pages(tree)
}

/// All pages of a tree, which are due: the leaves first, and behind them the inner pages, the lowest level first. It costs a
/// walk along each level.
pub fn all_pages(tree: &Tree) -> Result<Due, Memory>
    ensures all { IfOk result (AreAllPages tree.now) }
    ensures leaves { IfOk result (λ due. (p : ℕ) → Contains (row tree.now.levels 0) p → Contains due.pages p) }
{
    let leaves = leaf_pages(tree)?;
    let inner = inner_pages(*leaves.allocator(), tree)?;
    let mut due = Due::new(*leaves.allocator());
    due.set_pages(leaves, inner);
    Ok(due)
}

/// The same, of a tree that was given: splits and merges of it may be unfinished, and the first tidying finishes them.
pub fn given_pages(tree: &Tree) -> Result<Due, Memory>
    ensures all { IfOk result (AreGivenPages tree.now) }
    ensures leaves { IfOk result (λ due. (p : ℕ) → Contains (row tree.now.levels 0) p → Contains due.pages p) }
{
    let mut due = all_pages(tree)?;
    due.set_given(true);
    Ok(due)
}
