// What is found of a page: whether there is something to do.
ghost use Rattle.std.specs.Prelude.{◌≡◌, ◌≤◌, true, false, None, is_some, length, IfSome};
ghost use Rattle.bw_look.specs.Routing.{IsInLevel};
ghost use Rattle.bw_tidy.specs.Findings.{IsFinding, IsLeafAt};

use bw_page::{Leaf, PageId};
use bw_shape::{Limits, is_over};
use bw_tree::Tree;

/// A page, and what was found of it.
#[derive(Drop)]
pub struct Finding {
    pub(crate) page: PageId,
    /// What its chain makes of it, where it was consolidated.
    pub(crate) leaf: Option<Leaf>,
    /// Whether there is more to do.
    pub(crate) is_due: bool,
}

impl Finding {
    /// A page that wasn't looked at yet.
    pub(crate) fn new(page: PageId) -> Finding
        ensures page { result.page ≡ page }
        ensures leaf { result.leaf ≡ None }
        ensures due { result.is_due ≡ true }
    {
        Finding {
            page,
            leaf: None,
            is_due: true,
        }
    }

    /// Whether it is told that there is nothing to do at the page as it stands.
    pub(crate) fn is_fitting(&self) -> bool
        ensures due { result ≡ true → self.now.is_due ≡ false }
        ensures leaf { result ≡ true → self.now.leaf ≡ None }
    {
        !self.is_due && self.leaf.is_none()
    }
}

/// Looks at a page. A leaf that is over a limit is consolidated, unless that finds no memory; there is more to do where it has
/// too few or too many pairs then. There is nothing to do at any other leaf. It costs some walks along the page's chain,
/// and what `Tree::leaf_as_of` does for the leaf as of the stamp, which is behind those of all its writes.
pub(crate) fn inspect(tree: &Tree, limits: &Limits, page: PageId, stamp: u64) -> Finding
    ensures page { result.page ≡ page }
    ensures found { IsFinding tree.now limits.now stamp result }
{
    tree.know_levels();
    if !is_over(tree, limits, page) {
        return Finding {
            page,
            leaf: None,
            is_due: !is_leaf(tree, page),
        };
    }
    let leaf = consolidated(tree, page, stamp);
    let is_due = needs_more(limits, &leaf);
    Finding { page, leaf, is_due }
}

// Whether a page stands among the leaves.
fn is_leaf(tree: &Tree, page: PageId) -> bool
    ensures { result ≡ true → IsInLevel tree.now page 0 }
{
    tree.in_level(page) == Some(0)
}

// A leaf without its chain, if it has one.
fn consolidated(tree: &Tree, page: PageId, stamp: u64) -> Option<Leaf>
    ensures { IsLeafAt tree.now stamp page result }
{
    if tree.is_plain(page) || !is_leaf(tree, page) {
        return None;
    }
    tree.leaf_as_of(page, stamp).ok()
}

// Whether there is more to do: where no leaf was consolidated, or it has too few or too many pairs.
fn needs_more(limits: &Limits, leaf: &Option<Leaf>) -> bool
    ensures few { result ≡ false → IfSome leaf.now (λ leaf. length leaf.pairs ≤ limits.now.page_max) }
    ensures some { result ≡ false → is_some leaf.now ≡ true }
{
    let Some(leaf) = leaf else {
        return true;
    };
    let pairs = leaf.pairs().len() as u64;
    pairs < limits.page_min() || pairs > limits.page_max()
}
