// Names of pages, and base pages.
use crate::inner::Inner;
use crate::leaf::Leaf;
use bw_key::Key;
use std::marker::Model;

/// The name of a page. The mapping table turns it into the page's present state. Contracts see it as its number.
#[derive(Clone, Copy, Debug, Default, PartialEq, Eq, PartialOrd, Ord)]
pub struct PageId(pub u32);

impl Model for PageId {
    ghost use Rattle.std.specs.Prelude.{ℕ};

    ghost Value = { ℕ };

    ghost view = { λ p. p.0 };

    ghost inverse = { λ n. record { 0 = n } };
}

/// A base page.
#[derive(Debug, Drop)]
pub enum Page {
    Leaf(Leaf),
    Inner(Inner),
    /// A page that was removed.
    Gone(RemovedPage),
}

/// What is left of a page that its left neighbour took over, or of a root that its one child replaced, until nothing leads to
/// it any more.
#[derive(Debug, Drop)]
pub struct RemovedPage {
    /// The left neighbour, or the child, where a search goes on that comes to this page.
    pub left: PageId,
    /// The level on which it stood.
    pub level: u32,
    /// The key at which its range began: if a page of the level above still names it, then with this separator.
    pub low: Key,
}
