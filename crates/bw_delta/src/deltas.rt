// Changes of pages.
use crate::writes::Write;
use bw_key::Key;
use bw_page::PageId;

/// A delta record: a change of a page, which is put before the page's former state (ICDE 2013). A page's chain is its
/// records, the newest first, down to its base page.
pub enum Delta {
    /// A write at a key of a leaf.
    Put(Write),
    /// The entries from the separator on went to a new right neighbour.
    Split { sep: Key, to: PageId },
    /// The right neighbour was taken over: its base page had this number, and its right neighbour is this page's now.
    Absorb { base: u64, side: Option<PageId> },
    /// The page was taken over by its left neighbour.
    Removed { left: PageId },
    /// An inner page has this child at the separator, in place of one that stood there.
    AddChild { sep: Key, child: PageId },
    /// An inner page no longer has the separator and its child.
    DropChild { sep: Key },
}

// Not derived, as for `Write`.
impl Drop for Delta {
    fn drop(self) {
        match self {
            Delta::Put(_write) => {}
            Delta::Split { sep: _sep, to: _to } => {}
            Delta::Absorb {
                base: _base,
                side: _side,
            } => {}
            Delta::Removed { left: _left } => {}
            Delta::AddChild {
                sep: _sep,
                child: _child,
            } => {}
            Delta::DropChild { sep: _sep } => {}
        }
    }
}
