// What became of tidying.

/// What tidying did.
#[derive(Clone, Copy, Debug, Default, PartialEq, Eq)]
pub struct Tidy {
    /// How often a leaf was consolidated.
    pub consolidated: u64,
    /// How often a page was split.
    pub splits: u64,
    /// How many pages were merged into their left neighbour.
    pub merges: u64,
    /// Whether tidying stopped where memory ran out. The tree holds the same then, too.
    pub stopped: bool,
}
