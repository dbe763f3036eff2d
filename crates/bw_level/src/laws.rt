// What holds of levels, and of ways.
ghost use Rattle.bw_level.specs.Laws.{ChildIsKept, ContentsAreKept, DroppedChildIsKept, FreedPageIsKept, HomeIsOne, HomeIsThere, LevelsAreFound, LevelsAreAlike, LevelsAreGrown, LevelsAreKept, LevelsAreLowered, MergesAreKept, PartsAreKept, WayIsOne};

/// The law that each walk along links, side links or left links rests on: from a place there is one way only, and one
/// place where it ends. It does nothing: its contract is the law.
pub fn way_is_one()
    ensures { WayIsOne }
{}

/// The law by which a step of the tree may name its new levels: lists of pages that are lawful levels under a root are
/// those that are found from the root, by first children and side links. It does nothing: its contract is the law.
pub fn levels_are_found()
    ensures { LevelsAreFound }
{}

/// The law that a search rests on: in lawful levels a key has one home. It does nothing: its contract is the law.
pub fn home_is_one()
    ensures { HomeIsOne }
{}

/// The law that each level has all keys: in lawful levels a key has a home on each of them. It does nothing: its contract
/// is the law.
pub fn home_is_there()
    ensures { HomeIsThere }
{}

/// The law by which a split, a name for a page, a merge, or an identifier given back leaves a tree lawful: a change of pages
/// that keeps the rows side by side, and below each child a page of the level below, makes lawful levels of lawful ones.
/// It is not for a new root, which changes how many levels there are. It does nothing: its contract is the law.
pub fn levels_are_kept()
    ensures { LevelsAreKept }
{}

/// The law by which writes, and their consolidation, leave a tree lawful: lawful levels stay so where pages differ in pairs
/// and writes alone. It does nothing: its contract is the law.
pub fn levels_are_alike()
    ensures { LevelsAreAlike }
{}

/// The law by which a change of pages leaves what a tree holds: two trees hold the same, each as of its stamp, where each
/// key has one value at its homes in both. It does nothing: its contract is the law.
pub fn contents_are_kept()
    ensures { ContentsAreKept }
{}

/// The law of a split: where a page of some level parts in two, and the new page doesn't begin with a removed child, the
/// levels are lawful with that page behind it, index entries stay exact, and the levels hold what they held. It does nothing:
/// its contract is the law.
pub fn parts_are_kept()
    ensures { PartsAreKept }
{}

/// The law of an index entry: where a page names one more page of the level below, at the key at which that one begins,
/// the levels stay, their index entries stay exact, and they hold what they held. It does nothing: its contract is the law.
pub fn child_is_kept()
    ensures { ChildIsKept }
{}

/// The law of a root that grows: where a new page is over the root and its right neighbour, the levels are lawful with the
/// new root's level above them, index entries stay exact, and the levels hold what they held. It does nothing: its contract
/// is the law.
pub fn levels_are_grown()
    ensures { LevelsAreGrown }
{}

/// The law of a merge: where a page of some level is removed, with which no page above begins, and its left neighbour takes
/// over its entries and its range, the levels are lawful without it, also while an index entry still names it; index entries
/// stay exact, and the levels hold what they held. It does nothing: its contract is the law.
pub fn merges_are_kept()
    ensures { MergesAreKept }
{}

/// The law of an index entry that goes: where a page no longer names a removed child, not its first one, the levels stay,
/// their index entries stay exact, and they hold what they held. It does nothing: its contract is the law.
pub fn dropped_child_is_kept()
    ensures { DroppedChildIsKept }
{}

/// The law of a root that goes: where the root's only child takes its place, and the root is a removed page that leads to it,
/// the levels are lawful without the root's, index entries stay exact, and the levels hold what they held. The old root
/// stands on no level, and no page of a level names it. It does nothing: its contract is the law.
pub fn levels_are_lowered()
    ensures { LevelsAreLowered }
{}

/// The law of an identifier that is given back: where nothing leads to its page, which stands on no level, the levels stay,
/// their index entries stay exact, and they hold what they held. It does nothing: its contract is the law.
pub fn freed_page_is_kept()
    ensures { FreedPageIsKept }
{}
