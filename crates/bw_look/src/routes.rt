// Searches of a tree along rising keys.
ghost use Rattle.std.specs.Prelude.{◌≡◌, ℕ, ◌<◌, true, length, IfSome};
ghost use Rattle.std.specs.Option.{option_copied};
ghost use Rattle.bw_level.specs.Slots.{slot_at, is_leaf};
ghost use Rattle.bw_level.specs.Scans.{high_of};
ghost use Rattle.bw_level.specs.Levels.{IsHome};
ghost use Rattle.bw_level.specs.Searches.{IsSearching};
ghost use Rattle.bw_look.specs.Routing.{IsFound, IsInnerPage, IsKeptFor};

use crate::look::Look;
use bw_key::Key;
use bw_level::Target;
use bw_model::is_below;
use bw_page::{Inner, PageId};
use std::marker::Model;

/// Searches for the leaves of keys, one after another.
///
/// Each finds the leaf that the tree's `route` does, whatever the order of the keys. Where they rise, a search goes on
/// from the separator of the one before it, by steps each of which is twice the one before it, and then by halves; the
/// first one on an inner page begins at the page's first child. It goes down from the root where the inner page above
/// the last leaf ends, and where a change lies over that page.
#[derive(Drop)]
pub struct Routes<'a> {
    tree: Look<'a>,
    // the inner page that the last search went down from, where no change lies over it
    above: Option<&'a Inner>,
    // the place of the child that a search last took there, or the first one
    place: usize,
    // where the range of the leaf ends that was found last
    end: Option<&'a Key>,
}

impl<'a> Model for Routes<'a> {
    ghost use Rattle.std.specs.Option.{option_copied};
    ghost use Rattle.bw_look.specs.Routing.{AreUnder, RoutesView};

    ghost Value = { RoutesView };

    ghost view = { λ r. record { tree = r.tree; end = option_copied r.end } };

    ghost invariant = { λ r. AreUnder r.tree r.above };
}

impl<'a> Routes<'a> {
    /// No search yet. It takes no memory.
    pub fn new(tree: Look<'a>) -> Routes<'a>
        ensures tree { result.tree ≡ tree.entry }
        ensures end { result.end ≡ None }
    {
        Routes {
            tree,
            above: None,
            place: 0,
            end: None,
        }
    }

    /// The one leaf of the leaf level whose range has the key.
    ///
    /// It takes about 2 log2 d key comparisons where the leaf stands d places behind the last one, about log2 n, for n
    /// children, where it stands before that one, and a search from the root where no page above is kept that has the key;
    /// and a walk along the leaf's chain. It takes no memory.
    pub fn route(&mut self, key: &Key) -> PageId
        ensures tree { self.new.tree ≡ self.old.tree }
        ensures home { IsHome self.old.tree.slots self.old.tree.levels key.now result }
        ensures only { (page : ℕ) → IsHome self.old.tree.slots self.old.tree.levels key.now page → page ≡ result }
        ensures there { result < length self.old.tree.heads }
        ensures leaf { is_leaf (slot_at self.old.tree.slots result) ≡ true }
        ensures end { self.new.end ≡ high_of (slot_at self.old.tree.slots result) }
    {
        self.tree.know_levels();
        if let Some(leaf) = self.leaf_at(key) {
            return leaf;
        }
        self.leaf_from(key)
    }

    /// Where the range of the leaf ends that was found last: the tree's `end` of it, without a walk along its chain.
    pub fn end(&self) -> Option<&'a Key>
        ensures { option_copied result ≡ self.now.end }
    {
        self.end
    }

    // The child that the kept page has for the key, if it is the leaf whose range has the key.
    fn leaf_at(&mut self, key: &Key) -> Option<PageId>
        ensures tree { self.new.tree ≡ self.old.tree }
        ensures found { IfSome result (IsFound self.old.tree key.now self.new.end) }
    {
        let tree = self.tree.again();
        let page = self.child(key)?;
        let end = tree.end_for(page, Target::Home(key))?;
        self.end = end;
        Some(page)
    }

    // The leaf whose range has the key, by a search from that child on, or from the root.
    fn leaf_from(&mut self, key: &Key) -> PageId
        ensures tree { self.new.tree ≡ self.old.tree }
        ensures found { IsFound self.old.tree key.now self.new.end result }
    {
        let tree = self.tree.again();
        let child = self.child(key);
        let found = tree.search_from(child, Target::Home(key));
        self.keep(found.above);
        self.end = tree.end(found.leaf);
        found.leaf
    }

    // The child that the kept page has for the key, where a search may begin.
    fn child(&mut self, key: &Key) -> Option<PageId>
        ensures tree { self.new.tree ≡ self.old.tree }
        ensures begins { let tree = self.old.tree in
            IfSome result (IsSearching tree.slots tree.levels (Target.Home key.entry)) }
    {
        self.tree.know_levels();
        let inner = self.kept(key)?;
        let place = Target::Home(key).place_from(inner, self.place)?;
        self.place = place;
        Some(inner.children().child(place))
    }

    // The page that is kept, where its range doesn't end before the key.
    fn kept(&self, key: &Key) -> Option<&'a Inner>
        ensures { IfSome result (λ inner. IsKeptFor self.now.tree inner.now key.now) }
    {
        let inner = self.above?;
        if !is_below(key, inner.high()) {
            return None;
        }
        Some(inner)
    }

    // Keeps the page from which a search went down, or none where a change lies over it. A search that didn't go down
    // leaves what is kept.
    fn keep(&mut self, above: Option<PageId>)
        requires { IfSome above (IsInnerPage self.old.tree) }
        ensures { self.new.tree ≡ self.old.tree }
    {
        let Some(page) = above else {
            return;
        };
        self.above = self.tree.inner(page);
        self.place = 0;
    }
}
