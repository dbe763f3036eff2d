// The children of inner pages.
ghost use Rattle.std.specs.Prelude.{◌≡◌, ◌<◌, Decides, T};
ghost use Rattle.std.specs.FinMap.{is_sorted};
ghost use Rattle.bw_key.specs.Order.{key_cmp};
ghost use Rattle.bw_page.specs.Inners.{IsUpto};
ghost use Rattle.bw_level.specs.Changes.{Bases};
ghost use Rattle.bw_level.specs.Children.{HasChildAt};
ghost use Rattle.bw_level.specs.Searches.{plain_inner};
ghost use Rattle.bw_level.specs.Splits.{slot_child};
ghost use Rattle.bw_level.specs.Turns.{IsNoWrite, over, plain_at};

use crate::target::Target;
use bw_delta::Delta;
use bw_key::Key;
use bw_page::{Inner, Page, PageId};

/// The child at a place among those of a base page, if there is one that is an inner page with so many.
pub fn child_in_place(base: Option<&Page>, place: usize) -> Option<PageId>
    ensures { result ≡ slot_child place (plain_at base.entry) }
{
    match base? {
        Page::Inner(inner) => {
            let children = inner.children();
            if place >= children.len() {
                return None;
            }
            Some(children.child(place))
        }
        Page::Leaf(_) | Page::Gone(_) => None,
    }
}

/// Whether there is this child at a key among those that a change, if there is one, makes of an inner page's. The
/// page doesn't begin above the key, and the change isn't a write. It costs a binary search among the separators, and
/// takes no memory.
pub fn child_over(delta: Option<&Delta>, base: &Inner, key: &Key, child: PageId) -> bool
    requires other { IsNoWrite delta }
    requires starts { IsUpto base.now.low key.now }
    ensures { (bases : Bases) →
        Decides result (HasChildAt (over bases delta.entry (plain_inner base.now)) key.now child) }
{
    let there = child_in(base, key, child);
    let Some(delta) = delta else {
        return there;
    };
    match delta {
        Delta::Split { sep, .. } => *key < *sep && there,
        Delta::AddChild { sep, child: added } => {
            if *key == *sep {
                return added.0 == child.0;
            }
            there
        }
        Delta::Absorb { .. } | Delta::DropChild { .. } => there,
        _ => unreachable!(),
    }
}

// The same of an inner page by itself.
fn child_in(inner: &Inner, key: &Key, child: PageId) -> bool
    requires { IsUpto inner.now.low key.now }
    ensures there { Decides result (HasChildAt (plain_inner inner.now) key.now child) }
    ensures sorted { T (is_sorted key_cmp inner.now.children) }
{
    let children = inner.children();
    let place = Target::Home(key).last_place(inner);
    if children.separator(place) != key.bytes() {
        return false;
    }
    children.child(place).0 == child.0
}
