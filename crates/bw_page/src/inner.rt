// Inner pages.
ghost use Rattle.std.specs.Prelude.{◌≡◌, ◌≢◌, ℕ, ◌<◌, ◌≤◌, length, slice_index_or, Some, IfOk, IsOk, OnErr, OnOk, MatchOption, true, false, T};
ghost use Rattle.std.specs.Option.{option_copied};
ghost use Rattle.std.specs.FinMap.{is_sorted};
ghost use Rattle.std.specs.List.{list_all};
ghost use Rattle.bw_key.specs.Order.{KeyBytes, key_cmp};
ghost use Rattle.bw_model.specs.Contents.{is_below_end, is_in_range, is_pair_in_range};
ghost use Rattle.bw_page.specs.Inners.{IsInner, IsLastUpto, IsUpto, joined_inner, lower_inner, narrowed_inner, upper_inner, with_child, with_children, without_child};

use crate::bounds::Bounds;
use crate::children::Children;
use crate::pages::PageId;
use bw_key::{Key, Memory};
use std::marker::Model;

/// An inner page: separators, each with the child whose keys are from it on. The separators strictly rise, and lie
/// from `low` on and below `high`; the first is `low`. So each key of the range has a child.
///
/// The level is 1 where the children are leaves, and one more for each level above. No `high` is no upper end. A page
/// has a right neighbour, `side`, exactly where it has a `high`, and that neighbour's range begins there.
#[derive(Debug)]
pub struct Inner {
    level: u32,
    bounds: Bounds,
    children: Children,
}

// Not derived: whoever drops one calls this, and its proof is spared the parts.
impl Drop for Inner {
    fn drop(self) {
        let Inner {
            level: _level,
            bounds: _bounds,
            children: _children,
        } = self;
    }
}

impl Model for Inner {
    ghost use Rattle.bw_page.specs.Inners.{InnerView, IsInner};
    ghost use Rattle.bw_page.specs.Codes.{coded_inner};

    ghost Value = { InnerView };

    ghost coded = { coded_inner };

    ghost view = { λ p. record {
      level = p.level;
      low = p.bounds.low;
      high = p.bounds.high;
      side = p.bounds.side;
      children = p.children;
    } };

    ghost invariant = { λ p. IsInner p.level p.bounds.low p.bounds.high p.bounds.side p.children };
}

impl Inner {
    /// The page of this level, these bounds and children. It takes no memory.
    pub fn from_children(
        level: u32,
        low: Key,
        high: Option<Key>,
        side: Option<PageId>,
        children: Children,
    ) -> Inner
        requires { IsInner level low high side children }
        ensures level { result.level ≡ level }
        ensures low { result.low ≡ low }
        ensures high { result.high ≡ high }
        ensures side { result.side ≡ side }
        ensures children { result.children ≡ children }
    {
        Inner {
            level,
            bounds: Bounds::new(low, high, side),
            children,
        }
    }

    /// The level, 1 or more.
    pub fn level(&self) -> u32
        ensures { result ≡ self.now.level }
    {
        self.level
    }

    /// The lower end of the range, which belongs to it.
    pub fn low(&self) -> &Key
        ensures { result.now ≡ self.now.low }
    {
        self.bounds.low()
    }

    /// The upper end of the range, which doesn't belong to it.
    pub fn high(&self) -> Option<&Key>
        ensures { option_copied result ≡ self.now.high }
    {
        self.bounds.high()
    }

    /// The right neighbour.
    pub fn side(&self) -> Option<PageId>
        ensures { result ≡ self.now.side }
    {
        self.bounds.side()
    }

    /// The separators with their children, in order.
    pub fn children(&self) -> &Children
        ensures value { result.now ≡ self.now.children }
        ensures rules { IsInner self.now.level self.now.low self.now.high self.now.side self.now.children }
    {
        &self.children
    }

    /// The right neighbour, where the key is past the end of the range: there a search goes on, as in a B-link tree.
    pub fn past(&self, key: &Key) -> Option<PageId>
        ensures { MatchOption result (is_below_end self.now.high key.now ≡ true)
            (λ next. (is_below_end self.now.high key.now ≡ false) × (self.now.side ≡ Some next)) }
    {
        self.bounds.past(key)
    }

    /// The separator at a place, as a key of its own: one growth where it has more than 24 bytes, and `Memory` where that is
    /// refused.
    pub fn separator(&self, place: usize) -> Result<Key, Memory>
        requires { place < length self.now.children }
        ensures ok { (d : KeyBytes × ℕ) → IfOk result (λ key. key ≡ (slice_index_or self.now.children place d).0) }
        ensures short { (d : KeyBytes × ℕ) →
            length (slice_index_or self.now.children place d).0 ≤ 24 → IsOk result }
    {
        Key::from_bytes(self.children.allocator(), self.children.separator(place))
    }

    /// The child with the greatest separator that isn't above the key, in about log2 n key comparisons for n children.
    /// The key isn't below `low`.
    pub fn child_for(&self, key: &Key) -> PageId
        requires { IsUpto self.now.low key.now }
        ensures { IsLastUpto key.now self.now.children result }
    {
        let count = self.children.place_behind(0..self.children.len(), key);
        self.children.child(count - 1)
    }

    /// The children from place `keep` on, as a page that begins at the first of their separators and ends where this
    /// one does. `keep` is less than the number of children.
    ///
    /// It copies those children as one block of separators and one of ends, in a growth for each, and one for each bound of
    /// more than 24 bytes; so do the other calls here that make a page of others. `Memory` is answered where one of them is
    /// refused, or where a page's separators would have 2^32 bytes or more. This page stays as it is.
    pub fn upper_half(&self, keep: usize) -> Result<Inner, Memory>
        requires { keep < length self.now.children }
        ensures { IfOk result (λ half. half ≡ upper_inner self.now keep) }
    {
        Ok(Inner {
            level: self.level,
            bounds: self.bounds.with_low(self.separator(keep)?)?,
            children: self.children.copy(keep..self.children.len())?,
        })
    }

    /// Cuts the page in its place: its children from place `keep` on move to a page that begins at the first of their
    /// separators and ends where this one did, and this one keeps the others and its bounds. Both have children.
    ///
    /// The children that move are copied as one block of separators and one of ends, in a growth for each, and one for each
    /// bound of their page that has more than 24 bytes. `Memory` is answered where one of them is refused, and this page is as
    /// before. Two last growths, to smaller blocks, give back the room that the children leave; where one is refused the room
    /// stays.
    pub fn cut(&mut self, keep: usize) -> Result<Inner, Memory>
        requires some { 0 < keep }
        requires fewer { keep < length self.old.children }
        ensures half { IfOk result (λ half. half ≡ upper_inner self.old keep) }
        ensures kept { OnOk result (self.new ≡ lower_inner self.old keep) }
        ensures err { OnErr result (self.new ≡ self.old) }
    {
        let bounds = self.bounds.with_low(self.separator(keep)?)?;
        let children = self.children.cut(keep)?;
        Ok(Inner {
            level: self.level,
            bounds,
            children,
        })
    }

    /// Ends the page at this key, which isn't its low one nor below it, before this right neighbour. The children with
    /// smaller separators stay, and the others are let go. It takes no memory, and about log2 n key comparisons for n
    /// children. The room that they leave stays.
    pub fn narrow(&mut self, high: Key, side: PageId)
        requires { T (is_below_end (Some high) self.old.low) }
        ensures { self.new ≡ narrowed_inner self.old high side }
    {
        self.children.keep_below(&high);
        self.bounds.narrow(high, side);
    }

    /// This page and its right neighbour as one: the children of both, up to the neighbour's end and with its
    /// neighbour. The right page is of the same level and begins where this one ends. Both stay as they are.
    pub fn joined(&self, right: &Inner) -> Result<Inner, Memory>
        requires level { self.now.level ≡ right.now.level }
        requires next { self.now.high ≡ Some right.now.low }
        ensures { IfOk result (λ inner. inner ≡ joined_inner self.now right.now) }
    {
        Ok(Inner {
            level: self.level,
            bounds: right.bounds.with_low(self.bounds.low().copy()?)?,
            children: self.children.joined(&right.children)?,
        })
    }

    // A page of the same level, bounds and neighbour.
    fn over(&self, children: Children) -> Result<Inner, Memory>
        requires { IsInner self.now.level self.now.low self.now.high self.now.side children }
        ensures { IfOk result (λ inner. inner ≡ record self.now { children = children }) }
    {
        Ok(Inner {
            level: self.level,
            bounds: self.bounds.with_low(self.bounds.low().copy()?)?,
            children,
        })
    }

    /// This page with the child at the separator, in place of one that stands there. The separator is in the range of
    /// the page. This page stays as it is.
    pub fn with_child(&self, sep: &Key, child: PageId) -> Result<Inner, Memory>
        requires { T (is_in_range self.now.low self.now.high sep.now) }
        ensures { IfOk result (λ inner. inner ≡ with_child self.now sep.now child) }
    {
        self.over(self.children.with(sep, child)?)
    }

    /// This page with these children among its own, each in place of one that stands at its separator. The separators rise,
    /// and are in the range of the page. This page stays as it is.
    ///
    /// Its own children are copied once, by runs, and each of the others costs a binary search among the children behind the
    /// one before it: so a page that gets many children gets them at once. Where one stands in place of another, the room that
    /// this leaves is given back, by growths that may be refused: then it stays.
    pub fn with_children(&self, entries: &[(Key, PageId)]) -> Result<Inner, Memory>
        requires rising { T (is_sorted key_cmp entries.now) }
        requires inside { T (list_all (is_pair_in_range self.now.low self.now.high) entries.now) }
        ensures { IfOk result (λ inner. inner ≡ with_children self.now entries.now) }
    {
        self.over(self.children.with_all(entries)?)
    }

    /// Takes away the separator and its child, if the page has it. The separator isn't `low`. It takes no memory, and about
    /// log2 n key comparisons for n children; the children behind that one are moved, and the room that it leaves stays.
    pub fn drop_child(&mut self, sep: &Key)
        requires { sep.now ≢ self.old.low }
        ensures { self.new ≡ without_child self.old sep.now }
    {
        self.children.remove(sep);
    }
}
