// Leaf pages.
ghost use Rattle.std.specs.Prelude.{◌≡◌, ◌<◌, ◌≤◌, filter, length, slice_index_or, [], Some, None, IfOk, IsOk, OnErr, OnOk, MatchOption, T, true, false};
ghost use Rattle.std.specs.FinMap.{find};
ghost use Rattle.std.specs.Option.{option_copied};
ghost use Rattle.bw_key.specs.Order.{key_cmp};
ghost use Rattle.bw_model.specs.Contents.{is_below_end, is_pair_in_range};
ghost use Rattle.bw_model.specs.Values.{Pair};
ghost use Rattle.bw_page.specs.Leaves.{joined_leaf, lower_leaf, narrowed_leaf, upper_leaf};
ghost use Rattle.bw_page.specs.Pages.{BeginsAt, IsPage};

use crate::bounds::Bounds;
use crate::leaf_pairs;
use crate::pages::PageId;
use bw_key::{Key, Memory};
use bw_memory::Alloc;
use bw_model::{Pairs, Run};
use std::marker::Model;

/// A leaf: the pairs of a range of keys. Their keys strictly rise, and lie from `low` on and below `high`.
///
/// No `high` is no upper end. A leaf has a right neighbour, `side`, exactly where it has a `high`, and that
/// neighbour's range begins there.
#[derive(Debug)]
pub struct Leaf {
    bounds: Bounds,
    pairs: Pairs,
}

// Not derived: whoever drops one calls this, and its proof is spared the parts.
impl Drop for Leaf {
    fn drop(self) {
        let Leaf {
            bounds: _bounds,
            pairs: _pairs,
        } = self;
    }
}

impl Model for Leaf {
    ghost use Rattle.bw_model.specs.Values.{ValueBytes};
    ghost use Rattle.bw_page.specs.Leaves.{LeafView};
    ghost use Rattle.bw_page.specs.Pages.{IsPage};
    ghost use Rattle.bw_page.specs.Codes.{coded_leaf};

    ghost Value = { LeafView ValueBytes };

    ghost coded = { coded_leaf };

    ghost view = { λ l. record {
      low = l.bounds.low;
      high = l.bounds.high;
      side = l.bounds.side;
      pairs = l.pairs;
    } };

    ghost invariant = { λ l. IsPage l.bounds.low l.bounds.high l.bounds.side l.pairs };
}

impl Leaf {
    /// The leaf of all keys, with no pair. It takes no memory.
    pub fn empty(alloc: Alloc) -> Leaf
        ensures low { result.low ≡ [] }
        ensures high { result.high ≡ None }
        ensures side { result.side ≡ None }
        ensures pairs { result.pairs ≡ [] }
    {
        Leaf {
            bounds: Bounds::new(Key::new(alloc, &[]).unwrap(), None, None),
            pairs: Pairs::new(alloc),
        }
    }

    /// The leaf of these bounds and pairs. It takes no memory, and the list of pairs keeps the room that it has.
    pub fn from_pairs(low: Key, high: Option<Key>, side: Option<PageId>, pairs: Pairs) -> Leaf
        requires { IsPage low high side pairs }
        ensures low { result.low ≡ low }
        ensures high { result.high ≡ high }
        ensures side { result.side ≡ side }
        ensures pairs { result.pairs ≡ pairs }
    {
        Leaf {
            bounds: Bounds::new(low, high, side),
            pairs,
        }
    }

    /// The lower end of the range, which belongs to it.
    pub fn low(&self) -> &Key
        ensures value { result.now ≡ self.now.low }
        ensures rules { IsPage self.now.low self.now.high self.now.side self.now.pairs }
    {
        self.bounds.low()
    }

    /// The upper end of the range, which doesn't belong to it.
    pub fn high(&self) -> Option<&Key>
        ensures { option_copied result ≡ self.now.high }
    {
        self.bounds.high()
    }

    /// The right neighbour.
    pub fn side(&self) -> Option<PageId>
        ensures { result ≡ self.now.side }
    {
        self.bounds.side()
    }

    /// The pairs, in the order of their keys.
    pub fn pairs(&self) -> &Pairs
        ensures value { result.now ≡ self.now.pairs }
        ensures rules { IsPage self.now.low self.now.high self.now.side self.now.pairs }
    {
        &self.pairs
    }

    /// The pairs from `low` on and below `high`, in the order of their keys, in about 2 log2 n key comparisons for n
    /// pairs. It copies nothing.
    pub fn between(&self, low: &Key, high: Option<&Key>) -> Run<'_>
        ensures value { result ≡ filter (is_pair_in_range low.now (option_copied high.entry)) self.now.pairs }
        ensures rules { IsPage self.now.low self.now.high self.now.side self.now.pairs }
    {
        leaf_pairs::between(&self.pairs, low, high)
    }

    /// The value at a key, in about log2 n key comparisons for n pairs. It copies nothing.
    pub fn find(&self, key: &Key) -> Option<&[u8]>
        ensures { option_copied result ≡ find key_cmp key.now self.now.pairs }
    {
        self.find_near(key, self.pairs.len()).0
    }

    /// The value at a key, and the place where the next higher key stands, if there is one. Who asks for keys in their order
    /// hands in the place that the last answer told: a key that stands there costs two comparisons, and any other one what
    /// `find` does and one more.
    pub fn find_near(&self, key: &Key, near: usize) -> (Option<&[u8]>, usize)
        ensures value { option_copied result.0 ≡ find key_cmp key.now self.now.pairs }
        ensures bound { result.1 ≤ length self.now.pairs }
    {
        leaf_pairs::value_near(&self.pairs, key, near)
    }

    /// The key at a place, as one of its own: one growth where it has more than 24 bytes, and `Memory` where that is
    /// refused.
    pub fn key_at(&self, place: usize) -> Result<Key, Memory>
        requires { place < length self.now.pairs }
        ensures ok { (d : Pair) → IfOk result (λ key. key ≡ (slice_index_or self.now.pairs place d).0) }
        ensures short { (d : Pair) → length (slice_index_or self.now.pairs place d).0 ≤ 24 → IsOk result }
    {
        Key::from_bytes(self.pairs.allocator(), self.pairs.key_at(place))
    }

    /// The right neighbour, where the key is past the end of the range: there a search goes on, as in a B-link tree.
    pub fn past(&self, key: &Key) -> Option<PageId>
        ensures { MatchOption result (is_below_end self.now.high key.now ≡ true)
            (λ next. (is_below_end self.now.high key.now ≡ false) × (self.now.side ≡ Some next)) }
    {
        self.bounds.past(key)
    }

    /// The pairs from place `keep` on, as a leaf that begins at the first of their keys and ends where this one does.
    /// `keep` is less than the number of pairs.
    ///
    /// It copies those pairs as one block of bytes and one of ends, in a growth for each, and one for each bound of more than
    /// 24 bytes. `Memory` is answered where one of them is refused. This leaf stays as it is.
    pub fn upper_half(&self, keep: usize) -> Result<Leaf, Memory>
        requires { keep < length self.now.pairs }
        ensures value { IfOk result (λ half. half ≡ upper_leaf self.now keep) }
        ensures kept { IfOk result (λ half. BeginsAt half.low half.pairs) }
    {
        Ok(Leaf {
            bounds: self.bounds.with_low(self.key_at(keep)?)?,
            pairs: leaf_pairs::copy_from(&self.pairs, keep)?,
        })
    }

    /// Cuts the leaf in its place: its pairs from place `keep` on move to a leaf that begins at the first of their keys
    /// and ends where this one did, and this one keeps the others and its bounds. `keep` is less than the number of pairs.
    ///
    /// The pairs that move are copied as one block of bytes and one of ends, in a growth for each, and one for each bound of
    /// their leaf that has more than 24 bytes. `Memory` is answered where one of them is refused, and this leaf is as before.
    /// Two last growths, to smaller blocks, give back the room that the pairs leave; where one is refused the room stays.
    pub fn cut(&mut self, keep: usize) -> Result<Leaf, Memory>
        requires { keep < length self.old.pairs }
        ensures half { IfOk result (λ half. half ≡ upper_leaf self.old keep) }
        ensures kept { OnOk result (self.new ≡ lower_leaf self.old keep) }
        ensures err { OnErr result (self.new ≡ self.old) }
    {
        let bounds = self.bounds.with_low(self.key_at(keep)?)?;
        let pairs = leaf_pairs::cut(&mut self.pairs, keep)?;
        Ok(Leaf { bounds, pairs })
    }

    /// Ends the leaf at this key, which isn't its low one nor below it, before this right neighbour. The pairs with smaller
    /// keys stay, and the others are let go. It takes no memory, and about log2 n key comparisons for n pairs. The room that
    /// they leave stays.
    pub fn narrow(&mut self, high: Key, side: PageId)
        requires { T (is_below_end (Some high) self.old.low) }
        ensures { self.new ≡ narrowed_leaf self.old high side }
    {
        leaf_pairs::keep_below(&mut self.pairs, &high);
        self.bounds.narrow(high, side);
    }

    /// This leaf and its right neighbour as one: the pairs of both, up to the neighbour's end and with its neighbour.
    /// The right leaf begins where this one ends.
    ///
    /// It copies all pairs by blocks, in one growth for their bytes, one for their ends, and one for each bound of more than
    /// 24 bytes. `Memory` is answered where one of them is refused. Both leaves stay as they are.
    pub fn joined(&self, right: &Leaf) -> Result<Leaf, Memory>
        requires { self.now.high ≡ Some right.now.low }
        ensures { IfOk result (λ leaf. leaf ≡ joined_leaf self.now right.now) }
    {
        Ok(Leaf {
            bounds: right.bounds.with_low(self.bounds.low().copy()?)?,
            pairs: leaf_pairs::join(self.pairs.allocator(), &self.pairs, &right.pairs)?,
        })
    }
}
