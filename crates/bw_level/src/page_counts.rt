// How many entries pages have.
ghost use Rattle.std.specs.Prelude.{◌≡◌, ℕ, ◌<◌, T, length};
ghost use Rattle.std.specs.FinMap.{is_sorted, put};
ghost use Rattle.bw_key.specs.Order.{key_cmp};
ghost use Rattle.bw_page.specs.Pages.{below};
ghost use Rattle.bw_level.specs.Changes.{Bases, change, plain};
ghost use Rattle.bw_level.specs.Splits.{slot_entries};
ghost use Rattle.bw_level.specs.Turns.{IsOther};
ghost use Rattle.bw_delta.specs.declared.deltas.Delta.TheVariants.{AddChild, Split};

use bw_delta::Delta;
use bw_key::Key;
use bw_page::{Children, Inner, Leaf, Page, place};

/// How many pairs or children a base page has with one change over it, which isn't a write. A page that was removed
/// has none. It costs a binary search where the change is a split or an added child, and takes no memory.
pub fn count_over(delta: &Delta, base: &Page) -> usize
    requires { IsOther delta.now }
    ensures { (bases : Bases) → result ≡ slot_entries (change bases delta.now (plain base.now)) }
{
    match delta {
        Delta::Split { sep, .. } => count_split(sep, base),
        Delta::AddChild { sep, .. } => count_with_child(sep, base),
        Delta::Absorb { .. } | Delta::DropChild { .. } => count_plain(base),
        _ => unreachable!(),
    }
}

/// How many pairs or children a base page has by itself.
pub fn count_plain(base: &Page) -> usize
    ensures { result ≡ slot_entries (plain base.now) }
{
    match base {
        Page::Leaf(leaf) => leaf.pairs().len(),
        Page::Inner(inner) => inner.children().len(),
        Page::Gone(_) => 0,
    }
}

// The same of a page that was split.
fn count_split(sep: &Key, base: &Page) -> usize
    ensures { (bases : Bases) → (to : ℕ) → result ≡ slot_entries (change bases (Split sep.now to) (plain base.now)) }
{
    match base {
        Page::Leaf(leaf) => count_pairs_below(leaf, sep),
        Page::Inner(inner) => count_children_below(inner, sep),
        Page::Gone(_) => 0,
    }
}

// The same of a page that was given a child.
fn count_with_child(sep: &Key, base: &Page) -> usize
    ensures { (bases : Bases) → (child : ℕ) →
        result ≡ slot_entries (change bases (AddChild sep.now child) (plain base.now)) }
{
    match base {
        Page::Leaf(leaf) => leaf.pairs().len(),
        Page::Inner(inner) => count_with(inner.children(), sep),
        Page::Gone(_) => 0,
    }
}

// How many pairs of a leaf have a key below this one, in about log2 n key comparisons.
fn count_pairs_below(leaf: &Leaf, key: &Key) -> usize
    ensures { result ≡ length (below key.now leaf.now.pairs) }
{
    place(&leaf.pairs().all(), key.bytes())
}

// How many children of an inner page have a separator below this key, in about log2 n key comparisons.
fn count_children_below(inner: &Inner, key: &Key) -> usize
    ensures { result ≡ length (below key.now inner.now.children) }
{
    inner.children().place(key)
}

// How many children there are with one at this separator.
fn count_with(children: &Children, sep: &Key) -> usize
    requires { T (is_sorted key_cmp children.now) }
    ensures { (child : ℕ) → result ≡ length (put key_cmp sep.now child children.now) }
{
    let place = children.place(sep);
    if place < children.len() && children.separator(place) == sep.bytes() {
        return children.len();
    }
    children.len() + 1
}
