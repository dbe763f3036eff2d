// Pages that are joined, and that lose a child.
ghost use Rattle.std.specs.Prelude.{◌≡◌, ◌≢◌, ◌<◌, IfOk};
ghost use Rattle.bw_level.specs.Before.{low_of};
ghost use Rattle.bw_level.specs.Changes.{plain};
ghost use Rattle.bw_level.specs.Children.{slot_without_child};
ghost use Rattle.bw_level.specs.Merges.{AreNeighbours, slot_joined};
ghost use Rattle.bw_level.specs.Slots.{IsSoundInner};
ghost use Rattle.bw_page.specs.declared.pages.Page.TheVariants.{Leaf as LeafPage, Inner as InnerPage};

use bw_key::{Key, Memory};
use bw_page::{Inner, Leaf, Page};

/// A page with its right neighbour, of its kind and level, as one page. The entries of both are copied, those of
/// leaves as blocks. `Memory` is answered where a list or the copy of a key finds none.
pub fn join(page: &Page, right: &Page) -> Result<Page, Memory>
    requires { AreNeighbours (plain page.now) (plain right.now) }
    ensures { IfOk result (λ joined. plain joined ≡ slot_joined (plain page.now) (plain right.now)) }
{
    match page {
        Page::Leaf(leaf) => join_leaf(leaf, right),
        Page::Inner(inner) => join_inner(inner, right),
        Page::Gone(_) => unreachable!(),
    }
}

// A leaf with its right neighbour.
fn join_leaf(leaf: &Leaf, right: &Page) -> Result<Page, Memory>
    requires { AreNeighbours (plain (LeafPage leaf.now)) (plain right.now) }
    ensures { IfOk result (λ page. plain page ≡ slot_joined (plain (LeafPage leaf.now)) (plain right.now)) }
{
    match right {
        Page::Leaf(other) => Ok(Page::Leaf(leaf.joined(other)?)),
        Page::Inner(_) | Page::Gone(_) => unreachable!(),
    }
}

// An inner page with its right neighbour.
fn join_inner(inner: &Inner, right: &Page) -> Result<Page, Memory>
    requires { AreNeighbours (plain (InnerPage inner.now)) (plain right.now) }
    ensures { IfOk result (λ page. plain page ≡ slot_joined (plain (InnerPage inner.now)) (plain right.now)) }
{
    match right {
        Page::Inner(other) => Ok(Page::Inner(inner.joined(other)?)),
        Page::Leaf(_) | Page::Gone(_) => unreachable!(),
    }
}

/// Takes the child at a separator, which isn't the key at which the page begins, from an inner page. It takes no memory, and
/// moves the children behind that one.
pub fn drop_child(page: &mut Page, sep: &Key)
    requires inner { IsSoundInner (plain page.old) }
    requires other { sep.now ≢ low_of (plain page.old) }
    ensures { plain page.new ≡ slot_without_child sep.now (plain page.old) }
{
    match page {
        Page::Inner(inner) => inner.drop_child(sep),
        Page::Leaf(_) | Page::Gone(_) => unreachable!(),
    }
}
