// Pages that are cut in two, and that end earlier.
ghost use Rattle.std.specs.Prelude.{◌≡◌, ◌<◌, IfOk, OnOk, OnErr};
ghost use Rattle.bw_level.specs.Changes.{Bases, change, plain};
ghost use Rattle.bw_level.specs.Slots.{IsSound};
ghost use Rattle.bw_level.specs.Splits.{slot_entries, slot_left, slot_right, slot_separator};
ghost use Rattle.bw_delta.specs.declared.deltas.Delta.TheVariants.{Split};

use bw_key::{Key, Memory};
use bw_page::{Page, PageId};

/// Cuts a base page, which keeps its first entries and its bounds, and answers the key at which the others begin and
/// a page of them. `Memory` is answered where their list or the copy of a key finds none; the page is as before.
pub fn cut(base: &mut Page, keep: usize) -> Result<(Key, Page), Memory>
    requires some { 0 < keep }
    requires fewer { keep < slot_entries (plain base.old) }
    ensures separator { IfOk result (λ half. half.0 ≡ slot_separator keep (plain base.old)) }
    ensures right { IfOk result (λ half. plain half.1 ≡ slot_right keep (plain base.old)) }
    ensures left { OnOk result (plain base.new ≡ slot_left keep (plain base.old)) }
    ensures err { OnErr result (base.new ≡ base.old) }
{
    match base {
        Page::Leaf(leaf) => {
            let sep = leaf.key_at(keep)?;
            Ok((sep, Page::Leaf(leaf.cut(keep)?)))
        }
        Page::Inner(inner) => {
            let sep = inner.separator(keep)?;
            Ok((sep, Page::Inner(inner.cut(keep)?)))
        }
        Page::Gone(_) => unreachable!(),
    }
}

/// Ends a base page at this key, before this right neighbour, as a split says. It takes no memory.
pub fn narrow(base: &mut Page, high: Key, side: PageId)
    requires { (bases : Bases) → IsSound (change bases (Split high side) (plain base.old)) }
    ensures { (bases : Bases) → plain base.new ≡ change bases (Split high side) (plain base.old) }
{
    match base {
        Page::Leaf(leaf) => leaf.narrow(high, side),
        Page::Inner(inner) => inner.narrow(high, side),
        Page::Gone(_) => unreachable!(),
    }
}
