// Where the ranges of leaves end.
ghost use Rattle.std.specs.Prelude.{◌≡◌, is_some, IfSome};
ghost use Rattle.std.specs.Option.{option_copied};
ghost use Rattle.bw_level.specs.Changes.{Bases, change, plain};
ghost use Rattle.bw_level.specs.LeafEnds.{ends_at};
ghost use Rattle.bw_level.specs.Scans.{high_of, EndsLeaf};
ghost use Rattle.bw_level.specs.Turns.{IsOther, IsNoWrite};

use crate::target::Target;
use bw_delta::Delta;
use bw_key::Key;
use bw_page::{Leaf, Page, PageId};

/// Where the range of a leaf with one change over it ends, where what is sought doesn't lie past it, so that a search
/// which stands at the leaf ends there. The change isn't a write. Of a page that isn't a leaf none is answered.
pub fn leaf_end_over<'a>(
    delta: &'a Delta,
    base: &'a Page,
    target: Target<'_>,
) -> Option<Option<&'a Key>>
    requires { IsOther delta.now }
    ensures some { (bases : Bases) → is_some result ≡ ends_at target.entry (change bases delta.now (plain base.now)) }
    ensures end { IfSome result
        (λ end. (bases : Bases) → option_copied end ≡ high_of (change bases delta.now (plain base.now))) }
{
    let Page::Leaf(_) = base else {
        return None;
    };
    match delta {
        Delta::Split { sep, .. } => {
            if target.lies_from(sep.bytes()) {
                return None;
            }
            Some(Some(sep))
        }
        Delta::AddChild { .. } | Delta::Absorb { .. } | Delta::DropChild { .. } => {
            leaf_end_plain(base, target)
        }
        _ => unreachable!(),
    }
}

/// The same of a base page by itself.
pub fn leaf_end_plain<'a>(base: &'a Page, target: Target<'_>) -> Option<Option<&'a Key>>
    ensures some { is_some result ≡ ends_at target.entry (plain base.now) }
    ensures end { IfSome result (λ end. option_copied end ≡ high_of (plain base.now)) }
{
    let Page::Leaf(leaf) = base else {
        return None;
    };
    let Some(high) = leaf.high() else {
        return Some(None);
    };
    if target.lies_from(high.bytes()) {
        return None;
    }
    Some(Some(high))
}

/// Where the range of a leaf ends, which a change may lie over that isn't a write, and its right neighbour.
pub fn end_over<'a>(delta: Option<&'a Delta>, leaf: &'a Leaf) -> (Option<&'a Key>, Option<PageId>)
    requires { IsNoWrite delta }
    ensures { EndsLeaf delta.entry leaf.now (option_copied result.0) result.1 }
{
    match delta {
        Some(Delta::Split { sep, to }) => (Some(sep), Some(*to)),
        _ => (leaf.high(), leaf.side()),
    }
}
