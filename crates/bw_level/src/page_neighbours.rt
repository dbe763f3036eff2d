// The right neighbours of pages.
ghost use Rattle.std.specs.Prelude.{◌≡◌, Some, is_some, IfSome};
ghost use Rattle.std.specs.Option.{option_copied};
ghost use Rattle.bw_level.specs.Changes.{Bases, change, plain};
ghost use Rattle.bw_level.specs.Roots.{IsNeighbour};
ghost use Rattle.bw_level.specs.Slots.{side_of_slot};
ghost use Rattle.bw_level.specs.Targets.{IsLinked};
ghost use Rattle.bw_level.specs.Turns.{IsOther};
ghost use Rattle.bw_delta.specs.declared.deltas.Delta.TheVariants.{Split};

use bw_delta::Delta;
use bw_key::Key;
use bw_page::{Page, PageId};

/// The level of a base page with one change over it, the key where its range ends, and its right neighbour, where it
/// has one. The change isn't a write.
pub fn neighbour_over<'a>(delta: &'a Delta, base: &'a Page) -> Option<(u32, &'a Key, PageId)>
    requires other { IsOther delta.now }
    requires linked { (bases : Bases) → IsLinked (change bases delta.now (plain base.now)) }
    ensures there { (bases : Bases) →
        is_some result ≡ is_some (side_of_slot (change bases delta.now (plain base.now))) }
    ensures page { IfSome result (λ found. (bases : Bases) →
        IsNeighbour (change bases delta.now (plain base.now)) found.0 found.1.now found.2) }
{
    match delta {
        Delta::Split { sep, to } => neighbour_split(sep, *to, base),
        Delta::AddChild { .. } | Delta::Absorb { .. } | Delta::DropChild { .. } => neighbour_plain(
            base,
        ),
        _ => unreachable!(),
    }
}

// The same of a page that was split.
fn neighbour_split<'a>(sep: &'a Key, to: PageId, base: &'a Page) -> Option<(u32, &'a Key, PageId)>
    ensures there { (bases : Bases) →
        is_some result ≡ is_some (side_of_slot (change bases (Split sep.now to) (plain base.now))) }
    ensures page { IfSome result (λ found. (bases : Bases) →
        IsNeighbour (change bases (Split sep.now to) (plain base.now)) found.0 found.1.now found.2) }
{
    match base {
        Page::Leaf(_) => Some((0, sep, to)),
        Page::Inner(inner) => Some((inner.level(), sep, to)),
        Page::Gone(_) => None,
    }
}

/// The same of a base page by itself.
pub fn neighbour_plain<'a>(base: &'a Page) -> Option<(u32, &'a Key, PageId)>
    requires { IsLinked (plain base.now) }
    ensures there { is_some result ≡ is_some (side_of_slot (plain base.now)) }
    ensures page { IfSome result (λ found. IsNeighbour (plain base.now) found.0 found.1.now found.2) }
{
    match base {
        Page::Leaf(leaf) => neighbour_of(0, leaf.high(), leaf.side()),
        Page::Inner(inner) => neighbour_of(inner.level(), inner.high(), inner.side()),
        Page::Gone(_) => None,
    }
}

// The same of a page of this level, which ends here and has this right neighbour.
fn neighbour_of<'a>(
    level: u32,
    high: Option<&'a Key>,
    side: Option<PageId>,
) -> Option<(u32, &'a Key, PageId)>
    requires { is_some side ≡ is_some (option_copied high) }
    ensures there { is_some result ≡ is_some side }
    ensures page { IfSome result
        (λ found. (found.0 ≡ level) × (option_copied high.entry ≡ Some found.1.now) × (side ≡ Some found.2)) }
{
    Some((level, high?, side?))
}
