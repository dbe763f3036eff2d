// Where a search goes on from a page.
ghost use Rattle.bw_level.specs.Changes.{Bases, change, plain};
ghost use Rattle.bw_level.specs.Targets.{IsLinked, IsTurnFor, IsWithinFor, StartsFrom};
ghost use Rattle.bw_level.specs.Turns.{IsOther};
ghost use Rattle.bw_delta.specs.declared.deltas.Delta.TheVariants.{AddChild, Split};

use crate::target::Target;
use bw_delta::Delta;
use bw_key::Key;
use bw_page::{Page, PageId};

/// Where a search goes on from a page.
#[derive(Clone, Copy, Debug, PartialEq, Eq)]
pub enum Turn {
    /// It ends: the page is the leaf that it is for.
    Here,
    /// At the right neighbour, past the end of the page's range.
    Right(PageId),
    /// At a child.
    Down(PageId),
    /// At the left neighbour of a page that was removed.
    Left(PageId),
}

/// Where a search goes on from a base page with one change over it. The page's range doesn't begin behind what is
/// sought, and the change isn't a write. A binary search goes through the separators of an inner page. It takes no
/// memory.
pub fn turn_over(delta: &Delta, base: &Page, target: Target<'_>) -> Turn
    requires starts { StartsFrom (plain base.now) target }
    requires linked { (bases : Bases) → IsLinked (change bases delta.now (plain base.now)) }
    requires other { IsOther delta.now }
    ensures { (bases : Bases) → IsTurnFor target.entry (change bases delta.now (plain base.now)) result }
{
    match delta {
        Delta::Split { sep, to } => turn_split(sep, *to, base, target),
        Delta::AddChild { sep, child } => turn_with_child(sep, *child, base, target),
        Delta::Absorb { .. } | Delta::DropChild { .. } => turn_plain(base, target),
        _ => unreachable!(),
    }
}

// Where it goes on from a page that was split.
fn turn_split(sep: &Key, to: PageId, base: &Page, target: Target<'_>) -> Turn
    requires { StartsFrom (plain base.now) target }
    ensures { (bases : Bases) → IsTurnFor target.entry (change bases (Split sep.now to) (plain base.now)) result }
{
    if !target.lies_from(sep.bytes()) {
        return turn_within(base, target);
    }
    match base {
        Page::Gone(removed) => Turn::Left(removed.left),
        _ => Turn::Right(to),
    }
}

// Where it goes on from a page that was given a child, which changes an inner page alone.
fn turn_with_child(sep: &Key, child: PageId, base: &Page, target: Target<'_>) -> Turn
    requires starts { StartsFrom (plain base.now) target }
    requires linked { IsLinked (plain base.now) }
    ensures { (bases : Bases) → IsTurnFor target.entry (change bases (AddChild sep.now child) (plain base.now)) result }
{
    let Page::Inner(inner) = base else {
        return turn_plain(base, target);
    };
    match target.past(inner.high(), inner.side()) {
        Some(next) => Turn::Right(next),
        None => Turn::Down(target.child_with(inner, sep, child)),
    }
}

/// Where a search goes on from a base page by itself, whose range doesn't begin behind what is sought.
pub fn turn_plain(base: &Page, target: Target<'_>) -> Turn
    requires starts { StartsFrom (plain base.now) target }
    requires linked { IsLinked (plain base.now) }
    ensures { IsTurnFor target.entry (plain base.now) result }
{
    let next = match base {
        Page::Leaf(leaf) => target.past(leaf.high(), leaf.side()),
        Page::Inner(inner) => target.past(inner.high(), inner.side()),
        Page::Gone(_) => None,
    };
    match next {
        Some(next) => Turn::Right(next),
        None => turn_within(base, target),
    }
}

// Where it goes on from a base page whose range doesn't end before what is sought.
fn turn_within(base: &Page, target: Target<'_>) -> Turn
    requires { StartsFrom (plain base.now) target }
    ensures { IsWithinFor target.entry (plain base.now) result }
{
    match base {
        Page::Leaf(_) => Turn::Here,
        Page::Inner(inner) => Turn::Down(target.child(inner)),
        Page::Gone(removed) => Turn::Left(removed.left),
    }
}
