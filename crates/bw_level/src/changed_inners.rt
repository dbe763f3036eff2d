// Inner pages with a change over them, as pages by themselves.
ghost use Rattle.std.specs.Prelude.{◌≡◌, Some, IfOk};
ghost use Rattle.bw_page.specs.Inners.{IsInner};
ghost use Rattle.bw_page.specs.Pages.{below};
ghost use Rattle.bw_level.specs.Changes.{Bases};
ghost use Rattle.bw_level.specs.Searches.{plain_inner};
ghost use Rattle.bw_level.specs.Slots.{IsSoundInner};
ghost use Rattle.bw_level.specs.Turns.{IsNoWrite, over};

use bw_delta::Delta;
use bw_key::{Key, Memory};
use bw_page::{Children, Inner, PageId};

/// What a change, if there is one, makes of an inner page, as a page by itself. The change isn't a write. It costs a
/// copy of the children that are left, by blocks. `Memory` is answered where their list or the copy of a bound finds none.
pub fn inner_over(delta: Option<&Delta>, base: &Inner) -> Result<Inner, Memory>
    requires other { IsNoWrite delta }
    requires sound { (bases : Bases) → IsSoundInner (over bases delta (plain_inner base.now)) }
    ensures { IfOk result (λ inner. (bases : Bases) →
        plain_inner inner ≡ over bases delta.entry (plain_inner base.now)) }
{
    let Some(delta) = delta else {
        return base.upper_half(0);
    };
    match delta {
        Delta::Split { sep, to } => lower_part(base, sep, *to),
        Delta::AddChild { sep, child } => base.with_child(sep, *child),
        Delta::Absorb { .. } | Delta::DropChild { .. } => base.upper_half(0),
        _ => unreachable!(),
    }
}

// The part of an inner page below a separator, with this right neighbour.
fn lower_part(base: &Inner, sep: &Key, side: PageId) -> Result<Inner, Memory>
    requires { IsInner base.now.level base.now.low (Some sep.now) (Some side) (below sep.now base.now.children) }
    ensures { IfOk result (λ part. part
        ≡ record base.now { high = Some sep.now; side = Some side; children = below sep.now base.now.children }) }
{
    let children = children_below(base, sep)?;
    let low = base.low().copy()?;
    Ok(Inner::from_children(base.level(), low, Some(sep.copy()?), Some(side), children))
}

// The children of an inner page below a separator, in a list of their own.
fn children_below(inner: &Inner, sep: &Key) -> Result<Children, Memory>
    ensures { IfOk result (λ kept. kept ≡ below sep.now inner.now.children) }
{
    let children = inner.children();
    children.copy(0..children.place(sep))
}
