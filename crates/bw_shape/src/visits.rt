// What tidying does where it comes to a page: it leaves the page alone, splits it, or merges it into its left neighbour.
ghost use Rattle.std.specs.Prelude.{◌≡◌, ◌<◌, ◌≤◌, ◌⊎◌, false, true, None, length, OnOk};
ghost use Rattle.std.specs.List.{Contains};
ghost use Rattle.bw_level.specs.Levels.{row};
ghost use Rattle.bw_level.specs.Slots.{slot_at};
ghost use Rattle.bw_level.specs.Splits.{slot_entries};
ghost use Rattle.bw_look.specs.Routing.{IsInLevel};
ghost use Rattle.bw_shape.specs.Limits.{AreWithinBut, IsWithin};
ghost use Rattle.bw_shape.specs.Tidying.{HoldsAll};
ghost use Rattle.bw_shape.specs.Visits.{HasShortChain, IsNext, IsOver, IsSmall};

use crate::absorbing::merge;
use crate::due::Due;
use crate::halving::{bare, part_all};
use crate::limits::Limits;
use crate::outcome::Tidy;
use crate::siblings::may_merge;
use bw_key::Memory;
use bw_page::PageId;
use bw_tree::Tree;

/// Looks at the next page. A leaf that isn't due is left as it is, and an inner page above this level is put off until the
/// pages of its level are looked at.
pub(crate) fn visit(
    tree: &mut Tree,
    limits: &Limits,
    due: &mut Due,
    counts: &mut Tidy,
    page: PageId,
    level: u32,
) -> Result<(), Memory>
    requires none { tree.old.staged ≡ None }
    requires next { IsNext due.old.pages page }
    requires within { AreWithinBut limits.now tree.old due.old.pages }
    requires finished { due.old.unfinished ≡ None }
    ensures holds { HoldsAll tree.old tree.new }
    ensures within { AreWithinBut limits.now tree.new due.new.pages }
    ensures less { OnOk result (length due.new.pages < length due.old.pages) }
    ensures finished { OnOk result (due.new.unfinished ≡ None) }
{
    tree.know_levels();
    let Some(stands) = tree.in_level(page) else {
        due.pass();
        return Ok(());
    };
    if stands > level {
        due.put_off(page)?;
        return Ok(());
    }
    if stands > 0 {
        return look(tree, limits, due, counts, page, stands);
    }
    let leaf_is_due = is_due(tree, limits, page, due.has_begun(page));
    visit_leaf(tree, limits, due, counts, page, leaf_is_due)
}

// Looks at the next page, a leaf. One that is due is consolidated, and split or merged, if need be; another one is left as it is.
fn visit_leaf(
    tree: &mut Tree,
    limits: &Limits,
    due: &mut Due,
    counts: &mut Tidy,
    page: PageId,
    is_due: bool,
) -> Result<(), Memory>
    requires none { tree.old.staged ≡ None }
    requires next { IsNext due.old.pages page }
    requires within { AreWithinBut limits.now tree.old due.old.pages }
    requires finished { due.old.unfinished ≡ None }
    requires leaf { IsInLevel tree.old page 0 }
    requires fits { is_due ≡ false → Contains (row tree.old.levels 0) page →
        IsWithin limits.now (slot_at tree.old.slots page) }
    ensures holds { HoldsAll tree.old tree.new }
    ensures within { AreWithinBut limits.now tree.new due.new.pages }
    ensures less { OnOk result (length due.new.pages < length due.old.pages) }
    ensures finished { OnOk result (due.new.unfinished ≡ None) }
{
    if !is_due {
        due.pass();
        return Ok(());
    }
    due.begin_leaf(page)?;
    bare(tree, counts, page, 0)?;
    tree.know_records();
    look(tree, limits, due, counts, page, 0)?;
    due.end_leaf(page);
    Ok(())
}

// Whether a leaf is over a limit, or may be merged and was consolidated before tidying stopped, or was marked.
fn is_due(tree: &Tree, limits: &Limits, page: PageId, begun: bool) -> bool
    ensures yes { result ≡ true → IsOver limits.now (slot_at tree.now.slots page) ⊎ (begun ≡ true) }
    ensures no { result ≡ false → Contains (row tree.now.levels 0) page →
        IsWithin limits.now (slot_at tree.now.slots page) }
{
    is_over(tree, limits, page) || begun && may_merge(tree, limits, page)
}

// Looks at the next page, by how many entries it has: with too few it's merged into its left neighbour, and with too many
// it's split. A leaf has no record.
fn look(
    tree: &mut Tree,
    limits: &Limits,
    due: &mut Due,
    counts: &mut Tidy,
    page: PageId,
    level: u32,
) -> Result<(), Memory>
    requires none { tree.old.staged ≡ None }
    requires next { IsNext due.old.pages page }
    requires within { AreWithinBut limits.now tree.old due.old.pages }
    requires finished { due.old.unfinished ≡ None }
    requires page { IsInLevel tree.old page level }
    requires short { HasShortChain limits.now tree.old page }
    ensures holds { HoldsAll tree.old tree.new }
    ensures within { AreWithinBut limits.now tree.new due.new.pages }
    ensures less { OnOk result (length due.new.pages < length due.old.pages) }
    ensures finished { OnOk result (due.new.unfinished ≡ None) }
{
    tree.know_records();
    if is_small(tree, limits, page) {
        return merge(tree, limits, due, counts, page, level);
    }
    due.end_leaf(page);
    if tree.entries(page) as u64 <= limits.page_max() {
        due.pass();
        return Ok(());
    }
    bare(tree, counts, page, level)?;
    part_all(tree, limits, due, counts, page, level)
}

// Whether a page has too few entries.
fn is_small(tree: &Tree, limits: &Limits, page: PageId) -> bool
    requires { page < length tree.now.heads }
    ensures small { result ≡ true → IsSmall limits.now (slot_at tree.now.slots page) }
    ensures few { result ≡ true → slot_entries (slot_at tree.now.slots page) ≤ limits.now.page_max }
    ensures enough { result ≡ false → IsSmall limits.now (slot_at tree.now.slots page) → ⊥ }
{
    (tree.entries(page) as u64) < limits.page_min()
}

/// Whether a page is a leaf that is over a limit, or an inner page with too many children. It costs some walks along its chain.
pub fn is_over(tree: &Tree, limits: &Limits, page: PageId) -> bool
    ensures over { result ≡ true → IsOver limits.now (slot_at tree.now.slots page) }
    ensures within { result ≡ false → Contains (row tree.now.levels 0) page →
        IsWithin limits.now (slot_at tree.now.slots page) }
    ensures not { result ≡ false → page < length tree.now.heads → IsOver limits.now (slot_at tree.now.slots page) → ⊥ }
{
    tree.know_records();
    (page.0 as usize) < tree.heads().len()
        && (tree.count_writes(page) as u64 > limits.chain_max()
            || tree.entries(page) as u64 > limits.page_max())
}
