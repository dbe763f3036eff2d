// Pages with too few entries are merged into their left neighbours.
ghost use Rattle.std.specs.Prelude.{◌≡◌, ◌<◌, true, None, length, IfOk, MatchOption, OnErr, OnOk};
ghost use Rattle.std.specs.List.{Contains};
ghost use Rattle.bw_level.specs.Levels.{row};
ghost use Rattle.bw_level.specs.Searches.{IsInLevels};
ghost use Rattle.bw_level.specs.Slots.{slot_at};
ghost use Rattle.bw_look.specs.Routing.{IsInLevel};
ghost use Rattle.bw_look.specs.Shapes.{pairs_on};
ghost use Rattle.bw_shape.specs.Limits.{AreWithinBut, IsWithin};
ghost use Rattle.bw_shape.specs.Sweeps.{HoldsSame};
ghost use Rattle.bw_shape.specs.Tidying.{HoldsAll};
ghost use Rattle.bw_shape.specs.Visits.{FitsLeft, HasAbsorbed, HasRoomOn, IsNext, IsSmall, KeepsWithinAt};

use crate::due::Due;
use crate::halving::{bare, part_all};
use crate::limits::Limits;
use crate::outcome::Tidy;
use bw_key::Memory;
use bw_page::{Page, PageId};
use bw_steps::{Did, absorb, are_under_one, consolidate};
use bw_tree::Tree;

/// Merges the next page, which has too few entries, into its left neighbour, where one page above names both, and the two have
/// no more entries than a page may have. Both are consolidated first, and the merge is finished.
pub(crate) fn merge(
    tree: &mut Tree,
    limits: &Limits,
    due: &mut Due,
    counts: &mut Tidy,
    page: PageId,
    level: u32,
) -> Result<(), Memory>
    requires none { tree.old.staged ≡ None }
    requires next { IsNext due.old.pages page }
    requires within { AreWithinBut limits.now tree.old due.old.pages }
    requires finished { due.old.unfinished ≡ None }
    requires page { IsInLevel tree.old page level }
    requires leaf { Contains (row tree.old.levels 0) page → IsWithin limits.now (slot_at tree.old.slots page) }
    requires small { IsSmall limits.now (slot_at tree.old.slots page) }
    ensures holds { HoldsAll tree.old tree.new }
    ensures within { AreWithinBut limits.now tree.new due.new.pages }
    ensures less { OnOk result (length due.new.pages < length due.old.pages) }
    ensures finished { OnOk result (due.new.unfinished ≡ None) }
{
    tree.know_records();
    let Some(left) = absorbing(tree, limits, page)? else {
        due.pass();
        return Ok(());
    };
    lose_left(tree, limits, counts, left, level)?;
    bare(tree, counts, page, level)?;
    if absorb_next(tree, limits, due, counts, page, level)? {
        return Ok(());
    }
    part_all(tree, limits, due, counts, page, level)
}

// The left neighbour of a page, where one page above names both, and the two have no more entries than a page may have.
fn absorbing(tree: &Tree, limits: &Limits, page: PageId) -> Result<Option<PageId>, Memory>
    requires { page < length tree.now.heads }
    ensures { IfOk result (λ left. MatchOption left (Unit {0}) (HasRoomOn limits.now tree.now)) }
{
    let Some(left) = tree.left_of(page) else {
        return Ok(None);
    };
    if !are_under_one(tree, page, left) {
        return Ok(None);
    }
    if !has_room(tree, limits, left, tree.entries(page))? {
        return Ok(None);
    }
    Ok(Some(left))
}

// Whether a page, as of the next stamp, has room for so many entries more. It costs a look at how many entries and writes it
// has and, where these leave it open, a copy of the page.
fn has_room(tree: &Tree, limits: &Limits, page: PageId, more: usize) -> Result<bool, Memory>
    requires { IsInLevels tree.now.levels page }
    ensures { IfOk result (λ room. room ≡ true → HasRoomOn limits.now tree.now page) }
{
    tree.know_levels();
    tree.know_records();
    tree.know_pairs();
    let entries = tree.entries(page).saturating_add(more) as u64;
    let writes = tree.count_writes(page) as u64;
    if entries.saturating_add(writes) <= limits.page_max() {
        return Ok(true);
    }
    if entries.saturating_sub(writes) > limits.page_max() {
        return Ok(false);
    }
    let count = count_entries(tree, page)?;
    Ok(count.saturating_add(more) as u64 <= limits.page_max())
}

// How many pairs a leaf has as of the next stamp, or how many children an inner page.
fn count_entries(tree: &Tree, page: PageId) -> Result<usize, Memory>
    requires { IsInLevels tree.now.levels page }
    ensures { IfOk result (λ count. count ≡ pairs_on tree.now (slot_at tree.now.slots page)) }
{
    let Some(state) = tree.state(page, tree.next_stamp())? else {
        unreachable!();
    };
    match state {
        Page::Leaf(leaf) => Ok(leaf.pairs().len()),
        Page::Inner(inner) => Ok(inner.children().len()),
        Page::Gone(_) => unreachable!(),
    }
}

// Consolidates the left neighbour of a page that is to be merged into it.
fn lose_left(
    tree: &mut Tree,
    limits: &Limits,
    counts: &mut Tidy,
    left: PageId,
    level: u32,
) -> Result<(), Memory>
    requires none { tree.old.staged ≡ None }
    requires room { HasRoomOn limits.now tree.old left }
    ensures holds { HoldsSame tree.old tree.new }
    ensures within { KeepsWithinAt limits.now tree.old tree.new }
{
    tree.know_levels();
    if consolidate(tree, left)? == Did::Done && level == 0 {
        counts.consolidated = counts.consolidated.saturating_add(1);
    }
    Ok(())
}

// Merges the next page into its left neighbour, where both are base pages by themselves and have no more entries than a page
// may have, and finishes the merge. Whether it did. After `Memory` nothing has changed, or the merge is unfinished.
fn absorb_next(
    tree: &mut Tree,
    limits: &Limits,
    due: &mut Due,
    counts: &mut Tidy,
    page: PageId,
    level: u32,
) -> Result<bool, Memory>
    requires none { tree.old.staged ≡ None }
    requires page { IsInLevel tree.old page level }
    requires next { IsNext due.old.pages page }
    requires within { AreWithinBut limits.now tree.old due.old.pages }
    ensures holds { HoldsAll tree.old tree.new }
    ensures within { AreWithinBut limits.now tree.new due.new.pages }
    ensures ok { IfOk result (HasAbsorbed tree.old tree.new due.old due.new) }
    ensures kept { OnErr result (due.new.unfinished ≡ None → tree.new ≡ tree.old) }
    ensures few { IfOk result (λ merged. merged ≡ true → FitsLeft limits.now tree.old page) }
{
    tree.know_levels();
    tree.know_records();
    if !are_few(tree, limits, page) {
        return Ok(false);
    }
    due.mark_later(tree, page, level)?;
    match absorb(tree, page)? {
        Did::Done => {
            counts.merges = counts.merges.saturating_add(1);
            due.pass_merged(page);
            due.finish_merge(tree, page)?;
            due.set_unfinished(None);
            Ok(true)
        }
        Did::NotNeeded => Ok(false),
    }
}

// Whether a page has a left neighbour, and the two have no more entries, under the writes over them, than a page may have.
fn are_few(tree: &Tree, limits: &Limits, page: PageId) -> bool
    requires { page < length tree.now.heads }
    ensures { result ≡ true → FitsLeft limits.now tree.now page }
{
    tree.know_levels();
    tree.know_records();
    let Some(left) = tree.left_of(page) else {
        return false;
    };
    let both = tree.entries(left).saturating_add(tree.entries(page));
    both as u64 <= limits.page_max()
}
