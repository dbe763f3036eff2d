// Pages with too many entries are split into halves, until none has too many.
ghost use Rattle.std.specs.Prelude.{◌≡◌, ◌<◌, ◌≤◌, ◌^◌, false, true, None, length, slice_index, IfOk, OnOk, OnErr};
ghost use Rattle.bw_level.specs.Searches.{IsInLevels};
ghost use Rattle.bw_look.specs.Routing.{IsInLevel};
ghost use Rattle.bw_tree.specs.TreeSplits.{IsSplittable};
ghost use Rattle.bw_shape.specs.Limits.{AreWithinBut};
ghost use Rattle.bw_shape.specs.Tidying.{HoldsAll, KeepsWithin};
ghost use Rattle.bw_shape.specs.Visits.{HasMany, HasPassed, IsBare, IsHalved, IsNext, IsPart, StandBefore};

use crate::due::Due;
use crate::limits::Limits;
use crate::outcome::Tidy;
use crate::visits::is_over;
use bw_key::Memory;
use bw_page::PageId;
use bw_steps::{lose_chain, may_part};
use bw_tree::Tree;

/// Splits the next page, which has no record, into halves until none has too many entries, and finishes the splits. The
/// halves of a root get a root above them before they are split.
pub(crate) fn part_all(
    tree: &mut Tree,
    limits: &Limits,
    due: &mut Due,
    counts: &mut Tidy,
    page: PageId,
    level: u32,
) -> Result<(), Memory>
    requires none { tree.old.staged ≡ None }
    requires page { IsInLevel tree.old page level }
    requires plain { slice_index tree.old.heads page < 2 ^ 32 }
    requires next { IsNext due.old.pages page }
    requires within { AreWithinBut limits.now tree.old due.old.pages }
    ensures holds { HoldsAll tree.old tree.new }
    ensures within { AreWithinBut limits.now tree.new due.new.pages }
    ensures less { OnOk result (length due.new.pages < length due.old.pages) }
    ensures finished { OnOk result (due.new.unfinished ≡ None) }
{
    if is_top(tree, level) {
        return part_root(tree, limits, due, counts, page, level);
    }
    part_below(tree, limits, due, counts, page, level)
}

// The same of a root.
fn part_root(
    tree: &mut Tree,
    limits: &Limits,
    due: &mut Due,
    counts: &mut Tidy,
    page: PageId,
    level: u32,
) -> Result<(), Memory>
    requires none { tree.old.staged ≡ None }
    requires page { IsInLevel tree.old page level }
    requires plain { slice_index tree.old.heads page < 2 ^ 32 }
    requires next { IsNext due.old.pages page }
    requires within { AreWithinBut limits.now tree.old due.old.pages }
    ensures holds { HoldsAll tree.old tree.new }
    ensures within { AreWithinBut limits.now tree.new due.new.pages }
    ensures less { OnOk result (length due.new.pages < length due.old.pages) }
    ensures finished { OnOk result (due.new.unfinished ≡ None) }
{
    let others = due.len() - 1;
    due.set_unfinished(Some(page));
    if !part(tree, limits, due, counts, page)? {
        due.set_unfinished(None);
        return Ok(());
    }
    due.finish(tree, page)?;
    due.set_unfinished(None);
    part_each(tree, limits, due, counts, others)
}

// Looks at the pages that are due before so many others: the halves of what was the root.
fn part_each(
    tree: &mut Tree,
    limits: &Limits,
    due: &mut Due,
    counts: &mut Tidy,
    others: usize,
) -> Result<(), Memory>
    requires none { tree.old.staged ≡ None }
    requires within { AreWithinBut limits.now tree.old due.old.pages }
    requires finished { due.old.unfinished ≡ None }
    ensures holds { HoldsAll tree.old tree.new }
    ensures within { AreWithinBut limits.now tree.new due.new.pages }
    ensures less { OnOk result (length due.new.pages ≤ others) }
    ensures finished { OnOk result (due.new.unfinished ≡ None) }
{
    while let Some(page) = due.next_before(others) {
        part_next(tree, limits, due, counts, page)?;
    }
    Ok(())
}

// Looks at the next page, which isn't the root: where it is over a limit, it's consolidated and, if it has too many entries
// still, split.
fn part_next(
    tree: &mut Tree,
    limits: &Limits,
    due: &mut Due,
    counts: &mut Tidy,
    page: PageId,
) -> Result<(), Memory>
    requires none { tree.old.staged ≡ None }
    requires next { IsNext due.old.pages page }
    requires within { AreWithinBut limits.now tree.old due.old.pages }
    requires finished { due.old.unfinished ≡ None }
    ensures holds { HoldsAll tree.old tree.new }
    ensures within { AreWithinBut limits.now tree.new due.new.pages }
    ensures less { OnOk result (length due.new.pages < length due.old.pages) }
    ensures finished { OnOk result (due.new.unfinished ≡ None) }
{
    if !is_over(tree, limits, page) {
        due.pass();
        return Ok(());
    }
    let Some(level) = tree.in_level(page) else {
        due.pass();
        return Ok(());
    };
    bare(tree, counts, page, level)?;
    part_below(tree, limits, due, counts, page, level)
}

// Splits the next page, which has no record, into halves until none has too many entries, and finishes the splits.
fn part_below(
    tree: &mut Tree,
    limits: &Limits,
    due: &mut Due,
    counts: &mut Tidy,
    page: PageId,
    level: u32,
) -> Result<(), Memory>
    requires none { tree.old.staged ≡ None }
    requires page { IsInLevel tree.old page level }
    requires plain { slice_index tree.old.heads page < 2 ^ 32 }
    requires next { IsNext due.old.pages page }
    requires within { AreWithinBut limits.now tree.old due.old.pages }
    ensures holds { HoldsAll tree.old tree.new }
    ensures within { AreWithinBut limits.now tree.new due.new.pages }
    ensures less { OnOk result (length due.new.pages < length due.old.pages) }
    ensures finished { OnOk result (due.new.unfinished ≡ None) }
{
    let others = due.len() - 1;
    due.set_unfinished(Some(page));
    if !part(tree, limits, due, counts, page)? {
        due.set_unfinished(None);
        return Ok(());
    }
    part_halves(tree, limits, due, counts, others, level)?;
    due.finish(tree, page)?;
    due.set_unfinished(None);
    Ok(())
}

// Looks at the pages that are due before so many others, which stand on one level: the halves of a page.
fn part_halves(
    tree: &mut Tree,
    limits: &Limits,
    due: &mut Due,
    counts: &mut Tidy,
    others: usize,
    level: u32,
) -> Result<(), Memory>
    requires none { tree.old.staged ≡ None }
    requires stand { StandBefore tree.old level others due.old.pages }
    requires within { AreWithinBut limits.now tree.old due.old.pages }
    ensures holds { HoldsAll tree.old tree.new }
    ensures within { AreWithinBut limits.now tree.new due.new.pages }
    ensures upto { OnOk result (length due.new.pages ≤ others) }
{
    while let Some(page) = due.next_before(others) {
        part_half(tree, limits, due, counts, page, level)?;
    }
    Ok(())
}

// Whether a level is the root's.
fn is_top(tree: &Tree, level: u32) -> bool {
    match tree.in_level(tree.root()) {
        Some(top) => level >= top,
        None => false,
    }
}

// Looks at the next page, which stands on this level: where it is over a limit, it's consolidated and split.
fn part_half(
    tree: &mut Tree,
    limits: &Limits,
    due: &mut Due,
    counts: &mut Tidy,
    page: PageId,
    level: u32,
) -> Result<(), Memory>
    requires none { tree.old.staged ≡ None }
    requires page { IsInLevel tree.old page level }
    requires next { IsNext due.old.pages page }
    requires within { AreWithinBut limits.now tree.old due.old.pages }
    ensures holds { HoldsAll tree.old tree.new }
    ensures within { AreWithinBut limits.now tree.new due.new.pages }
    ensures ok { OnOk result (HasPassed tree.old tree.new due.old due.new page level) }
{
    if !is_over(tree, limits, page) {
        due.pass();
        return Ok(());
    }
    bare(tree, counts, page, level)?;
    part(tree, limits, due, counts, page)?;
    Ok(())
}

// Splits the next page, which has no record, where it has too many entries. Whether it has.
fn part(
    tree: &mut Tree,
    limits: &Limits,
    due: &mut Due,
    counts: &mut Tidy,
    page: PageId,
) -> Result<bool, Memory>
    requires none { tree.old.staged ≡ None }
    requires page { IsInLevels tree.old.levels page }
    requires plain { slice_index tree.old.heads page < 2 ^ 32 }
    requires next { IsNext due.old.pages page }
    requires within { AreWithinBut limits.now tree.old due.old.pages }
    ensures holds { HoldsAll tree.old tree.new }
    ensures within { AreWithinBut limits.now tree.new due.new.pages }
    ensures ok { IfOk result (IsPart tree.old tree.new due.old due.new page) }
    ensures many { IfOk result (λ split. split ≡ true → HasMany limits.now tree.old page) }
{
    tree.know_levels();
    tree.know_records();
    let count = tree.entries(page);
    if count as u64 <= limits.page_max() {
        due.pass();
        return Ok(false);
    }
    let keep = count / 2;
    if !may_part(tree, page, keep) {
        due.pass();
        return Ok(false);
    }
    halve(tree, due, counts, page, keep)?;
    Ok(true)
}

// Splits the next page in two, both of which are to be looked at.
fn halve(
    tree: &mut Tree,
    due: &mut Due,
    counts: &mut Tidy,
    page: PageId,
    keep: usize,
) -> Result<(), Memory>
    requires none { tree.old.staged ≡ None }
    requires page { IsSplittable tree.old page keep }
    requires next { IsNext due.old.pages page }
    ensures holds { HoldsAll tree.old tree.new }
    ensures within { KeepsWithin tree.old tree.new due.old.pages due.new.pages }
    ensures ok { OnOk result (IsHalved tree.old tree.new due.old due.new page keep) }
{
    due.split_next(tree, page, keep)?;
    counts.splits = counts.splits.saturating_add(1);
    tree.know_records();
    Ok(())
}

/// Consolidates a page of a level where it has records.
pub(crate) fn bare(
    tree: &mut Tree,
    counts: &mut Tidy,
    page: PageId,
    level: u32,
) -> Result<(), Memory>
    requires none { tree.old.staged ≡ None }
    requires page { IsInLevel tree.old page level }
    ensures ok { OnOk result (IsBare tree.old tree.new page) }
    ensures err { OnErr result (tree.new ≡ tree.old) }
{
    tree.know_records();
    if tree.is_plain(page) {
        return Ok(());
    }
    lose_chain(tree, page, level)?;
    if level == 0 {
        counts.consolidated = counts.consolidated.saturating_add(1);
    }
    Ok(())
}
