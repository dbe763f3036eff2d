// Lists of a tree's pages, in the order in which tidying looks at them.
ghost use Rattle.std.specs.Prelude.{◌≡◌, ℕ, ◌+◌, ◌<◌, ◌≤◌, ◌^◌, drop, length, IfOk, IfSome, OnOk, vec_capacity, true};
ghost use Rattle.std.specs.List.{Contains, concat};
ghost use Rattle.bw_level.specs.Levels.{row};
ghost use Rattle.bw_shape.specs.Sweeps.{HasAllRecorded};

use bw_chain::FLOOR;
use bw_key::Memory;
use bw_memory::Alloc;
use bw_page::PageId;
use bw_tree::Tree;
use std::cmp::Ordering;

/// The leaves, in the order of keys.
pub(crate) fn leaf_pages(tree: &Tree) -> Result<Vec<PageId, Alloc>, Memory>
    ensures { IfOk result (λ leaves. leaves.items ≡ row tree.now.levels 0) }
{
    tree.know_levels();
    tree.level_pages(0)
}

/// The inner pages, the lowest level first, each level in the order of keys.
pub(crate) fn inner_pages(alloc: Alloc, tree: &Tree) -> Result<Vec<PageId, Alloc>, Memory>
    ensures { IfOk result (λ pages. pages.items ≡ concat (drop 1 tree.now.levels)) }
{
    let mut pages = Vec::new(alloc);
    for level in 0..tree.root_level() {
        pages.extend_from_slice(&tree.level_pages(level + 1)?)?;
    }
    Ok(pages)
}

/// The pages that have records, in the order of the keys at which they begin. It costs a look at each mapping word, and for n
/// such pages some n log2 n comparisons of keys, each of which looks at the two base pages.
pub(crate) fn recorded_pages(alloc: Alloc, tree: &Tree) -> Result<Vec<PageId, Alloc>, Memory>
    ensures { IfOk result (λ pages. HasAllRecorded tree.now pages.items) }
{
    tree.know_records();
    let heads = tree.heads();
    let mut pages = Vec::new(alloc);
    for place in 0..heads.len() {
        add_recorded(&mut pages, PageId(place as u32), heads[place])?;
    }
    sort_by_low_key(tree, &mut pages);
    Ok(pages)
}

// Adds a page, if its mapping word names a record.
fn add_recorded(pages: &mut Vec<PageId, Alloc>, page: PageId, head: u64) -> Result<(), Memory>
    ensures here { OnOk result (2 ^ 32 ≤ head → Contains pages.new.items page) }
    ensures kept { (p : ℕ) → Contains pages.old.items p → Contains pages.new.items p }
{
    if head >= FLOOR {
        pages.push(page)?;
    }
    Ok(())
}

/// Sorts pages by the keys at which they begin, and those that begin at one key, of several levels, by their identifiers: so a
/// page that stands there twice stands side by side. It takes no memory.
pub(crate) fn sort_by_low_key(tree: &Tree, pages: &mut Vec<PageId, Alloc>)
    ensures kept { (p : ℕ) → Contains pages.old.items p → Contains pages.new.items p }
    ensures only { (p : ℕ) → Contains pages.new.items p → Contains pages.old.items p }
{
    pages.sort_unstable_by(|a, b| by_low_key(tree, *a, *b));
}

/// How two pages stand by the keys at which they begin, and where these are equal by their identifiers.
pub(crate) fn by_low_key(tree: &Tree, a: PageId, b: PageId) -> Ordering {
    let order = tree.low_key(a).cmp(&tree.low_key(b));
    order.then(a.0.cmp(&b.0))
}

/// Adds an inner page, whose children have changed, to a list with room for two more, and before it its right neighbour,
/// which may be merged into it now. It adds none where both are the last ones already, as the pages of one parent come one
/// after another. It costs a walk along the page's chain.
pub(crate) fn mark(pages: &mut Vec<PageId, Alloc>, tree: &Tree, page: PageId)
    requires { length pages.old.items + 2 ≤ vec_capacity pages.old }
    ensures { Contains pages.new.items page }
{
    let Some(right) = right_neighbour(tree, page) else {
        if pages.last().copied() != Some(page) {
            pages.push(page).unwrap();
        }
        return;
    };
    if ends_with(pages, right, page) {
        return;
    }
    pages.push(right).unwrap();
    pages.push(page).unwrap();
}

// Whether the last two pages of a list are these.
fn ends_with(pages: &[PageId], before: PageId, last: PageId) -> bool
    ensures { result ≡ true → Contains pages.now last }
{
    if pages.last().copied() != Some(last) {
        return false;
    }
    pages.len() > 1 && pages[pages.len() - 2] == before
}

// The right neighbour of a page, or none for a page of no level.
fn right_neighbour(tree: &Tree, page: PageId) -> Option<PageId> {
    let Some(_) = tree.in_level(page) else {
        return None;
    };
    tree.right_of(page)
}

/// The page of the level below whose range has the key at which an inner page begins: its first child.
pub(crate) fn first_below(tree: &Tree, page: PageId, level: u32) -> Option<PageId> {
    let Some(low) = tree.low_key(page) else {
        return None;
    };
    tree.above(level.saturating_sub(1), low)
}

/// The least level above this one on which one of these pages stands.
pub(crate) fn least_level(tree: &Tree, pages: &[PageId], level: u32) -> Option<u32>
    ensures { IfSome result (λ least. level < least) }
{
    let mut least = None;
    for page in pages {
        least = lesser(least, tree.in_level(*page), level);
    }
    least
}

// The lesser of two levels, the second of which counts if it is above this one.
fn lesser(least: Option<u32>, other: Option<u32>, level: u32) -> Option<u32>
    ensures { IfSome least (λ least. level < least) → IfSome result (λ least. level < least) }
{
    let Some(other) = other else {
        return least;
    };
    if other <= level {
        return least;
    }
    match least {
        Some(least) => Some(least.min(other)),
        None => Some(other),
    }
}

/// Those of these pages that stand on a level.
pub(crate) fn pages_on(
    alloc: Alloc,
    tree: &Tree,
    pages: &[PageId],
    level: u32,
) -> Result<Vec<PageId, Alloc>, Memory> {
    let mut on = Vec::new(alloc);
    for page in pages {
        if tree.in_level(*page) == Some(level) {
            on.push(*page)?;
        }
    }
    Ok(on)
}

/// Those of these pages that stand on the levels above one.
pub(crate) fn pages_over(
    alloc: Alloc,
    tree: &Tree,
    pages: &[PageId],
    level: u32,
) -> Result<Vec<PageId, Alloc>, Memory> {
    let mut over = Vec::new(alloc);
    for page in pages {
        if tree.in_level(*page) > Some(level) {
            over.push(*page)?;
        }
    }
    Ok(over)
}
