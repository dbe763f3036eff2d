// Workers who look at the pages that are due.
ghost use Rattle.std.specs.Prelude.{◌≡◌, ◌<◌, false, None, [], ◌∷◌, map, IfOk, OnErr, OnOk};
ghost use Rattle.std.specs.List.{AllByRecursion};
ghost use Rattle.bw_shape.specs.Limits.{AreWithinBut, LimitsView};
ghost use Rattle.bw_shape.specs.Sweeps.{HoldsSame};
ghost use Rattle.bw_shape.specs.Tidying.{AreAmong, HasNoneDue, HoldsAll};
ghost use Rattle.bw_tidy.specs.Findings.{AreFindings, AreListed, ArePut, IsFinding, IsLeafAt, IsListed};

use crate::findings::{Finding, inspect};
use crate::leaf_findings::Findings;
use bw_key::Memory;
use bw_memory::Alloc;
use bw_page::PageId;
use bw_shape::{Due, Limits, Tidy, tidy_due};
use bw_tree::Tree;
use std::thread::{Threads, for_each_mut};

// How many pages are worth a thread: where some of them are consolidated, they take longer than its start.
const LEAST_PAGES: usize = 64;

/// Tidies, as `tidy_due` does, by up to so many workers: one for each 64 pages that are due, and one at least. Where there are
/// two or more, they look at the pages side by side, each in a thread of its own where one can be made, and consolidate the
/// leaves that are over a limit. What is left is done by one thread: these leaves take the places of their chains, and those
/// that have too few or too many pairs are merged or split.
///
/// Which pages there are then, and what is counted, doesn't depend on the number of workers, where each page is due once and
/// no memory is refused. It costs what `tidy_due` does, a place in three lists for each page that is due, and, until they take
/// their places, the memory of all leaves that were consolidated beside that of the pages for which they stand. A worker whose
/// leaf finds no memory leaves it to the one thread, and where a list finds none, that does all. So it does while leaves are
/// due that were consolidated before: behind a stop, or while the batch was answered (`put_findings`).
pub fn tidy_by<R: Threads + Sync>(
    rt: &R,
    tree: &mut Tree,
    limits: &Limits,
    due: &mut Due,
    workers: u64,
) -> Tidy
    requires none { tree.old.staged ≡ None }
    requires within { AreWithinBut limits.now tree.old due.old.pages }
    ensures holds { HoldsAll tree.old tree.new }
    ensures within { AreWithinBut limits.now tree.new due.new.pages }
    ensures all { result.stopped ≡ false → HasNoneDue due.new }
{
    let most = (due.pages().len() / LEAST_PAGES) as u64;
    let count = most.min(workers) as usize;
    let consolidated = consolidate_due(rt, tree, limits, due, count).unwrap_or(0);
    let tidy = tidy_due(tree, limits, due);
    Tidy {
        consolidated: tidy.consolidated.saturating_add(consolidated),
        ..tidy
    }
}

/// Puts leaves that were consolidated while a batch was answered in the places of their chains, and answers how many there
/// are. Those of them that have too few or too many pairs stay due, and so do the pages that are due of which nothing was
/// found (`tidy_by` looks at them); all others aren't due any more.
///
/// The findings are of this tree as of its next stamp, and no batch is staged. It costs a place in three lists for each page
/// that is due, and nothing where there is nothing to do at the leaves of which it is told. After `Memory` all is as before,
/// and so it is behind a stop, while leaves that were consolidated before it are due.
pub fn put_findings(tree: &mut Tree, due: &mut Due, findings: Findings) -> Result<u64, Memory>
    requires none { tree.old.staged ≡ None }
    requires found { AreFindings tree.old tree.old.next findings }
    ensures same { HoldsSame tree.old tree.new }
    ensures within { AreWithinBut findings.limits tree.old due.old.pages →
        AreWithinBut findings.limits tree.new due.new.pages }
    ensures err { OnErr result (tree.new ≡ tree.old) }
    ensures due { OnErr result (due.new ≡ due.old) }
{
    if findings.has_none_due() || due.has_leaves_begun() {
        return Ok(0);
    }
    let pages = Vec::with_capacity(due.alloc(), due.pages().len())?;
    let begun = Vec::with_capacity(due.alloc(), due.pages().len())?;
    let findings = findings.of_pages(due.alloc(), due.pages())?;
    put_all(tree, due, findings, pages, begun)
}

// Has so many workers consolidate the leaves that are over a limit, if they are two or more, and answers how many leaves that
// were. The pages at which there is more to do stay due. After `Memory` all is as before.
fn consolidate_due<R: Threads + Sync>(
    rt: &R,
    tree: &mut Tree,
    limits: &Limits,
    due: &mut Due,
    workers: usize,
) -> Result<u64, Memory>
    requires none { tree.old.staged ≡ None }
    requires within { AreWithinBut limits.now tree.old due.old.pages }
    ensures same { HoldsSame tree.old tree.new }
    ensures within { AreWithinBut limits.now tree.new due.new.pages }
{
    if workers < 2 || due.has_leaves_begun() {
        return Ok(0);
    }
    // Asked for before the leaves take memory.
    let pages = Vec::with_capacity(due.alloc(), due.pages().len())?;
    let begun = Vec::with_capacity(due.alloc(), due.pages().len())?;
    let mut findings = new_findings(due.alloc(), due.pages())?;
    inspect_all(rt, tree, limits, workers, &mut findings);
    put_all(tree, due, findings, pages, begun)
}

// Puts the leaves that were consolidated in the places of their chains, and answers how many there are. The pages at which
// there is more to do are listed in `pages`, and those of them that were consolidated in `begun`: these are due then. After
// `Memory` all is as before.
fn put_all(
    tree: &mut Tree,
    due: &mut Due,
    findings: Vec<Finding, Alloc>,
    mut pages: Vec<PageId, Alloc>,
    mut begun: Vec<PageId, Alloc>,
) -> Result<u64, Memory>
    requires none { tree.old.staged ≡ None }
    requires leaves { let next = tree.old.next in
        AllByRecursion (λ finding. IsLeafAt tree.old next finding.page finding.leaf) findings.items }
    requires begun { begun.items ≡ [] }
    requires none_begun { due.old.begun ≡ [] }
    ensures same { HoldsSame tree.old tree.new }
    ensures within { map (λ finding. finding.page) findings.entry.items ≡ due.old.pages → (limits : LimitsView) →
        AllByRecursion (IsFinding tree.old limits tree.old.next) findings.entry.items →
        AreWithinBut limits tree.old due.old.pages → AreWithinBut limits tree.new due.new.pages }
    ensures err { OnErr result (tree.new ≡ tree.old) }
    ensures due { OnErr result (due.new ≡ due.old) }
{
    list_due(&findings, &mut pages, &mut begun)?;
    let consolidated = put_leaves(tree, findings);
    due.keep(pages, begun);
    Ok(consolidated)
}

// A finding for each page.
fn new_findings(alloc: Alloc, pages: &[PageId]) -> Result<Vec<Finding, Alloc>, Memory>
    ensures { IfOk result (λ findings. map (λ finding. finding.page) findings.items ≡ pages.now) }
{
    let mut findings = Vec::with_capacity(alloc, pages.len())?;
    for page in pages {
        findings.push(Finding::new(*page))?;
    }
    Ok(findings)
}

// Has so many workers look at the pages.
fn inspect_all<R: Threads + Sync>(
    rt: &R,
    tree: &Tree,
    limits: &Limits,
    workers: usize,
    findings: &mut [Finding],
)
    requires { 0 < workers }
    ensures pages { map (λ finding. finding.page) findings.new ≡ map (λ finding. finding.page) findings.old }
    ensures found { AllByRecursion (IsFinding tree.now limits.now tree.now.next) findings.new }
{
    let look = move |_place: usize, finding: &mut Finding|
        ensures { (finding.exit.now.page ≡ finding.entry.now.page)
            × IsFinding tree.entry.now limits.entry.now tree.entry.now.next finding.exit.now }
    {
        *finding = inspect(tree, limits, finding.page, tree.next_stamp());
    };
    for_each_mut(rt, findings, workers, &look);
}

// Lists the pages at which there is more to do, and those of them that were consolidated.
fn list_due(
    findings: &[Finding],
    pages: &mut Vec<PageId, Alloc>,
    begun: &mut Vec<PageId, Alloc>,
) -> Result<(), Memory>
    requires { begun.old.items ≡ [] }
    ensures listed { OnOk result (AreListed pages.new.items begun.new.items findings.now) }
    ensures among { AreAmong begun.new.items pages.new.items }
{
    for finding in findings {
        add_due(pages, begun, finding)?;
    }
    Ok(())
}

// Adds the page, if there is more to do.
fn add_due(
    pages: &mut Vec<PageId, Alloc>,
    begun: &mut Vec<PageId, Alloc>,
    finding: &Finding,
) -> Result<(), Memory>
    ensures due { OnOk result (IsListed pages.new.items begun.new.items finding.now) }
    ensures kept { AreAmong pages.old.items pages.new.items }
    ensures begun { AreAmong begun.old.items begun.new.items }
    ensures among { AreAmong begun.old.items pages.old.items → AreAmong begun.new.items pages.new.items }
{
    if !finding.is_due {
        return Ok(());
    }
    pages.push(finding.page)?;
    if finding.leaf.is_some() {
        begun.push(finding.page)?;
    }
    Ok(())
}

// Puts each leaf that was consolidated in the place of its chain, and answers how many there are.
fn put_leaves(tree: &mut Tree, findings: Vec<Finding, Alloc>) -> u64
    requires none { tree.old.staged ≡ None }
    requires leaves { let next = tree.old.next in
        AllByRecursion (λ finding. IsLeafAt tree.old next finding.page finding.leaf) findings.items }
    ensures same { HoldsSame tree.old tree.new }
    ensures put { ArePut tree.old tree.new findings.entry.items }
{
    let mut count: u64 = 0;
    for finding in findings {
        count = count.saturating_add(put_leaf(tree, finding));
    }
    count
}

// Puts a leaf that was consolidated, if it was, in the place of its chain, and answers how many that was.
fn put_leaf(tree: &mut Tree, finding: Finding) -> u64
    requires none { tree.old.staged ≡ None }
    requires leaf { IsLeafAt tree.old tree.old.next finding.page finding.leaf }
    ensures same { HoldsSame tree.old tree.new }
    ensures put { ArePut tree.old tree.new (finding ∷ []) }
{
    let Finding {
        page,
        leaf,
        is_due: _is_due,
    } = finding;
    let Some(leaf) = leaf else {
        return 0;
    };
    tree.put_leaf(page, leaf);
    1
}
