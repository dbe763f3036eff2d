// The homes of a batch, and the runs of points that are at home on one page.
ghost use Rattle.std.specs.Prelude.{◌≡◌, ◌≢◌, ◌<◌, ◌≤◌, false, Some, T, length, slice_get, IfOk, IfSome};
ghost use Rattle.std.specs.List.{AllByRecursion};
ghost use Rattle.std.specs.List.Sorted.{IsSortedBy};
ghost use Rattle.std.specs.Option.{option_copied};
ghost use Rattle.std.specs.Ordering.{is_lt};
ghost use Rattle.bw_key.specs.Order.{key_cmp};
ghost use Rattle.bw_key.specs.Prefixes.{key_prefix};
ghost use Rattle.bw_model.specs.Contents.{is_below_end};
ghost use Rattle.bw_group.specs.Points.{entries_in, entries_of, key_at, place_at};
ghost use Rattle.bw_group.specs.FoundRuns.{IsFoundRun};
ghost use Rattle.bw_group.specs.Homes.{AreHomes, HasPageAt, IsPageAt, number_of, with_number};
ghost use Rattle.bw_group.specs.declared.points.Point.{Point};

use crate::found_runs::{FoundRun, find_runs};
use crate::grouping::Grouping;
use crate::points::Point;
use bw_key::{Key, Memory};
use bw_memory::Alloc;
use bw_tree::{PageId, Routes, Tree};
use smallvec::SmallVec;
use std::marker::Model;
use std::thread::Threads;

// So many pages and numbers have room without a block of memory: those of a small batch, whose blocks would cost as much as
// a search.
const FEW: usize = 8;

/// The homes of a batch: the pages of its keys, in the order of the keys and none twice, and for each operation that
/// has a key the number of its page among them. So whoever works on the pages of a batch has lists as long as the
/// batch, and none as long as the index.
pub struct Homes {
    pages: SmallVec<PageId, FEW, Alloc>,
    numbers: SmallVec<usize, FEW, Alloc>,
}

// Not derived: whoever drops one calls this, and its proof is spared the parts.
impl Drop for Homes {
    fn drop(self) {
        let Homes {
            pages: _pages,
            numbers: _numbers,
        } = self;
    }
}

impl Model for Homes {
    ghost use Rattle.bw_group.specs.Homes.{HomesView};

    ghost Value = { HomesView };

    ghost view = { λ h. record { pages = h.pages.items; numbers = h.numbers.items } };
}

impl Homes {
    /// The pages, in the order of their keys.
    pub fn pages(&self) -> &[PageId]
        ensures { result.now ≡ self.now.pages }
    {
        self.pages.as_slice()
    }

    /// The number of the page of an operation's key, by the operation's place in the batch. It means nothing where the
    /// operation has no key.
    pub fn number_at(&self, place: usize) -> usize
        requires { place < length self.now.numbers }
        ensures { slice_get self.now.numbers place ≡ Some result }
    {
        self.numbers.as_slice()[place]
    }

    /// The run of points that begins at `start`: their page, and where the run ends: at the first point behind it with
    /// another number. It compares no keys.
    pub fn run_from(&self, points: &[Point<'_>], start: usize) -> (PageId, usize)
        requires start { start < length points.now }
        requires pages { AllByRecursion (λ e. HasPageAt self.now e.1) (entries_of points.now) }
        ensures more { start < result.1 }
        ensures bound { result.1 ≤ length points.now }
        ensures page { let run = entries_in points.now start result.1 in
            AllByRecursion (λ e. IsPageAt self.now result.0 e.1) run }
        ensures whole { result.1 < length points.now → (d : Point) →
            number_of self.now (place_at points.now result.1 d) ≢ number_of self.now (place_at points.now start d) }
    {
        let numbers = self.numbers.as_slice();
        let number = numbers[points[start].place as usize];
        (self.page_at(number), self.run_end(points, start, number))
    }

    // The page of a number.
    fn page_at(&self, number: usize) -> PageId
        requires { number < length self.now.pages }
        ensures { slice_get self.now.pages number ≡ Some result }
    {
        self.pages.as_slice()[number]
    }

    // Where the run of points with a number stops that begins at `start`.
    fn run_end(&self, points: &[Point<'_>], start: usize, number: usize) -> usize
        requires start { start < length points.now }
        requires places { AllByRecursion (λ e. e.1 < length self.now.numbers) (entries_of points.now) }
        requires first { (d : Point) → number_of self.now (place_at points.now start d) ≡ number }
        ensures more { start < result }
        ensures bound { result ≤ length points.now }
        ensures same { let run = entries_in points.now start result in
            AllByRecursion (λ e. number_of self.now e.1 ≡ number) run }
        ensures whole { result < length points.now → (d : Point) →
            number_of self.now (place_at points.now result d) ≢ number }
    {
        let numbers = self.numbers.as_slice();
        for end in start + 1..points.len() {
            let other = numbers[points[end].place as usize];
            if other != number {
                return end;
            }
        }
        points.len()
    }
}

/// Finds the page of each operation's key, the tree's `route`, by up to so many workers: one for each 4,096 keys at the most.
///
/// It searches for each leaf that has a key of the batch, in the order of the keys, so that a search goes on from the
/// separator of the one before it (`Routes`). Two workers or more search side by side, each in a thread of its own where one
/// can be made, and that costs a place in two lists for each leaf. `Memory` is answered where a list finds none.
pub fn find_homes<R: Threads + Sync>(
    rt: &R,
    alloc: Alloc,
    tree: &Tree,
    batch: &Grouping<'_>,
    workers: u64,
) -> Result<Homes, Memory>
    ensures { IfOk result (AreHomes tree.now batch.now.ops) }
{
    let points = &batch.points;
    let runs = find_runs(rt, alloc, tree, points, workers)?;
    let found = runs.as_slice();
    let mut pages = SmallVec::new(alloc);
    let mut numbers = no_numbers(alloc, batch.ops.len())?;
    let mut routes = Routes::new(tree.look());
    let mut next = 0;
    let mut start = 0;
    while start < points.len() {
        next = first_from(found, next, start);
        let run = run_at(tree, &mut routes, points, start, found.get(next));
        let ours = &points[start..run.end];
        set_numbers(numbers.as_mut_slice(), ours, pages.len());
        pages.push(run.page)?;
        start = run.end;
    }
    Ok(Homes { pages, numbers })
}

// The number of the first one of these runs, from one on, that begins at a place or behind it.
fn first_from(found: &[FoundRun], next: usize, place: usize) -> usize {
    for number in next..found.len() {
        if found[number].start >= place {
            return number;
        }
    }
    found.len()
}

// Number 0 for each of so many operations, until its page is found.
fn no_numbers(alloc: Alloc, len: usize) -> Result<SmallVec<usize, FEW, Alloc>, Memory>
    ensures { IfOk result (λ numbers. length numbers.items ≡ len) }
{
    let mut numbers = SmallVec::new(alloc);
    numbers.reserve(len)?;
    for _ in 0..len {
        numbers.push(0)?;
    }
    Ok(numbers)
}

// Lists a page's number for each of the points.
fn set_numbers(numbers: &mut [usize], points: &[Point<'_>], number: usize)
    requires { AllByRecursion (λ e. e.1 < length numbers.old) (entries_of points.now) }
    ensures { numbers.new ≡ with_number numbers.old (entries_of points.now) number }
{
    for point in points {
        numbers[point.place as usize] = number;
    }
}

// The run of points that begins at `start`: this one that was found, if it begins there, and else by a search.
fn run_at(
    tree: &Tree,
    routes: &mut Routes<'_>,
    points: &[Point<'_>],
    start: usize,
    found: Option<&FoundRun>,
) -> FoundRun
    requires tree { routes.old.tree ≡ tree.now }
    requires start { start < length points.now }
    requires sorted { IsSortedBy (λ d e. is_lt (key_cmp d.0 e.0)) (entries_of points.now) }
    requires found { IfSome found (λ run. IsFoundRun tree.now points.now run.now) }
    ensures tree { routes.new.tree ≡ tree.now }
    ensures start { result.start ≡ start }
    ensures found { IsFoundRun tree.now points.now result }
{
    if let Some(run) = found {
        if run.start == start {
            return *run;
        }
    }
    find_run(tree, routes, points, start)
}

/// The run of points that begins at `start`: their page, on which they all are at home, and where the run ends. It costs
/// a search for the page, and for each point of the run a comparison of its key with the page's end, mostly of numbers.
pub(crate) fn find_run(
    tree: &Tree,
    routes: &mut Routes<'_>,
    points: &[Point<'_>],
    start: usize,
) -> FoundRun
    requires tree { routes.old.tree ≡ tree.now }
    requires start { start < length points.now }
    requires sorted { IsSortedBy (λ d e. is_lt (key_cmp d.0 e.0)) (entries_of points.now) }
    ensures tree { routes.new.tree ≡ tree.now }
    ensures start { result.start ≡ start }
    ensures found { IsFoundRun tree.now points.now result }
{
    tree.know_homes();
    let page = routes.route(points[start].key);
    let end = run_end(points, start, routes.end());
    FoundRun { start, page, end }
}

// Where the run of points below an end stops that begins at `start`: at the first point behind it that isn't below.
fn run_end(points: &[Point<'_>], start: usize, end: Option<&Key>) -> usize
    requires start { start < length points.now }
    requires first { (d : Point) → T (is_below_end (option_copied end) (key_at points.now start d)) }
    ensures more { start < result }
    ensures bound { result ≤ length points.now }
    ensures below { let run = entries_in points.now start result in
        AllByRecursion (λ e. T (is_below_end (option_copied end.entry) e.0)) run }
    ensures whole { result < length points.now →
        (d : Point) → is_below_end (option_copied end.entry) (key_at points.now result d) ≡ false }
{
    let prefix = prefix_of_end(end);
    for place in start + 1..points.len() {
        if !points[place].is_below(end, prefix) {
            return place;
        }
    }
    points.len()
}

// The prefix of an end, and any number where there is none.
fn prefix_of_end(end: Option<&Key>) -> u64
    ensures { IfSome end.entry (λ key. result ≡ key_prefix key.now) }
{
    match end {
        Some(key) => key.prefix(),
        None => 0,
    }
}
