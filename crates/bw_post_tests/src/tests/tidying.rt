// Tidying of trees to which batches were posted, and a batch behind it.
ghost use Rattle.std.specs.Prelude.{◌≡◌, ℕ, ◌<◌, ◌≤◌, ◌^◌, ◌⊎◌, true, None, reverse, length};
ghost use Rattle.std.specs.List.{Contains};
ghost use Rattle.bw_tree.specs.Levels.{row};
ghost use Rattle.bw_tree.specs.Searches.{IsInLevels};
ghost use Rattle.bw_tree.specs.Slots.{slot_at};
ghost use Rattle.bw_shape.specs.Limits.{AreWithinBut, IsWithin};

use super::making::FLOOR;
use super::scripts::Start::Empty;
use super::scripts::Step::{Run, Seen, Tidied, Write};
use super::scripts::{Step, play};
use super::shapes::Wanted;
use super::sights::Sight::{Entries, Has, Heads, Holds, Letters, Pages};
use crate::tests::assertions::assert_equal;
use Bounds::{EightWrites, FourPairs};
use bw_fixtures::TextOp;
use bw_fixtures::TextOp::{Delete, Get, Upsert};
use bw_memory::Alloc;
use bw_page::PageId;
use bw_post::Tree;
use bw_shape::{Due, Limits, Tidy, tidy_due};
use std::process::Abort;

/// What five pairs become.
pub const FIVE: &[Wanted] = &[
    (0, 0, b"", Some(b"c"), 2, 0),
    (1, 0, b"c", None, 3, 0),
    (2, 1, b"", None, 2, 0),
];

// What the pairs of the 17 keys from `a` to `q` become.
const SEVENTEEN: &[Wanted] = &[
    (0, 0, b"", Some(b"e"), 4, 0),
    (3, 0, b"e", Some(b"i"), 4, 0),
    (1, 0, b"i", Some(b"m"), 4, 0),
    (4, 0, b"m", Some(b"o"), 2, 0),
    (5, 0, b"o", None, 3, 0),
    (2, 1, b"", Some(b"i"), 2, 0),
    (6, 1, b"i", None, 3, 0),
    (7, 2, b"", None, 2, 0),
];

/// The limits of a page. Pages aren't merged.
#[derive(Clone, Copy)]
pub enum Bounds {
    /// One write, and four pairs.
    FourPairs,
    /// One write, and five pairs.
    FivePairs,
    /// Eight writes, and 16 pairs.
    EightWrites,
}

// The limits of these bounds.
fn limits_of(bounds: Bounds) -> Limits {
    match bounds {
        Bounds::FourPairs => Limits::new(1, 4, 1),
        Bounds::FivePairs => Limits::new(1, 5, 1),
        Bounds::EightWrites => Limits::new(8, 16, 1),
    }
}

// Whether a page is one of these, or keeps to the limits of a leaf.
fn is_due_or_within(tree: &Tree, limits: &Limits, pages: &[PageId], page: PageId) -> bool
    requires { page < length tree.now.heads }
    ensures { result ≡ true → Contains (row tree.now.levels 0) page →
        Contains (reverse pages.now) page ⊎ IsWithin limits.now (slot_at tree.now.slots page) }
{
    pages.contains(&page)
        || (tree.count_writes(page) as u64 <= limits.chain_max()
            && tree.entries(page) as u64 <= limits.page_max())
}

// What every tree keeps of its mapping words that the next one needs: more facts are too many for the search.
fn know_words(tree: &Tree)
    ensures there { (p : ℕ) → IsInLevels tree.now.levels p → p < length tree.now.heads }
    ensures few { length tree.now.heads ≤ 2 ^ 32 }
{
    tree.know_records();
}

// Whether each page is one of these, or keeps to the limits of a leaf.
fn are_within_but(tree: &Tree, limits: &Limits, pages: &[PageId]) -> bool
    ensures { result ≡ true → AreWithinBut limits.now tree.now (reverse pages.now) }
{
    know_words(tree);
    for page in 0..tree.heads().len() {
        if !is_due_or_within(tree, limits, pages, PageId(page as u32)) {
            return false;
        }
    }
    true
}

// These pages, the first one next.
fn due_of<R: Abort>(rt: &R, alloc: Alloc, tree: &Tree, pages: &[PageId]) -> Due
    ensures { result.pages ≡ reverse pages.now }
{
    let mut list = Vec::new(alloc);
    list.extend_from_slice(pages).expect(rt, "a list");
    let mut due = Due::new(alloc);
    due.add(tree, list, &[]).expect(rt, "a list");
    due
}

// The pages of these numbers.
fn pages_of<R: Abort>(rt: &R, alloc: Alloc, numbers: &[u32]) -> Vec<PageId, Alloc> {
    let mut pages = Vec::new(alloc);
    for number in numbers {
        pages.push(PageId(*number)).expect(rt, "a list");
    }
    pages
}

// Tidies a tree where these pages are due. What that did.
fn tidied<R: Abort>(
    rt: &R,
    alloc: Alloc,
    tree: &mut Tree,
    limits: &Limits,
    pages: &[PageId],
) -> Tidy
    requires { tree.old.staged ≡ None }
    ensures { tree.new.staged ≡ None }
{
    assert!(rt; are_within_but(tree, limits, pages));
    let mut due = due_of(rt, alloc, tree, pages);
    tidy_due(tree, limits, &mut due)
}

/// Tidies a tree where these pages are due, and compares how many leaves were consolidated and how many pages split.
pub fn tidies<R: Abort>(
    rt: &R,
    alloc: Alloc,
    tree: &mut Tree,
    bounds: Bounds,
    pages: &[u32],
    wanted: (u64, u64),
)
    requires { tree.old.staged ≡ None }
    ensures { tree.new.staged ≡ None }
{
    let pages = pages_of(rt, alloc, pages);
    let did = tidied(rt, alloc, tree, &limits_of(bounds), &pages);
    let wanted = Tidy {
        consolidated: wanted.0,
        splits: wanted.1,
        merges: 0,
        stopped: false,
    };
    assert_equal(rt, did, wanted);
}

/// A batch of five pairs, of stamps from 0 on.
pub const FIVE_PUTS: &[TextOp] = &[
    Upsert("a", "1"),
    Upsert("b", "2"),
    Upsert("c", "3"),
    Upsert("d", "4"),
    Upsert("e", "5"),
];

// What leads to a tree of five pairs that is tidied: a and b; c, d and e; and a root.
const FIVE_TIDIED: &[Step] = &[
    Run(FIVE_PUTS, &[0]),
    Tidied(FourPairs, &[0], (1, 1)),
    Seen(Pages(FIVE)),
];

const WRITTEN_AND_TIDIED: &[Step] = &[
    Run(&[Upsert("c", "9"), Delete("d")], &[1]),
    Tidied(FourPairs, &[1], (1, 0)),
    Seen(Pages(&[
        (0, 0, b"", Some(b"c"), 2, 0),
        (1, 0, b"c", None, 2, 0),
        (2, 1, b"", None, 2, 0),
    ])),
    Seen(Holds(7, &[(b"a", b"1"), (b"b", b"2"), (b"c", b"9"), (b"e", b"5")])),
];

#[test]
fn a_written_leaf_is_consolidated_and_split(rt: HostRuntime) {
    play(&rt, rt.alloc(), Empty, FIVE_TIDIED, WRITTEN_AND_TIDIED);
}

// What leads to the tree of the 17 letters from a to q, tidied: it has three levels.
const THREE_LEVELS: &[Step] = &[
    Write(b'a', b'r'),
    Tidied(FourPairs, &[0], (2, 5)),
    Seen(Pages(SEVENTEEN)),
];

const POSTED_BELOW_TWO_LEVELS: &[Step] = &[
    Seen(Letters(b'a', b'r')),
    Run(
        &[Upsert("q", "1"), Get("k"), Upsert("b", "2"), Delete("h")],
        &[0, 3, 1, 5],
    ),
    Seen(Has(17, &[(b"q", Some(b"q"))])),
    Seen(Has(18, &[(b"q", Some(b"1")), (b"k", Some(b"k"))])),
    Seen(Has(19, &[(b"b", Some(b"b"))])),
    Seen(Has(20, &[(b"b", Some(b"2")), (b"h", Some(b"h"))])),
    Seen(Has(21, &[(b"h", None), (b"g", Some(b"g"))])),
];

#[test]
fn a_batch_is_posted_to_leaves_below_two_levels(rt: HostRuntime) {
    play(
        &rt,
        rt.alloc(),
        Empty,
        THREE_LEVELS,
        POSTED_BELOW_TWO_LEVELS,
    );
}

const EIGHT_STAY: &[Step] = &[
    Write(b'a', b'h'),
    Tidied(EightWrites, &[0], (0, 0)),
    Seen(Pages(&[(0, 0, b"", None, 7, 7)])),
    Write(b'h', b'i'),
    Tidied(EightWrites, &[0], (0, 0)),
    Seen(Pages(&[(0, 0, b"", None, 8, 8)])),
    Seen(Heads(&[FLOOR + 7])),
    Seen(Letters(b'a', b'i')),
];

#[test]
fn up_to_eight_writes_are_left_as_they_are(rt: HostRuntime) {
    play(&rt, rt.alloc(), Empty, &[], EIGHT_STAY);
}

const NINE_GO: &[Step] = &[
    Write(b'a', b'j'),
    Seen(Heads(&[FLOOR + 8])),
    Seen(Pages(&[(0, 0, b"", None, 9, 9)])),
    Tidied(EightWrites, &[0], (1, 0)),
    Seen(Heads(&[0])),
    Seen(Pages(&[(0, 0, b"", None, 9, 0)])),
    Seen(Entries(9)),
    Seen(Letters(b'a', b'j')),
];

#[test]
fn nine_writes_are_consolidated(rt: HostRuntime) {
    play(&rt, rt.alloc(), Empty, &[], NINE_GO);
}
