// The tree below an index.
use super::running::{Row, index_up_to, ops_of, refusal_of, refusal_of_texts, run as read};
use crate::tests::assertions::{assert_equal, assert_that};
use bw_batch::{Done, Index, Key, Op, OpenGate, Options, PageShape, Refusal, Tidy, Tree};
use bw_fixtures::TextOp::{Delete, Get, Insert, Scan, Update, Upsert};
use bw_fixtures::TextReply::{Found, Pairs};
use bw_fixtures::{TextOp, heap, op, ops};
use bw_memory::Alloc;
use std::process::Abort;
use std::thread::Threads;

/// Runs a batch, and answers what tidying behind it did.
pub fn run<R: Abort + Threads + Sync>(
    rt: &R,
    alloc: Alloc,
    index: &mut Index,
    texts: &[TextOp],
) -> Tidy {
    let ops = ops(alloc, texts).expect(rt, "memory");
    let done = index.run(rt, &ops, &OpenGate).expect(rt, "memory");
    done.tidy
}

// Compares how many records a tree has, and its next stamp.
fn has_records<R: Abort>(rt: &R, tree: &Tree, records: usize, next: u64) {
    assert_equal(rt, tree.records(), records);
    assert_equal(rt, tree.next_stamp(), next);
}

// Compares its mapping words too.
fn stands<R: Abort>(rt: &R, tree: &Tree, heads: &[u64], records: usize, next: u64) {
    assert_equal(rt, tree.heads(), heads);
    has_records(rt, tree, records, next);
}

// The word of the second record.
const SECOND: u64 = (1 << 32) + 1;

// Each write of a batch is a record of the chain, and a read is none.
#[test]
fn writes_stand_in_the_chain(rt: HostRuntime) {
    let alloc = heap(rt.alloc()).expect(&rt, "a heap");
    let mut index = index_up_to(&rt, alloc, 65536);
    let batch = [Upsert("c", "9"), Get("c"), Delete("e")];
    run(&rt, alloc, &mut index, &batch);
    stands(&rt, index.tree(), &[SECOND], 2, 3);
}

// The first record of a batch is that of its least key, which stands last in it.
#[test]
fn records_are_made_in_the_order_of_their_keys(rt: HostRuntime) {
    let alloc = heap(rt.alloc()).expect(&rt, "a heap");
    let mut index = limited(&rt, alloc, (16, 4), (65536, 1048576));
    insert(&rt, alloc, &mut index, 17);
    let before = index.tree().records() as u64;
    let batch = [Upsert("q", "9"), Upsert("a", "9")];
    run(&rt, alloc, &mut index, &batch);
    let first = (1u64 << 32).saturating_add(before);
    assert_equal(&rt, index.tree().heads().first().copied(), Some(first));
}

// An empty index with these limits, for batches of any length, and with so many records until a sweep.
fn limited<R: Abort>(
    rt: &R,
    alloc: Alloc,
    (chain, page): (u64, u64),
    (batch, record): (u64, u64),
) -> Index {
    let options = Options::new(4, 64, chain, page, 1, batch, record).expect(rt, "options");
    Index::new(alloc, options).expect(rt, "an index")
}

/// An empty index of small pages: one write in a chain, four pairs on a page, and a page without pairs is merged.
pub fn small_pages<R: Abort>(rt: &R, alloc: Alloc) -> Index {
    limited(rt, alloc, (1, 4), (65536, 1048576))
}

/// A page as it is listed: its identifier and level, where its range begins and ends, and how many pairs or children and
/// writes it has.
pub type Listed = (u32, u32, &'static str, Option<&'static str>, usize, usize);

// Whether a range has this end, or none.
fn is_end(end: Option<&Key>, text: Option<&'static str>) -> bool {
    match (end, text) {
        (Some(end), Some(text)) => end.bytes() == text.as_bytes(),
        (None, None) => true,
        _ => false,
    }
}

// Whether a page is listed so.
fn is_listed(page: &PageShape, (id, level, low, high, pairs, writes): Listed) -> bool {
    page.page.0 == id
        && page.level == level
        && page.low.bytes() == low.as_bytes()
        && is_end(page.high.as_ref(), high)
        && page.pairs == pairs
        && page.writes == writes
}

/// Compares the pages of an index's tree.
pub fn has_pages<R: Abort>(rt: &R, index: &Index, expected: &[Listed]) {
    let shape = index.tree().shape().expect(rt, "memory");
    assert_equal(rt, shape.len(), expected.len());
    for (page, row) in shape.iter().zip(expected) {
        assert_that(rt, is_listed(page, *row));
    }
}

const LETTERS: [&str; 17] = [
    "a", "b", "c", "d", "e", "f", "g", "h", "i", "j", "k", "l", "m", "n", "o", "p", "q",
];

// Inserts of the first letters, each with its own text as its value.
fn letters<R: Abort>(rt: &R, alloc: Alloc, count: usize) -> Vec<Op, Alloc> {
    let mut ops = Vec::new(alloc);
    for text in LETTERS.iter().take(count) {
        let insert = op(alloc, Insert(text, text)).expect(rt, "memory");
        ops.push(insert).expect(rt, "memory");
    }
    ops
}

/// Inserts the first letters, and answers what tidying behind them did.
pub fn insert<R: Abort + Threads + Sync>(
    rt: &R,
    alloc: Alloc,
    index: &mut Index,
    count: usize,
) -> Tidy {
    let ops = letters(rt, alloc, count);
    let done = index.run(rt, &ops, &OpenGate).expect(rt, "memory");
    done.tidy
}

// Leaves consolidated, and pages split, by tidying that went on to its end.
fn tidied((consolidated, splits): (u64, u64)) -> Tidy {
    Tidy {
        consolidated,
        splits,
        merges: 0,
        stopped: false,
    }
}

// Inserts the first letters, and compares how much of tidying there is to do, and the pages that it leaves.
fn insert_letters<R: Abort + Threads + Sync>(
    rt: &R,
    alloc: Alloc,
    count: usize,
    steps: (u64, u64),
    expected: &[Listed],
) {
    let mut index = small_pages(rt, alloc);
    assert_equal(rt, insert(rt, alloc, &mut index, count), tidied(steps));
    has_pages(rt, &index, expected);
    assert_equal(rt, index.tree().heads().len(), expected.len());
}

/// What five letters make.
pub const FIVE: &[Listed] = &[
    (0, 0, "", Some("c"), 2, 0),
    (1, 0, "c", None, 3, 0),
    (2, 1, "", None, 2, 0),
];

#[test]
fn five_pairs_make_two_leaves(rt: HostRuntime) {
    let alloc = heap(rt.alloc()).expect(&rt, "a heap");
    insert_letters(&rt, alloc, 5, (1, 1), FIVE);
}

// Page 0 is cut at `i`, and page 2 is put over it and page 1. Then page 0 is cut at `e`, page 1 at `m`, page 4 at `o`,
// and page 2 at `i`; page 7 is put over it and page 6.
const SEVENTEEN: &[Listed] = &[
    (0, 0, "", Some("e"), 4, 0),
    (3, 0, "e", Some("i"), 4, 0),
    (1, 0, "i", Some("m"), 4, 0),
    (4, 0, "m", Some("o"), 2, 0),
    (5, 0, "o", None, 3, 0),
    (2, 1, "", Some("i"), 2, 0),
    (6, 1, "i", None, 3, 0),
    (7, 2, "", None, 2, 0),
];

#[test]
fn seventeen_pairs_make_three_levels(rt: HostRuntime) {
    let alloc = heap(rt.alloc()).expect(&rt, "a heap");
    insert_letters(&rt, alloc, 17, (2, 5), SEVENTEEN);
}

// Whether a batch was accepted, and tidying behind it did so much.
fn is_tidied_so(outcome: &Result<Done, Refusal>, steps: (u64, u64)) -> bool {
    match outcome {
        Ok(done) => done.tidy == tidied(steps),
        Err(_) => false,
    }
}

// A batch of inserts of the first letters, and one that reads.
fn letters_and_reads<R: Abort>(rt: &R, alloc: Alloc, count: usize) -> Vec<Vec<Op, Alloc>, Alloc> {
    let mut batches = Vec::new(alloc);
    batches.push(letters(rt, alloc, count)).expect(rt, "memory");
    batches.push(ops_of(rt, alloc, READS)).expect(rt, "memory");
    batches
}

// Runs both batches at once. Behind the second one nothing is to be tidied.
fn run_letters_at_once<R: Abort + Threads + Sync>(
    rt: &R,
    alloc: Alloc,
    count: usize,
    steps: (u64, u64),
    expected: &[Listed],
) {
    let batches = letters_and_reads(rt, alloc, count);
    let mut index = small_pages(rt, alloc);
    let outcomes = index.run_all(rt, &batches, &OpenGate).expect(rt, "memory");
    assert_eq!(rt; outcomes.len(), 2);
    assert!(rt; is_tidied_so(&outcomes[0], steps));
    assert!(rt; is_tidied_so(&outcomes[1], (0, 0)));
    has_pages(rt, &index, expected);
}

#[test]
fn batches_at_once_are_tidied_each(rt: HostRuntime) {
    let alloc = heap(rt.alloc()).expect(&rt, "a heap");
    run_letters_at_once(&rt, alloc, 5, (1, 1), FIVE);
    run_letters_at_once(&rt, alloc, 17, (2, 5), SEVENTEEN);
}

// Runs a batch, behind which nothing is tidied.
fn run_untidied<R: Abort + Threads + Sync>(
    rt: &R,
    alloc: Alloc,
    index: &mut Index,
    texts: &[TextOp],
) {
    let tidy = run(rt, alloc, index, texts);
    assert_equal(rt, tidy, Tidy::default());
}

// Seven writes are no more than eight, so they stay in the chain.
#[test]
fn a_short_chain_stays(rt: HostRuntime) {
    let alloc = heap(rt.alloc()).expect(&rt, "a heap");
    let mut index = index_up_to(&rt, alloc, 65536);
    let first = [Insert("a", "1"), Delete("a"), Insert("a", "2")];
    run_untidied(&rt, alloc, &mut index, &first);
    let second = [Update("a", "3"), Insert("a", "4")];
    run_untidied(&rt, alloc, &mut index, &second);
    let third = [Delete("a"), Upsert("a", "5"), Get("a")];
    run_untidied(&rt, alloc, &mut index, &third);
    has_pages(&rt, &index, &[(0, 0, "", None, 1, 7)]);
}

// Runs a batch of three operations before which records and stamps are at 0, or start over. It leaves so many records,
// and nothing is tidied behind it.
fn run_anew<R: Abort + Threads + Sync>(
    rt: &R,
    alloc: Alloc,
    index: &mut Index,
    texts: &[TextOp],
    records: usize,
) {
    run_untidied(rt, alloc, index, texts);
    has_records(rt, index.tree(), records, 3);
}

// Before the second batch and before the third there would be more than three records, so the tree is swept.
#[test]
fn records_start_over(rt: HostRuntime) {
    let alloc = heap(rt.alloc()).expect(&rt, "a heap");
    let mut index = limited(&rt, alloc, (8, 64), (3, 3));
    let first = [Upsert("a", "1"), Upsert("a", "2"), Upsert("a", "3")];
    run_anew(&rt, alloc, &mut index, &first, 3);
    let second = [Upsert("a", "4"), Get("a"), Delete("a")];
    run_anew(&rt, alloc, &mut index, &second, 2);
    let third = [Get("a"), Insert("a", "7"), Get("a")];
    run_anew(&rt, alloc, &mut index, &third, 1);
    has_pages(&rt, &index, &[(0, 0, "", None, 1, 1)]);
}

// A scan of all pairs, and a get of each.
const READS: &[Row] = &[
    (
        Scan("", None, 9),
        Pairs(&[("a", "a"), ("b", "b"), ("c", "c"), ("d", "d"), ("e", "e")]),
    ),
    (Get("a"), Found("a")),
    (Get("b"), Found("b")),
    (Get("c"), Found("c")),
    (Get("d"), Found("d")),
    (Get("e"), Found("e")),
];

// Runs five inserts where this growth is refused. Whether the batch was accepted, and tidying went on to its end.
fn insert_refused<R: Abort + Threads + Sync>(
    rt: &R,
    alloc: Alloc,
    index: &mut Index,
    growth: u64,
) -> Option<bool> {
    let ops = letters(rt, alloc, 5);
    alloc.refuse(growth);
    let outcome = index.run(rt, &ops, &OpenGate);
    alloc.refuse(0);
    match outcome {
        Ok(done) => Some(!done.tidy.stopped),
        Err(_) => None,
    }
}

// The same on an index of its own. Where the batch was accepted, it is read, and tidying goes on to its end.
fn is_tidied<R: Abort + Threads + Sync>(rt: &R, alloc: Alloc, growth: u64) -> Option<bool> {
    let mut index = small_pages(rt, alloc);
    let outcome = insert_refused(rt, alloc, &mut index, growth);
    if outcome.is_some() {
        read(rt, alloc, &mut index, READS);
        has_pages(rt, &index, FIVE);
    }
    outcome
}

// A batch is refused, or it stands and tidying stops; then the next one goes on.
#[test]
fn a_batch_stands_where_tidying_stops(rt: HostRuntime) {
    let alloc = heap(rt.alloc()).expect(&rt, "a heap");
    let mut stopped = 0u64;
    for growth in 1..200u64 {
        match is_tidied(&rt, alloc, growth) {
            None => assert_equal(&rt, stopped, 0),
            Some(false) => stopped = stopped.saturating_add(1),
            Some(true) => {
                assert_that(&rt, stopped > 3);
                return;
            }
        }
    }
    panic!(rt; "no run met no refusal")
}

const TWO: &[TextOp] = &[Upsert("a", "1"), Upsert("a", "1")];

const THREE: &[TextOp] = &[Upsert("a", "1"), Upsert("a", "1"), Upsert("a", "1")];

// A batch that is too long, and one without memory, leave the tree below as it was.
#[test]
fn a_refused_batch_leaves_the_tree(rt: HostRuntime) {
    let alloc = heap(rt.alloc()).expect(&rt, "a heap");
    let mut index = index_up_to(&rt, alloc, 2);
    run(&rt, alloc, &mut index, TWO);
    assert_that(
        &rt,
        refusal_of_texts(&rt, alloc, &mut index, THREE).is_some(),
    );
    stands(&rt, index.tree(), &[SECOND], 2, 2);
    let ops = ops(alloc, TWO).expect(&rt, "memory");
    for growth in 1..6 {
        alloc.refuse(growth);
        let refusal = refusal_of(&rt, &mut index, &ops);
        alloc.refuse(0);
        assert_equal(&rt, refusal, Some(Refusal::Memory));
        stands(&rt, index.tree(), &[SECOND], 2, 2);
    }
}
