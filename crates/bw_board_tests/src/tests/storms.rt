//! Several threads at once. Whatever the schedule, each record comes to stand once in its page's chain.
ghost use Rattle.std.specs.Prelude.{◌≡◌, ◌≤◌, ◌<◌, ◌+◌, ◌++◌, ℕ, true, [], ◌∷◌, None, length, slice_index_or};
ghost use Rattle.bw_core.specs.World.{owns, posts_in, tries_in};
ghost use Rattle.bw_core.specs.Events.{post};
ghost use Rattle.bw_board.specs.Working.{HasPostedAll, HasLeft, SameWork};

use super::{FLOOR, memory, one_page};
use crate::tests::assertions::{assert_equal, assert_that};
use bw_board::{Board, Closed, Replaced, Seat};
use bw_memory::Alloc;
use std::hint::spin_loop;
use std::process::Abort;
use std::sync::atomic::AtomicU64;
use std::sync::atomic::Ordering::SeqCst;
use std::thread::{Threads, join};

const RECORDS: u64 = 1000;

// A thread peeks after so many of its posts.
const OFTEN: usize = 100;

// Where threads wait for one another, so that they begin at once.
#[derive(Drop)]
struct Gate {
    threads: u64,
    here: AtomicU64,
}

impl Gate {
    fn new(threads: u64) -> Gate {
        Gate {
            threads,
            here: AtomicU64::new(0),
        }
    }

    // Waits until all are here, but not for ever: a thread that couldn't be made runs last.
    fn pass(&self) {
        self.here.fetch_add(1, SeqCst);
        for _ in 0..1_000_000 {
            if self.here.load(SeqCst) >= self.threads {
                return;
            }
            spin_loop();
        }
    }
}

// A post of a thread.
#[derive(Clone, Copy)]
struct Noted {
    rec: u64,
    page: u64,
    lost: u64,
}

// What a thread saw of a page after so many of its posts.
#[derive(Drop)]
struct Peek {
    page: u64,
    posts: usize,
    chain: Vec<u64, Alloc>,
}

// What a thread did and saw.
#[derive(Drop)]
struct Diary {
    posts: Vec<Noted, Alloc>,
    peeks: Vec<Peek, Alloc>,
}

impl Diary {
    fn new(alloc: Alloc) -> Diary {
        Diary {
            posts: Vec::new(alloc),
            peeks: Vec::new(alloc),
        }
    }

    // The exchanges that its posts lost.
    fn lost(&self) -> u64 {
        let mut lost = 0u64;
        for noted in &self.posts {
            lost = lost.saturating_add(noted.lost);
        }
        lost
    }
}

// Peeks at each page.
fn peek_at_all(rt: &impl Abort, board: &Board, seat: &mut Seat, pages: u64, diary: &mut Diary)
    requires board { seat.old.board ≡ board.now }
    requires pages { pages ≡ length board.now.first }
    ensures { SameWork seat.old seat.new }
{
    let posts = diary.posts.len();
    for page in 0..pages {
        let chain = board.peek(seat, page).expect(rt, "memory");
        diary
            .peeks
            .push(Peek { page, posts, chain })
            .expect(rt, "memory");
    }
}

// Posts a record, whose number gives its page.
fn post_one(
    rt: &impl Abort,
    board: &Board,
    seat: &mut Seat,
    rec: u64,
    pages: u64,
    diary: &mut Diary,
)
    requires board { seat.old.board ≡ board.now }
    requires pages { (0 < pages) × (pages ≡ length board.now.first) }
    requires own { (0 < owns rec seat.old.book) × (posts_in rec seat.old.book.posted ≡ 0) }
    ensures board { seat.new.board ≡ board.now }
    ensures same { (seat.new.book.owned ≡ seat.old.book.owned) × (seat.new.book.width ≡ seat.old.book.width) }
    ensures posted { (page : ℕ) × (lost : ℕ)
        × (seat.new.book.posted ≡ seat.old.book.posted ++ post rec page lost ∷ []) }
{
    let page = rec % pages;
    let lost = board.post(seat, rec, page).lost;
    diary
        .posts
        .push(Noted { rec, page, lost })
        .expect(rt, "memory");
    if diary.posts.len() % OFTEN == 0 {
        peek_at_all(rt, board, seat, pages, diary);
    }
}

// Posts the records of a piece.
fn post_piece(
    rt: &impl Abort,
    board: &Board,
    seat: &mut Seat,
    from: u64,
    to: u64,
    pages: u64,
    diary: &mut Diary,
)
    requires board { seat.old.board ≡ board.now }
    requires pages { (0 < pages) × (pages ≡ length board.now.first) }
    requires left { HasLeft seat.old from to }
    requires once { (r : ℕ) → owns r seat.old.book ≤ 1 }
    requires rising { from ≤ to }
    ensures board { seat.new.board ≡ board.now }
    ensures width { seat.new.book.width ≡ seat.old.book.width }
    ensures posted { HasPostedAll seat.new }
{
    for rec in from..to {
        post_one(rt, board, seat, rec, pages, diary);
    }
}

// Claims and posts until no record is left.
fn post_all(
    rt: &impl Abort,
    alloc: Alloc,
    gate: &Gate,
    board: &Board,
    mut seat: Seat,
    pages: u64,
) -> (Seat, Diary)
    requires board { seat.board ≡ board.now }
    requires pages { (0 < pages) × (pages ≡ length board.now.first) }
    requires posted { HasPostedAll seat }
    ensures board { result.0.board ≡ board.now }
    ensures width { result.0.book.width ≡ seat.book.width }
    ensures told { result.0.book.told ≡ true }
    ensures posted { HasPostedAll result.0 }
{
    let mut diary = Diary::new(alloc);
    gate.pass();
    for _ in 0..=RECORDS {
        let Some(span) = board.claim(&mut seat) else {
            return (seat, diary);
        };
        post_piece(
            rt, board, &mut seat, span.start, span.end, pages, &mut diary,
        );
    }
    panic!(rt; "more pieces than records")
}

// One seat of two that have posted all that they own.
pub(crate) fn merged(board: &Board, first: Seat, second: Seat) -> Seat
    requires board { (first.board ≡ board.now) × (second.board ≡ board.now) }
    requires first { HasPostedAll first }
    requires second { HasPostedAll second }
    ensures board { result.board ≡ board.now }
    ensures width { result.book.width ≡ first.book.width + second.book.width }
    ensures told { second.book.told ≡ true → result.book.told ≡ true }
    ensures posted { HasPostedAll result }
{
    board.join(first, second)
}

// Two threads post all.
fn post_by_two<R: Threads + Abort + Sync>(
    rt: &R,
    alloc: Alloc,
    gate: &Gate,
    board: &Board,
    seat: Seat,
    pages: u64,
) -> (Seat, Diary, Diary)
    requires board { seat.board ≡ board.now }
    requires pages { (0 < pages) × (pages ≡ length board.now.first) }
    requires posted { HasPostedAll seat }
    ensures board { result.0.board ≡ board.now }
    ensures width { result.0.book.width ≡ seat.book.width }
    ensures told { result.0.book.told ≡ true }
    ensures posted { HasPostedAll result.0 }
{
    let Ok((first, second)) = board.split(seat) else {
        panic!(rt; "not split")
    };
    let (first, second) = join(
        rt,
        || post_all(rt, alloc, gate, board, first, pages),
        || post_all(rt, alloc, gate, board, second, pages),
    );
    (merged(board, first.0, second.0), first.1, second.1)
}

// Four threads post all.
fn post_by_four<R: Threads + Abort + Sync>(
    rt: &R,
    alloc: Alloc,
    gate: &Gate,
    board: &Board,
    seat: Seat,
    pages: u64,
) -> (Seat, [Diary; 4])
    requires board { seat.board ≡ board.now }
    requires pages { (0 < pages) × (pages ≡ length board.now.first) }
    requires posted { HasPostedAll seat }
    ensures board { result.0.board ≡ board.now }
    ensures width { result.0.book.width ≡ seat.book.width }
    ensures told { result.0.book.told ≡ true }
    ensures posted { HasPostedAll result.0 }
{
    let Ok((first, second)) = board.split(seat) else {
        panic!(rt; "not split")
    };
    let (first, second) = join(
        rt,
        || -> (Seat, Diary, Diary)
            requires { (first.board ≡ board.now) × (0 < pages) × (pages ≡ length board.now.first) × HasPostedAll first }
        { post_by_two(rt, alloc, gate, board, first, pages) },
        || -> (Seat, Diary, Diary)
            requires { (second.board ≡ board.now) × (0 < pages) × (pages ≡ length board.now.first)
                × HasPostedAll second }
        { post_by_two(rt, alloc, gate, board, second, pages) },
    );
    (
        merged(board, first.0, second.0),
        [first.1, first.2, second.1, second.2],
    )
}

// Replaces the page's first word where it has a spare, and says whether that was done.
fn replace_one(board: &Board, seat: &mut Seat, page: u64, spare: Option<u64>) -> bool
    requires board { seat.old.board ≡ board.now }
    requires page { page < length board.now.first }
    requires spare { spare ≡ slice_index_or board.now.spares page None }
    requires untried { tries_in page seat.old.book.swaps ≡ 0 }
    ensures work { SameWork seat.old seat.new }
    ensures others { (q : ℕ) → page < q → tries_in q seat.new.book.swaps ≡ tries_in q seat.old.book.swaps }
{
    if spare.is_none() {
        return false;
    }
    match board.replace(seat, page) {
        Replaced::Won => true,
        Replaced::Late => false,
    }
}

// Replaces the first word of each page that has a spare, and says of which pages it did.
fn replace_each(
    rt: &impl Abort,
    alloc: Alloc,
    gate: &Gate,
    board: &Board,
    mut seat: Seat,
    spares: &[Option<u64>],
) -> (Seat, Vec<u64, Alloc>)
    requires board { seat.board ≡ board.now }
    requires spares { (spares.now ≡ board.now.spares) × (length spares.now ≡ length board.now.first) }
    requires untried { (q : ℕ) → tries_in q seat.book.swaps ≡ 0 }
    ensures { SameWork seat result.0 }
{
    let mut won = Vec::new(alloc);
    gate.pass();
    for page in 0..spares.len() as u64 {
        if replace_one(board, &mut seat, page, spares[page as usize]) {
            won.push(page).expect(rt, "memory");
        }
    }
    (seat, won)
}

// Two threads post all, while a third replaces first words.
fn post_beside<R: Threads + Abort + Sync>(
    rt: &R,
    alloc: Alloc,
    gate: &Gate,
    board: &Board,
    seat: Seat,
    spares: &[Option<u64>],
) -> (Seat, Diary, Diary, Vec<u64, Alloc>)
    requires board { seat.board ≡ board.now }
    requires spares { (spares.now ≡ board.now.spares) × (0 < length spares.now)
        × (length spares.now ≡ length board.now.first) }
    requires posted { HasPostedAll seat }
    ensures board { result.0.board ≡ board.now }
    ensures width { result.0.book.width ≡ seat.book.width }
    ensures told { result.0.book.told ≡ true }
    ensures posted { HasPostedAll result.0 }
{
    let pages = spares.len() as u64;
    let Ok((first, second)) = board.split(seat) else {
        panic!(rt; "not split")
    };
    let (first, second) = join(
        rt,
        || -> (Seat, Diary, Diary)
            requires { (first.board ≡ board.now) × (0 < pages) × (pages ≡ length board.now.first) × HasPostedAll first }
        { post_by_two(rt, alloc, gate, board, first, pages) },
        || replace_each(rt, alloc, gate, board, second, spares),
    );
    (merged(board, second.0, first.0), first.1, first.2, second.1)
}

// The records of the page's chain in a closed board, newest first, and the word that ends it.
fn chain_of(rt: &impl Abort, alloc: Alloc, closed: &Closed, page: u64) -> (Vec<u64, Alloc>, u64) {
    let mut chain = Vec::new(alloc);
    let mut word = *closed.heads().get(page as usize).expect(rt, "a head");
    for _ in 0..RECORDS {
        if word < FLOOR {
            break;
        }
        let rec = word - FLOOR;
        chain.push(rec).expect(rt, "memory");
        word = *closed.links().get(rec as usize).expect(rt, "a link");
    }
    (chain, word)
}

// Whether a chain has each of these records that was posted to its page.
fn has_posted(chain: &[u64], posts: &[Noted], page: u64) -> bool {
    for noted in posts {
        if noted.page == page && !chain.contains(&noted.rec) {
            return false;
        }
    }
    true
}

// What a thread saw at the page is an end of the chain and of what it saw later, with all that it had posted there.
fn check_peeks(rt: &impl Abort, diary: &Diary, page: u64, chain: &[u64]) {
    let mut before: &[u64] = &[];
    for peek in &diary.peeks {
        if peek.page != page {
            continue;
        }
        let seen = peek.chain.as_slice();
        assert_that(rt, chain.ends_with(seen) && seen.ends_with(before));
        before = seen;
        let posts = diary.posts.get(..peek.posts).expect(rt, "the posts");
        assert_that(rt, has_posted(seen, posts, page));
    }
}

// How many records are beneath one in a chain.
fn count_beneath(chain: &[u64], rec: u64) -> Option<u64> {
    let mut beneath = 0u64;
    for other in chain.iter().rev() {
        if *other == rec {
            return Some(beneath);
        }
        beneath = beneath.saturating_add(1);
    }
    None
}

// A post lost at most as many exchanges as there are records beneath it, and so many more.
fn check_posts(rt: &impl Abort, posts: &[Noted], page: u64, chain: &[u64], more: u64) {
    for noted in posts {
        if noted.page == page {
            let beneath = count_beneath(chain, noted.rec).expect(rt, "a posted record");
            assert_that(rt, noted.lost <= beneath.saturating_add(more));
        }
    }
}

// The chain of a page of a closed board agrees with what each thread did and saw.
fn check_chain(rt: &impl Abort, closed: &Closed, diaries: &[Diary], page: u64, chain: &[u64]) {
    let more = u64::from(closed.swapped().contains(&page));
    for diary in diaries {
        check_peeks(rt, diary, page, chain);
        check_posts(rt, &diary.posts, page, chain, more);
    }
}

// The chain of a page of a closed board ends in this word. Its records are added to a list.
fn check_page(
    rt: &impl Abort,
    closed: &Closed,
    diaries: &[Diary],
    page: u64,
    last: u64,
    all: &mut Vec<u64, Alloc>,
) {
    let (chain, word) = chain_of(rt, *all.allocator(), closed, page);
    assert_equal(rt, word, last);
    check_chain(rt, closed, diaries, page, &chain);
    all.extend_from_slice(&chain).expect(rt, "memory");
}

// Whether these are all records in their order.
fn are_all(records: &[u64]) -> bool {
    let mut next = 0u64;
    for rec in records {
        if *rec != next {
            return false;
        }
        next = next.saturating_add(1);
    }
    next == RECORDS
}

// The chains of a closed board have each record once, and end in these words.
fn check_closed(rt: &impl Abort, alloc: Alloc, closed: &Closed, diaries: &[Diary], lasts: &[u64]) {
    let mut all = Vec::new(alloc);
    for (page, last) in lasts.iter().enumerate() {
        check_page(rt, closed, diaries, page as u64, *last, &mut all);
    }
    all.sort_unstable();
    assert_that(rt, are_all(&all));
}

// All exchanges that the threads lost.
fn lost_by(diaries: &[Diary]) -> u64 {
    let mut lost = 0u64;
    for diary in diaries {
        lost = lost.saturating_add(diary.lost());
    }
    lost
}

#[test]
fn two_threads_post_to_one_page(rt: HostRuntime) {
    let alloc = memory(&rt, rt.alloc());
    let (board, seat) = one_page(&rt, alloc, RECORDS, 1);
    let (seat, one, two) = post_by_two(&rt, alloc, &Gate::new(2), &board, seat, 1);
    let closed = board.close(seat).expect(&rt, "memory");
    assert_that(&rt, closed.swapped().is_empty());
    let diaries = [one, two];
    check_closed(&rt, alloc, &closed, &diaries, &[7]);
    assert_that(&rt, lost_by(&diaries) <= RECORDS * (RECORDS - 1) / 2);
}

#[test]
fn four_threads_post_to_eight_pages(rt: HostRuntime) {
    let alloc = memory(&rt, rt.alloc());
    let heads = [0, 1, 2, 3, 4, 5, 6, 7];
    let (board, seat) = Board::open(alloc, &heads, FLOOR, RECORDS, 1, &[None; 8]).expect(
        &rt, "memory",
    );
    let (seat, diaries) = post_by_four(&rt, alloc, &Gate::new(4), &board, seat, 8);
    let closed = board.close(seat).expect(&rt, "memory");
    assert_that(&rt, closed.swapped().is_empty());
    check_closed(&rt, alloc, &closed, &diaries, &heads);
    assert_that(&rt, lost_by(&diaries) <= RECORDS * (RECORDS - 1) / 2);
}

#[test]
fn a_word_is_replaced_while_two_threads_post(rt: HostRuntime) {
    let alloc = memory(&rt, rt.alloc());
    let spares = [Some(5)];
    let (board, seat) = Board::open(alloc, &[7], FLOOR, RECORDS, 1, &spares).expect(&rt, "memory");
    let (seat, one, two, won) = post_beside(&rt, alloc, &Gate::new(3), &board, seat, &spares);
    let closed = board.close(seat).expect(&rt, "memory");
    assert_that(&rt, closed.swapped() == won.as_slice());
    let last = if won.is_empty() { 7 } else { 5 };
    let diaries = [one, two];
    check_closed(&rt, alloc, &closed, &diaries, &[last]);
    assert_that(&rt, lost_by(&diaries) <= RECORDS * (RECORDS + 1) / 2);
}
