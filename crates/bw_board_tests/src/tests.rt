// Boards of a few records step by step, each allocation refused in turn, and several threads at once.
ghost use Rattle.std.specs.Prelude.{◌≡◌, ◌≢◌, ◌≤◌, ◌<◌, ◌+◌, ℕ, [], ◌∷◌, None, true, length, slice_index_or};
ghost use Rattle.bw_core.specs.Transitions.{first_book};
ghost use Rattle.bw_core.specs.World.{owns, tries_in};
ghost use Rattle.bw_board.specs.Working.{HasLeft, HasPostedAll, SameWork};

mod assertions;
mod sizes;
mod storms;

use crate::tests::assertions::{assert_equal, assert_that};
use crate::tests::storms::merged;
use bw_board::{Board, Closed, Replaced, Seat};
use bw_memory::{Alloc, Heap};
use std::alloc::Global;
use std::ops::Range;
use std::process::Abort;

pub(crate) const FLOOR: u64 = 1 << 32;

// A heap of a test's own, which counts its growths.
pub(crate) fn memory<R: Abort>(rt: &R, global: Global) -> Alloc {
    Heap::counted(global).leak(global).expect(rt, "memory")
}

// A board over one page, whose word is 7, without a spare, and its seat.
pub(crate) fn one_page<R: Abort>(rt: &R, alloc: Alloc, records: u64, piece: u64) -> (Board, Seat)
    requires records { records ≤ 1000000 }
    requires piece { (0 < piece) × (piece ≤ 4096) }
    ensures first { result.0.first ≡ 7 ∷ [] }
    ensures seat { result.1 ≡ record { board = result.0; book = first_book (7 ∷ []) } }
{
    Board::open(alloc, &[7], FLOOR, records, piece, &[]).expect(rt, "memory")
}

// Compares what a board was closed with: head words, links, and the pages whose first word was replaced.
fn is_closed<R: Abort>(rt: &R, closed: &Closed, heads: &[u64], links: &[u64], swapped: &[u64]) {
    assert_that(rt, closed.heads() == heads);
    assert_that(rt, closed.links() == links);
    assert_that(rt, closed.swapped() == swapped);
}

// Compares the records of a page's chain, the newest first.
fn has_chain<R: Abort>(rt: &R, board: &Board, seat: &mut Seat, page: u64, records: &[u64])
    requires board { seat.old.board ≡ board.now }
    requires page { page < length board.now.first }
    ensures { SameWork seat.old seat.new }
{
    let chain = board.peek(seat, page).expect(rt, "memory");
    assert_that(rt, chain.as_slice() == records);
}

// Compares the head word of the first page, whose chain the seat has seen then.
fn has_head<R: Abort>(rt: &R, board: &Board, seat: &mut Seat, head: u64)
    requires board { seat.old.board ≡ board.now }
    requires page { 0 < length board.now.first }
    ensures { SameWork seat.old seat.new }
{
    assert_equal(rt, board.look(seat, 0), head);
}

// Claims a piece of one record, which has this number.
fn claim_one<R: Abort>(rt: &R, board: &Board, seat: &mut Seat, number: u64)
    requires board { seat.old.board ≡ board.now }
    requires posted { HasPostedAll seat.old }
    ensures board { seat.new.board ≡ board.now }
    ensures width { seat.new.book.width ≡ seat.old.book.width }
    ensures swaps { seat.new.book.swaps ≡ seat.old.book.swaps }
    ensures left { HasLeft seat.new number (number + 1) }
    ensures once { (r : ℕ) → owns r seat.new.book ≤ 1 }
{
    let Some(span) = board.claim(seat) else {
        panic!(rt; "nothing to claim")
    };
    assert!(rt; span.start == number);
    assert!(rt; span.end - span.start == 1);
}

// Posts the record of that number, which the seat claimed, to the first page. It loses at most so many exchanges.
fn post_one<R: Abort>(rt: &R, board: &Board, seat: &mut Seat, number: u64, most: u64)
    requires board { seat.old.board ≡ board.now }
    requires page { 0 < length board.now.first }
    requires left { HasLeft seat.old number (number + 1) }
    requires once { (r : ℕ) → owns r seat.old.book ≤ 1 }
    ensures board { seat.new.board ≡ board.now }
    ensures width { seat.new.book.width ≡ seat.old.book.width }
    ensures swaps { seat.new.book.swaps ≡ seat.old.book.swaps }
    ensures posted { HasPostedAll seat.new }
{
    let lost = board.post(seat, number, 0).lost;
    assert_that(rt, lost <= most);
}

// Claims a piece of one record, which has this number, and posts it to the first page. It loses at most so many exchanges.
fn claim_and_post<R: Abort>(rt: &R, board: &Board, seat: &mut Seat, number: u64, most: u64)
    requires board { seat.old.board ≡ board.now }
    requires page { 0 < length board.now.first }
    requires posted { HasPostedAll seat.old }
    ensures board { seat.new.board ≡ board.now }
    ensures width { seat.new.book.width ≡ seat.old.book.width }
    ensures swaps { seat.new.book.swaps ≡ seat.old.book.swaps }
    ensures posted { HasPostedAll seat.new }
{
    claim_one(rt, board, seat, number);
    post_one(rt, board, seat, number, most);
}

// Compares what becomes of a try to replace the first word of the first page, which has a spare.
fn is_replaced<R: Abort>(rt: &R, board: &Board, seat: &mut Seat, wanted: Replaced)
    requires board { seat.old.board ≡ board.now }
    requires page { 0 < length board.now.first }
    requires spare { slice_index_or board.now.spares 0 None ≢ None }
    requires untried { tries_in 0 seat.old.book.swaps ≡ 0 }
    ensures { SameWork seat.old seat.new }
{
    assert_equal(rt, board.replace(seat, 0), wanted);
}

// The seat is told that no record is left.
fn is_told<R: Abort>(rt: &R, board: &Board, seat: &mut Seat)
    requires board { seat.old.board ≡ board.now }
    requires posted { HasPostedAll seat.old }
    ensures board { seat.new.board ≡ board.now }
    ensures width { seat.new.book.width ≡ seat.old.book.width }
    ensures told { seat.new.book.told ≡ true }
    ensures posted { HasPostedAll seat.new }
{
    if board.claim(seat).is_some() {
        panic!(rt; "one record more")
    }
}

// Compares what a claim gets.
fn claims<R: Abort>(rt: &R, board: &Board, seat: &mut Seat, wanted: Option<Range<u64>>)
    requires { seat.old.board ≡ board.now }
    ensures { seat.new.board ≡ board.now }
{
    assert_that(rt, board.claim(seat) == wanted);
}

#[test]
fn five_records_are_claimed_by_twos(rt: HostRuntime) {
    let alloc = memory(&rt, rt.alloc());
    let (board, mut seat) = one_page(&rt, alloc, 5, 2);
    claims(&rt, &board, &mut seat, Some(0..2));
    claims(&rt, &board, &mut seat, Some(2..4));
    claims(&rt, &board, &mut seat, Some(4..5));
    claims(&rt, &board, &mut seat, None);
    claims(&rt, &board, &mut seat, None);
}

#[test]
fn a_seat_is_split_ten_times(rt: HostRuntime) {
    let alloc = memory(&rt, rt.alloc());
    let (board, mut seat) = one_page(&rt, alloc, 5, 2);
    for time in 0..10 {
        match board.split(seat) {
            Ok((left, _right)) => seat = left,
            Err(_seat) => panic!(rt; "split {time} was refused"),
        }
    }
    assert_that(&rt, board.split(seat).is_err());
}

#[test]
fn two_seats_post_one_after_the_other(rt: HostRuntime) {
    let alloc = memory(&rt, rt.alloc());
    let (board, seat) = one_page(&rt, alloc, 2, 1);
    let Ok((mut first, mut second)) = board.split(seat) else {
        panic!(rt; "not split")
    };
    claim_and_post(&rt, &board, &mut first, 0, 0);
    claim_and_post(&rt, &board, &mut second, 1, 0);
    has_chain(&rt, &board, &mut second, 0, &[1, 0]);
    has_chain(&rt, &board, &mut first, 0, &[1, 0]);
    is_told(&rt, &board, &mut first);
    is_told(&rt, &board, &mut second);
    let seat = merged(&board, first, second);
    let closed = board.close(seat).expect(&rt, "memory");
    is_closed(&rt, &closed, &[FLOOR + 1], &[7, FLOOR], &[]);
}

#[test]
fn a_seat_that_looked_posts_after_another(rt: HostRuntime) {
    let alloc = memory(&rt, rt.alloc());
    let (board, seat) = one_page(&rt, alloc, 2, 1);
    let Ok((mut first, mut second)) = board.split(seat) else {
        panic!(rt; "not split")
    };
    has_head(&rt, &board, &mut first, 7);
    claim_one(&rt, &board, &mut first, 0);
    claim_and_post(&rt, &board, &mut second, 1, 0);
    post_one(&rt, &board, &mut first, 0, 1);
    has_chain(&rt, &board, &mut first, 0, &[0, 1]);
    has_head(&rt, &board, &mut second, FLOOR);
    is_told(&rt, &board, &mut first);
    is_told(&rt, &board, &mut second);
    let seat = merged(&board, first, second);
    let closed = board.close(seat).expect(&rt, "memory");
    let (heads, links, swapped) = closed.into_parts();
    assert_that(&rt, heads.as_slice() == [FLOOR].as_slice());
    assert_that(&rt, links.as_slice() == [FLOOR + 1, 7].as_slice());
    assert_that(&rt, swapped.is_empty());
}

#[test]
fn a_board_without_records(rt: HostRuntime) {
    let alloc = memory(&rt, rt.alloc());
    let heads = [7, 9];
    let (board, mut seat) = Board::open(alloc, &heads, FLOOR, 0, 1, &[None, None]).expect(
        &rt, "memory",
    );
    is_told(&rt, &board, &mut seat);
    let closed = board.close(seat).expect(&rt, "memory");
    is_closed(&rt, &closed, &heads, &[], &[]);
}

// The second page is behind the end of the spares, and has none.
#[test]
fn a_word_is_replaced_before_a_post(rt: HostRuntime) {
    let alloc = memory(&rt, rt.alloc());
    let (board, mut seat) = Board::open(alloc, &[FLOOR, 9], FLOOR + 1, 1, 1, &[Some(5)]).expect(
        &rt, "memory",
    );
    is_replaced(&rt, &board, &mut seat, Replaced::Won);
    claim_and_post(&rt, &board, &mut seat, 0, 0);
    is_told(&rt, &board, &mut seat);
    let closed = board.close(seat).expect(&rt, "memory");
    is_closed(&rt, &closed, &[FLOOR + 1, 9], &[5], &[0]);
}

#[test]
fn a_replacement_comes_late(rt: HostRuntime) {
    let alloc = memory(&rt, rt.alloc());
    let (board, mut seat) = Board::open(alloc, &[FLOOR], FLOOR + 1, 1, 1, &[Some(5)]).expect(
        &rt, "memory",
    );
    claim_and_post(&rt, &board, &mut seat, 0, 0);
    is_replaced(&rt, &board, &mut seat, Replaced::Late);
    is_told(&rt, &board, &mut seat);
    let closed = board.close(seat).expect(&rt, "memory");
    is_closed(&rt, &closed, &[FLOOR + 1], &[FLOOR], &[]);
}

// The calls that take memory.
#[derive(Clone, Copy, PartialEq, Eq)]
enum Call {
    Open,
    OpenWithoutSpares,
    Peek,
    Close,
}

// Opens a board, with a spare or without, in which one growth is refused. Answers whether it was.
fn is_open_refused(rt: &impl Abort, alloc: Alloc, growth: u64, has_spare: bool) -> bool {
    alloc.refuse(growth);
    let is_err = if has_spare {
        Board::open(alloc, &[7], FLOOR, 1, 1, &[Some(5)]).is_err()
    } else {
        Board::open(alloc, &[7], FLOOR, 1, 1, &[]).is_err()
    };
    has_come(rt, alloc, growth, is_err)
}

// Peeks at a page with one record, where one growth is refused, and once more. Answers whether it was.
fn is_peek_refused(
    rt: &impl Abort,
    alloc: Alloc,
    growth: u64,
    board: &Board,
    seat: &mut Seat,
) -> bool
    requires board { seat.old.board ≡ board.now }
    requires page { 0 < length board.now.first }
{
    alloc.refuse(growth);
    let is_err = board.peek(seat, 0).is_err();
    let found = has_come(rt, alloc, growth, is_err);
    has_chain(rt, board, seat, 0, &[0]);
    found
}

// Opens a board, posts its one record over a spare and closes it, up to this call, in which one growth is refused. Answers
// whether it was.
fn is_refused(rt: &impl Abort, alloc: Alloc, growth: u64, call: Call) -> bool {
    if call == Call::Open || call == Call::OpenWithoutSpares {
        return is_open_refused(rt, alloc, growth, call == Call::Open);
    }
    let (board, mut seat) = Board::open(alloc, &[7], FLOOR, 1, 1, &[Some(5)]).expect(rt, "memory");
    is_replaced(rt, &board, &mut seat, Replaced::Won);
    claim_and_post(rt, &board, &mut seat, 0, 0);
    if call == Call::Peek {
        return is_peek_refused(rt, alloc, growth, &board, &mut seat);
    }
    is_told(rt, &board, &mut seat);
    alloc.refuse(growth);
    let closed = board.close(seat);
    has_come(rt, alloc, growth, closed.is_err())
}

// Whether the growth of this number has come, which the call must have answered. No growth is refused after it.
fn has_come(rt: &impl Abort, alloc: Alloc, growth: u64, is_err: bool) -> bool {
    let found = alloc.left() == 0 || alloc.left() > growth;
    alloc.refuse(0);
    assert_equal(rt, found, is_err);
    found
}

// How many growths of a call can be refused.
fn count_refused(rt: &impl Abort, alloc: Alloc, call: Call) -> u64 {
    for growth in 1..100u64 {
        if !is_refused(rt, alloc, growth, call) {
            return growth - 1;
        }
    }
    panic!(rt; "no run met no refusal");
}

#[test]
fn each_growth_is_refused_in_turn(rt: HostRuntime) {
    let alloc = memory(&rt, rt.alloc());
    let opened = count_refused(&rt, alloc, Call::Open);
    assert_that(&rt, opened > 2);
    let without_spares = count_refused(&rt, alloc, Call::OpenWithoutSpares);
    assert_equal(&rt, without_spares.checked_add(1), Some(opened));
    assert_equal(&rt, count_refused(&rt, alloc, Call::Peek), 1);
    assert_equal(&rt, count_refused(&rt, alloc, Call::Close), 3);
}
