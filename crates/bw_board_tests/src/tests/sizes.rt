//! Boards with many seats, records and pages.
ghost use Rattle.std.specs.Prelude.{◌≡◌, ◌≤◌, ◌<◌, ◌+◌, ℕ, true, false, length, replicate, IfOk};
ghost use Rattle.bw_core.specs.World.{owns};
ghost use Rattle.bw_board.specs.Working.{HasPostedAll, HasLeft, SameWork};

use super::storms::merged;
use super::{FLOOR, memory, one_page};
use crate::tests::assertions::{assert_equal, assert_that};
use bw_board::{Board, Seat};
use bw_memory::Alloc;
use std::alloc::AllocError;
use std::process::Abort;

// Posts the records of a piece, each to the page that its number gives.
fn post_piece(board: &Board, seat: &mut Seat, from: u64, to: u64, pages: u64)
    requires board { seat.old.board ≡ board.now }
    requires some { 0 < pages }
    requires pages { pages ≡ length board.now.first }
    requires left { HasLeft seat.old from to }
    requires once { (r : ℕ) → owns r seat.old.book ≤ 1 }
    requires rising { from ≤ to }
    ensures board { seat.new.board ≡ board.now }
    ensures width { seat.new.book.width ≡ seat.old.book.width }
    ensures posted { HasPostedAll seat.new }
{
    for rec in from..to {
        board.post(seat, rec, rec % pages);
    }
}

// Claims and posts a piece, and says whether there was one.
fn post_next(board: &Board, seat: &mut Seat, pages: u64) -> bool
    requires board { seat.old.board ≡ board.now }
    requires some { 0 < pages }
    requires pages { pages ≡ length board.now.first }
    requires posted { HasPostedAll seat.old }
    ensures board { seat.new.board ≡ board.now }
    ensures width { seat.new.book.width ≡ seat.old.book.width }
    ensures posted { HasPostedAll seat.new }
    ensures told { result ≡ false → seat.new.book.told ≡ true }
{
    let Some(span) = board.claim(seat) else {
        return false;
    };
    post_piece(board, seat, span.start, span.end, pages);
    true
}

// Claims and posts until no record is left. There are at most so many pieces.
fn post_rest(rt: &impl Abort, board: &Board, mut seat: Seat, pages: u64, pieces: u64) -> Seat
    requires board { seat.board ≡ board.now }
    requires some { 0 < pages }
    requires pages { pages ≡ length board.now.first }
    requires posted { HasPostedAll seat }
    ensures board { result.board ≡ board.now }
    ensures width { result.book.width ≡ seat.book.width }
    ensures told { result.book.told ≡ true }
    ensures posted { HasPostedAll result }
{
    for _ in 0..=pieces {
        if !post_next(board, &mut seat, pages) {
            return seat;
        }
    }
    panic!(rt; "more pieces than records")
}

// Splits the seat and its halves so often, has each part post a piece, and joins them.
fn post_by_parts(rt: &impl Abort, board: &Board, mut seat: Seat, pages: u64, splits: u64) -> Seat
    requires board { seat.board ≡ board.now }
    requires some { 0 < pages }
    requires pages { pages ≡ length board.now.first }
    requires posted { HasPostedAll seat }
    ensures board { result.board ≡ board.now }
    ensures width { result.book.width ≡ seat.book.width }
    ensures posted { HasPostedAll result }
{
    if splits == 0 {
        assert!(rt; post_next(board, &mut seat, pages));
        return seat;
    }
    let Ok((first, second)) = board.split(seat) else {
        panic!(rt; "not split")
    };
    let first = post_by_parts(rt, board, first, pages, splits - 1);
    let second = post_by_parts(rt, board, second, pages, splits - 1);
    merged(board, first, second)
}

// How many records were posted to the page.
fn chain_length(rt: &impl Abort, board: &Board, seat: &mut Seat, page: u64) -> usize
    requires board { seat.old.board ≡ board.now }
    requires page { page < length board.now.first }
    ensures { SameWork seat.old seat.new }
{
    board.peek(seat, page).expect(rt, "memory").len()
}

#[test]
fn sixty_four_seats_post_to_one_page(rt: HostRuntime) {
    let alloc = memory(&rt, rt.alloc());
    let (board, seat) = one_page(&rt, alloc, 128, 1);
    let seat = post_by_parts(&rt, &board, seat, 1, 6);
    let mut seat = post_rest(&rt, &board, seat, 1, 64);
    assert_equal(&rt, chain_length(&rt, &board, &mut seat, 0), 128);
    let closed = board.close(seat).expect(&rt, "memory");
    assert_that(&rt, closed.heads() == [FLOOR + 127].as_slice());
    assert_equal(&rt, closed.links().len(), 128);
    assert_that(&rt, closed.swapped().is_empty());
}

#[test]
fn a_million_records_are_posted(rt: HostRuntime) {
    let alloc = memory(&rt, rt.alloc());
    let records = 1_000_000;
    let (board, seat) = one_page(&rt, alloc, records, 4096);
    let used = alloc.used();
    let mut seat = post_rest(&rt, &board, seat, 1, records.div_ceil(4096));
    assert_equal(&rt, alloc.used(), used);
    assert_equal(&rt, chain_length(&rt, &board, &mut seat, 0), 1_000_000);
    let closed = board.close(seat).expect(&rt, "memory");
    assert_that(&rt, closed.heads() == [FLOOR + records - 1].as_slice());
    assert_equal(&rt, closed.links().len(), 1_000_000);
    assert_that(&rt, closed.swapped().is_empty());
}

fn same_words(alloc: Alloc, pages: usize) -> Result<Vec<u64, Alloc>, AllocError>
    ensures { IfOk result (λ v. v.items ≡ replicate pages 7) }
{
    vec![in alloc; 7; pages]
}

// Opens a board with so many pages, and posts two records to each.
fn post_to_many(rt: &impl Abort, alloc: Alloc, pages: usize)
    requires some { 0 < pages }
    requires few { pages ≤ 100000 }
{
    let heads = same_words(alloc, pages).expect(rt, "memory");
    let records = 200_000;
    let (board, seat) = Board::open(alloc, &heads, FLOOR, records, 4096, &[]).expect(rt, "memory");
    let mut seat = post_rest(rt, &board, seat, pages as u64, records.div_ceil(4096));
    let last = chain_length(rt, &board, &mut seat, pages as u64 - 1);
    assert_equal(rt, last, 2);
    let closed = board.close(seat).expect(rt, "memory");
    assert_equal(rt, closed.heads().len(), pages);
    assert_equal(rt, closed.links().len(), 200_000);
    assert_equal(rt, closed.heads().last(), Some(&(FLOOR + records - 1)));
    assert_that(rt, closed.swapped().is_empty());
}

#[test]
fn a_hundred_thousand_pages_have_records(rt: HostRuntime) {
    let alloc = memory(&rt, rt.alloc());
    post_to_many(&rt, alloc, 100_000);
}
