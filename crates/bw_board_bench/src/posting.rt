//! Records posted to one page of a board.
ghost use Rattle.std.specs.Prelude.{◌≡◌, ◌+◌, ◌≤◌, ◌<◌, ◌^◌, ℕ, true, length, IfSome};
ghost use Rattle.bw_core.specs.World.{owns};
ghost use Rattle.bw_board.specs.Working.{HasPostedAll, HasLeft};

use crate::{Load, PIECE, Tally, Timed};
use anyhow::{Result, bail};
use bw_board::{Board, Seat};
use bw_memory::Alloc;
use std::thread::{Threads, join};
use std::time::{Clock, Instant};

const FLOOR: u64 = 1 << 32;

// Posts the records of a piece.
fn post_piece(board: &Board, seat: &mut Seat, from: u64, to: u64, tally: &mut Tally)
    requires board { seat.old.board ≡ board.now }
    requires page { 0 < length board.now.first }
    requires left { HasLeft seat.old from to }
    requires once { (r : ℕ) → owns r seat.old.book ≤ 1 }
    requires rising { from ≤ to }
    ensures board { seat.new.board ≡ board.now }
    ensures width { seat.new.book.width ≡ seat.old.book.width }
    ensures posted { HasPostedAll seat.new }
{
    for rec in from..to {
        tally.count(board.post(seat, rec, 0).lost);
    }
}

// Claims and posts until no record is left. There are at most so many pieces.
fn post_all(board: &Board, mut seat: Seat, pieces: u64) -> Option<(Seat, Tally)>
    requires board { seat.board ≡ board.now }
    requires page { 0 < length board.now.first }
    requires posted { HasPostedAll seat }
    ensures { IfSome result (λ t. (t.0.board ≡ board.now) × (t.0.book.width ≡ seat.book.width) × (t.0.book.told ≡ true)
        × HasPostedAll t.0) }
{
    let mut tally = Tally::default();
    for _ in 0..=pieces {
        let Some(span) = board.claim(&mut seat) else {
            return Some((seat, tally));
        };
        post_piece(board, &mut seat, span.start, span.end, &mut tally);
    }
    None
}

// One seat of two that have posted all that they own.
fn merged(board: &Board, first: Seat, second: Seat) -> Seat
    requires board { (first.board ≡ board.now) × (second.board ≡ board.now) }
    requires first { HasPostedAll first }
    requires second { HasPostedAll second }
    ensures board { result.board ≡ board.now }
    ensures width { result.book.width ≡ first.book.width + second.book.width }
    ensures told { second.book.told ≡ true → result.book.told ≡ true }
    ensures posted { HasPostedAll result }
{
    board.join(first, second)
}

// Two threads post all.
fn post_by_two<R: Threads + Sync>(
    rt: &R,
    board: &Board,
    seat: Seat,
    pieces: u64,
) -> Option<(Seat, Tally)>
    requires board { seat.board ≡ board.now }
    requires page { 0 < length board.now.first }
    requires posted { HasPostedAll seat }
    ensures { IfSome result (λ t. (t.0.board ≡ board.now) × (t.0.book.width ≡ seat.book.width) × (t.0.book.told ≡ true)
        × HasPostedAll t.0) }
{
    let (first, second) = board.split(seat).ok()?;
    let (first, second) = join(
        rt,
        || post_all(board, first, pieces),
        || post_all(board, second, pieces),
    );
    let (first, one) = first?;
    let (second, two) = second?;
    Some((merged(board, first, second), one.and(two)))
}

// Four threads post all.
fn post_by_four<R: Threads + Sync>(
    rt: &R,
    board: &Board,
    seat: Seat,
    pieces: u64,
) -> Option<(Seat, Tally)>
    requires board { seat.board ≡ board.now }
    requires page { 0 < length board.now.first }
    requires posted { HasPostedAll seat }
    ensures { IfSome result (λ t. (t.0.board ≡ board.now) × (t.0.book.width ≡ seat.book.width) × (t.0.book.told ≡ true)
        × HasPostedAll t.0) }
{
    let (first, second) = board.split(seat).ok()?;
    let (first, second) = join(
        rt,
        || -> Option<(Seat, Tally)>
            requires { (first.board ≡ board.now) × (0 < length board.now.first) × HasPostedAll first }
        { post_by_two(rt, board, first, pieces) },
        || -> Option<(Seat, Tally)>
            requires { (second.board ≡ board.now) × (0 < length board.now.first) × HasPostedAll second }
        { post_by_two(rt, board, second, pieces) },
    );
    let (first, one) = first?;
    let (second, two) = second?;
    Some((merged(board, first, second), one.and(two)))
}

/// Posts so many records to the one page of a new board.
pub fn run<R: Threads + Clock + Sync>(rt: &R, alloc: Alloc, load: Load) -> Result<Timed>
    requires { load.records ≤ 2 ^ 32 }
{
    let (board, seat) = Board::open(alloc, &[0], FLOOR, load.records, PIECE, &[None])?;
    let start = Instant::now(rt)?;
    let posted = if load.four {
        post_by_four(rt, &board, seat, load.records)
    } else {
        post_all(&board, seat, load.records)
    };
    let time = start.elapsed(rt)?;
    let Some((seat, tally)) = posted else {
        bail!("more pieces than records")
    };
    board.close(seat)?;
    Ok(Timed { tally, time })
}
