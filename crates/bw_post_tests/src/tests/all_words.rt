// A batch posted over a board of all mapping words: those of the leaves that get a write, of one that gets none, and of the root.
ghost use Rattle.std.specs.Prelude.{◌≡◌, ◌≤◌, ◌<◌, ◌+◌, ℕ, true, false, None, length};
ghost use Rattle.bw_core.specs.World.{owns};
ghost use Rattle.bw_board.specs.Working.{HasLeft, HasPostedAll};
ghost use Rattle.bw_tree.specs.Stages.{is_adopted};
ghost use Rattle.bw_tree.specs.PageWords.{IsPostedStageOn};

use super::making::{BATCH, FLOOR, Found, Pair, batch, has, holds, memory, post, stands, three};
use super::rows::undo_without_memory;
use crate::tests::assertions::assert_equal;
use bw_board::{Board, Closed, Seat};
use bw_memory::Alloc;
use bw_page::PageId;
use bw_post::{Posting, Tree};
use std::process::Abort;
use std::thread::Threads;

// Posts the records of a piece, each to the page behind that of its number.
fn post_piece(board: &Board, seat: &mut Seat, from: u64, to: u64)
    requires board { seat.old.board ≡ board.now }
    requires pages { to < length board.now.first }
    requires left { HasLeft seat.old from to }
    requires once { (r : ℕ) → owns r seat.old.book ≤ 1 }
    requires rising { from ≤ to }
    ensures board { seat.new.board ≡ board.now }
    ensures width { seat.new.book.width ≡ seat.old.book.width }
    ensures posted { HasPostedAll seat.new }
{
    for rec in from..to {
        board.post(seat, rec, rec + 1);
    }
}

// Claims and posts a piece, and says whether there was one.
fn post_next(board: &Board, seat: &mut Seat) -> bool
    requires board { seat.old.board ≡ board.now }
    requires pages { board.now.records < length board.now.first }
    requires posted { HasPostedAll seat.old }
    ensures board { seat.new.board ≡ board.now }
    ensures width { seat.new.book.width ≡ seat.old.book.width }
    ensures posted { HasPostedAll seat.new }
    ensures told { result ≡ false → seat.new.book.told ≡ true }
{
    let Some(span) = board.claim(seat) else {
        return false;
    };
    post_piece(board, seat, span.start, span.end);
    true
}

// Opens a board over the four words of a tree of three leaves, and posts a record to page 1 and one to page 2.
fn posted_over_all<R: Abort>(rt: &R, alloc: Alloc) -> Closed {
    let heads = [0, 1, 2, 3];
    let (board, mut seat) = Board::open(alloc, &heads, FLOOR, 2, 2, &[]).expect(rt, "memory");
    assert!(rt; post_next(&board, &mut seat));
    assert!(rt; !post_next(&board, &mut seat));
    board.close(seat).expect(rt, "memory")
}

// Adopts the words of all pages, where those of two pages, on which the batch is posted, are among them.
#[tactic(auto, using(bw_tree::proofs::SwappedWords::spread_stage))]
fn adopt_all<R: Abort>(rt: &R, tree: &mut Tree, pages: &[PageId], two: &Closed, all: Closed)
    requires { IsPostedStageOn tree.old tree.old.staged pages.now two.now.heads two.now.links }
    ensures { is_adopted tree.new.staged ≡ true }
{
    assert!(rt; pages == [PageId(1), PageId(2)].as_slice());
    assert!(rt; two.heads() == [FLOOR, FLOOR + 1].as_slice());
    assert!(rt; two.links() == all.links());
    assert!(rt; tree.heads() == [0, 1, 2, 3].as_slice());
    assert!(rt; all.heads() == [0, FLOOR, FLOOR + 1, 3].as_slice());
    tree.adopt(all);
}

// Posts the batch of two writes, and adopts the words of all pages. The first leaf and the root get none.
fn adopt_over_all<R: Abort + Threads + Sync>(rt: &R, alloc: Alloc, tree: &mut Tree)
    requires { tree.old.staged ≡ None }
    ensures { is_adopted tree.new.staged ≡ true }
{
    let ops = batch(rt, alloc, BATCH);
    let Posting { pages, closed, .. } = post(rt, alloc, tree, &ops, 1);
    let all = posted_over_all(rt, alloc);
    assert_equal(rt, all.links(), [1, 2].as_slice());
    alloc.refuse(1);
    adopt_all(rt, tree, &pages, &closed, all);
    assert_equal(rt, alloc.left(), 1);
    alloc.refuse(0);
}

// The tree over three leaves with the batch adopted so.
fn adopted_over_all<R: Abort + Threads + Sync>(rt: &R, alloc: Alloc) -> Tree
    ensures { is_adopted result.staged ≡ true }
{
    let mut tree = three(rt, alloc);
    adopt_over_all(rt, alloc, &mut tree);
    stands(rt, &tree, &[0, FLOOR, FLOOR + 1, 3], 2, 0);
    tree
}

// What is read as of each stamp of the batch: before both writes, between them and behind them.
const AS_OF_0: &[Found] = &[(b"c", Some(b"3")), (b"d", None), (b"e", Some(b"5"))];

const AS_OF_1: &[Found] = &[(b"c", Some(b"9")), (b"e", Some(b"5"))];

const AS_OF_2: &[Found] = &[(b"a", Some(b"1")), (b"c", Some(b"9")), (b"e", None)];

// Compares what is read as of each of them.
fn is_read_in_turn<R: Abort>(rt: &R, alloc: Alloc, tree: &Tree) {
    has(rt, alloc, tree, 0, AS_OF_0);
    has(rt, alloc, tree, 1, AS_OF_1);
    has(rt, alloc, tree, 2, AS_OF_2);
}

const AFTER: &[Pair] = &[(b"a", b"1"), (b"b", b"2"), (b"c", b"9")];

const BEFORE: &[Pair] = &[(b"a", b"1"), (b"b", b"2"), (b"c", b"3"), (b"e", b"5")];

#[test]
fn the_words_of_all_four_pages_are_adopted_and_accepted(rt: HostRuntime) {
    let alloc = memory(&rt, rt.alloc());
    let mut tree = adopted_over_all(&rt, alloc);
    is_read_in_turn(&rt, alloc, &tree);
    tree.accept();
    is_read_in_turn(&rt, alloc, &tree);
    stands(&rt, &tree, &[0, FLOOR, FLOOR + 1, 3], 2, 3);
    holds(&rt, alloc, &tree, 3, AFTER);
}

// Compares that a tree is as before the batch.
fn is_as_before<R: Abort>(rt: &R, alloc: Alloc, tree: &Tree) {
    stands(rt, tree, &[0, 1, 2, 3], 0, 0);
    for stamp in 0..3 {
        holds(rt, alloc, tree, stamp, BEFORE);
    }
}

#[test]
fn the_words_of_all_four_pages_are_adopted_and_undone(rt: HostRuntime) {
    let alloc = memory(&rt, rt.alloc());
    let mut tree = adopted_over_all(&rt, alloc);
    is_read_in_turn(&rt, alloc, &tree);
    undo_without_memory(&rt, alloc, &mut tree);
    is_as_before(&rt, alloc, &tree);
}
