// Workers at a board, which claim and post side by side.
ghost use Rattle.std.specs.Prelude.{◌≡◌, ℕ, ◌+◌, ◌^◌, ◌<◌, ◌≤◌, [], length, map, IfOk};
ghost use denote.Param.Send.{IsSync};
ghost use Rattle.std.specs.List.{AllByRecursion};
ghost use Rattle.bw_core.specs.World.{owns, total};
ghost use Rattle.bw_board.specs.Plays.{lost_in};
ghost use Rattle.bw_board.specs.Working.{HasLeft, HasPostedAll};
ghost use Rattle.bw_look.specs.View.{staged_writes};
ghost use Rattle.bw_post.specs.Posting.{AreStagedHomes, ArePostedHome, HasClaimedNothing, HasFinished};
ghost use Rattle.bw_post.specs.Posting.{IsBoardOf, IsHomeOfRecord, IsNew, width_of};

use crate::folding::fold_leaves;
use crate::gates::Gate;
use bw_board::{Board, Seat};
use bw_group::Homes;
use bw_key::Memory;
use bw_memory::Alloc;
use bw_tree::{Folded, Tree};
use std::ops::Range;
use std::thread::{Threads, for_each_mut};

/// A worker's seat at a board, how many exchanges its posts lost, and the leaves that it put in the places of chains.
#[derive(Drop)]
pub(crate) struct Worker {
    pub(crate) seat: Seat,
    pub(crate) lost: u64,
    pub(crate) folded: Vec<Folded, Alloc>,
}

// A worker who didn't do anything yet.
fn worker_at(alloc: Alloc, seat: Seat) -> Worker
    ensures seat { result.seat ≡ seat }
    ensures lost { result.lost ≡ 0 }
    ensures folded { result.folded.items ≡ [] }
{
    Worker {
        seat,
        lost: 0,
        folded: Vec::new(alloc),
    }
}

/// So many workers, of which there is at least one, in the place of one seat. There are fewer where the seat can't be
/// split so often.
pub(crate) fn seat_workers(
    alloc: Alloc,
    board: &Board,
    seat: Seat,
    count: usize,
) -> Result<Vec<Worker, Alloc>, Memory>
    requires board { seat.board ≡ board.now }
    requires fresh { (seat.book.owned ≡ []) × (seat.book.posted ≡ []) }
    requires untried { seat.book.swaps ≡ [] }
    ensures some { IfOk result (λ workers. 0 < length workers.items) }
    ensures new { IfOk result (λ workers. AllByRecursion (IsNew board.now) workers.items) }
    ensures width { IfOk result (λ workers. total width_of workers.items ≡ seat.book.width) }
{
    let mut workers = Vec::new(alloc);
    workers.push(worker_at(alloc, seat))?;
    while workers.len() < count {
        let Worker {
            seat,
            lost: _lost,
            folded: _folded,
        } = workers.remove(0);
        match board.split(seat) {
            Ok((left, right)) => {
                workers.push(worker_at(alloc, left))?;
                workers.push(worker_at(alloc, right))?;
            }
            Err(seat) => {
                workers.push(worker_at(alloc, seat))?;
                return Ok(workers);
            }
        }
    }
    Ok(workers)
}

/// Has each worker consolidate leaves that have a spare and offer them in the places of their chains, and then claim and post
/// until no record is left, in a thread of its own where one can be made.
pub(crate) fn post_side_by_side<R: Threads + Sync, G: Gate>(
    rt: &R,
    tree: &Tree,
    homes: &Homes,
    board: &Board,
    spares: &[Option<u64>],
    gate: &G,
    workers: &mut [Worker],
)
    requires over { IsBoardOf tree.now homes.now.pages board.now }
    requires staged { AreStagedHomes tree.now homes.now }
    requires spares { spares.now ≡ board.now.spares }
    requires some { 0 < length workers.old }
    requires new { AllByRecursion (IsNew board.now) workers.old }
    ensures finished { AllByRecursion (HasFinished tree.now homes.now.pages board.now) workers.new }
    ensures width { map width_of workers.new ≡ map width_of workers.old }
{
    let count = workers.len();
    let post = move |place: usize, worker: &mut Worker|
        requires { IsSync G.row × IsBoardOf tree.now homes.now.pages board.now × AreStagedHomes tree.now homes.now
            × (spares.now ≡ board.now.spares) × (0 < count) × IsNew board.now worker.now }
        ensures { HasFinished tree.entry.now homes.entry.now.pages board.entry.now worker.exit.now
            × (width_of worker.exit.now ≡ width_of worker.entry.now) }
    {
        fold_leaves(tree, homes, board, spares, place, count, worker);
        post_claimed(tree, homes, board, gate, worker)
    };
    for_each_mut(rt, workers, workers.len(), &post);
}

// Claims and posts until no record is left.
fn post_claimed<G: Gate>(tree: &Tree, homes: &Homes, board: &Board, gate: &G, worker: &mut Worker)
    requires over { IsBoardOf tree.now homes.now.pages board.now }
    requires staged { AreStagedHomes tree.now homes.now }
    requires fresh { HasClaimedNothing tree.now homes.now.pages board.now worker.old }
    ensures finished { HasFinished tree.now homes.now.pages board.now worker.new }
    ensures width { width_of worker.new ≡ width_of worker.old }
{
    while let Some(span) = board.claim(&mut worker.seat) {
        worker.lost += post_piece(tree, homes, board, gate, &mut worker.seat, span);
    }
}

// Posts the records of a piece, and answers how many exchanges that lost.
fn post_piece<G: Gate>(
    tree: &Tree,
    homes: &Homes,
    board: &Board,
    gate: &G,
    seat: &mut Seat,
    piece: Range<u64>,
) -> u64
    requires board { seat.old.board ≡ board.now }
    requires over { IsBoardOf tree.now homes.now.pages board.now }
    requires staged { AreStagedHomes tree.now homes.now }
    requires left { HasLeft seat.old piece.start piece.end }
    requires homes { ArePostedHome tree.now homes.now.pages seat.old }
    requires once { (r : ℕ) → owns r seat.old.book ≤ 1 }
    requires few { lost_in seat.old.book.posted < 2 ^ 64 }
    requires rising { piece.start ≤ piece.end }
    requires within { piece.end ≤ board.now.records }
    ensures board { seat.new.board ≡ board.now }
    ensures width { seat.new.book.width ≡ seat.old.book.width }
    ensures swaps { seat.new.book.swaps ≡ seat.old.book.swaps }
    ensures owned { seat.new.book.owned ≡ seat.old.book.owned }
    ensures once { (r : ℕ) → owns r seat.new.book ≤ 1 }
    ensures posted { HasPostedAll seat.new }
    ensures homes { ArePostedHome tree.now homes.now.pages seat.new }
    ensures lost { lost_in seat.old.book.posted + result ≡ lost_in seat.new.book.posted }
    ensures few { lost_in seat.new.book.posted < 2 ^ 64 }
{
    let mut lost = 0;
    for record in piece.start..piece.end {
        gate.before(record);
        let page = home_at(tree, homes, record);
        lost += board.post(seat, record, page as u64).lost;
        gate.after(record);
    }
    lost
}

// Which of the batch's pages is the home of a staged record's key. The place of the record's operation is in its stamp.
fn home_at(tree: &Tree, homes: &Homes, number: u64) -> usize
    requires staged { AreStagedHomes tree.now homes.now }
    requires there { number < length (staged_writes tree.now.staged) }
    ensures there { result < length homes.now.pages }
    ensures home { IsHomeOfRecord tree.now homes.now.pages number result }
{
    let place = tree.staged_write(number).stamp() - tree.next_stamp();
    homes.number_at(place as usize)
}

/// All workers' seats in one, with what they lost together, and their leaves in one list. `Memory` is answered where that finds
/// none.
pub(crate) fn join_workers(
    tree: &Tree,
    homes: &Homes,
    board: &Board,
    mut workers: Vec<Worker, Alloc>,
) -> Result<Worker, Memory>
    requires over { IsBoardOf tree.now homes.now.pages board.now }
    requires some { 0 < length workers.items }
    requires finished { AllByRecursion (HasFinished tree.now homes.now.pages board.now) workers.items }
    ensures finished { IfOk result (HasFinished tree.now homes.now.pages board.now) }
    ensures width { IfOk result (λ whole. width_of whole ≡ total width_of workers.entry.items) }
{
    let mut whole = workers.pop().unwrap();
    for worker in workers {
        whole = join_two(tree, homes, board, whole, worker)?;
    }
    Ok(whole)
}

// Two workers' seats in one, with what they lost together, and the leaves of both.
fn join_two(
    tree: &Tree,
    homes: &Homes,
    board: &Board,
    left: Worker,
    right: Worker,
) -> Result<Worker, Memory>
    requires over { IsBoardOf tree.now homes.now.pages board.now }
    requires left { HasFinished tree.now homes.now.pages board.now left }
    requires right { HasFinished tree.now homes.now.pages board.now right }
    ensures finished { IfOk result (HasFinished tree.now homes.now.pages board.now) }
    ensures width { IfOk result (λ both. width_of both ≡ width_of left + width_of right) }
{
    let Worker {
        seat,
        lost,
        mut folded,
    } = left;
    let Worker {
        seat: other,
        lost: more,
        folded: mut rest,
    } = right;
    folded.append(&mut rest)?;
    Ok(Worker {
        seat: board.join(seat, other),
        lost: lost + more,
        folded,
    })
}
