// Leaves that a worker consolidates beside the posting, before its first claim.
ghost use Rattle.std.specs.Prelude.{◌≡◌, ◌≢◌, ℕ, ◌<◌, None, slice_index_or};
ghost use Rattle.bw_core.specs.World.{tries_in};
ghost use Rattle.bw_post.specs.Posting.{HasClaimedNothing, IsBoardOf, IsNew, width_of};

use crate::workers::Worker;
use bw_board::{Board, Replaced};
use bw_group::Homes;
use bw_tree::{Folded, Tree};

/// Consolidates leaves that have a spare, and offers each in the place of its chain: those of the pages from this number on, each
/// so many pages further. A leaf that finds no memory is left out.
pub(crate) fn fold_leaves(
    tree: &Tree,
    homes: &Homes,
    board: &Board,
    spares: &[Option<u64>],
    first: usize,
    step: usize,
    worker: &mut Worker,
)
    requires over { IsBoardOf tree.now homes.now.pages board.now }
    requires spares { spares.now ≡ board.now.spares }
    requires step { 0 < step }
    requires new { IsNew board.now worker.old }
    ensures claimed { HasClaimedNothing tree.now homes.now.pages board.now worker.new }
    ensures width { width_of worker.new ≡ width_of worker.old }
{
    let mut number = first;
    while number < spares.len() {
        if spares[number].is_some() {
            fold_leaf(tree, homes, board, number as u64, worker);
        }
        number = number.saturating_add(step);
    }
}

// Consolidates the leaf of this number, and offers it in the place of its chain.
fn fold_leaf(tree: &Tree, homes: &Homes, board: &Board, number: u64, worker: &mut Worker)
    requires over { IsBoardOf tree.now homes.now.pages board.now }
    requires spare { slice_index_or board.now.spares number None ≢ None }
    requires untried { tries_in number worker.old.seat.book.swaps ≡ 0 }
    requires claimed { HasClaimedNothing tree.now homes.now.pages board.now worker.old }
    ensures claimed { HasClaimedNothing tree.now homes.now.pages board.now worker.new }
    ensures width { width_of worker.new ≡ width_of worker.old }
    ensures untried { (other : ℕ) → number < other →
        tries_in other worker.new.seat.book.swaps ≡ tries_in other worker.old.seat.book.swaps }
{
    let page = homes.pages()[number as usize];
    if worker.folded.reserve(1).is_err() {
        return;
    }
    let Ok(leaf) = tree.leaf_as_of(page, tree.next_stamp()) else {
        return;
    };
    match board.replace(&mut worker.seat, number) {
        Replaced::Won => worker.folded.push_reserved(Folded { page, leaf }),
        Replaced::Late => {}
    }
}
