// Posting the records of a staged batch to the pages of their keys.
ghost use Rattle.std.specs.Prelude.{◌≡◌, ◌⊎◌, ◌+◌, ◌<◌, ◌≤◌, [], length, map, IfOk};
ghost use Rattle.std.specs.List.{AllByRecursion};
ghost use Rattle.bw_core.specs.Keeping.{pairs_of};
ghost use Rattle.bw_look.specs.Folding.{spare_of};
ghost use Rattle.bw_look.specs.View.{staged_writes};
ghost use Rattle.bw_tree.specs.PageWords.{ArePages, IsPostedStageOn, words_of};
ghost use Rattle.bw_group.specs.Homes.{AreHomes};
ghost use Rattle.bw_post.specs.Posting.{AreSpares, AreStagedHomes, IsPostedBeside, IsUnadopted, IsWaiting};

use crate::gates::Gate;
use crate::workers::{Worker, join_workers, post_side_by_side, seat_workers};
use bw_board::{Board, Closed};
use bw_group::{Grouping, Homes, find_homes};
use bw_key::Memory;
use bw_memory::Alloc;
use bw_page::PageId;
use bw_tree::{Folded, Tree};
use std::thread::Threads;

// Workers who post to one page meet there: they lose exchanges, and its records don't stand in the order in which they were
// staged, which a sort of them pays for. Of so many records to each page that costs more than the posting takes.
const CROWD: u64 = 4096;

/// What posting leaves.
#[derive(Drop)]
pub struct Posting {
    /// The pages of the batch's keys.
    pub homes: Homes,
    /// Those over whose words the records were posted: all of them. Of a batch without writes there are none, unless it was
    /// posted by `post_beside`.
    pub pages: Vec<PageId, Alloc>,
    /// Their words, in their order, and the links of the records.
    pub closed: Closed,
    /// How many exchanges the workers lost, to one another's records or to leaves that took the places of chains.
    pub lost: u64,
    /// The leaves that the workers put in the places of their pages' chains.
    pub folded: Vec<Folded, Alloc>,
}

/// Posts each record of the staged batch to the page of its key, over a board of the mapping words of the batch's pages. So
/// many workers, and no more than there are pieces, nor than there are pages where these get 4,096 records each, claim pieces
/// of so many records side by side, each in a thread of its own where one can be made. `gate` is called round the posting
/// of each record.
///
/// The batch is staged and not adopted. It costs a search for each leaf that has a key of the batch, an exchange for each
/// record and for each that is lost, and some copies of the words of these leaves: nothing that grows with the index but the
/// depth of a search. A batch without writes costs the searches alone, and opens no board. After `Memory` the tree is as
/// before, with the batch still staged.
pub fn post_all<R: Threads + Sync, G: Gate>(
    rt: &R,
    alloc: Alloc,
    tree: &Tree,
    batch: &Grouping<'_>,
    piece: u64,
    workers: u64,
    gate: &G,
) -> Result<Posting, Memory>
    requires waiting { IsWaiting tree.now tree.now.staged batch.now.ops }
    requires piece { (0 < piece) × (piece ≤ 4096) }
    ensures homes { IfOk result (λ posting. AreHomes tree.now batch.now.ops posting.homes) }
    ensures posted { IfOk result (λ posting. IsPostedStageOn tree.now tree.now.staged posting.pages.items
        posting.closed.heads posting.closed.links) }

    // The board was over the pages of the batch. There was none where it only reads.
    ensures pages { 0 < length (staged_writes tree.now.staged) →
        IfOk result (λ posting. posting.pages.items ≡ posting.homes.pages) }
    ensures no_pages { length (staged_writes tree.now.staged) ≡ 0 →
        IfOk result (λ posting. posting.pages.items ≡ []) }
    ensures lost { IfOk result (λ posting. posting.lost ≤ pairs_of (length (staged_writes tree.now.staged))) }
    ensures folded { IfOk result (λ posting. posting.folded.items ≡ []) }
{
    let staged = tree.staged().unwrap();
    let homes = find_homes(rt, alloc, tree, batch, workers)?;
    if staged.records == 0 {
        return Ok(nothing_posted(alloc, homes));
    }
    post_over(rt, alloc, tree, homes, &[], piece, workers, gate)
}

/// The same, over a board of all pages of the batch, where leaves of these pages whose chains have at least half as many writes
/// as `chain_max` are consolidated. Before it claims, the worker with number i of n takes those among the pages i, i + n and so
/// on, and offers each in the place of its chain. There are no more workers than there are pieces, or such leaves. A leaf that
/// finds no memory is left out, and so is one to whose page another worker posted before.
///
/// It costs what `post_all` does, a walk along the chain of each page of the batch, and for each such leaf a copy of its pairs.
/// `Memory` is answered, too, where the lists of the pages, of their spares or of all leaves find none.
pub fn post_beside<R: Threads + Sync, G: Gate>(
    rt: &R,
    alloc: Alloc,
    tree: &Tree,
    batch: &Grouping<'_>,
    piece: u64,
    workers: u64,
    gate: &G,
    chain_max: u64,
) -> Result<Posting, Memory>
    requires waiting { IsWaiting tree.now tree.now.staged batch.now.ops }
    requires piece { (0 < piece) × (piece ≤ 4096) }
    ensures homes { IfOk result (λ posting. AreHomes tree.now batch.now.ops posting.homes) }
    ensures posted { IfOk result (λ posting. IsPostedBeside tree.now posting.folded.items posting.pages.items
        posting.closed.heads posting.closed.links) }
    ensures pages { IfOk result (λ posting. posting.pages.items ≡ posting.homes.pages) }
    ensures lost { let records = length (staged_writes tree.now.staged) in
        IfOk result (λ posting. posting.lost ≤ pairs_of records + records) }
{
    tree.know_levels();
    tree.know_records();
    let homes = find_homes(rt, alloc, tree, batch, workers)?;
    let spares = ripe_spares(tree, homes.pages(), chain_max)?;
    post_over(rt, alloc, tree, homes, &spares, piece, workers, gate)
}

// Posts over a board of the pages of the batch, with these spares.
fn post_over<R: Threads + Sync, G: Gate>(
    rt: &R,
    alloc: Alloc,
    tree: &Tree,
    homes: Homes,
    spares: &[Option<u64>],
    piece: u64,
    workers: u64,
    gate: &G,
) -> Result<Posting, Memory>
    requires waiting { IsUnadopted tree.now.staged }
    requires staged { AreStagedHomes tree.now homes }
    requires pages { ArePages tree.now homes.pages }
    requires spares { AreSpares tree.now homes.pages spares.now }
    requires piece { (0 < piece) × (piece ≤ 4096) }
    ensures homes { IfOk result (λ posting. posting.homes ≡ homes) }
    ensures pages { IfOk result (λ posting. posting.pages.items ≡ homes.pages) }
    ensures posted { IfOk result (λ posting. IsPostedBeside tree.now posting.folded.items posting.pages.items
        posting.closed.heads posting.closed.links) }
    ensures none { spares.now ≡ [] → IfOk result (λ posting. posting.folded.items ≡ []) }
    ensures lost { let records = length (staged_writes tree.now.staged) in
        IfOk result (λ posting. posting.lost ≤ pairs_of records + records) }
    ensures fewer { spares.now ≡ [] →
        IfOk result (λ posting. posting.lost ≤ pairs_of (length (staged_writes tree.now.staged))) }
{
    let staged = tree.staged().unwrap();
    let heads = heads_of(alloc, tree, homes.pages())?;
    let (board, seat) = Board::open(alloc, &heads, staged.floor, staged.records, piece, spares)?;
    let ripe = spares.iter().filter(|spare| spare.is_some()).count() as u64;
    let tasks = tasks_of(staged.records, homes.pages().len() as u64, piece).max(ripe);
    let mut crew = seat_workers(alloc, &board, seat, workers.min(tasks) as usize)?;
    post_side_by_side(rt, tree, &homes, &board, spares, gate, &mut crew);
    let Worker { seat, lost, folded } = join_workers(tree, &homes, &board, crew)?;
    let closed = board.close(seat)?;
    let pages = Vec::from_slice(alloc, homes.pages())?;
    Ok(Posting {
        homes,
        pages,
        closed,
        lost,
        folded,
    })
}

// How many workers there is work for who post so many records to so many pages: one for each piece, and where pages have many
// records each, one for each page.
fn tasks_of(records: u64, pages: u64, piece: u64) -> u64
    requires { 0 < piece }
{
    let pieces = records.div_ceil(piece);
    if records / pages.max(1) < CROWD {
        pieces
    } else {
        pieces.min(pages)
    }
}

// The spares of these pages, or none at all where no leaf among them has one.
fn ripe_spares(
    tree: &Tree,
    pages: &[PageId],
    chain_max: u64,
) -> Result<Vec<Option<u64>, Alloc>, Memory>
    requires { AllByRecursion (λ p. p < length tree.now.heads) pages.now }
    ensures { IfOk result (λ spares. (spares.items ≡ [])
        ⊎ (spares.items ≡ map (spare_of tree.now chain_max) pages.now)) }
{
    let mut spares = tree.spare_on(pages, chain_max)?;
    if spares.iter().all(|spare| spare.is_none()) {
        spares.clear();
    }
    Ok(spares)
}

// What posting leaves where there is no record: no board is opened for it.
fn nothing_posted(alloc: Alloc, homes: Homes) -> Posting
    ensures homes { result.homes ≡ homes }
    ensures pages { result.pages.items ≡ [] }
    ensures heads { result.closed.heads ≡ [] }
    ensures links { result.closed.links ≡ [] }
    ensures lost { result.lost ≡ 0 }
    ensures folded { result.folded.items ≡ [] }
{
    Posting {
        homes,
        pages: Vec::new(alloc),
        closed: Closed::empty(alloc),
        lost: 0,
        folded: Vec::new(alloc),
    }
}

// The mapping words of pages.
fn heads_of(alloc: Alloc, tree: &Tree, pages: &[PageId]) -> Result<Vec<u64, Alloc>, Memory>
    requires { AllByRecursion (λ p. p < length tree.now.heads) pages.now }
    ensures { IfOk result (λ words. words.items ≡ words_of tree.now.heads pages.now) }
{
    let heads = tree.heads();
    let mut words = Vec::with_capacity(alloc, pages.len())?;
    for page in pages {
        words.push(heads[page.0 as usize])?;
    }
    Ok(words)
}
