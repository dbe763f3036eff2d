// One batch on a tree: staged, posted, adopted, answered, and then accepted; or undone.
ghost use Rattle.std.specs.Prelude.{◌≡◌, ℕ, ◌<◌, ◌≤◌, ◌+◌, ◌^◌, true, false, [], None, length, take, IfOk, OnOk, OnErr};
ghost use Rattle.std.specs.List.{list_any};
ghost use Rattle.bw_delta.specs.Batches.{writes_of};
ghost use Rattle.bw_model.specs.Model.{contents_after, replies_of};
ghost use Rattle.bw_tree.specs.Beside.{IsAdoptedBeside};
ghost use Rattle.bw_tree.specs.Stages.{is_adopted, undone_tree, IsReadInTurn, IsStagedFor};
ghost use Rattle.bw_look.specs.Folding.{pages_of};
ghost use Rattle.bw_look.specs.View.{contents_at, contents_with, staged_writes};
ghost use Rattle.bw_look.specs.Words.{put_words};
ghost use Rattle.bw_group.specs.Homes.{AreHomes};
ghost use Rattle.bw_group.specs.Points.{is_delete};
ghost use Rattle.bw_post.specs.Posting.{IsPostedBeside, IsWaiting};
ghost use Rattle.bw_shape.specs.LeafRanges.{leaf_ranges};
ghost use Rattle.bw_shape.specs.Limits.{AreWithinBut};
ghost use Rattle.bw_tidy.specs.Findings.{AreFindings, GoOn};
ghost use Rattle.bw_batch.specs.Settings.{limits_of, most_lost};
ghost use Rattle.bw_batch.specs.IndexStages.{operations_staged};

use crate::options::Options;
use bw_answer::{count_parts, replies};
use bw_group::Grouping;
use bw_key::Memory;
use bw_memory::Alloc;
use bw_model::{Op, Replies};
use bw_post::{Closed, Folded, Gate, Posting, post_all, post_beside};
use bw_shape::{Due, PageId};
use bw_tidy::{Findings, put_findings};
use bw_tree::Tree;
use std::thread::Threads;

// One worker looks at the leaves of so many operations at the least while it answers them. Those of fewer are in the caches
// still when tidying looks at them, and no list is made.
const MANY: usize = 64;

/// The replies to a batch, whether one of its operations is a delete, how many exchanges its posting lost, how many leaves
/// were replaced beside it, and how many were consolidated while it was answered.
#[derive(Drop)]
pub(crate) struct Answered {
    pub(crate) replies: Replies,
    pub(crate) deletes: bool,
    pub(crate) lost: u64,
    pub(crate) replaced: u64,
    pub(crate) consolidated: u64,
}

/// Runs a batch on a tree, whose replies are those of one thread that runs its operations in order on an ordered map. The
/// pages to which it posts are due then, behind those that are due already, but for those at which there is nothing to do by
/// what was found while it was answered. Leaves that were consolidated meanwhile are in the places of their chains. After
/// `Memory` all is as before.
pub(crate) fn run_batch<R: Threads + Sync, G: Gate>(
    rt: &R,
    alloc: Alloc,
    tree: &mut Tree,
    due: &mut Due,
    ops: &[Op],
    options: &Options,
    gate: &G,
) -> Result<Answered, Memory>
    requires none { tree.old.staged ≡ None }
    requires few { length ops.now ≤ 65536 }
    requires fits { tree.old.next + length ops.now ≤ 2 ^ 40 }
    ensures replies { IfOk result (λ answered.
        answered.replies ≡ replies_of ops.now (contents_at tree.old tree.old.next)) }
    ensures deletes { IfOk result (λ answered. answered.deletes ≡ list_any is_delete ops.now) }
    ensures lost { IfOk result (λ answered.
        answered.lost ≤ most_lost options.now (length (writes_of tree.old.next ops.now))) }
    ensures replaced { options.now.beside ≡ false → IfOk result (λ answered. answered.replaced ≡ 0) }
    ensures contents { OnOk result (contents_at tree.new tree.new.next
        ≡ contents_after ops.now (contents_at tree.old tree.old.next)) }
    ensures stamped { OnOk result (tree.new.next ≡ tree.old.next + length ops.now) }
    ensures recorded { OnOk result (tree.new.records ≡ tree.old.records + length (writes_of tree.old.next ops.now)) }
    ensures leaves { OnOk result (leaf_ranges tree.new ≡ leaf_ranges tree.old) }
    ensures within { let limits = limits_of options.now in
        OnOk result (AreWithinBut limits tree.old due.old.pages → AreWithinBut limits tree.new due.new.pages) }
    ensures none { tree.new.staged ≡ None }
    ensures err { OnErr result (tree.new ≡ tree.old) }
    ensures due { OnErr result (due.new ≡ due.old) }
{
    let workers = options.workers();
    let batch = Grouping::new(rt, alloc, ops, workers)?;
    stage(rt, alloc, tree, ops, &batch, workers)?;
    let looks = are_looked_at(&batch, due, workers);
    let mut findings = Findings::new(alloc, options.limits(), looks);
    match answer_staged(rt, alloc, tree, due, &batch, options, gate, &mut findings) {
        Ok(answered) => {
            tree.accept();
            let consolidated = put_findings(tree, due, findings).unwrap_or(0);
            Ok(Answered {
                consolidated,
                ..answered
            })
        }
        Err(memory) => {
            tree.undo();
            Err(memory)
        }
    }
}

// Stages a batch, its records in the order of their keys: so those of a leaf lie side by side, and its chain is read as one
// piece. The operations of a batch that only reads aren't passed for that.
fn stage<R: Threads + Sync>(
    rt: &R,
    alloc: Alloc,
    tree: &mut Tree,
    ops: &[Op],
    batch: &Grouping<'_>,
    workers: u64,
) -> Result<(), Memory>
    requires batch { batch.now.ops ≡ ops.now }
    requires none { tree.old.staged ≡ None }
    requires fits { tree.old.next + length ops.now ≤ 2 ^ 40 }
    ensures ok { OnOk result (IsStagedFor tree.old tree.new ops.now) }
    ensures reads { OnOk result (IsReadInTurn tree.old tree.new ops.now) }
    ensures err { OnErr result (tree.new ≡ tree.old) }
{
    if batch.writes() == 0 {
        tree.stage_reads(ops);
        return Ok(());
    }
    let places = batch.write_places(alloc)?;
    tree.stage_in_order(rt, ops, &places, workers)?;
    Ok(())
}

// Whether leaves are looked at while a batch is answered: where that is done in several parts, or by one worker alone. Else
// workers look at them behind it, and so they do where it only reads, or where leaves are due that were consolidated before
// a stop.
fn are_looked_at(batch: &Grouping<'_>, due: &Due, workers: u64) -> bool {
    if batch.writes() == 0 || due.has_leaves_begun() {
        return false;
    }
    let parts = count_parts(batch.points().len(), batch.scans().len(), workers);
    parts > 1 || workers == 1 && batch.ops().len() >= MANY
}

// Posts a staged batch, adopts it, and answers each of its operations as of its stamp. What `undo` leaves is the same
// before and after.
fn answer_staged<R: Threads + Sync, G: Gate>(
    rt: &R,
    alloc: Alloc,
    tree: &mut Tree,
    due: &mut Due,
    batch: &Grouping<'_>,
    options: &Options,
    gate: &G,
    findings: &mut Findings,
) -> Result<Answered, Memory>
    requires waiting { IsWaiting tree.old tree.old.staged batch.now.ops }
    requires reads { (i : ℕ) → contents_with tree.old (tree.old.next + i)
        ≡ contents_after (take i batch.now.ops) (contents_with tree.old tree.old.next) }
    requires fits { tree.old.next + length batch.now.ops ≤ 2 ^ 40 }
    ensures replies { IfOk result (λ answered.
        answered.replies ≡ replies_of batch.now.ops (contents_with tree.old tree.old.next)) }
    ensures deletes { IfOk result (λ answered. answered.deletes ≡ list_any is_delete batch.now.ops) }
    ensures lost { IfOk result (λ answered.
        answered.lost ≤ most_lost options.now (length (staged_writes tree.old.staged))) }
    ensures replaced { options.now.beside ≡ false → IfOk result (λ answered. answered.replaced ≡ 0) }
    ensures contents { OnOk result ((stamp : ℕ) → tree.old.next ≤ stamp →
        contents_at tree.new stamp ≡ contents_with tree.old stamp) }
    ensures recorded { OnOk result (tree.new.records ≡ tree.old.records) }
    ensures leaves { OnOk result (leaf_ranges tree.new ≡ leaf_ranges tree.old) }
    ensures found { OnOk result (GoOn tree.new (tree.old.next + length batch.now.ops) findings.old findings.new) }
    ensures within { let limits = findings.old.limits in let stamp = tree.old.next + length batch.now.ops in
        OnOk result (AreFindings tree.new stamp findings.new →
        AreWithinBut limits tree.old due.old.pages → AreWithinBut limits tree.new due.new.pages) }
    ensures due { OnErr result (due.new ≡ due.old) }
    ensures next { tree.new.next ≡ tree.old.next }
    ensures adopted { OnOk result (is_adopted tree.new.staged ≡ true) }
    ensures count { operations_staged tree.new.staged ≡ operations_staged tree.old.staged }
    ensures undone { undone_tree tree.new tree.new.staged ≡ undone_tree tree.old tree.old.staged }
{
    tree.know_levels();
    let workers = options.workers();
    let Posting {
        homes,
        pages,
        closed,
        lost,
        folded,
    } = post(rt, alloc, tree, batch, options, gate)?;
    let Adopted { pages, leaves } = adopt(alloc, tree, pages, closed, folded)?;
    let base = tree.next_stamp();
    let replies = replies(rt, alloc, tree, base, batch, &homes, workers, findings)?;
    let replaced = leaves.len() as u64;
    let pages = findings.left_of(alloc, pages);
    due.add(tree, pages, &leaves)?;
    Ok(Answered {
        replies,
        deletes: batch.has_deletes(),
        lost,
        replaced,
        consolidated: 0,
    })
}

// What is looked at behind a batch that was adopted.
#[derive(Drop)]
struct Adopted {
    // the pages of the batch
    pages: Vec<PageId, Alloc>,
    // those of them that were consolidated beside its posting
    leaves: Vec<PageId, Alloc>,
}

// Adopts what was posted. After `Memory` the tree is as before.
fn adopt(
    alloc: Alloc,
    tree: &mut Tree,
    pages: Vec<PageId, Alloc>,
    closed: Closed,
    folded: Vec<Folded, Alloc>,
) -> Result<Adopted, Memory>
    requires { IsPostedBeside tree.old folded.items pages.items closed.heads closed.links }
    ensures ok { let words = put_words tree.old.heads pages.entry.items closed.heads in
        OnOk result (IsAdoptedBeside tree.old tree.new folded.entry.items words) }
    ensures pages { IfOk result (λ adopted. adopted.pages.items ≡ pages.entry.items) }
    ensures leaves { IfOk result (λ adopted. adopted.leaves.items ≡ pages_of folded.entry.items) }
    ensures err { OnErr result (tree.new ≡ tree.old) }
{
    let leaves = folded
        .iter()
        .map(|leaf| leaf.page)
        .collect::<Vec<PageId, Alloc>>(alloc)?;
    let posted = Vec::from_slice(alloc, &pages)?;
    tree.adopt_folded(pages, closed, folded);
    Ok(Adopted {
        pages: posted,
        leaves,
    })
}

// Posts a staged batch, where that is asked for with leaves consolidated beside it.
fn post<R: Threads + Sync, G: Gate>(
    rt: &R,
    alloc: Alloc,
    tree: &Tree,
    batch: &Grouping<'_>,
    options: &Options,
    gate: &G,
) -> Result<Posting, Memory>
    requires waiting { IsWaiting tree.now tree.now.staged batch.now.ops }
    ensures homes { IfOk result (λ posting. AreHomes tree.now batch.now.ops posting.homes) }
    ensures posted { IfOk result (λ posting. IsPostedBeside tree.now posting.folded.items posting.pages.items
        posting.closed.heads posting.closed.links) }
    ensures lost { IfOk result (λ posting.
        posting.lost ≤ most_lost options.now (length (staged_writes tree.now.staged))) }
    ensures none { options.now.beside ≡ false → IfOk result (λ posting. posting.folded.items ≡ []) }
{
    let (piece, workers) = (options.piece(), options.workers());
    if options.beside() {
        let chain_max = options.chain_max();
        return post_beside(rt, alloc, tree, batch, piece, workers, gate, chain_max);
    }
    post_all(rt, alloc, tree, batch, piece, workers, gate)
}
