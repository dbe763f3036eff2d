// The index: batches in, replies out.
ghost use Rattle.std.specs.Prelude.{◌≡◌, ◌<◌, ◌≤◌, ◌+◌, ◌^◌, [], ◌∷◌, None, false, length, nat_lt, IsOkUnless, IfOk, OnOk, OnErr};
ghost use Rattle.std.specs.FinMap.{empty, entries};
ghost use Rattle.bw_delta.specs.Batches.{writes_of};
ghost use Rattle.bw_model.specs.Contents.{pairs_of_range};
ghost use Rattle.bw_shape.specs.Limits.{AreWithinBut};
ghost use Rattle.bw_look.specs.Shapes.{shape_of};
ghost use Rattle.bw_look.specs.View.{contents_at};

use crate::batch::{Answered, run_batch};
use crate::key_counts::{count_pairs, len_after};
use crate::options::Options;
use bw_key::{Key, Memory};
use bw_memory::Alloc;
use bw_model::{Op, Pairs, Refusal, Replies};
use bw_post::Gate;
use bw_shape::{Due, Tidy, given_pages, sweep_due};
use bw_tidy::tidy_by;
use bw_tree::{Leaf, PageShape, Tree};
use std::marker::Model;
use std::thread::Threads;

// No stamp is as great as this.
const STAMP_END: u64 = 1 << 40;

/// An accepted batch.
#[derive(Debug, Drop)]
pub struct Done {
    /// One for each operation, in the order of the batch.
    pub replies: Replies,
    /// What tidying behind the batch did, with the leaves that were consolidated while the batch was answered.
    pub tidy: Tidy,
    /// How many exchanges the workers lost while they posted, to one another's records or to leaves that were replaced.
    pub lost: u64,
    /// How many leaves were consolidated beside the posting, and took the places of their chains.
    pub replaced: u64,
}

/// An ordered index from keys to values, changed in batches: a tree whose pages are base pages and the chains of the
/// writes since (ICDE 2013). Behind each batch the pages that it wrote to are consolidated and split where they are over a
/// limit, and merged where they have few entries; a sweep starts records and stamps over before they would pass their ends.
pub struct Index {
    options: Options,
    alloc: Alloc,
    tree: Tree,
    // the pages that tidying is to look at: each leaf that may be over a limit is among them
    due: Due,
    // how many keys there are
    len: u64,
}

// Not derived: whoever drops one calls this, and its proof is spared the parts.
impl Drop for Index {
    fn drop(self) {
        let Index {
            options: _options,
            alloc: _alloc,
            tree: _tree,
            due: _due,
            len: _len,
        } = self;
    }
}

impl Model for Index {
    ghost use Rattle.std.specs.Prelude.{◌≡◌, None};
    ghost use Rattle.bw_shape.specs.Limits.{AreWithinBut};
    ghost use Rattle.bw_look.specs.Shapes.{shape_of};
    ghost use Rattle.bw_look.specs.View.{contents_at};
    ghost use Rattle.bw_batch.specs.Lens.{key_count};
    ghost use Rattle.bw_batch.specs.Settings.{limits_of};
    ghost use Rattle.bw_batch.specs.View.{IndexView, coded_view};

    ghost Value = { IndexView };

    ghost coded = { coded_view };

    ghost view = { λ i. record {
      settings = i.options;
      contents = contents_at i.tree i.tree.next;
      next = i.tree.next;
      heads = i.tree.heads;
      records = i.tree.records;
      due = i.due.pages;
      pages = shape_of i.tree;
    } };

    ghost invariant = { λ i. (i.tree.staged ≡ None) × AreWithinBut (limits_of i.options) i.tree i.due.pages
        × (key_count (contents_at i.tree i.tree.next) ≡ i.len) };
}

impl Index {
    ghost use Rattle.std.specs.Prelude.{nat_eq};
    ghost use Rattle.bw_batch.specs.Lens.{key_count};
    ghost use Rattle.bw_batch.specs.Settings.{limits_of, most_lost};
    ghost use Rattle.bw_batch.specs.View.{contents_of, settings_of, next_stamp_of};
    ghost use Rattle.bw_batch.specs.IndexLeaves.{leaves_of};
    ghost use Rattle.bw_batch.specs.DueSweeps.{base_of, is_sweep_due, records_before};
    ghost use Rattle.bw_batch.specs.Outcomes.{batches_of, outcomes_of, AreCounted, ChangesInTurn};
    ghost use Rattle.bw_batch.specs.IndexTrees.{IsShapeOf, IsTreeOf};
    ghost use Rattle.bw_model.specs.Model.{replies_of, contents_after};
    ghost use Rattle.bw_model.specs.Runs.{AnswersInTurn, left_in_turn};

    /// An empty index, of one leaf.
    pub fn new(alloc: Alloc, options: Options) -> Result<Index, Memory>
        ensures contents { IfOk result (λ index. contents_of index ≡ empty) }
        ensures settings { IfOk result (λ index. settings_of index ≡ options) }
        ensures stamp { IfOk result (λ index. next_stamp_of index ≡ 0) }
        ensures heads { IfOk result (λ index. index.heads ≡ 0 ∷ []) }
        ensures records { IfOk result (λ index. index.records ≡ 0) }
        ensures due { IfOk result (λ index. index.due ≡ []) }
    {
        let mut leaves = Vec::new(alloc);
        leaves.push(Leaf::empty(alloc))?;
        let tree = Tree::from_level(alloc, leaves)?;
        Ok(Index {
            options,
            alloc,
            tree,
            due: Due::new(alloc),
            len: 0,
        })
    }

    /// The index over a tree, with what it holds. The tree has no staged batch. All its pages are due, so the next batch that
    /// is accepted has them looked at. This costs the list of all pages and what `Tree::shape` does, since the pairs are
    /// counted once. A split or a merge of the tree that isn't finished is read by its links, and finished behind that batch,
    /// which costs a search for each page. After `Memory` the tree is gone.
    ///
    /// The tree, its keys and its values should be made on `alloc` too: they stay where they were made, and so do their
    /// copies.
    pub fn from_tree(alloc: Alloc, options: Options, tree: Tree) -> Result<Index, Memory>
        requires { tree.staged ≡ None }
        ensures contents { IfOk result (λ index. contents_of index ≡ contents_at tree tree.next) }
        ensures settings { IfOk result (λ index. settings_of index ≡ options) }
        ensures stamp { IfOk result (λ index. next_stamp_of index ≡ tree.next) }
        ensures heads { IfOk result (λ index. index.heads ≡ tree.heads) }
        ensures records { IfOk result (λ index. index.records ≡ tree.records) }
        ensures pages { IfOk result (λ index. index.pages ≡ shape_of tree) }
    {
        let due = given_pages(&tree)?;
        let len = count_pairs(&tree)?;
        Ok(Index {
            options,
            alloc,
            tree,
            due,
            len,
        })
    }

    /// Runs a batch: its operations one after another, or none of them.
    ///
    /// The replies and the contents afterwards are those of one thread that runs the operations in order on an
    /// ordered map. A batch of more operations than `batch_max` is refused as `TooLong`, before anything is asked
    /// for; else it may be refused as `Memory`, where a growth was refused. After a refusal the contents are as before, and
    /// all else is too, unless a sweep was due.
    ///
    /// A sweep is due where the operations would pass the 2^40th stamp, or with their records more than `record_max`. Before
    /// the batch it consolidates every page that has records, and starts records and stamps over. Behind the batch leaves with
    /// few pairs are merged, those that it doesn't write to among them.
    ///
    /// Of 16,384 operations on keys and more the sorting by key is shared out among up to `workers` threads, which `rt`
    /// starts. The writes are posted by up to as many side by side, and `gate` is called round the posting of each.
    /// They are numbered from 0 in the order of their keys, those on one key in the order of the batch. Where the options
    /// ask for it (`Options::with_beside`), leaves of the batch are consolidated beside that. The batch is answered in up to
    /// `workers` parts side by side, and so are the replies of a long one made of the answers. Of a batch with writes that is
    /// answered in several parts, or by one worker and has 64 operations at the least, leaves that are over a limit are
    /// consolidated meanwhile, and stand beside the old ones until it is accepted.
    /// Then the pages of the batch at which there is more to do are tidied, and those that an earlier stop left: where
    /// no memory is left for it, the rest of them stay due.
    pub fn run<R: Threads + Sync, G: Gate>(
        &mut self,
        rt: &R,
        ops: &[Op],
        gate: &G,
    ) -> Result<Done, Refusal>
        ensures replies { IfOk result (λ done. done.replies ≡ replies_of ops.now (contents_of self.old)) }
        ensures contents { OnOk result (contents_of self.new ≡ contents_after ops.now (contents_of self.old)) }

        // A batch is refused for its length exactly where it is too long, and else only where memory runs out.
        ensures too_long { let most = (settings_of self.old).batch_max in
            most < length ops.now → result ≡ Err (Refusal.TooLong (length ops.now) most) }
        ensures memory { length ops.now ≤ (settings_of self.old).batch_max → IsOkUnless result Refusal.Memory }
        ensures settings { settings_of self.new ≡ settings_of self.old }

        // A refused batch changes no contents, and without a sweep nothing at all.
        ensures refused { OnErr result (contents_of self.new ≡ contents_of self.old) }
        ensures untried { (settings_of self.old).batch_max < length ops.now → self.new ≡ self.old }
        ensures unswept { is_sweep_due self.old (length ops.now) ≡ false → OnErr result (self.new ≡ self.old) }

        // Each operation of an accepted batch has a stamp of its own, and each of its writes is a record.
        ensures stamped { OnOk result (next_stamp_of self.new ≡ base_of self.old (length ops.now) + length ops.now) }
        ensures recorded { OnOk result (records_before self.old (length ops.now) + length (writes_of 0 ops.now)
            ≤ self.new.records) }

        // The leaves stay, with their ranges, but where pages are split or merged, of which there is a record, too.
        ensures leaves { OnOk result (self.new.records
            ≡ records_before self.old (length ops.now) + length (writes_of 0 ops.now) →
            leaves_of self.new.pages ≡ leaves_of self.old.pages) }
        ensures kept { OnErr result (leaves_of self.new.pages ≡ leaves_of self.old.pages) }

        // Where tidying didn't stop, the list of pages that are due is empty: no leaf is over a limit.
        ensures tidied { IfOk result (λ done. done.tidy.stopped ≡ false → self.new.due ≡ []) }

        // An exchange is lost to another write, or to a leaf that was consolidated beside it.
        ensures lost { IfOk result (λ done. done.lost ≤ most_lost (settings_of self.old)
            (length (writes_of (next_stamp_of self.old) ops.now))) }
        ensures replaced { (settings_of self.old).beside ≡ false → IfOk result (λ done. done.replaced ≡ 0) }
    {
        let most = self.options.batch_max();
        let count = ops.len() as u64;
        if count > most {
            return Err(Refusal::TooLong { ops: count, most });
        }
        self.make_room(count)?;
        let Answered {
            replies,
            deletes: _deletes,
            lost,
            replaced,
            consolidated,
        } = self.answer(rt, ops, gate)?;
        let tidy = self.tidy(rt);
        let tidy = Tidy {
            consolidated: tidy.consolidated.saturating_add(consolidated),
            ..tidy
        };
        Ok(Done {
            replies,
            tidy,
            lost,
            replaced,
        })
    }

    // Sweeps, where that is due before a batch of so many operations. After `Memory` some pages may have been consolidated.
    fn make_room(&mut self, ops: u64) -> Result<(), Memory>
        requires { ops ≤ 65536 }
        ensures fits { OnOk result (next_stamp_of self.new + ops ≤ 2 ^ 40) }
        ensures stamp { OnOk result (next_stamp_of self.new ≡ base_of self.old ops) }
        ensures records { OnOk result (self.new.records ≡ records_before self.old ops) }
        ensures leaves { leaves_of self.new.pages ≡ leaves_of self.old.pages }
        ensures contents { contents_of self.new ≡ contents_of self.old }
        ensures settings { settings_of self.new ≡ settings_of self.old }
        ensures not_due { is_sweep_due self.old ops ≡ false → self.new ≡ self.old }
    {
        if self.is_sweep_due(ops) {
            sweep_due(&mut self.tree, &mut self.due)?;
        }
        Ok(())
    }

    // Whether stamps or records would pass their ends with those of so many operations.
    fn is_sweep_due(&self, ops: u64) -> bool
        ensures { result ≡ is_sweep_due self.now ops }
    {
        is_past(self.tree.next_stamp(), ops, STAMP_END)
            || is_past(self.tree.records() as u64, ops, self.options.record_max())
    }

    // Runs a batch on the tree, where there are stamps for it.
    fn answer<R: Threads + Sync, G: Gate>(
        &mut self,
        rt: &R,
        ops: &[Op],
        gate: &G,
    ) -> Result<Answered, Memory>
        requires few { length ops.now ≤ 65536 }
        requires fits { next_stamp_of self.old + length ops.now ≤ 2 ^ 40 }
        ensures replies { IfOk result (λ answered. answered.replies ≡ replies_of ops.now (contents_of self.old)) }
        ensures lost { IfOk result (λ answered. answered.lost ≤ most_lost (settings_of self.old)
            (length (writes_of (next_stamp_of self.old) ops.now))) }
        ensures replaced { (settings_of self.old).beside ≡ false → IfOk result (λ answered. answered.replaced ≡ 0) }
        ensures contents { OnOk result (contents_of self.new ≡ contents_after ops.now (contents_of self.old)) }
        ensures refused { OnErr result (self.new ≡ self.old) }
        ensures settings { settings_of self.new ≡ settings_of self.old }
        ensures stamped { OnOk result (next_stamp_of self.new ≡ next_stamp_of self.old + length ops.now) }
        ensures recorded { OnOk result (self.new.records
            ≡ self.old.records + length (writes_of (next_stamp_of self.old) ops.now)) }
        ensures leaves { OnOk result (leaves_of self.new.pages ≡ leaves_of self.old.pages) }
    {
        // No memory holds so many keys.
        if ops.len() as u64 >= u64::MAX - self.len {
            return Err(Memory);
        }
        let records = self.tree.records();
        let answered = run_batch(
            rt,
            self.alloc,
            &mut self.tree,
            &mut self.due,
            ops,
            &self.options,
            gate,
        )?;
        let writes = self.tree.records() - records;
        self.len = len_after(
            self.len,
            writes,
            answered.deletes,
            ops,
            answered.replies.as_slice(),
        );
        Ok(answered)
    }

    // Looks at the pages that are due.
    fn tidy<R: Threads + Sync>(&mut self, rt: &R) -> Tidy
        ensures contents { contents_of self.new ≡ contents_of self.old }
        ensures settings { settings_of self.new ≡ settings_of self.old }
        ensures stamp { next_stamp_of self.new ≡ next_stamp_of self.old }
        ensures records { self.old.records ≤ self.new.records }
        ensures leaves { self.new.records ≡ self.old.records → leaves_of self.new.pages ≡ leaves_of self.old.pages }
        ensures tidied { result.stopped ≡ false → self.new.due ≡ [] }
    {
        let (limits, workers) = (self.options.limits(), self.options.workers());
        tidy_by(rt, &mut self.tree, &limits, &mut self.due, workers)
    }

    /// Runs batches in turn, and answers one outcome for each. `Memory` means that there was no room for the list
    /// of outcomes, and that no batch was run.
    pub fn run_all<R: Threads + Sync, G: Gate>(
        &mut self,
        rt: &R,
        batches: &[Vec<Op, Alloc>],
        gate: &G,
    ) -> Result<Vec<Result<Done, Refusal>, Alloc>, Memory>
        ensures outcomes { IfOk result (λ outcomes.
            AnswersInTurn (settings_of self.old).batch_max (batches_of batches.now) (contents_of self.old)
            (outcomes_of outcomes.items)) }
        ensures contents { IfOk result (λ outcomes.
            contents_of self.new ≡ left_in_turn (batches_of batches.now) (contents_of self.old)
            (outcomes_of outcomes.items)) }
        ensures none { OnErr result (self.new ≡ self.old) }

        // Each outcome tells of lost exchanges and of replaced leaves what `run` does.
        ensures told { IfOk result (λ outcomes.
            AreCounted (settings_of self.old) (batches_of batches.now) outcomes.items) }
        ensures settings { settings_of self.new ≡ settings_of self.old }

        // From batch to batch stamps, records and the pages that are due are as `run` leaves them.
        ensures changes { IfOk result (λ outcomes.
            ChangesInTurn self.old self.new (batches_of batches.now) outcomes.items) }
    {
        let mut outcomes = Vec::with_capacity(self.alloc, batches.len())?;
        for ops in batches {
            let outcome = self.run(rt, ops, gate);
            outcomes.push(outcome).unwrap();
        }
        Ok(outcomes)
    }

    /// How many keys there are. They are counted as batches run, so this walks nothing.
    pub fn len(&self) -> u64
        ensures { result ≡ key_count (contents_of self.now) }
    {
        self.len
    }

    /// Whether there is no key.
    pub fn is_empty(&self) -> bool
        ensures { result ≡ nat_eq (key_count (contents_of self.now)) 0 }
    {
        self.len == 0
    }

    /// All pairs, in the order of their keys. `Memory` is answered where a growth is refused, and where there are 2^32 bytes
    /// of keys and values or more.
    pub fn contents(&self) -> Result<Pairs, Memory>
        ensures { IfOk result (λ pairs. pairs ≡ entries (contents_of self.now)) }
    {
        let from = Key::new(self.alloc, &[]).unwrap();
        pairs_from(&self.tree, &from)
    }

    /// The pages of the tree on which the index stands: those of all levels, the lowest level first, each level in the order
    /// of keys. How the pairs lie on pages depends on the limits and on what memory was left for tidying.
    ///
    /// It is for people and tests, and costs what `Tree::shape` does: all pairs are copied, a page's at a time. `Memory` is
    /// answered where a list or a copy finds none.
    pub fn shape(&self) -> Result<Vec<PageShape, Alloc>, Memory>
        ensures pages { IfOk result (λ shape. shape.items ≡ self.now.pages) }
        ensures whole { IfOk result (λ shape. IsShapeOf self.now shape.items) }
    {
        self.tree.know_levels();
        self.tree.shape()
    }

    /// The tree on which the index stands, which has no staged batch: to see its pages and how long chains are, and to read as
    /// of its next stamp. Its pages are those of `shape`, and each leaf that isn't due is within the limits.
    pub fn tree(&self) -> &Tree
        ensures contents { contents_at result.now result.now.next ≡ contents_of self.now }
        ensures stamp { result.now.next ≡ next_stamp_of self.now }
        ensures heads { result.now.heads ≡ self.now.heads }
        ensures records { result.now.records ≡ self.now.records }
        ensures staged { result.now.staged ≡ None }
        ensures within { AreWithinBut (limits_of (settings_of self.now)) result.now self.now.due }
        ensures whole { IsTreeOf self.now result.now }
    {
        self.tree.know_levels();
        &self.tree
    }
}

// The pairs of a tree from a key on. A list of as many as a scan may answer at the most might not be whole. None is so
// long, but no clause says so.
fn pairs_from(tree: &Tree, from: &Key) -> Result<Pairs, Memory>
    ensures { IfOk result (λ pairs. pairs ≡ pairs_of_range (contents_at tree.now tree.now.next) from.now None) }
{
    let pairs = tree.scan_at(from, None, u64::MAX, tree.next_stamp())?;
    if pairs.len() as u64 == u64::MAX {
        return Err(Memory);
    }
    Ok(pairs)
}

// Whether so many more would pass the end.
fn is_past(count: u64, more: u64, end: u64) -> bool
    ensures { result ≡ nat_lt end (count + more) }
{
    count > end || more > end - count
}
