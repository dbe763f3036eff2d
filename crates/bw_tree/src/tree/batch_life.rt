// The life of a batch: staged, adopted, and then accepted or undone.
ghost use Rattle.std.specs.Prelude.{◌≡◌, ℕ, ◌<◌, ◌≤◌, ◌+◌, ◌^◌, [], true, None, Some, length, IfOk, OnOk, OnErr};
ghost use Rattle.std.specs.List.{AllByRecursion};
ghost use Rattle.bw_core.specs.World.{times};
ghost use Rattle.bw_level.specs.Slots.{slot_at};
ghost use Rattle.bw_level.specs.Turns.{slot_without_writes};
ghost use Rattle.bw_delta.specs.Batches.{writes_of};
ghost use Rattle.bw_chain.specs.PlacedWrites.{writes_at_places};
ghost use Rattle.bw_look.specs.Folding.{pages_of};
ghost use Rattle.bw_look.specs.View.{contents_at, contents_with};
ghost use Rattle.bw_tree.specs.Beside.{AreFolded, IsAdoptedBeside, with_own_words};
ghost use Rattle.bw_tree.specs.Stages.{AreAllWritePlaces, IsPostedStage, IsReadInTurn, LeavesHaveAll};
ghost use Rattle.bw_tree.specs.Stages.{accepted_tree, adopted_stage, is_adopted, staged_on, staged_with, undone_tree};
ghost use Rattle.bw_tree.specs.PageWords.{IsPostedStageOn};
ghost use Rattle.bw_look.specs.Words.{put_words};

use super::Tree;
use crate::leaf_swaps::swap_leaves;
use crate::mapping_words::swap_words;
use bw_board::Closed;
use bw_chain::FLOOR;
use bw_key::Memory;
use bw_look::{Folded, Stage, Staged, WordsBefore};
use bw_memory::Alloc;
use bw_model::Op;
use bw_page::PageId;
use std::mem;
use std::thread::Threads;

impl Tree {
    /// Stages a batch: each of its writes becomes a record, in the order of the batch, and the operation at place i has
    /// the stamp `base + i`. No batch is staged, and the stamps stay within 2^40.
    ///
    /// A write without an effect is a record too. It costs a copy of each key and value that is written, and a list of the
    /// operations' places. `Memory` is answered where one of them finds none, where there would be more than 2^32 records, and
    /// for more than 2^32 operations. The tree is as before then, and nothing is staged.
    pub fn stage(&mut self, ops: &[Op]) -> Result<Staged, Memory>
        requires none { self.old.staged ≡ None }
        requires fits { self.old.next + length ops.now ≤ 2 ^ 40 }
        ensures ok { OnOk result (self.new ≡ staged_on self.old ops.now) }
        ensures err { OnErr result (self.new ≡ self.old) }
        ensures base { IfOk result (λ staged. staged.base ≡ self.old.next) }
        ensures floor { IfOk result (λ staged. staged.floor ≡ 2 ^ 32 + self.old.records) }
        ensures records { IfOk result (λ staged. staged.records ≡ length (writes_of self.old.next ops.now)) }

        // With the staged writes among them, a read as of the stamp of an operation sees the map before it.
        ensures reads { OnOk result (IsReadInTurn self.old self.new ops.now) }
    {
        let places = places_of(*self.heads.allocator(), ops)?;
        self.stage_at(ops, &places)
    }

    /// The same with the records in another order: that of these places of operations, among which each operation that writes
    /// is once, so that no list of them is made here. Whoever gives them in the order of their keys has the records of a page
    /// lie side by side, so that its chain is read as one piece.
    ///
    /// The records of many writes are made by up to `workers` threads side by side, one for each 4,096 places at the most, and
    /// `rt` starts them. Of 0 and of 1 none is started.
    pub fn stage_in_order<R: Threads + Sync>(
        &mut self,
        rt: &R,
        ops: &[Op],
        places: &[u32],
        workers: u64,
    ) -> Result<Staged, Memory>
        requires none { self.old.staged ≡ None }
        requires fits { self.old.next + length ops.now ≤ 2 ^ 40 }
        requires there { AllByRecursion (λ p. p < length ops.now) places.now }
        requires all { AreAllWritePlaces ops.now places.now }
        ensures ok { let writes = writes_at_places self.old.next ops.now places.now in
            OnOk result (self.new ≡ staged_with self.old (length ops.now) writes) }
        ensures err { OnErr result (self.new ≡ self.old) }
        ensures base { IfOk result (λ staged. staged.base ≡ self.old.next) }
        ensures floor { IfOk result (λ staged. staged.floor ≡ 2 ^ 32 + self.old.records) }
        ensures records { IfOk result (λ staged. staged.records ≡ length (writes_of self.old.next ops.now)) }
        ensures reads { OnOk result (IsReadInTurn self.old self.new ops.now) }
    {
        let records = self.chains.len();
        self.chains
            .append_writes_by(rt, ops, self.next, places, workers)?;
        self.staged.replace(stage_behind(records, ops));
        Ok(Staged {
            base: self.next,
            floor: FLOOR + records as u64,
            records: (self.chains.len() - records) as u64,
        })
    }

    // The same by one worker.
    fn stage_at(&mut self, ops: &[Op], places: &[u32]) -> Result<Staged, Memory>
        requires none { self.old.staged ≡ None }
        requires fits { self.old.next + length ops.now ≤ 2 ^ 40 }
        requires there { AllByRecursion (λ p. p < length ops.now) places.now }
        requires all { AreAllWritePlaces ops.now places.now }
        ensures ok { let writes = writes_at_places self.old.next ops.now places.now in
            OnOk result (self.new ≡ staged_with self.old (length ops.now) writes) }
        ensures err { OnErr result (self.new ≡ self.old) }
        ensures base { IfOk result (λ staged. staged.base ≡ self.old.next) }
        ensures floor { IfOk result (λ staged. staged.floor ≡ 2 ^ 32 + self.old.records) }
        ensures records { IfOk result (λ staged. staged.records ≡ length (writes_of self.old.next ops.now)) }
        ensures reads { OnOk result (IsReadInTurn self.old self.new ops.now) }
    {
        let records = self.chains.len();
        self.chains.append_writes(ops, self.next, places)?;
        self.staged.replace(stage_behind(records, ops));
        Ok(Staged {
            base: self.next,
            floor: FLOOR + records as u64,
            records: (self.chains.len() - records) as u64,
        })
    }

    /// Stages a batch that only reads, as one whose operations a `Grouping` counted no write among: no record is made, and the
    /// operation at place i has the stamp `base + i`. No batch is staged, and the stamps stay within 2^40.
    ///
    /// It looks at none of the operations, takes no memory, and is never refused.
    pub fn stage_reads(&mut self, ops: &[Op]) -> Staged
        requires none { self.old.staged ≡ None }
        requires fits { self.old.next + length ops.now ≤ 2 ^ 40 }
        requires reads { writes_of self.old.next ops.now ≡ [] }
        ensures tree { self.new ≡ staged_on self.old ops.now }
        ensures base { result.base ≡ self.old.next }
        ensures floor { result.floor ≡ 2 ^ 32 + self.old.records }
        ensures records { result.records ≡ 0 }

        // A read as of the stamp of an operation sees the map before it.
        ensures reads { IsReadInTurn self.old self.new ops.now }
    {
        let (records, stamps) = (self.chains.len(), ops.len() as u64);
        self.staged.replace(Stage {
            records,
            ops: stamps,
            before: None,
        });
        Staged {
            base: self.next,
            floor: FLOOR + records as u64,
            records: 0,
        }
    }

    /// Takes the words that a board was closed with, on which each staged record was posted to the page of its key: its
    /// `route`. From now on the staged writes stand in the chains, in whatever order each page got them. It takes no
    /// memory.
    pub fn adopt(&mut self, closed: Closed)
        requires { IsPostedStage self.old self.old.staged closed.heads closed.links }
        ensures contents { (stamp : ℕ) → contents_at self.new stamp ≡ contents_with self.old stamp }
        ensures pages { (p : ℕ) → slot_without_writes (slot_at self.new.slots p)
            ≡ slot_without_writes (slot_at self.old.slots p) }
        ensures writes { LeavesHaveAll self.old self.new }
        ensures root { self.new.root ≡ self.old.root }
        ensures levels { self.new.levels ≡ self.old.levels }
        ensures heads { self.new.heads ≡ closed.heads }
        ensures records { self.new.records ≡ self.old.records }
        ensures next { self.new.next ≡ self.old.next }
        ensures staged { self.new.staged ≡ adopted_stage self.old.staged }
    {
        let (heads, links, _) = closed.into_parts();
        if let Some(stage) = self.staged.take() {
            self.chains.set_links(stage.records, &links);
            let before = mem::replace(&mut self.heads, heads);
            self.staged.replace(Stage {
                records: stage.records,
                ops: stage.ops,
                before: Some(WordsBefore::OfAll(before)),
            });
        }
    }

    /// The same from the words of a board over some pages alone, in their order: those that have a key of a staged write
    /// are among them. The words of other pages stay. It takes no memory, and a step for each of the pages and records.
    pub fn adopt_on(&mut self, pages: Vec<PageId, Alloc>, closed: Closed)
        requires { IsPostedStageOn self.old self.old.staged pages.items closed.heads closed.links }
        ensures contents { (stamp : ℕ) → contents_at self.new stamp ≡ contents_with self.old stamp }
        ensures pages { (p : ℕ) → slot_without_writes (slot_at self.new.slots p)
            ≡ slot_without_writes (slot_at self.old.slots p) }
        ensures writes { LeavesHaveAll self.old self.new }
        ensures root { self.new.root ≡ self.old.root }
        ensures levels { self.new.levels ≡ self.old.levels }
        ensures heads { self.new.heads ≡ put_words self.old.heads pages.entry.items closed.heads }
        ensures records { self.new.records ≡ self.old.records }
        ensures next { self.new.next ≡ self.old.next }
        ensures staged { self.new.staged ≡ adopted_stage self.old.staged }
    {
        let (words, links, _) = closed.into_parts();
        if let Some(stage) = self.staged.take() {
            self.chains.set_links(stage.records, &links);
            let before = swap_words(&mut self.heads, &pages, words);
            self.staged.replace(Stage {
                records: stage.records,
                ops: stage.ops,
                before: Some(WordsBefore::OfPages(pages, before)),
            });
        }
    }

    /// The same where workers consolidated leaves beside the posting, and a board swapped the words of their pages for the
    /// numbers of these: each leaf takes the place of its page's chain, under the records that were posted there. What the
    /// tree holds from the batch's first stamp on is that of `adopt`. The base pages that go are kept until the batch is
    /// accepted or undone. It takes no memory, and a step for each of the pages, records and leaves.
    pub fn adopt_folded(
        &mut self,
        pages: Vec<PageId, Alloc>,
        closed: Closed,
        mut folded: Vec<Folded, Alloc>,
    )
        requires folded { AreFolded self.old folded.items }
        requires once { (p : ℕ) → times p (pages_of folded.items) ≤ 1 }
        requires listed { AllByRecursion (λ f. 0 < times f.page pages.items) folded.items }
        requires posted { IsPostedStageOn (with_own_words self.old folded.items) self.old.staged pages.items
            closed.heads closed.links }
        ensures { let words = put_words self.old.heads pages.entry.items closed.heads in
            IsAdoptedBeside self.old self.new folded.entry.items words }
    {
        let (words, link_words, _) = closed.into_parts();
        if let Some(stage) = self.staged.take() {
            self.chains.set_links(stage.records, &link_words);
            swap_leaves(&mut self.chains, &mut folded);
            let before = swap_words(&mut self.heads, &pages, words);
            self.staged.replace(Stage {
                records: stage.records,
                ops: stage.ops,
                before: Some(WordsBefore::UnderLeaves(pages, before, folded)),
            });
        }
    }

    /// Ends the stage of a batch that was adopted: it stays, and the next stamp is the one behind its operations.
    pub fn accept(&mut self)
        requires { is_adopted self.old.staged ≡ true }
        ensures { self.new ≡ accepted_tree self.old self.old.staged }
    {
        if let Some(stage) = self.staged.take() {
            self.next += stage.ops;
        }
    }

    /// Ends the stage of a batch, adopted or not: the tree is as before it. It is never refused.
    pub fn undo(&mut self)
        ensures { self.new ≡ undone_tree self.old self.old.staged }
    {
        if let Some(stage) = self.staged.take() {
            self.chains.truncate(stage.records);
            if let Some(before) = stage.before {
                before.put_back(&mut self.heads, &mut self.chains);
            }
        }
    }
}

// What is kept of a batch whose records stand behind so many.
fn stage_behind(records: usize, ops: &[Op]) -> Stage
    ensures { result ≡ record { records = records; ops = length ops.now; before = None } }
{
    Stage {
        records,
        ops: ops.len() as u64,
        before: None,
    }
}

// The places of the operations of a batch, in its order. `Memory` is answered, too, for more than 2^32 of them.
fn places_of(alloc: Alloc, ops: &[Op]) -> Result<Vec<u32, Alloc>, Memory>
    ensures there { IfOk result (λ places. AllByRecursion (λ p. p < length ops.now) places.items) }
    ensures writes { IfOk result (λ places. (base : ℕ) →
        writes_at_places base ops.now places.items ≡ writes_of base ops.now) }
{
    let mut places = Vec::with_capacity(alloc, ops.len())?;
    for place in 0..ops.len() {
        match u32::try_from(place) {
            Ok(place) => places.push(place)?,
            Err(_) => return Err(Memory),
        }
    }
    Ok(places)
}
