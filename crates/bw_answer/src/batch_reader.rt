// What answers the operations of a batch whose writes stand in a tree.
ghost use Rattle.std.specs.Prelude.{◌≡◌, ◌<◌, ◌≤◌, ◌+◌, ◌⊎◌, ◌++◌, Some, IfOk, OnOk, flat_map, length, map};
ghost use Rattle.std.specs.Prelude.{slice_get};
ghost use Rattle.std.specs.List.{AllByRecursion, Contains};
ghost use Rattle.std.specs.List.Sorted.{IsPermutation};
ghost use Rattle.std.specs.Option.{option_copied};
ghost use Rattle.bw_delta.specs.History.{pointed_to};
ghost use Rattle.bw_delta.specs.Rising.{HasRisingStamps};
ghost use Rattle.bw_tree.specs.Levels.{IsHome, row};
ghost use Rattle.bw_group.specs.Points.{entries_of, HasRisingPlaces, IsEntryOf, IsPointOf, IsScanOf};
ghost use Rattle.bw_answer.specs.Parts.{IsPartOf, places_in};
ghost use Rattle.bw_answer.specs.Sections.{answers_in, AreBySection, IsCutOf};
ghost use Rattle.bw_answer.specs.Replies.{answer_of, answers_to, point_places, ArePointsOf, GoesOnTo, IsReadBy, IsReplyThere};

use crate::parts::Part;
use crate::sections::Cut;
use crate::shared_leaves::{BatchScan, finish_scans, share_leaves};
use crate::write_groups::group_of;
use bw_delta::{Reading, Write, writes_by_key};
use bw_group::{Homes, Point, group_end};
use bw_key::Memory;
use bw_memory::Alloc;
use bw_model::{Op, Reply};
use bw_tidy::Findings;
use bw_tree::{Look, PageId, ScanCursor, Tree};
use rayon::prelude::*;
use std::marker::Model;
use std::thread::Threads;

// One thread answers the points on some leaves at a time, fewer than so many besides those on the last of them.
const TURN: usize = 4096;

// The leaves and keys of so many points at the least are read ahead: those of a few leaves, where each has some points.
const AHEAD: usize = 16;

/// Answers the operations of a batch by reading a tree in which its writes stand: as of the stamp of an operation the
/// tree has the map that the operations before it leave.
#[derive(Drop)]
pub(crate) struct BatchReader<'a> {
    pub(crate) tree: &'a Tree,
    pub(crate) ops: &'a [Op],
    pub(crate) base: u64,
    pub(crate) homes: &'a Homes,
}

impl<'a> Model for BatchReader<'a> {
    ghost use Rattle.bw_answer.specs.Replies.{IsReadInTurn, ReaderView};

    ghost Value = { ReaderView };

    ghost view = { λ b. record { tree = b.tree.now; ops = b.ops.now; base = b.base; homes = b.homes.now } };

    ghost invariant = { λ b. IsReadInTurn (record {
      tree = b.tree.now;
      ops = b.ops.now;
      base = b.base;
      homes = b.homes.now;
    }) };
}

/// The reply to the operation at a place of a batch.
#[derive(Drop)]
pub(crate) struct Answer {
    pub(crate) place: usize,
    pub(crate) reply: Reply,
}

/// The answers to a part of a batch, a list for each section of the batch, and what was found of the leaves of its
/// points.
#[derive(Drop)]
pub(crate) struct PartAnswers {
    pub(crate) lists: Vec<Vec<Answer, Alloc>, Alloc>,
    pub(crate) findings: Findings,
}

impl<'a> BatchReader<'a> {
    /// The answers to the points and scans of each part, by the sections of the batch in which their places are. The
    /// parts are shared out among threads. `findings` has the limits of the leaves.
    pub(crate) fn answer_parts<R: Threads + Sync>(
        &self,
        rt: &R,
        alloc: Alloc,
        points: &[Point<'_>],
        scans: &[usize],
        parts: &[Part],
        cut: Cut,
        findings: &Findings,
    ) -> Result<Vec<PartAnswers, Alloc>, Memory>
        requires points { ArePointsOf self.now.ops points.now }
        requires scans { AllByRecursion (IsScanOf self.now.ops) scans.now }
        requires within { AllByRecursion (IsPartOf (length points.now) (length scans.now)) parts.now }
        requires cut { IsCutOf (length self.now.ops) cut }
        ensures answers { let places = flat_map (places_in (point_places points.now) scans.now) parts.now in
            IfOk result (λ all. IsPermutation (answers_to self.now places) (flat_map answers_in all.items)) }
        ensures lists { IfOk result (λ all. AllByRecursion (λ part. AreBySection cut part.lists.items) all.items) }
        ensures findings { IfOk result (λ all.
            AllByRecursion (λ part. GoesOnTo self.now findings.now part.findings) all.items) }
    {
        parts
            .par_iter()
            .with_min_len(1)
            .map(
                move |part: &Part| -> Result<PartAnswers, Memory>
                    requires { ArePointsOf self.now.ops points.now
                        × AllByRecursion (IsScanOf self.now.ops) scans.now
                        × IsPartOf (length points.now) (length scans.now) part.now
                        × IsCutOf (length self.now.ops) cut }
                    ensures { let places = places_in (point_places points.entry.now) scans.entry.now part.entry.now in
                        IfOk result (λ answers. IsPermutation (answers_to self.entry.now places) (answers_in answers)
                        × AreBySection cut answers.lists.items
                        × GoesOnTo self.entry.now findings.entry.now answers.findings) }
                { self.answer_part(alloc, points, scans, *part, cut, findings) },
            )
            .collect::<Result<Vec<PartAnswers, Alloc>, Memory>>(rt, alloc)?
    }

    // The answers to the points and the scans of a part.
    fn answer_part(
        &self,
        alloc: Alloc,
        points: &[Point<'_>],
        scans: &[usize],
        part: Part,
        cut: Cut,
        findings: &Findings,
    ) -> Result<PartAnswers, Memory>
        requires points { ArePointsOf self.now.ops points.now }
        requires scans { AllByRecursion (IsScanOf self.now.ops) scans.now }
        requires within { IsPartOf (length points.now) (length scans.now) part }
        requires cut { IsCutOf (length self.now.ops) cut }
        ensures answers { let places = places_in (point_places points.now) scans.now part in
            IfOk result (λ answers. IsPermutation (answers_to self.now places) (answers_in answers)) }
        ensures lists { IfOk result (λ answers. AreBySection cut answers.lists.items) }
        ensures findings { IfOk result (λ answers. GoesOnTo self.now findings.now answers.findings) }
    {
        let points = &points[part.points.start..part.points.end];
        let scans = &scans[part.scans.start..part.scans.end];
        let mut answers = Vec::with_capacity(alloc, points.len() + scans.len())?;
        let mut findings = findings.again(alloc);
        self.answer_points(alloc, points, &mut answers, &mut findings)?;
        self.answer_scans(alloc, scans, &mut answers)?;
        let lists = cut.by_section(alloc, answers)?;
        Ok(PartAnswers { lists, findings })
    }

    /// Where some of the points end that begin at `start`: behind the last of those on a leaf, and behind 4,096 of
    /// them, if there are so many.
    pub(crate) fn turn_end(&self, points: &[Point<'_>], start: usize) -> usize
        requires points { ArePointsOf self.now.ops points.now }
        requires start { start < length points.now }
        ensures more { start < result }
        ensures bound { result ≤ length points.now }
        ensures enough { (result ≡ length points.now) ⊎ (start + 4096 ≤ result) }
    {
        let mut end = start;
        while end < points.len() && end - start < TURN {
            end = self.homes.run_from(points, end).1;
        }
        end
    }

    /// Adds the answers to operations on one key each, a run of them for each leaf, and what is found of the leaves.
    pub(crate) fn answer_points(
        &self,
        alloc: Alloc,
        points: &[Point<'_>],
        answers: &mut Vec<Answer, Alloc>,
        findings: &mut Findings,
    ) -> Result<(), Memory>
        requires points { ArePointsOf self.now.ops points.now }
        ensures findings { GoesOnTo self.now findings.old findings.new }
        ensures answers { let more = answers_to self.now (point_places points.now) in
            OnOk result (answers.new.items ≡ answers.old.items ++ more) }
    {
        let stamp = self.stamp_behind();
        let mut start = 0;
        let mut read_ahead = 0;
        let mut near = 0;
        while start < points.len() {
            if start >= read_ahead {
                let (end, guess) = self.prefetch_runs(points, start);
                read_ahead = end;
                near = guess;
            }
            let (page, end) = self.homes.run_from(points, start);
            self.answer_run(alloc, page, near, &points[start..end], answers)?;
            findings.look_at(self.tree, page, stamp);
            start = end;
        }
        Ok(())
    }

    // The stamp behind those of the batch.
    fn stamp_behind(&self) -> u64
        ensures { result ≡ self.now.base + length self.now.ops }
    {
        self.base + self.ops.len() as u64
    }

    // Reads the leaves and the keys of the next runs of points, of as many runs as have 16 points, before the first of them is
    // answered: so their memory is waited for together. Where these runs end, and what was read made a guess of a place, which
    // may be any number.
    fn prefetch_runs(&self, points: &[Point<'_>], start: usize) -> (usize, usize)
        requires { ArePointsOf self.now.ops points.now }
    {
        let mut end = start;
        let mut near = 0usize;
        while end < points.len() && end - start < AHEAD {
            let (page, next) = self.homes.run_from(points, end);
            near = near.wrapping_add(self.tree.prefetch(page));
            near = near.wrapping_add(prefetch_keys(&points[end..next]));
            end = next;
        }
        (end, near)
    }

    // Adds the answers to operations on the keys of one leaf.
    fn answer_run(
        &self,
        alloc: Alloc,
        page: PageId,
        mut near: usize,
        points: &[Point<'_>],
        answers: &mut Vec<Answer, Alloc>,
    ) -> Result<(), Memory>
        requires leaf { Contains (row self.now.tree.levels 0) page }
        requires homes { let tree = self.now.tree in
            AllByRecursion (λ e. IsHome tree.slots tree.levels e.0 page) (entries_of points.now) }
        requires points { ArePointsOf self.now.ops points.now }
        ensures { OnOk result (answers.new.items ≡ answers.old.items ++ answers_to self.now (point_places points.now)) }
    {
        self.tree.know_homes();
        let leaf = self.tree.leaf(alloc, page)?;
        let writes = writes_by_key(alloc, &leaf.writes)?;
        let mut start = 0;
        let mut changed = 0;
        while start < points.len() {
            let end = group_end(points, start);
            let key = points[start].key;
            let (found, next) = leaf.base.find_near(key, near);
            let (changes, changes_end) = group_of(&writes, changed, key);
            self.answer_group(alloc, found, changes, &points[start..end], answers)?;
            start = end;
            near = next;
            changed = changes_end;
        }
        Ok(())
    }

    // Adds the answers to operations on one key, in the order of the batch, by the value and the writes that the tree
    // has there.
    fn answer_group<'b>(
        &self,
        alloc: Alloc,
        start: Option<&'b [u8]>,
        writes: &'b [&'b Write],
        points: &[Point<'_>],
        answers: &mut Vec<Answer, Alloc>,
    ) -> Result<(), Memory>
        requires stamps { HasRisingStamps 0 (pointed_to writes.now) }
        requires reads { let is_read = IsReadBy self.now.tree (option_copied start) (pointed_to writes.now) in
            AllByRecursion (λ e. is_read e.0) (entries_of points.now) }
        requires entries { AllByRecursion (IsEntryOf self.now.ops) (entries_of points.now) }
        requires verbs { AllByRecursion (IsPointOf self.now.ops) points.now }
        requires rising { HasRisingPlaces 0 (entries_of points.now) }
        ensures { OnOk result (answers.new.items ≡ answers.old.items ++ answers_to self.now (point_places points.now)) }
    {
        let mut reading = Reading::new(start, writes);
        for point in points {
            let place = point.place();
            reading.advance(self.base + place as u64);
            let reply = self.reply_to(alloc, point, reading.value())?;
            answers.push(Answer { place, reply })?;
        }
        Ok(())
    }

    // The reply to an operation on one key, where the key has this value. Most operations aren't read: their points have all
    // that is asked for.
    fn reply_to(
        &self,
        alloc: Alloc,
        point: &Point<'_>,
        value: Option<&[u8]>,
    ) -> Result<Reply, Memory>
        requires entry { IsEntryOf self.now.ops (point.now.key.now, point.now.place) }
        requires verb { IsPointOf self.now.ops point.now }
        ensures { IfOk result (IsReplyThere self.now.ops point.now.place (option_copied value.entry)) }
    {
        match point.verb() {
            Some(verb) => verb.reply_at(alloc, value),
            None => op_at(self.ops, point.place()).reply_at(alloc, value),
        }
    }

    /// Adds the answers to scans. They are in the order of the batch, so the stamps of the reads of a leaf rise.
    pub(crate) fn answer_scans(
        &self,
        alloc: Alloc,
        places: &[usize],
        answers: &mut Vec<Answer, Alloc>,
    ) -> Result<(), Memory>
        requires { AllByRecursion (IsScanOf self.now.ops) places.now }
        ensures { OnOk result (answers.new.items ≡ answers.old.items ++ answers_to self.now places.now) }
    {
        let tree = self.tree.look();
        let mut scans = self.scans_at(alloc, &tree, places)?;
        share_leaves(alloc, tree.again(), &mut scans)?;
        finish_scans(alloc, tree.again(), scans, answers)
    }

    // The scans at these places, which have read nothing.
    fn scans_at<'b>(
        &'b self,
        alloc: Alloc,
        tree: &'b Look<'b>,
        places: &[usize],
    ) -> Result<Vec<BatchScan<'b>, Alloc>, Memory>
        requires tree { tree.now ≡ self.now.tree }
        requires scans { AllByRecursion (IsScanOf self.now.ops) places.now }
        ensures trees { IfOk result (λ scans.
            AllByRecursion (λ scan. scan.cursor.tree ≡ self.now.tree) scans.items) }
        ensures answers { IfOk result (λ scans. map answer_of scans.items ≡ answers_to self.now places.now) }
    {
        let mut scans = Vec::with_capacity(alloc, places.len())?;
        for place in places {
            let place = *place;
            let stamp = self.base + place as u64;
            let cursor = ScanCursor::new(alloc, tree, op_at(self.ops, place), stamp);
            scans.push(BatchScan { place, cursor })?;
        }
        Ok(scans)
    }
}

// Reads where the keys of points begin, up to 4,096 of them: a sum of their lengths. Operations lie in another order than their
// points.
fn prefetch_keys(points: &[Point<'_>]) -> usize {
    let mut sum = 0usize;
    for point in points.iter().take(TURN) {
        sum = sum.wrapping_add(point.key.bytes().len());
    }
    sum
}

// The operation at a place of a batch.
fn op_at(ops: &[Op], place: usize) -> &Op
    requires { place < length ops.now }
    ensures { slice_get ops.now place ≡ Some result.now }
{
    &ops[place]
}
