// The operations of a batch, and those that read or write one key each.
ghost use Rattle.std.specs.Prelude.{◌≡◌, ◌<◌, ◌≤◌, ◌^◌, false, length, IfOk};
ghost use Rattle.std.specs.List.{AllByRecursion, list_any};
ghost use Rattle.std.specs.List.Sorted.{IsPermutation, IsSortedBy};
ghost use Rattle.std.specs.Ordering.{is_lt};
ghost use Rattle.bw_key.specs.Order.{key_cmp, key_eq};
ghost use Rattle.bw_delta.specs.Batches.{stamped, write_of, writes_of};
ghost use Rattle.bw_tree.specs.Stages.{AreAllWritePlaces};
ghost use Rattle.bw_group.specs.Points.{AreGrouped, HasKey, HaveSameOfKeys, IsPointOf};
ghost use Rattle.bw_group.specs.Points.{entries_from, entries_in, entries_of, is_delete, key_at, places_of, scans_from, writing};
ghost use Rattle.bw_group.specs.declared.points.Point.{Point};

use crate::points::Point;
use crate::ranks::sorted_by_rank;
use bw_key::Memory;
use bw_memory::Alloc;
use bw_model::Op;
use std::marker::Model;
use std::thread::Threads;

/// The operations of a batch, those on one key each grouped by key, and the scans.
pub struct Grouping<'a> {
    pub(crate) ops: &'a [Op],
    pub(crate) points: Vec<Point<'a>, Alloc>,
    pub(crate) scans: Vec<usize, Alloc>,
    // how many of the operations write
    writes: usize,
    // whether one of them is a delete
    deletes: bool,
}

// Not derived: whoever drops one calls this, and its proof is spared the parts.
impl Drop for Grouping<'_> {
    fn drop(self) {
        let Grouping {
            ops: _ops,
            points: _points,
            scans: _scans,
            writes: _writes,
            deletes: _deletes,
        } = self;
    }
}

impl<'a> Model for Grouping<'a> {
    ghost use Rattle.bw_group.specs.Points.{GroupingView, IsGrouping, grouping_view};

    ghost Value = { GroupingView };

    ghost view = { λ g. grouping_view g.ops.now g.points.items g.scans.items };

    ghost invariant = { λ g. IsGrouping g.ops.now g.points.items g.scans.items g.writes g.deletes };
}

impl<'a> Grouping<'a> {
    /// Groups the operations of a batch by key. From 256 to 2^16 operations on keys are sorted by numbers of eight
    /// bytes first, in which six are of the key, in about n log2 n comparisons. Then keys are compared: each with the
    /// next one, and those among each other whose six bytes are the same; else about n log2 n times, most of them by
    /// their first eight bytes alone. It copies no key. A batch has at most 2^32 operations here. `Memory` is answered
    /// where a list finds none.
    ///
    /// The numbers of 16,384 operations or more on keys are sorted by up to `workers` threads side by side, those of a long
    /// batch by as many as the greatest power of two within that number, and `rt` starts them. Of 0 and of 1 none is
    /// started.
    pub fn new<R: Threads + Sync>(
        rt: &R,
        alloc: Alloc,
        ops: &'a [Op],
        workers: u64,
    ) -> Result<Grouping<'a>, Memory>
        requires { length ops.now ≤ 2 ^ 32 }
        ensures { IfOk result (λ grouping. grouping.ops ≡ ops.now) }
    {
        let Lists {
            points,
            scans,
            writes,
            deletes,
        } = grouped_lists(rt, alloc, ops, workers)?;
        Ok(Grouping {
            ops,
            points,
            scans,
            writes,
            deletes,
        })
    }

    /// The operations of the batch, in its order.
    pub fn ops(&self) -> &'a [Op]
        ensures { result.now ≡ self.now.ops }
    {
        self.ops
    }

    /// The operations on one key each, in the order of their keys. Those on one key are in the order of the batch. Each
    /// point tells the verb of its operation.
    pub fn points(&self) -> &[Point<'a>]
        ensures points { entries_of result.now ≡ self.now.points }
        ensures grouped { AreGrouped self.now }
        ensures verbs { AllByRecursion (IsPointOf self.now.ops) result.now }
    {
        &self.points
    }

    /// The places of the scans, in the order of the batch.
    pub fn scans(&self) -> &[usize]
        ensures { result.now ≡ self.now.scans }
    {
        &self.scans
    }

    /// How many of the operations write. They were counted once, so this is a look at a number.
    pub fn writes(&self) -> usize
        ensures { result ≡ length (writes_of 0 self.now.ops) }
    {
        self.writes
    }

    /// Whether one of the operations is a delete. That was seen once, too.
    pub fn has_deletes(&self) -> bool
        ensures { result ≡ list_any is_delete self.now.ops }
    {
        self.deletes
    }

    /// The places of the operations that write, in the order of their keys; those on one key are in the order of the batch.
    /// `Memory` is answered where the list finds none.
    pub fn write_places(&self, alloc: Alloc) -> Result<Vec<u32, Alloc>, Memory>
        ensures places { IfOk result (λ places. places.items ≡ writing self.now.ops (places_of self.now.points)) }
        ensures there { IfOk result (λ places. AllByRecursion (λ p. p < length self.now.ops) places.items) }
        ensures all { IfOk result (λ places. AreAllWritePlaces self.now.ops places.items) }
    {
        let points = self.points();
        let mut places = Vec::with_capacity(alloc, self.writes)?;
        for point in points {
            if !point.is_get() {
                places.push(point.place)?;
            }
        }
        Ok(places)
    }
}

// What a batch has: its points, the places of its scans, how many of its operations write, and whether one is a delete.
#[derive(Drop)]
struct Lists<'a> {
    points: Vec<Point<'a>, Alloc>,
    scans: Vec<usize, Alloc>,
    writes: usize,
    deletes: bool,
}

// What a batch has, its points in the order of their keys. Those of one key are in the order of the batch.
fn grouped_lists<'a, R: Threads + Sync>(
    rt: &R,
    alloc: Alloc,
    ops: &'a [Op],
    workers: u64,
) -> Result<Lists<'a>, Memory>
    requires { length ops.now ≤ 2 ^ 32 }
    ensures sorted { IfOk result (λ lists.
        IsSortedBy (λ d e. is_lt (key_cmp d.0 e.0)) (entries_of lists.points.items)) }
    ensures same { IfOk result (λ lists. HaveSameOfKeys (entries_of lists.points.items) (entries_from 0 ops.now)) }
    ensures permuted { IfOk result (λ lists. IsPermutation (entries_from 0 ops.now) (entries_of lists.points.items)) }
    ensures verbs { IfOk result (λ lists. AllByRecursion (IsPointOf ops.now) lists.points.items) }
    ensures scans { IfOk result (λ lists. lists.scans.items ≡ scans_from 0 ops.now) }
    ensures writes { IfOk result (λ lists. lists.writes ≡ length (writes_of 0 ops.now)) }
    ensures deletes { IfOk result (λ lists. lists.deletes ≡ list_any is_delete ops.now) }
{
    let Lists {
        points,
        scans,
        writes,
        deletes,
    } = lists_of(alloc, ops)?;
    let mut points = sorted_by_rank(rt, alloc, points, workers)?;
    points.sort_unstable_by(|a, b| a.by_key_and_place(b));
    Ok(Lists {
        points,
        scans,
        writes,
        deletes,
    })
}

// What a batch has, in its order. It passes the operations once: they are large, so a second look at each would wait for it
// again.
fn lists_of<'a>(alloc: Alloc, ops: &'a [Op]) -> Result<Lists<'a>, Memory>
    requires { length ops.now ≤ 2 ^ 32 }
    ensures entries { IfOk result (λ lists. entries_of lists.points.items ≡ entries_from 0 ops.now) }
    ensures verbs { IfOk result (λ lists. AllByRecursion (IsPointOf ops.now) lists.points.items) }
    ensures scans { IfOk result (λ lists. lists.scans.items ≡ scans_from 0 ops.now) }
    ensures writes { IfOk result (λ lists. lists.writes ≡ length (writes_of 0 ops.now)) }
    ensures deletes { IfOk result (λ lists. lists.deletes ≡ list_any is_delete ops.now) }
{
    let mut points = Vec::with_capacity(alloc, ops.len())?;
    let mut scans = Vec::new(alloc);
    let (mut writes, mut deletes) = (0, false);
    for (place, op) in ops.iter().enumerate() {
        match op.key() {
            Some(key) => points.push(Point::new(key, place, op.verb()))?,
            None => scans.push(place)?,
        }
        writes += writes_by(op);
        deletes |= is_delete(op);
    }
    Ok(Lists {
        points,
        scans,
        writes,
        deletes,
    })
}

// How many writes an operation is, one or none.
fn writes_by(op: &Op) -> usize
    ensures { result ≡ length (stamped 0 (write_of op.now)) }
{
    match op {
        Op::Get(_) | Op::Scan { .. } | Op::Rscan { .. } => 0,
        Op::Insert(..) | Op::Upsert(..) | Op::Update(..) | Op::Delete(_) | Op::SwapIf(..) => 1,
    }
}

// Whether an operation is a delete.
fn is_delete(op: &Op) -> bool
    ensures { result ≡ is_delete op.now }
{
    match op {
        Op::Delete(_) => true,
        _ => false,
    }
}

/// Where the group of points that begins at `start` ends: at the first point behind it with another key. It costs a
/// comparison for each point of the group, of numbers alone where the keys have eight bytes or fewer.
pub fn group_end(points: &[Point<'_>], start: usize) -> usize
    requires { start < length points.now }
    ensures more { start < result }
    ensures bound { result ≤ length points.now }
    ensures same { let group = entries_in points.now start result in
        (d : Point) → AllByRecursion (HasKey (key_at points.now start d)) group }
    ensures whole { result < length points.now →
        (d : Point) → key_eq (key_at points.now start d) (key_at points.now result d) ≡ false }
{
    let first = &points[start];
    for end in start + 1..points.len() {
        if points[end].differs(first) {
            return end;
        }
    }
    points.len()
}
