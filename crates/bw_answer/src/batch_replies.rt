// The replies to a batch.
ghost use Rattle.std.specs.Prelude.{◌≡◌, ℕ, ◌+◌, ◌<◌, ◌≤◌, ◌^◌, length, IfOk, OnOk, flat_map};
ghost use Rattle.std.specs.List.{AllByRecursion};
ghost use Rattle.bw_model.specs.Model.{replies_of};
ghost use Rattle.bw_look.specs.View.{TreeView, contents_at};
ghost use Rattle.bw_group.specs.Homes.{AreHomes};
ghost use Rattle.bw_group.specs.Points.{IsScanOf};
ghost use Rattle.bw_tidy.specs.Findings.{GoOn};
ghost use Rattle.bw_answer.specs.Replies.{ArePointsOf, GoesOnTo, HasContentsInTurn};
ghost use Rattle.bw_answer.specs.Replies.{answers_to, point_places, replies_to};
ghost use Rattle.bw_answer.specs.Sections.{with_answers_from};

use crate::answers::{absent_replies, place_answers};
use crate::batch_reader::BatchReader;
use crate::parts::{count_parts, parts};
use crate::sections::Cut;
use bw_group::{Grouping, Homes, Point};
use bw_key::Memory;
use bw_memory::Alloc;
use bw_model::{Replies, Reply};
use bw_tidy::Findings;
use bw_tree::Tree;
use std::thread::Threads;

/// The replies to a batch, in its order, by a tree in which its writes stand: as of `base + i` the tree has the map
/// that the first i operations leave.
///
/// A reply depends on the tree as of its operation's stamp alone. So the operations on one key each, grouped by key,
/// are cut into at most `workers` parts alike in length, and so are the scans; the parts are answered side by side. A
/// batch of under 2,048 operations on keys and under 128 scans is one part, and starts no thread. Of several parts'
/// answers the replies are made side by side too, in as many sections of the batch, of 4,096 operations at the least:
/// each answer is moved twice, and each reply once more.
///
/// `homes` are the pages of the batch's keys, so that no leaf is searched for again but by scans. In a part the writes
/// over each leaf that has a key of it are sorted by key, and each key's are then passed once, beside the operations on
/// the key. So the cost doesn't depend on how many of them are on one key. The scans forth of a part read leaf by leaf,
/// those of a leaf one after another, and its writes have their effects once for all of these; what they leave, and
/// scans back, is read one scan after another (`Scans`). A leaf that lies in several parts has its writes sorted in
/// each. `Memory` is answered where a list, a map or a reply finds none, in any part.
///
/// Where `findings` look at leaves, they get what is found of those of the batch's keys, as of the stamp behind the batch:
/// each part looks at its leaves while it reads them, and two that read one leaf both do. What is consolidated is kept
/// beside the replies, which may find no memory for that.
pub fn replies<R: Threads + Sync>(
    rt: &R,
    alloc: Alloc,
    tree: &Tree,
    base: u64,
    batch: &Grouping<'_>,
    homes: &Homes,
    workers: u64,
    findings: &mut Findings,
) -> Result<Replies, Memory>
    requires homes { AreHomes tree.now batch.now.ops homes.now }
    requires reads { HasContentsInTurn tree.now base batch.now.ops }
    requires fits { base + length batch.now.ops ≤ 2 ^ 40 }
    ensures findings { GoOn tree.now (base + length batch.now.ops) findings.old findings.new }
    ensures replies { IfOk result (λ replies. replies ≡ replies_of batch.now.ops (contents_at tree.now base)) }
{
    let count = count_parts(batch.points().len(), batch.scans().len(), workers);
    replies_in_parts(rt, alloc, tree, base, batch, homes, count, findings)
}

/// The replies to a batch, as `replies` gives them, where it is cut into at most so many parts, however few its
/// operations are. With a count of 1 no thread is started, and the answers to keys on some leaves are put at their
/// places before those to others are made: so the list of them has fewer than 4,096 besides those to keys on one leaf.
/// Those to scans are in one list.
pub fn replies_in_parts<R: Threads + Sync>(
    rt: &R,
    alloc: Alloc,
    tree: &Tree,
    base: u64,
    batch: &Grouping<'_>,
    homes: &Homes,
    count: usize,
    findings: &mut Findings,
) -> Result<Replies, Memory>
    requires homes { AreHomes tree.now batch.now.ops homes.now }
    requires reads { HasContentsInTurn tree.now base batch.now.ops }
    requires fits { base + length batch.now.ops ≤ 2 ^ 40 }
    requires count { 0 < count }
    ensures findings { GoOn tree.now (base + length batch.now.ops) findings.old findings.new }
    ensures replies { IfOk result (λ replies. replies ≡ replies_of batch.now.ops (contents_at tree.now base)) }
{
    let reader = BatchReader {
        tree,
        ops: batch.ops(),
        base,
        homes,
    };
    let replies = if count > 1 {
        replies_side_by_side(rt, alloc, &reader, batch, count, findings)?
    } else {
        replies_in_turn(alloc, &reader, batch, findings)?
    };
    Ok(Replies::from_vec(replies))
}

// The replies, answered in at most so many parts, and made of their answers in as many sections.
fn replies_side_by_side<R: Threads + Sync>(
    rt: &R,
    alloc: Alloc,
    reader: &BatchReader<'_>,
    batch: &Grouping<'_>,
    count: usize,
    findings: &mut Findings,
) -> Result<Vec<Reply, Alloc>, Memory>
    requires ops { reader.now.ops ≡ batch.now.ops }
    requires few { length batch.now.ops ≤ 2 ^ 40 }
    requires count { 0 < count }
    ensures findings { GoesOnTo reader.now findings.old findings.new }
    ensures replies { IfOk result (λ replies. replies.items ≡ replies_to reader.now) }
{
    let (points, scans) = (batch.points(), batch.scans());
    let len = batch.ops().len();
    let parts = parts(alloc, points.len(), scans.len(), count)?;
    let cut = Cut::new(len, count);
    let answers = reader.answer_parts(rt, alloc, points, scans, &parts, cut, findings)?;
    let sections = cut.gather(alloc, answers, findings)?;
    let mut replies = cut.replies(rt, alloc, sections)?;
    replies.truncate(len);
    Ok(replies)
}

// The replies, answered by one thread.
fn replies_in_turn(
    alloc: Alloc,
    reader: &BatchReader<'_>,
    batch: &Grouping<'_>,
    findings: &mut Findings,
) -> Result<Vec<Reply, Alloc>, Memory>
    requires ops { reader.now.ops ≡ batch.now.ops }
    ensures findings { GoesOnTo reader.now findings.old findings.new }
    ensures replies { IfOk result (λ replies. replies.items ≡ replies_to reader.now) }
{
    let mut replies = absent_replies(alloc, batch.ops().len())?;
    place_replies(alloc, reader, batch, &mut replies, findings)?;
    Ok(replies)
}

// Puts the reply to each operation at its place, those to operations on one key each before those to scans.
fn place_replies(
    alloc: Alloc,
    reader: &BatchReader<'_>,
    batch: &Grouping<'_>,
    replies: &mut [Reply],
    findings: &mut Findings,
) -> Result<(), Memory>
    requires ops { reader.now.ops ≡ batch.now.ops }
    requires size { length replies.old ≡ length batch.now.ops }
    ensures findings { GoesOnTo reader.now findings.old findings.new }
    ensures replies { OnOk result (replies.new ≡ replies_to reader.now) }
{
    let (points, scans) = (batch.points(), batch.scans());
    place_points(alloc, reader, points, replies, findings)?;
    place_scans(alloc, reader, scans, replies)?;
    Ok(())
}

// Puts the answers to operations on one key each at their places, those of some leaves after another.
fn place_points(
    alloc: Alloc,
    reader: &BatchReader<'_>,
    points: &[Point<'_>],
    replies: &mut [Reply],
    findings: &mut Findings,
) -> Result<(), Memory>
    requires points { ArePointsOf reader.now.ops points.now }
    requires there { AllByRecursion (λ place. place < length replies.old) (point_places points.now) }
    ensures findings { GoesOnTo reader.now findings.old findings.new }
    ensures replies { let answers = answers_to reader.now (point_places points.now) in
        OnOk result (replies.new ≡ with_answers_from 0 replies.old answers) }
{
    let mut start = 0;
    while start < points.len() {
        let end = reader.turn_end(points, start);
        let mut answers = Vec::with_capacity(alloc, end - start)?;
        reader.answer_points(alloc, &points[start..end], &mut answers, findings)?;
        place_answers(0, answers, replies);
        start = end;
    }
    Ok(())
}

// Puts the answers to scans at their places.
fn place_scans(
    alloc: Alloc,
    reader: &BatchReader<'_>,
    scans: &[usize],
    replies: &mut [Reply],
) -> Result<(), Memory>
    requires scans { AllByRecursion (IsScanOf reader.now.ops) scans.now }
    requires there { AllByRecursion (λ place. place < length replies.old) scans.now }
    ensures { OnOk result (replies.new ≡ with_answers_from 0 replies.old (answers_to reader.now scans.now)) }
{
    let mut answers = Vec::with_capacity(alloc, scans.len())?;
    reader.answer_scans(alloc, scans, &mut answers)?;
    place_answers(0, answers, replies);
    Ok(())
}
