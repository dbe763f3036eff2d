// Leaves that are read once for all scans of them.
ghost use Rattle.std.specs.Prelude.{◌≡◌, ◌++◌, map, OnOk};
ghost use Rattle.std.specs.List.{AllByRecursion};
ghost use Rattle.bw_answer.specs.Replies.{answer_of};

use crate::batch_reader::Answer;
use bw_key::{Key, Memory};
use bw_memory::Alloc;
use bw_model::is_below;
use bw_tree::{LeafCursor, Look, ScanCursor, Scans};
use std::cmp::Ordering;
use std::mem;

/// A scan of a batch that is under way, and its place there.
#[derive(Drop)]
pub(crate) struct BatchScan<'a> {
    pub(crate) place: usize,
    pub(crate) cursor: ScanCursor<'a>,
}

// The key at which a scan forth begins, and the number of the scan.
#[derive(Clone, Copy)]
struct Start<'a> {
    prefix: u64,
    key: &'a Key,
    number: usize,
}

impl<'a> Start<'a> {
    fn new(key: &'a Key, number: usize) -> Start<'a> {
        let prefix = key.prefix();
        Start {
            prefix,
            key,
            number,
        }
    }

    // How two keys stand: most are told apart by their first bytes, which stand here.
    fn by_key(&self, other: &Start<'_>) -> Ordering {
        if self.prefix == other.prefix {
            self.key.cmp(other.key)
        } else {
            self.prefix.cmp(&other.prefix)
        }
    }
}

/// Reads leaf after leaf, in the order of their keys, for all scans forth that begin on a leaf or go on from the one before.
/// Those of a leaf read it in the order of their stamps, if they are listed so. A scan that finds no pair where it goes on is
/// left there.
///
/// So the chain of a leaf is walked as often as for one of them, and each of its writes has its effect once for all. It costs a
/// sort of the scans by their first keys and, for each leaf, a search for it and, where scans begin there, a sort of the
/// numbers of those that read it. `Memory` is answered where a list, a map or a copy finds none.
pub(crate) fn share_leaves<'a>(
    alloc: Alloc,
    tree: Look<'a>,
    scans: &mut [BatchScan<'a>],
) -> Result<(), Memory>
    requires { AllByRecursion (λ scan. scan.cursor.tree ≡ tree) scans.old }
    ensures { scans.new ≡ scans.old }
{
    let mut starts = starts_of(alloc, scans)?;
    let mut leaf = LeafCursor::new(alloc, tree);
    let mut readers = Vec::new(alloc);
    let mut going_on = Vec::new(alloc);
    // Each turn begins a scan or goes on behind a leaf, so the leaves end, and not this count.
    for _turn in 0..usize::MAX {
        let Some(key) = next_key(scans, &going_on, &starts) else {
            return Ok(());
        };
        let end = leaf.seek(key)?;
        mem::swap(&mut readers, &mut going_on);
        let count = readers.len();
        take_starts(&mut starts, end, &mut readers)?;
        if readers.len() > count {
            readers.sort_unstable();
        }
        going_on.clear();
        read_leaf(scans, &readers, &mut leaf, &mut going_on)?;
    }
    Ok(())
}

/// Adds the answers to scans, for which what they haven't read yet is read now.
pub(crate) fn finish_scans<'a>(
    alloc: Alloc,
    tree: Look<'a>,
    scans: Vec<BatchScan<'a>, Alloc>,
    answers: &mut Vec<Answer, Alloc>,
) -> Result<(), Memory>
    requires { AllByRecursion (λ scan. scan.cursor.tree ≡ tree) scans.items }
    ensures { OnOk result (answers.new.items ≡ answers.old.items ++ map answer_of scans.entry.items) }
{
    let mut reading = Scans::new(alloc, tree);
    for scan in scans {
        let BatchScan { place, cursor } = scan;
        let reply = cursor.finish(&mut reading)?;
        answers.push(Answer { place, reply })?;
    }
    Ok(())
}

// Where the scans begin that go forth, the greatest key first.
fn starts_of<'a>(alloc: Alloc, scans: &[BatchScan<'a>]) -> Result<Vec<Start<'a>, Alloc>, Memory> {
    let mut starts = Vec::with_capacity(alloc, scans.len())?;
    for (number, scan) in scans.iter().enumerate() {
        if let Some(key) = scan.cursor.at() {
            starts.push(Start::new(key, number))?;
        }
    }
    starts.sort_unstable_by(|a, b| b.by_key(a));
    Ok(starts)
}

// A key of the next leaf: that at which a scan goes on, or else the least at which one begins.
fn next_key<'a>(
    scans: &[BatchScan<'a>],
    going_on: &[usize],
    starts: &[Start<'a>],
) -> Option<&'a Key> {
    match going_on.first() {
        Some(number) => scans.get(*number)?.cursor.at(),
        None => Some(starts.last()?.key),
    }
}

// Takes the scans that begin below an end to those that read the leaf.
fn take_starts(
    starts: &mut Vec<Start<'_>, Alloc>,
    end: Option<&Key>,
    readers: &mut Vec<usize, Alloc>,
) -> Result<(), Memory> {
    while let Some(start) = starts.last() {
        if !is_below(start.key, end) {
            return Ok(());
        }
        readers.push(start.number)?;
        starts.pop();
    }
    Ok(())
}

// Lets scans read a leaf, and lists those that go on behind it.
fn read_leaf<'a>(
    scans: &mut [BatchScan<'a>],
    readers: &[usize],
    leaf: &mut LeafCursor<'a>,
    going_on: &mut Vec<usize, Alloc>,
) -> Result<(), Memory>
    requires { AllByRecursion (λ scan. scan.cursor.tree ≡ leaf.old.tree) scans.old }
    ensures scans { scans.new ≡ scans.old }
    ensures tree { leaf.new.tree ≡ leaf.old.tree }
{
    for number in readers {
        if read_one(scans, *number, leaf)? {
            going_on.push(*number)?;
        }
    }
    Ok(())
}

// Lets one of the scans read it. Whether it goes on behind it.
fn read_one<'a>(
    scans: &mut [BatchScan<'a>],
    number: usize,
    leaf: &mut LeafCursor<'a>,
) -> Result<bool, Memory>
    requires { AllByRecursion (λ scan. scan.cursor.tree ≡ leaf.old.tree) scans.old }
    ensures scans { scans.new ≡ scans.old }
    ensures tree { leaf.new.tree ≡ leaf.old.tree }
{
    if number >= scans.len() {
        return Ok(false);
    }
    scans[number].cursor.read_leaf(leaf)
}
