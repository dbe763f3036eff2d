// A batch of reads over three leaves.
ghost use Rattle.std.specs.Prelude.{◌≡◌, ℕ, ◌<◌, ◌≤◌, length, None};
ghost use Rattle.std.specs.List.{AllByRecursion};
ghost use Rattle.bw_delta.specs.Batches.{write_of};
ghost use Rattle.bw_look.specs.View.{contents_at};

use super::making::{
    four_scans, memory, reads, replies_by_parts, replies_by_workers, scan_reply, six_reads,
    six_replies, three,
};
use crate::tests::assertions::{assert_equal, assert_that};
use bw_fixtures::was_refused;
use bw_memory::Alloc;
use bw_model::{Op, Reply};
use bw_tree::Tree;
use std::process::Abort;
use std::thread::Threads;

// Compares replies.
fn compare<R: Abort>(rt: &R, replies: &[Reply], wanted: &[Reply]) {
    assert_equal(rt, replies.len(), wanted.len());
    for (reply, wanted) in replies.iter().zip(wanted) {
        assert_equal(rt, reply, wanted);
    }
}

// Compares the replies to the six reads.
fn compare_six<R: Abort>(rt: &R, alloc: Alloc, replies: &[Reply]) {
    compare(rt, replies, &six_replies(rt, alloc));
}

// Answers the six reads by so many workers, and compares the replies.
fn answers_by_workers<R: Abort + Threads + Sync>(
    rt: &R,
    alloc: Alloc,
    tree: &Tree,
    ops: &[Op],
    workers: u64,
)
    requires quiet { (stamp : ℕ) → contents_at tree.now stamp ≡ contents_at tree.now 0 }
    requires reads { AllByRecursion (λ op. write_of op ≡ None) ops.now }
    requires few { length ops.now ≤ 20000 }
{
    let replies = replies_by_workers(rt, alloc, tree, ops, workers).expect(rt, "memory");
    compare_six(rt, alloc, replies.as_slice());
}

#[test]
fn each_read_is_answered_at_its_place(rt: HostRuntime) {
    let alloc = memory(&rt, rt.alloc());
    let tree = three(&rt, alloc);
    let ops = six_reads(&rt, alloc);
    for workers in [1, 2, 16, 64] {
        answers_by_workers(&rt, alloc, &tree, &ops, workers);
    }
}

// Answers reads in so many parts where this growth is refused, if it comes, and compares the replies. Whether it was refused.
fn answers_in_parts<R: Abort + Threads + Sync>(
    rt: &R,
    alloc: Alloc,
    tree: &Tree,
    ops: &[Op],
    wanted: &[Reply],
    count: usize,
    growth: u64,
) -> bool
    requires quiet { (stamp : ℕ) → contents_at tree.now stamp ≡ contents_at tree.now 0 }
    requires reads { AllByRecursion (λ op. write_of op ≡ None) ops.now }
    requires few { length ops.now ≤ 20000 }
    requires count { 0 < count }
{
    alloc.refuse(growth);
    let replies = replies_by_parts(rt, alloc, tree, ops, count);
    if was_refused(alloc, growth) {
        assert_that(rt, replies.is_err());
        return true;
    }
    compare(rt, replies.expect(rt, "memory").as_slice(), wanted);
    false
}

// More growths than the replies take.
const MANY: u64 = 1_000_000;

#[test]
fn each_read_is_answered_in_parts(rt: HostRuntime) {
    let alloc = memory(&rt, rt.alloc());
    let tree = three(&rt, alloc);
    let ops = six_reads(&rt, alloc);
    let wanted = six_replies(&rt, alloc);
    for count in [1, 2, 3, 64] {
        let refused = answers_in_parts(&rt, alloc, &tree, &ops, &wanted, count, MANY);
        assert_that(&rt, !refused);
    }
}

// Answers reads by so many workers, and compares the replies.
fn answers_alike<R: Abort + Threads + Sync>(
    rt: &R,
    alloc: Alloc,
    tree: &Tree,
    ops: &[Op],
    workers: u64,
    wanted: &[Reply],
)
    requires quiet { (stamp : ℕ) → contents_at tree.now stamp ≡ contents_at tree.now 0 }
    requires reads { AllByRecursion (λ op. write_of op ≡ None) ops.now }
    requires few { length ops.now ≤ 20000 }
{
    let replies = replies_by_workers(rt, alloc, tree, ops, workers).expect(rt, "memory");
    compare(rt, replies.as_slice(), wanted);
}

#[test]
fn many_reads_are_answered_alike_by_any_number_of_workers(rt: HostRuntime) {
    let alloc = memory(&rt, rt.alloc());
    let tree = three(&rt, alloc);
    let ops = reads(&rt, alloc, 20_000);
    let alone = replies_by_workers(&rt, alloc, &tree, &ops, 1).expect(&rt, "memory");
    for workers in [2, 16, 64] {
        answers_alike(&rt, alloc, &tree, &ops, workers, alone.as_slice());
    }
}

// How many growths the replies by so many workers take.
fn growths<R: Abort + Threads + Sync>(rt: &R, alloc: Alloc, workers: u64) -> u64 {
    let tree = three(rt, alloc);
    let ops = reads(rt, alloc, 5_000);
    alloc.refuse(MANY);
    let replies = replies_by_workers(rt, alloc, &tree, &ops, workers);
    let left = alloc.left();
    alloc.refuse(0);
    assert_that(rt, replies.is_ok());
    MANY.saturating_sub(left)
}

// Each part has lists of its own.
#[test]
fn more_workers_answer_in_more_parts(rt: HostRuntime) {
    let alloc = memory(&rt, rt.alloc());
    let alone = growths(&rt, alloc, 1);
    let four = growths(&rt, alloc, 4);
    assert_that(&rt, alone < four);
}

#[test]
fn a_batch_of_no_operations_has_no_replies(rt: HostRuntime) {
    let alloc = memory(&rt, rt.alloc());
    let tree = three(&rt, alloc);
    let replies = replies_by_workers(&rt, alloc, &tree, &[], 16).expect(&rt, "memory");
    assert_equal(&rt, replies.as_slice().len(), 0);
}

#[test]
fn no_operation_and_one_are_answered_in_several_parts(rt: HostRuntime) {
    let alloc = memory(&rt, rt.alloc());
    let tree = three(&rt, alloc);
    for number in [0, 1] {
        let ops = reads(&rt, alloc, number);
        let alone = replies_by_parts(&rt, alloc, &tree, &ops, 1).expect(&rt, "memory");
        assert_equal(&rt, alone.as_slice().len() as u64, number);
        let refused = answers_in_parts(&rt, alloc, &tree, &ops, alone.as_slice(), 64, MANY);
        assert_that(&rt, !refused);
    }
}

// Refuses each growth of the replies to reads in so many parts, until none is left to refuse.
fn refuse_each<R: Abort + Threads + Sync>(
    rt: &R,
    alloc: Alloc,
    ops: &[Op],
    wanted: &[Reply],
    count: usize,
)
    requires reads { AllByRecursion (λ op. write_of op ≡ None) ops.now }
    requires few { length ops.now ≤ 20000 }
    requires count { 0 < count }
{
    let tree = three(rt, alloc);
    for growth in 1..200 {
        if !answers_in_parts(rt, alloc, &tree, ops, wanted, count, growth) {
            assert_that(rt, growth > 9);
            return;
        }
    }
    panic!(rt; "no run met no refusal")
}

#[test]
fn each_growth_of_replies_is_refused(rt: HostRuntime) {
    let alloc = memory(&rt, rt.alloc());
    let ops = six_reads(&rt, alloc);
    let wanted = six_replies(&rt, alloc);
    for count in [1, 4] {
        refuse_each(&rt, alloc, &ops, &wanted, count);
    }
}

// So many reads that their replies are made in two sections. Of the growths that this takes the last ones are refused: those
// of the sections, and of the lists for them that some parts lay their answers into.
#[test]
fn growths_of_replies_in_sections_are_refused(rt: HostRuntime) {
    let alloc = memory(&rt, rt.alloc());
    let tree = three(&rt, alloc);
    let ops = reads(&rt, alloc, 8_193);
    alloc.refuse(MANY);
    let wanted = replies_by_parts(&rt, alloc, &tree, &ops, 3);
    let taken = MANY.saturating_sub(alloc.left());
    alloc.refuse(0);
    let wanted = wanted.expect(&rt, "memory");
    for growth in taken.saturating_sub(11)..taken {
        let refused = answers_in_parts(&rt, alloc, &tree, &ops, wanted.as_slice(), 3, growth);
        assert_that(&rt, refused);
    }
}

// Over leaves without writes: what is refused is room for the scans, and for what they find.
#[test]
fn each_growth_of_scans_that_share_leaves_is_refused(rt: HostRuntime) {
    let alloc = memory(&rt, rt.alloc());
    let ops = four_scans(&rt, alloc);
    let wanted = [
        scan_reply(&rt, alloc),
        scan_reply(&rt, alloc),
        scan_reply(&rt, alloc),
        scan_reply(&rt, alloc),
    ];
    refuse_each(&rt, alloc, &ops, &wanted, 1);
}
