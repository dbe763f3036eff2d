// What no contract can say: which growths are refused, and what is counted.
mod assertions;

use crate::tests::assertions::{assert_equal, assert_that};
use bw_memory::{Alloc, Heap, LIMIT_MAX};
use std::alloc::{AllocError, Global};
use std::process::Abort;
use std::thread::{self, Threads};

// A block of 40 bytes.
fn forty(alloc: Alloc) -> Result<Box<[u8; 40], Alloc>, AllocError> {
    Ok(Box::new(alloc, [7u8; 40])?)
}

// Whether a block of 40 bytes, which is given back at once, may be made.
fn has_forty(alloc: Alloc) -> bool {
    forty(alloc).is_ok()
}

// Whether a block of so many bytes, which is given back at once, may be made.
fn has_block<const N: usize>(alloc: Alloc) -> bool {
    Box::new(alloc, [0u8; N]).is_ok()
}

// A heap that counts its growths.
fn counted<R: Abort>(rt: &R, global: Global) -> Alloc {
    Heap::counted(global).leak(global).expect(rt, "a heap")
}

// A heap with this limit.
fn within<R: Abort>(rt: &R, global: Global, limit: u64) -> Alloc {
    Heap::within(global, limit)
        .leak(global)
        .expect(rt, "a heap")
}

// Compares what a heap has in use.
fn has_used<R: Abort>(rt: &R, heap: Alloc, bytes: u64) {
    assert_equal(rt, heap.used(), bytes);
}

#[test]
fn refuses_the_growth_of_that_number_alone(rt: HostRuntime) {
    let heap = counted(&rt, rt.alloc());
    for refused in 1..5u64 {
        heap.refuse(refused);
        for growth in 1..5u64 {
            assert_equal(&rt, has_forty(heap), growth != refused);
        }
    }
}

#[test]
fn counts_down_to_the_growth_that_is_refused(rt: HostRuntime) {
    let heap = counted(&rt, rt.alloc());
    assert_equal(&rt, heap.left(), 0);
    // None is refused before it is told to.
    assert_that(&rt, has_forty(heap));

    heap.refuse(2);
    for (left, is_ok) in [(2, true), (1, false), (0, true), (u64::MAX, true)] {
        assert_equal(&rt, heap.left(), left);
        assert_equal(&rt, has_forty(heap), is_ok);
    }

    heap.refuse(0);
    for _ in 0..3 {
        assert_that(&rt, has_forty(heap));
    }
    assert_equal(&rt, heap.left().wrapping_neg(), 3);
    has_used(&rt, heap, 0);
}

#[test]
fn a_heap_with_no_limit_refuses_nothing(rt: HostRuntime) {
    let heap: Alloc = Heap::new(rt.alloc()).leak(rt.alloc()).expect(&rt, "a heap");
    heap.refuse(1);
    let block = forty(heap).expect(&rt, "a block");
    assert_equal(&rt, block[39], 7);
    assert_equal(&rt, heap.left(), 0);
    has_used(&rt, heap, 0);
}

// The whole limit may be in use, and no byte more.
fn takes_all<R: Abort>(rt: &R, heap: Alloc) {
    let _all = Box::new(heap, [0u8; 64]).expect(rt, "a block");
    has_used(rt, heap, 64);
    assert_that(rt, !has_block::<1>(heap));
}

// What one block gives back another may take.
fn takes_turns<R: Abort>(rt: &R, heap: Alloc) {
    let first = forty(heap).expect(rt, "a block");
    let second = Box::new(heap, [0u8; 24]).expect(rt, "a block");
    has_used(rt, heap, 64);
    drop(first);
    has_used(rt, heap, 24);
    let _third = forty(heap).expect(rt, "a block");
    assert_equal(rt, second[23], 0);
    has_used(rt, heap, 64);
}

#[test]
fn a_limit_is_kept_to_the_byte(rt: HostRuntime) {
    let heap = within(&rt, rt.alloc(), 64);
    heap.refuse(1);
    assert_that(&rt, !has_block::<65>(heap));
    has_used(&rt, heap, 0);
    takes_all(&rt, heap);
    has_used(&rt, heap, 0);
    takes_turns(&rt, heap);
    has_used(&rt, heap, 0);
    assert_equal(&rt, heap.left(), 0);
}

// As many numbers from 0 on as the heap has room for.
fn numbers_to_the_limit(heap: Alloc) -> Vec<u64, Alloc> {
    let mut numbers: Vec<u64, Alloc> = Vec::new(heap);
    for n in 0..1000u64 {
        if numbers.push(n).is_err() {
            break;
        }
    }
    numbers
}

// 32 numbers have 256 bytes and 64 have 512, and both blocks count until the items have moved. 128 have 1,024.
fn fills_a_list<R: Abort>(rt: &R, heap: Alloc) {
    let numbers = numbers_to_the_limit(heap);
    assert_equal(rt, numbers.len(), 64);
    assert_equal(rt, numbers.last(), Some(&63));
    has_used(rt, heap, 512);
}

#[test]
fn a_collection_keeps_its_items_when_it_may_not_grow(rt: HostRuntime) {
    let heap = within(&rt, rt.alloc(), 1000);
    fills_a_list(&rt, heap);
    has_used(&rt, heap, 0);
}

// A list with room for four numbers, of 32 bytes, and three of them in it.
fn three_numbers<R: Abort>(rt: &R, alloc: Alloc) -> Vec<u64, Alloc> {
    let mut numbers: Vec<u64, Alloc> = Vec::with_capacity(alloc, 4).expect(rt, "a list");
    for number in 7..10u64 {
        numbers.push(number).expect(rt, "room");
    }
    numbers
}

// Whether a list has those numbers.
fn has_three(numbers: &[u64]) -> bool {
    numbers == [7, 8, 9].as_slice()
}

// Whether a list may have room for so many more numbers.
fn has_room(numbers: &mut Vec<u64, Alloc>, more: usize) -> bool {
    numbers.reserve_exact(more).is_ok()
}

// The list moves to a block of 800 bytes.
fn moves_to_a_larger_block<R: Abort>(rt: &R, heap: Alloc) {
    let mut numbers = three_numbers(rt, heap);
    has_used(rt, heap, 32);
    assert_that(rt, has_room(&mut numbers, 97));
    has_used(rt, heap, 800);
    assert_that(rt, has_three(&numbers));
}

#[test]
fn a_larger_block_counts_in_place_of_the_smaller(rt: HostRuntime) {
    let heap = within(&rt, rt.alloc(), 1000);
    moves_to_a_larger_block(&rt, heap);
    has_used(&rt, heap, 0);
}

#[test]
fn a_growth_that_is_refused_leaves_the_count(rt: HostRuntime) {
    let heap = within(&rt, rt.alloc(), 1000);
    let mut numbers = three_numbers(&rt, heap);
    // 122 numbers have 976 bytes, and the 32 of the block that they move from count until then.
    assert_that(&rt, !has_room(&mut numbers, 119));
    has_used(&rt, heap, 32);
    assert_that(&rt, has_three(&numbers));
    assert_that(&rt, has_room(&mut numbers, 118));
    has_used(&rt, heap, 968);
}

// A list on a heap over another one, which refuses its next growth.
fn grows_at_the_second_try<R: Abort>(rt: &R, inner: Alloc, outer: &Heap<Alloc>) {
    let mut numbers: Vec<u64, &Heap<Alloc>> = Vec::with_capacity(outer, 4).expect(rt, "a list");
    inner.refuse(1);
    assert_that(rt, numbers.reserve_exact(50).is_err());
    assert_equal(rt, outer.used(), 32);
    assert_that(rt, numbers.reserve_exact(50).is_ok());
    assert_equal(rt, outer.used(), 400);
}

#[test]
fn a_growth_that_the_inner_allocator_refuses_leaves_the_count(rt: HostRuntime) {
    let inner = counted(&rt, rt.alloc());
    let outer = Heap::within(inner, 1000);
    grows_at_the_second_try(&rt, inner, &outer);
}

// The list moves to a block that it fills.
fn moves_to_a_smaller_block<R: Abort>(rt: &R, heap: Alloc) {
    let mut numbers = three_numbers(rt, heap);
    numbers.shrink_to_fit();
    has_used(rt, heap, 24);
    assert_that(rt, has_three(&numbers));
}

#[test]
fn a_smaller_block_counts_in_place_of_the_larger(rt: HostRuntime) {
    let heap = within(&rt, rt.alloc(), 1000);
    moves_to_a_smaller_block(&rt, heap);
    has_used(&rt, heap, 0);
}

#[test]
fn a_block_that_may_not_be_made_smaller_counts_as_before(rt: HostRuntime) {
    let heap = within(&rt, rt.alloc(), 50);
    let mut numbers = three_numbers(&rt, heap);
    // The smaller block has 24 bytes, and both count until the items have moved.
    numbers.shrink_to_fit();
    assert_equal(&rt, numbers.capacity(), 4);
    has_used(&rt, heap, 32);
    assert_that(&rt, has_three(&numbers));
}

// A block may be made within this limit.
fn takes_a_block<R: Abort>(rt: &R, global: Global, limit: u64) {
    let heap = within(rt, global, limit);
    let _block = forty(heap).expect(rt, "a block");
    has_used(rt, heap, 40);
}

#[test]
fn limits_reach_from_nothing_to_all_memory(rt: HostRuntime) {
    let none = within(&rt, rt.alloc(), 0);
    assert_that(&rt, !has_block::<1>(none));
    has_used(&rt, none, 0);
    takes_a_block(&rt, rt.alloc(), LIMIT_MAX);
    takes_a_block(&rt, rt.alloc(), u64::MAX);
}

// A block on a heap over another one, which refuses its next growth.
fn is_made_at_the_second_try<R: Abort>(rt: &R, inner: Alloc, outer: &Heap<Alloc>) {
    inner.refuse(1);
    assert_that(rt, Box::new(outer, [0u8; 64]).is_err());
    assert_equal(rt, outer.used(), 0);
    let _block = Box::new(outer, [0u8; 64]).expect(rt, "a block");
    assert_equal(rt, outer.used(), 64);
}

#[test]
fn what_the_inner_allocator_refuses_is_not_in_use(rt: HostRuntime) {
    let inner = counted(&rt, rt.alloc());
    let outer = Heap::within(inner, 64);
    is_made_at_the_second_try(&rt, inner, &outer);
    assert_equal(&rt, outer.used(), 0);
}

// How many of these blocks were made.
fn count_made(blocks: &[Result<Box<[u8; 40], Alloc>, AllocError>]) -> usize {
    blocks.iter().filter(|block| block.is_ok()).count()
}

// Of two threads that ask for a block each, one gets it.
fn one_of_two_gets_it<R: Abort + Threads + Sync>(rt: &R, global: Global, heap: Alloc) {
    let block = |_: usize| forty(heap);
    let blocks = thread::map_indices(rt, global, 2, &block).expect(rt, "memory");
    assert_equal(rt, count_made(&blocks), 1);
    has_used(rt, heap, 40);
}

#[test]
fn threads_share_a_limit(rt: HostRuntime) {
    let heap = within(&rt, rt.alloc(), 64);
    for _ in 0..100 {
        one_of_two_gets_it(&rt, rt.alloc(), heap);
        has_used(&rt, heap, 0);
    }
}
