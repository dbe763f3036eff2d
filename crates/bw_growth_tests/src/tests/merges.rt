// Pages that are merged behind batches of deletes, with each growth of memory refused in turn, and with the longest values.
use crate::tests::assertions::{assert_equal, assert_that};
use bw_batch::{Done, Index, Key, Op, OpenGate, Options, Refusal, Reply, Value};
use bw_fixtures::{heap, key, pairs_of, value, was_refused};
use bw_memory::Alloc;
use std::process::Abort;
use std::thread::Threads;

// Bytes of the longest values, and of short ones.
const LONGEST: usize = 1024;

const SHORT: usize = 1;

const LETTERS: &[&str] = &["a", "b", "c", "d", "e"];

// A batch, and what it is answered.
#[derive(Drop)]
struct Turn {
    ops: Vec<Op, Alloc>,
    replies: Vec<Reply, Alloc>,
}

fn letter<R: Abort>(rt: &R, alloc: Alloc, text: &str) -> Key {
    key(alloc, text.as_bytes()).expect(rt, "a key")
}

// The value of a number: so many bytes of it.
fn value_of<R: Abort>(rt: &R, alloc: Alloc, number: u8, len: usize) -> Value {
    let bytes = [number; LONGEST];
    value(alloc, &bytes[..len.min(LONGEST)]).expect(rt, "a value")
}

// Adds an operation and its reply.
fn add<R: Abort>(rt: &R, turn: &mut Turn, op: Op, reply: Reply) {
    turn.ops.push(op).expect(rt, "memory");
    turn.replies.push(reply).expect(rt, "memory");
}

fn no_operation(alloc: Alloc) -> Turn {
    Turn {
        ops: Vec::new(alloc),
        replies: Vec::new(alloc),
    }
}

// Inserts of the letters, whose values are of the numbers from this one on.
fn inserts<R: Abort>(rt: &R, alloc: Alloc, first: u8, len: usize) -> Turn {
    let mut turn = no_operation(alloc);
    let mut number = first;
    for &text in LETTERS {
        let op = Op::Insert(letter(rt, alloc, text), value_of(rt, alloc, number, len));
        add(rt, &mut turn, op, Reply::Inserted);
        number = number.wrapping_add(1);
    }
    turn
}

// Adds deletes of the letters, which had these values.
fn add_deletes<R: Abort>(rt: &R, alloc: Alloc, turn: &mut Turn, first: u8, len: usize) {
    let mut number = first;
    for &text in LETTERS {
        let was = Reply::Was(value_of(rt, alloc, number, len));
        add(rt, turn, Op::Delete(letter(rt, alloc, text)), was);
        number = number.wrapping_add(1);
    }
}

fn deletes<R: Abort>(rt: &R, alloc: Alloc, first: u8, len: usize) -> Turn {
    let mut turn = no_operation(alloc);
    add_deletes(rt, alloc, &mut turn, first, len);
    turn
}

// What a scan of all letters is answered.
fn all_pairs<R: Abort>(rt: &R, alloc: Alloc, first: u8, len: usize) -> Reply {
    let mut pairs = Vec::new(alloc);
    let mut number = first;
    for &text in LETTERS {
        let pair = (letter(rt, alloc, text), value_of(rt, alloc, number, len));
        pairs.push(pair).expect(rt, "memory");
        number = number.wrapping_add(1);
    }
    Reply::Pairs(pairs_of(alloc, &pairs).expect(rt, "memory"))
}

fn scan<R: Abort>(rt: &R, alloc: Alloc) -> Op {
    Op::Scan {
        from: letter(rt, alloc, ""),
        to: None,
        most: 9,
    }
}

// A scan of all letters, and deletes of them.
fn scan_and_deletes<R: Abort>(rt: &R, alloc: Alloc, first: u8, len: usize) -> Turn {
    let mut turn = no_operation(alloc);
    let pairs = all_pairs(rt, alloc, first, len);
    add(rt, &mut turn, scan(rt, alloc), pairs);
    add_deletes(rt, alloc, &mut turn, first, len);
    turn
}

// Five letters come and go, and come with other values and go again.
fn turns<R: Abort>(rt: &R, alloc: Alloc, len: usize) -> Vec<Turn, Alloc> {
    let mut turns = Vec::new(alloc);
    for turn in [
        inserts(rt, alloc, 1, len),
        deletes(rt, alloc, 1, len),
        inserts(rt, alloc, 6, len),
        scan_and_deletes(rt, alloc, 6, len),
    ] {
        turns.push(turn).expect(rt, "memory");
    }
    turns
}

// Small pages, by so many workers: one write in a chain, and four pairs.
fn small<R: Abort>(rt: &R, workers: u64) -> Options {
    Options::new(workers, 1, 1, 4, 1, 65536, 1048576).expect(rt, "options")
}

fn empty_index<R: Abort>(rt: &R, alloc: Alloc, options: Options) -> Index {
    Index::new(alloc, options).expect(rt, "an index")
}

// Compares what a batch was answered.
fn answers<R: Abort>(rt: &R, done: &Done, turn: &Turn) {
    let replies = done.replies.as_slice();
    assert_equal(rt, replies.len(), turn.replies.len());
    for (reply, wanted) in replies.iter().zip(&turn.replies) {
        assert_equal(rt, reply, wanted);
    }
}

// Runs a batch with ample memory.
fn run<R: Abort + Threads + Sync>(rt: &R, index: &mut Index, turn: &Turn) {
    let done = index.run(rt, &turn.ops, &OpenGate).expect(rt, "memory");
    assert_that(rt, !done.tidy.stopped);
    answers(rt, &done, turn);
}

// The index is one leaf without pairs and writes.
fn is_empty_leaf<R: Abort>(rt: &R, index: &Index) {
    let shape = index.shape().expect(rt, "memory");
    assert_equal(rt, shape.len(), 1);
    assert_that(
        rt,
        shape[0].level == 0 && shape[0].pairs == 0 && shape[0].writes == 0,
    );
    assert_that(rt, index.is_empty());
}

// Five letters are on two leaves under a root.
fn is_on_two_leaves<R: Abort>(rt: &R, index: &Index) {
    let shape = index.shape().expect(rt, "memory");
    assert_eq!(rt; shape.len(), 3);
    assert!(rt; shape[0].pairs == 2 && shape[1].pairs == 3 && shape[2].pairs == 2);
    assert_eq!(rt; index.len(), 5);
}

// Compares the pages behind the batch at a place.
fn has_pages<R: Abort>(rt: &R, index: &Index, place: usize) {
    if place % 2 == 0 {
        is_on_two_leaves(rt, index);
    } else {
        is_empty_leaf(rt, index);
    }
}

// Runs the batches from one place up to another.
fn run_each<R: Abort + Threads + Sync>(
    rt: &R,
    index: &mut Index,
    turns: &[Turn],
    from: usize,
    to: usize,
) {
    for place in from..to.min(turns.len()) {
        run(rt, index, &turns[place]);
        has_pages(rt, index, place);
    }
}

#[test]
fn letters_with_the_longest_values_come_and_go_twice(rt: HostRuntime) {
    let alloc = heap(rt.alloc()).expect(&rt, "a heap");
    let turns = turns(&rt, alloc, LONGEST);
    for workers in [1, 2, 16, 64] {
        let mut index = empty_index(&rt, alloc, small(&rt, workers));
        run_each(&rt, &mut index, &turns, 0, 4);
    }
}

// What an index has before a batch.
#[derive(Drop)]
struct Before {
    next: u64,
    records: usize,
    heads: Vec<u64, Alloc>,
    len: u64,
}

fn state_of<R: Abort>(rt: &R, alloc: Alloc, index: &Index) -> Before {
    let tree = index.tree();
    Before {
        next: tree.next_stamp(),
        records: tree.records(),
        heads: Vec::from_slice(alloc, tree.heads()).expect(rt, "memory"),
        len: index.len(),
    }
}

// The index is as it was.
fn stands<R: Abort>(rt: &R, index: &Index, before: &Before) {
    let tree = index.tree();
    assert_equal(rt, tree.next_stamp(), before.next);
    assert_equal(rt, tree.records(), before.records);
    assert_equal(rt, tree.heads(), before.heads.as_slice());
    assert_equal(rt, index.len(), before.len);
}

// A get of each letter, and a scan of all, where they have values from this one on.
fn reads<R: Abort>(rt: &R, alloc: Alloc, first: u8, len: usize) -> Turn {
    let mut turn = no_operation(alloc);
    let mut number = first;
    for &text in LETTERS {
        let found = Reply::Found(value_of(rt, alloc, number, len));
        add(rt, &mut turn, Op::Get(letter(rt, alloc, text)), found);
        number = number.wrapping_add(1);
    }
    let pairs = all_pairs(rt, alloc, first, len);
    add(rt, &mut turn, scan(rt, alloc), pairs);
    turn
}

// The same where there are no letters.
fn reads_of_none<R: Abort>(rt: &R, alloc: Alloc) -> Turn {
    let mut turn = no_operation(alloc);
    for &text in LETTERS {
        let get = Op::Get(letter(rt, alloc, text));
        add(rt, &mut turn, get, Reply::Absent);
    }
    let pairs = pairs_of(alloc, &[]).expect(rt, "memory");
    add(rt, &mut turn, scan(rt, alloc), Reply::Pairs(pairs));
    turn
}

// What is read behind the batch at each place.
fn reads_behind<R: Abort>(rt: &R, alloc: Alloc, len: usize) -> Vec<Turn, Alloc> {
    let mut turns = Vec::new(alloc);
    for turn in [
        reads(rt, alloc, 1, len),
        reads_of_none(rt, alloc),
        reads(rt, alloc, 6, len),
        reads_of_none(rt, alloc),
    ] {
        turns.push(turn).expect(rt, "memory");
    }
    turns
}

// Batches, what is read behind each, and with which options.
#[derive(Drop)]
struct Story {
    turns: Vec<Turn, Alloc>,
    reads: Vec<Turn, Alloc>,
    options: Options,
}

fn story_of<R: Abort>(rt: &R, alloc: Alloc, options: Options, len: usize) -> Story {
    Story {
        turns: turns(rt, alloc, len),
        reads: reads_behind(rt, alloc, len),
        options,
    }
}

// Runs a batch where this growth is refused: it is refused whole, and run again, or it stands and tidying may stop. Whether
// the growth was refused.
fn run_refused<R: Abort + Threads + Sync>(
    rt: &R,
    alloc: Alloc,
    index: &mut Index,
    turn: &Turn,
    growth: u64,
) -> bool {
    let before = state_of(rt, alloc, index);
    alloc.refuse(growth);
    let outcome = index.run(rt, &turn.ops, &OpenGate);
    let refused = was_refused(alloc, growth);
    match outcome {
        Ok(done) => {
            assert_that(rt, refused || !done.tidy.stopped);
            answers(rt, &done, turn);
        }
        Err(refusal) => {
            assert_that(rt, refused && refusal == Refusal::Memory);
            stands(rt, index, &before);
            run(rt, index, turn);
        }
    }
    refused
}

// Tells a story where this growth of the batch at a place is refused: what is read behind it is right, an empty batch has
// tidying go on to its end, and so do the batches that follow. Whether the growth was refused.
fn is_refused<R: Abort + Threads + Sync>(
    rt: &R,
    alloc: Alloc,
    story: &Story,
    place: usize,
    growth: u64,
) -> bool {
    let mut index = empty_index(rt, alloc, story.options);
    run_each(rt, &mut index, &story.turns, 0, place);
    let turn = story.turns.get(place).expect(rt, "a batch");
    let refused = run_refused(rt, alloc, &mut index, turn, growth);
    run(
        rt,
        &mut index,
        story.reads.get(place).expect(rt, "what is read"),
    );
    run(rt, &mut index, &no_operation(alloc));
    has_pages(rt, &index, place);
    run_each(rt, &mut index, &story.turns, place.saturating_add(1), 4);
    refused
}

// Refuses each growth of the batch at a place in turn.
fn refuse_in_turn<R: Abort + Threads + Sync>(rt: &R, alloc: Alloc, story: &Story, place: usize) {
    for growth in 1..1000 {
        if !is_refused(rt, alloc, story, place, growth) {
            assert_that(rt, growth > 20);
            return;
        }
    }
    panic!(rt; "no batch met no refusal");
}

// The same for each batch with these options.
fn refuse_each<R: Abort + Threads + Sync>(rt: &R, alloc: Alloc, options: Options, len: usize) {
    let story = story_of(rt, alloc, options, len);
    for place in 0..4usize {
        refuse_in_turn(rt, alloc, &story, place);
    }
}

#[test]
fn letters_that_come_and_go_twice_meet_each_refusal(rt: HostRuntime) {
    let alloc = heap(rt.alloc()).expect(&rt, "a heap");
    refuse_each(&rt, alloc, small(&rt, 1), SHORT);
}

#[test]
fn letters_that_four_workers_post_meet_each_refusal(rt: HostRuntime) {
    let alloc = heap(rt.alloc()).expect(&rt, "a heap");
    refuse_each(&rt, alloc, small(&rt, 4), SHORT);
}

#[test]
fn letters_with_the_longest_values_meet_each_refusal(rt: HostRuntime) {
    let alloc = heap(rt.alloc()).expect(&rt, "a heap");
    refuse_each(&rt, alloc, small(&rt, 1), LONGEST);
}

#[test]
fn the_longest_values_that_four_workers_post_meet_each_refusal(rt: HostRuntime) {
    let alloc = heap(rt.alloc()).expect(&rt, "a heap");
    refuse_each(&rt, alloc, small(&rt, 4), LONGEST);
}

#[test]
fn letters_beside_consolidations_meet_each_refusal(rt: HostRuntime) {
    let alloc = heap(rt.alloc()).expect(&rt, "a heap");
    refuse_each(&rt, alloc, small(&rt, 1).with_beside(true), SHORT);
    refuse_each(&rt, alloc, small(&rt, 4).with_beside(true), SHORT);
}
