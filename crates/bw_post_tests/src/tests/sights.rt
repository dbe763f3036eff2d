// What a tree is compared with.
use super::making::{Found, Pair, has, holds, stands};
use super::shapes::{Wanted, has_pages};
use crate::tests::assertions::{assert_equal, assert_that};
use bw_fixtures::{are, key};
use bw_key::Key;
use bw_memory::Alloc;
use bw_page::PageId;
use bw_post::Tree;
use std::process::Abort;

/// Where a scan begins and ends, how many pairs it wants, and as of which stamp it is.
#[derive(Clone, Copy)]
pub struct Range {
    pub from: &'static [u8],
    pub to: Option<&'static [u8]>,
    pub most: u64,
    pub stamp: u64,
}

/// What a tree is compared with.
#[derive(Clone, Copy)]
pub enum Sight {
    /// Its mapping words, how many records it has, and its next stamp.
    Stands(&'static [u64], usize, u64),
    /// Its mapping words.
    Heads(&'static [u64]),
    /// How many records it has.
    Records(usize),
    /// Its pages.
    Pages(&'static [Wanted]),
    /// How many entries page 0 has.
    Entries(usize),
    /// The values at keys as of a stamp.
    Has(u64, &'static [Found]),
    /// The pairs of all keys as of a stamp.
    Holds(u64, &'static [Pair]),
    /// The pairs of all keys behind all batches: the letters from one on and below another, each with itself as its value.
    Letters(u8, u8),
    /// The pairs of a range.
    Scans(Range, &'static [Pair]),
    /// The pairs of a range from its end.
    ScansBack(Range, &'static [Pair]),
}

/// Compares a tree.
pub fn compare<R: Abort>(rt: &R, alloc: Alloc, tree: &Tree, sight: Sight) {
    match sight {
        Sight::Stands(heads, records, next) => stands(rt, tree, heads, records, next),
        Sight::Heads(heads) => assert_equal(rt, tree.heads(), heads),
        Sight::Records(count) => assert_equal(rt, tree.records(), count),
        Sight::Pages(pages) => has_pages(rt, tree, pages),
        Sight::Entries(count) => has_entries(rt, tree, count),
        Sight::Has(stamp, values) => has(rt, alloc, tree, stamp, values),
        Sight::Holds(stamp, pairs) => holds(rt, alloc, tree, stamp, pairs),
        Sight::Letters(from, to) => reads_letters(rt, alloc, tree, from, to),
        Sight::Scans(range, pairs) => scans(rt, alloc, tree, range, pairs),
        Sight::ScansBack(range, pairs) => scans_back(rt, alloc, tree, range, pairs),
    }
}

// Compares how many entries page 0 has.
fn has_entries<R: Abort>(rt: &R, tree: &Tree, wanted: usize) {
    assert!(rt; tree.heads().len() > 0);
    assert_equal(rt, tree.entries(PageId(0)), wanted);
}

// Whether a key and a value are those of a letter.
fn are_of(at: &[u8], bytes: &[u8], letter: u8) -> bool {
    at == [letter].as_slice() && bytes == [letter].as_slice()
}

// Compares the pairs of all keys, behind all batches, with those of these letters.
fn reads_letters<R: Abort>(rt: &R, alloc: Alloc, tree: &Tree, from: u8, to: u8) {
    let least = key_of(rt, alloc, b"");
    let read = tree
        .scan_at(&least, None, 99, tree.next_stamp())
        .expect(rt, "the pairs");
    assert!(rt; read.len() == to.saturating_sub(from) as usize);
    for place in 0..read.len() {
        let letter = from.wrapping_add(place as u8);
        assert!(rt; are_of(read.key_at(place), read.value_at(place), letter));
    }
}

// The key of these bytes.
fn key_of<R: Abort>(rt: &R, alloc: Alloc, bytes: &[u8]) -> Key {
    key(alloc, bytes).expect(rt, "a key")
}

// The key of these bytes, if there are any.
fn end_of<R: Abort>(rt: &R, alloc: Alloc, bytes: Option<&'static [u8]>) -> Option<Key> {
    match bytes {
        Some(bytes) => Some(key_of(rt, alloc, bytes)),
        None => None,
    }
}

// Compares the pairs of a range.
fn scans<R: Abort>(rt: &R, alloc: Alloc, tree: &Tree, range: Range, wanted: &[Pair]) {
    let from = key_of(rt, alloc, range.from);
    let to = end_of(rt, alloc, range.to);
    let pairs = tree.scan_at(&from, to.as_ref(), range.most, range.stamp);
    assert_that(rt, are(&pairs.expect(rt, "memory"), wanted));
}

// Compares the pairs of a range from its end.
fn scans_back<R: Abort>(rt: &R, alloc: Alloc, tree: &Tree, range: Range, wanted: &[Pair]) {
    let from = key_of(rt, alloc, range.from);
    let to = end_of(rt, alloc, range.to);
    let pairs = tree.rscan_at(&from, to.as_ref(), range.most, range.stamp);
    assert_that(rt, are(&pairs.expect(rt, "memory"), wanted));
}
