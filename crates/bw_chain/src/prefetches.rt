// Pages that are read before they are asked for.
use crate::chains::Chains;
use bw_delta::Delta;
use bw_page::{Leaf, Page, PageId};

// So many records of a chain are read ahead, twice the default limit of a chain's writes. Most of those of a longer chain are
// one batch's, and lie side by side.
const RECORDS: usize = 16;

// So many short pairs have their keys in one line of memory.
const PAIRS_OF_A_LINE: usize = 4;

// Of a large page at least so many keys are read ahead.
const KEYS: usize = 32;

impl Chains {
    /// Reads what a search of a leaf is about to read: up to 16 of the newest records of its chain, and up to 40 keys of its
    /// base page. Whoever does so for some leaves before it searches the first of them waits for their memory once, and not
    /// for one leaf after another. It takes no memory.
    ///
    /// What is answered is made of what was read, and says nothing. The compiler drops reads of which nothing is used, so
    /// callers use it as a guess that may be any number.
    pub fn prefetch(&self, page: PageId, head: u64) -> usize {
        let records = self.prefetch_records(head);
        match self.base(u64::from(page.0)) {
            Some(Page::Leaf(leaf)) => records.wrapping_add(prefetch_pairs(leaf)),
            _ => records,
        }
    }

    // Reads the newest records of a chain.
    fn prefetch_records(&self, head: u64) -> usize {
        let mut word = head;
        let mut sum = 0usize;
        for _ in 0..RECORDS {
            let Some((delta, under)) = self.record(word) else {
                return sum;
            };
            sum = sum.wrapping_add(stamp_of(delta));
            word = under;
        }
        sum
    }
}

// The stamp of a write, and 0 for another change.
fn stamp_of(delta: &Delta) -> usize {
    match delta {
        Delta::Put(write) => write.stamp() as usize,
        _ => 0,
    }
}

// Reads each fourth key of a page, or fewer of a large one, up to 40 in all.
fn prefetch_pairs(leaf: &Leaf) -> usize {
    let pairs = leaf.pairs();
    let step = (pairs.len() / KEYS).max(PAIRS_OF_A_LINE);
    let mut place = 0;
    let mut sum = 0usize;
    while place < pairs.len() {
        sum = sum.wrapping_add(first_byte(pairs.key_at(place)));
        place = place.saturating_add(step);
    }
    sum
}

// The first byte of a key, and 0 for the empty key.
fn first_byte(key: &[u8]) -> usize {
    match key.first() {
        Some(byte) => usize::from(*byte),
        None => 0,
    }
}
