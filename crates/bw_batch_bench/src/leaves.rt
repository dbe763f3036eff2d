//! Leaves side by side, of which a tree is made.
ghost use Rattle.std.specs.Prelude.{◌≡◌, [], None, IfOk};
ghost use Rattle.bw_page.specs.Pages.{IsPage};
ghost use Rattle.bw_tree.specs.Making.{AreAbutting};

use crate::workload::{key, least_key};
use anyhow::{Result, bail};
use bw_batch::{Key, Leaf, PageId, Pairs};
use bw_memory::Alloc;
use std::ops::Range;

// Keys of a leaf.
const LEAF: u64 = 44;

// No leaf has a greater place: the last one has all further keys.
const PLACE_MAX: u64 = 1_000_000;

// Bytes of a pair's key and value.
const PAIR: usize = 16;

/// What leaves have from the start.
#[derive(Clone, Copy, PartialEq, Eq)]
pub enum Filling {
    /// No pair.
    Empty,
    /// A pair for each of their keys, with the key's number as its value, and no room for more.
    Full,
}

/// Leaves side by side, for so many keys. They are made from the last to the first.
pub fn leaves_for(alloc: Alloc, keys: u64, filling: Filling) -> Result<Vec<Leaf, Alloc>>
    ensures { IfOk result (λ leaves. AreAbutting 0 [] leaves.items) }
{
    let mut place = (keys.saturating_sub(1) / LEAF).min(PLACE_MAX) as u32;
    let mut low = low_of(alloc, place)?;
    let mut leaves = Vec::new(alloc);
    leaves.push(leaf_from(low.copy()?, first_at(place)..keys, filling, alloc)?)?;
    while place > 0 {
        let side = PageId(place);
        let numbers = first_at(place - 1)..first_at(place);
        let high = low;
        place -= 1;
        low = low_of(alloc, place)?;
        if !(low < high) {
            bail!("leaves out of order");
        }
        let mut leaf = leaf_from(low.copy()?, numbers, filling, alloc)?;
        leaf.narrow(high, side);
        leaves.push(leaf)?;
    }
    leaves.reverse();
    Ok(leaves)
}

// The number of the first key of the leaf at a place.
fn first_at(place: u32) -> u64 {
    place as u64 * LEAF
}

// Where the leaf at a place begins, the first one at the least key.
fn low_of(alloc: Alloc, place: u32) -> Result<Key>
    ensures { IfOk result (λ key. place ≡ 0 → key ≡ []) }
{
    if place == 0 {
        return least_key(alloc);
    }
    key(alloc, first_at(place))
}

// The leaf of the keys of these numbers from a low key on, without an end.
fn leaf_from(low: Key, numbers: Range<u64>, filling: Filling, alloc: Alloc) -> Result<Leaf>
    ensures low { IfOk result (λ leaf. leaf.low ≡ low) }
    ensures high { IfOk result (λ leaf. leaf.high ≡ None) }
    ensures side { IfOk result (λ leaf. leaf.side ≡ None) }
{
    let pairs = match filling {
        Filling::Empty => Pairs::new(alloc),
        Filling::Full => pairs_of(alloc, &low, numbers)?,
    };
    Ok(Leaf::from_pairs(low, None, None, pairs))
}

// The pairs of the keys of these numbers, none of which is below a low key.
fn pairs_of(alloc: Alloc, low: &Key, numbers: Range<u64>) -> Result<Pairs>
    ensures { IfOk result (λ pairs. IsPage low.now None None pairs) }
{
    let count = numbers.end.saturating_sub(numbers.start) as usize;
    let mut pairs = Pairs::with_capacity(alloc, count, count.saturating_mul(PAIR))?;
    let mut next = key(alloc, numbers.start)?;
    if next < *low {
        bail!("a key before its leaf");
    }
    for number in numbers {
        let end = key(alloc, number.wrapping_add(1))?;
        if !(next < end) {
            bail!("keys out of order");
        }
        pairs.push(next.bytes(), &number.to_be_bytes())?;
        next = end;
    }
    Ok(pairs)
}
