// Leaves of a pair or two.
ghost use Rattle.std.specs.Prelude.{◌≡◌, [], ◌∷◌, IfOk};
ghost use Rattle.bw_fixtures.specs.SampleLeaves.{leaf_from_c, leaf_from_e, leaf_up_to_c, whole_leaf};

use crate::sample_pairs::{key, one, pair, two};
use bw_key::Memory;
use bw_memory::Alloc;
use bw_page::{Leaf, PageId};

/// The leaf up to `c`, with page 1 at its right: a 1, b 2. It takes two growths, and answers `Memory` where one of them is
/// refused.
pub fn up_to_c(alloc: Alloc) -> Result<Leaf, Memory>
    ensures { IfOk result (λ leaf. leaf ≡ leaf_up_to_c) }
{
    let pairs = two(alloc, pair(alloc, b"a", b"1")?, pair(alloc, b"b", b"2")?)?;
    let (low, high) = (key(alloc, b"")?, key(alloc, b"c")?);
    Ok(Leaf::from_pairs(low, Some(high), Some(PageId(1)), pairs))
}

/// The leaf from `c` on and below `e`, with page 2 at its right: this value at `c`. It takes two growths, and one more for
/// a value of more than 24 bytes, and answers `Memory` where one of them is refused.
pub fn from_c(alloc: Alloc, bytes: &[u8]) -> Result<Leaf, Memory>
    ensures { IfOk result (λ leaf. leaf ≡ leaf_from_c bytes.now) }
{
    let pairs = one(alloc, pair(alloc, b"c", bytes)?)?;
    let (low, high) = (key(alloc, b"c")?, key(alloc, b"e")?);
    Ok(Leaf::from_pairs(low, Some(high), Some(PageId(2)), pairs))
}

/// The leaf from `e` on: e 5. It takes two growths, and answers `Memory` where one of them is refused.
pub fn from_e(alloc: Alloc) -> Result<Leaf, Memory>
    ensures { IfOk result (λ leaf. leaf ≡ leaf_from_e) }
{
    let pairs = one(alloc, pair(alloc, b"e", b"5")?)?;
    Ok(Leaf::from_pairs(key(alloc, b"e")?, None, None, pairs))
}

/// Three leaves side by side, each page at its place: a 1 and b 2; this value at `c`; e 5. They take two growths each, one for
/// their list, and one more for a value of more than 24 bytes. `Memory` is answered where one of them is refused.
pub fn three_leaves(alloc: Alloc, bytes: &[u8]) -> Result<Vec<Leaf, Alloc>, Memory>
    ensures { IfOk result (λ leaves. leaves.items ≡ leaf_up_to_c ∷ leaf_from_c bytes.now ∷ leaf_from_e ∷ []) }
{
    let mut leaves = Vec::new(alloc);
    leaves.push(up_to_c(alloc)?)?;
    leaves.push(from_c(alloc, bytes)?)?;
    leaves.push(from_e(alloc)?)?;
    Ok(leaves)
}

/// The leaf of all keys, with this value at `a`. It takes two growths, and one more for a value of more than 24 bytes, and
/// answers `Memory` where one of them is refused.
pub fn leaf_of(alloc: Alloc, bytes: &[u8]) -> Result<Leaf, Memory>
    ensures { IfOk result (λ leaf. leaf ≡ whole_leaf bytes.now) }
{
    let pairs = one(alloc, pair(alloc, b"a", bytes)?)?;
    Ok(Leaf::from_pairs(key(alloc, b"")?, None, None, pairs))
}
