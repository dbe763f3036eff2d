// The parts of a tree that is made of leaves.
ghost use Rattle.std.specs.Prelude.{◌≡◌, ◌≤◌, ◌^◌, length, map, IfOk, OnOk};
ghost use Rattle.std.specs.List.{AllByRecursion};
ghost use Rattle.bw_look.specs.PageStates.{HasRules};
ghost use Rattle.bw_tree.specs.Making.{base_of_leaf, count_from, terms_from};

use bw_key::Memory;
use bw_memory::Alloc;
use bw_page::{Children, Leaf, Page, PageId};
use bw_segment::Segmented;

/// The separators of a root over leaves: their low keys, each with the place of its leaf.
pub(crate) fn separators(alloc: Alloc, leaves: &[Leaf]) -> Result<Children, Memory>
    requires { length leaves.now ≤ 2 ^ 32 }
    ensures items { IfOk result (λ children. children ≡ terms_from 0 leaves.now) }
    ensures rules { OnOk result (AllByRecursion HasRules leaves.now) }
{
    let mut children = Children::with_capacity(alloc, leaves.len(), low_byte_count(leaves))?;
    for (place, leaf) in leaves.iter().enumerate() {
        children.push(leaf.low(), PageId(place as u32))?;
    }
    Ok(children)
}

// How many bytes the low keys of leaves have together.
fn low_byte_count(leaves: &[Leaf]) -> usize {
    let mut count: usize = 0;
    for leaf in leaves {
        count = count.saturating_add(leaf.low().bytes().len());
    }
    count
}

/// Leaves as base pages.
pub(crate) fn base_pages(
    alloc: Alloc,
    leaves: Vec<Leaf, Alloc>,
) -> Result<Segmented<Option<Page>>, Memory>
    ensures { IfOk result (λ bases. bases.items ≡ map base_of_leaf leaves.entry.items) }
{
    let mut bases = Segmented::new(alloc);
    for leaf in leaves {
        bases.push(Some(Page::Leaf(leaf)))?;
    }
    Ok(bases)
}

/// The words of so many base pages.
pub(crate) fn words(alloc: Alloc, count: u64) -> Result<Vec<u64, Alloc>, Memory>
    ensures { IfOk result (λ words. words.items ≡ count_from 0 count) }
{
    let mut words = Vec::new(alloc);
    for word in 0..count {
        words.push(word)?;
    }
    Ok(words)
}
