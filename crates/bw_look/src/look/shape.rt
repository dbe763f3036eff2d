// The list of a tree's pages.
ghost use Rattle.std.specs.Prelude.{◌≡◌, ℕ, ◌+◌, ◌<◌, ◌≤◌, ◌++◌, [], length, IfOk, OnOk};
ghost use Rattle.std.specs.List.{Contains};
ghost use Rattle.std.specs.Option.{option_copied};
ghost use Rattle.bw_level.specs.Levels.{IsHomeAt, row};
ghost use Rattle.bw_level.specs.Reading.{pairs_under, writes_over};
ghost use Rattle.bw_level.specs.Slots.{slot_at};
ghost use Rattle.bw_look.specs.Routing.{IsInLevel};
ghost use Rattle.bw_look.specs.Shapes.{level_shape, page_shape, pairs_on, shape_of};

use super::Look;
use super::page_states::copy_end;
use bw_key::{Key, Memory};
use bw_memory::Alloc;
use bw_page::PageId;

/// A page of a level, as `Look::shape` lists it.
#[derive(Debug, Drop)]
pub struct PageShape {
    /// Its identifier.
    pub page: PageId,
    /// 0 for a leaf, and one more for each level above.
    pub level: u32,
    /// Where its range begins.
    pub low: Key,
    /// Where its range ends, if it ends.
    pub high: Option<Key>,
    /// A leaf's pairs as of the next stamp, or an inner page's children.
    pub pairs: usize,
    /// The writes over a leaf's base page.
    pub writes: usize,
}

impl<'a> Look<'a> {
    /// The pages of all levels, the lowest level first, each level in the order of keys.
    ///
    /// It is a picture for people and tests, and not for the hot path. It costs a search for each level, and for each page
    /// some walks along its chain and copies of its bounds. Of a leaf it sorts the writes and copies all pairs too, and of
    /// an inner page its children. The writes of an adopted batch are listed over their leaves, and count among the pairs
    /// once the batch is accepted. `Memory` is answered where a list or a copy finds none.
    pub fn shape(&self) -> Result<Vec<PageShape, Alloc>, Memory>
        ensures { IfOk result (λ shape. shape.items ≡ shape_of self.now) }
    {
        let mut shape = Vec::new(*self.heads.allocator());
        let top = self.root_level();
        let mut level = 0;
        loop {
            self.add_level(level, &mut shape)?;
            if level == top {
                return Ok(shape);
            }
            level += 1;
        }
    }

    /// A leaf has no more pairs than its base page and the writes over it together. It does nothing: its contract says it.
    pub fn know_pairs(&self)
        ensures { (p : ℕ) → Contains (row self.now.levels 0) p → pairs_on self.now (slot_at self.now.slots p)
            ≤ length (pairs_under (slot_at self.now.slots p)) + length (writes_over (slot_at self.now.slots p)) }
    {
        // A look at a field is what makes the type's rule known here.
        let _ = &self.root;
    }

    // Adds the pages of a level to a list. After `Memory` some may have been added.
    fn add_level(&self, level: u32, shape: &mut Vec<PageShape, Alloc>) -> Result<(), Memory>
        requires { level < length self.now.levels }
        ensures { OnOk result (shape.new.items ≡ shape.old.items ++ level_shape self.now level) }
    {
        for page in &self.level_pages(level)? {
            shape.push(self.page_shape(level, *page)?)?;
        }
        Ok(())
    }

    /// The level of the root: 0 where it is a leaf, and one more for each level above the leaves.
    pub fn root_level(&self) -> u32
        ensures { result + 1 ≡ length self.now.levels }
    {
        self.know_levels();
        self.level(self.root)
    }

    /// The pages of a level, in the order of keys. It costs a search, and for each page a walk along its chain. `Memory` is
    /// answered where the list finds none.
    pub fn level_pages(&self, level: u32) -> Result<Vec<PageId, Alloc>, Memory>
        requires { level < length self.now.levels }
        ensures { IfOk result (λ pages. pages.items ≡ row self.now.levels level) }
    {
        self.know_levels();
        let mut pages = Vec::new(*self.heads.allocator());
        let mut page = self.first_page(level);
        loop {
            pages.push(page)?;
            let Some(next) = self.right_of(page) else {
                return Ok(pages);
            };
            page = next;
        }
    }

    /// The page of a level that has the least key.
    pub(super) fn first_page(&self, level: u32) -> PageId
        requires { level < length self.now.levels }
        ensures { IsHomeAt self.now.slots self.now.levels [] level result }
    {
        let least = Key::new(*self.heads.allocator(), &[]).unwrap();
        let Some(page) = self.above(level, &least) else {
            unreachable!();
        };
        page
    }

    // A page of a level.
    fn page_shape(&self, level: u32, page: PageId) -> Result<PageShape, Memory>
        requires { IsInLevel self.now page level }
        ensures { IfOk result (λ shape. shape ≡ page_shape self.now level page) }
    {
        if level == 0 {
            return self.leaf_shape(page);
        }
        self.inner_shape(level, page)
    }

    // A leaf.
    fn leaf_shape(&self, page: PageId) -> Result<PageShape, Memory>
        requires { Contains (row self.now.levels 0) page }
        ensures { IfOk result (λ shape. shape ≡ page_shape self.now 0 page) }
    {
        self.know_levels();
        let alloc = *self.heads.allocator();
        let leaf = self.leaf(alloc, page)?;
        let low = leaf.base.low();
        let pairs = leaf.pairs_as_of(alloc, low, leaf.end, self.next)?;
        shape_from(page, 0, low, leaf.end, pairs.len(), leaf.writes.len())
    }

    // An inner page.
    fn inner_shape(&self, level: u32, page: PageId) -> Result<PageShape, Memory>
        requires page { IsInLevel self.now page level }
        requires inner { 0 < level }
        ensures { IfOk result (λ shape. shape ≡ page_shape self.now level page) }
    {
        let inner = self.chains.inner_page(self.heads[page.0 as usize])?;
        shape_from(
            page,
            level,
            inner.low(),
            inner.high(),
            inner.children().len(),
            0,
        )
    }
}

// A page of these bounds and numbers.
fn shape_from(
    page: PageId,
    level: u32,
    low: &Key,
    high: Option<&Key>,
    pairs: usize,
    writes: usize,
) -> Result<PageShape, Memory>
    ensures { IfOk result (λ shape. shape ≡ record {
      page = page;
      level = level;
      low = low.now;
      high = option_copied high.entry;
      pairs = pairs;
      writes = writes;
    }) }
{
    Ok(PageShape {
        page,
        level,
        low: low.copy()?,
        high: copy_end(high)?,
        pairs,
        writes,
    })
}
