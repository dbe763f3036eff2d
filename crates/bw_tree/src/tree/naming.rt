// Index entries for several pages at once.
ghost use Rattle.std.specs.Prelude.{◌≡◌, T, None, map, IfOk, OnOk, OnErr};
ghost use Rattle.std.specs.FinMap.{is_sorted};
ghost use Rattle.bw_key.specs.Order.{key_cmp};
ghost use Rattle.bw_delta.specs.declared.deltas.Delta.TheVariants.{AddChild};
ghost use Rattle.bw_level.specs.Searches.{plain_inner};
ghost use Rattle.bw_level.specs.Slots.{PageState, Live, slot_at};

use super::Tree;
use bw_delta::Delta;
use bw_key::{Key, Memory};
use bw_memory::Alloc;
use bw_page::{Inner, Page, PageId};

impl Tree {
    ghost use Rattle.bw_tree.specs.TreeChildren.{AreNamed, MayHaveChildren, state_with_children};
    ghost use Rattle.bw_look.specs.Routing.{IsInnerPage};

    /// Lets an inner page name several pages of the level below, as after many splits of one page: what `set_child` would do
    /// for each of them, one after another, with one copy of the page's children. Each entry is a page with the key at which
    /// it begins, a key of the inner page's range above its low key, and these keys rise. No batch is staged.
    ///
    /// The children as they stand and the entries become the page's base page, and no record stands over it any more. There is
    /// a record more for each entry all the same, which no chain names: records are counted as `set_child` makes them. It
    /// costs a copy of the page's children, a second one where it had a record, and a binary search for each entry. After
    /// `Memory` the tree is as before.
    pub fn name_all(
        &mut self,
        parent: PageId,
        entries: Vec<(Key, PageId), Alloc>,
    ) -> Result<(), Memory>
        requires none { self.old.staged ≡ None }
        requires page { IsInnerPage self.old parent }
        requires rising { T (is_sorted key_cmp entries.items) }
        requires fit { MayHaveChildren self.old parent entries.items }
        ensures ok { OnOk result (AreNamed self.old self.new parent entries.entry.items) }
        ensures err { OnErr result (self.new ≡ self.old) }
    {
        let page = self.inner_with(parent, &entries)?;
        let deltas = added_children(*self.heads.allocator(), entries)?;
        let head = self.heads[parent.0 as usize];
        self.chains.add_records(deltas, head)?;
        self.chains.replace_base(parent, Page::Inner(page));
        self.heads[parent.0 as usize] = parent.0 as u64;
        Ok(())
    }

    // An inner page with these entries among its children.
    fn inner_with(&self, parent: PageId, entries: &[(Key, PageId)]) -> Result<Inner, Memory>
        requires page { IsInnerPage self.now parent }
        requires rising { T (is_sorted key_cmp entries.now) }
        requires fit { MayHaveChildren self.now parent entries.now }
        ensures { IfOk result (λ page. (was : PageState) → slot_at self.now.slots parent ≡ Live was →
            plain_inner page ≡ Live (state_with_children entries.now was)) }
    {
        let tree = self.look();
        match tree.inner(parent) {
            Some(inner) => inner.with_children(entries),
            None => tree.inner_page(parent)?.with_children(entries),
        }
    }
}

// The changes by which a page is given these children, one for each.
fn added_children(
    alloc: Alloc,
    entries: Vec<(Key, PageId), Alloc>,
) -> Result<Vec<Delta, Alloc>, Memory>
    ensures { IfOk result (λ deltas. deltas.items ≡ map (λ e. AddChild e.0 e.1) entries.entry.items) }
{
    let mut deltas = Vec::with_capacity(alloc, entries.len())?;
    for (sep, child) in entries {
        deltas.push(Delta::AddChild { sep, child })?;
    }
    Ok(deltas)
}
