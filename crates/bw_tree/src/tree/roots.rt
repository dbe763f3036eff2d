// Roots that grow.
ghost use Rattle.std.specs.Prelude.{◌≡◌, true, None, is_some, IfOk, OnErr};
ghost use Rattle.bw_level.specs.Roots.{two_children};
ghost use Rattle.bw_level.specs.Slots.{side_of};

use super::Tree;
use crate::mapping_words::put_own;
use bw_key::{Key, Memory};
use bw_memory::Alloc;
use bw_page::{Children, Inner, Page, PageId};

impl Tree {
    ghost use Rattle.bw_tree.specs.TreeRoots.{HasNewRoot, IsOverRoot};

    /// Puts a new root over a root that was split: the old root and its right neighbour are its children, and the tree has
    /// one level more. The identifier of the new root is answered. No batch is staged.
    ///
    /// Other pages of the old root's level, if it has more, are come to by side links until they are named. It costs a
    /// walk along the old root's chain and a copy of one key. `Memory` is answered where a list finds none, and where no
    /// identifier or no higher level is left; the tree is as before.
    pub fn new_root(&mut self) -> Result<PageId, Memory>
        requires none { self.old.staged ≡ None }
        requires neighbour { is_some (side_of self.old.slots self.old.root) ≡ true }
        ensures ok { IfOk result (HasNewRoot self.old self.new) }
        ensures err { OnErr result (self.new ≡ self.old) }
    {
        let page = self.page_over_root()?;
        self.put_root(page)
    }

    // The page that has the root and its right neighbour as its children.
    fn page_over_root(&self) -> Result<Inner, Memory>
        requires { is_some (side_of self.now.slots self.now.root) ≡ true }
        ensures { IfOk result (IsOverRoot self.now) }
    {
        let root = self.root;
        let head = self.heads[root.0 as usize];
        let Some((below, high, side)) = self.chains.neighbour(head) else {
            unreachable!();
        };
        let Some(level) = below.checked_add(1) else {
            return Err(Memory);
        };
        let alloc = *self.heads.allocator();
        let children = two_children(alloc, root, high, side)?;
        let low = Key::new(alloc, &[]).unwrap();
        Ok(Inner::from_children(level, low, None, None, children))
    }

    // Makes that page the root.
    fn put_root(&mut self, page: Inner) -> Result<PageId, Memory>
        requires none { self.old.staged ≡ None }
        requires over { IsOverRoot self.old page }
        ensures ok { IfOk result (HasNewRoot self.old self.new) }
        ensures err { OnErr result (self.new ≡ self.old) }
    {
        let to = self.freed.unused(&self.chains)?;
        self.heads.reserve(1)?;
        self.chains.add_base(to, Page::Inner(page))?;
        self.freed.taken(to);
        put_own(&mut self.heads, to);
        self.root = to;
        Ok(to)
    }
}

// A child for the keys below this one, and one for those from there on.
fn two_children(alloc: Alloc, left: PageId, key: &Key, right: PageId) -> Result<Children, Memory>
    ensures { IfOk result (λ children. children ≡ two_children left key.now right) }
{
    let mut children = Children::with_capacity(alloc, 2, key.bytes().len())?;
    children.push(&Key::new(alloc, &[]).unwrap(), left)?;
    children.push(key, right)?;
    Ok(children)
}
