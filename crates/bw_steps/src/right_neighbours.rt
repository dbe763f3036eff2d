// Right neighbours that the level above doesn't name yet, as the splits of one page leave them.
ghost use Rattle.std.specs.Prelude.{◌≡◌, None, IfOk, MatchOption, OnErr};
ghost use Rattle.bw_level.specs.Searches.{IsInLevels};
ghost use Rattle.bw_look.specs.Unnamed.{IsUnnamed};
ghost use Rattle.bw_steps.specs.Naming.{AreAllUnnamed, AreFinished, HasNoUnnamedOn};
ghost use Rattle.bw_steps.specs.Steps.{IsFinishStep};

use crate::steps::Did;
use bw_key::{Key, Memory};
use bw_memory::Alloc;
use bw_page::PageId;
use bw_tree::Tree;

/// Gives the right neighbours of a page their index entries, all at once, up to the first one that has its entry, or that
/// begins on another page of the level above than they do. Answers the page above, which has the entries now, or nothing
/// where the page has no such neighbour. No batch is staged.
///
/// It costs two searches for the page, one and a copy of a key for each of these neighbours, and `Tree::name_all`. After
/// `Memory` the tree is as before.
pub fn name_rights(tree: &mut Tree, alloc: Alloc, page: PageId) -> Result<Option<PageId>, Memory>
    requires { tree.old.staged ≡ None }
    ensures ok { IfOk result (λ parent. MatchOption parent (IsFinishStep tree.old tree.new page Did.NotNeeded)
        (AreFinished tree.old tree.new page)) }
    ensures err { OnErr result (tree.new ≡ tree.old) }
{
    tree.know_levels();
    tree.know_entries();
    let Some(_) = tree.in_level(page) else {
        return Ok(None);
    };
    let Some(first) = tree.unnamed_right(page) else {
        return Ok(None);
    };
    let parent = first.parent;
    let entries = unnamed_rights(tree, alloc, page, parent)?;
    tree.name_all(parent, entries)?;
    Ok(Some(parent))
}

// The right neighbours of a page that a page of the level above is to name, each with the key at which it begins.
fn unnamed_rights(
    tree: &Tree,
    alloc: Alloc,
    page: PageId,
    parent: PageId,
) -> Result<Vec<(Key, PageId), Alloc>, Memory>
    requires { IsInLevels tree.now.levels page }
    ensures { IfOk result (λ entries. AreAllUnnamed tree.now page parent entries.items) }
{
    tree.know_levels();
    tree.know_entries();
    let mut entries = Vec::new(alloc);
    let mut last = page;
    while let Some(entry) = unnamed_entry(tree, last, parent)? {
        last = entry.1;
        entries.push(entry)?;
    }
    Ok(entries)
}

// The right neighbour of a page, if it isn't named and this page of the level above is to name it.
fn unnamed_entry(tree: &Tree, page: PageId, parent: PageId) -> Result<Option<(Key, PageId)>, Memory>
    requires { IsInLevels tree.now.levels page }
    ensures { IfOk result (λ entry. MatchOption entry (HasNoUnnamedOn tree.now page parent)
        (λ e. IsUnnamed tree.now page parent e.0 e.1)) }
{
    tree.know_levels();
    let Some(unnamed) = tree.unnamed_right(page) else {
        return Ok(None);
    };
    if unnamed.parent != parent {
        return Ok(None);
    }
    Ok(Some((unnamed.sep.copy()?, unnamed.page)))
}
