// Identifiers that are given back.
ghost use Rattle.std.specs.Prelude.{◌≡◌, None, IfOk, OnErr};
ghost use Rattle.bw_steps.specs.Releasing.{HasNoSideLink, IsReleaseStep};

use crate::steps::Did;
use bw_key::Memory;
use bw_page::PageId;
use bw_tree::Tree;

/// Gives back the identifier of a page that was removed, or of a root that went: a new page may take it then. It isn't needed
/// where the identifier is free already, and where something leads to the page: it stands on a level, an index entry of a
/// page of a level names it, or a page was removed into it whose identifier isn't free. A page that a side link names stands on
/// a level, so none names one whose identifier is given back, and no delta of a chain does
/// (`bw_look::no_delta_names_unreached`). No batch is staged.
///
/// It costs a search, and a look at each removed page whose identifier isn't given back. After `Memory` the tree is as
/// before.
pub fn release(tree: &mut Tree, page: PageId) -> Result<Did, Memory>
    requires { tree.old.staged ≡ None }
    ensures ok { IfOk result (IsReleaseStep tree.old tree.new page) }
    ensures beside { IfOk result (λ did. did ≡ Did.Done → HasNoSideLink tree.old page) }
    ensures err { OnErr result (tree.new ≡ tree.old) }
{
    tree.know_levels();
    tree.know_records();
    if tree.is_free(page) {
        return Ok(Did::NotNeeded);
    }
    if !tree.is_unreached(page) {
        return Ok(Did::NotNeeded);
    }
    tree.free(page)?;
    Ok(Did::Done)
}
