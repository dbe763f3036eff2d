// Pages that may be merged into their left neighbours.
ghost use Rattle.std.specs.Prelude.{◌≡◌, true};
ghost use Rattle.bw_level.specs.Slots.{slot_at};
ghost use Rattle.bw_shape.specs.Visits.{IsSmall};

use crate::limits::Limits;
use bw_page::PageId;
use bw_steps::are_under_one;
use bw_tree::Tree;

/// Whether a page has too few entries, and a left neighbour under the same page above. It costs some searches where it has.
pub(crate) fn may_merge(tree: &Tree, limits: &Limits, page: PageId) -> bool
    ensures { result ≡ true → IsSmall limits.now (slot_at tree.now.slots page) }
{
    tree.know_records();
    (page.0 as usize) < tree.heads().len()
        && (tree.entries(page) as u64) < limits.page_min()
        && has_sibling(tree, page)
}

// Whether one page of the level above names a page and its left neighbour.
fn has_sibling(tree: &Tree, page: PageId) -> bool {
    match tree.left_of(page) {
        Some(left) => are_under_one(tree, page, left),
        None => false,
    }
}
