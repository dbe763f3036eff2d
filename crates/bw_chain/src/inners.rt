// Inner pages as they stand.
ghost use Rattle.std.specs.Prelude.{◌≡◌, true, Some, None, is_some, IfOk, IfSome};
ghost use Rattle.bw_page.specs.Inners.{InnerView};
ghost use Rattle.bw_chain.specs.Chains.{IsChain, page_at, record_at};
ghost use Rattle.bw_level.specs.Searches.{plain_inner};
ghost use Rattle.bw_level.specs.Slots.{IsSoundInner};

use crate::chains::Chains;
use bw_key::Memory;
use bw_level::inner_over;
use bw_page::{Inner, Page};

impl Chains {
    /// The inner page that a chain is, where it is one and has no record. It takes no memory.
    pub fn inner(&self, head: u64) -> Option<&Inner>
        requires { IsChain self.now head }
        ensures page { IfSome result (λ inner. page_at self.now head ≡ plain_inner inner.now) }
        ensures some { record_at self.now.records head ≡ None → (inner : InnerView) →
            page_at self.now head ≡ plain_inner inner → is_some result ≡ true }
    {
        if self.record(head).is_some() {
            return None;
        }
        let Some(base) = self.base(head) else {
            return None;
        };
        match base {
            Page::Inner(inner) => Some(inner),
            Page::Leaf(_) | Page::Gone(_) => None,
        }
    }

    /// The inner page that a chain makes, as a page that has no record. It costs a walk along the chain's links and a
    /// copy of each child.
    pub fn inner_page(&self, head: u64) -> Result<Inner, Memory>
        requires ends { IsChain self.now head }
        requires inner { IsSoundInner (page_at self.now head) }
        ensures { IfOk result (λ inner. page_at self.now head ≡ plain_inner inner) }
    {
        let (delta, base) = self.under_writes(head);
        let Some(base) = base else {
            unreachable!();
        };
        match base {
            Page::Inner(inner) => inner_over(delta, inner),
            Page::Leaf(_) | Page::Gone(_) => unreachable!(),
        }
    }
}
