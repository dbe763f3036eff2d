// What stood before a batch.
ghost use Rattle.std.specs.Prelude.{◌≡◌, Some};
ghost use Rattle.bw_look.specs.Words.{bases_before, put_words, words_before};

use crate::folded::{Folded, put_leaves};
use bw_chain::Chains;
use bw_memory::Alloc;
use bw_page::PageId;

/// The mapping words that stood before a batch was adopted, and the base pages that others took the places of.
#[derive(Drop)]
pub enum WordsBefore {
    /// Of all pages.
    OfAll(Vec<u64, Alloc>),
    /// Of these pages.
    OfPages(Vec<PageId, Alloc>, Vec<u64, Alloc>),
    /// Of these pages, with the leaves that were base pages then.
    UnderLeaves(Vec<PageId, Alloc>, Vec<u64, Alloc>, Vec<Folded, Alloc>),
}

impl WordsBefore {
    /// Puts them back in their places. It takes no memory.
    pub fn put_back(self, heads: &mut Vec<u64, Alloc>, chains: &mut Chains)
        ensures heads { heads.new.items ≡ words_before (Some self) heads.old.items }
        ensures bases { chains.new.bases ≡ bases_before (Some self) chains.old.bases }
        ensures records { chains.new.records ≡ chains.old.records }
    {
        match self {
            WordsBefore::OfAll(words) => *heads = words,
            WordsBefore::OfPages(pages, words) => put_words(heads, &pages, &words),
            WordsBefore::UnderLeaves(pages, words, leaves) => {
                put_words(heads, &pages, &words);
                put_leaves(chains, leaves);
            }
        }
    }
}

// Puts words in the places of pages. A page that isn't there has none.
fn put_words(heads: &mut [u64], pages: &[PageId], words: &[u64])
    ensures { heads.new ≡ put_words heads.old pages.now words.now }
{
    for place in 0..pages.len().min(words.len()) {
        let page = pages[place];
        let at = page.0 as usize;
        if at < heads.len() {
            heads[at] = words[place];
        }
    }
}
