// Mapping words of some pages, put in their places.
ghost use Rattle.std.specs.Prelude.{◌≡◌, ℕ, ◌+◌, ◌<◌, ◌≤◌, length, take, vec_capacity, vec_len};
ghost use Rattle.std.specs.List.{AllByRecursion};
ghost use Rattle.bw_core.specs.World.{times};
ghost use Rattle.bw_chain.specs.Placing.{put_at};
ghost use Rattle.bw_look.specs.Words.{put_words};
ghost use Rattle.bw_tree.specs.PageWords.{words_of};

use bw_memory::Alloc;
use bw_page::PageId;
use std::mem;

/// Puts words in the places of pages, no two of which are one, and answers the words that stood there. It takes no memory.
pub(crate) fn swap_words(
    heads: &mut Vec<u64, Alloc>,
    pages: &[PageId],
    mut words: Vec<u64, Alloc>,
) -> Vec<u64, Alloc>
    requires count { length words.items ≡ length pages.now }
    requires there { AllByRecursion (λ p. p < length heads.old.items) pages.now }
    requires once { (p : ℕ) → times p pages.now ≤ 1 }
    ensures heads { heads.new.items ≡ put_words heads.old.items pages.now words.entry.items }
    ensures words { result.items ≡ words_of heads.old.items pages.now }
{
    swap_each(heads, pages, &mut words);
    words
}

// The same in lists of as many words.
fn swap_each(heads: &mut [u64], pages: &[PageId], words: &mut [u64])
    requires count { length words.old ≡ length pages.now }
    requires there { AllByRecursion (λ p. p < length heads.old) pages.now }
    requires once { (p : ℕ) → times p pages.now ≤ 1 }
    ensures heads { heads.new ≡ put_words heads.old pages.now words.old }
    ensures words { words.new ≡ words_of heads.old pages.now }
{
    for place in 0..pages.len() {
        let page = pages[place];
        mem::swap(&mut heads[page.0 as usize], &mut words[place]);
    }
}

/// Gives a page the mapping word that names its own base page. The page has a word, or it is the one behind all others, for
/// which there is room.
#[tactic(auto, using(bw_chain::proofs::PlacingLemmas::put_set, bw_chain::proofs::PlacingLemmas::put_last))]
pub(crate) fn put_own(heads: &mut Vec<u64, Alloc>, page: PageId)
    requires place { page ≤ length heads.old.items }
    requires room { vec_len heads.old + 1 ≤ vec_capacity heads.old }
    ensures { heads.new.items ≡ put_at heads.old.items page page }
{
    let at = page.0 as usize;
    if at < heads.len() {
        heads[at] = page.0 as u64;
        return;
    }
    heads.push(page.0 as u64).unwrap();
}

/// Leaves the first words. Where they need under a quarter of the room, the list moves to a smaller block, if there is memory
/// for it.
pub(crate) fn truncate_words(heads: &mut Vec<u64, Alloc>, count: usize)
    ensures { heads.new.items ≡ take count heads.old.items }
{
    heads.truncate(count);
    if heads.capacity() / 4 > count {
        heads.shrink_to(count.saturating_mul(2));
    }
}
