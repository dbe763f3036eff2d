//! What a board leaves when it is closed.
ghost use Rattle.std.specs.Prelude.{◌≡◌, ◌+◌, ◌<◌, ◌≤◌, [], length, slice_index, EachIndex, take, drop, IfOk, IsOkAnd};
ghost use Rattle.std.specs.Mem.Slots.{slots_items, slots_len, IsFull};
ghost use Rattle.bw_board.specs.Public.{AreSwapped, ClosedView, HasEnd, EndsIn};

use bw_key::Memory;
use bw_memory::Alloc;
use std::marker::Model;

/// The last head words, the link words of the records, and the pages whose first word was replaced: what `Board::close` leaves.
pub struct Closed {
    pub(crate) heads: Vec<u64, Alloc>,
    pub(crate) links: Vec<u64, Alloc>,
    pub(crate) swapped: Vec<u64, Alloc>,
}

// Not derived: whoever drops one calls this, and its proof is spared the parts.
impl Drop for Closed {
    fn drop(self) {
        let Closed {
            heads: _heads,
            links: _links,
            swapped: _swapped,
        } = self;
    }
}

impl Model for Closed {
    ghost Value = { ClosedView };

    ghost view = { λ c. record { heads = c.heads.items; links = c.links.items; swapped = c.swapped.items } };
}

impl Closed {
    /// What a board over no page and with no record leaves, without the board: whoever has nothing to post needs none. It takes
    /// no memory.
    pub fn empty(alloc: Alloc) -> Closed
        ensures heads { result.heads ≡ [] }
        ensures links { result.links ≡ [] }
        ensures swapped { result.swapped ≡ [] }
    {
        Closed {
            heads: Vec::new(alloc),
            links: Vec::new(alloc),
            swapped: Vec::new(alloc),
        }
    }

    /// The head word of each page.
    pub fn heads(&self) -> &[u64]
        ensures { result.now ≡ self.now.heads }
    {
        self.heads.as_slice()
    }

    /// The link word of each record, in the order of their numbers.
    pub fn links(&self) -> &[u64]
        ensures { result.now ≡ self.now.links }
    {
        self.links.as_slice()
    }

    /// The pages whose first word was replaced, rising.
    pub fn swapped(&self) -> &[u64]
        ensures { result.now ≡ self.now.swapped }
    {
        self.swapped.as_slice()
    }

    /// Heads, links and swapped pages. Takes no memory.
    pub fn into_parts(self) -> (Vec<u64, Alloc>, Vec<u64, Alloc>, Vec<u64, Alloc>)
        ensures { (result.0.items ≡ self.heads) × (result.1.items ≡ self.links) × (result.2.items ≡ self.swapped) }
    {
        let Closed {
            heads,
            links,
            swapped,
        } = self;
        (heads, links, swapped)
    }
}

/// So many words of a closed table from one on.
pub(crate) fn words_from(
    alloc: Alloc,
    closed: &atomic_table::Closed<u8, Alloc>,
    from: usize,
    count: usize,
) -> Result<Vec<u64, Alloc>, Memory>
    requires within { from + count ≤ slots_len closed.now.words }
    requires full { IsFull closed.now.words }
    ensures { IfOk result (λ v. v.items ≡ take count (drop from (slots_items closed.now.words))) }
{
    let mut found = Vec::with_capacity(alloc, count)?;
    for i in 0..count {
        found.push(closed.word(from + i))?;
    }
    Ok(found)
}

// The word below the floor that ends the page's chain.
fn last_word(floor: u64, heads: &[u64], links: &[u64], page: u64) -> u64
    requires page { page < length heads.now }
    requires chain { HasEnd floor heads.now links.now page }
    ensures end { EndsIn floor heads.now links.now page result }
{
    let mut word = heads[page as usize];
    for i in 0..links.len() {
        if word < floor {
            return word;
        }
        word = links[(word - floor) as usize];
    }
    word
}

/// The pages whose chains don't end in the first word, rising. Where no page has a spare there are none: then no chain is
/// walked, and no memory is taken.
pub(crate) fn swapped_pages(
    alloc: Alloc,
    first: &[u64],
    floor: u64,
    heads: &[u64],
    links: &[u64],
    spares: &[Option<u64>],
) -> Result<Vec<u64, Alloc>, Memory>
    requires pages { length heads.now ≡ length first.now }
    requires chains { EachIndex first.now (HasEnd floor heads.now links.now) }
    requires spareless { spares.now ≡ []
        → EachIndex first.now (λ p. EndsIn floor heads.now links.now p (slice_index first.now p)) }
    ensures swapped { IfOk result (λ v. AreSwapped first.now floor heads.now links.now (length first.now) v.items) }
    ensures none { spares.now ≡ [] → IsOkAnd result (λ v. v.items ≡ []) }
{
    if spares.is_empty() {
        return Ok(Vec::new(alloc));
    }
    replaced_pages(alloc, first, floor, heads, links)
}

// The pages whose chains don't end in the first word, rising, by a walk of each chain.
fn replaced_pages(
    alloc: Alloc,
    first: &[u64],
    floor: u64,
    heads: &[u64],
    links: &[u64],
) -> Result<Vec<u64, Alloc>, Memory>
    requires pages { length heads.now ≡ length first.now }
    requires chains { EachIndex first.now (HasEnd floor heads.now links.now) }
    ensures swapped { IfOk result (λ v. AreSwapped first.now floor heads.now links.now (length first.now) v.items) }
{
    let mut found = Vec::new(alloc);
    for page in 0..first.len() as u64 {
        if last_word(floor, heads, links, page) != first[page as usize] {
            found.push(page)?;
        }
    }
    Ok(found)
}
