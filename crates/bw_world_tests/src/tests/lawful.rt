//! A plain checker of the lawful world: it knows the words and books alone.
use super::FLOOR;
use bw_key::Memory;
use bw_memory::Alloc;
use bw_world::{Book, World};

const PAGES: u64 = 2;

// The records from the page's head on, and the word that ends them. None where a record comes twice or isn't there.
fn walked(
    alloc: Alloc,
    world: &World,
    page: u64,
) -> Result<Option<(Vec<u64, Alloc>, u64)>, Memory> {
    let mut chain = Vec::new(alloc);
    let mut word = world.heads().get(page as usize).copied().unwrap_or(0);
    for _ in 0..1000u64 {
        if word < FLOOR {
            return Ok(Some((chain, word)));
        }
        let rec = word - FLOOR;
        let Some(link) = world.links().get(rec as usize) else {
            return Ok(None);
        };
        if chain.as_slice().contains(&rec) {
            return Ok(None);
        }
        chain.push(rec)?;
        word = *link;
    }
    Ok(None)
}

fn posts_at(world: &World, page: u64, rec: u64) -> usize {
    let mut count = 0usize;
    for book in world.books() {
        let here = book
            .posted()
            .iter()
            .filter(|p| p.page == page && p.rec == rec)
            .count();
        count = count.saturating_add(here);
    }
    count
}

fn owners(world: &World, rec: u64) -> usize {
    let mut count = 0usize;
    for book in world.books() {
        let here = book
            .owned()
            .iter()
            .filter(|s| s.from <= rec && rec < s.to)
            .count();
        count = count.saturating_add(here);
    }
    count
}

// Each page's chain has the records posted there, once each, over the first word, or over the spare after one won swap.
fn has_lawful_chain(world: &World, page: u64, chain: &[u64], last: u64) -> bool {
    let first = world.first().get(page as usize).copied();
    let spare = world.spares().get(page as usize).copied().flatten();
    let mut wins = 0usize;
    for book in world.books() {
        let here = book
            .swaps()
            .iter()
            .filter(|s| s.page == page && s.won)
            .count();
        wins = wins.saturating_add(here);
    }
    let ends = (Some(last) == first && wins == 0) || (Some(last) == spare && wins == 1);
    ends && (0..world.records()).all(|rec| posts_at(world, page, rec)
        == chain.iter().filter(|r| **r == rec).count())
}

// The records below the claims' end have one owner, and the others none; each is posted once at most.
fn has_lawful_claims(world: &World) -> bool {
    let mut widths = 0u64;
    let mut open = 0u64;
    for book in world.books() {
        widths = widths.saturating_add(book.width());
        if book.live() && book.width() == 0 || book.told() && world.next() < world.records() {
            return false;
        }
        if !book.told() {
            open = open.saturating_add(book.width());
        }
    }
    for rec in 0..world.records() {
        let posts = posts_at(world, 0, rec).saturating_add(posts_at(world, 1, rec));
        if owners(world, rec) != usize::from(rec < world.next()) || posts > 1 {
            return false;
        }
    }
    let piece = world.piece().max(1);
    let rounded = world.records().div_ceil(piece).saturating_mul(piece);
    let most = rounded.saturating_add(piece.saturating_mul(1024u64.saturating_sub(open)));
    widths == 1024 && world.next() % piece == 0 && world.next() <= most
}

// What a live book has seen is an end of the chain, and has all that it posted there.
fn has_lawful_sight(world: &World, book: &Book, page: u64, chain: &[u64], last: u64) -> bool {
    let Some(seen) = book.seen(page) else {
        return !book.live() && book.posted().is_empty() && book.owned().is_empty();
    };
    let first = world.first().get(page as usize).copied();
    let end = book.ends().get(page as usize).copied();
    if !chain.ends_with(seen) || !(end == first || end == Some(last)) {
        return false;
    }
    book.posted().iter().all(|post| post.page != page
        || (seen.contains(&post.rec) && book.owns(post.rec)))
}

fn late(world: &World, page: u64, last: u64) -> usize {
    usize::from(world.first().get(page as usize).copied() != Some(last))
}

// A posted record has lost at most as often as there are records beneath it.
fn has_lawful_losses(world: &World, book: &Book, page: u64, chain: &[u64], last: u64) -> bool {
    let more = late(world, page, last);
    book.posted().iter().all(|post| {
        let above = chain
            .iter()
            .position(|r| *r == post.rec)
            .unwrap_or(chain.len());
        let beneath = chain.len().saturating_sub(above).saturating_sub(1);
        post.page != page || post.lost as usize <= beneath.saturating_add(more)
    })
}

// A record under way is owned and not posted, and an armed one has the top of an end of the seen chain as its link.
fn has_lawful_under(world: &World, book: &Book) -> bool {
    let Some(under) = book.under() else {
        return true;
    };
    let Some(seen) = book.seen(under.page) else {
        return false;
    };
    let end = book.ends().get(under.page as usize).copied().unwrap_or(0);
    let first = world.first().get(under.page as usize).copied().unwrap_or(0);
    let link = world.links().get(under.rec as usize).copied().unwrap_or(0);
    let lost = under.lost as usize;
    let more = late(world, under.page, end);
    if !book.owns(under.rec)
        || book.has_posted(under.rec)
        || lost > seen.len().saturating_add(more)
    {
        return false;
    }
    let over_word = (link == end && lost <= more) || (link == first && lost == 0);
    let above = seen.iter().position(|r| FLOOR.saturating_add(*r) == link);
    let over_record = above.map(|a| lost <= seen.len().saturating_sub(a).saturating_add(more));
    !under.armed || over_word || over_record.unwrap_or(false)
}

/// Whether every clause of the lawful world holds.
pub(crate) fn is_lawful(alloc: Alloc, world: &World) -> Result<bool, Memory> {
    for page in 0..PAGES {
        let Some((chain, last)) = walked(alloc, world, page)? else {
            return Ok(false);
        };
        let chain = chain.as_slice();
        if !has_lawful_chain(world, page, chain, last) {
            return Ok(false);
        }
        for book in world.books() {
            let seen = has_lawful_sight(world, book, page, chain, last);
            if !seen || !has_lawful_losses(world, book, page, chain, last) {
                return Ok(false);
            }
        }
    }
    Ok(
        has_lawful_claims(world)
            && world
                .books()
                .iter()
                .all(|book| has_lawful_under(world, book)),
    )
}
