//! The chain of a page: a post puts a record before it, and a peek reads it.
ghost use Rattle.std.specs.Prelude.{◌≡◌, ◌+◌, ◌^◌, ◌<◌, ◌≤◌, length, None, IfOk};
ghost use Rattle.bw_core.specs.World.{owns, posts_in, seen_at};
ghost use Rattle.bw_core.specs.Events.{book_after_look};
ghost use Rattle.bw_board.specs.Plays.{IsSeated, IsSane, PostsOver, SeesChain};

use crate::atomic_steps::{attempt, follow, link, look};
use crate::table::{Place, Words};
use bw_key::Memory;
use bw_memory::Alloc;
use std::marker::Brand;

/// Puts the record before the page's chain, and says how many exchanges it lost. Each lost one means that the chain has grown,
/// so their number is bounded by the records of the others.
pub fn post(words: &Words, place: &mut Place, pages: u64, floor: u64, rec: u64, page: u64) -> u64
    requires seat { IsSeated words.now.table_id place.old }
    requires pages { pages ≡ length place.old.me.0.first }
    requires floor { floor ≡ place.old.me.0.floor }
    requires records_fit { floor + place.old.me.0.records ≤ 2 ^ 33 }
    requires idle { place.old.me.0.book.under ≡ None }
    requires page { page < pages }
    requires own { 0 < owns rec place.old.me.0.book }
    requires unposted { posts_in rec place.old.me.0.book.posted ≡ 0 }
    ensures seat { IsSeated words.now.table_id place.new }
    ensures posted { PostsOver place.old.me.0 place.new.me.0 rec page result }
    ensures sane { IsSane place.new.me.0 }
{
    let mut lost = 0;
    let mut word = look(words, place, page);
    loop {
        link::<Brand>(words, place, pages, rec, page, lost, word);
        let found = attempt(words, place, floor, rec, page, lost, word);
        if found == word {
            return lost;
        }
        lost += 1;
        word = found;
    }
}

/// The page's records, newest first. The chain beneath a head that was loaded never changes, so this needs no further check.
pub fn peek(
    alloc: Alloc,
    words: &Words,
    place: &mut Place,
    pages: u64,
    floor: u64,
    page: u64,
) -> Result<Vec<u64, Alloc>, Memory>
    requires seat { IsSeated words.now.table_id place.old }
    requires pages { pages ≡ length place.old.me.0.first }
    requires floor { floor ≡ place.old.me.0.floor }
    requires page { page < pages }
    ensures seat { IsSeated words.now.table_id place.new }
    ensures seen { SeesChain place.old.me.0 place.new.me.0 page (book_after_look place.old.me.0.book page) }
    ensures chain { IfOk result (λ v. v.items ≡ seen_at place.new.me.0.book page) }
    ensures sane { IsSane place.new.me.0 }
{
    let mut word = look(words, place, page);
    let mut chain = Vec::new(alloc);
    while word >= floor {
        let rec = word - floor;
        chain.push(rec)?;
        word = follow(words, place, pages, rec);
    }
    Ok(chain)
}
