//! The kinds of atomic step, one call each. A seat's view after a step is given in full, with what it knows of itself.
ghost use Rattle.std.specs.Prelude.{◌≡◌, ◌≢◌, ℕ, ◌+◌, ◌^◌, ◌<◌, ◌≤◌, true, ◌∷◌, ◌++◌, List, length, slice_index, slice_index_or, ◌⊎◌, Some, None, false};
ghost use Rattle.bw_core.specs.World.{top, end_at, times, tries_in, seen_at, owns, posts_in};
ghost use Rattle.bw_core.specs.Events.{Resumes, book_after_look, book_after_swap, book_after_late_swap, book_after_claim, book_without_pieces, under, book_after_win, book_after_loss};
ghost use Rattle.bw_board.specs.Plays.{IsSeated, IsSane, IsTop, SeesChain, sight_after_link, with_book};

use crate::plays::{Aim, Claim, Follow, Link, Look, Replace, Settle, Try};
use crate::table::{Place, Words};

/// Loads a page's head. The seat has then seen the whole chain beneath it.
pub fn look(words: &Words, place: &mut Place, page: u64) -> u64
    requires seat { IsSeated words.now.table_id place.old }
    requires page { page < length place.old.me.0.first }
    ensures seat { IsSeated words.now.table_id place.new }
    ensures seen { SeesChain place.old.me.0 place.new.me.0 page (book_after_look place.old.me.0.book page) }
    ensures head { IsTop place.new.me.0 page result }
    ensures sane { IsSane place.new.me.0 }
{
    words.load::<Look>(place, 1 + page as usize)
}

/// Stores the top of the seen chain as the link of a record that isn't posted yet.
pub fn link<J: Aim>(
    words: &Words,
    place: &mut Place,
    pages: u64,
    rec: u64,
    page: u64,
    lost: u64,
    word: u64,
)
    requires seat { IsSeated words.now.table_id place.old }
    requires aim { (page ≡ J.page) × (lost ≡ J.lost) }
    requires pages { pages ≡ length place.old.me.0.first }
    requires page { page < length place.old.me.0.first }
    requires own { 0 < owns rec place.old.me.0.book }
    requires unposted { posts_in rec place.old.me.0.book.posted ≡ 0 }
    requires within { rec < place.old.me.0.records }
    requires resumes { Resumes place.old.me.0.book rec page lost }
    requires word { IsTop place.old.me.0 page word }
    ensures seat { IsSeated words.now.table_id place.new }
    ensures linked { place.new.me.0 ≡ sight_after_link place.old.me.0 rec page lost word }
    ensures sane { IsSane place.new.me.0 }
{
    words.store::<Link<J>>(place, 1 + (pages as usize + rec as usize), word)
}

/// Exchanges the head for the record's word where the head is still the record's link.
pub fn attempt(
    words: &Words,
    place: &mut Place,
    floor: u64,
    rec: u64,
    page: u64,
    lost: u64,
    word: u64,
) -> u64
    requires seat { IsSeated words.now.table_id place.old }
    requires floor { floor ≡ place.old.me.0.floor }
    requires word_fits { floor + rec < 2 ^ 64 }
    requires page { page < length place.old.me.0.first }
    requires under { place.old.me.0.book.under ≡ Some (under rec page lost true) }
    requires word { word ≡ place.old.me.0.link }
    ensures seat { IsSeated words.now.table_id place.new }
    ensures won { result ≡ word → place.new.me.0
        ≡ with_book place.old.me.0 (book_after_win place.old.me.0.book rec page lost) }
    ensures lost { result ≢ word
        → SeesChain place.old.me.0 place.new.me.0 page (book_after_loss place.old.me.0.book rec page lost) }
    ensures head { result ≢ word → IsTop place.new.me.0 page result }
    ensures sane { IsSane place.new.me.0 }
{
    words.compare_exchange::<Try>(place, 1 + page as usize, word, floor + rec)
}

/// Loads the link of a record of a chain that the seat has seen. Such a link never changes.
pub fn follow(words: &Words, place: &mut Place, pages: u64, rec: u64) -> u64
    requires seat { IsSeated words.now.table_id place.old }
    requires pages { pages ≡ length place.old.me.0.first }
    requires rec { rec < place.old.me.0.records }
    requires seen { (p : ℕ) × (p < length place.old.me.0.first) × (0 < times rec (seen_at place.old.me.0.book p)) }
    ensures seat { IsSeated words.now.table_id place.new }
    ensures same { place.new.me.0 ≡ place.old.me.0 }
    ensures found { (p : ℕ) (front : List ℕ) (rest : List ℕ) → p < length place.old.me.0.first
        → seen_at place.old.me.0.book p ≡ front ++ rec ∷ rest
        → (x : ℕ) × (result ≡ top place.old.me.0.floor x rest) × (x < place.old.me.0.floor) }
    ensures sane { IsSane place.new.me.0 }
{
    words.load::<Follow>(place, 1 + (pages as usize + rec as usize))
}

/// Takes the next piece of records, by an addition to the claim word.
pub fn claim(words: &Words, place: &mut Place, piece: u64) -> u64
    requires seat { IsSeated words.now.table_id place.old }
    requires idle { place.old.me.0.book.under ≡ None }
    requires untold { place.old.me.0.book.told ≡ false }
    requires piece { piece ≡ place.old.me.0.piece }
    requires piece_fits { piece ≤ 4096 }
    requires records_fit { place.old.me.0.records ≤ 2 ^ 33 }
    ensures seat { IsSeated words.now.table_id place.new }
    ensures taken { result < place.old.me.0.records → place.new.me.0
        ≡ with_book place.old.me.0 (book_after_claim piece place.old.me.0.records result place.old.me.0.book) }
    ensures told { place.old.me.0.records ≤ result
        → place.new.me.0 ≡ with_book place.old.me.0 (book_without_pieces place.old.me.0.book) }
    ensures sane { IsSane place.new.me.0 }
{
    words.fetch_add::<Claim>(place, 0, piece)
}

/// Loads the claim word, to no end but that the seat learns what the rule makes true of its own view.
pub fn settle(words: &Words, place: &mut Place)
    requires seat { IsSeated words.now.table_id place.old }
    ensures seat { IsSeated words.now.table_id place.new }
    ensures same { place.new.me.0 ≡ place.old.me.0 }
    ensures sane { IsSane place.new.me.0 }
{
    words.load::<Settle>(place, 0);
}

/// Exchanges the page's first word for its spare where the head is still that word.
pub fn replace(words: &Words, place: &mut Place, page: u64, first: u64, spare: u64) -> u64
    requires seat { IsSeated words.now.table_id place.old }
    requires idle { place.old.me.0.book.under ≡ None }
    requires page { page < length place.old.me.0.first }
    requires first { first ≡ slice_index place.old.me.0.first page }
    requires spare { slice_index_or place.old.me.0.spares page None ≡ Some spare }
    requires untried { tries_in page place.old.me.0.book.swaps ≡ 0 }
    ensures seat { IsSeated words.now.table_id place.new }
    ensures won { result ≡ first → place.new.me.0
        ≡ with_book place.old.me.0 (book_after_swap place.old.me.0.book page spare) }
    ensures late { result ≢ first
        → SeesChain place.old.me.0 place.new.me.0 page (book_after_late_swap place.old.me.0.book page) }
    ensures more { result ≢ first → (0 < length (seen_at place.new.me.0.book page))
        ⊎ (slice_index_or place.old.me.0.spares page None ≡ Some (end_at place.new.me.0.book page)) }
    ensures sane { IsSane place.new.me.0 }
{
    words.compare_exchange::<Replace>(place, 1 + page as usize, first, spare)
}
