//! The board and its seats.
ghost use Rattle.std.specs.Prelude.{◌≡◌, ℕ, ◌+◌, ◌^◌, ◌<◌, ◌≤◌, ◌∷◌, ◌++◌, length, slice_index, slice_index_or, ◌⊎◌, ◌≢◌, Some, None};
ghost use Rattle.std.specs.Prelude.{replicate, EachIndex, IsOk, IfOk, IfErr, OnOk, OnErr, IfSome, IfNone, min, true};
ghost use Rattle.bw_core.specs.World.{tries_in, IsEnd, seen_at, end_at, owns, posts_in, posts_at, times, top};
ghost use Rattle.bw_core.specs.Events.{book_after_look, book_after_late_swap, book_after_join, book_without_pieces};
ghost use Rattle.bw_board.specs.declared.board.Replaced.TheVariants.{Won, Late};
ghost use Rattle.bw_board.specs.Public.{BoardView, SeatView, board_view, seat_view, IsBoard, IsIdleSeat, IsOpened, AreHalves};
ghost use Rattle.bw_board.specs.Public.{Sees, Posts, Replaces, seat_after_claim, AllClaimed, OwnsAlone, IsClosed, HasEach, IsSound};

use crate::last_words::{Closed, swapped_pages, words_from};
use crate::plays::{Both, Halve};
use crate::table::{LawfulTable, Origin, Place, Sight};
use crate::{atomic_steps, page_chains};
use atomic_table::Table;
use bw_key::Memory;
use bw_memory::Alloc;
use std::marker::Model;
use std::ops::Range;

/// The words of a mapping table while records are posted: a head for each page, a link for each record, and the next record to
/// claim.
///
/// Threads share it by reference, each with seats of its own. Record r, from 0 up to the number of records, has the word
/// `floor + r`; words below the floor name what stood in the pages before. The pages of a call must exist, and a seat is used
/// with the board that gave it out. A seat that is dropped keeps what it owned and its width, and `close` can't be called then.
#[derive(Drop)]
pub struct Board {
    table: Table<u8, Sight, Origin, LawfulTable, Alloc>,
    alloc: Alloc,
    pages: u64,
    floor: u64,
    records: u64,
    piece: u64,
    origin: Origin,
}

impl Model for Board {
    ghost Value = { BoardView };

    ghost view = { λ b. board_view b.table.shared.table_id b.table.shared.key.heads.items b.floor b.records b.piece
        b.table.shared.key.spares.items };

    ghost invariant = { λ b. IsBoard (board_view b.table.shared.table_id b.table.shared.key.heads.items b.floor
        b.records b.piece b.table.shared.key.spares.items) b.pages b.table.shared.key b.origin };
}

/// The right to step on a board, and what its owner owns, posted and saw there.
///
/// At run time it has only its width and whether it was told that no record is left. The rest is in its contracts: `book`, which
/// names the records that it claimed, its posts with the exchanges that each lost, for each page the chain that it last saw, and
/// its tries to replace a first word.
#[derive(Drop)]
pub struct Seat {
    place: Place,
    width: u64,
    told: bool,
}

impl Model for Seat {
    ghost Value = { SeatView };

    ghost view = { λ s. seat_view s.place.table_id s.place.me.0 };

    ghost invariant = { λ s. IsIdleSeat s.place.me s.width s.told };
}

/// A record was posted.
#[derive(Clone, Copy, Debug, PartialEq, Eq)]
pub struct Posted {
    /// The exchanges that were lost to other seats before the last one was done.
    pub lost: u64,
}

/// What became of a try to replace a page's first word by its spare.
#[derive(Clone, Copy, Debug, PartialEq, Eq)]
pub enum Replaced {
    /// The head still was the first word, and is the spare now.
    Won,
    /// A record had been posted to the page, or the word had been replaced. The words are as they were.
    Late,
}

/// Opening and closing.
impl Board {
    /// A board over these head words, and its one seat, of width 1,024, which owns no record yet.
    ///
    /// Each head is below `floor`, `floor + records` is at most 2^33, and `piece`, the number of records that a claim takes, is
    /// from 1 to 4,096. `spares` has for each page a word that may replace its head, below the floor and not that head, or
    /// nothing. Pages behind its end have none, so an empty list says that no head is ever replaced, and takes no memory. Costs
    /// plain copies of heads and spares, and a word for each record. After `Memory` there is no board.
    pub fn open(
        alloc: Alloc,
        heads: &[u64],
        floor: u64,
        records: u64,
        piece: u64,
        spares: &[Option<u64>],
    ) -> Result<(Board, Seat), Memory>
        requires low { EachIndex heads.now (λ p. slice_index heads.now p < floor) }
        requires fits { floor + records ≤ 2 ^ 33 }
        requires some_piece { 0 < piece }
        requires piece_fits { piece ≤ 4096 }
        requires spare_low { (p : ℕ) → (x : ℕ) → slice_index_or spares.now p None ≡ Some x → x < floor }
        requires spare_new { (p : ℕ) → (x : ℕ) → slice_index_or spares.now p None ≡ Some x →
            x ≢ slice_index heads.now p }
        ensures opened { IfOk result (λ t. IsOpened heads.now floor records piece spares.now t.0 t.1) }
    {
        let words = first_words(alloc, heads, records)?;
        let origin = Origin {
            heads: Vec::from_slice(alloc, heads)?,
            floor,
            records,
            piece,
            spares: Vec::from_slice(alloc, spares)?,
        };
        let (table, place): (Table<u8, Sight, Origin, LawfulTable, Alloc>, Place) = Table::of_words(
            alloc,
            words.as_slice(),
            &origin,
        )?;
        let board = Board {
            table,
            alloc,
            pages: heads.len() as u64,
            floor,
            records,
            piece,
            origin,
        };
        let seat = Seat {
            place,
            width: 1024,
            told: false,
        };
        Ok((board, seat))
    }

    /// The last head words, the link words of the records, and the pages whose first word was replaced.
    ///
    /// The seat has every width, was told that no record is left, and posted each record that it claimed: then each record of the
    /// board stands once in the chain of the page to which it was posted, and nothing else stands there. Each chain ends in the
    /// page's first word, or in its spare where that won. Costs a copy of the words, and a walk of all chains where the list of
    /// spares isn't empty. After `Memory` the board is gone.
    pub fn close(self, seat: Seat) -> Result<Closed, Memory>
        requires board { seat.board ≡ self }
        requires whole { seat.book.width ≡ 1024 }
        requires told { seat.book.told ≡ true }
        requires posted { (r : ℕ) → owns r seat.book ≤ posts_in r seat.book.posted }
        ensures closed { IfOk result (λ c. IsClosed seat c.heads c.links c.swapped) }
        ensures each { OnOk result (HasEach seat) }
        ensures sound { OnOk result (IsSound seat) }
    {
        let Board {
            table,
            alloc,
            pages,
            floor,
            records,
            piece: _,
            origin,
        } = self;
        let Seat { place, .. } = seat;
        let closed = table.close_with(place);
        let heads = words_from(alloc, &closed, 1, pages as usize);
        let links = words_from(alloc, &closed, 1 + pages as usize, records as usize);
        closed.free();
        let heads = heads?;
        let links = links?;
        let swapped = swapped_pages(
            alloc,
            origin.heads.as_slice(),
            floor,
            heads.as_slice(),
            links.as_slice(),
            origin.spares.as_slice(),
        )?;
        Ok(Closed {
            heads,
            links,
            swapped,
        })
    }
}

// The words of a new table.
fn first_words(alloc: Alloc, heads: &[u64], records: u64) -> Result<Vec<u64, Alloc>, Memory>
    requires { records ≤ 2 ^ 33 }
    ensures words { IfOk result (λ v. v.items ≡ 0 ∷ (heads.now ++ replicate records 0)) }
    ensures fits { OnOk result (1 + (length heads.now + records) < 2 ^ 63) }
{
    let mut words = Vec::with_capacity(alloc, 1 + heads.len() + records as usize)?;
    words.push(0)?;
    words.extend_from_slice(heads)?;
    for i in 0..records {
        words.push(0)?;
    }
    Ok(words)
}

/// Sharing the records and the seats out.
impl Board {
    /// The next `piece` records, or what is left of them; None where all are claimed.
    ///
    /// No other claim has any of them: at that moment they are this seat's alone, and a join says of any two seats that they
    /// own none together. At None each record has an owner. `laws::claim_is_an_event` says so of whatever table there is, with
    /// `claim_takes_free` and `told_is_claimed` of `bw_core`. A seat that was told None is always told None. Costs one atomic
    /// addition, or none where the seat was told before.
    pub fn claim(&self, seat: &mut Seat) -> Option<Range<u64>>
        requires board { seat.old.board ≡ self.now }
        ensures claimed { IfSome result (λ r. seat.new ≡ seat_after_claim seat.old r.start) }
        ensures some { IfSome result (λ r. r.start < r.end) }
        ensures within { IfSome result (λ r. r.start < self.now.records) }
        ensures end { IfSome result (λ r. r.end ≡ min (r.start + self.now.piece) self.now.records) }
        ensures free { IfSome result (λ r. (n : ℕ) → r.start ≤ n → n < r.end → owns n seat.old.book ≡ 0) }
        ensures alone { IfSome result (λ r. OwnsAlone seat.new r.start r.end) }
        ensures sound { IfSome result (λ _. IsSound seat.new) }
        ensures none { IfNone result (seat.new ≡ record seat.old { book = book_without_pieces seat.old.book }) }
        ensures all { IfNone result (AllClaimed seat.new) }
        ensures told { seat.old.book.told ≡ true → result ≡ None }
    {
        if seat.told {
            return None;
        }
        let from = atomic_steps::claim(&self.table.shared, &mut seat.place, self.piece);
        if from < self.records {
            let left = self.records - from;
            let to = if left < self.piece {
                self.records
            } else {
                from + self.piece
            };
            Some(from..to)
        } else {
            seat.told = true;
            None
        }
    }

    /// Two seats of one: the second has half the width, rounded down, and has seen what the first has, and owns nothing yet. A
    /// seat of width 1 is given back. Costs one atomic load.
    pub fn split(&self, seat: Seat) -> Result<(Seat, Seat), Seat>
        requires board { seat.board ≡ self.now }
        ensures wide { 2 ≤ seat.book.width → IsOk result }
        ensures split { IfOk result (λ t. AreHalves seat t.0 t.1) }
        ensures back { IfErr result (λ s. s ≡ seat) }
        ensures narrow { OnErr result (seat.book.width ≡ 1) }
    {
        if seat.width < 2 {
            return Err(seat);
        }
        let Seat {
            mut place,
            width,
            told,
        } = seat;
        let other = self.table.shared.split_seat::<Halve>(&mut place);
        let half = width / 2;
        let left = Seat {
            place,
            width: width - half,
            told,
        };
        let right = Seat {
            place: other,
            width: half,
            told,
        };
        Ok((left, right))
    }

    /// One seat of two: it owns, posted and replaced what both did, has their widths, and has seen at each page the longer of
    /// their chains, which both are ends of that. No record was owned by both. Costs two atomic loads.
    pub fn join(&self, seat: Seat, other: Seat) -> Seat
        requires board { seat.board ≡ self.now }
        requires other { other.board ≡ self.now }
        ensures joined { result ≡ record seat { book = book_after_join self.now.first seat.book other.book } }
        ensures seen { (page : ℕ) → IsEnd (seen_at seat.book page) (seen_at result.book page) }
        ensures other_seen { (page : ℕ) → IsEnd (seen_at other.book page) (seen_at result.book page) }
        ensures apart { (r : ℕ) → owns r seat.book + owns r other.book ≤ 1 }
        ensures sound { IsSound result }
    {
        let Seat {
            mut place,
            width,
            told,
        } = seat;
        let Seat {
            place: second,
            width: more,
            told: also,
        } = other;
        self.table.shared.join_seat::<Both>(&mut place, second);
        atomic_steps::settle(&self.table.shared, &mut place);
        Seat {
            place,
            width: width + more,
            told: told || also,
        }
    }
}

/// The chains.
impl Board {
    /// Posts record r to the page: it stands once in the page's chain from now on, before all that the seat had seen there.
    ///
    /// The seat owns the record and hasn't posted it. An exchange is lost only where another record was posted to the page
    /// meanwhile, or its first word replaced; so `lost` is at most the number of new records beneath r, and one more only where
    /// the first word was replaced. Costs one load, one store and one exchange, and for each lost exchange one more of the last
    /// two. Takes no memory.
    pub fn post(&self, seat: &mut Seat, r: u64, page: u64) -> Posted
        requires board { seat.old.board ≡ self.now }
        requires page { page < length self.now.first }
        requires own { 0 < owns r seat.old.book }
        requires unposted { posts_in r seat.old.book.posted ≡ 0 }
        ensures posted { Posts seat.old seat.new r page result.lost }
        ensures sound { IsSound seat.new }
    {
        let words = &self.table.shared;
        let lost = page_chains::post(words, &mut seat.place, self.pages, self.floor, r, page);
        Posted { lost }
    }

    /// The page's head word. The seat has then seen the whole chain beneath it. Costs one atomic load.
    pub fn look(&self, seat: &mut Seat, page: u64) -> u64
        requires board { seat.old.board ≡ self.now }
        requires page { page < length self.now.first }
        ensures seen { Sees seat.old seat.new page (book_after_look seat.old.book page) }
        ensures head { result ≡ top self.now.floor (end_at seat.new.book page) (seen_at seat.new.book page) }
    {
        atomic_steps::look(&self.table.shared, &mut seat.place, page)
    }

    /// The records that were posted to the page, newest first, with all that this seat posted there or had seen there. What an
    /// earlier call answered is an end of it.
    ///
    /// Costs one atomic load, and one for each record. After `Memory` the seat has seen the chain all the same, and what it
    /// posted is unchanged.
    pub fn peek(&self, seat: &mut Seat, page: u64) -> Result<Vec<u64, Alloc>, Memory>
        requires board { seat.old.board ≡ self.now }
        requires page { page < length self.now.first }
        ensures seen { Sees seat.old seat.new page (book_after_look seat.old.book page) }
        ensures chain { IfOk result (λ v. v.items ≡ seen_at seat.new.book page) }
        ensures once { IfOk result (λ v. (r : ℕ) → times r v.items ≤ 1) }
        ensures own { IfOk result (λ v. (r : ℕ) → posts_at page r seat.old.book.posted ≤ times r v.items) }
    {
        let words = &self.table.shared;
        let pages = self.pages;
        page_chains::peek(self.alloc, words, &mut seat.place, pages, self.floor, page)
    }

    /// Replaces the page's first word by its spare, where the head still is that word: where a settled chain was consolidated
    /// into a new base page, that page comes in place of the chain.
    ///
    /// The page has a spare, and the seat didn't try this page before. Late, the seat has seen a new record there, or the spare
    /// as the chain's end. Posts nothing, and each chain of new records stays. Costs one atomic exchange.
    pub fn replace(&self, seat: &mut Seat, page: u64) -> Replaced
        requires board { seat.old.board ≡ self.now }
        requires page { page < length self.now.first }
        requires spare { slice_index_or self.now.spares page None ≢ None }
        requires untried { tries_in page seat.old.book.swaps ≡ 0 }
        ensures won { result ≡ Won → Replaces seat.old seat.new page }
        ensures late { result ≡ Late → Sees seat.old seat.new page (book_after_late_swap seat.old.book page) }
        ensures more { result ≡ Late → (0 < length (seen_at seat.new.book page))
            ⊎ (slice_index_or self.now.spares page None ≡ Some (end_at seat.new.book page)) }
    {
        let first = self.origin.heads[page as usize];
        let Some(spare) = self.origin.spares.get(page as usize).copied().flatten() else {
            return Replaced::Late;
        };
        let found = atomic_steps::replace(&self.table.shared, &mut seat.place, page, first, spare);
        if found == first {
            Replaced::Won
        } else {
            Replaced::Late
        }
    }
}
