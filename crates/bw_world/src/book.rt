//! What one seat holds and knows.
ghost use Rattle.std.specs.Prelude.{◌≡◌, ◌↔◌, ◌<◌, ◌≤◌, ℕ, ◌+◌, ◌^◌, length, map, IsTrue, IfOk, OnErr, MatchOption, true};
ghost use Rattle.std.specs.List.{AllByRecursion};
ghost use Rattle.bw_core.specs.World.{owns, posts_in, tries_in, times, seen_at, end_at, top, spent};
ghost use Rattle.bw_core.specs.Events.{under, Resumes, book_after_look, book_after_link, book_after_win, book_after_loss, book_after_claim, book_without_pieces, left_book, right_book, book_after_join, book_after_swap, book_after_late_swap};
ghost use Rattle.bw_core.specs.Transitions.{first_book};
ghost use Rattle.bw_core.specs.declared.BookView.{BookView};

use crate::copies;
use bw_core::{Post, Span, Swap, Under};
use bw_key::Memory;
use bw_memory::Alloc;
use std::marker::Model;

/// The book of a seat: what the seat may post, what it posted, and what it saw of each page.
#[derive(Drop)]
pub struct Book {
    live: bool,
    owned: Vec<Span, Alloc>,
    posted: Vec<Post, Alloc>,
    under: Option<Under>,
    seen: Vec<Vec<u64, Alloc>, Alloc>,
    ends: Vec<u64, Alloc>,
    swaps: Vec<Swap, Alloc>,
    width: u64,
    told: bool,
}

impl Model for Book {
    ghost Value = { BookView };

    ghost view = { λ b. record {
      live = b.live;
      owned = b.owned.items;
      posted = b.posted.items;
      under = b.under;
      seen = map (λ v. v.items) b.seen.items;
      ends = b.ends.items;
      swaps = b.swaps.items;
      width = b.width;
      told = b.told;
    } };
}

/// A page's new records, newest first, and the word below the floor that ends them.
#[derive(Drop)]
pub(crate) struct Chain {
    pub(crate) records: Vec<u64, Alloc>,
    pub(crate) last: u64,
}

/// Readers.
impl Book {
    /// Whether the seat goes on: not yet joined into another.
    pub fn live(&self) -> bool
        ensures { result ≡ self.now.live }
    {
        self.live
    }

    /// The record numbers that the seat may post, in the order of its claims.
    pub fn owned(&self) -> &[Span]
        ensures { result.now ≡ self.now.owned }
    {
        self.owned.as_slice()
    }

    /// What the seat posted, oldest first.
    pub fn posted(&self) -> &[Post]
        ensures { result.now ≡ self.now.posted }
    {
        self.posted.as_slice()
    }

    /// The record that is being posted.
    pub fn under(&self) -> Option<Under>
        ensures { result ≡ self.now.under }
    {
        self.under
    }

    /// The chain of new records that was last seen at the page, newest first. None where there is no such page, and in a book
    /// that was joined into another.
    pub fn seen(&self, page: u64) -> Option<&[u64]>
        ensures { MatchOption result (length self.now.seen ≤ page)
            (λ chain. (page < length self.now.seen) × (chain.now ≡ seen_at self.now page)) }
    {
        if (page as usize) < self.seen.len() {
            Some(self.seen[page as usize].as_slice())
        } else {
            None
        }
    }

    /// For each page the word below the floor that was last seen there.
    pub fn ends(&self) -> &[u64]
        ensures { result.now ≡ self.now.ends }
    {
        self.ends.as_slice()
    }

    /// The pages whose first word the seat tried to replace, oldest first.
    pub fn swaps(&self) -> &[Swap]
        ensures { result.now ≡ self.now.swaps }
    {
        self.swaps.as_slice()
    }

    /// The seat's part of 1,024: a seat of width 1 can't be split.
    pub fn width(&self) -> u64
        ensures { result ≡ self.now.width }
    {
        self.width
    }

    /// Whether a claim found no record left.
    pub fn told(&self) -> bool
        ensures { result ≡ self.now.told }
    {
        self.told
    }

    /// Whether the seat may post this record, posted or not.
    pub fn owns(&self, rec: u64) -> bool
        ensures { IsTrue result ↔ (0 < owns rec self.now) }
    {
        self.owned.iter().any(|s| s.from <= rec && rec < s.to)
    }

    /// Whether the seat posted this record.
    pub fn has_posted(&self, rec: u64) -> bool
        ensures { IsTrue result ↔ (0 < posts_in rec self.now.posted) }
    {
        self.posted.iter().any(|p| p.rec == rec)
    }

    /// Whether the seat tried to replace this page's first word.
    pub fn has_tried(&self, page: u64) -> bool
        ensures { IsTrue result ↔ (0 < tries_in page self.now.swaps) }
    {
        self.swaps.iter().any(|s| s.page == page)
    }

    /// The word that names the first record of the chain that was seen at the page, or the word that ended it.
    pub(crate) fn top(&self, floor: u64, page: u64) -> u64
        requires page { (page < length self.now.seen) × (page < length self.now.ends) }
        requires fits { AllByRecursion (λ r. floor + r < 2 ^ 64) (seen_at self.now page) }
        ensures { result ≡ top floor (end_at self.now page) (seen_at self.now page) }
    {
        match self.seen[page as usize].first() {
            Some(rec) => floor + *rec,
            None => self.ends[page as usize],
        }
    }

    /// How often this record has lost, where the seat may link it under this page: 0 where nothing is under way.
    pub(crate) fn resumes(&self, rec: u64, page: u64) -> Option<u64>
        ensures { MatchOption result ((lost : ℕ) → Resumes self.now rec page lost → ⊥) (Resumes self.now rec page) }
    {
        match self.under {
            None => Some(0),
            Some(under) if under.rec == rec && under.page == page => Some(under.lost),
            Some(_) => None,
        }
    }

    /// How often this record has lost, where it is armed under this page.
    pub(crate) fn armed(&self, rec: u64, page: u64) -> Option<u64>
        ensures { MatchOption result ((lost : ℕ) → self.now.under ≡ Some (under rec page lost true) → ⊥)
            (λ lost. self.now.under ≡ Some (under rec page lost true)) }
    {
        match self.under {
            Some(under) if under.armed && under.rec == rec && under.page == page => {
                Some(under.lost)
            }
            _ => None,
        }
    }

    /// Whether this record stands in some chain that the seat saw.
    pub fn has_seen(&self, rec: u64) -> bool
        ensures { IsTrue result ↔ ((page : ℕ) × (page < length self.now.seen)
            × (0 < times rec (seen_at self.now page))) }
    {
        self.seen
            .iter()
            .any(|chain| chain.as_slice().contains(&rec))
    }
}

/// What each event makes of a book.
impl Book {
    pub(crate) fn new(alloc: Alloc, first: &[u64]) -> Result<Book, Memory>
        ensures { IfOk result (λ b. b ≡ first_book first.now) }
    {
        let mut seen = Vec::new(alloc);
        for _word in first {
            seen.push(Vec::new(alloc))?;
        }
        Ok(Book {
            live: true,
            owned: Vec::new(alloc),
            posted: Vec::new(alloc),
            under: None,
            seen,
            ends: Vec::from_slice(alloc, first)?,
            swaps: Vec::new(alloc),
            width: 1024,
            told: false,
        })
    }

    pub(crate) fn spent(alloc: Alloc) -> Book
        ensures { result ≡ spent }
    {
        Book {
            live: false,
            owned: Vec::new(alloc),
            posted: Vec::new(alloc),
            under: None,
            seen: Vec::new(alloc),
            ends: Vec::new(alloc),
            swaps: Vec::new(alloc),
            width: 0,
            told: false,
        }
    }

    pub(crate) fn look(&mut self, page: u64, chain: Chain)
        requires { (page < length self.old.seen) × (page < length self.old.ends) }
        ensures { self.new ≡ book_after_look self.old page chain.records.items chain.last }
    {
        self.ends[page as usize] = chain.last;
        self.seen[page as usize] = chain.records;
    }

    pub(crate) fn link(&mut self, rec: u64, page: u64, lost: u64)
        ensures { self.new ≡ book_after_link self.old rec page lost }
    {
        self.under = Some(Under {
            rec,
            page,
            lost,
            armed: true,
        });
    }

    pub(crate) fn win(&mut self, alloc: Alloc, rec: u64, page: u64, lost: u64) -> Result<(), Memory>
        requires { page < length self.old.seen }
        ensures ok { IfOk result (λ _. self.new ≡ book_after_win self.old rec page lost) }
        ensures err { OnErr result (self.new ≡ self.old) }
    {
        let mut chain = Vec::new(alloc);
        chain.push(rec)?;
        chain.extend_from_slice(self.seen[page as usize].as_slice())?;
        self.posted.push(Post { rec, page, lost })?;
        self.seen[page as usize] = chain;
        self.under = None;
        Ok(())
    }

    pub(crate) fn lose(&mut self, rec: u64, page: u64, lost: u64, chain: Chain)
        requires pages { (page < length self.old.seen) × (page < length self.old.ends) }
        requires few { lost < 2 ^ 63 }
        ensures { self.new ≡ book_after_loss self.old rec page lost chain.records.items chain.last }
    {
        self.look(page, chain);
        let unarmed = Under {
            rec,
            page,
            lost: lost + 1,
            armed: false,
        };
        self.under = Some(unarmed);
    }

    pub(crate) fn claim(&mut self, piece: u64, records: u64, from: u64) -> Result<(), Memory>
        requires { from + piece < 2 ^ 64 }
        ensures piece { IfOk result (λ _. from < records → self.new ≡ book_after_claim piece records from self.old) }
        ensures told { IfOk result (λ _. records ≤ from → self.new ≡ book_without_pieces self.old) }
        ensures err { OnErr result (self.new ≡ self.old) }
    {
        if from < records {
            let to = (from + piece).min(records);
            self.owned.push(Span { from, to })?;
        } else {
            self.told = true;
        }
        Ok(())
    }

    pub(crate) fn half(&self, alloc: Alloc) -> Result<Book, Memory>
        ensures { IfOk result (λ b. b ≡ right_book self.now) }
    {
        Ok(Book {
            live: true,
            seen: copies::copied(alloc, self.seen.as_slice())?,
            ends: Vec::from_slice(alloc, self.ends.as_slice())?,
            width: self.width / 2,
            told: self.told,
            ..Book::spent(alloc)
        })
    }

    pub(crate) fn narrow(&mut self)
        ensures { self.new ≡ left_book self.old }
    {
        self.width -= self.width / 2;
    }

    pub(crate) fn joined(&self, alloc: Alloc, first: &[u64], other: &Book) -> Result<Book, Memory>
        requires seen { (length self.now.seen ≡ length first.now) × (length other.now.seen ≡ length first.now) }
        requires ends { (length self.now.ends ≡ length first.now) × (length other.now.ends ≡ length first.now) }
        requires width { self.now.width + other.now.width < 2 ^ 64 }
        ensures { IfOk result (λ b. b ≡ book_after_join first.now self.now other.now) }
    {
        Ok(Book {
            live: self.live,
            owned: copies::concat(alloc, self.owned(), other.owned())?,
            posted: copies::concat(alloc, self.posted(), other.posted())?,
            under: self.under,
            seen: copies::longest(alloc, self.seen.as_slice(), other.seen.as_slice())?,
            ends: copies::latest(alloc, first, self.ends(), other.ends())?,
            swaps: copies::concat(alloc, self.swaps(), other.swaps())?,
            width: self.width + other.width,
            told: self.told || other.told,
        })
    }

    pub(crate) fn replace(&mut self, page: u64, spare: u64) -> Result<(), Memory>
        requires { page < length self.old.ends }
        ensures ok { IfOk result (λ _. self.new ≡ book_after_swap self.old page spare) }
        ensures err { OnErr result (self.new ≡ self.old) }
    {
        self.swaps.push(Swap { page, won: true })?;
        self.ends[page as usize] = spare;
        Ok(())
    }

    pub(crate) fn come_late(&mut self, page: u64, chain: Chain) -> Result<(), Memory>
        requires { (page < length self.old.ends) × (page < length self.old.seen) }
        ensures ok { IfOk result (λ _. self.new ≡ book_after_late_swap self.old page chain.records.items chain.last) }
        ensures err { OnErr result (self.new ≡ self.old) }
    {
        self.swaps.push(Swap { page, won: false })?;
        self.look(page, chain);
        Ok(())
    }
}
