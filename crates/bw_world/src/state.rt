//! The words and books of a world, before anything is said of them.
ghost use Rattle.std.specs.Prelude.{◌≡◌, ◌↔◌, ◌<◌, ℕ, length, IsTrue, IfOk, MatchOption};
ghost use Rattle.bw_core.specs.Transitions.{IsWorld, start_world, IsFresh, IsSeat, MayLook, MayLink, MayTry, MayFollow, MayClaim, MaySplit, MayJoin, MayReplace};
ghost use Rattle.bw_core.specs.declared.BookView.{BookView};

use crate::book::{Book, Chain};
use bw_key::Memory;
use bw_memory::Alloc;
use std::marker::Model;

/// What a world is made of. Contracts see it as the world.
pub(crate) struct State {
    pub(crate) alloc: Alloc,
    pub(crate) first: Vec<u64, Alloc>,
    pub(crate) floor: u64,
    pub(crate) records: u64,
    pub(crate) piece: u64,
    pub(crate) spares: Vec<Option<u64>, Alloc>,
    pub(crate) next: u64,
    pub(crate) heads: Vec<u64, Alloc>,
    pub(crate) links: Vec<u64, Alloc>,
    pub(crate) books: Vec<Book, Alloc>,
}

// Not derived: whoever drops one calls this, and its proof is spared the parts.
impl Drop for State {
    fn drop(self) {
        let State {
            alloc: _alloc,
            first: _first,
            floor: _floor,
            records: _records,
            piece: _piece,
            spares: _spares,
            next: _next,
            heads: _heads,
            links: _links,
            books: _books,
        } = self;
    }
}

impl Model for State {
    ghost use Rattle.bw_core.specs.World.{World as WorldView};

    ghost Value = { WorldView };

    ghost use Rattle.bw_world.specs.Inside.{view_of};

    ghost view = { view_of };
}

impl State {
    pub(crate) fn start(
        alloc: Alloc,
        first: &[u64],
        floor: u64,
        records: u64,
        piece: u64,
        spares: &[Option<u64>],
    ) -> Result<State, Memory>
        ensures { IfOk result (λ s. s ≡ start_world first.now floor records piece spares.now) }
    {
        let mut links = Vec::new(alloc);
        for rec in 0..records {
            links.push(0)?;
        }
        let mut books = Vec::new(alloc);
        books.push(Book::new(alloc, first)?)?;
        Ok(State {
            alloc,
            first: Vec::from_slice(alloc, first)?,
            floor,
            records,
            piece,
            spares: Vec::from_slice(alloc, spares)?,
            next: 0,
            heads: Vec::from_slice(alloc, first)?,
            links,
            books,
        })
    }
}

/// What an event asks for. A number of lost exchanges, or a spare, comes with the answer where the event needs it.
impl State {
    fn book(&self, seat: u64) -> Option<&Book>
        ensures { MatchOption result ((b : BookView) → IsSeat self.now seat b → ⊥) (λ b. IsSeat self.now seat b.now) }
    {
        let at = seat as usize;
        if at < self.books.len() && self.books[at].live() {
            Some(&self.books[at])
        } else {
            None
        }
    }

    fn has_page(&self, page: u64) -> bool
        ensures { IsTrue result ↔ (page < length self.now.first) }
    {
        (page as usize) < self.first.len()
    }

    pub(crate) fn may_look(&self, seat: u64, page: u64) -> bool
        ensures { IsTrue result ↔ ((b : BookView) × MayLook self.now seat page b) }
    {
        self.book(seat).is_some() && self.has_page(page)
    }

    pub(crate) fn may_link(&self, seat: u64, rec: u64, page: u64) -> Option<u64>
        ensures { MatchOption result ((b : BookView) → (lost : ℕ) → MayLink self.now seat rec page b lost → ⊥)
            (λ lost. (b : BookView) × MayLink self.now seat rec page b lost) }
    {
        let book = self.book(seat)?;
        if self.has_page(page) && book.owns(rec) && !book.has_posted(rec) {
            book.resumes(rec, page)
        } else {
            None
        }
    }

    pub(crate) fn may_try(&self, seat: u64, rec: u64, page: u64) -> Option<u64>
        ensures { MatchOption result ((b : BookView) → (lost : ℕ) → MayTry self.now seat rec page b lost → ⊥)
            (λ lost. (b : BookView) × MayTry self.now seat rec page b lost) }
    {
        self.book(seat)?.armed(rec, page)
    }

    pub(crate) fn may_follow(&self, seat: u64, rec: u64) -> bool
        requires { IsWorld self.now }
        ensures { IsTrue result ↔ ((b : BookView) × (page : ℕ) × MayFollow self.now seat rec b page) }
    {
        match self.book(seat) {
            Some(book) => book.has_seen(rec),
            None => false,
        }
    }

    fn idle_book(&self, seat: u64) -> Option<&Book>
        ensures { MatchOption result ((b : BookView) → IsSeat self.now seat b → b.under ≡ None → ⊥)
            (λ b. IsSeat self.now seat b.now × (b.now.under ≡ None)) }
    {
        let book = self.book(seat)?;
        match book.under() {
            None => Some(book),
            Some(_) => None,
        }
    }

    pub(crate) fn may_claim(&self, seat: u64) -> bool
        ensures { IsTrue result ↔ ((b : BookView) × MayClaim self.now seat b) }
    {
        match self.idle_book(seat) {
            Some(book) => !book.told(),
            None => false,
        }
    }

    pub(crate) fn may_split(&self, seat: u64) -> bool
        ensures { IsTrue result ↔ ((b : BookView) × MaySplit self.now seat b) }
    {
        match self.idle_book(seat) {
            Some(book) => book.width() >= 2,
            None => false,
        }
    }

    pub(crate) fn may_join(&self, into: u64, other: u64) -> bool
        ensures { IsTrue result ↔ ((b : BookView) × (d : BookView) × MayJoin self.now into other b d) }
    {
        into != other && self.idle_book(into).is_some() && self.idle_book(other).is_some()
    }

    pub(crate) fn may_replace(&self, seat: u64, page: u64) -> Option<u64>
        requires { IsWorld self.now }
        ensures { MatchOption result ((b : BookView) → (spare : ℕ) → MayReplace self.now seat page b spare → ⊥)
            (λ spare. (b : BookView) × MayReplace self.now seat page b spare) }
    {
        let book = self.idle_book(seat)?;
        if self.has_page(page) && !book.has_tried(page) {
            self.spares[page as usize]
        } else {
            None
        }
    }

    /// The page's new records, and the word that ends them.
    pub(crate) fn chain(&self, page: u64) -> Result<Chain, Memory>
        requires lawful { IsWorld self.now }
        requires page { page < length self.now.first }
        ensures { IfOk result (λ c. IsFresh self.now page c.records.items c.last) }
    {
        let mut records = Vec::new(self.alloc);
        let mut word = self.heads[page as usize];
        while word >= self.floor {
            let rec = word - self.floor;
            records.push(rec)?;
            word = self.links[rec as usize];
        }
        Ok(Chain {
            records,
            last: word,
        })
    }
}
