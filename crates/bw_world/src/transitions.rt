//! What each event changes and answers. What may find no memory comes before the first change.
ghost use Rattle.std.specs.Prelude.{◌≡◌, ◌≢◌, ℕ, slice_index, IsOk, IfOk, OnErr};
ghost use Rattle.bw_core.specs.Transitions.{IsWorld, MayTry, MayReplace, TakesNoMemory, Applies, Looks, Links, Tries, Follows, Claims, Splits, Joins, Replaces};
ghost use Rattle.bw_core.specs.declared.BookView.{BookView};

use crate::book::Book;
use crate::state::State;
use bw_core::{Event, Played};
use bw_key::Memory;

impl State {
    pub(crate) fn play(&mut self, event: Event) -> Result<Played, Memory>
        requires { IsWorld self.old }
        ensures ok { IfOk result (λ a. Applies self.old event self.new a) }
        ensures no_memory { TakesNoMemory event → IsOk result }
        ensures err { OnErr result (self.new ≡ self.old) }
    {
        match event {
            Event::Look { seat, page } => self.look(seat, page),
            Event::Link { seat, rec, page } => Ok(self.link(seat, rec, page)),
            Event::Try { seat, rec, page } => self.attempt(seat, rec, page),
            Event::Follow { seat, rec } => Ok(self.follow(seat, rec)),
            Event::Claim { seat } => self.claim(seat),
            Event::Split { seat } => self.split(seat),
            Event::Join { into, other } => self.join(into, other),
            Event::Replace { seat, page } => self.replace(seat, page),
        }
    }

    fn look(&mut self, seat: u64, page: u64) -> Result<Played, Memory>
        requires { IsWorld self.old }
        ensures ok { IfOk result (λ a. Looks self.old seat page self.new a) }
        ensures err { OnErr result (self.new ≡ self.old) }
    {
        if !self.may_look(seat, page) {
            return Ok(Played::NotAllowed);
        }
        let chain = self.chain(page)?;
        self.books[seat as usize].look(page, chain);
        Ok(Played::Done(self.heads[page as usize]))
    }

    fn link(&mut self, seat: u64, rec: u64, page: u64) -> Played
        requires { IsWorld self.old }
        ensures { Links self.old seat rec page self.new result }
    {
        let Some(lost) = self.may_link(seat, rec, page) else {
            return Played::NotAllowed;
        };
        let book = &mut self.books[seat as usize];
        let word = book.top(self.floor, page);
        book.link(rec, page, lost);
        self.links[rec as usize] = word;
        Played::Done(word)
    }

    fn follow(&self, seat: u64, rec: u64) -> Played
        requires { IsWorld self.now }
        ensures { Follows self.now seat rec self.now result }
    {
        if !self.may_follow(seat, rec) {
            return Played::NotAllowed;
        }
        Played::Done(self.links[rec as usize])
    }

    fn attempt(&mut self, seat: u64, rec: u64, page: u64) -> Result<Played, Memory>
        requires { IsWorld self.old }
        ensures ok { IfOk result (λ a. Tries self.old seat rec page self.new a) }
        ensures err { OnErr result (self.new ≡ self.old) }
    {
        let Some(lost) = self.may_try(seat, rec, page) else {
            return Ok(Played::NotAllowed);
        };
        if self.heads[page as usize] == self.links[rec as usize] {
            self.win(seat, rec, page, lost)
        } else {
            self.lose(seat, rec, page, lost)
        }
    }

    fn win(&mut self, seat: u64, rec: u64, page: u64, lost: u64) -> Result<Played, Memory>
        requires world { IsWorld self.old }
        requires may { (b : BookView) × MayTry self.old seat rec page b lost }
        requires hit { slice_index self.old.heads page ≡ slice_index self.old.links rec }
        ensures ok { IfOk result (λ a. Tries self.old seat rec page self.new a) }
        ensures err { OnErr result (self.new ≡ self.old) }
    {
        let alloc = self.alloc;
        self.books[seat as usize].win(alloc, rec, page, lost)?;
        let word = self.floor + rec;
        self.heads[page as usize] = word;
        Ok(Played::Done(word))
    }

    fn lose(&mut self, seat: u64, rec: u64, page: u64, lost: u64) -> Result<Played, Memory>
        requires world { IsWorld self.old }
        requires may { (b : BookView) × MayTry self.old seat rec page b lost }
        requires miss { slice_index self.old.heads page ≢ slice_index self.old.links rec }
        ensures ok { IfOk result (λ a. Tries self.old seat rec page self.new a) }
        ensures err { OnErr result (self.new ≡ self.old) }
    {
        let chain = self.chain(page)?;
        self.books[seat as usize].lose(rec, page, lost, chain);
        Ok(Played::Lost(self.heads[page as usize]))
    }

    fn claim(&mut self, seat: u64) -> Result<Played, Memory>
        requires { IsWorld self.old }
        ensures ok { IfOk result (λ a. Claims self.old seat self.new a) }
        ensures err { OnErr result (self.new ≡ self.old) }
    {
        if !self.may_claim(seat) {
            return Ok(Played::NotAllowed);
        }
        let from = self.next;
        self.books[seat as usize].claim(self.piece, self.records, from)?;
        self.next = from + self.piece;
        Ok(Played::Done(from))
    }

    fn split(&mut self, seat: u64) -> Result<Played, Memory>
        requires { IsWorld self.old }
        ensures ok { IfOk result (λ a. Splits self.old seat self.new a) }
        ensures err { OnErr result (self.new ≡ self.old) }
    {
        if !self.may_split(seat) {
            return Ok(Played::NotAllowed);
        }
        let new = self.books.len() as u64;
        let half = self.books[seat as usize].half(self.alloc)?;
        self.books.push(half)?;
        self.books[seat as usize].narrow();
        Ok(Played::Done(new))
    }

    fn join(&mut self, into: u64, other: u64) -> Result<Played, Memory>
        requires { IsWorld self.old }
        ensures ok { IfOk result (λ a. Joins self.old into other self.new a) }
        ensures err { OnErr result (self.new ≡ self.old) }
    {
        if !self.may_join(into, other) {
            return Ok(Played::NotAllowed);
        }
        let joined = self.books[into as usize].joined(
            self.alloc,
            self.first.as_slice(),
            &self.books[other as usize],
        )?;
        self.books[into as usize] = joined;
        self.books[other as usize] = Book::spent(self.alloc);
        Ok(Played::Done(other))
    }

    fn replace(&mut self, seat: u64, page: u64) -> Result<Played, Memory>
        requires { IsWorld self.old }
        ensures ok { IfOk result (λ a. Replaces self.old seat page self.new a) }
        ensures err { OnErr result (self.new ≡ self.old) }
    {
        let Some(spare) = self.may_replace(seat, page) else {
            return Ok(Played::NotAllowed);
        };
        if self.heads[page as usize] == self.first[page as usize] {
            self.take_over(seat, page, spare)
        } else {
            self.come_late(seat, page)
        }
    }

    fn take_over(&mut self, seat: u64, page: u64, spare: u64) -> Result<Played, Memory>
        requires world { IsWorld self.old }
        requires may { (b : BookView) × MayReplace self.old seat page b spare }
        requires hit { slice_index self.old.heads page ≡ slice_index self.old.first page }
        ensures ok { IfOk result (λ a. Replaces self.old seat page self.new a) }
        ensures err { OnErr result (self.new ≡ self.old) }
    {
        self.books[seat as usize].replace(page, spare)?;
        self.heads[page as usize] = spare;
        Ok(Played::Done(spare))
    }

    fn come_late(&mut self, seat: u64, page: u64) -> Result<Played, Memory>
        requires world { IsWorld self.old }
        requires may { (b : BookView) × (spare : ℕ) × MayReplace self.old seat page b spare }
        requires miss { slice_index self.old.heads page ≢ slice_index self.old.first page }
        ensures ok { IfOk result (λ a. Replaces self.old seat page self.new a) }
        ensures err { OnErr result (self.new ≡ self.old) }
    {
        let chain = self.chain(page)?;
        self.books[seat as usize].come_late(page, chain)?;
        Ok(Played::Lost(self.heads[page as usize]))
    }
}
