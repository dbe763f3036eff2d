//! The world in which records are posted, step by step.
ghost use Rattle.std.specs.Prelude.{◌≡◌, ◌<◌, ℕ, length, IsOk, IfOk, OnErr};
ghost use Rattle.bw_core.specs.World.{Lawful, Keeps};
ghost use Rattle.bw_core.specs.Transitions.{CanStart, IsFresh, TakesNoMemory, Applies, Runs, start_world};

use crate::Book;
use crate::state::State;
use bw_core::{Event, Played};
use bw_key::Memory;
use bw_memory::Alloc;
use std::marker::Model;

/// A mapping table while a batch is posted: the words of the table, and a book for each seat that ever was.
///
/// No thread runs here. Each atomic step of a worker on one word of the table is one `Event`, and whatever order the steps of
/// all workers come in, the world stays lawful: each posted record stands once in its page's chain, nothing else does, and what
/// a seat has seen stays an end of the present chain. The chains and their exchange are those of the Bw-tree (ICDE 2013,
/// OpenBw-Tree: SIGMOD 2018).
pub struct World {
    state: State,
}

// Not derived: whoever drops one calls this, and its proof is spared the parts.
impl Drop for World {
    fn drop(self) {
        let World { state: _state } = self;
    }
}

impl Model for World {
    ghost use Rattle.bw_core.specs.World.{World as WorldView};

    ghost Value = { WorldView };

    ghost use Rattle.bw_core.specs.Transitions.{IsWorld};

    ghost view = { λ w. w.state };

    ghost invariant = { λ w. IsWorld w.state };
}

impl World {
    /// A world before any step: the pages' head words, the word of the first record, the number of records and of those that a
    /// claim takes, and for each page the word that may replace its first one. One seat, of width 1,024, owns nothing yet.
    ///
    /// Head words and spares are below `floor`, a spare isn't its page's head word, `floor + records` is at most 2^33, and
    /// `piece` is from 1 to 4,096.
    pub fn start(
        alloc: Alloc,
        first: &[u64],
        floor: u64,
        records: u64,
        piece: u64,
        spares: &[Option<u64>],
    ) -> Result<World, Memory>
        requires { CanStart first.now floor records piece spares.now }
        ensures world { IfOk result (λ w. w ≡ start_world first.now floor records piece spares.now) }
        ensures lawful { IfOk result Lawful }
    {
        let state = State::start(alloc, first, floor, records, piece, spares)?;
        Ok(World { state })
    }

    /// Plays one event. An event that isn't allowed answers `NotAllowed` and changes nothing, and neither does `Memory`. A link
    /// and a follow take no memory.
    pub fn apply(&mut self, event: Event) -> Result<Played, Memory>
        ensures played { IfOk result (λ a. Applies self.old event self.new a) }
        ensures lawful { IfOk result (λ _. (q : Lawful self.old) × Keeps self.old q self.new) }
        ensures no_memory { TakesNoMemory event → IsOk result }
        ensures memory { OnErr result (self.new ≡ self.old) }
    {
        self.state.play(event)
    }

    /// The records that were posted to this page, newest first: those met from its head by the links.
    pub fn fresh(&self, page: u64) -> Result<Vec<u64, Alloc>, Memory>
        requires { page < length self.now.first }
        ensures { IfOk result (λ v. (last : ℕ) × IsFresh self.now page v.items last) }
    {
        Ok(self.state.chain(page)?.records)
    }

    /// The world after all these events, whether each was allowed or not. What `first` to `spares` are is said at `start`.
    pub fn replay(
        alloc: Alloc,
        first: &[u64],
        floor: u64,
        records: u64,
        piece: u64,
        spares: &[Option<u64>],
        events: &[Event],
    ) -> Result<World, Memory>
        requires { CanStart first.now floor records piece spares.now }
        ensures runs { IfOk result (λ w. Runs (start_world first.now floor records piece spares.now) events.now w) }
        ensures lawful { IfOk result (λ w. (q : Lawful (start_world first.now floor records piece spares.now))
            × Keeps (start_world first.now floor records piece spares.now) q w) }
    {
        let mut world = World::start(alloc, first, floor, records, piece, spares)?;
        for event in events {
            world.apply(*event)?;
        }
        Ok(world)
    }
}

/// Readers.
impl World {
    /// The head words at the start. They never change.
    pub fn first(&self) -> &[u64]
        ensures { result.now ≡ self.now.first }
    {
        self.state.first.as_slice()
    }

    /// Record r has the word `floor + r`.
    pub fn floor(&self) -> u64
        ensures { result ≡ self.now.floor }
    {
        self.state.floor
    }

    /// The number of records.
    pub fn records(&self) -> u64
        ensures { result ≡ self.now.records }
    {
        self.state.records
    }

    /// How many records a claim takes.
    pub fn piece(&self) -> u64
        ensures { result ≡ self.now.piece }
    {
        self.state.piece
    }

    /// For each page the word that may replace its first one.
    pub fn spares(&self) -> &[Option<u64>]
        ensures { result.now ≡ self.now.spares }
    {
        self.state.spares.as_slice()
    }

    /// The first record that no claim has taken, where there is one.
    pub fn next(&self) -> u64
        ensures { result ≡ self.now.next }
    {
        self.state.next
    }

    /// The present head words, one a page.
    pub fn heads(&self) -> &[u64]
        ensures { result.now ≡ self.now.heads }
    {
        self.state.heads.as_slice()
    }

    /// The link word of each record, 0 at the start.
    pub fn links(&self) -> &[u64]
        ensures { result.now ≡ self.now.links }
    {
        self.state.links.as_slice()
    }

    /// The books of all seats that ever were, by their numbers.
    pub fn books(&self) -> &[Book]
        ensures { result.now ≡ self.now.books }
    {
        self.state.books.as_slice()
    }
}
