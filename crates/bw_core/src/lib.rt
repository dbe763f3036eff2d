//! Posting to the mapping table of a Bw-tree, as a state machine without threads: its events, its state, and its laws.
//!
//! Workers post their records to the chains of pages by compare-and-exchange, as in the Bw-tree (ICDE 2013, OpenBw-Tree:
//! SIGMOD 2018). Here each atomic step of a worker is one `Event`. When the state is lawful, and that every event keeps it so,
//! are stated over plain lists, for the table of atomic words that is built on them, and for a program that plays events.
#![tactic(auto)]

pub mod laws;

/// Record numbers from `from` on, below `to`.
#[derive(Clone, Copy, Debug, PartialEq, Eq)]
pub struct Span {
    pub from: u64,
    pub to: u64,
}

/// Record `rec` was posted under `page`, after `lost` lost exchanges.
#[derive(Clone, Copy, Debug, PartialEq, Eq)]
pub struct Post {
    pub rec: u64,
    pub page: u64,
    pub lost: u64,
}

/// The record that is being posted. It is armed once its link is stored, until an exchange is lost.
#[derive(Clone, Copy, Debug, PartialEq, Eq)]
pub struct Under {
    pub rec: u64,
    pub page: u64,
    pub lost: u64,
    pub armed: bool,
}

/// A seat's try to replace a page's first word by its spare. It is won where that word was still the head.
#[derive(Clone, Copy, Debug, PartialEq, Eq)]
pub struct Swap {
    pub page: u64,
    pub won: bool,
}

/// One atomic step of a seat. A seat is the number of a book, which must be live; a page must exist.
#[derive(Clone, Copy, Debug, PartialEq, Eq)]
pub enum Event {
    /// Loads a page's head, and so sees its whole chain. Answers the head.
    Look { seat: u64, page: u64 },
    /// Stores the top of the chain seen at the page as the link of a record, which is armed then. The seat owns the record,
    /// hasn't posted it, and has nothing else under way. Answers the word stored.
    Link { seat: u64, rec: u64, page: u64 },
    /// Exchanges the page's head for the armed record's word, where the head is still the record's link, and answers that
    /// word. Else the exchange is lost: the present chain is seen, the record must be linked again, and `Lost` has the head.
    Try { seat: u64, rec: u64, page: u64 },
    /// Loads the link of a record of a chain that the seat saw. Changes nothing, and answers the link.
    Follow { seat: u64, rec: u64 },
    /// Takes the next piece of records, or tells the seat that there is none. The seat has nothing under way and wasn't told
    /// yet. Answers the number of the first record that no claim had taken.
    Claim { seat: u64 },
    /// Parts a seat of width 2 or more, with nothing under way, in two: the new book has half the width, and what was seen.
    /// Answers the number of the new book.
    Split { seat: u64 },
    /// The seat `into` takes over what another seat has. Neither has anything under way. Answers the number of the other.
    Join { into: u64, other: u64 },
    /// Exchanges the page's head for the page's spare word, where the head is still the first word, and answers the spare.
    /// Else the seat came late: the present chain is seen, and `Lost` has the head. The page has a spare, and the seat has
    /// nothing under way and didn't try this page before.
    Replace { seat: u64, page: u64 },
}

/// What an event answers. An event whose conditions don't hold is not allowed, and changes nothing.
#[derive(Clone, Copy, Debug, PartialEq, Eq)]
pub enum Played {
    Done(u64),
    Lost(u64),
    NotAllowed,
}

/// What contracts see of a seat's book. No value of it is made. A clause reads an array as a list, of any length.
pub struct BookView {
    /// Whether the seat goes on: not yet joined into another.
    pub live: bool,
    /// The record numbers that it may post.
    pub owned: [Span; 0],
    /// What it posted, oldest first.
    pub posted: [Post; 0],
    /// The record that it is posting.
    pub under: Option<Under>,
    /// For each page the chain of new records that it last saw, newest first.
    pub seen: [[u64; 0]; 0],
    /// For each page the word below the floor that ended that chain.
    pub ends: [u64; 0],
    /// The pages whose first word it tried to replace, oldest first.
    pub swaps: [Swap; 0],
    /// Its part of 1,024.
    pub width: u64,
    /// Whether a claim found no record left.
    pub told: bool,
}
