//! The words of a board, and what always holds of them.
use atomic_table::{Seat, Shared, TableRule};
use bw_core::BookView;
use bw_memory::Alloc;

/// Two books. No value of it is made.
pub struct Pair {
    pub left: BookView,
    pub right: BookView,
}

/// What a seat knows: what never changes, the word that it stored last in a link, the books that its last join made one, and its
/// book. No value of it is made.
pub struct Sight {
    pub first: [u64; 0],
    pub floor: u64,
    pub records: u64,
    pub piece: u64,
    pub spares: [Option<u64>; 0],
    pub link: u64,
    pub joined: Option<Pair>,
    pub book: BookView,
}

/// What never changes, as a board is opened with it: the head words, the word of the first record, the number of records and of
/// those that a claim takes, and for some pages the word that may replace their first one.
#[derive(Drop)]
pub struct Origin {
    pub heads: Vec<u64, Alloc>,
    pub floor: u64,
    pub records: u64,
    pub piece: u64,
    pub spares: Vec<Option<u64>, Alloc>,
}

/// The rule of the table: its words and the books of its seats are a lawful world.
///
/// Word 0 is the first record that no claim has taken, then comes a head word for each page, then a link word for each record.
pub struct LawfulTable;

impl TableRule<u8, Sight, Origin> for LawfulTable {
    ghost use Rattle.bw_board.specs.Rule.{HasLawfulWorld, opening_sight};

    ghost holds = { λ k. HasLawfulWorld k.heads.items k.floor k.records k.piece k.spares.items };

    ghost first = { λ k. opening_sight k.heads.items k.floor k.records k.piece k.spares.items };
}

/// The words, through which each thread steps.
pub type Words = Shared<u8, Sight, Origin, LawfulTable>;

/// A seat at the table. It holds no slot.
pub type Place = Seat<u8, Sight>;
