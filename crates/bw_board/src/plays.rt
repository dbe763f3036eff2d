//! What each kind of atomic step tells the seat that makes it.
ghost use Rattle.std.specs.Prelude.{ℕ};
ghost use Rattle.bw_board.specs.Plays.{LookTells, LinkTells, TryTells, FollowTells, ClaimTells, SettleTells, ReplaceTells};
ghost use Rattle.bw_board.specs.Plays.{left_of, right_of, both_of, spent_sight};

use crate::table::Sight;
use atomic_table::{Join, Play, Split};
use std::marker::{Brand, PhantomData};

/// A load of a head word.
pub struct Look;

impl Play<u8, Sight> for Look {
    ghost then = { LookTells };
}

/// Which page a record is linked for, and how often it has lost. A word stored doesn't say it, so each call picks it.
pub trait Aim {
    ghost page: { ℕ };

    ghost lost: { ℕ };
}

impl Aim for Brand {
    ghost page = { 0 };

    ghost lost = { 0 };
}

/// A store to the link word of a record.
pub struct Link<J> {
    aim: PhantomData<J>,
}

impl<J: Aim> Play<u8, Sight> for Link<J> {
    ghost then = { LinkTells J.page J.lost };
}

/// An exchange of a head word for a record's word.
pub struct Try;

impl Play<u8, Sight> for Try {
    ghost then = { TryTells };
}

/// A load of a link word.
pub struct Follow;

impl Play<u8, Sight> for Follow {
    ghost then = { FollowTells };
}

/// Two seats of one.
pub struct Halve;

impl Split<Sight> for Halve {
    ghost left = { left_of };

    ghost right = { right_of };
}

/// A load that tells a seat of itself only.
pub struct Settle;

impl Play<u8, Sight> for Settle {
    ghost then = { SettleTells };
}

/// An addition to the claim word.
pub struct Claim;

impl Play<u8, Sight> for Claim {
    ghost then = { ClaimTells };
}

/// An exchange of a page's first word for its spare.
pub struct Replace;

impl Play<u8, Sight> for Replace {
    ghost then = { ReplaceTells };
}

/// One seat of two.
pub struct Both;

impl Join<Sight> for Both {
    ghost both = { both_of };

    ghost spent = { spent_sight };
}
