//! The laws of posting, over plain lists of heads, links and books: one for each kind of step.
//!
//! What keeps its own heads and links, as a table of atomic words does, cites them step by step. Each has an empty body: its contract is the law.
ghost use Rattle.bw_core.specs.Keeping.{FreshIsRead, StartIsLawful, LookKeeps, LinkKeeps, WinKeeps, LoseKeeps, FollowKeeps, ClaimKeepsPiece, ClaimKeepsTold, SplitKeeps, JoinKeeps, ReplaceKeepsWon, ReplaceKeepsLate, LateSawMore, EventKeeps, RunKeeps, SparelessPage, ArmedLinkIs, JoinAdds, JoinSeesBoth, ClaimAdds, ClaimTakesFree, ToldIsClaimed, OwnsAlone, LossesBound};

/// A new world is lawful.
pub fn start_is_lawful()
    ensures { StartIsLawful }
{}

/// The chain that a lawful world has at a page is the one that is read from the head by the links.
pub fn fresh_is_read()
    ensures { FreshIsRead }
{}

/// Seeing a page's chain.
pub fn look_keeps()
    ensures { LookKeeps }
{}

/// Storing the top of the seen chain as a record's link.
pub fn link_keeps()
    ensures { LinkKeeps }
{}

/// An exchange that is done: the record becomes the head.
pub fn win_keeps()
    ensures { WinKeeps }
{}

/// An exchange that is lost: the present chain is seen.
pub fn lose_keeps()
    ensures { LoseKeeps }
{}

/// Reading a link.
pub fn follow_keeps()
    ensures { FollowKeeps }
{}

/// A claim that gets the next piece.
pub fn claim_keeps_piece()
    ensures { ClaimKeepsPiece }
{}

/// A claim that finds no record left.
pub fn claim_keeps_told()
    ensures { ClaimKeepsTold }
{}

/// A seat that parts in two.
pub fn split_keeps()
    ensures { SplitKeeps }
{}

/// A seat that takes over what another had.
pub fn join_keeps()
    ensures { JoinKeeps }
{}

/// A page's first word becomes its spare.
pub fn replace_keeps_won()
    ensures { ReplaceKeepsWon }
{}

/// A replacement that comes late: the present chain is seen.
pub fn replace_keeps_late()
    ensures { ReplaceKeepsLate }
{}

/// What came before a late replacement.
pub fn late_saw_more()
    ensures { LateSawMore }
{}

/// Whatever the event and its answer, the world stays lawful.
pub fn event_keeps()
    ensures { EventKeeps }
{}

/// Whatever the list of events, the world stays lawful.
pub fn run_keeps()
    ensures { RunKeeps }
{}

/// At a page without a spare each clause reads as if there were no spares.
pub fn spareless_page()
    ensures { SparelessPage }
{}

/// An armed record's link is the top of an end of the chain that its seat saw last, or a first word that was replaced.
pub fn armed_link_is()
    ensures { ArmedLinkIs }
{}

/// What a joined book owns, posted and replaced is the sum of what two books did.
pub fn join_adds()
    ensures { JoinAdds }
{}

/// What a joined book has seen of a page ends with what either of two seats had seen there.
pub fn join_sees_both()
    ensures { JoinSeesBoth }
{}

/// What a book owns after a claim.
pub fn claim_adds()
    ensures { ClaimAdds }
{}

/// The records that a claim takes were no seat's before it.
pub fn claim_takes_free()
    ensures { ClaimTakesFree }
{}

/// Each record has an owner, once a seat was told that no record is left.
pub fn told_is_claimed()
    ensures { ToldIsClaimed }
{}

/// No two seats own one record.
pub fn owns_alone()
    ensures { OwnsAlone }
{}

/// How many exchanges a seat's posted records can have lost in all.
pub fn losses_bound()
    ensures { LossesBound }
{}
