//! Each atomic step of a board is one event of `bw_core`, but for a load after a join, which changes nothing: one law for each kind
//! of step, over a table's words and its seats' views.
//!
//! A law says that the table is lawful after the step, that its world went on by the event, what the event answered, and what the
//! step tells its seat. Each function has an empty body: its contract is the law.
ghost use Rattle.bw_board.specs.Laws.{OfEachBoard, Looking, Linking, Trying, Following, Claiming, Replacing, Splitting, Joining};

/// A load of a page's head.
pub fn look_is_an_event()
    ensures { OfEachBoard Looking }
{}

/// A store to the link of a record that isn't posted yet.
pub fn link_is_an_event()
    ensures { OfEachBoard Linking }
{}

/// An exchange of a head for a record's word, won or lost.
pub fn try_is_an_event()
    ensures { OfEachBoard Trying }
{}

/// A load of the link of a record that the seat has seen.
pub fn follow_is_an_event()
    ensures { OfEachBoard Following }
{}

/// An addition to the claim word, which gets a piece or finds none.
pub fn claim_is_an_event()
    ensures { OfEachBoard Claiming }
{}

/// An exchange of a page's first word for its spare, won or late.
pub fn replace_is_an_event()
    ensures { OfEachBoard Replacing }
{}

/// A seat that parts in two.
pub fn split_is_an_event()
    ensures { OfEachBoard Splitting }
{}

/// A seat that takes over what another had.
pub fn join_is_an_event()
    ensures { OfEachBoard Joining }
{}
