// What holds of chains.
ghost use Rattle.bw_chain.specs.Supports.{PageIsKept};

/// The law by which the other pages stay as they are when a base page is added or takes the place of another: a page is the
/// same over other base pages, where the one on which it rests is. It does nothing: its contract is the law.
pub fn page_is_kept()
    ensures { PageIsKept }
{}
