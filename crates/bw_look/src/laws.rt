// What holds of trees.
ghost use Rattle.bw_look.specs.DeltaNames.{NoDeltaNamesUnreached};

/// The law by which a page's identifier may be given back where the present pages and levels show that nothing leads to it:
/// then no delta of a chain names it, either. It holds of what the rule of each tree says of its mapping words, base pages and
/// records. It does nothing: its contract is the law.
pub fn no_delta_names_unreached()
    ensures { NoDeltaNamesUnreached }
{}
