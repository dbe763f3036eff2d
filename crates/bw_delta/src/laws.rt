// What holds of the definitions.
ghost use Rattle.bw_delta.specs.Batches.{ContentsAreHistory};
ghost use Rattle.bw_delta.specs.ContentsAsOf.{BatchIsReadInTurn};

/// The law that reading as of a stamp rests on: after the first i operations of a batch the value at a key is the
/// history of the batch's writes there as of `base + i`, over the value before the batch. It does nothing: its
/// contract is the law.
pub fn contents_are_history()
    ensures { ContentsAreHistory }
{}

/// The law by which the replies to a batch don't depend on the order in which its writes were put in a chain: as of
/// `base + i` the writes leave the map after the first i operations of the batch. It does nothing: its contract is
/// the law.
pub fn batch_is_read_in_turn()
    ensures { BatchIsReadInTurn }
{}
