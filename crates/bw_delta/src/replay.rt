// The pairs of a page as of a stamp that rises.
ghost use Rattle.std.specs.Prelude.{◌≡◌, ◌≤◌, ◌++◌, T, Option, List, take, reverse, filter, length, IfOk, OnOk};
ghost use Rattle.std.specs.Option.{option_copied};
ghost use Rattle.std.specs.FinMap.{is_sorted};
ghost use Rattle.bw_key.specs.Order.{KeyBytes, key_cmp};
ghost use Rattle.bw_model.specs.Contents.{is_pair_in_range};
ghost use Rattle.bw_model.specs.Values.{ValueBytes};
ghost use Rattle.bw_delta.specs.History.{pointed_to, HasDistinctStamps};
ghost use Rattle.bw_delta.specs.PagePairs.{parts_of, value_in_parts};
ghost use Rattle.bw_delta.specs.Replays.{IsReplayOf, StaysUntil};
ghost use Rattle.bw_delta.specs.Writes.{WriteView};

use crate::present::Present;
use crate::reading::in_order;
use crate::writes::Write;
use bw_key::{Key, Memory};
use bw_memory::Alloc;
use bw_model::Pairs;
use bw_page::Leaf;
use std::marker::Model;

/// The pairs of a page as of a stamp that rises. However many stamps they are read as of, each write has its effect once.
///
/// The pairs of one part are read where they stand, and of the keys that writes changed the values now are kept in an
/// ordered map, until they are more than eight and an eighth of the pairs: then they are put among a copy of these. So a write
/// costs searches, a copy of its key and value, and in the long run one of some eight pairs beside it, and a read of a range
/// passes few changed keys.
pub struct Replay<'a> {
    stamp: u64,
    present: Present<'a>,
    // in the order of their stamps
    writes: Vec<&'a Write, Alloc>,
    // how many of the writes had their effects
    passed: usize,
}

// Not derived: whoever drops one calls this, and its proof is spared the parts.
impl Drop for Replay<'_> {
    fn drop(self) {
        let Replay {
            stamp: _stamp,
            present: _present,
            writes: _writes,
            passed: _passed,
        } = self;
    }
}

impl<'a> Model for Replay<'a> {
    ghost use Rattle.std.specs.Prelude.{◌≤◌, drop, length};
    ghost use Rattle.bw_delta.specs.History.{pointed_to};
    ghost use Rattle.bw_delta.specs.Present.{present_pairs};
    ghost use Rattle.bw_delta.specs.Replays.{ReplayView};
    ghost use Rattle.bw_delta.specs.Rising.{HasRisingStamps};

    ghost Value = { ReplayView };

    ghost view = { λ r. record {
      stamp = r.stamp;
      pairs = present_pairs r.present;
      rest = pointed_to (drop r.passed r.writes.items);
    } };

    ghost invariant = { λ r. (r.passed ≤ length r.writes.items)
        × HasRisingStamps r.stamp (pointed_to (drop r.passed r.writes.items)) };
}

impl<'a> Replay<'a> {
    /// As of stamp 0: the pairs of the parts, of two with one key that of the first part. The slice of writes may have any
    /// order. What it answers of keys that aren't below `high` means nothing: ask it for keys below alone.
    ///
    /// The m writes cost about m log2 m comparisons. One part costs nothing; the n pairs of several cost about n log2 n
    /// comparisons, and two copies of each key and value. `Memory` is answered where a map, a list or a copy finds none.
    pub fn new(
        alloc: Alloc,
        parts: &[&'a Leaf],
        high: Option<&Key>,
        writes: &[&'a Write],
    ) -> Result<Replay<'a>, Memory>
        requires { HasDistinctStamps (pointed_to writes.now) }
        ensures stamp { IfOk result (λ replay. replay.stamp ≡ 0) }
        ensures replay { IfOk result (IsReplayOf (value_in_parts (parts_of parts.now)) (option_copied high.entry)
            (pointed_to writes.now)) }
    {
        Ok(Replay {
            stamp: 0,
            present: Present::of_parts(alloc, parts, high)?,
            writes: in_order(alloc, writes)?,
            passed: 0,
        })
    }

    /// The stamp that the pairs are as of.
    pub fn stamp(&self) -> u64
        ensures { result ≡ self.now.stamp }
    {
        self.stamp
    }

    /// The stamp of the first write that had no effect yet, or the greatest number where there is none: as of the stamps up to
    /// this one the pairs are the same. It costs one step.
    pub fn until(&self) -> u64
        ensures { StaysUntil self.now result }
    {
        match self.writes[self.passed..].first() {
            Some(write) => write.stamp(),
            None => u64::MAX,
        }
    }

    /// The replay as of a stamp that isn't below its own: each write with a smaller one has its effect, at the cost of a copy
    /// of its key and up to two searches of the page and two among the changed keys, and of a copy of the value that it leaves
    /// where it changes that. Where many keys are changed then, the changes are made in a copy of the page's pairs, which
    /// costs some eight of these for each change; where that finds no memory, they stay beside them. After `Memory` the replay
    /// is gone, and its parts and writes are as they were.
    pub fn advance(self, stamp: u64) -> Result<Replay<'a>, Memory>
        requires { self.stamp ≤ stamp }
        ensures stamp { IfOk result (λ replay. replay.stamp ≡ stamp) }
        ensures replay { IfOk result (λ replay.
            (start : KeyBytes → Option ValueBytes) (high : Option KeyBytes) (writes : List WriteView) →
            IsReplayOf start high writes self.entry → IsReplayOf start high writes replay) }
    {
        let Replay {
            stamp: _stamp,
            present,
            writes,
            passed,
        } = self;
        let alloc = *writes.allocator();
        let (present, more) = present.put_writes(alloc, &writes[passed..], stamp)?;
        Ok(Replay {
            stamp,
            present: present.settle(alloc),
            writes,
            passed: passed + more,
        })
    }

    /// Adds the first pairs from `low` on and below `high` to a list, no more than `most` of them. It costs a search for the
    /// range, one for each key there that was changed, also where it has no value now, and a copy of each block between two
    /// of these. `Memory` is answered where the list finds none, and then some may have been added.
    pub fn add_first(
        &self,
        low: &Key,
        high: Option<&Key>,
        most: u64,
        read: &mut Pairs,
    ) -> Result<(), Memory>
        ensures sorted { T (is_sorted key_cmp self.now.pairs) }
        ensures kept { take (length read.old) read.new ≡ read.old }
        ensures added { OnOk result (read.new
            ≡ read.old ++ take most (filter (is_pair_in_range low.now
            (option_copied high.entry)) self.now.pairs)) }
    {
        self.present.add_first(low, high, most, read)
    }

    /// Adds the last pairs from `low` on and below `high` to a list, the greatest key first, no more than `most` of them.
    /// It costs what `add_first` does, but copies pair by pair.
    pub fn add_last(
        &self,
        low: &Key,
        high: Option<&Key>,
        most: u64,
        read: &mut Pairs,
    ) -> Result<(), Memory>
        ensures sorted { T (is_sorted key_cmp self.now.pairs) }
        ensures kept { take (length read.old) read.new ≡ read.old }
        ensures added { OnOk result (read.new
            ≡ read.old ++ take most (reverse (filter
            (is_pair_in_range low.now (option_copied high.entry)) self.now.pairs))) }
    {
        self.present.add_last(low, high, most, read)
    }
}
