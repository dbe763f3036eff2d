// Scans that read one leaf at a time.
ghost use Rattle.std.specs.Prelude.{◌≡◌, ◌≤◌, None, Some, IfOk, IfSome, OnErr};
ghost use Rattle.std.specs.Option.{option_copied};
ghost use Rattle.bw_key.specs.Order.{KeyBytes};
ghost use Rattle.bw_model.specs.Model.{key_of, reply_of};
ghost use Rattle.bw_scan.specs.Cursors.{BeginsAt, IsLeafOf, IsLeafRead, IsReadUpto};
ghost use Rattle.bw_look.specs.View.{contents_at};

use crate::scans::{Order, ReadLeaf, Scans, add_pairs, asks_for_none};
use bw_key::{Key, Memory};
use bw_level::{lower_end, reaches};
use bw_look::Look;
use bw_memory::Alloc;
use bw_model::{Op, Pairs, Reply, is_below};
use bw_page::PageId;
use std::marker::Model;

/// The leaf of a tree that was read last.
///
/// Scans that read a leaf one after another, each as of a stamp that isn't below that of the one before, walk along its chain
/// as often as one of them alone, and each of its writes has its effect once for them. Another leaf, or the same as of an
/// earlier stamp, is read anew. So whoever has many scans lets them read leaf by leaf, those of a leaf in the order of their
/// stamps, as in a cooperative scan (VLDB 2007). The room for what a scan reads of a leaf is kept for the next one.
pub struct LeafCursor<'a> {
    tree: Look<'a>,
    alloc: Alloc,
    leaf: Option<(PageId, ReadLeaf<'a>)>,
    // what a scan reads of a leaf before it gets it, in the room that earlier ones took
    pairs: Pairs,
}

// Not derived: whoever drops one calls this, and its proof is spared the parts.
impl Drop for LeafCursor<'_> {
    fn drop(self) {
        let LeafCursor {
            tree: _tree,
            alloc: _alloc,
            leaf: _leaf,
            pairs: _pairs,
        } = self;
    }
}

impl<'a> Model for LeafCursor<'a> {
    ghost use Rattle.std.specs.Prelude.{IfSome};
    ghost use Rattle.bw_scan.specs.Replaying.{IsKept, ScansView};

    ghost Value = { ScansView };

    ghost view = { λ c. record { tree = c.tree } };

    ghost invariant = { λ c. IfSome c.leaf (λ kept. IsKept c.tree kept.0 kept.1) };
}

impl<'a> LeafCursor<'a> {
    /// No leaf yet. It takes no memory.
    pub fn new(alloc: Alloc, tree: Look<'a>) -> LeafCursor<'a>
        ensures { result.tree ≡ tree.entry }
    {
        LeafCursor {
            tree,
            alloc,
            leaf: None,
            pairs: Pairs::new(alloc),
        }
    }

    /// Goes to the leaf of a key, which scans as of any stamp can read then, and tells where the leaf ends. It costs a search,
    /// and as many steps as the leaf's chain has records. `Memory` is answered where a list finds none.
    pub fn seek(&mut self, key: &Key) -> Result<Option<&'a Key>, Memory>
        ensures { self.new.tree ≡ self.old.tree }
    {
        let (page, leaf) = self.take(key, 0)?;
        let end = leaf.end;
        self.leaf = Some((page, leaf));
        Ok(end)
    }

    // Adds the pairs from a key on and below another that lie on the first key's leaf, as of a stamp, until there are so many
    // in all. It answers where the leaf ends, if pairs may still lie behind it.
    fn read(
        &mut self,
        at: &Key,
        to: Option<&Key>,
        most: u64,
        stamp: u64,
        read: &mut Pairs,
    ) -> Result<Option<&'a Key>, Memory>
        ensures tree { self.new.tree ≡ self.old.tree }
        ensures same { OnErr result (read.new ≡ read.old) }
        ensures read { IfOk result (λ next. (from : KeyBytes) →
            IsReadUpto self.old.tree stamp most from (option_copied to.entry) read.old (Some at.now) →
            IsReadUpto self.old.tree stamp most from (option_copied to.entry) read.new (option_copied next)) }
    {
        self.tree.know_levels();
        let end = self.read_pairs(at, to, most, stamp, read)?;
        if read.len() as u64 >= most {
            return Ok(None);
        }
        Ok(end)
    }

    // Adds them, and answers where the leaf ends, if it doesn't reach the end of the range.
    fn read_pairs(
        &mut self,
        at: &Key,
        to: Option<&Key>,
        most: u64,
        stamp: u64,
        read: &mut Pairs,
    ) -> Result<Option<&'a Key>, Memory>
        ensures tree { self.new.tree ≡ self.old.tree }
        ensures same { OnErr result (read.new ≡ read.old) }
        ensures read { let to = option_copied to.entry in
            IfOk result (IsLeafRead self.old.tree stamp most at.now to read.old read.new) }
    {
        self.tree.know_levels();
        let left = most.saturating_sub(read.len() as u64);
        let (page, leaf) = self.take(at, stamp)?;
        let high = lower_end(leaf.end, to);
        self.pairs.truncate(0);
        add_pairs(&leaf.replay, Order::Rising, at, high, left, &mut self.pairs)?;
        read.extend(&self.pairs.all())?;
        let end = if reaches(leaf.end, to) {
            None
        } else {
            leaf.end
        };
        self.leaf = Some((page, leaf));
        Ok(end)
    }

    // The leaf of a key, with its pairs as of a stamp. It isn't kept here any more.
    fn take(&mut self, key: &Key, stamp: u64) -> Result<(PageId, ReadLeaf<'a>), Memory>
        ensures tree { self.new.tree ≡ self.old.tree }
        ensures leaf { IfOk result (IsLeafOf self.old.tree key.now) }
        ensures stamp { IfOk result (λ leaf. leaf.1.replay.stamp ≡ stamp) }
    {
        let (page, leaf) = match self.take_kept(key, stamp) {
            Some(kept) => kept,
            None => self.new_leaf(key)?,
        };
        let leaf = leaf.as_of(stamp)?;
        Ok((page, leaf))
    }

    // The same, if it was read last, and as of this stamp or an earlier one.
    fn take_kept(&mut self, key: &Key, stamp: u64) -> Option<(PageId, ReadLeaf<'a>)>
        ensures tree { self.new.tree ≡ self.old.tree }
        ensures leaf { IfSome result (IsLeafOf self.old.tree key.now) }
        ensures stamp { IfSome result (λ leaf. leaf.1.replay.stamp ≤ stamp) }
    {
        self.tree.know_levels();
        let (page, leaf) = self.leaf.take()?;
        if *key < *leaf.low || !is_below(key, leaf.end) || leaf.replay.stamp() > stamp {
            return None;
        }
        Some((page, leaf))
    }

    // The same as of stamp 0, from the tree.
    fn new_leaf(&self, key: &Key) -> Result<(PageId, ReadLeaf<'a>), Memory>
        ensures leaf { IfOk result (IsLeafOf self.now.tree key.now) }
        ensures stamp { IfOk result (λ leaf. leaf.1.replay.stamp ≡ 0) }
    {
        let page = self.tree.route(key);
        let leaf = ReadLeaf::new(&self.tree, self.alloc, page)?;
        Ok((page, leaf))
    }
}

/// A scan of a batch that reads one leaf at a time, so that other scans can read the leaf in between.
///
/// It stands for the same scan however many leaves it has read.
pub struct ScanCursor<'a> {
    tree: &'a Look<'a>,
    op: &'a Op,
    stamp: u64,
    // where the scan goes on, if it reads leaf by leaf and has pairs to read
    at: Option<&'a Key>,
    read: Pairs,
}

// Not derived: whoever drops one calls this, and its proof is spared the parts.
impl Drop for ScanCursor<'_> {
    fn drop(self) {
        let ScanCursor {
            tree: _tree,
            op: _op,
            stamp: _stamp,
            at: _at,
            read: _read,
        } = self;
    }
}

impl<'a> Model for ScanCursor<'a> {
    ghost use Rattle.std.specs.Option.{option_copied};
    ghost use Rattle.bw_scan.specs.Cursors.{IsUnderWay, CursorView};

    ghost Value = { CursorView };

    ghost view = { λ c. record { tree = c.tree.now; op = c.op.now; stamp = c.stamp } };

    ghost invariant = { λ c.
        IsUnderWay (record { tree = c.tree.now; op = c.op.now; stamp = c.stamp }) (option_copied c.at) c.read };
}

impl<'a> ScanCursor<'a> {
    /// A scan, as of a stamp, that has read nothing. It takes no memory.
    pub fn new(alloc: Alloc, tree: &'a Look<'a>, op: &'a Op, stamp: u64) -> ScanCursor<'a>
        requires { key_of op.now ≡ None }
        ensures tree { result.tree ≡ tree.now }
        ensures op { result.op ≡ op.now }
        ensures stamp { result.stamp ≡ stamp }
    {
        ScanCursor {
            tree,
            op,
            stamp,
            at: first_key(op),
            read: Pairs::new(alloc),
        }
    }

    /// The key in whose leaf the scan goes on. A scan back has none, nor has one that has all its pairs.
    pub fn at(&self) -> Option<&'a Key> {
        self.at
    }

    /// Reads the pairs on the leaf where the scan goes on, and tells whether it goes on behind that leaf; it says no where it
    /// has found no pair there, unless it began there. So but for the first call and the last one, each call finds a pair if
    /// the one before said yes. A call costs two copies of what the scan finds, and where the leaf is read anew, a search and as
    /// many steps as its chain has records.
    ///
    /// `Memory` is answered where a list or a map finds none; then the scan has read as much as before.
    pub fn read_leaf(&mut self, leaf: &mut LeafCursor<'a>) -> Result<bool, Memory>
        requires { leaf.old.tree ≡ self.old.tree }
        ensures same { self.new ≡ self.old }
        ensures tree { leaf.new.tree ≡ leaf.old.tree }
    {
        let Op::Scan { from, to, most } = self.op else {
            return Ok(false);
        };
        let Some(at) = self.at else {
            return Ok(false);
        };
        let count = self.read.len();
        let next = leaf.read(at, to.as_ref(), *most, self.stamp, &mut self.read)?;
        let has_more = self.read.len() > count || *at == *from;
        self.at = next;
        Ok(has_more && next.is_some())
    }

    /// The reply to the scan, for which these scans read the leaves that it hasn't read.
    pub fn finish(self, scans: &mut Scans<'a>) -> Result<Reply, Memory>
        requires { scans.old.tree ≡ self.tree }
        ensures tree { scans.new.tree ≡ scans.old.tree }
        ensures reply { let contents = contents_at self.entry.tree self.entry.stamp in
            IfOk result (λ reply. reply ≡ reply_of self.entry.op contents) }
    {
        let ScanCursor {
            tree: _tree,
            op,
            stamp,
            at,
            read,
        } = self;
        let pairs = match op {
            Op::Scan { from, to, most } => match at {
                Some(at) => scans.scan_on(from, at, to.as_ref(), *most, stamp, read)?,
                None => read,
            },
            Op::Rscan { from, to, most } => scans.scan_back(from, to.as_ref(), *most, stamp)?,
            _ => unreachable!(),
        };
        Ok(Reply::Pairs(pairs))
    }
}

// Where a scan begins, if it goes forth and asks for a pair.
fn first_key(op: &Op) -> Option<&Key>
    ensures { BeginsAt op.now (option_copied result) }
{
    match op {
        Op::Scan { from, to, most } if !asks_for_none(from, to.as_ref(), *most) => Some(from),
        _ => None,
    }
}
