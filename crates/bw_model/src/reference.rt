// The ordered map that one thread runs operations on.
ghost use Rattle.std.specs.Prelude.{◌≡◌, IfOk, OnOk, OnErr};
ghost use Rattle.std.specs.Option.{option_copied};
ghost use Rattle.std.specs.FinMap as map;
ghost use Rattle.bw_model.specs.Contents.{set_at, first_of_range, last_of_range};
ghost use Rattle.bw_model.specs.Model.{answer_at, written_at, found, reply_of, after, replies_of, contents_after};

use crate::lists::Replies;
use crate::operations::{Action, Op, Reply};
use crate::sorted;
use crate::values::Value;
use bw_key::{Key, Memory};
use bw_memory::Alloc;
use bw_packed::Pairs;
use std::marker::Model;

/// An ordered map from keys to values, kept as one sorted list of pairs: the plain program that says what an index
/// answers. Every faster index is tested against it.
///
/// An operation reads the list from its front, so it costs as many key comparisons as there are pairs.
#[derive(Debug, Drop)]
pub struct ReferenceMap {
    pairs: Vec<(Key, Value), Alloc>,
}

impl Model for ReferenceMap {
    ghost use Rattle.std.specs.Prelude.{T};
    ghost use Rattle.std.specs.FinMap.{from_sorted, is_sorted};
    ghost use Rattle.bw_key.specs.Order.{key_cmp};
    ghost use Rattle.bw_model.specs.Contents.{Contents};
    ghost use Rattle.bw_model.specs.Values.{ValueBytes};
    ghost use Rattle.bw_model.specs.Codes.{coded_contents};

    ghost Value = { Contents ValueBytes };

    ghost coded = { coded_contents };

    ghost view = { λ t. from_sorted t.pairs.items };

    ghost invariant = { λ t. T (is_sorted key_cmp t.pairs.items) };
}

impl ReferenceMap {
    /// An empty map. It takes no memory.
    pub fn new(alloc: Alloc) -> ReferenceMap
        ensures { result ≡ map.empty }
    {
        ReferenceMap {
            pairs: Vec::new(alloc),
        }
    }

    /// An equal map.
    pub fn copy(&self) -> Result<ReferenceMap, Memory>
        ensures { IfOk result (λ copy. copy ≡ self.now) }
    {
        let pairs = sorted::copy_of(*self.pairs.allocator(), &self.pairs)?;
        Ok(ReferenceMap { pairs })
    }

    /// All pairs, in the order of their keys.
    pub fn entries(&self) -> Result<Pairs, Memory>
        ensures { IfOk result (λ pairs. pairs ≡ map.entries self.now) }
    {
        sorted::packed(*self.pairs.allocator(), &self.pairs)
    }

    /// The value at a key. It takes no memory.
    pub fn get(&self, key: &Key) -> Option<&[u8]>
        ensures { option_copied result ≡ map.get self.now key.now }
    {
        sorted::value_at(&self.pairs, key)
    }

    /// The first pairs from the key `from` on and below `to`, `most` at the most.
    pub fn scan(&self, from: &Key, to: Option<&Key>, most: u64) -> Result<Pairs, Memory>
        ensures { IfOk result (λ pairs. pairs ≡ first_of_range self.now from.now (option_copied to.entry) most) }
    {
        sorted::first_of(*self.pairs.allocator(), &self.pairs, from, to, most)
    }

    /// The last pairs from the key `from` on and below `to`, the greatest key first, `most` at the most.
    pub fn rscan(&self, from: &Key, to: Option<&Key>, most: u64) -> Result<Pairs, Memory>
        ensures { IfOk result (λ pairs. pairs ≡ last_of_range self.now from.now (option_copied to.entry) most) }
    {
        sorted::last_of(*self.pairs.allocator(), &self.pairs, from, to, most)
    }

    // Puts a value at a key, or takes it away.
    fn set(&mut self, key: &Key, value: Option<Value>) -> Result<(), Memory>
        ensures ok { OnOk result (self.new ≡ set_at self.old key.now value) }
        ensures err { OnErr result (self.new ≡ self.old) }
    {
        match value {
            Some(value) => sorted::put_at(&mut self.pairs, key.copy()?, value)?,
            None => sorted::remove_at(&mut self.pairs, key),
        }
        Ok(())
    }

    /// Answers a write at a key. After `Memory` nothing is changed.
    pub fn write(&mut self, key: &Key, action: &Action) -> Result<Reply, Memory>
        ensures reply { IfOk result (λ reply. reply ≡ answer_at self.old key.now action.now) }
        ensures ok { OnOk result (self.new ≡ written_at self.old key.now action.now) }
        ensures err { OnErr result (self.new ≡ self.old) }
    {
        let alloc = *self.pairs.allocator();
        let before = self.get(key);
        let reply = action.answer(alloc, before)?;
        let left = match action.effect(before) {
            Some(value) => Some(Value::from_bytes(alloc, value)?),
            None => None,
        };
        self.set(key, left)?;
        Ok(reply)
    }

    // Answers a write that was made for it.
    fn write_made(&mut self, key: &Key, action: Action) -> Result<Reply, Memory>
        ensures reply { IfOk result (λ reply. reply ≡ answer_at self.old key.now action) }
        ensures ok { OnOk result (self.new ≡ written_at self.old key.now action) }
        ensures err { OnErr result (self.new ≡ self.old) }
    {
        self.write(key, &action)
    }

    // Answers a get.
    fn read(&self, key: &Key) -> Result<Reply, Memory>
        ensures { IfOk result (λ reply. reply ≡ found (map.get self.now key.now)) }
    {
        match self.get(key) {
            Some(value) => {
                let found = Value::from_bytes(*self.pairs.allocator(), value)?;
                Ok(Reply::Found(found))
            }
            None => Ok(Reply::Absent),
        }
    }

    /// Answers an operation. After `Memory` nothing is changed.
    pub fn apply(&mut self, op: &Op) -> Result<Reply, Memory>
        ensures reply { IfOk result (λ reply. reply ≡ reply_of op.now self.old) }
        ensures ok { OnOk result (self.new ≡ after op.now self.old) }
        ensures err { OnErr result (self.new ≡ self.old) }
    {
        match op {
            Op::Get(key) => self.read(key),
            Op::Insert(key, value) => self.write_made(key, Action::Insert(value.copy()?)),
            Op::Upsert(key, value) => self.write_made(key, Action::Upsert(value.copy()?)),
            Op::Update(key, value) => self.write_made(key, Action::Update(value.copy()?)),
            Op::Delete(key) => self.write_made(key, Action::Delete),
            Op::SwapIf(key, old, new) => {
                self.write_made(key, Action::SwapIf(old.copy()?, new.copy()?))
            }
            Op::Scan { from, to, most } => Ok(Reply::Pairs(self.scan(from, to.as_ref(), *most)?)),
            Op::Rscan { from, to, most } => Ok(Reply::Pairs(self.rscan(from, to.as_ref(), *most)?)),
        }
    }

    // Answers operations one after another. After `Memory` some took effect.
    fn apply_all(&mut self, ops: &[Op]) -> Result<Replies, Memory>
        ensures replies { IfOk result (λ replies. replies ≡ replies_of ops.now self.old) }
        ensures contents { OnOk result (self.new ≡ contents_after ops.now self.old) }
    {
        let mut replies = Vec::with_capacity(*self.pairs.allocator(), ops.len())?;
        for op in ops {
            replies.push(self.apply(op)?)?;
        }
        Ok(Replies::from_vec(replies))
    }

    /// Answers a batch: its operations one after another, or none of them. After `Memory` nothing is changed. It
    /// copies the map once.
    pub fn run(&mut self, ops: &[Op]) -> Result<Replies, Memory>
        ensures replies { IfOk result (λ replies. replies ≡ replies_of ops.now self.old) }
        ensures contents { OnOk result (self.new ≡ contents_after ops.now self.old) }
        ensures err { OnErr result (self.new ≡ self.old) }
    {
        let mut next = self.copy()?;
        let replies = next.apply_all(ops)?;
        *self = next;
        Ok(replies)
    }
}
