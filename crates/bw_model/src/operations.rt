// The operations of a batch, and the replies to them.
ghost use Rattle.std.specs.Prelude.{◌≡◌, IfOk, is_some, true};
ghost use Rattle.std.specs.Option.{option_copied};
ghost use Rattle.bw_model.specs.Actions.{effect, answer};
ghost use Rattle.bw_model.specs.Model.{key_of, IsReplyAt};
ghost use Rattle.bw_model.specs.Verbs.{verb_of};

use crate::values::Value;
use crate::verbs::{Verb, swap_reply};
use bw_key::{Key, Memory};
use bw_memory::Alloc;
use bw_packed::Pairs;

/// An operation on the index. Operations of a batch take effect in its order.
#[derive(Clone, Debug, Drop, PartialEq, Eq)]
pub enum Op {
    /// Reads a key's value.
    Get(Key),
    /// Puts a value at a key that has none.
    Insert(Key, Value),
    /// Puts a value at a key, in place of one that stands there.
    Upsert(Key, Value),
    /// Puts a value at a key in place of the one that stands there, and nothing where none does.
    Update(Key, Value),
    /// Removes a key and its value.
    Delete(Key),
    /// Puts the second value at a key that has the first.
    SwapIf(Key, Value, Value),
    /// Reads the first `most` pairs, in key order, from the key `from` on and below `to`. No `to` is no upper end.
    Scan {
        from: Key,
        to: Option<Key>,
        most: u64,
    },
    /// Reads the last `most` pairs of the same range, the greatest key first.
    Rscan {
        from: Key,
        to: Option<Key>,
        most: u64,
    },
}

/// What a write does with the optional value at its key.
#[derive(Debug, PartialEq, Eq)]
pub enum Action {
    /// Puts the value where there is none.
    Insert(Value),
    /// Puts the value.
    Upsert(Value),
    /// Puts the value in place of one.
    Update(Value),
    /// Takes the value away.
    Delete,
    /// Puts the second value in place of the first.
    SwapIf(Value, Value),
}

// Not derived: whoever drops one calls this, and its proof is spared the parts.
impl Drop for Action {
    fn drop(self) {
        match self {
            Action::Insert(_value) | Action::Upsert(_value) | Action::Update(_value) => {}
            Action::Delete => {}
            Action::SwapIf(_old, _new) => {}
        }
    }
}

/// The reply to an operation.
#[derive(Clone, Debug, Drop, PartialEq, Eq)]
pub enum Reply {
    /// The key has this value.
    Found(Value),
    /// The key has no value, and nothing was changed.
    Absent,
    /// A value was put where there was none, by `Insert`.
    Inserted,
    /// The key has this value, and it was left.
    Held(Value),
    /// A value was put where there was none, by `Upsert`.
    New,
    /// This value was replaced or removed.
    Was(Value),
    /// The pairs of a scan.
    Pairs(Pairs),
}

impl Op {
    /// The key that it reads or writes, where it is one: a scan has none.
    pub fn key(&self) -> Option<&Key>
        ensures { option_copied result ≡ key_of self.now }
    {
        match self {
            Op::Get(key)
            | Op::Insert(key, _)
            | Op::Upsert(key, _)
            | Op::Update(key, _)
            | Op::Delete(key)
            | Op::SwapIf(key, _, _) => Some(key),
            Op::Scan { .. } | Op::Rscan { .. } => None,
        }
    }

    /// What it does at its key, where that and the value there tell its reply: a swap and a scan have no such verb.
    pub fn verb(&self) -> Option<Verb>
        ensures { result ≡ verb_of self.now }
    {
        match self {
            Op::Get(_) => Some(Verb::Get),
            Op::Insert(_, _) => Some(Verb::Insert),
            Op::Upsert(_, _) => Some(Verb::Upsert),
            Op::Update(_, _) => Some(Verb::Update),
            Op::Delete(_) => Some(Verb::Delete),
            Op::SwapIf(_, _, _) | Op::Scan { .. } | Op::Rscan { .. } => None,
        }
    }

    /// The reply to this operation where its key has the value `before`, whatever else there is. It isn't a scan.
    /// `Memory` is answered where a copy of that value finds none in `alloc`.
    pub fn reply_at(&self, alloc: Alloc, before: Option<&[u8]>) -> Result<Reply, Memory>
        requires { is_some (key_of self.now) ≡ true }
        ensures { IfOk result (IsReplyAt self.now (option_copied before.entry)) }
    {
        match self {
            Op::Get(_) => Verb::Get.reply_at(alloc, before),
            Op::Insert(_, _) => Verb::Insert.reply_at(alloc, before),
            Op::Upsert(_, _) => Verb::Upsert.reply_at(alloc, before),
            Op::Update(_, _) => Verb::Update.reply_at(alloc, before),
            Op::Delete(_) => Verb::Delete.reply_at(alloc, before),
            Op::SwapIf(_, old, _) => swap_reply(alloc, before, old.bytes()),
            Op::Scan { .. } | Op::Rscan { .. } => unreachable!(),
        }
    }
}

impl Action {
    /// The value that this write leaves at a key that had the value `before`. It takes no memory.
    pub fn effect<'a>(&'a self, before: Option<&'a [u8]>) -> Option<&'a [u8]>
        ensures { option_copied result ≡ effect self.now (option_copied before.entry) }
    {
        match self {
            Action::Insert(value) => match before {
                Some(held) => Some(held),
                None => Some(value.bytes()),
            },
            Action::Upsert(value) => Some(value.bytes()),
            Action::Update(value) => match before {
                Some(_) => Some(value.bytes()),
                None => None,
            },
            Action::Delete => None,
            Action::SwapIf(old, new) => match before {
                Some(held) => Some(if held == old.bytes() {
                    new.bytes()
                } else {
                    held
                }),
                None => None,
            },
        }
    }

    /// The reply to this write at a key that had the value `before`. `Memory` is answered where a copy of that
    /// value finds none in `alloc`.
    pub fn answer(&self, alloc: Alloc, before: Option<&[u8]>) -> Result<Reply, Memory>
        ensures { IfOk result (λ reply. reply ≡ answer self.now (option_copied before.entry)) }
    {
        match self {
            Action::Insert(_) => Verb::Insert.reply_at(alloc, before),
            Action::Upsert(_) => Verb::Upsert.reply_at(alloc, before),
            Action::Update(_) => Verb::Update.reply_at(alloc, before),
            Action::Delete => Verb::Delete.reply_at(alloc, before),
            Action::SwapIf(old, _) => swap_reply(alloc, before, old.bytes()),
        }
    }
}
