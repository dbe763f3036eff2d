// Lists of replies, and of pairs of their own.
ghost use Rattle.std.specs.Prelude.{◌≡◌, ◌++◌, ◌∷◌, [], IfOk, OnOk};

use crate::operations::Reply;
use crate::values::Value;
use bw_key::{Key, Memory};
use bw_memory::Alloc;
use bw_packed::Pairs;
use std::marker::Model;

/// The replies to a batch, in its order. Contracts see them as a list.
#[derive(Debug)]
pub struct Replies {
    items: Vec<Reply, Alloc>,
}

// Not derived: whoever drops one calls this, and its proof is spared the parts.
impl Drop for Replies {
    fn drop(self) {
        let Replies { items: _items } = self;
    }
}

impl Model for Replies {
    ghost use Rattle.std.specs.Prelude.{List};
    ghost use Rattle.bw_model.specs.declared.operations.Reply.{Reply};

    ghost Value = { List Reply };

    ghost view = { λ r. r.items.items };
}

impl Replies {
    ghost use Rattle.std.specs.Prelude.{◌≡◌};

    /// The replies that a vector holds.
    pub fn from_vec(items: Vec<Reply, Alloc>) -> Replies
        ensures { result ≡ items.entry.items }
    {
        Replies { items }
    }

    /// The replies, to look at.
    pub fn as_slice(&self) -> &[Reply]
        ensures { result.now ≡ self.now }
    {
        self.items.as_slice()
    }

    /// The replies, to keep.
    pub fn into_vec(self) -> Vec<Reply, Alloc>
        ensures { result.items ≡ self }
    {
        let Replies { items } = self;
        items
    }
}

/// The pairs of a list as keys and values of their own, for whoever keeps or changes them. It takes a growth for the vector,
/// and one for each key and each value of more than 24 bytes. `Memory` is answered where one of them is refused, and for
/// bytes that no key or no value has: more than 64 of the one, or 1,024 of the other.
pub fn to_vec(alloc: Alloc, pairs: &Pairs) -> Result<Vec<(Key, Value), Alloc>, Memory>
    ensures { IfOk result (λ list. list.items ≡ pairs.now) }
{
    let mut list = Vec::with_capacity(alloc, pairs.len())?;
    for (key, value) in pairs {
        push_copy(alloc, &mut list, key, value)?;
    }
    Ok(list)
}

// Adds a key and a value with these bytes.
fn push_copy(
    alloc: Alloc,
    list: &mut Vec<(Key, Value), Alloc>,
    key: &[u8],
    value: &[u8],
) -> Result<(), Memory>
    ensures { OnOk result (list.new.items ≡ list.old.items ++ (key.now, value.now) ∷ []) }
{
    let key = Key::from_bytes(alloc, key)?;
    list.push((key, Value::from_bytes(alloc, value)?))?;
    Ok(())
}
