// What is written at a key, and when.
ghost use Rattle.std.specs.Prelude.{◌≡◌, ◌++◌, IfOk};
ghost use Rattle.std.specs.Option.{option_copied};
ghost use Rattle.bw_model.specs.Actions.{effect};
ghost use Rattle.bw_delta.specs.Batches.{stamped, write_of, write_size};
ghost use Rattle.bw_delta.specs.Writes.{action_of, one_or_none};

use bw_key::Memory;
use bw_memory::Alloc;
use bw_model::Op;
use smallvec::SmallVec;
use std::marker::Model;

// So many bytes of its key and of its values a write keeps without an allocation.
pub(crate) const WRITE_INLINE: usize = 24;

/// A write at a key. No two writes have one stamp.
///
/// It takes 64 bytes, in which the key and the values lie packed, one behind the other, where they have up to 24 bytes
/// together. More of them take one allocation.
pub struct Write {
    stamp: u64,
    // the key, then the value that a swap waits for, then the value that is put
    bytes: SmallVec<u8, WRITE_INLINE, Alloc>,
    key_len: u8,
    old_len: u16,
    kind: WriteKind,
}

/// What a write does at its key.
#[derive(Clone, Copy)]
pub(crate) enum WriteKind {
    Insert,
    Upsert,
    Update,
    Delete,
    SwapIf,
}

// Not derived: whoever drops one calls this, and its proof is spared the parts.
impl Drop for Write {
    fn drop(self) {
        let Write {
            stamp: _stamp,
            bytes: _bytes,
            key_len: _key_len,
            old_len: _old_len,
            kind: _kind,
        } = self;
    }
}

impl Model for Write {
    ghost use Rattle.std.specs.Prelude.{◌+◌, ◌≤◌, length};
    ghost use Rattle.bw_delta.specs.Writes.{unpacked, WriteView};

    ghost Value = { WriteView };

    ghost view = { λ w. unpacked w.stamp w.kind w.key_len w.old_len w.bytes.items };

    ghost invariant = { λ w. w.key_len + w.old_len ≤ length w.bytes.items };
}

impl Write {
    /// What an operation writes, with this stamp; nothing where it only reads. It copies the key and the values into room
    /// for so many bytes, and takes one growth of `alloc` where that is more than 24. The room is their size (`size_of_op`):
    /// less takes further growths, more is left unused. `Memory` is answered where a growth is refused.
    pub fn from_op(alloc: Alloc, op: &Op, stamp: u64, room: usize) -> Result<Option<Write>, Memory>
        ensures { IfOk result (λ write. one_or_none write ≡ stamped stamp (write_of op.now)) }
    {
        let (kind, key, old, new): (WriteKind, &[u8], &[u8], &[u8]) = match op {
            Op::Get(_) | Op::Scan { .. } | Op::Rscan { .. } => return Ok(None),
            Op::Insert(key, value) => (WriteKind::Insert, key.bytes(), &[], value.bytes()),
            Op::Upsert(key, value) => (WriteKind::Upsert, key.bytes(), &[], value.bytes()),
            Op::Update(key, value) => (WriteKind::Update, key.bytes(), &[], value.bytes()),
            Op::Delete(key) => (WriteKind::Delete, key.bytes(), &[], &[]),
            Op::SwapIf(key, old, new) => (WriteKind::SwapIf, key.bytes(), old.bytes(), new.bytes()),
        };
        Ok(Some(Write {
            stamp,
            bytes: packed_bytes(alloc, room, key, old, new)?,
            key_len: key.len() as u8,
            old_len: old.len() as u16,
            kind,
        }))
    }

    /// How many bytes of its key and its values the write of an operation keeps; none where it only reads. No byte of them is
    /// read.
    pub fn size_of_op(op: &Op) -> usize
        ensures { result ≡ write_size op.now }
    {
        match op {
            Op::Get(_) | Op::Scan { .. } | Op::Rscan { .. } => 0,
            Op::Insert(key, value) | Op::Upsert(key, value) | Op::Update(key, value) => {
                key.bytes().len() + value.bytes().len()
            }
            Op::Delete(key) => key.bytes().len(),
            Op::SwapIf(key, old, new) => {
                key.bytes().len() + old.bytes().len() + new.bytes().len()
            }
        }
    }

    /// When it was written.
    pub fn stamp(&self) -> u64
        ensures { result ≡ self.now.stamp }
    {
        self.stamp
    }

    /// The bytes of its key.
    pub fn key(&self) -> &[u8]
        ensures { result.now ≡ self.now.key }
    {
        &self.bytes.as_slice()[..usize::from(self.key_len)]
    }

    /// The value that it leaves at its key, where that had the value `before`. It takes no memory.
    pub fn effect<'a>(&'a self, before: Option<&'a [u8]>) -> Option<&'a [u8]>
        ensures { option_copied result ≡ effect self.now.action (option_copied before.entry) }
    {
        let (kind, old, new) = self.parts();
        match kind {
            WriteKind::Insert => match before {
                Some(held) => Some(held),
                None => Some(new),
            },
            WriteKind::Upsert => Some(new),
            WriteKind::Update => match before {
                Some(_) => Some(new),
                None => None,
            },
            WriteKind::Delete => None,
            WriteKind::SwapIf => match before {
                Some(held) => Some(if held == old { new } else { held }),
                None => None,
            },
        }
    }

    /// How many bytes its key and the value that it puts have together.
    pub(crate) fn byte_count(&self) -> usize {
        self.bytes.len().saturating_sub(usize::from(self.old_len))
    }

    // What it does, the value that a swap waits for, and the value that is put. A value that it doesn't have is empty.
    fn parts(&self) -> (WriteKind, &[u8], &[u8])
        ensures { self.now.action ≡ action_of result.0 result.1.now result.2.now }
    {
        let values = &self.bytes.as_slice()[usize::from(self.key_len)..];
        let (old, new) = values.split_at(usize::from(self.old_len));
        (self.kind, old, new)
    }
}

// The bytes of a key and of two values, one behind the other, in room for so many.
fn packed_bytes(
    alloc: Alloc,
    room: usize,
    key: &[u8],
    old: &[u8],
    new: &[u8],
) -> Result<SmallVec<u8, WRITE_INLINE, Alloc>, Memory>
    ensures { IfOk result (λ bytes. bytes.items ≡ key.now ++ old.now ++ new.now) }
{
    let mut bytes = SmallVec::with_capacity(alloc, room)?;
    bytes.extend_from_slice(key)?;
    bytes.extend_from_slice(old)?;
    bytes.extend_from_slice(new)?;
    Ok(bytes)
}
