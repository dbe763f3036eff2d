// The lists that the tests are about.
ghost use Rattle.std.specs.Prelude.{◌+◌, ◌<◌, ◌^◌, length};

use bw_key::Memory;
use bw_memory::{Alloc, Heap};
use bw_packed::{Keyed, Packed};
use std::alloc::Global;
use std::process::Abort;

/// A key of the most bytes.
pub(super) const KEY: &[u8] = &[107; 64];

/// As many bytes as the longest key and the longest value have together.
pub(super) const KEY_AND_VALUE: &[u8] = &[118; 1088];

/// What stands at an entry whose bytes are all its key.
#[derive(Clone, Copy)]
pub(super) struct Child(pub usize);

impl Keyed for Child {
    ghost key = { λ child bytes. bytes };

    fn key<'a>(&self, bytes: &'a [u8]) -> &'a [u8] {
        bytes
    }
}

/// A heap that refuses nothing.
pub(super) fn heap<R: Abort>(rt: &R, global: Global) -> Alloc {
    Heap::new(global).leak(global).expect(rt, "a heap")
}

/// A heap that counts its growths.
pub(super) fn counted<R: Abort>(rt: &R, global: Global) -> Alloc {
    Heap::counted(global).leak(global).expect(rt, "a heap")
}

/// A heap with this limit.
pub(super) fn within<R: Abort>(rt: &R, global: Global, limit: u64) -> Alloc {
    Heap::within(global, limit)
        .leak(global)
        .expect(rt, "a heap")
}

/// Adds these entries to a list. Their tags count from `first` on.
pub(super) fn push_all(
    list: &mut Packed<Child>,
    entries: &[&[u8]],
    first: usize,
) -> Result<(), Memory>
    requires { first + length entries.now < 2 ^ 64 }
{
    for (place, bytes) in entries.iter().enumerate() {
        list.push(bytes, Child(first + place))?;
    }
    Ok(())
}

/// The list of these entries, with their places as tags.
pub(super) fn list_of<R: Abort>(rt: &R, alloc: Alloc, entries: &[&[u8]]) -> Packed<Child> {
    let mut list = Packed::new(alloc);
    push_all(&mut list, entries, 0).expect(rt, "memory");
    list
}

/// Whether a list has these entries, whose tags count from `first` on.
pub(super) fn has(list: &Packed<Child>, entries: &[&[u8]], first: usize) -> bool
    requires { first + length entries.now < 2 ^ 64 }
{
    if list.len() != entries.len() {
        return false;
    }
    for (place, bytes) in entries.iter().enumerate() {
        if list.bytes_at(place) != *bytes || list.tag_at(place).0 != first + place {
            return false;
        }
    }
    true
}
