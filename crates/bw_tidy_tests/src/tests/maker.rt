// Keys, values, operations and replies of numbers.
use crate::tests::assertions::assert_equal;
use bw_batch::{Key, Op, Reply, Value};
use bw_fixtures::{heap, key, value};
use bw_memory::Alloc;
use std::alloc::Global;
use std::process::Abort;

/// Makes them on one heap, and ends the test where there is no memory.
#[derive(Drop)]
pub struct Maker<'a, R: Abort> {
    rt: &'a R,
    pub alloc: Alloc,
}

impl<'a, R: Abort> Maker<'a, R> {
    /// A maker on a heap of its own, which is never freed.
    pub fn new(rt: &'a R, global: Global) -> Maker<'a, R> {
        let alloc = heap(global).expect(rt, "a heap");
        Maker { rt, alloc }
    }

    /// The key of one byte.
    pub fn key(&self, byte: u8) -> Key {
        key(self.alloc, &[byte]).expect(self.rt, "a key")
    }

    /// The value of a number: its four bytes.
    pub fn value(&self, number: u32) -> Value {
        value(self.alloc, &number.to_be_bytes()).expect(self.rt, "a value")
    }

    pub fn get(&self, byte: u8) -> Op {
        Op::Get(self.key(byte))
    }

    pub fn insert(&self, byte: u8, number: u32) -> Op {
        Op::Insert(self.key(byte), self.value(number))
    }

    /// Inserts of the letters up to this one, whose values are their bytes.
    pub fn inserts(&self, last: u8) -> Vec<Op, Alloc> {
        let mut ops = Vec::new(self.alloc);
        for letter in b'a'..=last {
            ops.push(self.insert(letter, letter as u32))
                .expect(self.rt, "memory");
        }
        ops
    }

    pub fn upsert(&self, byte: u8, number: u32) -> Op {
        Op::Upsert(self.key(byte), self.value(number))
    }

    pub fn update(&self, byte: u8, number: u32) -> Op {
        Op::Update(self.key(byte), self.value(number))
    }

    pub fn delete(&self, byte: u8) -> Op {
        Op::Delete(self.key(byte))
    }

    pub fn swap_if(&self, byte: u8, old: u32, new: u32) -> Op {
        Op::SwapIf(self.key(byte), self.value(old), self.value(new))
    }

    // The end of a range, where it has one.
    fn end(&self, to: Option<u8>) -> Option<Key> {
        match to {
            Some(to) => Some(self.key(to)),
            None => None,
        }
    }

    pub fn scan(&self, from: u8, to: Option<u8>, most: u64) -> Op {
        Op::Scan {
            from: self.key(from),
            to: self.end(to),
            most,
        }
    }

    pub fn rscan(&self, from: u8, to: Option<u8>, most: u64) -> Op {
        Op::Rscan {
            from: self.key(from),
            to: self.end(to),
            most,
        }
    }

    pub fn found(&self, number: u32) -> Reply {
        Reply::Found(self.value(number))
    }

    pub fn was(&self, number: u32) -> Reply {
        Reply::Was(self.value(number))
    }
}

/// Compares replies.
pub fn same<R: Abort>(rt: &R, left: &[Reply], right: &[Reply]) {
    assert_equal(rt, left.len(), right.len());
    for (left, right) in left.iter().zip(right) {
        assert_equal(rt, left, right);
    }
}
