// Keys, values, operations and pairs from texts.
pub use bw_fixtures::TextPair as Pair;
use bw_fixtures::{TextOp, TextReply, end, heap, key, op, ops, text_pairs, value};
use bw_key::Key;
use bw_memory::Alloc;
use bw_model::{Op, Pairs, Reply, Value};
use std::alloc::Global;
use std::process::Abort;

/// Longer than a key or a value that takes no memory.
pub const LONG: &str = "a text of more than 24 bytes";

/// Makes them on one heap, and ends the test where there is no memory.
#[derive(Drop)]
pub struct Maker<'a, R: Abort> {
    rt: &'a R,
    pub alloc: Alloc,
}

impl<'a, R: Abort> Maker<'a, R> {
    /// A maker on a heap of its own, which is never freed.
    pub fn new(rt: &'a R, global: Global) -> Maker<'a, R> {
        let alloc = heap(global).expect(rt, "a heap");
        Maker { rt, alloc }
    }

    pub fn key(&self, text: &str) -> Key {
        key(self.alloc, text.as_bytes()).expect(self.rt, "a key")
    }

    pub fn end(&self, text: Option<&'static str>) -> Option<Key> {
        end(self.alloc, text).expect(self.rt, "a key")
    }

    pub fn value(&self, text: &str) -> Value {
        value(self.alloc, text.as_bytes()).expect(self.rt, "a value")
    }

    pub fn pairs(&self, texts: &[Pair]) -> Pairs {
        text_pairs(self.alloc, texts).expect(self.rt, "the pairs")
    }

    pub fn op(&self, text: TextOp) -> Op {
        op(self.alloc, text).expect(self.rt, "an operation")
    }

    pub fn ops(&self, texts: &[TextOp]) -> Vec<Op, Alloc> {
        ops(self.alloc, texts).expect(self.rt, "the operations")
    }

    pub fn was(&self, value: &str) -> Reply {
        Reply::Was(self.value(value))
    }

    pub fn reply(&self, text: TextReply) -> Reply {
        match text {
            TextReply::Found(value) => Reply::Found(self.value(value)),
            TextReply::Absent => Reply::Absent,
            TextReply::Inserted => Reply::Inserted,
            TextReply::Held(value) => Reply::Held(self.value(value)),
            TextReply::New => Reply::New,
            TextReply::Was(value) => self.was(value),
            TextReply::Pairs(pairs) => self.scanned(pairs),
        }
    }

    pub fn scanned(&self, pairs: &[Pair]) -> Reply {
        Reply::Pairs(self.pairs(pairs))
    }
}
