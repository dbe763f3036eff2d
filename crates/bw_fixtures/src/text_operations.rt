// Operations and replies from texts.
use crate::sample_pairs::{key, pair, value};
use bw_key::{Key, Memory};
use bw_memory::Alloc;
use bw_model::{Op, Pairs, Reply, Value};

/// A key and its value, in texts.
pub type TextPair = (&'static str, &'static str);

/// An operation, with texts for its keys and values.
#[derive(Clone, Copy)]
pub enum TextOp {
    Get(&'static str),
    Insert(&'static str, &'static str),
    Upsert(&'static str, &'static str),
    Update(&'static str, &'static str),
    Delete(&'static str),
    SwapIf(&'static str, &'static str, &'static str),
    Scan(&'static str, Option<&'static str>, u64),
    Rscan(&'static str, Option<&'static str>, u64),
}

/// A reply, with texts for its keys and values.
#[derive(Clone, Copy)]
pub enum TextReply {
    Found(&'static str),
    Absent,
    Inserted,
    Held(&'static str),
    New,
    Was(&'static str),
    Pairs(&'static [TextPair]),
}

/// The operation of these texts. Each of more than 24 bytes takes one growth, and `Memory` is answered where that is
/// refused.
pub fn op(alloc: Alloc, text: TextOp) -> Result<Op, Memory> {
    match text {
        TextOp::Get(at) => Ok(Op::Get(key(alloc, at.as_bytes())?)),
        TextOp::Insert(at, put) => insert(pair(alloc, at.as_bytes(), put.as_bytes())?),
        TextOp::Upsert(at, put) => upsert(pair(alloc, at.as_bytes(), put.as_bytes())?),
        TextOp::Update(at, put) => update(pair(alloc, at.as_bytes(), put.as_bytes())?),
        TextOp::Delete(at) => Ok(Op::Delete(key(alloc, at.as_bytes())?)),
        TextOp::SwapIf(at, old, new) => swap_if(alloc, at, old, new),
        TextOp::Scan(from, to, most) => scan(alloc, from, to, most),
        TextOp::Rscan(from, to, most) => rscan(alloc, from, to, most),
    }
}

fn insert((key, value): (Key, Value)) -> Result<Op, Memory> {
    Ok(Op::Insert(key, value))
}

fn upsert((key, value): (Key, Value)) -> Result<Op, Memory> {
    Ok(Op::Upsert(key, value))
}

fn update((key, value): (Key, Value)) -> Result<Op, Memory> {
    Ok(Op::Update(key, value))
}

fn swap_if(alloc: Alloc, at: &str, old: &str, new: &str) -> Result<Op, Memory> {
    let (key, old) = pair(alloc, at.as_bytes(), old.as_bytes())?;
    Ok(Op::SwapIf(key, old, value(alloc, new.as_bytes())?))
}

fn scan(alloc: Alloc, from: &str, to: Option<&'static str>, most: u64) -> Result<Op, Memory> {
    let from = key(alloc, from.as_bytes())?;
    let to = end(alloc, to)?;
    Ok(Op::Scan { from, to, most })
}

fn rscan(alloc: Alloc, from: &str, to: Option<&'static str>, most: u64) -> Result<Op, Memory> {
    let from = key(alloc, from.as_bytes())?;
    let to = end(alloc, to)?;
    Ok(Op::Rscan { from, to, most })
}

/// The end of a range, where it has one.
pub fn end(alloc: Alloc, text: Option<&'static str>) -> Result<Option<Key>, Memory> {
    match text {
        Some(text) => Ok(Some(key(alloc, text.as_bytes())?)),
        None => Ok(None),
    }
}

/// The operations of these texts. `Memory` is answered where one of them, or their list, finds none.
pub fn ops(alloc: Alloc, texts: &[TextOp]) -> Result<Vec<Op, Alloc>, Memory> {
    let mut ops = Vec::with_capacity(alloc, texts.len())?;
    for text in texts {
        ops.push(op(alloc, *text)?)?;
    }
    Ok(ops)
}

/// The pairs of these texts. `Memory` is answered where one of them, or their list, finds none.
pub fn text_pairs(alloc: Alloc, texts: &[TextPair]) -> Result<Pairs, Memory> {
    let mut pairs = Pairs::new(alloc);
    for (at, text) in texts {
        pairs.push(at.as_bytes(), text.as_bytes())?;
    }
    Ok(pairs)
}

/// Whether pairs have these texts.
pub fn have_texts(pairs: &Pairs, texts: &[TextPair]) -> bool {
    if pairs.len() != texts.len() {
        return false;
    }
    for (place, (at, text)) in texts.iter().enumerate() {
        if pairs.key_at(place) != at.as_bytes() || pairs.value_at(place) != text.as_bytes() {
            return false;
        }
    }
    true
}

/// Whether a reply has these texts. It takes no memory.
pub fn is_reply(reply: &Reply, text: TextReply) -> bool {
    match text {
        TextReply::Found(text) => matches!(reply, Reply::Found(value) if is_value(value, text)),
        TextReply::Absent => matches!(reply, Reply::Absent),
        TextReply::Inserted => matches!(reply, Reply::Inserted),
        TextReply::Held(text) => matches!(reply, Reply::Held(value) if is_value(value, text)),
        TextReply::New => matches!(reply, Reply::New),
        TextReply::Was(text) => matches!(reply, Reply::Was(value) if is_value(value, text)),
        TextReply::Pairs(texts) => {
            matches!(reply, Reply::Pairs(pairs) if have_texts(pairs, texts))
        }
    }
}

// Whether a value is that of a text.
fn is_value(value: &Value, text: &str) -> bool {
    value.bytes() == text.as_bytes()
}

/// Whether replies have these texts. It takes no memory.
pub fn are_replies(replies: &[Reply], texts: &[TextReply]) -> bool {
    if replies.len() != texts.len() {
        return false;
    }
    for (reply, text) in replies.iter().zip(texts) {
        if !is_reply(reply, *text) {
            return false;
        }
    }
    true
}
