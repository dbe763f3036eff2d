// How operations and replies are shown.
use crate::operations::{Op, Reply};
use bw_key::{Key, Spelled};
use std::fmt;

/// The line that a trace of version 2 has for it, as `upsert ada 1815` or `scan a * 10`.
impl fmt::Display for Op {
    fn fmt<W: fmt::Write>(&self, f: &mut fmt::Formatter<W>) -> fmt::Result {
        match self {
            Op::Get(key) => write!(f, "get {key}"),
            Op::Insert(key, value) => write!(f, "insert {key} {value}"),
            Op::Upsert(key, value) => write!(f, "upsert {key} {value}"),
            Op::Update(key, value) => write!(f, "update {key} {value}"),
            Op::Delete(key) => write!(f, "delete {key}"),
            Op::SwapIf(key, old, new) => write!(f, "swapif {key} {old} {new}"),
            Op::Scan { from, to, most } => write_scan(f, "scan", from, to, *most),
            Op::Rscan { from, to, most } => write_scan(f, "rscan", from, to, *most),
        }
    }
}

fn write_scan<W: fmt::Write>(
    f: &mut fmt::Formatter<W>,
    word: &str,
    from: &Key,
    to: &Option<Key>,
    most: u64,
) -> fmt::Result {
    match to {
        Some(to) => write!(f, "{word} {from} {to} {most}"),
        None => write!(f, "{word} {from} * {most}"),
    }
}

/// What the program prints for it, as `is 1815`, without the end of its last line. A scan's is a line `scan N` and a line
/// for each pair.
impl fmt::Display for Reply {
    fn fmt<W: fmt::Write>(&self, f: &mut fmt::Formatter<W>) -> fmt::Result {
        match self {
            Reply::Found(value) => write!(f, "is {value}"),
            Reply::Absent => f.write_str("none"),
            Reply::Inserted => f.write_str("inserted"),
            Reply::Held(value) => write!(f, "held {value}"),
            Reply::New => f.write_str("new"),
            Reply::Was(value) => write!(f, "was {value}"),
            Reply::Pairs(pairs) => {
                write!(f, "scan {}", pairs.len())?;
                for (key, value) in pairs {
                    write!(f, "\n{} {}", Spelled(key), Spelled(value))?;
                }
                Ok(())
            }
        }
    }
}
