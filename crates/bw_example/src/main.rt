//! A program that embeds the index: it runs batches, and prints a reply and what the index holds then.
#![tactic(auto)]

ghost use Rattle.std.specs.Prelude.{◌≡◌, OnOk, OnErr};
ghost use Rattle.std.specs.FinMap.{insert};
ghost use Rattle.bw_batch.specs.View.{contents_of};

use anyhow::Result;
use bw_batch::{Index, Key, Op, OpenGate, Options, Reply, Spelled, Value};
use bw_memory::{Alloc, Heap};
use std::thread::Threads;

fn main(rt: HostRuntime) -> Result<()> {
    // All that the index keeps comes from this heap, which never has more than a gigabyte in use.
    let alloc = Heap::within(rt.alloc(), 1 << 30).leak(rt.alloc())?;
    let mut index = Index::new(alloc, Options::default())?;
    put(&rt, alloc, &mut index, b"ada", b"1815")?;

    let mut batch = Vec::new(alloc);
    batch.push(Op::Upsert(Key::new(alloc, b"grace")?, Value::new(alloc, b"1906")?))?;
    batch.push(Op::Get(Key::new(alloc, b"ada")?))?;
    let done = index.run(&rt, &batch, &OpenGate)?;
    for reply in done.replies.as_slice() {
        if let Reply::Found(year) = reply {
            println!(rt; "ada was born in {year}")?;
        }
    }
    let pairs = index.contents()?;
    for place in 0..pairs.len() {
        let (name, year) = (pairs.key_at(place), pairs.value_at(place));
        println!(rt; "{} {}", Spelled(name), Spelled(year))?;
    }
    Ok(())
}

/// Puts a value at a key, by a batch of one operation. That the index holds it then follows from the contract of `run`.
fn put<R: Threads + Sync>(
    rt: &R,
    alloc: Alloc,
    index: &mut Index,
    key: &[u8],
    value: &[u8],
) -> Result<()>
    ensures ok { OnOk result (contents_of index.new ≡ insert (contents_of index.old) key.now value.now) }
    ensures err { OnErr result (contents_of index.new ≡ contents_of index.old) }
{
    let mut batch = Vec::new(alloc);
    batch.push(Op::Upsert(Key::new(alloc, key)?, Value::new(alloc, value)?))?;
    index.run(rt, &batch, &OpenGate)?;
    Ok(())
}
