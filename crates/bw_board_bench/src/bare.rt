//! Records put before a chain by exchanges of std's atomic words, with nothing proved of them.
ghost use Rattle.std.specs.Prelude.{◌≡◌, ◌≤◌, ◌<◌, IfOk, vec_len};

use crate::{Load, PIECE, Tally, Timed};
use anyhow::Result;
use bw_memory::Alloc;
use std::sync::atomic::AtomicU64;
use std::sync::atomic::Ordering::SeqCst;
use std::thread;
use std::thread::Threads;
use std::time::{Clock, Instant};

// Words below this one end the chain.
const FLOOR: u64 = 4_294_967_296;

// The head of a chain, the next record to claim, and the link of each record.
#[derive(Drop)]
struct Words {
    head: AtomicU64,
    next: AtomicU64,
    links: Vec<AtomicU64, Alloc>,
}

fn new_words(alloc: Alloc, records: u64) -> Result<Words>
    ensures { IfOk result (λ w. vec_len w.links ≡ records) }
{
    let mut links = Vec::new(alloc);
    for _ in 0..records {
        links.push(AtomicU64::new(0))?;
    }
    Ok(Words {
        head: AtomicU64::new(0),
        next: AtomicU64::new(0),
        links,
    })
}

// Puts the record before the chain by exchanges of the head. Says how many were lost.
fn exchange(words: &Words, rec: u64) -> u64 {
    let mut seen = words.head.load(SeqCst);
    for lost in 0..u64::MAX {
        match words
            .head
            .compare_exchange(seen, FLOOR | rec, SeqCst, SeqCst)
        {
            Ok(_) => return lost,
            Err(found) => seen = found,
        }
    }
    u64::MAX
}

// The same, where the record's link is stored before each exchange.
fn link_and_exchange(words: &Words, rec: u64) -> u64
    requires { rec < vec_len words.now.links }
{
    let mut seen = words.head.load(SeqCst);
    for lost in 0..u64::MAX {
        words.links[rec as usize].store(seen, SeqCst);
        match words
            .head
            .compare_exchange(seen, FLOOR | rec, SeqCst, SeqCst)
        {
            Ok(_) => return lost,
            Err(found) => seen = found,
        }
    }
    u64::MAX
}

// Claims a piece and puts its records before the chain, or says that no record is left.
fn exchange_piece(words: &Words, records: u64, has_links: bool, tally: &mut Tally) -> bool
    requires { records ≤ vec_len words.now.links }
{
    let from = words.next.fetch_add(PIECE, SeqCst);
    let to = from.saturating_add(PIECE).min(records);
    for rec in from..to {
        tally.count(if has_links {
            link_and_exchange(words, rec)
        } else {
            exchange(words, rec)
        });
    }
    from < to
}

fn exchange_all(words: &Words, records: u64, has_links: bool) -> Tally
    requires { records ≤ vec_len words.now.links }
{
    let mut tally = Tally::default();
    for _ in 0..=records {
        if !exchange_piece(words, records, has_links, &mut tally) {
            break;
        }
    }
    tally
}

/// Puts so many records before one chain, and stores the link of each or doesn't.
pub fn run<R: Threads + Clock + Sync>(
    rt: &R,
    alloc: Alloc,
    load: Load,
    has_links: bool,
) -> Result<Timed> {
    let words = new_words(alloc, load.records)?;
    let threads = if load.four { 4 } else { 1 };
    let start = Instant::now(rt)?;
    let tallies = thread::map_indices(
        rt,
        alloc,
        threads,
        &|_| exchange_all(&words, load.records, has_links),
    )?;
    let time = start.elapsed(rt)?;
    let mut tally = Tally::default();
    for part in tallies.iter() {
        tally = tally.and(*part);
    }
    Ok(Timed { tally, time })
}
